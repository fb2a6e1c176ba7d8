//! Items.
ghost use Rattle.std.specs.Prelude.{◌≡◌, ◌+◌, ◌-◌, ◌++◌, ◌<◌, ◌≤◌, ◌^◌, false, if◌then◌else◌, length, decimal, vec_len, IfOk, OnOk, Some, SomeIff};
ghost use Rattle.std.specs.Int.{w32, w64, from_le_bytes, to_le_bytes};
ghost use Rattle.memcache_model.specs.Items.{exptime_deadline, moment_has_come};
ghost use Rattle.memcache_model.specs.Outcomes.{new_item};
ghost use Rattle.memcache_service.specs.Labels.{labelled_item, packed_label, word_with};
ghost use Rattle.memcache_service.specs.Packing.{IsInRange, before_last, marks_leased, marks_room, marks_stale, marks_timed, last_of, room_size, room_with, takes_room, end_word};

use itoa::Buffer;
use memcache_model::Exptime;
use std::alloc::{AllocError, Global};
use std::marker::Model;

/// Uniques are at most this.
const MAX_UNIQUE: u64 = (1 << 60) - 1;

/// What a key has: its bytes, the client's flags, its unique, the moment at which it expires, in milliseconds of Unix time, whether it is
/// stale, and whether a client holds the lease to renew it.
///
/// It is one block of memory: behind the bytes stand 8 bytes more, or 20 if the item has flags or a deadline.
#[derive(Drop)]
pub struct StoredItem {
    // the bytes; flags and deadline, if there are any; the unique with four marks
    packed: Vec<u8>,
}

impl Model for StoredItem {
    ghost use Rattle.memcache_model.specs.Items.{Item};
    ghost use Rattle.memcache_service.specs.Packing.{IsPacked, unpacked};

    ghost Value = { Item };

    ghost view = { λ item. unpacked item.packed.items };

    ghost invariant = { λ item. IsPacked item.packed.items };
}

/// What an item has beside its bytes.
#[derive(Clone, Copy)]
pub struct Label {
    /// The client's flags.
    pub flags: u32,
    /// The unique, a number that a `cas` compares.
    pub unique: u64,
    /// The moment at which the item expires, in milliseconds of Unix time, or `None` if it does not.
    pub deadline: Option<u64>,
    /// Whether the item is stale.
    pub stale: bool,
    /// Whether a client holds the lease to renew the item.
    pub leased: bool,
}

impl Label {
    /// Returns what an item has that nobody has leased. The item gets its unique as it is stored.
    pub fn new(flags: u32, deadline: Option<u64>) -> Label
        ensures { result ≡ record {
          flags = flags;
          unique = 0;
          deadline = deadline;
          stale = false;
          leased = false;
        } }
    {
        Label {
            flags,
            unique: 0,
            deadline,
            stale: false,
            leased: false,
        }
    }

    /// Whether flags and deadline take room.
    fn takes_room(&self) -> bool
        ensures { result ≡ takes_room self.now.flags self.now.deadline }
    {
        self.flags != 0 || self.deadline.is_some()
    }

    /// The unique with the marks.
    fn word(&self) -> u64
        requires { self.now.unique < 2 ^ 60 }
        ensures { result ≡ word_with self.now }
    {
        let marks = mark(8, self.leased)
            + mark(4, self.stale)
            + mark(2, self.deadline.is_some())
            + mark(1, self.takes_room());
        self.unique * 16 + marks
    }

    /// Appends flags and deadline, if there are any. Returns an error if there is not enough memory.
    fn append_room(&self, packed: &mut Vec<u8>) -> Result<(), AllocError>
        ensures room { OnOk result (packed.new.items
            ≡ packed.old.items ++ room_with self.now.flags self.now.deadline) }
        ensures range { IsInRange self.now.flags self.now.deadline }
    {
        let flags = self.flags;
        let deadline = self.deadline.unwrap_or(0);
        if !self.takes_room() {
            return Ok(());
        }
        packed.extend_from_slice(&flags.to_le_bytes())?;
        packed.extend_from_slice(&deadline.to_le_bytes())?;
        Ok(())
    }

    /// Appends what stands behind an item's bytes. Returns an error if there is not enough memory.
    fn append(&self, packed: &mut Vec<u8>) -> Result<(), AllocError>
        requires { self.now.unique < 2 ^ 60 }
        ensures label { OnOk result
            (packed.new.items ≡ packed.old.items ++ packed_label self.now) }
        ensures range { IsInRange self.now.flags self.now.deadline }
    {
        self.append_room(packed)?;
        packed.extend_from_slice(&self.word().to_le_bytes())
    }

    /// How many bytes stand behind an item's bytes.
    fn size(&self) -> usize {
        if self.takes_room() { 20 } else { 8 }
    }
}

/// A mark, if it is set.
fn mark(mark: u64, is_set: bool) -> u64
    requires { mark ≤ 8 }
    ensures { result ≡ (if is_set then mark else 0) }
{
    if is_set { mark } else { 0 }
}

impl Clone for StoredItem {
    ghost is_clone = { λ old made. made ≡ old };

    fn clone(&self) -> Result<StoredItem, AllocError> {
        let alloc = *self.packed.allocator();
        let packed = Vec::from_slice(alloc, self.packed.as_slice())?;
        Ok(StoredItem { packed })
    }
}

impl StoredItem {
    /// Creates an item that nobody has leased. The item gets its unique as it is stored. Returns an error if there is not enough memory.
    pub fn new(
        alloc: Global,
        bytes: &[u8],
        flags: u32,
        deadline: Option<u64>,
    ) -> Result<StoredItem, AllocError>
        ensures { IfOk result (λ made. made ≡ new_item bytes.now flags deadline) }
    {
        StoredItem::joined(alloc, bytes, b"", Label::new(flags, deadline))
    }

    /// Creates an item of bytes and more behind them. Returns an error if there is not enough memory.
    pub fn joined(
        alloc: Global,
        first: &[u8],
        second: &[u8],
        label: Label,
    ) -> Result<StoredItem, AllocError>
        requires { label.unique < 2 ^ 60 }
        ensures { IfOk result (λ made. made ≡ labelled_item (first.now ++ second.now) label) }
    {
        let len = first.len().saturating_add(second.len());
        let mut packed = Vec::with_capacity(alloc, len.saturating_add(label.size()))?;
        packed.extend_from_slice(first)?;
        packed.extend_from_slice(second)?;
        label.append(&mut packed)?;
        Ok(StoredItem { packed })
    }

    /// Returns the item's bytes.
    pub fn bytes(&self) -> &[u8]
        ensures { result.now ≡ self.now.bytes }
    {
        let front = before_word(self.packed.as_slice());
        &front[..front.len() - room_size(last_word(self.packed.as_slice()))]
    }

    /// Returns the client's flags.
    pub fn flags(&self) -> u32
        ensures { result ≡ self.now.flags }
    {
        let front = before_word(self.packed.as_slice());
        if is_roomy(last_word(self.packed.as_slice())) {
            last_half(before_word(front))
        } else {
            0
        }
    }

    /// Returns the item's unique.
    pub fn unique(&self) -> u64
        ensures unique { result ≡ self.now.unique }
        ensures below { result < 2 ^ 60 }
    {
        last_word(self.packed.as_slice()) / 16
    }

    /// Returns the moment at which the item expires, in milliseconds of Unix time, or `None` if it does not.
    pub fn deadline(&self) -> Option<u64>
        ensures { result ≡ self.now.deadline }
    {
        let front = before_word(self.packed.as_slice());
        if is_timed(last_word(self.packed.as_slice())) {
            Some(last_word(front))
        } else {
            None
        }
    }

    /// Returns whether the item is stale.
    pub fn is_stale(&self) -> bool
        ensures { result ≡ self.now.stale }
    {
        is_stale(last_word(self.packed.as_slice()))
    }

    /// Returns whether a client holds the lease to renew the item.
    pub fn is_leased(&self) -> bool
        ensures { result ≡ self.now.leased }
    {
        is_leased(last_word(self.packed.as_slice()))
    }

    /// Returns what the item has beside its bytes.
    pub fn label(&self) -> Label
        ensures label { labelled_item self.now.bytes result ≡ self.now }
        ensures below { result.unique < 2 ^ 60 }
    {
        Label {
            flags: self.flags(),
            unique: self.unique(),
            deadline: self.deadline(),
            stale: self.is_stale(),
            leased: self.is_leased(),
        }
    }

    /// Returns whether the item's deadline has come at `moment`, in milliseconds of Unix time.
    pub fn has_expired(&self, moment: u64) -> bool
        ensures { result ≡ moment_has_come moment self.now.deadline }
    {
        match self.deadline() {
            Some(deadline) => deadline <= moment,
            None => false,
        }
    }

    /// Returns the item with another unique.
    pub fn with_unique(self, unique: u64) -> StoredItem
        requires { unique < 2 ^ 60 }
        ensures { result ≡ record self { unique = unique } }
    {
        let mut item = self;
        let marks = last_word(item.packed.as_slice()) % 16;
        put_last_word(&mut item.packed, unique * 16 + marks);
        item
    }

    /// Returns the item with another label. Returns an error if there is not enough memory.
    pub fn with_label(&self, alloc: Global, label: Label) -> Result<StoredItem, AllocError>
        requires { label.unique < 2 ^ 60 }
        ensures { IfOk result (λ made. made ≡ labelled_item self.now.bytes label) }
    {
        StoredItem::joined(alloc, self.bytes(), b"", label)
    }

    /// Returns the item with another deadline. Returns an error if there is not enough memory.
    pub fn with_deadline(
        &self,
        alloc: Global,
        deadline: Option<u64>,
    ) -> Result<StoredItem, AllocError>
        ensures { IfOk result (λ made. made ≡ record self.now { deadline = deadline }) }
    {
        let mut label = self.label();
        label.deadline = deadline;
        self.with_label(alloc, label)
    }

    /// Returns an item of a number, with a label. Returns an error if there is not enough memory.
    pub fn of_number(alloc: Global, number: u64, label: Label) -> Result<StoredItem, AllocError>
        requires { label.unique < 2 ^ 60 }
        ensures { IfOk result (λ made. made ≡ labelled_item (decimal number) label) }
    {
        let mut digits = Buffer::new();
        StoredItem::joined(alloc, digits.format(number).as_bytes(), b"", label)
    }

    /// Returns the item with a number in place of its bytes. Returns an error if there is not enough memory.
    pub fn with_number(&self, alloc: Global, number: u64) -> Result<StoredItem, AllocError>
        ensures { IfOk result (λ made. made ≡ record self.now { bytes = decimal number }) }
    {
        StoredItem::of_number(alloc, number, self.label())
    }

    /// Returns the item with more bytes behind its own. Returns an error if there is not enough memory.
    pub fn with_behind(&self, alloc: Global, more: &[u8]) -> Result<StoredItem, AllocError>
        ensures { IfOk result
            (λ made. made ≡ record self.now { bytes = self.now.bytes ++ more.now }) }
    {
        StoredItem::joined(alloc, self.bytes(), more, self.label())
    }

    /// Returns the item with more bytes before its own. Returns an error if there is not enough memory.
    pub fn with_before(&self, alloc: Global, more: &[u8]) -> Result<StoredItem, AllocError>
        ensures { IfOk result
            (λ made. made ≡ record self.now { bytes = more.now ++ self.now.bytes }) }
    {
        StoredItem::joined(alloc, more, self.bytes(), self.label())
    }
}

/// What stands before the last eight bytes.
fn before_word(bytes: &[u8]) -> &[u8]
    requires { 8 ≤ length bytes.now }
    ensures value { result.now ≡ before_last 8 bytes.now }
    ensures len { length result.now ≡ length bytes.now - 8 }
{
    &bytes[..bytes.len() - 8]
}

/// The number that the last eight bytes write.
fn last_word(bytes: &[u8]) -> u64
    requires { 8 ≤ length bytes.now }
    ensures { result ≡ end_word bytes.now }
{
    match bytes.last_chunk::<8>() {
        Some(chunk) => u64::from_le_bytes(*chunk),
        None => 0,
    }
}

/// The number that the last four bytes write.
fn last_half(bytes: &[u8]) -> u32
    requires { 4 ≤ length bytes.now }
    ensures { result ≡ from_le_bytes w32 (last_of 4 bytes.now) }
{
    match bytes.last_chunk::<4>() {
        Some(chunk) => u32::from_le_bytes(*chunk),
        None => 0,
    }
}

/// Whether a word marks that there is room for flags and a deadline.
fn is_roomy(word: u64) -> bool
    ensures { result ≡ marks_room word }
{
    1 <= word % 2
}

/// How many bytes flags and deadline take, by the word.
fn room_size(word: u64) -> usize
    ensures { result ≡ room_size (marks_room word) }
{
    if is_roomy(word) { 12 } else { 0 }
}

/// Whether a word marks that there is a deadline.
fn is_timed(word: u64) -> bool
    ensures { result ≡ marks_timed word }
{
    2 <= word % 4
}

/// Whether a word marks that the item is stale.
fn is_stale(word: u64) -> bool
    ensures { result ≡ marks_stale word }
{
    4 <= word % 8
}

/// Whether a word marks that a client holds the lease.
fn is_leased(word: u64) -> bool
    ensures { result ≡ marks_leased word }
{
    8 <= word % 16
}

/// Writes a number in place of the last eight bytes.
fn put_last_word(packed: &mut Vec<u8>, word: u64)
    requires { 8 ≤ vec_len packed.old }
    ensures { packed.new.items ≡ before_last 8 packed.old.items ++ to_le_bytes w64 word }
{
    packed.truncate(packed.len() - 8);
    packed.extend_from_slice(&word.to_le_bytes()).unwrap();
}

/// Returns the unique behind another, if there is one.
pub fn unique_behind(unique: u64) -> Option<u64>
    ensures { SomeIff result (unique + 1 < 2 ^ 60) (unique + 1) }
{
    if unique < MAX_UNIQUE {
        Some(unique + 1)
    } else {
        None
    }
}

/// Returns the moment at which an item expires that is written at `moment`, both in milliseconds of Unix time, or `None` if it does not
/// expire.
pub fn deadline_of(moment: u64, exptime: Exptime) -> Option<u64>
    requires { moment < 2 ^ 63 }
    ensures { result ≡ exptime_deadline moment exptime }
{
    match exptime {
        Exptime::Never => None,
        Exptime::AtOnce => Some(moment),
        Exptime::Seconds(seconds) => deadline_in(moment, seconds),
    }
}

/// The same for a number of seconds.
fn deadline_in(moment: u64, seconds: u32) -> Option<u64>
    requires { moment < 2 ^ 63 }
    ensures { result ≡ exptime_deadline moment (Exptime.Seconds seconds) }
{
    let milliseconds = 1000 * u64::from(seconds);
    if seconds <= 2_592_000 {
        Some(moment + milliseconds)
    } else {
        Some(milliseconds)
    }
}

//! What meta commands tell.
ghost use Rattle.std.specs.Prelude.{◌≡◌, ◌≤◌, ◌++◌, [], false, OnOk, codes, decimal, length, map, take, vec_capacity, if◌then◌else◌};
ghost use Rattle.std.specs.List.{concat};
ghost use Rattle.memcache_model.specs.Bytes.{tokens};
ghost use Rattle.memcache_model.specs.Meta.{code_alone, item_text, lease_text, left_text, stored_text, told_alone, told_by_letter, told_of_item};
ghost use Rattle.memcache_service.specs.Told.{told_item};

use super::flags::{has_flag, is_one_of, letter_of};
use crate::item::StoredItem;
use crate::replies::{say, say_number};
use memcache_lines::next_token;
use std::alloc::AllocError;

/// Who holds the lease of an item, as a `mg` tells it.
#[derive(Clone, Copy)]
pub struct Lease {
    /// Whether a client holds the lease.
    pub held: bool,
    /// Whether the item is stale.
    pub stale: bool,
    /// Whether this client wins the lease.
    pub wins: bool,
}

/// The letters that have a `mg` tell something.
pub const TOLD_TO_GET: &[u8] = b"kOstcf";

/// The letters that have a `ms` tell something.
pub const TOLD_TO_SET: &[u8] = b"kOc";

/// The letters that have a `ma` tell something.
pub const TOLD_TO_COUNT: &[u8] = b"kOtc";

/// What a reply tells of an item.
#[derive(Clone, Copy)]
pub struct Told<'a> {
    /// The letters that have something told.
    pub letters: &'static [u8],
    /// The key.
    pub key: &'a [u8],
    /// The item's bytes.
    pub bytes: &'a [u8],
    /// The item's unique.
    pub unique: u64,
    /// The client's flags.
    pub flags: u32,
    /// The moment at which the item expires, in milliseconds of Unix time, or `None` if it does not.
    pub deadline: Option<u64>,
    /// The moment of the request, in milliseconds of Unix time.
    pub moment: u64,
}

impl<'a> Told<'a> {
    /// Returns what these letters tell of an item that has this unique.
    pub fn new(
        letters: &'static [u8],
        key: &'a [u8],
        item: &'a StoredItem,
        unique: u64,
        moment: u64,
    ) -> Told<'a>
        ensures item { told_item result
            ≡ record item.now { unique = unique; stale = false; leased = false } }
        ensures letters { result.letters.now ≡ letters.now }
        ensures key { result.key.now ≡ key.now }
        ensures moment { result.moment ≡ moment }
    {
        Told {
            letters,
            key,
            bytes: item.bytes(),
            unique,
            flags: item.flags(),
            deadline: item.deadline(),
            moment,
        }
    }

    /// Appends the item as `mg` and `ma` tell it. Returns an error if there is not enough memory.
    pub fn say_item(
        &self,
        output: &mut Vec<u8>,
        flags: &[u8],
        lease: &Lease,
    ) -> Result<(), AllocError>
        ensures ok { OnOk result (output.new.items ≡ output.old.items
            ++ item_text self.now.letters.now self.now.moment self.now.key.now (told_item self.now)
            (tokens flags.now) (lease_text lease.now.held lease.now.stale lease.now.wins)) }
        ensures begun { take (length output.old.items) output.new.items ≡ output.old.items }
        ensures capacity { vec_capacity output.old ≤ vec_capacity output.new }
    {
        let shows = has_flag(b'v', flags);
        self.say_begin(output, shows)?;
        self.say_words(output, flags)?;
        lease.say(output)?;
        self.say_bytes(output, shows)
    }

    /// Writes how the reply of `mg` and `ma` begins.
    fn say_begin(&self, output: &mut Vec<u8>, shows: bool) -> Result<(), AllocError>
        ensures ok { OnOk result (output.new.items ≡ output.old.items
            ++ (if shows then codes "VA " ++ decimal (length self.now.bytes.now) else codes "HD")) }
        ensures begun { take (length output.old.items) output.new.items ≡ output.old.items }
        ensures capacity { vec_capacity output.old ≤ vec_capacity output.new }
    {
        if shows {
            say(output, b"VA ")?;
            say_number(output, self.bytes.len() as u64)
        } else {
            say(output, b"HD")
        }
    }

    /// Writes the bytes, if they are shown.
    fn say_bytes(&self, output: &mut Vec<u8>, shows: bool) -> Result<(), AllocError>
        ensures ok { OnOk result (output.new.items ≡ output.old.items
            ++ (if shows then self.now.bytes.now ++ codes "\r\n" else [])) }
        ensures begun { take (length output.old.items) output.new.items ≡ output.old.items }
        ensures capacity { vec_capacity output.old ≤ vec_capacity output.new }
    {
        if shows {
            say(output, self.bytes)?;
            say(output, b"\r\n")
        } else {
            Ok(())
        }
    }

    /// Appends the reply that the item is stored. Returns an error if there is not enough memory.
    pub fn say_stored(&self, output: &mut Vec<u8>, flags: &[u8]) -> Result<(), AllocError>
        ensures ok { OnOk result (output.new.items ≡ output.old.items
            ++ stored_text self.now.letters.now self.now.moment self.now.key.now (told_item self.now)
            (tokens flags.now)) }
        ensures begun { take (length output.old.items) output.new.items ≡ output.old.items }
        ensures capacity { vec_capacity output.old ≤ vec_capacity output.new }
    {
        say(output, b"HD")?;
        self.say_words(output, flags)?;
        say(output, b"\r\n")
    }

    /// Writes what the words of a request have told.
    fn say_words(&self, output: &mut Vec<u8>, flags: &[u8]) -> Result<(), AllocError>
        ensures ok { OnOk result (output.new.items ≡ output.old.items
            ++ concat (map (told_of_item self.now.letters.now self.now.moment self.now.key.now
            (told_item self.now)) (tokens flags.now))) }
        ensures begun { take (length output.old.items) output.new.items ≡ output.old.items }
        ensures capacity { vec_capacity output.old ≤ vec_capacity output.new }
    {
        let mut rest = flags;
        while let Some((word, more)) = next_token(rest) {
            self.say_word(output, word)?;
            rest = more;
        }
        Ok(())
    }

    /// Writes what a word has told.
    fn say_word(&self, output: &mut Vec<u8>, word: &[u8]) -> Result<(), AllocError>
        ensures ok { OnOk result (output.new.items ≡ output.old.items
            ++ told_of_item self.now.letters.now self.now.moment self.now.key.now
            (told_item self.now) word.now) }
        ensures begun { take (length output.old.items) output.new.items ≡ output.old.items }
        ensures capacity { vec_capacity output.old ≤ vec_capacity output.new }
    {
        if is_one_of(self.letters, letter_of(word)) {
            self.say_by_letter(output, word)
        } else {
            Ok(())
        }
    }

    /// Writes what a word tells by its letter.
    fn say_by_letter(&self, output: &mut Vec<u8>, word: &[u8]) -> Result<(), AllocError>
        ensures ok { OnOk result (output.new.items ≡ output.old.items
            ++ told_by_letter self.now.moment self.now.key.now (told_item self.now) word.now) }
        ensures begun { take (length output.old.items) output.new.items ≡ output.old.items }
        ensures capacity { vec_capacity output.old ≤ vec_capacity output.new }
    {
        match letter_of(word) {
            b'k' => say_with(output, b" k", self.key),
            b'O' => say_with(output, b" ", word),
            b's' => say_count(output, b" s", self.bytes.len() as u64),
            b't' => self.say_left(output),
            b'c' => say_count(output, b" c", self.unique),
            b'f' => say_count(output, b" f", u64::from(self.flags)),
            _ => Ok(()),
        }
    }

    /// Writes the seconds that are left.
    fn say_left(&self, output: &mut Vec<u8>) -> Result<(), AllocError>
        ensures ok { OnOk result (output.new.items ≡ output.old.items
            ++ (codes " t" ++ left_text self.now.moment self.now.deadline)) }
        ensures begun { take (length output.old.items) output.new.items ≡ output.old.items }
        ensures capacity { vec_capacity output.old ≤ vec_capacity output.new }
    {
        match self.deadline {
            Some(deadline) => {
                say_count(output, b" t", deadline.saturating_sub(self.moment) / 1000)
            }
            None => say(output, b" t-1"),
        }
    }
}

impl Lease {
    /// Writes who holds it, and the end of the line.
    fn say(&self, output: &mut Vec<u8>) -> Result<(), AllocError>
        ensures ok { OnOk result (output.new.items ≡ output.old.items
            ++ (lease_text self.now.held self.now.stale self.now.wins ++ codes "\r\n")) }
        ensures begun { take (length output.old.items) output.new.items ≡ output.old.items }
        ensures capacity { vec_capacity output.old ≤ vec_capacity output.new }
    {
        say_if(output, self.held, b" Z")?;
        say_if(output, self.stale, b" X")?;
        say_if(output, self.wins, b" W")?;
        say(output, b"\r\n")
    }
}

/// Writes a text, if it is to be written.
fn say_if(output: &mut Vec<u8>, is_said: bool, text: &[u8]) -> Result<(), AllocError>
    ensures ok { OnOk result (output.new.items ≡ output.old.items
        ++ (if is_said then text.now else [])) }
    ensures begun { take (length output.old.items) output.new.items ≡ output.old.items }
    ensures capacity { vec_capacity output.old ≤ vec_capacity output.new }
{
    if is_said { say(output, text) } else { Ok(()) }
}

/// Writes a text and another.
fn say_with(output: &mut Vec<u8>, first: &[u8], second: &[u8]) -> Result<(), AllocError>
    ensures ok { OnOk result (output.new.items ≡ output.old.items
        ++ (first.now ++ second.now)) }
    ensures begun { take (length output.old.items) output.new.items ≡ output.old.items }
    ensures capacity { vec_capacity output.old ≤ vec_capacity output.new }
{
    say(output, first)?;
    say(output, second)
}

/// Writes a text and a number.
fn say_count(output: &mut Vec<u8>, text: &[u8], number: u64) -> Result<(), AllocError>
    ensures ok { OnOk result (output.new.items ≡ output.old.items
        ++ (text.now ++ decimal number)) }
    ensures begun { take (length output.old.items) output.new.items ≡ output.old.items }
    ensures capacity { vec_capacity output.old ≤ vec_capacity output.new }
{
    say(output, text)?;
    say_number(output, number)
}

/// Appends a code, and what is told of no item. Returns an error if there is not enough memory.
pub fn say_alone(
    output: &mut Vec<u8>,
    code: &[u8],
    key: &[u8],
    flags: &[u8],
) -> Result<(), AllocError>
    ensures ok { OnOk result (output.new.items ≡ output.old.items
        ++ code_alone code.now key.now (tokens flags.now)) }
    ensures begun { take (length output.old.items) output.new.items ≡ output.old.items }
    ensures capacity { vec_capacity output.old ≤ vec_capacity output.new }
{
    say(output, code)?;
    say_alone_words(output, key, flags)?;
    say(output, b"\r\n")
}

/// Writes what the words of a request have told of no item.
fn say_alone_words(output: &mut Vec<u8>, key: &[u8], flags: &[u8]) -> Result<(), AllocError>
    ensures ok { OnOk result (output.new.items ≡ output.old.items
        ++ concat (map (told_alone key.now) (tokens flags.now))) }
    ensures begun { take (length output.old.items) output.new.items ≡ output.old.items }
    ensures capacity { vec_capacity output.old ≤ vec_capacity output.new }
{
    let mut rest = flags;
    while let Some((word, more)) = next_token(rest) {
        say_alone_word(output, key, word)?;
        rest = more;
    }
    Ok(())
}

/// Writes what a word has told of no item.
fn say_alone_word(output: &mut Vec<u8>, key: &[u8], word: &[u8]) -> Result<(), AllocError>
    ensures ok { OnOk result (output.new.items ≡ output.old.items
        ++ told_alone key.now word.now) }
    ensures begun { take (length output.old.items) output.new.items ≡ output.old.items }
    ensures capacity { vec_capacity output.old ≤ vec_capacity output.new }
{
    match letter_of(word) {
        b'k' => say_with(output, b" k", key),
        b'O' => say_with(output, b" ", word),
        _ => Ok(()),
    }
}

//! `get` and `gat`.
ghost use Rattle.std.specs.Prelude.{◌≡◌, ℕ, ◌≤◌, ◌∷◌, ◌++◌, [], codes, take, length, is_some, option_map, vec_capacity, IfOk, IsOk, MatchResult, OnOk, OnErr};
ghost use Rattle.memcache_model.specs.Answers.{tells_items, touches_one};
ghost use Rattle.memcache_model.specs.Bytes.{tokens};
ghost use Rattle.memcache_model.specs.Counts.{looked, no_looks, touches};
ghost use Rattle.memcache_model.specs.Items.{exptime_deadline};
ghost use Rattle.memcache_model.specs.Replies.{values_text};
ghost use Rattle.memcache_model.specs.Statistics.{sought};
ghost use Rattle.memcache_service.specs.Shelves.{Becomes, MayComeAt, UsesOne, live_on, lone_key};
ghost use Rattle.memcache_service.specs.Stocks.{Did, LeavesStock, Spares, Touches, stock_at, touch_reply};
ghost use Rattle.memcache_service.specs.Lines.{reply_text};

use super::Stock;
use crate::item::{StoredItem, deadline_of};
use crate::replies::{Reply, say, say_value, say_whole};
use crate::shelf::Shelf;
use audit_model::Key;
use memcache_lines::next_token;
use memcache_model::{Exptime, Looks};
use std::alloc::AllocError;

/// A reply has at most this many bytes: 64 MiB.
const MAX_REPLY: usize = 1 << 26;

impl<T: Shelf> Stock<T> {
    /// Appends the live items of the keys to `output`, uses them, and returns the rest of the reply. Returns an error if there is not
    /// enough memory; then the request has done nothing, and used no item.
    pub fn get(
        &mut self,
        uniques: bool,
        keys: &[u8],
        moment: u64,
        output: &mut Vec<u8>,
    ) -> Result<Reply, AllocError>
        requires { MayComeAt (T.view self.old.shelf) moment }
        ensures told { IfOk result (λ reply. (reply ≡ Reply.Written)
            × (output.new.items ≡ output.old.items
            ++ tells_items uniques (tokens keys.now) (stock_at T.view moment self.old).items)) }
        ensures begun { take (length output.old.items) output.new.items ≡ output.old.items }
        ensures capacity { vec_capacity output.old ≤ vec_capacity output.new }
        ensures keeps { LeavesStock T.view moment self.old self.new }
        ensures used { OnOk result
            (UsesOne T.uses moment (tokens keys.now) self.old.shelf self.new.shelf) }
        ensures counts { OnOk result (self.new.counters ≡ looked (sought
            (stock_at T.view moment self.old).items (tokens keys.now) no_looks) self.old.counters) }
        ensures err { OnErr result (Spares self.old self.new) }
    {
        match only_token(keys) {
            Some(key) => self.get_one(uniques, key, moment, output),
            None => self.get_all(uniques, keys, moment, output),
        }
    }

    /// Appends the live item of a key to `output`, uses it, and returns the rest of the reply. The key is looked up once. Returns an error if
    /// there is not enough memory; then the request has done nothing, and used no item.
    pub fn get_one(
        &mut self,
        uniques: bool,
        key: &[u8],
        moment: u64,
        output: &mut Vec<u8>,
    ) -> Result<Reply, AllocError>
        requires { MayComeAt (T.view self.old.shelf) moment }
        ensures told { IfOk result (λ reply. (reply ≡ Reply.Written)
            × (output.new.items ≡ output.old.items ++ tells_items uniques (key.now ∷ [])
            (stock_at T.view moment self.old).items)) }
        ensures begun { take (length output.old.items) output.new.items ≡ output.old.items }
        ensures capacity { vec_capacity output.old ≤ vec_capacity output.new }
        ensures keeps { LeavesStock T.view moment self.old self.new }
        ensures used { OnOk result (T.uses moment key.now self.old.shelf self.new.shelf) }
        ensures counts { OnOk result (self.new.counters ≡ looked (sought
            (stock_at T.view moment self.old).items (key.now ∷ []) no_looks) self.old.counters) }
        ensures err { OnErr result (Spares self.old self.new) }
    {
        self.key.fill(key)?;
        let found = self.shelf.look(&self.key, moment, output, |found, output| {
            say_only(output, uniques, key, found)
        })?;
        self.counters.look(Looks::one(found));
        Ok(Reply::Written)
    }

    /// The same as `get`, for any number of keys. A look-up may remove items that other keys name, so all are told before one is used.
    fn get_all(
        &mut self,
        uniques: bool,
        keys: &[u8],
        moment: u64,
        output: &mut Vec<u8>,
    ) -> Result<Reply, AllocError>
        requires { MayComeAt (T.view self.old.shelf) moment }
        ensures told { IfOk result (λ reply. (reply ≡ Reply.Written)
            × (output.new.items ≡ output.old.items
            ++ tells_items uniques (tokens keys.now) (stock_at T.view moment self.old).items)) }
        ensures begun { take (length output.old.items) output.new.items ≡ output.old.items }
        ensures capacity { vec_capacity output.old ≤ vec_capacity output.new }
        ensures keeps { LeavesStock T.view moment self.old self.new }
        ensures counts { OnOk result (self.new.counters ≡ looked (sought
            (stock_at T.view moment self.old).items (tokens keys.now) no_looks) self.old.counters) }
        ensures err { OnErr result (Spares self.old self.new) }
    {
        let looks = say_live(&self.shelf, &mut self.key, uniques, keys, moment, output)?;
        self.use_all(keys, moment);
        self.counters.look(looks);
        Ok(Reply::Written)
    }

    /// Uses the live items of the keys.
    fn use_all(&mut self, keys: &[u8], moment: u64)
        requires { MayComeAt (T.view self.old.shelf) moment }
        ensures stock { LeavesStock T.view moment self.old self.new }
        ensures counters { self.new.counters ≡ self.old.counters }
    {
        let mut rest = keys;
        while let Some((key, behind)) = next_token(rest) {
            self.use_one(key, moment);
            rest = behind;
        }
    }

    /// Uses the live item of a key, if it is there.
    fn use_one(&mut self, key: &[u8], moment: u64)
        requires { MayComeAt (T.view self.old.shelf) moment }
        ensures stock { LeavesStock T.view moment self.old self.new }
        ensures counters { self.new.counters ≡ self.old.counters }
    {
        if self.key.fill(key).is_ok() {
            note_use(&mut self.shelf, &self.key, moment);
        }
    }

    /// Appends the live items of the keys to `output`, gives them another expiry, and returns the rest of the reply. Returns an error if
    /// there is not enough memory; the keys before the one that lacked it then have the expiry.
    pub fn gat(
        &mut self,
        uniques: bool,
        exptime: Exptime,
        keys: &[u8],
        moment: u64,
        output: &mut Vec<u8>,
    ) -> Result<Reply, AllocError>
        requires { MayComeAt (T.view self.old.shelf) moment }
        ensures told { IfOk result (λ reply. (reply ≡ Reply.Written)
            × (output.new.items ≡ output.old.items
            ++ tells_items uniques (tokens keys.now) (stock_at T.view moment self.old).items)) }
        ensures begun { take (length output.old.items) output.new.items ≡ output.old.items }
        ensures capacity { vec_capacity output.old ≤ vec_capacity output.new }
        ensures ok { OnOk result (Touches T.view moment (exptime_deadline moment exptime)
            (tokens keys.now) self.old self.new) }
        ensures counts { MatchResult result (λ reply. self.new.counters ≡ touches (sought
            (stock_at T.view moment self.old).items (tokens keys.now) no_looks) self.old.counters)
            (λ e. self.new.counters ≡ self.old.counters) }
        ensures err { OnErr result ((count : ℕ)
            × Touches T.view moment (exptime_deadline moment exptime)
            (take count (tokens keys.now)) self.old self.new) }
        ensures may_follow { MayComeAt (T.view self.new.shelf) moment }
        ensures most { self.new.most ≡ self.old.most }
    {
        let looks = say_live(&self.shelf, &mut self.key, uniques, keys, moment, output)?;
        let deadline = deadline_of(moment, exptime);
        self.touch_all(keys, deadline, moment)?;
        self.counters.touch(looks);
        Ok(Reply::Written)
    }

    /// Gives the live items of the keys another deadline.
    fn touch_all(
        &mut self,
        keys: &[u8],
        deadline: Option<u64>,
        moment: u64,
    ) -> Result<(), AllocError>
        requires { MayComeAt (T.view self.old.shelf) moment }
        ensures ok { OnOk result
            (Touches T.view moment deadline (tokens keys.now) self.old self.new) }
        ensures err { OnErr result ((count : ℕ) × Touches T.view moment deadline
            (take count (tokens keys.now)) self.old self.new) }
        ensures counters { self.new.counters ≡ self.old.counters }
        ensures may_follow { MayComeAt (T.view self.new.shelf) moment }
        ensures most { self.new.most ≡ self.old.most }
    {
        let mut rest = keys;
        while let Some((key, behind)) = next_token(rest) {
            self.key.fill(key)?;
            self.retime(deadline, moment)?;
            rest = behind;
        }
        Ok(())
    }

    /// Gives the live item of the key that was named another deadline, and returns the reply. Returns an error if there is not enough
    /// memory; then the request has done nothing.
    pub fn retime(&mut self, deadline: Option<u64>, moment: u64) -> Result<Reply, AllocError>
        requires { MayComeAt (T.view self.old.shelf) moment }
        ensures ok { IfOk result (λ reply. Did T.view moment (touches_one self.old.key deadline
            ((stock_at T.view moment self.old).items self.old.key)
            (stock_at T.view moment self.old))
            self.old self.new (reply_text reply)) }
        ensures reply { IfOk result (λ reply. reply
            ≡ touch_reply ((stock_at T.view moment self.old).items self.old.key)) }
        ensures counters { self.new.counters ≡ self.old.counters }
        ensures err { OnErr result (Spares self.old self.new) }
    {
        let Some(old) = self.shelf.peek(&self.key, moment) else {
            return Ok(Reply::NotFound);
        };
        let item = old.with_deadline(self.alloc, deadline)?;
        self.shelf.put(&self.key, item, moment)?;
        Ok(Reply::Touched)
    }
}

/// Returns the key, if it is the only one.
fn only_token(keys: &[u8]) -> Option<&[u8]>
    ensures { option_map (λ key. key.now) result ≡ lone_key (tokens keys.now) }
{
    let (key, rest) = next_token(keys)?;
    match next_token(rest) {
        None => Some(key),
        Some(_) => None,
    }
}

/// Writes the live items of the keys, and the end, and returns how many there are.
fn say_live<T: Shelf>(
    shelf: &T,
    key: &mut Key,
    uniques: bool,
    keys: &[u8],
    moment: u64,
    output: &mut Vec<u8>,
) -> Result<Looks, AllocError>
    requires { MayComeAt (T.view shelf.now) moment }
    ensures looks { IfOk result (λ looks. looks
        ≡ sought (live_on (T.view shelf.now) moment) (tokens keys.now) no_looks) }
    ensures told { OnOk result (output.new.items ≡ output.old.items
        ++ tells_items uniques (tokens keys.now) (live_on (T.view shelf.now) moment)) }
    ensures begun { take (length output.old.items) output.new.items ≡ output.old.items }
    ensures capacity { vec_capacity output.old ≤ vec_capacity output.new }
{
    let start = output.len();
    let mut looks = Looks::none();
    let mut rest = keys;
    while let Some((word, behind)) = next_token(rest) {
        key.fill(word)?;
        let found = say_one(shelf, key, uniques, moment, output)?;
        looks.note(found);
        check_size(start, output.len())?;
        rest = behind;
    }
    say(output, b"END\r\n")?;
    Ok(looks)
}

/// Writes the live item of a key, if there is one, and returns whether there is. If it is refused, nothing is written.
fn say_one<T: Shelf>(
    shelf: &T,
    key: &Key,
    uniques: bool,
    moment: u64,
    output: &mut Vec<u8>,
) -> Result<bool, AllocError>
    requires { MayComeAt (T.view shelf.now) moment }
    ensures ok { OnOk result (output.new.items ≡ output.old.items
        ++ values_text uniques key.now (live_on (T.view shelf.now) moment key.now)) }
    ensures found { IfOk result (λ found. found
        ≡ is_some (live_on (T.view shelf.now) moment key.now)) }
    ensures err { OnErr result (output.new.items ≡ output.old.items) }
    ensures capacity { vec_capacity output.old ≤ vec_capacity output.new }
{
    match shelf.peek(key, moment) {
        Some(item) => {
            say_value(output, uniques, key.as_bytes(), item)?;
            Ok(true)
        }
        None => Ok(false),
    }
}

/// Writes an item that was found, if there is one, and the end, as the reply of a `get` of one key. Returns whether there is an item, and an
/// error if there is not enough memory; then nothing is written.
fn say_only(
    output: &mut Vec<u8>,
    uniques: bool,
    key: &[u8],
    found: Option<&StoredItem>,
) -> Result<bool, AllocError>
    ensures ok { OnOk result (output.new.items ≡ output.old.items
        ++ (values_text uniques key.now (option_map (λ item. item.now) found.entry)
        ++ codes "END\r\n")) }
    ensures found { IfOk result (λ is_there. is_there
        ≡ is_some (option_map (λ item. item.now) found.entry)) }
    ensures err { OnErr result (output.new.items ≡ output.old.items) }
    ensures capacity { vec_capacity output.old ≤ vec_capacity output.new }
{
    match found {
        Some(item) => {
            if item.bytes().len() > MAX_REPLY {
                return Err(AllocError);
            }
            say_whole(output, uniques, key, item)?;
            Ok(true)
        }
        None => {
            say(output, b"END\r\n")?;
            Ok(false)
        }
    }
}

/// Uses the live item of a key, and returns whether there is one.
pub fn note_use<T: Shelf>(shelf: &mut T, key: &Key, moment: u64) -> bool
    requires { MayComeAt (T.view shelf.old) moment }
    ensures used { T.uses moment key.now shelf.old shelf.new }
    ensures becomes { Becomes moment ((T.view shelf.old).items moment) (T.view shelf.new) }
    ensures capacity { (T.view shelf.new).capacity ≡ (T.view shelf.old).capacity }
{
    let mut nothing = ();
    let looked = shelf.look(
        key,
        moment,
        &mut nothing,
        |found: Option<&StoredItem>, _: &mut ()| -> Result<bool, AllocError>
            ensures { IsOk result }
        { Ok(found.is_some()) },
    );
    match looked {
        Ok(found) => found,
        Err(AllocError) => unreachable!(),
    }
}

/// Refuses a reply from `start` to `end` that is longer than it may be.
fn check_size(start: usize, end: usize) -> Result<(), AllocError> {
    if end.saturating_sub(start) > MAX_REPLY {
        Err(AllocError)
    } else {
        Ok(())
    }
}

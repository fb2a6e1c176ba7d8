//! The meta commands.
ghost use Rattle.std.specs.Prelude.{◌≡◌, ◌+◌, ◌≤◌, ◌<◌, ◌^◌, ◌++◌, ◌&&◌, ◌||◌, ℕ, [], not, true, false, codes, if◌then◌else◌, length, take, None, Some, IfOk, OnOk, OnErr, MatchOption, is_some, option_map, vec_capacity};
ghost use Rattle.std.specs.Option.{option_or};
ghost use Rattle.memcache_model.specs.Answers.{passes_over};
ghost use Rattle.memcache_model.specs.Bytes.{tokens};
ghost use Rattle.memcache_model.specs.Counts.{looked, no_looks, noted, touches};
ghost use Rattle.memcache_model.specs.Items.{Item};
ghost use Rattle.memcache_model.specs.Statistics.{compared_badly, compared_well, meta_compared, meta_counts, meta_set_counts, meta_summed, sum_made};
ghost use Rattle.memcache_model.specs.Meta.{code_alone, count_fault, direction_of, flags_fault, goes_on, ends_before, has_flag, exptime_of, is_other, is_renewed, item_text, meta_answer, meta_arithmetic, meta_compare, meta_counted, meta_get, meta_get_none, meta_item, meta_put, meta_set_answer, meta_stored, mode_of, names_none, retimed_by, set_fault, stored_text, told_to_count, told_to_set, unless_faulty, unless_quiet};
ghost use Rattle.memcache_model.specs.Outcomes.{changes};
ghost use Rattle.memcache_service.specs.Lines.{reply_text, said_from};
ghost use Rattle.memcache_service.specs.Shelves.{MayComeAt, live_on};
ghost use Rattle.memcache_service.specs.Stocks.{Did, LeavesAll, Spares, meta_fault, stock_at};
ghost use Rattle.memcache_service.specs.Told.{found_item, late_by, moded, renewed_item, told_found};

use super::Stock;
use super::flags::{
    count_fault, direction_of, exptime_of, flags_fault, flags_of, has_flag, is_one_of, mode_of,
    number_of, set_fault,
};
use super::keys::{count_hit, count_miss, counted};
use super::reading::note_use;
use super::storing::{before_within, behind_within};
use super::telling::{Lease, TOLD_TO_COUNT, TOLD_TO_GET, TOLD_TO_SET, Told, say_alone};
use crate::item::{Label, StoredItem, deadline_of};
use crate::replies::Reply;
use crate::shelf::Shelf;
use memcache_lines::number;
use memcache_model::{Counters, Exptime, Looks, Meta, Storage, up};
use std::alloc::{AllocError, Global};

/// Nobody holds a lease, nor wins one.
const NO_LEASE: Lease = Lease {
    held: false,
    stale: false,
    wins: false,
};

/// The key and the flags of a meta command, and the moment at which it comes.
#[derive(Clone, Copy)]
struct Asked<'a> {
    key: &'a [u8],
    flags: &'a [u8],
    moment: u64,
}

impl<T: Shelf> Stock<T> {
    /// Does what a meta command on a key asks for, and returns the reply, or `Written` if it is in `output`. Returns an error if there is
    /// not enough memory; then the request has done nothing.
    pub fn meta(
        &mut self,
        kind: Meta,
        key: &[u8],
        flags: &[u8],
        moment: u64,
        output: &mut Vec<u8>,
    ) -> Result<Reply, AllocError>
        requires { MayComeAt (T.view self.old.shelf) moment }
        ensures ok { IfOk result (λ reply. Did T.view moment
            (meta_answer moment kind key.now (tokens flags.now)
            ((stock_at T.view moment self.old).items key.now) (stock_at T.view moment self.old))
            self.old self.new (said_from (length output.old.items) output.new.items reply)) }
        ensures counts { OnOk result (self.new.counters ≡ meta_counts kind (tokens flags.now)
            ((stock_at T.view moment self.old).items key.now) self.old.counters) }
        ensures err { OnErr result (Spares self.old self.new) }
        ensures wants { OnErr result (meta_fault kind (tokens flags.now) ≡ None) }
        ensures begun { take (length output.old.items) output.new.items ≡ output.old.items }
        ensures capacity { vec_capacity output.old ≤ vec_capacity output.new }
    {
        let asked = Asked { key, flags, moment };
        match kind {
            Meta::Get => self.meta_get(asked, output),
            Meta::Delete => self.meta_delete(asked, output),
            Meta::Arithmetic => self.meta_arithmetic(asked, output),
        }
    }

    /// Does what a `ms` asks for, and returns the reply, or `Written` if it is in `output`. Returns an error if there is not enough memory;
    /// then the request has done nothing.
    pub fn meta_set(
        &mut self,
        key: &[u8],
        flags: &[u8],
        block: &[u8],
        moment: u64,
        output: &mut Vec<u8>,
    ) -> Result<Reply, AllocError>
        requires { MayComeAt (T.view self.old.shelf) moment }
        ensures ok { IfOk result (λ reply. Did T.view moment
            (meta_set_answer self.old.most moment key.now (tokens flags.now)
            block.now ((stock_at T.view moment self.old).items key.now)
            (stock_at T.view moment self.old))
            self.old self.new (said_from (length output.old.items) output.new.items reply)) }
        ensures counts { OnOk result (self.new.counters ≡ meta_set_counts (tokens flags.now)
            ((stock_at T.view moment self.old).items key.now) self.old.counters) }
        ensures err { OnErr result (Spares self.old self.new) }
        ensures wants { OnErr result (set_fault (tokens flags.now) ≡ None) }
        ensures begun { take (length output.old.items) output.new.items ≡ output.old.items }
        ensures capacity { vec_capacity output.old ≤ vec_capacity output.new }
    {
        let asked = Asked { key, flags, moment };
        self.meta_put(asked, block, output)
    }

    /// Passes over the block of a `ms` that was too large, and returns the reply. If its flags are right, the key's item is removed. Returns
    /// an error if there is not enough memory; then the request has done nothing.
    pub fn meta_pass_over(
        &mut self,
        key: &[u8],
        flags: &[u8],
        moment: u64,
    ) -> Result<Reply, AllocError>
        requires { MayComeAt (T.view self.old.shelf) moment }
        ensures ok { IfOk result (λ reply. Did T.view moment
            (unless_faulty (set_fault (tokens flags.now)) (passes_over Storage.Set key.now
            (stock_at T.view moment self.old)) (stock_at T.view moment self.old))
            self.old self.new (reply_text reply)) }
        ensures counters { self.new.counters ≡ self.old.counters }
        ensures err { OnErr result (Spares self.old self.new) }
        ensures wants { OnErr result (set_fault (tokens flags.now) ≡ None) }
    {
        match set_fault(flags) {
            Some(error) => Ok(Reply::Fault(error)),
            None => self.pass_over(Storage::Set, key, moment),
        }
    }

    /// `mg`.
    fn meta_get(&mut self, asked: Asked<'_>, output: &mut Vec<u8>) -> Result<Reply, AllocError>
        requires { MayComeAt (T.view self.old.shelf) asked.moment }
        ensures ok { IfOk result (λ reply. Did T.view asked.entry.moment
            (meta_answer asked.entry.moment Meta.Get asked.entry.key.now
            (tokens asked.entry.flags.now)
            ((stock_at T.view asked.entry.moment self.old).items asked.entry.key.now)
            (stock_at T.view asked.entry.moment self.old))
            self.old self.new (said_from (length output.old.items) output.new.items reply)) }
        ensures counts { OnOk result (self.new.counters ≡ meta_counts Meta.Get
            (tokens asked.entry.flags.now)
            ((stock_at T.view asked.entry.moment self.old).items asked.entry.key.now)
            self.old.counters) }
        ensures err { OnErr result (Spares self.old self.new) }
        ensures wants { OnErr result (flags_fault (tokens asked.entry.flags.now) ≡ None) }
        ensures begun { take (length output.old.items) output.new.items ≡ output.old.items }
        ensures capacity { vec_capacity output.old ≤ vec_capacity output.new }
    {
        if let Some(error) = flags_fault(asked.flags) {
            return Ok(Reply::Fault(error));
        }
        self.key.fill(asked.key)?;
        let Some(item) = self.shelf.peek(&self.key, asked.moment) else {
            let reply = self.meta_vivify(asked, output)?;
            self.counters.look(Looks::one(false));
            return Ok(reply);
        };
        let changed = say_found(self.alloc, asked, item, output)?;
        self.renew(changed, asked.moment)?;
        count_found(&mut self.counters, asked.flags);
        Ok(Reply::Written)
    }

    /// Gives the key what its live item becomes. One that stays as it is is used.
    #[tactic(auto, using(crate::proofs::Keeping::same_item))]
    fn renew(&mut self, changed: Option<StoredItem>, moment: u64) -> Result<(), AllocError>
        requires { MayComeAt (T.view self.old.shelf) moment }
        ensures ok { (found : Item) → MatchOption changed
            (live_on (T.view self.old.shelf) moment self.old.key ≡ Some found) (λ c. c ≡ found)
            → OnOk result (LeavesAll T.view moment (changes [] self.old.key (Some found)
            (stock_at T.view moment self.old)).stock self.old self.new) }
        ensures counters { self.new.counters ≡ self.old.counters }
        ensures err { OnErr result (Spares self.old self.new) }
    {
        match changed {
            Some(item) => self.shelf.put(&self.key, item, moment),
            None => {
                note_use(&mut self.shelf, &self.key, moment);
                Ok(())
            }
        }
    }

    /// `mg` of a key without a live item.
    fn meta_vivify(&mut self, asked: Asked<'_>, output: &mut Vec<u8>) -> Result<Reply, AllocError>
        requires in_time { MayComeAt (T.view self.old.shelf) asked.moment }
        requires named { self.old.key ≡ asked.key.now }
        ensures ok { IfOk result (λ reply. Did T.view asked.entry.moment
            (meta_get asked.entry.moment self.old.key
            (tokens asked.entry.flags.now) None (stock_at T.view asked.entry.moment self.old))
            self.old self.new (said_from (length output.old.items) output.new.items reply)) }
        ensures counters { self.new.counters ≡ self.old.counters }
        ensures err { OnErr result (Spares self.old self.new) }
        ensures begun { take (length output.old.items) output.new.items ≡ output.old.items }
        ensures capacity { vec_capacity output.old ≤ vec_capacity output.new }
    {
        let Some(exptime) = exptime_of(b'N', asked.flags) else {
            if !has_flag(b'q', asked.flags) {
                say_alone(output, b"EN", asked.key, asked.flags)?;
            }
            return Ok(Reply::Written);
        };
        self.put_leased(asked, exptime, output)
    }

    /// Stores an empty item whose lease the client wins, and tells it.
    fn put_leased(
        &mut self,
        asked: Asked<'_>,
        exptime: Exptime,
        output: &mut Vec<u8>,
    ) -> Result<Reply, AllocError>
        requires in_time { MayComeAt (T.view self.old.shelf) asked.moment }
        requires named { self.old.key ≡ asked.key.now }
        ensures ok { IfOk result (λ reply. Did T.view asked.entry.moment
            (meta_get_none asked.entry.moment self.old.key (tokens asked.entry.flags.now)
            (Some exptime) (stock_at T.view asked.entry.moment self.old))
            self.old self.new (said_from (length output.old.items) output.new.items reply)) }
        ensures counters { self.new.counters ≡ self.old.counters }
        ensures err { OnErr result (Spares self.old self.new) }
        ensures begun { take (length output.old.items) output.new.items ≡ output.old.items }
        ensures capacity { vec_capacity output.old ≤ vec_capacity output.new }
    {
        let deadline = deadline_of(asked.moment, exptime);
        let mut label = Label::new(0, deadline);
        label.leased = true;
        let item = StoredItem::joined(self.alloc, b"", b"", label)?;
        let lease = Lease {
            held: false,
            stale: false,
            wins: true,
        };
        let unique = self.next_unique();
        let told = Told::new(TOLD_TO_GET, asked.key, &item, unique, asked.moment);
        told.say_item(output, asked.flags, &lease)?;
        self.put(item, asked.moment)?;
        Ok(Reply::Written)
    }

    /// The unique that the next item gets that is stored.
    fn next_unique(&self) -> u64
        ensures { self.now.uniques + 1 < 2 ^ 64 → result ≡ self.now.uniques + 1 }
    {
        self.uniques.saturating_add(1)
    }

    /// `md`.
    fn meta_delete(&mut self, asked: Asked<'_>, output: &mut Vec<u8>) -> Result<Reply, AllocError>
        requires { MayComeAt (T.view self.old.shelf) asked.moment }
        ensures ok { IfOk result (λ reply. Did T.view asked.entry.moment
            (meta_answer asked.entry.moment Meta.Delete asked.entry.key.now
            (tokens asked.entry.flags.now)
            ((stock_at T.view asked.entry.moment self.old).items asked.entry.key.now)
            (stock_at T.view asked.entry.moment self.old))
            self.old self.new (said_from (length output.old.items) output.new.items reply)) }
        ensures counts { OnOk result (self.new.counters ≡ meta_counts Meta.Delete
            (tokens asked.entry.flags.now)
            ((stock_at T.view asked.entry.moment self.old).items asked.entry.key.now)
            self.old.counters) }
        ensures err { OnErr result (Spares self.old self.new) }
        ensures wants { OnErr result (flags_fault (tokens asked.entry.flags.now) ≡ None) }
        ensures begun { take (length output.old.items) output.new.items ≡ output.old.items }
        ensures capacity { vec_capacity output.old ≤ vec_capacity output.new }
    {
        if let Some(error) = flags_fault(asked.flags) {
            return Ok(Reply::Fault(error));
        }
        self.key.fill(asked.key)?;
        let Some(item) = self.shelf.peek(&self.key, asked.moment) else {
            let reply = refuse(b"NF", asked, output)?;
            up(&mut self.counters.delete_misses);
            return Ok(reply);
        };
        if is_other(asked.flags, item) {
            let reply = refuse(b"EX", asked, output)?;
            up(&mut self.counters.delete_misses);
            return Ok(reply);
        }
        say_deleted(asked, output)?;
        if has_flag(b'I', asked.flags) {
            let changed = stale_item(self.alloc, asked, item)?;
            self.put(changed, asked.moment)?;
        } else {
            self.shelf.remove(&self.key, asked.moment)?;
            up(&mut self.counters.delete_hits);
        }
        Ok(Reply::Written)
    }

    /// `ma`.
    fn meta_arithmetic(
        &mut self,
        asked: Asked<'_>,
        output: &mut Vec<u8>,
    ) -> Result<Reply, AllocError>
        requires { MayComeAt (T.view self.old.shelf) asked.moment }
        ensures ok { IfOk result (λ reply. Did T.view asked.entry.moment
            (meta_answer asked.entry.moment Meta.Arithmetic asked.entry.key.now
            (tokens asked.entry.flags.now)
            ((stock_at T.view asked.entry.moment self.old).items asked.entry.key.now)
            (stock_at T.view asked.entry.moment self.old))
            self.old self.new (said_from (length output.old.items) output.new.items reply)) }
        ensures counts { OnOk result (self.new.counters ≡ meta_counts Meta.Arithmetic
            (tokens asked.entry.flags.now)
            ((stock_at T.view asked.entry.moment self.old).items asked.entry.key.now)
            self.old.counters) }
        ensures err { OnErr result (Spares self.old self.new) }
        ensures wants { OnErr result (count_fault (tokens asked.entry.flags.now) ≡ None) }
        ensures begun { take (length output.old.items) output.new.items ≡ output.old.items }
        ensures capacity { vec_capacity output.old ≤ vec_capacity output.new }
    {
        if let Some(error) = count_fault(asked.flags) {
            return Ok(Reply::Fault(error));
        }
        self.key.fill(asked.key)?;
        let Some(item) = self.shelf.peek(&self.key, asked.moment) else {
            return self.meta_first(asked, output);
        };
        if is_other(asked.flags, item) && !names_none(asked.flags) {
            return refuse(b"EX", asked, output);
        }
        let Some(old) = number(item.bytes()) else {
            return Ok(Reply::NoNumber);
        };
        let delta = number_of(b'D', asked.flags).unwrap_or(1);
        let count = counted(direction_of(asked.flags), old, delta);
        let mut label = item.label();
        label.deadline = retimed(asked, item);
        let changed = StoredItem::of_number(self.alloc, count, label)?;
        self.put_sum(asked, changed, output)
    }

    /// Stores a number that was counted up or down, and tells it, unless the request is quiet.
    fn put_sum(
        &mut self,
        asked: Asked<'_>,
        item: StoredItem,
        output: &mut Vec<u8>,
    ) -> Result<Reply, AllocError>
        requires in_time { MayComeAt (T.view self.old.shelf) asked.moment }
        requires named { self.old.key ≡ asked.key.now }
        ensures ok { IfOk result (λ reply. Did T.view asked.entry.moment
            (meta_counted asked.entry.moment (has_flag (codes "q") (tokens asked.entry.flags.now))
            self.old.key (tokens asked.entry.flags.now) item
            (stock_at T.view asked.entry.moment self.old))
            self.old self.new (said_from (length output.old.items) output.new.items reply)) }
        ensures counts { OnOk result (self.new.counters
            ≡ sum_made (direction_of (tokens asked.entry.flags.now)) self.old.counters) }
        ensures err { OnErr result (Spares self.old self.new) }
        ensures begun { take (length output.old.items) output.new.items ≡ output.old.items }
        ensures capacity { vec_capacity output.old ≤ vec_capacity output.new }
    {
        let is_quiet = has_flag(b'q', asked.flags);
        let reply = self.put_number(asked, is_quiet, item, output)?;
        count_hit(&mut self.counters, direction_of(asked.flags));
        Ok(reply)
    }

    /// `ma` of a key without a live item.
    fn meta_first(&mut self, asked: Asked<'_>, output: &mut Vec<u8>) -> Result<Reply, AllocError>
        requires in_time { MayComeAt (T.view self.old.shelf) asked.moment }
        requires named { self.old.key ≡ asked.key.now }
        ensures ok { IfOk result (λ reply. Did T.view asked.entry.moment
            (meta_arithmetic asked.entry.moment self.old.key
            (tokens asked.entry.flags.now) None (stock_at T.view asked.entry.moment self.old))
            self.old self.new (said_from (length output.old.items) output.new.items reply)) }
        ensures counts { OnOk result (self.new.counters
            ≡ meta_summed (tokens asked.entry.flags.now) None self.old.counters) }
        ensures err { OnErr result (Spares self.old self.new) }
        ensures begun { take (length output.old.items) output.new.items ≡ output.old.items }
        ensures capacity { vec_capacity output.old ≤ vec_capacity output.new }
    {
        let Some(exptime) = exptime_of(b'N', asked.flags) else {
            let reply = refuse(b"NF", asked, output)?;
            count_miss(&mut self.counters, direction_of(asked.flags));
            return Ok(reply);
        };
        let first = number_of(b'J', asked.flags).unwrap_or(0);
        let deadline = deadline_of(asked.moment, exptime);
        let item = StoredItem::of_number(self.alloc, first, Label::new(0, deadline))?;
        self.put_number(asked, false, item, output)
    }

    /// Stores a number, and tells it, unless it is to be quiet.
    fn put_number(
        &mut self,
        asked: Asked<'_>,
        is_quiet: bool,
        item: StoredItem,
        output: &mut Vec<u8>,
    ) -> Result<Reply, AllocError>
        requires in_time { MayComeAt (T.view self.old.shelf) asked.moment }
        requires named { self.old.key ≡ asked.key.now }
        ensures ok { IfOk result (λ reply. Did T.view asked.entry.moment
            (meta_counted asked.entry.moment is_quiet self.old.key
            (tokens asked.entry.flags.now) item (stock_at T.view asked.entry.moment self.old))
            self.old self.new (said_from (length output.old.items) output.new.items reply)) }
        ensures counters { self.new.counters ≡ self.old.counters }
        ensures err { OnErr result (Spares self.old self.new) }
        ensures begun { take (length output.old.items) output.new.items ≡ output.old.items }
        ensures capacity { vec_capacity output.old ≤ vec_capacity output.new }
    {
        say_counted(asked, is_quiet, &item, self.next_unique(), output)?;
        self.put(item, asked.moment)?;
        Ok(Reply::Written)
    }

    /// `ms`.
    fn meta_put(
        &mut self,
        asked: Asked<'_>,
        block: &[u8],
        output: &mut Vec<u8>,
    ) -> Result<Reply, AllocError>
        requires { MayComeAt (T.view self.old.shelf) asked.moment }
        ensures ok { IfOk result (λ reply. Did T.view asked.entry.moment
            (meta_set_answer self.old.most asked.entry.moment asked.entry.key.now
            (tokens asked.entry.flags.now) block.now
            ((stock_at T.view asked.entry.moment self.old).items asked.entry.key.now)
            (stock_at T.view asked.entry.moment self.old))
            self.old self.new (said_from (length output.old.items) output.new.items reply)) }
        ensures counts { OnOk result (self.new.counters ≡ meta_set_counts
            (tokens asked.entry.flags.now)
            ((stock_at T.view asked.entry.moment self.old).items asked.entry.key.now)
            self.old.counters) }
        ensures err { OnErr result (Spares self.old self.new) }
        ensures wants { OnErr result (set_fault (tokens asked.entry.flags.now) ≡ None) }
        ensures begun { take (length output.old.items) output.new.items ≡ output.old.items }
        ensures capacity { vec_capacity output.old ≤ vec_capacity output.new }
    {
        if let Some(error) = set_fault(asked.flags) {
            return Ok(Reply::Fault(error));
        }
        self.key.fill(asked.key)?;
        let reply = match number_of(b'C', asked.flags) {
            Some(unique) => self.meta_compare(asked, unique, block, output)?,
            None => {
                let mode = mode_of(b'S', asked.flags);
                self.meta_put_by_mode(asked, mode, block, output)?
            }
        };
        up(&mut self.counters.cmd_set);
        Ok(reply)
    }

    /// `ms` with a unique.
    fn meta_compare(
        &mut self,
        asked: Asked<'_>,
        unique: u64,
        block: &[u8],
        output: &mut Vec<u8>,
    ) -> Result<Reply, AllocError>
        requires in_time { MayComeAt (T.view self.old.shelf) asked.moment }
        requires named { self.old.key ≡ asked.key.now }
        ensures ok { IfOk result (λ reply. Did T.view asked.entry.moment
            (meta_compare self.old.most asked.entry.moment
            (mode_of (codes "S") (tokens asked.entry.flags.now)) unique self.old.key
            (tokens asked.entry.flags.now)
            (meta_item asked.entry.moment
            (tokens asked.entry.flags.now) block.now)
            ((stock_at T.view asked.entry.moment self.old).items self.old.key)
            (stock_at T.view asked.entry.moment self.old))
            self.old self.new (said_from (length output.old.items) output.new.items reply)) }
        ensures counts { OnOk result (self.new.counters ≡ meta_compared
            (mode_of (codes "S") (tokens asked.entry.flags.now)) unique
            (tokens asked.entry.flags.now)
            ((stock_at T.view asked.entry.moment self.old).items self.old.key)
            self.old.counters) }
        ensures err { OnErr result (Spares self.old self.new) }
        ensures begun { take (length output.old.items) output.new.items ≡ output.old.items }
        ensures capacity { vec_capacity output.old ≤ vec_capacity output.new }
    {
        let mode = mode_of(b'S', asked.flags);
        let Some(held) = self.shelf.peek(&self.key, asked.moment) else {
            return self.meta_compare_none(asked, mode, block, output);
        };
        if goes_on(mode, unique, held) {
            return self.meta_put_matched(asked, mode, block, output);
        }
        if !is_renewed(mode, unique, asked.flags, held) {
            let reply = refuse(b"EX", asked, output)?;
            count_compared(&mut self.counters, mode, false);
            return Ok(reply);
        }
        let item = renewed_item(self.alloc, asked, block, held)?;
        self.put_renewed(asked, mode, item, output)
    }

    /// `ms` with a unique, of a key without a live item.
    fn meta_compare_none(
        &mut self,
        asked: Asked<'_>,
        mode: u8,
        block: &[u8],
        output: &mut Vec<u8>,
    ) -> Result<Reply, AllocError>
        requires in_time { MayComeAt (T.view self.old.shelf) asked.moment }
        requires named { self.old.key ≡ asked.key.now }
        requires none { live_on (T.view self.old.shelf) asked.moment self.old.key ≡ None }
        ensures ok { (unique : ℕ) → IfOk result (λ reply. Did T.view asked.entry.moment
            (meta_compare self.old.most asked.entry.moment mode unique self.old.key
            (tokens asked.entry.flags.now)
            (meta_item asked.entry.moment (tokens asked.entry.flags.now) block.now)
            None (stock_at T.view asked.entry.moment self.old))
            self.old self.new (said_from (length output.old.items) output.new.items reply)) }
        ensures counts { (unique : ℕ) → OnOk result (self.new.counters ≡ meta_compared mode unique
            (tokens asked.entry.flags.now) None self.old.counters) }
        ensures err { OnErr result (Spares self.old self.new) }
        ensures begun { take (length output.old.items) output.new.items ≡ output.old.items }
        ensures capacity { vec_capacity output.old ≤ vec_capacity output.new }
    {
        if is_one_of(b"SR", mode) {
            let reply = refuse(b"NF", asked, output)?;
            up(&mut self.counters.cas_misses);
            return Ok(reply);
        }
        self.meta_put_by_mode(asked, mode, block, output)
    }

    /// Stores a block by its mode over an item that the unique allows.
    fn meta_put_matched(
        &mut self,
        asked: Asked<'_>,
        mode: u8,
        block: &[u8],
        output: &mut Vec<u8>,
    ) -> Result<Reply, AllocError>
        requires in_time { MayComeAt (T.view self.old.shelf) asked.moment }
        requires named { self.old.key ≡ asked.key.now }
        ensures ok { IfOk result (λ reply. Did T.view asked.entry.moment
            (meta_put self.old.most asked.entry.moment mode self.old.key
            (tokens asked.entry.flags.now)
            (meta_item asked.entry.moment
            (tokens asked.entry.flags.now) block.now)
            ((stock_at T.view asked.entry.moment self.old).items self.old.key)
            (stock_at T.view asked.entry.moment self.old))
            self.old self.new (said_from (length output.old.items) output.new.items reply)) }
        ensures counts { OnOk result
            (self.new.counters ≡ compared_well mode self.old.counters) }
        ensures err { OnErr result (Spares self.old self.new) }
        ensures begun { take (length output.old.items) output.new.items ≡ output.old.items }
        ensures capacity { vec_capacity output.old ≤ vec_capacity output.new }
    {
        let reply = self.meta_put_by_mode(asked, mode, block, output)?;
        count_compared(&mut self.counters, mode, true);
        Ok(reply)
    }

    /// Stores a block by its mode.
    fn meta_put_by_mode(
        &mut self,
        asked: Asked<'_>,
        mode: u8,
        block: &[u8],
        output: &mut Vec<u8>,
    ) -> Result<Reply, AllocError>
        requires in_time { MayComeAt (T.view self.old.shelf) asked.moment }
        requires named { self.old.key ≡ asked.key.now }
        ensures ok { IfOk result (λ reply. Did T.view asked.entry.moment
            (meta_put self.old.most asked.entry.moment mode self.old.key
            (tokens asked.entry.flags.now)
            (meta_item asked.entry.moment
            (tokens asked.entry.flags.now) block.now)
            ((stock_at T.view asked.entry.moment self.old).items self.old.key)
            (stock_at T.view asked.entry.moment self.old))
            self.old self.new (said_from (length output.old.items) output.new.items reply)) }
        ensures counters { self.new.counters ≡ self.old.counters }
        ensures err { OnErr result (Spares self.old self.new) }
        ensures begun { take (length output.old.items) output.new.items ≡ output.old.items }
        ensures capacity { vec_capacity output.old ≤ vec_capacity output.new }
    {
        let old = self.shelf.peek(&self.key, asked.moment);
        match moded_item(self.alloc, self.most, mode, asked, block, old)? {
            Some(item) => self.put_told(asked, item, output),
            None => refuse(b"NS", asked, output),
        }
    }

    /// Stores an item that an earlier unique is enough for, and tells that it is stored.
    fn put_renewed(
        &mut self,
        asked: Asked<'_>,
        mode: u8,
        item: StoredItem,
        output: &mut Vec<u8>,
    ) -> Result<Reply, AllocError>
        requires in_time { MayComeAt (T.view self.old.shelf) asked.moment }
        requires named { self.old.key ≡ asked.key.now }
        ensures ok { IfOk result (λ reply. Did T.view asked.entry.moment
            (meta_stored asked.entry.moment self.old.key
            (tokens asked.entry.flags.now) item (stock_at T.view asked.entry.moment self.old))
            self.old self.new (said_from (length output.old.items) output.new.items reply)) }
        ensures counts { OnOk result
            (self.new.counters ≡ compared_well mode self.old.counters) }
        ensures err { OnErr result (Spares self.old self.new) }
        ensures begun { take (length output.old.items) output.new.items ≡ output.old.items }
        ensures capacity { vec_capacity output.old ≤ vec_capacity output.new }
    {
        let reply = self.put_told(asked, item, output)?;
        count_compared(&mut self.counters, mode, true);
        Ok(reply)
    }

    /// Stores an item, and tells that it is stored.
    fn put_told(
        &mut self,
        asked: Asked<'_>,
        item: StoredItem,
        output: &mut Vec<u8>,
    ) -> Result<Reply, AllocError>
        requires in_time { MayComeAt (T.view self.old.shelf) asked.moment }
        requires named { self.old.key ≡ asked.key.now }
        ensures ok { IfOk result (λ reply. Did T.view asked.entry.moment
            (meta_stored asked.entry.moment self.old.key
            (tokens asked.entry.flags.now) item (stock_at T.view asked.entry.moment self.old))
            self.old self.new (said_from (length output.old.items) output.new.items reply)) }
        ensures counters { self.new.counters ≡ self.old.counters }
        ensures err { OnErr result (Spares self.old self.new) }
        ensures begun { take (length output.old.items) output.new.items ≡ output.old.items }
        ensures capacity { vec_capacity output.old ≤ vec_capacity output.new }
    {
        say_stored(asked, &item, self.next_unique(), output)?;
        self.put(item, asked.moment)?;
        Ok(Reply::Written)
    }
}

/// Counts that a `mg` with these flags found an item: with a `T` it touches it.
fn count_found(counters: &mut Counters, flags: &[u8])
    ensures { counters.new ≡ (if is_some (exptime_of (codes "T") (tokens flags.now))
        then touches (noted true no_looks) counters.old
        else looked (noted true no_looks) counters.old) }
{
    let found = Looks::one(true);
    if exptime_of(b'T', flags).is_some() {
        counters.touch(found);
    } else {
        counters.look(found);
    }
}

/// Counts that a `ms` compared a unique well or badly: only to set or replace is to compare it.
fn count_compared(counters: &mut Counters, mode: u8, is_well: bool)
    ensures { counters.new ≡ (if is_well then compared_well mode counters.old
        else compared_badly mode counters.old) }
{
    if !is_one_of(b"SR", mode) {
        return;
    }
    if is_well {
        up(&mut counters.cas_hits);
    } else {
        up(&mut counters.cas_badval);
    }
}

/// Tells a live item, and returns what it becomes, if it changes.
#[tactic(auto, using(crate::proofs::Finding::found_item_of))]
fn say_found(
    alloc: Global,
    asked: Asked<'_>,
    item: &StoredItem,
    output: &mut Vec<u8>,
) -> Result<Option<StoredItem>, AllocError>
    requires { asked.moment < 2 ^ 43 }
    ensures told { OnOk result (output.new.items ≡ output.old.items ++ told_found
        asked.entry.moment asked.entry.key.now (tokens asked.entry.flags.now) item.now) }
    ensures becomes { IfOk result (λ changed. MatchOption changed
        (found_item asked.entry.moment (tokens asked.entry.flags.now) item.now ≡ item.now)
        (λ c. c ≡ found_item asked.entry.moment (tokens asked.entry.flags.now) item.now)) }
    ensures begun { take (length output.old.items) output.new.items ≡ output.old.items }
    ensures capacity { vec_capacity output.old ≤ vec_capacity output.new }
{
    let deadline = retimed(asked, item);
    let wins = wins(asked, item, deadline);
    let lease = Lease {
        held: item.is_leased(),
        stale: item.is_stale(),
        wins,
    };
    let mut told = Told::new(TOLD_TO_GET, asked.key, item, item.unique(), asked.moment);
    told.deadline = deadline;
    told.say_item(output, asked.flags, &lease)?;
    if !wins && deadline == item.deadline() {
        return Ok(None);
    }
    let mut label = item.label();
    label.deadline = deadline;
    label.leased = label.leased || wins;
    Ok(Some(item.with_label(alloc, label)?))
}

/// Tells a number that gets this unique, unless it is to be quiet.
fn say_counted(
    asked: Asked<'_>,
    is_quiet: bool,
    item: &StoredItem,
    unique: u64,
    output: &mut Vec<u8>,
) -> Result<(), AllocError>
    ensures ok { OnOk result (output.new.items ≡ output.old.items ++ (if is_quiet then []
        else item_text told_to_count asked.entry.moment asked.entry.key.now
        (record item.now { unique = unique }) (tokens asked.entry.flags.now) [])) }
    ensures begun { take (length output.old.items) output.new.items ≡ output.old.items }
    ensures capacity { vec_capacity output.old ≤ vec_capacity output.new }
{
    if is_quiet {
        return Ok(());
    }
    let told = Told::new(TOLD_TO_COUNT, asked.key, item, unique, asked.moment);
    told.say_item(output, asked.flags, &NO_LEASE)
}

/// Tells that an item that gets this unique is stored, unless the request is quiet.
fn say_stored(
    asked: Asked<'_>,
    item: &StoredItem,
    unique: u64,
    output: &mut Vec<u8>,
) -> Result<(), AllocError>
    ensures ok { OnOk result (output.new.items ≡ output.old.items
        ++ unless_quiet (tokens asked.entry.flags.now) (stored_text told_to_set asked.entry.moment
        asked.entry.key.now (record item.now { unique = unique }) (tokens asked.entry.flags.now))) }
    ensures begun { take (length output.old.items) output.new.items ≡ output.old.items }
    ensures capacity { vec_capacity output.old ≤ vec_capacity output.new }
{
    if has_flag(b'q', asked.flags) {
        return Ok(());
    }
    let told = Told::new(TOLD_TO_SET, asked.key, item, unique, asked.moment);
    told.say_stored(output, asked.flags)
}

/// Tells that an item is deleted or stale, unless the request is quiet.
fn say_deleted(asked: Asked<'_>, output: &mut Vec<u8>) -> Result<(), AllocError>
    ensures ok { OnOk result (output.new.items ≡ output.old.items
        ++ unless_quiet (tokens asked.entry.flags.now)
        (code_alone (codes "HD") asked.entry.key.now (tokens asked.entry.flags.now))) }
    ensures begun { take (length output.old.items) output.new.items ≡ output.old.items }
    ensures capacity { vec_capacity output.old ≤ vec_capacity output.new }
{
    if has_flag(b'q', asked.flags) {
        return Ok(());
    }
    say_alone(output, b"HD", asked.key, asked.flags)
}

/// Tells that nothing is done, by a code.
fn refuse(code: &[u8], asked: Asked<'_>, output: &mut Vec<u8>) -> Result<Reply, AllocError>
    ensures ok { IfOk result (λ reply. (reply ≡ Reply.Written) × (output.new.items
        ≡ output.old.items ++ code_alone code.now asked.entry.key.now
        (tokens asked.entry.flags.now))) }
    ensures begun { take (length output.old.items) output.new.items ≡ output.old.items }
    ensures capacity { vec_capacity output.old ≤ vec_capacity output.new }
{
    say_alone(output, code, asked.key, asked.flags)?;
    Ok(Reply::Written)
}

/// Whether `C` names another unique than the item's.
fn is_other(flags: &[u8], item: &StoredItem) -> bool
    ensures { result ≡ is_other (tokens flags.now) item.now }
{
    match number_of(b'C', flags) {
        Some(unique) => unique != item.unique(),
        None => false,
    }
}

/// Whether `C` names 0, the unique of no item.
fn names_none(flags: &[u8]) -> bool
    ensures { result ≡ names_none (tokens flags.now) }
{
    match number_of(b'C', flags) {
        Some(unique) => unique == 0,
        None => false,
    }
}

/// Whether a mode makes something of a unique over an item.
fn goes_on(mode: u8, unique: u64, item: &StoredItem) -> bool
    ensures { result ≡ goes_on mode unique item.now }
{
    item.unique() == unique || is_one_of(b"E", mode) || (unique == 0 && is_one_of(b"AP", mode))
}

/// Whether an earlier unique is enough for a mode over an item.
fn is_renewed(mode: u8, unique: u64, flags: &[u8], item: &StoredItem) -> bool
    ensures { result ≡ is_renewed mode unique (tokens flags.now) item.now }
{
    is_one_of(b"SR", mode) && has_flag(b'I', flags) && 0 < unique && unique < item.unique()
}

/// The deadline that `T` gives an item, or its own.
fn retimed(asked: Asked<'_>, item: &StoredItem) -> Option<u64>
    requires { asked.moment < 2 ^ 43 }
    ensures { record item.now { deadline = result }
        ≡ retimed_by asked.entry.moment (codes "T") (tokens asked.entry.flags.now) item.now }
{
    match exptime_of(b'T', asked.flags) {
        Some(exptime) => deadline_of(asked.moment, exptime),
        None => item.deadline(),
    }
}

/// Whether a client wins the lease of an item that has this deadline.
fn wins(asked: Asked<'_>, item: &StoredItem, deadline: Option<u64>) -> bool
    requires { asked.moment < 2 ^ 43 }
    ensures { result ≡ (not item.now.leased && (item.now.stale
        || late_by asked.entry.moment (tokens asked.entry.flags.now) deadline)) }
{
    !item.is_leased() && (item.is_stale() || is_late(asked, deadline))
}

/// Whether a deadline comes before the moment that `R` says.
fn is_late(asked: Asked<'_>, deadline: Option<u64>) -> bool
    requires { asked.moment < 2 ^ 43 }
    ensures { result ≡ late_by asked.entry.moment (tokens asked.entry.flags.now) deadline }
{
    match exptime_of(b'R', asked.flags) {
        Some(exptime) => ends_before(deadline_of(asked.moment, exptime), deadline),
        None => false,
    }
}

/// Whether a deadline comes before another.
fn ends_before(other: Option<u64>, deadline: Option<u64>) -> bool
    ensures { result ≡ ends_before other deadline }
{
    match other {
        Some(other) => match deadline {
            Some(deadline) => deadline < other,
            None => false,
        },
        None => false,
    }
}

/// The item that a `md` leaves stale.
fn stale_item(alloc: Global, asked: Asked<'_>, item: &StoredItem) -> Result<StoredItem, AllocError>
    requires { asked.moment < 2 ^ 43 }
    ensures { IfOk result (λ made. made ≡ record
        (retimed_by asked.entry.moment (codes "T") (tokens asked.entry.flags.now) item.now)
        { stale = true; leased = false }) }
{
    let mut label = item.label();
    label.deadline = retimed(asked, item);
    label.stale = true;
    label.leased = false;
    item.with_label(alloc, label)
}

/// The item of a block: its flags by `F`, its expiry by `T`.
fn block_item(alloc: Global, asked: Asked<'_>, block: &[u8]) -> Result<StoredItem, AllocError>
    requires { asked.moment < 2 ^ 43 }
    ensures { IfOk result (λ made. made
        ≡ meta_item asked.entry.moment (tokens asked.entry.flags.now) block.now) }
{
    let exptime = exptime_of(b'T', asked.flags).unwrap_or(Exptime::Never);
    let deadline = deadline_of(asked.moment, exptime);
    StoredItem::new(alloc, block, flags_of(asked.flags), deadline)
}

/// The item of a block that an earlier unique is enough for: stale, with the deadline and the lease of the one before.
fn renewed_item(
    alloc: Global,
    asked: Asked<'_>,
    block: &[u8],
    held: &StoredItem,
) -> Result<StoredItem, AllocError>
    ensures { IfOk result (λ made. made ≡ renewed_item asked.entry.moment
        (tokens asked.entry.flags.now) block.now held.now) }
{
    let mut renewed = Label::new(flags_of(asked.flags), held.deadline());
    renewed.stale = true;
    renewed.leased = held.is_leased();
    StoredItem::joined(alloc, block, b"", renewed)
}

/// What a block becomes by its mode, over the live item of its key; none if it is not stored.
fn moded_item(
    alloc: Global,
    most: u32,
    mode: u8,
    asked: Asked<'_>,
    block: &[u8],
    old: Option<&StoredItem>,
) -> Result<Option<StoredItem>, AllocError>
    requires { asked.moment < 2 ^ 43 }
    ensures { IfOk result (λ item. item ≡ moded most mode
        (meta_item asked.entry.moment (tokens asked.entry.flags.now) block.now)
        (option_map (λ i. i.now) old.entry)) }
{
    match old {
        None => match mode {
            b'S' | b'E' => Ok(Some(block_item(alloc, asked, block)?)),
            _ => Ok(None),
        },
        Some(old) => match mode {
            b'S' | b'R' => Ok(Some(block_item(alloc, asked, block)?)),
            b'A' => behind_within(alloc, most, old, block),
            b'P' => before_within(alloc, most, old, block),
            _ => Ok(None),
        },
    }
}

//! `delete`, `incr`, `decr`, `touch` and `flush_all`.
ghost use Rattle.std.specs.Prelude.{◌≡◌, IfOk, OnOk, OnErr, Some, None, true};
ghost use Rattle.memcache_model.specs.Commands.{flush_all};
ghost use Rattle.memcache_model.specs.Answers.{counts, deletes_one, flushes, touches_one};
ghost use Rattle.memcache_model.specs.Counts.{added, touches};
ghost use Rattle.memcache_model.specs.Items.{exptime_deadline};
ghost use Rattle.memcache_model.specs.Statistics.{deleted, no_sum, seen_one, sum_made, summed};
ghost use Rattle.memcache_model.specs.Outcomes.{counted};
ghost use Rattle.memcache_service.specs.Shelves.{MayComeAt};
ghost use Rattle.memcache_service.specs.Stocks.{Did, Spares, may_want, stock_at};
ghost use Rattle.memcache_service.specs.Lines.{reply_text};

use super::Stock;
use crate::item::deadline_of;
use crate::replies::Reply;
use crate::shelf::Shelf;
use memcache_lines::number;
use memcache_model::{Counters, Direction, Exptime, Looks, up};
use std::alloc::AllocError;

impl<T: Shelf> Stock<T> {
    /// Deletes the live item of a key, and returns the reply. Returns an error if there is not enough memory; then the request has done
    /// nothing.
    pub fn delete(&mut self, key: &[u8], moment: u64) -> Result<Reply, AllocError>
        requires { MayComeAt (T.view self.old.shelf) moment }
        ensures ok { IfOk result (λ reply. Did T.view moment (deletes_one key.now
            ((stock_at T.view moment self.old).items key.now) (stock_at T.view moment self.old))
            self.old self.new (reply_text reply)) }
        ensures counts { OnOk result (self.new.counters
            ≡ deleted ((stock_at T.view moment self.old).items key.now) self.old.counters) }
        ensures err { OnErr result (Spares self.old self.new) }
    {
        self.key.fill(key)?;
        if self.shelf.peek(&self.key, moment).is_none() {
            up(&mut self.counters.delete_misses);
            return Ok(Reply::NotFound);
        }
        self.shelf.remove(&self.key, moment)?;
        up(&mut self.counters.delete_hits);
        Ok(Reply::Deleted)
    }

    /// Counts the live item of a key up or down, and returns the reply. Returns an error if there is not enough memory; then the request
    /// has done nothing.
    pub fn count(
        &mut self,
        direction: Direction,
        key: &[u8],
        delta: u64,
        moment: u64,
    ) -> Result<Reply, AllocError>
        requires { MayComeAt (T.view self.old.shelf) moment }
        ensures ok { IfOk result (λ reply. Did T.view moment (counts direction key.now delta
            ((stock_at T.view moment self.old).items key.now) (stock_at T.view moment self.old))
            self.old self.new (reply_text reply)) }
        ensures counts { OnOk result (self.new.counters ≡ summed direction
            ((stock_at T.view moment self.old).items key.now) self.old.counters) }
        ensures err { OnErr result (Spares self.old self.new) }
    {
        self.key.fill(key)?;
        let Some(item) = self.shelf.peek(&self.key, moment) else {
            count_miss(&mut self.counters, direction);
            return Ok(Reply::NotFound);
        };
        let Some(old) = number(item.bytes()) else {
            return Ok(Reply::NoNumber);
        };
        let number = counted(direction, old, delta);
        let item = item.with_number(self.alloc, number)?;
        self.put(item, moment)?;
        count_hit(&mut self.counters, direction);
        Ok(Reply::Number(number))
    }

    /// Gives the live item of a key another expiry, and returns the reply. Returns an error if there is not enough memory; then the request
    /// has done nothing.
    pub fn touch(&mut self, key: &[u8], exptime: Exptime, moment: u64) -> Result<Reply, AllocError>
        requires { MayComeAt (T.view self.old.shelf) moment }
        ensures ok { IfOk result (λ reply. Did T.view moment (touches_one key.now
            (exptime_deadline moment exptime) ((stock_at T.view moment self.old).items key.now)
            (stock_at T.view moment self.old)) self.old self.new (reply_text reply)) }
        ensures counts { OnOk result (self.new.counters ≡ touches
            (seen_one ((stock_at T.view moment self.old).items key.now)) self.old.counters) }
        ensures err { OnErr result (Spares self.old self.new) }
    {
        self.key.fill(key)?;
        let deadline = deadline_of(moment, exptime);
        let reply = self.retime(deadline, moment)?;
        self.counters.touch(Looks::one(reply == Reply::Touched));
        Ok(reply)
    }

    /// Removes all items, now or at a moment to come, and returns the reply. Returns an error if there is not enough memory; then the
    /// request has done nothing.
    pub fn flush_all(&mut self, exptime: Exptime, moment: u64) -> Result<Reply, AllocError>
        requires { MayComeAt (T.view self.old.shelf) moment }
        ensures ok { IfOk result (λ reply. Did T.view moment (flushes moment exptime
            (stock_at T.view moment self.old)) self.old self.new (reply_text reply)) }
        ensures counts { OnOk result (self.new.counters ≡ record self.old.counters {
          cmd_flush = added self.old.counters.cmd_flush 1;
        }) }
        ensures err { OnErr result (Spares self.old self.new) }
        ensures wants { OnErr result (may_want (flush_all exptime) ≡ true) }
    {
        match exptime {
            Exptime::Seconds(_) => self.flush = deadline_of(moment, exptime),
            _ => {
                self.shelf.clear(moment)?;
                self.flush = None;
            }
        }
        up(&mut self.counters.cmd_flush);
        Ok(Reply::Done)
    }
}

/// Counts that there was nothing to count up or down.
pub fn count_miss(counters: &mut Counters, direction: Direction)
    ensures { counters.new ≡ no_sum direction counters.old }
{
    match direction {
        Direction::Up => up(&mut counters.incr_misses),
        Direction::Down => up(&mut counters.decr_misses),
    }
}

/// Counts that something was counted up or down.
pub fn count_hit(counters: &mut Counters, direction: Direction)
    ensures { counters.new ≡ sum_made direction counters.old }
{
    match direction {
        Direction::Up => up(&mut counters.incr_hits),
        Direction::Down => up(&mut counters.decr_hits),
    }
}

/// Returns the number, counted up, from 2^64 - 1 on to 0, or down, and never below 0.
pub fn counted(direction: Direction, number: u64, delta: u64) -> u64
    ensures { result ≡ counted direction number delta }
{
    match direction {
        Direction::Up => number.wrapping_add(delta),
        Direction::Down => number.saturating_sub(delta),
    }
}

//! What requests do.
ghost use Rattle.std.specs.Prelude.{◌≡◌, ◌≤◌, ◌+◌, ◌++◌, [], true, false, length, take, None, IfOk, OnOk, OnErr, vec_capacity, if◌then◌else◌};
ghost use Rattle.memcache_lines.specs.Said.{asks};
ghost use Rattle.memcache_model.specs.Answers.{answer};
ghost use Rattle.memcache_model.specs.Counts.{no_counts};
ghost use Rattle.memcache_model.specs.Statistics.{counted_by};
ghost use Rattle.memcache_model.specs.Items.{live_stock, moment_has_come, nothing};
ghost use Rattle.memcache_service.specs.Lines.{reply_text, said_from};
ghost use Rattle.memcache_service.specs.Shelves.{MayComeAt};
ghost use Rattle.memcache_service.specs.Stocks.{AnswersCommand, CountsIfRoom, Did, LeavesAll, WritesReply, Spares, is_short, kept_until, may_want, service_of, stock_at};

use crate::replies::{Reply, SHORT};
use crate::shelf::Shelf;
use audit_model::Key;
use memcache_lines::{Command, Request};
use memcache_model::{Counters, add};
use std::alloc::{AllocError, Global};

mod flags;
mod keys;
mod meta;
mod reading;
mod statistics;
mod storing;
mod telling;

/// The longest key, in bytes.
const MAX_KEY: usize = 250;

/// What a stock is made with.
#[derive(Clone, Copy, Debug, PartialEq, Eq, Drop)]
pub struct Setup {
    /// How many bytes all items may have, with what they cost.
    pub capacity: u64,
    /// How many bytes a data block may have.
    pub item_size: u32,
}

/// Items, the uniques that were given, when all items are to go, and what was counted. Moments are milliseconds of Unix time.
#[derive(Drop)]
pub struct Stock<T: Shelf> {
    /// The allocator.
    pub alloc: Global,
    /// The items by key.
    pub shelf: T,
    /// The key that a request names, so that look-ups allocate nothing.
    pub key: Key,
    /// How many uniques were given.
    pub uniques: u64,
    /// The moment at which all items are to go, in milliseconds of Unix time, or `None` if there is none.
    pub flush: Option<u64>,
    /// What was counted.
    pub counters: Counters,
    /// How many bytes a data block may have.
    pub most: u32,
    /// How many bytes all items may have.
    pub capacity: u64,
    /// The moment at which the stock was made, in milliseconds of Unix time.
    pub made: u64,
    /// How many connections are open.
    pub connections: u64,
}

impl<T: Shelf> Stock<T> {
    /// Creates a stock over a shelf, at a moment. Returns an error if there is not enough memory.
    pub fn new(alloc: Global, shelf: T, setup: Setup, moment: u64) -> Result<Stock<T>, AllocError>
        requires { MayComeAt (T.view shelf) moment }
        ensures shelf { IfOk result (λ made. made.shelf ≡ shelf) }
        ensures fresh { IfOk result (λ made. (made.uniques ≡ 0) × (made.flush ≡ None)
            × (made.counters ≡ no_counts)) }
        ensures most { IfOk result (λ made. made.most ≡ setup.item_size) }
    {
        let key = Key::with_capacity(alloc, MAX_KEY)?;
        Ok(Stock {
            alloc,
            shelf,
            key,
            uniques: 0,
            flush: None,
            counters: Counters::new(),
            most: setup.item_size,
            capacity: setup.capacity,
            made: moment,
            connections: 0,
        })
    }

    /// Serves a request at a moment, and appends its reply to `output`. Returns an error if there is no memory for the reply: nothing has
    /// happened then, and the connection is to end.
    pub fn serve(
        &mut self,
        request: &Request<'_>,
        moment: u64,
        output: &mut Vec<u8>,
    ) -> Result<(), AllocError>
        requires { MayComeAt (T.view self.old.shelf) moment }
        ensures served { OnOk result (WritesReply T.Shelf moment
            (live_stock moment (kept_until T.view moment self.old))
            (record { command = asks request.now.command; quiet = request.now.quiet })
            self.old self.new output.old.items output.new.items) }
        ensures refused { OnErr result (Spares self.old self.new
            × (output.new.items ≡ output.old.items)) }
        ensures may_follow { MayComeAt (T.view self.new.shelf) moment }
        ensures most { self.new.most ≡ self.old.most }
    {
        output.reserve(SHORT)?;
        self.flush_if_due(moment)?;
        let start = output.len();
        let given = self.uniques;
        let reply = self.answer(&request.command, moment, output);
        let stored = self.uniques.saturating_sub(given);
        add(&mut self.counters.total_items, stored);
        self.shelf.count_removals(&mut self.counters);
        end_reply(request.quiet, start, reply, output);
        Ok(())
    }

    /// Takes all items away, if the moment for it has come.
    fn flush_if_due(&mut self, moment: u64) -> Result<(), AllocError>
        requires { MayComeAt (T.view self.old.shelf) moment }
        ensures ok { OnOk result (stock_at T.view moment self.new
            ≡ live_stock moment (kept_until T.view moment self.old)) }
        ensures not_due { moment_has_come moment self.old.flush ≡ false → self.new ≡ self.old }
        ensures err { OnErr result (Spares self.old self.new) }
        ensures may_follow { MayComeAt (T.view self.new.shelf) moment }
        ensures same { self.new
            ≡ record self.old { shelf = self.new.shelf; flush = self.new.flush } }
        ensures capacity { (T.view self.new.shelf).capacity ≡ (T.view self.old.shelf).capacity }
    {
        match self.flush {
            Some(at) => {
                if at <= moment {
                    self.flush_now(moment)
                } else {
                    Ok(())
                }
            }
            None => Ok(()),
        }
    }

    /// Takes all items away.
    fn flush_now(&mut self, moment: u64) -> Result<(), AllocError>
        requires { MayComeAt (T.view self.old.shelf) moment }
        ensures ok { OnOk result (LeavesAll T.view moment
            (record (stock_at T.view moment self.old) { items = nothing; flush = None }) self.old
            self.new) }
        ensures err { OnErr result (Spares self.old self.new) }
        ensures may_follow { MayComeAt (T.view self.new.shelf) moment }
        ensures same { self.new
            ≡ record self.old { shelf = self.new.shelf; flush = self.new.flush } }
        ensures capacity { (T.view self.new.shelf).capacity ≡ (T.view self.old.shelf).capacity }
    {
        self.shelf.clear(moment)?;
        self.flush = None;
        Ok(())
    }

    /// Does what a command asks for. It writes the reply, or returns it if it is one of a line.
    #[tactic(auto, using(crate::proofs::Keeping::may_follow, crate::proofs::Keeping::most_kept, crate::proofs::Keeping::short_ends))]
    fn answer(&mut self, command: &Command<'_>, moment: u64, output: &mut Vec<u8>) -> Reply
        requires { MayComeAt (T.view self.old.shelf) moment }
        ensures answered { AnswersCommand T.Shelf moment (asks command.now) self.old self.new
            output.old.items output.new.items result }
        ensures counted { CountsIfRoom (asks command.now) (stock_at T.view moment self.old).items
            (said_from (length output.old.items) output.new.items result) self.old.counters
            self.new.counters }
        ensures may_follow { MayComeAt (T.view self.new.shelf) moment }
        ensures most { self.new.most ≡ self.old.most }
        ensures capacity { vec_capacity output.old ≤ vec_capacity output.new }
    {
        match *command {
            Command::Get { uniques, keys } => {
                self.get(uniques, keys, moment, output)
                    .unwrap_or(Reply::NoRoom)
            }
            Command::GetOne { uniques, key } => {
                self.get_one(uniques, key, moment, output)
                    .unwrap_or(Reply::NoRoom)
            }
            Command::Gat {
                uniques,
                exptime,
                keys,
            } => {
                self.gat(uniques, exptime, keys, moment, output)
                    .unwrap_or(Reply::NoRoom)
            }
            Command::Stats { words } => {
                self.stats(words, moment, output)
                    .unwrap_or(Reply::NoStatistics)
            }
            Command::Meta { kind, key, flags } => {
                self.meta(kind, key, flags, moment, output)
                    .unwrap_or(Reply::NoMemory)
            }
            Command::MetaSet { key, flags, block } => {
                self.meta_set(key, flags, block, moment, output)
                    .unwrap_or(Reply::NoMemory)
            }
            _ => self
                .answer_shortly(command, moment)
                .unwrap_or(Reply::NoMemory),
        }
    }

    /// Does what a command asks for whose reply is one of a line.
    #[tactic(auto, using(crate::proofs::Keeping::may_follow, crate::proofs::Keeping::most_kept))]
    fn answer_shortly(&mut self, command: &Command<'_>, moment: u64) -> Result<Reply, AllocError>
        requires { MayComeAt (T.view self.old.shelf) moment }
        ensures ok { IfOk result (λ reply. is_short (asks command.now) ≡ true → Did T.view moment
            (answer (service_of self.old.most (reply_text reply)) moment (asks command.now)
            (stock_at T.view moment self.old)) self.old self.new (reply_text reply)) }
        ensures counts { OnOk result (is_short (asks command.now) ≡ true → self.new.counters
            ≡ counted_by (asks command.now) (stock_at T.view moment self.old).items
            self.old.counters) }
        ensures err { OnErr result (Spares self.old self.new) }
        ensures wants { is_short (asks command.now) ≡ true
            → OnErr result (may_want (asks command.now) ≡ true) }
        ensures may_follow { MayComeAt (T.view self.new.shelf) moment }
        ensures most { self.new.most ≡ self.old.most }
    {
        match *command {
            Command::Store {
                storage,
                key,
                flags,
                exptime,
                block,
            } => { self.store(storage, key, flags, exptime, block, moment) }
            Command::Oversize { storage, key } => self.pass_over(storage, key, moment),
            Command::MetaOversize { key, flags } => self.meta_pass_over(key, flags, moment),
            Command::Delete { key } => self.delete(key, moment),
            Command::Arithmetic {
                direction,
                key,
                delta,
            } => { self.count(direction, key, delta, moment) }
            Command::Touch { key, exptime } => self.touch(key, exptime, moment),
            Command::FlushAll { exptime } => self.flush_all(exptime, moment),
            Command::Version => Ok(Reply::Version),
            Command::Verbosity => Ok(Reply::Done),
            Command::MetaNoOp => Ok(Reply::NoOp),
            Command::Malformed(error) => Ok(Reply::Fault(error)),
            _ => Ok(Reply::Written),
        }
    }
}

/// Ends a reply that begins at `start`: writes one of a line, in room that was reserved, in place of what was written; and leaves all of it
/// out, if the request is quiet.
fn end_reply(is_quiet: bool, start: usize, reply: Reply, output: &mut Vec<u8>)
    requires { start + SHORT ≤ vec_capacity output.old }
    ensures { output.new.items ≡ take start output.old.items
        ++ (if is_quiet then [] else said_from start output.old.items reply) }
{
    if is_quiet {
        output.truncate(start);
    } else if reply != Reply::Written {
        output.truncate(start);
        reply.write(output);
    }
}

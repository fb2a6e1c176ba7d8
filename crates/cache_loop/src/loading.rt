//! The loads of a loop, from their going out to their being settled.
ghost use Rattle.std.specs.Prelude.{◌≡◌, ℕ, ◌+◌, ◌-◌, ◌<◌, ◌^◌, ◌++◌, [], true, false, length, min, option_map, slice_index_or, vec_len, IfOk, IfErr, IfNone, IfSome, OnErr};
ghost use Rattle.audit_model.specs.declared.input.Conn.{Conn};
ghost use Rattle.cache_run.specs.Driver.Exchanges.{Outs};
ghost use Rattle.cache_run.specs.Driver.Hosting.{Stops};
ghost use Rattle.cache_loop.specs.Loads.{AsksFor, GivesUpEach, Resolves, SettlesBehind, SettlesEach, held, held_in_hand, held_one, is_overdue, numbers_out, numbers_pending, once, times_pending};

use crate::apart::Apart;
use crate::asker::{Asked, Asker};
use audit_model::{Bytes, Conn, LoadId, Outcome};
use cache_run::{Clock, Host, RunError};
use std::alloc::Global;

/// A load that was asked for and not settled.
#[derive(Clone, Copy, Drop)]
struct Pending {
    number: u64,
    // the moment from which on it is given up
    due: Option<u64>,
}

/// The loads of a loop that were asked for, and whoever is asked.
#[derive(Drop)]
pub struct Loading<A: Asker> {
    asker: A,
    // a connection of the loop's own, by which loads are settled
    conn: Conn,
    pending: Vec<Pending>,
    // after so many nanoseconds a load is given up
    limit: Option<u64>,
    // how many loads were asked for
    asked: u64,
    // how many were settled, and nobody was told so
    settled: u64,
}

impl<A: Asker> Loading<A> {
    /// Opens a connection by which loads are settled. No load was asked for. After `limit` nanoseconds a load is given up. Returns
    /// `OutOfMemory`, or `UsedUp` if a 64-bit count is used up; then no connection was opened.
    pub fn open<H: Host>(
        alloc: Global,
        host: &mut Apart<'_, H>,
        place: &mut H::Place,
        namespace: u64,
        asker: A,
        limit: Option<u64>,
    ) -> Result<Loading<A>, RunError>
        ensures opens { IfOk result (λ loading. (loading.pending.items ≡ [])
            × H.opens namespace loading.conn place.old place.new
            × H.knows loading.conn place.new) }
        ensures rests { OnErr result (H.rests place.old place.new) }
        ensures why { IfErr result (Stops (H.exhausts (H.counted place.old) (H.counted place.new))
            ⊥) }
    {
        let conn = host.open(place, namespace)?;
        Ok(Loading {
            asker,
            conn,
            pending: Vec::new(alloc),
            limit,
            asked: 0,
            settled: 0,
        })
    }

    /// Returns how many loads were asked for.
    pub fn asked(&self) -> u64 {
        self.asked
    }

    /// Returns how many loads were settled since the last call.
    pub fn take_settled(&mut self) -> u64
        ensures { (self.new.pending ≡ self.old.pending) × (self.new.conn ≡ self.old.conn) }
    {
        let settled = self.settled;
        self.settled = 0;
        settled
    }

    /// Asks for the loads that went out, and settles those that are answered on the spot. Those that go out meanwhile are left for the next
    /// call.
    pub fn ask_all<H: Host, K: Clock>(
        &mut self,
        host: &mut Apart<'_, H>,
        place: &mut H::Place,
        clock: &mut K,
    )
        requires known { (conn : Conn) → (place : H.Place) → H.knows conn place }
        ensures each { SettlesBehind H.came H.rests self.old.conn
            (held host.old.loads.items self.old.pending.items) place.old
            (held host.new.loads.items self.new.pending.items) place.new [] host.new.loads.items }
        ensures conn { self.new.conn ≡ self.old.conn }
    {
        let out = host.take_loads();
        self.ask_each(host, place, clock, out);
    }

    /// Asks for loads, and settles those that are answered on the spot.
    fn ask_each<H: Host, K: Clock>(
        &mut self,
        host: &mut Apart<'_, H>,
        place: &mut H::Place,
        clock: &mut K,
        loads: Vec<(LoadId, Bytes)>,
    )
        requires known { (conn : Conn) → (place : H.Place) → H.knows conn place }
        ensures each { SettlesBehind H.came H.rests self.old.conn
            (held_in_hand loads.items host.old.loads.items self.old.pending.items) place.old
            (held host.new.loads.items self.new.pending.items) place.new host.old.loads.items
            host.new.loads.items }
        ensures conn { self.new.conn ≡ self.old.conn }
    {
        for (load, key) in loads {
            self.ask(host, place, clock, load, key);
        }
    }

    /// Asks for a load, and settles it if it is answered on the spot. One for which there is no memory is given up.
    fn ask<H: Host, K: Clock>(
        &mut self,
        host: &mut Apart<'_, H>,
        place: &mut H::Place,
        clock: &mut K,
        load: LoadId,
        key: Bytes,
    )
        requires known { (conn : Conn) → (place : H.Place) → H.knows conn place }
        ensures each { SettlesBehind H.came H.rests self.old.conn
            (held_one load.number host.old.loads.items self.old.pending.items) place.old
            (held host.new.loads.items self.new.pending.items) place.new host.old.loads.items
            host.new.loads.items }
        ensures said { (moment : ℕ) × (kept : Outs) × AsksFor H.came H.rests self.old.conn A.asks
            load key moment self.old.asker self.new.asker place.old kept place.new }
        ensures conn { self.new.conn ≡ self.old.conn }
    {
        let number = load.number;
        let moment = clock.now();
        if self.pending.reserve(1).is_err() {
            self.settle(host, place, moment, number, None);
            return;
        }
        self.asked = self.asked.saturating_add(1);
        match self.asker.ask(load, key) {
            Asked::Now(said) => self.settle(host, place, moment, number, said),
            Asked::Later => {
                let due = self.due_from(moment);
                self.pending.push_reserved(Pending { number, due });
            }
        }
    }

    /// The moment from which on a load is given up that is asked for at this one. The last moment is that of all later ones too.
    fn due_from(&self, moment: u64) -> Option<u64>
        ensures { result ≡ option_map (λ limit. min (moment + limit) (2 ^ 64 - 1)) self.now.limit }
    {
        match self.limit {
            Some(limit) => Some(moment.saturating_add(limit)),
            None => None,
        }
    }

    /// Settles the loads that were answered since the last call, and gives up those whose time is over.
    pub fn take_answers<H: Host, K: Clock>(
        &mut self,
        host: &mut Apart<'_, H>,
        place: &mut H::Place,
        clock: &mut K,
    )
        requires known { (conn : Conn) → (place : H.Place) → H.knows conn place }
        ensures each { SettlesEach H.came H.rests self.old.conn
            (held host.old.loads.items self.old.pending.items) place.old
            (held host.new.loads.items self.new.pending.items) place.new }
        ensures conn { self.new.conn ≡ self.old.conn }
    {
        self.settle_answered(host, place, clock);
        self.give_up_late(host, place, clock);
    }

    /// Settles the loads that were answered since the last call.
    fn settle_answered<H: Host, K: Clock>(
        &mut self,
        host: &mut Apart<'_, H>,
        place: &mut H::Place,
        clock: &mut K,
    )
        requires known { (conn : Conn) → (place : H.Place) → H.knows conn place }
        ensures each { SettlesEach H.came H.rests self.old.conn
            (held host.old.loads.items self.old.pending.items) place.old
            (held host.new.loads.items self.new.pending.items) place.new }
        ensures conn { self.new.conn ≡ self.old.conn }
    {
        for _answer in 0..u64::MAX {
            let Some((load, said)) = self.asker.next() else {
                return;
            };
            self.settle_pending(host, place, clock, load.number, said);
        }
    }

    /// Settles a load by its outcome, if it is pending: it may have been given up.
    fn settle_pending<H: Host, K: Clock>(
        &mut self,
        host: &mut Apart<'_, H>,
        place: &mut H::Place,
        clock: &mut K,
        number: u64,
        said: Option<Outcome>,
    )
        requires known { (conn : Conn) → (place : H.Place) → H.knows conn place }
        ensures each { SettlesEach H.came H.rests self.old.conn
            (held host.old.loads.items self.old.pending.items) place.old
            (held host.new.loads.items self.new.pending.items) place.new }
        ensures conn { self.new.conn ≡ self.old.conn }
    {
        if self.forget(number) {
            let moment = clock.now();
            self.settle(host, place, moment, number, said);
        }
    }

    /// Forgets a load that was asked for. Returns whether it was there: it may have been given up.
    fn forget(&mut self, number: u64) -> bool
        ensures one { result ≡ true → (load : ℕ) → times_pending self.old.pending.items load
            ≡ times_pending self.new.pending.items load + once number load }
        ensures none { result ≡ false → (times_pending self.old.pending.items number ≡ 0)
            × (self.new.pending.items ≡ self.old.pending.items) }
        ensures conn { self.new.conn ≡ self.old.conn }
    {
        match place_of(&self.pending, number) {
            Some(index) => {
                let _number = self.forget_at(index);
                true
            }
            None => false,
        }
    }

    /// Forgets the load at a place. Returns its number.
    fn forget_at(&mut self, index: usize) -> u64
        requires { index < vec_len self.old.pending }
        ensures one { (load : ℕ) → times_pending self.old.pending.items load
            ≡ times_pending self.new.pending.items load + once result load }
        ensures which { (d : Pending) → result
            ≡ (slice_index_or self.old.pending.items index d).number }
        ensures conn { self.new.conn ≡ self.old.conn }
    {
        self.pending.swap_remove(index).number
    }

    /// Gives up the loads whose time is over.
    fn give_up_late<H: Host, K: Clock>(
        &mut self,
        host: &mut Apart<'_, H>,
        place: &mut H::Place,
        clock: &mut K,
    )
        requires known { (conn : Conn) → (place : H.Place) → H.knows conn place }
        ensures each { SettlesEach H.came H.rests self.old.conn
            (held host.old.loads.items self.old.pending.items) place.old
            (held host.new.loads.items self.new.pending.items) place.new }
        ensures conn { self.new.conn ≡ self.old.conn }
    {
        if self.limit.is_none() || self.pending.is_empty() {
            return;
        }
        let moment = clock.now();
        for _late in 0..self.pending.len() {
            let Some(index) = late_among(&self.pending, moment) else {
                return;
            };
            let number = self.forget_at(index);
            self.asker.cancel(number);
            self.settle(host, place, moment, number, None);
        }
    }

    /// Returns in how many nanoseconds the time of a load is over, or `None` if no load has such a time.
    pub fn patience<K: Clock>(&self, clock: &mut K) -> Option<u64> {
        let _limit = self.limit?;
        let mut first = None;
        for pending in &self.pending {
            first = earlier(first, pending.due);
        }
        let first = first?;
        Some(first.saturating_sub(clock.now()))
    }

    /// Settles a load by its outcome: it is given up if there is none, or if it is refused.
    fn settle<H: Host>(
        &mut self,
        host: &mut Apart<'_, H>,
        place: &mut H::Place,
        moment: u64,
        number: u64,
        said: Option<Outcome>,
    )
        requires known { (conn : Conn) → (place : H.Place) → H.knows conn place }
        ensures told { (kept : Outs)
            × Resolves H.came H.rests self.old.conn number moment said place.old kept place.new
            × (host.new.loads.items ≡ host.old.loads.items ++ kept) }
        ensures same { (self.new.conn ≡ self.old.conn)
            × (self.new.pending.items ≡ self.old.pending.items)
            × (self.new.asker ≡ self.old.asker) }
    {
        self.settled = self.settled.saturating_add(1);
        match host.settle_load(place, self.conn, number, said, moment) {
            Ok(Some(left)) => host.give_up_all(place, self.conn, left),
            Ok(None) => {}
            Err(_) => host.give_up(place, self.conn, number),
        }
    }

    /// Gives up the loads that were asked for and not settled.
    pub fn give_up_pending<H: Host>(&mut self, host: &mut Apart<'_, H>, place: &mut H::Place)
        requires known { (conn : Conn) → (place : H.Place) → H.knows conn place }
        ensures each { GivesUpEach H.came H.rests self.old.conn place.old
            (numbers_pending self.old.pending.items) place.new }
        ensures none { self.new.pending.items ≡ [] }
        ensures kept { (self.new.conn ≡ self.old.conn)
            × (host.new.loads.items ≡ host.old.loads.items) }
    {
        let conn = self.conn;
        while let Some(load) = self.pending.pop() {
            self.settled = self.settled.saturating_add(1);
            host.give_up(place, conn, load.number);
        }
    }

    /// Gives up the loads that went out and were not asked for.
    pub fn give_up_out<H: Host>(&mut self, host: &mut Apart<'_, H>, place: &mut H::Place)
        requires known { (conn : Conn) → (place : H.Place) → H.knows conn place }
        ensures each { GivesUpEach H.came H.rests self.old.conn place.old
            (numbers_out host.old.loads.items) place.new }
        ensures none { host.new.loads.items ≡ [] }
        ensures same { self.new ≡ record self.old { settled = self.new.settled } }
    {
        let loads = host.take_loads();
        self.settled = self.settled.saturating_add(loads.len() as u64);
        host.give_up_all(place, self.conn, loads);
    }

    /// Gives up the loads that were asked for and not settled, and closes the connection. Returns whoever was asked.
    pub fn end<H: Host>(self, host: &mut Apart<'_, H>, place: &mut H::Place) -> A
        requires known { (conn : Conn) → (place : H.Place) → H.knows conn place }
        ensures { (m : H.Place) × GivesUpEach H.came H.rests self.conn place.old
            (numbers_pending self.pending.items) m × H.closes self.conn m place.new }
    {
        let mut loading = self;
        loading.give_up_pending(host, place);
        let Loading { asker, conn, .. } = loading;
        host.close(place, conn);
        asker
    }
}

/// The place of a load among pending ones.
fn place_of(pending: &[Pending], number: u64) -> Option<usize>
    ensures there { IfSome result (λ index. (index < length pending.now)
        × ((d : Pending) → (slice_index_or pending.now index d).number ≡ number)) }
    ensures none { IfNone result (times_pending pending.now number ≡ 0) }
{
    for index in 0..pending.len() {
        if pending[index].number == number {
            return Some(index);
        }
    }
    None
}

/// The place of a load whose time is over at a moment.
fn late_among(pending: &[Pending], moment: u64) -> Option<usize>
    ensures there { IfSome result (λ index. index < length pending.now) }
    ensures late { IfSome result
        (λ index. (d : Pending) → is_overdue (slice_index_or pending.now index d) moment ≡ true) }
{
    for index in 0..pending.len() {
        if matches!(pending[index].due, Some(due) if due <= moment) {
            return Some(index);
        }
    }
    None
}

/// The earlier of two moments.
fn earlier(a: Option<u64>, b: Option<u64>) -> Option<u64> {
    match (a, b) {
        (Some(a), Some(b)) => Some(a.min(b)),
        (Some(a), None) => Some(a),
        (None, b) => b,
    }
}

//! The connections of a loop.
ghost use Rattle.std.specs.Prelude.{◌≡◌, [], true, false, Option, MatchOption};
ghost use Rattle.slab.specs.Slab.{HasRoomFor};
ghost use Rattle.cache_loop.specs.declared.doorway.Stream.{Stream};
ghost use Rattle.cache_loop.specs.Turns.{ClosesAtKey, EndsTurnAt, GaveTurn, GoesRound, IsAbsent, SamePairs, SeatsOne, IsTold, TakesTurnAt, outcome_of};

use crate::counts::{Counts, Stopwatch};
use crate::doorway::{Doorway, Stream};
use crate::farewells::Farewells;
use crate::looping::{Crew, LISTENER, LOADED, STOP, shorter};
use crate::served::Served;
use crate::steward::Steward;
use cache_link::Next;
use cache_run::RunError;
use mio::event::Event;
use mio::{Events, Registry, Token};
use slab::Slab;
use std::alloc::Global;
use std::io::ErrorKind;
use std::sync::atomic::Ordering;
use std::time::Duration;
use std::{mem, time};

/// After an accept that failed for lack of something, the next one comes after so many nanoseconds, unless a connection ends before.
const PAUSE: u64 = 10_000_000;

/// Whether accepting goes on.
#[derive(Clone, Copy, PartialEq, Eq, Drop)]
enum Door {
    /// Nobody waits.
    Idle,
    /// Somebody may wait.
    Open,
    /// An accept failed for lack of something.
    Starved,
}

/// The connections of a loop, and those among them that have something to do.
#[derive(Drop)]
pub struct Hall<S: Steward> {
    served: Slab<Served<S::Link>>,
    // those whose sockets reported something
    queue: Vec<usize>,
    // those that have more to do since their last turn: they come after the others
    again: Vec<usize>,
    spare: Vec<usize>,
    // those that wait for a load, or did, each once
    waiting: Vec<usize>,
    // where connections come in; none if nobody is accepted any more
    doorway: Option<Doorway>,
    door: Door,
    // since an accept failed for lack of something
    shut: Stopwatch,
    // those that are over
    farewells: Farewells,
    // whether loads were settled for which some may wait
    is_loaded: bool,
    // how often it was asked to stop
    stops: u64,
    watch: Stopwatch,
    counts: Counts,
}

/// What a wake-up of a loop works with.
#[derive(Drop)]
pub struct Round<'a, R> {
    /// The handle by which the loop may wait, and read the clock.
    pub rt: &'a R,
    /// The registry of the loop's sockets.
    pub registry: &'a Registry,
    /// What the loop shares with others.
    pub crew: &'a Crew,
}

impl<S: Steward> Hall<S> {
    /// Creates a hall in which nobody is connected.
    pub fn new(alloc: Global, doorway: Doorway) -> Hall<S>
        ensures { result.served.slots ≡ [] }
    {
        Hall {
            served: Slab::new(alloc),
            queue: Vec::new(alloc),
            again: Vec::new(alloc),
            spare: Vec::new(alloc),
            waiting: Vec::new(alloc),
            doorway: Some(doorway),
            door: Door::Idle,
            shut: Stopwatch::new(),
            farewells: Farewells::new(alloc),
            is_loaded: false,
            stops: 0,
            watch: Stopwatch::new(),
            counts: Counts::new(),
        }
    }

    /// Returns what was counted.
    pub fn counts(&mut self, steward: &S) -> Counts
        ensures { self.new.served ≡ self.old.served }
    {
        steward.tally(&mut self.counts);
        self.counts
    }

    /// Returns how long to wait for events, or `None`, without end, if there is nothing else to do.
    pub fn patience(&self) -> Option<Duration> {
        if !self.again.is_empty() || self.is_loaded || self.door == Door::Open {
            return Some(Duration::from_millis(0));
        }
        let pause = match self.door {
            Door::Starved => Some(Duration::from_nanos(PAUSE)),
            _ => None,
        };
        shorter(pause, self.farewells.patience())
    }

    /// Returns whether the loop ends.
    pub fn is_done(&self) -> bool {
        let is_empty = self.served.is_empty() && self.farewells.is_empty();
        self.stops > 1 || (self.doorway.is_none() && is_empty)
    }

    /// Notes what the sockets reported.
    pub fn note_all(&mut self, steward: &S, events: &Events)
        ensures { GoesRound S.Steward self.old.served steward.now self.new.served steward.now }
    {
        for event in events {
            self.note(steward, event);
        }
    }

    /// Notes what a socket reported.
    fn note(&mut self, steward: &S, event: &Event)
        ensures { GoesRound S.Steward self.old.served steward.now self.new.served steward.now }
    {
        let token = event.token();
        if token == LISTENER {
            self.knock();
        } else if token == STOP {
            self.stop(steward);
        } else if token == LOADED {
            self.is_loaded = true;
        } else if !self.farewells.note(token) {
            self.note_served(steward, token.0, event);
        }
    }

    /// Notes what the socket of a connection reported.
    fn note_served(&mut self, steward: &S, key: usize, event: &Event)
        ensures { GoesRound S.Steward self.old.served steward.now self.new.served steward.now }
    {
        let is_ending = event.is_read_closed() || event.is_error();
        let is_readable = event.is_readable();
        if self.wake(steward, key, is_readable, is_ending, event.is_priority()) {
            self.enqueue(key);
        }
    }

    /// Notes that there are bytes to read of a connection, some of them urgent, or that its input ends. Returns whether there is such a
    /// connection.
    fn wake(
        &mut self,
        steward: &S,
        key: usize,
        is_readable: bool,
        is_ending: bool,
        is_urgent: bool,
    ) -> bool
        ensures one { result ≡ true → IsTold key (S.wakes is_readable is_ending) self.old.served
            self.new.served }
        ensures none { result ≡ false → SamePairs self.old.served self.new.served }
    {
        match self.served.get_mut(key) {
            Some(served) => {
                served.hear(steward, is_readable, is_ending, is_urgent);
                true
            }
            None => false,
        }
    }

    /// Notes that somebody may wait.
    fn knock(&mut self)
        ensures { self.new.served ≡ self.old.served }
    {
        if self.door == Door::Idle {
            self.door = Door::Open;
        }
    }

    /// Queues a connection for a turn, unless it is queued.
    fn enqueue(&mut self, key: usize)
        ensures { SamePairs self.old.served self.new.served }
    {
        if self.mark_queued(key) {
            // There is room: it was made when the connection was accepted.
            let _ = self.queue.push(key);
        }
    }

    /// Notes that a connection is queued. Returns whether it was not.
    fn mark_queued(&mut self, key: usize) -> bool
        ensures { SamePairs self.old.served self.new.served }
    {
        match self.served.get_mut(key) {
            Some(served) => served.enqueue(),
            None => false,
        }
    }

    /// Accepts nobody and reads nothing any more.
    fn stop(&mut self, steward: &S)
        ensures { GoesRound S.Steward self.old.served steward.now self.new.served steward.now }
    {
        self.stops = self.stops.saturating_add(1);
        self.doorway = None;
        self.door = Door::Idle;
        for key in 0..self.served.capacity() {
            self.stop_one(steward, key);
        }
    }

    /// Reads nothing of a connection any more, and queues it.
    fn stop_one(&mut self, steward: &S, key: usize)
        ensures { GoesRound S.Steward self.old.served steward.now self.new.served steward.now }
    {
        if self.mark_stopped(steward, key) {
            self.enqueue(key);
        }
    }

    /// Notes that nothing more is to be read of a connection. Returns whether there is such a connection.
    fn mark_stopped(&mut self, steward: &S, key: usize) -> bool
        ensures one { result ≡ true → IsTold key S.stops self.old.served self.new.served }
        ensures none { result ≡ false → SamePairs self.old.served self.new.served }
    {
        match self.served.get_mut(key) {
            Some(served) => {
                served.stop(steward);
                true
            }
            None => false,
        }
    }

    /// Has the loads settled that were answered since the last call.
    pub fn take_answers(&mut self, steward: &mut S, crew: &Crew)
        requires { S.rests_on }
        ensures { (self.new.served ≡ self.old.served) × S.settles steward.old steward.new }
    {
        let settled = steward.take_answers();
        self.note_settled(crew, settled);
    }

    /// Notes that so many loads were settled, and tells other loops.
    fn note_settled(&mut self, crew: &Crew, settled: u64)
        ensures { self.new.served ≡ self.old.served }
    {
        if settled > 0 {
            self.is_loaded = true;
            crew.tell_others();
        }
    }

    /// Queues the connections that wait for a load, if some were settled.
    pub fn wake_waiting(&mut self)
        ensures { SamePairs self.old.served self.new.served }
    {
        if !self.is_loaded {
            return;
        }
        self.is_loaded = false;
        for index in 0..self.waiting.len() {
            self.wake_at(index);
        }
        self.waiting.clear();
    }

    /// Queues the connection that is listed at a place, if it waits for a load.
    fn wake_at(&mut self, index: usize)
        ensures { SamePairs self.old.served self.new.served }
    {
        match self.waiting.get(index).copied() {
            Some(key) => self.wake_one(key),
            None => {}
        }
    }

    /// Queues a connection that was listed, if it waits for a load.
    fn wake_one(&mut self, key: usize)
        ensures { SamePairs self.old.served self.new.served }
    {
        if self.unlist(key) {
            self.enqueue(key);
        }
    }

    /// Notes that a connection is not listed any more. Returns whether it waits for a load.
    fn unlist(&mut self, key: usize) -> bool
        ensures { SamePairs self.old.served self.new.served }
    {
        match self.served.get_mut(key) {
            Some(served) => served.unlist(),
            None => false,
        }
    }

    /// Accepts connections, until nobody waits, many were accepted, or an accept fails for lack of something.
    pub fn accept_all<R: time::Clock>(&mut self, steward: &mut S, round: &Round<'_, R>)
        ensures { GoesRound S.Steward self.old.served steward.old self.new.served steward.new }
    {
        self.try_again(round.rt);
        for _accept in 0..round.crew.rules.accepts {
            if self.door != Door::Open {
                return;
            }
            self.accept_one(steward, round);
        }
    }

    /// Accepts a connection and begins to serve it, if somebody waits.
    fn accept_one<R: time::Clock>(&mut self, steward: &mut S, round: &Round<'_, R>)
        ensures { GoesRound S.Steward self.old.served steward.old self.new.served steward.new }
    {
        match self.accept(round.rt) {
            Some(stream) => {
                let _admitted = self.admit(steward, round, stream);
            }
            None => {}
        }
    }

    /// Lets accepting go on, some time after an accept failed for lack of something.
    fn try_again<R: time::Clock>(&mut self, rt: &R)
        ensures { self.new.served ≡ self.old.served }
    {
        if self.door == Door::Starved && self.shut.passed(rt).is_none_or(|nanos| nanos >= PAUSE) {
            self.door = Door::Open;
        }
    }

    /// Accepts a connection, if somebody waits.
    fn accept<R: time::Clock>(&mut self, rt: &R) -> Option<Stream>
        ensures { self.new.served ≡ self.old.served }
    {
        let Some(doorway) = &self.doorway else {
            self.door = Door::Idle;
            return None;
        };
        match doorway.accept() {
            Ok(stream) => {
                self.door = Door::Open;
                self.counts.accepted = self.counts.accepted.saturating_add(1);
                Some(stream)
            }
            Err(error) => {
                self.note_failure(rt, error.kind());
                None
            }
        }
    }

    /// Notes that accepting failed.
    fn note_failure<R: time::Clock>(&mut self, rt: &R, kind: ErrorKind)
        ensures { self.new.served ≡ self.old.served }
    {
        self.door = match kind {
            ErrorKind::WouldBlock => Door::Idle,
            ErrorKind::ConnectionAborted
            | ErrorKind::ConnectionReset
            | ErrorKind::HostUnreachable
            | ErrorKind::NetworkDown
            | ErrorKind::NetworkUnreachable
            | ErrorKind::Interrupted => Door::Open,
            _ => Door::Starved,
        };
        if self.door == Door::Starved {
            self.starve(rt);
        }
    }

    /// Notes that an accept failed for lack of something, which those that are over may have.
    fn starve<R: time::Clock>(&mut self, rt: &R)
        ensures { self.new.served ≡ self.old.served }
    {
        self.counts.starved = self.counts.starved.saturating_add(1);
        let _since_the_last = self.shut.lap(rt);
        if self.farewells.clear() {
            self.door = Door::Open;
        }
    }

    /// Begins to serve a connection. `None`, and it is closed, if there is no place for it, or what it needs is not available.
    fn admit<R: time::Clock>(
        &mut self,
        steward: &mut S,
        round: &Round<'_, R>,
        stream: Stream,
    ) -> Option<()>
        ensures { SeatsOne S.Steward result stream self.old.served steward.old self.new.served
            steward.new }
    {
        if is_full(round.crew) {
            self.turn_away(steward, round, stream);
            return None;
        }
        match self.seat(steward, round, stream) {
            Some(()) => Some(()),
            None => {
                self.counts.lacking = self.counts.lacking.saturating_add(1);
                round.crew.open.fetch_sub(1, Ordering::SeqCst);
                None
            }
        }
    }

    /// Tells a client that there is no place for it.
    fn turn_away<R: time::Clock>(&mut self, steward: &S, round: &Round<'_, R>, stream: Stream)
        ensures { self.new.served ≡ self.old.served }
    {
        self.counts.refused = self.counts.refused.saturating_add(1);
        let mut stream = stream;
        stream.tell(steward.refusal());
        self.part(round, stream);
    }

    /// Makes room for one more connection, in the queues too. Returns whether there is not enough memory.
    fn lacks_room(&mut self) -> bool
        ensures room { result ≡ false → HasRoomFor self.new.served 1 }
        ensures same { self.new.served
            ≡ record self.old.served { capacity = self.new.served.capacity } }
    {
        let room = self.served.len().saturating_add(1);
        self.served.reserve(1).is_err() || self.lacks_places(room)
    }

    /// Makes so much more room in each queue. Returns whether there is not enough memory.
    fn lacks_places(&mut self, room: usize) -> bool
        ensures { self.new.served ≡ self.old.served }
    {
        self.queue.reserve(room).is_err()
            || self.again.reserve(room).is_err()
            || self.spare.reserve(room).is_err()
            || self.waiting.reserve(room).is_err()
    }

    /// Makes room for a connection, and opens it.
    fn seat<R>(&mut self, steward: &mut S, round: &Round<'_, R>, stream: Stream) -> Option<()>
        ensures { SeatsOne S.Steward result stream self.old.served steward.old self.new.served
            steward.new }
    {
        if self.lacks_room() {
            return None;
        }
        let mut stream = stream;
        let key = self.served.vacant_key();
        if stream.register(round.registry, Token(key)).is_err() {
            return None;
        }
        match steward.open() {
            Some(link) => {
                let _key = self.served.insert_reserved(Served::new(stream, link));
                Some(())
            }
            None => None,
        }
    }

    /// Gives each queued connection a turn, and then another one to each that has more to do.
    pub fn take_turns<R: time::Clock>(&mut self, steward: &mut S, round: &Round<'_, R>)
        requires { S.rests_on }
        ensures { GoesRound S.Steward self.old.served steward.old self.new.served steward.new }
    {
        let _since_the_wake = self.watch.lap(round.rt);
        self.take_first_turns(steward, round);
        self.take_more_turns(steward, round);
    }

    /// Gives each connection whose socket reported something a turn.
    fn take_first_turns<R: time::Clock>(&mut self, steward: &mut S, round: &Round<'_, R>)
        requires { S.rests_on }
        ensures { GoesRound S.Steward self.old.served steward.old self.new.served steward.new }
    {
        for index in 0..self.queue.len() {
            let key = self.queue.get(index).copied();
            self.turn_for(steward, round, key);
        }
        self.queue.clear();
    }

    /// Gives another turn to each connection that had more to do.
    fn take_more_turns<R: time::Clock>(&mut self, steward: &mut S, round: &Round<'_, R>)
        requires { S.rests_on }
        ensures { GoesRound S.Steward self.old.served steward.old self.new.served steward.new }
    {
        for index in 0..self.again.len() {
            let key = self.again.get(index).copied();
            self.turn_for(steward, round, key);
        }
        self.again.clear();
        mem::swap(&mut self.again, &mut self.spare);
    }

    /// Gives a connection a turn, if this is the key of one.
    fn turn_for<R: time::Clock>(
        &mut self,
        steward: &mut S,
        round: &Round<'_, R>,
        key: Option<usize>,
    )
        requires { S.rests_on }
        ensures { GoesRound S.Steward self.old.served steward.old self.new.served steward.new }
    {
        match key {
            Some(key) => self.take_turn(steward, round, key),
            None => {}
        }
    }

    /// Gives a connection a turn.
    fn take_turn<R: time::Clock>(&mut self, steward: &mut S, round: &Round<'_, R>, key: usize)
        requires { S.rests_on }
        ensures { TakesTurnAt S.Steward key self.old.served steward.old self.new.served
            steward.new }
    {
        match self.give_turn(steward, key) {
            Some(given) => {
                self.end_turn(steward, round, key, given);
                let settled = steward.ask_loads();
                self.note_settled(round.crew, settled);
                let nanos = self.watch.lap(round.rt);
                self.counts.count_turn(nanos);
            }
            None => {}
        }
    }

    /// Gives a connection a turn. Returns what came of it, or `None` if there is no such connection.
    fn give_turn(&mut self, steward: &mut S, key: usize) -> Option<Result<Next, RunError>>
        requires { S.rests_on }
        ensures { MatchOption result
            (IsAbsent S.Steward key self.old.served steward.old self.new.served steward.new)
            (λ given. GaveTurn S.Steward key given self.old.served steward.old self.new.served
            steward.new) }
    {
        let Hall { served, counts, .. } = self;
        match served.get_mut(key) {
            Some(served) => Some(served.turn(steward, counts)),
            None => None,
        }
    }

    /// Notes what a connection waits for after a turn, or ends it.
    fn end_turn<R: time::Clock>(
        &mut self,
        steward: &mut S,
        round: &Round<'_, R>,
        key: usize,
        given: Result<Next, RunError>,
    )
        requires { S.rests_on }
        ensures { EndsTurnAt S.Steward key given self.old.served steward.old self.new.served
            steward.new }
    {
        match ending(given) {
            Some(outcome) => {
                self.counts.note_outcome(outcome);
                self.end(steward, round, key, outcome);
            }
            None => self.note_given(round.registry, key, given),
        }
    }

    /// Notes what a connection waits for, if its turn came to no error.
    fn note_given(&mut self, registry: &Registry, key: usize, given: Result<Next, RunError>)
        ensures { SamePairs self.old.served self.new.served }
    {
        match given {
            Ok(next) => self.note_next(registry, key, next),
            Err(_) => {}
        }
    }

    /// Notes what a connection waits for.
    fn note_next(&mut self, registry: &Registry, key: usize, next: Next)
        ensures { SamePairs self.old.served self.new.served }
    {
        if self.mark_next(registry, key, next) {
            // There is room in the queues: it was made when the connection was accepted.
            let _ = match next {
                Next::Load => self.waiting.push(key),
                _ => self.spare.push(key),
            };
        }
    }

    /// Notes what a connection waits for. Returns whether its key is to be queued.
    fn mark_next(&mut self, registry: &Registry, key: usize, next: Next) -> bool
        ensures { SamePairs self.old.served self.new.served }
    {
        match self.served.get_mut(key) {
            Some(served) => served.note_next(registry, key, next),
            None => false,
        }
    }

    /// Ends a connection, so that its client receives what was written to it.
    fn end<R: time::Clock>(
        &mut self,
        steward: &mut S,
        round: &Round<'_, R>,
        key: usize,
        outcome: Result<(), RunError>,
    )
        requires { S.rests_on }
        ensures { (given : Option Stream) × ClosesAtKey S.Steward key outcome self.old.served
            steward.old given self.new.served steward.new }
    {
        match self.close(steward, round.crew, key, outcome) {
            Some(stream) => self.part(round, stream),
            None => {}
        }
    }

    /// Closes a connection, and returns its socket.
    fn close(
        &mut self,
        steward: &mut S,
        crew: &Crew,
        key: usize,
        outcome: Result<(), RunError>,
    ) -> Option<Stream>
        requires { S.rests_on }
        ensures { ClosesAtKey S.Steward key outcome self.old.served steward.old result
            self.new.served steward.new }
    {
        match self.served.try_remove(key) {
            Some(served) => {
                let Served {
                    stream,
                    link,
                    is_listed,
                    ..
                } = served;
                forget(&mut self.waiting, is_listed, key);
                steward.close(link, outcome);
                crew.open.fetch_sub(1, Ordering::SeqCst);
                Some(stream)
            }
            None => None,
        }
    }

    /// Keeps the socket of a connection that is over, unless descriptors are short.
    fn part<R: time::Clock>(&mut self, round: &Round<'_, R>, stream: Stream)
        ensures { self.new.served ≡ self.old.served }
    {
        self.farewells.take(round.rt, round.registry, stream);
        if self.door == Door::Starved {
            let _had_some = self.farewells.clear();
            self.door = Door::Open;
        }
    }

    /// Reads what has come in at the sockets of connections that are over, and closes those that are done.
    pub fn say_farewell<R: time::Clock>(&mut self, rt: &R)
        ensures { self.new.served ≡ self.old.served }
    {
        self.farewells.work(rt);
    }

    /// Counts a second, and closes the connections whose sockets have reported nothing for so many seconds, unless they wait for a load.
    pub fn count_second<R: time::Clock>(&mut self, steward: &mut S, round: &Round<'_, R>, idle: u64)
        requires { S.rests_on }
        ensures { GoesRound S.Steward self.old.served steward.old self.new.served steward.new }
    {
        for key in 0..self.served.capacity() {
            self.count_one(steward, round, key, idle);
        }
    }

    /// Counts a second of a connection, and closes it if its socket has reported nothing for more seconds than it may.
    fn count_one<R: time::Clock>(
        &mut self,
        steward: &mut S,
        round: &Round<'_, R>,
        key: usize,
        idle: u64,
    )
        requires { S.rests_on }
        ensures { GoesRound S.Steward self.old.served steward.old self.new.served steward.new }
    {
        if self.is_too_quiet(key, idle) {
            self.counts.idle = self.counts.idle.saturating_add(1);
            self.end(steward, round, key, Ok(()));
        }
    }

    /// Counts a second of a connection. Returns whether its socket has reported nothing for more seconds than it may.
    fn is_too_quiet(&mut self, key: usize, idle: u64) -> bool
        ensures { SamePairs self.old.served self.new.served }
    {
        match self.served.get_mut(key) {
            Some(served) => served.count_second(idle),
            None => false,
        }
    }

    /// Closes all connections.
    pub fn end_all(&mut self, steward: &mut S, crew: &Crew)
        requires { S.rests_on }
        ensures { GoesRound S.Steward self.old.served steward.old self.new.served steward.new }
    {
        for key in 0..self.served.capacity() {
            self.drop_one(steward, crew, key);
        }
    }

    /// Closes a connection and its socket.
    fn drop_one(&mut self, steward: &mut S, crew: &Crew, key: usize)
        requires { S.rests_on }
        ensures { GoesRound S.Steward self.old.served steward.old self.new.served steward.new }
    {
        match self.close(steward, crew, key, Ok(())) {
            Some(stream) => leave(stream),
            None => {}
        }
    }
}

/// Forgets a key among others, each of which stands there once, if it is listed there.
fn forget(keys: &mut Vec<usize>, is_listed: bool, key: usize) {
    if !is_listed {
        return;
    }
    let place = keys.iter().position(|one| *one == key);
    let place = place.unwrap_or(keys.len());
    if place < keys.len() {
        let _key = keys.remove(place);
    }
}

/// Ends the writing side of a socket, drops what has come in, and closes it.
fn leave(stream: Stream) {
    let mut stream = stream;
    stream.end_writing();
    let _dropped = stream.drop_input();
}

/// With what a connection is closed after a turn, if it is.
fn ending(given: Result<Next, RunError>) -> Option<Result<(), RunError>>
    ensures { result ≡ outcome_of given }
{
    match given {
        Ok(Next::Over) => Some(Ok(())),
        Ok(Next::Turn) => None,
        Ok(Next::Input) => None,
        Ok(Next::Room) => None,
        Ok(Next::Load) => None,
        Err(error) => Some(Err(error)),
    }
}

/// Takes a place for one more connection. Returns whether there is none.
fn is_full(crew: &Crew) -> bool {
    let is_full = crew.open.fetch_add(1, Ordering::SeqCst) >= crew.rules.connections;
    if is_full {
        crew.open.fetch_sub(1, Ordering::SeqCst);
    }
    is_full
}

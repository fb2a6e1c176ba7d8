//! The loop over the sockets of a namespace.
ghost use Rattle.cache_loop.specs.Turns.{GoesRound, ServesByLoop};

use crate::counts::{Counts, Stopwatch};
use crate::doorway::Doorway;
use crate::hall::{Hall, Round};
use crate::steward::Steward;
use mio::{Events, Poll, Token, Waker};
use std::alloc::Global;
use std::sync::atomic::AtomicU64;
use std::sync::{Arc, Mutex, Wait};
use std::time::Duration;
use std::{io, time};

/// The token of the listener. No connection has it.
pub const LISTENER: Token = Token(usize::MAX);

/// The token of a waker by which a loop is told that loads were settled for which its connections may wait, or that a load of its own was
/// answered. No connection has it.
pub const LOADED: Token = Token(usize::MAX - 1);

/// The token of a waker by which a loop is stopped. No connection has it. From its first wake on nobody is accepted and nothing is read any
/// more, and the loop ends when all that was read is answered and taken; at the second it ends at once.
pub const STOP: Token = Token(usize::MAX - 2);

/// The maximum number of events of one wake-up.
const EVENTS: usize = 256;

/// A second has so many nanoseconds.
const SECOND: u64 = 1_000_000_000;

/// How connections are served.
#[derive(Clone, Copy, Drop)]
pub struct Rules {
    /// How many connections are accepted in one wake-up: 1 if other loops accept too.
    pub accepts: usize,
    /// How many connections may be open at once. One more is told so (`Steward::refusal`), and closed.
    pub connections: u64,
    /// For how many seconds a connection from which nothing came, and to which nothing could be written, may stay open, or `None` without a
    /// limit.
    pub idle: Option<u64>,
}

/// What a loop shares with others.
#[derive(Drop)]
pub struct Crew {
    /// The allocator.
    pub alloc: Global,
    /// The number of the namespace that the loops serve, in its service.
    pub namespace: u64,
    /// How connections are served.
    pub rules: Rules,
    /// How many connections of the namespace are open.
    pub open: Arc<AtomicU64>,
    /// The wakers of all loops of the namespace, by which they are told of loads that were settled.
    pub wakers: Arc<Vec<Waker>>,
    /// What this loop has counted by its last wake-up.
    pub counts: Arc<Mutex<Counts>>,
}

impl Crew {
    /// Tells other loops that loads were settled.
    pub(crate) fn tell_others(&self) {
        if self.wakers.len() > 1 {
            for waker in self.wakers.iter() {
                let _ = waker.wake();
            }
        }
    }
}

/// The shorter of two waits.
pub fn shorter(a: Option<Duration>, b: Option<Duration>) -> Option<Duration> {
    match (a, b) {
        (Some(a), Some(b)) => Some(a.min(b)),
        (Some(a), None) => Some(a),
        (None, b) => b,
    }
}

/// Counts whole seconds.
#[derive(Drop)]
struct Seconds {
    watch: Stopwatch,
    nanos: u64,
}

impl Seconds {
    /// Whether a second has passed since the last one that was counted.
    fn passes<R: time::Clock>(&mut self, rt: &R) -> bool {
        self.nanos = self.nanos.saturating_add(self.watch.lap(rt));
        let has_passed = self.nanos >= SECOND;
        if has_passed {
            self.nanos = 0;
        }
        has_passed
    }
}

/// Serves the connections that come in at a doorway, until it is stopped. The connections are closed when the call returns, and no load
/// that was asked for is pending. Returns an error if waiting for events fails, or if there is no memory for the first of them.
pub fn serve_by<S: Steward, R: Wait + time::Clock>(
    rt: &R,
    steward: &mut S,
    poll: &mut Poll,
    doorway: Doorway,
    crew: &Crew,
) -> io::Result<()>
    requires { S.rests_on }
    ensures goes { (ended : S) × ServesByLoop S.Steward steward.old ended
        × S.gives_up ended steward.new }
    ensures settled { S.is_settled steward.new }
{
    let ended = serve_all(rt, steward, poll, doorway, crew);
    if steward.give_up_loads() > 0 {
        crew.tell_others();
    }
    ended
}

/// Serves connections until the loop is stopped, and closes them.
fn serve_all<S: Steward, R: Wait + time::Clock>(
    rt: &R,
    steward: &mut S,
    poll: &mut Poll,
    doorway: Doorway,
    crew: &Crew,
) -> io::Result<()>
    requires { S.rests_on }
    ensures { ServesByLoop S.Steward steward.old steward.new }
{
    let mut doorway = doorway;
    doorway.register(poll.registry(), LISTENER)?;
    let mut events = Events::with_capacity(crew.alloc, EVENTS)?;
    let mut hall = Hall::new(crew.alloc, doorway);
    let waiting = (poll, &mut events);
    let ended = turn_round(rt, steward, waiting, &mut hall, crew);
    hall.end_all(steward, crew);
    let counts = hall.counts(steward);
    *crew.counts.lock(rt) = counts;
    ended
}

/// Waits for events and gives turns, until the loop ends.
fn turn_round<S: Steward, R: Wait + time::Clock>(
    rt: &R,
    steward: &mut S,
    waiting: (&mut Poll, &mut Events),
    hall: &mut Hall<S>,
    crew: &Crew,
) -> io::Result<()>
    requires { S.rests_on }
    ensures { GoesRound S.Steward hall.old.served steward.old hall.new.served steward.new }
{
    let (poll, events) = waiting;
    let mut seconds = Seconds {
        watch: Stopwatch::new(),
        nanos: 0,
    };
    let second = crew.rules.idle.map(|_| Duration::from_secs(1));
    for _wake in rt.forever() {
        let patience = shorter(hall.patience(), steward.patience());
        poll.poll(events, shorter(patience, second))?;
        hall.note_all(steward, events);
        let registry = poll.registry();
        let round = Round { rt, registry, crew };
        work(steward, &round, hall, &mut seconds);
        if hall.is_done() {
            return Ok(());
        }
    }
    unreachable!()
}

/// Does what a wake-up asks for.
fn work<S: Steward, R: Wait + time::Clock>(
    steward: &mut S,
    round: &Round<'_, R>,
    hall: &mut Hall<S>,
    seconds: &mut Seconds,
)
    requires { S.rests_on }
    ensures { GoesRound S.Steward hall.old.served steward.old hall.new.served steward.new }
{
    hall.take_answers(steward, round.crew);
    hall.wake_waiting();
    hall.accept_all(steward, round);
    hall.take_turns(steward, round);
    hall.say_farewell(round.rt);
    count_seconds(steward, round, hall, seconds);
    let counts = hall.counts(steward);
    *round.crew.counts.lock(round.rt) = counts;
}

/// Counts a second of each connection, if there is a limit and a second has passed.
fn count_seconds<S: Steward, R: Wait + time::Clock>(
    steward: &mut S,
    round: &Round<'_, R>,
    hall: &mut Hall<S>,
    seconds: &mut Seconds,
)
    requires { S.rests_on }
    ensures { GoesRound S.Steward hall.old.served steward.old hall.new.served steward.new }
{
    match round.crew.rules.idle {
        Some(idle) => {
            if seconds.passes(round.rt) {
                hall.count_second(steward, round, idle);
            }
        }
        None => {}
    }
}

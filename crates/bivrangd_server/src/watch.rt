//! What the program knows of its loops while it waits for them.

use crate::alarms::Alarms;
use bivrangd_metrics::{Facts, Source};
use cache_loop::Counts;
use cached_server::Machine;
use mio::Waker;
use std::alloc::{AllocError, Global};
use std::io::Write;
use std::rt::Files;

/// After it was told to stop, the server waits about so many seconds for replies to be taken.
const PATIENCE: u64 = 10;

/// Of so many looks at the numbers, a minute's, one says that memory was lacking.
const LOOKS: u64 = 6;

/// What was seen of a namespace.
#[derive(Drop)]
struct Seen {
    // what was counted when it was looked at last
    counts: Counts,
    // how many connections were known to have lacked memory when that was said last
    lacking: u64,
    // how often it was looked at since
    looks: u64,
}

/// What the program knows of its loops while it waits for them.
#[derive(Drop)]
pub struct Watch {
    /// How many loops run.
    pub running: usize,
    is_stopping: bool,
    // seconds since it was told to stop last, or since it has looked at the numbers
    seconds: u64,
    // what was seen of each namespace
    seen: Vec<Seen>,
}

impl Watch {
    /// Creates what is known of so many running loops. Returns an error if there is not enough memory.
    pub fn new(alloc: Global, running: usize, sources: &[Source]) -> Result<Watch, AllocError> {
        Ok(Watch {
            running,
            is_stopping: false,
            seconds: 0,
            seen: sources.iter().map(|_| Seen::new()).collect(alloc)?,
        })
    }

    /// Tells the loops to stop.
    pub fn stop<E: Write + Drop, R: Machine>(
        &mut self,
        stoppers: &[Waker],
        alarms: &mut Alarms<R, E>,
    ) {
        if self.is_stopping {
            alarms.say("stopping at once");
        } else {
            alarms.say("stopping");
        }
        self.is_stopping = true;
        self.seconds = 0;
        for stopper in stoppers {
            let _ = stopper.wake();
        }
    }

    /// Notes that about a second has passed.
    pub fn count_second<E: Write + Drop, R: Machine + Files>(
        &mut self,
        rt: &R,
        stoppers: &[Waker],
        facts: &Facts,
        alarms: &mut Alarms<R, E>,
    ) {
        self.seconds = self.seconds.saturating_add(1);
        if self.seconds < PATIENCE {
            return;
        }
        self.seconds = 0;
        if self.is_stopping {
            self.stop(stoppers, alarms);
        } else {
            facts.resources.read(rt);
            self.look(rt, &facts.sources, alarms);
        }
    }

    /// Says which connections could not be served since it looked last.
    fn look<E: Write + Drop, R: Machine>(
        &mut self,
        rt: &R,
        sources: &[Source],
        alarms: &mut Alarms<R, E>,
    ) {
        for (source, seen) in sources.iter().zip(self.seen.iter_mut()) {
            let counts = source.counts(rt);
            say_unserved(source, &seen.counts, &counts, alarms);
            let lacking = seen.note(counts);
            say_lacking(source, lacking, alarms);
        }
    }
}

impl Seen {
    /// Nothing was seen, and nothing said.
    fn new() -> Seen {
        Seen {
            counts: Counts::new(),
            lacking: 0,
            looks: LOOKS,
        }
    }

    /// Notes what was counted. Returns how many connections lacked memory of which to say so now: once a minute at most.
    fn note(&mut self, counts: Counts) -> u64 {
        self.counts = counts;
        self.looks = self.looks.saturating_add(1);
        let lacking = counts.lacking.saturating_sub(self.lacking);
        if lacking == 0 || self.looks < LOOKS {
            return 0;
        }
        self.lacking = counts.lacking;
        self.looks = 0;
        lacking
    }
}

/// Says how many connections of a namespace were closed for lack of memory, if some were.
fn say_lacking<E: Write + Drop, R: Machine>(
    source: &Source,
    lacking: u64,
    alarms: &mut Alarms<R, E>,
) {
    let (name, port) = (&source.name, source.port);
    if lacking > 0 {
        alarms.say(format_args!(
            "{name} {port}: {lacking} connections were closed for lack of memory"
        ));
    }
}

/// Says which connections of a namespace could not be served between two readings.
fn say_unserved<E: Write + Drop, R: Machine>(
    source: &Source,
    before: &Counts,
    now: &Counts,
    alarms: &mut Alarms<R, E>,
) {
    let (name, port) = (&source.name, source.port);
    let refused = now.refused.saturating_sub(before.refused);
    if refused > 0 {
        alarms.say(format_args!(
            "{name} {port}: {refused} connections beyond max_connections were closed"
        ));
    }
    if now.starved > before.starved {
        alarms.say(format_args!(
            "{name} {port}: no descriptors, or no memory, for connections that wait"
        ));
    }
}

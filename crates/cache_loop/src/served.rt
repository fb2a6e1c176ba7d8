//! A connection with its socket.
ghost use Rattle.std.specs.Prelude.{◌≡◌};
ghost use Rattle.cache_link.specs.Dialogues.{Wire};
ghost use Rattle.cache_loop.specs.Turns.{HasTurn};
ghost use Rattle.cache_loop.specs.Wires.{wire_of};

use crate::counts::{Counts, Metered, Thorough};
use crate::doorway::Stream;
use crate::steward::Steward;
use cache_link::Next;
use cache_run::RunError;
use mio::{Registry, Token};
use std::io::{Read, Write};

/// A connection, its socket, and what the loop notes of it.
#[derive(Drop)]
pub struct Served<L: Drop> {
    /// The connection's socket.
    pub stream: Stream,
    /// The connection.
    pub link: L,
    /// Whether the connection is queued for a turn.
    pub is_queued: bool,
    /// Whether the connection waits for a load that is requested from another connection's loader.
    pub is_waiting: bool,
    /// Whether the connection's key is among those that wait for a load, or did.
    pub is_listed: bool,
    /// Whether the connection's socket reports room to write.
    pub tells_room: bool,
    /// Whether a read of the connection's socket may stop before all that has come.
    pub stops_short: bool,
    /// For how many seconds the connection's socket has reported nothing.
    pub quiet: u64,
}

impl<L: Drop> Served<L> {
    /// Creates the record of a connection that was opened.
    pub fn new(stream: Stream, link: L) -> Served<L>
        ensures { (result.stream ≡ stream) × (result.link ≡ link) }
    {
        let stops_short = matches!(stream, Stream::Unix(_));
        Served {
            stream,
            link,
            is_queued: false,
            is_waiting: false,
            is_listed: false,
            tells_room: false,
            stops_short,
            quiet: 0,
        }
    }

    /// Gives the connection a turn, and returns what it waits for then, or the error with which it is to be closed.
    pub fn turn<S: Steward<Link = L>>(
        &mut self,
        steward: &mut S,
        counts: &mut Counts,
    ) -> Result<Next, RunError>
        requires { S.rests_on }
        ensures { HasTurn S.Steward result self.old self.new steward.old steward.new }
    {
        self.is_queued = false;
        self.is_waiting = false;
        let Served {
            stream,
            link,
            stops_short,
            ..
        } = self;
        match stream {
            Stream::Tcp(stream) => {
                let reader = Thorough::new(&*stream, *stops_short);
                turn_over(steward, link, reader, &*stream, counts)
            }
            Stream::Unix(stream) => {
                let reader = Thorough::new(&*stream, *stops_short);
                turn_over(steward, link, reader, &*stream, counts)
            }
        }
    }

    /// Queues the connection. Returns whether it was not queued.
    pub fn enqueue(&mut self) -> bool
        ensures { (self.new.stream ≡ self.old.stream) × (self.new.link ≡ self.old.link) }
    {
        let is_new = !self.is_queued;
        self.is_queued = true;
        is_new
    }

    /// Notes that the connection's key is not listed any more. Returns whether the connection waits for a load.
    pub fn unlist(&mut self) -> bool
        ensures { (self.new.stream ≡ self.old.stream) × (self.new.link ≡ self.old.link) }
    {
        self.is_listed = false;
        self.is_waiting
    }

    /// Notes what the connection's socket reported: that there are bytes to read, some of them urgent, or that its input ends.
    pub fn hear<S: Steward<Link = L>>(
        &mut self,
        steward: &S,
        is_readable: bool,
        is_ending: bool,
        is_urgent: bool,
    )
        ensures { (self.new.stream ≡ self.old.stream)
            × S.wakes is_readable is_ending self.old.link self.new.link }
    {
        steward.wake(&mut self.link, is_readable, is_ending);
        self.quiet = 0;
        self.stops_short = self.stops_short || is_urgent;
    }

    /// Notes that nothing more is to be read of the connection.
    pub fn stop<S: Steward<Link = L>>(&mut self, steward: &S)
        ensures { (self.new.stream ≡ self.old.stream) × S.stops self.old.link self.new.link }
    {
        steward.stop(&mut self.link);
    }

    /// Counts a second. Returns whether the connection's socket has reported nothing for more seconds than it may.
    pub fn count_second(&mut self, idle: u64) -> bool
        ensures { (self.new.stream ≡ self.old.stream) × (self.new.link ≡ self.old.link) }
    {
        self.quiet = self.quiet.saturating_add(1);
        self.quiet > idle && !self.is_waiting && !self.is_queued
    }

    /// Notes what the connection waits for. Returns whether its key is to be queued: it has more to do, or waits for a load and is not listed.
    pub fn note_next(&mut self, registry: &Registry, key: usize, next: Next) -> bool
        ensures { (self.new.stream ≡ self.old.stream) × (self.new.link ≡ self.old.link) }
    {
        match next {
            Next::Input | Next::Over => false,
            Next::Turn => {
                self.is_queued = true;
                true
            }
            Next::Load => {
                let is_new = !self.is_listed;
                self.is_waiting = true;
                self.is_listed = true;
                is_new
            }
            Next::Room => {
                self.await_room(registry, key);
                false
            }
        }
    }

    /// Has the connection's socket report room to write, if it does not yet.
    fn await_room(&mut self, registry: &Registry, key: usize)
        ensures { (self.new.stream ≡ self.old.stream) × (self.new.link ≡ self.old.link) }
    {
        if !self.tells_room {
            self.tells_room = true;
            let _ = self.stream.watch_room(registry, Token(key));
        }
    }
}

/// Gives a connection a turn over its socket, whose bytes are counted.
fn turn_over<S: Steward, I: Read + Drop, O: Write + Drop>(
    steward: &mut S,
    link: &mut S::Link,
    input: I,
    output: O,
    counts: &mut Counts,
) -> Result<Next, RunError>
    requires { S.rests_on }
    ensures { (after : Wire) × S.turns result link.old link.new steward.old steward.new
        (wire_of I.remaining O.contents input output) after }
{
    let reader = Metered::new(input, &mut counts.read);
    let writer = Metered::new(output, &mut counts.written);
    steward.turn(link, reader, writer)
}

//! Whoever serves the connections of a loop.
ghost use Rattle.std.specs.Prelude.{◌≡◌, Bool, Option, Result};
ghost use Rattle.cache_run.specs.declared.devices.errors.RunError.{RunError};
ghost use Rattle.cache_link.specs.Dialogues.{Wire};
ghost use Rattle.cache_link.specs.declared.link.Next.{Next};
ghost use Rattle.cache_loop.specs.Wires.{wire_of};

use crate::counts::Counts;
use cache_link::Next;
use cache_run::RunError;
use std::io::{Read, Write};
use std::time::Duration;

/// Whoever serves the connections of a loop. What a steward does depends on the protocol that they speak.
pub trait Steward: Drop {
    /// A connection between the wake-ups of its socket.
    type Link: Drop;

    /// What is known of those that it serves by.
    ghost rests_on: { Type 0 };

    /// No load that was asked for is pending: each was settled or given up.
    ghost is_settled: { Self → Type 0 };

    /// A connection was opened, or none was.
    ghost opens: { Option Self.Link → Self → Self → Type 0 };

    /// It was noted of a connection that there are bytes to read, and that its input ends.
    ghost wakes: { Bool → Bool → Self.Link → Self.Link → Type 0 };

    /// It was noted that nothing more is to be read of a connection.
    ghost stops: { Self.Link → Self.Link → Type 0 };

    /// A connection had a turn with this result, before which this was left of its input and written to it, and after which that.
    ghost turns: { Result Next RunError → (s t : Self.Link) → Self → Self → Wire → Wire → Type 0 };

    /// A connection was closed, with an error or without one.
    ghost closes: { Self.Link → Result (Unit {0}) RunError → Self → Self → Type 0 };

    /// Loads were asked for, and settled, and nothing was done for a connection.
    ghost settles: { Self → Self → Type 0 };

    /// Loads were given up, and nothing was done for a connection.
    ghost gives_up: { Self → Self → Type 0 };

    /// Returns what is written to a connection for which there is no place.
    fn refusal(&self) -> &'static [u8];

    /// Opens a connection. Returns `None`, and none was opened, if what it needs is not available.
    fn open(&mut self) -> Option<Self::Link>
        ensures { opens result self.old self.new };

    /// Notes what a connection's socket reported: that there are bytes to read, or that the input ends.
    fn wake(&self, link: &mut Self::Link, is_readable: bool, is_ending: bool)
        ensures { wakes is_readable is_ending link.old link.new };

    /// Notes that nothing more is to be read of a connection: once what was read is answered, the connection is over.
    fn stop(&self, link: &mut Self::Link)
        ensures { stops link.old link.new };

    /// Gives a connection a turn over its socket. Returns what the connection waits for then, or the error with which it is to be closed.
    fn turn<I: Read + Drop, O: Write + Drop>(
        &mut self,
        link: &mut Self::Link,
        reader: I,
        writer: O,
    ) -> Result<Next, RunError>
        requires { rests_on }
        ensures { (after : Wire) × turns result link.old link.new self.old self.new
            (wire_of I.remaining O.contents reader writer) after };

    /// Closes a connection, with the error that its last turn returned, if one did.
    fn close(&mut self, link: Self::Link, outcome: Result<(), RunError>)
        requires { rests_on }
        ensures { closes link outcome self.old self.new };

    /// Asks for the loads that went out. Returns how many loads were settled, for which others may wait.
    fn ask_loads(&mut self) -> u64
        requires { rests_on }
        ensures { settles self.old self.new };

    /// Settles the loads that were answered since the last call, and those whose time is over. Returns how many loads were settled.
    fn take_answers(&mut self) -> u64
        requires { rests_on }
        ensures { settles self.old self.new };

    /// Gives up the loads that were asked for and not settled. Returns how many loads were settled, for which others may wait.
    fn give_up_loads(&mut self) -> u64
        requires { rests_on }
        ensures none { is_settled self.new }
        ensures each { gives_up self.old self.new };

    /// Returns how long it is until the time of a load is over, or `None` if no load has such a time.
    fn patience(&mut self) -> Option<Duration>
        ensures { settles self.old self.new };

    /// Adds what the steward has counted itself to what its loop counts.
    fn tally(&self, counts: &mut Counts);
}

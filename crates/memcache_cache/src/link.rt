//! One connection of the memcache service, between the wake-ups of its socket.
ghost use Rattle.std.specs.Prelude.{◌≡◌, ◌≢◌, ◌⊎◌, ℕ, [], true, false, not, None, Ok, IfOk, IfErr, MatchResult};
ghost use Rattle.cache_run.specs.Driver.Causes.{Because};
ghost use Rattle.cache_link.specs.Dialogues.{Wire};
ghost use Rattle.cache_link.specs.Patience.{BreaksDown, WritesOn, is_broken_by};
ghost use Rattle.cache_link.specs.Reports.{HearsOf, Hears, report_with};
ghost use Rattle.cache_link.specs.Served.{wire};
ghost use Rattle.memcache_service.specs.Talks.{connection_of};
ghost use Rattle.memcache_cache.specs.Served.{AnswersPiece, IsServedByTalk, OthersTurns, StaysServedOrOver, TakesItsTurn, TookTurn, WasJustOpened, WorksServed, WritesOwedFirst, has_ended, is_phase_over};

use cache_link::{Backlog, Next, Patient, Report, Room};
use cache_run::{Inbox, RunError};
use memcache_service::{Conn, Service, Shelf};
use std::alloc::{AllocError, Global};
use std::io::{Read, Write};
use std::{io, mem};

/// What is done next for a connection, once all that it is owed is written.
#[derive(Clone, Copy, Debug, PartialEq, Eq, Drop)]
enum Phase {
    /// What its socket reported is read and fed.
    Fed,
    /// Requests were held back until its replies are taken: they run.
    Held,
    /// It is over: the input is at its end, or nothing more is read of it.
    Over,
    /// It is over: the service has ended it.
    Ended,
}

/// One connection of a memcache service: what its socket reported, and the replies that were not written. What was read was fed: the
/// service keeps what no request has used.
#[derive(Drop)]
pub struct MemcacheLink {
    alloc: Global,
    conn: Conn,
    backlog: Backlog,
    // what its socket reported and was not read
    report: Report,
    // whether nothing more is read
    is_stopped: bool,
    phase: Phase,
}

impl MemcacheLink {
    /// Opens a connection. Returns an error if there is no memory for it; then none was opened.
    pub fn open<T: Shelf>(
        service: &mut Service<T>,
        alloc: Global,
    ) -> Result<MemcacheLink, AllocError>
        ensures fresh { IfOk result (λ link. WasJustOpened link service.old service.new) }
        ensures served { IfOk result (λ link. (a : Wire)
            → IsServedByTalk T.Shelf service.new a link service.new a) }
    {
        let conn = service.open()?;
        Ok(MemcacheLink {
            alloc,
            conn,
            backlog: Backlog::new(Vec::new(alloc)),
            report: Report::Nothing,
            is_stopped: false,
            phase: Phase::Fed,
        })
    }

    /// Closes the connection.
    pub fn close<T: Shelf>(self, service: &mut Service<T>)
        ensures closed { connection_of self.conn service.new ≡ None }
        ensures others { (other : ℕ) → other ≢ self.conn
            → OthersTurns other service.old service.new }
    {
        service.close(self.conn);
    }

    /// Notes what the connection's socket reported: that there are bytes to read, or that the input ends.
    pub fn wake(&mut self, is_readable: bool, is_ending: bool)
        ensures { self.new ≡ record self.old {
          report = report_with self.old.report is_readable is_ending;
        } }
    {
        self.report = self.report.with(is_readable, is_ending);
    }

    /// Notes that nothing more is to be read: once what was read is answered, the connection is over.
    pub fn stop(&mut self)
        ensures { self.new ≡ record self.old { is_stopped = true } }
    {
        self.is_stopped = true;
    }

    /// Writes what the connection is owed, and if the writer took all of it: runs requests that were held back, or else reads once if there
    /// may be something to read and feeds that at a moment, and writes the replies. Returns what the connection waits for then.
    ///
    /// After an error the caller closes the connection: `Read` or `Write` if the device failed, or `OutOfMemory`.
    pub fn turn<T: Shelf, I: Read, O: Write>(
        &mut self,
        service: &mut Service<T>,
        reader: &mut Patient<I>,
        writer: &mut Patient<O>,
        room: &mut Room,
        moment: u64,
    ) -> Result<Next, RunError>
        ensures goes { TakesItsTurn T.Shelf result self.old self.new service.old service.new
            (wire I.remaining O.contents reader.old writer.old)
            (wire I.remaining O.contents reader.new writer.new) }
        ensures why { IfErr result (Because (BreaksDown reader.old reader.new)
            (BreaksDown writer.old writer.new) ⊥ ⊥) }
        ensures first { WritesOwedFirst O.contents self.old service.old service.new reader.old
            reader.new writer.old writer.new }
        ensures hears { Hears I.remaining self.old.report self.new.report reader.old reader.new }
        ensures idle { result ≡ Ok Next.Input → self.new.report ≡ Report.Nothing }
        ensures turn { TookTurn self.old.conn moment service.old service.new }
    {
        if !self.backlog.write_to(writer)? {
            return Ok(Next::Room);
        }
        if self.is_over() {
            return Ok(Next::Over);
        }
        self.work(service, reader, writer, room, moment)
    }

    /// Takes a turn where all that it was owed was written.
    fn work<T: Shelf, I: Read, O: Write>(
        &mut self,
        service: &mut Service<T>,
        reader: &mut Patient<I>,
        writer: &mut Patient<O>,
        room: &mut Room,
        moment: u64,
    ) -> Result<Next, RunError>
        requires going { (self.old.backlog ≡ []) × (is_phase_over self.old.phase ≡ false) }
        ensures goes { StaysServedOrOver T.Shelf result self.old self.new service.old service.new
            (wire I.remaining O.contents reader.old writer.old)
            (wire I.remaining O.contents reader.new writer.new) }
        ensures why { IfErr result (Because (BreaksDown reader.old reader.new)
            (BreaksDown writer.old writer.new) ⊥ ⊥) }
        ensures writes { WritesOn O.contents writer.old writer.new }
        ensures hears { Hears I.remaining self.old.report self.new.report reader.old reader.new
            × (result ≡ Ok Next.Input → self.new.report ≡ Report.Nothing) }
        ensures turn { TookTurn self.old.conn moment service.old service.new }
    {
        self.serve(service, reader, room, moment)?;
        if !self.backlog.write_to(writer)? {
            return Ok(Next::Room);
        }
        self.put_away(room);
        Ok(self.next())
    }

    /// Runs requests that were held back, or else reads once and feeds that.
    fn serve<T: Shelf, I: Read>(
        &mut self,
        service: &mut Service<T>,
        reader: &mut Patient<I>,
        room: &mut Room,
        moment: u64,
    ) -> Result<(), RunError>
        requires going { (self.old.backlog ≡ []) × (is_phase_over self.old.phase ≡ false) }
        ensures goes { WorksServed T.Shelf I.remaining self.old self.new service.old service.new
            reader.old reader.new }
        ensures why { IfErr result (Because (BreaksDown reader.old reader.new) ⊥ ⊥ ⊥) }
        ensures hears { Hears I.remaining self.old.report self.new.report reader.old reader.new }
        ensures turn { TookTurn self.old.conn moment service.old service.new }
    {
        if self.phase == Phase::Held {
            self.exchange(service, b"", room, moment);
            return Ok(());
        }
        if self.is_stopped {
            self.phase = Phase::Over;
            return Ok(());
        }
        if self.report == Report::Nothing {
            return Ok(());
        }
        self.read(service, reader, room, moment)
    }

    /// Reads once, and feeds what was read.
    fn read<T: Shelf, I: Read>(
        &mut self,
        service: &mut Service<T>,
        reader: &mut Patient<I>,
        room: &mut Room,
        moment: u64,
    ) -> Result<(), RunError>
        requires going { (self.old.backlog ≡ []) × (is_phase_over self.old.phase ≡ false) }
        ensures goes { WorksServed T.Shelf I.remaining self.old self.new service.old service.new
            reader.old reader.new }
        ensures why { IfErr result (Because (BreaksDown reader.old reader.new) ⊥ ⊥ ⊥) }
        ensures hears { Hears I.remaining self.old.report self.new.report reader.old reader.new }
        ensures turn { TookTurn self.old.conn moment service.old service.new }
    {
        let Ok(mut inbox) = room.take_inbox() else {
            return Err(RunError::OutOfMemory);
        };
        let filled = reader.fill(&mut inbox);
        let noted = self.take_in(filled, &inbox);
        if inbox.is_empty() {
            room.give_inbox(inbox);
            return noted;
        }
        self.exchange(service, inbox.as_slice(), room, moment);
        room.give_inbox(inbox);
        noted
    }

    /// Notes what came of a read into an inbox.
    fn take_in(&mut self, filled: io::Result<usize>, inbox: &Inbox) -> Result<(), RunError>
        ensures same { self.new ≡ record self.old {
          report = self.new.report;
          phase = self.new.phase;
        } }
        ensures phase { (self.new.phase ≡ self.old.phase)
            ⊎ ((self.new.phase ≡ Phase.Over) × (filled ≡ Ok 0)) }
        ensures why { IfErr result (λ e. (e ≡ RunError.Read) × (is_broken_by filled ≡ true)) }
        ensures hears { HearsOf filled self.old.report self.new.report }
    {
        if self.report.note_read(filled, inbox)? {
            self.phase = Phase::Over;
        }
        Ok(())
    }

    /// Feeds a piece, and takes the replies, for which the connection is lent room.
    fn exchange<T: Shelf>(
        &mut self,
        service: &mut Service<T>,
        piece: &[u8],
        room: &mut Room,
        moment: u64,
    )
        ensures answers { AnswersPiece T.Shelf piece.now self.old self.new service.old service.new }
        ensures turn { TookTurn self.old.conn moment service.old service.new }
    {
        let mut bytes = room.take_bytes();
        service.take_output(self.conn, &mut bytes);
        let fed = service.feed(self.conn, piece, moment);
        let is_held = service.is_full(self.conn);
        service.take_output(self.conn, &mut bytes);
        self.backlog = Backlog::new(bytes);
        self.phase = phase_after(fed, is_held);
    }

    /// Lets others have the room that it does not use.
    fn put_away(&mut self, room: &mut Room)
        requires { self.old.backlog ≡ [] }
        ensures { self.new ≡ self.old }
    {
        let bytes = mem::replace(&mut self.backlog, Backlog::new(Vec::new(self.alloc)));
        room.give_bytes(bytes.into_bytes());
    }

    /// Whether nothing more of it is read or fed.
    fn is_over(&self) -> bool
        ensures { result ≡ is_phase_over self.now.phase }
    {
        match self.phase {
            Phase::Over | Phase::Ended => true,
            Phase::Fed | Phase::Held => false,
        }
    }

    /// What it waits for, if all its replies were written.
    fn next(&self) -> Next
        ensures over { result ≡ Next.Over → is_phase_over self.now.phase ≡ true }
        ensures idle { result ≡ Next.Input → self.now.report ≡ Report.Nothing }
    {
        match self.phase {
            Phase::Over | Phase::Ended => Next::Over,
            Phase::Held => Next::Turn,
            Phase::Fed => {
                if self.report != Report::Nothing || self.is_stopped {
                    Next::Turn
                } else {
                    Next::Input
                }
            }
        }
    }
}

/// What is done next after an exchange.
fn phase_after(fed: Result<bool, AllocError>, is_held: bool) -> Phase
    ensures going { result ≢ Phase.Over }
    ensures ended { MatchResult fed (λ goes_on. has_ended result ≡ not goes_on)
        (λ e. has_ended result ≡ true) }
{
    match fed {
        Ok(true) => { if is_held { Phase::Held } else { Phase::Fed } }
        Ok(false) | Err(AllocError) => Phase::Ended,
    }
}

//! One connection, between the wake-ups of its socket.
ghost use Rattle.std.specs.Prelude.{◌≡◌, ◌≢◌, ◌≤◌, ◌⊎◌, ◌↔◌, [], true, false, IfOk, IfErr, IfSome, OnOk, OnErr};
ghost use Rattle.cache_run.specs.Devices.Sources.{HasToldLate};
ghost use Rattle.cache_run.specs.Devices.Sent.{SentBut};
ghost use Rattle.cache_run.specs.Driver.Causes.{Because};
ghost use Rattle.cache_run.specs.Driver.Driven.{ClosesAfter};
ghost use Rattle.cache_run.specs.Driver.Hosting.{Stops};
ghost use Rattle.cache_run.specs.Driver.Interludes.{InterludeBut};
ghost use Rattle.cache_link.specs.Patience.{BreaksDown, WritesOn, is_broken_by};
ghost use Rattle.cache_link.specs.Reports.{HearsOf, Hears, report_after, report_with};
ghost use Rattle.cache_link.specs.Served.{Attends, Fetched, IsAlike, HasJustOpened, Proceeds, Works, WritesFirst, TakesTurn, station, wire};

use crate::attending::attend;
use crate::backlog::Backlog;
use crate::patient::{Patient, is_for_now, would_wait};
use crate::tools::Tools;
use audit_model::Conn;
use cache_run::{Clock, Footing, Host, Inbox, Loader, Progress, RunError, Session, Watched, close};
use std::alloc::Global;
use std::io::{Read, Write};
use std::{io, mem};

/// What a connection waits for.
#[derive(Clone, Copy, Debug, PartialEq, Eq, Drop)]
pub enum Next {
    /// The connection waits for nothing: it is to take another turn when the others have had theirs.
    Turn,
    /// The connection waits for bytes to read.
    Input,
    /// The connection waits for room to write.
    Room,
    /// The connection waits for a load that is requested from another connection's loader.
    Load,
    /// The connection is over: nothing more of it is fed, and all its replies were written.
    Over,
}

/// What a connection's socket reported and was not read.
#[derive(Clone, Copy, Debug, PartialEq, Eq, Drop)]
pub enum Report {
    /// The socket reported nothing.
    Nothing,
    /// There may be bytes to read.
    Bytes,
    /// There may be bytes to read, and then the input ends.
    End,
}

impl Report {
    /// Returns this report together with what was reported after it.
    pub fn with(self, is_readable: bool, is_ending: bool) -> Report
        ensures { result ≡ report_with self is_readable is_ending }
    {
        if is_ending {
            return Report::End;
        }
        if !is_readable {
            return self;
        }
        match self {
            Report::Nothing | Report::Bytes => Report::Bytes,
            Report::End => Report::End,
        }
    }

    /// What is left of this after a read that took some bytes. One that did not fill its room has taken all that there was; but the end
    /// that came with the last bytes is not reported again.
    fn after_read(self, is_full: bool) -> Report
        ensures { result ≡ report_after self is_full }
    {
        match self {
            Report::Bytes if !is_full => Report::Nothing,
            _ => self,
        }
    }

    /// Notes what came of a read into an inbox. Returns whether the input is at its end, or `Read` if the device broke down.
    pub fn note_read(&mut self, filled: io::Result<usize>, inbox: &Inbox) -> Result<bool, RunError>
        ensures ends { IfOk result (λ ends. (ends ≡ true) ↔ (filled ≡ Ok 0)) }
        ensures why { IfErr result (λ e. (e ≡ RunError.Read) × (is_broken_by filled ≡ true)) }
        ensures works { OnOk result (is_broken_by filled ≡ false) }
        ensures hears { HearsOf filled self.old self.new }
    {
        match filled {
            Ok(0) => Ok(true),
            Ok(count) => {
                *self = self.after_read(inbox.is_filled_by(count));
                Ok(false)
            }
            Err(error) if !is_for_now(&error) => Err(RunError::Read),
            Err(error) if would_wait(&error) => {
                *self = Report::Nothing;
                Ok(false)
            }
            Err(_) => Ok(false),
        }
    }
}

/// One connection: what was read of it and not fed, and the replies to it that were not written.
#[derive(Drop)]
pub struct Link {
    session: Session,
    backlog: Backlog,
    // what its socket reported and was not read
    report: Report,
    // whether nothing more is read
    is_stopped: bool,
    // whether nothing more is fed
    is_over: bool,
}

impl Link {
    /// Opens a connection of a namespace. Returns `OutOfMemory`, or `UsedUp` if a 64-bit count is used up; then no connection was opened.
    pub fn open<H: Host>(
        host: &mut H,
        place: &mut H::Place,
        alloc: Global,
        namespace: u64,
    ) -> Result<Link, RunError>
        ensures opens { IfOk result (λ link. H.opens namespace link.session.conn place.old place.new
            × H.knows link.session.conn place.new) }
        ensures fresh { IfOk result HasJustOpened }
        ensures rests { OnErr result ((place.new ≡ place.old) ⊎ H.rests place.old place.new) }
        ensures why { IfErr result (Stops (H.exhausts (H.counted place.old) (H.counted place.new))
            ⊥) }
    {
        let Ok(inbox) = Inbox::small(alloc) else {
            return Err(RunError::OutOfMemory);
        };
        let conn = host.open(place, namespace)?;
        let session = Session {
            conn,
            taken: Vec::new(alloc),
            inbox,
            footing: Footing::Ready,
        };
        Ok(Link {
            session,
            backlog: Backlog::new(Vec::new(alloc)),
            report: Report::Nothing,
            is_stopped: false,
            is_over: false,
        })
    }

    /// Returns the connection.
    pub fn conn(&self) -> Conn
        ensures { result ≡ self.now.session.conn }
    {
        self.session.conn
    }

    /// Notes what the connection's socket reported: that there are bytes to read, or that the input ends.
    pub fn wake(&mut self, is_readable: bool, is_ending: bool)
        ensures { self.new ≡ record self.old {
          report = report_with self.old.report is_readable is_ending;
        } }
    {
        self.report = self.report.with(is_readable, is_ending);
    }

    /// Notes that nothing more is to be read: once what was read is answered, the connection is over.
    pub fn stop(&mut self)
        ensures { self.new ≡ record self.old { is_stopped = true } }
    {
        self.is_stopped = true;
    }

    /// Writes what the connection is owed, and if the writer took all of it: reads once if all that was read was fed, feeds a piece of what
    /// was read, or looks for the load that the connection waits for, settles the loads that went out, and writes the replies. Returns what
    /// the connection waits for then.
    ///
    /// After an error the caller closes the connection with that error: `Read` or `Write` if the device failed, `Moment` if the clock told
    /// more than 2^63 - 1 nanoseconds, `UsedUp`, or `OutOfMemory`.
    pub fn turn<H: Host, I: Read, O: Write, K: Clock, D: Loader>(
        &mut self,
        host: &mut H,
        place: &mut H::Place,
        reader: &mut Patient<I>,
        writer: &mut Patient<O>,
        tools: &mut Tools<K, D>,
    ) -> Result<Next, RunError>
        requires shared { H.LENT ≡ false }
        requires known { H.knows self.old.session.conn place.old }
        ensures known { H.knows self.new.session.conn place.new
            × (self.new.session.conn ≡ self.old.session.conn) }
        ensures goes { TakesTurn H.Host K.reads D.loads result self.old self.new
            (station place.old tools.old) (station place.new tools.new)
            (wire I.remaining O.contents reader.old writer.old)
            (wire I.remaining O.contents reader.new writer.new) }
        ensures among { InterludeBut H.Host K.reads D.loads self.old.session.conn
            (station place.old tools.old) (station place.new tools.new) }
        ensures why { IfErr result (Because (BreaksDown reader.old reader.new)
            (BreaksDown writer.old writer.new) (Unit {0}) (HasToldLate K.reads tools.new.clock)) }
        ensures first { WritesFirst O.contents self.old (station place.old tools.old)
            (station place.new tools.new) reader.old reader.new writer.old writer.new }
        ensures hears { Hears I.remaining self.old.report self.new.report reader.old reader.new
            × (result ≡ Ok Next.Input → self.new.report ≡ Report.Nothing) }
    {
        if !self.backlog.write_to(writer)? {
            return Ok(Next::Room);
        }
        if self.is_over {
            return Ok(Next::Over);
        }
        self.work(host, place, reader, writer, tools)
    }

    /// Takes a turn where all that it was owed was written.
    fn work<H: Host, I: Read, O: Write, K: Clock, D: Loader>(
        &mut self,
        host: &mut H,
        place: &mut H::Place,
        reader: &mut Patient<I>,
        writer: &mut Patient<O>,
        tools: &mut Tools<K, D>,
    ) -> Result<Next, RunError>
        requires shared { H.LENT ≡ false }
        requires known { H.knows self.old.session.conn place.old }
        requires going { (self.old.is_over ≡ false) × (self.old.backlog ≡ []) }
        ensures known { H.knows self.new.session.conn place.new
            × (self.new.session.conn ≡ self.old.session.conn) }
        ensures goes { Proceeds H.Host K.reads D.loads result self.old self.new
            (station place.old tools.old) (station place.new tools.new)
            (wire I.remaining O.contents reader.old writer.old)
            (wire I.remaining O.contents reader.new writer.new) }
        ensures why { IfErr result (Because (BreaksDown reader.old reader.new)
            (BreaksDown writer.old writer.new) (Unit {0}) (HasToldLate K.reads tools.new.clock)) }
        ensures beside { WritesOn O.contents writer.old writer.new
            × InterludeBut H.Host K.reads D.loads self.old.session.conn
            (station place.old tools.old) (station place.new tools.new) }
        ensures hears { Hears I.remaining self.old.report self.new.report reader.old reader.new
            × (result ≡ Ok Next.Input → self.new.report ≡ Report.Nothing) }
    {
        let served = self.serve(host, place, reader, tools);
        // Also what was answered before an error is written.
        let written = self.backlog.write_to(writer);
        served?;
        if !written? {
            return Ok(Next::Room);
        }
        self.put_away(tools);
        Ok(self.next())
    }

    /// Closes the connection, unless it has closed. After an error the loads in hand are dropped, and those that have gone out. Returns
    /// `outcome`.
    pub fn close<H: Host, D: Loader>(
        self,
        host: &mut H,
        place: &mut H::Place,
        outcome: Result<(), RunError>,
        loader: &mut D,
    ) -> Result<(), RunError>
        requires shared { H.LENT ≡ false }
        requires known { H.knows self.session.conn place.old }
        ensures same { result ≡ outcome }
        ensures closes { ClosesAfter H.closes H.drops D.loads outcome self.session place.old
            place.new loader.old loader.new }
    {
        close(host, place, &self.session, outcome, loader)
    }

    /// Reads if all that was read was fed; then, if there is something to do, does it, and gathers the replies.
    fn serve<H: Host, I: Read, K: Clock, D: Loader>(
        &mut self,
        host: &mut H,
        place: &mut H::Place,
        reader: &mut Patient<I>,
        tools: &mut Tools<K, D>,
    ) -> Result<(), RunError>
        requires shared { H.LENT ≡ false }
        requires known { H.knows self.old.session.conn place.old }
        requires going { (self.old.is_over ≡ false) × (self.old.backlog ≡ []) }
        ensures known { H.knows self.new.session.conn place.new
            × (self.new.session.conn ≡ self.old.session.conn) }
        ensures goes { Works H.Host K.reads D.loads I.remaining result self.old self.new
            (station place.old tools.old) (station place.new tools.new) reader.old reader.new }
        ensures among { InterludeBut H.Host K.reads D.loads self.old.session.conn
            (station place.old tools.old) (station place.new tools.new) }
        ensures why { IfErr result (Because (BreaksDown reader.old reader.new) ⊥ (Unit {0})
            (HasToldLate K.reads tools.new.clock)) }
        ensures hears { Hears I.remaining self.old.report self.new.report reader.old reader.new }
    {
        if self.session.footing == Footing::Waiting {
            return self.answer(host, place, tools);
        }
        self.read(reader, tools)?;
        if !self.has_work() {
            return Ok(());
        }
        self.answer(host, place, tools)
    }

    /// Whether something was read and may be fed.
    fn has_work(&self) -> bool
        ensures { result ≡ true → self.now.is_over ≡ false }
    {
        !self.is_over && !self.is_fed()
    }

    /// Whether all that was read was fed.
    fn is_fed(&self) -> bool
        ensures { result ≡ true → self.now.session.inbox ≡ [] }
    {
        self.session.inbox.is_empty()
    }

    /// Whether it has closed.
    fn has_closed(&self) -> bool
        ensures closed { result ≡ true → self.now.session.footing ≡ Footing.Closed }
        ensures opened { result ≡ false → self.now.session.footing ≢ Footing.Closed }
    {
        match self.session.footing {
            Footing::Closed => true,
            Footing::Ready | Footing::Waiting => false,
        }
    }

    /// Attends a piece of what was read, or looks for the load that it waits for, and gathers the replies.
    fn answer<H: Host, K: Clock, D: Loader>(
        &mut self,
        host: &mut H,
        place: &mut H::Place,
        tools: &mut Tools<K, D>,
    ) -> Result<(), RunError>
        requires shared { H.LENT ≡ false }
        requires known { H.knows self.old.session.conn place.old }
        requires going { (self.old.is_over ≡ false) × (self.old.backlog ≡ []) }
        ensures known { H.knows self.new.session.conn place.new
            × (self.new.session.conn ≡ self.old.session.conn) }
        ensures goes { Attends H.Host K.reads D.loads result self.old self.new
            (station place.old tools.old) (station place.new tools.new) }
        ensures among { InterludeBut H.Host K.reads D.loads self.old.session.conn
            (station place.old tools.old) (station place.new tools.new) }
        ensures why { IfErr result (Because ⊥ ⊥ (Unit {0})
            (HasToldLate K.reads tools.new.clock)) }
        ensures report { self.new.report ≡ self.old.report }
    {
        let mut gathered = Watched::new(tools.room.take_bytes());
        let Link { session, .. } = self;
        let Tools { clock, loader, .. } = tools;
        let attended = attend(host, place, session, &mut gathered, clock, loader);
        self.backlog = Backlog::new(gathered.into_inner());
        match attended {
            Ok(progress) => {
                self.is_over = self.has_ended(progress);
                Ok(())
            }
            Err(error) => Err(error_of_answer(error)),
        }
    }

    /// Whether nothing more of it is fed, after this answer.
    fn has_ended(&self, progress: Progress) -> bool
        ensures going { result ≡ false
            → (progress ≡ Progress.More) × (self.now.session.footing ≢ Footing.Closed) }
        ensures over { result ≡ true
            → (progress ≡ Progress.Over) ⊎ (self.now.session.footing ≡ Footing.Closed) }
    {
        match progress {
            Progress::More => self.has_closed(),
            Progress::Over => true,
        }
    }

    /// Reads once, if all that was read was fed and there may be more.
    fn read<I: Read, K, D>(
        &mut self,
        reader: &mut Patient<I>,
        tools: &mut Tools<K, D>,
    ) -> Result<(), RunError>
        requires { self.old.is_over ≡ false }
        ensures fetched { Fetched I.remaining reader.old reader.new self.old self.new }
        ensures same { (tools.new.clock ≡ tools.old.clock) × (tools.new.loader ≡ tools.old.loader) }
        ensures why { IfErr result (Because (BreaksDown reader.old reader.new) ⊥ ⊥ ⊥) }
        ensures hears { Hears I.remaining self.old.report self.new.report reader.old reader.new }
    {
        if !self.is_fed() {
            return Ok(());
        }
        if self.is_stopped {
            self.is_over = true;
            return Ok(());
        }
        if self.report == Report::Nothing {
            return Ok(());
        }
        let Ok(inbox) = tools.room.take_inbox() else {
            return Err(RunError::OutOfMemory);
        };
        self.session.inbox = inbox;
        let filled = reader.fill(&mut self.session.inbox);
        self.is_over = self.report.note_read(filled, &self.session.inbox)?;
        Ok(())
    }

    /// Lets others have the room that it does not use.
    fn put_away<K, D>(&mut self, tools: &mut Tools<K, D>)
        requires { self.old.backlog ≡ [] }
        ensures link { IsAlike self.old self.new }
        ensures same { (tools.new.clock ≡ tools.old.clock) × (tools.new.loader ≡ tools.old.loader) }
    {
        let alloc = tools.alloc;
        let bytes = mem::replace(&mut self.backlog, Backlog::new(Vec::new(alloc)));
        tools.room.give_bytes(bytes.into_bytes());
        if self.session.inbox.is_empty() && !self.session.inbox.is_filled_by(1) {
            if let Ok(small) = Inbox::small(alloc) {
                tools
                    .room
                    .give_inbox(mem::replace(&mut self.session.inbox, small));
            }
        }
    }

    /// What it waits for, if all its replies were written.
    fn next(&self) -> Next
        ensures over { result ≡ Next.Over → self.now.is_over ≡ true }
        ensures idle { result ≡ Next.Input → self.now.report ≡ Report.Nothing }
    {
        if self.is_over {
            return Next::Over;
        }
        if self.session.footing == Footing::Waiting {
            return Next::Load;
        }
        if self.report != Report::Nothing || self.is_stopped || !self.is_fed() {
            return Next::Turn;
        }
        Next::Input
    }
}

/// Why a connection stops after an error of an answer. If a reply could not be gathered, there was not enough memory.
fn error_of_answer(error: RunError) -> RunError
    ensures kept { (result ≡ error) ⊎ (result ≡ RunError.OutOfMemory) }
    ensures none { (result ≢ RunError.Read) × (result ≢ RunError.Write) }
{
    match error {
        RunError::Moment => RunError::Moment,
        RunError::UsedUp => RunError::UsedUp,
        _ => RunError::OutOfMemory,
    }
}

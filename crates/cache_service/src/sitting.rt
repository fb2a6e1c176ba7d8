//! The host of a connection that has a seat of a shared service.
ghost use Rattle.std.specs.Prelude.{◌≡◌, ◌≤◌, ◌⊎◌, ◌-◌, ◌^◌, true, false, IfOk, IfErr, IfSome, OnOk, OnErr};
ghost use Rattle.cache_run.specs.Devices.Sources.{Asking};
ghost use Rattle.cache_run.specs.Driver.Hosting.{Stops};
ghost use Rattle.cache_service.specs.Asked.{give_up_input};
ghost use Rattle.cache_service.specs.Cutting.{IsShortPiece};
ghost use Rattle.cache_service.specs.Exchanged.{GivesLook, GivesTurn, IsRefusedFor, SettledSo, WereTaken, given_up_or_left, is_held_by};
ghost use Rattle.cache_service.specs.Sitting.{Closes, Comes, Drops, DropsBy, DropsOne, GivesDue, Opens, SeatIdles, SeatTakes, Settles, TakesIfGiven, closes-behind, none-short, tally, used-later};
ghost use Rattle.cache_service.specs.Telling.{TellsAll};
ghost use Rattle.cache_shared.specs.Events.{HasLateMoment};
ghost use Rattle.cache_shared.specs.Intakes.{input_in};

use crate::cutting::{length_of_cut, lines_after};
use crate::devices::Teller;
use crate::pausing::pause;
use audit_model::{Bytes, Conn, Input, Instant, LoadId, Note, Outcome, ServiceError};
use cache_run::{Given, Host, Loader, RunError};
use cache_shared::{Intake, Seat, Seating, Shareable, SharedService};
use cache_spaces::{Output, Owed};
use std::alloc::{AllocError, Global};
use std::sync::Wait;

/// The maximum number of notes that are taken at once.
const NOTES_AT_ONCE: usize = 64;

/// What a connection is served with, apart from its seat: the service, who receives notes, and room for them; and how many reply bytes were
/// sent since something was passed on.
#[derive(Drop)]
pub struct Sitting<'a, L: Seating, C: Shareable, T: Teller, R: Wait> {
    rt: &'a R,
    shared: &'a SharedService<L, C>,
    teller: &'a mut T,
    notes: Vec<Note>,
    replied: usize,
    // whether it waits for loads that are requested from other connections' loaders
    waits: bool,
}

/// Whether a command is held back for lack of memory.
fn is_held(output: &Output) -> bool
    ensures { result ≡ is_held_by output.now }
{
    matches!(output, Output::Held)
}

impl<'a, L: Seating, C: Shareable, T: Teller, R: Wait> Sitting<'a, L, C, T, R> {
    /// Creates what a connection is served with, with room for notes if they are received. `waits` says whether the connection waits for
    /// loads that are requested from other connections' loaders, or only looks. Returns an error if there is not enough memory.
    pub fn new(
        rt: &'a R,
        alloc: Global,
        shared: &'a SharedService<L, C>,
        teller: &'a mut T,
        waits: bool,
    ) -> Result<Self, AllocError> {
        let room = if teller.is_told() { NOTES_AT_ONCE } else { 0 };
        Ok(Sitting {
            rt,
            shared,
            teller,
            notes: Vec::with_capacity(alloc, room)?,
            replied: 0,
            waits,
        })
    }

    /// Reports the notes that were taken, and those for which there was no room.
    fn tell_notes(&mut self, namespace: u64)
        ensures same { self.new.teller.ghost_name ≡ self.old.teller.ghost_name }
        ensures told { TellsAll T.tells (WereTaken L.configs C.spaces C.untaken C.untold namespace)
            self.old.teller.now self.new.teller.now self.old.notes.items }
    {
        for _turn in self.rt.forever() {
            if self.notes.is_empty() {
                return;
            }
            let is_full = self.notes.len() == self.notes.capacity();
            self.teller.tell(self.rt, self.notes.as_slice());
            self.notes.clear();
            if !is_full {
                return;
            }
            let notes = &mut self.notes;
            let _ = self.shared.take_notices(self.rt, namespace, notes);
        }
        unreachable!()
    }

    /// Gives what is owed, and counts the reply bytes.
    fn give(&mut self, owed: Owed, held: bool) -> Given
        ensures given { result ≡ record { held = held; owed = owed } }
        ensures teller { self.new.teller ≡ self.old.teller }
    {
        if let Some(text) = &owed.replies {
            self.replied = self.replied.saturating_add(text.len());
        }
        Given { held, owed }
    }

    /// Has an intake taken, and gives what the connection is owed afterwards, in one hold of the lock; then notes are reported.
    fn ask(
        &mut self,
        seat: &mut Seat<L, C>,
        conn: Conn,
        intake: Intake<'_>,
        wants_loads: bool,
    ) -> Result<Given, ServiceError>
        ensures taken { OnOk result
            (SeatTakes C.KEEPS (input_in intake.entry) (tally seat.old) (tally seat.new)) }
        ensures given { IfOk result (GivesDue L.configs C.spaces C.untaken conn wants_loads) }
        ensures turned { IfOk result (GivesTurn L.configs C.spaces C.untaken C.untold conn
            (input_in intake.entry) wants_loads (TellsAll T.tells
            (WereTaken L.configs C.spaces C.untaken C.untold conn.namespace) self.old.teller.now
            self.new.teller.now) seat.old.claims seat.new.claims) }
        ensures rests { OnErr result (SeatIdles seat.old seat.new) }
        ensures late { IfErr result
            (λ e. e ≡ ServiceError.Moment → HasLateMoment (input_in intake.entry)) }
        ensures why { IfErr result
            (IsRefusedFor L.configs C.spaces C.untaken C.untold (input_in intake.entry)) }
        ensures used_up { IfErr result
            (λ e. e ≡ ServiceError.UsedUp → seat.old.count ≡ 2 ^ 64 - 1) }
        ensures same { self.new.teller.ghost_name ≡ self.old.teller.ghost_name }
    {
        let Sitting { shared, notes, .. } = self;
        let turn = match shared.turn(self.rt, seat, conn, intake, wants_loads, notes) {
            Ok(turn) => turn,
            Err(refused) => return Err(refused.error),
        };
        self.tell_notes(conn.namespace);
        let held = is_held(&turn.output);
        Ok(self.give(turn.owed, held))
    }

    /// What a connection is owed; notes are reported.
    fn take_owed(&mut self, seat: &mut Seat<L, C>, conn: Conn, wants_loads: bool) -> Given
        ensures given { GivesDue L.configs C.spaces C.untaken conn wants_loads result }
        ensures looked { GivesLook L.configs C.spaces C.untaken C.untold conn wants_loads
            (TellsAll T.tells (WereTaken L.configs C.spaces C.untaken C.untold conn.namespace)
            self.old.teller.now self.new.teller.now) seat.old.claims seat.new.claims result }
        ensures seat { tally seat.new ≡ tally seat.old }
        ensures same { self.new.teller.ghost_name ≡ self.old.teller.ghost_name }
    {
        let notes = &mut self.notes;
        let owed = self
            .shared
            .take_owed(self.rt, seat, conn, wants_loads, notes);
        self.tell_notes(conn.namespace);
        self.give(owed, false)
    }

    /// Gives up a load. If that is refused for memory, it is tried again. `None` if it is not under way.
    fn give_up(
        &mut self,
        seat: &mut Seat<L, C>,
        conn: Conn,
        load: u64,
        moment: u64,
        wants_loads: bool,
    ) -> Result<Option<Given>, RunError>
        ensures taken { TakesIfGiven C.KEEPS (give_up_input conn.namespace moment load) result
            (tally seat.old) (tally seat.new) }
        ensures given { IfOk result
            (λ given. IfSome given (GivesDue L.configs C.spaces C.untaken conn wants_loads)) }
        ensures settled { IfOk result (λ given. (asking : Asking)
            → SettledSo L.configs C.spaces C.untaken C.untold conn
            (given_up_or_left load asking given) moment seat.old.claims given seat.new.claims) }
        ensures rests { OnErr result (seat.new.claims ≡ seat.old.claims) }
        ensures why { IfErr result
            (Stops (2 ^ 64 - 1 ≤ seat.new.count) (2 ^ 63 ≤ moment)) }
    {
        for _try in self.rt.forever() {
            let input = Input::GiveUp {
                load: LoadId {
                    namespace: conn.namespace,
                    number: load,
                },
                moment: Instant { nanos: moment },
            };
            let error = match self.ask(seat, conn, Intake::Input(input), wants_loads) {
                Ok(given) => return Ok(Some(given)),
                Err(error) => error,
            };
            match error {
                ServiceError::OutOfMemory => pause(self.rt),
                ServiceError::UsedUp => return Err(RunError::UsedUp),
                ServiceError::Moment => return Err(RunError::Moment),
                // It is not under way.
                _ => return Ok(None),
            }
        }
        unreachable!()
    }

    /// Settles a load by what the loader returned for its key: it is given up if the loader returned nothing, or if the outcome is refused
    /// for its bytes or its time. `None` if it is not under way.
    fn settle_load(
        &mut self,
        seat: &mut Seat<L, C>,
        conn: Conn,
        load: u64,
        said: Option<Outcome>,
        moment: u64,
        wants_loads: bool,
    ) -> Result<Option<Given>, RunError>
        ensures settled { Settles L.configs C.spaces C.untaken C.KEEPS C.untold conn load said
            moment result seat.old seat.new }
        ensures rests { OnErr result (SeatIdles seat.old seat.new) }
        ensures given { IfOk result
            (λ given. IfSome given (GivesDue L.configs C.spaces C.untaken conn wants_loads)) }
        ensures why { IfErr result
            (Stops (2 ^ 64 - 1 ≤ seat.new.count) (2 ^ 63 ≤ moment)) }
    {
        let outcome = match said {
            Some(outcome) => outcome,
            None => return self.give_up(seat, conn, load, moment, wants_loads),
        };
        let input = Input::Answer {
            load: LoadId {
                namespace: conn.namespace,
                number: load,
            },
            outcome,
            moment: Instant { nanos: moment },
        };
        let error = match self.ask(seat, conn, Intake::Input(input), wants_loads) {
            Ok(given) => return Ok(Some(given)),
            Err(error) => error,
        };
        match error {
            ServiceError::LineEnd | ServiceError::TooLong | ServiceError::Deadline => {
                self.give_up(seat, conn, load, moment, wants_loads)
            }
            ServiceError::OutOfMemory | ServiceError::UsedUp | ServiceError::Moment => {
                Err(error_of_refusal(error))
            }
            // It is not under way.
            _ => Ok(None),
        }
    }

    /// Asks the loader for a load of a connection that has closed, and settles it at moment 0, which counts as the latest. An answer that
    /// is refused is followed by a give-up.
    fn drop_load<D: Loader>(
        &mut self,
        seat: &mut Seat<L, C>,
        conn: Conn,
        load: u64,
        key: &[u8],
        loader: &mut D,
    )
        ensures { DropsOne L.configs C.spaces C.untaken C.KEEPS D.loads conn.namespace load key.now
            seat.old seat.new loader.old loader.new }
    {
        let said = loader.load(key);
        if let Err(_) = self.settle_load(seat, conn, load, said, 0, false) {
            let _ = self.give_up(seat, conn, load, 0, false);
        }
    }

    /// Asks the loader for loads of a connection that has closed, the last first, and settles them.
    fn drop_each<D: Loader>(
        &mut self,
        seat: &mut Seat<L, C>,
        conn: Conn,
        loads: &[(LoadId, Bytes)],
        loader: &mut D,
    )
        ensures { DropsBy L.configs C.spaces C.untaken C.KEEPS D.loads conn loads.now seat.old
            seat.new loader.old loader.new }
    {
        for place in 0..loads.len() {
            let (load, key) = &loads[loads.len() - 1 - place];
            self.drop_load(seat, conn, load.number, key.as_slice(), loader);
        }
    }
}

impl<L: Seating, C: Shareable, T: Teller, R: Wait> Host for Sitting<'_, L, C, T, R> {
    type Place = Seat<L, C>;

    ghost LENT = { false };

    ghost opens = { Opens L.configs C.spaces C.untaken C.KEEPS C.untold };

    ghost knows = { λ conn seat. Unit {0} };

    ghost fits = { IsShortPiece };

    ghost came = { Comes L.configs C.spaces C.untaken C.KEEPS C.untold };

    ghost rests = { SeatIdles };

    ghost counted = { λ seat. seat.count };

    ghost exhausts = { λ before after. 2 ^ 64 - 1 ≤ after };

    ghost closes = { Closes L.configs C.spaces C.untaken C.KEEPS };

    ghost drops = { Drops L.configs C.spaces C.untaken C.KEEPS };

    fn open(&mut self, place: &mut Seat<L, C>, namespace: u64) -> Result<Conn, RunError> {
        match self.shared.step(self.rt, place, Input::Open { namespace }) {
            Ok(Output::Opened { conn }) => Ok(conn),
            Ok(_) => unreachable!(),
            Err(refusal) => Err(error_of_refusal(refusal.error)),
        }
    }

    fn cut(&mut self, bytes: &[u8]) -> usize {
        let lines = lines_after(self.replied);
        self.replied = 0;
        length_of_cut(bytes, lines)
    }

    fn feed(
        &mut self,
        place: &mut Seat<L, C>,
        conn: Conn,
        piece: &[u8],
        moment: u64,
    ) -> Result<Option<Given>, RunError> {
        let intake = Intake::Piece {
            conn,
            piece,
            moment: Instant { nanos: moment },
        };
        match self.ask(place, conn, intake, true) {
            Ok(given) => Ok(Some(given)),
            Err(ServiceError::Closed) => Ok(None),
            Err(error) => Err(error_of_refusal(error)),
        }
    }

    fn settle(
        &mut self,
        place: &mut Seat<L, C>,
        conn: Conn,
        load: u64,
        said: Option<Outcome>,
        moment: u64,
        wants_loads: bool,
    ) -> Result<Given, RunError> {
        match self.settle_load(place, conn, load, said, moment, wants_loads)? {
            Some(given) => Ok(given),
            None => Ok(self.take_owed(place, conn, wants_loads)),
        }
    }

    fn await_owed(&mut self, place: &mut Seat<L, C>, conn: Conn) -> Given {
        if self.waits {
            self.shared.await_ready(self.rt, place, conn);
        }
        self.take_owed(place, conn, true)
    }

    fn close(&mut self, place: &mut Seat<L, C>, conn: Conn) {
        // A closing that is refused for memory is tried again.
        for _try in 0..u64::MAX {
            match self.shared.step(self.rt, place, Input::Close { conn }) {
                Err(refusal) if refusal.error == ServiceError::OutOfMemory => pause(self.rt),
                _ => return,
            }
        }
    }

    fn drop_loads<D: Loader>(
        &mut self,
        place: &mut Seat<L, C>,
        conn: Conn,
        hand: &[(LoadId, Bytes)],
        loader: &mut D,
    ) {
        self.drop_each(place, conn, hand, loader);
        for _turn in 0..u64::MAX {
            let Given { owed, .. } = self.take_owed(place, conn, true);
            let Owed { loads, .. } = owed;
            match loads {
                Some(loads) if !loads.is_empty() => {
                    self.drop_each(place, conn, loads.as_slice(), loader);
                }
                _ => return,
            }
        }
    }

    ghost fits_none = { none-short };

    ghost exhausts_within = { λ i j k l below above used. used-later k l above used };

    ghost closes_behind = { λ conn p q r rests closes.
        closes-behind conn (tally p) (tally q) (tally r) rests.0 closes };
}

/// Why a connection stops after an input of it was refused.
fn error_of_refusal(error: ServiceError) -> RunError
    ensures { (result ≡ RunError.OutOfMemory)
        ⊎ ((result ≡ RunError.UsedUp) × (error ≡ ServiceError.UsedUp))
        ⊎ ((result ≡ RunError.Moment) × (error ≡ ServiceError.Moment)) }
{
    match error {
        ServiceError::UsedUp => RunError::UsedUp,
        ServiceError::Moment => RunError::Moment,
        _ => RunError::OutOfMemory,
    }
}

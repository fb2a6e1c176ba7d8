//! One namespace: its connections over its store.
ghost use Rattle.std.specs.Prelude.{◌≡◌, ◌+◌, ◌-◌, ◌<◌, ◌^◌, ◌↔◌, [], None, Some, false, is_some, length, slice_set, IsErr, IsTrue, IfOk, IfErr, OnOk, OnErr};
ghost use Rattle.audit_model.specs.Belongs.{refusal_of};
ghost use Rattle.audit_model.specs.Situation.{Situation, is_holding_in};
ghost use Rattle.audit_model.specs.declared.event.Event.TheVariants as event;
ghost use Rattle.std.specs.Option.{option_map};
ghost use Rattle.cache_core.specs.Owing.{GivesOwed, GivesOwn, GivesWanted};
ghost use Rattle.cache_core.specs.Settling.{Happens, answering, giving_up};
ghost use Rattle.cache_core.specs.State.{IsBetweenEvents, StateStandsFor, SuitsItself, closing_in, known_of_state, loads_taken_of, new_state, output_in, situation_with, was_opened_in};
ghost use Rattle.cache_core.specs.Turned.{RefusesBy, ContinuesBy, feeding, is_waiting_in};
ghost use Rattle.cache_commands.specs.Loads.Keys.{are_in_turn, have_their_keys};
ghost use Rattle.cache_commands.specs.Handing.{TakesFirstNote};
ghost use Rattle.cache_commands.specs.Values.{GivesNote};
ghost use Rattle.cache_lines.specs.Tape.Taped.{IsAtRest};

use crate::answering::Stored;
use crate::connection::{Taken, new_connection};
use crate::connections::Connections;
use crate::giving_up::begin_give_up;
use crate::interior::Interior;
use crate::owing::Owed;
use crate::places::{close_at, find_open, find_opened, leave_closed, take_at, waits_at_place};
use crate::refusing::MAX_MOMENT;
use audit_model::{Bytes, Closing, Event, Instant, LoadId, Note, Outcome, Seq, ServiceError};
use cache_commands::{Keyed, Loads, Store};
use cache_lines::{Base, Tape};
use std::alloc::{AllocError, Global};
use std::marker::Model;

/// A namespace: its store, and its connections in the order in which they were opened.
#[derive(Drop)]
pub struct Namespace<S: Store, T: Tape> {
    alloc: Global,
    latest: u64,
    interior: Interior<S, T>,
}

impl<S: Store, T: Tape> Model for Namespace<S, T> {
    ghost use Rattle.cache_core.specs.Settling.{Happens, answering, giving_up};
    ghost use Rattle.cache_core.specs.State.{IsBetweenEvents, NamespaceState, state_of};

    ghost Value = { NamespaceState S T };

    ghost view = { λ n. state_of n.interior.base n.latest n.interior.connections };

    ghost invariant = { λ n. IsBetweenEvents S.view T.view
        (state_of n.interior.base n.latest n.interior.connections) };
}

impl<S: Store, T: Tape> Namespace<S, T> {
    /// Creates a namespace without connections, over a store whose latest moment is `latest`, in nanoseconds. Returns an error if there is
    /// not enough memory.
    pub fn new(
        alloc: Global,
        namespace: u64,
        store: S,
        tape: T,
        latest: u64,
    ) -> Result<Namespace<S, T>, AllocError>
        requires latest { (S.view store).frame.latest ≡ latest }
        requires moment { latest < 2 ^ 63 }
        requires rests { IsAtRest (T.view tape) }
        requires untaken { (S.view store).untaken ≡ [] }
        ensures { IfOk result (λ made. made ≡ new_state store tape latest namespace) }
    {
        let base = Base {
            store: Keyed::new(alloc, store)?,
            loads: Loads::new(alloc, namespace),
            tape,
        };
        Ok(Namespace {
            alloc,
            latest,
            interior: Interior {
                base,
                connections: Connections::new(alloc),
            },
        })
    }

    /// Opens a connection, and returns its number. Returns an error if there is not enough memory; then nothing has changed.
    pub fn open(&mut self) -> Result<u64, AllocError>
        ensures turned { IfOk result (λ number. (number ≡ length self.old.closings + 1)
            × ContinuesBy S.view T.view self.old self.new (event.Open number) false) }
        ensures unchanged { OnErr result (self.new ≡ self.old) }
    {
        self.interior.base.store.sound();
        self.interior.base.tape.start(0)?;
        if let Err(error) = self.interior.connections.push(new_connection(self.alloc)) {
            self.interior.base.tape.abandon();
            return Err(error);
        }
        let number = self.interior.connections.len() as u64;
        let event = Event::Open { conn: number };
        let tape = &mut self.interior.base.tape;
        tape.finish(event, None, Seq::new(self.alloc));
        Ok(number)
    }

    /// Takes a piece of a connection's bytes, and returns whether its last command is held back. Returns `NoConnection`, `Closed` or
    /// `Moment` (above 2^63 - 1 nanoseconds), in this order, and otherwise `OutOfMemory`, or `HeldAgain` if there is still not enough
    /// memory for the command that is held back; then nothing has changed.
    pub fn feed(&mut self, number: u64, piece: &[u8], moment: Instant) -> Result<bool, ServiceError>
        ensures turned { IfOk result (λ is_held. ContinuesBy S.view T.view self.old self.new
            (feeding number piece.now moment.nanos) is_held) }
        ensures refused { IfErr result
            (RefusesBy S.view self.old (feeding number piece.now moment.nanos)
            (is_holding_in (situation_with S.view self.old []) number)) }
        ensures unchanged { OnErr result (self.new ≡ self.old) }
    {
        self.interior.base.store.sound();
        let index = find_open(&self.interior.connections, number)?;
        if moment.nanos > MAX_MOMENT {
            return Err(ServiceError::Moment);
        }
        let now = moment.nanos.max(self.latest);
        match self.interior.feed_at(now, index, piece, moment) {
            Ok(is_held) => {
                self.interior.base.store.sound();
                let Interior { base, connections } = &mut self.interior;
                leave_closed(&mut base.loads, number, connections, index);
                connections.retire(index);
                self.latest = now;
                Ok(is_held)
            }
            Err(error) => Err(error),
        }
    }

    /// Closes a connection, and drops the bytes that no line has used. Returns `NoConnection` or `Closed`, in this order, and otherwise
    /// `OutOfMemory` if there is no memory for the record; then nothing has changed. The call allocates nothing else.
    pub fn close(&mut self, number: u64) -> Result<(), ServiceError>
        ensures turned { OnOk result
            (ContinuesBy S.view T.view self.old self.new (event.Close number) false) }
        ensures refused { IfErr result (RefusesBy S.view self.old (event.Close number) false) }
        ensures spare { T.view self.old.tape ≡ None
            → IfErr result (λ e. refusal_of (S.view self.old.store).frame.config
            (known_of_state S.view self.old) (event.Close number) ≡ Some e) }
        ensures unchanged { OnErr result (self.new ≡ self.old) }
    {
        self.interior.base.store.sound();
        let index = find_open(&self.interior.connections, number)?;
        let Ok(()) = self.interior.base.tape.start(0) else {
            return Err(ServiceError::OutOfMemory);
        };
        close_at(&mut self.interior.connections, index);
        self.interior.connections.retire(index);
        self.interior.base.loads.leave(number);
        let event = Event::Close { conn: number };
        let tape = &mut self.interior.base.tape;
        tape.finish(event, None, Seq::new(self.alloc));
        Ok(())
    }

    /// Answers a load under way: its value is stored, those that wait receive the outcome in order, and then their lines run in the same
    /// order. Returns the outcome with `NoLoad`, `Moment` (above 2^63 - 1 nanoseconds), `LineEnd`, `TooLong` or `Deadline`, in this order,
    /// and otherwise with `OutOfMemory`; then nothing has changed.
    pub fn answer(
        &mut self,
        load: u64,
        outcome: Outcome,
        moment: Instant,
    ) -> Result<(), (ServiceError, Outcome)>
        ensures turned { OnOk result
            (Happens S.view T.view self.old self.new (answering load outcome moment.nanos)) }
        ensures refused { IfErr result
            (λ e. RefusesBy S.view self.old (answering load outcome moment.nanos) false e.0) }
        ensures back { IfErr result (λ e. e.1 ≡ outcome) }
        ensures unchanged { OnErr result (self.new ≡ self.old) }
    {
        self.interior.base.store.sound();
        if let Some(error) = self.interior.refuse_answer(load, &outcome, moment.nanos) {
            return Err((error, outcome));
        }
        let now = moment.nanos.max(self.latest);
        match self.interior.begin_answer(self.alloc, now, load, &outcome) {
            Ok(Stored { accepted, notes }) => {
                self.interior.hand_out(now, load, &outcome);
                let event = Event::Answer {
                    load,
                    outcome,
                    moment,
                };
                let tape = &mut self.interior.base.tape;
                tape.finish(event, accepted, Seq::from_vec(notes));
                self.interior.base.store.sound();
                self.latest = now;
                Ok(())
            }
            Err(_) => Err((ServiceError::OutOfMemory, outcome)),
        }
    }

    /// Gives a load under way up: each `LOAD` that waits for it runs again as a whole command, in order, followed by its connection's
    /// lines. A line for which there is no memory is held back, and a `LOAD` at its 200th give-up is abandoned. Returns `NoLoad` or
    /// `Moment` (above 2^63 - 1 nanoseconds), in this order, and otherwise `OutOfMemory` if there is no memory for the record; then nothing
    /// has changed.
    pub fn give_up(&mut self, load: u64, moment: Instant) -> Result<(), ServiceError>
        ensures turned { OnOk result
            (Happens S.view T.view self.old self.new (giving_up load moment.nanos)) }
        ensures refused { IfErr result
            (RefusesBy S.view self.old (giving_up load moment.nanos) false) }
        ensures spare { T.view self.old.tape ≡ None
            → IfErr result (λ e. refusal_of (S.view self.old.store).frame.config
            (known_of_state S.view self.old) (giving_up load moment.nanos) ≡ Some e) }
        ensures unchanged { OnErr result (self.new ≡ self.old) }
    {
        self.interior.base.store.sound();
        if let Some(error) = self.interior.refuse_load(load, moment.nanos) {
            return Err(error);
        }
        let Ok(()) = begin_give_up(&mut self.interior.base, load) else {
            return Err(ServiceError::OutOfMemory);
        };
        let now = moment.nanos.max(self.latest);
        self.interior.settle_give_up(now, load);
        let event = Event::GiveUp { load, moment };
        let tape = &mut self.interior.base.tape;
        tape.finish(event, None, Seq::new(self.alloc));
        self.interior.base.store.sound();
        self.latest = now;
        Ok(())
    }

    /// Returns what a connection is owed, moved out: its replies since they were last taken; the loads that went out and were not taken, if
    /// they are requested; why it is closed; and whether a `LOAD` of it waits. The call allocates nothing. Returns `NoConnection` if the
    /// connection was never opened; then nothing has changed.
    pub fn owed(&mut self, number: u64, wants_loads: bool) -> Result<Owed, ServiceError>
        ensures given { IfOk result (GivesOwed S.view self.old self.new number wants_loads) }
        ensures refused { IsErr result ↔ (was_opened_in self.old number ≡ false) }
        ensures unchanged { IfErr result
            (λ e. (e ≡ ServiceError.NoConnection) × (self.new ≡ self.old)) }
    {
        let taken = self.take_own(number)?;
        Ok(Owed {
            replies: Some(taken.replies),
            loads: self.take_wanted(wants_loads),
            closing: taken.closing,
            waits: taken.waits,
        })
    }

    /// Moves out what a connection is owed itself. Returns `NoConnection` if the connection was never opened; then nothing has changed.
    fn take_own(&mut self, number: u64) -> Result<Taken, ServiceError>
        ensures given { IfOk result (GivesOwn S.view self.old self.new number) }
        ensures refused { IsErr result ↔ (was_opened_in self.old number ≡ false) }
        ensures unchanged { IfErr result
            (λ e. (e ≡ ServiceError.NoConnection) × (self.new ≡ self.old)) }
    {
        let index = find_opened(&self.interior.connections, number)?;
        Ok(take_at(self.alloc, &mut self.interior.connections, index))
    }

    /// Takes the loads that went out, if they are requested.
    fn take_wanted(&mut self, wants_loads: bool) -> Option<Vec<(LoadId, Bytes)>>
        ensures wanted { is_some result ≡ wants_loads }
        ensures given { GivesWanted self.old self.new (option_map (λ loads. loads.items) result) }
    {
        if wants_loads {
            Some(self.take_loads())
        } else {
            None
        }
    }

    /// Returns the reply bytes of a connection since they were last taken, moved out. The call allocates nothing. Returns `NoConnection` if
    /// the connection was never opened; then nothing has changed.
    pub fn take_output(&mut self, number: u64) -> Result<Vec<u8>, ServiceError>
        ensures taken { IfOk result (λ text. (text.items ≡ output_in self.old number) × (self.new
            ≡ record self.old { outputs = slice_set self.old.outputs (number - 1) [] })) }
        ensures refused { IsErr result ↔ (was_opened_in self.old number ≡ false) }
        ensures unchanged { IfErr result
            (λ e. (e ≡ ServiceError.NoConnection) × (self.new ≡ self.old)) }
    {
        match self.take_own(number) {
            Ok(taken) => Ok(taken.replies),
            Err(error) => Err(error),
        }
    }

    /// Returns the loads that went out and were not taken, moved out, in the order in which they were sent. The call allocates nothing.
    pub fn take_loads(&mut self) -> Vec<(LoadId, Bytes)>
        ensures taken { (result.items ≡ self.old.outgoing)
            × (self.new ≡ record self.old { outgoing = [] }) }
        ensures in_turn { IsTrue
            (are_in_turn self.old.namespace (loads_taken_of self.old) result.items) }
        ensures keys { IsTrue (have_their_keys self.old.pending result.items) }
    {
        self.interior.base.loads.take(self.alloc)
    }

    /// Takes the note that was reported first, or returns `None` if there is none. The call allocates nothing.
    pub fn next_notice(&mut self) -> Option<Note>
        ensures taken { TakesFirstNote (S.view self.old.store).untaken
            (S.view self.new.store).untaken result }
        ensures gives { GivesNote (S.view self.old.store) (S.view self.new.store) }
        ensures rest { self.new ≡ record self.old { store = self.new.store } }
    {
        self.interior.base.store.next_notice()
    }

    /// Returns why a connection is closed, or `None` while it is open. Returns `NoConnection` if the connection was never opened.
    pub fn closed(&self, number: u64) -> Result<Option<Closing>, ServiceError>
        ensures closing { IfOk result (λ closing. closing ≡ closing_in self.now number) }
        ensures refused { IsErr result ↔ (was_opened_in self.now number ≡ false) }
        ensures error { IfErr result (λ e. e ≡ ServiceError.NoConnection) }
    {
        let index = find_opened(&self.interior.connections, number)?;
        Ok(self.interior.connections.closing(index))
    }

    /// Returns whether a `LOAD` of a connection waits. Returns `NoConnection` if the connection was never opened.
    pub fn waiting(&self, number: u64) -> Result<bool, ServiceError>
        ensures waits { IfOk result
            (λ waits. waits ≡ is_waiting_in (situation_with S.view self.now []) number) }
        ensures refused { IsErr result ↔ (was_opened_in self.now number ≡ false) }
        ensures error { IfErr result (λ e. e ≡ ServiceError.NoConnection) }
    {
        let index = find_opened(&self.interior.connections, number)?;
        Ok(waits_at_place(&self.interior.connections, index))
    }

    /// Returns how many loads are under way: sent, and neither answered nor given up, whether they were taken or not.
    pub fn loads_open(&self) -> u64
        ensures { result ≡ length self.now.pending }
    {
        self.interior.base.loads.count() as u64
    }

    /// Returns the tape of the namespace's records, moved out. The call allocates nothing.
    pub fn into_tape(self) -> T
        ensures { result ≡ self.tape }
    {
        let Namespace { interior, .. } = self;
        let Interior { base, .. } = interior;
        let Base { tape, .. } = base;
        tape
    }

    /// Returns the tape of the namespace's records.
    pub fn tape(&self) -> &T
        ensures { result.now ≡ self.now.tape }
    {
        &self.interior.base.tape
    }

    /// Returns the namespace's store.
    pub fn store(&self) -> &S
        ensures { result.now ≡ self.now.store }
    {
        self.interior.base.store.store()
    }

    /// Does nothing. Its contract says what is true of every namespace: there is a situation (of the definitions) that it agrees with, its
    /// connections and loads are in order, and its store, connections and loads agree with each other.
    pub fn sound(&self)
        ensures stands { (s : Situation) × StateStandsFor S.view self.now s }
        ensures order { IsBetweenEvents S.view T.view self.now }
        ensures suits { SuitsItself S.view self.now }
    {
        self.interior.base.store.sound();
    }
}

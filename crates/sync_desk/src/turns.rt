//! Turns: leading, waiting, and how they end.
ghost use Rattle.std.specs.Prelude.{◌≡◌, ◌⊎◌, ◌+◌, true, false, Option, None, Some, Ok, IfOk, IfErr, OnOk, OnErr, if◌then◌else◌, is_ok, is_some, option_map};
ghost use Rattle.std.specs.Fn.{FnOnceReturnsAt};
ghost use Rattle.std.specs.Result.{IsErrOf};
ghost use Rattle.engine_reference.specs.Calls.{removal_rooms};
ghost use Rattle.front_parts.specs.Places.Turning.{IsFinishCause};
ghost use Rattle.front_reference.specs.Fronts.{ComesAfter, turn_at, turn_of};
ghost use Rattle.front_reference.specs.declared.data.Made.TheVariants as makes;
ghost use Rattle.front_reference.specs.declared.errors.CacheError.TheVariants as errors;
ghost use Rattle.front_reference.specs.declared.data.TurnKind.TheVariants as kinds;
ghost use Rattle.front_state.specs.Beginning.{StartsBy};
ghost use Rattle.front_state.specs.Calls.{IsCauseIn, hash_in};
ghost use Rattle.sync_desk.specs.Coalescing.{IsMadeOrFound};
ghost use Rattle.sync_desk.specs.Drawing.{BeginsAsDrawn, CoalescesAsDrawn, ComputesAsDrawn, EndsUnstarted, FinishesAsDrawn, GivesUp, HasStarted, LacksNumbers, LacksSteps, LooksUpAsDrawn, StartsTurn, TakesOutAsDrawn, compute_start, state_start, told_at_end};
ghost use Rattle.sync_desk.specs.Slots.Endings.{IsExact, fits, suits};
ghost use Rattle.sync_desk.specs.Slots.Refusals.{IsEndRefusal, IsEndShortOf, IsShortOf, IsShortage};
ghost use Rattle.sync_desk.specs.Slots.Waiting.{ChangesTurnAt, SlotsStay, changed, ended_with, turn_hash, if_of, seen_with, turn_by_number, told_of};
ghost use Rattle.sync_desk.specs.Writing.{noted_if};
ghost use Rattle.sync_desk.specs.declared.slots.slot.Ending.TheVariants.{Done, GivenUp};

use crate::desk::Desk;
use crate::slots::{Asked, Ending, SharedName, WaitingName, copy_made};
use engine_reference::Rules;
use front_parts::HasWays;
use front_reference::{At, CacheError, IntoKey, Made, Shared, TurnKind, TurnStart};
use rand_core::Rng;
use std::alloc::AllocError;
use std::hash::{BuildHasher, Hash};

/// How a call that makes a value begins.
#[derive(Drop)]
pub enum Start<A, V> {
    /// The value of the key is visible.
    Found(V),
    /// The turn of this number is under way. The caller waits for the turn, and may try again with this name of its key.
    Wait(u64, A),
    /// The turn of this number began, and the caller leads it.
    Lead(u64),
}

/// How a compute call begins.
#[derive(Drop)]
pub enum ComputeStart<V> {
    /// The turn of this number is under way, and the caller waits for the turn.
    Wait(u64),
    /// The turn of this number began, and the caller leads it. The value is the visible one, which the call uses.
    Lead(u64, Option<V>),
}

impl<
    K: Eq + Hash + Drop,
    V: Clone + Drop,
    S: BuildHasher + Drop,
    R: Rules<K, V> + Drop,
    G: Rng + Drop,
    C: Drop,
> Desk<K, V, S, R, G, C> {
    /// Begins a call that makes a value. Returns the visible value, which counts as a use of it; or the turn of this kind and key that is
    /// under way, for which the caller waits from now on; or a new turn. A visible value for which `replace_if` returns true counts as
    /// none; `replace_if` is called here, and so under the lock. The key is made only if a turn begins, and waiting allocates nothing.
    /// Returns `OutOfMemory` if there is not enough memory, and `UsedUp` if the 64-bit numbers of calls or turns, or of callers that wait
    /// for a turn, are used up; then neither the cache nor the turns have changed. A caller that waits gets the name of its key back.
    pub fn begin<A: Asked<K>, P: FnOnce(&V) -> bool + Drop>(
        &mut self,
        kind: TurnKind,
        asked: A,
        replace_if: P,
    ) -> Result<Start<A, V>, CacheError>
        requires becomes { (a : A) → A.can_become a }
        requires exact { (x y : V) → V.is_clone x y → y ≡ x }
        requires callable { P.IsAlwaysCallable replace_if }
        ensures begins { IfOk result
            (λ start. BeginsAsDrawn ⟦<R as HasWays<K, V, S>>⟧.ways self.old.moment kind
            (A.named_key asked) (FnOnceReturnsAt P.FnOnce replace_if)
            self.old.state self.new.state (state_start start)) }
        ensures turns { IfOk result (StartsTurn kind
            (hash_in ⟦<R as HasWays<K, V, S>>⟧.ways self.old.state (A.named_key asked)) asked
            self.old.slots.slots self.new.slots.slots) }
        ensures err { OnErr result ((self.new.state ≡ self.old.state)
            × SlotsStay self.old.slots.slots self.new.slots.slots) }
        ensures rest { self.new
            ≡ record self.old { state = self.new.state; slots = self.new.slots } }
        ensures cause { IsShortOf (LacksNumbers self.old.state self.old.slots.slots) result }
    {
        let Some(at) = self.draw() else {
            return Err(CacheError::UsedUp);
        };
        let At { now, step } = at;
        let hash = self.state.hash(asked.key());
        if kind.is_same(TurnKind::Compute) {
            return self.wait_or_lead(kind, asked, hash, At { now, step }, false);
        }
        let at = At { now, step };
        let Ok((ignored, found)) = self.state.get_unless(&asked, hash, at, replace_if) else {
            return Err(CacheError::OutOfMemory);
        };
        match found {
            Some(value) => Ok(Start::Found(value)),
            None => self.wait_or_lead(kind, asked, hash, At { now, step }, ignored),
        }
    }

    /// Begins where nothing is found: the caller waits for the turn that is under way, or leads a new one.
    fn wait_or_lead<A: Asked<K>>(
        &mut self,
        kind: TurnKind,
        asked: A,
        hash: u64,
        at: At,
        ignored: bool,
    ) -> Result<Start<A, V>, CacheError>
        requires becomes { (a : A) → A.can_become a }
        requires hashed { hash
            ≡ hash_in ⟦<R as HasWays<K, V, S>>⟧.ways self.old.state (A.named_key asked) }
        requires follows { ComesAfter at.now at.step self.old.state }
        ensures starts { IfOk result (λ start. StartsBy ⟦<R as HasWays<K, V, S>>⟧.ways kind
            (A.named_key asked) hash at ignored self.old.state self.new.state (state_start start)) }
        ensures turns { IfOk result
            (StartsTurn kind hash asked self.old.slots.slots self.new.slots.slots) }
        ensures err { OnErr result ((self.new.state ≡ self.old.state)
            × SlotsStay self.old.slots.slots self.new.slots.slots) }
        ensures rest { self.new
            ≡ record self.old { state = self.new.state; slots = self.new.slots } }
        ensures cause { IsShortOf (LacksNumbers self.old.state self.old.slots.slots) result }
    {
        match self.state.turn_number(kind, &asked, hash) {
            Some(number) => self.wait_for(kind, asked, hash, at, ignored, number),
            None => self.lead(kind, asked, hash, at, ignored),
        }
    }

    /// Begins by leading a turn, since none is under way.
    fn lead<A: Asked<K>>(
        &mut self,
        kind: TurnKind,
        asked: A,
        hash: u64,
        at: At,
        ignored: bool,
    ) -> Result<Start<A, V>, CacheError>
        requires free { (hash
            ≡ hash_in ⟦<R as HasWays<K, V, S>>⟧.ways self.old.state (A.named_key asked))
            × (turn_of K.eq self.old.state.turns kind (A.named_key asked) ≡ None) }
        requires becomes { A.can_become asked }
        requires follows { ComesAfter at.now at.step self.old.state }
        ensures starts { IfOk result (λ start. StartsBy ⟦<R as HasWays<K, V, S>>⟧.ways kind
            (A.named_key asked) hash at ignored self.old.state self.new.state (state_start start)) }
        ensures turns { IfOk result
            (StartsTurn kind hash asked self.old.slots.slots self.new.slots.slots) }
        ensures err { OnErr result ((self.new.state ≡ self.old.state)
            × SlotsStay self.old.slots.slots self.new.slots.slots) }
        ensures rest { self.new
            ≡ record self.old { state = self.new.state; slots = self.new.slots } }
        ensures cause { IsShortOf (LacksNumbers self.old.state self.old.slots.slots) result }
    {
        let Ok(()) = self.slots.reserve() else {
            return Err(CacheError::OutOfMemory);
        };
        match self.state.begin_missed(kind, asked, hash, at, ignored) {
            Ok(TurnStart::Lead(number)) => {
                self.slots.open(kind, number, hash);
                Ok(Start::Lead(number))
            }
            Ok(_) => unreachable!(),
            Err(refused) => Err(refused),
        }
    }

    /// Begins by waiting for the turn of this number, which is under way.
    fn wait_for<A: Asked<K>>(
        &mut self,
        kind: TurnKind,
        asked: A,
        hash: u64,
        at: At,
        ignored: bool,
        number: u64,
    ) -> Result<Start<A, V>, CacheError>
        requires busy { (hash
            ≡ hash_in ⟦<R as HasWays<K, V, S>>⟧.ways self.old.state (A.named_key asked))
            × (option_map (λ turn. turn.number)
            (turn_of K.eq self.old.state.turns kind (A.named_key asked)) ≡ Some number) }
        requires follows { ComesAfter at.now at.step self.old.state }
        ensures starts { IfOk result (λ start. StartsBy ⟦<R as HasWays<K, V, S>>⟧.ways kind
            (A.named_key asked) hash at ignored self.old.state self.new.state (state_start start)) }
        ensures turns { IfOk result
            (StartsTurn kind hash asked self.old.slots.slots self.new.slots.slots) }
        ensures err { OnErr result ((self.new.state ≡ self.old.state)
            × SlotsStay self.old.slots.slots self.new.slots.slots) }
        ensures rest { self.new
            ≡ record self.old { state = self.new.state; slots = self.new.slots } }
        ensures cause { IsShortOf (LacksNumbers self.old.state self.old.slots.slots) result }
    {
        if !self.slots.can_join(number) {
            return Err(CacheError::UsedUp);
        }
        let name = WaitingName { key: asked.key() };
        match self.state.begin_missed(kind, name, hash, at, ignored) {
            Ok(TurnStart::Wait(waited)) => {
                self.slots.join(kind, waited);
                Ok(Start::Wait(waited, asked))
            }
            Ok(_) => unreachable!(),
            Err(refused) => Err(refused),
        }
    }

    /// Begins a compute call. Returns the turn of this key that is under way, for which the caller waits from now on, or a new one. Returns
    /// `OutOfMemory` if there is not enough memory, and `UsedUp` if the 64-bit numbers are used up. If only the clone of the value is
    /// refused, the new turn is given up.
    pub fn begin_compute(&mut self, key: &Shared<K>) -> Result<ComputeStart<V>, CacheError>
        requires exact { (x y : V) → V.is_clone x y → y ≡ x }
        ensures begins { IfOk result (ComputesAsDrawn ⟦<R as HasWays<K, V, S>>⟧.ways
            self.old.moment key.now self.old.state self.new.state) }
        ensures err { OnErr result (EndsUnstarted ⟦<R as HasWays<K, V, S>>⟧.ways self.old.moment
            key.now self.old.slots.slots self.new.slots.slots self.old.state self.new.state) }
        ensures rest { self.new
            ≡ record self.old { state = self.new.state; slots = self.new.slots } }
        ensures cause { IfErr result IsShortage }
        ensures turns { IfOk result (λ start. HasStarted kinds.Compute
            (hash_in ⟦<R as HasWays<K, V, S>>⟧.ways self.old.state key.now)
            self.old.slots.slots self.new.slots.slots (compute_start start)) }
        ensures used_up { IsErrOf result errors.UsedUp
            → LacksNumbers self.old.state self.old.slots.slots ⊎ LacksSteps 2 self.old.state }
    {
        match self.begin(TurnKind::Compute, SharedName { key }, |_: &V| -> bool {
            false
        }) {
            Ok(Start::Lead(number)) => self.show_visible(key, number),
            Ok(Start::Wait(number, _)) => Ok(ComputeStart::Wait(number)),
            Ok(Start::Found(_)) => unreachable!(),
            Err(refused) => Err(refused),
        }
    }

    /// Shows the caller that leads a compute turn the visible value of its key, or gives the turn up.
    fn show_visible(&mut self, key: &Shared<K>, number: u64) -> Result<ComputeStart<V>, CacheError>
        requires exact { (x y : V) → V.is_clone x y → y ≡ x }
        ensures leads { IfOk result (λ start. (seen : Option V)
            × (start ≡ ComputeStart.Lead number seen)
            × LooksUpAsDrawn ⟦<R as HasWays<K, V, S>>⟧.ways self.old.moment key.now
            self.old.state self.new.state seen) }
        ensures slots { OnOk result (self.new.slots ≡ self.old.slots) }
        ensures gives_up { OnErr result (GivesUp self.old.moment number self.old.state
            self.new.state) }
        ensures told { OnErr result (ChangesTurnAt kinds.Compute number (ended_with GivenUp)
            self.old.slots.slots self.new.slots.slots) }
        ensures rest { self.new
            ≡ record self.old { state = self.new.state; slots = self.new.slots } }
        ensures cause { IfErr result IsShortage }
        ensures used_up { IsErrOf result errors.UsedUp → LacksSteps 1 self.old.state }
    {
        match self.get(&**key) {
            Ok(seen) => Ok(ComputeStart::Lead(number, seen)),
            Err(refused) => {
                self.abandon(TurnKind::Compute, number);
                Err(refused)
            }
        }
    }

    /// Returns what became of a turn that the caller waits for. If the turn ended, or a clone of what it made is refused, with
    /// `OutOfMemory`, the caller waits no longer.
    pub fn look(
        &mut self,
        kind: TurnKind,
        number: u64,
    ) -> Result<Ending<V, Shared<R::Fault>>, CacheError>
        ensures fits { IfOk result (λ ending. fits kind ending ≡ true) }
        ensures told { IsExact V.is_clone → IfOk result
            (λ ending. ending ≡ told_of (if_of kind (turn_by_number number self.old.slots.slots))) }
        ensures leaves { ChangesTurnAt kind number (λ turn. seen_with turn.ending turn)
            self.old.slots.slots self.new.slots.slots }
        ensures cause { IfErr result (λ e. e ≡ errors.OutOfMemory) }
        ensures rest { self.new ≡ record self.old { slots = self.new.slots } }
    {
        match self.slots.look(kind, number) {
            Ok(ending) => Ok(ending),
            Err(_) => Err(CacheError::OutOfMemory),
        }
    }

    /// Ends the turn that the caller leads with what was made: a value is inserted, whatever happened to the key in the meantime, and those
    /// that wait get clones. Returns `OutOfMemory` if there is not enough memory, `UsedUp` if the 64-bit numbers are used up, and
    /// `UnknownTurn` if the turn is not under way. After an error the turn is given up.
    pub fn finish(
        &mut self,
        kind: TurnKind,
        number: u64,
        made: Made<V, Shared<R::Fault>>,
    ) -> Result<(), CacheError>
        requires suits { suits kind made ≡ true }
        ensures told { IsExact V.is_clone
            → ChangesTurnAt kind number (ended_with (told_at_end made result))
            self.old.slots.slots self.new.slots.slots }
        ensures ends { OnOk result ((is_some (turn_at self.old.state.turns number) ≡ true)
            × FinishesAsDrawn ⟦<R as HasWays<K, V, S>>⟧.ways self.old.moment number
            made self.old.state self.new.state) }
        ensures writes { self.new.writes.steps ≡ noted_if (if is_ok result
            then turn_hash kind (turn_by_number number self.old.slots.slots) else None)
            self.new.state.step self.old.writes.steps }
        ensures rest { self.new ≡ record self.old {
          state = self.new.state;
          slots = self.new.slots;
          writes = self.new.writes;
        } }
        ensures err { OnErr result (GivesUp self.old.moment number self.old.state
            self.new.state) }
        ensures cause { IsEndShortOf (LacksSteps 1 self.old.state ⊎ IsFinishCause
            ⟦<R as HasWays<K, V, S>>⟧.ways number self.old.state errors.UsedUp) result }
        ensures unknown { IsErrOf result errors.UnknownTurn
            → turn_at self.old.state.turns number ≡ None }
    {
        match self.copy_for_waiting(kind, number, &made) {
            Ok(ending) => self.end_with(kind, number, made, ending),
            Err(_) => {
                self.abandon(kind, number);
                Err(CacheError::OutOfMemory)
            }
        }
    }

    /// A clone of what was made, if some callers wait for it.
    fn copy_for_waiting(
        &self,
        kind: TurnKind,
        number: u64,
        made: &Made<V, Shared<R::Fault>>,
    ) -> Result<Ending<V, Shared<R::Fault>>, AllocError>
        requires { suits kind made.now ≡ true }
        ensures fits { IfOk result (λ ending. fits kind ending ≡ true) }
        ensures copy { IsExact V.is_clone → IfOk result (λ ending. changed kind (ended_with ending)
            (turn_by_number number self.now.slots.slots)
            ≡ changed kind (ended_with (Done made.now))
            (turn_by_number number self.now.slots.slots)) }
    {
        if self.slots.is_waited_for(kind, number) {
            Ok(Ending::Done(copy_made(made)?))
        } else {
            Ok(Ending::GivenUp)
        }
    }

    /// Ends the turn with what was made, and shows those that wait another ending.
    fn end_with(
        &mut self,
        kind: TurnKind,
        number: u64,
        made: Made<V, Shared<R::Fault>>,
        ending: Ending<V, Shared<R::Fault>>,
    ) -> Result<(), CacheError>
        requires { fits kind ending ≡ true }
        ensures told { ChangesTurnAt kind number
            (ended_with (if is_ok result then ending else GivenUp))
            self.old.slots.slots self.new.slots.slots }
        ensures ends { OnOk result ((is_some (turn_at self.old.state.turns number) ≡ true)
            × FinishesAsDrawn ⟦<R as HasWays<K, V, S>>⟧.ways self.old.moment number
            made self.old.state self.new.state) }
        ensures writes { self.new.writes.steps ≡ noted_if (if is_ok result
            then turn_hash kind (turn_by_number number self.old.slots.slots) else None)
            self.new.state.step self.old.writes.steps }
        ensures rest { self.new ≡ record self.old {
          state = self.new.state;
          slots = self.new.slots;
          writes = self.new.writes;
        } }
        ensures err { OnErr result (GivesUp self.old.moment number self.old.state
            self.new.state) }
        ensures cause { IsEndShortOf (LacksSteps 1 self.old.state ⊎ IsFinishCause
            ⟦<R as HasWays<K, V, S>>⟧.ways number self.old.state errors.UsedUp) result }
        ensures unknown { IsErrOf result errors.UnknownTurn
            → turn_at self.old.state.turns number ≡ None }
    {
        match self.end_state(number, made) {
            Ok(()) => {
                self.end_slot(kind, number, ending);
                Ok(())
            }
            Err(refused) => {
                self.abandon(kind, number);
                Err(refused)
            }
        }
    }

    /// Shows those that wait how the turn ended, and notes that its key may have been written.
    fn end_slot(&mut self, kind: TurnKind, number: u64, ending: Ending<V, Shared<R::Fault>>)
        requires { fits kind ending ≡ true }
        ensures told { ChangesTurnAt kind number (ended_with ending) self.old.slots.slots
            self.new.slots.slots }
        ensures rest { self.new
            ≡ record self.old { slots = self.new.slots; writes = self.new.writes } }
        ensures writes { self.new.writes.steps
            ≡ noted_if (turn_hash kind (turn_by_number number self.old.slots.slots))
            self.old.state.step self.old.writes.steps }
    {
        if let Some(hash) = self.slots.end(kind, number, ending) {
            let At { step, .. } = self.state.last_call();
            self.writes.note(hash, step);
        }
    }

    /// Ends the turn of the state.
    fn end_state(&mut self, number: u64, made: Made<V, Shared<R::Fault>>) -> Result<(), CacheError>
        ensures ends { OnOk result (FinishesAsDrawn ⟦<R as HasWays<K, V, S>>⟧.ways
            self.old.moment number made self.old.state self.new.state) }
        ensures known { OnOk result (is_some (turn_at self.old.state.turns number) ≡ true) }
        ensures err { OnErr result (self.new.state ≡ self.old.state) }
        ensures rest { self.new ≡ record self.old { state = self.new.state } }
        ensures cause { IfErr result IsEndRefusal }
        ensures used_up { IsErrOf result errors.UsedUp → LacksSteps 1 self.old.state
            ⊎ IsFinishCause ⟦<R as HasWays<K, V, S>>⟧.ways number self.old.state errors.UsedUp }
        ensures unknown { IsErrOf result errors.UnknownTurn
            → turn_at self.old.state.turns number ≡ None }
    {
        let Some(at) = self.draw() else {
            return Err(CacheError::UsedUp);
        };
        if let Err((refused, _)) = self.state.finish(number, made, at) {
            return Err(refused);
        }
        Ok(())
    }

    /// Gives up the turn that the caller leads: those that wait begin again. The call is never refused.
    pub fn abandon(&mut self, kind: TurnKind, number: u64)
        ensures gives_up { GivesUp self.old.moment number self.old.state self.new.state }
        ensures told { ChangesTurnAt kind number (ended_with GivenUp) self.old.slots.slots
            self.new.slots.slots }
        ensures rest { self.new
            ≡ record self.old { state = self.new.state; slots = self.new.slots } }
    {
        if let Some(at) = self.draw() {
            let _known = self.state.abandon(number, at);
        }
        let _hash = self.slots.end(kind, number, Ending::GivenUp);
    }

    /// Ends the compute turn that the caller leads by putting a value. Returns the errors of `finish`; then the turn is given up.
    pub fn put(&mut self, number: u64, value: V) -> Result<(), CacheError>
        ensures ends { OnOk result ((is_some (turn_at self.old.state.turns number) ≡ true)
            × FinishesAsDrawn ⟦<R as HasWays<K, V, S>>⟧.ways self.old.moment {F = R.Fault}
            number (makes.Value value) self.old.state self.new.state) }
        ensures told { ChangesTurnAt kinds.Compute number (ended_with GivenUp) self.old.slots.slots
            self.new.slots.slots }
        ensures writes { self.new.writes.steps ≡ noted_if (if is_ok result
            then turn_hash kinds.Compute (turn_by_number number self.old.slots.slots) else None)
            self.new.state.step self.old.writes.steps }
        ensures rest { self.new ≡ record self.old {
          state = self.new.state;
          slots = self.new.slots;
          writes = self.new.writes;
        } }
        ensures err { OnErr result (GivesUp self.old.moment number self.old.state
            self.new.state) }
        ensures cause { IsEndShortOf (LacksSteps 1 self.old.state ⊎ IsFinishCause
            ⟦<R as HasWays<K, V, S>>⟧.ways number self.old.state errors.UsedUp) result }
        ensures unknown { IsErrOf result errors.UnknownTurn
            → turn_at self.old.state.turns number ≡ None }
    {
        self.end_with(
            TurnKind::Compute,
            number,
            Made::Value(value),
            Ending::GivenUp,
        )
    }

    /// Ends the compute turn that the caller leads by removing its key, whether its deadline has come or not, and returns its value, or
    /// `None` if nothing is held. Returns `OutOfMemory` if there is not enough memory, and `UsedUp` if the 64-bit numbers are used up; then
    /// the turn is given up.
    pub fn take_out(&mut self, number: u64, key: &K) -> Result<Option<V>, CacheError>
        requires exact { (x y : V) → V.is_clone x y → y ≡ x }
        ensures told { ChangesTurnAt kinds.Compute number (ended_with GivenUp) self.old.slots.slots
            self.new.slots.slots }
        ensures takes_out { IfOk result (TakesOutAsDrawn ⟦<R as HasWays<K, V, S>>⟧.ways
            self.old.moment number key.now self.old.state self.new.state) }
        ensures rest { self.new
            ≡ record self.old { state = self.new.state; slots = self.new.slots } }
        ensures err { OnErr result (GivesUp self.old.moment number self.old.state
            self.new.state) }
        ensures cause { IfErr result IsShortage }
        ensures used_up { IsErrOf result errors.UsedUp → LacksSteps 1 self.old.state ⊎ IsCauseIn
            ⟦<R as HasWays<K, V, S>>⟧.ways removal_rooms self.old.state key.now errors.UsedUp }
    {
        let removed = self.remove(key);
        self.abandon(TurnKind::Compute, number);
        removed
    }

    /// Returns the visible value of a key, unless `replace_if` returns true for it, and false; or else what `make` makes, and true: a value
    /// is then inserted. No turn is led or waited for: all this happens in one hold of the lock. Returns `OutOfMemory` if there is not
    /// enough memory, and `UsedUp` if 2^64 - 1 calls have been made or the 64-bit numbers of writes are used up; then nothing has changed.
    pub fn coalesce_now<
        P: FnOnce(&V) -> bool + Drop,
        M: FnOnce() -> Result<Made<V, Shared<R::Fault>>, AllocError> + Drop,
    >(
        &mut self,
        key: &Shared<K>,
        replace_if: P,
        make: M,
    ) -> Result<(Made<V, Shared<R::Fault>>, bool), CacheError>
        requires exact { (x y : V) → V.is_clone x y → y ≡ x }
        requires callable { P.IsAlwaysCallable replace_if × M.IsAlwaysCallable make }
        ensures coalesces { IfOk result (CoalescesAsDrawn ⟦<R as HasWays<K, V, S>>⟧.ways
            self.old.moment key.now (FnOnceReturnsAt P.FnOnce replace_if) (M.post make)
            self.old.state self.new.state) }
        ensures answer { IfOk result (λ a. IsMadeOrFound (λ made. M.post make (Ok made)) a.0 a.1) }
        ensures err { OnErr result (self.new.state ≡ self.old.state) }
        ensures rest { self.new
            ≡ record self.old { state = self.new.state; writes = self.new.writes } }
        ensures writes { self.new.writes.steps ≡ noted_if (if is_ok result then Some
            (hash_in ⟦<R as HasWays<K, V, S>>⟧.ways self.old.state key.now) else None)
            (self.old.state.step + 1) self.old.writes.steps }
        ensures cause { IsShortOf (LacksSteps 1 self.old.state ⊎ IsCauseIn
            ⟦<R as HasWays<K, V, S>>⟧.ways (λ _. 1) self.old.state key.now errors.UsedUp) result }
    {
        let Some(at) = self.draw() else {
            return Err(CacheError::UsedUp);
        };
        let At { now, step } = at;
        let hash = self.state.hash(&**key);
        match self.state.coalesce(SharedName { key }, hash, At { now, step }, replace_if, make) {
            Ok(answer) => {
                self.writes.note(hash, step);
                Ok(answer)
            }
            Err(refused) => Err(refused),
        }
    }
}

//! Turns: calls that make a value, one at a time for a kind and a key.
ghost use Rattle.std.specs.Prelude.{◌≡◌, true, false, None, IfOk, IfErr, OnOk, OnErr, MatchOption, is_none, is_some, option_map};
ghost use Rattle.std.specs.Fn.{FnOnceReturnsAt};
ghost use Rattle.engine_reference.specs.Scanning.{NotesLookUp};
ghost use Rattle.front_reference.specs.Fronts.{CallsPart, ComesAfter, part_by_hash, passed, turn_at, turn_of};
ghost use Rattle.front_reference.specs.Turns.{abandoned, begun_compute, with_turn};
ghost use Rattle.front_reference.specs.declared.data.Op.TheVariants as op;
ghost use Rattle.front_reference.specs.declared.data.TurnKind.TheVariants as turns;
ghost use Rattle.front_reference.specs.declared.errors.CacheError.TheVariants.{UnknownTurn};
ghost use Rattle.front_parts.specs.Access.Answering.{passes_none};
ghost use Rattle.front_parts.specs.Places.Calls.{IsAskedFirst, hash_in, seen_of};
ghost use Rattle.front_parts.specs.Places.Turning.{BeginsIn, EndsTurnOf, FinishesBy, IsFinishCause, IsTurnCause, Leads, WaitsOrLeads};
ghost use Rattle.front_state.specs.Beginning.{BeginsBy, StartsBy};

use crate::state::LentState;
use crate::state::parts::part_mut;
use engine_reference::{Hashes, Names, Rules};
use front_parts::{HasWays, insert_or_back, make_turn};
use front_reference::{
    At, CacheError, IntoKey, LentKey, Made, OwnedKey, Shared, TurnKind, TurnStart,
};
use std::alloc::AllocError;
use std::hash::{BuildHasher, Hash};

impl<K: Eq + Hash, V, S: BuildHasher, R: Rules<K, V>, C> LentState<K, V, S, R, C> {
    /// Returns whether no turn of this kind is under way for a key.
    /// ```
    /// if cache.is_turn_free(TurnKind::With, &7) {
    ///     let value = cache.get_with(7, || 49, at)?;
    /// }
    /// ```
    pub fn is_turn_free(&self, kind: TurnKind, key: &K) -> bool
        ensures { result ≡ is_none (turn_of K.eq self.now.turns kind key.now) }
    {
        let hash = self.hasher.hash_key(key);
        self.turn_number(kind, &LentKey { key }, hash).is_none()
    }

    /// Returns the number of the turn of a kind and a key that is under way, or `None` if none is. `key` names the key, and `hash` is its
    /// hash.
    pub fn turn_number<Q: Names<Shared<K>>>(
        &self,
        kind: TurnKind,
        key: &Q,
        hash: u64,
    ) -> Option<u64>
        requires { hash ≡ hash_in ⟦<R as HasWays<K, V, S>>⟧.ways self.now (Q.named_key key.now) }
        ensures { result
            ≡ option_map (λ t. t.number) (turn_of K.eq self.now.turns kind (Q.named_key key.now)) }
    {
        self.turns.find(kind, key, hash)
    }

    /// Returns whether `replace_if` returned true for the visible value of a key, which is then passed over, and otherwise a clone of that
    /// value, which counts as a use of it. If no clone is returned, nothing has changed, and `begin_missed` begins a call that makes a
    /// value. Returns an error if there is not enough memory; then nothing has changed.
    /// ```
    /// let (is_passed_over, found) = cache.get_unless(&LentKey { key: &7 }, cache.hash(&7), at, |v| v.is_old())?;
    /// ```
    pub fn get_unless<Q: Names<Shared<K>>, P: FnOnce(&V) -> bool + Drop>(
        &mut self,
        key: &Q,
        hash: u64,
        at: At,
        replace_if: P,
    ) -> Result<(bool, Option<V>), AllocError>
    where
        K: Drop,
        V: Clone + Drop,
        requires hashed { hash
            ≡ hash_in ⟦<R as HasWays<K, V, S>>⟧.ways self.old (Q.named_key key.now) }
        requires exact { (x y : V) → V.is_clone x y → y ≡ x }
        requires callable { P.IsAlwaysCallable replace_if }
        requires follows { ComesAfter at.now at.step self.old }
        ensures asked { IfOk result
            (IsAskedFirst ⟦<R as HasWays<K, V, S>>⟧.ways (part_by_hash self.old hash) at.now
            (Q.named_key key.now) (FnOnceReturnsAt P.FnOnce replace_if)) }
        ensures found { IfOk result (λ a. a.1 ≡ seen_of ⟦<R as HasWays<K, V, S>>⟧.ways
            (part_by_hash self.old hash) at.now (Q.named_key key.now) a.0) }
        ensures used { IfOk result (λ a. MatchOption a.1 (self.new ≡ self.old) (λ value. CallsPart
            hash at.now at.step (NotesLookUp R.answers K.eq (Q.named_key key.now) hash at.now a.0)
            self.old self.new)) }
        ensures err { OnErr result (self.new ≡ self.old) }
    {
        let At { now, step } = at;
        let part = part_mut(&mut self.parts, self.bits, hash);
        let (ignored, found) = part.get_with_hash_unless(key, hash, now, replace_if)?;
        match found {
            Some(value) => {
                self.moment = now;
                self.step = step;
                Ok((ignored, Some(value)))
            }
            None => Ok((ignored, None)),
        }
    }

    /// Notes a look-up of a key.
    fn note<Q: Names<Shared<K>>>(&mut self, key: &Q, hash: u64, at: At, ignored: bool)
    where
        K: Drop,
        V: Drop,
        requires hashed { hash
            ≡ hash_in ⟦<R as HasWays<K, V, S>>⟧.ways self.old (Q.named_key key.now) }
        requires follows { ComesAfter at.now at.step self.old }
        ensures { CallsPart hash at.now at.step (NotesLookUp R.answers K.eq
            (Q.named_key key.now) hash at.now ignored) self.old self.new }
    {
        let At { now, step } = at;
        let part = part_mut(&mut self.parts, self.bits, hash);
        part.note_look_up(key, hash, now, ignored);
        self.moment = now;
        self.step = step;
    }

    /// Notes a look-up that found nothing, and begins a turn, whose number it answers.
    fn lead<Q: IntoKey<Shared<K>>>(
        &mut self,
        kind: TurnKind,
        name: Q,
        hash: u64,
        at: At,
        ignored: bool,
    ) -> Result<u64, CacheError>
    where
        K: Drop,
        V: Drop,
        requires hashed { hash
            ≡ hash_in ⟦<R as HasWays<K, V, S>>⟧.ways self.old (Q.named_key name) }
        requires becomes { Q.can_become name }
        requires follows { ComesAfter at.now at.step self.old }
        requires free { turn_of K.eq self.old.turns kind (Q.named_key name) ≡ None }
        ensures leads { IfOk result (Leads ⟦<R as HasWays<K, V, S>>⟧.ways kind
            (Q.named_key name) hash at ignored self.old self.new) }
        ensures err { OnErr result (self.new ≡ self.old) }
        ensures cause { IfErr result (IsTurnCause self.old.next_turn) }
    {
        let At { now, step } = at;
        let number = self.next_turn;
        let turn = make_turn(number, kind, name, hash)?;
        let key = turn.key.clone()?;
        self.turns.add(turn)?;
        let part = part_mut(&mut self.parts, self.bits, hash);
        part.note_look_up(&key, hash, now, ignored);
        self.next_turn = number + 1;
        self.moment = now;
        self.step = step;
        Ok(number)
    }

    /// Notes a look-up that found nothing, and waits for the turn of a kind and a key, or begins one.
    fn wait_or_lead<Q: IntoKey<Shared<K>>>(
        &mut self,
        kind: TurnKind,
        name: Q,
        hash: u64,
        at: At,
        ignored: bool,
    ) -> Result<TurnStart<V>, CacheError>
    where
        K: Drop,
        V: Drop,
        requires hashed { hash
            ≡ hash_in ⟦<R as HasWays<K, V, S>>⟧.ways self.old (Q.named_key name) }
        requires becomes { Q.can_become name }
        requires follows { ComesAfter at.now at.step self.old }
        ensures starts { IfOk result (WaitsOrLeads ⟦<R as HasWays<K, V, S>>⟧.ways kind
            (Q.named_key name) hash at ignored self.old self.new) }
        ensures err { OnErr result (self.new ≡ self.old) }
        ensures cause { IfErr result (IsTurnCause self.old.next_turn) }
    {
        match self.turn_number(kind, &name, hash) {
            Some(number) => {
                self.note(&name, hash, at, ignored);
                Ok(TurnStart::Wait(number))
            }
            None => match self.lead(kind, name, hash, at, ignored) {
                Ok(number) => Ok(TurnStart::Lead(number)),
                Err(refused) => Err(refused),
            },
        }
    }

    /// Begins a call that makes a value: it looks up, and where nothing is found it waits or leads.
    fn begin_making<Q: IntoKey<Shared<K>>, P: FnOnce(&V) -> bool + Drop>(
        &mut self,
        kind: TurnKind,
        name: Q,
        hash: u64,
        at: At,
        replace_if: P,
    ) -> Result<TurnStart<V>, CacheError>
    where
        K: Drop,
        V: Clone + Drop,
        requires hashed { hash
            ≡ hash_in ⟦<R as HasWays<K, V, S>>⟧.ways self.old (Q.named_key name) }
        requires becomes { Q.can_become name }
        requires exact { (x y : V) → V.is_clone x y → y ≡ x }
        requires callable { P.IsAlwaysCallable replace_if }
        requires follows { ComesAfter at.now at.step self.old }
        ensures begins { IfOk result (BeginsIn ⟦<R as HasWays<K, V, S>>⟧.ways kind
            (Q.named_key name) hash at (FnOnceReturnsAt P.FnOnce replace_if) self.old self.new) }
        ensures err { OnErr result (self.new ≡ self.old) }
        ensures cause { IfErr result (IsTurnCause self.old.next_turn) }
    {
        let At { now, step } = at;
        let (ignored, found) = self.get_unless(&name, hash, At { now, step }, replace_if)?;
        match found {
            Some(value) => Ok(TurnStart::Found(value)),
            None => self.wait_or_lead(kind, name, hash, At { now, step }, ignored),
        }
    }

    /// Notes the moment and the step of a call.
    fn pass(&mut self, at: At)
        requires { ComesAfter at.now at.step self.old }
        ensures { self.new ≡ passed at.now at.step self.old }
    {
        let At { now, step } = at;
        self.moment = now;
        self.step = step;
    }

    /// Begins a turn of a compute call, whose number it answers.
    fn lead_compute<Q: IntoKey<Shared<K>>>(
        &mut self,
        name: Q,
        hash: u64,
        at: At,
    ) -> Result<u64, CacheError>
    where
        K: Drop,
        requires hashed { hash
            ≡ hash_in ⟦<R as HasWays<K, V, S>>⟧.ways self.old (Q.named_key name) }
        requires becomes { Q.can_become name }
        requires follows { ComesAfter at.now at.step self.old }
        requires free { turn_of K.eq self.old.turns turns.Compute (Q.named_key name) ≡ None }
        ensures number { IfOk result (λ number. number ≡ self.old.next_turn) }
        ensures leads { OnOk result (self.new
            ≡ with_turn turns.Compute (Q.named_key name) hash (passed at.now at.step self.old)) }
        ensures err { OnErr result (self.new ≡ self.old) }
        ensures cause { IfErr result (IsTurnCause self.old.next_turn) }
    {
        let At { now, step } = at;
        let number = self.next_turn;
        let turn = make_turn(number, TurnKind::Compute, name, hash)?;
        self.turns.add(turn)?;
        self.next_turn = number + 1;
        self.moment = now;
        self.step = step;
        Ok(number)
    }

    /// Begins a compute call, which looks nothing up.
    fn begin_compute<Q: IntoKey<Shared<K>>>(
        &mut self,
        name: Q,
        hash: u64,
        at: At,
    ) -> Result<TurnStart<V>, CacheError>
    where
        K: Drop,
        requires hashed { hash
            ≡ hash_in ⟦<R as HasWays<K, V, S>>⟧.ways self.old (Q.named_key name) }
        requires becomes { Q.can_become name }
        requires follows { ComesAfter at.now at.step self.old }
        ensures begins { IfOk result (λ start. (start, self.new)
            ≡ begun_compute K.eq (Q.named_key name) hash at.now at.step self.old) }
        ensures err { OnErr result (self.new ≡ self.old) }
        ensures cause { IfErr result (IsTurnCause self.old.next_turn) }
    {
        match self.turn_number(TurnKind::Compute, &name, hash) {
            Some(number) => {
                self.pass(at);
                Ok(TurnStart::Wait(number))
            }
            None => match self.lead_compute(name, hash, at) {
                Ok(number) => Ok(TurnStart::Lead(number)),
                Err(refused) => Err(refused),
            },
        }
    }

    /// Begins a call that waits for others of its kind and key. A call that makes a value returns the visible value, which counts as a use
    /// of it. If there is none, and for a compute call, which looks nothing up, it returns the turn of its kind and key that is under way,
    /// or a new one, which the caller leads. Returns `OutOfMemory` if there is not enough memory, and `UsedUp` if the 64-bit numbers of
    /// turns are used up; then nothing has changed.
    /// ```
    /// match cache.begin(TurnKind::With, 7, at)? {
    ///     TurnStart::Found(value) => show(value),
    ///     TurnStart::Wait(turn) => wait_for(turn),
    ///     TurnStart::Lead(turn) => load(turn),
    /// }
    /// ```
    pub fn begin(&mut self, kind: TurnKind, key: K, at: At) -> Result<TurnStart<V>, CacheError>
    where
        K: Drop,
        V: Clone + Drop,
        requires exact { (x y : V) → V.is_clone x y → y ≡ x }
        requires follows { ComesAfter at.now at.step self.old }
        ensures begins { IfOk result (BeginsBy ⟦<R as HasWays<K, V, S>>⟧.ways kind key
            (hash_in ⟦<R as HasWays<K, V, S>>⟧.ways self.old key) at passes_none
            self.old self.new) }
        ensures err { OnErr result (self.new ≡ self.old) }
        ensures cause { IfErr result (IsTurnCause self.old.next_turn) }
    {
        let hash = self.hash(&key);
        let name = OwnedKey {
            key,
            alloc: self.alloc,
        };
        self.begin_with_hash(
            kind,
            name,
            hash,
            at,
            |_: &V| -> bool
                ensures { result ≡ false }
            { false },
        )
    }

    /// Like `begin`, with what names a key, and its hash. A visible value for which `replace_if` returns true counts as none. The key is
    /// made only if a turn begins. A compute call never calls `replace_if`. Returns the errors of `begin`.
    /// ```
    /// let hash = cache.hash(&name);
    /// cache.begin_with_hash(TurnKind::Try, ClonedKey { key: &name, alloc }, hash, at, |v| v.is_old())?;
    /// ```
    pub fn begin_with_hash<Q: IntoKey<Shared<K>>, P: FnOnce(&V) -> bool + Drop>(
        &mut self,
        kind: TurnKind,
        name: Q,
        hash: u64,
        at: At,
        replace_if: P,
    ) -> Result<TurnStart<V>, CacheError>
    where
        K: Drop,
        V: Clone + Drop,
        requires hashed { hash
            ≡ hash_in ⟦<R as HasWays<K, V, S>>⟧.ways self.old (Q.named_key name) }
        requires becomes { Q.can_become name }
        requires exact { (x y : V) → V.is_clone x y → y ≡ x }
        requires callable { P.IsAlwaysCallable replace_if }
        requires follows { ComesAfter at.now at.step self.old }
        ensures begins { IfOk result (BeginsBy ⟦<R as HasWays<K, V, S>>⟧.ways kind
            (Q.named_key name) hash at (FnOnceReturnsAt P.FnOnce replace_if) self.old self.new) }
        ensures err { OnErr result (self.new ≡ self.old) }
        ensures cause { IfErr result (IsTurnCause self.old.next_turn) }
    {
        match kind {
            TurnKind::Compute => self.begin_missed(kind, name, hash, at, false),
            _ => self.begin_making(kind, name, hash, at, replace_if),
        }
    }

    /// Does the second half of `begin_with_hash`, for a call that makes a value and found none, which `get_unless` shows, or for a compute
    /// call, which looks nothing up. Returns the turn of its kind and key that is under way, or a new one, which the caller leads. Returns
    /// `OutOfMemory` if there is not enough memory, and `UsedUp` if the 64-bit numbers of turns are used up; then nothing has changed.
    /// ```
    /// cache.begin_missed(TurnKind::With, OwnedKey { key: 7, alloc }, hash, at, is_passed_over)?;
    /// ```
    pub fn begin_missed<Q: IntoKey<Shared<K>>>(
        &mut self,
        kind: TurnKind,
        name: Q,
        hash: u64,
        at: At,
        ignored: bool,
    ) -> Result<TurnStart<V>, CacheError>
    where
        K: Drop,
        V: Drop,
        requires hashed { hash
            ≡ hash_in ⟦<R as HasWays<K, V, S>>⟧.ways self.old (Q.named_key name) }
        requires becomes { Q.can_become name }
        requires follows { ComesAfter at.now at.step self.old }
        ensures starts { IfOk result (StartsBy ⟦<R as HasWays<K, V, S>>⟧.ways kind
            (Q.named_key name) hash at ignored self.old self.new) }
        ensures err { OnErr result (self.new ≡ self.old) }
        ensures cause { IfErr result (IsTurnCause self.old.next_turn) }
    {
        match kind {
            TurnKind::Compute => self.begin_compute(name, hash, at),
            _ => self.wait_or_lead(kind, name, hash, at, ignored),
        }
    }

    /// Gives up a turn. Returns `UnknownTurn` if no turn of this number is under way; then nothing has changed.
    /// ```
    /// cache.abandon(turn, at)?;
    /// ```
    pub fn abandon(&mut self, number: u64, at: At) -> Result<(), CacheError>
    where
        K: Drop,
        requires { ComesAfter at.now at.step self.old }
        ensures ends { OnOk result (self.new ≡ abandoned number at.now at.step self.old) }
        ensures known { OnOk result (is_some (turn_at self.old.turns number) ≡ true) }
        ensures err { OnErr result (self.new ≡ self.old) }
        ensures cause { IfErr result
            (λ e. (e ≡ UnknownTurn) × (turn_at self.old.turns number ≡ None)) }
    {
        let At { now, step } = at;
        if !self.turns.end(number) {
            return Err(CacheError::UnknownTurn);
        }
        self.moment = now;
        self.step = step;
        Ok(())
    }

    /// Ends the turn of a number with a value that is inserted under its key, or handed back where it is refused.
    fn finish_with_value(&mut self, number: u64, value: V, at: At) -> Result<(), (CacheError, V)>
    where
        K: Drop,
        V: Drop,
        requires { ComesAfter at.now at.step self.old }
        ensures ends { OnOk result
            (EndsTurnOf ⟦<R as HasWays<K, V, S>>⟧.ways number (op.Put value) at self.old self.new) }
        ensures known { OnOk result (is_some (turn_at self.old.turns number) ≡ true) }
        ensures err { OnErr result (self.new ≡ self.old) }
        ensures back { IfErr result (λ refused. refused.1 ≡ value) }
        ensures cause { IfErr result
            (λ refused. IsFinishCause ⟦<R as HasWays<K, V, S>>⟧.ways number self.old refused.0) }
    {
        let At { now, step } = at;
        let Some(turn) = self.turns.get(number) else {
            return Err((CacheError::UnknownTurn, value));
        };
        let hash = turn.hash;
        let key = match turn.key.clone() {
            Ok(key) => key,
            Err(_) => return Err((CacheError::OutOfMemory, value)),
        };
        let part = part_mut(&mut self.parts, self.bits, hash);
        match insert_or_back(part, key, hash, value, At { now, step }) {
            Ok(()) => {
                self.turns.end(number);
                self.moment = now;
                self.step = step;
                Ok(())
            }
            Err((refused, value)) => Err((refused, value)),
        }
    }

    /// Ends a turn with what was made. A value is inserted under the key of the turn, whatever happened to that key in the meantime; if no
    /// value was made, nothing else changes. If the call is refused, what was made is returned with the error, and a turn that is under way
    /// stays so: `UnknownTurn` if no turn of this number is under way, and otherwise `OutOfMemory` if there is not enough memory, and
    /// `UsedUp` if the 64-bit numbers of writes are used up.
    /// ```
    /// let made: Made<u64, ()> = Made::Value(49);
    /// match cache.finish(turn, made, at) {
    ///     Ok(()) => Ok(()),
    ///     Err((refused, made)) => keep_for_later(turn, made, refused),
    /// }
    /// ```
    pub fn finish<F: Drop>(
        &mut self,
        number: u64,
        end: Made<V, F>,
        at: At,
    ) -> Result<(), (CacheError, Made<V, F>)>
    where
        K: Drop,
        V: Drop,
        requires { ComesAfter at.now at.step self.old }
        ensures ends { OnOk result
            (FinishesBy ⟦<R as HasWays<K, V, S>>⟧.ways number end at self.old self.new) }
        ensures known { OnOk result (is_some (turn_at self.old.turns number) ≡ true) }
        ensures err { OnErr result (self.new ≡ self.old) }
        ensures back { IfErr result (λ refused. refused.1 ≡ end) }
        ensures cause { IfErr result
            (λ refused. IsFinishCause ⟦<R as HasWays<K, V, S>>⟧.ways number self.old refused.0) }
    {
        match end {
            Made::Value(value) => match self.finish_with_value(number, value, at) {
                Ok(()) => Ok(()),
                Err((refused, value)) => Err((refused, Made::Value(value))),
            },
            Made::Nothing => match self.abandon(number, at) {
                Ok(()) => Ok(()),
                Err(refused) => Err((refused, Made::Nothing)),
            },
            Made::Fault(fault) => match self.abandon(number, at) {
                Ok(()) => Ok(()),
                Err(refused) => Err((refused, Made::Fault(fault))),
            },
        }
    }
}

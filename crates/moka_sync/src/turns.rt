//! Turns: a leader ends its turn, and a waiting caller sees how it ended.
ghost use Rattle.std.specs.Prelude.{◌≡◌, Bool, true, false, Ok, IfOk, IfErr, IfSome, OnOk};
ghost use Rattle.std.specs.Fn.{FnOnceReturnsAt, FnReturnsAt};
ghost use Rattle.std.specs.Sync.Mutex.{mutex_guard_value};
ghost use Rattle.front_reference.specs.declared.data.Made.{Made};
ghost use Rattle.moka_sync.specs.Holding.{DoneUnderLock};
ghost use Rattle.moka_sync.specs.Making.{BegunUnderLock, DidCoalesce, DidFinish, DidGiveUp, HasReceived, MadeUnderLock, MayPass, is_never};
ghost use Rattle.moka_sync.specs.Turning.{MayMake};
ghost use Rattle.moka_sync.specs.declared.turns.Passing.TheVariants as asks;
ghost use Rattle.sync_desk.specs.Coalescing.{IsMadeOrFound};
ghost use Rattle.sync_desk.specs.Slots.Endings.{suits};
ghost use Rattle.sync_desk.specs.Slots.Refusals.{IsShortage, IsEndRefusal, IsTurnRefusal};

use crate::shared::SharedDesk;
use engine_reference::Rules;
use front_parts::HasWays;
use front_reference::{CacheError, Made, Shared, TurnKind};
use std::alloc::AllocError;
use std::hash::{BuildHasher, Hash};
use std::sync::{MutexGuard, Wait};
use sync_desk::{Asked, Desk, Ending, Env, Start, copy_made};

/// How many times a call that makes a value begins at most. If each turn for which the call waited was given up, the call is refused as
/// `Abandoned`.
pub(crate) const BEGINNINGS: u32 = 200;

/// A turn that the caller leads. It can't be dropped, so each path ends it or gives it up.
pub(crate) struct Lead<'a, K: Eq + Hash, V, S: BuildHasher, R: Rules<K, V>, E: Env, C> {
    pub(crate) shared: &'a SharedDesk<K, V, S, R, E, C>,
    pub(crate) kind: TurnKind,
    pub(crate) number: u64,
}

/// What is known of whether `replace_if` passes the visible value over.
#[derive(Clone, Copy)]
pub(crate) enum Passing {
    /// No value is passed over.
    Never,
    /// `replace_if` has not been called yet.
    Unasked,
    /// What `replace_if` returned for the value that was visible when the last write of its key was at this step.
    Said(u64, bool),
}

impl Passing {
    /// Whether no value is passed over.
    fn is_never(&self) -> bool
        ensures { result ≡ is_never self.now }
    {
        matches!(self, Passing::Never)
    }

    /// What `replace_if` returned for the visible value, if the last write of its key was at this step.
    fn said(&self, written: u64) -> Option<bool>
        ensures { IfSome result (λ said. self.now ≡ asks.Said written said) }
    {
        match self {
            Passing::Said(step, is_passed_over) if *step == written => Some(*is_passed_over),
            _ => None,
        }
    }
}

/// Passes no value over.
pub(crate) fn passes_nothing<V>(_seen: &V) -> bool
    ensures { result ≡ false }
{
    false
}

/// How a call that makes a value begins.
enum MakingStart<A, V, F> {
    /// A visible value, or what another caller made.
    Answered(Made<V, F>),
    /// The turn of this number began, and the caller leads it.
    Led(u64),
    /// The turn that the caller waited for was given up.
    GivenUp(A),
}

impl<
    'a,
    K: Eq + Hash + Drop,
    V: Clone + Drop,
    S: BuildHasher + Drop,
    R: Rules<K, V> + Drop,
    E: Env + Drop,
    C: Drop,
> Lead<'a, K, V, S, R, E, C> {
    /// A turn that began.
    pub(crate) fn new(shared: &'a SharedDesk<K, V, S, R, E, C>, kind: TurnKind, number: u64) -> Self
        ensures kind { result.kind ≡ kind }
        ensures number { result.number ≡ number }
        ensures lock { result.shared.now.number ≡ shared.now.number }
    {
        Lead {
            shared,
            kind,
            number,
        }
    }

    /// Ends the turn with what was made, or gives it up if that is refused.
    fn finish(self, rt: &impl Wait, made: Made<V, Shared<R::Fault>>) -> Result<(), CacheError>
        requires { suits self.kind made ≡ true }
        ensures did { OnOk result (DoneUnderLock self.entry.shared.now.number
            (DidFinish ⟦<R as HasWays<K, V, S>>⟧.ways self.entry.number made)) }
        ensures cause { IfErr result IsEndRefusal }
    {
        let Lead {
            shared,
            kind,
            number,
        } = self;
        let mut guard = shared.lock(rt);
        let desk = &mut *guard;
        let ended = desk.finish(kind, number, made);
        drop(guard);
        shared.changed.notify_all();
        ended
    }

    /// Gives the turn up.
    pub(crate) fn abandon(self, rt: &impl Wait)
        ensures { DoneUnderLock self.entry.shared.now.number
            (DidGiveUp {K = K} {V = V} {P = R.Predicate} {S = S} {R = R} self.entry.number) }
    {
        let Lead {
            shared,
            kind,
            number,
        } = self;
        let mut guard = shared.lock(rt);
        let desk = &mut *guard;
        desk.abandon(kind, number);
        drop(guard);
        shared.changed.notify_all();
    }

    /// Ends the turn with what was made, and returns it.
    fn finish_with(
        self,
        rt: &impl Wait,
        made: Made<V, Shared<R::Fault>>,
    ) -> Result<Made<V, Shared<R::Fault>>, CacheError>
        requires suitable { suits self.kind made ≡ true }
        requires exact { (x y : V) → V.is_clone x y → y ≡ x }
        ensures did { IfOk result (λ answer. DoneUnderLock self.entry.shared.now.number
            (DidFinish ⟦<R as HasWays<K, V, S>>⟧.ways self.entry.number answer)) }
        ensures made { IfOk result (λ answer. answer ≡ made) }
        ensures cause { IfErr result IsEndRefusal }
    {
        match copy_made(&made) {
            Ok(kept) => match self.finish(rt, kept) {
                Ok(()) => Ok(made),
                Err(refused) => Err(refused),
            },
            Err(_) => {
                self.abandon(rt);
                Err(CacheError::OutOfMemory)
            }
        }
    }

    /// Makes what the turn is for, without the lock, ends the turn with it, and returns it as fresh.
    fn make<H: Wait, M: FnOnce() -> Result<Made<V, Shared<R::Fault>>, AllocError> + Drop>(
        self,
        rt: &H,
        make: M,
    ) -> Result<(Made<V, Shared<R::Fault>>, bool), CacheError>
        requires exact { (x y : V) → V.is_clone x y → y ≡ x }
        requires callable { M.IsAlwaysCallable make }
        requires suitable { MayMake self.kind (M.post make) }
        ensures did { IfOk result (λ a. DoneUnderLock self.entry.shared.now.number
            (DidFinish ⟦<R as HasWays<K, V, S>>⟧.ways self.entry.number a.0)) }
        ensures made { IfOk result (λ a. M.post make (Ok a.0)) }
        ensures suits { IfOk result (λ a. suits self.entry.kind a.0 ≡ true) }
        ensures fresh { IfOk result (λ a. a.1 ≡ true) }
        ensures cause { IfErr result IsTurnRefusal }
    {
        match make() {
            Ok(made) => match self.finish_with(rt, made) {
                Ok(kept) => Ok((kept, true)),
                Err(refused) => Err(refused),
            },
            Err(_) => {
                self.abandon(rt);
                Err(CacheError::OutOfMemory)
            }
        }
    }
}

impl<
    K: Eq + Hash + Drop,
    V: Clone + Drop,
    S: BuildHasher + Drop,
    R: Rules<K, V> + Drop,
    E: Env + Drop,
    C: Drop,
> SharedDesk<K, V, S, R, E, C> {
    /// Waits for a turn to end. Returns what it ended with, or nothing if it was given up. The lock is released while it waits.
    pub(crate) fn wait_for<H: Wait>(
        &self,
        rt: &H,
        guard: MutexGuard<'_, Desk<K, V, S, R, E::Generator, C>>,
        kind: TurnKind,
        number: u64,
    ) -> Result<Option<Made<V, Shared<R::Fault>>>, CacheError>
        requires own { (mutex_guard_value guard).number ≡ self.now.number }
        requires exact { (x y : V) → V.is_clone x y → y ≡ x }
        ensures told { IfOk result (HasReceived self.now.number kind number) }
        ensures cause { IfErr result IsShortage }
    {
        let mut guard = guard;
        for _ in rt.forever() {
            let desk = &mut *guard;
            match desk.look(kind, number)? {
                Ending::Underway => guard = self.own(rt, self.changed.wait(rt, guard)),
                Ending::Done(made) => return Ok(Some(made)),
                Ending::GivenUp => return Ok(None),
            }
        }
        unreachable!()
    }

    /// Begins a call that makes a value, under the lock, and waits if another caller leads its turn. The lock is released while it waits.
    fn take_turn<H: Wait, A: Asked<K>>(
        &self,
        rt: &H,
        guard: MutexGuard<'_, Desk<K, V, S, R, E::Generator, C>>,
        kind: TurnKind,
        asked: A,
        is_passed_over: bool,
    ) -> Result<MakingStart<A, V, Shared<R::Fault>>, CacheError>
        requires becomes { (a : A) → A.can_become a }
        requires exact { (x y : V) → V.is_clone x y → y ≡ x }
        requires own { (mutex_guard_value guard).number ≡ self.now.number }
        ensures begun { IfOk result (BegunUnderLock ⟦<R as HasWays<K, V, S>>⟧.ways
            self.now.number kind (A.named_key asked) (λ passed. passed ≡ is_passed_over) asked) }
        ensures cause { IfErr result IsShortage }
    {
        let mut guard = guard;
        let desk = &mut *guard;
        match desk.begin(kind, asked, |_: &V| -> bool { is_passed_over })? {
            Start::Found(value) => Ok(MakingStart::Answered(Made::Value(value))),
            Start::Lead(number) => Ok(MakingStart::Led(number)),
            Start::Wait(number, asked) => match self.wait_for(rt, guard, kind, number)? {
                Some(made) => Ok(MakingStart::Answered(made)),
                None => Ok(MakingStart::GivenUp(asked)),
            },
        }
    }

    /// Takes the lock, and determines whether the value that is visible then is passed over. `replace_if` is called without the lock, on a
    /// clone, and called again if a value of the key was written in the meantime.
    fn ask<H: Wait, P: Fn(&V) -> bool>(
        &self,
        rt: &H,
        key: &K,
        passing: &mut Passing,
        replace_if: &P,
    ) -> Result<(MutexGuard<'_, Desk<K, V, S, R, E::Generator, C>>, bool), CacheError>
        requires exact { (x y : V) → V.is_clone x y → y ≡ x }
        requires callable { P.IsAlwaysCallable replace_if.now }
        ensures own { IfOk result (λ known. (mutex_guard_value known.0).number ≡ self.now.number) }
        ensures may { IfOk result (λ known.
            MayPass passing.old (FnReturnsAt P.Fn replace_if.now) known.1) }
        ensures still { (passed : Bool)
            → MayPass passing.new (FnReturnsAt P.Fn replace_if.now) passed
            → MayPass passing.old (FnReturnsAt P.Fn replace_if.now) passed }
        ensures cause { IfErr result IsShortage }
    {
        if passing.is_never() {
            return Ok((self.lock(rt), false));
        }
        for _ in rt.forever() {
            let mut guard = self.lock(rt);
            let desk = &mut *guard;
            let written = desk.last_write(key);
            if let Some(is_passed_over) = passing.said(written) {
                return Ok((guard, is_passed_over));
            }
            match desk.scan(key)? {
                Some(value) => {
                    drop(guard);
                    let is_passed_over = replace_if(&value);
                    *passing = Passing::Said(written, is_passed_over);
                }
                None => return Ok((guard, false)),
            }
        }
        unreachable!()
    }

    /// Returns the visible value of a key that is not passed over, or what another caller made in the meantime, and false; or else what
    /// `make` makes, and true. A value that was made is stored.
    /// Of several callers for the key one makes it, without the lock, and the others wait for it. If each of 200 turns that the call waited
    /// for was given up, the call returns `Abandoned`.
    pub(crate) fn coalesce<
        H: Wait,
        A: Asked<K>,
        P: Fn(&V) -> bool + Drop,
        M: FnOnce() -> Result<Made<V, Shared<R::Fault>>, AllocError> + Drop,
    >(
        &self,
        rt: &H,
        kind: TurnKind,
        asked: A,
        passing: Passing,
        replace_if: P,
        make: M,
    ) -> Result<(Made<V, Shared<R::Fault>>, bool), CacheError>
        requires becomes { (a : A) → A.can_become a }
        requires exact { (x y : V) → V.is_clone x y → y ≡ x }
        requires callable { P.IsAlwaysCallable replace_if × M.IsAlwaysCallable make }
        requires suitable { MayMake kind (M.post make) }
        ensures answer { IfOk result (λ a. MadeUnderLock ⟦<R as HasWays<K, V, S>>⟧.ways
            self.now.number kind (A.named_key asked)
            (MayPass passing (FnReturnsAt P.Fn replace_if)) (λ made. M.post make (Ok made)) a.0 a.1) }
        ensures cause { IfErr result IsTurnRefusal }
    {
        let mut asked = asked;
        let mut passing = passing;
        for _ in 0..BEGINNINGS {
            let (guard, is_passed_over) = match self.ask(
                rt,
                asked.key(),
                &mut passing,
                &replace_if,
            ) {
                Ok(known) => known,
                Err(refused) => return Err(refused),
            };
            match self.take_turn(rt, guard, kind, asked, is_passed_over) {
                Ok(MakingStart::Answered(made)) => return Ok((made, false)),
                Ok(MakingStart::Led(number)) => {
                    return Lead::new(self, kind, number).make(rt, make);
                }
                Ok(MakingStart::GivenUp(again)) => asked = again,
                Err(refused) => return Err(refused),
            }
        }
        Err(CacheError::Abandoned)
    }

    /// What a closure that can be called once returns for the visible value of a key, without the lock.
    fn ask_once<H: Wait, P: FnOnce(&V) -> bool + Drop>(
        &self,
        rt: &H,
        key: &K,
        replace_if: P,
    ) -> Result<Passing, CacheError>
        requires exact { (x y : V) → V.is_clone x y → y ≡ x }
        requires callable { P.IsAlwaysCallable replace_if }
        ensures may { IfOk result (λ passing. (passed : Bool)
            → MayPass passing (λ (_ : V) said. said ≡ false) passed
            → MayPass asks.Unasked (FnOnceReturnsAt P.FnOnce replace_if) passed) }
        ensures cause { IfErr result IsShortage }
    {
        let mut guard = self.lock(rt);
        let desk = &mut *guard;
        let written = desk.last_write(key);
        match desk.scan(key)? {
            Some(value) => {
                drop(guard);
                Ok(Passing::Said(written, replace_if(&value)))
            }
            None => Ok(Passing::Never),
        }
    }

    /// Like `coalesce`, with a `replace_if` that is called once, on the value that is visible when the call begins. A value that is written
    /// after that is not passed over. Returns the errors of `get_with`.
    pub fn coalesce_asking_once<
        H: Wait,
        A: Asked<K>,
        P: FnOnce(&V) -> bool + Drop,
        M: FnOnce() -> Result<Made<V, Shared<R::Fault>>, AllocError> + Drop,
    >(
        &self,
        rt: &H,
        kind: TurnKind,
        asked: A,
        replace_if: P,
        make: M,
    ) -> Result<(Made<V, Shared<R::Fault>>, bool), CacheError>
        requires becomes { (a : A) → A.can_become a }
        requires exact { (x y : V) → V.is_clone x y → y ≡ x }
        requires callable { P.IsAlwaysCallable replace_if × M.IsAlwaysCallable make }
        requires suitable { MayMake kind (M.post make) }
        ensures answer { IfOk result (λ a. MadeUnderLock ⟦<R as HasWays<K, V, S>>⟧.ways
            self.now.number kind (A.named_key asked)
            (MayPass asks.Unasked (FnOnceReturnsAt P.FnOnce replace_if))
            (λ made. M.post make (Ok made)) a.0 a.1) }
        ensures cause { IfErr result IsTurnRefusal }
    {
        match self.ask_once(rt, asked.key(), replace_if) {
            Ok(passing) => { self.coalesce(rt, kind, asked, passing, passes_nothing, make) }
            Err(refused) => Err(refused),
        }
    }

    /// Returns the visible value of a key, unless `replace_if` returns true for it, and false; or else what `make` makes, and true. All
    /// this happens in one hold of the lock, and the call waits for nobody else. Returns `OutOfMemory` if there is not enough memory, and
    /// `UsedUp` if the cache's 64-bit numbers are used up. **Both closures run under the lock, and must not call the cache.**
    pub fn coalesce_now<
        H: Wait,
        P: FnOnce(&V) -> bool + Drop,
        M: FnOnce() -> Result<Made<V, Shared<R::Fault>>, AllocError> + Drop,
    >(
        &self,
        rt: &H,
        key: &Shared<K>,
        replace_if: P,
        make: M,
    ) -> Result<(Made<V, Shared<R::Fault>>, bool), CacheError>
        requires exact { (x y : V) → V.is_clone x y → y ≡ x }
        requires callable { P.IsAlwaysCallable replace_if × M.IsAlwaysCallable make }
        ensures did { IfOk result (λ a. DoneUnderLock self.now.number
            (DidCoalesce ⟦<R as HasWays<K, V, S>>⟧.ways key.now
            (FnOnceReturnsAt P.FnOnce replace_if) (M.post make) a)) }
        ensures answer { IfOk result (λ a. IsMadeOrFound (λ made. M.post make (Ok made)) a.0 a.1) }
        ensures cause { IfErr result IsShortage }
    {
        let mut guard = self.lock(rt);
        let desk = &mut *guard;
        desk.coalesce_now(key, replace_if, make)
    }
}

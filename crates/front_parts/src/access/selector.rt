//! Selectors.
ghost use Rattle.std.specs.Prelude.{◌≡◌, ◌⊎◌, false, Option, Some, None, Ok, Err, IfOk, IfErr, OnErr, ⊤};
ghost use Rattle.std.specs.Arc.{arc_value};
ghost use Rattle.std.specs.Fn.{FnOnceReturnsAt};
ghost use Rattle.front_reference.specs.declared.data.Made.{Made};
ghost use Rattle.front_reference.specs.declared.data.Made.TheVariants as outcome;
ghost use Rattle.front_parts.specs.declared.access.entry.CompResult.{CompResult};
ghost use Rattle.front_reference.specs.declared.data.Op.{Op};
ghost use Rattle.front_reference.specs.declared.data.Op.TheVariants as op;
ghost use Rattle.front_reference.specs.declared.data.TurnKind.TheVariants as turns;
ghost use Rattle.front_parts.specs.Access.Answering.{Suits, passes_none, IsValueOf, IsOptionOf, IsResultOf};
ghost use Rattle.front_parts.specs.Access.Entries.{entry_with, seen_entry, result_shown};
ghost use Rattle.front_parts.specs.Access.Selecting.{Selects, SelectsValue, ComputesEntry, GivesOption, GivesResult, IsRefusedBy, IsResultShown, DecidesAlways, PutsEntry, option_shown, with_fault};

use crate::access::access::Access;
use crate::access::entry::{CompResult, Entry};
use front_reference::{CacheError, Computed, Made, Op, Shared, TurnKind};
use std::alloc::{AllocError, Global};
use std::sync::Arc;

/// The entry of one key, on which one call can be made.
pub struct EntrySelector<'a, K, A, W> {
    owner: &'a mut A,
    key: K,
    when: W,
    alloc: Global,
}

/// A selector of the entry of a key that was passed by value.
pub type OwnedKeyEntrySelector<'a, K, A, W> = EntrySelector<'a, K, A, W>;

/// A selector of the entry of a key that was borrowed, and cloned for it.
pub type RefKeyEntrySelector<'a, K, A, W> = EntrySelector<'a, K, A, W>;

impl<'a, K, A, W: Copy> EntrySelector<'a, K, A, W> {
    /// Creates a selector of the entry of a key.
    /// ```
    /// let selector = EntrySelector::new(&mut cache, 7, at, alloc);
    /// ```
    pub fn new(owner: &'a mut A, key: K, when: W, alloc: Global) -> Self
        ensures same_reference { result.owner.ghost_name ≡ owner.entry.ghost_name }
        ensures owner { result.owner.now ≡ owner.old }
        ensures key { result.key ≡ key }
        ensures when { result.when ≡ when }
    {
        EntrySelector {
            owner,
            key,
            when,
            alloc,
        }
    }

    /// The visible value of the key, or the one that `make` makes, with the key.
    fn coalesce<
        V: Clone + Drop,
        F: Drop,
        P: FnOnce(&V) -> bool + Drop,
        M: FnOnce() -> Result<Made<V, Shared<F>>, AllocError> + Drop,
    >(
        self,
        kind: Option<TurnKind>,
        replace_if: P,
        make: M,
    ) -> Result<(Shared<K>, Made<V, Shared<F>>, bool), CacheError>
    where
        K: Drop,
        A: Access<K, V, When = W, Fault = F>,
        requires exact { (x y : V) → V.is_clone x y → y ≡ x }
        requires free { A.may_call self.owner.now self.when kind self.key }
        requires callable { P.IsAlwaysCallable replace_if × M.IsAlwaysCallable make }
        requires suitable { (made : Made V F) → M.post make (Ok made) → Suits kind made }
        ensures gives { IfOk result (λ a. Selects A.sees A.coalesced kind self.entry self.exit.0.now
            (FnOnceReturnsAt P.FnOnce replace_if) (λ made. M.post make (Ok made)) a.1 a.2) }
        ensures suits { IfOk result (λ a. (a.0 ≡ self.entry.key) × Suits kind a.1) }
        ensures err { OnErr result (self.exit.0.now ≡ self.entry.owner.now) }
        ensures cause { IfErr result
            (IsRefusedBy (A.refuses_coalesced self.entry.owner.now kind self.entry.key)) }
    {
        let EntrySelector {
            owner,
            key,
            when,
            alloc,
        } = self;
        let key = Shared::new(alloc, key)?;
        let shown = key.clone()?;
        let (made, is_fresh) = owner.coalesce(key, when, kind, replace_if, make)?;
        Ok((shown, made, is_fresh))
    }

    /// Returns the visible value of the key, or the one that `make` makes, which is stored. Of several callers for the key one makes it,
    /// and the others wait for it. Returns `OutOfMemory` if there is not enough memory, `UsedUp` if the cache's 64-bit numbers are used up,
    /// and, from a shared cache, `Abandoned` if each of 200 turns that the call waited for was given up; a lent cache is then as before.
    /// ```
    /// let entry = cache.entry(7, at).or_insert_with(|| 49)?;
    /// let value = entry.into_value();
    /// ```
    pub fn or_insert_with<V: Clone + Drop, F: Drop, M: FnOnce() -> V + Drop>(
        self,
        make: M,
    ) -> Result<Entry<K, V>, CacheError>
    where
        K: Drop,
        A: Access<K, V, When = W, Fault = F>,
        requires exact { (x y : V) → V.is_clone x y → y ≡ x }
        requires free { A.may_call self.owner.now self.when (Some turns.With) self.key }
        requires callable { M.IsAlwaysCallable make }
        ensures entry { IfOk result
            (SelectsValue A.sees A.coalesced self.entry self.exit.0.now passes_none (M.post make)) }
        ensures shown { IfOk result (λ e. e ≡ entry_with self.entry.key e.value e.is_fresh false) }
        ensures err { OnErr result (self.exit.0.now ≡ self.entry.owner.now) }
        ensures cause { IfErr result (IsRefusedBy
            (A.refuses_coalesced self.entry.owner.now (Some turns.With) self.entry.key)) }
    {
        let (key, made, is_fresh) = self.coalesce(
            Some(TurnKind::With),
            |_| false,
            || -> Result<Made<V, Shared<F>>, AllocError> { Ok(Made::Value(make())) },
        )?;
        Ok(shown_value(key, made, is_fresh))
    }

    /// Like `or_insert_with`, except that a visible value for which `replace_if` returns true counts as none. The entry does not say that a
    /// value was replaced. Returns the errors of `or_insert_with`.
    /// ```
    /// let entry = cache.entry(7, at).or_insert_with_if(|| 50, |old| *old < 50)?;
    /// ```
    pub fn or_insert_with_if<
        V: Clone + Drop,
        F: Drop,
        M: FnOnce() -> V + Drop,
        P: FnOnce(&V) -> bool + Drop,
    >(self, make: M, replace_if: P) -> Result<Entry<K, V>, CacheError>
    where
        K: Drop,
        A: Access<K, V, When = W, Fault = F>,
        requires exact { (x y : V) → V.is_clone x y → y ≡ x }
        requires free { A.may_call self.owner.now self.when (Some turns.With) self.key }
        requires callable { P.IsAlwaysCallable replace_if × M.IsAlwaysCallable make }
        ensures entry { IfOk result (SelectsValue A.sees A.coalesced self.entry self.exit.0.now
            (FnOnceReturnsAt P.FnOnce replace_if) (M.post make)) }
        ensures shown { IfOk result (λ e. e ≡ entry_with self.entry.key e.value e.is_fresh false) }
        ensures err { OnErr result (self.exit.0.now ≡ self.entry.owner.now) }
        ensures cause { IfErr result (IsRefusedBy
            (A.refuses_coalesced self.entry.owner.now (Some turns.With) self.entry.key)) }
    {
        let (key, made, is_fresh) = self.coalesce(
            Some(TurnKind::With),
            replace_if,
            || -> Result<Made<V, Shared<F>>, AllocError> { Ok(Made::Value(make())) },
        )?;
        Ok(shown_value(key, made, is_fresh))
    }

    /// Returns the visible value of the key, or else this one, which is then stored. The call is not coalesced: it waits for no other call.
    /// Returns `OutOfMemory` if there is not enough memory, and `UsedUp` if the cache's 64-bit numbers are used up; a lent cache is then as
    /// before.
    /// ```
    /// let entry = cache.entry(7, at).or_insert(49)?;
    /// ```
    pub fn or_insert<V: Clone + Drop, F: Drop>(self, value: V) -> Result<Entry<K, V>, CacheError>
    where
        K: Drop,
        A: Access<K, V, When = W, Fault = F>,
        requires exact { (x y : V) → V.is_clone x y → y ≡ x }
        requires free { A.may_call self.owner.now self.when None self.key }
        ensures entry { IfOk result (λ e. Selects A.sees A.coalesced None self.entry self.exit.0.now
            passes_none (IsValueOf (λ v. v ≡ value)) (outcome.Value e.value) e.is_fresh) }
        ensures shown { IfOk result (λ e. e ≡ entry_with self.entry.key e.value e.is_fresh false) }
        ensures err { OnErr result (self.exit.0.now ≡ self.entry.owner.now) }
        ensures cause { IfErr result
            (IsRefusedBy (A.refuses_coalesced self.entry.owner.now None self.entry.key)) }
    {
        let (key, made, is_fresh) = self.coalesce(
            None,
            |_| false,
            || -> Result<Made<V, Shared<F>>, AllocError> { Ok(Made::Value(value)) },
        )?;
        Ok(shown_value(key, made, is_fresh))
    }

    /// Returns the visible value of the key, or else the default value, which is then stored. The call is not coalesced: it waits for no
    /// other call. Returns `OutOfMemory` if there is not enough memory, and `UsedUp` if the cache's 64-bit numbers are used up; a lent
    /// cache is then as before.
    /// ```
    /// let entry = cache.entry(7, at).or_default()?;
    /// ```
    pub fn or_default<V: Clone + Default + Drop, F: Drop>(self) -> Result<Entry<K, V>, CacheError>
    where
        K: Drop,
        A: Access<K, V, When = W, Fault = F>,
        requires exact { (x y : V) → V.is_clone x y → y ≡ x }
        requires free { A.may_call self.owner.now self.when None self.key }
        ensures entry { IfOk result (λ e. Selects A.sees A.coalesced None self.entry self.exit.0.now
            passes_none (IsValueOf V.is_default) (outcome.Value e.value) e.is_fresh) }
        ensures shown { IfOk result (λ e. e ≡ entry_with self.entry.key e.value e.is_fresh false) }
        ensures err { OnErr result (self.exit.0.now ≡ self.entry.owner.now) }
        ensures cause { IfErr result
            (IsRefusedBy (A.refuses_coalesced self.entry.owner.now None self.entry.key)) }
    {
        let (key, made, is_fresh) = self.coalesce(
            None,
            |_| false,
            || -> Result<Made<V, Shared<F>>, AllocError> { Ok(Made::Value(V::default())) },
        )?;
        Ok(shown_value(key, made, is_fresh))
    }

    /// Returns the visible value of the key, or the one that `make` makes, which is stored, or `None` if it makes none. The call is
    /// coalesced with calls of its kind. Returns the errors of `or_insert_with`.
    /// ```
    /// match cache.entry(7, at).or_optionally_insert_with(|| find_user(7))? {
    ///     Some(entry) => show(entry.value()),
    ///     None => show_nobody(),
    /// }
    /// ```
    pub fn or_optionally_insert_with<V: Clone + Drop, F: Drop, M: FnOnce() -> Option<V> + Drop>(
        self,
        make: M,
    ) -> Result<Option<Entry<K, V>>, CacheError>
    where
        K: Drop,
        A: Access<K, V, When = W, Fault = F>,
        requires exact { (x y : V) → V.is_clone x y → y ≡ x }
        requires free { A.may_call self.owner.now self.when (Some turns.Optionally) self.key }
        requires callable { M.IsAlwaysCallable make }
        ensures entry { IfOk result
            (GivesOption self.entry.key (Selects A.sees A.coalesced (Some turns.Optionally)
            self.entry self.exit.0.now passes_none (IsOptionOf (M.post make)))) }
        ensures err { OnErr result (self.exit.0.now ≡ self.entry.owner.now) }
        ensures cause { IfErr result (IsRefusedBy
            (A.refuses_coalesced self.entry.owner.now (Some turns.Optionally) self.entry.key)) }
    {
        let (key, made, is_fresh) = self.coalesce(
            Some(TurnKind::Optionally),
            |_| false,
            || -> Result<Made<V, Shared<F>>, AllocError>
                requires { M.IsAlwaysCallable make }
                ensures { IfOk result (IsOptionOf (M.post make)) }
            {
                match make() {
                    Some(value) => Ok(Made::Value(value)),
                    None => Ok(Made::Nothing),
                }
            },
        )?;
        Ok(shown_option(key, made, is_fresh))
    }

    /// Returns the visible value of the key, or the one that `make` makes, which is stored, or its error if it fails. The call is coalesced
    /// with calls of its kind, which then return the same error. Returns the errors of `or_insert_with` as `CacheError`.
    /// ```
    /// match cache.entry(7, at).or_try_insert_with(|| read_row(7))? {
    ///     Ok(entry) => show(entry.value()),
    ///     Err(fault) => report(&fault),
    /// }
    /// ```
    pub fn or_try_insert_with<V: Clone + Drop, F: Drop, M: FnOnce() -> Result<V, F> + Drop>(
        self,
        make: M,
    ) -> Result<Result<Entry<K, V>, Arc<F>>, CacheError>
    where
        K: Drop,
        A: Access<K, V, When = W, Fault = F>,
        requires exact { (x y : V) → V.is_clone x y → y ≡ x }
        requires free { A.may_call self.owner.now self.when (Some turns.Try) self.key }
        requires callable { M.IsAlwaysCallable make }
        ensures entry { IfOk result
            (λ r. GivesResult self.entry.key (Selects A.sees A.coalesced (Some turns.Try) self.entry
            self.exit.0.now passes_none (IsResultOf (M.post make))) (with_fault arc_value r)) }
        ensures err { OnErr result (self.exit.0.now ≡ self.entry.owner.now) }
        ensures cause { IfErr result (IsRefusedBy
            (A.refuses_coalesced self.entry.owner.now (Some turns.Try) self.entry.key)) }
    {
        let EntrySelector {
            owner,
            key,
            when,
            alloc,
        } = self;
        let key = Shared::new(alloc, key)?;
        let shown = key.clone()?;
        let (made, is_fresh) = owner.coalesce(
            key,
            when,
            Some(TurnKind::Try),
            |_| false,
            || -> Result<Made<V, Shared<F>>, AllocError>
                requires { M.IsAlwaysCallable make }
                ensures { IfOk result (IsResultOf (M.post make)) }
            {
                match make() {
                    Ok(value) => Ok(Made::Value(value)),
                    Err(fault) => Ok(Made::Fault(Shared::new(alloc, fault)?)),
                }
            },
        )?;
        Ok(shown_result(shown, made, is_fresh))
    }

    /// Calls `decide` with the entry, if there is one, and does what it decides; if `decide` fails, nothing is written. Calls of this kind
    /// for one key come one after another. Returns `OutOfMemory` if there is not enough memory, and `UsedUp` if the cache's 64-bit numbers
    /// are used up; a lent cache is then as before.
    /// ```
    /// let answer = cache.entry(7, at).and_try_compute_with(|seen| match seen {
    ///     Some(entry) => Ok(Op::Put(parse(entry.value())?)),
    ///     None => Ok(Op::Nop),
    /// })?;
    /// ```
    pub fn and_try_compute_with<
        V: Clone + Drop,
        E: Drop,
        D: FnOnce(Option<Entry<K, V>>) -> Result<Op<V>, E> + Drop,
    >(self, decide: D) -> Result<Result<CompResult<K, V>, E>, CacheError>
    where
        K: Drop,
        A: Access<K, V, When = W>,
        requires exact { (x y : V) → V.is_clone x y → y ≡ x }
        requires free { A.may_call self.owner.now self.when (Some turns.Compute) self.key }
        requires callable { D.IsAlwaysCallable decide }
        ensures does { IfOk result (ComputesEntry A.sees A.computed self.entry self.exit.0.now
            (λ seen decided. D.post decide (seen_entry self.entry.key seen) decided)) }
        ensures err { OnErr result (self.exit.0.now ≡ self.entry.owner.now) }
        ensures cause { IfErr result
            (IsRefusedBy (A.refuses_computed self.entry.owner.now self.entry.key)) }
    {
        let EntrySelector {
            owner,
            key,
            when,
            alloc,
        } = self;
        let key = Shared::new(alloc, key)?;
        let shown = key.clone()?;
        let given = key.clone()?;
        let answer = owner.compute(
            key,
            when,
            |seen: Option<V>| -> Result<Op<V>, E>
                requires { D.IsAlwaysCallable decide }
                ensures { D.post decide (seen_entry given seen) result }
            { decide(entry_seen(given, seen)) },
        )?;
        Ok(shown_result_of(shown, answer))
    }

    /// Calls `decide` with the entry, if there is one, and does what it decides. Calls of this kind for one key come one after another.
    /// Returns `OutOfMemory` if there is not enough memory, and `UsedUp` if the cache's 64-bit numbers are used up; a lent cache is then as
    /// before.
    /// ```
    /// let done = cache.entry(7, at).and_compute_with(|seen| match seen {
    ///     Some(_) => Op::Remove,
    ///     None => Op::Put(1),
    /// })?;
    /// ```
    pub fn and_compute_with<V: Clone + Drop, D: FnOnce(Option<Entry<K, V>>) -> Op<V> + Drop>(
        self,
        decide: D,
    ) -> Result<CompResult<K, V>, CacheError>
    where
        K: Drop,
        A: Access<K, V, When = W>,
        requires exact { (x y : V) → V.is_clone x y → y ≡ x }
        requires free { A.may_call self.owner.now self.when (Some turns.Compute) self.key }
        requires callable { D.IsAlwaysCallable decide }
        ensures does { IfOk result
            (λ r. ComputesEntry {E = ⊤} A.sees A.computed self.entry self.exit.0.now (DecidesAlways
            (λ seen does. D.post decide (seen_entry self.entry.key seen) does)) (Ok r)) }
        ensures err { OnErr result (self.exit.0.now ≡ self.entry.owner.now) }
        ensures cause { IfErr result
            (IsRefusedBy (A.refuses_computed self.entry.owner.now self.entry.key)) }
    {
        let answer = self.and_try_compute_with(
            |seen: Option<Entry<K, V>>| -> Result<Op<V>, ()>
                requires { D.IsAlwaysCallable decide }
                ensures { (does : Op V) × (result ≡ Ok does) × D.post decide seen does }
            { Ok(decide(seen)) },
        )?;
        match answer {
            Ok(done) => Ok(done),
            Err(()) => unreachable!(),
        }
    }

    /// Puts the value that `make` computes from the entry, if there is one. The returned entry is fresh, and says whether a visible value
    /// was replaced. Calls of this kind for one key come one after another. Returns `OutOfMemory` if there is not enough memory, and
    /// `UsedUp` if the cache's 64-bit numbers are used up; a lent cache is then as before.
    /// ```
    /// let entry = cache.entry(7, at).and_upsert_with(|seen| match seen {
    ///     Some(entry) => entry.into_value().saturating_add(1),
    ///     None => 1,
    /// })?;
    /// ```
    pub fn and_upsert_with<V: Clone + Drop, M: FnOnce(Option<Entry<K, V>>) -> V + Drop>(
        self,
        make: M,
    ) -> Result<Entry<K, V>, CacheError>
    where
        K: Drop,
        A: Access<K, V, When = W>,
        requires exact { (x y : V) → V.is_clone x y → y ≡ x }
        requires free { A.may_call self.owner.now self.when (Some turns.Compute) self.key }
        requires callable { M.IsAlwaysCallable make }
        ensures puts { IfOk result (PutsEntry A.sees A.computed self.entry self.exit.0.now
            (λ seen value. M.post make (seen_entry self.entry.key seen) value)) }
        ensures err { OnErr result (self.exit.0.now ≡ self.entry.owner.now) }
        ensures cause { IfErr result
            (IsRefusedBy (A.refuses_computed self.entry.owner.now self.entry.key)) }
    {
        let done = self.and_compute_with(
            |seen: Option<Entry<K, V>>| -> Op<V>
                requires { M.IsAlwaysCallable make }
                ensures { (value : V) × (result ≡ op.Put value) × M.post make seen value }
            { Op::Put(make(seen)) },
        )?;
        match done {
            CompResult::Inserted(entry) | CompResult::ReplacedWith(entry) => Ok(entry),
            _ => unreachable!(),
        }
    }
}

/// What a closure is passed of a key.
fn entry_seen<K: Drop, V>(key: Shared<K>, seen: Option<V>) -> Option<Entry<K, V>>
    ensures { result ≡ seen_entry key seen }
{
    match seen {
        Some(value) => Some(Entry::new(key, value, false, false)),
        None => None,
    }
}

/// The result of a call that makes a value.
fn shown_value<K: Drop, V, F: Drop>(
    key: Shared<K>,
    made: Made<V, Shared<F>>,
    is_fresh: bool,
) -> Entry<K, V>
    requires { Suits None made ⊎ Suits (Some turns.With) made }
    ensures value { outcome.Value result.value ≡ made }
    ensures shown { result ≡ entry_with key result.value is_fresh false }
{
    match made {
        Made::Value(value) => Entry::new(key, value, is_fresh, false),
        _ => unreachable!(),
    }
}

/// The result of a call that may make no value.
fn shown_option<K: Drop, V, F: Drop>(
    key: Shared<K>,
    made: Made<V, Shared<F>>,
    is_fresh: bool,
) -> Option<Entry<K, V>>
    requires { Suits (Some turns.Optionally) made }
    ensures { result ≡ option_shown key is_fresh made }
{
    match made {
        Made::Value(value) => Some(Entry::new(key, value, is_fresh, false)),
        Made::Nothing => None,
        Made::Fault(_) => unreachable!(),
    }
}

/// The result of a call that may fail.
fn shown_result<K: Drop, V, F: Drop>(
    key: Shared<K>,
    made: Made<V, Shared<F>>,
    is_fresh: bool,
) -> Result<Entry<K, V>, Arc<F>>
    requires { Suits (Some turns.Try) made }
    ensures { IsResultShown key is_fresh made (with_fault arc_value result) }
{
    match made {
        Made::Value(value) => Ok(Entry::new(key, value, is_fresh, false)),
        Made::Fault(fault) => Err(fault.into_arc()),
        Made::Nothing => unreachable!(),
    }
}

/// The result of a compute call.
fn shown_result_of<K: Drop, V, E>(
    key: Shared<K>,
    answer: Result<Computed<V>, E>,
) -> Result<CompResult<K, V>, E>
    ensures { result ≡ result_shown key answer }
{
    match answer {
        Ok(done) => Ok(CompResult::new(key, done)),
        Err(fault) => Err(fault),
    }
}

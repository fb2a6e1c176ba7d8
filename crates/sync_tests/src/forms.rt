//! The three forms of a cache, built by the same settings.
ghost use Rattle.std.specs.Prelude.{◌==◌, ◌%◌};

use crate::caches::NumbersBy;
use crate::entries::{self, Choosing, Sharing};
use crate::numbers::Numbers;
use crate::visiting::{count_seen, prints};
use moka_sync::{
    Bundle, ByCreation, CacheBuilder, CacheError, EvictionPolicy, Lifetime, Predicate, Segmented,
    Sharded, Single, WeighOne,
};
use std::alloc::Global;
use std::sync::{Arc, Wait};
use std::time::Duration;

/// Each value lives so long from its creation on, if any time is set.
#[derive(Clone, Copy, Drop)]
pub struct Lasting(Option<Duration>);

impl Lifetime<u64, u64> for Lasting {
    ghost use Rattle.std.specs.Prelude.{option_map};
    ghost use Rattle.std.specs.Duration.{as_nanos};

    ghost lifetime = { λ lasting _ _. option_map as_nanos lasting.0 };

    fn lifetime(&self, _key: &u64, _value: &u64) -> Option<Duration> {
        self.0
    }
}

/// Covers the entries of odd values.
#[derive(Drop)]
pub struct Odd;

impl Predicate<u64, u64> for Odd {
    ghost covers = { λ _ _ value. value % 2 == 1 };

    fn is_match(&self, _key: &u64, value: &u64) -> bool {
        *value % 2 == 1
    }
}

/// The rules of the tests' caches. A value whose making fails is a number.
pub type TestRules = Bundle<ByCreation<Lasting>, WeighOne, Odd, u64>;

/// A cache by these rules.
pub type Tested<C> = NumbersBy<TestRules, C>;

/// What builds one.
pub type TestBuilder<C = Single> = CacheBuilder<ByCreation<Lasting>, WeighOne, Odd, u64, C>;

/// How a test's cache is built. It reports removals and accepts predicates.
#[derive(Clone, Copy)]
pub struct Settings {
    /// How many segments or shards it has, in the forms that have several.
    pub parts: usize,
    /// How many values there may be.
    pub capacity: u64,
    pub policy: EvictionPolicy,
    /// How many seconds values live, if there is a bound.
    pub live: Option<u64>,
    /// How many seconds they live without a use.
    pub idle: Option<u64>,
    /// How many seconds each lives of its own.
    pub own: Option<u64>,
}

/// Four parts, and room for 500 values that do not expire.
pub const FIVE_HUNDRED: Settings = Settings {
    parts: 4,
    capacity: 500,
    policy: EvictionPolicy::TinyLfu,
    live: None,
    idle: None,
    own: None,
};

/// So many seconds.
fn time_of(seconds: Option<u64>) -> Option<Duration> {
    match seconds {
        Some(seconds) => Some(Duration::from_secs(seconds)),
        None => None,
    }
}

/// Sets how long values live.
fn limit_life(builder: TestBuilder, settings: Settings) -> TestBuilder {
    match time_of(settings.live) {
        Some(live) => builder.time_to_live(live),
        None => builder,
    }
}

/// Sets how long they live without a use.
fn limit_rest(builder: TestBuilder, settings: Settings) -> TestBuilder {
    match time_of(settings.idle) {
        Some(idle) => builder.time_to_idle(idle),
        None => builder,
    }
}

/// What builds a cache by settings.
pub fn builder_of(settings: Settings) -> TestBuilder {
    let builder = CacheBuilder::new(settings.capacity)
        .eviction_policy(settings.policy)
        .eviction_listener()
        .expire_after(ByCreation(Lasting(time_of(settings.own))))
        .support_invalidation_closures::<Odd>()
        .faults::<u64>();
    limit_rest(limit_life(builder, settings), settings)
}

/// The form of a cache.
#[derive(Clone, Copy)]
pub enum Form {
    One,
    Segments,
    Shards,
}

fn eighty() -> u64 {
    80
}

fn fails() -> Result<u64, u64> {
    Err(7)
}

/// Calls that are not the same in each form.
pub trait Covers: Drop + Sized {
    /// `invalidate_entries_if`, of odd values. One segment returns the identifier of a predicate, which has 36 bytes.
    fn cover_odd<H: Wait>(rt: &H, cache: &Tested<Self>) -> Result<(), CacheError>;

    /// Whether segments make a value by two names more, once for both. Other forms do not have them.
    fn has_other_names<H: Wait>(rt: &H, cache: &Tested<Self>) -> bool;
}

impl Covers for Single {
    fn cover_odd<H: Wait>(rt: &H, cache: &Tested<Single>) -> Result<(), CacheError> {
        match cache.invalidate_entries_if(rt, Odd) {
            Ok(id) if id.len() == 36 => Ok(()),
            Ok(_id) => Err(CacheError::IdsInUse),
            Err(refused) => Err(refused),
        }
    }

    fn has_other_names<H: Wait>(_rt: &H, _cache: &Tested<Single>) -> bool {
        false
    }
}

impl Covers for Segmented {
    fn cover_odd<H: Wait>(rt: &H, cache: &Tested<Segmented>) -> Result<(), CacheError> {
        cache.invalidate_entries_if(rt, Odd)
    }

    fn has_other_names<H: Wait>(rt: &H, cache: &Tested<Segmented>) -> bool {
        cache.get_or_insert_with(rt, 8, eighty) == Ok(80)
            && matches!(cache.get_or_try_insert_with(rt, 8, fails), Ok(Ok(80)))
    }
}

impl Covers for Sharded {
    fn cover_odd<H: Wait>(rt: &H, cache: &Tested<Sharded>) -> Result<(), CacheError> {
        cache.invalidate_entries_if(rt, Odd)
    }

    fn has_other_names<H: Wait>(_rt: &H, _cache: &Tested<Sharded>) -> bool {
        false
    }
}

/// A cache by the tests' rules, of any form.
pub trait Staged: Numbers {
    /// `invalidate_entries_if`, of odd values.
    fn cover_odd<H: Wait>(&self, rt: &H) -> Result<(), CacheError>;

    /// Whether it makes a value by the two names that only segments have.
    fn has_other_names<H: Wait>(&self, rt: &H) -> bool;

    /// `try_get_with`.
    fn try_make<H: Wait, M: FnOnce() -> Result<u64, u64> + Drop>(
        &self,
        rt: &H,
        key: u64,
        make: M,
    ) -> Result<Result<u64, Arc<u64>>, CacheError>
        requires { M.IsAlwaysCallable make };

    /// Whether selectors of this handle choose so.
    fn chooses<H: Wait + Copy>(&self, rt: &H, rows: &[Choosing]) -> bool;

    /// Whether selectors of an attached handle do.
    fn chooses_attached<H: Wait + Copy>(&self, rt: &H, rows: &[Choosing]) -> bool;

    /// Whether an attached handle is printed so.
    fn is_printed<H: Wait + Copy>(&self, rt: &H, alloc: Global, text: &str) -> bool;

    /// How many items an iterator returns, if each is of a key that was not seen, with its double.
    fn count_items<H: Wait + Copy>(&self, rt: &H, seen: &mut Vec<bool>) -> Option<usize>;
}

impl<C: Covers> Staged for Tested<C> {
    fn cover_odd<H: Wait>(&self, rt: &H) -> Result<(), CacheError> {
        C::cover_odd(rt, self)
    }

    fn has_other_names<H: Wait>(&self, rt: &H) -> bool {
        C::has_other_names(rt, self)
    }

    fn try_make<H: Wait, M: FnOnce() -> Result<u64, u64> + Drop>(
        &self,
        rt: &H,
        key: u64,
        make: M,
    ) -> Result<Result<u64, Arc<u64>>, CacheError> {
        self.try_get_with(rt, key, make)
    }

    fn chooses<H: Wait + Copy>(&self, rt: &H, rows: &[Choosing]) -> bool {
        entries::chooses(Sharing { rt, cache: self }, rows)
    }

    fn chooses_attached<H: Wait + Copy>(&self, rt: &H, rows: &[Choosing]) -> bool {
        match self.attached(rt) {
            Ok(attached) => entries::chooses(attached, rows),
            Err(_) => false,
        }
    }

    fn is_printed<H: Wait + Copy>(&self, rt: &H, alloc: Global, text: &str) -> bool {
        match self.attached(rt) {
            Ok(attached) => prints(alloc, attached, text, text),
            Err(_) => false,
        }
    }

    fn count_items<H: Wait + Copy>(&self, rt: &H, seen: &mut Vec<bool>) -> Option<usize> {
        match self.attached(rt) {
            Ok(attached) => count_seen(&attached, seen),
            Err(_) => None,
        }
    }
}

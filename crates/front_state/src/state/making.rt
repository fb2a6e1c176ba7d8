//! Creating a cache.
ghost use Rattle.std.specs.Prelude.{◌≤◌, IfOk, option_map};
ghost use Rattle.std.specs.String.{string_bytes};
ghost use Rattle.front_parts.specs.Places.Making.{IsMadeWith};

use super::LentState;
use engine_reference::{Rules, Settings};
use front_parts::{Turns, for_part, new_parts};
use front_reference::Shared;
use policy_base::Instant;
use std::alloc::{AllocError, Global};
use std::hash::{BuildHasher, Hash};
use std::marker::PhantomData;

impl<K: Eq + Hash + Drop, V: Drop, S: BuildHasher + Drop, R: Rules<K, V> + Drop, C> LentState<
    K,
    V,
    S,
    R,
    C,
> {
    /// Creates an empty cache of 2^bits parts, at most 2^16. The capacity in its settings is that of all parts together, each of which gets
    /// its share. `initial_capacity` is the number of entries, in all parts together, for which there is room from the start.
    /// `CacheBuilder` computes and checks the arguments. Returns an error if there is not enough memory.
    /// ```
    /// let cache: CacheState<u64, u64> = LentState::with_parts(alloc, None, 2, 0, settings, hasher, rules)?;
    /// ```
    pub fn with_parts(
        alloc: Global,
        name: Option<String>,
        bits: u32,
        initial_capacity: usize,
        settings: Settings,
        hasher: S,
        rules: R,
    ) -> Result<Self, AllocError>
        requires few { bits ≤ 16 }
        requires in_range { settings.made ≤ 18446744073709551614 }
        ensures { IfOk result
            (IsMadeWith (option_map string_bytes name) bits settings hasher rules) }
    {
        let hasher = Shared::new(alloc, hasher)?;
        let rules = Shared::new(alloc, rules)?;
        LentState::with_shared(alloc, name, bits, initial_capacity, settings, hasher, rules)
    }

    /// Like `with_parts`, with a hasher and rules that other caches use, too. Returns an error if there is not enough memory.
    /// ```
    /// let cache: LentState<u64, u64, StdHasher, PlainRules, Sharded> =
    ///     LentState::with_shared(alloc, None, 0, 0, settings, hasher.clone()?, rules.clone()?)?;
    /// ```
    pub fn with_shared(
        alloc: Global,
        name: Option<String>,
        bits: u32,
        initial_capacity: usize,
        settings: Settings,
        hasher: Shared<S>,
        rules: Shared<R>,
    ) -> Result<Self, AllocError>
        requires few { bits ≤ 16 }
        requires in_range { settings.made ≤ 18446744073709551614 }
        ensures { IfOk result
            (IsMadeWith (option_map string_bytes name) bits settings hasher rules) }
    {
        let count = 2_usize.pow(bits);
        let capacity = settings.capacity;
        let settings = for_part(count as u64, settings);
        let room = initial_capacity.div_ceil(count);
        let parts = new_parts(alloc, count, room, settings, &hasher, &rules)?;
        Ok(LentState {
            alloc,
            parts,
            bits,
            name,
            capacity,
            settings,
            hasher,
            rules,
            turns: Turns::new(alloc),
            next_turn: 0,
            moment: Instant::from_nanos(settings.made),
            step: 0,
            form: PhantomData,
        })
    }
}

//! Printing a cache and iterating over it.
ghost use Rattle.std.specs.Prelude.{◌≡◌};

use crate::state::LentState;
use engine_reference::Rules;
use front_parts::{HasWays, Iter, keys_at};
use front_reference::{CacheError, Shared};
use std::fmt;
use std::hash::{BuildHasher, Hash};

impl<K: Eq + Hash + fmt::Debug + Drop, V: fmt::Debug, S: BuildHasher, R: Rules<K, V>, C> LentState<
    K,
    V,
    S,
    R,
    C,
> {
    /// Prints what is visible in the part at a place. It fails if there is not enough memory for its keys.
    fn print_part<W: fmt::Write>(
        &self,
        place: usize,
        entries: &mut fmt::DebugMap<'_, W>,
    ) -> fmt::Result {
        let Ok(Some(keys)) = keys_at(self.parts.as_slice(), place) else {
            return Err(fmt::Error);
        };
        for key in &keys {
            if let Some(value) = self.peek(&**key, self.moment) {
                entries.entry(&**key, value);
            }
        }
        Ok(())
    }
}

/// Prints a map of the keys and values that were visible at the moment of the last call. Printing does not count as a use; it fails if
/// there is not enough memory for the keys.
impl<K: Eq + Hash + fmt::Debug + Drop, V: fmt::Debug, S: BuildHasher, R: Rules<K, V>, C> fmt::Debug
    for LentState<K, V, S, R, C> {
    fn fmt<W: fmt::Write>(&self, f: &mut fmt::Formatter<W>) -> fmt::Result {
        let mut entries = f.debug_map();
        for place in 0..self.parts.len() {
            self.print_part(place, &mut entries)?;
        }
        entries.finish()
    }
}

/// Iterates over what was visible at the moment of the last call, like `iter`.
impl<'a, K: Eq + Hash + Drop, V: Clone + Drop, S: BuildHasher, R: Rules<K, V>, C> IntoIterator
    for &'a LentState<K, V, S, R, C> {
    ghost use Rattle.std.specs.Prelude.{◌≡◌};
    ghost use Rattle.front_state.specs.Covering.{GivesVisible};

    type Item = Result<(Shared<K>, V), CacheError>;

    type IntoIter = Iter<'a, Shared<K>, V, LentState<K, V, S, R, C>>;

    ghost into_iter_gives = { λ f it. (it.source ≡ f.now) × (it.now ≡ f.now.moment)
        × GivesVisible ⟦<R as HasWays<K, V, S>>⟧.ways f.now.moment f.now it.coming };

    fn into_iter(self) -> Iter<'a, Shared<K>, V, LentState<K, V, S, R, C>> {
        self.iter(self.last_call().now)
    }
}

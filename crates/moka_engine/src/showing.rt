//! What a look-up shows without a clone.
ghost use Rattle.std.specs.Prelude.{◌≡◌, ℕ, Option, option_map};
ghost use Rattle.engine_calls.specs.Finding.{WasFound};
ghost use Rattle.engine_reference.specs.declared.data.Record.{Record};
ghost use Rattle.moka_engine.specs.Showing.{IsShown};

use engine_reference::Rules;
use engine_tables::Tables;
use std::hash::{BuildHasher, Hash};

/// Returns the value of what was found in a place, or `None` without a place.
pub fn value_in<K: Eq + Hash, V, S: BuildHasher, R: Rules<K, V>>(
    tables: &Tables<K, V, S, R>,
    place: Option<usize>,
) -> Option<&V>
    requires { (hash : ℕ) × (o : Option (Record K V)) × WasFound tables.now hash place o }
    ensures { (hash : ℕ) (o : Option (Record K V)) → WasFound tables.now hash place o
        → option_map (λ value. value.now) result ≡ option_map (λ r. r.entry.value) o }
{
    match place {
        Some(place) => Some(tables.record_in(place).value()),
        None => None,
    }
}

/// Passes a value, and what is behind `output`, to `see`, and returns what `see` returns, also if that is an error.
pub fn show<V, O, T, E, F: FnOnce(Option<&V>, &mut O) -> Result<T, E> + Drop>(
    found: Option<&V>,
    output: &mut O,
    see: F,
) -> Result<T, E>
    requires { F.IsAlwaysCallable see }
    ensures { IsShown F.FnOnce see (option_map (λ value. value.now) found.entry) output.old result
        output.new }
{
    see(found, output)
}

//! What an iterator reads.
ghost use Rattle.std.specs.Prelude.{◌≡◌, ◌≤◌, ℕ, List, Option, IfOk, MatchOption};

use policy_base::Instant;
use std::alloc::AllocError;

/// What an iterator reads of a cache: its keys, segment by segment, and the value that is visible under each. Reading does not count as a
/// use of a value.
pub trait ScanningGet<K, V> {
    /// How many segments there are.
    ghost segments: { Self → ℕ };

    /// The keys of a segment, including those of expired and invalidated values.
    ghost keys_in: { Self → ℕ → List K };

    /// The value of a key that is visible at a moment.
    ghost value_of: { Self → ℕ → K → Option V };

    /// What is required before keys and values are cloned.
    ghost can_scan: { Self → Type 0 };

    /// Returns the number of segments.
    fn num_cht_segments(&self) -> usize
        ensures { result ≡ segments self.now };

    /// Returns a clone of the value of a key that is visible at a moment, or `None`. Returns an error if there is no memory for the clone.
    fn scanning_get(&self, key: &K, now: Instant) -> Result<Option<V>, AllocError>
        requires { can_scan self.now }
        ensures { IfOk result (λ found. found ≡ value_of self.now now key.now) };

    /// Returns clones of the keys of a segment, counted from 0, or `None` if there is no such segment. Returns an error if there is no
    /// memory for them.
    fn keys(&self, segment: usize) -> Result<Option<Vec<K>>, AllocError>
        requires { can_scan self.now }
        ensures { IfOk result (λ keys. MatchOption keys (segments self.now ≤ segment)
            (λ found. found.items ≡ keys_in self.now segment)) };
}

//! The hash of a key.
ghost use Rattle.std.specs.Prelude.{◌≡◌, ℕ};
ghost use Rattle.engine_reference.specs.Rules.Hashing.{hash_of_key};

use std::hash::{BuildHasher, Hash, Hasher};

/// Every type of hashers, with the hash that it gives to a key.
pub trait Hashes<K> {
    ghost hash: { Self → K → ℕ };

    /// Returns the hash of a key.
    fn hash_key(&self, key: &K) -> u64
        ensures { result ≡ hash self.now key.now };
}

impl<K: Hash, S: BuildHasher> Hashes<K> for S {
    ghost hash = { hash_of_key S.Hasher.finish S.Hasher.write S.build_hasher K.hash_input };

    fn hash_key(&self, key: &K) -> u64 {
        let mut state = self.build_hasher();
        key.hash(&mut state);
        state.finish()
    }
}

//! What names a key.
ghost use Rattle.std.specs.Prelude.{◌≡◌, IfOk};

use std::alloc::AllocError;

/// A name of a key, for finding one. Each key names itself; another type may name one that is stored elsewhere, for example
/// behind a pointer, so that a look-up makes no key and allocates nothing.
pub trait Names<K: PartialEq> {
    /// The key that it names.
    ghost named_key: { Self → K };

    /// Returns whether a key is the one that this name stands for.
    fn is_name_of(&self, key: &K) -> bool
        ensures { result ≡ K.eq (named_key self.now) key.now };
}

impl<K: PartialEq> Names<K> for K {
    ghost named_key = { λ key. key };

    fn is_name_of(&self, key: &K) -> bool {
        *self == *key
    }
}

/// A name of a key, which becomes the key if it is to be stored. So a look-up that finds its value makes no key.
pub trait IntoKey<K: PartialEq>: Names<K> + Drop {
    /// What is required before it becomes the key.
    ghost can_become: { Self → Type 0 };

    /// Converts the name to the key that it names. Returns an error if there is no memory for the key.
    fn into_key(self) -> Result<K, AllocError>
        requires { can_become self }
        ensures { IfOk result (λ key. key ≡ Self.named_key self) };
}

impl<K: PartialEq + Drop> IntoKey<K> for K {
    ghost can_become = { λ _. Unit {0} };

    fn into_key(self) -> Result<K, AllocError> {
        Ok(self)
    }
}

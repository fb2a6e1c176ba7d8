//! What a shared cache names its keys by.
ghost use Rattle.std.specs.Prelude.{◌≡◌};

use engine_reference::Names;
use front_reference::{ClonedKey, IntoKey, OwnedKey, Shared};
use std::alloc::AllocError;

/// A name of a key, which shows the key, and becomes it if a turn begins.
pub trait Asked<K: PartialEq>: IntoKey<Shared<K>> {
    /// Returns the key that the name stands for.
    fn key(&self) -> &K
        ensures { result.now ≡ Self.named_key self.now };
}

impl<K: PartialEq + Drop> Asked<K> for OwnedKey<K> {
    fn key(&self) -> &K {
        &self.key
    }
}

impl<'a, K: PartialEq + Clone + Drop> Asked<K> for ClonedKey<'a, K> {
    fn key(&self) -> &K {
        self.key
    }
}

/// A key that is shared already, and becomes the key without memory for another.
#[derive(Drop)]
pub struct SharedName<'a, K> {
    /// The key itself.
    pub key: &'a Shared<K>,
}

impl<'a, K: PartialEq> Names<Shared<K>> for SharedName<'a, K> {
    ghost named_key = { λ name. name.key.now };

    fn is_name_of(&self, key: &Shared<K>) -> bool {
        **self.key == **key
    }
}

impl<'a, K: PartialEq + Drop> IntoKey<Shared<K>> for SharedName<'a, K> {
    ghost can_become = { λ _. Unit {0} };

    fn into_key(self) -> Result<Shared<K>, AllocError> {
        self.key.clone()
    }
}

impl<'a, K: PartialEq + Drop> Asked<K> for SharedName<'a, K> {
    fn key(&self) -> &K {
        &**self.key
    }
}

/// A key that is lent while its turn is under way, so that no key is to be stored: converting the name to a key returns an error.
#[derive(Drop)]
pub struct WaitingName<'a, K> {
    /// The key itself.
    pub key: &'a K,
}

impl<'a, K: PartialEq> Names<Shared<K>> for WaitingName<'a, K> {
    ghost named_key = { λ name. name.key.now };

    fn is_name_of(&self, key: &Shared<K>) -> bool {
        *self.key == **key
    }
}

impl<'a, K: PartialEq> IntoKey<Shared<K>> for WaitingName<'a, K> {
    ghost can_become = { λ _. Unit {0} };

    fn into_key(self) -> Result<Shared<K>, AllocError> {
        Err(AllocError)
    }
}

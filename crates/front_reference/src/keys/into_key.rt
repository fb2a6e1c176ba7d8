//! Keys that are made only if they are to be stored.
ghost use Rattle.std.specs.Prelude.{◌≡◌};

use crate::keys::shared::Shared;
use engine_reference::{IntoKey, Names};
use std::alloc::{AllocError, Global};

/// An owned key, which is moved behind an `Arc` only if it is to be stored.
#[derive(Drop)]
pub struct OwnedKey<K> {
    /// The key itself.
    pub key: K,
    /// The allocator, which makes room for the `Arc`.
    pub alloc: Global,
}

impl<K: PartialEq> Names<Shared<K>> for OwnedKey<K> {
    ghost named_key = { λ name. name.key };

    fn is_name_of(&self, key: &Shared<K>) -> bool {
        self.key == **key
    }
}

impl<K: PartialEq + Drop> IntoKey<Shared<K>> for OwnedKey<K> {
    ghost can_become = { λ _. Unit {0} };

    fn into_key(self) -> Result<Shared<K>, AllocError> {
        let OwnedKey { key, alloc } = self;
        Shared::new(alloc, key)
    }
}

/// A borrowed key, which is cloned only if it is to be stored. Its clone is required to equal it.
#[derive(Drop)]
pub struct ClonedKey<'a, K> {
    /// The key itself.
    pub key: &'a K,
    /// The allocator, which makes room for the `Arc`.
    pub alloc: Global,
}

impl<'a, K: PartialEq> Names<Shared<K>> for ClonedKey<'a, K> {
    ghost named_key = { λ name. name.key.now };

    fn is_name_of(&self, key: &Shared<K>) -> bool {
        *self.key == **key
    }
}

impl<'a, K: PartialEq + Clone + Drop> IntoKey<Shared<K>> for ClonedKey<'a, K> {
    ghost can_become = { λ _. (x y : K) → K.is_clone x y → y ≡ x };

    fn into_key(self) -> Result<Shared<K>, AllocError> {
        let ClonedKey { key, alloc } = self;
        let own = key.clone()?;
        Shared::new(alloc, own)
    }
}

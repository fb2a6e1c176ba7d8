//! Borrowed names of shared keys.
ghost use Rattle.std.specs.Prelude.{◌≡◌};

use crate::keys::shared::Shared;
use engine_reference::Names;

/// A borrowed key for a look-up: it names the shared key that equals it, so that a look-up by `&K` makes no shared key and allocates
/// nothing.
#[derive(Clone, Copy)]
pub struct LentKey<'a, K> {
    /// The key itself.
    pub key: &'a K,
}

impl<'a, K: PartialEq> Names<Shared<K>> for LentKey<'a, K> {
    ghost named_key = { λ name. name.key.now };

    fn is_name_of(&self, key: &Shared<K>) -> bool {
        *self.key == **key
    }
}

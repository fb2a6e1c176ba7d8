//! Rules that the parts of a cache share, over shared keys.
ghost use Rattle.std.specs.Prelude.{◌≡◌};

use crate::keys::shared::Shared;
use engine_reference::{Expiration, Rules};
use policy_base::Instant;
use std::time::Duration;

impl<K, V, R: Rules<K, V>> Rules<Shared<K>, V> for Shared<R> {
    type Predicate = Shared<R::Predicate>;

    type Fault = R::Fault;

    ghost answers = { R.answers };

    fn weight(&self, key: &Shared<K>, value: &V) -> u32 {
        (**self).weight(&**key, value)
    }

    fn created_expiration(
        &self,
        key: &Shared<K>,
        value: &V,
        created_at: Instant,
    ) -> Option<Duration> {
        (**self).created_expiration(&**key, value, created_at)
    }

    fn read_expiration(
        &self,
        key: &Shared<K>,
        value: &V,
        read_at: Instant,
        remaining: Option<Duration>,
        last_modified_at: Instant,
    ) -> Expiration {
        (**self).read_expiration(&**key, value, read_at, remaining, last_modified_at)
    }

    fn updated_expiration(
        &self,
        key: &Shared<K>,
        value: &V,
        updated_at: Instant,
        remaining: Option<Duration>,
    ) -> Expiration {
        (**self).updated_expiration(&**key, value, updated_at, remaining)
    }

    fn is_covered(&self, predicate: &Shared<R::Predicate>, key: &Shared<K>, value: &V) -> bool {
        (**self).is_covered(&**predicate, &**key, value)
    }
}

//! The rules of the service.
ghost use Rattle.cache_front.specs.Parts.{service_answers};

use crate::entries::value::StoredValue;
use audit_model::{Bytes, Key, Weight};
use engine_reference::{Expiration, Rules};
use policy_base::Instant;
use std::time::Duration;

/// A value weighs what its namespace says. Each write sets its own expiration, and each read keeps it. A predicate is a prefix of keys.
impl Rules<Key, StoredValue> for Weight {
    type Predicate = Bytes;

    type Fault = ();

    ghost answers = { service_answers };

    fn weight(&self, _key: &Key, value: &StoredValue) -> u32 {
        value.weigh(*self)
    }

    fn created_expiration(
        &self,
        _key: &Key,
        value: &StoredValue,
        _created_at: Instant,
    ) -> Option<Duration> {
        value.lifetime()
    }

    fn read_expiration(
        &self,
        _key: &Key,
        _value: &StoredValue,
        _read_at: Instant,
        _remaining: Option<Duration>,
        _last_modified_at: Instant,
    ) -> Expiration {
        Expiration::Keep
    }

    fn updated_expiration(
        &self,
        _key: &Key,
        value: &StoredValue,
        _updated_at: Instant,
        _remaining: Option<Duration>,
    ) -> Expiration {
        Expiration::Set(value.lifetime())
    }

    fn is_covered(&self, predicate: &Bytes, key: &Key, _value: &StoredValue) -> bool {
        key.as_bytes().starts_with(predicate.as_slice())
    }
}

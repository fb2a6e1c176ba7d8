//! The rules of the cache.
ghost use Rattle.std.specs.Prelude.{◌≡◌, option_map};
ghost use Rattle.std.specs.Duration.{as_nanos};
ghost use Rattle.memcache_cache.specs.Rules.{item_answers, left_of, left_until};

use audit_model::Key;
use engine_reference::{Expiration, Rules};
use memcache_service::StoredItem;
use policy_base::Instant;
use std::time::Duration;

/// What an item costs beside its key and its bytes, in bytes of memory: as measured of 300,000 to 550,000 items of 48 and 116 bytes.
pub const ITEM_COST: u64 = 230;

/// The rules of the cache: an item weighs its key, its bytes and `ITEM_COST`, in bytes, and lives until its deadline.
#[derive(Clone, Copy, Drop)]
pub struct ItemRules;

/// How long an item is to live from a moment on.
fn lifetime(item: &StoredItem, now: Instant) -> Option<Duration>
    ensures { option_map as_nanos result ≡ left_of item.now now }
{
    match item.deadline() {
        Some(milliseconds) => Some(left_until(now, milliseconds)),
        None => None,
    }
}

/// How long it is until a moment of milliseconds.
fn left_until(now: Instant, milliseconds: u64) -> Duration
    ensures { as_nanos result ≡ left_until now milliseconds }
{
    let nanos = milliseconds.saturating_mul(1_000_000);
    Duration::from_nanos(nanos.saturating_sub(now.as_nanos()))
}

impl Rules<Key, StoredItem> for ItemRules {
    type Predicate = ();

    type Fault = ();

    ghost answers = { item_answers };

    fn weight(&self, key: &Key, item: &StoredItem) -> u32 {
        let key = key.as_bytes().len() as u64;
        let bytes = item.bytes().len() as u64;
        let weight = key.saturating_add(bytes).saturating_add(ITEM_COST);
        u32::try_from(weight).unwrap_or(u32::MAX)
    }

    fn created_expiration(&self, _key: &Key, item: &StoredItem, at: Instant) -> Option<Duration> {
        lifetime(item, at)
    }

    fn read_expiration(
        &self,
        _key: &Key,
        _item: &StoredItem,
        _at: Instant,
        _remaining: Option<Duration>,
        _written: Instant,
    ) -> Expiration {
        Expiration::Keep
    }

    fn updated_expiration(
        &self,
        _key: &Key,
        item: &StoredItem,
        at: Instant,
        _remaining: Option<Duration>,
    ) -> Expiration {
        Expiration::Set(lifetime(item, at))
    }

    fn is_covered(&self, _predicate: &(), _key: &Key, _item: &StoredItem) -> bool {
        false
    }
}

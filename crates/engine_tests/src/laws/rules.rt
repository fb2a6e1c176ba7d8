//! Rules, through their bounds.
ghost use Rattle.std.specs.Prelude.{ℕ, Option, Some, nat_lt, nat_eq};

use engine_reference::{
    Bundle, Expiration, Expiry, NoExpiry, NoPredicate, Predicate, Rules, WeighOne, Weigher,
};
use policy_base::Instant;
use std::time::Duration;

/// A value lives a second from its creation on, and as long again as it had left from each read on.
#[derive(Drop)]
struct OneSecond;

impl Expiry<u8, u32> for OneSecond {
    ghost created = { λ _ _ _ _. Some 1_000_000_000 };

    ghost read = { λ _ _ _ _ left _. left };

    ghost updated = { λ _ _ _ _ _. Some 1_000_000_000 };

    fn expire_after_create(
        &self,
        _key: &u8,
        _value: &u32,
        _created_at: Instant,
    ) -> Option<Duration> {
        Some(Duration::from_nanos(1_000_000_000))
    }

    fn expire_after_read(
        &self,
        _key: &u8,
        _value: &u32,
        _read_at: Instant,
        remaining: Option<Duration>,
        _last_modified_at: Instant,
    ) -> Option<Duration> {
        remaining
    }

    fn expire_after_update(
        &self,
        _key: &u8,
        _value: &u32,
        _updated_at: Instant,
        _remaining: Option<Duration>,
    ) -> Option<Duration> {
        Some(Duration::from_nanos(1_000_000_000))
    }
}

/// A value weighs what it is.
#[derive(Drop)]
struct WeighValue;

impl Weigher<u8, u32> for WeighValue {
    ghost weight_of = { λ _ _ value. value };

    fn weigh(&self, _key: &u8, value: &u32) -> u32 {
        *value
    }
}

/// Covers the values below a limit.
#[derive(Drop)]
struct Below {
    limit: u32,
}

impl Predicate<u8, u32> for Below {
    ghost covers = { λ below _ value. nat_lt value below.limit };

    fn is_match(&self, _key: &u8, value: &u32) -> bool {
        *value < self.limit
    }
}

/// What rules say of a value that is updated when a second is left to it.
fn updated<R: Rules<u8, u32>>(rules: &R, value: u32) -> Expiration {
    rules.updated_expiration(
        &1,
        &value,
        Instant::from_nanos(5),
        Some(Duration::from_secs(1)),
    )
}

/// What rules say of a value that is read when half a second is left to it.
fn read<R: Rules<u8, u32>>(rules: &R, value: u32) -> Expiration {
    let half = Some(Duration::from_millis(500));
    rules.read_expiration(
        &1,
        &value,
        Instant::from_nanos(5),
        half,
        Instant::from_nanos(2),
    )
}

fn weight_of<R: Rules<u8, u32>>(rules: &R, value: u32) -> u32 {
    rules.weight(&1, &value)
}

fn is_covered<R: Rules<u8, u32>>(rules: &R, predicate: &R::Predicate, value: u32) -> bool {
    rules.is_covered(predicate, &1, &value)
}

fn created<R: Rules<u8, u32>>(rules: &R, value: u32) -> Option<Duration> {
    rules.created_expiration(&1, &value, Instant::from_nanos(5))
}

/// What rules say of a value that is updated and had no expiration.
fn updated_from_none<R: Rules<u8, u32>>(rules: &R, value: u32) -> Expiration {
    rules.updated_expiration(&1, &value, Instant::from_nanos(5), None)
}

type Parts = Bundle<OneSecond, WeighValue, Below, u8>;

fn parts() -> Parts {
    Bundle::new(OneSecond, WeighValue)
}

fn covered_below_ten(value: u32) -> bool {
    is_covered(&parts(), &Below { limit: 10 }, value)
}

#[test]
fn a_bundle_asks_its_parts(rt: HostRuntime) {
    assert!(rt;
        weight_of(&parts(), 30) == 30
            && covered_below_ten(9)
            && !covered_below_ten(10)
            && created(&parts(), 30) == Some(Duration::from_secs(1))
    );
}

#[test]
fn an_answer_of_what_is_left_changes_nothing(rt: HostRuntime) {
    assert!(rt;
        updated(&parts(), 30) == Expiration::Keep
            && read(&parts(), 30) == Expiration::Keep
            && updated_from_none(&parts(), 30) == Expiration::Set(Some(Duration::from_secs(1)))
    );
}

fn plain_parts() -> Bundle<NoExpiry, WeighOne, NoPredicate, u8> {
    Bundle::new(NoExpiry, WeighOne)
}

#[test]
fn the_plain_parts_expire_nothing(rt: HostRuntime) {
    assert!(rt;
        updated(&plain_parts(), 30) == Expiration::Keep
            && read(&plain_parts(), 30) == Expiration::Keep
            && created(&plain_parts(), 30).is_none()
    );
}

#[test]
fn the_plain_parts_weigh_one_and_cover_nothing(rt: HostRuntime) {
    assert!(rt;
        weight_of(&plain_parts(), 30) == 1 && !is_covered(&plain_parts(), &NoPredicate, 30)
    );
}

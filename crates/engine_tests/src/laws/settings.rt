//! Causes, settings and their texts.
use engine_reference::{EvictionPolicy, ExpirationPolicy, Policy, PredicateError, RemovalCause};
use std::alloc::{AllocError, Global};
use std::time::Duration;

fn were_evicted() -> [bool; 4] {
    [
        RemovalCause::Expired.was_evicted(),
        RemovalCause::Size.was_evicted(),
        RemovalCause::Explicit.was_evicted(),
        RemovalCause::Replaced.was_evicted(),
    ]
}

#[test]
fn causes(rt: HostRuntime) {
    assert!(rt; were_evicted() == [true, true, false, false]);
}

fn shows(alloc: Global, policy: EvictionPolicy, text: &str) -> Result<bool, AllocError> {
    Ok(format!(in alloc; "{policy:?}")?.as_str() == text)
}

fn says(alloc: Global, error: PredicateError, text: &str) -> Result<bool, AllocError> {
    Ok(format!(in alloc; "{error}")?.as_str() == text)
}

/// Whether a policy is shown so, at the second try if memory is refused.
fn is_shown(alloc: Global, policy: EvictionPolicy, text: &str) -> bool {
    shows(alloc, policy, text) == Ok(true) || shows(alloc, policy, text) == Ok(true)
}

#[test]
fn texts_of_policies(rt: HostRuntime) {
    assert!(rt;
        is_shown(rt.alloc(), EvictionPolicy::default(), "TinyLfu")
            && is_shown(rt.alloc(), EvictionPolicy::lru(), "Lru")
    );
}

/// Whether an error has a text, at the second try if memory is refused.
fn is_said(alloc: Global, error: PredicateError, text: &str) -> bool {
    says(alloc, error, text) == Ok(true) || says(alloc, error, text) == Ok(true)
}

#[test]
fn text_of_a_refusal(rt: HostRuntime) {
    let refused = PredicateError::InvalidationClosuresDisabled;
    assert!(rt; is_said(rt.alloc(), refused, "invalidation closures are disabled"));
}

fn times_of(times: &ExpirationPolicy) -> (Option<Duration>, Option<Duration>) {
    (times.time_to_live(), times.time_to_idle())
}

fn sixteen_and_seven() -> ExpirationPolicy {
    let mut times = ExpirationPolicy::default();
    times.set_time_to_live(Duration::from_secs(16));
    times.set_time_to_idle(Duration::from_secs(7));
    times
}

#[test]
fn times(rt: HostRuntime) {
    assert!(rt;
        times_of(&ExpirationPolicy::default()) == (None, None)
            && times_of(&sixteen_and_seven())
                == (Some(Duration::from_secs(16)), Some(Duration::from_secs(7)))
    );
}

fn parts_of(policy: &Policy) -> (Option<u64>, usize, Option<Duration>, Option<Duration>) {
    (
        policy.max_capacity(),
        policy.num_segments(),
        policy.time_to_live(),
        policy.time_to_idle(),
    )
}

#[test]
fn settings(rt: HostRuntime) {
    let policy = Policy::new(Some(100), 16, None, Some(Duration::from_secs(7)));
    assert!(rt; parts_of(&policy) == (Some(100), 16, None, Some(Duration::from_secs(7))));
}

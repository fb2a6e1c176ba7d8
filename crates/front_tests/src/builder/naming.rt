//! A predicate of a cache of one segment has a name.
use crate::playing::{IsEither, Turning};
use moka::{
    BuildError, Bundle, CacheBuilder, CacheState, Instant, NoExpiry, StdHasher, WeighOne, next_call,
};
use std::alloc::Global;

/// A cache of numbers that takes predicates.
type Numbers = CacheState<u64, u64, StdHasher, Bundle<NoExpiry, WeighOne, IsEither, ()>>;

fn made(alloc: Global) -> Result<Numbers, BuildError> {
    CacheBuilder::new(100)
        .support_invalidation_closures()
        .build_state(alloc, StdHasher::new(), Instant::from_nanos(0))
}

/// Whether the identifier that is drawn from bytes of 0 is this UUID of version 4.
fn is_named(cache: &mut Numbers) -> bool {
    match next_call(cache, Instant::from_nanos(0)) {
        Ok(at) => match cache.invalidate_entries_if(IsEither(1, 2), &mut Turning(4), at) {
            Ok(id) => id.as_str() == "00000000-0000-4000-8000-000000000000",
            Err(_) => false,
        },
        Err(_) => false,
    }
}

fn is_named_anew(alloc: Global) -> bool {
    match made(alloc) {
        Ok(mut cache) => is_named(&mut cache) || is_named(&mut cache),
        Err(_) => false,
    }
}

#[test]
fn a_predicate_has_a_name(rt: HostRuntime) {
    assert!(rt; is_named_anew(rt.alloc()) || is_named_anew(rt.alloc()));
}

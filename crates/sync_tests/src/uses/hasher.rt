//! Keys from strangers.
use crate::caches::{Moments, Play, Stage, passes};
use moka_sync::{Build, BuildError, Cache, CacheBuilder, Env, PlainRules};
use std::alloc::Global;
use std::hash::RandomState;
use std::random::RandomSource;
use std::sync::Wait;

// example: hasher
/// Users by their tokens, which come from untrusted clients.
type Users<E> = Cache<u64, u64, RandomState, PlainRules, E>;

/// An empty cache of users, with a hasher that clients cannot predict: `RandomState::new(&rt)`.
fn make_users<E: Env + Drop>(
    alloc: Global,
    hasher: RandomState,
    env: E,
) -> Result<Users<E>, BuildError> {
    CacheBuilder::new(5_000).build_with_hasher(alloc, hasher, env)
}
// end

struct Finding;

impl<H: Wait + RandomSource> Play<H> for Finding {
    type Cache = Users<Moments>;

    fn make(&self, rt: &H, alloc: Global, moments: Moments) -> Result<Users<Moments>, BuildError> {
        match RandomState::new(rt) {
            Ok(hasher) => make_users(alloc, hasher, moments),
            Err(_) => Err(BuildError::OutOfMemory),
        }
    }

    fn plays(&self, rt: &H, stage: &Stage<Users<Moments>>) -> bool {
        stage.cache.insert(rt, 1, 5).is_ok() && stage.cache.get(rt, &1) == Ok(Some(5))
    }
}

#[test]
fn users_are_found(rt: HostRuntime) {
    assert!(rt; passes(&rt, rt.alloc(), &Finding));
}

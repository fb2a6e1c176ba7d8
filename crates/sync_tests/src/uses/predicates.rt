//! Values that are invalidated together.
use crate::caches::{Moments, Play, Stage, passes};
use moka_sync::{
    Build, BuildError, Bundle, Cache, CacheBuilder, CacheError, Env, KeyPrefix, NoExpiry,
    StdHasher, WeighOne,
};
use std::alloc::Global;
use std::sync::Wait;

// example: predicates
/// The rules of a cache whose values are invalidated by a prefix of their keys.
type PathRules = Bundle<NoExpiry, WeighOne, KeyPrefix, ()>;

/// The sizes of files, by their paths.
type Sizes<E> = Cache<String, u64, StdHasher, PathRules, E>;

/// An empty cache of sizes.
fn make_sizes<E: Env + Drop>(alloc: Global, env: E) -> Result<Sizes<E>, BuildError> {
    CacheBuilder::new(5_000)
        .support_invalidation_closures::<KeyPrefix>()
        .build(alloc, env)
}

/// Invalidates the sizes of all files below a folder that were inserted until now.
fn forget<H: Wait, E: Env + Drop>(
    rt: &H,
    alloc: Global,
    sizes: &Sizes<E>,
    folder: &str,
) -> Result<(), CacheError> {
    let folder = String::from_str(alloc, folder)?;
    let _id = sizes.invalidate_entries_if(rt, KeyPrefix(folder))?;
    Ok(())
}
// end

/// Keeps a size.
fn keep<H: Wait, E: Env + Drop>(
    rt: &H,
    alloc: Global,
    sizes: &Sizes<E>,
    path: &str,
) -> Result<(), CacheError> {
    let path = String::from_str(alloc, path)?;
    sizes.insert(rt, path, 1)
}

/// Whether a size is kept, of two below a folder and one beside it.
fn keeps_three<H: Wait>(rt: &H, alloc: Global, sizes: &Sizes<Moments>) -> bool {
    for path in ["a/one", "a/two", "b/one"] {
        if keep(rt, alloc, sizes, path) != Ok(()) {
            return false;
        }
    }
    true
}

/// Of them one is left.
struct Forgetting;

impl<H: Wait> Play<H> for Forgetting {
    type Cache = Sizes<Moments>;

    fn make(&self, _rt: &H, alloc: Global, moments: Moments) -> Result<Sizes<Moments>, BuildError> {
        make_sizes(alloc, moments)
    }

    fn plays(&self, rt: &H, stage: &Stage<Sizes<Moments>>) -> bool {
        let alloc = stage.alloc;
        keeps_three(rt, alloc, &stage.cache)
            && forget(rt, alloc, &stage.cache, "a/").is_ok()
            && stage.cache.run_pending_tasks(rt).is_ok()
            && stage.cache.entry_count(rt) == 1
    }
}

#[test]
fn a_folder_is_forgotten(rt: HostRuntime) {
    assert!(rt; passes(&rt, rt.alloc(), &Forgetting));
}

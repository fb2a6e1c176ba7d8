//! A capacity in bytes.
use crate::caches::{Moments, Play, Stage, passes};
use moka_sync::{
    Build, BuildError, Bundle, Cache, CacheBuilder, Env, NoExpiry, NoPredicate, Shared, StdHasher,
    WeighBytes,
};
use std::alloc::{AllocError, Global};
use std::sync::Wait;

// example: weigher
/// The rules of a cache in which a text weighs as many units as it has bytes.
type PageRules = Bundle<NoExpiry, WeighBytes, NoPredicate, ()>;

/// Pages by their number.
type Pages<E> = Cache<u64, Shared<String>, StdHasher, PageRules, E>;

/// An empty cache of pages, at most a mebibyte in total.
fn make_pages<E: Env + Drop>(alloc: Global, env: E) -> Result<Pages<E>, BuildError> {
    CacheBuilder::new(1 << 20)
        .weigher(WeighBytes)
        .build(alloc, env)
}
// end

/// A page of five bytes.
fn make_page(alloc: Global) -> Result<Shared<String>, AllocError> {
    Shared::new(alloc, String::from_str(alloc, "seven")?)
}

/// Whether a page is kept.
fn keeps<H: Wait>(rt: &H, alloc: Global, pages: &Pages<Moments>) -> bool {
    match make_page(alloc) {
        Ok(page) => pages.insert(rt, 7, page).is_ok(),
        Err(_) => false,
    }
}

/// It weighs five.
struct Weighing;

impl<H: Wait> Play<H> for Weighing {
    type Cache = Pages<Moments>;

    fn make(&self, _rt: &H, alloc: Global, moments: Moments) -> Result<Pages<Moments>, BuildError> {
        make_pages(alloc, moments)
    }

    fn plays(&self, rt: &H, stage: &Stage<Pages<Moments>>) -> bool {
        let alloc = stage.alloc;
        keeps(rt, alloc, &stage.cache)
            && stage.cache.run_pending_tasks(rt).is_ok()
            && stage.cache.weighted_size(rt) == 5
    }
}

#[test]
fn a_page_weighs_its_bytes(rt: HostRuntime) {
    assert!(rt; passes(&rt, rt.alloc(), &Weighing));
}

//! The hash of a key, by the hasher that a cache was made with.
use crate::rows::{CASE, Case, Folding, Numbers, Row, none_wrong};
use std::hash::{BuildHasher, Hash, Hasher};

fn hash_of(key: u32) -> u64 {
    let mut state = Folding::new().build_hasher();
    key.hash(&mut state);
    state.finish()
}

/// Two keys have different hashes, and a cache makes these of them.
pub fn hashes_so(cache: &Numbers) -> bool {
    let (seven, eight) = (hash_of(7), hash_of(8));
    cache.hash(&7) == seven && cache.hash(&8) == eight && seven != eight
}

const CASES: &[Case<'static>] = &[Case {
    rows: &[Row::Hashes],
    ..CASE
}];

#[test]
fn a_key_is_hashed_by_the_hasher(rt: HostRuntime) {
    none_wrong(&rt, rt.alloc(), CASES);
}

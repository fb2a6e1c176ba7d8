//! Values that are not copied.
use crate::caches::{Moments, Play, Stage, passes};
use moka_sync::{BuildError, Cache, CacheError, Env, PlainCache, Shared};
use std::alloc::{AllocError, Global};
use std::sync::{Arc, Wait};

// example: shared
/// Pictures by their number. A look-up shares a picture, and copies none of its bytes.
type Pictures<E> = PlainCache<u64, Shared<Vec<u8>>, E>;

/// Inserts a picture that others share.
fn keep<H: Wait, E: Env + Drop>(
    rt: &H,
    pictures: &Pictures<E>,
    number: u64,
    picture: Arc<Vec<u8>>,
) -> Result<(), CacheError> {
    pictures.insert(rt, number, Shared::from(picture))
}

/// A picture, behind the same `Arc` as it was inserted.
fn show<H: Wait, E: Env + Drop>(
    rt: &H,
    pictures: &Pictures<E>,
    number: u64,
) -> Result<Option<Arc<Vec<u8>>>, CacheError> {
    match pictures.get(rt, &number)? {
        Some(picture) => Ok(Some(picture.into_arc())),
        None => Ok(None),
    }
}
// end

/// A picture of three bytes.
fn make_picture(alloc: Global) -> Result<Arc<Vec<u8>>, AllocError> {
    let bytes = vec![in alloc; 1_u8, 2, 3]?;
    Ok(Arc::new(alloc, bytes)?)
}

/// Whether a picture is kept.
fn keeps<H: Wait>(rt: &H, alloc: Global, pictures: &Pictures<Moments>) -> bool {
    match make_picture(alloc) {
        Ok(picture) => keep(rt, pictures, 7, picture).is_ok(),
        Err(_) => false,
    }
}

/// Whether one of three bytes is shown.
fn shows<H: Wait>(rt: &H, pictures: &Pictures<Moments>) -> bool {
    match show(rt, pictures, 7) {
        Ok(Some(picture)) => picture.len() == 3,
        _ => false,
    }
}

struct Sharing;

impl<H: Wait> Play<H> for Sharing {
    type Cache = Pictures<Moments>;

    fn make(
        &self,
        _rt: &H,
        alloc: Global,
        moments: Moments,
    ) -> Result<Pictures<Moments>, BuildError> {
        Cache::new(alloc, 100, moments)
    }

    fn plays(&self, rt: &H, stage: &Stage<Pictures<Moments>>) -> bool {
        let alloc = stage.alloc;
        keeps(rt, alloc, &stage.cache) && shows(rt, &stage.cache)
    }
}

#[test]
fn a_picture_is_shared(rt: HostRuntime) {
    assert!(rt; passes(&rt, rt.alloc(), &Sharing));
}

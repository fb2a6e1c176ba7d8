//! Values that take memory.
use crate::caches::{Moments, Play, Stage, passes};
use moka_sync::{BuildError, Cache, CacheError, Env, PlainCache, Shared};
use std::alloc::{AllocError, Global};
use std::sync::Wait;

// example: get_with_alloc
/// Texts by their number.
type Texts<E> = PlainCache<u64, Shared<String>, E>;

/// The text of a number, written once for all threads that ask for it at the same time.
fn text<H: Wait, E: Env + Drop>(
    rt: &H,
    alloc: Global,
    texts: &Texts<E>,
    number: u64,
) -> Result<Shared<String>, CacheError> {
    texts.get_with_alloc(rt, number, || {
        Shared::new(alloc, format!(in alloc; "number {number}")?)
    })
}
// end

/// Whether a text is written.
fn is_written<H: Wait>(rt: &H, alloc: Global, texts: &Texts<Moments>) -> bool {
    match text(rt, alloc, texts, 7) {
        Ok(text) => text.as_str() == "number 7",
        Err(_) => false,
    }
}

fn refuse() -> Result<Shared<String>, AllocError> {
    Err(AllocError)
}

/// Whether a closure's refusal is returned as such.
fn is_refused<H: Wait>(rt: &H, texts: &Texts<Moments>) -> bool {
    match texts.get_with_alloc(rt, 7, refuse) {
        Ok(_) => false,
        Err(error) => error == CacheError::OutOfMemory,
    }
}

/// Whether there is a text.
fn has_text<H: Wait>(rt: &H, texts: &Texts<Moments>) -> bool {
    texts.contains_key(rt, &7)
}

/// A text is refused, which leaves nothing, then written.
struct Writing;

impl<H: Wait> Play<H> for Writing {
    type Cache = Texts<Moments>;

    fn make(&self, _rt: &H, alloc: Global, moments: Moments) -> Result<Texts<Moments>, BuildError> {
        Cache::new(alloc, 100, moments)
    }

    fn plays(&self, rt: &H, stage: &Stage<Texts<Moments>>) -> bool {
        let alloc = stage.alloc;
        is_refused(rt, &stage.cache)
            && !has_text(rt, &stage.cache)
            && is_written(rt, alloc, &stage.cache)
            && has_text(rt, &stage.cache)
    }
}

#[test]
fn refused_then_written(rt: HostRuntime) {
    assert!(rt; passes(&rt, rt.alloc(), &Writing));
}

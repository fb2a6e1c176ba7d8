//! A value whose clones are refused.
ghost use Rattle.std.specs.Prelude.{◌≡◌};

use crate::caches::{
    LIFE, Moments, Stage, Visible, begin_turn, come_later, is_awaited, make_dialed, stage_of,
};
use crate::forms::Form;
use moka_sync::{
    Build, BuildError, CacheBuilder, CacheError, Dial, PlainRules, SharedCache, StdHasher,
};
use std::alloc::{AllocError, Global};
use std::sync::{Arc, Wait};
use std::thread;
use std::thread::Threads;
use std::time::Duration;

/// A number. The clones of 1 are refused.
#[derive(Drop)]
struct Fussy(u64);

impl Clone for Fussy {
    ghost is_clone = { λ old made. made ≡ old };

    fn clone(&self) -> Result<Self, AllocError> {
        if self.0 == 1 {
            Err(AllocError)
        } else {
            Ok(Fussy(self.0))
        }
    }
}

/// A cache of such numbers, in a form.
type FussiesBy<C> = SharedCache<u64, Fussy, StdHasher, PlainRules, Moments, C>;

/// One of any form.
trait Fussies: Visible {
    /// `get_with` of key 0.
    fn make<H: Wait, M: FnOnce() -> Fussy + Drop>(
        &self,
        rt: &H,
        make: M,
    ) -> Result<Fussy, CacheError>
        requires { M.IsAlwaysCallable make };

    /// Whether 3 is written under key 0.
    fn puts<H: Wait>(&self, rt: &H) -> bool;
}

impl<C: Drop> Visible for FussiesBy<C> {
    fn find<H: Wait>(&self, rt: &H, key: u64) -> Result<Option<u64>, CacheError> {
        match self.get(rt, &key) {
            Ok(Some(fussy)) => Ok(Some(fussy.0)),
            Ok(None) => Ok(None),
            Err(refused) => Err(refused),
        }
    }

    fn has<H: Wait>(&self, rt: &H, key: u64) -> bool {
        self.contains_key(rt, &key)
    }
}

impl<C: Drop> Fussies for FussiesBy<C> {
    fn make<H: Wait, M: FnOnce() -> Fussy + Drop>(
        &self,
        rt: &H,
        make: M,
    ) -> Result<Fussy, CacheError> {
        self.get_with(rt, 0, make)
    }

    fn puts<H: Wait>(&self, rt: &H) -> bool {
        self.insert(rt, 0, Fussy(3)).is_ok() || self.insert(rt, 0, Fussy(3)).is_ok()
    }
}

/// 1, once another caller waits, or else 0.
fn make_one<H: Wait, T: Fussies>(rt: &H, fussies: &Stage<T>) -> Fussy {
    let is_written = fussies.cache.puts(rt);
    if is_awaited(rt, fussies, 0) && is_written {
        Fussy(1)
    } else {
        Fussy(0)
    }
}

/// Whether a call that leads, and makes its value once another waits, is refused.
fn is_refused<H: Wait, T: Fussies>(rt: &H, fussies: &Stage<T>) -> bool {
    match fussies.cache.make(rt, || make_one(rt, fussies)) {
        Ok(_) => false,
        Err(error) => error == CacheError::OutOfMemory,
    }
}

fn two() -> Fussy {
    Fussy(2)
}

/// Whether a call that waits makes the value.
fn is_made<H: Wait, T: Fussies>(rt: &H, fussies: &Stage<T>, turn: u64) -> bool {
    if !come_later(rt, fussies, turn) {
        return false;
    }
    match fussies.cache.make(rt, two) {
        Ok(made) => made.0 == 2,
        Err(_) => false,
    }
}

/// Whether the leader is refused, and who waited makes the value.
fn next_leads<R: Threads + Wait + Sync, T: Fussies + Sync>(rt: &R, fussies: &Stage<T>) -> bool {
    let turn = begin_turn(fussies);
    let (is_refused, is_made) = thread::join(
        rt,
        || is_refused(rt, fussies),
        || is_made(rt, fussies, turn),
    );
    is_refused && is_made
}

/// The same on a cache, if one was made.
fn next_leads_on<R: Threads + Wait + Sync, T: Fussies + Sync>(
    rt: &R,
    alloc: Global,
    dial: Arc<Dial>,
    cache: Result<T, BuildError>,
) -> bool {
    match cache {
        Ok(cache) => next_leads(rt, &stage_of(alloc, cache, dial)),
        Err(_) => false,
    }
}

/// The same on one of such numbers. (That they are fussy is proved here, once for all forms.)
fn next_leads_among<R: Threads + Wait + Sync, C: Drop + Send + Sync>(
    rt: &R,
    alloc: Global,
    dial: Arc<Dial>,
    cache: Result<FussiesBy<C>, BuildError>,
) -> bool {
    next_leads_on(rt, alloc, dial, cache)
}

/// The same of a new cache of a form, with the moments of a dial.
fn next_leads_by<R: Threads + Wait + Sync>(
    rt: &R,
    alloc: Global,
    form: Form,
    dial: Arc<Dial>,
    moments: Moments,
) -> bool {
    let builder = CacheBuilder::new(10).time_to_live(Duration::from_secs(LIFE));
    match form {
        Form::One => next_leads_among(rt, alloc, dial, builder.build(alloc, moments)),
        Form::Segments => next_leads_among(
            rt,
            alloc,
            dial,
            builder.segments(4).build(alloc, moments),
        ),
        Form::Shards => next_leads_among(rt, alloc, dial, builder.shards(4).build(alloc, moments)),
    }
}

/// The same, with a dial of its own.
fn next_leads_in<R: Threads + Wait + Sync>(rt: &R, alloc: Global, form: Form) -> bool {
    match make_dialed(alloc) {
        Some((dial, moments)) => next_leads_by(rt, alloc, form, dial, moments),
        None => false,
    }
}

/// The same, on the second attempt if memory is refused.
fn holds<R: Threads + Wait + Sync>(rt: &R, alloc: Global, form: Form) -> bool {
    next_leads_in(rt, alloc, form) || next_leads_in(rt, alloc, form)
}

/// The same of each form.
fn all_hold<R: Threads + Wait + Sync>(rt: &R, alloc: Global) -> bool {
    holds(rt, alloc, Form::One)
        && holds(rt, alloc, Form::Segments)
        && holds(rt, alloc, Form::Shards)
}

#[test]
fn refused_leader_gives_its_turn_up(rt: HostRuntime) {
    assert!(rt; all_hold(&rt, rt.alloc()));
}

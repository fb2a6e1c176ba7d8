//! Four threads resolve four names.
use crate::caches::{Moments, make_moments};
use crate::crowds::each_says_yes;
use crate::resolver::{Resolver, Unresolved, Upstream};
use moka_sync::{BuildError, CacheError};
use std::alloc::Global;
use std::sync::atomic::{AtomicU64, Ordering};
use std::sync::{Arc, Wait};
use std::thread;
use std::thread::Threads;
use std::time::Duration;

/// Names of three letters have an address; each question is counted, and takes a while.
#[derive(Drop)]
struct Slow {
    questions: AtomicU64,
}

impl Upstream for Slow {
    fn ask(&self, name: &str) -> Result<u32, Unresolved> {
        self.questions.fetch_add(1, Ordering::SeqCst);
        for _ in 0..100u32 {
            thread::yield_now();
        }
        if name.len() == 3 {
            Ok(3)
        } else {
            Err(Unresolved)
        }
    }
}

/// What resolves names.
trait Resolves {
    /// The address of a name.
    fn ask<H: Wait>(&self, rt: &H, name: &str) -> Result<Result<u32, Arc<Unresolved>>, CacheError>;

    /// How often the upstream was asked.
    fn questions(&self) -> u64;
}

impl Resolves for Resolver<Slow, Moments> {
    fn ask<H: Wait>(&self, rt: &H, name: &str) -> Result<Result<u32, Arc<Unresolved>>, CacheError> {
        self.resolve(rt, name)
    }

    fn questions(&self) -> u64 {
        self.upstream.questions.load(Ordering::SeqCst)
    }
}

/// Whether a name gets this address, or has none.
fn is_resolved<H: Wait, N: Resolves>(rt: &H, names: &N, name: &str, address: Option<u32>) -> bool {
    match names.ask(rt, name) {
        Ok(Ok(found)) => address == Some(found),
        Ok(Err(fault)) => address.is_none() && *fault == Unresolved,
        Err(_) => false,
    }
}

/// Whether all names of one thread get their addresses.
fn are_resolved<H: Wait, N: Resolves>(rt: &H, names: &N) -> bool {
    for name in ["one", "two", "six", "ten"] {
        if !is_resolved(rt, names, name, Some(3)) {
            return false;
        }
    }
    true
}

/// Whether four threads resolve the same names.
fn all_resolve<R: Threads + Wait + Sync, N: Resolves + Sync>(
    rt: &R,
    alloc: Global,
    names: &N,
) -> bool {
    each_says_yes(thread::map_indices(rt, alloc, 4, &|_: usize| are_resolved(rt, names)))
}

/// Four threads resolve the same names, and each is requested once; a name that has no address is requested each time.
fn asks_once<R: Threads + Wait + Sync, N: Resolves + Sync>(
    rt: &R,
    alloc: Global,
    names: &N,
) -> bool {
    all_resolve(rt, alloc, names)
        && names.questions() == 4
        && is_resolved(rt, names, "three", None)
        && is_resolved(rt, names, "three", None)
        && names.questions() == 6
}

/// The same of a resolver, if it could be made.
fn asks_once_if_made<R: Threads + Wait + Sync, N: Resolves + Sync + Drop>(
    rt: &R,
    alloc: Global,
    made: Result<N, BuildError>,
) -> bool {
    match made {
        Ok(names) => asks_once(rt, alloc, &names),
        Err(_) => false,
    }
}

/// A new resolver, with moments that are all 0.
fn make_resolver(alloc: Global) -> Result<Resolver<Slow, Moments>, BuildError> {
    let questions = AtomicU64::new(0);
    match make_moments(alloc) {
        Some(moments) => Resolver::new(
            alloc,
            100,
            Duration::from_secs(60),
            Slow { questions },
            moments,
        ),
        None => Err(BuildError::OutOfMemory),
    }
}

/// Whether each name is asked for once by a new resolver.
fn asks_once_anew<R: Threads + Wait + Sync>(rt: &R, alloc: Global) -> bool {
    asks_once_if_made(rt, alloc, make_resolver(alloc))
}

#[test]
fn each_name_is_asked_for_once(rt: HostRuntime) {
    assert!(rt; asks_once_anew(&rt, rt.alloc()) || asks_once_anew(&rt, rt.alloc()));
}

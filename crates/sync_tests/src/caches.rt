//! The tests' caches, how one is played with, and what their threads wait for.
use moka_sync::{BuildError, CacheError, Dial, DialEnv, SharedCache, Single, StdHasher};
use rand_core::SeedableRng;
use rand_xoshiro::Xoshiro256PlusPlus;
use std::alloc::Global;
use std::sync::atomic::{AtomicU64, Ordering};
use std::sync::{Arc, Wait};
use std::thread;

/// What gives moments and random words.
pub type Moments = DialEnv<Xoshiro256PlusPlus>;

/// A cache of numbers under numbers, by any rules.
pub type NumbersBy<R, C = Single> = SharedCache<u64, u64, StdHasher, R, Moments, C>;

/// How often a thread looks before its row fails.
const LOOKS: u64 = 20_000_000;

/// How many seconds values live on a stage where callers wait for turns.
pub const LIFE: u64 = 10;

/// How much later than the leader's call that of a caller who waits for its turn comes, in nanoseconds: twice that life.
const LATER: u64 = 20_000_000_000;

/// A cache with the dial that gives it its moments, and how many closures ran.
#[derive(Drop)]
pub struct Stage<T> {
    pub cache: T,
    pub dial: Arc<Dial>,
    pub runs: AtomicU64,
    pub alloc: Global,
}

/// What a thread that waits sees of a cache.
pub trait Visible: Drop {
    /// `get`.
    fn find<H: Wait>(&self, rt: &H, key: u64) -> Result<Option<u64>, CacheError>;

    /// `contains_key`.
    fn has<H: Wait>(&self, rt: &H, key: u64) -> bool;
}

/// What a test of one thread does with a new cache of a type of its own.
pub trait Play<H> {
    /// The cache, or what holds it.
    type Cache: Drop;

    /// Makes one with these moments.
    fn make(&self, rt: &H, alloc: Global, moments: Moments) -> Result<Self::Cache, BuildError>;

    /// Whether it does all that it should.
    fn plays(&self, rt: &H, stage: &Stage<Self::Cache>) -> bool;
}

/// A dial at moment 0.
pub fn make_dial(alloc: Global) -> Option<Arc<Dial>> {
    Arc::new(alloc, Dial::new()).ok()
}

/// What gives the moments that a dial shows.
fn moments_of(dial: &Arc<Dial>) -> Option<Moments> {
    match Arc::try_clone(dial) {
        Ok(dial) => Some(DialEnv::new(dial, Xoshiro256PlusPlus::seed_from_u64(1))),
        Err(_) => None,
    }
}

/// A dial, and what gives the moments that it shows.
fn with_moments(dial: Arc<Dial>) -> Option<(Arc<Dial>, Moments)> {
    match moments_of(&dial) {
        Some(moments) => Some((dial, moments)),
        None => None,
    }
}

/// The same of a dial at moment 0.
pub fn make_dialed(alloc: Global) -> Option<(Arc<Dial>, Moments)> {
    match make_dial(alloc) {
        Some(dial) => with_moments(dial),
        None => None,
    }
}

/// What gives moments that are all 0.
pub fn make_moments(alloc: Global) -> Option<Moments> {
    match make_dial(alloc) {
        Some(dial) => moments_of(&dial),
        None => None,
    }
}

/// A cache and its dial, before any closure ran.
pub fn stage_of<T: Drop>(alloc: Global, cache: T, dial: Arc<Dial>) -> Stage<T> {
    Stage {
        cache,
        dial,
        runs: AtomicU64::new(0),
        alloc,
    }
}

/// Whether a play comes out so on a new cache with a dial and its moments.
fn passes_with<H, P: Play<H>>(
    rt: &H,
    alloc: Global,
    play: &P,
    dial: Arc<Dial>,
    moments: Moments,
) -> bool {
    match play.make(rt, alloc, moments) {
        Ok(cache) => play.plays(rt, &stage_of(alloc, cache, dial)),
        Err(_) => false,
    }
}

/// Whether a play comes out so on a new cache.
fn passes_at_once<H, P: Play<H>>(rt: &H, alloc: Global, play: &P) -> bool {
    match make_dialed(alloc) {
        Some((dial, moments)) => passes_with(rt, alloc, play, dial, moments),
        None => false,
    }
}

/// The same, on the second attempt if memory is refused: it has another new cache.
pub fn passes<H, P: Play<H>>(rt: &H, alloc: Global, play: &P) -> bool {
    passes_at_once(rt, alloc, play) || passes_at_once(rt, alloc, play)
}

/// What a thread waits for.
#[derive(Clone, Copy)]
pub enum Sign {
    /// The dial was read this often.
    Read(u64),
    /// This many closures ran or run.
    Ran(u64),
    /// A key has no visible value.
    Gone(u64),
    /// A key has this value.
    Has(u64, u64),
}

/// Whether it is so.
fn has_come<H: Wait, T: Visible>(rt: &H, stage: &Stage<T>, sign: Sign) -> bool {
    match sign {
        Sign::Read(readings) => readings <= stage.dial.readings(),
        Sign::Ran(count) => count <= stage.runs.load(Ordering::SeqCst),
        Sign::Gone(key) => !stage.cache.has(rt, key),
        Sign::Has(key, value) => stage.cache.find(rt, key) == Ok(Some(value)),
    }
}

/// Waits until it is so. False if it never is.
pub fn wait_for<H: Wait, T: Visible>(rt: &H, stage: &Stage<T>, sign: Sign) -> bool {
    for _ in 0..LOOKS {
        if has_come(rt, stage, sign) {
            return true;
        }
        thread::yield_now();
    }
    false
}

/// The moment at which the leader of a turn calls, if so many turns were led before.
fn moment_of(turn: u64) -> u64 {
    turn.saturating_mul(2).saturating_mul(LATER)
}

/// From here on it is the moment of the leader of the turn that is led next. Returns how many were led before.
pub fn begin_turn<T>(stage: &Stage<T>) -> u64 {
    let turn = stage.runs.load(Ordering::SeqCst);
    stage.dial.set(moment_of(turn));
    turn
}

/// Waits until the closure of this turn runs, and moves the dial to the moment of the call that is to wait for the turn.
pub fn come_later<H: Wait, T: Visible>(rt: &H, stage: &Stage<T>, turn: u64) -> bool {
    let is_led = wait_for(rt, stage, Sign::Ran(turn.saturating_add(1)));
    stage.dial.set(moment_of(turn).saturating_add(LATER));
    is_led
}

/// Waits, in the closure of a turn, until another caller waits for it. That caller has its moment once the dial was read again. Then the
/// dial goes back, and a key's value that the closure wrote before is there until the other call has held the lock, after which it has
/// expired: a call never comes before the last one.
pub fn is_awaited<H: Wait, T: Visible>(rt: &H, stage: &Stage<T>, key: u64) -> bool {
    let readings = stage.dial.readings().saturating_add(1);
    let turn = stage.runs.fetch_add(1, Ordering::SeqCst);
    let is_read = wait_for(rt, stage, Sign::Read(readings));
    if is_read {
        stage.dial.set(moment_of(turn));
    }
    is_read && wait_for(rt, stage, Sign::Gone(key))
}

//! The lock.
ghost use Rattle.std.specs.Prelude.{◌≡◌, true};
ghost use Rattle.std.specs.Sync.Mutex.{mutex_guard_value};

use engine_reference::Rules;
use front_state::{LentState, Single};
use moka::Instant;
use std::alloc::Global;
use std::hash::{BuildHasher, Hash};
use std::hint::spin_loop;
use std::sync::{Condvar, Mutex, MutexGuard, Wait};
use sync_desk::{Desk, Env, Watch};

/// How often the lock is tried before a caller sleeps until it is free.
const TRIES: u32 = 24;

/// The longest pause between two tries, in turns of a loop of some 7 ns each.
const LONGEST_PAUSE: u32 = 32;

/// Lets so many turns pass.
fn pause(turns: u32) {
    for _ in 0..turns {
        spin_loop();
    }
}

/// Waits forever.
#[cold]
fn wait_forever<H: Wait, T>(rt: &H) -> T
    ensures { ⊥ }
{
    for _ in rt.forever() {}
    unreachable!()
}

/// What threads share of a cache: a desk under one lock, what reads the moments of calls beside the lock, and a condition variable that
/// signals that a turn ended. Whenever the lock is taken, what the lock guards keeps what a lent cache keeps between calls.
#[derive(Drop)]
pub struct SharedDesk<K: Eq + Hash, V, S: BuildHasher, R: Rules<K, V>, E: Env, C = Single> {
    pub(crate) alloc: Global,
    watch: E::Watch,
    // Whether a value may expire, so that each call has to have a moment of its own.
    is_timed: bool,
    // The number of the desk.
    number: usize,
    desk: Mutex<Desk<K, V, S, R, E::Generator, C>>,
    pub(crate) changed: Condvar,
}

impl<
    K: Eq + Hash + Drop,
    V: Clone + Drop,
    S: BuildHasher + Drop,
    R: Rules<K, V> + Drop,
    E: Env + Drop,
    C: Drop,
> SharedDesk<K, V, S, R, E, C> {
    /// Shares a lent cache, of which no turn is under way, with the environment that gives the cache its moments and random words. Its
    /// number is 0, and each call has a moment of its own.
    pub fn new(alloc: Global, state: LentState<K, V, S, R, C>, env: E) -> Self
        ensures number { result.number ≡ 0 }
        ensures timed { result.is_timed ≡ true }
    {
        SharedDesk::numbered(alloc, state, env, true, 0)
    }

    /// Shares a lent cache under a number. Unless it is timed, none of its values may expire, and then most calls read no moment (`lock`).
    pub(crate) fn numbered(
        alloc: Global,
        state: LentState<K, V, S, R, C>,
        env: E,
        is_timed: bool,
        number: usize,
    ) -> Self
        ensures number { result.number ≡ number }
        ensures timed { result.is_timed ≡ is_timed }
    {
        let (watch, generator) = env.split();
        let desk = Desk::new(alloc, state, generator).numbered(number);
        SharedDesk {
            alloc,
            watch,
            is_timed,
            number,
            desk: Mutex::new(desk),
            changed: Condvar::new(),
        }
    }

    /// The moment, which is read without the lock.
    pub(crate) fn moment(&self) -> Instant {
        self.watch.now()
    }

    /// Takes the lock, whatever it guards, that another caller has.
    #[cold]
    fn take_after_another<H: Wait>(
        &self,
        rt: &H,
    ) -> MutexGuard<'_, Desk<K, V, S, R, E::Generator, C>> {
        let mut turns = 1u32;
        for _ in 1..TRIES {
            pause(turns);
            if let Some(guard) = self.desk.try_lock() {
                return guard;
            }
            turns = turns.saturating_mul(2).min(LONGEST_PAUSE);
        }
        self.desk.lock(rt)
    }

    /// Takes the lock, whatever it guards.
    #[inline]
    fn take<H: Wait>(&self, rt: &H) -> MutexGuard<'_, Desk<K, V, S, R, E::Generator, C>> {
        match self.desk.try_lock() {
            Some(guard) => guard,
            None => self.take_after_another(rt),
        }
    }

    /// A guard of this desk. (No clause tells what a lock guards, so the desk's number does.)
    #[inline]
    pub(crate) fn own<'a, H: Wait>(
        &self,
        rt: &H,
        guard: MutexGuard<'a, Desk<K, V, S, R, E::Generator, C>>,
    ) -> MutexGuard<'a, Desk<K, V, S, R, E::Generator, C>>
        ensures { (mutex_guard_value result).number ≡ self.now.number }
    {
        if guard.number() == self.number {
            return guard;
        }
        wait_forever(rt)
    }

    /// Takes the lock for what has no moment.
    #[inline]
    pub(crate) fn lock_untimed<H: Wait>(
        &self,
        rt: &H,
    ) -> MutexGuard<'_, Desk<K, V, S, R, E::Generator, C>>
        ensures { (mutex_guard_value result).number ≡ self.now.number }
    {
        let guard = self.take(rt);
        self.own(rt, guard)
    }

    /// Takes the lock for calls at a moment that was read before.
    pub(crate) fn lock_at<H: Wait>(
        &self,
        rt: &H,
        moment: Instant,
    ) -> MutexGuard<'_, Desk<K, V, S, R, E::Generator, C>>
        ensures number { (mutex_guard_value result).number ≡ self.now.number }
        ensures moment { (mutex_guard_value result).moment ≡ moment }
    {
        let mut guard = self.lock_untimed(rt);
        let desk = &mut *guard;
        desk.at(moment);
        guard
    }

    /// Reads the moment, and then takes the lock, for calls of that moment.
    pub(crate) fn lock_now<H: Wait>(
        &self,
        rt: &H,
    ) -> MutexGuard<'_, Desk<K, V, S, R, E::Generator, C>>
        ensures { (mutex_guard_value result).number ≡ self.now.number }
    {
        let moment = self.moment();
        self.lock_at(rt, moment)
    }

    /// Takes the lock for calls none of whose values expires. Only each 64th of them has a moment of its own, so that maintenance is due by
    /// time.
    fn lock_seldom_timed<H: Wait>(
        &self,
        rt: &H,
    ) -> MutexGuard<'_, Desk<K, V, S, R, E::Generator, C>>
        ensures { (mutex_guard_value result).number ≡ self.now.number }
    {
        let mut guard = self.lock_untimed(rt);
        let desk = &mut *guard;
        if desk.is_at_64th_step() {
            desk.at(self.moment());
        }
        guard
    }

    /// Reads the moment, and then takes the lock, which is released when the guard is dropped. The calls of one hold have the same moment.
    /// Where no value may expire, only each 64th call reads the moment; the others come at the last one. The call may wait for the lock:
    /// the lock is tried for some 5 microseconds, with pauses of 1, 2, 4 .. 32 turns between, before the caller sleeps until it is free.
    pub fn lock<H: Wait>(&self, rt: &H) -> MutexGuard<'_, Desk<K, V, S, R, E::Generator, C>>
        ensures { (mutex_guard_value result).number ≡ self.now.number }
    {
        if self.is_timed {
            return self.lock_now(rt);
        }
        self.lock_seldom_timed(rt)
    }
}

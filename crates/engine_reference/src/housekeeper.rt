//! When the maintenance of a cache is due, and running it.
ghost use Rattle.std.specs.Prelude.{◌≡◌, ◌≤◌, ℕ, true};
ghost use Rattle.engine_reference.specs.Housekeeper.Waiting.{due_after, is_wanted};

use policy_base::{HousekeeperConfig, Instant, MAX_NANOS};

/// How long after a run the next one is due, in nanoseconds.
const RUN_INTERVAL: u64 = 300_000_000;

/// How many reads, or how many writes, may wait before a run is due.
const FLUSH_POINT: usize = 64;

/// A cache whose maintenance a housekeeper runs.
pub trait InnerSync {
    /// What a run at a moment does to the cache.
    ghost housekept: { ℕ → Self → Self → Type 0 };

    /// Runs maintenance to its end.
    fn run_pending_tasks(&mut self, now: Instant)
        ensures { housekept now self.old self.new };
}

/// Decides when the maintenance of a cache is due, and runs it. Moments are arguments, and the cache has one owner. So each run goes to its
/// end, and no time limit, repeat or batch of the configuration cuts it short.
#[derive(Clone, Copy, Debug, PartialEq, Eq)]
pub struct Housekeeper {
    config: HousekeeperConfig,
    due: u64,
    ghost in_range: { due ≤ 18446744073709551614 },
}

impl Housekeeper {
    /// Creates the housekeeper of a cache that was created at this moment.
    pub fn new(config: HousekeeperConfig, now: Instant) -> Self
        ensures config { result.config ≡ config }
        ensures due { result.due ≡ due_after now }
    {
        Housekeeper {
            config,
            due: after(now),
        }
    }

    /// Returns the configuration.
    pub fn config(&self) -> HousekeeperConfig
        ensures { result ≡ self.now.config }
    {
        self.config
    }

    /// Returns whether a run is due if this many reads wait: 64 or more, or the moment has come at which the next run is due.
    pub fn should_apply_reads(&self, waiting: usize, now: Instant) -> bool
        ensures { result ≡ is_wanted waiting self.now.due now }
    {
        self.should_apply(waiting, now)
    }

    /// Returns whether a run is due if this many writes wait: 64 or more, or the moment has come at which the next run is due.
    pub fn should_apply_writes(&self, waiting: usize, now: Instant) -> bool
        ensures { result ≡ is_wanted waiting self.now.due now }
    {
        self.should_apply(waiting, now)
    }

    fn should_apply(&self, waiting: usize, now: Instant) -> bool
        ensures { result ≡ is_wanted waiting self.now.due now }
    {
        FLUSH_POINT <= waiting || self.due <= now.as_nanos()
    }

    /// Runs the maintenance of the cache. The next run is due 300 milliseconds later, or when 64 operations wait.
    pub fn run_pending_tasks<T: InnerSync>(&mut self, cache: &mut T, now: Instant)
        ensures run { T.housekept now cache.old cache.new }
        ensures due { self.new.due ≡ due_after now }
        ensures config { self.new.config ≡ self.old.config }
    {
        self.due = after(now);
        cache.run_pending_tasks(now);
    }

    /// Does what `run_pending_tasks` does, and returns true, since no other owner runs maintenance in the meantime.
    pub fn try_run_pending_tasks<T: InnerSync>(&mut self, cache: &mut T, now: Instant) -> bool
        ensures yes { result ≡ true }
        ensures run { T.housekept now cache.old cache.new }
        ensures due { self.new.due ≡ due_after now }
        ensures config { self.new.config ≡ self.old.config }
    {
        self.run_pending_tasks(cache, now);
        true
    }
}

/// The moment from which the next run is due by the time passed since this one.
fn after(now: Instant) -> u64
    ensures { result ≡ due_after now }
{
    now.as_nanos().saturating_add(RUN_INTERVAL).min(MAX_NANOS)
}

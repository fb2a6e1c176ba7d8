//! The settings of a cache, and what it shows of them.
ghost use Rattle.std.specs.Prelude.{◌≡◌, Some, None};

use std::time::Duration;

/// Which entries a cache evicts if it is too heavy.
#[derive(Clone, Copy, Debug, PartialEq, Eq)]
pub enum EvictionPolicy {
    /// A new entry is admitted if it was requested more often than all those that would be evicted for it; otherwise it is refused.
    TinyLfu,
    /// The least recently used entries are evicted.
    Lru,
}

impl EvictionPolicy {
    /// Returns the policy that evicts by how often and how recently entries are used, which is the default.
    pub fn tiny_lfu() -> Self
        ensures { result ≡ EvictionPolicy.TinyLfu }
    {
        EvictionPolicy::TinyLfu
    }

    /// Returns the policy that evicts by how recently entries are used.
    pub fn lru() -> Self
        ensures { result ≡ EvictionPolicy.Lru }
    {
        EvictionPolicy::Lru
    }
}

impl Default for EvictionPolicy {
    ghost use Rattle.std.specs.Prelude.{◌≡◌};
    ghost use Rattle.engine_reference.specs.declared.rules.settings.EvictionPolicy.TheVariants.{TinyLfu};

    ghost is_default = { λ policy. policy ≡ TinyLfu };

    fn default() -> Self {
        EvictionPolicy::TinyLfu
    }
}

/// How long values live, apart from their own expirations.
#[derive(Clone, Copy, Debug, PartialEq, Eq)]
pub struct ExpirationPolicy {
    time_to_live: Option<Duration>,
    time_to_idle: Option<Duration>,
}

impl ExpirationPolicy {
    /// Returns how long a value lives after it was written, or `None` without a limit.
    pub fn time_to_live(&self) -> Option<Duration>
        ensures { result ≡ self.now.time_to_live }
    {
        self.time_to_live
    }

    /// Returns how long a value lives after its last use, or `None` without a limit.
    pub fn time_to_idle(&self) -> Option<Duration>
        ensures { result ≡ self.now.time_to_idle }
    {
        self.time_to_idle
    }

    /// Sets how long a value lives after it was written.
    pub fn set_time_to_live(&mut self, time: Duration)
        ensures { self.new ≡ record self.old { time_to_live = Some time } }
    {
        self.time_to_live = Some(time);
    }

    /// Sets how long a value lives after its last use.
    pub fn set_time_to_idle(&mut self, time: Duration)
        ensures { self.new ≡ record self.old { time_to_idle = Some time } }
    {
        self.time_to_idle = Some(time);
    }
}

impl Default for ExpirationPolicy {
    ghost is_default = { λ policy. policy ≡ record { time_to_live = None; time_to_idle = None } };

    /// Values live until they are removed.
    fn default() -> Self {
        ExpirationPolicy {
            time_to_live: None,
            time_to_idle: None,
        }
    }
}

/// What a cache shows of its settings.
#[derive(Clone, Copy, Debug, PartialEq, Eq)]
pub struct Policy {
    max_capacity: Option<u64>,
    num_segments: usize,
    time_to_live: Option<Duration>,
    time_to_idle: Option<Duration>,
}

impl Policy {
    /// Creates what a cache shows of these settings.
    pub fn new(
        max_capacity: Option<u64>,
        num_segments: usize,
        time_to_live: Option<Duration>,
        time_to_idle: Option<Duration>,
    ) -> Self
        ensures { result ≡ record {
          max_capacity = max_capacity;
          num_segments = num_segments;
          time_to_live = time_to_live;
          time_to_idle = time_to_idle;
        } }
    {
        Policy {
            max_capacity,
            num_segments,
            time_to_live,
            time_to_idle,
        }
    }

    /// Returns the maximum weight of the cache, or `None` without a limit.
    pub fn max_capacity(&self) -> Option<u64>
        ensures { result ≡ self.now.max_capacity }
    {
        self.max_capacity
    }

    /// Returns the number of parts. (`moka` calls a part a segment.)
    pub fn num_segments(&self) -> usize
        ensures { result ≡ self.now.num_segments }
    {
        self.num_segments
    }

    /// Returns how long a value lives after it was written, or `None` without a limit.
    pub fn time_to_live(&self) -> Option<Duration>
        ensures { result ≡ self.now.time_to_live }
    {
        self.time_to_live
    }

    /// Returns how long a value lives after its last use, or `None` without a limit.
    pub fn time_to_idle(&self) -> Option<Duration>
        ensures { result ≡ self.now.time_to_idle }
    {
        self.time_to_idle
    }
}

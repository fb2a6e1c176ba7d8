//! Names of queues and of their nodes.
ghost use Rattle.std.specs.Prelude.{◌≡◌, ◌≤◌, ℕ, ◌↔◌, IsTrue, codes};
ghost use Rattle.policy_base.specs.Region.{region_code, name_of, same_id};

/// The queue of a cache in which a node is.
#[derive(Clone, Copy, Debug, PartialEq, Eq)]
pub enum CacheRegion {
    /// The window before the main space.
    Window,
    /// The part of the main space for entries on probation.
    MainProbation,
    /// The part of the main space for protected entries.
    MainProtected,
    /// None of these: the queue in order of writes, or the timers.
    Other,
}

impl CacheRegion {
    /// Returns the region with a number from 0 to 3: `Window`, `MainProbation`, `MainProtected`, `Other`.
    pub fn from_number(number: usize) -> Self
        requires { number ≤ 3 }
        ensures { region_code result ≡ number }
    {
        match number {
            0 => CacheRegion::Window,
            1 => CacheRegion::MainProbation,
            2 => CacheRegion::MainProtected,
            _ => CacheRegion::Other,
        }
    }

    /// Returns the region's number, from 0 to 3 in the order of the variants.
    pub fn number(self) -> usize
        ensures { result ≡ region_code self }
    {
        match self {
            CacheRegion::Window => 0,
            CacheRegion::MainProbation => 1,
            CacheRegion::MainProtected => 2,
            CacheRegion::Other => 3,
        }
    }

    /// Returns whether this is the region with the number. No region has a number above 3.
    pub fn is_number(self, number: usize) -> bool
        ensures { IsTrue result ↔ (region_code self ≡ number) }
    {
        self.number() == number
    }

    /// Returns the region's name in words, as `"main probation"`.
    pub fn name(self) -> &'static str
        ensures { result.now ≡ name_of self }
    {
        match self {
            CacheRegion::Window => "window",
            CacheRegion::MainProbation => "main probation",
            CacheRegion::MainProtected => "main protected",
            CacheRegion::Other => "other",
        }
    }
}

/// The name of a node or of a timer: its queue, and a serial that no other node of that queue ever has. A name takes 16 bytes.
#[derive(Clone, Copy, Debug, PartialEq, Eq)]
pub struct NodeId {
    /// The number of the node among those of its queue, counted from 0 in the order in which they were created.
    pub serial: u64,
    /// Where the queue looks the node up. A node with a later serial may use it again.
    pub slot: u32,
    /// The region of the node's queue.
    pub queue: CacheRegion,
}

impl NodeId {
    /// Returns whether the two names are the same.
    pub fn is_same(self, other: NodeId) -> bool
        ensures test { result ≡ same_id self other }
        ensures same { IsTrue result ↔ (self ≡ other) }
    {
        self.serial == other.serial
            && (self.slot == other.slot && self.queue.number() == other.queue.number())
    }
}

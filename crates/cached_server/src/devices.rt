//! What a server's connections are served with.
ghost use Rattle.std.specs.Prelude.{◌≡◌, ◌≤◌, ◌⊎◌, Some, None, IfSome};
ghost use Rattle.std.specs.Arc.{arc_value};
ghost use Rattle.cached_server.specs.Loads.{listed_outcome};

use audit_model::{Outcome, Seq};
use cache_run::{Clock, Loader};
use cached_config::{HostedNamespace, Listed};
use std::alloc::Global;
use std::sync::Arc;
use std::time;
use std::time::Instant;

/// A clock that counts the nanoseconds from a start. No reading comes before an earlier one.
#[derive(Drop)]
pub struct StartClock<R: time::Clock + Copy> {
    /// The machine's clock.
    pub rt: R,
    /// The moment from which nanoseconds count.
    pub start: Instant,
    /// The latest reading, in nanoseconds.
    pub latest: u64,
}

impl<R: time::Clock + Copy> Clock for StartClock<R> {
    ghost reads = { λ c t d. (c.latest ≤ t) × (d.latest ≡ t) };

    fn now(&mut self) -> u64 {
        let passed = match self.start.elapsed(&self.rt) {
            Ok(passed) => u64::try_from(passed.as_nanos()).unwrap_or(u64::MAX),
            Err(_) => self.latest,
        };
        self.latest = passed.max(self.latest);
        self.latest
    }
}

/// A loader that finds what a configuration file lists for a namespace. Without memory the loader gives a load up.
#[derive(Drop)]
pub struct ListLoader {
    /// The allocator.
    pub alloc: Global,
    /// The namespace, with what its loads find.
    pub space: Arc<HostedNamespace>,
}

impl Loader for ListLoader {
    ghost loads = { λ c key answer d. (d ≡ c)
        × ((answer ≡ Some (listed_outcome (arc_value c.space).loads.items key))
        ⊎ (answer ≡ None)) };

    fn load(&mut self, key: &[u8]) -> Option<Outcome> {
        find_listed(self.alloc, &self.space.loads, key)
    }
}

/// The value that is listed for a key; none if there is no memory for a copy.
fn find_listed(alloc: Global, loads: &[Listed], key: &[u8]) -> Option<Outcome>
    ensures { IfSome result (λ outcome. outcome ≡ listed_outcome loads.now key.now) }
{
    for listed in loads {
        if listed.key.as_slice() == key {
            let copy = Vec::from_slice(alloc, listed.value.as_slice()).ok()?;
            return Some(Outcome::Value(Seq::from_vec(copy), None));
        }
    }
    Some(Outcome::None)
}

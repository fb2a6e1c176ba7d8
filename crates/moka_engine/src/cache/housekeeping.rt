//! Maintenance that a housekeeper runs.
ghost use Rattle.engine_reference.specs.Runs.{RunsToEnd};

use crate::cache::BaseCache;
use engine_reference::{InnerSync, Rules};
use policy_base::Instant;
use std::hash::{BuildHasher, Hash};

impl<K: Eq + Hash + Drop, V: Drop, S: BuildHasher, R: Rules<K, V>> InnerSync
    for BaseCache<K, V, S, R> {
    ghost housekept = { λ now old new. RunsToEnd R.answers now old new };

    fn run_pending_tasks(&mut self, now: Instant) {
        self.run_pending_tasks(now);
    }
}

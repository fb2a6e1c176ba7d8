//! A clock that stands still, and a loader without values.
use audit_model::Outcome;
use cache_run::{Clock, Loader};

/// A clock that stands at 0.
#[derive(Clone, Copy, Drop)]
pub struct StillClock;

impl Clock for StillClock {
    ghost use Rattle.std.specs.Prelude.{◌≡◌};

    ghost reads = { λ c t d. t ≡ 0 };

    fn now(&mut self) -> u64 {
        0
    }
}

/// A loader that finds no value.
#[derive(Clone, Copy, Drop)]
pub struct NoLoader;

impl Loader for NoLoader {
    ghost use Rattle.std.specs.Prelude.{◌≡◌, Some};
    ghost use Rattle.audit_model.specs.declared.event.Outcome.TheVariants as outcome;

    ghost loads = { λ c key answer d. answer ≡ Some outcome.None };

    fn load(&mut self, key: &[u8]) -> Option<Outcome> {
        Some(Outcome::None)
    }
}

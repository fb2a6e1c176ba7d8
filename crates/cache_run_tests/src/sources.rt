//! Clocks and loaders, called through their traits.
ghost use Rattle.std.specs.Prelude.{◌≡◌};

use audit_model::Outcome;
use cache_run::{Clock, Loader};

/// A clock that goes on by one at each reading.
#[derive(Drop)]
struct Ticking {
    nanos: u64,
}

impl Clock for Ticking {
    ghost use Rattle.std.specs.Prelude.{◌≡◌};

    ghost reads = { λ before moment after. moment ≡ before.nanos };

    fn now(&mut self) -> u64 {
        let moment = self.nanos;
        self.nanos = self.nanos.saturating_add(1);
        moment
    }
}

/// A loader that has no values, and no answer for the empty key.
#[derive(Drop)]
struct Nothing;

impl Loader for Nothing {
    ghost use Rattle.std.specs.Prelude.{◌≡◌, [], Option, None};

    ghost loads = { λ before key came after. key ≡ [] → came ≡ None };

    fn load(&mut self, key: &[u8]) -> Option<Outcome> {
        if key.is_empty() {
            None
        } else {
            Some(Outcome::None)
        }
    }
}

fn reading<C: Clock>(clock: &mut C) -> u64
    ensures { C.reads clock.old result clock.new }
{
    clock.now()
}

fn answers<L: Loader>(loader: &mut L, key: &[u8]) -> bool {
    loader.load(key).is_some()
}

/// Whether a clock that stands at 5 is read in turn.
fn is_read_in_turn() -> bool {
    let mut clock = Ticking { nanos: 5 };
    reading(&mut clock) == 5 && reading(&mut clock) == 6
}

#[test]
fn readings(rt: HostRuntime) {
    assert!(rt; is_read_in_turn());
}

/// Whether a loader answers for a key, and not for the empty one.
fn answers_by_key() -> bool {
    let mut loader = Nothing;
    answers(&mut loader, b"a") && !answers(&mut loader, b"")
}

#[test]
fn answers_of_a_loader(rt: HostRuntime) {
    assert!(rt; answers_by_key());
}

//! How keys are spread over the desks of a cache.
ghost use Rattle.std.specs.Prelude.{◌≤◌};

use front_reference::Shared;

/// How keys are spread over several desks: the upper `bits` bits of a key's hash are the number of its desk.
#[derive(Drop)]
pub(crate) struct Spread<S> {
    pub(crate) bits: u32,
    pub(crate) hasher: Shared<S>,
    ghost few: { bits ≤ 16 },
}

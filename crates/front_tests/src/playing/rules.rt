//! A predicate on values.
ghost use Rattle.std.specs.Prelude.{◌==◌, ◌||◌};

use engine_reference::Predicate;

/// Covers each entry of one of two values.
#[derive(Drop)]
pub struct IsEither(pub u64, pub u64);

impl Predicate<u64, u64> for IsEither {
    ghost covers = { λ p _ value. (value == p.0) || (value == p.1) };

    fn is_match(&self, _key: &u64, value: &u64) -> bool {
        *value == self.0 || *value == self.1
    }
}

//! The values of the rows' caches.
use std::alloc::AllocError;

/// The number of which there is no clone.
pub const NOT_CLONED: u32 = 13;

/// A number whose clone is refused if it is `NOT_CLONED`, as if memory were refused.
#[derive(Drop)]
pub struct Brittle {
    pub number: u32,
}

impl Clone for Brittle {
    ghost use Rattle.std.specs.Prelude.{◌≡◌};

    ghost is_clone = { λ x y. y ≡ x };

    fn clone(&self) -> Result<Brittle, AllocError> {
        if self.number == NOT_CLONED {
            Err(AllocError)
        } else {
            Ok(Brittle {
                number: self.number,
            })
        }
    }
}

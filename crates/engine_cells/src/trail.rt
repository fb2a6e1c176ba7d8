//! What only contracts remember.
ghost use Rattle.std.specs.Prelude.{◌≡◌, List, [], ◌∷◌, ◌++◌};
ghost use Rattle.std.specs.Borrow.{ftrue};

use std::marker::{Model, PhantomData};

/// A list of pairs that only contracts read, as `items`. It takes no memory, and its methods do nothing at run time.
#[derive(Drop)]
pub struct Trail<A, B> {
    of: PhantomData<(A, B)>,
    pub ghost items: { List (A × B) },
}

impl<A, B> Model for Trail<A, B> {
    ghost also_owns = { λ _. ftrue };
}

// It owns nothing.
unsafe impl<A: Send, B: Send> Send for Trail<A, B> {}

unsafe impl<A: Send, B: Send> Sync for Trail<A, B> {}

impl<A, B> Trail<A, B> {
    /// Creates an empty list.
    pub fn new() -> Trail<A, B>
        ensures { result.items ≡ [] }
    {
        Trail { of: PhantomData }
    }

    /// Returns the list with one more pair, at the end.
    pub fn and(&self, first: &A, second: &B) -> Trail<A, B>
        ensures { result.items ≡ self.now.items ++ (first.now, second.now) ∷ [] }
    {
        Trail { of: PhantomData }
    }
}

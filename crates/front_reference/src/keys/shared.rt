//! A value that several owners share.
ghost use Rattle.std.specs.Prelude.{◌≡◌, IfOk};
ghost use Rattle.std.specs.Arc.{arc_value};

use std::alloc::{AllocError, Global};
use std::fmt::{self, Debug, Formatter, Write};
use std::hash::{BuildHasher, Hash, Hasher};
use std::marker::Model;
use std::ops::Deref;
use std::sync::Arc;

/// A value that several owners share, behind an `Arc`.
///
/// In contracts it is the value itself, so its clone is exact: it equals the original. A cache requires that of the clones of its keys and
/// values.
/// An `Arc` itself can't promise it, since two `Arc`s of equal values need not be the same. So a user whose values would be `Arc<X>` uses
/// `Shared<X>`; `From` and `into_arc` convert between the two without allocating.
#[derive(Drop)]
pub struct Shared<T> {
    value: Arc<T>,
}

impl<T> Model for Shared<T> {
    ghost use Rattle.std.specs.Arc.{arc_value};

    ghost Value = { T };

    ghost view = { λ s. arc_value s.value };
}

impl<T: Drop> Shared<T> {
    /// Moves a value behind an `Arc`, where it can be shared. Returns an error, and drops the value, if there is no memory for that.
    pub fn new(alloc: Global, value: T) -> Result<Self, AllocError>
        ensures { IfOk result (λ made. made ≡ value) }
    {
        let value = Arc::new(alloc, value)?;
        Ok(Shared { value })
    }
}

impl<T> Shared<T> {
    /// Returns the `Arc` of the value. The call allocates nothing.
    pub fn into_arc(self) -> Arc<T>
        ensures { arc_value result ≡ self }
    {
        self.value
    }
}

impl<T> From<Arc<T>> for Shared<T> {
    ghost from_gives = { λ arc made. made ≡ arc_value arc };

    fn from(value: Arc<T>) -> Self {
        Shared { value }
    }
}

impl<T> Deref for Shared<T> {
    type Target = T;

    ghost deref_gives = { λ shared value. value ≡ shared };

    fn deref(&self) -> &T
        ensures { result.now ≡ self.now }
    {
        &*self.value
    }
}

impl<T: Drop> Clone for Shared<T> {
    ghost is_clone = { λ old made. made ≡ old };

    fn clone(&self) -> Result<Self, AllocError> {
        let value = Arc::try_clone(&self.value)?;
        Ok(Shared { value })
    }
}

impl<T: PartialEq> PartialEq for Shared<T> {
    ghost eq = { T.eq };

    ghost laws = { T.PartialEq.laws };

    fn eq(&self, other: &Self) -> bool {
        *self.value == *other.value
    }
}

impl<T: Eq> Eq for Shared<T> {
    ghost laws = { T.Eq.laws };
}

impl<T: Hash> Hash for Shared<T> {
    ghost hash_input = { T.hash_input };

    ghost respects_eq = { T.respects_eq };

    fn hash<H: Hasher>(&self, state: &mut H) {
        self.value.hash(state);
    }
}

impl<S: BuildHasher> BuildHasher for Shared<S> {
    type Hasher = S::Hasher;

    ghost build_hasher = { S.build_hasher };

    fn build_hasher(&self) -> S::Hasher {
        self.value.build_hasher()
    }
}

impl<T: Debug> Debug for Shared<T> {
    fn fmt<W: Write>(&self, f: &mut Formatter<W>) -> fmt::Result {
        self.value.fmt(f)
    }
}

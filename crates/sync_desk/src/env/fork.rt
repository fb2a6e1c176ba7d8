//! An environment for each of several locks.

use crate::env::env::Env;
use std::alloc::AllocError;

/// An environment of which others are made: their moments count from the same start, and their random words are their own.
pub trait Fork: Env + Sized {
    /// Makes another environment, whose generator is seeded from this one's. Returns an error if there is not enough memory.
    fn fork(&mut self) -> Result<Self, AllocError>;
}

//! Further laws of the reference cache: why a removal for weight is right, what a run leaves of times and clears, and what evictions within
//! a run remove.
pub mod laws;

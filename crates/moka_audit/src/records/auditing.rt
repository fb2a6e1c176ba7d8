//! The verdict on a transcript.

/// The verdict on a transcript.
#[derive(Clone, Copy, Debug, PartialEq, Eq, Drop)]
pub enum Verdict {
    /// The transcript obeys, and none of its events is refused.
    Yes,
    /// The first record, counted from 1, that ends a prefix which does not obey or has a refused event.
    Breaks(u64),
    /// There was not enough memory to judge the transcript, or a number in it does not fit in 64 bits: nothing is said about the
    /// transcript.
    OutOfMemory,
}

//! Why a request cannot be served.

/// Why a request cannot be served. Each has its text as a reply.
#[derive(Clone, Copy, Debug, PartialEq, Eq, Drop)]
pub enum ProtocolError {
    /// The line does not begin with a command's word, or has too few or too many words.
    Unknown,
    /// A key is too long, or a number is malformed or too large.
    Format,
    /// What follows the key of a `delete` is not a time of 0 or `noreply`.
    Delete,
    /// The data block does not end in a carriage return and a line feed.
    Chunk,
    /// The expiry of a `touch`, `gat`, `gats` or `flush_all` is malformed.
    Exptime,
    /// The number of an `incr` or `decr` is malformed, or 2^64 or above.
    Delta,
    /// A meta command does not have the flag.
    Flag,
    /// What stands behind the letter of a flag is malformed.
    Token,
    /// An opaque has more than 32 bytes, with its letter.
    Opaque,
    /// What stands behind an `M` is not one letter.
    ModeLength,
    /// A `ms` does not have the mode.
    SetMode,
    /// A `ma` does not have the mode.
    CountMode,
    /// The line is too long: the connection is closed behind the reply.
    TooLong,
    /// The client speaks HTTP, or memcached's binary protocol: the connection is closed, without a reply.
    Foreign,
}

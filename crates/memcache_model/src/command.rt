//! Parts of a request.

/// When an item is to expire, as a request says it.
#[derive(Clone, Copy, Debug, PartialEq, Eq)]
pub enum Exptime {
    /// Never: the expiry was given as 0.
    Never,
    /// At once: the expiry was negative, as a number of 32 bits with a sign.
    AtOnce,
    /// A number of seconds from 1 on: at most 2,592,000, which are 30 days, count from now, and more is a moment of Unix time.
    Seconds(u32),
}

/// What a storage command does with the item that its key has.
#[derive(Clone, Copy, Debug, PartialEq, Eq)]
pub enum Storage {
    /// `set`: replaces the item, if there is one.
    Set,
    /// `add`: stores an item only if there is none.
    Add,
    /// `replace`: stores an item only if there is one.
    Replace,
    /// `append`: puts the block behind the item's bytes.
    Append,
    /// `prepend`: puts the block before the item's bytes.
    Prepend,
    /// `cas`: replaces the item if it has this unique.
    Cas(u64),
}

/// Which way a number is counted.
#[derive(Clone, Copy, Debug, PartialEq, Eq)]
pub enum Direction {
    /// `incr`: up, from 2^64 - 1 on to 0.
    Up,
    /// `decr`: down, and never below 0.
    Down,
}

/// A meta command on a key, without a data block.
#[derive(Clone, Copy, Debug, PartialEq, Eq)]
pub enum Meta {
    /// `mg`: tells the item.
    Get,
    /// `md`: deletes the item, or makes it stale.
    Delete,
    /// `ma`: counts the item up or down.
    Arithmetic,
}

/// What a line's first word asks for.
#[derive(Clone, Copy, Debug, PartialEq, Eq)]
pub enum Verb {
    /// `get`, and `gets` if uniques are told.
    Get { uniques: bool },
    /// `gat`, and `gats` if uniques are told.
    Gat { uniques: bool },
    /// A storage command but `cas`.
    Store(Storage),
    /// `cas`.
    Cas,
    /// `delete`.
    Delete,
    /// `incr` or `decr`.
    Arithmetic(Direction),
    /// `touch`.
    Touch,
    /// `flush_all`.
    FlushAll,
    /// `stats`.
    Stats,
    /// `version`.
    Version,
    /// `verbosity`.
    Verbosity,
    /// `quit`.
    Quit,
    /// `mg`, `md` or `ma`.
    Meta(Meta),
    /// `ms`.
    MetaSet,
    /// `mn`.
    MetaNoOp,
}

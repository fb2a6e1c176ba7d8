//! What is asked of a service, row by row, and what has to come of it.
use audit_model::{
    Closing, Config, Conn, EvictionPolicy, LoadId, RemovalCause, ServiceError, Weight,
};
use std::process::Abort;

/// Without capacity, times and own deadlines.
pub const PLAIN: Config = Config {
    capacity: None,
    policy: EvictionPolicy::Lru,
    parts: 1,
    weight: Weight::One,
    live_ms: None,
    idle_ms: None,
    own_deadlines: false,
};

/// With own deadlines.
pub const OWN: Config = Config {
    own_deadlines: true,
    ..PLAIN
};

/// A moment that no service takes, in nanoseconds.
pub const LATE: u64 = 1 << 63;

pub const FIRST: Conn = Conn {
    namespace: 0,
    number: 1,
};

pub const SECOND: Conn = Conn {
    namespace: 0,
    number: 2,
};

pub const THIRD: Conn = Conn {
    namespace: 0,
    number: 3,
};

/// The first connection of the second namespace.
pub const ELSEWHERE: Conn = Conn {
    namespace: 1,
    number: 1,
};

pub const FIRST_LOAD: LoadId = LoadId {
    namespace: 0,
    number: 1,
};

pub const SECOND_LOAD: LoadId = LoadId {
    namespace: 0,
    number: 2,
};

/// An outcome.
#[derive(Clone, Copy)]
pub enum Given<'a> {
    Value(&'a [u8], Option<u64>),
    /// A value of so many bytes.
    Long(usize),
    Nothing,
    Fault(&'a [u8]),
}

/// An input, at the moment that it is.
#[derive(Clone, Copy)]
pub enum Asked<'a> {
    Opens(u64),
    Feeds(Conn, &'a [u8]),
    /// A piece of so many bytes without a line's end.
    Fills(Conn, usize),
    Closes(Conn),
    Answers(LoadId, Given<'a>),
    GivesUp(LoadId),
}

/// A notice's cause, key and value.
pub type Told<'a> = (RemovalCause, &'a [u8], &'a [u8]);

/// A load that goes out, and its key.
pub type Sent<'a> = (LoadId, &'a [u8]);

/// What one of many connections does, or what is known of it.
#[derive(Clone, Copy)]
pub enum Way<'a> {
    /// A piece of which all lines run, and what the connection is replied till then.
    Says(&'a [u8], &'a [u8]),
    /// A piece of so many bytes without a line's end.
    Fills(usize),
    Closes,
    Closed(Option<Closing>),
}

/// What is asked, and what has to come of it.
#[derive(Clone, Copy)]
pub enum Row<'a> {
    /// From here on it is that moment, in nanoseconds.
    At(u64),
    /// The next connection of its namespace is opened.
    Opens(Conn),
    /// A piece of which all lines run, and what the connection is replied till then.
    Says(Conn, &'a [u8], &'a [u8]),
    /// A piece of which a line is held back for want of memory.
    Holds(Conn, &'a [u8]),
    /// Another input that is taken; no line of it is held back.
    Does(Asked<'a>),
    /// An input that is refused, and handed back.
    Refuses(Asked<'a>, ServiceError),
    /// What the connection is replied till then.
    Output(Conn, &'a [u8]),
    /// The same, where that is a value of so many bytes.
    OutputLong(Conn, usize),
    /// The next notice of the first namespace: its cause, key and value.
    Tells(RemovalCause, &'a [u8], &'a [u8]),
    /// No notice of the first namespace is left.
    TellsNone,
    /// The loads of a namespace that go out.
    Sends(u64, &'a [Sent<'a>]),
    /// How many loads of a namespace are under way.
    LoadsOpen(u64, u64),
    Waits(Conn, bool),
    Closed(Conn, Option<Closing>),
    /// The connections of the first namespace up to that number are opened, one after the other.
    OpensAll(u64),
    /// Each connection of the first namespace up to a number does so, one after the other, if its own number leaves this rest by five.
    EachFifth(u64, u64, Way<'a>),
    /// The loads of `k` of the first namespace from one number to before another go out and are given up, one after the other, and nobody
    /// is replied.
    GivesUpEach(u64, u64),
    /// Nothing is known of a connection, for that cause.
    Unknown(Conn, ServiceError),
    /// There is no such namespace.
    NoNamespace(u64),
}

/// A service of these configurations that was made at that moment, and what is asked of it from then on.
#[derive(Clone, Copy)]
pub struct Case<'a> {
    pub configs: &'a [Config],
    pub made: u64,
    pub rows: &'a [Row<'a>],
}

/// Stops a test where there is a place of what is wrong, and says it: that of a table, and of its row.
pub fn none_wrong(rt: &impl Abort, wrong: Option<(usize, usize)>) {
    assert_eq!(rt; wrong, None);
}

/// The same of a place in one table.
pub fn no_row_wrong(rt: &impl Abort, wrong: Option<usize>) {
    assert_eq!(rt; wrong, None);
}

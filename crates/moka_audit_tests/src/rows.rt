//! Rows of what comes to a service, and what it replies.
use audit_model::{Config, EvictionPolicy, Weight};

/// What comes to a service of one namespace. Moments are in nanoseconds; without one it comes at 0.
#[derive(Clone, Copy)]
pub enum Came<'a> {
    /// To open the next connection; they are numbered from 1.
    Open,
    /// A piece for a connection.
    Piece(u64, &'a [u8]),
    /// A piece for a connection at a moment.
    At(u64, u64, &'a [u8]),
    /// So many bytes `x` for a connection, and these behind them.
    Filled(u64, usize, &'a [u8]),
    /// The value of a load.
    Value(u64, &'a [u8]),
    /// The fault of a load.
    Fault(u64, &'a [u8]),
    /// To give up each of these loads in turn, from the one number to the other.
    GiveUps(u64, u64),
}

/// What comes, and what has to come of it.
#[derive(Clone, Copy)]
pub struct Row<'a> {
    pub config: &'a Config,
    pub came: &'a [Came<'a>],
    /// The replies to the first connections; what a later one is told may differ with the store below, and is judged all the same.
    pub replies: &'a [&'a [u8]],
    /// How many loads go out.
    pub loads: u64,
}

/// Without capacity, times and own deadlines, with one part.
const PLAIN: Config = Config {
    capacity: None,
    policy: EvictionPolicy::Lru,
    parts: 1,
    weight: Weight::One,
    live_ms: None,
    idle_ms: None,
    own_deadlines: false,
};

const OWN: Config = Config {
    own_deadlines: true,
    ..PLAIN
};

const TWO_VALUES: Config = Config {
    capacity: Some(2),
    ..PLAIN
};

const THREE_BYTES: Config = Config {
    capacity: Some(3),
    weight: Weight::Bytes,
    ..PLAIN
};

const TWELVE_BYTES: Config = Config {
    capacity: Some(12),
    policy: EvictionPolicy::TinyLfu,
    weight: Weight::Bytes,
    ..PLAIN
};

pub const NOTHING: Config = Config {
    capacity: Some(0),
    ..PLAIN
};

const IDLE: Config = Config {
    idle_ms: Some(7),
    ..PLAIN
};

/// Rows of one connection that loads nothing.
const ROWS_OF_LINES: &[Row<'static>] = &[
    Row {
        config: &PLAIN,
        came: &[
            Came::Open,
            Came::Piece(1, b"SET a - 1\nGE"),
            Came::Piece(1, b"T a\nGET"),
            Came::Piece(1, b" b\n"),
        ],
        replies: &[b"OK\nVAL 1\nNONE\n"],
        loads: 0,
    },
    Row {
        config: &OWN,
        came: &[
            Came::Open,
            Came::Open,
            Came::Piece(1, b"SET a 1 x\n"),
            Came::At(1, 999_423, b"GET a\n"),
            Came::At(1, 999_424, b"GET a\n"),
            Came::At(2, 999_424, b"SYNC\n"),
            Came::At(1, 1_073_741_824, b"SYNC\n"),
        ],
        replies: &[b"OK\nVAL x\nNONE\nSYNC 0 0\n"],
        loads: 0,
    },
    Row {
        config: &TWO_VALUES,
        came: &[
            Came::Open,
            Came::Piece(
                1,
                b"SET a - 1\nSYNC\nSET b - 2\nSYNC\nSET c - 3\nSYNC\nGET a\n",
            ),
        ],
        replies: &[b"OK\nSYNC 1 1\nOK\nSYNC 2 2\nOK\nSYNC 2 2\nNONE\n"],
        loads: 0,
    },
    Row {
        config: &TWO_VALUES,
        came: &[
            Came::Open,
            Came::Piece(
                1,
                b"SET a - 1\nSYNC\nSET b - 2\nSYNC\nGET a\nSYNC\nSET c - 3\nSYNC\nKEYS\n",
            ),
        ],
        replies: &[b"OK\nSYNC 1 1\nOK\nSYNC 2 2\nVAL 1\nSYNC 2 2\nOK\nSYNC 2 2\nKEYS 2\na\nc\n"],
        loads: 0,
    },
    Row {
        config: &PLAIN,
        came: &[
            Came::Open,
            Came::Piece(1, b"SET a - 1\nCLEAR\nGET a\nSET a - 2\nGET a\n"),
        ],
        replies: &[b"OK\nOK\nNONE\nOK\nVAL 2\n"],
        loads: 0,
    },
    Row {
        config: &PLAIN,
        came: &[
            Came::Open,
            Came::Piece(1, b"SET ab - 1\nSET b - 2\nDROPIF a\nSET ac - 3\nKEYS\n"),
        ],
        replies: &[b"OK\nOK\nOK\nOK\nKEYS 2\nac\nb\n"],
        loads: 0,
    },
    Row {
        config: &PLAIN,
        came: &[
            Came::Open,
            Came::Piece(
                1,
                b"ADD n - 2\nADD n - 3\nSET n - x\nADD n - 1\nGET n\nSET n - 18446744073709551615\nADD n - 1\n",
            ),
        ],
        replies: &[b"VAL 2\nVAL 5\nOK\nERR number\nVAL x\nOK\nERR number\n"],
        loads: 0,
    },
    Row {
        config: &THREE_BYTES,
        came: &[Came::Open, Came::Piece(1, b"SET a - four\nSYNC\nGET a\n")],
        replies: &[b"OK\nSYNC 0 0\nNONE\n"],
        loads: 0,
    },
    Row {
        config: &TWELVE_BYTES,
        came: &[
            Came::Open,
            Came::Open,
            Came::Piece(1, b"SET a - aaaaaaaaaa\nSYNC\nSET b - bbbbb\nSET a - c\n"),
            Came::Piece(2, b"SYNC\n"),
        ],
        replies: &[b"OK\nSYNC 1 10\nOK\nOK\n"],
        loads: 0,
    },
    Row {
        config: &IDLE,
        came: &[
            Came::Open,
            Came::Piece(1, b"SET a - 1\n"),
            Came::At(1, 6_999_999, b"GET a\n"),
            Came::At(1, 13_999_998, b"GET a\n"),
            Came::At(1, 20_999_997, b"HAS a\n"),
            Came::At(1, 20_999_998, b"GET a\n"),
        ],
        replies: &[b"OK\nVAL 1\nVAL 1\nYES\nNONE\n"],
        loads: 0,
    },
    Row {
        config: &OWN,
        came: &[
            Came::Open,
            Came::At(1, 2_000_000, b"SET a 1 x\n"),
            Came::Piece(1, b"GET a\n"),
            Came::At(1, 2_998_272, b"GET a\n"),
        ],
        replies: &[b"OK\nVAL x\nNONE\n"],
        loads: 0,
    },
    Row {
        config: &PLAIN,
        came: &[
            Came::Open,
            Came::Piece(
                1,
                b"\nget a\nGET\nGET  a\nSET a -\nSET a - \nGET a\nSET a 5 x\nADD a - 1x\n",
            ),
        ],
        replies: &[
            b"ERR command\nERR command\nERR syntax\nERR syntax\nERR syntax\nOK\nVAL \nERR deadline\nERR number\n",
        ],
        loads: 0,
    },
    Row {
        config: &PLAIN,
        came: &[
            Came::Open,
            Came::Piece(1, b"SET a - 1\nQUIT\nGET a\n"),
            Came::Piece(1, b"GET a\n"),
        ],
        replies: &[b"OK\nOK\n"],
        loads: 0,
    },
];

/// Rows of loads, their answers and give-ups.
const ROWS_OF_LOADS: &[Row<'static>] = &[
    Row {
        config: &PLAIN,
        came: &[
            Came::Open,
            Came::Open,
            Came::Piece(1, b"LOAD k\n"),
            Came::Piece(2, b"LOAD k\n"),
            Came::Value(1, b"v"),
            Came::Piece(1, b"GET k\n"),
        ],
        replies: &[b"VAL v\nVAL v\n", b"VAL v\n"],
        loads: 1,
    },
    Row {
        config: &PLAIN,
        came: &[
            Came::Open,
            Came::Open,
            Came::Piece(1, b"LOAD k\n"),
            Came::Piece(2, b"LOAD k\n"),
            Came::GiveUps(1, 1),
            Came::Value(2, b"v"),
        ],
        replies: &[b"VAL v\n", b"VAL v\n"],
        loads: 2,
    },
    Row {
        config: &PLAIN,
        came: &[
            Came::Open,
            Came::Open,
            Came::Piece(1, b"LOAD k\n"),
            Came::Piece(2, b"DEL k\n"),
            Came::Value(1, b"v"),
            Came::Piece(2, b"GET k\n"),
        ],
        replies: &[b"VAL v\n", b"OK\nVAL v\n"],
        loads: 1,
    },
    Row {
        config: &NOTHING,
        came: &[
            Came::Open,
            Came::Piece(1, b"SET a - 1\nGET a\nSYNC\nLOAD k\n"),
            Came::Value(1, b"v"),
            Came::Piece(1, b"GET k\n"),
        ],
        replies: &[b"OFF\nNONE\nSYNC 0 0\nVAL v\nNONE\n"],
        loads: 1,
    },
    Row {
        config: &PLAIN,
        came: &[
            Came::Open,
            Came::Piece(1, b"LOAD k\n"),
            Came::Value(1, b"x\ny"),
            Came::Fault(1, b"down"),
            Came::Piece(1, b"QUIT\nGET a\n"),
        ],
        replies: &[b"ERR load down\nOK\n"],
        loads: 1,
    },
];

/// Rows of many loads, and of lines and pieces as long as they may be.
const ROWS_OF_LIMITS: &[Row<'static>] = &[
    Row {
        config: &PLAIN,
        came: &[
            Came::Open,
            Came::Piece(1, b"LOAD k\n"),
            Came::GiveUps(1, 200),
            Came::Piece(1, b"LOAD k\n"),
        ],
        replies: &[b"ERR abandoned\n"],
        loads: 201,
    },
    Row {
        config: &PLAIN,
        came: &[
            Came::Open,
            Came::Open,
            Came::Filled(1, 8192, b"\n"),
            Came::Filled(1, 8193, b""),
            Came::Piece(1, b"\nGET a\n"),
            Came::Piece(2, b"GET a\n"),
        ],
        replies: &[b"ERR command\n", b"NONE\n"],
        loads: 0,
    },
    Row {
        config: &PLAIN,
        came: &[
            Came::Open,
            Came::Open,
            Came::Piece(1, b"LOAD k\n"),
            Came::Piece(2, b"LOAD k\n"),
            Came::Filled(1, 8193, b""),
            Came::Filled(2, 8192, b""),
            Came::Value(1, b"v"),
            Came::Piece(1, b"\nGET k\n"),
            Came::Piece(2, b"\nGET k\n"),
        ],
        replies: &[b"", b"VAL v\nERR command\nVAL v\n"],
        loads: 1,
    },
];

/// Rows of one connection that loads nothing.
pub fn rows_of_lines() -> &'static [Row<'static>] {
    ROWS_OF_LINES
}

/// Rows of loads, their answers and give-ups.
pub fn rows_of_loads() -> &'static [Row<'static>] {
    ROWS_OF_LOADS
}

/// Rows of many loads, and of lines and pieces as long as they may be.
pub fn rows_of_limits() -> &'static [Row<'static>] {
    ROWS_OF_LIMITS
}

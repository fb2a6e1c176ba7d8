//! What a connection is replied whose lines load.
use crate::devices::{PLAIN, Ran, SOUND, Saying, Setting, run_over};
use audit_model::{Closing, Config};
use std::alloc::{AllocError, Global};

/// A configuration, an input, what the loader says, the replies, and how often the loader is asked.
struct Row {
    config: Config,
    input: &'static [u8],
    sayings: &'static [Saying],
    replies: &'static [u8],
    asked: u64,
}

const OFF: Config = Config {
    capacity: Some(0),
    ..PLAIN
};

const OWN: Config = Config {
    own_deadlines: true,
    ..PLAIN
};

const ROWS: &[Row] = &[
    // A value is answered, stored, and found by the lines behind it.
    Row {
        config: PLAIN,
        input: b"LOAD k\nGET k\n",
        sayings: &[Saying::Value(b"v", None)],
        replies: b"VAL v\nVAL v\n",
        asked: 1,
    },
    // Nothing is found, and nothing stored.
    Row {
        config: PLAIN,
        input: b"LOAD k\nGET k\n",
        sayings: &[Saying::Nothing],
        replies: b"NONE\nNONE\n",
        asked: 1,
    },
    // No answer comes, and then one does.
    Row {
        config: PLAIN,
        input: b"LOAD k\nLOAD k\n",
        sayings: &[Saying::Refusal, Saying::Value(b"v", None)],
        replies: b"VAL v\nVAL v\n",
        asked: 2,
    },
    // At capacity 0 the value is answered and not kept.
    Row {
        config: OFF,
        input: b"SET a - 1\nGET a\nSYNC\nLOAD k\nGET k\n",
        sayings: &[Saying::Value(b"v", None)],
        replies: b"OFF\nNONE\nSYNC 0 0\nVAL v\nNONE\n",
        asked: 1,
    },
    // Refused outcomes are given up; what a fault says is told; then the connection quits.
    Row {
        config: PLAIN,
        input: b"LOAD k\nQUIT\nGET a\n",
        sayings: &[
            Saying::Value(b"x\ny", None),
            Saying::Fault(b"no\r"),
            Saying::Value(b"x", Some(1)),
            Saying::Fault(b"down"),
        ],
        replies: b"ERR load down\nOK\n",
        asked: 4,
    },
    // A value with a time to live.
    Row {
        config: OWN,
        input: b"LOAD k\nGET k\n",
        sayings: &[
            Saying::Value(b"x", Some(1_000_000_000_000)),
            Saying::Value(b"v", Some(999_999_999_999)),
        ],
        replies: b"VAL v\nVAL v\n",
        asked: 2,
    },
    // Several loads, one behind the other.
    Row {
        config: PLAIN,
        input: b"LOAD a\nLOAD b\nSET c - 3\nLOAD c\nDEL a\nLOAD a\nKEYS\n",
        sayings: &[
            Saying::Value(b"1", None),
            Saying::Nothing,
            Saying::Value(b"2", None),
        ],
        replies: b"VAL 1\nNONE\nOK\nVAL 3\nOK\nVAL 2\nKEYS 2\na\nc\n",
        asked: 3,
    },
    // No answer comes 200 times; a later `LOAD` sends one more.
    Row {
        config: PLAIN,
        input: b"LOAD k\nGET k\n",
        sayings: &[Saying::Refusal],
        replies: b"ERR abandoned\nNONE\n",
        asked: 200,
    },
    Row {
        config: PLAIN,
        input: b"LOAD k\nLOAD k\n",
        sayings: &[Saying::Refusal],
        replies: b"ERR abandoned\nERR abandoned\n",
        asked: 400,
    },
];

/// Whether a run ended well, left no load and was told these replies.
fn is_whole(ran: &Ran, replies: &[u8]) -> bool {
    ran.result.is_ok()
        && ran.replies() == replies
        && ran.left.loads_open == 0
        && ran.left.loads_left == 0
}

/// Whether a run comes out as its row says.
fn is_as_said(ran: &Ran, row: &Row) -> bool {
    is_whole(ran, row.replies) && ran.loader.asked == row.asked
}

/// The same of its run, with pieces of that size.
fn is_right(alloc: Global, row: &Row, size: usize) -> bool {
    let setting = Setting { size, ..SOUND };
    match run_over(alloc, row.config, row.input, row.sayings, setting) {
        Some(ran) => is_as_said(&ran, row),
        None => false,
    }
}

/// The place of the first row that does not come out so, with pieces of that size, at the second try where memory is refused.
fn first_wrong(alloc: Global, size: usize) -> Option<usize> {
    for (place, row) in ROWS.iter().enumerate() {
        if !is_right(alloc, row, size) && !is_right(alloc, row, size) {
            return Some(place);
        }
    }
    None
}

#[test]
fn rows_of_loads(rt: HostRuntime) {
    assert_eq!(rt; first_wrong(rt.alloc(), 8192), None);
}

/// The first of the sizes of a piece up to that of a line with which a row does not come out so, and the row's place.
fn first_wrong_cut(alloc: Global) -> Option<(usize, usize)> {
    for size in 1..9usize {
        if let Some(place) = first_wrong(alloc, size) {
            return Some((size, place));
        }
    }
    None
}

#[test]
fn cut_at_each_byte(rt: HostRuntime) {
    assert_eq!(rt; first_wrong_cut(rt.alloc()), None);
}

/// Whether a run ended well whose loader was asked for these keys, one behind the other.
fn is_asked(ran: &Ran, keys: &[u8]) -> bool {
    ran.loader.keys.as_slice() == keys && is_whole(ran, b"NONE\nNONE\nOK\nVAL 3\nNONE\n")
}

/// Whether the loader is asked by the key of each `LOAD`, and of one that is given up once more.
fn is_asked_by_key(alloc: Global) -> bool {
    const SAYINGS: &[Saying] = &[Saying::Refusal, Saying::Nothing];
    let input = b"LOAD one\nLOAD two\nSET three - 3\nLOAD three\nLOAD one\n";
    match run_over(alloc, PLAIN, input, SAYINGS, SOUND) {
        Some(ran) => is_asked(&ran, b"oneonetwoone"),
        None => false,
    }
}

#[test]
fn the_loader_is_asked_by_the_key(rt: HostRuntime) {
    assert!(rt; is_asked_by_key(rt.alloc()) || is_asked_by_key(rt.alloc()));
}

/// As many bytes as a piece has room for behind a `LOAD`.
const BEHIND: [u8; 8185] = [b'x'; 8185];

/// A `LOAD` with these behind it.
fn input_behind(alloc: Global) -> Result<Vec<u8>, AllocError> {
    let mut input = Vec::from_slice(alloc, b"LOAD k\n")?;
    match input.extend_from_slice(BEHIND.as_slice()) {
        Ok(()) => Ok(input),
        Err(error) => Err(error),
    }
}

/// Whether a run answered a `LOAD` of nothing, and its owner then asked that the connection be closed.
fn is_answered(ran: &Ran) -> bool {
    is_whole(ran, b"NONE\n") && ran.left.closed == Some(Closing::Asked)
}

/// The same of a run with this input.
fn answers(alloc: Global, input: &[u8]) -> bool {
    const SAYINGS: &[Saying] = &[Saying::Nothing];
    match run_over(alloc, PLAIN, input, SAYINGS, SOUND) {
        Some(ran) => is_answered(&ran),
        None => false,
    }
}

/// The same where bytes stand behind the `LOAD`.
fn answers_before(alloc: Global) -> bool {
    match input_behind(alloc) {
        Ok(input) => answers(alloc, input.as_slice()),
        Err(_) => false,
    }
}

#[test]
fn bytes_behind_a_load(rt: HostRuntime) {
    assert!(rt; answers_before(rt.alloc()) || answers_before(rt.alloc()));
}

//! Devices that fail while a load is out.
use crate::devices::{PLAIN, Ran, SOUND, Saying, Setting, run_over};
use audit_model::Closing;
use cache_run::RunError;
use std::alloc::Global;

const INPUT: &[u8] = b"GET a\nLOAD k\nGET k\nLOAD j\n";

const SAYINGS: &[Saying] = &[Saying::Refusal, Saying::Value(b"v", None), Saying::Nothing];

const REPLIES: &[u8] = b"NONE\nVAL v\nVAL v\nNONE\n";

/// A device that fails.
#[derive(Clone, Copy)]
enum Failing {
    Reader,
    /// At a write or a flush.
    Writer,
    /// It is late.
    Clock,
}

/// The device that fails, the size of the pieces, and the number below which it fails at each call in turn, from the first on.
const ROWS: &[(Failing, usize, u64)] = &[
    (Failing::Reader, 1, 40),
    (Failing::Reader, 7, 40),
    (Failing::Reader, 8192, 40),
    (Failing::Writer, 1, 60),
    (Failing::Writer, 7, 60),
    (Failing::Writer, 8192, 60),
    (Failing::Clock, 1, 40),
    (Failing::Clock, 7, 40),
    (Failing::Clock, 8192, 40),
];

/// The setting with which a device fails at a call.
fn setting_of(failing: Failing, size: usize, at: u64) -> Setting {
    let sound = Setting { size, ..SOUND };
    match failing {
        Failing::Reader => Setting {
            read_fails: at,
            ..sound
        },
        Failing::Writer => Setting {
            write_fails: at,
            ..sound
        },
        Failing::Clock => Setting { late: at, ..sound },
    }
}

/// The error that is owed where a device fails.
fn error_of(failing: Failing) -> RunError {
    match failing {
        Failing::Reader => RunError::Read,
        Failing::Writer => RunError::Write,
        Failing::Clock => RunError::Moment,
    }
}

/// Whether no load is left, and the replies are a beginning of those that are owed.
fn is_settled(ran: &Ran) -> bool {
    ran.left.loads_open == 0 && ran.left.loads_left == 0 && REPLIES.starts_with(ran.replies())
}

/// Whether a run is settled, its connection is closed, and it ended with all replies or with this error.
fn is_owed(ran: &Ran, error: RunError) -> bool {
    let ended = if ran.result.is_ok() {
        ran.replies() == REPLIES
    } else {
        ran.result == Err(error)
    };
    ended && is_settled(ran) && ran.left.closed == Some(Closing::Asked)
}

/// Whether a run comes to what is owed whose device fails at a call.
fn fails_well(alloc: Global, failing: Failing, size: usize, at: u64) -> bool {
    match run_over(alloc, PLAIN, INPUT, SAYINGS, setting_of(failing, size, at)) {
        Some(ran) => is_owed(&ran, error_of(failing)),
        None => false,
    }
}

/// The first call below a limit at which a device fails, and the run does not come to what is owed, at the second try where memory is
/// refused.
fn first_wrong_call(alloc: Global, failing: Failing, size: usize, limit: u64) -> Option<u64> {
    for at in 1..limit {
        if !fails_well(alloc, failing, size, at) && !fails_well(alloc, failing, size, at) {
            return Some(at);
        }
    }
    None
}

/// The place of the first row that does not come to what is owed, and the call.
fn first_wrong(alloc: Global) -> Option<(usize, usize)> {
    for (place, (failing, size, limit)) in ROWS.iter().enumerate() {
        if let Some(at) = first_wrong_call(alloc, *failing, *size, *limit) {
            return Some((place, at as usize));
        }
    }
    None
}

#[test]
fn a_device_fails_at_each_call(rt: HostRuntime) {
    assert_eq!(rt; first_wrong(rt.alloc()), None);
}

/// Whether a run whose write failed did not ask the loader.
fn is_unasked(ran: &Ran) -> bool {
    ran.result == Err(RunError::Write) && ran.loader.asked == 0 && ran.left.loads_open == 0
}

/// Whether the loader is not asked where the first write fails.
fn asks_nothing(alloc: Global) -> bool {
    let setting = setting_of(Failing::Writer, 8192, 1);
    match run_over(alloc, PLAIN, INPUT, SAYINGS, setting) {
        Some(ran) => is_unasked(&ran),
        None => false,
    }
}

#[test]
fn a_writer_fails_at_once(rt: HostRuntime) {
    assert!(rt; asks_nothing(rt.alloc()) || asks_nothing(rt.alloc()));
}

/// Whether a run has written four bytes, and closed its connection as its writer failed.
fn has_written_four(ran: &Ran) -> bool {
    ran.result == Err(RunError::Write)
        && ran.replies() == b"OK\nV".as_slice()
        && ran.left.closed == Some(Closing::Asked)
}

/// Whether a writer takes four bytes and then fails.
fn takes_four(alloc: Global) -> bool {
    let setting = Setting {
        takes: 4,
        write_fails: 2,
        ..SOUND
    };
    match run_over(alloc, PLAIN, b"SET a - 1\nGET a\n", SAYINGS, setting) {
        Some(ran) => has_written_four(&ran),
        None => false,
    }
}

#[test]
fn a_writer_takes_four_bytes(rt: HostRuntime) {
    assert!(rt; takes_four(rt.alloc()) || takes_four(rt.alloc()));
}

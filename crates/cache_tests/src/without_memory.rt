//! What needs no memory: it comes out so with every request refused.
//!
//! A test asks for a block of a size that nothing else asks for, `BEGINS`, and at the end for one of another, `ENDS`.
//! `tools/refuse_allocations.py --between` refuses whatever is asked for from the one to the other. Otherwise these are requests as any.
use crate::playing::{Played, new_recorded, new_service, play_on};
use crate::rows::{Asked, Case, FIRST, FIRST_LOAD, PLAIN, Row, SECOND, no_row_wrong};
use audit_model::{Closing, Conn, Note, RemovalCause, ServiceError};
use cache_spaces::{Owed, RecordedService, Service};
use std::alloc::Global;

const BEGINS: usize = 20_011;

const ENDS: usize = 20_012;

/// Asks for a block of so many bytes, whatever the answer is.
fn mark(alloc: Global, size: usize) {
    let _ = Vec::<u8>::with_capacity(alloc, size);
}

/// Rows on a service that was made at 0.
fn case_of<'a>(rows: &'a [Row<'a>]) -> Case<'a> {
    Case {
        configs: &[PLAIN],
        made: 0,
        rows,
    }
}

/// Replies, a note and a load, none of them taken.
const BEFORE: &[Row<'static>] = &[
    Row::Opens(FIRST),
    Row::Opens(SECOND),
    Row::Does(Asked::Feeds(FIRST, b"SET a - 1\nDEL a\nSET b - 2\nCLEAR\n")),
    Row::Does(Asked::Feeds(SECOND, b"LOAD k\n")),
];

/// They are taken, the load is given up, and the connections are closed.
const TAKEN: &[Row<'static>] = &[
    Row::Output(FIRST, b"OK\nOK\nOK\nOK\n"),
    Row::Output(FIRST, b""),
    Row::Tells(RemovalCause::Explicit, b"a", b"1"),
    Row::Sends(0, &[(FIRST_LOAD, b"k")]),
    Row::Sends(0, &[]),
    Row::LoadsOpen(0, 1),
    Row::Waits(SECOND, true),
    Row::Does(Asked::Closes(SECOND)),
    Row::Closed(SECOND, Some(Closing::Asked)),
    Row::Does(Asked::GivesUp(FIRST_LOAD)),
    Row::LoadsOpen(0, 0),
    Row::Closed(FIRST, None),
    Row::Does(Asked::Closes(FIRST)),
    Row::Closed(FIRST, Some(Closing::Asked)),
    Row::Output(SECOND, b""),
    Row::NoNamespace(1),
];

/// What is taken of one that keeps journals, but for what it lends.
const TAKEN_OF_RECORDED: &[Row<'static>] = &[
    Row::Sends(0, &[(FIRST_LOAD, b"k")]),
    Row::LoadsOpen(0, 1),
    Row::Waits(SECOND, true),
    Row::Closed(FIRST, None),
];

/// Plays rows with every request refused.
fn play_without<S: Played>(alloc: Global, service: S, rows: &[Row<'_>]) -> Result<S, usize> {
    mark(alloc, BEGINS);
    let played = play_on(alloc, service, case_of(rows));
    mark(alloc, ENDS);
    played
}

/// The same after those before.
fn play<S: Played>(alloc: Global, service: S, rows: &[Row<'_>]) -> Result<S, usize> {
    match play_on(alloc, service, case_of(BEFORE)) {
        Ok(service) => play_without(alloc, service, rows),
        Err(place) => Err(place),
    }
}

fn wrong_of_service(alloc: Global) -> Option<usize> {
    match new_service(alloc, &[PLAIN], 0) {
        Ok(service) => play(alloc, service, TAKEN).err(),
        Err(_) => Some(0),
    }
}

#[test]
fn takings_and_closings(rt: HostRuntime) {
    no_row_wrong(&rt, wrong_of_service(rt.alloc()));
}

fn is_note(note: Result<Option<&Note>, ServiceError>) -> bool {
    match note {
        Ok(Some(note)) => note.key.as_slice() == b"a".as_slice()
            && note.value.as_slice() == b"1".as_slice(),
        _ => false,
    }
}

/// Whether the replies of the first connection and the first note are lent; for the replies there is room.
fn lends(recorded: &mut RecordedService, room: &mut Vec<u8>) -> bool {
    let is_copied = match recorded.take_output(FIRST) {
        Ok(replies) => replies.copy_to(room).is_ok(),
        Err(_) => false,
    };
    is_copied
        && room.as_slice() == b"OK\nOK\nOK\nOK\n".as_slice()
        && is_note(recorded.next_notice(0))
}

/// The same with every request refused.
fn lends_without(alloc: Global, recorded: &mut RecordedService) -> bool {
    let mut room = Vec::new(alloc);
    let is_made = room.reserve(100).is_ok() || room.reserve(100).is_ok();
    mark(alloc, BEGINS);
    let is_lent = lends(recorded, &mut room);
    mark(alloc, ENDS);
    is_made && is_lent
}

fn recorded_lends(alloc: Global) -> bool {
    match new_recorded(alloc, &[PLAIN], 0) {
        Ok(recorded) => match play(alloc, recorded, TAKEN_OF_RECORDED) {
            Ok(mut recorded) => lends_without(alloc, &mut recorded),
            Err(_) => false,
        },
        Err(_) => false,
    }
}

#[test]
fn takings_that_lend(rt: HostRuntime) {
    assert!(rt; recorded_lends(rt.alloc()));
}

/// What a connection is owed, as far as it is compared: its replies, how many loads, and whether it waits.
struct Due<'a> {
    replies: &'a [u8],
    loads: Option<usize>,
    waits: bool,
}

fn is_due(owed: &Owed, due: &Due<'_>) -> bool {
    let are_replies = match &owed.replies {
        Some(replies) => replies.as_slice() == due.replies,
        None => false,
    };
    let are_loads = match &owed.loads {
        Some(loads) => due.loads == Some(loads.len()),
        None => due.loads == None,
    };
    are_replies && are_loads && owed.waits == due.waits && owed.closing == None
}

fn owes(service: &mut Service, conn: Conn, wants_loads: bool, due: &Due<'_>) -> bool {
    match service.owed(conn, wants_loads) {
        Ok(owed) => is_due(&owed, due),
        Err(_) => false,
    }
}

/// What is due to one that replied to four lines.
const REPLIES_DUE: Due<'static> = Due {
    replies: b"OK\nOK\nOK\nOK\n",
    loads: None,
    waits: false,
};

/// What is due to one whose load went out, which it waits for.
const LOAD_DUE: Due<'static> = Due {
    replies: b"",
    loads: Some(1),
    waits: true,
};

/// What is due to it once that was taken.
const NOTHING_DUE: Due<'static> = Due {
    replies: b"",
    loads: Some(0),
    waits: true,
};

/// Whether the connections are owed what came so far, once.
fn owes_all(service: &mut Service) -> bool {
    owes(service, FIRST, false, &REPLIES_DUE)
        && owes(service, SECOND, true, &LOAD_DUE)
        && owes(service, SECOND, true, &NOTHING_DUE)
}

/// The error of one that was never opened.
fn owes_unknown(service: &mut Service, namespace: u64) -> Option<ServiceError> {
    let conn = Conn {
        namespace,
        number: 3,
    };
    service.owed(conn, true).err()
}

/// The same with every request refused.
fn owes_without(alloc: Global, service: &mut Service) -> bool {
    mark(alloc, BEGINS);
    let is_owed = owes_all(service);
    mark(alloc, ENDS);
    is_owed
        && owes_unknown(service, 0) == Some(ServiceError::NoConnection)
        && owes_unknown(service, 1) == Some(ServiceError::NoNamespace)
}

fn service_owes(alloc: Global) -> bool {
    match new_service(alloc, &[PLAIN], 0) {
        Ok(service) => match play_on(alloc, service, case_of(BEFORE)) {
            Ok(mut service) => owes_without(alloc, &mut service),
            Err(_) => false,
        },
        Err(_) => false,
    }
}

#[test]
fn what_is_owed(rt: HostRuntime) {
    assert!(rt; service_owes(rt.alloc()));
}

//! What a recording service hands out that is read.
use crate::inputs::{answer, conn, feed, make_recorded};
use audit_model::{Bytes, Conn, Input, LoadId, RemovalCause, ServiceError};
use cache_spaces::{LentReplies, RecordedService};
use std::alloc::Global;
use std::process::Abort;

/// What is done with a service, and what is read of it.
#[derive(Clone, Copy)]
enum Row<'a> {
    Opens,
    /// The connection of a number is fed a text.
    Feeds(u64, &'a [u8]),
    /// The load of a number finds the value `v`.
    Answers(u64),
    /// What is taken of a connection.
    Takes(Conn, Result<&'a [u8], ServiceError>),
    /// The note that is told of a namespace.
    Tells(u64, Result<Option<(RemovalCause, &'a [u8])>, ServiceError>),
    /// The load that is taken of a namespace: its number and its key.
    Loads(u64, Result<Option<(u64, &'a [u8])>, ServiceError>),
}

/// A connection of a namespace that is not there.
const ELSEWHERE: Conn = Conn {
    namespace: 1,
    number: 1,
};

/// The connections that are opened first.
const ONE: Conn = Conn {
    namespace: 0,
    number: 1,
};

const TWO: Conn = Conn {
    namespace: 0,
    number: 2,
};

const THREE: Conn = Conn {
    namespace: 0,
    number: 3,
};

/// A taking goes on where the one before it ended.
const TAKINGS: &[Row<'static>] = &[
    Row::Opens,
    Row::Opens,
    Row::Feeds(1, b"SET a - 1\nGE"),
    Row::Takes(ONE, Ok(b"OK\n")),
    Row::Feeds(1, b"T a\n"),
    Row::Takes(ONE, Ok(b"VAL 1\n")),
    Row::Feeds(1, b""),
    Row::Takes(ONE, Ok(b"")),
    Row::Feeds(2, b"GET a\nSET a - 2\n"),
    Row::Takes(ONE, Ok(b"")),
    Row::Feeds(2, b"DEL a\n"),
    Row::Takes(TWO, Ok(b"VAL 1\nOK\nOK\n")),
    Row::Feeds(1, b"GET a\n"),
    Row::Takes(TWO, Ok(b"")),
    Row::Feeds(1, b"SYNC\n"),
    Row::Takes(ONE, Ok(b"NONE\nSYNC 0 0\n")),
    Row::Feeds(2, b"QUIT\n"),
    Row::Takes(TWO, Ok(b"OK\n")),
    Row::Takes(THREE, Err(ServiceError::NoConnection)),
    Row::Takes(ELSEWHERE, Err(ServiceError::NoNamespace)),
];

/// Each note comes once.
const NOTES: &[Row<'static>] = &[
    Row::Opens,
    Row::Feeds(1, b"SET a - 1\n"),
    Row::Tells(0, Ok(None)),
    Row::Feeds(1, b"SET a - 2\nSET a - 3\nDEL a\n"),
    Row::Tells(0, Ok(Some((RemovalCause::Replaced, b"1")))),
    Row::Feeds(1, b"GET a\n"),
    Row::Tells(0, Ok(Some((RemovalCause::Replaced, b"2")))),
    Row::Feeds(1, b"SET b - 4\nDEL b\n"),
    Row::Tells(0, Ok(Some((RemovalCause::Explicit, b"3")))),
    Row::Feeds(1, b"GET a\n"),
    Row::Tells(0, Ok(Some((RemovalCause::Explicit, b"4")))),
    Row::Feeds(1, b"GET a\n"),
    Row::Tells(0, Ok(None)),
    Row::Tells(1, Err(ServiceError::NoNamespace)),
];

/// Two connections that load the same key send one load, which is taken once, and whose answer both are told.
const LOADS: &[Row<'static>] = &[
    Row::Opens,
    Row::Opens,
    Row::Feeds(1, b"LOAD k\nGET k\n"),
    Row::Feeds(2, b"LOAD k\n"),
    Row::Loads(0, Ok(Some((1, b"k")))),
    Row::Loads(0, Ok(None)),
    Row::Loads(1, Err(ServiceError::NoNamespace)),
    Row::Answers(1),
    Row::Takes(ONE, Ok(b"VAL v\nVAL v\n")),
    Row::Takes(TWO, Ok(b"VAL v\n")),
];

/// Whether an input is taken, where it can be made.
fn takes(service: &mut RecordedService, input: Option<Input>) -> bool {
    match input {
        Some(input) => service.step(input).is_ok(),
        None => false,
    }
}

/// Whether replies are these bytes, if there is memory for a copy.
fn are_bytes(
    alloc: Global,
    replies: &LentReplies<'_>,
    wanted: Result<&[u8], ServiceError>,
) -> bool {
    match replies.to_vec(alloc) {
        Ok(text) => wanted == Ok(text.as_slice()),
        Err(_) => false,
    }
}

/// Whether these bytes are taken.
fn takes_output(
    alloc: Global,
    service: &mut RecordedService,
    conn: Conn,
    wanted: Result<&[u8], ServiceError>,
) -> bool {
    match service.take_output(conn) {
        Ok(replies) => are_bytes(alloc, &replies, wanted),
        Err(error) => wanted == Err(error),
    }
}

/// Whether this note is told: its cause and its value.
fn tells(
    service: &mut RecordedService,
    namespace: u64,
    wanted: Result<Option<(RemovalCause, &[u8])>, ServiceError>,
) -> bool {
    match service.next_notice(namespace) {
        Ok(Some(note)) => wanted == Ok(Some((note.cause, note.value.as_slice()))),
        Ok(None) => wanted == Ok(None),
        Err(error) => wanted == Err(error),
    }
}

/// Whether these are the load, or none.
fn is_load(loads: &[(LoadId, Bytes)], wanted: Result<Option<(u64, &[u8])>, ServiceError>) -> bool {
    match loads {
        [] => wanted == Ok(None),
        [(load, key)] => wanted == Ok(Some((load.number, key.as_slice()))),
        _ => false,
    }
}

/// Whether this load is taken: its number and its key.
fn takes_load(
    service: &mut RecordedService,
    namespace: u64,
    wanted: Result<Option<(u64, &[u8])>, ServiceError>,
) -> bool {
    match service.take_loads(namespace) {
        Ok(loads) => is_load(loads.as_slice(), wanted),
        Err(error) => wanted == Err(error),
    }
}

/// Whether a row comes out so.
fn is_so(alloc: Global, service: &mut RecordedService, row: Row<'_>) -> bool {
    match row {
        Row::Opens => takes(service, Some(Input::Open { namespace: 0 })),
        Row::Feeds(number, text) => takes(service, feed(alloc, conn(number), text)),
        Row::Answers(number) => takes(service, answer(alloc, number)),
        Row::Takes(conn, wanted) => takes_output(alloc, service, conn, wanted),
        Row::Tells(namespace, wanted) => tells(service, namespace, wanted),
        Row::Loads(namespace, wanted) => takes_load(service, namespace, wanted),
    }
}

/// The place of the first row that does not come out so.
fn wrong_row(alloc: Global, service: &mut RecordedService, rows: &[Row<'_>]) -> Option<usize> {
    for (place, row) in rows.iter().enumerate() {
        if !is_so(alloc, service, *row) {
            return Some(place);
        }
    }
    None
}

/// The same of a new service; the first row where none can be made.
fn wrong_row_anew(alloc: Global, rows: &[Row<'_>]) -> Option<usize> {
    match make_recorded(alloc) {
        Some(mut service) => wrong_row(alloc, &mut service, rows),
        None => Some(0),
    }
}

/// No row is wrong, at the second try where memory is refused.
fn none_wrong(rt: &impl Abort, alloc: Global, rows: &[Row<'_>]) {
    let wrong = match wrong_row_anew(alloc, rows) {
        Some(_) => wrong_row_anew(alloc, rows),
        None => None,
    };
    assert_eq!(rt; wrong, None);
}

#[test]
fn takings_go_on_where_they_ended(rt: HostRuntime) {
    none_wrong(&rt, rt.alloc(), TAKINGS);
}

#[test]
fn each_note_comes_once(rt: HostRuntime) {
    none_wrong(&rt, rt.alloc(), NOTES);
}

#[test]
fn loads_are_taken_once(rt: HostRuntime) {
    none_wrong(&rt, rt.alloc(), LOADS);
}

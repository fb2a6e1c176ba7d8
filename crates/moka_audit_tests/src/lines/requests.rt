//! Lines, and what they are read as.
use audit_lines::{Request, read_line};
use audit_model::{Config, EvictionPolicy, LineError, Weight};
use std::alloc::{AllocError, Global};

fn config(own_deadlines: bool) -> Config {
    Config {
        capacity: None,
        policy: EvictionPolicy::Lru,
        parts: 1,
        weight: Weight::One,
        live_ms: None,
        idle_ms: None,
        own_deadlines,
    }
}

/// What a line is to be read as.
#[derive(Clone, Copy)]
enum Wanted<'a> {
    Set(&'a [u8], Option<u64>, &'a [u8]),
    Get(&'a [u8]),
    Has(&'a [u8]),
    Load(&'a [u8]),
    Del(&'a [u8]),
    Add(&'a [u8], Option<u64>, u64),
    DropIf(&'a [u8]),
    Clear,
    Keys,
    Sync,
    Quit,
    Fault(LineError),
}

/// Whether a line is read as that.
fn is_read_as(line: &[u8], own_deadlines: bool, wanted: Wanted<'_>) -> bool {
    match (read_line(&config(own_deadlines), line), wanted) {
        (
            Request::Set {
                key,
                deadline,
                value,
            },
            Wanted::Set(k, d, v),
        ) => { key == k && deadline == d && value == v }
        (Request::Get { key }, Wanted::Get(k)) => key == k,
        (Request::Has { key }, Wanted::Has(k)) => key == k,
        (Request::Load { key }, Wanted::Load(k)) => key == k,
        (Request::Del { key }, Wanted::Del(k)) => key == k,
        (
            Request::Add {
                key,
                deadline,
                number,
            },
            Wanted::Add(k, d, n),
        ) => { key == k && deadline == d && number == n }
        (Request::DropIf { prefix }, Wanted::DropIf(p)) => prefix == p,
        (Request::Clear, Wanted::Clear) => true,
        (Request::Keys, Wanted::Keys) => true,
        (Request::Sync, Wanted::Sync) => true,
        (Request::Quit, Wanted::Quit) => true,
        (Request::Fault(error), Wanted::Fault(e)) => error == e,
        _ => false,
    }
}

/// A line, whether values may have deadlines of their own, and what it is to be read as.
#[derive(Clone, Copy)]
struct Row<'a>(&'a [u8], bool, Wanted<'a>);

/// The place of the first line that is not read so.
fn first_wrong(rows: &[Row<'_>]) -> Option<usize> {
    for (place, row) in rows.iter().enumerate() {
        if !is_read_as(row.0, row.1, row.2) {
            return Some(place);
        }
    }
    None
}

/// Each command.
const COMMANDS: &[Row<'static>] = &[
    Row(
        b"SET a - some value ",
        false,
        Wanted::Set(b"a", None, b"some value "),
    ),
    Row(b"GET a", false, Wanted::Get(b"a")),
    Row(b"DEL ab", false, Wanted::Del(b"ab")),
    Row(b"HAS ab", false, Wanted::Has(b"ab")),
    Row(b"LOAD ab", false, Wanted::Load(b"ab")),
    Row(b"ADD n - 7", false, Wanted::Add(b"n", None, 7)),
    Row(b"DROPIF ab", false, Wanted::DropIf(b"ab")),
    Row(b"CLEAR", false, Wanted::Clear),
    Row(b"KEYS", false, Wanted::Keys),
    Row(b"SYNC", false, Wanted::Sync),
    Row(b"QUIT", false, Wanted::Quit),
];

/// An empty value.
const EMPTY_VALUES: &[Row<'static>] = &[
    Row(b"SET a - ", false, Wanted::Set(b"a", None, b"")),
    Row(b"SET a -", false, Wanted::Fault(LineError::Syntax)),
];

const DEADLINES: &[Row<'static>] = &[
    Row(b"SET a 5 x", true, Wanted::Set(b"a", Some(5), b"x")),
    Row(b"SET a 5 x", false, Wanted::Fault(LineError::Deadline)),
    Row(b"SET a 00 x", true, Wanted::Set(b"a", Some(0), b"x")),
    Row(b"SET a - x", true, Wanted::Set(b"a", None, b"x")),
    Row(
        b"SET a 999999999999 x",
        true,
        Wanted::Set(b"a", Some(999_999_999_999), b"x"),
    ),
    Row(
        b"SET a 000000000007 x",
        true,
        Wanted::Set(b"a", Some(7), b"x"),
    ),
    Row(
        b"SET a 0000000000007 x",
        true,
        Wanted::Fault(LineError::Deadline),
    ),
    Row(b"SET a  x", true, Wanted::Fault(LineError::Deadline)),
    Row(b"SET a 5\r x", true, Wanted::Fault(LineError::Deadline)),
    Row(b"SET a 5 \r", true, Wanted::Fault(LineError::Syntax)),
];

const NUMBERS: &[Row<'static>] = &[
    Row(b"ADD n 5 007", true, Wanted::Add(b"n", Some(5), 7)),
    Row(
        b"ADD n - 18446744073709551615",
        false,
        Wanted::Add(b"n", None, u64::MAX),
    ),
    Row(
        b"ADD n - 00000000000000000001",
        false,
        Wanted::Add(b"n", None, 1),
    ),
    Row(
        b"ADD n - 000000000000000000001",
        false,
        Wanted::Fault(LineError::Number),
    ),
    Row(
        b"ADD n - 18446744073709551616",
        false,
        Wanted::Fault(LineError::Number),
    ),
    Row(
        b"ADD n - 99999999999999999999",
        false,
        Wanted::Fault(LineError::Number),
    ),
    Row(b"ADD n - 1x", false, Wanted::Fault(LineError::Number)),
    Row(b"ADD n - +1", false, Wanted::Fault(LineError::Number)),
    Row(b"ADD n - ", false, Wanted::Fault(LineError::Number)),
    Row(b"ADD n - 1\r", false, Wanted::Fault(LineError::Number)),
    Row(b"ADD n 5 1x", false, Wanted::Fault(LineError::Deadline)),
    Row(b"ADD n 5 1 2", false, Wanted::Fault(LineError::Syntax)),
    Row(b"ADD n - 1 ", false, Wanted::Fault(LineError::Syntax)),
    Row(b"ADD n -", false, Wanted::Fault(LineError::Syntax)),
    Row(b"ADD n", false, Wanted::Fault(LineError::Syntax)),
    Row(b"ADD  - 1", false, Wanted::Fault(LineError::Syntax)),
];

/// What cannot be read.
const UNREAD: &[Row<'static>] = &[
    Row(b"", false, Wanted::Fault(LineError::Command)),
    Row(b"get a", false, Wanted::Fault(LineError::Command)),
    Row(b" GET a", false, Wanted::Fault(LineError::Command)),
    Row(b"GET  a", false, Wanted::Fault(LineError::Syntax)),
    Row(b"GET a ", false, Wanted::Fault(LineError::Syntax)),
    Row(b"GET", false, Wanted::Fault(LineError::Syntax)),
    Row(b"GET a\r", false, Wanted::Fault(LineError::Syntax)),
    Row(b"load a", false, Wanted::Fault(LineError::Command)),
    Row(b"LOADS a", false, Wanted::Fault(LineError::Command)),
    Row(b"CLEAR ", false, Wanted::Fault(LineError::Syntax)),
    Row(b"KEYS a", false, Wanted::Fault(LineError::Syntax)),
    Row(b"SYNC ", false, Wanted::Fault(LineError::Syntax)),
    Row(b"QUIT x", false, Wanted::Fault(LineError::Syntax)),
    Row(b"HAS", false, Wanted::Fault(LineError::Syntax)),
    Row(b"LOAD", false, Wanted::Fault(LineError::Syntax)),
    Row(b"LOAD ", false, Wanted::Fault(LineError::Syntax)),
    Row(b"LOAD a b", false, Wanted::Fault(LineError::Syntax)),
    Row(b"DROPIF a b", false, Wanted::Fault(LineError::Syntax)),
];

const TABLES: &[&[Row<'static>]] = &[COMMANDS, EMPTY_VALUES, DEADLINES, NUMBERS, UNREAD];

/// The first table with a line that is not read so, and the place of the line.
fn first_wrong_table() -> Option<(usize, usize)> {
    for (number, rows) in TABLES.iter().enumerate() {
        if let Some(place) = first_wrong(rows) {
            return Some((number, place));
        }
    }
    None
}

#[test]
fn lines_are_read(rt: HostRuntime) {
    assert_eq!(rt; first_wrong_table(), None);
}

/// A line with so many bytes `k` between two texts, and what it is to be read as.
#[derive(Clone, Copy)]
struct Long<'a>(&'a [u8], usize, &'a [u8], Wanted<'a>);

/// The longest value, the longest key that is asked for, and that of a value.
const LONG: &[Long<'static>] = &[
    Long(
        b"SET a - ",
        8184,
        b"",
        Wanted::Set(b"a", None, &[b'k'; 8184]),
    ),
    Long(b"GET ", 250, b"", Wanted::Get(&[b'k'; 250])),
    Long(b"GET ", 251, b"", Wanted::Fault(LineError::Syntax)),
    Long(b"SET ", 250, b" - x", Wanted::Set(&[b'k'; 250], None, b"x")),
    Long(b"SET ", 251, b" - x", Wanted::Fault(LineError::Syntax)),
];

fn line_of(alloc: Global, long: Long<'_>) -> Result<Vec<u8>, AllocError> {
    let mut line = Vec::from_slice(alloc, long.0)?;
    for _ in 0..long.1 {
        line.push(b'k')?;
    }
    line.extend_from_slice(long.2)?;
    Ok(line)
}

/// Whether such a line is read so.
fn is_long_read(alloc: Global, long: Long<'_>) -> bool {
    match line_of(alloc, long) {
        Ok(line) => is_read_as(&line, false, long.3),
        Err(_) => false,
    }
}

/// How many of these are read so before one is not.
fn right_long(alloc: Global) -> usize {
    for place in 0..LONG.len() {
        if !is_long_read(alloc, LONG[place]) && !is_long_read(alloc, LONG[place]) {
            return place;
        }
    }
    LONG.len()
}

#[test]
fn the_longest_keys_and_values(rt: HostRuntime) {
    assert_eq!(rt; right_long(rt.alloc()), LONG.len());
}

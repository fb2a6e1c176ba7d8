//! Bytes that come in pieces, and the lines that they make.
use audit_lines::{Buffer, MAX_LINE, Next};
use std::alloc::{AllocError, Global};

/// What is done with a buffer, and what has to come of it.
#[derive(Clone, Copy)]
enum Row<'a> {
    Feeds(&'a [u8]),
    /// More bytes than there can be are refused.
    FindsNoRoom,
    /// What the first line is.
    Says(Next),
    /// The first line is this text, which is then dropped.
    Takes(&'a [u8]),
    /// So many bytes have come that no line has taken.
    Holds(usize),
    Clears,
}

fn feed(buffer: &mut Buffer, piece: &[u8]) -> Result<(), AllocError> {
    buffer.reserve(piece.len())?;
    buffer.append(piece);
    Ok(())
}

/// Whether the first line is this text, which is then dropped.
fn takes_line(buffer: &mut Buffer, text: &[u8]) -> bool {
    match buffer.next() {
        Next::Line(n) => {
            let same = buffer.line(n) == text;
            buffer.skip(n);
            same
        }
        _ => false,
    }
}

fn clears(buffer: &mut Buffer) -> bool {
    buffer.clear();
    true
}

/// Does it, and returns whether the result was the expected one.
fn comes_so(buffer: &mut Buffer, row: Row<'_>) -> bool {
    match row {
        Row::Feeds(piece) => feed(buffer, piece).is_ok() || feed(buffer, piece).is_ok(),
        Row::FindsNoRoom => buffer.reserve(usize::MAX).is_err(),
        Row::Says(next) => buffer.next() == next,
        Row::Takes(text) => takes_line(buffer, text),
        Row::Holds(len) => buffer.len() == len && buffer.is_empty() == (len == 0),
        Row::Clears => clears(buffer),
    }
}

/// Does one row after another with a new buffer, and returns the place of the first that failed.
fn first_wrong(alloc: Global, rows: &[Row<'_>]) -> Option<usize> {
    let mut buffer = Buffer::new(alloc);
    for (place, row) in rows.iter().enumerate() {
        if !comes_so(&mut buffer, *row) {
            return Some(place);
        }
    }
    None
}

/// A line in pieces.
const PIECES: &[Row<'static>] = &[
    Row::Holds(0),
    Row::Feeds(b"ab"),
    Row::Says(Next::More),
    Row::Feeds(b"c\r"),
    Row::Says(Next::More),
    Row::Feeds(b"\nde\nf"),
    Row::Takes(b"abc"),
    Row::Takes(b"de"),
    Row::Says(Next::More),
    Row::Holds(1),
    Row::Feeds(b"g\n"),
    Row::Takes(b"fg"),
    Row::Holds(0),
];

/// One carriage return is dropped.
const CARRIAGE_RETURNS: &[Row<'static>] = &[
    Row::Feeds(b"a\r\r\n\r\n\nb\rc\n"),
    Row::Takes(b"a\r"),
    Row::Takes(b""),
    Row::Takes(b""),
    Row::Takes(b"b\rc"),
];

const LONGEST_LINE: &[Row<'static>] = &[
    Row::Feeds(&[b'a'; MAX_LINE]),
    Row::Says(Next::More),
    Row::Feeds(b"\n"),
    Row::Says(Next::Line(8192)),
];

const LINE_TOO_LONG: &[Row<'static>] = &[
    Row::Feeds(&[b'a'; 8193]),
    Row::Says(Next::TooLong),
    Row::Feeds(b"\n"),
    Row::Says(Next::TooLong),
    Row::Clears,
    Row::Holds(0),
    Row::Says(Next::More),
];

/// A value of 8184 bytes, and one of 8185.
const LONGEST_VALUE: &[Row<'static>] = &[
    Row::Feeds(b"SET a - "),
    Row::Feeds(&[b'v'; 8184]),
    Row::Feeds(b"\n"),
    Row::Says(Next::Line(8192)),
];

const VALUE_TOO_LONG: &[Row<'static>] = &[
    Row::Feeds(b"SET a - "),
    Row::Feeds(&[b'v'; 8185]),
    Row::Feeds(b"\n"),
    Row::Says(Next::TooLong),
];

/// A piece comes after a refusal.
const AFTER_A_REFUSAL: &[Row<'static>] = &[
    Row::Feeds(b"one\ntw"),
    Row::Takes(b"one"),
    Row::FindsNoRoom,
    Row::Holds(2),
    Row::Feeds(b"o\n"),
    Row::Takes(b"two"),
];

const CASES: &[&[Row<'static>]] = &[
    PIECES,
    CARRIAGE_RETURNS,
    LONGEST_LINE,
    LINE_TOO_LONG,
    LONGEST_VALUE,
    VALUE_TOO_LONG,
    AFTER_A_REFUSAL,
];

/// The first case that does not come out so, and the place of its first row that does not.
fn first_wrong_case(alloc: Global) -> Option<(usize, usize)> {
    for (number, rows) in CASES.iter().enumerate() {
        if let Some(place) = first_wrong(alloc, rows) {
            return Some((number, place));
        }
    }
    None
}

#[test]
fn lines_come_in_pieces(rt: HostRuntime) {
    assert_eq!(rt; first_wrong_case(rt.alloc()), None);
}

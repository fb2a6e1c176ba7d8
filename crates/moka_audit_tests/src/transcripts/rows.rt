//! Transcripts in their text form as rows, and the verdicts on them.
ghost use Rattle.std.specs.Prelude.{◌<◌};

use audit_text::read_transcript;
use moka_audit::model::{Config, Transcript};
use moka_audit::{Verdict, audit};
use std::alloc::{AllocError, Global};
use std::process::Abort;

/// Lines of a transcript behind its head, in which `'` begins bytes whose `_` is a space, whose `~`
/// is a line feed and whose `^` is a carriage return; and the record at which it breaks a rule, or
/// 0.
pub struct Row {
    pub lines: &'static [u8],
    pub breaks: u64,
}

/// No capacity and no deadlines.
pub const PLAIN: &[u8] =
    b"config capacity=- policy=lru parts=1 weight=one live_ms=- idle_ms=- deadlines=0\nmade 0\n";

/// Values live for a millisecond.
pub const BRIEF: &[u8] =
    b"config capacity=- policy=lru parts=1 weight=one live_ms=1 idle_ms=- deadlines=0\nmade 0\n";

/// Values have deadlines of their own.
pub const OWN: &[u8] =
    b"config capacity=- policy=lru parts=1 weight=one live_ms=- idle_ms=- deadlines=1\nmade 0\n";

/// Two parts.
pub const TWO_PARTS: &[u8] =
    b"config capacity=- policy=lru parts=2 weight=one live_ms=- idle_ms=- deadlines=0\nmade 0\n";

/// Room for one value.
pub const FULL: &[u8] =
    b"config capacity=1 policy=lru parts=1 weight=one live_ms=- idle_ms=- deadlines=0\nmade 0\n";

/// Room for none.
pub const NOTHING: &[u8] =
    b"config capacity=0 policy=lru parts=1 weight=one live_ms=- idle_ms=- deadlines=0\nmade 0\n";

/// A lower-case hex digit.
fn digit(n: u8) -> u8
    requires { n < 16 }
{
    if n < 10 { b'0' + n } else { b'a' - 10 + n }
}

/// The byte that a character of a row stands for.
fn plain(byte: u8) -> u8 {
    match byte {
        b'_' => b' ',
        b'~' => b'\n',
        b'^' => b'\r',
        _ => byte,
    }
}

/// Puts a row's lines behind a text.
fn put_lines(text: &mut Vec<u8>, lines: &[u8]) -> Result<(), AllocError> {
    let mut quoted = false;
    for byte in lines {
        let byte = *byte;
        if byte == b'\'' {
            quoted = true;
            text.push(b'x')?;
        } else if quoted && byte != b' ' && byte != b'\n' {
            text.push(digit(plain(byte) / 16))?;
            text.push(digit(plain(byte) % 16))?;
        } else {
            quoted = false;
            text.push(byte)?;
        }
    }
    Ok(())
}

/// The text of a row.
fn text_of(alloc: Global, head: &[u8], lines: &[u8]) -> Result<Vec<u8>, AllocError> {
    let mut text = Vec::from_slice(alloc, head)?;
    put_lines(&mut text, lines)?;
    Ok(text)
}

/// The record at which a transcript breaks a rule, or 0. None where memory is wanted.
pub fn breaks_at(alloc: Global, config: &Config, transcript: &Transcript) -> Option<u64> {
    match audit(alloc, config, transcript) {
        Verdict::Yes => Some(0),
        Verdict::Breaks(number) => Some(number),
        Verdict::OutOfMemory => None,
    }
}

/// The transcript of a row's lines. None where memory is wanted.
pub fn read_lines(alloc: Global, head: &[u8], lines: &[u8]) -> Option<(Config, Transcript)> {
    match text_of(alloc, head, lines) {
        Ok(text) => read_transcript(alloc, &text).ok(),
        Err(_) => None,
    }
}

/// The verdict on a text: the record at which it breaks a rule, or 0. None where it is no text of a
/// transcript, or memory is wanted.
fn verdict_on(alloc: Global, text: &[u8]) -> Option<u64> {
    match read_transcript(alloc, text) {
        Ok((config, transcript)) => breaks_at(alloc, &config, &transcript),
        Err(_) => None,
    }
}

/// The verdict on a row's lines.
fn verdict_of(alloc: Global, head: &[u8], lines: &[u8]) -> Option<u64> {
    match text_of(alloc, head, lines) {
        Ok(text) => verdict_on(alloc, &text),
        Err(_) => None,
    }
}

/// The verdict on a row's lines. Where memory is wanted they are judged once more.
pub fn verdict_again(alloc: Global, head: &[u8], lines: &[u8]) -> Option<u64> {
    match verdict_of(alloc, head, lines) {
        Some(breaks) => Some(breaks),
        None => verdict_of(alloc, head, lines),
    }
}

/// Whether the verdict on a row is its own.
fn is_right(alloc: Global, head: &[u8], row: &Row) -> bool {
    verdict_again(alloc, head, row.lines) == Some(row.breaks)
}

/// How many rows have the right verdict before one has not.
fn right_rows(alloc: Global, head: &[u8], rows: &[Row]) -> usize {
    for (place, row) in rows.iter().enumerate() {
        if !is_right(alloc, head, row) {
            return place;
        }
    }
    rows.len()
}

/// Rows behind one head.
#[derive(Clone, Copy)]
pub struct Case {
    pub head: &'static [u8],
    pub rows: &'static [Row],
}

/// The first case with a row whose verdict is another, and the place of the row.
fn first_wrong(alloc: Global, cases: &[Case]) -> Option<(usize, usize)> {
    for (number, case) in cases.iter().enumerate() {
        let place = right_rows(alloc, case.head, case.rows);
        if place < case.rows.len() {
            return Some((number, place));
        }
    }
    None
}

/// Each verdict is the right one.
pub fn all_right(rt: &impl Abort, alloc: Global, cases: &[Case]) {
    assert_eq!(rt; first_wrong(alloc, cases), None);
}

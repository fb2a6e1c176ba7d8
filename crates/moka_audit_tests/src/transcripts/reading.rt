//! Texts that are read and written.
use audit_model::{Config, Transcript};
use audit_text::{Replay, TextError, read_inputs, read_transcript, write_transcript};
use std::alloc::{AllocError, Global};

const EXAMPLE: &[u8] =
    b"config capacity=- policy=lru parts=1 weight=one live_ms=- idle_ms=- deadlines=0
made 0
open 1
feed 1 5 x5345542061202d20310a
step 1 run x5345542061202d2031 x4f4b0a - 0
note Replaced x61 x30
close 1
answer 1 7 value x76 -
own 0
ownnote Size x6b x76
giveup 2 9
";

const HEAD: &[u8] =
    b"config capacity=- policy=lru parts=1 weight=one live_ms=- idle_ms=- deadlines=0\nmade 0\n";

const OTHER: &[u8] =
    b"config capacity=18446744073709551615 policy=tinylfu parts=4294967295 weight=bytes live_ms=0 idle_ms=7 deadlines=1
made 18446744073709551615
answer 3 4 none
answer 3 4 fault x
answer 3 4 value x00ff 12
step 9 held x - 4 -
note Expired x x
note Explicit x0a x20
";

const COMMENTED: &[u8] =
    b"# a journal\n\nconfig capacity=- policy=lru parts=1 weight=one live_ms=- idle_ms=- deadlines=0\n# made\nmade 0\n\n#";

/// The transcript of a text, on the second attempt if memory is refused.
fn read(alloc: Global, text: &[u8]) -> Result<(Config, Transcript), TextError> {
    match read_transcript(alloc, text) {
        Err(TextError::OutOfMemory) => read_transcript(alloc, text),
        read => read,
    }
}

/// The inputs of a text, on the second attempt if memory is refused.
fn inputs_of(alloc: Global, text: &[u8]) -> Result<Replay, TextError> {
    match read_inputs(alloc, text) {
        Err(TextError::OutOfMemory) => read_inputs(alloc, text),
        read => read,
    }
}

/// The text of a transcript, on the second attempt if memory is refused.
fn written(alloc: Global, config: &Config, transcript: &Transcript) -> Option<Vec<u8>> {
    match write_transcript(alloc, config, transcript) {
        Ok(text) => Some(text),
        Err(_) => write_transcript(alloc, config, transcript).ok(),
    }
}

/// What is written of what is read, if it is read.
fn written_again(alloc: Global, text: &[u8]) -> Option<Vec<u8>> {
    match read(alloc, text) {
        Ok((config, transcript)) => written(alloc, &config, &transcript),
        Err(_) => None,
    }
}

/// Whether a text is written as this one again.
fn is_written_as(alloc: Global, text: &[u8], written: &[u8]) -> bool {
    match written_again(alloc, text) {
        Some(again) => again.as_slice() == written,
        None => false,
    }
}

/// The error of a text.
fn error_of(alloc: Global, text: &[u8]) -> Option<TextError> {
    read(alloc, text).err()
}

/// The error of a text of inputs.
fn error_of_inputs(alloc: Global, text: &[u8]) -> Option<TextError> {
    inputs_of(alloc, text).err()
}

fn try_behind_head(alloc: Global, rest: &[u8]) -> Result<Vec<u8>, AllocError> {
    let mut text = Vec::from_slice(alloc, HEAD)?;
    text.extend_from_slice(rest)?;
    Ok(text)
}

/// The two lines that begin each text, and what stands behind them, on the second attempt if memory
/// is refused.
fn behind_head(alloc: Global, rest: &[u8]) -> Result<Vec<u8>, AllocError> {
    match try_behind_head(alloc, rest) {
        Ok(text) => Ok(text),
        Err(_) => try_behind_head(alloc, rest),
    }
}

/// What a text is read as.
#[derive(Clone, Copy)]
enum Row<'a> {
    /// A transcript whose line of that number is wrong.
    Whole(&'a [u8], u64),
    /// The same, behind the two lines that begin each text.
    Behind(&'a [u8], u64),
    /// A transcript behind those two lines that is read.
    IsRead(&'a [u8]),
    /// Inputs whose line of that number is wrong.
    Inputs(&'a [u8], u64),
    /// The same, behind those two lines.
    InputsBehind(&'a [u8], u64),
    /// So many inputs behind those two lines.
    AreRead(&'a [u8], usize),
}

/// Whether that line is the wrong one.
fn is_line(error: Option<TextError>, number: u64) -> bool {
    error == Some(TextError::Line(number))
}

/// Whether a text holds one configuration and so many inputs.
fn has_inputs(alloc: Global, text: &[u8], number: usize) -> bool {
    match inputs_of(alloc, text) {
        Ok(replay) => replay.configs.len() == 1 && replay.inputs.len() == number,
        Err(_) => false,
    }
}

/// Whether a text behind the two lines that begin each comes to what its row says.
fn comes_behind(alloc: Global, text: &[u8], row: Row<'_>) -> bool {
    match row {
        Row::Behind(_, number) => is_line(error_of(alloc, text), number),
        Row::IsRead(_) => error_of(alloc, text).is_none(),
        Row::InputsBehind(_, number) => is_line(error_of_inputs(alloc, text), number),
        Row::AreRead(_, number) => has_inputs(alloc, text, number),
        _ => false,
    }
}

/// Whether what stands behind the two lines that begin each text comes to what its row says.
fn comes_with_head(alloc: Global, rest: &[u8], row: Row<'_>) -> bool {
    match behind_head(alloc, rest) {
        Ok(text) => comes_behind(alloc, text.as_slice(), row),
        Err(_) => false,
    }
}

/// Whether a text comes to what its row says.
fn comes_so(alloc: Global, row: Row<'_>) -> bool {
    match row {
        Row::Whole(text, number) => is_line(error_of(alloc, text), number),
        Row::Inputs(text, number) => is_line(error_of_inputs(alloc, text), number),
        Row::Behind(rest, _) | Row::InputsBehind(rest, _) => comes_with_head(alloc, rest, row),
        Row::IsRead(rest) | Row::AreRead(rest, _) => comes_with_head(alloc, rest, row),
    }
}

/// The place of the first row that does not come out so.
fn first_wrong(alloc: Global, rows: &[Row<'_>]) -> Option<usize> {
    for (place, row) in rows.iter().enumerate() {
        if !comes_so(alloc, *row) {
            return Some(place);
        }
    }
    None
}

/// Whether a text has so many records, was made at that moment, and has so many parts.
fn has(alloc: Global, text: &[u8], records: usize, made: u64, parts: u32) -> bool {
    match read(alloc, text) {
        Ok((config, transcript)) => {
            transcript.records.len() == records
                && transcript.made.nanos == made
                && config.parts == parts
        }
        Err(_) => false,
    }
}

/// Whether a text lets values live no time at all.
fn never_live(alloc: Global, text: &[u8]) -> bool {
    match read(alloc, text) {
        Ok((config, _)) => config.live_ms == Some(0),
        Err(_) => false,
    }
}

fn is_example_read(alloc: Global) -> bool {
    has(alloc, EXAMPLE, 5, 0, 1) && is_written_as(alloc, EXAMPLE, EXAMPLE)
}

#[test]
fn the_example_is_read_and_written_again(rt: HostRuntime) {
    assert!(rt; is_example_read(rt.alloc()));
}

fn is_other_read(alloc: Global) -> bool {
    has(alloc, OTHER, 3, u64::MAX, u32::MAX)
        && never_live(alloc, OTHER)
        && is_written_as(alloc, OTHER, OTHER)
}

#[test]
fn other_settings_and_words(rt: HostRuntime) {
    assert!(rt; is_other_read(rt.alloc()));
}

#[test]
fn comments_and_empty_lines_are_skipped(rt: HostRuntime) {
    assert!(rt; is_written_as(rt.alloc(), COMMENTED, HEAD));
}

const BROKEN_LINES: &[Row<'static>] = &[
    Row::Whole(b"", 1),
    Row::Whole(b"made 0\n", 1),
    Row::Whole(b"# one\nconfig capacity=-\n", 2),
    Row::Behind(b"open 1\nopen x\n", 4),
    Row::Behind(b"open  1\n", 3),
    Row::Behind(b"open 1 \n", 3),
    Row::Behind(b"open 01\n", 3),
    Row::Behind(b"open 18446744073709551616\n", 3),
    Row::Behind(b"open 1\r\n", 3),
    Row::Behind(b"feed 1 0 x5\n", 3),
    Row::Behind(b"feed 1 0 x5A\n", 3),
    Row::Behind(b"feed 1 0 55\n", 3),
    Row::Behind(b"made 0\n", 3),
    Row::Behind(HEAD, 3),
    Row::Behind(b"step 1 run x - - -\n", 3),
    Row::Behind(b"open 1\nnote Size x x\n", 4),
    Row::Behind(b"open 1\nstep 1 run x - - -\nown 0\n", 5),
    Row::Behind(b"open 1\nown 0\nown 0\n", 5),
    Row::Behind(b"open 1\nownnote Size x x\nown 0\n", 5),
    Row::Behind(b"open 1\nstep 1 run x - - -\nownnote Size x x\n", 5),
    Row::Behind(b"open 1\nstep 1 ran x - - -\n", 4),
    Row::Behind(b"open 1\nown 0\nnote Size x x\n", 5),
    Row::IsRead(b"open 1\nclose 1\n"),
];

#[test]
fn broken_lines_have_their_numbers(rt: HostRuntime) {
    assert_eq!(rt; first_wrong(rt.alloc(), BROKEN_LINES), None);
}

const INPUTS: &[Row<'static>] = &[
    Row::AreRead(
        b"input 0 open\ninput 0 feed 1 5 x0a\ninput 0 answer 1 7 none\ninput 0 giveup 1 7\ninput 0 close 1\n",
        5,
    ),
    // a number too many
    Row::InputsBehind(
        b"input 0 open\ninput 0 feed 1 5 x0a\ninput 0 answer 1 7 none\ninput 0 giveup 1 7\ninput 0 close 1\ninput 0 open 1\n",
        8,
    ),
    Row::Inputs(b"made 0\n", 1),
    Row::InputsBehind(b"input 00 open\n", 3),
];

#[test]
fn inputs_are_read(rt: HostRuntime) {
    assert_eq!(rt; first_wrong(rt.alloc(), INPUTS), None);
}

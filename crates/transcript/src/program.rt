//! The program over its words and streams.
ghost use Rattle.std.specs.Prelude.{◌≡◌, ◌≢◌, ◌≤◌, ◌⊎◌};

use crate::auditing::judge;
use crate::replaying::{ReplayError, replay};
use audit_text::TextError;
use itoa::Buffer;
use moka_audit::Verdict;
use std::alloc::Global;
use std::convert::AsStr;
use std::io::{ErrorKind, Read, Write};

const USAGE: &[u8] = b"usage: transcript audit | transcript replay\n";

const OUT_OF_MEMORY: &[u8] = b"transcript: out of memory\n";

const READ_FAILED: &[u8] = b"transcript: read failed\n";

const WRITE_FAILED: &[u8] = b"transcript: write failed\n";

const BAD_CONFIGURATION: &[u8] = b"transcript: bad configuration\n";

const BAD_INPUT: &[u8] = b"transcript: bad input, line ";

/// The program, with its arguments and streams. Returns its status: 0 if the transcripts were printed or the one that was read obeys, 3 if
/// it breaks a rule, 1 after an error, 2 if the arguments are wrong. What cannot be written to `errors` is lost.
pub fn transcript<S: AsStr, R: Read, W: Write, E: Write>(
    alloc: Global,
    words: &[S],
    reader: &mut R,
    writer: &mut W,
    errors: &mut E,
) -> u8
    ensures status { result ≤ 3 }
    ensures unread { result ≡ 2 → reader.new ≡ reader.old }
    ensures unwritten { result ≡ 2 → writer.new ≡ writer.old }
{
    if is_word(words, "replay") {
        run_replay(alloc, reader, writer, errors)
    } else if is_word(words, "audit") {
        run_audit(alloc, reader, writer, errors)
    } else {
        let _ = errors.write_all(USAGE);
        2
    }
}

/// The program if its arguments cannot be read: writes the text of the error, and returns the status. If memory ran out, that is 1;
/// arguments that are not text are wrong.
pub fn without_words<E: Write>(cause: ErrorKind, errors: &mut E) -> u8
    ensures memory { cause ≡ ErrorKind.OutOfMemory → result ≡ 1 }
    ensures other { cause ≢ ErrorKind.OutOfMemory → result ≡ 2 }
{
    if cause == ErrorKind::OutOfMemory {
        return fail(errors, OUT_OF_MEMORY);
    }
    let _ = errors.write_all(USAGE);
    2
}

/// Whether this is the one word behind the program's name.
fn is_word<S: AsStr>(words: &[S], wanted: &str) -> bool {
    match words {
        [_, word] => word.as_str() == wanted,
        _ => false,
    }
}

/// Writes the text of an error, and returns the status after it.
fn fail<E: Write>(errors: &mut E, text: &[u8]) -> u8
    ensures { result ≡ 1 }
{
    let _ = errors.write_all(text);
    1
}

/// Reads inputs, plays them, and prints the transcripts.
fn run_replay<R: Read, W: Write, E: Write>(
    alloc: Global,
    reader: &mut R,
    writer: &mut W,
    errors: &mut E,
) -> u8
    ensures status { result ≤ 1 }
{
    let mut text = Vec::new(alloc);
    match reader.read_to_end(&mut text) {
        Ok(_) => {}
        Err(error) => return fail(errors, read_error_text(error.kind())),
    }
    let printed = match replay(alloc, text.as_slice()) {
        Ok(printed) => printed,
        Err(error) => return fail_replay(errors, error),
    };
    match writer.write_all(printed.as_slice()) {
        Ok(()) => 0,
        Err(_) => fail(errors, WRITE_FAILED),
    }
}

/// Reads a transcript, judges it, and prints the verdict. Returns 0, 1 or 3.
fn run_audit<R: Read, W: Write, E: Write>(
    alloc: Global,
    reader: &mut R,
    writer: &mut W,
    errors: &mut E,
) -> u8
    ensures below { result ≤ 3 }
    ensures served { result ≢ 2 }
{
    let mut text = Vec::new(alloc);
    match reader.read_to_end(&mut text) {
        Ok(_) => {}
        Err(error) => return fail(errors, read_error_text(error.kind())),
    }
    match judge(alloc, text.as_slice()) {
        Ok(verdict) => print_verdict(verdict, writer, errors),
        Err(TextError::Line(number)) => fail_line(errors, number),
        Err(TextError::OutOfMemory) => fail(errors, OUT_OF_MEMORY),
    }
}

/// Prints a verdict, and returns the status after it: 0 if the transcript obeys, 3 if it breaks a rule, 1 if there is no verdict.
fn print_verdict<W: Write, E: Write>(verdict: Verdict, writer: &mut W, errors: &mut E) -> u8
    ensures below { result ≤ 3 }
    ensures served { result ≢ 2 }
    ensures yes { result ≡ 0 → verdict ≡ Verdict.Yes }
{
    match verdict {
        Verdict::Yes => match writer.write_all(b"verdict yes\n") {
            Ok(()) => 0,
            Err(_) => fail(errors, WRITE_FAILED),
        },
        Verdict::Breaks(number) => print_break(number, writer, errors),
        Verdict::OutOfMemory => fail(errors, OUT_OF_MEMORY),
    }
}

/// Prints the number of the first record that breaks a rule.
fn print_break<W: Write, E: Write>(number: u64, writer: &mut W, errors: &mut E) -> u8
    ensures { (result ≡ 1) ⊎ (result ≡ 3) }
{
    let mut digits = Buffer::new();
    let head = writer.write_all(b"verdict breaks ");
    let middle = writer.write_all(digits.format(number).as_bytes());
    let end = writer.write_all(b"\n");
    if head.is_ok() && middle.is_ok() && end.is_ok() {
        return 3;
    }
    fail(errors, WRITE_FAILED)
}

/// The text of an error of reading.
fn read_error_text(cause: ErrorKind) -> &'static [u8] {
    if cause == ErrorKind::OutOfMemory {
        OUT_OF_MEMORY
    } else {
        READ_FAILED
    }
}

/// Writes the text of an error of a replay.
fn fail_replay<E: Write>(errors: &mut E, error: ReplayError) -> u8
    ensures { result ≡ 1 }
{
    match error {
        ReplayError::Config => fail(errors, BAD_CONFIGURATION),
        ReplayError::OutOfMemory => fail(errors, OUT_OF_MEMORY),
        ReplayError::Line(number) => fail_line(errors, number),
    }
}

/// Writes the text of an error with the number of its line.
fn fail_line<E: Write>(errors: &mut E, number: u64) -> u8
    ensures { result ≡ 1 }
{
    let mut digits = Buffer::new();
    let _ = errors.write_all(BAD_INPUT);
    let _ = errors.write_all(digits.format(number).as_bytes());
    let _ = errors.write_all(b"\n");
    1
}

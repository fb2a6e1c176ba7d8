//! The rows played from a service, whole and byte by byte, and judged.
use crate::rows::{Came, NOTHING, Row, rows_of_limits, rows_of_lines, rows_of_loads};
use cache_spaces::play;
use moka_audit::model::{Bytes, Config, Conn, Input, Instant, LoadId, Outcome, Seq, Transcript};
use moka_audit::{Verdict, audit};
use rand_core::SeedableRng;
use rand_xoshiro::Xoshiro256PlusPlus;
use std::alloc::{AllocError, Global};
use std::process::Abort;

const START: Instant = Instant { nanos: 0 };

/// How pieces come.
#[derive(Clone, Copy)]
enum Cut {
    Whole,
    ByteByByte,
}

fn bytes(alloc: Global, text: &[u8]) -> Result<Bytes, AllocError> {
    Ok(Seq::from_vec(Vec::from_slice(alloc, text)?))
}

fn load_of(number: u64) -> LoadId {
    LoadId {
        namespace: 0,
        number,
    }
}

fn feed(alloc: Global, number: u64, nanos: u64, piece: &[u8]) -> Result<Input, AllocError> {
    Ok(Input::Feed {
        conn: Conn {
            namespace: 0,
            number,
        },
        piece: bytes(alloc, piece)?,
        moment: Instant { nanos },
    })
}

/// Adds a piece for a connection at a moment, whole.
fn push_whole(
    alloc: Global,
    inputs: &mut Vec<Input>,
    conn: u64,
    nanos: u64,
    piece: &[u8],
) -> Result<(), AllocError> {
    inputs.push(feed(alloc, conn, nanos, piece)?)?;
    Ok(())
}

/// Adds each byte for a connection at a moment.
fn push_bytes(
    alloc: Global,
    inputs: &mut Vec<Input>,
    conn: u64,
    nanos: u64,
    bytes: &[u8],
) -> Result<(), AllocError> {
    for byte in bytes {
        push_whole(alloc, inputs, conn, nanos, &[*byte])?;
    }
    Ok(())
}

/// Adds a piece for a connection at a moment.
fn push_piece(
    alloc: Global,
    inputs: &mut Vec<Input>,
    cut: Cut,
    conn: u64,
    nanos: u64,
    piece: &[u8],
) -> Result<(), AllocError> {
    match cut {
        Cut::Whole => push_whole(alloc, inputs, conn, nanos, piece),
        Cut::ByteByByte => push_bytes(alloc, inputs, conn, nanos, piece),
    }
}

/// Adds so many bytes for a connection, and those behind them.
fn push_filled(
    alloc: Global,
    inputs: &mut Vec<Input>,
    cut: Cut,
    conn: u64,
    many: usize,
    behind: &[u8],
) -> Result<(), AllocError> {
    let mut piece = vec![in alloc; b'x'; many]?;
    piece.extend_from_slice(behind)?;
    push_piece(alloc, inputs, cut, conn, 0, &piece)
}

/// Adds an answer of a load.
fn push_answer(inputs: &mut Vec<Input>, load: u64, outcome: Outcome) -> Result<(), AllocError> {
    inputs.push(Input::Answer {
        load: load_of(load),
        outcome,
        moment: START,
    })?;
    Ok(())
}

/// Adds the give-ups of these loads.
fn push_give_ups(inputs: &mut Vec<Input>, first: u64, last: u64) -> Result<(), AllocError> {
    for load in first..=last {
        inputs.push(Input::GiveUp {
            load: load_of(load),
            moment: START,
        })?;
    }
    Ok(())
}

/// Adds the value of a load.
fn push_value(
    alloc: Global,
    inputs: &mut Vec<Input>,
    load: u64,
    value: &[u8],
) -> Result<(), AllocError> {
    let value = bytes(alloc, value)?;
    push_answer(inputs, load, Outcome::Value(value, None))
}

/// Adds the fault of a load.
fn push_fault(
    alloc: Global,
    inputs: &mut Vec<Input>,
    load: u64,
    text: &[u8],
) -> Result<(), AllocError> {
    let text = bytes(alloc, text)?;
    push_answer(inputs, load, Outcome::Fault(text))
}

/// Adds the opening of a connection.
fn push_open(inputs: &mut Vec<Input>) -> Result<(), AllocError> {
    inputs.push(Input::Open { namespace: 0 })?;
    Ok(())
}

/// Adds what comes.
fn push(
    alloc: Global,
    inputs: &mut Vec<Input>,
    cut: Cut,
    came: Came<'_>,
) -> Result<(), AllocError> {
    match came {
        Came::Open => push_open(inputs),
        Came::Piece(conn, piece) => push_piece(alloc, inputs, cut, conn, 0, piece),
        Came::At(conn, nanos, piece) => push_piece(alloc, inputs, cut, conn, nanos, piece),
        Came::Filled(conn, many, behind) => push_filled(alloc, inputs, cut, conn, many, behind),
        Came::Value(load, value) => push_value(alloc, inputs, load, value),
        Came::Fault(load, text) => push_fault(alloc, inputs, load, text),
        Came::GiveUps(first, last) => push_give_ups(inputs, first, last),
    }
}

/// All that comes.
fn inputs_of(alloc: Global, cut: Cut, came: &[Came<'_>]) -> Result<Vec<Input>, AllocError> {
    let mut inputs = Vec::new(alloc);
    for one in came {
        push(alloc, &mut inputs, cut, *one)?;
    }
    Ok(inputs)
}

/// The transcript of the last namespace, of which there is one, to which these come.
fn play_row(alloc: Global, row: &Row<'_>, inputs: &[Input]) -> Option<Transcript> {
    let generator = Xoshiro256PlusPlus::seed_from_u64(1);
    match play(alloc, &[*row.config], generator, START, inputs) {
        Ok(transcripts) => last_of(transcripts),
        Err(_) => None,
    }
}

/// The last transcript.
fn last_of(transcripts: Vec<Transcript>) -> Option<Transcript> {
    let mut transcripts = transcripts;
    transcripts.pop()
}

/// The replies to a connection.
fn replies_to(alloc: Global, transcript: &Transcript, conn: u64) -> Result<Vec<u8>, AllocError> {
    let mut replies = Vec::new(alloc);
    for entry in transcript.records.as_slice() {
        for step in entry.steps.as_slice() {
            if let Some(reply) = &step.reply {
                if step.conn == conn {
                    replies.extend_from_slice(reply.as_slice())?;
                }
            }
        }
    }
    Ok(replies)
}

/// How many loads went out.
fn loads_of(transcript: &Transcript) -> u64 {
    let mut loads: u64 = 0;
    for entry in transcript.records.as_slice() {
        for step in entry.steps.as_slice() {
            if step.load.is_some() {
                loads = loads.saturating_add(1);
            }
        }
    }
    loads
}

/// Whether a connection is replied so.
fn is_replied(alloc: Global, transcript: &Transcript, conn: u64, wanted: &[u8]) -> bool {
    match replies_to(alloc, transcript, conn) {
        Ok(replies) => replies.as_slice() == wanted,
        Err(_) => false,
    }
}

/// Whether each connection is replied what the row says.
fn has_replies(alloc: Global, transcript: &Transcript, row: &Row<'_>) -> bool {
    for (place, wanted) in row.replies.iter().enumerate() {
        if !is_replied(alloc, transcript, place as u64 + 1, wanted) {
            return false;
        }
    }
    true
}

/// All that comes, on the second attempt if memory is refused.
fn inputs_again(alloc: Global, cut: Cut, came: &[Came<'_>]) -> Result<Vec<Input>, AllocError> {
    match inputs_of(alloc, cut, came) {
        Ok(inputs) => Ok(inputs),
        Err(_) => inputs_of(alloc, cut, came),
    }
}

/// The transcript to which these come, on the second attempt if memory is refused.
fn play_again(alloc: Global, row: &Row<'_>, inputs: &[Input]) -> Option<Transcript> {
    match play_row(alloc, row, inputs) {
        Some(transcript) => Some(transcript),
        None => play_row(alloc, row, inputs),
    }
}

/// The transcript of a row, on the second attempt if memory is refused.
fn played_again(alloc: Global, cut: Cut, row: &Row<'_>) -> Option<Transcript> {
    match inputs_again(alloc, cut, row.came) {
        Ok(inputs) => play_again(alloc, row, &inputs),
        Err(_) => None,
    }
}

/// The verdict, on the second attempt if memory is refused.
fn verdict_again(alloc: Global, config: &Config, transcript: &Transcript) -> Verdict {
    match audit(alloc, config, transcript) {
        Verdict::OutOfMemory => audit(alloc, config, transcript),
        verdict => verdict,
    }
}

/// Whether a transcript comes out as its row says.
fn is_as_said(alloc: Global, transcript: &Transcript, row: &Row<'_>) -> bool {
    loads_of(transcript) == row.loads && has_replies(alloc, transcript, row)
}

/// Whether the transcript of a row is judged to be right, and whether it comes out so.
fn judged(alloc: Global, cut: Cut, row: &Row<'_>) -> (bool, bool) {
    match played_again(alloc, cut, row) {
        Some(transcript) => (
            verdict_again(alloc, row.config, &transcript) == Verdict::Yes,
            is_as_said(alloc, &transcript, row),
        ),
        None => (false, false),
    }
}

/// Whether both are so. A transcript that comes out otherwise, as lines are held back where memory is
/// refused, has to be right too, and then the row is played once more.
fn comes_so(alloc: Global, cut: Cut, row: &Row<'_>) -> bool {
    match judged(alloc, cut, row) {
        (true, false) => judged(alloc, cut, row) == (true, true),
        (is_right, _) => is_right,
    }
}

/// The place of the first row that does not come out so.
fn first_wrong(alloc: Global, cut: Cut, rows: &[Row<'_>]) -> Option<usize> {
    for (place, row) in rows.iter().enumerate() {
        if !comes_so(alloc, cut, row) {
            return Some(place);
        }
    }
    None
}

/// Whether a transcript obeys, and has one verdict by a configuration that it may break.
fn has_one_verdict(alloc: Global, transcript: &Transcript, row: &Row<'_>, other: &Config) -> bool {
    let first = verdict_again(alloc, other, transcript);
    let second = verdict_again(alloc, other, transcript);
    first == second && verdict_again(alloc, row.config, transcript) == Verdict::Yes
}

/// Whether the transcript of a row does.
fn is_steady(alloc: Global, row: &Row<'_>) -> bool {
    match played_again(alloc, Cut::Whole, row) {
        Some(transcript) => has_one_verdict(alloc, &transcript, row, &NOTHING),
        None => false,
    }
}

/// The place of the first row with another verdict where memory was refused once.
fn first_unsteady(alloc: Global, rows: &[Row<'_>]) -> Option<usize> {
    for (place, row) in rows.iter().enumerate() {
        if !is_steady(alloc, row) {
            return Some(place);
        }
    }
    None
}

/// Stops a test where there is a place of what is wrong in its table, and says it.
fn none_wrong(rt: &impl Abort, wrong: Option<usize>) {
    assert_eq!(rt; wrong, None);
}

#[test]
fn lines_with_memory_refused_once(rt: HostRuntime) {
    none_wrong(&rt, first_unsteady(rt.alloc(), rows_of_lines()));
}

#[test]
fn loads_with_memory_refused_once(rt: HostRuntime) {
    none_wrong(&rt, first_unsteady(rt.alloc(), rows_of_loads()));
}

#[test]
fn lines_whole(rt: HostRuntime) {
    none_wrong(&rt, first_wrong(rt.alloc(), Cut::Whole, rows_of_lines()));
}

#[test]
fn lines_byte_by_byte(rt: HostRuntime) {
    none_wrong(
        &rt,
        first_wrong(rt.alloc(), Cut::ByteByByte, rows_of_lines()),
    );
}

#[test]
fn loads_whole(rt: HostRuntime) {
    none_wrong(&rt, first_wrong(rt.alloc(), Cut::Whole, rows_of_loads()));
}

#[test]
fn loads_byte_by_byte(rt: HostRuntime) {
    none_wrong(
        &rt,
        first_wrong(rt.alloc(), Cut::ByteByByte, rows_of_loads()),
    );
}

#[test]
fn limits_whole(rt: HostRuntime) {
    none_wrong(&rt, first_wrong(rt.alloc(), Cut::Whole, rows_of_limits()));
}

#[test]
fn limits_byte_by_byte(rt: HostRuntime) {
    none_wrong(
        &rt,
        first_wrong(rt.alloc(), Cut::ByteByByte, rows_of_limits()),
    );
}

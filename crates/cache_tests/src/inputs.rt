//! The inputs of what is asked.
use crate::rows::{Asked, Given, Row};
use audit_model::{Bytes, Conn, Input, Instant, Outcome, Seq};
use std::alloc::{AllocError, Global};

fn text(alloc: Global, text: &[u8]) -> Result<Bytes, AllocError> {
    Ok(Seq::from_vec(Vec::from_slice(alloc, text)?))
}

/// A text of so many bytes.
fn long_text(alloc: Global, length: usize) -> Result<Bytes, AllocError> {
    Ok(Seq::from_vec(vec![in alloc; b'x'; length]?))
}

fn outcome(alloc: Global, given: Given<'_>) -> Result<Outcome, AllocError> {
    match given {
        Given::Value(value, own) => Ok(Outcome::Value(text(alloc, value)?, own)),
        Given::Long(length) => Ok(Outcome::Value(long_text(alloc, length)?, None)),
        Given::Nothing => Ok(Outcome::None),
        Given::Fault(words) => Ok(Outcome::Fault(text(alloc, words)?)),
    }
}

/// A piece of a connection's bytes.
pub fn feed(conn: Conn, piece: Bytes, moment: Instant) -> Input {
    Input::Feed {
        conn,
        piece,
        moment,
    }
}

/// The input of what is asked at a moment.
fn try_input(alloc: Global, asked: Asked<'_>, moment: Instant) -> Result<Input, AllocError> {
    match asked {
        Asked::Opens(namespace) => Ok(Input::Open { namespace }),
        Asked::Feeds(conn, bytes) => Ok(feed(conn, text(alloc, bytes)?, moment)),
        Asked::Fills(conn, length) => Ok(feed(conn, long_text(alloc, length)?, moment)),
        Asked::Closes(conn) => Ok(Input::Close { conn }),
        Asked::Answers(load, given) => Ok(Input::Answer {
            load,
            outcome: outcome(alloc, given)?,
            moment,
        }),
        Asked::GivesUp(load) => Ok(Input::GiveUp { load, moment }),
    }
}

/// The same, on the second attempt if memory is refused.
pub fn input_of(alloc: Global, asked: Asked<'_>, moment: Instant) -> Result<Input, AllocError> {
    match try_input(alloc, asked, moment) {
        Err(_) => try_input(alloc, asked, moment),
        made => made,
    }
}

fn is_given(outcome: &Outcome, given: Given<'_>) -> bool {
    match (outcome, given) {
        (Outcome::Value(bytes, time), Given::Value(value, own)) => {
            bytes.as_slice() == value && *time == own
        }
        (Outcome::Value(bytes, None), Given::Long(length)) => bytes.len() == length,
        (Outcome::None, Given::Nothing) => true,
        (Outcome::Fault(bytes), Given::Fault(words)) => bytes.as_slice() == words,
        _ => false,
    }
}

/// Whether an input that was handed back is the one of what was asked, where that is a piece, an outcome or a give-up.
pub fn is_back(input: &Input, asked: Asked<'_>) -> bool {
    match (input, asked) {
        (Input::Answer { outcome, .. }, Asked::Answers(_, given)) => is_given(outcome, given),
        (Input::GiveUp { load, .. }, Asked::GivesUp(wanted)) => *load == wanted,
        (Input::Feed { piece, .. }, Asked::Feeds(_, wanted)) => piece.as_slice() == wanted,
        _ => true,
    }
}

/// What a row asks, if it is an input.
fn asked_of<'a>(row: Row<'a>) -> Option<Asked<'a>> {
    match row {
        Row::Opens(conn) => Some(Asked::Opens(conn.namespace)),
        Row::Says(conn, piece, _) => Some(Asked::Feeds(conn, piece)),
        Row::Holds(conn, piece) => Some(Asked::Feeds(conn, piece)),
        Row::Does(asked) => Some(asked),
        Row::Refuses(asked, _) => Some(asked),
        _ => None,
    }
}

/// The moment from a row on.
pub fn moment_from(row: Row<'_>, now: Instant) -> Instant {
    match row {
        Row::At(nanos) => Instant { nanos },
        _ => now,
    }
}

/// Adds the input of a row, if it has one.
fn push_input(
    alloc: Global,
    inputs: &mut Vec<Input>,
    row: Row<'_>,
    now: Instant,
) -> Result<(), AllocError> {
    match asked_of(row) {
        Some(asked) => Ok(inputs.push(input_of(alloc, asked, now)?)?),
        None => Ok(()),
    }
}

/// Adds the inputs of these rows from a moment on.
fn push_inputs(
    alloc: Global,
    inputs: &mut Vec<Input>,
    made: Instant,
    rows: &[Row<'_>],
) -> Result<(), AllocError> {
    let mut now = made;
    for row in rows {
        now = moment_from(*row, now);
        push_input(alloc, inputs, *row, now)?;
    }
    Ok(())
}

/// The inputs of these rows from a moment on.
pub fn inputs_of(alloc: Global, made: Instant, rows: &[Row<'_>]) -> Result<Vec<Input>, AllocError> {
    let mut inputs = Vec::new(alloc);
    match push_inputs(alloc, &mut inputs, made, rows) {
        Ok(()) => Ok(inputs),
        Err(error) => Err(error),
    }
}

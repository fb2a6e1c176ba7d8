//! Inputs and their events.
ghost use Rattle.std.specs.Prelude.{◌≡◌, true, false, IfOk};
ghost use Rattle.audit_laws.specs.Receipts.Answers.{input_of};

use audit_model::{Bytes, Event, Input, Outcome, copy_bytes};
use std::alloc::{AllocError, Global};

/// Returns an input equal to this one, in memory of its own, or an error if there is not enough memory.
pub fn copy_input(alloc: Global, input: &Input) -> Result<Input, AllocError>
    ensures { IfOk result (λ copy. copy ≡ input.now) }
{
    match input {
        Input::Open { namespace } => Ok(Input::Open {
            namespace: *namespace,
        }),
        Input::Close { conn } => Ok(Input::Close { conn: *conn }),
        Input::Feed {
            conn,
            piece,
            moment,
        } => Ok(Input::Feed {
            conn: *conn,
            piece: copy_bytes(alloc, piece)?,
            moment: *moment,
        }),
        Input::Answer {
            load,
            outcome,
            moment,
        } => Ok(Input::Answer {
            load: *load,
            outcome: copy_outcome(alloc, outcome)?,
            moment: *moment,
        }),
        Input::GiveUp { load, moment } => Ok(Input::GiveUp {
            load: *load,
            moment: *moment,
        }),
    }
}

/// Returns an outcome equal to this one, in memory of its own, or an error if there is not enough memory.
pub fn copy_outcome(alloc: Global, outcome: &Outcome) -> Result<Outcome, AllocError>
    ensures { IfOk result (λ copy. copy ≡ outcome.now) }
{
    match outcome {
        Outcome::Value(bytes, ms) => Ok(Outcome::Value(copy_bytes(alloc, bytes)?, *ms)),
        Outcome::None => Ok(Outcome::None),
        Outcome::Fault(text) => Ok(Outcome::Fault(copy_bytes(alloc, text)?)),
    }
}

/// Returns whether the input asks for this event in this namespace.
pub fn asks(input: &Input, namespace: u64, event: &Event) -> bool
    ensures yes { result ≡ true → input.now ≡ input_of namespace event.now }
    ensures no { result ≡ false → input.now ≡ input_of namespace event.now → ⊥ }
{
    match event {
        Event::Open { .. } => match input {
            Input::Open { namespace: asked } => *asked == namespace,
            _ => false,
        },
        Event::Close { conn: number } => match input {
            Input::Close { conn } => conn.namespace == namespace && conn.number == *number,
            _ => false,
        },
        Event::Feed {
            conn: number,
            piece: bytes,
            moment: at,
        } => match input {
            Input::Feed {
                conn,
                piece,
                moment,
            } => {
                conn.namespace == namespace
                    && conn.number == *number
                    && moment.nanos == at.nanos
                    && same_bytes(piece, bytes)
            }
            _ => false,
        },
        Event::Answer {
            load: number,
            outcome: came,
            moment: at,
        } => match input {
            Input::Answer {
                load,
                outcome,
                moment,
            } => {
                load.namespace == namespace
                    && load.number == *number
                    && moment.nanos == at.nanos
                    && same_outcome(outcome, came)
            }
            _ => false,
        },
        Event::GiveUp {
            load: number,
            moment: at,
        } => match input {
            Input::GiveUp { load, moment } => {
                load.namespace == namespace && load.number == *number && moment.nanos == at.nanos
            }
            _ => false,
        },
    }
}

/// Whether the outcomes are the same.
fn same_outcome(a: &Outcome, b: &Outcome) -> bool
    ensures yes { result ≡ true → a.now ≡ b.now }
    ensures no { result ≡ false → a.now ≡ b.now → ⊥ }
{
    match a {
        Outcome::Value(bytes, ms) => match b {
            Outcome::Value(other, other_ms) => *ms == *other_ms && same_bytes(bytes, other),
            _ => false,
        },
        Outcome::None => match b {
            Outcome::None => true,
            _ => false,
        },
        Outcome::Fault(text) => match b {
            Outcome::Fault(other) => same_bytes(text, other),
            _ => false,
        },
    }
}

/// Whether the bytes are the same.
fn same_bytes(a: &Bytes, b: &Bytes) -> bool
    ensures yes { result ≡ true → a.now ≡ b.now }
    ensures no { result ≡ false → a.now ≡ b.now → ⊥ }
{
    a.as_slice() == b.as_slice()
}

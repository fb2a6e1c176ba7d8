//! The replies that steps owe.
ghost use Rattle.std.specs.Prelude.{◌≡◌, ◌++◌, IfOk, option_map, decimal};
ghost use Rattle.std.specs.Option.{option_eq};
ghost use Rattle.audit_model.specs.Bytewise.{same, text_line};
ghost use Rattle.audit_model.specs.History.{accepts_values};
ghost use Rattle.audit_model.specs.Replies.{value_reply, value_or_none, yes_or_no, ok_or_off, sum_with, sum_or_error, fault_text, outcome_text, count_and_weight};
ghost use Rattle.audit_situation.specs.Held.Seeing.{held_of};
ghost use Rattle.audit_situation.specs.Held.Weights.{values_of};

use audit_lines::number;
use audit_model::{Config, LineError, Outcome};
use audit_situation::{Holding, Seen};
use itoa::Buffer;
use std::alloc::{AllocError, Global};

/// A text and bytes, with a line feed.
fn line_of(alloc: Global, text: &[u8], bytes: &[u8]) -> Result<Vec<u8>, AllocError>
    ensures { IfOk result (λ line. line.items ≡ text_line (text.now ++ bytes.now)) }
{
    let mut line = Vec::from_slice(alloc, text)?;
    line.extend_from_slice(bytes)?;
    line.push(b'\n')?;
    Ok(line)
}

/// Returns the reply `VAL` with these bytes. Returns an error if there is not enough memory.
pub fn value_reply(alloc: Global, bytes: &[u8]) -> Result<Vec<u8>, AllocError>
    ensures { IfOk result (λ line. line.items ≡ value_reply bytes.now) }
{
    line_of(alloc, b"VAL ", bytes)
}

/// Returns the reply with the value that was found, or `NONE` without one. Returns an error if there is not enough memory.
pub fn value_or_none(alloc: Global, found: Option<Seen<'_>>) -> Result<Vec<u8>, AllocError>
    ensures { IfOk result
        (λ line. line.items ≡ value_or_none (option_map (λ h. (held_of h).value) found.entry)) }
{
    match found {
        Some(held) => value_reply(alloc, held.bytes),
        None => Vec::from_slice(alloc, b"NONE\n"),
    }
}

/// Returns the reply `YES` if there is a live value, and otherwise `NO`.
pub fn yes_or_no(found: Option<Seen<'_>>) -> &'static [u8]
    ensures { result.now ≡ yes_or_no (option_map (λ h. (held_of h).value) found.entry) }
{
    match found {
        Some(_) => b"YES\n",
        None => b"NO\n",
    }
}

/// Returns whether values are accepted: the capacity is not 0.
pub fn accepts(config: &Config) -> bool
    ensures { result ≡ accepts_values config.now.capacity }
{
    match config.capacity {
        Some(limit) => limit > 0,
        None => true,
    }
}

/// Returns the reply `OFF` if no value is accepted, and otherwise `OK`.
pub fn ok_or_off(config: &Config) -> &'static [u8]
    ensures { result.now ≡ ok_or_off config.now }
{
    if accepts(config) { b"OK\n" } else { b"OFF\n" }
}

/// Returns the sum that an `ADD` stores, or `None` if the value is not a number or the sum is above 2^64 - 1.
pub fn sum_with(found: Option<Seen<'_>>, added: u64) -> Option<u64>
    ensures { result ≡ sum_with (option_map (λ h. (held_of h).value) found.entry) added }
{
    match found {
        Some(held) => match number(held.bytes) {
            Some(old) => old.checked_add(added),
            None => None,
        },
        None => Some(added),
    }
}

/// Returns the decimal digits of a number. Returns an error if there is not enough memory.
pub fn digits_of(alloc: Global, number: u64) -> Result<Vec<u8>, AllocError>
    ensures { IfOk result (λ digits. digits.items ≡ decimal number) }
{
    let mut buffer = Buffer::new();
    Vec::from_slice(alloc, buffer.format(number).as_bytes())
}

/// Returns the reply with the sum as a value, or `ERR number` without a sum. Returns an error if there is not enough memory.
pub fn sum_or_error(alloc: Global, sum: Option<u64>) -> Result<Vec<u8>, AllocError>
    ensures { IfOk result (λ line. line.items ≡ sum_or_error sum) }
{
    match sum {
        Some(sum) => {
            let digits = digits_of(alloc, sum)?;
            value_reply(alloc, &digits)
        }
        None => Vec::from_slice(alloc, b"ERR number\n"),
    }
}

/// Returns the reply to a line that cannot be parsed.
pub fn fault_text(error: LineError) -> &'static [u8]
    ensures { result.now ≡ fault_text error }
{
    match error {
        LineError::Command => b"ERR command\n",
        LineError::Syntax => b"ERR syntax\n",
        LineError::Deadline => b"ERR deadline\n",
        LineError::Number => b"ERR number\n",
    }
}

/// Returns the reply to a waiting `LOAD` that receives this outcome. Returns an error if there is not enough memory.
pub fn outcome_text(alloc: Global, outcome: &Outcome) -> Result<Vec<u8>, AllocError>
    ensures { IfOk result (λ line. line.items ≡ outcome_text outcome.now) }
{
    match outcome {
        Outcome::Value(bytes, _) => value_reply(alloc, bytes.as_slice()),
        Outcome::None => Vec::from_slice(alloc, b"NONE\n"),
        Outcome::Fault(text) => line_of(alloc, b"ERR load ", text.as_slice()),
    }
}

/// Returns the number of values, and their total weight, as a `SYNC` replies them. Returns an error if there is not enough memory.
pub fn counts_of(alloc: Global, held: &Holding) -> Result<Vec<u8>, AllocError>
    ensures { IfOk result (λ line. line.items ≡ count_and_weight (values_of held.now)) }
{
    let mut number = Buffer::new();
    let mut weight = Buffer::new();
    let mut line = Vec::from_slice(alloc, b"SYNC ")?;
    line.extend_from_slice(number.format(held.len()).as_bytes())?;
    line.extend_from_slice(b" ")?;
    line.extend_from_slice(weight.format(held.total()).as_bytes())?;
    line.push(b'\n')?;
    Ok(line)
}

/// Returns whether the two are the same bytes, or neither exists.
pub fn is_said(reply: Option<&[u8]>, owed: Option<&[u8]>) -> bool
    ensures { result ≡ option_eq same (option_map (λ r. r.now) reply.entry)
        (option_map (λ r. r.now) owed.entry) }
{
    match reply {
        Some(reply) => match owed {
            Some(owed) => reply == owed,
            None => false,
        },
        None => owed.is_none(),
    }
}

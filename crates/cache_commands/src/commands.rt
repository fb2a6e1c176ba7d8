//! Commands.
ghost use Rattle.std.specs.Prelude.{◌≡◌, ◌≤◌, ◌++◌, ℕ, None, IfOk, OnOk, OnErr, Ok, Err, length, vec_len, vec_capacity, ◌+◌, codes, decimal, option_map};
ghost use Rattle.std.specs.Result.{IsErrOf};
ghost use Rattle.audit_model.specs.History.{accepts_values};
ghost use Rattle.audit_model.specs.Replies.{fault_text};
ghost use Rattle.audit_model.specs.declared.command.Command.TheVariants as says;
ghost use Rattle.cache_commands.specs.Answered.{IsAnswered, IsTakable};
ghost use Rattle.cache_commands.specs.Found.{found_text};
ghost use Rattle.cache_commands.specs.Values.{IsMoment, IsSpent};

use crate::error::StoreError;
use crate::store::{Counts, Store};
use crate::writing::{write, write_line};
use audit_model::{Accepted, Key, LineError};
use itoa::Buffer;
use std::alloc::AllocError;

/// The room in bytes for each text of a reply that has no value and no key in it.
pub const SHORT: usize = 96;

/// Runs a `GET`, and appends its reply to `output`. Returns an error if there is not enough memory; then nothing has changed.
pub fn get<S: Store>(
    store: &mut S,
    key: &Key,
    now: u64,
    output: &mut Vec<u8>,
) -> Result<(), AllocError>
    requires { IsMoment (S.view store.old) now }
    ensures ok { OnOk result (IsAnswered now (Ok (says.Get key.now)) None (S.view store.old)
        (S.view store.new) output.old.items output.new.items) }
    ensures unchanged { OnErr result (store.new ≡ store.old) }
    ensures unwritten { OnErr result (output.new.items ≡ output.old.items) }
{
    store.sound();
    store.look_up(key, now, output, |found, output| write_found(output, found))
}

/// Writes what was found.
fn write_found(output: &mut Vec<u8>, found: Option<&[u8]>) -> Result<(), AllocError>
    ensures written { OnOk result (output.new.items ≡ output.old.items
        ++ found_text (option_map (λ bytes. bytes.now) found.entry)) }
    ensures unwritten { OnErr result (output.new.items ≡ output.old.items) }
{
    match found {
        Some(bytes) => write_value(output, bytes),
        None => write_short(output, b"NONE\n"),
    }
}

/// Writes a value that was found.
pub(crate) fn write_value(output: &mut Vec<u8>, bytes: &[u8]) -> Result<(), AllocError>
    ensures written { OnOk result
        (output.new.items ≡ output.old.items ++ (codes "VAL " ++ bytes.now ++ codes "\n")) }
    ensures unwritten { OnErr result (output.new.items ≡ output.old.items) }
{
    output.try_reserve(bytes.len() + SHORT)?;
    write_line(output, b"VAL ", bytes);
    Ok(())
}

/// Writes a short text, for which it makes room.
pub(crate) fn write_short(output: &mut Vec<u8>, text: &[u8]) -> Result<(), AllocError>
    requires { length text.now ≤ SHORT }
    ensures written { OnOk result (output.new.items ≡ output.old.items ++ text.now) }
    ensures unwritten { OnErr result (output.new.items ≡ output.old.items) }
{
    output.try_reserve(SHORT)?;
    write(output, text);
    Ok(())
}

/// Runs a `SET`, appends its reply to `output`, and returns the part that took the value, or `None` at capacity 0. Returns `OutOfMemory` if
/// there is not enough memory, and `UsedUp` if a 64-bit number is used up; then nothing has changed.
pub fn set<S: Store>(
    store: &mut S,
    key: &Key,
    milliseconds: Option<u64>,
    value: &[u8],
    now: u64,
    output: &mut Vec<u8>,
) -> Result<Option<Accepted>, StoreError>
    requires in_time { IsMoment (S.view store.old) now }
    requires takable { IsTakable (S.view store.old).frame.config value.now milliseconds }
    ensures ok { IfOk result
        (λ accepted. IsAnswered now (Ok (says.Set key.now milliseconds value.now)) accepted
        (S.view store.old) (S.view store.new) output.old.items output.new.items) }
    ensures used_up { IsErrOf result StoreError.UsedUp → IsSpent (S.view store.old) }
    ensures unchanged { OnErr result (store.new ≡ store.old) }
    ensures unwritten { OnErr result (output.new.items ≡ output.old.items) }
{
    store.sound();
    output.try_reserve(SHORT)?;
    if !accepts(store.config().capacity) {
        write(output, b"OFF\n");
        return Ok(None);
    }
    let part = store.accept(key, value, milliseconds, now)?;
    write(output, b"OK\n");
    Ok(Some(Accepted { part }))
}

/// Returns whether values are accepted at that capacity.
pub fn accepts(capacity: Option<u64>) -> bool
    ensures { result ≡ accepts_values capacity }
{
    !matches!(capacity, Some(0))
}

/// Runs a `DEL`, and appends its reply to `output`. Returns `OutOfMemory` if there is not enough memory, and `UsedUp` if a 64-bit number is
/// used up; then nothing has changed.
pub fn del<S: Store>(
    store: &mut S,
    key: &Key,
    now: u64,
    output: &mut Vec<u8>,
) -> Result<(), StoreError>
    requires { IsMoment (S.view store.old) now }
    ensures ok { OnOk result (IsAnswered now (Ok (says.Del key.now)) None (S.view store.old)
        (S.view store.new) output.old.items output.new.items) }
    ensures used_up { IsErrOf result StoreError.UsedUp → IsSpent (S.view store.old) }
    ensures unchanged { OnErr result (store.new ≡ store.old) }
    ensures unwritten { OnErr result (output.new.items ≡ output.old.items) }
{
    store.sound();
    output.try_reserve(SHORT)?;
    store.remove(key, now)?;
    write(output, b"OK\n");
    Ok(())
}

/// Runs a `SYNC`, and appends its reply to `output`. Returns an error if there is not enough memory; then nothing has changed.
pub fn sync<S: Store>(store: &mut S, now: u64, output: &mut Vec<u8>) -> Result<(), AllocError>
    requires { IsMoment (S.view store.old) now }
    ensures ok { OnOk result (IsAnswered now (Ok says.Sync) None (S.view store.old)
        (S.view store.new) output.old.items output.new.items) }
    ensures unchanged { OnErr result (store.new ≡ store.old) }
    ensures unwritten { OnErr result (output.new.items ≡ output.old.items) }
{
    store.sound();
    output.try_reserve(SHORT)?;
    let counts = store.run_all(now);
    write_counts(output, counts);
    Ok(())
}

/// Writes how many values are held, and what they weigh.
fn write_counts(output: &mut Vec<u8>, counts: Counts)
    requires { vec_len output.old + SHORT ≤ vec_capacity output.old }
    ensures { output.new.items ≡ output.old.items ++ (codes "SYNC " ++ decimal counts.number
        ++ codes " " ++ decimal counts.weight ++ codes "\n") }
{
    let mut number = Buffer::new();
    let mut weight = Buffer::new();
    write(output, b"SYNC ");
    write(output, number.format(counts.number).as_bytes());
    write_line(output, b" ", weight.format(counts.weight).as_bytes());
}

/// Appends the reply to a line that cannot be parsed to `output`. Returns an error if there is not enough memory; then nothing is written.
pub fn fault<S: Store>(store: &S, error: LineError, output: &mut Vec<u8>) -> Result<(), AllocError>
    ensures ok { OnOk result ((now : ℕ) → IsMoment (S.view store.now) now → IsAnswered now
        (Err error) None (S.view store.now) (S.view store.now) output.old.items output.new.items) }
    ensures unwritten { OnErr result (output.new.items ≡ output.old.items) }
{
    store.sound();
    write_short(output, text_of(error))
}

/// The reply to a line that cannot be read.
fn text_of(error: LineError) -> &'static [u8]
    ensures text { result.now ≡ fault_text error }
    ensures short { length result.now ≤ 96 }
{
    match error {
        LineError::Command => b"ERR command\n",
        LineError::Syntax => b"ERR syntax\n",
        LineError::Deadline => b"ERR deadline\n",
        LineError::Number => b"ERR number\n",
    }
}

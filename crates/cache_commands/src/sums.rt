//! Sums.
ghost use Rattle.std.specs.Prelude.{◌≡◌, ◌++◌, ℕ, IfOk, OnOk, OnErr, Ok, Some, None, IsTrue, true, option_map, codes, decimal};
ghost use Rattle.std.specs.Result.{IsErrOf};
ghost use Rattle.audit_model.specs.History.{accepts_values};
ghost use Rattle.audit_model.specs.declared.command.Command.TheVariants as says;
ghost use Rattle.audit_lines.specs.Request.{IsOwn};
ghost use Rattle.cache_commands.specs.Sums.{sum_of_bytes};
ghost use Rattle.cache_commands.specs.Answered.{IsAnswered};
ghost use Rattle.cache_commands.specs.Values.{AcceptsValue, IsMoment, IsSpent};

use crate::commands::{SHORT, accepts, write_short};
use crate::error::StoreError;
use crate::store::Store;
use crate::writing::write_line;
use audit_lines::number;
use audit_model::{Accepted, Key};
use itoa::Buffer;

/// Runs an `ADD`, appends its reply to `output`, and returns the part that took the sum, or `None` at capacity 0 and if there is no sum.
/// Returns `OutOfMemory` if there is not enough memory, and `UsedUp` if a 64-bit number is used up; then nothing has changed.
pub fn add<S: Store>(
    store: &mut S,
    key: &Key,
    milliseconds: Option<u64>,
    added: u64,
    now: u64,
    output: &mut Vec<u8>,
) -> Result<Option<Accepted>, StoreError>
    requires in_time { IsMoment (S.view store.old) now }
    requires own { IsOwn (S.view store.old).frame.config milliseconds }
    ensures ok { IfOk result (λ accepted. IsAnswered now (Ok (says.Add key.now milliseconds added))
        accepted (S.view store.old) (S.view store.new) output.old.items output.new.items) }
    ensures used_up { IsErrOf result StoreError.UsedUp → IsSpent (S.view store.old) }
    ensures unchanged { OnErr result (store.new ≡ store.old) }
    ensures unwritten { OnErr result (output.new.items ≡ output.old.items) }
{
    store.sound();
    if !accepts(store.config().capacity) {
        store.look_up(
            key,
            now,
            output,
            |_found, output| write_short(output, b"OFF\n"),
        )?;
        return Ok(None);
    }
    match store.look_up(
        key,
        now,
        output,
        |found, output| write_unsummed(output, found, added),
    ) {
        Ok(()) => Ok(None),
        Err(Unused::Sum(sum)) => {
            let part = accept_sum(store, key, milliseconds, sum, now, output)?;
            Ok(Some(Accepted { part }))
        }
        Err(Unused::OutOfMemory) => Err(StoreError::OutOfMemory),
    }
}

/// Why the look-up of an `ADD` is no use of the value by itself.
#[derive(Clone, Copy, Drop)]
enum Unused {
    /// There is a sum.
    Sum(u64),
    /// There is no memory for the reply.
    OutOfMemory,
}

/// Writes that there is no sum, if there is none.
fn write_unsummed(output: &mut Vec<u8>, found: Option<&[u8]>, added: u64) -> Result<(), Unused>
    ensures written { OnOk result (output.new.items ≡ output.old.items ++ codes "ERR number\n") }
    ensures none { OnOk result
        (sum_of_bytes (option_map (λ bytes. bytes.now) found.entry) added ≡ None) }
    ensures sum { (sum : ℕ) → IsErrOf result (Unused.Sum sum)
        → sum_of_bytes (option_map (λ bytes. bytes.now) found.entry) added ≡ Some sum }
    ensures unwritten { OnErr result (output.new.items ≡ output.old.items) }
{
    if let Some(sum) = sum_of(found, added) {
        return Err(Unused::Sum(sum));
    }
    write_short(output, b"ERR number\n").map_err(|_| Unused::OutOfMemory)
}

/// The sum of what is found and the number, if what is found is a number and the sum is at most 2^64 - 1.
fn sum_of(found: Option<&[u8]>, added: u64) -> Option<u64>
    ensures { result ≡ sum_of_bytes (option_map (λ bytes. bytes.now) found.entry) added }
{
    match found {
        Some(bytes) => number(bytes)?.checked_add(added),
        None => Some(added),
    }
}

/// Has a sum accepted, writes it, and says which part took it.
fn accept_sum<S: Store>(
    store: &mut S,
    key: &Key,
    milliseconds: Option<u64>,
    sum: u64,
    now: u64,
    output: &mut Vec<u8>,
) -> Result<u64, StoreError>
    requires in_time { IsMoment (S.view store.old) now }
    requires takes { IsTrue (accepts_values (S.view store.old).frame.config.capacity) }
    requires own { IsOwn (S.view store.old).frame.config milliseconds }
    ensures written { OnOk result
        (output.new.items ≡ output.old.items ++ (codes "VAL " ++ decimal sum ++ codes "\n")) }
    ensures accepted { IfOk result (λ part. AcceptsValue now key.now (decimal sum) milliseconds true
        part (S.view store.old) (S.view store.new)) }
    ensures used_up { IsErrOf result StoreError.UsedUp → IsSpent (S.view store.old) }
    ensures unchanged { OnErr result (store.new ≡ store.old) }
    ensures unwritten { OnErr result (output.new.items ≡ output.old.items) }
{
    output.try_reserve(SHORT)?;
    let mut buffer = Buffer::new();
    let digits = buffer.format(sum).as_bytes();
    let part = store.accept(key, digits, milliseconds, now)?;
    write_line(output, b"VAL ", digits);
    Ok(part)
}

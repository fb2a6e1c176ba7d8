//! Commands that cover values, so that they are seen no more.
ghost use Rattle.std.specs.Prelude.{◌≡◌, OnOk, OnErr, None, Ok};
ghost use Rattle.std.specs.Result.{IsErrOf};
ghost use Rattle.audit_model.specs.declared.command.Command.TheVariants as says;
ghost use Rattle.cache_commands.specs.Answered.{IsAnswered};
ghost use Rattle.cache_commands.specs.Values.{IsMoment, IsSpent};

use crate::commands::SHORT;
use crate::error::StoreError;
use crate::store::Store;
use crate::writing::write;

/// Runs a `CLEAR`, and appends its reply to `output`. Returns `OutOfMemory` if there is not enough memory, and `UsedUp` if a 64-bit number
/// is used up; then nothing has changed.
pub fn clear<S: Store>(store: &mut S, now: u64, output: &mut Vec<u8>) -> Result<(), StoreError>
    requires { IsMoment (S.view store.old) now }
    ensures ok { OnOk result (IsAnswered now (Ok says.Clear) None (S.view store.old)
        (S.view store.new) output.old.items output.new.items) }
    ensures used_up { IsErrOf result StoreError.UsedUp → IsSpent (S.view store.old) }
    ensures unchanged { OnErr result (store.new ≡ store.old) }
    ensures unwritten { OnErr result (output.new.items ≡ output.old.items) }
{
    store.sound();
    output.try_reserve(SHORT)?;
    store.clear(now)?;
    write(output, b"OK\n");
    Ok(())
}

/// Runs a `DROPIF`, and appends its reply to `output`: `ERR id` if one part drew 1000 identifiers and each was registered there. Returns
/// `OutOfMemory` if there is not enough memory, and `UsedUp` if a 64-bit number is used up; then nothing has changed.
pub fn drop_prefix<S: Store>(
    store: &mut S,
    prefix: &[u8],
    now: u64,
    output: &mut Vec<u8>,
) -> Result<(), StoreError>
    requires { IsMoment (S.view store.old) now }
    ensures ok { OnOk result (IsAnswered now (Ok (says.DropIf prefix.now)) None (S.view store.old)
        (S.view store.new) output.old.items output.new.items) }
    ensures used_up { IsErrOf result StoreError.UsedUp → IsSpent (S.view store.old) }
    ensures unchanged { OnErr result (store.new ≡ store.old) }
    ensures unwritten { OnErr result (output.new.items ≡ output.old.items) }
{
    store.sound();
    output.try_reserve(SHORT)?;
    if store.drop_prefix(prefix, now)? {
        write(output, b"OK\n");
    } else {
        write(output, b"ERR id\n");
    }
    Ok(())
}

//! Commands that ask, and change no value.
ghost use Rattle.std.specs.Prelude.{◌≡◌, ◌≤◌, ◌+◌, ◌++◌, ℕ, OnOk, OnErr, None, Ok, codes, decimal, vec_len, vec_capacity};
ghost use Rattle.audit_model.specs.declared.command.Command.TheVariants as says;
ghost use Rattle.cache_commands.specs.Answered.{IsAnswered};
ghost use Rattle.cache_commands.specs.Values.{IsMoment};

use crate::commands::{SHORT, write_short};
use crate::store::Store;
use crate::writing::write_line;
use audit_model::Key;
use itoa::Buffer;
use std::alloc::AllocError;

/// Appends the reply to a `HAS`, which is not a use of the value, to `output`. Returns an error if there is not enough memory; then nothing
/// is written.
pub fn has<S: Store>(store: &S, key: &Key, now: u64, output: &mut Vec<u8>) -> Result<(), AllocError>
    requires { IsMoment (S.view store.now) now }
    ensures ok { OnOk result (IsAnswered now (Ok (says.Has key.now)) None (S.view store.now)
        (S.view store.now) output.old.items output.new.items) }
    ensures unwritten { OnErr result (output.new.items ≡ output.old.items) }
{
    store.sound();
    match store.peek(key, now) {
        Some(_) => write_short(output, b"YES\n"),
        None => write_short(output, b"NO\n"),
    }
}

/// Appends the reply to a `KEYS` to `output`. Returns an error if there is not enough memory; then nothing is written.
pub fn keys<S: Store>(store: &S, now: u64, output: &mut Vec<u8>) -> Result<(), AllocError>
    requires { IsMoment (S.view store.now) now }
    ensures ok { OnOk result (IsAnswered now (Ok says.Keys) None (S.view store.now)
        (S.view store.now) output.old.items output.new.items) }
    ensures unwritten { OnErr result (output.new.items ≡ output.old.items) }
{
    store.sound();
    let start = output.len();
    output.try_reserve(SHORT)?;
    write_number_of_keys(output, store.count_live(now));
    if let Err(error) = store.write_live_keys(now, output) {
        output.truncate(start);
        return Err(error);
    }
    Ok(())
}

/// Writes how many keys there are.
fn write_number_of_keys(output: &mut Vec<u8>, number: usize)
    requires { vec_len output.old + SHORT ≤ vec_capacity output.old }
    ensures { output.new.items ≡ output.old.items
        ++ (codes "KEYS " ++ decimal number ++ codes "\n") }
{
    let mut digits = Buffer::new();
    write_line(output, b"KEYS ", digits.format(number).as_bytes());
}

/// Appends the reply to a `QUIT` to `output`. Returns an error if there is not enough memory; then nothing is written.
pub fn quit<S: Store>(store: &S, output: &mut Vec<u8>) -> Result<(), AllocError>
    ensures ok { OnOk result ((now : ℕ) → IsMoment (S.view store.now) now → IsAnswered now
        (Ok says.Quit) None (S.view store.now) (S.view store.now) output.old.items
        output.new.items) }
    ensures unwritten { OnErr result (output.new.items ≡ output.old.items) }
{
    store.sound();
    write_short(output, b"OK\n")
}

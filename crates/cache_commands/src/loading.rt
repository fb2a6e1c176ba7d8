//! `LOAD`, and what a load's outcome does.
ghost use Rattle.std.specs.Prelude.{◌≡◌, ◌≤◌, ◌+◌, ◌++◌, IfOk, OnOk, OnErr, Ok, None, true, false, is_some, length, codes, option_map, vec_len, vec_capacity};
ghost use Rattle.std.specs.Result.{IsErrOf};
ghost use Rattle.audit_model.specs.Belongs.{refusal_of_outcome};
ghost use Rattle.audit_model.specs.Replies.{outcome_text};
ghost use Rattle.audit_model.specs.declared.command.Command.TheVariants as says;
ghost use Rattle.cache_commands.specs.Answered.{IsAnswered, IsStored};
ghost use Rattle.cache_commands.specs.Found.{found_text};
ghost use Rattle.cache_commands.specs.Values.{IsLive, IsMoment, IsSpent};

use crate::commands::{accepts, write_value};
use crate::error::StoreError;
use crate::keyed::Keyed;
use crate::store::Store;
use crate::writing::{write, write_line};
use audit_model::{Accepted, Key, Outcome};
use std::alloc::AllocError;

/// Runs a `LOAD` if it finds a live value, which is a use of the value: appends its reply to `output`, and returns true. If it finds none,
/// returns false, and nothing has changed. Returns an error if there is not enough memory; then nothing has changed.
pub fn load<S: Store>(
    store: &mut S,
    key: &Key,
    now: u64,
    output: &mut Vec<u8>,
) -> Result<bool, AllocError>
    requires { IsMoment (S.view store.old) now }
    ensures found { IfOk result (λ found. found ≡ true → IsAnswered now (Ok (says.Load key.now))
        None (S.view store.old) (S.view store.new) output.old.items output.new.items) }
    ensures missed { IfOk result (λ found. found ≡ false → (store.new ≡ store.old)
        × (output.new.items ≡ output.old.items) × IsLive (S.view store.old) now key.now None) }
    ensures unchanged { OnErr result (store.new ≡ store.old) }
    ensures unwritten { OnErr result (output.new.items ≡ output.old.items) }
{
    store.sound();
    match store.look_up(key, now, output, |found, output| write_live(output, found)) {
        Ok(()) => Ok(true),
        Err(Unanswered::NoneLive) => Ok(false),
        Err(Unanswered::OutOfMemory) => Err(AllocError),
    }
}

/// Why a `LOAD` is not answered at once.
#[derive(Clone, Copy, Drop)]
enum Unanswered {
    /// There is no live value.
    NoneLive,
    /// There is no memory for the reply.
    OutOfMemory,
}

/// Writes a value that was found, if there is one.
fn write_live(output: &mut Vec<u8>, found: Option<&[u8]>) -> Result<(), Unanswered>
    ensures written { OnOk result (output.new.items ≡ output.old.items
        ++ found_text (option_map (λ bytes. bytes.now) found.entry)) }
    ensures live { OnOk result (is_some (option_map (λ bytes. bytes.now) found.entry) ≡ true) }
    ensures none { IsErrOf result Unanswered.NoneLive → option_map (λ bytes. bytes.now) found.entry
        ≡ None }
    ensures unwritten { OnErr result (output.new.items ≡ output.old.items) }
{
    let Some(bytes) = found else {
        return Err(Unanswered::NoneLive);
    };
    write_value(output, bytes).map_err(|_| Unanswered::OutOfMemory)
}

impl<S: Store> Keyed<S> {
    /// Stores the value of a load's outcome under the load's key, and returns the part that took it, or `None` at capacity 0 and if the
    /// outcome is not a value. Returns `OutOfMemory` if there is not enough memory, and `UsedUp` if a 64-bit number is used up; then
    /// nothing has changed.
    pub fn store_outcome(
        &mut self,
        key: &[u8],
        outcome: &Outcome,
        now: u64,
    ) -> Result<Option<Accepted>, StoreError>
        requires in_time { IsMoment (S.view self.old) now }
        requires fit { refusal_of_outcome (S.view self.old).frame.config outcome.now ≡ None }
        ensures ok { IfOk result (λ accepted.
            IsStored now key.now outcome.now accepted (S.view self.old) (S.view self.new)) }
        ensures used_up { IsErrOf result StoreError.UsedUp → IsSpent (S.view self.old) }
        ensures unchanged { OnErr result (self.new ≡ self.old) }
    {
        self.store.sound();
        match outcome {
            Outcome::Value(bytes, milliseconds) => {
                if !accepts(self.store.config().capacity) {
                    return Ok(None);
                }
                self.key.fill(key)?;
                let part = self
                    .store
                    .accept(&self.key, bytes.as_slice(), *milliseconds, now)?;
                Ok(Some(Accepted { part }))
            }
            Outcome::None => Ok(None),
            Outcome::Fault(_) => Ok(None),
        }
    }
}

/// Writes the reply to a waiting `LOAD` with this outcome, in reserved room.
pub fn write_outcome(outcome: &Outcome, output: &mut Vec<u8>)
    requires { vec_len output.old + length (outcome_text outcome.now) ≤ vec_capacity output.old }
    ensures { output.new.items ≡ output.old.items ++ outcome_text outcome.now }
{
    match outcome {
        Outcome::Value(bytes, _) => write_line(output, b"VAL ", bytes.as_slice()),
        Outcome::None => write(output, b"NONE\n"),
        Outcome::Fault(text) => write_line(output, b"ERR load ", text.as_slice()),
    }
}

/// Writes the reply to a `LOAD` that was given up for the last time, in reserved room.
pub fn write_abandoned(output: &mut Vec<u8>)
    requires { vec_len output.old + 14 ≤ vec_capacity output.old }
    ensures { output.new.items ≡ output.old.items ++ codes "ERR abandoned\n" }
{
    write(output, b"ERR abandoned\n");
}

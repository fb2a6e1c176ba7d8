//! The values of one namespace, as its service sees them.
ghost use Rattle.std.specs.Prelude.{◌≡◌, ◌++◌, Bool, true, false, length, map, IfOk, OnOk, OnErr};
ghost use Rattle.std.specs.List.{concat};
ghost use Rattle.std.specs.Option.{option_map};
ghost use Rattle.std.specs.Result.{IsErrOf};
ghost use Rattle.audit_model.specs.Bytewise.{text_line};
ghost use Rattle.audit_model.specs.Commands.{Everything, Prefixed};
ghost use Rattle.cache_commands.specs.Handing.{TakesFirstNote};
ghost use Rattle.cache_commands.specs.Promises.{using, deleting, covering, syncing};
ghost use Rattle.cache_commands.specs.Values.{Values, IsMoment, IsAcceptable, IsSpent, IsSoundStore, Does, AcceptsValue, LacksIdentifiers, IsSettled, GivesNote, IsLive, AreLive, ReadsLive};

use crate::error::StoreError;
use audit_model::{Config, Key, Note};
use std::alloc::AllocError;

/// How many values are held, and what they weigh.
#[derive(Clone, Copy, PartialEq, Eq, Drop)]
pub struct Counts {
    /// The number of values held.
    pub number: u64,
    /// What the values held weigh together.
    pub weight: u64,
}

/// The values of one namespace.
///
/// Moments are nanoseconds below 2^63, and never fall from call to call. A call that changes values may also run maintenance, which reports
/// values that left. After an error nothing has changed. A store has at most 2^50 values: a further one is refused with `OutOfMemory`.
pub trait Store: Drop {
    ghost view: { Self → Values };

    /// Returns the configuration of the namespace.
    fn config(&self) -> &Config
        ensures { result.now ≡ (view self.now).frame.config };

    /// Does nothing. Its contract says what is true of every store.
    fn sound(&self)
        ensures { IsSoundStore (view self.now) };

    /// Returns how many values are held.
    fn len(&self) -> usize
        ensures { result ≡ (view self.now).count };

    /// Returns the bytes of a key's live value, or `None` if there is none. The call is not a use of the value.
    fn peek(&self, key: &Key, now: u64) -> Option<&[u8]>
        requires { IsMoment (view self.now) now }
        ensures { IsLive (view self.now) now key.now (option_map (λ bytes. bytes.now) result) };

    /// Returns how many keys have a live value.
    fn count_live(&self, now: u64) -> usize
        requires { IsMoment (view self.now) now }
        ensures { AreLive (view self.now) now (λ keys. result ≡ length keys) };

    /// Appends the live keys to `output`, in byte order, each with a line feed. Returns an error if there is not enough memory; then
    /// nothing is written.
    fn write_live_keys(&self, now: u64, output: &mut Vec<u8>) -> Result<(), AllocError>
        requires { IsMoment (view self.now) now }
        ensures written { OnOk result (AreLive (view self.now) now
            (λ keys. output.new.items ≡ output.old.items ++ concat (map text_line keys))) }
        ensures unwritten { OnErr result (output.new.items ≡ output.old.items) };

    /// Looks a key up: `read` is passed the bytes of its live value, if there is one, and the value behind `output`. If `read` returns
    /// `Ok`, the call is a use of the value; if it returns an error, nothing has changed.
    fn look_up<T, E, F: FnOnce(Option<&[u8]>, &mut Vec<u8>) -> Result<T, E> + Drop>(
        &mut self,
        key: &Key,
        now: u64,
        output: &mut Vec<u8>,
        read: F,
    ) -> Result<T, E>
        requires in_time { IsMoment (view self.old) now }
        requires callable { F.IsAlwaysCallable read }
        ensures reads { ReadsLive F.FnOnce read (view self.old) now key.now output.old result
            output.new }
        ensures does { OnOk result (Does now (using key.now) (view self.old) (view self.new)) }
        ensures unchanged { OnErr result (self.new ≡ self.old) };

    /// Accepts a value that lives this many milliseconds, and returns its part. The same step may be a look-up of the key too. Returns
    /// `OutOfMemory` if there is not enough memory, and `UsedUp` if a 64-bit number is used up; then nothing has changed.
    fn accept(
        &mut self,
        key: &Key,
        bytes: &[u8],
        milliseconds: Option<u64>,
        now: u64,
    ) -> Result<u64, StoreError>
        requires in_time { IsMoment (view self.old) now }
        requires fits { IsAcceptable (view self.old).frame.config bytes.now milliseconds }
        ensures does { IfOk result (λ part. (looked_up : Bool) → AcceptsValue now key.now bytes.now
            milliseconds looked_up part (view self.old) (view self.new)) }
        ensures used_up { IsErrOf result StoreError.UsedUp → IsSpent (view self.old) }
        ensures unchanged { OnErr result (self.new ≡ self.old) };

    /// Removes the value of a key. Returns `OutOfMemory` if there is not enough memory, and `UsedUp` if a 64-bit number is used up; then
    /// nothing has changed.
    fn remove(&mut self, key: &Key, now: u64) -> Result<(), StoreError>
        requires { IsMoment (view self.old) now }
        ensures does { OnOk result (Does now (deleting key.now) (view self.old) (view self.new)) }
        ensures used_up { IsErrOf result StoreError.UsedUp → IsSpent (view self.old) }
        ensures unchanged { OnErr result (self.new ≡ self.old) };

    /// Covers every value: none of those held is visible from now on, and a later run reports it. Nothing is reported yet. The call
    /// allocates nothing. Returns `UsedUp` if a 64-bit number is used up; then nothing has changed.
    fn clear(&mut self, now: u64) -> Result<(), StoreError>
        requires { IsMoment (view self.old) now }
        ensures does { OnOk result
            (Does now (covering Everything) (view self.old) (view self.new)) }
        ensures used_up { OnErr result
            (IsErrOf result StoreError.UsedUp × IsSpent (view self.old)) }
        ensures unchanged { OnErr result (self.new ≡ self.old) };

    /// Covers each value whose key begins with the prefix, in every part, and returns true; or, if one part drew a thousand identifiers
    /// that are each registered there, covers none, and returns false. Returns `OutOfMemory` if there is not enough memory, and `UsedUp` if
    /// a 64-bit number is used up; then nothing has changed.
    fn drop_prefix(&mut self, prefix: &[u8], now: u64) -> Result<bool, StoreError>
        requires { IsMoment (view self.old) now }
        ensures does { IfOk result (λ covers. covers ≡ true
            → Does now (covering (Prefixed prefix.now)) (view self.old) (view self.new)) }
        ensures lacks { IfOk result
            (λ covers. covers ≡ false → LacksIdentifiers (view self.old) (view self.new)) }
        ensures used_up { IsErrOf result StoreError.UsedUp → IsSpent (view self.old) }
        ensures unchanged { OnErr result (self.new ≡ self.old) };

    /// Runs maintenance of all parts, and returns how many values are held then and what they weigh.
    fn run_all(&mut self, now: u64) -> Counts
        requires { IsMoment (view self.old) now }
        ensures does { Does now syncing (view self.old) (view self.new) }
        ensures settled { IsSettled (view self.new) result.number result.weight };

    /// Takes the note that was reported first, or returns `None` if there is none.
    fn next_notice(&mut self) -> Option<Note>
        ensures taken { TakesFirstNote (view self.old).untaken (view self.new).untaken result }
        ensures hands { GivesNote (view self.old) (view self.new) };
}

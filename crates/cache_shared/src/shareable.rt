//! What a shared service requires of the service under its lock.
ghost use Rattle.std.specs.Prelude.{◌≡◌, ℕ, ◌≤◌, Bool, true, List, Some, length, IfOk, IfErr, OnOk, OnErr};
ghost use Rattle.std.specs.List.{slice_get};
ghost use Rattle.audit_model.specs.declared.input.Conn.{Conn};
ghost use Rattle.audit_model.specs.declared.input.Input.TheVariants as input;
ghost use Rattle.audit_model.specs.declared.transcript.Note.{Note as Told};
ghost use Rattle.audit_model.specs.declared.transcript.Transcript.{Transcript};
ghost use Rattle.cache_shared.specs.Events.{CountsRecord, KeepsStanding};
ghost use Rattle.cache_shared.specs.Looked.{IsWhatIsOwed, RefusesCopy};
ghost use Rattle.cache_shared.specs.Taken.{KeepsNotes, MovesLoads, MovesNote, MovesOwed, MovesReplies, TakesInput};
ghost use Rattle.cache_spaces.specs.Calls.{InSpace, IsOpened, IsUnknown, Refuses, RefusedInput, namespace_of};
ghost use Rattle.cache_spaces.specs.Spaces.{Shown, closing_of, is_waiting_for};

use audit_model::{Bytes, Closing, Conn, Input, Instant, LoadId, Note, ServiceError, Transcript};
use cache_spaces::{Output, Owed, Refusal};

/// The service under the lock of a `SharedService`: a `Service` or a `RecordedService`. Taking replies, loads and notes is not an event.
pub trait Shareable: Drop {
    /// Its namespaces, in their order.
    ghost spaces: { Self → List Shown };

    /// The journals of its namespaces; none if it keeps none.
    ghost journals: { Self → List Transcript };

    /// The reply bytes of a connection that were not taken.
    ghost untaken: { Self → Conn → List ℕ };

    /// The notes of a namespace that were reported and not taken, in order.
    ghost untold: { Self → ℕ → List Told };

    /// Whether it keeps journals, and seats keep receipts.
    ghost KEEPS: { Bool };

    /// Whether the service keeps journals.
    const KEEPS: bool;

    /// Takes an input: its event happens, and the output is that of the event.
    ///
    /// A refused input is returned with the error that the call of its kind returns; then nothing has changed.
    fn step(&mut self, input: Input) -> Result<Output, Refusal>
        ensures taken { IfOk result
            (λ output. TakesInput spaces untaken untold input output self.old self.new) }
        ensures one { KEEPS ≡ true
            → OnOk result (CountsRecord (journals self.old) (journals self.new)) }
        ensures refused { IfErr result (λ refusal. Refuses (spaces self.old) (namespace_of input)
            refusal.error (RefusedInput input refusal.error)) }
        ensures unchanged { OnErr result (self.new ≡ self.old) }
        ensures back { IfErr result (λ refusal. refusal.input ≡ input) };

    /// Takes a piece of a connection's bytes at a moment, like `step` with an `Input::Feed`. The piece is only lent: a service that keeps
    /// no journals does not copy it.
    ///
    /// Returns the errors of `Service::feed`; then nothing has changed.
    fn step_feed(
        &mut self,
        conn: Conn,
        piece: &[u8],
        moment: Instant,
    ) -> Result<Output, ServiceError>
        ensures taken { IfOk result (λ output. TakesInput spaces untaken untold
            (input.Feed conn piece.now moment) output self.old self.new) }
        ensures one { KEEPS ≡ true
            → OnOk result (CountsRecord (journals self.old) (journals self.new)) }
        ensures refused { IfErr result (λ e. Refuses (spaces self.old) conn.namespace e
            (RefusedInput (input.Feed conn piece.now moment) e)) }
        ensures unchanged { OnErr result (self.new ≡ self.old) };

    /// Returns the journal of a namespace: a record for each input that it accepted. Returns `NoNamespace` if there is no such namespace,
    /// or the service keeps no journals.
    fn journal(&self, namespace: u64) -> Result<&Transcript, ServiceError>
        ensures journal { IfOk result
            (λ journal. slice_get (journals self.now) namespace ≡ Some journal.now) }
        ensures error { IfErr result (λ e. e ≡ ServiceError.NoNamespace) }
        ensures refused { KEEPS ≡ true → OnErr result (length (spaces self.now) ≤ namespace) }
        ensures none { IfErr result (λ e. length (journals self.now) ≤ namespace) };

    /// Returns the reply bytes of a connection since they were last taken, moved out. Returns `NoNamespace` if there is no such namespace,
    /// `NoConnection` if the connection was never opened, and `OutOfMemory` if taking the replies needs memory that there is not: the
    /// replies then come the next time.
    fn take_output(&mut self, conn: Conn) -> Result<Vec<u8>, ServiceError>
        ensures taken { IfOk result
            (λ text. MovesReplies spaces untaken untold self.old self.new conn text.items) }
        ensures refused { IfErr result (λ e.
            Refuses (spaces self.old) conn.namespace e (λ space. RefusesCopy space conn.number e)) }
        ensures unchanged { OnErr result (self.new ≡ self.old) }
        ensures standing { KeepsStanding spaces journals self.old self.new };

    /// Returns the oldest note of a namespace that was reported and not taken; `None` if there is none. Returns `NoNamespace` if there is
    /// no such namespace, and `OutOfMemory` if taking the note needs memory that there is not: the note then comes the next time.
    fn next_notice(&mut self, namespace: u64) -> Result<Option<Note>, ServiceError>
        ensures note { IfOk result
            (λ note. MovesNote spaces untaken untold self.old self.new namespace note) }
        ensures refused { IfErr result
            (λ e. Refuses (spaces self.old) namespace e (λ space. e ≡ ServiceError.OutOfMemory)) }
        ensures unchanged { OnErr result (self.new ≡ self.old) }
        ensures standing { KeepsStanding spaces journals self.old self.new };

    /// Returns the loads of a namespace that went out and were not taken, with their keys, in the order in which they were sent, moved out.
    /// Returns `NoNamespace` if there is no such namespace.
    fn take_loads(&mut self, namespace: u64) -> Result<Vec<(LoadId, Bytes)>, ServiceError>
        ensures loads { IfOk result
            (λ loads. MovesLoads spaces untaken untold self.old self.new namespace loads.items) }
        ensures refused { IfErr result
            (λ e. (e ≡ ServiceError.NoNamespace) × (length (spaces self.old) ≤ namespace)) }
        ensures unchanged { OnErr result (self.new ≡ self.old) }
        ensures standing { KeepsStanding spaces journals self.old self.new };

    /// Returns what a connection is owed, moved out: its replies, which are `None` if taking them needs memory that there is not; the loads of
    /// its namespace that went out and were not taken, if they are requested; why it is closed; and whether a `LOAD` of it waits. Returns
    /// `NoNamespace` if there is no such namespace, and `NoConnection` if the connection was never opened.
    fn owed(&mut self, conn: Conn, wants_loads: bool) -> Result<Owed, ServiceError>
        ensures moved { IfOk result (MovesOwed spaces untaken untold self.old self.new conn) }
        ensures notes { KeepsNotes spaces untaken untold self.old self.new }
        ensures told { IfOk result (λ owed. InSpace (spaces self.old) conn.namespace
            (λ space. IsWhatIsOwed space conn.number wants_loads owed)) }
        ensures refused { IfErr result (λ e.
            Refuses (spaces self.old) conn.namespace e (λ space. IsUnknown space conn.number e)) }
        ensures unchanged { OnErr result (self.new ≡ self.old) }
        ensures standing { KeepsStanding spaces journals self.old self.new };

    /// Returns why a connection is closed; `None` while it is open. Returns `NoNamespace` if there is no such namespace, and `NoConnection`
    /// if the connection was never opened.
    fn closed(&self, conn: Conn) -> Result<Option<Closing>, ServiceError>
        ensures closing { IfOk result (λ closing. InSpace (spaces self.now) conn.namespace
            (λ space. IsOpened space conn.number × (closing ≡ closing_of space conn.number))) }
        ensures refused { IfErr result (λ e.
            Refuses (spaces self.now) conn.namespace e (λ space. IsUnknown space conn.number e)) };

    /// Returns whether a `LOAD` of a connection waits for its load, so that no later line runs. Returns `NoNamespace` if there is no such
    /// namespace, and `NoConnection` if the connection was never opened.
    fn waiting(&self, conn: Conn) -> Result<bool, ServiceError>
        ensures waits { IfOk result (λ waits. InSpace (spaces self.now) conn.namespace
            (λ space. IsOpened space conn.number × (waits ≡ is_waiting_for space conn.number))) }
        ensures refused { IfErr result (λ e.
            Refuses (spaces self.now) conn.namespace e (λ space. IsUnknown space conn.number e)) };
}

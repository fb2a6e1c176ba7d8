//! The core that keeps its journals.
ghost use Rattle.std.specs.Prelude.{◌≡◌, ◌<◌, length, is_some, IfErr, IfOk, MatchOption, OnErr, OnOk};
ghost use Rattle.std.specs.Option.{option_copied};
ghost use Rattle.cache_shared.specs.Events.{KeepsStanding};
ghost use Rattle.cache_shared.specs.Looked.{IsWhatIsOwed, RefusesCopy};
ghost use Rattle.cache_shared.specs.Recordings.{journals_in, spaces_in};
ghost use Rattle.cache_shared.specs.Taken.{KeepsNotes, MovesLoads, MovesOwed, MovesReplies};
ghost use Rattle.cache_spaces.specs.Calls.{InSpace, IsUnknown, Refuses};
ghost use Rattle.cache_spaces.specs.Recorded.{TakesNote, TakesReplies, untaken_in, untold_in};

use crate::shareable::Shareable;
use audit_model::{Bytes, Closing, Conn, Input, Instant, LoadId, Note, ServiceError, Transcript};
use cache_spaces::{Output, Owed, RecordedService, Refusal, copy_note};
use std::alloc::{AllocError, Global};

impl Shareable for RecordedService {
    ghost use Rattle.std.specs.Prelude.{true};
    ghost use Rattle.cache_shared.specs.Recordings.{journals_in, spaces_in};
    ghost use Rattle.cache_spaces.specs.Recorded.{untaken_in, untold_in};

    ghost spaces = { spaces_in };

    ghost journals = { journals_in };

    ghost untaken = { untaken_in };

    ghost untold = { untold_in };

    ghost KEEPS = { true };

    const KEEPS: bool = true;

    fn step(&mut self, input: Input) -> Result<Output, Refusal> {
        RecordedService::step(self, input)
    }

    fn step_feed(
        &mut self,
        conn: Conn,
        piece: &[u8],
        moment: Instant,
    ) -> Result<Output, ServiceError> {
        RecordedService::step_feed(self, conn, piece, moment)
    }

    fn journal(&self, namespace: u64) -> Result<&Transcript, ServiceError> {
        RecordedService::journal(self, namespace)
    }

    fn take_output(&mut self, conn: Conn) -> Result<Vec<u8>, ServiceError> {
        take_text(self, conn)
    }

    fn next_notice(&mut self, namespace: u64) -> Result<Option<Note>, ServiceError> {
        take_note(self, namespace)
    }

    fn take_loads(&mut self, namespace: u64) -> Result<Vec<(LoadId, Bytes)>, ServiceError> {
        RecordedService::take_loads(self, namespace)
    }

    fn owed(&mut self, conn: Conn, wants_loads: bool) -> Result<Owed, ServiceError> {
        take_owed(self, conn, wants_loads)
    }

    fn closed(&self, conn: Conn) -> Result<Option<Closing>, ServiceError> {
        self.service().closed(conn)
    }

    fn waiting(&self, conn: Conn) -> Result<bool, ServiceError> {
        self.service().waiting(conn)
    }
}

/// Returns a copy of the replies of a connection since they were last taken. They are taken only if there is memory for the copy.
fn take_text(recorded: &mut RecordedService, conn: Conn) -> Result<Vec<u8>, ServiceError>
    ensures taken { IfOk result (λ text. TakesReplies recorded.old recorded.new conn text.items) }
    ensures refused { IfErr result (λ e. Refuses recorded.old.spaces conn.namespace e
        (λ space. RefusesCopy space conn.number e)) }
    ensures unchanged { OnErr result (recorded.new ≡ recorded.old) }
{
    let replies = recorded.peek_output(conn)?;
    let text = replies.to_vec(*recorded.allocator());
    let text = text.map_err(|_| ServiceError::OutOfMemory)?;
    recorded.take_output(conn)?;
    Ok(text)
}

/// Returns what a connection is owed, with a copy of its replies. They are taken only if there is memory for the copy.
fn take_owed(
    recorded: &mut RecordedService,
    conn: Conn,
    wants_loads: bool,
) -> Result<Owed, ServiceError>
    ensures moved { IfOk result
        (MovesOwed spaces_in untaken_in untold_in recorded.old recorded.new conn) }
    ensures notes { KeepsNotes spaces_in untaken_in untold_in recorded.old recorded.new }
    ensures told { IfOk result (λ owed. InSpace (spaces_in recorded.old) conn.namespace
        (λ space. IsWhatIsOwed space conn.number wants_loads owed)) }
    ensures refused { IfErr result (λ e.
        Refuses (spaces_in recorded.old) conn.namespace e (λ space. IsUnknown space conn.number e)) }
    ensures unchanged { OnErr result (recorded.new ≡ recorded.old) }
    ensures standing { KeepsStanding spaces_in journals_in recorded.old recorded.new }
{
    let closing = Shareable::closed(recorded, conn)?;
    let waits = Shareable::waiting(recorded, conn)?;
    Ok(Owed {
        replies: take_replies(recorded, conn),
        loads: take_wanted(recorded, conn.namespace, wants_loads),
        closing,
        waits,
    })
}

/// Returns the loads of a namespace that went out and were not taken, moved out, if they are requested and there is such a namespace.
fn take_wanted(
    recorded: &mut RecordedService,
    namespace: u64,
    wants_loads: bool,
) -> Option<Vec<(LoadId, Bytes)>>
    ensures all { MatchOption result (recorded.new ≡ recorded.old) (λ loads.
        MovesLoads spaces_in untaken_in untold_in recorded.old recorded.new namespace
        loads.items) }
    ensures wanted { namespace < length (spaces_in recorded.old) → is_some result ≡ wants_loads }
    ensures standing { KeepsStanding spaces_in journals_in recorded.old recorded.new }
{
    if !wants_loads {
        return None;
    }
    match Shareable::take_loads(recorded, namespace) {
        Ok(loads) => Some(loads),
        Err(_) => None,
    }
}

/// Returns the replies of a connection that were not taken, moved out; `None` if it is unknown, or if there is not enough memory.
fn take_replies(recorded: &mut RecordedService, conn: Conn) -> Option<Vec<u8>>
    ensures all { MatchOption result (recorded.new ≡ recorded.old) (λ text.
        MovesReplies spaces_in untaken_in untold_in recorded.old recorded.new conn text.items) }
    ensures standing { KeepsStanding spaces_in journals_in recorded.old recorded.new }
{
    match Shareable::take_output(recorded, conn) {
        Ok(text) => Some(text),
        Err(_) => None,
    }
}

/// Returns a copy of the oldest note of a namespace that was not taken. It is taken only if there is memory for the copy.
fn take_note(recorded: &mut RecordedService, namespace: u64) -> Result<Option<Note>, ServiceError>
    ensures taken { IfOk result (TakesNote recorded.old recorded.new namespace) }
    ensures there { OnOk result (namespace < length recorded.old.spaces) }
    ensures refused { IfErr result
        (λ e. Refuses recorded.old.spaces namespace e (λ space. e ≡ ServiceError.OutOfMemory)) }
    ensures unchanged { OnErr result (recorded.new ≡ recorded.old) }
{
    let note = recorded.peek_notice(namespace)?;
    let Ok(copy) = copy_if_any(*recorded.allocator(), note) else {
        return Err(ServiceError::OutOfMemory);
    };
    recorded.next_notice(namespace)?;
    Ok(copy)
}

/// Returns a copy of a note, if there is one.
fn copy_if_any(alloc: Global, note: Option<&Note>) -> Result<Option<Note>, AllocError>
    ensures { IfOk result (λ copy. copy ≡ option_copied note.entry) }
{
    note.map(|note| copy_note(alloc, note)).transpose()
}

//! A service that keeps its journals.
ghost use Rattle.std.specs.Prelude.{◌≡◌, ℕ, ◌≤◌, ◌<◌, ◌^◌, ◌↔◌, ◌⊎◌, ◌++◌, ◌∷◌, [], Some, false, drop, IfOk, IfErr, OnErr, OnOk, IsErrOf, length};
ghost use Rattle.std.specs.Borrow.{sem};
ghost use Rattle.std.specs.Io.BufRead.{Rests};
ghost use Rattle.std.specs.List.{slice_get};
ghost use Rattle.std.specs.Option.{option_copied};
ghost use Rattle.audit_model.specs.declared.input.Input.TheVariants as input;
ghost use Rattle.cache_spaces.specs.Calls.{At, InSpace, IsOpened, IsUnknown, Refuses, TakesLoads, Performs, RefusedInput, namespace_of};
ghost use Rattle.cache_spaces.specs.Cursors.{taken_through, lent_replies, notes_from, records_at, replies_for};
ghost use Rattle.cache_spaces.specs.Journals.{IsJournalOf, IsSoOfEach, journals_of, kept_by};
ghost use Rattle.cache_spaces.specs.Played.{WerePlayed};
ghost use Rattle.cache_spaces.specs.Recorded.{AreAtStart, GainsRecord, IsUnread, KeepsTaken, LendsNote, LendsReplies, TakesNote, TakesReplies, cursor_in, records_in, untaken_in, untold_in};
ghost use Rattle.cache_spaces.specs.Services.{AreNewSpaces, are_taken, blank_tape};

use crate::cursors::Cursors;
use crate::replies::{LentReplies, records_from};
use crate::service::Core;
use crate::stepping::Refusal;
use crate::told::{Told, find_note};
use audit_laws::Output;
use audit_model::{
    Bytes, Config, Conn, Input, Instant, LoadId, Note, Record, ServiceError, Transcript,
};
use cache_lines::Kept;
use rand_xoshiro::Xoshiro256PlusPlus;
use std::alloc::{AllocError, Global};
use std::marker::Model;

/// A service that keeps the transcript of each namespace, its journal. Replies and notes are stored in the journals, from which they are
/// lent when they are taken.
///
/// A journal is kept completely, so memory grows with each input. Contracts see the list of its namespaces, the journal of each on its
/// tape, and how far the replies and notes of each were taken.
#[derive(Drop)]
pub struct RecordedService {
    core: Core<Kept>,
    /// Room for the journals, into which they are moved at the end.
    room: Vec<Transcript>,
    /// How far each namespace was read.
    read: Vec<Cursors>,
}

impl Model for RecordedService {
    ghost use Rattle.std.specs.Prelude.{◌≡◌, ◌≤◌, [], length, vec_capacity};
    ghost use Rattle.cache_spaces.specs.Played.{WerePlayed};
    ghost use Rattle.cache_spaces.specs.Recorded.{HaveCursors, ReadsJournals, Recorded, recorded_of};

    ghost Value = { Recorded };

    ghost view = { λ r. recorded_of r.core r.read.items };

    ghost invariant = { λ r. ∥ WerePlayed r.core ∥₁ × (r.room.items ≡ [])
        × (length r.core ≤ vec_capacity r.room) × (length r.read.items ≡ length r.core)
        × ReadsJournals (recorded_of r.core r.read.items) × HaveCursors r.core r.read.items };
}

impl RecordedService {
    ghost use Rattle.cache_spaces.specs.contracts.journals.RecordedService.{the_row};

    /// Creates a service with one namespace for each configuration, in their order, at this moment, each with an empty journal.
    ///
    /// Returns `Moment` above 2^63 - 1 nanoseconds, then `Config` if the number of configurations is not 1 to 16 or one is out of
    /// range, then `OutOfMemory`.
    pub fn new(
        alloc: Global,
        configs: &[Config],
        generator: Xoshiro256PlusPlus,
        moment: Instant,
    ) -> Result<RecordedService, ServiceError>
        ensures made { IfOk result (λ recorded. AreNewSpaces kept_by (Some (blank_tape moment))
            recorded.spaces configs.now generator moment.nanos) }
        ensures unread { IfOk result IsUnread }
        ensures moment { IsErrOf result ServiceError.Moment ↔ (2 ^ 63 ≤ moment.nanos) }
        ensures config { IsErrOf result ServiceError.Config
            ↔ ((moment.nanos < 2 ^ 63) × (are_taken configs.now ≡ false)) }
        ensures memory { IfErr result (λ e. (e ≡ ServiceError.Moment) ⊎ (e ≡ ServiceError.Config)
            ⊎ (e ≡ ServiceError.OutOfMemory)) }
    {
        let core = Core::new(alloc, configs, generator, moment)?;
        let Ok(room) = Vec::with_capacity(alloc, configs.len()) else {
            return Err(ServiceError::OutOfMemory);
        };
        match new_cursors(alloc, configs.len()) {
            Ok(read) => Ok(RecordedService { core, room, read }),
            Err(_) => Err(ServiceError::OutOfMemory),
        }
    }

    /// Takes an input, adds its record to its namespace's journal, and returns the output that the record describes. Replies and notes are
    /// read from the journal.
    ///
    /// A refused input is returned, with the error that the call of its kind returns; any other error comes before `OutOfMemory`, which is
    /// also possible for a closing and a give-up, if there is no memory for their records. Then nothing has changed, and no record is
    /// added.
    pub fn step(&mut self, input: Input) -> Result<Output, Refusal>
        ensures performed { IfOk result (λ output. At self.old.spaces self.new.spaces
            (namespace_of input) (Performs kept_by input output)) }
        // the replies and notes, and nothing else, were added to what is left to be taken
        ensures gained { OnOk result (GainsRecord (namespace_of input) self.old self.new) }
        ensures cursors { KeepsTaken self.old self.new }
        ensures refused { IfErr result (λ refusal. Refuses self.old.spaces (namespace_of input)
            refusal.error (RefusedInput input refusal.error)) }
        ensures back { IfErr result (λ refusal. refusal.input ≡ input) }
        ensures unchanged { OnErr result (self.new ≡ self.old) }
        // the journals obey, and each leads to where its namespace stands
        ensures journals { IsSoOfEach IsJournalOf self.new.spaces }
    {
        match input {
            Input::Open { namespace } => self.open(namespace),
            other => self.core.step(other),
        }
    }

    /// Takes a piece of a connection's bytes at a moment, like `step` with an `Input::Feed`, and returns the output that its record
    /// describes. The piece is only lent: its record has a copy.
    ///
    /// Returns the errors of `Core::feed`; then nothing has changed, and no record is added.
    pub fn step_feed(
        &mut self,
        conn: Conn,
        piece: &[u8],
        moment: Instant,
    ) -> Result<Output, ServiceError>
        ensures performed { IfOk result (λ output. At self.old.spaces self.new.spaces conn.namespace
            (Performs kept_by (input.Feed conn piece.now moment) output)) }
        // the replies and notes, and nothing else, were added to what is left to be taken
        ensures gained { OnOk result (GainsRecord conn.namespace self.old self.new) }
        ensures cursors { KeepsTaken self.old self.new }
        ensures refused { IfErr result (λ e. Refuses self.old.spaces conn.namespace e
            (RefusedInput (input.Feed conn piece.now moment) e)) }
        ensures unchanged { OnErr result (self.new ≡ self.old) }
        // the journals obey, and each leads to where its namespace stands
        ensures journals { IsSoOfEach IsJournalOf self.new.spaces }
    {
        self.core.step_feed(conn, piece, moment)
    }

    /// Opens a connection, of whose replies none was taken.
    fn open(&mut self, namespace: u64) -> Result<Output, Refusal>
        ensures performed { IfOk result (λ output. At self.old.spaces self.new.spaces namespace
            (Performs kept_by (input.Open namespace) output)) }
        ensures gained { OnOk result (GainsRecord namespace self.old self.new) }
        ensures cursors { KeepsTaken self.old self.new }
        ensures refused { IfErr result (λ refusal. Refuses self.old.spaces namespace refusal.error
            (RefusedInput (input.Open namespace) refusal.error)) }
        ensures back { IfErr result (λ refusal. refusal.input ≡ input.Open namespace) }
        ensures unchanged { OnErr result (self.new ≡ self.old) }
        ensures journals { IsSoOfEach IsJournalOf self.new.spaces }
    {
        let RecordedService { core, read, .. } = self;
        let Some(cursors) = read.get_mut(namespace as usize) else {
            let input = Input::Open { namespace };
            return Err(Refusal::new(ServiceError::NoNamespace, input));
        };
        open_in(core, &mut cursors.replies, namespace)
    }

    /// Returns the journal of a namespace: a record for each input that it took, in order. The journal obeys, and leads to where the
    /// namespace stands. The call allocates nothing. Returns `NoNamespace` if there is no such namespace.
    pub fn journal(&self, namespace: u64) -> Result<&Transcript, ServiceError>
        ensures journal { IfOk result
            (λ journal. slice_get (journals_of self.now.spaces) namespace ≡ Some journal.now) }
        ensures is { IsSoOfEach IsJournalOf self.now.spaces }
        ensures refused { IfErr result
            (λ e. (e ≡ ServiceError.NoNamespace) × (length self.now.spaces ≤ namespace)) }
    {
        self.core.journal(namespace)
    }

    /// Returns the namespaces under the journals, for inspection: closings, waiting connections, loads under way. Their output and notes
    /// are empty.
    pub fn service(&self) -> &Core<Kept>
        ensures core { result.now ≡ self.now.spaces }
        // the journals are the result of some inputs
        ensures played { ∥ WerePlayed self.now.spaces ∥₁ }
    {
        &self.core
    }

    /// Returns the allocator of the journals.
    pub fn allocator(&self) -> &Global {
        self.room.allocator()
    }

    /// Returns the replies of a connection since they were last taken, lent from the journal, even after it closed. The replies are not
    /// taken. The call allocates nothing. Returns `NoNamespace` if there is no such namespace, and `NoConnection` if the connection was
    /// never opened.
    pub fn peek_output(&self, conn: Conn) -> Result<LentReplies<'_>, ServiceError>
        ensures replies { IfOk result (λ replies. lent_replies replies ≡ untaken_in self.now conn) }
        ensures known { OnOk result
            (InSpace self.now.spaces conn.namespace (λ space. IsOpened space conn.number)) }
        ensures refused { IfErr result (λ e.
            Refuses self.now.spaces conn.namespace e (λ space. IsUnknown space conn.number e)) }
    {
        let count = self.replies_taken(conn)?;
        Ok(self.replies_from(conn, count))
    }

    /// Returns the replies of a connection since they were last taken, lent from the journal, even after it closed. Each reply comes once.
    /// The call is not an event, and allocates nothing. Returns `NoNamespace` if there is no such namespace, and `NoConnection` if the
    /// connection was never opened.
    /// ```
    /// let replies = recorded.take_output(conn)?.to_vec(alloc)?;
    /// ```
    pub fn take_output(&mut self, conn: Conn) -> Result<LentReplies<'_>, ServiceError>
        ensures* taken { sem 𝓛 (Rests the_row self.entry (LendsReplies self.old conn result)) }
        ensures replies { IfOk result (λ replies. lent_replies replies ≡ untaken_in self.old conn) }
        ensures known { OnOk result
            (InSpace self.old.spaces conn.namespace (λ space. IsOpened space conn.number)) }
        ensures refused { IfErr result (λ e.
            Refuses self.old.spaces conn.namespace e (λ space. IsUnknown space conn.number e)) }
    {
        let count = self.replies_taken(conn)?;
        self.pass_replies(conn);
        Ok(self.replies_from(conn, count))
    }

    /// Through how many records the replies of a connection were taken. Returns `NoNamespace` if there is no such namespace, and
    /// `NoConnection` if the connection was never opened.
    fn replies_taken(&self, conn: Conn) -> Result<u64, ServiceError>
        ensures count { IfOk result
            (λ count. count ≡ taken_through (cursor_in self.now conn.namespace) conn.number) }
        ensures known { OnOk result
            (InSpace self.now.spaces conn.namespace (λ space. IsOpened space conn.number)) }
        ensures refused { IfErr result (λ e.
            Refuses self.now.spaces conn.namespace e (λ space. IsUnknown space conn.number e)) }
    {
        self.core.closed(conn)?;
        let cursors = &self.read[conn.namespace as usize];
        Ok(cursors.replies_taken(conn.number))
    }

    /// Moves the cursor of a connection to the journal's end.
    fn pass_replies(&mut self, conn: Conn)
        requires { InSpace self.old.spaces conn.namespace (λ space. IsOpened space conn.number) }
        ensures { TakesReplies self.old self.new conn (untaken_in self.old conn) }
    {
        let count = self.core.records(conn.namespace).len() as u64;
        self.read[conn.namespace as usize].pass_replies(conn.number, count);
    }

    /// The replies of a connection in its namespace's records from this place on.
    fn replies_from(&self, conn: Conn, place: u64) -> LentReplies<'_>
        ensures { lent_replies result
            ≡ replies_for conn.number (drop place (records_in self.now conn.namespace)) }
    {
        LentReplies {
            records: records_from(self.core.records(conn.namespace), place),
            number: conn.number,
        }
    }

    /// Returns the loads of a namespace that went out and were not taken, with their keys, in the order in which they were sent, moved out,
    /// so that each comes once. The call is not an event, adds no record, and allocates nothing. Returns `NoNamespace` if there is no such
    /// namespace.
    pub fn take_loads(&mut self, namespace: u64) -> Result<Vec<(LoadId, Bytes)>, ServiceError>
        ensures taken { IfOk result (λ loads. At self.old.spaces self.new.spaces namespace
            (λ was is. TakesLoads was is loads.items)) }
        ensures cursors { self.new.cursors ≡ self.old.cursors }
        ensures refused { IfErr result
            (λ e. (e ≡ ServiceError.NoNamespace) × (length self.old.spaces ≤ namespace)) }
        ensures unchanged { OnErr result (self.new ≡ self.old) }
    {
        self.core.take_loads(namespace)
    }

    /// Returns the oldest note of a namespace that was reported and not taken, lent from the journal; `None` if there is none. The note is
    /// not taken. The call allocates nothing. Returns `NoNamespace` if there is no such namespace.
    pub fn peek_notice(&self, namespace: u64) -> Result<Option<&Note>, ServiceError>
        ensures note { IfOk result
            (λ note. option_copied note ≡ slice_get (untold_in self.now namespace) 0) }
        ensures there { OnOk result (namespace < length self.now.spaces) }
        ensures refused { IfErr result
            (λ e. (e ≡ ServiceError.NoNamespace) × (length self.now.spaces ≤ namespace)) }
    {
        match self.read.get(namespace as usize) {
            Some(cursors) => Ok(self.note_from(namespace, cursors.notes)),
            None => Err(ServiceError::NoNamespace),
        }
    }

    /// Returns the oldest note of a namespace that was reported and not taken, lent from the journal; `None` if there is none. Each note
    /// comes once. The call is not an event, and allocates nothing. Returns `NoNamespace` if there is no such namespace.
    pub fn next_notice(&mut self, namespace: u64) -> Result<Option<&Note>, ServiceError>
        ensures* taken { sem 𝓛 (Rests the_row self.entry (LendsNote self.old namespace result)) }
        ensures note { IfOk result
            (λ note. option_copied note ≡ slice_get (untold_in self.old namespace) 0) }
        ensures there { OnOk result (namespace < length self.old.spaces) }
        ensures refused { IfErr result
            (λ e. (e ≡ ServiceError.NoNamespace) × (length self.old.spaces ≤ namespace)) }
    {
        let told = self.pass_note(namespace)?;
        Ok(self.note_from(namespace, told))
    }

    /// Moves behind the first note of a namespace that was not taken, and returns the place from which it is the first. Returns
    /// `NoNamespace` if there is no such namespace.
    fn pass_note(&mut self, namespace: u64) -> Result<Told, ServiceError>
        ensures told { IfOk result (λ told. told ≡ (cursor_in self.old namespace).notes) }
        ensures passed { OnOk result
            (TakesNote self.old self.new namespace (slice_get (untold_in self.old namespace) 0)) }
        ensures there { OnOk result (namespace < length self.old.spaces) }
        ensures refused { IfErr result
            (λ e. (e ≡ ServiceError.NoNamespace) × (length self.old.spaces ≤ namespace)) }
        ensures unchanged { OnErr result (self.new ≡ self.old) }
    {
        let RecordedService { core, read, .. } = self;
        let Some(cursors) = read.get_mut(namespace as usize) else {
            return Err(ServiceError::NoNamespace);
        };
        Ok(cursors.pass_note(core.records(namespace)))
    }

    /// The first note in a namespace's records from this place on.
    fn note_from(&self, namespace: u64, told: Told) -> Option<&Note>
        ensures { option_copied result
            ≡ slice_get (notes_from (records_in self.now namespace) told) 0 }
    {
        let (note, _) = find_note(self.core.records(namespace), told)?;
        Some(note)
    }

    /// Returns the journals, in the order of the namespaces, moved out. The service ends. The call allocates nothing.
    pub fn into_journals(self) -> Vec<Transcript>
        ensures { result.items ≡ journals_of self.spaces }
    {
        let RecordedService { core, room, .. } = self;
        let Core { spaces } = core;
        let mut journals = room;
        for space in spaces {
            space.sound();
            journals.push_reserved(space.into_tape().into_journal());
        }
        journals
    }
}

impl Core<Kept> {
    /// The journal of a namespace, or `NoNamespace`.
    fn journal(&self, namespace: u64) -> Result<&Transcript, ServiceError>
        ensures journal { IfOk result
            (λ journal. slice_get (journals_of self.now) namespace ≡ Some journal.now) }
        ensures refused { IfErr result
            (λ e. (e ≡ ServiceError.NoNamespace) × (length self.now ≤ namespace)) }
    {
        let space = self.space(namespace)?;
        space.sound();
        Ok(space.tape().journal())
    }

    /// The records of a namespace's journal; none if there is no such namespace.
    fn records(&self, namespace: u64) -> &[Record]
        ensures { result.now ≡ records_at (journals_of self.now) namespace }
    {
        match self.journal(namespace) {
            Ok(journal) => journal.records.as_slice(),
            Err(_) => &[],
        }
    }
}

/// This many namespaces of which nothing was read.
fn new_cursors(alloc: Global, count: usize) -> Result<Vec<Cursors>, AllocError>
    ensures { IfOk result (λ read. AreAtStart read.items count) }
{
    let mut read = Vec::with_capacity(alloc, count)?;
    for _namespace in 0..count {
        read.push(Cursors::new(alloc))?;
    }
    Ok(read)
}

/// Opens a connection in a namespace, and adds its cursor. If the call is refused, nothing has changed.
fn open_in(core: &mut Core<Kept>, replies: &mut Vec<u64>, namespace: u64) -> Result<Output, Refusal>
    requires { namespace < length core.old }
    ensures performed { IfOk result (λ output.
        At core.old core.new namespace (Performs kept_by (input.Open namespace) output)) }
    ensures added { OnOk result (replies.new.items ≡ replies.old.items ++ 0 ∷ []) }
    ensures refused { IfErr result (λ refusal. Refuses core.old namespace refusal.error
        (RefusedInput (input.Open namespace) refusal.error)) }
    ensures back { IfErr result (λ refusal. refusal.input ≡ input.Open namespace) }
    ensures unchanged { OnErr result (core.new ≡ core.old) }
    ensures kept { OnErr result (replies.new.items ≡ replies.old.items) }
{
    let input = Input::Open { namespace };
    if replies.try_reserve(1).is_err() {
        return Err(Refusal::new(ServiceError::OutOfMemory, input));
    }
    let output = core.step(input)?;
    replies.push_reserved(0);
    Ok(output)
}

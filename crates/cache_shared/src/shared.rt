//! The shared service.
ghost use Rattle.std.specs.Prelude.{◌≡◌, ◌≤◌, ◌-◌, ◌^◌, [], length, map, sum_by, IfOk, IfErr, IsSome, OnErr};
ghost use Rattle.std.specs.Arc.{arc_value};
ghost use Rattle.cache_shared.specs.Events.{RefusesStep, StandsAfter};
ghost use Rattle.cache_shared.specs.Histories.{HappenedInHistory, HasHistory};
ghost use Rattle.cache_shared.specs.Intakes.{input_in};
ghost use Rattle.cache_shared.specs.Looked.{HappenedAtSomeMoment, HeldAtSomeMoment, Owes, WasGuarded, WasOldestNote, WereMoved, RefusesCopy, WereOut, WereUntaken};
ghost use Rattle.cache_shared.specs.Seats.{AgreeAll, Counts, SameReceipts};
ghost use Rattle.cache_shared.specs.Taken.{MovesAll, MovesLoads, MovesNote, MovesOldest, MovesReplies, TakesInput, TakesInputWhole};
ghost use Rattle.cache_spaces.specs.Calls.{InSpace, IsOpened, IsUnknown, Refuses};
ghost use Rattle.cache_spaces.specs.Spaces.{closing_of, is_waiting_for};

use crate::booked::Finished;
use crate::guarded::{Books, GuardedService};
use crate::intake::{Intake, IntakeError};
use crate::seat::{Seat, Seating};
use crate::shareable::Shareable;
use crate::turning::Turn;
use audit_laws::Receipt;
use audit_model::{Bytes, Closing, Conn, Input, LoadId, Note, ServiceError};
use cache_spaces::{Output, Owed, RecordedService, Refusal};
use std::alloc::{AllocError, Global};
use std::sync::{Arc, Condvar, Mutex, Wait};

/// The lock, and the condition variable that signals changes.
#[derive(Drop)]
struct Inner<L: Seating, C: Shareable> {
    guarded: Mutex<GuardedService<L, C>>,
    changed: Condvar,
}

/// A service that threads share; a clone is another handle of the same one. Each input is taken in one hold of its one lock.
///
/// Whenever the lock is taken, there are journals that obey and lead to where the service stands, of as many records as inputs were
/// accepted. What was done in each hold is noted in one history, which exists in proofs alone: a seat claims the holds of its calls, and
/// all that it claims are of that history, one after the other. `L` is the ledger of its seats, and the history's name.
#[derive(Drop)]
pub struct SharedService<L: Seating, C: Shareable = RecordedService> {
    inner: Arc<Option<Inner<L, C>>>,
    alloc: Global,
    ghost full: { IsSome (arc_value inner) },
}

impl<L: Seating, C: Shareable> Clone for SharedService<L, C> {
    fn clone(&self) -> Result<SharedService<L, C>, AllocError> {
        Ok(SharedService {
            inner: Arc::try_clone(&self.inner)?,
            alloc: self.alloc,
        })
    }
}

impl<L: Seating, C: Shareable> SharedService<L, C> {
    /// Makes a service without inputs shared, over new books, whose ledger has this many parts. Returns service and books as the error if
    /// there is not enough memory.
    pub fn new(
        alloc: Global,
        core: C,
        books: Books<C>,
        parts: u64,
    ) -> Result<SharedService<L, C>, (C, Books<C>)>
        requires empty { StandsAfter C.KEEPS L.configs C.spaces C.journals 0 core }
        requires name { books.blank.name ≡ L.name }
        requires parts { (books.blank.parts ≡ L.parts) × (L.all ≡ L.parts) × (parts ≡ L.parts) }
        requires history { (books.opened.0 ≡ L.history) × (books.opened.1 ≡ core) }
        ensures back { IfErr result (λ both. (both.0 ≡ core) × (both.1 ≡ books)) }
    {
        let Ok(mut inner) = Arc::new(alloc, None) else {
            return Err((core, books));
        };
        let Some(open) = Arc::get_mut(&mut inner) else {
            return Err((core, books));
        };
        *open = Some(Inner {
            guarded: Mutex::new(GuardedService::new(core, books, parts)),
            changed: Condvar::new(),
        });
        Ok(SharedService { inner, alloc })
    }

    /// The lock, and the condition variable that signals changes.
    fn inner(&self) -> &Inner<L, C> {
        match &*self.inner {
            Some(inner) => inner,
            None => unreachable!(),
        }
    }

    /// Returns a seat for one thread, or `UsedUp` if the ledger has no part left. The call allocates nothing.
    pub fn seat(&self, rt: &impl Wait) -> Result<Seat<L, C>, ServiceError>
        ensures seat { IfOk result (λ seat. (seat.count ≡ 0) × (seat.receipts.items ≡ [])
            × (seat.claims.holds ≡ [])) }
        ensures refused { IfErr result (λ e. (e ≡ ServiceError.UsedUp) × WasGuarded
            (λ (guarded : GuardedService L C (record { all = L.all; configs = L.configs })
            (record { history = L.history }) C.Shareable).
            guarded.booked.left ≡ 0)) }
    {
        self.inner().guarded.lock(rt).seat(self.alloc)
    }

    /// Takes one input for a seat, in one hold of the lock. If it is accepted, the seat counts one more, and, if the service keeps
    /// journals, has one more receipt, of this input and its output.
    ///
    /// A refused input is returned, and leaves no receipt and no count; then nothing has changed. The error is that of the service under
    /// the lock, `OutOfMemory` also if there is no memory for the receipt, and `UsedUp` if the seat's count is at 2^64 - 1.
    pub fn step(
        &self,
        rt: &impl Wait,
        seat: &mut Seat<L, C>,
        input: Input,
    ) -> Result<Output, Refusal>
        ensures counted { IfOk result (λ output. Counts C.KEEPS input output seat.old.count
            seat.new.count seat.old.receipts.items seat.new.receipts.items) }
        ensures back { IfErr result (λ refusal. refusal.input ≡ input) }
        ensures unchanged { OnErr result ((seat.new.count ≡ seat.old.count)
            × SameReceipts seat.old.receipts.items seat.new.receipts.items
            × (seat.new.claims ≡ seat.old.claims)) }
        ensures taken { IfOk result (λ output. HappenedInHistory C.spaces C.untaken C.untold
            L.configs seat.old.claims seat.new.claims
            (TakesInput C.spaces C.untaken C.untold input output)) }
        ensures refused { IfErr result (λ refusal. HeldAtSomeMoment L.configs C.spaces
            (RefusesStep input refusal.error seat.old.count)) }
        ensures used_up { IfErr result
            (λ refusal. refusal.error ≡ ServiceError.UsedUp → seat.old.count ≡ 2 ^ 64 - 1) }
    {
        let inner = self.inner();
        let intake = Intake::Input(input);
        let taken = inner.guarded.lock(rt).step(self.alloc, seat, intake);
        inner.changed.notify_all();
        match taken {
            Ok(output) => Ok(output),
            Err(IntakeError { error, intake }) => match intake {
                Intake::Input(input) => Err(Refusal { error, input }),
                Intake::Piece { .. } => unreachable!(),
            },
        }
    }

    /// Returns the service with each seat's receipts, if this is the last clone, all seats that were made are passed, and there is enough
    /// memory: one byte for each record of a namespace. Otherwise this clone and the seats are returned as the error.
    ///
    /// When the service is returned, it has accepted as many inputs as these seats count together, each seat's receipts of a namespace are
    /// in their order a part of its journal, and over all seats each record has one receipt. All holds that these seats claim are of one
    /// history, which led to this service.
    pub fn finish(
        self,
        seats: Vec<Seat<L, C>>,
    ) -> Result<Finished<C>, (SharedService<L, C>, Vec<Seat<L, C>>)>
        requires ledger { L.all ≡ L.parts }
        ensures stands { IfOk result (λ finished. StandsAfter C.KEEPS L.configs C.spaces C.journals
            (sum_by (λ seat. seat.count) seats.items) finished.service) }
        ensures receipts { IfOk result
            (λ finished. finished.receipts.items ≡ map (λ seat. seat.receipts) seats.items) }
        ensures agree { IfOk result (λ finished.
            AgreeAll (C.journals finished.service) (λ seat. seat.receipts.items) seats.items) }
        ensures history { IfOk result (λ finished. HasHistory C.spaces C.untaken C.untold
            finished.service (λ seat. seat.claims) seats.items) }
        ensures back { IfErr result (λ both. both.1 ≡ seats) }
    {
        let SharedService { mut inner, alloc } = self;
        let closed = match Arc::get_mut(&mut inner) {
            Some(slot) => close_if_all(alloc, slot, seats),
            None => Err(seats),
        };
        match closed {
            Ok(finished) => Ok(finished),
            Err(seats) => Err((SharedService { inner, alloc }, seats)),
        }
    }
}

impl<L: Seating, C: Shareable> SharedService<L, C> {
    /// Returns the reply bytes of a connection since they were last taken, moved out, in one hold of the lock. The call is not an event,
    /// and leaves no receipt. Returns `NoNamespace` if there is no such namespace, `NoConnection` if the connection was never opened, and
    /// `OutOfMemory` if the service under the lock copies replies and has no memory for the copy: the replies then come the next time.
    pub fn take_output(&self, rt: &impl Wait, conn: Conn) -> Result<Vec<u8>, ServiceError>
        ensures all { IfOk result (λ text. HappenedAtSomeMoment L.configs C.spaces (λ old new.
            MovesReplies C.spaces C.untaken C.untold old new conn text.items)) }
        ensures taken { IfOk result
            (λ text. WereUntaken L.configs C.spaces C.untaken conn text.items) }
        ensures refused { IfErr result (λ e. HeldAtSomeMoment L.configs C.spaces (λ spaces.
            Refuses spaces conn.namespace e (λ space. RefusesCopy space conn.number e))) }
    {
        self.inner().guarded.lock(rt).take_output(conn)
    }

    /// Takes one input for a seat, like `step`, or a piece of a connection's bytes that is only lent, and moves out what a connection is
    /// owed afterwards, in the same hold of the lock: its replies, the loads of its namespace that went out, if requested, why it is closed
    /// and whether it waits. The namespace's oldest notes are appended to those given, as many as there is room for.
    ///
    /// The call returns the errors of `step`, and what was refused; then nothing has changed.
    /// ```
    /// let piece = Intake::Piece { conn, piece: &buffer[..count], moment };
    /// let turn = shared.turn(rt, &mut seat, conn, piece, true, &mut notes)?;
    /// ```
    pub fn turn<'a>(
        &self,
        rt: &impl Wait,
        seat: &mut Seat<L, C>,
        conn: Conn,
        intake: Intake<'a>,
        wants_loads: bool,
        notes: &mut Vec<Note>,
    ) -> Result<Turn, IntakeError<'a>>
        ensures counted { IfOk result (λ turn. Counts C.KEEPS (input_in intake.entry) turn.output
            seat.old.count seat.new.count seat.old.receipts.items seat.new.receipts.items) }
        ensures owed { IfOk result
            (λ turn. Owes L.configs C.spaces C.untaken conn wants_loads turn.owed) }
        ensures back { IfErr result (λ refused. refused.intake ≡ intake.entry) }
        ensures unchanged { OnErr result ((seat.new.count ≡ seat.old.count)
            × SameReceipts seat.old.receipts.items seat.new.receipts.items
            × (seat.new.claims ≡ seat.old.claims) × (notes.new ≡ notes.old)) }
        ensures taken { IfOk result (λ turn. HappenedInHistory C.spaces C.untaken C.untold
            L.configs seat.old.claims seat.new.claims (λ old new. TakesInputWhole C.spaces
            C.untaken C.untold old new conn (input_in intake.entry) wants_loads turn
            notes.old.items notes.new.items)) }
        ensures refused { IfErr result (λ refused. HeldAtSomeMoment L.configs C.spaces
            (RefusesStep (input_in intake.entry) refused.error seat.old.count)) }
        ensures used_up { IfErr result
            (λ refused. refused.error ≡ ServiceError.UsedUp → seat.old.count ≡ 2 ^ 64 - 1) }
        ensures moved { WereMoved L.configs C.spaces C.untold conn.namespace notes.old.items
            notes.new.items }
    {
        let inner = self.inner();
        let mut guard = inner.guarded.lock(rt);
        let turn = guard.turn(self.alloc, seat, conn, intake, wants_loads, notes);
        drop(guard);
        inner.changed.notify_all();
        turn
    }

    /// Returns what a connection is owed, moved out in one hold of the lock, which the seat claims; nothing if the connection is unknown.
    /// The call is not an event, and leaves no receipt. The loads of its namespace are included only if requested; the namespace's oldest notes are appended
    /// to those given, as many as there is room for.
    pub fn take_owed(
        &self,
        rt: &impl Wait,
        seat: &mut Seat<L, C>,
        conn: Conn,
        wants_loads: bool,
        notes: &mut Vec<Note>,
    ) -> Owed
        ensures all { HappenedInHistory C.spaces C.untaken C.untold L.configs seat.old.claims
            seat.new.claims (λ old new. MovesAll C.spaces C.untaken C.untold old new conn
            wants_loads result notes.old.items notes.new.items) }
        ensures seat { (seat.new.count ≡ seat.old.count)
            × (seat.new.receipts ≡ seat.old.receipts) }
        ensures owed { Owes L.configs C.spaces C.untaken conn wants_loads result }
        ensures moved { WereMoved L.configs C.spaces C.untold conn.namespace notes.old.items
            notes.new.items }
    {
        self.inner()
            .guarded
            .lock(rt)
            .take_owed(seat, conn, wants_loads, notes)
    }

    /// Appends the oldest notes of a namespace that were reported and not taken, moved out in one hold of the lock, as many as there is
    /// room for. The call is not an event, and leaves no receipt. Returns `NoNamespace` if there is no such namespace, and `OutOfMemory` if
    /// the service under the lock copies notes and has no memory for a copy: the notes before that one are then taken.
    pub fn take_notices(
        &self,
        rt: &impl Wait,
        namespace: u64,
        notes: &mut Vec<Note>,
    ) -> Result<(), ServiceError>
        ensures all { HappenedAtSomeMoment L.configs C.spaces (λ old new. MovesOldest C.spaces
            C.untaken C.untold old new namespace result notes.old notes.new) }
        ensures moved { WereMoved L.configs C.spaces C.untold namespace notes.old.items
            notes.new.items }
        ensures refused { IfErr result (λ e. HeldAtSomeMoment L.configs C.spaces
            (λ spaces. Refuses spaces namespace e (λ space. e ≡ ServiceError.OutOfMemory))) }
    {
        self.inner().guarded.lock(rt).take_notices(namespace, notes)
    }

    /// Returns the loads of a namespace that went out and were not taken, with their keys, in the order in which they were sent, moved out,
    /// in one hold of the lock. The call is not an event, and leaves no receipt. Returns `NoNamespace` if there is no such namespace.
    pub fn take_loads(
        &self,
        rt: &impl Wait,
        namespace: u64,
    ) -> Result<Vec<(LoadId, Bytes)>, ServiceError>
        ensures all { IfOk result (λ loads. HappenedAtSomeMoment L.configs C.spaces (λ old new.
            MovesLoads C.spaces C.untaken C.untold old new namespace loads.items)) }
        ensures taken { IfOk result (λ loads. WereOut L.configs C.spaces namespace loads.items) }
        ensures refused { IfErr result (λ e. HeldAtSomeMoment L.configs C.spaces
            (λ spaces. (e ≡ ServiceError.NoNamespace) × (length spaces ≤ namespace))) }
    {
        self.inner().guarded.lock(rt).take_loads(namespace)
    }

    /// Returns the oldest note of a namespace that was reported and not taken, or `None`, in one hold of the lock. The call is not an
    /// event, and leaves no receipt. Returns `NoNamespace` if there is no such namespace, and `OutOfMemory` if the service under the lock
    /// copies notes and has no memory for the copy: the note then comes the next time.
    pub fn next_notice(&self, rt: &impl Wait, namespace: u64) -> Result<Option<Note>, ServiceError>
        ensures all { IfOk result (λ note. HappenedAtSomeMoment L.configs C.spaces (λ old new.
            MovesNote C.spaces C.untaken C.untold old new namespace note)) }
        ensures note { IfOk result
            (λ note. WasOldestNote L.configs C.spaces C.untold namespace note) }
        ensures refused { IfErr result (λ e. HeldAtSomeMoment L.configs C.spaces
            (λ spaces. Refuses spaces namespace e (λ space. e ≡ ServiceError.OutOfMemory))) }
    {
        self.inner().guarded.lock(rt).next_notice(namespace)
    }

    /// Returns why a connection is closed, or `None` while it is open, in one hold of the lock. Returns `NoNamespace` if there is no such
    /// namespace, and `NoConnection` if the connection was never opened.
    pub fn closed(&self, rt: &impl Wait, conn: Conn) -> Result<Option<Closing>, ServiceError>
        ensures closing { IfOk result (λ closing. HeldAtSomeMoment L.configs C.spaces (λ spaces.
            InSpace spaces conn.namespace
            (λ space. IsOpened space conn.number × (closing ≡ closing_of space conn.number)))) }
        ensures refused { IfErr result (λ e. HeldAtSomeMoment L.configs C.spaces
            (λ spaces. Refuses spaces conn.namespace e (λ space. IsUnknown space conn.number e))) }
    {
        self.inner().guarded.lock(rt).booked.core.closed(conn)
    }

    /// Returns whether a `LOAD` of a connection waits for its load, in one hold of the lock. Returns `NoNamespace` if there is no such
    /// namespace, and `NoConnection` if the connection was never opened.
    pub fn waiting(&self, rt: &impl Wait, conn: Conn) -> Result<bool, ServiceError>
        ensures waits { IfOk result (λ waits. HeldAtSomeMoment L.configs C.spaces (λ spaces.
            InSpace spaces conn.namespace
            (λ space. IsOpened space conn.number × (waits ≡ is_waiting_for space conn.number)))) }
        ensures refused { IfErr result (λ e. HeldAtSomeMoment L.configs C.spaces
            (λ spaces. Refuses spaces conn.namespace e (λ space. IsUnknown space conn.number e))) }
    {
        self.inner().guarded.lock(rt).booked.core.waiting(conn)
    }

    /// Waits until no `LOAD` of a connection waits for its load. Each step of a seat lets those that wait look again. Nothing is promised
    /// about when the call returns; if the connection is unknown it returns at once.
    pub fn await_ready(&self, rt: &impl Wait, seat: &Seat<L, C>, conn: Conn) {
        let inner = self.inner();
        let mut guard = inner.guarded.lock(rt);
        for _ in rt.forever() {
            match guard.booked.core.waiting(conn) {
                Ok(true) => guard = inner.changed.wait(rt, guard),
                _ => return,
            }
        }
    }
}

/// Closes it, if these are all seats, their receipts stand, and there is enough memory.
fn close_if_all<L: Seating, C: Shareable>(
    alloc: Global,
    slot: &mut Option<Inner<L, C>>,
    seats: Vec<Seat<L, C>>,
) -> Result<Finished<C>, Vec<Seat<L, C>>>
    requires ledger { L.all ≡ L.parts }
    requires full { IsSome slot.old }
    ensures stands { IfOk result (λ finished. StandsAfter C.KEEPS L.configs C.spaces C.journals
        (sum_by (λ seat. seat.count) seats.items) finished.service) }
    ensures receipts { IfOk result
        (λ finished. finished.receipts.items ≡ map (λ seat. seat.receipts) seats.items) }
    ensures agree { IfOk result (λ finished.
        AgreeAll (C.journals finished.service) (λ seat. seat.receipts.items) seats.items) }
    ensures history { IfOk result (λ finished. HasHistory C.spaces C.untaken C.untold
        finished.service (λ seat. seat.claims) seats.items) }
    ensures back { IfErr result (λ back. back ≡ seats) }
    ensures full { OnErr result (IsSome slot.new) }
{
    let Ok(receipts) = Vec::with_capacity(alloc, seats.len()) else {
        return Err(seats);
    };
    let Some(inner) = slot.take() else {
        unreachable!()
    };
    let Inner { guarded, changed } = inner;
    let GuardedService { booked, mut keeper } = guarded.into_inner();
    if !booked.are_all(&seats) || !booked.agrees(alloc, seats.as_slice()) {
        *slot = Some(Inner {
            guarded: Mutex::new(GuardedService { booked, keeper }),
            changed,
        });
        return Err(seats);
    }
    Ok(booked.close(&mut keeper, seats, receipts))
}

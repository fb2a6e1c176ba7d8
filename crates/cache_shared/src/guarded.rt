//! What the lock guards: the service, and the history of all that was done to it.
ghost use Rattle.std.specs.Prelude.{◌≡◌, ◌≤◌, ◌-◌, ◌^◌, [], length, IfOk, IfErr, OnErr};
ghost use Rattle.cache_history.specs.Histories.{IsLatest};
ghost use Rattle.cache_shared.specs.Events.{RefusesStep, StandsAfter};
ghost use Rattle.cache_shared.specs.Histories.{HappenedInHistory, Starts};
ghost use Rattle.cache_shared.specs.Intakes.{input_in};
ghost use Rattle.cache_shared.specs.Looked.{HeldAtSomeMoment, Owes, RefusesCopy, WasOldestNote, WereMoved, WereOut, WereUntaken};
ghost use Rattle.cache_shared.specs.Seats.{Counts, SameReceipts};
ghost use Rattle.cache_shared.specs.Taken.{MovesAll, MovesLoads, MovesNote, MovesOldest, MovesReplies, TakesInput, TakesInputWhole};
ghost use Rattle.cache_spaces.specs.Calls.{Refuses};

use crate::booked::BookedService;
use crate::intake::{Intake, IntakeError};
use crate::seat::{Seat, Seating};
use crate::shareable::Shareable;
use crate::turning::Turn;
use audit_model::{Bytes, Conn, LoadId, Note, ServiceError};
use cache_history::{Keeper, Law, Opened};
use cache_spaces::{Output, Owed};
use std::alloc::{AllocError, Global};
use std::marker::PhantomData;
use std::sync::ledger::Blank;

/// The law of a shared service's history: it starts without inputs, and a hold of its lock takes an input, moves out what is owed, or both.
pub struct Serves<C> {
    marker: PhantomData<C>,
}

impl<C: Shareable> Law<C> for Serves<C> {
    ghost use Rattle.cache_shared.specs.Histories.{IsHold, Starts};

    ghost starts = { Starts C.spaces };

    ghost holds = { IsHold C.spaces C.untaken C.untold };
}

/// The books of a service that is to be shared: the ledger of its seats, and a history that begins with it.
#[derive(Drop)]
pub struct Books<C: Shareable> {
    blank: Blank,
    opened: Opened<C, Serves<C>>,
}

impl<C: Shareable> Books<C> {
    /// Creates the books of a service without inputs, whose ledger has this many parts, one for each possible seat. Returns an error if
    /// there is not enough memory.
    pub fn new(alloc: Global, core: &C, parts: u64) -> Result<Books<C>, AllocError>
        requires starts { Starts C.spaces core.now }
        ensures parts { IfOk result (λ books. books.blank.parts ≡ parts) }
        ensures begins { IfOk result (λ books. books.opened.1 ≡ core.now) }
    {
        Ok(Books {
            blank: Blank::new(parts),
            opened: Opened::new(alloc, core)?,
        })
    }
}

/// The service under the lock, beside the keeper of its history, in which each hold that changes it is noted.
#[derive(Drop)]
pub struct GuardedService<L: Seating, C: Shareable> {
    pub(crate) booked: BookedService<L, C>,
    pub(crate) keeper: Keeper<C, Serves<C>, L>,
    ghost latest: { IsLatest booked.core keeper },
}

impl<L: Seating, C: Shareable> GuardedService<L, C> {
    /// Creates a service without seats, over one without inputs, whose history begins.
    pub(crate) fn new(core: C, books: Books<C>, parts: u64) -> GuardedService<L, C>
        requires empty { StandsAfter C.KEEPS L.configs C.spaces C.journals 0 core }
        requires name { books.blank.name ≡ L.name }
        requires parts { (books.blank.parts ≡ L.parts) × (L.all ≡ L.parts) × (parts ≡ L.parts) }
        requires history { (books.opened.0 ≡ L.history) × (books.opened.1 ≡ core) }
        ensures { result.booked.core ≡ core }
    {
        let Books { blank, opened } = books;
        GuardedService {
            booked: BookedService::new(core, blank, parts),
            keeper: opened.named(),
        }
    }

    /// Returns a seat, or `UsedUp` if the ledger has no part left. The call allocates nothing.
    pub(crate) fn seat(&mut self, alloc: Global) -> Result<Seat<L, C>, ServiceError>
        ensures seat { IfOk result (λ seat. (seat.count ≡ 0) × (seat.receipts.items ≡ [])
            × (seat.claims.holds ≡ [])) }
        ensures refused { IfErr result
            (λ e. (e ≡ ServiceError.UsedUp) × (self.old.booked.left ≡ 0)) }
    {
        let GuardedService { booked, keeper } = self;
        booked.seat(alloc, keeper.token())
    }

    /// Takes an input for a seat, like `BookedService::step`, in a hold that the seat claims.
    pub(crate) fn step<'a>(
        &mut self,
        alloc: Global,
        seat: &mut Seat<L, C>,
        intake: Intake<'a>,
    ) -> Result<Output, IntakeError<'a>>
        ensures counted { IfOk result (λ output. Counts C.KEEPS (input_in intake.entry) output
            seat.old.count seat.new.count seat.old.receipts.items seat.new.receipts.items) }
        ensures taken { IfOk result (λ output. HappenedInHistory C.spaces C.untaken C.untold
            L.configs seat.old.claims seat.new.claims (TakesInput C.spaces C.untaken C.untold
            (input_in intake.entry) output)) }
        ensures refused { IfErr result (λ refused. RefusesStep (input_in intake.entry) refused.error
            seat.old.count (C.spaces self.old.booked.core)) }
        ensures used_up { IfErr result
            (λ refused. refused.error ≡ ServiceError.UsedUp → seat.old.count ≡ 2 ^ 64 - 1) }
        ensures unchanged { OnErr result ((self.new.booked.core ≡ self.old.booked.core)
            × (seat.new.count ≡ seat.old.count)
            × SameReceipts seat.old.receipts.items seat.new.receipts.items
            × (seat.new.claims ≡ seat.old.claims)) }
        ensures back { IfErr result (λ refused. refused.intake ≡ intake.entry) }
    {
        let GuardedService { booked, keeper } = self;
        let output = booked.step(alloc, seat, intake)?;
        let Seat { claims, .. } = seat;
        keeper.claim(claims, &booked.core);
        Ok(output)
    }

    /// Takes an intake for a seat, like `step`, and moves out what a connection is owed afterwards, and its namespace's oldest notes, as
    /// many as there is room for. Returns the errors of `step`; then nothing has changed.
    pub(crate) fn turn<'a>(
        &mut self,
        alloc: Global,
        seat: &mut Seat<L, C>,
        conn: Conn,
        intake: Intake<'a>,
        wants_loads: bool,
        notes: &mut Vec<Note>,
    ) -> Result<Turn, IntakeError<'a>>
        ensures counted { IfOk result (λ turn. Counts C.KEEPS (input_in intake.entry) turn.output
            seat.old.count seat.new.count seat.old.receipts.items seat.new.receipts.items) }
        ensures taken { IfOk result (λ turn. HappenedInHistory C.spaces C.untaken C.untold
            L.configs seat.old.claims seat.new.claims (λ old new. TakesInputWhole C.spaces
            C.untaken C.untold old new conn (input_in intake.entry) wants_loads turn
            notes.old.items notes.new.items)) }
        ensures owed { IfOk result
            (λ turn. Owes L.configs C.spaces C.untaken conn wants_loads turn.owed) }
        ensures refused { IfErr result (λ refused. RefusesStep (input_in intake.entry) refused.error
            seat.old.count (C.spaces self.old.booked.core)) }
        ensures used_up { IfErr result
            (λ refused. refused.error ≡ ServiceError.UsedUp → seat.old.count ≡ 2 ^ 64 - 1) }
        ensures unchanged { OnErr result ((self.new.booked.core ≡ self.old.booked.core)
            × (seat.new.count ≡ seat.old.count)
            × SameReceipts seat.old.receipts.items seat.new.receipts.items
            × (seat.new.claims ≡ seat.old.claims) × (notes.new ≡ notes.old)) }
        ensures back { IfErr result (λ refused. refused.intake ≡ intake.entry) }
        ensures moved { WereMoved L.configs C.spaces C.untold conn.namespace notes.old.items
            notes.new.items }
    {
        let GuardedService { booked, keeper } = self;
        let output = booked.step(alloc, seat, intake)?;
        let owed = booked.take_owed(conn, wants_loads, notes);
        let Seat { claims, .. } = seat;
        keeper.claim(claims, &booked.core);
        Ok(Turn { output, owed })
    }

    /// Moves out what a connection is owed, like `BookedService::take_owed`, in a hold that the seat claims.
    pub(crate) fn take_owed(
        &mut self,
        seat: &mut Seat<L, C>,
        conn: Conn,
        wants_loads: bool,
        notes: &mut Vec<Note>,
    ) -> Owed
        ensures all { HappenedInHistory C.spaces C.untaken C.untold L.configs seat.old.claims
            seat.new.claims (λ old new. MovesAll C.spaces C.untaken C.untold old new conn
            wants_loads result notes.old.items notes.new.items) }
        ensures seat { (seat.new.count ≡ seat.old.count)
            × (seat.new.receipts ≡ seat.old.receipts) }
        ensures owed { Owes L.configs C.spaces C.untaken conn wants_loads result }
        ensures moved { WereMoved L.configs C.spaces C.untold conn.namespace notes.old.items
            notes.new.items }
    {
        let GuardedService { booked, keeper } = self;
        let owed = booked.take_owed(conn, wants_loads, notes);
        let Seat { claims, .. } = seat;
        keeper.claim(claims, &booked.core);
        owed
    }

    /// Moves out the replies of a connection, like `BookedService::take_output`.
    pub(crate) fn take_output(&mut self, conn: Conn) -> Result<Vec<u8>, ServiceError>
        ensures all { IfOk result (λ text. MovesReplies C.spaces C.untaken C.untold
            self.old.booked.core self.new.booked.core conn text.items) }
        ensures taken { IfOk result
            (λ text. WereUntaken L.configs C.spaces C.untaken conn text.items) }
        ensures refused { IfErr result (λ e. HeldAtSomeMoment L.configs C.spaces (λ spaces.
            Refuses spaces conn.namespace e (λ space. RefusesCopy space conn.number e))) }
    {
        let GuardedService { booked, keeper } = self;
        let text = booked.take_output(conn)?;
        keeper.pass(&booked.core);
        Ok(text)
    }

    /// Moves out the oldest notes of a namespace, like `BookedService::take_notices`.
    pub(crate) fn take_notices(
        &mut self,
        namespace: u64,
        notes: &mut Vec<Note>,
    ) -> Result<(), ServiceError>
        ensures all { MovesOldest C.spaces C.untaken C.untold self.old.booked.core
            self.new.booked.core namespace result notes.old notes.new }
        ensures refused { IfErr result (λ e. HeldAtSomeMoment L.configs C.spaces
            (λ spaces. Refuses spaces namespace e (λ space. e ≡ ServiceError.OutOfMemory))) }
    {
        let GuardedService { booked, keeper } = self;
        let taken = booked.take_notices(namespace, notes);
        keeper.pass(&booked.core);
        taken
    }

    /// Moves out the loads of a namespace, like `BookedService::take_loads`.
    pub(crate) fn take_loads(
        &mut self,
        namespace: u64,
    ) -> Result<Vec<(LoadId, Bytes)>, ServiceError>
        ensures all { IfOk result (λ loads. MovesLoads C.spaces C.untaken C.untold
            self.old.booked.core self.new.booked.core namespace loads.items) }
        ensures taken { IfOk result (λ loads. WereOut L.configs C.spaces namespace loads.items) }
        ensures refused { IfErr result (λ e. HeldAtSomeMoment L.configs C.spaces
            (λ spaces. (e ≡ ServiceError.NoNamespace) × (length spaces ≤ namespace))) }
    {
        let GuardedService { booked, keeper } = self;
        let loads = booked.take_loads(namespace)?;
        keeper.pass(&booked.core);
        Ok(loads)
    }

    /// Moves out the oldest note of a namespace, like `BookedService::next_notice`.
    pub(crate) fn next_notice(&mut self, namespace: u64) -> Result<Option<Note>, ServiceError>
        ensures all { IfOk result (λ note. MovesNote C.spaces C.untaken C.untold
            self.old.booked.core self.new.booked.core namespace note) }
        ensures note { IfOk result
            (λ note. WasOldestNote L.configs C.spaces C.untold namespace note) }
        ensures refused { IfErr result (λ e. HeldAtSomeMoment L.configs C.spaces
            (λ spaces. Refuses spaces namespace e (λ space. e ≡ ServiceError.OutOfMemory))) }
    {
        let GuardedService { booked, keeper } = self;
        let note = booked.core.next_notice(namespace)?;
        keeper.pass(&booked.core);
        Ok(note)
    }
}

//! What is under the lock.
ghost use Rattle.std.specs.Prelude.{◌≡◌, ◌≢◌, ◌+◌, ◌-◌, ◌^◌, ◌≤◌, [], true, false, length, map, sum_by, vec_len, vec_capacity, IfOk, IfErr, OnOk, OnErr};
ghost use Rattle.cache_shared.specs.Events.{IsLastNumber, RefusesStep, StandsAfter, TakesNothing};
ghost use Rattle.cache_history.specs.Histories.{IsLatest};
ghost use Rattle.cache_shared.specs.Histories.{HasHistory};
ghost use Rattle.cache_shared.specs.Intakes.{input_in};
ghost use Rattle.cache_shared.specs.Looked.{HeldAtSomeMoment, RefusesCopy, WereOut, WereUntaken};
ghost use Rattle.cache_shared.specs.Seats.{AgreeAll, Counts, GainsReceipt, SameReceipts};
ghost use Rattle.cache_shared.specs.Taken.{MovesLoads, MovesReplies, TakesInput};
ghost use Rattle.cache_spaces.specs.Calls.{Refuses};

use crate::guarded::Serves;
use crate::intake::{Intake, IntakeError};
use crate::judging::agree;
use crate::seat::{Seat, Seating, make_lists};
use crate::shareable::Shareable;
use audit_laws::Receipt;
use audit_model::{Bytes, Conn, LoadId, ServiceError};
use cache_history::{Claims, Keeper};
use cache_spaces::Output;
use std::alloc::Global;
use std::sync::ledger::{Blank, Book, Share};

/// The service under the lock, with the book of all seats' events and the parts that no seat has.
#[derive(Drop)]
pub struct BookedService<L: Seating, C: Shareable> {
    pub(crate) core: C,
    book: Book<L>,
    rest: Share<L>,
    left: u64,
    parts: u64,
    ghost stands: { StandsAfter C.KEEPS L.configs C.spaces C.journals book.total core },
    ghost spare: { rest.parts ≡ left },
    ghost idle: { rest.amount ≡ 0 },
    ghost whole: { parts ≡ L.all },
    ghost fewer: { left ≤ parts },
}

/// What `SharedService::finish` returns: the service, and what its seats can show by its journals.
#[derive(Drop)]
pub struct Finished<C: Shareable> {
    /// The service, which accepted as many inputs as the seats count together.
    pub service: C,
    /// For each seat, in the order in which the seats were passed, a list of receipts for each namespace up to the last one that it used.
    pub receipts: Vec<Vec<Vec<Receipt>>>,
}

impl<L: Seating, C: Shareable> BookedService<L, C> {
    /// Creates a service without seats, over a service without inputs. Its ledger is cut into `parts`, one for each seat.
    pub fn new(core: C, blank: Blank, parts: u64) -> BookedService<L, C>
        requires empty { StandsAfter C.KEEPS L.configs C.spaces C.journals 0 core }
        requires name { blank.name ≡ L.name }
        requires parts { (blank.parts ≡ L.parts) × (L.all ≡ L.parts) × (parts ≡ L.parts) }
        ensures { result.core ≡ core }
    {
        let (book, rest) = blank.open::<L>();
        BookedService {
            core,
            book,
            rest,
            left: parts,
            parts,
        }
    }

    /// Returns a seat, or `UsedUp` if the ledger has no part left. The call allocates nothing.
    pub fn seat(&mut self, alloc: Global, claims: Claims<C, L>) -> Result<Seat<L, C>, ServiceError>
        ensures seat { IfOk result (λ seat. (seat.count ≡ 0) × (seat.receipts.items ≡ [])
            × (seat.claims ≡ claims)) }
        ensures core { self.new.core ≡ self.old.core }
        ensures refused { IfErr result (λ e. (e ≡ ServiceError.UsedUp) × (self.old.left ≡ 0)) }
    {
        let BookedService { rest, left, .. } = self;
        *left = left.checked_sub(1).ok_or(ServiceError::UsedUp)?;
        Ok(Seat {
            share: rest.split_off(1, 0),
            count: 0,
            receipts: Vec::new(alloc),
            claims,
        })
    }

    /// Takes an input for a seat. If it is accepted, the seat counts one more, and, if the service keeps journals, has one more receipt,
    /// of this input and its output.
    ///
    /// A refused intake is returned, and leaves no receipt and no count; then nothing has changed. In addition to the service's errors, the
    /// call returns `OutOfMemory` if there is no memory for the receipt, and `UsedUp` if the seat's count is at 2^64 - 1.
    pub fn step<'a>(
        &mut self,
        alloc: Global,
        seat: &mut Seat<L, C>,
        intake: Intake<'a>,
    ) -> Result<Output, IntakeError<'a>>
        ensures taken { IfOk result (λ output. TakesInput C.spaces C.untaken C.untold
            (input_in intake.entry) output self.old.core self.new.core) }
        ensures events { OnOk result (self.new.book.total ≡ self.old.book.total + 1)
            × (seat.new.claims ≡ seat.old.claims) }
        ensures counted { IfOk result (λ output. Counts C.KEEPS (input_in intake.entry) output
            seat.old.count seat.new.count seat.old.receipts.items seat.new.receipts.items) }
        ensures receipt { C.KEEPS ≡ true
            → IfOk result (λ output. GainsReceipt (C.journals self.new.core) seat.old.receipts.items
            seat.new.receipts.items (input_in intake.entry) output) }
        ensures refused { IfErr result (λ refused. RefusesStep (input_in intake.entry) refused.error
            seat.old.count (C.spaces self.old.core)) }
        ensures used_up { IfErr result
            (λ refused. refused.error ≡ ServiceError.UsedUp → seat.old.count ≡ 2 ^ 64 - 1) }
        ensures unchanged { OnErr result
            (TakesNothing self.old.core self.new.core self.old.book.total self.new.book.total
            × (seat.new.count ≡ seat.old.count)
            × SameReceipts seat.old.receipts.items seat.new.receipts.items) }
        ensures back { IfErr result (λ refused. refused.intake ≡ intake.entry) }
    {
        if C::KEEPS {
            return self.step_kept(alloc, seat, intake);
        }
        let Seat { share, count, .. } = seat;
        self.count_one(share, count, intake)
    }

    /// Takes an input for a seat, which counts it and has a receipt of it. The receipt's room and the copy of the input are made first.
    fn step_kept<'a>(
        &mut self,
        alloc: Global,
        seat: &mut Seat<L, C>,
        intake: Intake<'a>,
    ) -> Result<Output, IntakeError<'a>>
        requires { C.KEEPS ≡ true }
        ensures taken { IfOk result (λ output. TakesInput C.spaces C.untaken C.untold
            (input_in intake.entry) output self.old.core self.new.core) }
        ensures count { OnOk result ((self.new.book.total ≡ self.old.book.total + 1)
            × (seat.new.count ≡ seat.old.count + 1)) × (seat.new.claims ≡ seat.old.claims) }
        ensures receipt { IfOk result (λ output. GainsReceipt (C.journals self.new.core)
            seat.old.receipts.items seat.new.receipts.items (input_in intake.entry) output) }
        ensures refused { IfErr result (λ refused. RefusesStep (input_in intake.entry) refused.error
            seat.old.count (C.spaces self.old.core)) }
        ensures unchanged { OnErr result
            (TakesNothing self.old.core self.new.core self.old.book.total self.new.book.total
            × (seat.new.count ≡ seat.old.count)
            × SameReceipts seat.old.receipts.items seat.new.receipts.items) }
        ensures back { IfErr result (λ refused. refused.intake ≡ intake.entry) }
    {
        let namespace = intake.namespace();
        if let Err(error) = self.core.journal(namespace) {
            return Err(IntakeError { error, intake });
        }
        let Seat {
            share,
            count,
            receipts,
            ..
        } = seat;
        let Ok(()) = make_lists(alloc, receipts, namespace as usize) else {
            return Err(IntakeError::new(ServiceError::OutOfMemory, intake));
        };
        let own = &mut receipts[namespace as usize];
        let Ok(()) = own.reserve(1) else {
            return Err(IntakeError::new(ServiceError::OutOfMemory, intake));
        };
        let Ok(copy) = intake.copy(alloc) else {
            return Err(IntakeError::new(ServiceError::OutOfMemory, intake));
        };
        let output = self.count_one(share, count, intake)?;
        own.push_reserved(Receipt {
            namespace,
            number: self.last_number(namespace),
            input: copy,
            output,
        });
        Ok(output)
    }

    /// The number of the last record of a namespace's journal.
    fn last_number(&self, namespace: u64) -> u64
        ensures { IsLastNumber (C.journals self.now.core) namespace result }
    {
        let journal = self.core.journal(namespace);
        journal.map_or(0, |journal| journal.records.len() as u64)
    }

    /// Takes an input, and counts it on the share.
    fn count_one<'a>(
        &mut self,
        share: &mut Share<L>,
        count: &mut u64,
        intake: Intake<'a>,
    ) -> Result<Output, IntakeError<'a>>
        requires { (share.old.parts ≡ 1) × (share.old.amount ≡ count.old) }
        ensures share { (share.new.parts ≡ 1) × (share.new.amount ≡ count.new) }
        ensures taken { IfOk result (λ output. TakesInput C.spaces C.untaken C.untold
            (input_in intake.entry) output self.old.core self.new.core) }
        ensures count { OnOk result
            ((self.new.book.total ≡ self.old.book.total + 1) × (count.new ≡ count.old + 1)) }
        ensures refused { IfErr result (λ refused. RefusesStep (input_in intake.entry) refused.error
            count.old (C.spaces self.old.core)) }
        ensures unchanged { OnErr result
            (TakesNothing self.old.core self.new.core self.old.book.total self.new.book.total
            × (count.new ≡ count.old)) }
        ensures back { IfErr result (λ refused. refused.intake ≡ intake.entry) }
    {
        let BookedService { core, book, .. } = self;
        let Some(next) = count.checked_add(1) else {
            return Err(IntakeError::new(ServiceError::UsedUp, intake));
        };
        let output = intake.pass(core)?;
        book.add(share, 1);
        *count = next;
        Ok(output)
    }

    /// Returns whether these are all seats that were made.
    pub fn are_all(&self, seats: &Vec<Seat<L, C>>) -> bool
        ensures all { result ≡ true → vec_len seats.now + self.now.left ≡ self.now.parts }
        ensures missing { result ≡ false → vec_len seats.now + self.now.left ≢ self.now.parts }
    {
        seats.len() as u64 == self.parts - self.left
    }

    /// Returns whether the receipts of these seats stand in the journals, each of whose records has one. Returns false if there is not
    /// enough memory.
    pub fn agrees(&self, alloc: Global, seats: &[Seat<L, C>]) -> bool
        ensures { result ≡ true
            → AgreeAll (C.journals self.now.core) (λ seat. seat.receipts.items) seats.now }
    {
        for namespace in 0..u64::MAX {
            match self.core.journal(namespace) {
                Ok(journal) => {
                    if !agree(alloc, namespace, journal, seats) {
                        return false;
                    }
                }
                Err(_) => return true,
            }
        }
        false
    }

    /// Returns the service, moved out, with the receipts of all seats that were made. What these claim are holds of the keeper's history.
    pub fn close(
        self,
        keeper: &mut Keeper<C, Serves<C>, L>,
        seats: Vec<Seat<L, C>>,
        mut receipts: Vec<Vec<Vec<Receipt>>>,
    ) -> Finished<C>
        requires latest { IsLatest self.core keeper.old }
        requires ledger { L.all ≡ L.parts }
        requires all { vec_len seats + self.left ≡ self.parts }
        requires none { receipts.items ≡ [] }
        requires room { vec_len seats ≤ vec_capacity receipts }
        ensures service { result.service ≡ self.core }
        ensures stands { StandsAfter C.KEEPS L.configs C.spaces C.journals
            (sum_by (λ seat. seat.count) seats.items) result.service }
        ensures receipts { result.receipts.items ≡ map (λ seat. seat.receipts) seats.items }
        ensures history { HasHistory C.spaces C.untaken C.untold result.service
            (λ seat. seat.claims) seats.items }
    {
        let BookedService {
            core,
            mut book,
            mut rest,
            ..
        } = self;
        for seat in seats {
            let Seat {
                share,
                receipts: own,
                mut claims,
                ..
            } = seat;
            keeper.look(&mut claims);
            rest.merge(share);
            receipts.push_reserved(own);
        }
        keeper.stands();
        book.audit(&mut rest);
        Finished {
            service: core,
            receipts,
        }
    }

    /// Returns the reply bytes of a connection since they were last taken, moved out. Returns `NoNamespace` if there is no such namespace,
    /// `NoConnection` if the connection was never opened, and `OutOfMemory` if the service copies replies and has no memory for the copy;
    /// then nothing has changed.
    pub fn take_output(&mut self, conn: Conn) -> Result<Vec<u8>, ServiceError>
        ensures all { IfOk result (λ text. MovesReplies C.spaces C.untaken C.untold self.old.core
            self.new.core conn text.items) }
        ensures taken { IfOk result
            (λ text. WereUntaken L.configs C.spaces C.untaken conn text.items) }
        ensures refused { IfErr result (λ e. HeldAtSomeMoment L.configs C.spaces (λ spaces.
            Refuses spaces conn.namespace e (λ space. RefusesCopy space conn.number e))) }
        ensures unchanged { OnErr result (self.new.core ≡ self.old.core) }
    {
        self.core.take_output(conn)
    }

    /// Returns the loads of a namespace that went out and were not taken, moved out. Returns `NoNamespace` if there is no such namespace;
    /// then nothing has changed.
    pub fn take_loads(&mut self, namespace: u64) -> Result<Vec<(LoadId, Bytes)>, ServiceError>
        ensures all { IfOk result (λ loads. MovesLoads C.spaces C.untaken C.untold self.old.core
            self.new.core namespace loads.items) }
        ensures taken { IfOk result (λ loads. WereOut L.configs C.spaces namespace loads.items) }
        ensures refused { IfErr result (λ e. HeldAtSomeMoment L.configs C.spaces
            (λ spaces. (e ≡ ServiceError.NoNamespace) × (length spaces ≤ namespace))) }
        ensures unchanged { OnErr result (self.new.core ≡ self.old.core) }
    {
        self.core.take_loads(namespace)
    }
}

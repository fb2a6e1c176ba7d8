//! Whether the receipts of seats stand in a journal, each of whose records has one.
ghost use Rattle.std.specs.Prelude.{◌≡◌, ℕ, ◌+◌, ◌<◌, true, length};
ghost use Rattle.cache_shared.specs.Marks.{AllMarked, marks};
ghost use Rattle.cache_shared.specs.Seats.{Agree, EachOnce, ArePartsOf, holders, numbered, receipts_at};

use crate::seat::{Seat, Seating};
use audit_laws::{Receipt, are_of, receipts_stand};
use audit_model::Transcript;
use std::alloc::Global;

/// Returns whether the receipts of these seats stand in a namespace's journal, each of whose records has one. Returns false if there is not
/// enough memory.
pub fn agree<L: Seating, C>(
    alloc: Global,
    namespace: u64,
    journal: &Transcript,
    seats: &[Seat<L, C>],
) -> bool
    ensures { result ≡ true → Agree namespace journal.now.records
        (λ seat. receipts_at seat.receipts.items namespace) seats.now }
{
    if !are_parts(namespace, journal, seats) {
        return false;
    }
    match vec![in alloc; false; journal.records.len()] {
        Ok(mut seen) => judge(&mut seen, namespace, seats),
        Err(_) => false,
    }
}

/// Whether each seat's receipts of a namespace stand in its journal, in their order.
fn are_parts<L: Seating, C>(namespace: u64, journal: &Transcript, seats: &[Seat<L, C>]) -> bool
    ensures { result ≡ true → ArePartsOf namespace journal.now.records
        (λ seat. receipts_at seat.receipts.items namespace) seats.now }
{
    for seat in seats {
        let own = seat.receipts(namespace);
        if !are_of(namespace, own) || !receipts_stand(journal, own) {
            return false;
        }
    }
    true
}

/// Whether each number from 1 to the number of places is in one receipt, if no place is marked yet.
fn judge<L: Seating, C>(seen: &mut [bool], namespace: u64, seats: &[Seat<L, C>]) -> bool
    requires { (k : ℕ) → k < length seen.old → marks seen.old k ≡ 0 }
    ensures { result ≡ true
        → EachOnce (λ seat. receipts_at seat.receipts.items namespace) (length seen.old) seats.now }
{
    mark_all(seen, namespace, seats) && all_marked(seen)
}

/// Marks the numbers of all receipts of the namespace. Returns `false` if one has no place, or was already marked.
fn mark_all<L: Seating, C>(seen: &mut [bool], namespace: u64, seats: &[Seat<L, C>]) -> bool
    ensures ok { result ≡ true → (k : ℕ) → k < length seen.old → marks seen.new k ≡ marks seen.old k
        + holders (λ seat. receipts_at seat.receipts.items namespace) (k + 1) seats.now }
    ensures len { length seen.new ≡ length seen.old }
{
    for seat in seats {
        if !mark(seen, seat.receipts(namespace)) {
            return false;
        }
    }
    true
}

/// Marks the numbers of the receipts, which count from 1. Returns `false` if one has no place, or was already marked.
fn mark(seen: &mut [bool], receipts: &[Receipt]) -> bool
    ensures ok { result ≡ true → (k : ℕ) → k < length seen.old
        → marks seen.new k ≡ marks seen.old k + numbered (k + 1) receipts.now }
    ensures len { length seen.new ≡ length seen.old }
{
    for receipt in receipts {
        if receipt.number == 0 || receipt.number > seen.len() as u64 {
            return false;
        }
        let at = (receipt.number - 1) as usize;
        if seen[at] {
            return false;
        }
        seen[at] = true;
    }
    true
}

/// Whether each place is marked.
fn all_marked(seen: &[bool]) -> bool
    ensures { result ≡ true → AllMarked seen.now (length seen.now) }
{
    for at in 0..seen.len() {
        if !seen[at] {
            return false;
        }
    }
    true
}

//! What a crew leaves, judged.
use crate::crews::{Crew, Script};
use crate::inputs::{PLAIN, conn, feed};
use audit_laws::{Receipt, receipts_stand};
use audit_model::{Input, Transcript};
use cache_shared::{Finished, Shareable};
use moka_audit::{Verdict, audit};
use std::alloc::Global;

/// More than the numbers of all records.
const MOST: usize = 256;

/// Marks a number, and answers whether it was not marked before.
fn marks(seen: &mut [bool; MOST], number: u64) -> bool {
    let place = number as usize;
    if place < MOST && !seen[place] {
        seen[place] = true;
        true
    } else {
        false
    }
}

/// Marks the numbers of receipts, and answers whether none was marked before, and each is that of one of so many records.
fn marks_all(seen: &mut [bool; MOST], receipts: &[Receipt], records: u64) -> bool {
    for receipt in receipts {
        if receipt.number < 1 || records < receipt.number || !marks(seen, receipt.number) {
            return false;
        }
    }
    true
}

/// Another input: another feed for a feed, and else a closing of a connection that is not there.
fn other_than(alloc: Global, input: &Input) -> Option<Input> {
    match input {
        Input::Feed { conn, .. } => feed(alloc, *conn, b"GET b\n"),
        _ => Some(Input::Close { conn: conn(1000) }),
    }
}

/// Puts another input in a receipt, if there is memory for it.
fn changes(alloc: Global, receipt: &mut Receipt) -> bool {
    match other_than(alloc, &receipt.input) {
        Some(other) => {
            receipt.input = other;
            true
        }
        None => false,
    }
}

/// Changes the last receipt.
fn changes_last(alloc: Global, receipts: &mut [Receipt]) -> bool {
    match receipts.last_mut() {
        Some(last) => changes(alloc, last),
        None => false,
    }
}

/// Whether receipts stand in the order turned round. They are turned back.
fn stand_reversed(journal: &Transcript, receipts: &mut [Receipt]) -> bool {
    receipts.reverse();
    let stand = receipts_stand(journal, receipts);
    receipts.reverse();
    stand
}

/// Whether receipts stand, and do not in the order turned round or with the last one changed.
fn stand_so(alloc: Global, journal: &Transcript, receipts: &mut [Receipt]) -> bool {
    receipts_stand(journal, receipts)
        && !stand_reversed(journal, receipts)
        && changes_last(alloc, receipts)
        && !receipts_stand(journal, receipts)
}

/// Whether the receipts of a seat are right, and none of another's is among them.
fn is_right(
    alloc: Global,
    journal: &Transcript,
    seen: &mut [bool; MOST],
    receipts: &mut [Receipt],
    script: &Script<'_>,
) -> bool {
    if receipts.is_empty() {
        script.count == 0
    } else {
        receipts.len() as u64 == script.count
            && marks_all(seen, receipts, journal.records.len() as u64)
            && stand_so(alloc, journal, receipts)
    }
}

/// The same of the receipts of a namespace, if there are any.
fn is_list_right(
    alloc: Global,
    journal: &Transcript,
    seen: &mut [bool; MOST],
    lists: &mut [Vec<Receipt>],
    script: &Script<'_>,
) -> bool {
    match lists {
        [receipts] => is_right(alloc, journal, seen, receipts.as_mut_slice(), script),
        [] => script.count == 0,
        _ => false,
    }
}

/// Whether the receipts of each of four seats are right.
fn are_right(
    alloc: Global,
    journal: &Transcript,
    seen: &mut [bool; MOST],
    seats: &mut [Vec<Vec<Receipt>>],
    crew: &Crew<'_>,
) -> bool {
    match seats {
        [one, two, three, four] => {
            is_list_right(alloc, journal, seen, one.as_mut_slice(), &crew[0])
                && is_list_right(alloc, journal, seen, two.as_mut_slice(), &crew[1])
                && is_list_right(alloc, journal, seen, three.as_mut_slice(), &crew[2])
                && is_list_right(alloc, journal, seen, four.as_mut_slice(), &crew[3])
        }
        _ => false,
    }
}

/// Whether a journal obeys and has so many records, and the receipts are right.
fn is_journal_right(
    alloc: Global,
    journal: &Transcript,
    seats: &mut [Vec<Vec<Receipt>>],
    crew: &Crew<'_>,
    records: usize,
) -> bool {
    let mut seen = [false; MOST];
    are_right(alloc, journal, &mut seen, seats, crew)
        && journal.records.len() == records
        && audit(alloc, &PLAIN, journal) == Verdict::Yes
}

/// The same of what a crew leaves.
pub fn is_crew_right<C: Shareable>(
    alloc: Global,
    finished: Finished<C>,
    crew: &Crew<'_>,
    records: usize,
) -> bool {
    let Finished {
        service,
        mut receipts,
    } = finished;
    match service.journal(0) {
        Ok(journal) => is_journal_right(alloc, journal, receipts.as_mut_slice(), crew, records),
        Err(_) => false,
    }
}

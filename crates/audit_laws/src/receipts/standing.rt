//! Whether receipts stand in a journal.
ghost use Rattle.std.specs.Prelude.{◌≡◌, true, false};
ghost use Rattle.audit_laws.specs.Receipts.Receipts.{AreOf, StandsInJournal, StandFrom};

use crate::receipts::asking::asks;
use crate::receipts::output::output_of;
use crate::receipts::receipt::Receipt;
use audit_model::Transcript;

/// Returns whether these receipts of one namespace stand in its journal, in its order: their numbers rise strictly, and each is of the
/// record with its number. Such receipts are a part of the journal (`receipts_in_order`). The call allocates nothing.
pub fn receipts_stand(journal: &Transcript, receipts: &[Receipt]) -> bool
    ensures yes { result ≡ true → StandFrom 0 journal.now.records receipts.now }
    ensures no { result ≡ false → StandFrom 0 journal.now.records receipts.now → ⊥ }
{
    let mut last: u64 = 0;
    for receipt in receipts {
        if receipt.number <= last || !stands(journal, receipt) {
            return false;
        }
        last = receipt.number;
    }
    true
}

/// Returns whether the receipt is of the record with its number: its input asks for that record's event in its namespace, and its output is
/// that of the record. The call allocates nothing.
pub fn stands(journal: &Transcript, receipt: &Receipt) -> bool
    ensures yes { result ≡ true → StandsInJournal journal.now.records receipt.now }
    ensures no { result ≡ false → StandsInJournal journal.now.records receipt.now → ⊥ }
{
    if receipt.number == 0 {
        return false;
    }
    match journal
        .records
        .as_slice()
        .get((receipt.number - 1) as usize)
    {
        Some(entry) => {
            asks(&receipt.input, receipt.namespace, &entry.event)
                && receipt.output == output_of(receipt.namespace, entry)
        }
        None => false,
    }
}

/// Returns whether each receipt is of that namespace. The call allocates nothing.
pub fn are_of(namespace: u64, receipts: &[Receipt]) -> bool
    ensures yes { result ≡ true → AreOf namespace receipts.now }
    ensures no { result ≡ false → AreOf namespace receipts.now → ⊥ }
{
    for receipt in receipts {
        if receipt.namespace != namespace {
            return false;
        }
    }
    true
}

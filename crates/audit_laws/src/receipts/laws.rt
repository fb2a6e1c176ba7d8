//! The law of receipts: a function that does nothing, and whose contract is the law.
ghost use Rattle.audit_laws.specs.Receipts.Laws.{ReceiptsInOrder};

/// Receipts that stand in a journal, with rising numbers, correspond one to one to records that are a part of it in its order: each
/// receipt's input is its record's event, and its output is that of the record.
pub fn receipts_in_order()
    ensures { ReceiptsInOrder }
{}

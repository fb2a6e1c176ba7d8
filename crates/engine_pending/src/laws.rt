//! Laws of pending operations. A function here does nothing: its contract is the law.
ghost use Rattle.engine_pending.specs.Whole.{PendingAgrees};

/// What contracts say of the pending part holds of the whole state of the reference cache: a ticket's write and its sending, a full queue,
/// a write that is added, a read that is added, counted or applied, a notice that is added or taken, what is covered, and when a run is
/// due.
pub fn pending_agrees<K, V, O, W, P, S, R>()
    ensures { PendingAgrees K V O W P S R }
{}

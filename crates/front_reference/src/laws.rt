//! Laws of the reference front: what its calls keep of each part. Each function does nothing: its contract is the law.
ghost use Rattle.front_reference.specs.Laws.Laws.{CallsKeep, CallsStayClose, CoalescesKeep, ComputesKeep, RunsLeaveNoneIdle};

/// Each call of the front keeps of its part what the laws of the reference cache require (that the part is sound, in order, timely and
/// close); fewer than 64 writes are unapplied after the call.
pub fn calls_keep<K, V, P, S, R>()
    ensures { CallsKeep K V P S R }
{}

/// A coalesced call keeps of its part what the laws of the reference cache require, whatever its closures return.
pub fn coalesces_keep<K, V, P, S, R, F>()
    ensures { CoalescesKeep K V P S R F }
{}

/// A compute call keeps of its part what the laws of the reference cache require, whatever its closure decides.
pub fn computes_keep<K, V, P, S, R, E>()
    ensures { ComputesKeep K V P S R E }
{}

/// Single calls and runs keep a part close (`IsClose`): each record on its access list, unless an operation on the record is pending, was
/// used less than 300 milliseconds after every held record behind it.
pub fn calls_stay_close<K, V, P, S, R>()
    ensures { CallsStayClose K V P S R }
{}

/// After a run no record was used 300 milliseconds or more before one in front of it on the access list, and after an uncut run no record
/// is that long past its idle time.
pub fn runs_leave_none_idle<K, V, P, S, R>()
    ensures { RunsLeaveNoneIdle K V P S R }
{}

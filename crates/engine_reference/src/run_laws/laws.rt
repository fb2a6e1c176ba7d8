//! Laws of the reference cache over whole runs. Each function does nothing: its contract is the law.
ghost use Rattle.engine_reference.specs.RunLaws.Fronts.{RunsEvictShortestFront};
ghost use Rattle.engine_reference.specs.RunLaws.Just.{RunTellsJustly};
ghost use Rattle.engine_reference.specs.RunLaws.Points.{SizeHasPoint, CallsStayInOrder, RunsStayInOrder};
ghost use Rattle.engine_reference.specs.RunLaws.Sweeping.{RunsLeaveOrder, UncutRunsLeaveNoneDue, UncutRunsStayTimely, LookingAtAllSweeps, CallsStayTimely};
ghost use Rattle.engine_reference.specs.RunLaws.Showing.{OnlyWritesShow, CallsKeepApart};

/// If tickets were sent in the order in which they were made, each removal within a run is justified: reported as `Expired` for an entry
/// whose deadline has come, as `Explicit` for one that is covered, and as `Size` for one that has a *point* (`size_has_point`); and what
/// stays was there before it.
#[tactic(auto, using(crate::proofs::run_laws::Justly::run_tells_justly))]
pub fn run_tells_justly<K, V, P, S, R>()
    ensures { RunTellsJustly K V P S R }
{}

/// If tickets were sent in the order in which they were made, each removal for weight within a run has a capacity and a *point*: a write
/// that was in the queue as the run began, made not before the last write of the removed record, right after which everything held weighed
/// more than the capacity.
pub fn size_has_point<K, V, P, S, R>()
    ensures { SizeHasPoint K V P S R }
{}

/// An empty cache is in order, and each call keeps a cache in order, if each ticket that is sent is the oldest. (`IsInOrder`: the cache is
/// sound, the writes of each record wait in the order in which they were made, and the admitted records weigh no more than the capacity.)
#[tactic(auto, using(crate::proofs::run_laws::Ordering::calls_stay_in_order))]
pub fn calls_stay_in_order<K, V, P, S, R>()
    ensures { CallsStayInOrder K V P S R }
{}

/// An uncut run that began with all tickets sent leaves a cache in order (`IsInOrder`), if a cache of capacity 0 has no records.
pub fn runs_stay_in_order<K, V, P, S, R>()
    ensures { RunsStayInOrder K V P S R }
{}

/// From any point in a run at which everything pending is applied and nothing held is expired or covered, what the rest of the run removes
/// are the first settled records of the access list, as few as reach the excess. They are reported as `Size`, in this order, and nothing
/// else is reported.
pub fn runs_evict_shortest_front<K, V, P, S, R>()
    ensures { RunsEvictShortestFront K V P S R }
{}

/// A run leaves the write list in order of steps and moments, if the writes of a record are applied in the order in which they were made,
/// whichever tickets wait.
pub fn runs_leave_order<K, V, P, S, R>()
    ensures { RunsLeaveOrder K V P S R }
{}

/// After an uncut run, nothing is at or past its write plus the live time, covered by a clear, or has an own expiration in an earlier tick;
/// nor is anything 300 milliseconds or more past its last use plus the idle time, if no record on the access list was used that long before
/// one in front of it. Premises are that moments never fell or passed 2^63 - 1, and that each ticket was sent before the next write or run.
pub fn uncut_runs_leave_none_due<K, V, P, S, R>()
    ensures { UncutRunsLeaveNoneDue K V P S R }
{}

/// An uncut run, as in `uncut_runs_leave_none_due`, keeps a cache timely (`IsTimely`).
pub fn uncut_runs_stay_timely<K, V, P, S, R>()
    ensures { UncutRunsStayTimely K V P S R }
{}

/// A run that began with all tickets sent and leaves nothing expired or covered has looked at times and clears as an uncut run does.
pub fn looking_at_all_sweeps<K, V, P, S, R>()
    ensures { LookingAtAllSweeps K V P S R }
{}

/// An empty cache is timely, and each call at a moment and a step not before the last keeps a cache timely, if its ticket is sent at once.
/// (`IsTimely`: the cache is sound, no ticket waits, the write list is in the order of steps and moments with every held record on it once
/// all is applied, and no own expiration is in an earlier tick than the last run.)
#[tactic(auto, using(crate::proofs::run_laws::Rises::calls_stay_timely))]
pub fn calls_stay_timely<K, V, P, S, R>()
    ensures { CallsStayTimely K V P S R }
{}

/// Nothing becomes visible except by a write of its key: a write changes no look-up of another key, a removal and a look-up make nothing
/// visible that was not, and room, notices and reports change no look-up. (`engine_reference::laws` has the same for sending, clears,
/// predicates and runs.)
#[tactic(auto, using(crate::proofs::run_laws::Shown::only_writes_show))]
pub fn only_writes_show<K, V, P, S, R>()
    ensures { OnlyWritesShow K V P S R }
{}

/// No call makes two entries whose keys compare equal.
#[tactic(auto, using(crate::proofs::run_laws::Shown::calls_keep_apart))]
pub fn calls_keep_apart<K, V, P, S, R>()
    ensures { CallsKeepApart K V P S R }
{}

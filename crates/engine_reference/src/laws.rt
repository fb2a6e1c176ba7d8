//! Laws of the reference cache. Each function does nothing: its contract is the law.
ghost use Rattle.engine_reference.specs.Laws.{StepsTell, RunsTell, NothingTakenForSize, RunsKeepVisible, CountsAreKept, NameIsKept, RunsKeepRest, HalvesAreWhole, SendingKeepsVisible, CoverShowsNothing, UnappliedStay, CallsStaySound, RunsStaySound, CountsAreExact, EvictsShortestFront};

/// A step of a run reports what it removes once, and removes for weight only if a running weight is above the capacity.
pub fn steps_tell<K, V, P, S, R>()
    ensures { StepsTell K V P S R }
{}

/// A run reports everything that it removes once, if removals are reported, and nothing else; the other entries stay.
pub fn runs_tell<K, V, P, S, R>()
    ensures { RunsTell K V P S R }
{}

/// Without a capacity a run removes nothing for weight.
pub fn nothing_taken_for_size<K, V, P, S, R>()
    ensures { NothingTakenForSize K V P S R }
{}

/// What was visible and was not removed by a run stays visible, and nothing else becomes visible.
pub fn runs_keep_visible<K, V, P, S, R>()
    ensures { RunsKeepVisible K V P S R }
{}

/// No write, removal, clear, predicate or eviction changes the counts of requests for hashes: a run changes them only if it counts a read
/// or creates the table.
#[tactic(auto, using(crate::proofs::CountsKept::counts_are_kept))]
pub fn counts_are_kept<K, V, P, S, R>()
    ensures { CountsAreKept K V P S R }
{}

/// A run leaves the writes that were not sent, the last clear, numbers, tickets, room, name, settings, hasher and rules as they are.
pub fn runs_keep_rest<K, V, P, S, R>()
    ensures { RunsKeepRest K V P S R }
{}

/// No write, look-up, removal, clear, predicate, notice or run changes the name of the cache.
#[tactic(auto, using(crate::proofs::NameKept::name_is_kept))]
pub fn name_is_kept<K, V, P, S, R>()
    ensures { NameIsKept K V P S R }
{}

/// Registering a predicate in room that was made for it, and a removal in its room, are the same as in one call; and giving up room is the
/// same as never having made it.
#[tactic(auto, using(crate::proofs::Halves::halves_are_whole))]
pub fn halves_are_whole<K, V, P, S, R>()
    ensures { HalvesAreWhole K V P S R }
{}

/// Sending a ticket changes no look-up, whichever ticket it is.
#[tactic(auto, using(crate::proofs::Seeing::sending_keeps_visible))]
pub fn sending_keeps_visible<K, V, P, S, R>()
    ensures { SendingKeepsVisible K V P S R }
{}

/// Neither a clear nor a predicate makes anything visible that was not.
#[tactic(auto, using(crate::proofs::Seeing::cover_shows_nothing))]
pub fn cover_shows_nothing<K, V, P, S, R>()
    ensures { CoverShowsNothing K V P S R }
{}

/// A record with an unapplied write is evicted neither for another's write nor for the excess.
#[tactic(auto, using(crate::proofs::Unapplied::unapplied_stay))]
pub fn unapplied_stay<K, V, P, S, R>()
    ensures { UnappliedStay K V P S R }
{}

/// An empty cache is sound, and each call keeps a sound cache sound. (`IsSound`: each record has a number of its own, the last write of a
/// record that is not settled is pending, and each admitted record is on the access list.)
#[tactic(auto, using(crate::proofs::SoundCalls::calls_stay_sound))]
pub fn calls_stay_sound<K, V, P, S, R>()
    ensures { CallsStaySound K V P S R }
{}

/// A run keeps a sound cache sound.
pub fn runs_stay_sound<K, V, P, S, R>()
    ensures { RunsStaySound K V P S R }
{}

/// After an uncut run (one that goes to its end) that began with all tickets sent, the counts of a sound cache are the number and weight of
/// what is held, within a capacity above 0, and no predicate covers any of it.
pub fn counts_are_exact<K, V, P, S, R>()
    ensures { CountsAreExact K V P S R }
{}

/// What evictions remove until the weight is within the capacity are the first settled records of the access list, as few as reach the
/// excess. (A record is settled if its last write is applied; the excess is what the admitted records weigh above the capacity.)
#[tactic(auto, using(crate::proofs::Evicting::evicts_shortest_front))]
pub fn evicts_shortest_front<K, V, P, S, R>()
    ensures { EvictsShortestFront K V P S R }
{}

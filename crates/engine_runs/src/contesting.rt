//! The contest of a newcomer with the settled records used longest ago.
ghost use Rattle.std.specs.Prelude.{◌≡◌, ◌<◌, true, false, length, Some, IfSome, IfNone, is_some};
ghost use Rattle.engine_cells.specs.Kept.{kept_at};
ghost use Rattle.engine_cells.specs.Looking.{behind};
ghost use Rattle.engine_reference.specs.Admission.{shortest_front};
ghost use Rattle.engine_reference.specs.Records.{settled_in};
ghost use Rattle.engine_reference.specs.declared.data.Record.{Record};
ghost use Rattle.engine_runs.specs.Contesting.{is_won, GoesPast, from_place, IsOnList, outcome, IsDecided};

use engine_reference::Rules;
use engine_tables::Tables;
use std::hash::{BuildHasher, Hash};

/// A contest under way: how much of the newcomer's weight is left to make room for, how much more often it was requested
/// than the records that would be evicted so far, and the place of the next record on the access list.
#[derive(Clone, Copy)]
struct Contest {
    left: u32,
    ahead: u8,
    next: Option<usize>,
}

/// Where a walk along the access list begins.
fn first_place<K: Eq + Hash, V, S: BuildHasher, R: Rules<K, V>>(
    tables: &Tables<K, V, S, R>,
) -> Option<usize>
    ensures all { from_place tables.now result ≡ tables.now.state.access }
    ensures listed { IsOnList tables.now result }
{
    tables.oldest()
}

/// Where it continues after a place.
fn place_behind<K: Eq + Hash, V, S: BuildHasher, R: Rules<K, V>>(
    tables: &Tables<K, V, S, R>,
    place: usize,
) -> Option<usize>
    requires { IsOnList tables.now (Some place) }
    ensures rest { (r : Record K V) → kept_at tables.now place ≡ Some r
        → from_place tables.now result ≡ behind r.number tables.now.state.access }
    ensures listed { IsOnList tables.now result }
{
    tables.access_stands();
    tables.next_used(place)
}

/// How much of the weight is left, and how far the newcomer is ahead, after the record in a place: it would be evicted if
/// it is settled.
fn past<K: Eq + Hash, V, S: BuildHasher, R: Rules<K, V>>(
    tables: &Tables<K, V, S, R>,
    place: usize,
    left: u32,
    ahead: u8,
) -> (u32, u8)
    requires there { is_some (kept_at tables.now place) ≡ true }
    requires some { 0 < left }
    ensures { (r : Record K V) → kept_at tables.now place ≡ Some r
        → GoesPast tables.now.state.sketch left ahead r result }
{
    let found = tables.record_in(place);
    if found.writes() != found.applied() {
        return (left, ahead);
    }
    let asked = tables.sketch().frequency(found.hash());
    (
        left.saturating_sub(found.counts().unwrap_or(0)),
        ahead.saturating_sub(asked),
    )
}

/// The next record of a contest that is not decided yet.
fn next_rival(contest: Contest) -> Option<usize>
    ensures next { IfSome result (λ place. contest.next ≡ Some place) }
    ensures some { IfSome result (λ place. 0 < contest.left) }
    ensures decided { IfNone result (IsDecided contest) }
{
    if contest.left == 0 || contest.ahead == 0 {
        return None;
    }
    contest.next
}

/// A contest continues past the next record.
fn go_on<K: Eq + Hash, V, S: BuildHasher, R: Rules<K, V>>(
    tables: &Tables<K, V, S, R>,
    contest: Contest,
    place: usize,
) -> Contest
    requires listed { IsOnList tables.now contest.next }
    requires next { contest.next ≡ Some place }
    requires some { 0 < contest.left }
    ensures same { outcome tables.now result ≡ outcome tables.now contest }
    ensures listed { IsOnList tables.now result.next }
    ensures fewer { length (from_place tables.now result.next)
        < length (from_place tables.now contest.next) }
{
    let (left, ahead) = past(tables, place, contest.left, contest.ahead);
    let next = place_behind(tables, place);
    Contest { left, ahead, next }
}

/// Whether a newcomer of a weight, requested this often, wins its contest: there is a front of settled records that
/// reaches the weight, and it was requested more often than the shortest of these in all. Nothing after that front is
/// looked at, and nothing once the contest is lost.
pub(crate) fn is_won<K: Eq + Hash, V, S: BuildHasher, R: Rules<K, V>>(
    tables: &Tables<K, V, S, R>,
    weight: u32,
    wanted: u8,
) -> bool
    ensures { result ≡ is_won tables.now.state.sketch wanted
        (shortest_front weight (settled_in tables.now.state.records tables.now.state.access)) }
{
    let mut contest = Contest {
        left: weight,
        ahead: wanted,
        next: first_place(tables),
    };
    while let Some(place) = next_rival(contest) {
        contest = go_on(tables, contest, place);
    }
    contest.left == 0 && 0 < contest.ahead
}

//! The places of timers: in rising order of their keys, with spare ones between them, so that few move when one is added.
ghost use Rattle.std.specs.Prelude.{◌≡◌, ◌≢◌, ℕ, ◌+◌, ◌-◌, ◌*◌, ◌^◌, ◌<◌, ◌≤◌, ◌↔◌, true, false, List, [], ◌∷◌, ◌++◌, length, take, drop, IsTrue, MatchOption, IfSome, Some, None, slice_index_or};
ghost use Rattle.std.specs.List.{All};
ghost use Rattle.std.specs.Vec.{vec_len, vec_capacity};
ghost use Rattle.policy_queue.specs.Timers.Timers.{TheTimer};
ghost use Rattle.policy_queue.specs.Timers.Array.{key_of, key_at};
ghost use Rattle.policy_queue.specs.Timers.Places.{ThePlace, timer_at, key_in, taken, IsSpread, AreUnder, AreFrom, StartsTaken, IsSpare};

use crate::timers::array::{Timer, TimerNode};
use policy_base::{CacheRegion, Instant, NodeId};

/// A place: a timer, or a spare one, whose key is no less than those before it.
#[derive(Clone, Copy)]
pub(crate) struct Place {
    pub(crate) placed: Instant,
    pub(crate) serial: u64,
    pub(crate) entry: usize,
    pub(crate) slot: u32,
    pub(crate) expiry_gen: u16,
    pub(crate) is_taken: bool,
}

/// The number that orders timers: their times, and then their serials.
pub(crate) fn key(placed: Instant, serial: u64) -> u128
    ensures { result ≡ key_at placed serial }
{
    placed.as_nanos() as u128 * 0x1_0000_0000_0000_0000 + serial as u128
}

/// The timer in a place.
pub(crate) fn timer_in(place: Place) -> Timer
    ensures { result ≡ timer_at place }
{
    Timer {
        placed: place.placed,
        id: NodeId {
            queue: CacheRegion::Other,
            serial: place.serial,
            slot: place.slot,
        },
        node: TimerNode {
            entry_info: place.entry,
            expiry_gen: place.expiry_gen,
        },
    }
}

/// The place without its timer.
pub(crate) fn spared(place: Place) -> Place
    ensures { result ≡ record place { is_taken = false } }
{
    Place {
        is_taken: false,
        ..place
    }
}

/// The number of places before a key.
pub(crate) fn lower_bound(places: &[Place], bound: u128) -> usize
    requires { IsSpread places.now }
    ensures within { result ≤ length places.now }
    ensures under { AreUnder bound (take result places.now) }
    ensures from { AreFrom bound (drop result places.now) }
{
    places.partition_point(|p| key(p.placed, p.serial) < bound)
}

/// The nearest spare place at most this far from `at`.
pub(crate) fn near_spare(places: &[Place], at: usize, most: usize) -> Option<usize>
    requires { at ≤ length places.now }
    ensures { IfSome result (IsSpare places.now) }
{
    for distance in 0..most {
        if distance < places.len() - at && !places[at + distance].is_taken {
            return Some(at + distance);
        }
        if distance < at && !places[at - 1 - distance].is_taken {
            return Some(at - 1 - distance);
        }
    }
    None
}

/// The first taken place from here on.
pub(crate) fn first_taken(places: &[Place], from: usize) -> usize
    requires { from ≤ length places.now }
    ensures behind { from ≤ result }
    ensures within { result ≤ length places.now }
    ensures same { taken (drop result places.now) ≡ taken (drop from places.now) }
    ensures starts { StartsTaken (drop result places.now) }
{
    let mut first = from;
    while first < places.len() && !places[first].is_taken {
        first += 1;
    }
    first
}

/// Puts a timer at `at`, and moves those from there up to a spare place up by one.
pub(crate) fn shift_up(places: &mut [Place], at: usize, spare: usize, place: Place)
    requires below { at ≤ spare }
    requires within { spare < length places.old }
    ensures { (a b d : List ThePlace) (x : ThePlace) → places.old ≡ a ++ (b ++ x ∷ d)
        → length a ≡ at → at + length b ≡ spare → places.new ≡ a ++ (place ∷ (b ++ d)) }
{
    let part = &mut places[at..spare + 1];
    part.rotate_right(1);
    part[0] = place;
}

/// Puts a timer before `at`, and moves those from a spare place up to there down by one.
pub(crate) fn shift_down(places: &mut [Place], at: usize, spare: usize, place: Place)
    requires above { spare < at }
    requires within { at ≤ length places.old }
    ensures { (a b d : List ThePlace) (x : ThePlace) → places.old ≡ a ++ (x ∷ (b ++ d))
        → length a ≡ spare → spare + 1 + length b ≡ at → places.new ≡ a ++ (b ++ place ∷ d) }
{
    let part = &mut places[spare..at];
    part.rotate_left(1);
    part[at - spare - 1] = place;
}

/// Moves the taken places after `front` together, to the beginning, and drops all others.
pub(crate) fn compact(places: &mut Vec<Place>, front: usize)
    requires within { front ≤ vec_len places.old }
    requires spread { IsSpread (drop front places.old.items) }
    ensures spread { IsSpread places.new.items }
    ensures taken { taken places.new.items ≡ taken (drop front places.old.items) }
    ensures all { length (taken places.new.items) ≡ vec_len places.new }
    ensures capacity { vec_capacity places.new ≡ vec_capacity places.old }
{
    let mut filled = 0;
    for from in front..places.len() {
        let place = places[from];
        if place.is_taken {
            places[filled] = place;
            filled += 1;
        }
    }
    places.truncate(filled);
}

/// Spreads the first `held` places over all, with spare ones evenly between them.
pub(crate) fn deal(places: &mut [Place], held: usize)
    requires some { 0 < held }
    requires within { held ≤ length places.old }
    requires spread { IsSpread (take held places.old) }
    requires starts { StartsTaken (take held places.old) }
    ensures spread { IsSpread places.new }
    ensures taken { taken places.new ≡ taken (take held places.old) }
    ensures starts { StartsTaken places.new }
{
    let spares = places.len() - held;
    let mut left = held;
    let mut end = places.len();
    let mut owed = 0;
    while left < end {
        if owed < held && 1 < left {
            owed += spares;
            left -= 1;
            places[end - 1] = places[left];
        } else {
            owed = owed.saturating_sub(held);
            places[end - 1] = spared(places[left - 1]);
        }
        end -= 1;
    }
}

//! A row of places: timers in rising order of their keys, spare places between them, and room after the last.
ghost use Rattle.std.specs.Prelude.{◌≡◌, ◌≢◌, ℕ, ◌+◌, ◌-◌, ◌<◌, ◌≤◌, true, false, List, [], ◌∷◌, length, take, drop, MatchOption, Some, None, slice_index_or};
ghost use Rattle.std.specs.Bool.{OnTrue, OnFalse};
ghost use Rattle.std.specs.List.{All};
ghost use Rattle.policy_queue.specs.Timers.Timers.{TheTimer};
ghost use Rattle.policy_queue.specs.Timers.Array.{key_of};
ghost use Rattle.policy_queue.specs.Timers.Places.{ThePlace, timer_at, key_in, taken, IsSpread, AreUnder, AreFrom, LacksKey, StartsTaken, IsSpare, IsTaken, IsNamed, IsFirst, Comes, Goes};

use crate::timers::array::Timer;
use crate::timers::places::{
    Place, compact, deal, first_taken, key, lower_bound, near_spare, shift_down, shift_up, timer_in,
};
use policy_base::NodeId;
use std::alloc::Global;
use std::marker::Model;

/// Places, of which those before `front` are not in use.
#[derive(Drop)]
pub(crate) struct Row {
    places: Vec<Place>,
    front: usize,
}

impl Model for Row {
    ghost use Rattle.std.specs.Prelude.{◌-◌, ◌≤◌, drop};
    ghost use Rattle.std.specs.Vec.{vec_len, vec_capacity};
    ghost use Rattle.policy_queue.specs.Timers.Places.{Spread, IsRow};

    ghost Value = { Spread };

    ghost view = { λ r. record {
      places = drop r.front r.places.items;
      capacity = vec_capacity r.places;
      behind = vec_capacity r.places - vec_len r.places;
    } };

    ghost invariant = { λ r. IsRow r.front r.places.items };
}

/// How far a timer may push others, with this many places: between the square root of their number and twice that.
fn reach(places: usize) -> usize {
    if places == 0 {
        return 0;
    }
    2usize << (places.ilog2() / 2)
}

/// Whether the timer with this name is in a place.
fn is_named(place: Place, id: NodeId) -> bool
    ensures yes { result ≡ true → (place.is_taken ≡ true) × ((timer_at place).id ≡ id) }
    ensures no { result ≡ false → place.is_taken ≡ true → (timer_at place).id ≢ id }
{
    place.is_taken && timer_in(place).id.is_same(id)
}

/// Puts a timer at `at`; those between there and a spare place move by one.
fn fit(places: &mut [Place], at: usize, spare: usize, place: Place)
    requires spread { IsSpread places.old }
    requires spare { IsSpare places.old spare }
    requires fits { (at ≤ length places.old) × AreUnder (key_in place) (take at places.old)
        × AreFrom (key_in place) (drop at places.old) }
    requires new { LacksKey (key_in place) (taken places.old) }
    requires taken { place.is_taken ≡ true }
    ensures spread { IsSpread places.new }
    ensures comes { Comes (taken places.old) (taken places.new) (timer_at place) }
    ensures starts { StartsTaken places.old → StartsTaken places.new }
{
    if at <= spare {
        shift_up(places, at, spare, place);
    } else {
        shift_down(places, at, spare, place);
    }
}

impl Row {
    /// Creates a row without places. The call allocates nothing.
    pub(crate) fn new(alloc: Global) -> Self
        ensures { result.places ≡ [] }
    {
        Row {
            places: Vec::new(alloc),
            front: 0,
        }
    }

    /// Makes room for `more` timers in addition to the `held` ones, with twice as many places as timers.
    pub(crate) fn reserve(&mut self, held: usize, more: usize) -> bool
        ensures room { OnTrue result (held + more ≤ self.new.capacity) }
        ensures had_room { held + more ≤ self.old.capacity → result ≡ true }
        ensures places { self.new.places ≡ self.old.places }
        ensures capacity { self.old.capacity ≤ self.new.capacity }
    {
        let needed = held.saturating_add(more);
        let wanted = needed.saturating_mul(2);
        if self.places.capacity() < wanted {
            let _grown = self.places.reserve(wanted - self.places.len());
        }
        needed < usize::MAX && needed <= self.places.capacity()
    }

    /// The first timer.
    pub(crate) fn first(&self) -> Option<Timer>
        ensures { MatchOption result (self.now.places ≡ []) (λ t. IsFirst self.now.places t
            × All (λ u. key_of t ≤ key_of u) (taken self.now.places)) }
    {
        if self.front < self.places.len() {
            Some(timer_in(self.places[self.front]))
        } else {
            None
        }
    }

    /// The timer in a place.
    pub(crate) fn at(&self, k: usize) -> Timer
        requires { k < length self.now.places }
        ensures { (d : ThePlace) → result ≡ timer_at (slice_index_or self.now.places k d) }
    {
        timer_in(self.places[self.front + k])
    }

    /// The place of the timer with this name, which has this key.
    pub(crate) fn seek(&self, bound: u128, id: NodeId) -> Option<usize>
        ensures { MatchOption result
            (All (λ t. key_of t ≡ bound → t.id ≢ id) (taken self.now.places))
            (IsNamed self.now.places id) }
    {
        let places = self.places.as_slice();
        let live = &places[self.front..];
        let k = lower_bound(live, bound);
        if k == live.len() {
            return None;
        }
        if is_named(live[k], id) { Some(k) } else { None }
    }

    /// Removes a timer.
    pub(crate) fn take(&mut self, k: usize) -> Timer
        requires { IsTaken self.old.places k }
        ensures timer { (d : ThePlace) → result ≡ timer_at (slice_index_or self.old.places k d) }
        ensures goes { Goes k (taken self.old.places) (taken self.new.places) result }
        ensures capacity { self.new.capacity ≡ self.old.capacity }
        ensures room { length (taken self.new.places) < self.new.capacity }
    {
        let at = self.front + k;
        let timer = timer_in(self.places[at]);
        self.places[at].is_taken = false;
        if k == 0 {
            self.front = first_taken(self.places.as_slice(), at + 1);
        }
        timer
    }

    /// Puts a timer at its place, with few moves and without allocating, if possible.
    fn put_near(&mut self, place: &Place) -> bool
        requires taken { place.now.is_taken ≡ true }
        requires new { LacksKey (key_in place.now) (taken self.old.places) }
        ensures comes { OnTrue result
            (Comes (taken self.old.places) (taken self.new.places) (timer_at place.now)) }
        ensures same { OnFalse result (self.new ≡ self.old) }
        ensures capacity { self.old.capacity ≤ self.new.capacity }
    {
        let places = self.places.as_slice();
        let live = &places[self.front..];
        let at = lower_bound(live, key(place.placed, place.serial));
        if at == 0 && 0 < self.front {
            self.front -= 1;
            self.places[self.front] = *place;
            return true;
        }
        if at == live.len() && self.places.len() < self.places.capacity() {
            return self.places.push(*place).is_ok();
        }
        match near_spare(live, at, reach(live.len())) {
            Some(spare) => {
                let places = self.places.as_mut_slice();
                fit(&mut places[self.front..], at, spare, *place);
                true
            }
            None => false,
        }
    }

    /// Puts a timer at its place, and moves those after it by one.
    fn put_far(&mut self, place: &Place)
        requires taken { place.now.is_taken ≡ true }
        requires new { LacksKey (key_in place.now) (taken self.old.places) }
        requires room { 0 < self.old.behind }
        ensures comes { Comes (taken self.old.places) (taken self.new.places) (timer_at place.now) }
        ensures capacity { self.old.capacity ≤ self.new.capacity }
    {
        let places = self.places.as_slice();
        let at = lower_bound(&places[self.front..], key(place.placed, place.serial));
        match self.places.insert(self.front + at, *place) {
            Ok(()) => {}
            Err(_) => unreachable!(),
        }
    }

    /// Spreads the timers anew: half of the room between them, and half after them.
    fn spread(&mut self)
        requires { length (taken self.old.places) < self.old.capacity }
        ensures same { taken self.new.places ≡ taken self.old.places }
        ensures room { 0 < self.new.behind }
        ensures capacity { self.old.capacity ≤ self.new.capacity }
    {
        compact(&mut self.places, self.front);
        self.front = 0;
        let held = self.places.len();
        if held == 0 {
            return;
        }
        let places = held + (self.places.capacity() - held) / 2;
        let filler = self.places[0];
        match self.places.resize(places, filler) {
            Ok(()) => {}
            Err(_) => unreachable!(),
        }
        deal(self.places.as_mut_slice(), held);
    }

    /// Puts a timer at its place.
    pub(crate) fn put(&mut self, place: Place)
        requires taken { place.is_taken ≡ true }
        requires new { LacksKey (key_in place) (taken self.old.places) }
        requires room { length (taken self.old.places) < self.old.capacity }
        ensures comes { Comes (taken self.old.places) (taken self.new.places) (timer_at place) }
        ensures capacity { self.old.capacity ≤ self.new.capacity }
    {
        if self.put_near(&place) {
            return;
        }
        self.spread();
        if !self.put_near(&place) {
            self.put_far(&place);
        }
    }
}

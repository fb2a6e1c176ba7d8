//! A queue of indices in one array of places, front to back. A move empties a place and takes another at the end; the
//! empty places are compacted step by step, a few places with each push or move.
ghost use Rattle.std.specs.Prelude.{◌≡◌, ◌≢◌, ℕ, ◌+◌, ◌-◌, ◌^◌, ◌<◌, ◌≤◌, false, [], ◌∷◌, ◌++◌, length, min, max, IsOk, OnOk, IsTrue, slice_index_or, vec_len, vec_capacity};
ghost use Rattle.policy_queue.specs.Queue.{head, tail, final};
ghost use Rattle.policy_queue.specs.Indices.{vacant, order, has_index, without_index, from_index, index_moved_to_back, OnlyGainsPlaces, Lacks, IndicesDiffer, Ends, EndsBut, AreSeated, AreEmpty, AreArranged, IsCutShort, Trims, Carries};

use std::alloc::{AllocError, Global};
use std::marker::Model;

/// The content of an empty place, and the seat of an index that is not in the queue.
const EMPTY: u32 = u32::MAX;

/// The maximum number of places, since each has a number of 32 bits.
const MOST_PLACES: usize = 0xFFFF_FFFF;

/// The maximum number of indices.
const MOST_INDICES: usize = 0xFFFF_FFFE;

/// How many places a push or a move compacts.
const STEP: usize = 16;

/// A queue of indices, each at most once.
#[derive(Drop)]
pub struct IndexQueue {
    // The indices, front to back, with empty places between them.
    places: Vec<u32>,
    // The place of each index, or `EMPTY`.
    seats: Vec<u32>,
    // The number of indices.
    len: usize,
    // With more places than this, a push or a move compacts the next ones.
    closes_at: usize,
    cursors: Cursors,
}

/// Where the first index is, and how far compacting has come: the places from `carried` up to `unread` are empty.
/// While nothing is compacted, both are 0.
#[derive(Clone, Copy)]
struct Cursors {
    front: usize,
    carried: usize,
    unread: usize,
}

impl Model for IndexQueue {
    ghost use Rattle.policy_queue.specs.Indices.{Indices};

    ghost Value = { Indices };

    ghost use Rattle.std.specs.Prelude.{length, vec_capacity, ◌-◌};
    ghost use Rattle.policy_queue.specs.Indices.{order, indices_for, IsIndexed};

    ghost view = { λ q. record {
      indices = order q.places.items;
      room = indices_for (vec_capacity q.places) - q.len;
      bound = length q.seats.items;
    } };

    ghost invariant = { λ q. IsIndexed q.places.items (vec_capacity q.places) q.seats.items q.len
        q.closes_at q.cursors };
}

impl IndexQueue {
    /// Creates an empty queue. The call allocates nothing.
    pub fn new(alloc: Global) -> Self
        ensures indices { result.indices ≡ [] }
        ensures bound { result.bound ≡ 0 }
    {
        IndexQueue {
            places: Vec::new(alloc),
            seats: Vec::new(alloc),
            len: 0,
            closes_at: 0,
            cursors: Cursors {
                front: 0,
                carried: 0,
                unread: 0,
            },
        }
    }

    /// Returns the number of indices in the queue.
    pub fn len(&self) -> usize
        ensures { result ≡ length self.now.indices }
    {
        self.len
    }

    /// Returns whether the queue has the index.
    #[tactic(auto, using(crate::proofs::Arranged::has_taken, crate::proofs::Arranged::has_vacant))]
    pub fn contains(&self, index: u32) -> bool
        ensures { result ≡ has_index index self.now.indices }
    {
        match self.seats.get(index as usize) {
            Some(seat) => *seat != EMPTY,
            None => false,
        }
    }

    /// Returns the first index, or `None` if the queue is empty.
    #[tactic(auto, using(crate::proofs::Arranged::head_front))]
    pub fn first(&self) -> Option<u32>
        ensures { result ≡ head self.now.indices }
    {
        if self.places.len() == 0 {
            return None;
        }
        Some(self.places[self.cursors.front])
    }

    /// Returns the last index, or `None` if the queue is empty.
    #[tactic(auto, using(crate::proofs::Arranged::final_last))]
    pub fn last(&self) -> Option<u32>
        ensures { result ≡ final self.now.indices }
    {
        if self.places.len() == 0 {
            return None;
        }
        Some(self.places[self.places.len() - 1])
    }

    /// Returns the index after this one, which must be in the queue, or `None` if this is the last one.
    #[tactic(auto, using(crate::proofs::Arranged::seat_there, crate::proofs::Arranged::place_there))]
    pub fn behind(&self, index: u32) -> Option<u32>
        requires { IsTrue (has_index index self.now.indices) }
        ensures { result ≡ head (tail (from_index index self.now.indices)) }
    {
        let from = self.seats[index as usize] as usize + 1;
        let next = next_taken(self.places.as_slice(), self.cursors, from);
        if next == self.places.len() {
            return None;
        }
        Some(self.places[next])
    }

    /// The places, front to back, with `u32::MAX` in the empty ones.
    pub(crate) fn places(&self) -> &[u32]
        ensures { order result.now ≡ self.now.indices }
    {
        self.places.as_slice()
    }

    /// Reserves room for `n` more indices, each below `bound`: their pushes then allocate nothing. Returns an error if there would be too
    /// many indices or there is not enough memory; the indices then stay as they are.
    #[inline]
    pub fn reserve(&mut self, n: usize, bound: u32) -> Result<(), AllocError>
        ensures room { OnOk result (n ≤ self.new.room) }
        ensures bound { OnOk result (bound ≤ self.new.bound) }
        ensures had_room { n ≤ self.old.room → bound ≤ self.old.bound → IsOk result }
        ensures stays { OnlyGainsPlaces self.old self.new }
    {
        if n > MOST_INDICES - self.len {
            return Err(AllocError);
        }
        let wanted = (2 * (self.len + n)).min(MOST_PLACES);
        reserve_places(&mut self.places, &mut self.closes_at, wanted)?;
        reserve_seats(&mut self.seats, bound as usize)
    }

    /// Appends an index that is not in the queue. There must be room for it.
    #[tactic(auto, using(crate::proofs::Order::order_push, crate::proofs::Listed::lacks_not_had))]
    pub fn push_back(&mut self, index: u32)
        requires new { has_index index self.old.indices ≡ false }
        requires bound { index < self.old.bound }
        requires room { 0 < self.old.room }
        ensures { self.new ≡ record self.old
            { indices = self.old.indices ++ index ∷ []; room = self.old.room - 1 } }
    {
        self.seats[index as usize] = self.places.len() as u32;
        self.places.push_reserved(index);
        self.len += 1;
        make_place(
            &mut self.places,
            &mut self.seats,
            &mut self.cursors,
            self.closes_at,
        );
    }

    /// Moves an index that is in the queue to the back.
    #[tactic(auto, using(crate::proofs::Listed::length_without, crate::proofs::Listed::length_moved))]
    pub fn move_to_back(&mut self, index: u32)
        requires { IsTrue (has_index index self.old.indices) }
        ensures { self.new
            ≡ record self.old { indices = index_moved_to_back index self.old.indices } }
    {
        put_last(&mut self.places, &mut self.seats, &mut self.cursors, index);
        make_place(
            &mut self.places,
            &mut self.seats,
            &mut self.cursors,
            self.closes_at,
        );
    }

    /// Removes an index that is in the queue.
    #[inline(always)]
    #[tactic(auto, using(crate::proofs::Listed::length_without))]
    pub fn remove(&mut self, index: u32)
        requires { IsTrue (has_index index self.old.indices) }
        ensures { self.new ≡ record self.old
            { indices = without_index index self.old.indices; room = self.old.room + 1 } }
    {
        take_off(&mut self.places, &mut self.seats, &mut self.cursors, index);
        self.len -= 1;
    }
}

/// The indices of a queue are different from one another.
#[tactic(auto, using(crate::proofs::Seats::apart_order, crate::proofs::Seats::one_place))]
pub fn indices_are_apart(queue: &IndexQueue)
    ensures { IndicesDiffer queue.now.indices }
{
    let _ = &queue.places;
}

/// Makes room for this many places in all.
fn reserve_places(
    places: &mut Vec<u32>,
    closes_at: &mut usize,
    wanted: usize,
) -> Result<(), AllocError>
    requires early { closes_at.old ≤ min (vec_capacity places.old) (2 ^ 32 - 1) - 1 }
    ensures same { places.new.items ≡ places.old.items }
    ensures room { OnOk result (wanted ≤ vec_capacity places.new) }
    ensures had_room { wanted ≤ vec_capacity places.old → IsOk result }
    ensures capacity { vec_capacity places.old ≤ vec_capacity places.new }
    ensures early { closes_at.new ≤ min (vec_capacity places.new) (2 ^ 32 - 1) - 1 }
{
    if wanted <= places.capacity() {
        return Ok(());
    }
    places.reserve(wanted - places.len())?;
    *closes_at = last_uncompacted(places.capacity().min(MOST_PLACES));
    Ok(())
}

/// Makes this many seats in all. New ones are vacant.
fn reserve_seats(seats: &mut Vec<u32>, bound: usize) -> Result<(), AllocError>
    ensures same { (index : ℕ) → slice_index_or seats.new.items index vacant
        ≡ slice_index_or seats.old.items index vacant }
    ensures room { OnOk result (bound ≤ vec_len seats.new) }
    ensures had_room { bound ≤ vec_len seats.old → IsOk result }
    ensures more { vec_len seats.old ≤ vec_len seats.new }
    ensures few { vec_len seats.new ≤ max (vec_len seats.old) bound }
{
    if bound <= seats.len() {
        return Ok(());
    }
    seats.resize(bound, EMPTY)
}

/// The first place from `from` up to `end` that is not empty, or `end`.
fn first_taken(places: &[u32], from: usize, end: usize) -> usize
    requires low { from ≤ end }
    requires high { end ≤ length places.now }
    ensures empty { (j : ℕ) → from ≤ j → j < result → slice_index_or places.now j vacant ≡ vacant }
    ensures first { result < end → slice_index_or places.now result vacant ≢ vacant }
    ensures low { from ≤ result }
    ensures high { result ≤ end }
{
    for k in from..end {
        if places[k] != EMPTY {
            return k;
        }
    }
    end
}

/// The first place from `from` on that is not empty, or the number of places. It skips those that compacting has
/// emptied.
fn next_taken(places: &[u32], cursors: Cursors, from: usize) -> usize
    requires low { from ≤ length places.now }
    requires gap { (j : ℕ) → cursors.carried ≤ j → j < cursors.unread
        → slice_index_or places.now j vacant ≡ vacant }
    requires within { (cursors.carried ≤ cursors.unread) × (cursors.unread ≤ length places.now) }
    ensures empty { (j : ℕ) → from ≤ j → j < result → slice_index_or places.now j vacant ≡ vacant }
    ensures first { result < length places.now → slice_index_or places.now result vacant ≢ vacant }
    ensures low { from ≤ result }
    ensures high { result ≤ length places.now }
{
    if from <= cursors.carried {
        let k = first_taken(places, from, cursors.carried);
        if k < cursors.carried {
            return k;
        }
        return first_taken(places, cursors.unread, places.len());
    }
    first_taken(places, from, places.len())
}

/// The number of places up to the last one that is not empty.
fn occupied_len(places: &[u32]) -> usize
    ensures empty { (j : ℕ) → result ≤ j → slice_index_or places.now j vacant ≡ vacant }
    ensures last { 0 < result → slice_index_or places.now (result - 1) vacant ≢ vacant }
    ensures high { result ≤ length places.now }
{
    let mut len = places.len();
    while len > 0 && places[len - 1] == EMPTY {
        len -= 1;
    }
    len
}

/// Drops the empty places after the last index. Compacting is done if they reach the moved ones.
fn trim(places: &mut Vec<u32>, cursors: &mut Cursors)
    requires { EndsBut places.old.items cursors.old.front (vec_len places.old - 1) }
    ensures same { Trims places.old.items places.new.items }
    ensures ends { Ends places.new.items cursors.new.front }
    ensures cursors { IsCutShort (vec_len places.new) cursors.old cursors.new }
    ensures fewer { vec_len places.new ≤ vec_len places.old }
    ensures capacity { vec_capacity places.new ≡ vec_capacity places.old }
{
    let len = occupied_len(places.as_slice());
    places.truncate(len);
    cursors.front = cursors.front.min(len);
    if len <= cursors.unread {
        cursors.carried = 0;
        cursors.unread = 0;
    }
}

/// Takes an index out of its place.
#[inline(always)]
#[tactic(auto, using(crate::proofs::Arranged::seat_there, crate::proofs::Arranged::place_there))]
fn take_off(places: &mut Vec<u32>, seats: &mut Vec<u32>, cursors: &mut Cursors, index: u32)
    requires arranged { AreArranged places.old.items seats.old.items cursors.old }
    requires there { IsTrue (has_index index (order places.old.items)) }
    ensures taken { order places.new.items ≡ without_index index (order places.old.items) }
    ensures arranged { AreArranged places.new.items seats.new.items cursors.new }
    ensures bound { vec_len seats.new ≡ vec_len seats.old }
    ensures fewer { vec_len places.new ≤ vec_len places.old }
    ensures capacity { vec_capacity places.new ≡ vec_capacity places.old }
{
    let k = seats[index as usize] as usize;
    seats[index as usize] = EMPTY;
    places[k] = EMPTY;
    if k + 1 == places.len() {
        trim(places, cursors);
    } else if k == cursors.front {
        cursors.front = next_taken(places.as_slice(), *cursors, k + 1);
    }
}

/// Moves an index to a new place at the end, unless it is in the last one.
#[tactic(auto, using(crate::proofs::Arranged::seat_there, crate::proofs::Arranged::place_there))]
fn put_last(places: &mut Vec<u32>, seats: &mut Vec<u32>, cursors: &mut Cursors, index: u32)
    requires arranged { AreArranged places.old.items seats.old.items cursors.old }
    requires there { IsTrue (has_index index (order places.old.items)) }
    requires free { vec_len places.old < min (vec_capacity places.old) (2 ^ 32 - 1) }
    ensures moved { order places.new.items ≡ index_moved_to_back index (order places.old.items) }
    ensures arranged { AreArranged places.new.items seats.new.items cursors.new }
    ensures bound { vec_len seats.new ≡ vec_len seats.old }
    ensures capacity { vec_capacity places.new ≡ vec_capacity places.old }
{
    let k = seats[index as usize] as usize;
    let len = places.len();
    if k + 1 == len {
        return;
    }
    places[k] = EMPTY;
    if k == cursors.front {
        cursors.front = next_taken(places.as_slice(), *cursors, k + 1);
    }
    seats[index as usize] = len as u32;
    places.push_reserved(index);
}

/// Moves the indices in the places from `from` up to `end` down to the empty ones from `to` on, in their order, and
/// returns where they end.
fn carry(places: &mut [u32], seats: &mut [u32], to: usize, from: usize, end: usize) -> usize
    requires seated { AreSeated places.old seats.old }
    requires gap { AreEmpty places.old to from }
    requires places { (to ≤ from) × (from ≤ end) × (end ≤ length places.old) }
    requires fits { (length places.old ≤ 2 ^ 32 - 1) × (length seats.old ≤ 2 ^ 32 - 1) }
    ensures carries { Carries places.old places.new seats.new to from end result }
    ensures bound { length seats.new ≡ length seats.old }
    ensures len { length places.new ≡ length places.old }
{
    let mut next = to;
    for k in from..end {
        let index = places[k];
        if index != EMPTY {
            places[k] = EMPTY;
            places[next] = index;
            seats[index as usize] = next as u32;
            next += 1;
        }
    }
    next
}

/// Compacts all places that were not read yet.
#[inline(never)]
fn close_rest(places: &mut Vec<u32>, seats: &mut Vec<u32>, cursors: &mut Cursors)
    requires arranged { AreArranged places.old.items seats.old.items cursors.old }
    requires some { 0 < vec_len places.old }
    ensures same { order places.new.items ≡ order places.old.items }
    ensures arranged { AreArranged places.new.items seats.new.items cursors.new }
    ensures whole { cursors.old.carried ≡ 0
        → vec_len places.new ≡ length (order places.old.items) }
    ensures bound { vec_len seats.new ≡ vec_len seats.old }
    ensures capacity { vec_capacity places.new ≡ vec_capacity places.old }
{
    let to = cursors.carried;
    let from = cursors.unread.max(cursors.front);
    let end = places.len();
    let next = carry(places.as_mut_slice(), seats.as_mut_slice(), to, from, end);
    if cursors.front == from {
        cursors.front = to;
    }
    places.truncate(next);
    cursors.carried = 0;
    cursors.unread = 0;
}

/// Compacts the next places, a step of them or all that are left.
fn close_some(places: &mut Vec<u32>, seats: &mut Vec<u32>, cursors: &mut Cursors)
    requires arranged { AreArranged places.old.items seats.old.items cursors.old }
    requires some { 0 < vec_len places.old }
    ensures same { order places.new.items ≡ order places.old.items }
    ensures arranged { AreArranged places.new.items seats.new.items cursors.new }
    ensures bound { vec_len seats.new ≡ vec_len seats.old }
    ensures capacity { vec_capacity places.new ≡ vec_capacity places.old }
{
    let to = cursors.carried;
    let from = cursors.unread.max(cursors.front);
    if places.len() - from <= STEP {
        return close_rest(places, seats, cursors);
    }
    let next = carry(
        places.as_mut_slice(),
        seats.as_mut_slice(),
        to,
        from,
        from + STEP,
    );
    if cursors.front == from {
        cursors.front = to;
    }
    cursors.carried = next;
    cursors.unread = from + STEP;
}

/// Compacts all empty places if no place is free at the end.
fn free_place(places: &mut Vec<u32>, seats: &mut Vec<u32>, cursors: &mut Cursors)
    requires arranged { AreArranged places.old.items seats.old.items cursors.old }
    requires place { length (order places.old.items) < min (vec_capacity places.old) (2 ^ 32 - 1) }
    ensures same { order places.new.items ≡ order places.old.items }
    ensures free { vec_len places.new < min (vec_capacity places.new) (2 ^ 32 - 1) }
    ensures arranged { AreArranged places.new.items seats.new.items cursors.new }
    ensures bound { vec_len seats.new ≡ vec_len seats.old }
    ensures capacity { vec_capacity places.new ≡ vec_capacity places.old }
{
    if places.len() == places.capacity().min(MOST_PLACES) {
        cursors.carried = 0;
        cursors.unread = 0;
        close_rest(places, seats, cursors);
    }
}

/// After how many of so many places compacting begins. It ends before they are used up.
fn last_uncompacted(most: usize) -> usize
    ensures { result ≤ most - 1 }
{
    (most - most / STEP).saturating_sub(1)
}

/// Compacts the next places, and all empty ones if no place is free at the end.
#[inline(never)]
fn compact(places: &mut Vec<u32>, seats: &mut Vec<u32>, cursors: &mut Cursors)
    requires arranged { AreArranged places.old.items seats.old.items cursors.old }
    requires some { 0 < vec_len places.old }
    requires place { length (order places.old.items) < min (vec_capacity places.old) (2 ^ 32 - 1) }
    ensures same { order places.new.items ≡ order places.old.items }
    ensures free { vec_len places.new < min (vec_capacity places.new) (2 ^ 32 - 1) }
    ensures arranged { AreArranged places.new.items seats.new.items cursors.new }
    ensures bound { vec_len seats.new ≡ vec_len seats.old }
    ensures capacity { vec_capacity places.new ≡ vec_capacity places.old }
{
    close_some(places, seats, cursors);
    free_place(places, seats, cursors);
}

/// Keeps a place free at the end. With more places than `closes_at`, the next ones are compacted.
#[inline(always)]
fn make_place(places: &mut Vec<u32>, seats: &mut Vec<u32>, cursors: &mut Cursors, closes_at: usize)
    requires arranged { AreArranged places.old.items seats.old.items cursors.old }
    requires place { length (order places.old.items) < min (vec_capacity places.old) (2 ^ 32 - 1) }
    requires early { closes_at ≤ min (vec_capacity places.old) (2 ^ 32 - 1) - 1 }
    ensures same { order places.new.items ≡ order places.old.items }
    ensures free { vec_len places.new < min (vec_capacity places.new) (2 ^ 32 - 1) }
    ensures arranged { AreArranged places.new.items seats.new.items cursors.new }
    ensures bound { vec_len seats.new ≡ vec_len seats.old }
    ensures capacity { vec_capacity places.new ≡ vec_capacity places.old }
{
    if places.len() > closes_at {
        compact(places, seats, cursors);
    }
}

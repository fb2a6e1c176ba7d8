//! The write list.
ghost use Rattle.std.specs.Prelude.{◌≡◌, ◌≤◌, true, [], OnOk};
ghost use Rattle.policy_queue.specs.Queue.{head};
ghost use Rattle.policy_queue.specs.Indices.{has_index, OnlyGainsPlaces};
ghost use Rattle.engine_cells.specs.Fitting.{HasPlaceFor, StepsOut, ComesLast};

use crate::trail::Trail;
use policy_queue::IndexQueue;
use std::alloc::{AllocError, Global};
use std::marker::Model;

/// The maximum number of places in a list that is not kept.
const MOST_UNKEPT: usize = 0xFFFF_FFFE;

/// The places of the admitted records by their last writes. They are kept only where they are read: where a live time is set. Otherwise
/// contracts alone say in which order they are.
#[derive(Drop)]
pub struct WriteOrder {
    is_kept: bool,
    queue: IndexQueue,
    // How many places there are, and what was done to them, where they are not kept.
    len: usize,
    moves: Trail<u32, bool>,
}

impl Model for WriteOrder {
    ghost use Rattle.engine_cells.specs.WriteList.{WriteList};

    ghost Value = { WriteList };

    ghost use Rattle.std.specs.Prelude.{◌≡◌, ◌≤◌, ◌-◌, ◌^◌, [], length, if◌then◌else◌};
    ghost use Rattle.engine_cells.specs.WriteList.{after_moves, unkept};

    ghost view = { λ w. record {
      places = if w.is_kept then w.queue else unkept (after_moves [] w.moves.items);
      is_kept = w.is_kept;
    } };

    ghost invariant = { λ w. (w.len ≡ length (after_moves [] w.moves.items))
        × (w.len ≤ 2 ^ 32 - 2) };
}

impl WriteOrder {
    /// Creates an empty list. The call allocates nothing.
    pub fn new(alloc: Global, is_kept: bool) -> Self
        ensures indices { result.places.indices ≡ [] }
        ensures kept { result.is_kept ≡ is_kept }
    {
        WriteOrder {
            is_kept,
            queue: IndexQueue::new(alloc),
            len: 0,
            moves: Trail::new(),
        }
    }

    /// Returns the place of the record whose write was applied longest ago, or `None` if there is none. The list must be kept.
    pub fn first(&self) -> Option<u32>
        requires { self.now.is_kept ≡ true }
        ensures { result ≡ head self.now.places.indices }
    {
        self.queue.first()
    }

    /// Makes room for `more` places, each below `bound`, which then allocate nothing. Returns an error if there would be too many places
    /// or there is not enough memory; the places then stay as they are.
    #[inline]
    pub fn reserve(&mut self, more: usize, bound: u32) -> Result<(), AllocError>
        ensures room { OnOk result (more ≤ self.new.places.room) }
        ensures bound { OnOk result (bound ≤ self.new.places.bound) }
        ensures stays { OnlyGainsPlaces self.old.places self.new.places }
        ensures kept { self.new.is_kept ≡ self.old.is_kept }
    {
        if self.is_kept {
            return self.queue.reserve(more, bound);
        }
        if more > MOST_UNKEPT - self.len {
            return Err(AllocError);
        }
        Ok(())
    }

    /// Moves a place that is in the list to the back, or puts another there, for which there is room.
    #[inline(always)]
    pub fn put_last(&mut self, place: u32, is_there: bool)
        requires there { is_there ≡ has_index place self.old.places.indices }
        requires room { HasPlaceFor place self.old.places }
        ensures last { ComesLast place self.old.places self.new.places }
        ensures kept { self.new.is_kept ≡ self.old.is_kept }
    {
        if self.is_kept {
            return put_last(&mut self.queue, place, is_there);
        }
        self.moves = self.moves.and(&place, &true);
        if !is_there {
            self.len += 1;
        }
    }

    /// Takes a place out of the list, if it is there.
    #[inline(always)]
    pub fn take_off(&mut self, place: u32, is_there: bool)
        requires { is_there ≡ has_index place self.old.places.indices }
        ensures out { StepsOut place self.old.places self.new.places }
        ensures kept { self.new.is_kept ≡ self.old.is_kept }
    {
        if self.is_kept {
            return take_off(&mut self.queue, place, is_there);
        }
        self.moves = self.moves.and(&place, &false);
        if is_there {
            self.len -= 1;
        }
    }
}

/// Moves a place that is in a queue to the back, or puts another there, for which there is room.
pub fn put_last(queue: &mut IndexQueue, index: u32, is_there: bool)
    requires there { is_there ≡ has_index index queue.old.indices }
    requires room { HasPlaceFor index queue.old }
    ensures { ComesLast index queue.old queue.new }
{
    if is_there {
        queue.move_to_back(index);
    } else {
        queue.push_back(index);
    }
}

/// Takes a place out of a queue, if it is there.
#[inline(always)]
pub fn take_off(queue: &mut IndexQueue, index: u32, is_there: bool)
    requires { is_there ≡ has_index index queue.old.indices }
    ensures { StepsOut index queue.old queue.new }
{
    if is_there {
        queue.remove(index);
    }
}

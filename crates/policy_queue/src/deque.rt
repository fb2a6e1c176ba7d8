//! Queues of elements with stable names.
ghost use Rattle.std.specs.Prelude.{◌≡◌, ◌≢◌, ℕ, ◌+◌, ◌-◌, ◌^◌, ◌<◌, ◌≤◌, ◌↔◌, true, false, List, [], ◌∷◌, ◌++◌, length, IsTrue, IsSome, IsOk, IsErr, IfOk, IfErr, OnOk, OnErr, MatchOption, MatchResult, IfSome, IfNone, option_map, option_copied, map, Some, None};
ghost use Rattle.std.specs.Borrow.{sem};
ghost use Rattle.std.specs.Fn.{FnReturnsAt};
ghost use Rattle.policy_queue.specs.Queue.{find, from_id, head, final, tail, to_give, cursor_past, Leaves, Pushes, Stays, refused_element, RefusedWell, MovesToBack, AreNamed, StaysStale, TheName, WalksOnce, IsFirstThat, NonePasses};
ghost use Rattle.policy_queue.specs.Indices.{order};

use crate::index_queue::IndexQueue;
use crate::places::{
    Cursor, cursor_leaving, cursor_to, element_of, holds, id_of, make_room, walk_slot,
};
use policy_base::{CacheRegion, Cells, NodeId};
use std::alloc::Global;
use std::marker::Model;
use thiserror::Error;

/// The queue does not have the node that the caller named.
#[derive(Clone, Copy, Debug, PartialEq, Eq, Drop, Error)]
#[error("stale")]
pub struct Stale;

/// Why a push was refused, with the element that was to be appended.
#[derive(Debug, Drop, Error)]
pub enum PushError<T> {
    /// There was not enough memory for a node.
    #[error("out of memory")]
    OutOfMemory(T),
    /// The queue has had 2^64 - 1 nodes.
    #[error("used up")]
    UsedUp(T),
}

/// Why a reservation was refused.
#[derive(Clone, Copy, Debug, PartialEq, Eq, Drop, Error)]
pub enum ReserveError {
    /// There was not enough memory for the nodes.
    #[error("out of memory")]
    OutOfMemory,
    /// With these pushes the queue would have had more than 2^64 - 1 nodes.
    #[error("used up")]
    UsedUp,
}

/// A queue of elements with stable names.
#[derive(Drop)]
pub struct Deque<T> {
    region: CacheRegion,
    // The slots of the nodes, from front to back.
    slots: IndexQueue,
    // The nodes, each with its serial.
    nodes: Cells<u64, T>,
    cursor: Cursor,
    next_serial: u64,
}

impl<T> Model for Deque<T> {
    ghost use Rattle.policy_queue.specs.Queue.{Queue};

    ghost Value = { Queue T };

    ghost use Rattle.policy_queue.specs.Places.{nodes_of, room_of, IsQueue};

    ghost view = { λ d. record {
      region = d.region;
      nodes = nodes_of d.region d.nodes d.slots.indices;
      cursor = d.cursor;
      next_serial = d.next_serial;
      room = room_of d.slots d.nodes d.next_serial;
    } };

    ghost invariant = { λ d. IsQueue d.region d.slots d.nodes d.next_serial };
}

impl<T: Drop> Deque<T> {
    ghost use Rattle.policy_queue.specs.Walks.{walks};

    /// Creates an empty queue. The call allocates nothing.
    pub fn new(alloc: Global, region: CacheRegion) -> Self
        ensures nodes { result.nodes ≡ [] }
        ensures region { result.region ≡ region }
        ensures cursor { result.cursor ≡ Cursor.Unstarted }
        ensures next_serial { result.next_serial ≡ 0 }
    {
        Deque {
            region,
            slots: IndexQueue::new(alloc),
            nodes: Cells::new(alloc),
            cursor: Cursor::Unstarted,
            next_serial: 0,
        }
    }

    /// Returns the number of nodes in the queue.
    pub fn len(&self) -> usize
        ensures { result ≡ length self.now.nodes }
    {
        self.slots.len()
    }

    /// Returns whether the queue has a node of this name.
    pub fn contains(&self, id: NodeId) -> bool
        ensures { IsTrue result ↔ IsSome (find id self.now.nodes) }
    {
        holds(self.region, &self.slots, &self.nodes, id)
    }

    /// Returns the queue's region.
    pub fn region(&self) -> CacheRegion
        ensures { result ≡ self.now.region }
    {
        self.region
    }

    /// Returns the first element, or `None` if the queue is empty.
    pub fn peek_front(&self) -> Option<&T>
        ensures { option_copied result ≡ option_map (λ n. n.element) (head self.now.nodes) }
    {
        match self.slots.first() {
            Some(slot) => Some(element_of(&self.nodes, slot)),
            None => None,
        }
    }

    /// Returns the name of the first node, or `None` if the queue is empty.
    pub fn peek_front_ptr(&self) -> Option<NodeId>
        ensures { result ≡ option_map (λ n. n.id) (head self.now.nodes) }
    {
        match self.slots.first() {
            Some(slot) => Some(id_of(self.region, &self.nodes, slot)),
            None => None,
        }
    }

    /// Returns the last element, or `None` if the queue is empty.
    pub fn peek_back(&self) -> Option<&T>
        ensures { option_copied result ≡ option_map (λ n. n.element) (final self.now.nodes) }
    {
        match self.slots.last() {
            Some(slot) => Some(element_of(&self.nodes, slot)),
            None => None,
        }
    }

    /// Returns the first element, from the front on, for which `passes` returns true, or `None` if there is none. `passes` is not called on
    /// any element after that one.
    pub fn first_where<F: Fn(&T) -> bool>(&self, passes: F) -> Option<&T>
        requires { F.IsAlwaysCallable passes }
        ensures found { IfSome result
            (λ element. IsFirstThat (FnReturnsAt F.Fn passes) self.now.nodes element.now) }
        ensures none { IfNone result (NonePasses (FnReturnsAt F.Fn passes) self.now.nodes) }
    {
        let mut next = self.slots.first();
        while let Some(slot) = next {
            let element = element_of(&self.nodes, slot);
            if passes(element) {
                return Some(element);
            }
            next = self.slots.behind(slot);
        }
        None
    }

    /// Reserves room for `n` pushes, which then allocate nothing and are not refused. Returns `UsedUp` if the queue would then have had
    /// more than 2^64 - 1 nodes, and `OutOfMemory` if there is not enough memory; the nodes then stay as they are.
    pub fn reserve(&mut self, n: usize) -> Result<(), ReserveError>
        ensures room { OnOk result (n ≤ self.new.room) }
        ensures had_room { n ≤ self.old.room → IsOk result }
        ensures stays { Stays self.old self.new }
        ensures used_up { (result ≡ Err ReserveError.UsedUp)
            ↔ (2 ^ 64 - 1 < self.old.next_serial + n) }
    {
        if u64::MAX - self.next_serial < n as u64 {
            return Err(ReserveError::UsedUp);
        }
        if n == 0 {
            return Ok(());
        }
        if make_room(&mut self.slots, &mut self.nodes, n).is_err() {
            return Err(ReserveError::OutOfMemory);
        }
        Ok(())
    }

    /// Appends an element and returns the name of its node. Returns the element in `UsedUp` if the queue has had 2^64 - 1 nodes, and in
    /// `OutOfMemory` if there is not enough memory for a node; the nodes then stay as they are.
    pub fn push_back(&mut self, element: T) -> Result<NodeId, PushError<T>>
        ensures pushes { IfOk result (λ id. Pushes self.old self.new id element) }
        ensures had_room { 0 < self.old.room → IsOk result }
        ensures used_up { self.old.next_serial ≡ 2 ^ 64 - 1 → IsErr result }
        ensures stays { OnErr result (Stays self.old self.new) }
        ensures handed_back { IfErr result (λ e. refused_element e ≡ element) }
        ensures why { IfErr result (RefusedWell self.old) }
    {
        if self.next_serial == u64::MAX {
            return Err(PushError::UsedUp(element));
        }
        match make_room(&mut self.slots, &mut self.nodes, 1) {
            Ok(()) => {}
            Err(_) => return Err(PushError::OutOfMemory(element)),
        }
        let serial = self.next_serial;
        let slot = self.nodes.insert_reserved(serial, element);
        self.slots.push_back(slot);
        self.next_serial += 1;
        Ok(NodeId {
            serial,
            slot,
            queue: self.region,
        })
    }

    /// Removes a node and returns its element. Returns `Stale` if the queue does not have the node; then nothing has changed.
    pub fn unlink(&mut self, id: NodeId) -> Result<T, Stale>
        ensures value { MatchResult result
            (λ x. option_map (λ n. n.element) (find id self.old.nodes) ≡ Some x)
            (λ _. find id self.old.nodes ≡ None) }
        ensures leaves { OnOk result (Leaves self.old self.new id) }
        ensures stale { OnErr result (self.new ≡ self.old) }
    {
        if !holds(self.region, &self.slots, &self.nodes, id) {
            return Err(Stale);
        }
        self.cursor = cursor_leaving(
            self.cursor,
            id,
            Cursor::Done,
            self.region,
            &self.slots,
            &self.nodes,
        );
        self.slots.remove(id.slot);
        let (_, element) = self.nodes.remove(id.slot);
        Ok(element)
    }

    /// Removes a node and drops its element. Returns `Stale` if the queue does not have the node; then nothing has changed.
    pub fn unlink_and_drop(&mut self, id: NodeId) -> Result<(), Stale>
        ensures found { IsOk result ↔ IsSome (find id self.old.nodes) }
        ensures leaves { OnOk result (Leaves self.old self.new id) }
        ensures stale { OnErr result (self.new ≡ self.old) }
    {
        match self.unlink(id) {
            Ok(_) => Ok(()),
            Err(stale) => Err(stale),
        }
    }

    /// Moves a node, which keeps its name, to the back. Returns `Stale` if the queue does not have the node; then nothing has changed.
    pub fn move_to_back(&mut self, id: NodeId) -> Result<(), Stale>
        ensures found { IsOk result ↔ IsSome (find id self.old.nodes) }
        ensures moves { OnOk result (MovesToBack self.old self.new id) }
        ensures stale { OnErr result (self.new ≡ self.old) }
    {
        if !holds(self.region, &self.slots, &self.nodes, id) {
            return Err(Stale);
        }
        self.cursor = cursor_leaving(
            self.cursor,
            id,
            self.cursor,
            self.region,
            &self.slots,
            &self.nodes,
        );
        self.slots.move_to_back(id.slot);
        Ok(())
    }

    /// Removes the first node and returns its element, or `None` if the queue is empty.
    pub fn pop_front(&mut self) -> Option<T>
        ensures value { result ≡ option_map (λ n. n.element) (head self.old.nodes) }
        ensures leaves { MatchOption (head self.old.nodes) (self.new ≡ self.old)
            (λ n. Leaves self.old self.new n.id) }
    {
        match self.peek_front_ptr() {
            None => None,
            Some(id) => match self.unlink(id) {
                Ok(element) => Some(element),
                Err(_) => unreachable!(),
            },
        }
    }

    /// Moves the first node, which keeps its name, to the back. An empty queue stays as it is.
    pub fn move_front_to_back(&mut self)
        ensures { MatchOption (head self.old.nodes) (self.new ≡ self.old)
            (λ n. MovesToBack self.old self.new n.id) }
    {
        match self.peek_front_ptr() {
            None => {}
            Some(id) => match self.move_to_back(id) {
                Ok(()) => {}
                Err(_) => unreachable!(),
            },
        }
    }

    /// Restarts the walk through the queue at its front.
    pub fn reset_cursor(&mut self)
        ensures { self.new ≡ record self.old { cursor = Cursor.Unstarted } }
    {
        self.cursor = Cursor::Unstarted;
    }

    /// Returns the next element of the walk, from the front on; after the last one `None`, and then the first one again.
    pub fn next(&mut self) -> Option<&T>
        ensures* stays { sem 𝓛 (walks T.row self.entry) }
        ensures value { option_copied result
            ≡ option_map (λ n. n.element) (head (to_give self.old.cursor self.old.nodes)) }
    {
        match walk_slot(self.cursor, self.region, &self.slots, &self.nodes) {
            Some(slot) => {
                self.cursor = cursor_to(self.region, &self.nodes, self.slots.behind(slot));
                Some(element_of(&self.nodes, slot))
            }
            None => {
                self.cursor = Cursor::Unstarted;
                None
            }
        }
    }

    /// Returns the name of the node after the node with this name, or `None` after the last one. Returns `Stale` if the queue does not have
    /// the node.
    pub fn next_node_ptr(&self, id: NodeId) -> Result<Option<NodeId>, Stale>
        ensures { MatchResult result (λ next. IsSome (find id self.now.nodes)
            × (next ≡ option_map (λ n. n.id) (head (tail (from_id id self.now.nodes)))))
            (λ _. find id self.now.nodes ≡ None) }
    {
        if !holds(self.region, &self.slots, &self.nodes, id) {
            return Err(Stale);
        }
        match self.slots.behind(id.slot) {
            Some(slot) => Ok(Some(id_of(self.region, &self.nodes, slot))),
            None => Ok(None),
        }
    }

    /// Returns the element after the node with this name; `None` after the last one, and for a name that the queue does not have.
    pub fn peek_behind(&self, id: NodeId) -> Option<&T>
        ensures { option_copied result
            ≡ option_map (λ n. n.element) (head (tail (from_id id self.now.nodes))) }
    {
        if !holds(self.region, &self.slots, &self.nodes, id) {
            return None;
        }
        match self.slots.behind(id.slot) {
            Some(slot) => Some(element_of(&self.nodes, slot)),
            None => None,
        }
    }

    /// Returns the name of the next node of the walk, from the front on; after the last one `None`, and then the first one again.
    pub fn next_id(&mut self) -> Option<NodeId>
        ensures value { result
            ≡ option_map (λ n. n.id) (head (to_give self.old.cursor self.old.nodes)) }
        ensures cursor { self.new
            ≡ record self.old { cursor = cursor_past (to_give self.old.cursor self.old.nodes) } }
    {
        match walk_slot(self.cursor, self.region, &self.slots, &self.nodes) {
            Some(slot) => {
                self.cursor = cursor_to(self.region, &self.nodes, self.slots.behind(slot));
                Some(id_of(self.region, &self.nodes, slot))
            }
            None => {
                self.cursor = Cursor::Unstarted;
                None
            }
        }
    }
}

/// The nodes of a queue have its region and different serials below its next one.
pub fn names_stand<T>(queue: &Deque<T>)
    ensures { AreNamed queue.now.region queue.now.next_serial queue.now.nodes }
{
    let _ = &queue.slots;
}

/// A removed node is stale from then on: no later push, which uses the next serial, gives its name again.
pub fn stale_names_stay_stale<T>(queue: &Deque<T>)
    ensures { (id : TheName) → StaysStale id queue.now.next_serial queue.now.nodes }
{
    let _ = &queue.slots;
}

/// Returns the array behind a queue: the slots of its nodes from front to back, and `u32::MAX` in its empty places.
pub fn places_of<T>(queue: &Deque<T>) -> &[u32]
    ensures { order result.now ≡ map (λ n. n.id.slot) queue.now.nodes }
{
    queue.slots.places()
}

/// A walk of a queue that does not change returns each node once, in order, then ends, and starts again.
pub fn walks_give_each_once<T>(queue: &Deque<T>)
    ensures { WalksOnce queue.now.nodes }
{
    let _ = &queue.slots;
}

//! The nodes of a queue, by their slots.
ghost use Rattle.std.specs.Prelude.{◌≡◌, ◌+◌, ◌≤◌, IsSome, IsTrue, IsOk, OnOk, IfSome, is_some, option_map, Some};
ghost use Rattle.std.specs.Option.{option_to_list};
ghost use Rattle.slab.specs.Slab.{slab_len, get, ContainsKey, HasRoomFor};
ghost use Rattle.policy_queue.specs.Indices.{has_index, OnlyGainsPlaces};
ghost use Rattle.policy_queue.specs.Queue.{find, from_id, tail, to_give, cursor_at};
ghost use Rattle.policy_queue.specs.Places.{AreTaken, node_of, nodes_of, slots_from, cursor_off};

use crate::index_queue::IndexQueue;
use policy_base::{CacheRegion, Cells, NodeId};
use std::alloc::AllocError;

/// An element with its name.
#[derive(Drop)]
pub struct Node<T> {
    /// The name of the node.
    pub id: NodeId,
    /// The element that the node holds.
    pub element: T,
}

/// The position of a walk: before its start, at the node that it returns next, or after the last one.
#[derive(Clone, Copy)]
pub enum Cursor {
    /// Before the walk's start: the first node is returned next.
    Unstarted,
    /// At the node with this name, which is returned next.
    At(NodeId),
    /// After the last node.
    Done,
}

/// The element in a slot.
pub(crate) fn element_of<T>(nodes: &Cells<u64, T>, slot: u32) -> &T
    requires { ContainsKey nodes.now slot }
    ensures { option_map (λ value. value.1) (get nodes.now slot) ≡ Some result.now }
{
    match nodes.get(slot) {
        Some((_, element)) => element,
        None => unreachable!(),
    }
}

/// The name of the node in a slot.
pub(crate) fn id_of<T>(region: CacheRegion, nodes: &Cells<u64, T>, slot: u32) -> NodeId
    requires { ContainsKey nodes.now slot }
    ensures { option_map (λ value. (node_of region slot value).id) (get nodes.now slot)
        ≡ Some result }
{
    match nodes.get(slot) {
        Some((serial, _)) => NodeId {
            serial: *serial,
            slot,
            queue: region,
        },
        None => unreachable!(),
    }
}

/// Whether the queue has the node of this name.
pub(crate) fn holds<T>(
    region: CacheRegion,
    slots: &IndexQueue,
    nodes: &Cells<u64, T>,
    id: NodeId,
) -> bool
    requires { AreTaken nodes.now slots.now.indices }
    ensures { result ≡ is_some (find id (nodes_of region nodes.now slots.now.indices)) }
{
    if !slots.contains(id.slot) {
        return false;
    }
    id_of(region, nodes, id.slot).is_same(id)
}

/// A cursor at the node in a slot, or after the last one.
pub(crate) fn cursor_to<T>(region: CacheRegion, nodes: &Cells<u64, T>, slot: Option<u32>) -> Cursor
    requires { IfSome slot (ContainsKey nodes.now) }
    ensures { result ≡ cursor_at (nodes_of region nodes.now (option_to_list slot)) }
{
    match slot {
        Some(slot) => Cursor::At(id_of(region, nodes, slot)),
        None => Cursor::Done,
    }
}

/// The slot of the node that the walk returns next.
pub(crate) fn walk_slot<T>(
    cursor: Cursor,
    region: CacheRegion,
    slots: &IndexQueue,
    nodes: &Cells<u64, T>,
) -> Option<u32>
    requires { AreTaken nodes.now slots.now.indices }
    ensures gives { to_give cursor (nodes_of region nodes.now slots.now.indices)
        ≡ nodes_of region nodes.now (slots_from result slots.now.indices) }
    ensures there { IfSome result (λ slot. IsTrue (has_index slot slots.now.indices)) }
{
    match cursor {
        Cursor::Unstarted => slots.first(),
        Cursor::At(id) => {
            if holds(region, slots, nodes, id) {
                Some(id.slot)
            } else {
                None
            }
        }
        Cursor::Done => None,
    }
}

/// Where the cursor is once a node leaves its place: `last` if it was there, and no node comes after that one.
pub(crate) fn cursor_leaving<T>(
    cursor: Cursor,
    id: NodeId,
    last: Cursor,
    region: CacheRegion,
    slots: &IndexQueue,
    nodes: &Cells<u64, T>,
) -> Cursor
    requires taken { AreTaken nodes.now slots.now.indices }
    requires there { IsSome (find id (nodes_of region nodes.now slots.now.indices)) }
    ensures { result ≡ cursor_off cursor id last
        (tail (from_id id (nodes_of region nodes.now slots.now.indices))) }
{
    match cursor {
        Cursor::At(at) => {
            if at.is_same(id) {
                match slots.behind(id.slot) {
                    Some(next) => Cursor::At(id_of(region, nodes, next)),
                    None => last,
                }
            } else {
                cursor
            }
        }
        Cursor::Unstarted => cursor,
        Cursor::Done => cursor,
    }
}

/// Makes room for `n` more nodes.
pub(crate) fn make_room<T>(
    slots: &mut IndexQueue,
    nodes: &mut Cells<u64, T>,
    n: usize,
) -> Result<(), AllocError>
    ensures slots { OnlyGainsPlaces slots.old slots.new }
    ensures kept { nodes.new ≡ record nodes.old { capacity = nodes.new.capacity } }
    ensures cells { nodes.old.capacity ≤ nodes.new.capacity }
    ensures room { OnOk result (HasRoomFor nodes.new n × (n ≤ slots.new.room)
        × (slab_len nodes.old + n ≤ slots.new.bound)) }
    ensures had_room { HasRoomFor nodes.old n → n ≤ slots.old.room
        → slab_len nodes.old + n ≤ slots.old.bound → IsOk result }
{
    nodes.reserve(n)?;
    slots.reserve(n, (nodes.len() + n) as u32)
}

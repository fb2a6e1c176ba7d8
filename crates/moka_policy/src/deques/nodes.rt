//! The names of an entry's nodes.
ghost use Rattle.std.specs.Prelude.{◌≡◌, Option, Some, None};
ghost use Rattle.moka_policy.specs.Deques.Nodes.{access_node, write_node, with_access_node, with_write_node};

use policy_base::{NodeId, Slot};
use slab::Slab;

/// The name of an entry's node in the access-order queues.
pub(crate) fn access_node<K>(entries: &Slab<Slot<K>>, entry: usize) -> Option<NodeId>
    ensures { result ≡ access_node entries.now entry }
{
    match entries.get(entry) {
        Some(slot) => slot.nodes.access_queue,
        None => None,
    }
}

/// The name of an entry's node in the write-order queue.
pub(crate) fn write_node<K>(entries: &Slab<Slot<K>>, entry: usize) -> Option<NodeId>
    ensures { result ≡ write_node entries.now entry }
{
    match entries.get(entry) {
        Some(slot) => slot.nodes.write_queue,
        None => None,
    }
}

/// Sets the name of an entry's node in the access-order queues.
pub(crate) fn set_access_node<K>(entries: &mut Slab<Slot<K>>, entry: usize, node: Option<NodeId>)
    ensures { entries.new ≡ with_access_node entry node entries.old }
{
    if let Some(slot) = entries.get_mut(entry) {
        slot.nodes.access_queue = node;
    }
}

/// Sets the name of an entry's node in the write-order queue.
pub(crate) fn set_write_node<K>(entries: &mut Slab<Slot<K>>, entry: usize, node: Option<NodeId>)
    ensures { entries.new ≡ with_write_node entry node entries.old }
{
    if let Some(slot) = entries.get_mut(entry) {
        slot.nodes.write_queue = node;
    }
}

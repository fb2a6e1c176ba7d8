//! The queues.
ghost use Rattle.std.specs.Prelude.{◌≡◌, ◌≢◌, ℕ, ◌+◌, ◌^◌, ◌<◌, ◌≤◌, ◌↔◌, ◌⊎◌, length, Some, None, IsTrue, IsSome, IsOk, IfErr, OnOk, OnErr, MatchOption, option_map, option_copied};
ghost use Rattle.std.specs.Borrow.{sem};
ghost use Rattle.policy_queue.specs.Queue.{find, head, final, to_give, cursor_past, Leaves, Stays, MovesToBack, refused_element, RefusedWell};
ghost use Rattle.policy_base.specs.declared.name.CacheRegion.{CacheRegion as TheRegion};
ghost use Rattle.moka_policy.specs.Deques.Queues.{queue_of, with_queue, access_nodes, IsNewQueue, Changes, HasNode, MovesNode, LosesNode, HasAccessNode, MovesAccessNode, LosesAccessNode, AllStay, HaveRoomFor, LackSerials};
ghost use Rattle.moka_policy.specs.Deques.Nodes.{access_node, write_node, with_access_node, with_write_node, PushesEntry, forgets};

use crate::deques::nodes::{access_node, set_access_node, set_write_node, write_node};
use policy_base::{CacheRegion, KeyHashDate, NodeId, Slot};
use policy_queue::{Cursor, Deque, PushError, ReserveError, Stale};
use slab::Slab;
use std::alloc::Global;
use std::marker::{Model, PhantomData};

/// The queues of a cache's entries: those of the window and of the main space hold them in order of use, the last one
/// in order of writes. An entry knows its nodes by their names.
#[derive(Drop)]
pub struct Deques<K> {
    window: Deque<KeyHashDate>,
    probation: Deque<KeyHashDate>,
    protected: Deque<KeyHashDate>,
    write_order: Deque<KeyHashDate>,
    keys: PhantomData<K>,
}

impl<K> Model for Deques<K> {
    ghost use Rattle.moka_policy.specs.Deques.Queues.{Queues};

    ghost Value = { Queues };

    ghost view = { λ d. record {
      window = d.window;
      probation = d.probation;
      protected = d.protected;
      write_order = d.write_order;
    } };
}

impl<K> Deques<K> {
    ghost use Rattle.moka_policy.specs.Deques.Lending.{lends_queue};

    /// Creates empty queues. The call allocates nothing.
    pub fn default(alloc: Global) -> Self
        ensures { (region : TheRegion) → IsNewQueue region (queue_of region result) }
    {
        Deques {
            window: Deque::new(alloc, CacheRegion::Window),
            probation: Deque::new(alloc, CacheRegion::MainProbation),
            protected: Deque::new(alloc, CacheRegion::MainProtected),
            write_order: Deque::new(alloc, CacheRegion::Other),
            keys: PhantomData,
        }
    }

    /// Returns the queue of a region; that of `Other` is the one in order of writes.
    pub fn select(&self, region: CacheRegion) -> &Deque<KeyHashDate>
        ensures { result.now ≡ queue_of region self.now }
    {
        match region {
            CacheRegion::Window => &self.window,
            CacheRegion::MainProbation => &self.probation,
            CacheRegion::MainProtected => &self.protected,
            CacheRegion::Other => &self.write_order,
        }
    }

    /// Returns the queue of a region for changes. (`moka` returns the queue in order of writes with it.)
    pub fn select_mut(&mut self, region: CacheRegion) -> &mut Deque<KeyHashDate>
        ensures* lends { sem 𝓛 (lends_queue K.row region self.entry result) }
        ensures value { result.now ≡ queue_of region self.old }
    {
        match region {
            CacheRegion::Window => &mut self.window,
            CacheRegion::MainProbation => &mut self.probation,
            CacheRegion::MainProtected => &mut self.protected,
            CacheRegion::Other => &mut self.write_order,
        }
    }

    /// Returns the number of entries in the queue of a region.
    pub fn len(&self, region: CacheRegion) -> usize
        ensures { result ≡ length (queue_of region self.now).nodes }
    {
        self.select(region).len()
    }

    /// Returns the first entry of a region, or `None` if the region's queue is empty.
    pub fn peek_front(&self, region: CacheRegion) -> Option<&KeyHashDate>
        ensures { option_copied result
            ≡ option_map (λ n. n.element) (head (queue_of region self.now).nodes) }
    {
        self.select(region).peek_front()
    }

    /// Returns the last entry of a region, or `None` if the region's queue is empty.
    pub fn peek_back(&self, region: CacheRegion) -> Option<&KeyHashDate>
        ensures { option_copied result
            ≡ option_map (λ n. n.element) (final (queue_of region self.now).nodes) }
    {
        self.select(region).peek_back()
    }

    /// Removes the first entry of a region from its queue and returns it, or `None` if the queue is empty. What the entry knows of its node
    /// is stale from then on.
    pub fn pop_front(&mut self, region: CacheRegion) -> Option<KeyHashDate>
        ensures value { result
            ≡ option_map (λ n. n.element) (head (queue_of region self.old).nodes) }
        ensures leaves { MatchOption (head (queue_of region self.old).nodes) (self.new ≡ self.old)
            (λ n. Changes region (λ before after. Leaves before after n.id) self.old self.new) }
    {
        self.select_mut(region).pop_front()
    }

    /// Returns the next entry of the walk through a region, from the front on; after the last one `None`, and then the
    /// first one again.
    pub fn next(&mut self, region: CacheRegion) -> Option<KeyHashDate>
        ensures value { result ≡ option_map (λ n. n.element)
            (head (to_give (queue_of region self.old).cursor (queue_of region self.old).nodes)) }
        ensures cursor { Changes region (λ before after. after ≡ record before
            { cursor = cursor_past (to_give before.cursor before.nodes) }) self.old self.new }
    {
        self.select_mut(region).next().copied()
    }

    /// Restarts the walk through a region.
    pub fn reset_cursor(&mut self, region: CacheRegion)
        ensures { Changes region
            (λ before after. after ≡ record before { cursor = Cursor.Unstarted }) self.old
            self.new }
    {
        self.select_mut(region).reset_cursor();
    }

    /// Reserves room for `n` pushes on each queue, which then allocate nothing and are not refused. Returns `UsedUp` if a queue would then
    /// have had more than 2^64 - 1 nodes, and `OutOfMemory` if there is not enough memory; the nodes then stay as they are.
    pub fn reserve(&mut self, n: usize) -> Result<(), ReserveError>
        ensures room { OnOk result (HaveRoomFor n self.new) }
        ensures had_room { HaveRoomFor n self.old → IsOk result }
        ensures stays { AllStay self.old self.new }
        ensures used_up { (result ≡ Err ReserveError.UsedUp) ↔ LackSerials n self.old }
    {
        let first = self.window.reserve(n);
        let second = self.probation.reserve(n);
        let third = self.protected.reserve(n);
        let fourth = self.write_order.reserve(n);
        both(both(first, second), both(third, fourth))
    }

    /// Appends an entry to the queue of a region other than `Other`, and stores the name of the new node in the entry. Returns the entry in
    /// `UsedUp` if the queue has had 2^64 - 1 nodes, and in `OutOfMemory` if there is not enough memory; the nodes and the entries then
    /// stay as they are.
    pub fn push_back_ao(
        &mut self,
        region: CacheRegion,
        node: KeyHashDate,
        entries: &mut Slab<Slot<K>>,
    ) -> Result<(), PushError<KeyHashDate>>
        requires { region ≢ CacheRegion.Other }
        ensures pushes { OnOk result
            (PushesEntry with_access_node region node self.old self.new entries.old entries.new) }
        ensures had_room { 0 < (queue_of region self.old).room → IsOk result }
        ensures stays { OnErr result (Changes region Stays self.old self.new) }
        ensures entries { OnErr result (entries.new ≡ entries.old) }
        ensures handed_back { IfErr result (λ e. refused_element e ≡ node) }
        ensures why { IfErr result (RefusedWell (queue_of region self.old)) }
    {
        match self.select_mut(region).push_back(node) {
            Ok(id) => {
                set_access_node(entries, node.entry, Some(id));
                Ok(())
            }
            Err(error) => Err(error),
        }
    }

    /// Appends an entry to the queue in order of writes, and stores the name of the new node in the entry. Returns the entry in `UsedUp` if
    /// the queue has had 2^64 - 1 nodes, and in `OutOfMemory` if there is not enough memory; the nodes and the entries then stay as they
    /// are.
    pub fn push_back_wo(
        &mut self,
        node: KeyHashDate,
        entries: &mut Slab<Slot<K>>,
    ) -> Result<(), PushError<KeyHashDate>>
        ensures pushes { OnOk result (PushesEntry with_write_node CacheRegion.Other node self.old
            self.new entries.old entries.new) }
        ensures had_room { 0 < self.old.write_order.room → IsOk result }
        ensures stays { OnErr result (Changes CacheRegion.Other Stays self.old self.new) }
        ensures entries { OnErr result (entries.new ≡ entries.old) }
        ensures handed_back { IfErr result (λ e. refused_element e ≡ node) }
        ensures why { IfErr result (RefusedWell self.old.write_order) }
    {
        match self.write_order.push_back(node) {
            Ok(id) => {
                set_write_node(entries, node.entry, Some(id));
                Ok(())
            }
            Err(error) => Err(error),
        }
    }

    /// Moves an entry to the back of its region. An entry without a node stays as it is. Returns `Stale` if no queue has the entry's node;
    /// then nothing has changed.
    pub fn move_to_back_ao(&mut self, entry: usize, entries: &Slab<Slot<K>>) -> Result<(), Stale>
        ensures found { IsOk result ↔ HasAccessNode (access_node entries.now entry) self.old }
        ensures moves { OnOk result
            (MovesAccessNode (access_node entries.now entry) self.old self.new) }
        ensures stale { OnErr result (self.new ≡ self.old) }
    {
        match access_node(entries, entry) {
            None => Ok(()),
            Some(id) => self.move_node_ao(id),
        }
    }

    /// Moves a node to the back of its region.
    fn move_node_ao(&mut self, id: NodeId) -> Result<(), Stale>
        ensures found { IsOk result ↔ IsSome (find id (access_nodes id.queue self.old)) }
        ensures moves { OnOk result
            (Changes id.queue (λ before after. MovesToBack before after id) self.old self.new) }
        ensures stale { OnErr result (self.new ≡ self.old) }
    {
        match id.queue {
            CacheRegion::Window => self.window.move_to_back(id),
            CacheRegion::MainProbation => self.probation.move_to_back(id),
            CacheRegion::MainProtected => self.protected.move_to_back(id),
            CacheRegion::Other => Err(Stale),
        }
    }

    /// Moves an entry to the back in order of writes. An entry without a node there stays as it is. Returns `Stale` if the queue does not
    /// have the entry's node; then nothing has changed.
    pub fn move_to_back_wo(&mut self, entry: usize, entries: &Slab<Slot<K>>) -> Result<(), Stale>
        ensures found { IsOk result ↔ HasNode (write_node entries.now entry) self.old.write_order }
        ensures moves { OnOk result (Changes CacheRegion.Other
            (MovesNode (write_node entries.now entry)) self.old self.new) }
        ensures stale { OnErr result (self.new ≡ self.old) }
    {
        move_node(&mut self.write_order, write_node(entries, entry))
    }

    /// Moves an entry to the back of this queue, by its node in order of use. An entry without such a node stays as it is. Returns `Stale`
    /// if the queue does not have the node; then nothing has changed.
    pub fn move_to_back_ao_in_deque(
        queue: &mut Deque<KeyHashDate>,
        entry: usize,
        entries: &Slab<Slot<K>>,
    ) -> Result<(), Stale>
        ensures found { IsOk result ↔ HasNode (access_node entries.now entry) queue.old }
        ensures moves { OnOk result
            (MovesNode (access_node entries.now entry) queue.old queue.new) }
        ensures stale { OnErr result (queue.new ≡ queue.old) }
    {
        move_node(queue, access_node(entries, entry))
    }

    /// Moves an entry to the back of this queue, by its node in order of writes. An entry without such a node stays as it is. Returns
    /// `Stale` if the queue does not have the node; then nothing has changed.
    pub fn move_to_back_wo_in_deque(
        queue: &mut Deque<KeyHashDate>,
        entry: usize,
        entries: &Slab<Slot<K>>,
    ) -> Result<(), Stale>
        ensures found { IsOk result ↔ HasNode (write_node entries.now entry) queue.old }
        ensures moves { OnOk result (MovesNode (write_node entries.now entry) queue.old queue.new) }
        ensures stale { OnErr result (queue.new ≡ queue.old) }
    {
        move_node(queue, write_node(entries, entry))
    }

    /// Removes an entry from its region, and the name of the node from the entry. An entry without a node stays as it is. Returns `Stale`
    /// if no queue has the node; then nothing has changed.
    pub fn unlink_ao(&mut self, entry: usize, entries: &mut Slab<Slot<K>>) -> Result<(), Stale>
        ensures found { IsOk result ↔ HasAccessNode (access_node entries.old entry) self.old }
        ensures leaves { OnOk result
            (LosesAccessNode (access_node entries.old entry) self.old self.new) }
        ensures forgets { OnOk result (entries.new
            ≡ forgets with_access_node entry (access_node entries.old entry) entries.old) }
        ensures stale { OnErr result ((self.new ≡ self.old) × (entries.new ≡ entries.old)) }
    {
        match access_node(entries, entry) {
            None => Ok(()),
            Some(id) => match self.unlink_node_ao(id) {
                Ok(()) => {
                    set_access_node(entries, entry, None);
                    Ok(())
                }
                Err(stale) => Err(stale),
            },
        }
    }

    /// Removes an entry from this queue by its node in order of writes, and the name of that node from the entry. An entry without such a
    /// node stays as it is. Returns `Stale` if the queue does not have the node; then nothing has changed.
    pub fn unlink_wo(
        queue: &mut Deque<KeyHashDate>,
        entry: usize,
        entries: &mut Slab<Slot<K>>,
    ) -> Result<(), Stale>
        ensures found { IsOk result ↔ HasNode (write_node entries.old entry) queue.old }
        ensures leaves { OnOk result
            (LosesNode (write_node entries.old entry) queue.old queue.new) }
        ensures forgets { OnOk result (entries.new
            ≡ forgets with_write_node entry (write_node entries.old entry) entries.old) }
        ensures stale { OnErr result ((queue.new ≡ queue.old) × (entries.new ≡ entries.old)) }
    {
        match write_node(entries, entry) {
            None => Ok(()),
            Some(id) => match queue.unlink_and_drop(id) {
                Ok(()) => {
                    set_write_node(entries, entry, None);
                    Ok(())
                }
                Err(stale) => Err(stale),
            },
        }
    }

    /// Removes an entry from this queue by its node in order of use, and the name of that node from the entry. An entry without such a node
    /// stays as it is. Returns `Stale` if the queue does not have the node; then nothing has changed.
    pub fn unlink_ao_from_deque(
        queue: &mut Deque<KeyHashDate>,
        entry: usize,
        entries: &mut Slab<Slot<K>>,
    ) -> Result<(), Stale>
        ensures found { IsOk result ↔ HasNode (access_node entries.old entry) queue.old }
        ensures leaves { OnOk result
            (LosesNode (access_node entries.old entry) queue.old queue.new) }
        ensures forgets { OnOk result (entries.new
            ≡ forgets with_access_node entry (access_node entries.old entry) entries.old) }
        ensures stale { OnErr result ((queue.new ≡ queue.old) × (entries.new ≡ entries.old)) }
    {
        match access_node(entries, entry) {
            None => Ok(()),
            Some(id) => match queue.unlink_and_drop(id) {
                Ok(()) => {
                    set_access_node(entries, entry, None);
                    Ok(())
                }
                Err(stale) => Err(stale),
            },
        }
    }

    /// Removes a node from its region. What its entry knows of the node is stale from then on. Returns `Stale` if no queue has the node;
    /// then nothing has changed.
    pub fn unlink_node_ao(&mut self, id: NodeId) -> Result<(), Stale>
        ensures found { IsOk result ↔ IsSome (find id (access_nodes id.queue self.old)) }
        ensures leaves { OnOk result
            (Changes id.queue (λ before after. Leaves before after id) self.old self.new) }
        ensures stale { OnErr result (self.new ≡ self.old) }
    {
        match id.queue {
            CacheRegion::Window => self.window.unlink_and_drop(id),
            CacheRegion::MainProbation => self.probation.unlink_and_drop(id),
            CacheRegion::MainProtected => self.protected.unlink_and_drop(id),
            CacheRegion::Other => Err(Stale),
        }
    }

    /// Removes a node from this queue. What its entry knows of the node is stale from then on. Returns `Stale` if the queue does not have
    /// the node; then nothing has changed.
    pub fn unlink_node_wo(queue: &mut Deque<KeyHashDate>, id: NodeId) -> Result<(), Stale>
        ensures found { IsOk result ↔ IsSome (find id queue.old.nodes) }
        ensures leaves { OnOk result (Leaves queue.old queue.new id) }
        ensures stale { OnErr result (queue.new ≡ queue.old) }
    {
        queue.unlink_and_drop(id)
    }
}

/// Moves a node, if there is one, to the back of its queue.
fn move_node(queue: &mut Deque<KeyHashDate>, node: Option<NodeId>) -> Result<(), Stale>
    ensures found { IsOk result ↔ HasNode node queue.old }
    ensures moves { OnOk result (MovesNode node queue.old queue.new) }
    ensures stale { OnErr result (queue.new ≡ queue.old) }
{
    match node {
        None => Ok(()),
        Some(id) => queue.move_to_back(id),
    }
}

/// Combines two refusals: a lack of serials comes before a lack of memory.
fn both(
    first: Result<(), ReserveError>,
    second: Result<(), ReserveError>,
) -> Result<(), ReserveError>
    ensures ok { IsOk result ↔ (IsOk first × IsOk second) }
    ensures used_up { (result ≡ Err ReserveError.UsedUp)
        ↔ ((first ≡ Err ReserveError.UsedUp) ⊎ (second ≡ Err ReserveError.UsedUp)) }
{
    match (first, second) {
        (Err(ReserveError::UsedUp), _) => first,
        (_, Err(ReserveError::UsedUp)) => second,
        (Err(ReserveError::OutOfMemory), _) => first,
        (Ok(()), _) => second,
    }
}

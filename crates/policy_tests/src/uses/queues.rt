//! Queues.
ghost use Rattle.std.specs.Prelude.{◌≡◌, ◌+◌, ◌<◌, ◌≤◌, ◌∷◌, ◌++◌, [], ◌↔◌, IsTrue, IsSome, OnOk, OnErr, map};
ghost use Rattle.policy_queue.specs.Queue.{Stays, find, MovesToBack};
ghost use Rattle.std.specs.Bool.{OnTrue, OnFalse};

use moka_policy::{CacheRegion, Deque, NodeId, ReserveError};
use std::alloc::Global;

/// Puts two elements to the back, both or none: once there is room for two, no push is refused.
fn push_both(queue: &mut Deque<u64>, first: u64, second: u64) -> Result<(), ReserveError>
    ensures pushed { OnOk result (map (λ n. n.element) queue.new.nodes
        ≡ map (λ n. n.element) queue.old.nodes ++ first ∷ second ∷ []) }
    ensures refused { OnErr result (Stays queue.old queue.new) }
{
    queue.reserve(2)?;
    push_reserved(queue, first);
    push_reserved(queue, second);
    Ok(())
}

/// Puts an element to the back of a queue with room.
fn push_reserved(queue: &mut Deque<u64>, element: u64)
    requires { 0 < queue.old.room }
    ensures pushed { map (λ n. n.element) queue.new.nodes ≡ map (λ n. n.element) queue.old.nodes
        ++ element ∷ [] }
    ensures room { queue.old.room ≤ queue.new.room + 1 }
{
    match queue.push_back(element) {
        Ok(_) => {}
        Err(_) => unreachable!(),
    }
}

/// Moves a node to the back if the queue still has it, and returns whether it does.
fn use_again(queue: &mut Deque<u64>, id: NodeId) -> bool
    ensures found { IsTrue result ↔ IsSome (find id queue.old.nodes) }
    ensures moved { OnTrue result (MovesToBack queue.old queue.new id) }
    ensures stale { OnFalse result (queue.new ≡ queue.old) }
{
    queue.move_to_back(id).is_ok()
}

/// Two elements are pushed, and the first is used again while the queue still has it.
fn takes_both(alloc: Global) -> bool {
    let mut queue: Deque<u64> = Deque::new(alloc, CacheRegion::Other);
    if push_both(&mut queue, 3, 4).is_err() {
        return false;
    }
    let Some(first) = queue.peek_front_ptr() else {
        return false;
    };
    use_again(&mut queue, first)
        && queue.pop_front() == Some(4)
        && queue.pop_front() == Some(3)
        && !use_again(&mut queue, first)
}

#[test]
fn pushes_both_or_none(rt: HostRuntime) {
    assert!(rt; takes_both(rt.alloc()) || takes_both(rt.alloc()));
}

//! Queues. A push whose memory is refused is tried once more, and has changed nothing; so the tests
//! pass with any one allocation refused.
use crate::rows::{Stage, Table, first_wrong};
use moka_policy::{CacheRegion, Deque, NodeId, PushError, ReserveError};
use policy_queue::places_of;
use std::alloc::Global;

/// A queue, and the names of its nodes in the order of their pushes.
#[derive(Drop)]
struct Queue {
    deque: Deque<u64>,
    names: Vec<NodeId>,
}

/// What is done with a queue, and what has to come of it. Nodes are named by the number of their
/// push, from 0.
#[derive(Clone, Copy)]
enum Act {
    Push(u64),
    Reserve(usize),
    /// Pushes 0, 1, 2, .. up to that, which is not among them.
    PushUpTo(u64),
    /// A push for which there is room already.
    PushReserved(u64),
    /// So many of them: of 0, 1, 2, ..
    PushReservedUpTo(u64),
    /// Whether there was such a node to move.
    Move(usize, bool),
    /// The nodes 0, 1, 2, .. are there, and are moved one after the other.
    MoveUpTo(usize),
    /// These nodes are there, and are moved one after the other.
    Moves(&'static [usize]),
    /// Whether there was such a node to unlink.
    Unlink(usize, bool),
    /// The first node is moved so often.
    MoveFront(u32),
    Next(Option<u64>),
    Pop(Option<u64>),
    /// Pops 0, 1, 2, .. up to that, which is not among them.
    PopUpTo(u64),
    Front(Option<u64>),
    Back(Option<u64>),
    Len(usize),
    /// A walk gives these.
    Walk(&'static [u64]),
    /// The first element of at least so much.
    FirstFrom(u64, Option<u64>),
    /// The node at a place of the array, if there is one, and nothing behind its end.
    Place(usize, Option<Option<usize>>),
}

fn new_queue(alloc: Global) -> Queue {
    Queue {
        deque: Deque::new(alloc, CacheRegion::Other),
        names: Vec::new(alloc),
    }
}

/// Keeps a name, on the second attempt if memory is refused.
fn keep(names: &mut Vec<NodeId>, name: NodeId) -> bool {
    names.push(name).is_ok() || names.push(name).is_ok()
}

/// How many elements there are, and the last one.
fn seen(deque: &Deque<u64>) -> (usize, Option<u64>) {
    (deque.len(), deque.peek_back().copied())
}

/// Pushes, on the second attempt if memory is refused: then nothing has changed, and the element
/// comes back.
fn push(deque: &mut Deque<u64>, element: u64) -> Option<NodeId> {
    let before = seen(deque);
    match deque.push_back(element) {
        Ok(name) => Some(name),
        Err(PushError::OutOfMemory(back)) => {
            if seen(deque) == before && back == element {
                deque.push_back(back).ok()
            } else {
                None
            }
        }
        Err(PushError::UsedUp(_)) => None,
    }
}

/// Makes room, on the second attempt if memory is refused.
fn reserve(deque: &mut Deque<u64>, n: usize) -> bool {
    match deque.reserve(n) {
        Ok(()) => true,
        Err(ReserveError::OutOfMemory) => deque.reserve(n).is_ok(),
        Err(ReserveError::UsedUp) => false,
    }
}

/// Keeps the name of what was pushed.
fn keep_pushed(names: &mut Vec<NodeId>, pushed: Option<NodeId>) -> bool {
    match pushed {
        Some(name) => keep(names, name),
        None => false,
    }
}

/// Moves the node of that number to the back, and returns whether it was there.
fn move_node(queue: &mut Queue, number: usize) -> bool {
    match queue.names.get(number) {
        Some(name) => queue.deque.move_to_back(*name).is_ok(),
        None => false,
    }
}

/// Unlinks the node of that number, and returns whether it was there.
fn unlink_node(queue: &mut Queue, number: usize) -> bool {
    match queue.names.get(number) {
        Some(name) => queue.deque.unlink_and_drop(*name).is_ok(),
        None => false,
    }
}

/// Pushes within a reservation.
fn push_reserved(queue: &mut Queue, element: u64) -> bool {
    keep_pushed(&mut queue.names, queue.deque.push_back(element).ok())
}

fn push_up_to(queue: &mut Queue, end: u64) -> bool {
    for element in 0..end {
        if !keep_pushed(&mut queue.names, push(&mut queue.deque, element)) {
            return false;
        }
    }
    true
}

fn push_reserved_up_to(queue: &mut Queue, end: u64) -> bool {
    for element in 0..end {
        if !push_reserved(queue, element) {
            return false;
        }
    }
    true
}

fn move_up_to(queue: &mut Queue, end: usize) -> bool {
    for number in 0..end {
        if !move_node(queue, number) {
            return false;
        }
    }
    true
}

fn move_all(queue: &mut Queue, numbers: &[usize]) -> bool {
    for number in numbers {
        if !move_node(queue, *number) {
            return false;
        }
    }
    true
}

/// Whether a walk gives these and no more.
fn walks_so(deque: &mut Deque<u64>, elements: &[u64]) -> bool {
    for element in elements {
        if deque.next().copied() != Some(*element) {
            return false;
        }
    }
    deque.next().is_none()
}

fn move_front(deque: &mut Deque<u64>, times: u32) {
    for _ in 0..times {
        deque.move_front_to_back();
    }
}

fn pop_up_to(deque: &mut Deque<u64>, end: u64) -> bool {
    for element in 0..end {
        if deque.pop_front() != Some(element) {
            return false;
        }
    }
    true
}

/// The number of the node with this slot.
fn number_of(names: &[NodeId], slot: u32) -> Option<usize> {
    names.iter().position(|name| name.slot == slot)
}

/// The number of the node at a place of the array, if there is one; `None` behind its end.
fn number_at(queue: &Queue, place: usize) -> Option<Option<usize>> {
    match places_of(&queue.deque).get(place) {
        Some(slot) => Some(number_of(queue.names.as_slice(), *slot)),
        None => None,
    }
}

/// Changes a queue, and returns whether the result was the expected one.
fn changes_so(queue: &mut Queue, act: Act) -> bool {
    match act {
        Act::Push(element) => keep_pushed(&mut queue.names, push(&mut queue.deque, element)),
        Act::PushUpTo(end) => push_up_to(queue, end),
        Act::Reserve(n) => reserve(&mut queue.deque, n),
        Act::PushReserved(element) => push_reserved(queue, element),
        Act::PushReservedUpTo(end) => push_reserved_up_to(queue, end),
        Act::Move(number, was_there) => move_node(queue, number) == was_there,
        Act::MoveUpTo(end) => move_up_to(queue, end),
        Act::Moves(numbers) => move_all(queue, numbers),
        Act::Unlink(number, was_there) => unlink_node(queue, number) == was_there,
        Act::MoveFront(times) => {
            move_front(&mut queue.deque, times);
            true
        }
        Act::Place(place, wanted) => number_at(queue, place) == wanted,
        act => shows_so(&mut queue.deque, act),
    }
}

/// The first element of at least so much.
fn first_from(deque: &Deque<u64>, least: u64) -> Option<u64> {
    deque.first_where(|element| *element >= least).copied()
}

/// Looks or walks, and returns whether the result was the expected one.
fn shows_so(deque: &mut Deque<u64>, act: Act) -> bool {
    match act {
        Act::Next(wanted) => deque.next().copied() == wanted,
        Act::Pop(wanted) => deque.pop_front() == wanted,
        Act::PopUpTo(end) => pop_up_to(deque, end),
        Act::Front(wanted) => deque.peek_front().copied() == wanted,
        Act::Back(wanted) => deque.peek_back().copied() == wanted,
        Act::Walk(elements) => walks_so(deque, elements),
        Act::Len(wanted) => deque.len() == wanted,
        Act::FirstFrom(least, wanted) => first_from(deque, least) == wanted,
        _ => false,
    }
}

impl Stage<Act> for Queue {
    fn new(alloc: Global) -> Option<Self> {
        Some(new_queue(alloc))
    }

    fn plays(&mut self, act: &Act) -> bool {
        changes_so(self, *act)
    }
}

const TABLES: &[Table<'_, Act>] = &[
    Table {
        name: "a walk goes past nodes that move",
        rows: &[
            Act::Push(0),
            Act::Push(1),
            Act::Push(2),
            Act::Back(Some(2)),
            Act::Next(Some(0)),
            Act::Move(1, true),
            Act::Next(Some(2)),
            Act::Next(Some(1)),
            Act::Next(None),
            Act::Next(Some(0)),
            Act::Back(Some(1)),
        ],
    },
    Table {
        name: "a walk goes past nodes that leave, and a node that left is stale",
        rows: &[
            Act::Push(0),
            Act::Push(1),
            Act::Push(2),
            Act::Next(Some(0)),
            Act::Unlink(1, true),
            Act::Next(Some(2)),
            Act::Next(None),
            Act::Unlink(1, false),
            Act::Move(1, false),
            Act::Len(2),
        ],
    },
    Table {
        name: "two pushes within a reservation",
        rows: &[
            Act::Reserve(2),
            Act::PushReserved(1),
            Act::PushReserved(2),
            Act::Pop(Some(1)),
            Act::Pop(Some(2)),
            Act::Pop(None),
        ],
    },
    Table {
        name: "forty pushes",
        rows: &[Act::PushUpTo(40), Act::PopUpTo(40), Act::Pop(None)],
    },
    Table {
        name: "a thousand nodes are moved ten thousand times",
        rows: &[
            Act::Reserve(1000),
            Act::PushReservedUpTo(1000),
            Act::MoveFront(10000),
            Act::Front(Some(0)),
            Act::Len(1000),
            Act::MoveUpTo(1000),
            Act::Front(Some(0)),
        ],
    },
    Table {
        name: "nodes move, leave and come while empty places are closed up",
        rows: &[
            Act::Reserve(10),
            Act::PushReservedUpTo(10),
            Act::Moves(&[
                1, 3, 5, 0, 6, 5, 5, 7, 7, 6, 1, 1, 1, 1, 6, 9, 3, 0, 7, 4, 8, 1, 4,
            ]),
            Act::Unlink(8, true),
            Act::PushReserved(10),
            Act::Moves(&[5, 3, 10, 10, 9, 2, 10, 2, 1]),
            Act::Unlink(0, true),
            Act::PushReserved(11),
            Act::Moves(&[2, 10, 5, 9, 2, 9, 10]),
            Act::Unlink(7, true),
            Act::PushReserved(12),
            Act::Moves(&[
                3, 9, 6, 11, 1, 9, 9, 9, 2, 6, 6, 12, 4, 3, 6, 5, 12, 10, 11, 9, 2, 5, 1, 12, 9,
            ]),
            Act::Walk(&[4, 3, 6, 10, 11, 2, 5, 1, 12, 9]),
        ],
    },
    Table {
        name: "a move empties one place and takes another",
        rows: &[
            Act::Reserve(4),
            Act::Push(0),
            Act::Push(1),
            Act::Push(2),
            Act::MoveFront(1),
            Act::FirstFrom(0, Some(1)),
            Act::FirstFrom(2, Some(2)),
            Act::FirstFrom(3, None),
            Act::Place(0, Some(None)),
            Act::Place(1, Some(Some(1))),
            Act::Place(2, Some(Some(2))),
            Act::Place(3, Some(Some(0))),
            Act::Place(4, None),
        ],
    },
];

#[test]
fn queues_keep_their_order(rt: HostRuntime) {
    assert_eq!(rt; first_wrong::<Queue, Act>(rt.alloc(), TABLES), None);
}

//! Queues of what is told, in room that is there before it is told. A queue that becomes empty starts again at the first place of its room,
//! so that it touches no more of that room than it ever held at once.
ghost use Rattle.std.specs.Prelude.{◌≡◌, ◌+◌, ◌≤◌, drop, length, slice_get, OnErr, OnOk};
ghost use Rattle.std.specs.VecDeque.{deque_capacity, deque_len};

use std::alloc::AllocError;
use std::collections::VecDeque;
use std::mem;

/// Takes the first item of a queue, or returns `None` if there is none.
pub fn take_first<T>(queue: &mut VecDeque<T>) -> Option<T>
    ensures item { result ≡ slice_get queue.old.items 0 }
    ensures rest { queue.new.items ≡ drop 1 queue.old.items }
    ensures room { deque_capacity queue.new ≡ deque_capacity queue.old }
{
    let first = queue.pop_front()?;
    if queue.is_empty() {
        start_again(queue);
    }
    Some(first)
}

/// Has an empty queue start at the first place of its room.
fn start_again<T>(queue: &mut VecDeque<T>)
    requires { deque_len queue.old ≡ 0 }
    ensures items { queue.new.items ≡ queue.old.items }
    ensures room { deque_capacity queue.new ≡ deque_capacity queue.old }
{
    let nothing = VecDeque::new(*queue.allocator());
    let row = mem::replace(queue, nothing).into_vec();
    mem::replace(queue, VecDeque::from_vec(row)).destroy_empty();
}

/// Makes room for so many more items. What is there at least doubles, where it grows. Returns an error if there is not enough memory; then
/// there is as much room as before.
pub fn make_room<T>(queue: &mut VecDeque<T>, more: usize) -> Result<(), AllocError>
    ensures items { queue.new.items ≡ queue.old.items }
    ensures room { OnOk result (length queue.new.items + more ≤ deque_capacity queue.new) }
    ensures err { OnErr result (deque_capacity queue.new ≡ deque_capacity queue.old) }
{
    if more <= queue.capacity() - queue.len() {
        return Ok(());
    }
    let nothing = VecDeque::new(*queue.allocator());
    let mut row = mem::replace(queue, nothing).into_vec();
    let made = row.reserve(more);
    mem::replace(queue, VecDeque::from_vec(row)).destroy_empty();
    made
}

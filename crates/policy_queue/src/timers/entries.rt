//! What a wheel reads and writes of its entries.
ghost use Rattle.std.specs.Prelude.{◌≡◌, ℕ, Option, Some, None};
ghost use Rattle.policy_queue.specs.Timers.Entries.{due_of, forgotten};

use crate::timers::array::Due;
use policy_base::Slot;
use slab::Slab;

/// When an entry is due, if it is there and has a time.
pub(crate) fn due_of<K>(entries: &Slab<Slot<K>>, entry: usize) -> Option<Due>
    ensures { result ≡ due_of entries.now entry }
{
    match entries.get(entry) {
        None => None,
        Some(slot) => {
            let (time, expiry_gen) = slot.info.expiration_state();
            match time {
                Some(time) => Some(Due { time, expiry_gen }),
                None => None,
            }
        }
    }
}

/// Forgets the timer of an entry.
pub(crate) fn forget_timer<K>(entries: &mut Slab<Slot<K>>, entry: usize)
    ensures { entries.new ≡ forgotten entry entries.old }
{
    if let Some(slot) = entries.get_mut(entry) {
        slot.nodes.timer = None;
    }
}

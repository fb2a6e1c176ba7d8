//! Writes under their tickets.
ghost use Rattle.std.specs.Prelude.{◌≡◌, ◌+◌, ◌<◌, length, vec_len, vec_capacity, remove, slice_get, Some, None, IfSome, IfNone};
ghost use Rattle.engine_pending.specs.Pending.{ticketed_at, without_ticketed};
ghost use Rattle.engine_pending.specs.declared.tickets.Ticketed.{Ticketed};

/// What is kept of a write that was made and not yet sent to maintenance, with its ticket.
#[derive(Drop)]
pub struct Ticketed<W> {
    /// The ticket, under which the write is sent.
    pub ticket: u64,
    /// The write itself.
    pub write: W,
}

/// Returns the index of the write of a ticket, or `None` if no write waits under it.
pub fn place_of_ticket<W>(unsent: &[Ticketed<W>], ticket: u64) -> Option<usize>
    ensures found { IfSome result (λ i. (u : Ticketed W) × (slice_get unsent.now i ≡ Some u)
        × (ticketed_at unsent.now ticket ≡ Some u.write)
        × (without_ticketed ticket unsent.now ≡ remove unsent.now i)) }
    ensures within { IfSome result (λ i. i < length unsent.now) }
    ensures none { IfNone result (ticketed_at unsent.now ticket ≡ None) }
{
    for (i, u) in unsent.iter().enumerate() {
        if u.ticket == ticket {
            return Some(i);
        }
    }
    None
}

/// Removes and returns the write at an index, which must hold one. The other writes keep their order.
pub fn take_ticketed<W>(unsent: &mut Vec<Ticketed<W>>, place: usize) -> Ticketed<W>
    requires { place < vec_len unsent.old }
    ensures item { slice_get unsent.old.items place ≡ Some result }
    ensures rest { unsent.new.items ≡ remove unsent.old.items place }
    ensures len { vec_len unsent.new + 1 ≡ vec_len unsent.old }
    ensures capacity { vec_capacity unsent.new ≡ vec_capacity unsent.old }
{
    if place + 1 < unsent.len() {
        return unsent.remove(place);
    }
    match unsent.pop() {
        Some(last) => last,
        None => unreachable!(),
    }
}

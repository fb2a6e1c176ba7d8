//! Values that say themselves how long they live.
use crate::caches::{Moments, Play, Stage, passes};
use moka_sync::{
    Build, BuildError, Bundle, ByCreation, Cache, CacheBuilder, Env, Lifetime, NoPredicate,
    StdHasher, WeighOne,
};
use std::alloc::Global;
use std::sync::Wait;
use std::time::Duration;

// example: expiry
/// A ticket: its holder, and how long it is valid.
#[derive(Clone, Copy, Debug, PartialEq, Eq, Drop)]
struct Ticket {
    user: u64,
    valid: Duration,
}

/// A ticket lives as long as it is valid.
#[derive(Drop)]
struct Validity;

impl Lifetime<u64, Ticket> for Validity {
    ghost use Rattle.std.specs.Prelude.{Some};
    ghost use Rattle.std.specs.Duration.{as_nanos};

    ghost lifetime = { λ _ _ ticket. Some (as_nanos ticket.valid) };

    fn lifetime(&self, _number: &u64, ticket: &Ticket) -> Option<Duration> {
        Some(ticket.valid)
    }
}

/// The rules of a cache in which tickets live as long as they are valid.
type TicketRules = Bundle<ByCreation<Validity>, WeighOne, NoPredicate, ()>;

/// Tickets by their number.
type Tickets<E> = Cache<u64, Ticket, StdHasher, TicketRules, E>;

/// An empty cache of tickets.
fn make_tickets<E: Env + Drop>(alloc: Global, env: E) -> Result<Tickets<E>, BuildError> {
    CacheBuilder::new(5_000)
        .expire_after(ByCreation(Validity))
        .build(alloc, env)
}
// end

/// A ticket that is valid for some seconds.
fn valid_for(seconds: u64) -> Ticket {
    Ticket {
        user: 5,
        valid: Duration::from_secs(seconds),
    }
}

/// Whether two tickets are kept.
fn are_valid<H: Wait>(rt: &H, tickets: &Tickets<Moments>) -> bool {
    tickets.insert(rt, 1, valid_for(10)).is_ok()
        && tickets.insert(rt, 2, valid_for(20)).is_ok()
        && tickets.contains_key(rt, &1)
}

/// Whether the second of them is left.
fn is_one_left<H: Wait>(rt: &H, tickets: &Tickets<Moments>) -> bool {
    !tickets.contains_key(rt, &1) && tickets.get(rt, &2) == Ok(Some(valid_for(20)))
}

/// Of two tickets one ends first.
struct Ending;

impl<H: Wait> Play<H> for Ending {
    type Cache = Tickets<Moments>;

    fn make(
        &self,
        _rt: &H,
        alloc: Global,
        moments: Moments,
    ) -> Result<Tickets<Moments>, BuildError> {
        make_tickets(alloc, moments)
    }

    fn plays(&self, rt: &H, stage: &Stage<Tickets<Moments>>) -> bool {
        let both = are_valid(rt, &stage.cache);
        stage.dial.set(15_000_000_000);
        both && is_one_left(rt, &stage.cache)
    }
}

#[test]
fn a_ticket_ends_by_itself(rt: HostRuntime) {
    assert!(rt; passes(&rt, rt.alloc(), &Ending));
}

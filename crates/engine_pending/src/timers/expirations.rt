//! Expirations by place.
ghost use Rattle.std.specs.Prelude.{◌≡◌, ◌<◌, ◌≤◌, ℕ, true, [], IfSome, IfNone, Some};
ghost use Rattle.engine_pending.specs.Timers.Awaited.{IsAwaited, IsSet, KeepsOthers};

use crate::timers::firsts::{first_at, place_with};
use crate::timers::places::set;
use policy_base::Instant;
use std::alloc::Global;
use std::marker::Model;

/// When places expire, 9 bytes a place from the first that does. If there was no memory for one, that is remembered.
#[derive(Drop)]
pub struct Expirations {
    // When each place expires, in nanoseconds, or `NEVER`.
    expiries: Vec<u64>,
    // Of the places with others below them, the first expiry of each and all below it.
    firsts: Vec<u64>,
    is_whole: bool,
}

impl Model for Expirations {
    ghost use Rattle.engine_pending.specs.Timers.Awaited.{Awaited};
    ghost use Rattle.engine_pending.specs.Timers.Firsts.{AreFirsts};

    ghost Value = { Awaited };

    ghost view = { λ e. record { timers = e.expiries.items; is_whole = e.is_whole } };

    ghost invariant = { λ e. AreFirsts e.expiries.items e.firsts.items };
}

impl Expirations {
    /// Creates an empty table: no place expires.
    pub fn new(alloc: Global) -> Self
        ensures { result ≡ record { timers = []; is_whole = true } }
    {
        Expirations {
            expiries: Vec::new(alloc),
            firsts: Vec::new(alloc),
            is_whole: true,
        }
    }

    /// Returns whether there was memory for all timers.
    pub fn is_whole(&self) -> bool
        ensures { result ≡ self.now.is_whole }
    {
        self.is_whole
    }

    /// Forgets that there was no memory for some timers. The caller then sets each place again.
    pub fn start_again(&mut self)
        ensures { self.new ≡ record self.old { is_whole = true } }
    {
        self.is_whole = true;
    }

    /// Sets the moment in nanoseconds at which a place expires, or that it does not.
    pub fn set(&mut self, place: usize, time: Option<u64>)
        ensures others { KeepsOthers place self.old.timers self.new.timers }
        ensures set { IsSet self.new place time }
        ensures whole { self.new.is_whole ≡ true → self.old.is_whole ≡ true }
    {
        let is_set = set(&mut self.expiries, &mut self.firsts, place, time);
        self.is_whole = both(self.is_whole, is_set);
    }

    /// Returns the place that expires first, if its timer has come at `now`, or `None`.
    #[tactic(auto, unfolding(crate::specs::Timers::Awaited::IsTimed))]
    pub fn first_due(&self, now: Instant) -> Option<usize>
        ensures found { IfSome result (λ place. IsAwaited self.now place now) }
        ensures none { IfNone result
            ((place time : ℕ) → IsAwaited self.now place time → now < time) }
    {
        let first = first_at(self.expiries.as_slice(), self.firsts.as_slice(), 0);
        if now.as_nanos() < first {
            return None;
        }
        Some(place_with(self.expiries.as_slice(), self.firsts.as_slice(), first))
    }
}

/// Whether both are so.
fn both(first: bool, second: bool) -> bool
    ensures first { result ≡ true → first ≡ true }
    ensures second { result ≡ true → second ≡ true }
{
    first && second
}

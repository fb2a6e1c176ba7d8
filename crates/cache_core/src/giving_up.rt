//! A give-up: each `LOAD` that waits for the load runs again, followed by its connection's lines.
ghost use Rattle.std.specs.Prelude.{◌≡◌, ◌+◌, true, is_some, OnOk, OnErr};
ghost use Rattle.std.specs.Option.{option_map};
ghost use Rattle.audit_model.specs.Places.{tasks_to_give_up};
ghost use Rattle.cache_core.specs.Rooms.{lines_for};
ghost use Rattle.cache_core.specs.Settled.{IsAmid};
ghost use Rattle.cache_core.specs.Settling.{AreWaiting, HandsOut, waiting_on};
ghost use Rattle.cache_lines.specs.Waiting.{under_way};
ghost use Rattle.cache_commands.specs.Loads.Pending.{SameTaken, load_numbered, loads_pending};
ghost use Rattle.cache_lines.specs.Tape.Taped.{IsAtRest, started};

use crate::interior::Interior;
use cache_commands::Store;
use cache_lines::{Base, Tape};
use std::alloc::AllocError;

/// Begins the record of a give-up, with room to answer each `LOAD` that waits for good, and to hold back a line behind it. Returns an error
/// if there is not enough memory; then there is no record.
pub fn begin_give_up<S: Store, T: Tape>(base: &mut Base<S, T>, load: u64) -> Result<(), AllocError>
    requires rests { IsAtRest (T.view base.old.tape) }
    requires under { is_some (load_numbered load (loads_pending base.old.loads)) ≡ true }
    ensures begun { OnOk result (T.view base.new.tape
        ≡ option_map (started (lines_for load (under_way base.old.loads))) (T.view base.old.tape)) }
    ensures rest { base.new ≡ record base.old { tape = base.new.tape } }
    ensures unchanged { OnErr result (base.new.tape ≡ base.old.tape) }
    ensures kept { OnErr result (is_some (T.view base.old.tape) ≡ true) }
{
    let Some(found) = base.loads.get(load) else {
        unreachable!();
    };
    let count = found.waiting.len();
    base.tape.start(count + count)
}

impl<S: Store, T: Tape> Interior<S, T> {
    /// Removes the load. The connections that wait for it run their `LOAD`s again.
    pub fn settle_give_up(&mut self, now: u64, load: u64)
        requires amid { IsAmid S.view T.view now self.old.base self.old.connections (lines_for load
            (under_way self.old.base.loads)) }
        requires under { is_some (load_numbered load (loads_pending self.old.base.loads)) ≡ true }
        requires waits { AreWaiting (S.view self.old.base.store).frame.config self.old.connections
            (waiting_on load (under_way self.old.base.loads)) }
        ensures ran { HandsOut S.view T.view now load self.old.base self.new.base
            self.old.connections self.new.connections tasks_to_give_up }
        ensures goes { SameTaken self.old.base.loads self.new.base.loads }
    {
        let Some(settled) = self.base.loads.settle(load) else {
            unreachable!();
        };
        self.give_up_all(now, settled.waiting.as_slice());
    }
}

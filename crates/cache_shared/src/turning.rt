//! Turns: an intake, and everything that its connection is owed afterwards, in one hold of the lock.
ghost use Rattle.std.specs.Prelude.{◌≡◌, ◌-◌, ◌^◌, IfOk, IfErr, OnErr};
ghost use Rattle.cache_shared.specs.Events.{RefusesStep, TakesNothing};
ghost use Rattle.cache_shared.specs.Intakes.{input_in};
ghost use Rattle.cache_shared.specs.Looked.{HeldAtSomeMoment, Owes, WereMoved};
ghost use Rattle.cache_shared.specs.Seats.{Counts, SameReceipts};
ghost use Rattle.cache_shared.specs.Taken.{MovesAll, MovesOldest, TakesInputWhole};
ghost use Rattle.cache_spaces.specs.Calls.{Refuses};

use crate::booked::BookedService;
use crate::intake::{Intake, IntakeError};
use crate::seat::{Seat, Seating};
use crate::shareable::Shareable;
use audit_model::{Conn, Note, ServiceError};
use cache_spaces::{Output, Owed};
use std::alloc::Global;

/// The result of a turn.
#[derive(Drop)]
pub struct Turn {
    /// The output of what was taken in.
    pub output: Output,
    /// What the connection is owed afterwards.
    pub owed: Owed,
}

impl<L: Seating, C: Shareable> BookedService<L, C> {
    /// Returns what a connection is owed, and appends its namespace's oldest notes, as many as there is room for, moved out; nothing if the
    /// connection is unknown.
    pub fn take_owed(&mut self, conn: Conn, wants_loads: bool, notes: &mut Vec<Note>) -> Owed
        ensures all { MovesAll C.spaces C.untaken C.untold self.old.core self.new.core conn
            wants_loads result notes.old.items notes.new.items }
        ensures owed { Owes L.configs C.spaces C.untaken conn wants_loads result }
        ensures moved { WereMoved L.configs C.spaces C.untold conn.namespace notes.old.items
            notes.new.items }
    {
        let owed = self.core.owed(conn, wants_loads);
        // Notes that are not taken for lack of memory stay.
        let _ = self.take_notices(conn.namespace, notes);
        match owed {
            Ok(owed) => owed,
            Err(_) => Owed {
                replies: None,
                loads: None,
                closing: None,
                waits: false,
            },
        }
    }

    /// Appends the oldest notes of a namespace that were reported and not taken, moved out, as many as there is room for. Returns
    /// `NoNamespace` if there is no such namespace, and `OutOfMemory` if the service copies notes and has no memory for a copy: the notes
    /// before that one are then taken.
    pub fn take_notices(
        &mut self,
        namespace: u64,
        notes: &mut Vec<Note>,
    ) -> Result<(), ServiceError>
        ensures all { MovesOldest C.spaces C.untaken C.untold self.old.core self.new.core namespace
            result notes.old notes.new }
        ensures refused { IfErr result (λ e. HeldAtSomeMoment L.configs C.spaces
            (λ spaces. Refuses spaces namespace e (λ space. e ≡ ServiceError.OutOfMemory))) }
    {
        let room = notes.capacity() - notes.len();
        for _place in 0..room {
            match self.core.next_notice(namespace)? {
                Some(note) => notes.push_reserved(note),
                None => return Ok(()),
            }
        }
        Ok(())
    }
}

//! An answer: its value is stored, the waiting connections receive its outcome, and then their lines run.
ghost use Rattle.std.specs.Prelude.{◌≡◌, ◌+◌, ◌≤◌, ◌++◌, [], None, true, is_some, length, map, IfOk, OnOk, OnErr, vec_capacity, if◌then◌else◌};
ghost use Rattle.audit_model.specs.Belongs.{refusal_of_outcome};
ghost use Rattle.audit_model.specs.Replies.{outcome_text};
ghost use Rattle.audit_model.specs.Steps.{Deliver, RunLines};
ghost use Rattle.cache_core.specs.Fed.{BaseStays};
ghost use Rattle.cache_core.specs.Rooms.{lines_for};
ghost use Rattle.cache_core.specs.Settled.{IsAmid};
ghost use Rattle.cache_core.specs.Settling.{AllLookAsBefore, AreWaiting, BeginsAnswer, CanSettle, HandsOut, HaveReplyRoom, StoresNoted, waiting_on};
ghost use Rattle.cache_lines.specs.Waiting.{under_way};
ghost use Rattle.cache_commands.specs.Loads.Pending.{SameTaken, load_numbered, loads_pending};
ghost use Rattle.cache_commands.specs.Values.{IsMoment};

use crate::interior::Interior;
use crate::reserving::reserve_all;
use audit_model::{Accepted, Note, Outcome};
use cache_commands::{Keyed, Store};
use cache_lines::{Tape, drain, most_notes};
use std::alloc::{AllocError, Global};

/// What an answer's own step did.
#[derive(Drop)]
pub struct Stored {
    /// The part that took the value, if one did.
    pub accepted: Option<Accepted>,
    /// The notes that storing the value reported, if records are kept.
    pub notes: Vec<Note>,
}

/// How many bytes the reply to a waiting `LOAD` with this outcome has.
fn reply_len(outcome: &Outcome) -> usize
    requires { length (outcome_text outcome.now) ≤ 8202 }
    ensures { result ≡ length (outcome_text outcome.now) }
{
    match outcome {
        Outcome::Value(bytes, _) => bytes.len() + 5,
        Outcome::None => 5,
        Outcome::Fault(text) => text.len() + 10,
    }
}

/// Room for the notes of an answer's own step, if records are kept.
fn notes_where<S: Store>(
    alloc: Global,
    store: &Keyed<S>,
    keeps: bool,
) -> Result<Vec<Note>, AllocError>
    ensures empty { IfOk result (λ notes. notes.items ≡ []) }
    ensures room { IfOk result
        (λ notes. keeps ≡ true → (S.view store.now).count + 1 ≤ vec_capacity notes) }
{
    if !keeps {
        return Ok(Vec::new(alloc));
    }
    Vec::with_capacity(alloc, most_notes(store))
}

/// Stores an answer's value under its load's key, and returns which part took it; what this reported is taken if records are kept, and
/// there is room for it. An `Err` changes nothing; a number that is used up counts as a lack of memory.
fn store_noted<S: Store>(
    store: &mut Keyed<S>,
    keeps: bool,
    key: &[u8],
    outcome: &Outcome,
    now: u64,
    notes: &mut Vec<Note>,
) -> Result<Option<Accepted>, AllocError>
    requires in_time { IsMoment (S.view store.old) now }
    requires fit { refusal_of_outcome (S.view store.old).frame.config outcome.now ≡ None }
    requires room { keeps ≡ true → (length (S.view store.old).untaken + (S.view store.old).count + 1
        ≤ vec_capacity notes.old) × (notes.old.items ≡ []) }
    ensures stored { IfOk result (λ accepted. StoresNoted S.view keeps now key.now outcome.now
        accepted notes.new.items store.old store.new) }
    ensures unchanged { OnErr result (store.new ≡ store.old) }
{
    let Ok(accepted) = store.store_outcome(key, outcome, now) else {
        return Err(AllocError);
    };
    if keeps {
        drain(store, notes);
        return Ok(accepted);
    }
    Ok(accepted)
}

impl<S: Store, T: Tape> Interior<S, T> {
    /// Makes room for all that an answer cannot do without, stores its value under the load's key, and begins its record. Returns an error
    /// if there is not enough memory.
    pub fn begin_answer(
        &mut self,
        alloc: Global,
        now: u64,
        load: u64,
        outcome: &Outcome,
    ) -> Result<Stored, AllocError>
        requires can_settle { CanSettle S.view T.view now self.old.base }
        requires fit { refusal_of_outcome (S.view self.old.base.store).frame.config outcome.now
            ≡ None }
        requires under { is_some (load_numbered load (loads_pending self.old.base.loads)) ≡ true }
        ensures begins { IfOk result (λ stored. BeginsAnswer S.view T.view now load outcome.now
            stored.accepted stored.notes.items (lines_for load (under_way self.old.base.loads))
            self.old.base self.new.base) }
        ensures same { AllLookAsBefore self.old.connections self.new.connections }
        ensures room { OnOk result (HaveReplyRoom self.new.connections
            (length (outcome_text outcome.now)) (waiting_on load (under_way self.old.base.loads))) }
        ensures unchanged { OnErr result (BaseStays self.old.base self.new.base) }
    {
        let Some(found) = self.base.loads.get(load) else {
            unreachable!();
        };
        let waiting = found.waiting.as_slice();
        reserve_all(&mut self.connections, waiting, reply_len(outcome))?;
        let keeps = self.base.tape.keeps();
        let mut notes = notes_where(alloc, &self.base.store, keeps)?;
        let count = waiting.len();
        self.base.tape.start(count + count)?;
        match store_noted(
            &mut self.base.store,
            keeps,
            found.key.as_slice(),
            outcome,
            now,
            &mut notes,
        ) {
            Ok(accepted) => Ok(Stored { accepted, notes }),
            Err(error) => {
                self.base.tape.abandon();
                Err(error)
            }
        }
    }

    /// Removes the load whose answer was stored: its outcome is delivered to those that wait for it, in order, and then their lines run in
    /// the same order.
    pub fn hand_out(&mut self, now: u64, load: u64, outcome: &Outcome)
        requires amid { IsAmid S.view T.view now self.old.base self.old.connections (lines_for load
            (under_way self.old.base.loads)) }
        requires under { is_some (load_numbered load (loads_pending self.old.base.loads)) ≡ true }
        requires waits { AreWaiting (S.view self.old.base.store).frame.config self.old.connections
            (waiting_on load (under_way self.old.base.loads)) }
        requires room { HaveReplyRoom self.old.connections (length (outcome_text outcome.now))
            (waiting_on load (under_way self.old.base.loads)) }
        ensures out { HandsOut S.view T.view now load self.old.base self.new.base
            self.old.connections self.new.connections (λ numbers. map (λ conn. Deliver conn
            outcome.now) numbers ++ map RunLines numbers) }
        ensures goes { SameTaken self.old.base.loads self.new.base.loads }
    {
        let Some(settled) = self.base.loads.settle(load) else {
            unreachable!();
        };
        let waiting = settled.waiting.as_slice();
        self.tell_all(waiting, outcome);
        self.resume_all(now, waiting);
    }
}

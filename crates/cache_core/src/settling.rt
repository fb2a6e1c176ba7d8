//! The connections that waited for a load that is settled: each receives its outcome, or runs its `LOAD` again, and then its lines run.
ghost use Rattle.std.specs.Prelude.{◌≡◌, ◌+◌, ◌<◌, ◌≤◌, ◌∷◌, ℕ, [], Some, true, length, map, suc};
ghost use Rattle.std.specs.List.{slice_get};
ghost use Rattle.audit_model.specs.Places.{tasks_to_give_up};
ghost use Rattle.audit_model.specs.Replies.{outcome_text};
ghost use Rattle.audit_model.specs.Steps.{Deliver, RunAgain, RunLines};
ghost use Rattle.cache_core.specs.Fed.{seen_at};
ghost use Rattle.cache_core.specs.Settled.{HasSpareFor, IsAmid, Parts};
ghost use Rattle.cache_core.specs.Settling.{AreThere, AreWaiting, CanBeTold, HaveReplyRoom, IsWaitingAt, LeavesOthers, LeavesRest, ResumesAt, runs_at, runs_with};
ghost use Rattle.cache_lines.specs.Bases.{CanRun};
ghost use Rattle.cache_lines.specs.Ended.{spare_of};
ghost use Rattle.cache_commands.specs.Loads.Pending.{SameTaken};

use crate::connection::{Connection, deliver, feed_ready, run_again};
use crate::connections::Connections;
use crate::interior::Interior;
use crate::places::{leave_closed, number_at};
use audit_model::Outcome;
use cache_commands::{Standing, Store};
use cache_lines::Tape;

/// Whether the connection at a place is open and runs lines.
fn runs_there(connections: &Connections, index: usize) -> bool
    requires { index < length connections.now }
    ensures { result ≡ runs_at (slice_get connections.now index) }
{
    match connections.get(index) {
        Some(connection) => connection.closing.is_none()
            && matches!(connection.standing, Standing::Ready),
        None => false,
    }
}

impl<S: Store, T: Tape> Interior<S, T> {
    /// Runs the lines of the connection at a place, which is open and runs lines.
    fn resume_there(&mut self, now: u64, index: usize)
        requires can_run { CanRun now (seen_at S.view T.view self.old.base self.old.connections
            index) }
        requires inside { index < length self.old.connections }
        requires runs { runs_at (slice_get self.old.connections index) ≡ true }
        ensures ran { ResumesAt S.view T.view now index self.old.base self.new.base
            self.old.connections self.new.connections }
        ensures spare { spare_of (T.view self.old.base.tape) ≤ spare_of (T.view self.new.base.tape)
            + 1 }
        ensures goes { SameTaken self.old.base.loads self.new.base.loads }
    {
        let number = number_at(&self.connections, index);
        let mut connection = self.connections.take(index);
        feed_ready(&mut self.base, now, number, &mut connection, &[]);
        self.connections.put(index, connection);
    }

    /// Runs the lines of the connection at an index, if it is open and runs lines.
    pub fn resume_at(&mut self, now: u64, index: usize)
        requires amid { IsAmid S.view T.view now self.old.base self.old.connections 1 }
        requires inside { index < length self.old.connections }
        ensures ran { Parts S.view T.view now self.old.base self.new.base self.old.connections
            self.new.connections (RunLines (index + 1) ∷ []) }
        ensures amid { (lines : ℕ) → IsAmid S.view T.view now self.old.base self.old.connections
            (suc lines) → IsAmid S.view T.view now self.new.base self.new.connections lines }
        ensures others { LeavesOthers self.old.connections self.new.connections index }
        ensures goes { SameTaken self.old.base.loads self.new.base.loads }
    {
        self.base.store.sound();
        if !runs_there(&self.connections, index) {
            return;
        }
        self.resume_there(now, index);
        let number = number_at(&self.connections, index);
        leave_closed(&mut self.base.loads, number, &self.connections, index);
    }

    /// Hands the outcome to the connection at a place, whose `LOAD` waits, in reserved room.
    fn tell_at(&mut self, index: usize, outcome: &Outcome)
        requires spare { HasSpareFor 1 (T.view self.old.base.tape) }
        requires inside { index < length self.old.connections }
        requires can_be_told { CanBeTold (S.view self.old.base.store).frame.config
            self.old.connections outcome.now index }
        ensures ran { (now : ℕ) → IsAmid S.view T.view now self.old.base self.old.connections 1
            → Parts S.view T.view now self.old.base self.new.base self.old.connections
            self.new.connections (Deliver (index + 1) outcome.now ∷ []) }
        ensures amid { (now lines : ℕ) → IsAmid S.view T.view now self.old.base
            self.old.connections (suc lines)
            → IsAmid S.view T.view now self.new.base self.new.connections lines }
        ensures spare { (lines : ℕ) → HasSpareFor (suc lines) (T.view self.old.base.tape)
            → HasSpareFor lines (T.view self.new.base.tape) }
        ensures rest { LeavesRest self.old.base self.new.base self.old.connections
            self.new.connections index }
    {
        self.base.store.sound();
        let number = number_at(&self.connections, index);
        let mut connection = self.connections.take(index);
        deliver(&mut self.base, number, &mut connection, outcome);
        self.connections.put(index, connection);
    }

    /// Runs the waiting `LOAD` of the connection at a place again.
    fn again_at(&mut self, now: u64, index: usize)
        requires amid { IsAmid S.view T.view now self.old.base self.old.connections 1 }
        requires inside { index < length self.old.connections }
        requires waits { IsWaitingAt (S.view self.old.base.store).frame.config self.old.connections
            (index + 1) }
        ensures ran { Parts S.view T.view now self.old.base self.new.base self.old.connections
            self.new.connections (RunAgain (index + 1) ∷ []) }
        ensures amid { (lines : ℕ) → IsAmid S.view T.view now self.old.base self.old.connections
            (suc lines) → IsAmid S.view T.view now self.new.base self.new.connections lines }
        ensures others { LeavesOthers self.old.connections self.new.connections index }
        ensures goes { SameTaken self.old.base.loads self.new.base.loads }
    {
        self.base.store.sound();
        let number = number_at(&self.connections, index);
        let mut connection = self.connections.take(index);
        run_again(&mut self.base, now, number, &mut connection);
        self.connections.put(index, connection);
    }

    /// Runs the waiting `LOAD` of the connection at a place again, and then its lines.
    fn give_up_at(&mut self, now: u64, index: usize)
        requires amid { IsAmid S.view T.view now self.old.base self.old.connections 2 }
        requires inside { index < length self.old.connections }
        requires waits { IsWaitingAt (S.view self.old.base.store).frame.config self.old.connections
            (index + 1) }
        ensures ran { Parts S.view T.view now self.old.base self.new.base self.old.connections
            self.new.connections (RunAgain (index + 1) ∷ RunLines (index + 1) ∷ []) }
        ensures amid { (lines : ℕ) → IsAmid S.view T.view now self.old.base self.old.connections
            (suc (suc lines)) → IsAmid S.view T.view now self.new.base self.new.connections lines }
        ensures others { LeavesOthers self.old.connections self.new.connections index }
        ensures goes { SameTaken self.old.base.loads self.new.base.loads }
    {
        self.again_at(now, index);
        self.resume_at(now, index);
    }

    /// Hands the outcome to those connections, one after another, whose `LOAD`s wait. Each runs lines then. There is room for each reply.
    pub fn tell_all(&mut self, waiting: &[u64], outcome: &Outcome)
        requires spare { HasSpareFor (length waiting.now) (T.view self.old.base.tape) }
        requires waits { AreWaiting (S.view self.old.base.store).frame.config self.old.connections
            waiting.now }
        requires room { HaveReplyRoom self.old.connections (length (outcome_text outcome.now))
            waiting.now }
        ensures ran { (now : ℕ) → IsAmid S.view T.view now self.old.base self.old.connections
            (length waiting.now) → Parts S.view T.view now self.old.base self.new.base
            self.old.connections self.new.connections
            (map (λ conn. Deliver conn outcome.now) waiting.now) }
        ensures amid { (now lines : ℕ) → IsAmid S.view T.view now self.old.base
            self.old.connections (length waiting.now + lines)
            → IsAmid S.view T.view now self.new.base self.new.connections lines }
        ensures count { length self.new.connections ≡ length self.old.connections }
        ensures goes { SameTaken self.old.base.loads self.new.base.loads }
    {
        for number in waiting {
            let index = (*number - 1) as usize;
            self.tell_at(index, outcome);
        }
    }

    /// Runs the lines of those connections, one after another, as far as they are open and run lines.
    pub fn resume_all(&mut self, now: u64, waiting: &[u64])
        requires amid { IsAmid S.view T.view now self.old.base self.old.connections
            (length waiting.now) }
        requires inside { AreThere self.old.connections waiting.now }
        ensures ran { Parts S.view T.view now self.old.base self.new.base self.old.connections
            self.new.connections (map RunLines waiting.now) }
        ensures goes { SameTaken self.old.base.loads self.new.base.loads }
    {
        for number in waiting {
            let index = (*number - 1) as usize;
            self.resume_at(now, index);
        }
    }

    /// Runs the waiting `LOAD`s of those connections again, one after another, each followed by its connection's lines.
    pub fn give_up_all(&mut self, now: u64, waiting: &[u64])
        requires amid { IsAmid S.view T.view now self.old.base self.old.connections
            (length waiting.now + length waiting.now) }
        requires waits { AreWaiting (S.view self.old.base.store).frame.config self.old.connections
            waiting.now }
        ensures ran { Parts S.view T.view now self.old.base self.new.base
            self.old.connections self.new.connections (tasks_to_give_up waiting.now) }
        ensures goes { SameTaken self.old.base.loads self.new.base.loads }
    {
        for number in waiting {
            let index = (*number - 1) as usize;
            self.give_up_at(now, index);
        }
    }
}

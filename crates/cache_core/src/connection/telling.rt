//! A waiting `LOAD` that receives its load's outcome.
ghost use Rattle.std.specs.Prelude.{◌≡◌, ◌+◌, ◌≤◌, ℕ, None, length, suc, vec_len, vec_capacity};
ghost use Rattle.audit_model.specs.Replies.{outcome_text};
ghost use Rattle.audit_model.specs.Steps.{Deliver};
ghost use Rattle.cache_core.specs.Connection.Fed.{AwaitsLoad, IsReplied, StepRan, seen_by};
ghost use Rattle.cache_core.specs.Settled.{HasSpareFor};
ghost use Rattle.cache_lines.specs.Bases.{CanRun};
ghost use Rattle.cache_lines.specs.Ended.{spare_of};
ghost use Rattle.cache_commands.specs.declared.loads.standing.Standing.TheVariants as stands;
ghost use Rattle.cache_lines.specs.Tape.Taped.{HasSpare};

use crate::connection::again::{first_line, pass_line};
use crate::connection::connection::Connection;
use audit_model::Outcome;
use cache_commands::{Standing, Store, write_outcome};
use cache_lines::{Base, Tape};

/// Replies to the waiting `LOAD` of a connection with the outcome, in reserved room.
fn reply_with<T: Tape>(tape: &mut T, number: u64, connection: &mut Connection, outcome: &Outcome)
    requires spare { HasSpare (T.view tape.old) }
    requires waits { connection.old.standing ≡ stands.Waiting }
    requires open { connection.old.closing ≡ None }
    requires room { vec_len connection.old.output.text + length (outcome_text outcome.now)
        ≤ vec_capacity connection.old.output.text }
    ensures { IsReplied (outcome_text outcome.now) number (T.view tape.old) (T.view tape.new)
        connection.old connection.new }
{
    write_outcome(outcome, &mut connection.output.text);
    tape.say(
        number,
        first_line(&connection.unread),
        &mut connection.output.text,
    );
    pass_line(&mut connection.unread);
    connection.standing = Standing::Ready;
    connection.waited = 0;
}

/// Appends the outcome to the replies of an open connection whose `LOAD` waits, in one step and in reserved room. The connection runs lines
/// then.
pub fn deliver<S: Store, T: Tape>(
    base: &mut Base<S, T>,
    number: u64,
    connection: &mut Connection,
    outcome: &Outcome,
)
    requires spare { HasSpare (T.view base.old.tape) }
    requires waits { AwaitsLoad (S.view base.old.store).frame.config connection.old }
    requires room { vec_len connection.old.output.text + length (outcome_text outcome.now)
        ≤ vec_capacity connection.old.output.text }
    ensures ran { (now : ℕ) → CanRun now (seen_by S.view T.view base.old connection.old)
        → StepRan now number (Deliver number outcome.now) connection.old connection.new
        (seen_by S.view T.view base.old connection.old)
        (seen_by S.view T.view base.new connection.new) }
    ensures spare { spare_of (T.view base.old.tape) ≤ spare_of (T.view base.new.tape) + 1 }
    ensures further { (lines : ℕ) → HasSpareFor (suc lines) (T.view base.old.tape)
        → HasSpareFor lines (T.view base.new.tape) }
    ensures rest { base.new ≡ record base.old { tape = base.new.tape } }
{
    base.store.sound();
    reply_with(&mut base.tape, number, connection, outcome);
}

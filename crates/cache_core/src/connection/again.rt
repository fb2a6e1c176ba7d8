//! A given-up `LOAD` that runs again as a whole command.
ghost use Rattle.std.specs.Prelude.{◌≡◌, ◌+◌, ◌<◌, ◌≤◌, None, true, IsTrue, codes, length};
ghost use Rattle.audit_model.specs.Grammar.{reading};
ghost use Rattle.audit_model.specs.Steps.{RunAgain};
ghost use Rattle.audit_model.specs.Stream.{behind_lines};
ghost use Rattle.cache_core.specs.Connection.Fed.{IsReplied, StepRan, seen_by};
ghost use Rattle.cache_lines.specs.Bases.{CanRun};
ghost use Rattle.cache_lines.specs.Ended.{spare_of};
ghost use Rattle.cache_lines.specs.Waiting.{is_load};
ghost use Rattle.cache_lines.specs.Whole.{has_line, held_line};
ghost use Rattle.cache_commands.specs.Loads.Pending.{SameTaken};
ghost use Rattle.cache_commands.specs.declared.loads.standing.Standing.TheVariants as stands;
ghost use Rattle.cache_lines.specs.Tape.Taped.{HasSpare};

use crate::connection::connection::Connection;
use audit_lines::{Buffer, Next};
use cache_commands::{Standing, Store, write_abandoned};
use cache_lines::{Base, LineOutcome, Tape, run_line};

/// How often a `LOAD` may wait.
const MAX_WAITS: u64 = 200;

/// Returns the first line.
pub fn first_line(unread: &Buffer) -> &[u8]
    requires { IsTrue (has_line unread.now.bytes) }
    ensures line { result.now ≡ held_line unread.now.bytes }
    ensures short { length result.now ≤ 8192 }
{
    let Next::Line(len) = unread.next() else {
        unreachable!();
    };
    unread.line(len)
}

/// Removes the first line.
pub fn pass_line(unread: &mut Buffer)
    requires { IsTrue (has_line unread.old.bytes) }
    ensures bytes { unread.new.bytes ≡ behind_lines 1 unread.old.bytes }
    ensures room { unread.new.room ≡ unread.old.room }
{
    let Next::Line(len) = unread.next() else {
        unreachable!();
    };
    unread.skip(len);
}

/// Replies to the waiting `LOAD` of a connection that was given up for the last time, in reserved room.
fn abandon_load<T: Tape>(tape: &mut T, number: u64, connection: &mut Connection)
    requires spare { HasSpare (T.view tape.old) }
    requires waits { connection.old.standing ≡ stands.Waiting }
    requires open { connection.old.closing ≡ None }
    ensures { IsReplied (codes "ERR abandoned\n") number (T.view tape.old) (T.view tape.new)
        connection.old connection.new }
{
    write_abandoned(&mut connection.output.text);
    tape.say(
        number,
        first_line(&connection.unread),
        &mut connection.output.text,
    );
    pass_line(&mut connection.unread);
    connection.standing = Standing::Ready;
    connection.waited = 0;
}

/// Runs the waiting `LOAD` of an open connection again, which began to wait fewer than 200 times.
fn load_again<S: Store, T: Tape>(
    base: &mut Base<S, T>,
    now: u64,
    number: u64,
    connection: &mut Connection,
)
    requires can_run { CanRun now (seen_by S.view T.view base.old connection.old) }
    requires waits { connection.old.standing ≡ stands.Waiting }
    requires open { connection.old.closing ≡ None }
    requires load { is_load
        (reading (S.view base.old.store).frame.config (held_line connection.old.unread.bytes))
        ≡ true }
    requires few { connection.old.waited < 200 }
    ensures ran { StepRan now number (RunAgain number) connection.old
        connection.new (seen_by S.view T.view base.old connection.old)
        (seen_by S.view T.view base.new connection.new) }
    ensures spare { spare_of (T.view base.old.tape) ≤ spare_of (T.view base.new.tape) + 1 }
    ensures goes { SameTaken base.old.loads base.new.loads }
{
    base.store.sound();
    let line = first_line(&connection.unread);
    match run_line(base, now, number, line, &mut connection.output) {
        Ok(LineOutcome::Stays) => {
            pass_line(&mut connection.unread);
            connection.standing = Standing::Ready;
            connection.waited = 0;
        }
        Ok(LineOutcome::Quits) => {
            pass_line(&mut connection.unread);
            connection.standing = Standing::Ready;
            connection.waited = 0;
        }
        Ok(LineOutcome::Waits) => connection.waited += 1,
        Err(_) => {
            base.tape.hold(number, line);
            connection.standing = Standing::Held;
        }
    }
}

/// Runs the waiting `LOAD` of an open connection again, in one step; at its 200th give-up it is abandoned. The call allocates nothing that
/// it cannot do without.
pub fn run_again<S: Store, T: Tape>(
    base: &mut Base<S, T>,
    now: u64,
    number: u64,
    connection: &mut Connection,
)
    requires can_run { CanRun now (seen_by S.view T.view base.old connection.old) }
    requires waits { connection.old.standing ≡ stands.Waiting }
    requires open { connection.old.closing ≡ None }
    requires load { is_load
        (reading (S.view base.old.store).frame.config (held_line connection.old.unread.bytes))
        ≡ true }
    ensures ran { StepRan now number (RunAgain number) connection.old
        connection.new (seen_by S.view T.view base.old connection.old)
        (seen_by S.view T.view base.new connection.new) }
    ensures spare { spare_of (T.view base.old.tape) ≤ spare_of (T.view base.new.tape) + 1 }
    ensures goes { SameTaken base.old.loads base.new.loads }
{
    if connection.waited < MAX_WAITS {
        load_again(base, now, number, connection);
    } else {
        base.store.sound();
        abandon_load(&mut base.tape, number, connection);
    }
}

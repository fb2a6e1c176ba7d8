//! A piece of a connection's bytes.
ghost use Rattle.std.specs.Prelude.{◌≡◌, ℕ, ◌+◌, ◌≤◌, List, ◌++◌, ◌||◌, not, None, true, false, length, IsTrue, IfOk, OnErr};
ghost use Rattle.audit_model.specs.Situation.{HeldValue, Situation};
ghost use Rattle.cache_core.specs.Connection.Fed.{FedOver, LinesLeft, LooksAsBefore, unread_behind};
ghost use Rattle.cache_core.specs.Connection.Fits.{ClosesFor};
ghost use Rattle.cache_core.specs.Connection.Parts.{waiting_before};
ghost use Rattle.cache_core.specs.Connection.Shown.{put_in};
ghost use Rattle.cache_lines.specs.Bases.{CanRun, LooksSame, seen_on};
ghost use Rattle.cache_lines.specs.Ended.{spare_of};
ghost use Rattle.cache_lines.specs.Lines.{set_in};
ghost use Rattle.cache_lines.specs.Outputs.{IsRoomy};
ghost use Rattle.cache_lines.specs.Whole.{has_line};
ghost use Rattle.cache_commands.specs.Loads.Pending.{SameTaken};
ghost use Rattle.cache_commands.specs.Loads.Standings.{holds_line, keeps_line, waits_for_load};
ghost use Rattle.cache_commands.specs.declared.loads.standing.Standing.TheVariants as now_is;

use crate::connection::again::{first_line, pass_line};
use crate::connection::connection::Connection;
use crate::connection::standing::{ended_closing, ended_standing, ended_times};
use audit_lines::Buffer;
use audit_model::Closing;
use cache_commands::{Standing, Store, is_holding};
use cache_lines::{Base, End, LineOutcome, Tape, run_line, run_lines};
use std::alloc::AllocError;

/// Removes the first line, if it was held back.
fn pass_held(standing: Standing, unread: &mut Buffer)
    requires { IsTrue (not (holds_line standing) || has_line unread.old.bytes) }
    ensures bytes { unread.new.bytes ≡ unread_behind standing unread.old.bytes }
    ensures room { unread.new.room ≡ unread.old.room }
{
    if is_holding(standing) {
        pass_line(unread);
    }
}

impl Connection {
    /// Runs the lines of an open connection, and of a piece behind them for which there is room, and stands as they leave it. A first line
    /// that was held back has run, and is passed over.
    fn run_on<S: Store, T: Tape>(
        &mut self,
        base: &mut Base<S, T>,
        now: u64,
        number: u64,
        piece: &[u8],
    )
        requires can_run { CanRun now (seen_on S.view T.view base.old self.old.output) }
        requires fits { length piece.now ≤ self.old.unread.room }
        requires runs { waits_for_load self.old.standing ≡ false }
        ensures left { LinesLeft now number
            (unread_behind self.old.standing self.old.unread.bytes ++ piece.now) self.new
            (seen_on S.view T.view base.old self.old.output)
            (seen_on S.view T.view base.new self.new.output) }
        ensures spare { spare_of (T.view base.old.tape) ≤ spare_of (T.view base.new.tape) + 1 }
        ensures goes { SameTaken base.old.loads base.new.loads }
    {
        pass_held(self.standing, &mut self.unread);
        let end = run_lines(base, now, number, &mut self.unread, piece, &mut self.output);
        self.standing = ended_standing(end);
        self.waited = ended_times(end);
        self.closing = ended_closing(end, &self.unread);
        self.drop_closed();
    }

    /// Takes a piece behind its first line, a `LOAD` that waits and began to do so that often; it closes where too many bytes stand there.
    fn wait_before(&mut self, piece: &[u8], times: u64)
        requires fits { length piece.now ≤ self.old.unread.room }
        requires keeps { keeps_line self.old.standing ≡ true }
        requires room { IsRoomy self.old.output }
        requires few { times ≤ 200 }
        ensures put { (base : Situation) (values : List HeldValue) (n : ℕ)
            → set_in base values (waiting_before n (self.old.unread.bytes ++ piece.now) times)
            ≡ put_in base values n self.new }
        ensures closing { ClosesFor Closing.Behind self.new.closing }
        ensures standing { self.new.closing ≡ None → self.new.standing ≡ now_is.Waiting }
        ensures text { self.new.output.text.items ≡ self.old.output.text.items }
    {
        self.unread.append(piece);
        self.standing = Standing::Waiting;
        self.waited = times;
        self.closing = ended_closing(End::Waits, &self.unread);
        self.drop_closed();
    }
}

/// Takes a piece for a connection that runs lines, and returns whether one is held back.
pub fn feed_ready<S: Store, T: Tape>(
    base: &mut Base<S, T>,
    now: u64,
    number: u64,
    connection: &mut Connection,
    piece: &[u8],
) -> bool
    requires can_run { CanRun now (seen_on S.view T.view base.old connection.old.output) }
    requires fits { length piece.now ≤ connection.old.unread.room }
    requires open { connection.old.closing ≡ None }
    requires ready { connection.old.standing ≡ now_is.Ready }
    ensures ran { FedOver S.view T.view now number base.old base.new connection.old piece.now
        connection.new result }
    ensures spare { spare_of (T.view base.old.tape) ≤ spare_of (T.view base.new.tape) + 1 }
    ensures goes { SameTaken base.old.loads base.new.loads }
{
    connection.run_on(base, now, number, piece);
    is_holding(connection.standing)
}

/// Takes a piece for a connection that holds a line back, and returns whether one is held back then. An `Err` has changed nothing: there
/// was no memory for that line.
fn feed_held<S: Store, T: Tape>(
    base: &mut Base<S, T>,
    now: u64,
    number: u64,
    connection: &mut Connection,
    piece: &[u8],
) -> Result<bool, AllocError>
    requires can_run { CanRun now (seen_on S.view T.view base.old connection.old.output) }
    requires fits { length piece.now ≤ connection.old.unread.room }
    requires open { connection.old.closing ≡ None }
    requires held { connection.old.standing ≡ now_is.Held }
    ensures ran { IfOk result (λ is_held. FedOver S.view T.view now number base.old base.new
        connection.old piece.now connection.new is_held) }
    ensures refused { OnErr result (LooksSame S.view T.view base.old base.new connection.old.output
        connection.new.output × LooksAsBefore connection.old connection.new) }
    ensures goes { SameTaken base.old.loads base.new.loads }
{
    base.store.sound();
    let line = first_line(&connection.unread);
    match run_line(base, now, number, line, &mut connection.output) {
        Ok(LineOutcome::Stays) => {
            connection.run_on(base, now, number, piece);
            Ok(is_holding(connection.standing))
        }
        Ok(LineOutcome::Quits) => {
            connection.closing = Some(Closing::Quit);
            connection.drop_closed();
            Ok(false)
        }
        Ok(LineOutcome::Waits) => {
            connection.wait_before(piece, connection.waited + 1);
            Ok(false)
        }
        Err(error) => Err(error),
    }
}

/// Takes a piece for which there is room, for an open connection, and returns whether a line is held back then. A connection whose `LOAD`
/// waits closes if too many bytes stand behind that line. Returns an error if there was again no memory for the line that is held back;
/// then nothing has changed.
pub fn feed_connection<S: Store, T: Tape>(
    base: &mut Base<S, T>,
    now: u64,
    number: u64,
    connection: &mut Connection,
    piece: &[u8],
) -> Result<bool, AllocError>
    requires can_run { CanRun now (seen_on S.view T.view base.old connection.old.output) }
    requires fits { length piece.now ≤ connection.old.unread.room }
    requires open { connection.old.closing ≡ None }
    ensures ran { IfOk result (λ is_held. FedOver S.view T.view now number base.old base.new
        connection.old piece.now connection.new is_held) }
    ensures refused { OnErr result (LooksSame S.view T.view base.old base.new connection.old.output
        connection.new.output × LooksAsBefore connection.old connection.new) }
    ensures held { OnErr result (holds_line connection.old.standing ≡ true) }
    ensures goes { SameTaken base.old.loads base.new.loads }
{
    match connection.standing {
        Standing::Ready => Ok(feed_ready(base, now, number, connection, piece)),
        Standing::Held => feed_held(base, now, number, connection, piece),
        Standing::Waiting => {
            connection.wait_before(piece, connection.waited);
            Ok(false)
        }
    }
}

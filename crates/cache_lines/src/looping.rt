//! Lines, one after another.
ghost use Rattle.std.specs.Prelude.{◌≡◌, ◌+◌, ◌≤◌, drop, false, true, length, IfErr, OnOk};
ghost use Rattle.cache_commands.specs.Loads.Pending.{SameTaken};
ghost use Rattle.cache_lines.specs.Bases.{CanRun, seen_on};
ghost use Rattle.cache_lines.specs.Ended.{RunsReady, spare_of, RunsFirst, has_run, ends_waiting};
ghost use Rattle.cache_lines.specs.Gathered.{spare_in};
ghost use Rattle.cache_lines.specs.Outputs.{IsRoomy};

use crate::base::Base;
use crate::output::ReplyBuffer;
use crate::running::{LineOutcome, run_line};
use crate::tape::Tape;
use audit_lines::{Next, next_in, without_return};
use cache_commands::Store;

/// How a connection's lines end.
#[derive(Clone, Copy, PartialEq, Eq, Drop)]
pub enum End {
    /// Less than a line is left.
    More,
    /// The line is longer than a line may be.
    TooLong,
    /// The first unread line is held back.
    Held,
    /// The first unread line is a `LOAD` that waits, and began to do so.
    Waits,
    /// A `QUIT` ran.
    Quit,
}

/// Runs the first line of the bytes, and returns how many bytes it has, or how lines end there: a line for which memory was lacking is held
/// back, in the room that the tape has for one.
fn run_first<S: Store, T: Tape>(
    base: &mut Base<S, T>,
    now: u64,
    number: u64,
    bytes: &[u8],
    output: &mut ReplyBuffer,
) -> Result<usize, End>
    requires { CanRun now (seen_on S.view T.view base.old output.old) }
    ensures runs { RunsFirst now number bytes.now result (seen_on S.view T.view base.old output.old)
        (seen_on S.view T.view base.new output.new) }
    ensures rests { has_run result ≡ false → base.new.store ≡ base.old.store }
    ensures room { IfErr result (λ end. ends_waiting end ≡ true → IsRoomy output.new) }
    ensures kept { OnOk result (spare_in (T.view base.new.tape) ≡ spare_in (T.view base.old.tape)) }
    ensures spare { spare_of (T.view base.old.tape) ≤ spare_of (T.view base.new.tape) + 1 }
    ensures goes { SameTaken base.old.loads base.new.loads }
{
    match next_in(bytes) {
        Next::More => Err(End::More),
        Next::TooLong => Err(End::TooLong),
        Next::Line(len) => {
            let line = without_return(&bytes[..len]);
            match run_line(base, now, number, line, output) {
                Ok(LineOutcome::Stays) => Ok(len),
                Ok(LineOutcome::Quits) => Err(End::Quit),
                Ok(LineOutcome::Waits) => Err(End::Waits),
                Err(_) => {
                    base.tape.hold(number, line);
                    Err(End::Held)
                }
            }
        }
    }
}

/// Returns what stands behind the first `used` bytes.
pub fn behind(bytes: &[u8], used: usize) -> &[u8]
    requires { used ≤ length bytes.now }
    ensures { result.now ≡ drop used bytes.now }
{
    &bytes[used..]
}

/// Runs the lines in these bytes, one after another, and returns how many bytes the lines that ran have, not counting a `QUIT`, and how the
/// lines ended.
pub fn run_bytes<S: Store, T: Tape>(
    base: &mut Base<S, T>,
    now: u64,
    number: u64,
    bytes: &[u8],
    output: &mut ReplyBuffer,
) -> (usize, End)
    requires { CanRun now (seen_on S.view T.view base.old output.old) }
    ensures ran { RunsReady now number bytes.now (drop result.0 bytes.now) result.1
        (seen_on S.view T.view base.old output.old) (seen_on S.view T.view base.new output.new) }
    ensures used { result.0 ≤ length bytes.now }
    ensures room { ends_waiting result.1 ≡ true → IsRoomy output.new }
    ensures spare { spare_of (T.view base.old.tape) ≤ spare_of (T.view base.new.tape) + 1 }
    ensures goes { SameTaken base.old.loads base.new.loads }
{
    let mut used = 0;
    loop {
        base.store.sound();
        match run_first(base, now, number, behind(bytes, used), output) {
            Ok(len) => used += len + 1,
            Err(end) => return (used, end),
        }
    }
}

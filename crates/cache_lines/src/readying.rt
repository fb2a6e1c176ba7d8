//! The lines of a connection that is ready.
ghost use Rattle.std.specs.Prelude.{◌≡◌, ◌+◌, ◌≤◌, ◌++◌, [], drop, true, length};
ghost use Rattle.cache_commands.specs.Loads.Pending.{SameTaken};
ghost use Rattle.cache_lines.specs.Bases.{CanRun, seen_on};
ghost use Rattle.cache_lines.specs.Ended.{RunsReady, spare_of, ends_waiting};
ghost use Rattle.cache_lines.specs.Outputs.{IsRoomy};

use crate::base::Base;
use crate::looping::{End, behind, run_bytes};
use crate::output::ReplyBuffer;
use crate::tape::Tape;
use audit_lines::Buffer;
use cache_commands::Store;

/// Drops the first `used` bytes.
fn drop_used(unread: &mut Buffer, used: usize)
    requires { used ≤ length unread.old.bytes }
    ensures { unread.new.bytes ≡ drop used unread.old.bytes }
{
    if used > 0 {
        unread.skip(used - 1);
    }
}

/// Runs the lines of a connection that is ready, and of a piece behind them for which there is room, straight from the piece if nothing
/// stands before it. What is left is kept. A line for which there was not enough memory is held back, in the room for one that the tape
/// has.
pub fn run_lines<S: Store, T: Tape>(
    base: &mut Base<S, T>,
    now: u64,
    number: u64,
    unread: &mut Buffer,
    piece: &[u8],
    output: &mut ReplyBuffer,
) -> End
    requires can_run { CanRun now (seen_on S.view T.view base.old output.old) }
    requires fits { length piece.now ≤ unread.old.room }
    ensures ran { RunsReady now number (unread.old.bytes ++ piece.now) unread.new.bytes result
        (seen_on S.view T.view base.old output.old) (seen_on S.view T.view base.new output.new) }
    ensures room { ends_waiting result ≡ true → IsRoomy output.new }
    ensures spare { spare_of (T.view base.old.tape) ≤ spare_of (T.view base.new.tape) + 1 }
    ensures goes { SameTaken base.old.loads base.new.loads }
{
    if unread.is_empty() {
        let (used, end) = run_bytes(base, now, number, piece, output);
        unread.append(behind(piece, used));
        return end;
    }
    unread.append(piece);
    let (used, end) = run_bytes(base, now, number, unread.as_slice(), output);
    drop_used(unread, used);
    end
}

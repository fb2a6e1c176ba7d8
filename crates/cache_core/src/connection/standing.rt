//! How a connection stands when its lines have ended.
ghost use Rattle.std.specs.Prelude.{◌≡◌, length, IsTrue};
ghost use Rattle.audit_model.specs.Stream.{behind_lines};
ghost use Rattle.cache_core.specs.Connection.Fits.{ended_closing, ended_standing, ended_times};
ghost use Rattle.cache_lines.specs.Ended.{EndsFor};
ghost use Rattle.cache_lines.specs.Whole.{has_line};

use audit_lines::{Buffer, Next};
use audit_model::Closing;
use cache_commands::Standing;
use cache_lines::End;

/// At most this many bytes may stand behind a `LOAD` that waits.
const MAX_BEHIND: usize = 8192;

/// How many bytes stand behind the first line.
fn behind_first(unread: &Buffer) -> usize
    requires { IsTrue (has_line unread.now.bytes) }
    ensures { result ≡ length (behind_lines 1 unread.now.bytes) }
{
    let Next::Line(len) = unread.next() else {
        unreachable!();
    };
    unread.len() - len - 1
}

/// Returns whether a connection runs lines, or waits, if its lines ended so.
pub fn ended_standing(end: End) -> Standing
    ensures { result ≡ ended_standing end }
{
    match end {
        End::More | End::TooLong | End::Quit => Standing::Ready,
        End::Held => Standing::Held,
        End::Waits => Standing::Waiting,
    }
}

/// Returns how often a connection's first line began to wait if its lines ended so.
pub fn ended_times(end: End) -> u64
    ensures { result ≡ ended_times end }
{
    matches!(end, End::Waits) as u64
}

/// Returns why a connection closes if its lines ended so before what is unread, or `None` if it stays open.
pub fn ended_closing(end: End, unread: &Buffer) -> Option<Closing>
    requires { EndsFor end unread.now.bytes }
    ensures { result ≡ ended_closing end unread.now.bytes }
{
    match end {
        End::TooLong => Some(Closing::Long),
        End::Waits if behind_first(unread) > MAX_BEHIND => Some(Closing::Behind),
        End::Quit => Some(Closing::Quit),
        End::More | End::Held | End::Waits => None,
    }
}

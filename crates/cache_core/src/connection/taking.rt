//! What a connection is owed.
ghost use Rattle.std.specs.Prelude.{◌≡◌, ◌&&◌, [], is_none};
ghost use Rattle.cache_core.specs.Connection.Taken.{IsTakenFrom};
ghost use Rattle.cache_lines.specs.Outputs.{IsRoomy};
ghost use Rattle.cache_commands.specs.Loads.Standings.{waits_for_load};

use crate::connection::connection::Connection;
use audit_model::Closing;
use cache_commands::is_waiting;
use cache_lines::ReplyBuffer;
use std::alloc::Global;
use std::mem;

/// What a connection is owed itself.
#[derive(Drop)]
pub struct Taken {
    /// The replies that were not taken.
    pub replies: Vec<u8>,
    /// Why the connection closed, or `None` while it is open.
    pub closing: Option<Closing>,
    /// Whether a `LOAD` of the connection waits.
    pub waits: bool,
}

/// Moves an output out, and leaves room for the reply to the `LOAD` that waits.
fn take_keeping_room(alloc: Global, output: &mut ReplyBuffer) -> Vec<u8>
    requires { IsRoomy output.old }
    ensures room { IsRoomy output.new }
    ensures none { output.new.text.items ≡ [] }
    ensures taken { result.items ≡ output.old.text.items }
{
    if output.text.is_empty() {
        return Vec::new(alloc);
    }
    let fresh = mem::replace(&mut output.spare, Vec::new(alloc));
    mem::replace(&mut output.text, fresh)
}

/// Moves out the replies of a connection.
fn take_text(alloc: Global, connection: &mut Connection) -> Vec<u8>
    ensures rest { IsTakenFrom connection.old connection.new }
    ensures taken { result.items ≡ connection.old.output.text.items }
{
    if is_waiting(connection.standing) {
        return take_keeping_room(alloc, &mut connection.output);
    }
    mem::replace(&mut connection.output.text, Vec::new(alloc))
}

/// Moves out what a connection is owed.
pub fn take_owed(alloc: Global, connection: &mut Connection) -> Taken
    ensures rest { IsTakenFrom connection.old connection.new }
    ensures replies { result.replies.items ≡ connection.old.output.text.items }
    ensures closing { result.closing ≡ connection.old.closing }
    ensures waits { result.waits
        ≡ (is_none connection.old.closing && waits_for_load connection.old.standing) }
{
    let closing = connection.closing;
    let waits = closing.is_none() && is_waiting(connection.standing);
    Taken {
        replies: take_text(alloc, connection),
        closing,
        waits,
    }
}

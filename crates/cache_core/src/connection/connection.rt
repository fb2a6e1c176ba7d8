//! One connection.
ghost use Rattle.std.specs.Prelude.{◌≡◌, [], None, true};
ghost use Rattle.cache_core.specs.Connection.Fits.{FitsStanding};
ghost use Rattle.cache_lines.specs.Outputs.{IsRoomy};
ghost use Rattle.cache_commands.specs.Loads.Standings.{waits_for_load};
ghost use Rattle.cache_commands.specs.declared.loads.standing.Standing.TheVariants as now;

use audit_lines::Buffer;
use audit_model::Closing;
use cache_commands::Standing;
use cache_lines::ReplyBuffer;
use std::alloc::Global;

/// A connection: what came and was not used, the replies that were not taken, and why it closed.
#[derive(Drop)]
pub struct Connection {
    /// The bytes that came and that no line has used.
    pub unread: Buffer,
    /// Whether the connection runs lines, or waits before its first unread line.
    pub standing: Standing,
    /// How often the `LOAD` that is its first unread line began to wait, at most 200.
    pub waited: u64,
    /// The replies that were not taken.
    pub output: ReplyBuffer,
    /// Why the connection closed, or `None` while it is open.
    pub closing: Option<Closing>,
    ghost fits: { FitsStanding standing waited closing unread.bytes },
    ghost roomy: { waits_for_load standing ≡ true → IsRoomy output },
}

/// Creates a connection to which no byte has come.
pub fn new_connection(alloc: Global) -> Connection
    ensures unread { result.unread.bytes ≡ [] }
    ensures standing { result.standing ≡ now.Ready }
    ensures output { result.output.text.items ≡ [] }
    ensures closing { result.closing ≡ None }
{
    Connection {
        unread: Buffer::new(alloc),
        standing: Standing::Ready,
        waited: 0,
        output: ReplyBuffer::new(alloc),
        closing: None,
    }
}

impl Connection {
    ghost use Rattle.std.specs.Prelude.{is_some};

    /// Drops the bytes that no line has used, if the connection has closed.
    pub fn drop_closed(&mut self)
        ensures open { self.old.closing ≡ None → self.new ≡ self.old }
        ensures closing { self.new.closing ≡ self.old.closing }
        ensures standing { is_some self.old.closing ≡ true → self.new.standing ≡ now.Ready }
        ensures text { self.new.output.text.items ≡ self.old.output.text.items }
    {
        if self.closing.is_none() {
            return;
        }
        self.unread.clear();
        self.standing = Standing::Ready;
        self.waited = 0;
    }
}

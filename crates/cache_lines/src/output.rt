//! Replies on their way out.
ghost use Rattle.std.specs.Prelude.{◌≡◌, []};

use std::alloc::Global;

/// The replies of a connection that were not taken.
#[derive(Drop)]
pub struct ReplyBuffer {
    /// The replies, one after another.
    pub text: Vec<u8>,
    /// Room for the reply to a `LOAD` that waits, for when the text is taken before.
    pub spare: Vec<u8>,
}

impl ReplyBuffer {
    /// Creates an empty buffer. The call allocates nothing.
    pub fn new(alloc: Global) -> ReplyBuffer
        ensures { result.text.items ≡ [] }
    {
        ReplyBuffer {
            text: Vec::new(alloc),
            spare: Vec::new(alloc),
        }
    }
}

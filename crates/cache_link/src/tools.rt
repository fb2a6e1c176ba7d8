//! What the connections of a loop use in turn.
ghost use Rattle.std.specs.Prelude.{◌≡◌, [], IfOk};

use cache_run::Inbox;
use std::alloc::{AllocError, Global};
use std::mem;

/// More room than this for replies is not kept for the next connection.
const SPARE_BYTES: usize = 65536;

/// Room for what is read and for replies, which a connection has for itself only while it is slow.
#[derive(Drop)]
pub struct Room {
    alloc: Global,
    inbox: Option<Inbox>,
    bytes: Vec<u8>,
}

impl Room {
    /// Creates room that is made when it is needed.
    pub fn new(alloc: Global) -> Room {
        Room {
            alloc,
            inbox: None,
            bytes: Vec::new(alloc),
        }
    }

    /// Takes an empty inbox with room for a piece. Returns an error if there is not enough memory.
    pub fn take_inbox(&mut self) -> Result<Inbox, AllocError>
        ensures empty { IfOk result (λ inbox. inbox ≡ []) }
    {
        match self.inbox.take() {
            Some(mut inbox) => {
                inbox.clear();
                Ok(inbox)
            }
            None => Inbox::new(self.alloc),
        }
    }

    /// Keeps an inbox that is not used any more.
    pub fn give_inbox(&mut self, inbox: Inbox) {
        self.inbox = Some(inbox);
    }

    /// Takes room for replies, without bytes.
    pub fn take_bytes(&mut self) -> Vec<u8>
        ensures { result.items ≡ [] }
    {
        let mut bytes = mem::replace(&mut self.bytes, Vec::new(self.alloc));
        bytes.clear();
        bytes
    }

    /// Keeps room for replies that is not used any more, unless the room is much, or less than there is.
    pub fn give_bytes(&mut self, bytes: Vec<u8>) {
        let room = bytes.capacity();
        if room <= SPARE_BYTES && room > self.bytes.capacity() {
            self.bytes = bytes;
        }
    }
}

/// What the connections of a loop use in turn: a clock, a loader, and room.
#[derive(Drop)]
pub struct Tools<K, D> {
    /// The allocator.
    pub alloc: Global,
    /// The clock.
    pub clock: K,
    /// The loader.
    pub loader: D,
    pub(crate) room: Room,
}

impl<K, D> Tools<K, D> {
    /// Creates tools with this clock and this loader.
    pub fn new(alloc: Global, clock: K, loader: D) -> Tools<K, D>
        ensures { (result.clock ≡ clock) × (result.loader ≡ loader) }
    {
        Tools {
            alloc,
            clock,
            loader,
            room: Room::new(alloc),
        }
    }
}

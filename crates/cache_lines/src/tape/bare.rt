//! A tape that keeps nothing.
ghost use Rattle.std.specs.Prelude.{None};

use crate::tape::tape::Tape;
use audit_model::{Accepted, Event, Note, Seq};
use std::alloc::{AllocError, Global};

/// A tape that keeps no records, and takes no memory.
#[derive(Drop)]
pub struct Bare {
    alloc: Global,
}

impl Bare {
    /// Creates a tape that keeps nothing.
    pub fn new(alloc: Global) -> Bare {
        Bare { alloc }
    }
}

impl Tape for Bare {
    ghost view = { λ b. None };

    fn keeps(&self) -> bool {
        false
    }

    fn start(&mut self, spare: usize) -> Result<(), AllocError> {
        Ok(())
    }

    fn begin(&mut self, line: &[u8], most: usize) -> Result<Vec<Note>, AllocError> {
        Ok(Vec::new(self.alloc))
    }

    fn end(
        &mut self,
        conn: u64,
        accepted: Option<Accepted>,
        text: &mut Vec<u8>,
        notes: Vec<Note>,
    ) {}

    fn wait(&mut self, conn: u64, load: Option<u64>) {}

    fn hold(&mut self, conn: u64, line: &[u8]) {}

    fn say(&mut self, conn: u64, line: &[u8], text: &mut Vec<u8>) {}

    fn abandon(&mut self) {}

    fn finish(&mut self, event: Event, own: Option<Accepted>, notices: Seq<Note>) {}
}

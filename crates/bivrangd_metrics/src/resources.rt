//! What the program takes of the machine.

use std::fs::File;
use std::io::Read;
use std::rt::Files;
use std::str;
use std::sync::atomic::{AtomicU64, Ordering};

/// A page of memory has so many bytes.
const PAGE: u64 = 4096;

/// What the program takes of the machine, as it was read last. Of a number that the system does not tell, 0 is kept.
#[derive(Drop)]
pub struct Resources {
    memory: AtomicU64,
    descriptors: AtomicU64,
}

impl Resources {
    /// Nothing was read yet.
    pub fn new() -> Resources {
        Resources {
            memory: AtomicU64::new(0),
            descriptors: AtomicU64::new(0),
        }
    }

    /// Reads what the system tells of this program.
    pub fn read<R: Files>(&self, rt: &R) {
        self.memory.store(memory(rt).unwrap_or(0), Ordering::SeqCst);
        let descriptors = descriptors(rt).unwrap_or(0);
        self.descriptors.store(descriptors, Ordering::SeqCst);
    }

    /// How many bytes of memory the program has, if that is known.
    pub fn memory(&self) -> Option<u64> {
        known(self.memory.load(Ordering::SeqCst))
    }

    /// How many descriptors are open, if that is known.
    pub fn descriptors(&self) -> Option<u64> {
        known(self.descriptors.load(Ordering::SeqCst))
    }
}

/// A number, unless it is 0.
fn known(number: u64) -> Option<u64> {
    if number == 0 { None } else { Some(number) }
}

/// How many bytes of memory the program has: the second number of `statm` is that of its pages.
fn memory<R: Files>(rt: &R) -> Option<u64> {
    let mut file = File::open(rt, "/proc/self/statm").ok()?;
    let mut text = [0u8; 256];
    let count = file.read(&mut text).ok()?;
    let text = str::from_utf8(text.get(..count)?).ok()?;
    let pages: u64 = text.split(" ").nth(1)?.parse().ok()?;
    Some(pages.saturating_mul(PAGE))
}

/// How many descriptors are open, but for the one by which they are listed.
fn descriptors<R: Files>(rt: &R) -> Option<u64> {
    let mut folder = rt.open_dir("/proc/self/fd").ok()?;
    let mut names = [0u8; 1024];
    let mut count = 0u64;
    for _read in 0..u64::MAX {
        let read = folder.read(&mut names).ok()?;
        if read == 0 {
            // `.`, `..` and the listing itself.
            return count.checked_sub(3);
        }
        count = count.saturating_add(names_in(names.get(..read)?));
    }
    None
}

/// How many names end in some bytes: each ends by a NUL.
fn names_in(bytes: &[u8]) -> u64 {
    bytes.iter().filter(|byte| **byte == 0).count() as u64
}

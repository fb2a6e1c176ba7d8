//! Writers that a test reads back.
use std::alloc::{AllocError, Global};
use std::io;
use std::io::{ErrorKind, Write};
use std::sync::{Arc, Mutex, Wait};

/// What was written.
pub type Written = Arc<Mutex<Vec<u8>>>;

/// A writer of bytes that others read, which takes so many bytes and then fails.
#[derive(Drop)]
pub struct Sink<R: Wait + Copy> {
    pub rt: R,
    pub written: Written,
    pub room: usize,
}

impl<R: Wait + Copy> Write for Sink<R> {
    fn write(&mut self, buf: &[u8]) -> io::Result<usize> {
        let count = buf.len().min(self.room);
        if count == 0 && !buf.is_empty() {
            return Err(io::Error::from(ErrorKind::BrokenPipe));
        }
        self.room -= count;
        let mut written = self.written.lock(&self.rt);
        match written.extend_from_slice(&buf[..count]) {
            Ok(()) => Ok(count),
            Err(_) => Err(io::Error::from(ErrorKind::OutOfMemory)),
        }
    }

    fn flush(&mut self) -> io::Result<()> {
        Ok(())
    }
}

/// Where what is written can be read back. At first there is nothing.
pub fn make_written(alloc: Global) -> Option<Written> {
    Arc::new(alloc, Mutex::new(Vec::new(alloc))).ok()
}

/// A writer of so much room.
pub fn make_sink<R: Wait + Copy>(
    rt: R,
    written: &Written,
    room: usize,
) -> Result<Sink<R>, AllocError> {
    let written = Arc::try_clone(written)?;
    Ok(Sink { rt, written, room })
}

/// Whether this was written.
pub fn is_written(rt: &impl Wait, written: &Written, wanted: &[u8]) -> bool {
    written.lock(rt).as_slice() == wanted
}

//! What is sent to writers, whole, in pieces and with failures, and what is read.
use cache_run::{RunError, Watched, send};
use std::alloc::Global;
use std::io;
use std::io::{ErrorKind, Write};

/// A writer that takes one byte a call, is interrupted at its second call, and fails at a chosen one.
#[derive(Drop)]
struct Slow {
    held: Vec<u8>,
    calls: u64,
    fails_at: u64,
}

impl Write for Slow {
    fn write(&mut self, buf: &[u8]) -> io::Result<usize> {
        self.calls = self.calls.saturating_add(1);
        if self.calls == 2 {
            return Err(io::Error::from(ErrorKind::Interrupted));
        }
        if self.calls == self.fails_at {
            return Err(io::Error::from(ErrorKind::BrokenPipe));
        }
        let Some(byte) = buf.first() else {
            return Ok(0);
        };
        match self.held.push(*byte) {
            Ok(()) => Ok(1),
            Err(_) => Err(io::Error::from(ErrorKind::OutOfMemory)),
        }
    }

    fn flush(&mut self) -> io::Result<()> {
        Ok(())
    }
}

/// A writer that takes nothing.
#[derive(Drop)]
struct Full;

impl Write for Full {
    fn write(&mut self, _buf: &[u8]) -> io::Result<usize> {
        Ok(0)
    }

    fn flush(&mut self) -> io::Result<()> {
        Err(io::Error::from(ErrorKind::Other))
    }
}

fn watch_slow(alloc: Global, fails_at: u64) -> Watched<Slow> {
    Watched::new(Slow {
        held: Vec::new(alloc),
        calls: 0,
        fails_at,
    })
}

/// Whether what was sent in pieces is held, with one failure seen.
fn holds(writer: &Watched<Slow>, bytes: &[u8]) -> bool {
    writer.inner().held.as_slice() == bytes && writer.failed() == 1
}

/// Whether all is sent in pieces, one text after another, to a writer that is interrupted once.
fn sends_all(writer: &mut Watched<Slow>) -> bool {
    send(b"abcd", writer) == Ok(())
        && holds(writer, b"abcd")
        && send(b"", writer) == Ok(())
        && send(b"ef", writer) == Ok(())
        && holds(writer, b"abcdef")
        && writer.flush().is_ok()
        && writer.failed() == 1
}

/// The same of a new writer.
fn sends_all_anew(alloc: Global) -> bool {
    let mut writer = watch_slow(alloc, 0);
    sends_all(&mut writer)
}

#[test]
fn all_is_sent_in_pieces(rt: HostRuntime) {
    assert!(rt; sends_all_anew(rt.alloc()) || sends_all_anew(rt.alloc()));
}

/// Whether a text is sent up to the fourth call, which fails.
fn sends_a_beginning(writer: &mut Watched<Slow>) -> bool {
    send(b"abcd", writer) == Err(RunError::Write)
        && writer.inner().held.as_slice() == b"ab".as_slice()
        && writer.failed() == 2
}

/// The same of a new writer.
fn sends_a_beginning_anew(alloc: Global) -> bool {
    let mut writer = watch_slow(alloc, 4);
    sends_a_beginning(&mut writer)
}

#[test]
fn a_write_fails_in_mid_stream(rt: HostRuntime) {
    assert!(rt; sends_a_beginning_anew(rt.alloc()) || sends_a_beginning_anew(rt.alloc()));
}

/// Whether each call fails.
fn fails(writer: &mut Watched<Full>) -> bool {
    send(b"a", writer) == Err(RunError::Write)
        && writer.failed() == 1
        && writer.flush().is_err()
        && writer.failed() == 2
}

#[test]
fn a_writer_that_takes_nothing(rt: HostRuntime) {
    assert!(rt; fails(&mut Watched::new(Full)));
}

/// Whether so many bytes are read.
fn reads(reader: &mut Watched<&[u8]>, buffer: &mut [u8], count: usize) -> bool {
    match reader.read(buffer) {
        Ok(read) => read == count,
        Err(_) => false,
    }
}

/// Whether three bytes are read two at a time, and then none.
fn is_read_to_its_end(reader: &mut Watched<&[u8]>) -> bool {
    let mut buffer = [0; 2];
    reads(reader, &mut buffer, 2)
        && buffer == [b'a', b'b']
        && reads(reader, &mut buffer, 1)
        && reads(reader, &mut buffer, 0)
        && reader.failed() == 0
}

#[test]
fn a_reader_to_its_end(rt: HostRuntime) {
    assert!(rt; is_read_to_its_end(&mut Watched::new(b"abc".as_slice())));
}

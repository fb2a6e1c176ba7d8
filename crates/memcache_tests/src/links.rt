//! Connections between the wake-ups of their sockets.
use crate::playing::{LARGE, START, service};
use cache_link::{Next, Patient, Room};
use memcache_cache::MemcacheLink;
use memcache_service::{Service, Shelf};
use std::alloc::{AllocError, Global};
use std::io;
use std::io::{ErrorKind, Read, Write};

/// What a client sends, and what it is told.
type Row = (&'static [&'static [u8]], &'static [u8]);

/// A connection ends at the end of its input, or behind a `quit`.
const ROWS: &[Row] = &[
    (
        &[b"set a 5 0 1\r\nx", b"\r\nge", b"t a\r\n"],
        b"STORED\r\nVALUE a 5 1\r\nx\r\nEND\r\n",
    ),
    (
        &[b"version\r\nquit\r\nversion\r\n", b"version\r\n"],
        b"VERSION 1.6.18\r\n",
    ),
    (
        &[b"get b\r\n", b"nonsense\r\n", b"get"],
        b"END\r\nERROR\r\n",
    ),
    (&[], b""),
];

/// A reader that gives a piece a call, and then the end.
#[derive(Drop)]
struct Input {
    pieces: &'static [&'static [u8]],
}

impl Read for Input {
    fn read(&mut self, buf: &mut [u8]) -> io::Result<usize> {
        let [piece, pieces @ ..] = self.pieces else {
            return Ok(0);
        };
        self.pieces = pieces;
        let count = piece.len().min(buf.len());
        buf[..count].copy_from_slice(&piece[..count]);
        Ok(count)
    }
}

/// A writer that takes seven bytes, and then has no room for a call.
#[derive(Drop)]
struct Narrow<'a> {
    text: &'a mut Vec<u8>,
    has_room: bool,
}

impl Write for Narrow<'_> {
    fn write(&mut self, buf: &[u8]) -> io::Result<usize> {
        self.has_room = !self.has_room;
        if self.has_room {
            return Err(io::Error::from(ErrorKind::WouldBlock));
        }
        let count = buf.len().min(7);
        match self.text.extend_from_slice(&buf[..count]) {
            Ok(()) => Ok(count),
            Err(_) => Err(io::Error::from(ErrorKind::OutOfMemory)),
        }
    }

    fn flush(&mut self) -> io::Result<()> {
        Ok(())
    }
}

/// Takes turns until the connection is over. Each time that it waits for input, its socket reports some.
fn serve<T: Shelf>(
    service: &mut Service<T>,
    link: &mut MemcacheLink,
    pieces: &'static [&'static [u8]],
    text: &mut Vec<u8>,
) -> Result<bool, AllocError> {
    let mut room = Room::new(*text.allocator());
    let mut reader = Patient::new(Input { pieces });
    let mut writer = Patient::new(Narrow {
        text,
        has_room: true,
    });
    for _ in 0..1000 {
        match link.turn(service, &mut reader, &mut writer, &mut room, START) {
            Ok(Next::Over) => return Ok(true),
            Ok(Next::Input) => link.wake(true, false),
            Ok(_) => {}
            Err(_) => return Err(AllocError),
        }
    }
    Ok(false)
}

/// Whether a client that sends the pieces is told what it is to be told.
fn is_told<T: Shelf>(
    service: &mut Service<T>,
    alloc: Global,
    row: &Row,
) -> Result<bool, AllocError> {
    let mut text = Vec::new(alloc);
    let mut link = MemcacheLink::open(service, alloc)?;
    let is_over = serve(service, &mut link, row.0, &mut text)?;
    link.close(service);
    Ok(is_over && text.as_slice() == row.1)
}

/// Whether each row is told what it says.
fn play_rows<T: Shelf>(service: &mut Service<T>, alloc: Global) -> Result<bool, AllocError> {
    for row in ROWS {
        if !is_told(service, alloc, row)? {
            return Ok(false);
        }
    }
    Ok(true)
}

/// The same, by a new service.
fn play(alloc: Global) -> Result<bool, AllocError> {
    let mut service = service(alloc, LARGE)?;
    play_rows(&mut service, alloc)
}

/// Whether nothing is read of a connection that was stopped.
fn stop_one<T: Shelf>(service: &mut Service<T>, alloc: Global) -> Result<bool, AllocError> {
    let mut text = Vec::new(alloc);
    let mut link = MemcacheLink::open(service, alloc)?;
    link.wake(true, false);
    link.stop();
    let is_over = serve(service, &mut link, &[b"version\r\n"], &mut text)?;
    link.close(service);
    Ok(is_over && text.is_empty())
}

/// The same, by a new service.
fn stops(alloc: Global) -> Result<bool, AllocError> {
    let mut service = service(alloc, LARGE)?;
    stop_one(&mut service, alloc)
}

#[test]
fn served(rt: HostRuntime) {
    let alloc = rt.alloc();
    assert!(rt; matches!(play(alloc), Ok(true)) || matches!(play(alloc), Ok(true)));
}

#[test]
fn stopped(rt: HostRuntime) {
    let alloc = rt.alloc();
    assert!(rt; matches!(stops(alloc), Ok(true)) || matches!(stops(alloc), Ok(true)));
}

//! Clients of a server on a port of this machine.
use cached_server::Machine;
use std::io::{Read, Write};
use std::net::{Ipv4Addr, Shutdown, SocketAddr, TcpListener, TcpStream};
use std::thread;
use std::time::Duration;

/// How often a client tries to connect, 5 milliseconds apart.
const TRIES: u32 = 2000;

/// The address of a port of this machine.
fn address(port: u16) -> SocketAddr {
    SocketAddr::from((Ipv4Addr::LOCALHOST, port))
}

/// A port on which nobody listens.
pub fn free_port<R: Machine>(rt: &R) -> Option<u16> {
    let listener = TcpListener::bind(rt, address(0)).ok()?;
    Some(listener.local_addr().ok()?.port())
}

/// Connects as soon as somebody listens. No read waits longer than 20 seconds.
pub fn connect<R: Machine>(rt: &R, port: u16) -> Option<TcpStream> {
    for _try in 0..TRIES {
        if let Ok(stream) = TcpStream::connect(rt, address(port)) {
            stream.set_read_timeout(Some(Duration::from_secs(20))).ok()?;
            return Some(stream);
        }
        thread::sleep(rt, Duration::from_millis(5));
    }
    None
}

/// Sends a text so many times.
pub fn sends_times(stream: &mut TcpStream, text: &[u8], times: u32) -> bool {
    for _time in 0..times {
        if stream.write_all(text).is_err() {
            return false;
        }
    }
    true
}

/// Sends a text byte by byte.
pub fn drips(stream: &mut TcpStream, text: &[u8]) -> bool {
    for byte in text {
        if stream.write_all(&[*byte]).is_err() {
            return false;
        }
    }
    true
}

/// Says that nothing more is sent.
pub fn ends(stream: &TcpStream) -> bool {
    stream.shutdown(Shutdown::Write).is_ok()
}

/// Whether exactly these bytes are read next.
fn reads(stream: &mut TcpStream, wanted: &[u8]) -> bool {
    let mut buffer = [0u8; 64];
    for part in wanted.chunks(buffer.len()) {
        let Some(found) = buffer.get_mut(..part.len()) else {
            return false;
        };
        if stream.read_exact(found).is_err() || *found != *part {
            return false;
        }
    }
    true
}

/// Whether this many times these bytes are read next.
pub fn reads_times(stream: &mut TcpStream, wanted: &[u8], times: u32) -> bool {
    for _time in 0..times {
        if !reads(stream, wanted) {
            return false;
        }
    }
    true
}

/// Whether so many lines are read next. More than that may be read.
pub fn reads_lines(stream: &mut TcpStream, count: u32) -> bool {
    let mut buffer = [0u8; 4096];
    let mut ends = 0usize;
    for _read in 0..u32::MAX {
        if ends >= count as usize {
            return true;
        }
        match stream.read(&mut buffer) {
            Ok(0) | Err(_) => return false,
            Ok(count) => {
                let found = buffer[..count].iter().filter(|byte| **byte == b'\n');
                ends = ends.saturating_add(found.count());
            }
        }
    }
    false
}

/// Whether a text is among what is read to the end, 16 KiB at most.
pub fn finds(stream: &mut TcpStream, wanted: &[u8]) -> bool {
    let mut found = [0u8; 16384];
    let mut count = 0usize;
    for _read in 0..found.len() {
        let rest = found.get_mut(count..).unwrap_or(&mut []);
        match stream.read(rest) {
            Ok(0) | Err(_) => break,
            Ok(more) => count = count.saturating_add(more),
        }
    }
    has(&found, wanted)
}

/// Whether a text is among some bytes.
fn has(bytes: &[u8], wanted: &[u8]) -> bool {
    for start in 0..bytes.len() {
        if bytes[start..].starts_with(wanted) {
            return true;
        }
    }
    false
}

/// Whether nothing more is read, and that is the end.
pub fn is_at_end(stream: &mut TcpStream) -> bool {
    matches!(stream.read(&mut [0u8; 1]), Ok(0))
}

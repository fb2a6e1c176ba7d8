//! Clients, good and bad.
use cached_server::Machine;
use std::alloc::Global;
use std::io::{Read, Write};
use std::net::{Ipv4Addr, SocketAddr, TcpListener, TcpStream};
use std::time::{Clock, Duration};
use std::{io, thread};

/// How often a client tries to connect, 5 milliseconds apart.
const TRIES: u32 = 1000;

/// The address of a port of this machine.
fn address(port: u16) -> SocketAddr {
    SocketAddr::from((Ipv4Addr::LOCALHOST, port))
}

/// Connects, if somebody listens. No read of the stream waits longer than 20 seconds.
fn try_to_connect<R: Machine>(rt: &R, port: u16) -> Option<TcpStream> {
    match TcpStream::connect(rt, address(port)) {
        Ok(stream) => {
            let _ = stream.set_read_timeout(Some(Duration::from_secs(20)));
            Some(stream)
        }
        Err(_) => None,
    }
}

/// Connects as soon as somebody listens.
pub fn connect<R: Machine>(rt: &R, port: u16) -> Option<TcpStream> {
    for _try in 0..TRIES {
        if let Some(stream) = try_to_connect(rt, port) {
            return Some(stream);
        }
        thread::sleep(rt, Duration::from_millis(5));
    }
    None
}

/// Uses up connections that a failed test would leave, so that its server ends.
pub fn use_up<R: Machine>(rt: &R, port: u16, count: u32) {
    for _connection in 0..count {
        let _ = TcpStream::connect(rt, address(port));
    }
}

/// Reads once. Answers whether there was anything.
fn reads(stream: &mut TcpStream, replies: &mut Vec<u8>) -> bool {
    let mut buffer = [0u8; 1024];
    match stream.read(&mut buffer) {
        Ok(0) | Err(_) => false,
        Ok(count) => replies.extend_from_slice(&buffer[..count]).is_ok(),
    }
}

/// Reads to the end.
fn read_all(stream: &mut TcpStream, replies: &mut Vec<u8>) {
    for _ in 0..100_000u32 {
        if !reads(stream, replies) {
            return;
        }
    }
}

/// A client that sends a text, and reads nothing.
pub fn send_only<R: Machine>(rt: &R, port: u16, text: &[u8]) -> Option<TcpStream> {
    match connect(rt, port) {
        Some(mut stream) => {
            let _ = stream.write_all(text);
            Some(stream)
        }
        None => None,
    }
}

/// Sends another text 1.2 seconds later if there is one, and answers whether these replies are read to the end.
fn is_replied<R: Clock>(
    rt: &R,
    alloc: Global,
    stream: &mut TcpStream,
    later: &[u8],
    wanted: &[u8],
) -> bool {
    if !later.is_empty() {
        thread::sleep(rt, Duration::from_millis(1200));
        let _ = stream.write_all(later);
    }
    let mut replies = Vec::new(alloc);
    read_all(stream, &mut replies);
    replies.as_slice() == wanted
}

/// A client that sends a text, and another one later if there is one. Answers whether it reads these replies.
pub fn talks<R: Machine>(
    rt: &R,
    alloc: Global,
    port: u16,
    text: &[u8],
    later: &[u8],
    wanted: &[u8],
) -> bool {
    match send_only(rt, port, text) {
        Some(mut stream) => is_replied(rt, alloc, &mut stream, later, wanted),
        None => false,
    }
}

/// Reads until the replies end in a line.
fn read_line(stream: &mut TcpStream, replies: &mut Vec<u8>) -> bool {
    for _ in 0..100u32 {
        if !reads(stream, replies) {
            return false;
        }
        if replies.ends_with(b"\n") {
            return true;
        }
    }
    false
}

/// Sends a byte, and reads the reply to a line that it ends.
fn is_taken(stream: &mut TcpStream, byte: u8, replies: &mut Vec<u8>) -> bool {
    stream.write_all(&[byte]).is_ok() && (byte != b'\n' || read_line(stream, replies))
}

/// Sends each line once the reply to the one before was read, which is a line. Answers whether each was replied to.
fn is_replied_in_turn(stream: &mut TcpStream, text: &[u8], replies: &mut Vec<u8>) -> bool {
    for byte in text {
        if !is_taken(stream, *byte, replies) {
            return false;
        }
    }
    true
}

/// A client that sends each line once it has read the reply to the one before. Answers whether it reads these replies.
pub fn talks_in_turn<R: Machine>(
    rt: &R,
    alloc: Global,
    port: u16,
    text: &[u8],
    wanted: &[u8],
) -> bool {
    let mut replies = Vec::new(alloc);
    match connect(rt, port) {
        Some(mut stream) => {
            is_replied_in_turn(&mut stream, text, &mut replies) && replies.as_slice() == wanted
        }
        None => false,
    }
}

/// A listener on a port of this machine.
pub fn take_port<R: Machine>(rt: &R) -> io::Result<TcpListener> {
    TcpListener::bind(rt, address(0))
}

/// The port of a listener.
pub fn port_of(listener: &TcpListener) -> Option<u16> {
    match listener.local_addr() {
        Ok(addr) => Some(addr.port()),
        Err(_) => None,
    }
}

/// The port of a listener that was there: nobody listens on it.
pub fn free_port<R: Machine>(rt: &R) -> Option<u16> {
    match take_port(rt) {
        Ok(listener) => port_of(&listener),
        Err(_) => None,
    }
}

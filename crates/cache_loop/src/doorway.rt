//! Sockets of the network, and of a path.
ghost use Rattle.std.specs.Prelude.{◌≡◌};

use mio::event::Source;
use mio::net::{TcpListener, TcpStream, UnixListener, UnixStream};
use mio::{Interest, Registry, Token};
use std::io;
use std::io::{ErrorKind, Read, Write};
use std::net::Shutdown;

/// So many reads are made in a row of what comes in when a connection is over.
const DROPPED_READS: usize = 32;

/// How much was read and dropped of what comes in at a socket.
#[derive(Clone, Copy, PartialEq, Eq, Drop)]
pub enum Dropped {
    /// Some of it: there may be more.
    Some,
    /// What has come in. More may come.
    Present,
    /// All of it: nothing more will come.
    All,
}

/// Where connections come in.
#[derive(Drop)]
pub enum Doorway {
    /// A listener at an address of the network.
    Tcp(TcpListener),
    /// A listener at a path.
    Unix(UnixListener),
}

impl Doorway {
    /// Accepts the next connection. Returns `WouldBlock` if nobody waits, and otherwise the error of the accept.
    pub fn accept(&self) -> io::Result<Stream> {
        match self {
            Doorway::Tcp(listener) => {
                let (stream, _) = listener.accept()?;
                // Replies go out as soon as they are written.
                let _ = stream.set_nodelay(true);
                Ok(Stream::Tcp(stream))
            }
            Doorway::Unix(listener) => {
                let (stream, _) = listener.accept()?;
                Ok(Stream::Unix(stream))
            }
        }
    }

    /// Makes a registry report under a token when somebody waits. Returns the registry's error.
    pub fn register(&mut self, registry: &Registry, token: Token) -> io::Result<()> {
        match self {
            Doorway::Tcp(listener) => registry.register(listener, token, Interest::READABLE),
            Doorway::Unix(listener) => registry.register(listener, token, Interest::READABLE),
        }
    }
}

/// A connection's socket.
#[derive(Drop)]
pub enum Stream {
    /// A connection over the network.
    Tcp(TcpStream),
    /// A connection by a path.
    Unix(UnixStream),
}

impl Stream {
    /// Makes a registry report under a token when there are bytes to read. Returns the registry's error.
    pub fn register(&mut self, registry: &Registry, token: Token) -> io::Result<()>
        ensures { self.new ≡ self.old }
    {
        match self {
            Stream::Tcp(stream) => registry.register(stream, token, bytes()),
            Stream::Unix(stream) => registry.register(stream, token, bytes()),
        }
    }

    /// Writes as much of a text as is taken at once. What cannot be written is lost.
    pub fn tell(&mut self, text: &[u8]) {
        let _ = match self {
            Stream::Tcp(stream) => stream.write(text),
            Stream::Unix(stream) => stream.write(text),
        };
    }

    /// Tells the client that nothing more will come.
    pub fn end_writing(&mut self) {
        let _ = match self {
            Stream::Tcp(stream) => stream.shutdown(Shutdown::Write),
            Stream::Unix(stream) => stream.shutdown(Shutdown::Write),
        };
    }

    /// Reads and drops what has come in, unless it is much.
    pub fn drop_input(&mut self) -> Dropped {
        match self {
            Stream::Tcp(stream) => drop_input(stream),
            Stream::Unix(stream) => drop_input(stream),
        }
    }

    /// Makes a registry report under another token, and once more what it has reported. Returns the registry's error.
    pub fn report_as(&mut self, registry: &Registry, token: Token) -> io::Result<()> {
        match self {
            Stream::Tcp(stream) => registry.reregister(stream, token, bytes()),
            Stream::Unix(stream) => registry.reregister(stream, token, bytes()),
        }
    }

    /// Makes a registry report in addition when there is room to write, also if there is some by now. Returns the registry's error.
    pub fn watch_room(&mut self, registry: &Registry, token: Token) -> io::Result<()>
        ensures { self.new ≡ self.old }
    {
        let both = bytes() | Interest::WRITABLE;
        match self {
            Stream::Tcp(stream) => registry.reregister(stream, token, both),
            Stream::Unix(stream) => registry.reregister(stream, token, both),
        }
    }
}

/// The interest in bytes to read, also in urgent ones.
fn bytes() -> Interest {
    Interest::READABLE | Interest::PRIORITY
}

/// Reads and drops what has come in, unless it is much.
fn drop_input<I: Read>(reader: &mut I) -> Dropped {
    let mut buffer = [0u8; 4096];
    for _read in 0..DROPPED_READS {
        match reader.read(&mut buffer) {
            Ok(0) => return Dropped::All,
            Ok(_) => {}
            Err(error) if error.kind() == ErrorKind::WouldBlock => return Dropped::Present,
            Err(error) if error.kind() == ErrorKind::Interrupted => {}
            Err(_) => return Dropped::All,
        }
    }
    Dropped::Some
}

//! What a namespace holds, as its clients are told.

use cached_config::{HostedNamespace, Hosting, Protocol};
use cached_server::Machine;
use std::alloc::{AllocError, Global};
use std::io::{Read, Write};
use std::net::{IpAddr, SocketAddr, TcpStream};
use std::os::unix::net::UnixStream;
use std::str;
use std::time::Duration;

/// The longest reply that is read is shorter.
const REPLY_BYTES: usize = 4096;

/// Where a namespace is served.
#[derive(Drop)]
pub enum Place {
    /// At this address of the network.
    Address(SocketAddr),
    /// At this path.
    Path(String),
}

/// How many values are held, and how much they weigh.
#[derive(Clone, Copy, Drop)]
pub struct Holding {
    /// How many values are held.
    pub values: u64,
    /// What the values weigh together.
    pub weight: u64,
    /// How many commands there were, as far as the protocol's statistics tell that.
    pub commands: Option<Commands>,
}

/// How many commands of the memcache protocol there were.
#[derive(Clone, Copy, Drop)]
pub struct Commands {
    /// How many keys were looked up.
    pub get: u64,
    /// How many commands were to store something.
    pub set: u64,
    /// How many keys were touched.
    pub touch: u64,
    /// How many commands were to remove everything.
    pub flush: u64,
}

impl Place {
    /// Returns where a configuration says that a namespace is served. Returns an error if there is not enough memory.
    pub fn of(
        alloc: Global,
        space: &HostedNamespace,
        hosting: &Hosting,
    ) -> Result<Place, AllocError> {
        let address: Result<IpAddr, _> = hosting.bind.as_str().parse();
        match address {
            Ok(address) => Ok(Place::Address(SocketAddr::from((address, space.port)))),
            Err(_) => Ok(Place::Path(String::from_str(alloc, hosting.bind.as_str())?)),
        }
    }

    /// Asks as a client what is held, by a protocol. Returns `None` if there is no answer within a second.
    pub fn ask<R: Machine>(&self, rt: &R, protocol: Protocol) -> Option<Holding> {
        let second = Duration::from_secs(1);
        match self {
            Place::Address(address) => {
                let mut stream = TcpStream::connect_timeout(rt, address, second).ok()?;
                stream.set_read_timeout(Some(second)).ok()?;
                ask_over(&mut stream, protocol)
            }
            Place::Path(path) => {
                let mut stream = UnixStream::connect(rt, path.as_str()).ok()?;
                stream.set_read_timeout(Some(second)).ok()?;
                ask_over(&mut stream, protocol)
            }
        }
    }
}

/// Asks over a connection what is held.
fn ask_over<S: Read + Write>(stream: &mut S, protocol: Protocol) -> Option<Holding> {
    let mut reply = [0u8; REPLY_BYTES];
    match protocol {
        Protocol::Lines => {
            stream.write_all(b"SYNC\nQUIT\n").ok()?;
            holding_in(read_reply(stream, b"\n", &mut reply)?)
        }
        Protocol::Memcache(_) => {
            stream.write_all(b"stats\r\nquit\r\n").ok()?;
            items_in(read_reply(stream, b"END\r\n", &mut reply)?)
        }
    }
}

/// Reads a reply, until it ends in a text. `None` if it does not, or is too long.
fn read_reply<'a, S: Read>(stream: &mut S, end: &[u8], reply: &'a mut [u8]) -> Option<&'a [u8]> {
    let mut count = 0usize;
    for _read in 0..reply.len() {
        let rest = reply.get_mut(count..)?;
        match stream.read(rest).ok()? {
            0 => return None,
            more => count = count.saturating_add(more),
        }
        if reply.get(..count)?.ends_with(end) {
            return reply.get(..count);
        }
    }
    None
}

/// What a reply to `stats` says is held.
fn items_in(reply: &[u8]) -> Option<Holding> {
    let text = str::from_utf8(reply).ok()?;
    Some(Holding {
        values: stat_in(text, "curr_items")?,
        weight: stat_in(text, "bytes")?,
        commands: commands_in(text),
    })
}

/// What a reply to `stats` says of commands.
fn commands_in(text: &str) -> Option<Commands> {
    Some(Commands {
        get: stat_in(text, "cmd_get")?,
        set: stat_in(text, "cmd_set")?,
        touch: stat_in(text, "cmd_touch")?,
        flush: stat_in(text, "cmd_flush")?,
    })
}

/// The number that a reply to `stats` tells under a name.
fn stat_in(text: &str, name: &str) -> Option<u64> {
    for line in text.lines() {
        let mut words = line.split(" ");
        if words.next() == Some("STAT") && words.next() == Some(name) {
            return words.next()?.parse().ok();
        }
    }
    None
}

/// What a reply to `SYNC` says is held.
fn holding_in(reply: &[u8]) -> Option<Holding> {
    let text = str::from_utf8(reply).ok()?;
    let mut words = text.lines().next()?.split(" ");
    if words.next()? != "SYNC" {
        return None;
    }
    let values = words.next()?.parse().ok()?;
    let weight = words.next()?.parse().ok()?;
    Some(Holding {
        values,
        weight,
        commands: None,
    })
}

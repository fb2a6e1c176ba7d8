//! Clients and a host on this machine.
ghost use Rattle.std.specs.Prelude.{◌≡◌, ◌<◌, length};

use crate::devices::Plain;
use crate::meetings::Meeting;
use crate::steps::finish;
use cache_service::{Hosted, host};
use cache_shared::{Seat, Seating, Shareable, SharedService};
use std::alloc::Global;
use std::io::{Read, Write};
use std::net::{Ipv4Addr, Net, SocketAddr, TcpListener, TcpStream};
use std::sync::atomic::{AtomicU64, Ordering};
use std::sync::{Arc, Wait};
use std::thread;
use std::thread::Threads;
use std::time::{Clock, Duration};

/// Two clients, and what has to come of them. The first has connected before the host begins; the second connects once the first has read,
/// and sends once the first has gone.
#[derive(Clone, Copy)]
pub struct Visit<'a> {
    pub texts: (&'a [u8], &'a [u8]),
    /// How often a client reads, if its stream does not end before.
    pub reads: u32,
    /// Whether the listener blocks. One that does not refuses an accept where nobody is there.
    pub blocks: bool,
    /// How many connections are hosted.
    pub limit: Option<u64>,
    pub replies: (&'a [u8], &'a [u8]),
    /// Whether the host ends early.
    pub is_early: bool,
    /// How many events there are at least.
    pub events: u64,
    /// How many notes are told.
    pub told: u64,
}

/// Connects. No read waits longer than 20 seconds.
fn connect<R: Net<Listener = TcpListener, Stream = TcpStream>>(
    rt: &R,
    addr: SocketAddr,
) -> Option<TcpStream> {
    match TcpStream::connect(rt, addr) {
        Ok(stream) => {
            let _ = stream.set_read_timeout(Some(Duration::from_secs(20)));
            Some(stream)
        }
        Err(_) => None,
    }
}

/// Reads once. Answers whether there was anything.
fn reads(stream: &mut TcpStream, replies: &mut Vec<u8>) -> bool {
    let mut buffer = [0u8; 64];
    match stream.read(&mut buffer) {
        Ok(0) | Err(_) => false,
        Ok(count) => replies.extend_from_slice(&buffer[..count]).is_ok(),
    }
}

/// Reads so often or to the end.
fn read_often(stream: &mut TcpStream, replies: &mut Vec<u8>, times: u32) {
    for _ in 0..times {
        if !reads(stream, replies) {
            return;
        }
    }
}

/// Sends a text, and answers whether that is replied. What cannot be sent or read is left out.
fn talks(alloc: Global, stream: &mut TcpStream, text: &[u8], reads: u32, wanted: &[u8]) -> bool {
    let mut replies = Vec::new(alloc);
    let _ = stream.write_all(text);
    read_often(stream, &mut replies, reads);
    replies.as_slice() == wanted
}

/// The second client's part, once the first has gone.
fn talks_behind(
    alloc: Global,
    first: TcpStream,
    stream: &mut TcpStream,
    visit: &Visit<'_>,
) -> bool {
    drop(first);
    talks(alloc, stream, visit.texts.1, visit.reads, visit.replies.1)
}

/// The clients' part. Answers whether both are replied so.
fn both_talk<R: Net<Listener = TcpListener, Stream = TcpStream>>(
    rt: &R,
    alloc: Global,
    addr: SocketAddr,
    mut one: TcpStream,
    visit: &Visit<'_>,
) -> bool {
    let is_first = talks(alloc, &mut one, visit.texts.0, visit.reads, visit.replies.0);
    match connect(rt, addr) {
        Some(mut two) => talks_behind(alloc, one, &mut two, visit) && is_first,
        None => false,
    }
}

/// The clients' part, unless the host has given them up: then both go, and the host is not there.
fn both_come<R: Net<Listener = TcpListener, Stream = TcpStream>>(
    rt: &R,
    alloc: Global,
    addr: SocketAddr,
    one: TcpStream,
    visit: &Visit<'_>,
    meeting: &Meeting,
) -> bool {
    if meeting.come() {
        both_talk(rt, alloc, addr, one, visit)
    } else {
        false
    }
}

/// The address of a listener, which is made to block or not.
fn address_of(listener: &TcpListener, blocks: bool) -> Option<SocketAddr> {
    match listener.set_nonblocking(!blocks) {
        Ok(()) => listener.local_addr().ok(),
        Err(_) => None,
    }
}

/// A listener with its address, if it has one.
fn with_address(listener: TcpListener, blocks: bool) -> Option<(TcpListener, SocketAddr)> {
    match address_of(&listener, blocks) {
        Some(addr) => Some((listener, addr)),
        None => None,
    }
}

/// A listener of this machine, and its address.
fn listen<R: Net<Listener = TcpListener, Stream = TcpStream>>(
    rt: &R,
    blocks: bool,
) -> Option<(TcpListener, SocketAddr)> {
    match TcpListener::bind(rt, SocketAddr::from((Ipv4Addr::LOCALHOST, 0))) {
        Ok(listener) => with_address(listener, blocks),
        Err(_) => None,
    }
}

/// What came of two clients: whether they were replied so, and what the host leaves.
#[derive(Drop)]
struct Came<L: Seating, C> {
    is_replied: bool,
    hosted: Hosted<L, C>,
}

/// The host's part, once the clients are there; `None` if they do not come. Without them it would wait for them for ever.
fn host_them<L, C, R>(
    rt: R,
    alloc: Global,
    shared: &SharedService<L, C>,
    devices: &Plain,
    visit: &Visit<'_>,
    listener: &TcpListener,
    meeting: &Meeting,
) -> Option<Hosted<L, C>>
where
    L: Seating + Send + Sync + 'static,
    C: Shareable + Send + 'static,
    R: Threads + Wait + Clock + Copy + Send + Sync + 'static,
    requires known { 0 < length L.configs }
{
    if meeting.meets(&rt) {
        Some(host(rt, alloc, shared, 0, listener, devices, visit.limit))
    } else {
        None
    }
}

/// Hosts both clients, of whom the first has connected. `None` if no thread can be made for them.
fn host_with<L, C, R>(
    rt: R,
    alloc: Global,
    shared: &SharedService<L, C>,
    devices: &Plain,
    visit: &Visit<'_>,
    listener: &TcpListener,
    addr: SocketAddr,
    one: TcpStream,
) -> Option<Came<L, C>>
where
    L: Seating + Send + Sync + 'static,
    C: Shareable + Send + 'static,
    R: Net<Listener = TcpListener, Stream = TcpStream>
        + Threads
        + Wait
        + Clock
        + Copy
        + Send
        + Sync
        + 'static,
    requires known { 0 < length L.configs }
{
    let lent = &rt;
    let meeting = &Meeting::new();
    let (is_replied, hosted) = thread::join(
        lent,
        move || both_come(lent, alloc, addr, one, visit, meeting),
        ||
            requires { 0 < length L.configs }
        { host_them(rt, alloc, shared, devices, visit, listener, meeting) },
    );
    match hosted {
        Some(hosted) => Some(Came { is_replied, hosted }),
        None => None,
    }
}

/// Hosts both clients at an address of a listener.
fn host_both<L, C, R>(
    rt: R,
    alloc: Global,
    shared: &SharedService<L, C>,
    devices: &Plain,
    visit: &Visit<'_>,
    listener: &TcpListener,
    addr: SocketAddr,
) -> Option<Came<L, C>>
where
    L: Seating + Send + Sync + 'static,
    C: Shareable + Send + 'static,
    R: Net<Listener = TcpListener, Stream = TcpStream>
        + Threads
        + Wait
        + Clock
        + Copy
        + Send
        + Sync
        + 'static,
    requires known { 0 < length L.configs }
{
    match connect(&rt, addr) {
        Some(one) => host_with(rt, alloc, shared, devices, visit, listener, addr, one),
        None => None,
    }
}

/// The same on a port of this machine.
fn host_here<L, C, R>(
    rt: R,
    alloc: Global,
    shared: &SharedService<L, C>,
    devices: &Plain,
    visit: &Visit<'_>,
) -> Option<Came<L, C>>
where
    L: Seating + Send + Sync + 'static,
    C: Shareable + Send + 'static,
    R: Net<Listener = TcpListener, Stream = TcpStream>
        + Threads
        + Wait
        + Clock
        + Copy
        + Send
        + Sync
        + 'static,
    requires known { 0 < length L.configs }
{
    match listen(&rt, visit.blocks) {
        Some((listener, addr)) => host_both(rt, alloc, shared, devices, visit, &listener, addr),
        None => None,
    }
}

/// How many inputs seats count together.
fn count_of<L: Seating, C>(seats: &[Seat<L, C>]) -> u64 {
    let mut count = 0u64;
    for seat in seats {
        count = count.saturating_add(seat.count());
    }
    count
}

/// Whether a host ends as it should, and as many events as wanted are behind it.
fn ends_so<L: Seating, C: Shareable>(
    shared: SharedService<L, C>,
    hosted: Hosted<L, C>,
    visit: &Visit<'_>,
) -> bool
    requires ledger { L.all ≡ L.parts }
{
    let Hosted { seats, failed } = hosted;
    let has_happened = visit.events <= count_of(seats.as_slice());
    finish(shared, seats).is_some() && failed == visit.is_early && has_happened
}

/// Whether two clients came to what their visit says.
fn comes_so<L: Seating, C: Shareable>(
    shared: SharedService<L, C>,
    came: Came<L, C>,
    visit: &Visit<'_>,
) -> bool
    requires ledger { L.all ≡ L.parts }
{
    let Came { is_replied, hosted } = came;
    ends_so(shared, hosted, visit) && is_replied
}

/// Whether two clients come to what their visit says, with these devices.
fn is_hosted_so<L, C, R>(
    rt: R,
    alloc: Global,
    shared: SharedService<L, C>,
    devices: &Plain,
    visit: &Visit<'_>,
) -> bool
where
    L: Seating + Send + Sync + 'static,
    C: Shareable + Send + 'static,
    R: Net<Listener = TcpListener, Stream = TcpStream>
        + Threads
        + Wait
        + Clock
        + Copy
        + Send
        + Sync
        + 'static,
    requires known { 0 < length L.configs }
    requires ledger { L.all ≡ L.parts }
{
    match host_here(rt, alloc, &shared, devices, visit) {
        Some(came) => {
            comes_so(shared, came, visit) && devices.told.load(Ordering::SeqCst) == visit.told
        }
        None => false,
    }
}

/// Whether two clients come to what their visit says, with devices of a count that stands at 0.
pub fn is_visit_so<L, C, R>(
    rt: R,
    alloc: Global,
    shared: SharedService<L, C>,
    visit: &Visit<'_>,
) -> bool
where
    L: Seating + Send + Sync + 'static,
    C: Shareable + Send + 'static,
    R: Net<Listener = TcpListener, Stream = TcpStream>
        + Threads
        + Wait
        + Clock
        + Copy
        + Send
        + Sync
        + 'static,
    requires known { 0 < length L.configs }
    requires ledger { L.all ≡ L.parts }
{
    match Arc::new(alloc, AtomicU64::new(0)) {
        Ok(told) => is_hosted_so(rt, alloc, shared, &Plain { told }, visit),
        Err(_) => false,
    }
}

//! A thread for each connection.
ghost use Rattle.std.specs.Prelude.{◌<◌, length};

use crate::devices::Devices;
use crate::parting::part;
use crate::serving::serve_and_tell;
use crate::workers::Workers;
use cache_run::Watched;
use cache_shared::{Seat, Seating, Shareable, SharedService};
use std::alloc::Global;
use std::net::{TcpListener, TcpStream};
use std::sync::Wait;
use std::thread;
use std::thread::{SpawnError, Threads};

/// The result of `host`: the seats of the connections that were served, and whether it could not continue.
#[derive(Drop)]
pub struct Hosted<L: Seating, C> {
    /// The seats, in no order; one serves many connections, one after another. A seat for which there was no memory is missing, so that
    /// `SharedService::finish` then returns everything.
    pub seats: Vec<Seat<L, C>>,
    /// Whether `host` ended early: an accept failed while nobody was connected, and not for lack of descriptors or memory, or there was no
    /// memory to begin with.
    pub failed: bool,
}

/// Serves the connections that a listener accepts as connections of an existing namespace, by `serve_and_tell`, each on a thread of its own
/// with devices and a seat of its own, up to `limit` of them (2^64 - 1 without one), and then joins the threads. A thread whose connection
/// is over ends the writing, and drops what comes in, for a second at most by the connection's clock, so that its client gets the replies.
///
/// An accept whose client has already gone is tried again. After any other failure, for example if no descriptor is free, `host` waits
/// until a connection has ended, and tries again. While nobody is connected, an accept that lacks descriptors or memory, which other
/// namespaces may have, is tried again each millisecond, and any other failure ends the host early.
///
/// If devices, seat or memory are not available, only that connection is closed; if no thread can be created, it is served on this one.
pub fn host<L, C, D, R>(
    rt: R,
    alloc: Global,
    shared: &SharedService<L, C>,
    namespace: u64,
    listener: &TcpListener,
    devices: &D,
    limit: Option<u64>,
) -> Hosted<L, C>
where
    L: Seating + Send + Sync + 'static,
    C: Shareable + Send + 'static,
    D: Devices,
    R: Threads + Wait + Copy + Send + Sync + 'static,
    requires known { namespace < length L.configs }
{
    let Ok(mut workers) = Workers::new(alloc) else {
        return Hosted {
            seats: Vec::new(alloc),
            failed: true,
        };
    };
    let mut failed = false;
    for _served in 0..limit.unwrap_or(u64::MAX) {
        let Some(stream) = workers.accept(&rt, listener) else {
            failed = true;
            break;
        };
        let _ = admit(rt, alloc, shared, namespace, devices, stream, &mut workers);
    }
    let seats = workers.finish(&rt);
    Hosted { seats, failed }
}

/// Serves one connection on a thread of its own, or here if none can be created. None, and the connection is closed, if what it needs is
/// not available.
fn admit<L, C, D, R>(
    rt: R,
    alloc: Global,
    shared: &SharedService<L, C>,
    namespace: u64,
    devices: &D,
    stream: TcpStream,
    workers: &mut Workers<L, C>,
) -> Option<()>
where
    L: Seating + Send + Sync + 'static,
    C: Shareable + Send + 'static,
    D: Devices,
    R: Threads + Wait + Copy + Send + Sync + 'static,
    requires known { namespace < length L.configs }
{
    // The replies of a piece go out in several writes, and none of them should wait for the client's acknowledgement.
    let _ = stream.set_nodelay(true);
    let (place, done) = workers.reserve(&rt).ok()?;
    let devices = devices.make(alloc)?;
    let shared = SharedService::clone(shared).ok()?;
    let seat = workers.take_seat(&rt, &shared)?;
    let serving = move ||
        requires { namespace < length L.configs }
    {
        let (mut clock, mut loader, mut teller) = devices;
        let mut seat = seat;
        let _ = serve_and_tell(
            &rt,
            alloc,
            &shared,
            &mut seat,
            namespace,
            &mut Watched::new(&stream),
            &mut Watched::new(&stream),
            &mut clock,
            &mut loader,
            &mut teller,
        );
        part(&stream, &mut clock);
        done.tell(&rt, place);
        seat
    };
    match thread::spawn(&rt, serving) {
        Ok(thread) => workers.add(thread),
        Err(SpawnError { value }) => workers.give_back(&rt, place, value()),
    }
    Some(())
}

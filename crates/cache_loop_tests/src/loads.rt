//! Loaders that take time, on threads of their own.
ghost use Rattle.std.specs.Prelude.{◌≡◌, ◌∷◌, [], false, IfSome};
ghost use Rattle.cache_shared.specs.Recordings.{bare_spaces, no_journals};
ghost use Rattle.cache_shared.specs.Events.{StandsAfter};

use crate::clients::free_port;
use crate::scenes::{Players, Step};
use audit_model::{Config, EvictionPolicy, Instant, Outcome, Seq, Weight};
use bivrangd_server::Told;
use cache_loop::{Counts, Crew, Doorway, LOADED, LineSteward, Pool, Rules, STOP, serve_by};
use cache_run::{Clock, Loader};
use cache_service::{Sitting, Untold};
use cache_shared::{Books, Seating, Shareable, SharedService};
use cache_spaces::Service;
use cached_server::Machine;
use crossbeam_channel::{Receiver, unbounded};
use mio::net::TcpListener;
use mio::{Poll, Waker};
use rand_core::SeedableRng;
use rand_xoshiro::Xoshiro256PlusPlus;
use std::alloc::Global;
use std::marker::Brand;
use std::net::{Ipv4Addr, Net, SocketAddr, TcpStream};
use std::random::RandomSource;
use std::sync::atomic::{AtomicU64, Ordering};
use std::sync::{Arc, Mutex, Wait};
use std::thread::{JoinHandle, Threads};
use std::time::Duration;
use std::{net, thread, time};

/// A clock that counts from its making on.
#[derive(Drop)]
struct Since<R: time::Clock> {
    rt: R,
    begun: time::Instant,
}

impl<R: time::Clock> Clock for Since<R> {
    ghost reads = { λ c t d. Unit {0} };

    fn now(&mut self) -> u64 {
        match time::Instant::now(&self.rt) {
            Ok(now) => {
                let since = now.saturating_duration_since(self.begun);
                u64::try_from(since.as_nanos()).unwrap_or(0)
            }
            Err(_) => 0,
        }
    }
}

/// A loader whose values are their keys. Of all loaders with the same count, the first that is asked answers when it is told to, and if it
/// is not told so within ten seconds, that there is no value; each later one answers at once.
#[derive(Drop)]
struct Held<R: Wait> {
    rt: R,
    alloc: Global,
    asked: Arc<AtomicU64>,
    told: Receiver<Told, Global>,
}

impl<R: time::Clock + Wait> Loader for Held<R> {
    ghost loads = { λ c key answer d. Unit {0} };

    fn load(&mut self, key: &[u8]) -> Option<Outcome> {
        let is_first = self.asked.fetch_add(1, Ordering::SeqCst) == 0;
        if is_first {
            let told = self.told.recv_timeout(&self.rt, Duration::from_secs(10));
            if told.is_err() {
                return Some(Outcome::None);
            }
        }
        let value = Vec::from_slice(self.alloc, key).ok()?;
        Some(Outcome::Value(Seq::from_vec(value), None))
    }
}

/// So many loops, each with so many loaders, what clients do, and how often loaders are asked in all. After so many nanoseconds a load is
/// given up.
#[derive(Clone, Copy)]
struct Case {
    loops: usize,
    loaders: u64,
    limit: Option<u64>,
    steps: &'static [Step],
    asks: u64,
}

const CASES: &[Case] = &[
    // A load of one connection, for which another one waits, perhaps of another loop. A third is served in the meantime.
    Case {
        loops: 2,
        loaders: 1,
        limit: None,
        steps: &[
            Step::Connect,
            Step::Send(0, b"LOAD k\n", 1),
            Step::Pause(100),
            Step::Connect,
            Step::Send(1, b"LOAD k\nGET k\n", 1),
            Step::Connect,
            Step::Send(2, b"GET z\n", 1),
            Step::Read(2, b"NONE\n", 1),
            Step::Stop,
            Step::Read(0, b"VAL k\n", 1),
            Step::Read(1, b"VAL k\nVAL k\n", 1),
        ],
        asks: 1,
    },
    // Of two that wait for the load of a third, one goes. Another one comes, and waits too.
    Case {
        loops: 1,
        loaders: 1,
        limit: None,
        steps: &[
            Step::Connect,
            Step::Send(0, b"LOAD k\n", 1),
            Step::Pause(100),
            Step::Connect,
            Step::Send(1, b"LOAD k\n", 1),
            Step::Connect,
            Step::Send(2, b"LOAD k\nGET k\n", 1),
            Step::Pause(100),
            Step::Leave(1),
            Step::Connect,
            Step::Send(3, b"LOAD k\n", 1),
            Step::Pause(100),
            Step::Stop,
            Step::Read(0, b"VAL k\n", 1),
            Step::Read(2, b"VAL k\nVAL k\n", 1),
            Step::Read(3, b"VAL k\n", 1),
        ],
        asks: 1,
    },
    // A loader is held until another connection of the same loop has got its load, and more.
    Case {
        loops: 1,
        loaders: 2,
        limit: None,
        steps: &[
            Step::Connect,
            Step::Send(0, b"LOAD a\nGET b\n", 1),
            Step::Pause(100),
            Step::Connect,
            Step::Send(1, b"LOAD b\nGET z\n", 1),
            Step::Read(1, b"VAL b\nNONE\n", 1),
            Step::Stop,
            Step::Read(0, b"VAL a\nVAL b\n", 1),
        ],
        asks: 2,
    },
    // A load is given up after a fifth of a second, and asked for again; what its first loader then says is not told to anybody.
    Case {
        loops: 1,
        loaders: 2,
        limit: Some(200_000_000),
        steps: &[
            Step::Connect,
            Step::Send(0, b"LOAD a\n", 1),
            Step::Read(0, b"VAL a\n", 1),
            Step::Stop,
            Step::Send(0, b"GET a\n", 1),
            Step::Read(0, b"VAL a\n", 1),
        ],
        asks: 2,
    },
    // The only loader is held while loads are given up several times: then it is asked for each of them once more.
    Case {
        loops: 1,
        loaders: 1,
        limit: Some(500_000_000),
        steps: &[
            Step::Connect,
            Step::Send(0, b"LOAD a\n", 1),
            Step::Pause(100),
            Step::Connect,
            Step::Send(1, b"LOAD b\n", 1),
            Step::Pause(1600),
            Step::Stop,
            Step::Read(0, b"VAL a\n", 1),
            Step::Read(1, b"VAL b\n", 1),
        ],
        asks: 3,
    },
];

/// What a loop is given.
#[derive(Drop)]
struct Gear<R: Wait> {
    poll: Poll,
    doorway: Doorway,
    crew: Crew,
    loaders: Vec<Held<R>>,
    limit: Option<u64>,
}

/// The gear of some loops, and the wakers by which they are stopped.
#[derive(Drop)]
struct Workshop<R: Wait> {
    gears: Vec<Gear<R>>,
    stoppers: Vec<Waker>,
}

/// A place to wait, with its waker.
fn make_poll<R: Machine>(rt: &R) -> Option<(Poll, Waker)> {
    let poll = Poll::new(rt).ok()?;
    let waker = Waker::new(poll.registry(), LOADED).ok()?;
    Some((poll, waker))
}

/// Places to wait for so many loops, with their wakers.
fn make_polls<R: Machine>(rt: &R, alloc: Global, loops: usize) -> Option<(Vec<Poll>, Vec<Waker>)> {
    let (mut polls, mut wakers) = (Vec::new(alloc), Vec::new(alloc));
    for _loop in 0..loops {
        let (poll, waker) = make_poll(rt)?;
        wakers.push(waker).ok()?;
        polls.push(poll).ok()?;
    }
    Some((polls, wakers))
}

/// How the loops serve.
const RULES: Rules = Rules {
    accepts: 1,
    connections: 10,
    idle: None,
};

/// A loader that counts here how often it is asked.
fn make_loader<R: Machine>(
    rt: R,
    alloc: Global,
    asked: &Arc<AtomicU64>,
    told: &Receiver<Told, Global>,
) -> Option<Held<R>> {
    let asked = Arc::try_clone(asked).ok()?;
    let told = Receiver::clone(told).ok()?;
    Some(Held {
        rt,
        alloc,
        asked,
        told,
    })
}

/// So many loaders.
fn make_loaders<R: Machine>(
    rt: R,
    alloc: Global,
    count: u64,
    asked: &Arc<AtomicU64>,
    told: &Receiver<Told, Global>,
) -> Option<Vec<Held<R>>> {
    let mut loaders = Vec::new(alloc);
    for _loader in 0..count {
        loaders.push(make_loader(rt, alloc, asked, told)?).ok()?;
    }
    Some(loaders)
}

/// The crew of one of the loops with these wakers, which together have so many connections open.
fn make_crew(alloc: Global, open: &Arc<AtomicU64>, wakers: &Arc<Vec<Waker>>) -> Option<Crew> {
    let open = Arc::try_clone(open).ok()?;
    let wakers = Arc::try_clone(wakers).ok()?;
    let counts = Arc::new(alloc, Mutex::new(Counts::new())).ok()?;
    Some(Crew {
        alloc,
        namespace: 0,
        rules: RULES,
        open,
        wakers,
        counts,
    })
}

/// Where clients of a port come in.
fn listen<R: Machine>(rt: &R, port: u16) -> Option<net::TcpListener> {
    let address = SocketAddr::from((Ipv4Addr::LOCALHOST, port));
    let listener = TcpListener::bind(rt, address).ok()?;
    Some(net::TcpListener::from(listener))
}

/// One more way in, at the same port.
fn share_doorway(listener: &net::TcpListener) -> Option<Doorway> {
    let listener = listener.try_clone().ok()?;
    Some(Doorway::Tcp(TcpListener::from_std(listener)))
}

/// The gear of loops at a port, whose loaders count here how often they are asked.
fn make_workshop<R: Machine>(
    rt: R,
    alloc: Global,
    case: Case,
    port: u16,
    asked: &Arc<AtomicU64>,
    told: &Receiver<Told, Global>,
) -> Option<Workshop<R>> {
    let listener = listen(&rt, port)?;
    let open = Arc::new(alloc, AtomicU64::new(0)).ok()?;
    let (polls, wakers) = make_polls(&rt, alloc, case.loops)?;
    let wakers = Arc::new(alloc, wakers).ok()?;
    let (mut gears, mut stoppers) = (Vec::new(alloc), Vec::new(alloc));
    for poll in polls {
        stoppers.push(Waker::new(poll.registry(), STOP).ok()?).ok()?;
        let gear = Gear {
            poll,
            doorway: share_doorway(&listener)?,
            crew: make_crew(alloc, &open, &wakers)?,
            loaders: make_loaders(rt, alloc, case.loaders, asked, told)?,
            limit: case.limit,
        };
        gears.push(gear).ok()?;
    }
    Some(Workshop { gears, stoppers })
}

/// Serves connections until the loop is stopped. Whether it ends well.
fn serve<L: Seating, C: Shareable, R: Machine>(
    rt: &R,
    alloc: Global,
    shared: &SharedService<L, C>,
    gear: Gear<R>,
) -> Option<bool> {
    let Gear {
        mut poll,
        doorway,
        crew,
        loaders,
        limit,
    } = gear;
    let waker = Waker::new(poll.registry(), LOADED).ok()?;
    let asker = Pool::start(*rt, alloc, loaders, waker).ok()?;
    let mut untold = Untold;
    let mut seat = shared.seat(rt).ok()?;
    let mut sitting = Sitting::new(rt, alloc, shared, &mut untold, false).ok()?;
    let begun = time::Instant::now(rt).ok()?;
    let clock = Since { rt: *rt, begun };
    let place = &mut seat;
    let steward = LineSteward::new(alloc, 0, &mut sitting, place, clock, asker, limit);
    let mut steward = steward.ok()?;
    let ended = serve_by(rt, &mut steward, &mut poll, doorway, &crew);
    steward.end().join();
    Some(ended.is_ok())
}

/// Starts loops that share a service, each on a thread that says at its end whether it ended well.
fn start_all<L, C, R>(
    rt: R,
    alloc: Global,
    shared: &SharedService<L, C>,
    gears: Vec<Gear<R>>,
) -> Option<Vec<JoinHandle<Option<bool>>>>
where
    L: Seating + Send + Sync + 'static,
    C: Shareable + Send + 'static,
    R: Machine,
{
    let mut threads = Vec::new(alloc);
    for gear in gears {
        let shared = SharedService::clone(shared).ok()?;
        let serving = move || serve(&rt, alloc, &shared, gear);
        threads.push(thread::spawn(&rt, serving).ok()?).ok()?;
    }
    Some(threads)
}

/// Stops loops. Whether all end well.
fn stop_all<R: Machine>(
    rt: &R,
    stoppers: &[Waker],
    threads: Vec<JoinHandle<Option<bool>>>,
) -> bool {
    let mut good = true;
    for stopper in stoppers {
        good = stopper.wake().is_ok() && good;
    }
    for thread in threads {
        good = thread.join(rt) == Some(true) && good;
    }
    good
}

/// Whether the clients and the loaders do what a case says, with loops that share a service with so many parts of a ledger.
fn serve_case<L, C, R>(
    rt: R,
    alloc: Global,
    core: C,
    books: Books<C>,
    parts: u64,
    case: Case,
) -> Option<bool>
where
    L: Seating + Send + Sync + 'static,
    C: Shareable + Send + 'static,
    R: Machine,
    requires empty { StandsAfter C.KEEPS L.configs C.spaces C.journals 0 core }
    requires name { books.blank.name ≡ L.name }
    requires parts { (books.blank.parts ≡ L.parts) × (L.all ≡ L.parts) × (parts ≡ L.parts) }
    requires history { (books.opened.0 ≡ L.history) × (books.opened.1 ≡ core) }
{
    let shared = SharedService::<L, C>::new(alloc, core, books, parts).ok()?;
    let asked = Arc::new(alloc, AtomicU64::new(0)).ok()?;
    let (orders, told) = unbounded(alloc).ok()?;
    let mut players = Players {
        port: free_port(&rt)?,
        metrics: 0,
        streams: Vec::new(alloc),
        orders,
    };
    let workshop = make_workshop(rt, alloc, case, players.port, &asked, &told)?;
    let Workshop { gears, stoppers } = workshop;
    let threads = start_all(rt, alloc, &shared, gears)?;
    let good = players.play_all(&rt, case.steps) && asked.load(Ordering::SeqCst) == case.asks;
    Some(stop_all(&rt, stoppers.as_slice(), threads) && good)
}

/// Without limits.
const PLAIN: Config = Config {
    capacity: None,
    policy: EvictionPolicy::Lru,
    parts: 1,
    weight: Weight::One,
    live_ms: None,
    idle_ms: None,
    own_deadlines: false,
};

/// A service of one namespace without limits.
pub fn make_service(alloc: Global) -> Option<Service>
    ensures { IfSome result (StandsAfter false (PLAIN ∷ []) bare_spaces no_journals 0) }
{
    let generator = Xoshiro256PlusPlus::seed_from_u64(1);
    match Service::new(alloc, &[PLAIN], generator, Instant { nanos: 0 }) {
        Ok(core) => Some(core),
        Err(_) => None,
    }
}

/// Whether a case comes out as it says, over a new service.
fn comes_out<R: Machine>(rt: R, alloc: Global, case: Case) -> bool {
    let Some(core) = make_service(alloc) else {
        return false;
    };
    match Books::new(alloc, &core, 2) {
        Ok(books) => serve_case::<Brand, Service, R>(rt, alloc, core, books, 2, case) == Some(true),
        Err(_) => false,
    }
}

/// Whether all cases come out as they say, at the second try if memory was refused at the first.
fn all_come_out<R>(rt: R, alloc: Global) -> bool
where
    R: Net<Listener = net::TcpListener, Stream = TcpStream>
        + time::Clock
        + RandomSource
        + Threads
        + Wait
        + Copy
        + Send
        + Sync
        + 'static,
{
    for case in CASES {
        if !comes_out(rt, alloc, *case) && !comes_out(rt, alloc, *case) {
            return false;
        }
    }
    true
}

#[test]
fn loaders_take_time(rt: HostRuntime) {
    assert!(rt; all_come_out(rt, rt.alloc()));
}

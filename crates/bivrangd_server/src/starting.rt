//! The threads of a namespace.
ghost use Rattle.std.specs.Prelude.{◌≡◌};

use crate::fates::Fates;
use crate::heralds::Herald;
use crate::listening::Listener;
use crate::serving::{LineLoop, Report, serve_namespace};
use bivrangd_metrics::Source;
use cache_loop::{Crew, Departures, Doorway, LOADED, Rules, STOP};
use cache_service::Devices;
use cache_shared::{Seating, Shareable, SharedService};
use cached_config::Notices;
use cached_server::{Ending, Fault, Machine, Site};
use mio::{Poll, Waker};
use std::alloc::{AllocError, Global};
use std::sync::{Arc, Mutex};
use std::thread::JoinHandle;
use std::{io, thread};

/// The namespace: it is the only one of its service.
const NAMESPACE: u64 = 0;

/// What the threads report to the program.
#[derive(Clone, Copy, Drop)]
pub enum Told {
    /// The program is to stop.
    Stop,
    /// A loop has ended.
    Ended,
    /// A loop of the namespace with this number cannot go on.
    Failed(usize),
    /// There was not enough memory to start a loop.
    Starved,
}

/// The threads of all namespaces, the wakers by which they are stopped, and where their numbers are.
#[derive(Drop)]
pub struct Loops {
    /// The threads. Each returns whether all its loops ended as they were told, and handed their service back.
    pub threads: Vec<JoinHandle<bool>>,
    /// The wakers by which the threads are stopped.
    pub stoppers: Vec<Waker>,
    /// Where the numbers of each namespace are.
    pub sources: Vec<Source>,
}

/// Places to wait, one for each loop of a namespace, with the wakers of all of them.
#[derive(Drop)]
struct Places {
    polls: Vec<Poll>,
    // by these they are told that loads were settled
    wakers: Vec<Waker>,
    // by these they are stopped
    stoppers: Vec<Waker>,
}

impl Places {
    /// Makes so many.
    fn new<R: Machine>(rt: &R, alloc: Global, loops: usize) -> io::Result<Places> {
        let mut places = Places {
            polls: Vec::new(alloc),
            wakers: Vec::new(alloc),
            stoppers: Vec::new(alloc),
        };
        for _loop in 0..loops {
            places.add(Poll::new(rt)?)?;
        }
        Ok(places)
    }

    /// Adds one.
    fn add(&mut self, poll: Poll) -> io::Result<()> {
        self.wakers.push(Waker::new(poll.registry(), LOADED)?)?;
        self.stoppers.push(Waker::new(poll.registry(), STOP)?)?;
        self.polls.push(poll)?;
        Ok(())
    }
}

/// What a loop waits with, where its connections come in, and what it shares with others.
#[derive(Drop)]
pub struct Gear {
    /// Where the loop waits.
    pub poll: Poll,
    /// Where its connections come in.
    pub doorway: Doorway,
    /// What it shares with others.
    pub crew: Crew,
}

/// What a thread tells when its loop, of the namespace with this number, has ended.
pub fn told_by(served: &io::Result<()>, number: usize) -> Told {
    if served.is_ok() {
        Told::Ended
    } else {
        Told::Failed(number)
    }
}

impl Loops {
    /// Gear for some loops of a namespace that come next, whose stoppers and numbers are added to the others.
    pub fn add<R: Machine>(
        &mut self,
        rt: &R,
        alloc: Global,
        listener: &Listener,
        plan: (usize, Rules),
        source: Source,
    ) -> Result<Vec<Gear>, Ending> {
        let (loops, rules) = plan;
        let places = match Places::new(rt, alloc, loops) {
            Ok(places) => places,
            Err(error) => return Err(Ending::machine("a queue of events", error)),
        };
        let Places {
            polls,
            wakers,
            stoppers,
        } = places;
        let wakers = Arc::new(alloc, wakers)?;
        let mut source = source;
        let mut gears = Vec::with_capacity(alloc, loops)?;
        for poll in polls {
            let doorway = match listener.doorway() {
                Ok(doorway) => doorway,
                Err(error) => return Err(Ending::machine("a listener for each loop", error)),
            };
            let crew = crew_of(alloc, rules, &mut source, &wakers)?;
            gears.push(Gear {
                poll,
                doorway,
                crew,
            })?;
        }
        for stopper in stoppers {
            self.stoppers.push(stopper)?;
        }
        self.sources.push(source)?;
        Ok(gears)
    }
}

/// What a loop shares with the others of its namespace.
fn crew_of(
    alloc: Global,
    rules: Rules,
    source: &mut Source,
    wakers: &Arc<Vec<Waker>>,
) -> Result<Crew, AllocError> {
    Ok(Crew {
        alloc,
        namespace: NAMESPACE,
        rules,
        open: Arc::try_clone(&source.open)?,
        wakers: Arc::try_clone(wakers)?,
        counts: source.add_loop(alloc)?,
    })
}

/// What the loops of a namespace that speaks lines are started with.
#[derive(Drop)]
pub struct Start<L: Seating, C: Shareable, R: Machine> {
    /// The handle of the machine.
    pub rt: R,
    /// The allocator.
    pub alloc: Global,
    /// The service of the namespace.
    pub shared: SharedService<L, C>,
    /// Where notes go, and the namespace.
    pub site: Site<R>,
    /// How much of each note is reported.
    pub notices: Notices,
    /// After how many nanoseconds a load is given up, or `None` without a limit.
    pub limit: Option<u64>,
    /// How many values have left, by cause.
    pub departures: Arc<Mutex<Departures>>,
    /// What becomes of notices.
    pub fates: Arc<Fates>,
    /// Where the loops report that they have ended.
    pub report: Report,
}

impl<L, C, R> Start<L, C, R>
where
    L: Seating + Send + Sync + 'static,
    C: Shareable + Send + 'static,
    R: Machine,
{
    /// Starts a thread that serves the namespace by a loop for each gear, each with a seat. Returns an error if the thread cannot be started.
    pub fn start(self, gears: Vec<Gear>, threads: &mut Vec<JoinHandle<bool>>) -> Result<(), Ending>
        requires ledger { L.all ≡ L.parts }
    {
        let mut loops = Vec::with_capacity(self.alloc, gears.len())?;
        for gear in gears {
            loops.push(self.line_loop(gear)?)?;
        }
        Ok(threads.push(spawn(self, loops)?)?)
    }

    /// What a loop serves its connections with.
    fn line_loop(&self, gear: Gear) -> Result<LineLoop<L, C, R>, Ending> {
        let Some((clock, loader, site)) = self.site.make(self.alloc) else {
            return Err(Ending::from(Fault::OutOfMemory));
        };
        let Ok(seat) = self.shared.seat(&self.rt) else {
            return Err(Ending::from(Fault::UsedUp));
        };
        let herald = Herald {
            site,
            alloc: self.alloc,
            notices: self.notices,
            departures: Arc::try_clone(&self.departures)?,
            fates: Arc::try_clone(&self.fates)?,
        };
        Ok(LineLoop {
            seat,
            clock,
            loader,
            herald,
            gear,
            limit: self.limit,
        })
    }
}

/// Starts the thread that serves a namespace by these loops.
fn spawn<L, C, R>(
    start: Start<L, C, R>,
    loops: Vec<LineLoop<L, C, R>>,
) -> Result<JoinHandle<bool>, AllocError>
where
    L: Seating + Send + Sync + 'static,
    C: Shareable + Send + 'static,
    R: Machine,
    requires ledger { L.all ≡ L.parts }
{
    let Start {
        rt,
        alloc,
        shared,
        report,
        ..
    } = start;
    let mut given = Some((shared, loops, report));
    let serving = move || -> bool
        requires { L.all ≡ L.parts }
    {
        let Some((shared, loops, report)) = given.take() else {
            return false;
        };
        match serve_namespace(rt, alloc, shared, loops, report) {
            Ok(handed) => handed.failed == 0,
            Err(_) => false,
        }
    };
    Ok(thread::spawn(&rt, serving)?)
}

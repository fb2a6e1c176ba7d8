//! All namespaces of a server.
ghost use Rattle.std.specs.Prelude.{◌≡◌};
ghost use Rattle.cache_shared.specs.Recordings.{bare_spaces, no_journals};
ghost use Rattle.cache_shared.specs.Events.{StandsAfter};

use crate::alarms::Alarms;
use crate::daemon::release;
use crate::fates::Fates;
use crate::listening::Listener;
use crate::memcache::{MemcacheSteward, make_items, spawn_items};
use crate::serving::Report;
use crate::starting::{Loops, Start, Told};
use crate::watch::Watch;
use audit_model::Config;
use bivrangd_metrics::{Facts, Metrics, Resources, Source, unix_time};
use cache_link::Room;
use cache_loop::Rules;
use cache_shared::{Books, Seating, Shareable, SharedService};
use cache_spaces::Service;
use cached_config::{HostedNamespace, Hosting, Notices, Protocol};
use cached_server::{Cause, Ending, Fault, Machine, Outlet, Site, make_service};
use crossbeam_channel::{Receiver, Sender};
use memcache_service as items;
use memcache_service::Shelf;
use mio::Waker;
use mio::net::TcpListener;
use std::alloc::{AllocError, Global};
use std::io::Write;
use std::marker::Brand;
use std::rt::Files;
use std::sync::{Arc, Wait};
use std::{thread, time};

/// As many loops may share a namespace.
const SEATS: u64 = 1 << 32;

/// A loop that accepts alone accepts so many connections in one wake-up.
const ACCEPTS: usize = 64;

/// A millisecond has so many nanoseconds.
const NANOS: u64 = 1_000_000;

/// Where nothing else is said, an idle connection is closed after so many seconds, a day.
const IDLE: u64 = 86_400;

/// Where nothing else is said, a namespace has at most so many loops.
const LOOPS: usize = 2;

/// What all namespaces are served with.
#[derive(Drop)]
pub struct House<R> {
    rt: R,
    alloc: Global,
    begun: time::Instant,
    ending: Sender<Told, Global>,
    /// Where notes go.
    pub outlet: Arc<Outlet>,
    /// What becomes of notices.
    pub fates: Arc<Fates>,
}

impl<R: Machine> House<R> {
    /// Creates a house without namespaces, whose clock begins now. Returns an error if the clock cannot be read or there is not enough
    /// memory.
    pub fn new(
        rt: R,
        alloc: Global,
        ending: Sender<Told, Global>,
        fates: Arc<Fates>,
    ) -> Result<House<R>, Ending> {
        let begun = match time::Instant::now(&rt) {
            Ok(begun) => begun,
            Err(error) => return Err(Ending::machine("the clock", error)),
        };
        Ok(House {
            rt,
            alloc,
            begun,
            ending,
            outlet: Outlet::new(alloc)?,
            fates,
        })
    }

    /// Serves all namespaces, until all loops have ended. Returns whether all ended as they were told, and handed their services back, or an
    /// error if something that it needs cannot be had.
    pub fn serve<E: Write + Drop>(
        &self,
        spaces: Vec<HostedNamespace>,
        hostings: &[Hosting],
        listeners: Vec<Listener>,
        metrics: Option<TcpListener>,
        told: &Receiver<Told, Global>,
        alarms: &mut Alarms<R, E>,
    ) -> Result<bool, Ending>
    where
        R: Files,
    {
        let Loops {
            threads,
            stoppers,
            sources,
        } = self.start_all(spaces, hostings, listeners)?;
        let facts = self.facts(sources)?;
        let page = self.start_metrics(metrics, &facts)?;
        let waited = self.wait(told, &stoppers, &facts, alarms);
        if let Some(page) = page {
            page.end(&self.rt);
        }
        waited?;
        let mut is_whole = true;
        for thread in threads {
            is_whole = thread.join(&self.rt) && is_whole;
        }
        Ok(is_whole)
    }

    /// Starts the loops of all namespaces.
    fn start_all(
        &self,
        spaces: Vec<HostedNamespace>,
        hostings: &[Hosting],
        listeners: Vec<Listener>,
    ) -> Result<Loops, Ending> {
        let mut all = Loops {
            threads: Vec::new(self.alloc),
            stoppers: Vec::new(self.alloc),
            sources: Vec::new(self.alloc),
        };
        let loops = self.loops_for(spaces.len());
        let hosted = spaces.into_iter().zip(hostings);
        for ((space, hosting), listener) in hosted.zip(listeners) {
            let plan = self.plan(space, hosting, loops)?;
            self.start(plan, &listener, &mut all)?;
        }
        Ok(all)
    }

    /// How many loops each of so many namespaces has if nothing else is said: those that have a core each, but one at least.
    fn loops_for(&self, spaces: usize) -> usize {
        let cores = match thread::available_parallelism(&self.rt) {
            Ok(cores) => cores.get(),
            Err(_) => 1,
        };
        let share = cores.checked_div(spaces).unwrap_or(1);
        share.max(1).min(LOOPS)
    }

    /// What the numbers of namespaces are read from.
    fn facts(&self, sources: Vec<Source>) -> Result<Facts, AllocError> {
        Ok(Facts {
            version: release(),
            sources: Arc::new(self.alloc, sources)?,
            resources: Arc::new(self.alloc, Resources::new())?,
            begun: unix_time(&self.rt).map(|since| since.as_secs()),
        })
    }

    /// Starts to serve the metrics, if there is a listener for them.
    fn start_metrics(
        &self,
        metrics: Option<TcpListener>,
        facts: &Facts,
    ) -> Result<Option<Metrics>, Ending> {
        let Some(listener) = metrics else {
            return Ok(None);
        };
        let facts = facts.share()?;
        match Metrics::start(self.rt, self.alloc, listener, facts) {
            Ok(page) => Ok(Some(page)),
            Err(ending) => Err(ending),
        }
    }

    /// Starts the loops of a namespace.
    fn start(&self, plan: Plan<R>, listener: &Listener, all: &mut Loops) -> Result<(), Ending> {
        match plan.protocol {
            Protocol::Lines => {
                let core = make_service(&self.rt, self.alloc, plan.config)?;
                let books = Books::new(self.alloc, &core, SEATS)?;
                self.share::<Brand, Service>(core, books, plan, listener, all)
            }
            Protocol::Memcache(limits) => {
                let service = make_items(&self.rt, self.alloc, limits)?;
                self.own(service, plan, listener, all)
            }
        }
    }

    /// Gives a service to a loop of its own, and starts that.
    fn own<T: Shelf + Send + 'static>(
        &self,
        service: items::Service<T>,
        plan: Plan<R>,
        listener: &Listener,
        all: &mut Loops,
    ) -> Result<(), Ending> {
        let steward = MemcacheSteward {
            rt: self.rt,
            alloc: self.alloc,
            service,
            room: Room::new(self.alloc),
        };
        let (number, loops) = (all.sources.len(), (1, plan.rules));
        let gears = all.add(&self.rt, self.alloc, listener, loops, plan.source)?;
        if let Some(gear) = gears.into_iter().next() {
            let ending = Sender::clone(&self.ending)?;
            all.threads
                .push(spawn_items(steward, gear, ending, number)?)?;
        }
        Ok(())
    }

    /// How a namespace is served, by so many loops if nothing else is said.
    fn plan(
        &self,
        space: HostedNamespace,
        hosting: &Hosting,
        loops: usize,
    ) -> Result<Plan<R>, AllocError> {
        let loops = match (hosting.protocol, hosting.loops) {
            (Protocol::Memcache(_), _) => 1,
            (Protocol::Lines, Some(loops)) => loops as usize,
            (Protocol::Lines, None) => loops,
        };
        let config = space.config;
        let source = Source::new(self.alloc, &space, hosting)?;
        let space = Arc::new(self.alloc, space)?;
        Ok(Plan {
            config,
            loops,
            source,
            protocol: hosting.protocol,
            notices: hosting.notices,
            limit: hosting.load_ms.map(|millis| millis.saturating_mul(NANOS)),
            rules: Rules {
                accepts: if loops == 1 { ACCEPTS } else { 1 },
                connections: hosting.connections,
                idle: Some(hosting.idle.unwrap_or(IDLE)),
            },
            site: Site {
                rt: self.rt,
                start: self.begun,
                space,
                outlet: Arc::try_clone(&self.outlet)?,
            },
        })
    }

    /// Shares a service among loops, and starts them.
    fn share<L: Seating + Send + Sync + 'static, C: Shareable + Send + 'static>(
        &self,
        core: C,
        books: Books<C>,
        plan: Plan<R>,
        listener: &Listener,
        all: &mut Loops,
    ) -> Result<(), Ending>
        requires empty { StandsAfter C.KEEPS L.configs C.spaces C.journals 0 core }
        requires name { books.blank.name ≡ L.name }
        requires parts { (books.blank.parts ≡ L.parts) × (L.all ≡ L.parts)
            × (L.parts ≡ 4294967296) }
        requires history { (books.opened.0 ≡ L.history) × (books.opened.1 ≡ core) }
    {
        let Ok(shared) = SharedService::<L, C>::new(self.alloc, core, books, SEATS) else {
            return Err(Ending::from(Fault::OutOfMemory));
        };
        let start = Start {
            rt: self.rt,
            alloc: self.alloc,
            shared,
            site: plan.site,
            notices: plan.notices,
            limit: plan.limit,
            departures: Arc::try_clone(&plan.source.departures)?,
            fates: Arc::try_clone(&self.fates)?,
            report: Report {
                ending: Sender::clone(&self.ending)?,
                number: all.sources.len(),
            },
        };
        let loops = (plan.loops, plan.rules);
        let gears = all.add(&self.rt, self.alloc, listener, loops, plan.source)?;
        start.start(gears, &mut all.threads)
    }

    /// Waits until all loops have ended. When it is told to stop, it tells them; when it is told again, or after some seconds, they end at
    /// once.
    fn wait<E: Write + Drop>(
        &self,
        told: &Receiver<Told, Global>,
        stoppers: &[Waker],
        facts: &Facts,
        alarms: &mut Alarms<R, E>,
    ) -> Result<(), Ending>
    where
        R: Files,
    {
        let sources = facts.sources.as_slice();
        let mut watch = Watch::new(self.alloc, stoppers.len(), sources)?;
        facts.resources.read(&self.rt);
        let second = time::Duration::from_secs(1);
        for _told in self.rt.forever() {
            if watch.running == 0 {
                return Ok(());
            }
            match told.recv_timeout(&self.rt, second) {
                Ok(Told::Ended) => watch.running = watch.running.saturating_sub(1),
                Ok(Told::Failed(number)) => return Err(failed(self.alloc, sources, number)),
                Ok(Told::Starved) => return Err(Ending::from(Fault::OutOfMemory)),
                Ok(Told::Stop) => watch.stop(stoppers, alarms),
                Err(_) => watch.count_second(&self.rt, stoppers, facts, alarms),
            }
        }
        unreachable!()
    }
}

/// How a namespace is served.
#[derive(Drop)]
struct Plan<R: time::Clock + Wait + Copy> {
    config: Config,
    site: Site<R>,
    protocol: Protocol,
    notices: Notices,
    // after so many nanoseconds a load is given up
    limit: Option<u64>,
    rules: Rules,
    loops: usize,
    source: Source,
}

/// Why the program ends if a loop of the namespace with this number cannot go on.
fn failed(alloc: Global, sources: &[Source], number: usize) -> Ending {
    match line_of_failure(alloc, sources, number) {
        Some(line) => Ending {
            fault: Fault::CannotListen,
            cause: Cause::Said(line),
        },
        None => Ending::from(Fault::CannotListen),
    }
}

/// The line that says that a loop of the namespace with this number cannot go on.
fn line_of_failure(alloc: Global, sources: &[Source], number: usize) -> Option<String> {
    let source = sources.get(number)?;
    let (name, port) = (&source.name, source.port);
    format!(in alloc; "{name} {port}: cannot wait for connections any more\n").ok()
}

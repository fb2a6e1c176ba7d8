//! A thread and a service for each namespace, and a thread that writes what they tell.
ghost use Rattle.std.specs.Prelude.{◌≡◌, ◌<◌, ◌⊎◌, false, length, IfErr};
ghost use Rattle.cache_shared.specs.Recordings.{bare_spaces, no_journals};
ghost use Rattle.cache_shared.specs.Events.{StandsAfter};

use crate::announcing::{Outlet, Scribe, Site};
use crate::endings::Ending;
use crate::machine::{Machine, Shown};
use crate::script::Fault;
use crate::services::make_service;
use cache_service::host;
use cache_shared::{Books, Seating, SharedService};
use cache_spaces::Service;
use cached_config::HostedNamespace;
use crossbeam_channel::{Sender, bounded};
use std::alloc::{AllocError, Global};
use std::marker::Brand;
use std::net::TcpListener;
use std::sync::Arc;
use std::thread::JoinHandle;
use std::{thread, time};

/// As many connections of a namespace may be open at once.
const SEATS: u64 = 1 << 32;

/// The namespace: it is the only one of its service.
const NAMESPACE: u64 = 0;

/// What all namespaces are served with: a clock that counts from `begun` on, each until it has served as many connections as the limit
/// says, and where their notes go.
#[derive(Drop)]
pub struct Hall<R> {
    /// The handle of the machine.
    pub rt: R,
    /// The allocator.
    pub alloc: Global,
    /// The moment from which clocks count.
    pub begun: time::Instant,
    /// How many connections each namespace serves, or `None` without a limit.
    pub limit: Option<u64>,
    /// Where notes go.
    pub outlet: Arc<Outlet>,
}

impl<R: Machine> Hall<R> {
    /// Hosts a namespace with a service of its own, on a thread that says at its end whether it could not go on.
    fn start(
        &self,
        space: HostedNamespace,
        listener: TcpListener,
        ending: &Sender<bool, Global>,
    ) -> Result<JoinHandle<()>, Ending>
        ensures { IfErr result
            (λ e. (e.fault ≡ Fault.CannotListen) ⊎ (e.fault ≡ Fault.OutOfMemory)) }
    {
        let core = make_service(&self.rt, self.alloc, space.config)?;
        let ending = Sender::clone(ending)?;
        let books = Books::new(self.alloc, &core, SEATS)?;
        Ok(self.share::<Brand>(core, books, space, listener, ending)?)
    }

    /// Hosts each namespace at its listener.
    fn start_all(
        &self,
        spaces: Vec<HostedNamespace>,
        listeners: Vec<TcpListener>,
        ending: &Sender<bool, Global>,
    ) -> Result<Vec<JoinHandle<()>>, Ending>
        ensures { IfErr result
            (λ e. (e.fault ≡ Fault.CannotListen) ⊎ (e.fault ≡ Fault.OutOfMemory)) }
    {
        let mut threads = Vec::with_capacity(self.alloc, listeners.len())?;
        for (space, listener) in spaces.into_iter().zip(listeners) {
            let thread = self.start(space, listener, ending)?;
            threads.push(thread)?;
        }
        Ok(threads)
    }

    /// Shares a service of one namespace with the threads of its connections, and hosts it.
    fn share<L: Seating + Send + Sync + 'static>(
        &self,
        core: Service,
        books: Books<Service>,
        space: HostedNamespace,
        listener: TcpListener,
        ending: Sender<bool, Global>,
    ) -> Result<JoinHandle<()>, AllocError>
        requires empty { StandsAfter false L.configs bare_spaces no_journals 0 core }
        requires known { 0 < length L.configs }
        requires name { books.blank.name ≡ L.name }
        requires parts { (books.blank.parts ≡ L.parts) × (L.all ≡ L.parts)
            × (L.parts ≡ 4294967296) }
        requires history { (books.opened.0 ≡ L.history) × (books.opened.1 ≡ core) }
    {
        let (rt, alloc, limit) = (self.rt, self.alloc, self.limit);
        let site = Site {
            rt,
            start: self.begun,
            space: Arc::new(alloc, space)?,
            outlet: Arc::try_clone(&self.outlet)?,
        };
        let Ok(shared) = SharedService::<L, Service>::new(alloc, core, books, SEATS) else {
            return Err(AllocError);
        };
        let hosting = move ||
            requires { 0 < length L.configs }
        {
            let served = host(rt, alloc, &shared, NAMESPACE, &listener, &site, limit);
            let _ = ending.send(&rt, served.failed);
        };
        thread::spawn(&rt, hosting).map_err(|_| AllocError)
    }
}

/// Serves namespaces at their listeners, each with a service of its own, and writes their notes, until one of them cannot go on or each has
/// served as many connections as the limit says. Returns an error if a listener fails (`CannotListen`), or there is not enough memory
/// (`OutOfMemory`).
pub fn serve_spaces<W: Shown, E: Shown, R: Machine>(
    hall: Hall<R>,
    spaces: Vec<HostedNamespace>,
    listeners: Vec<TcpListener>,
    scribe: Scribe<W, E>,
) -> Result<(), Ending>
    ensures { IfErr result
        (λ e. (e.fault ≡ Fault.CannotListen) ⊎ (e.fault ≡ Fault.OutOfMemory)) }
{
    let (rt, alloc) = (hall.rt, hall.alloc);
    let outlet = Arc::try_clone(&hall.outlet)?;
    let writing = thread::spawn(&rt, move || scribe.write_all(&rt, &outlet));
    let writing = writing.map_err(|_| AllocError)?;
    let (ending, ended) = bounded(alloc, listeners.len())?;
    let threads = hall.start_all(spaces, listeners, &ending)?;
    if ended.iter(&rt).take(threads.len()).any(|failed| failed) {
        return Err(Ending::from(Fault::CannotListen));
    }
    for thread in threads {
        thread.join(&rt);
    }
    hall.outlet.end(&rt);
    writing.join(&rt);
    Ok(())
}

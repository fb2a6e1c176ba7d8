//! A namespace that speaks lines, from its first loop to its last.
ghost use Rattle.std.specs.Prelude.{◌≡◌, ℕ, IfOk};
ghost use Rattle.cache_shared.specs.Events.{StandsAfter};

use crate::heralds::Herald;
use crate::starting::{Gear, Told, told_by};
use cache_loop::{Here, LineSteward, serve_by};
use cache_service::Sitting;
use cache_shared::{Finished, Seat, Seating, Shareable, SharedService};
use cached_server::{ListLoader, Machine, StartClock};
use crossbeam_channel::Sender;
use std::alloc::{AllocError, Global};
use std::io::ErrorKind;
use std::sync::Wait;
use std::thread::JoinHandle;
use std::time::Clock;
use std::{io, thread};

/// Where the loops of a namespace report that they have ended.
#[derive(Drop)]
pub struct Report {
    /// Where the program takes reports.
    pub ending: Sender<Told, Global>,
    /// The number of the namespace.
    pub number: usize,
}

impl Report {
    /// Returns another owner of the same.
    fn share(&self) -> Result<Report, AllocError> {
        Ok(Report {
            ending: Sender::clone(&self.ending)?,
            number: self.number,
        })
    }
}

/// What a loop serves its connections with.
#[derive(Drop)]
pub struct LineLoop<L: Seating, C, R: Machine> {
    /// The seat of the loop.
    pub seat: Seat<L, C>,
    /// The clock of the server.
    pub clock: StartClock<R>,
    /// The loader of the namespace.
    pub loader: ListLoader,
    /// Who is told what leaves.
    pub herald: Herald<R>,
    /// Where the loop waits.
    pub gear: Gear,
    /// After how many nanoseconds a load is given up, or `None` without a limit.
    pub limit: Option<u64>,
}

/// What a loop leaves.
#[derive(Drop)]
struct Left<L: Seating, C> {
    seat: Seat<L, C>,
    // whether the loop could not go on
    is_failed: bool,
}

/// What the loops of a namespace hand back when all have ended.
#[derive(Drop)]
pub struct Handed<C> {
    /// The service of the namespace.
    pub service: C,
    /// How many of the loops could not go on.
    pub failed: usize,
}

/// A namespace's service is not handed back: a seat is missing, as of a loop that could not be started, or there was not enough memory.
#[derive(Clone, Copy, Debug, PartialEq, Eq, Drop)]
pub struct SeatMissing;

/// What a loop serves its connections with, but for where it waits: its seat, clock and loader, who is told what leaves, and after how many
/// nanoseconds a load is given up.
type Kit<L, C, R> = (
    Seat<L, C>,
    StartClock<R>,
    Here<ListLoader>,
    Herald<R>,
    Option<u64>,
);

impl<L: Seating, C, R: Machine> LineLoop<L, C, R> {
    /// Takes the loop apart.
    fn take_apart(self) -> (Kit<L, C, R>, Gear) {
        let LineLoop {
            seat,
            clock,
            loader,
            herald,
            gear,
            limit,
        } = self;
        ((seat, clock, Here { loader }, herald, limit), gear)
    }
}

/// Serves connections by a loop until it ends, and reports that.
fn serve_loop<L: Seating, C: Shareable, R: Clock + Wait + Copy>(
    rt: &R,
    shared: &SharedService<L, C>,
    kit: Kit<L, C, R>,
    gear: Gear,
    report: &Report,
) -> Left<L, C> {
    let (mut seat, clock, asker, mut herald, limit) = kit;
    let asking = (asker, limit);
    let served = serve_seat(rt, shared, &mut seat, &mut herald, gear, clock, asking);
    let told = told_by(&served, report.number);
    let _ = report.ending.send(rt, told);
    Left {
        seat,
        is_failed: served.is_err(),
    }
}

/// Serves connections with a seat, until the loop ends.
fn serve_seat<L: Seating, C: Shareable, R: Clock + Wait + Copy>(
    rt: &R,
    shared: &SharedService<L, C>,
    seat: &mut Seat<L, C>,
    herald: &mut Herald<R>,
    gear: Gear,
    clock: StartClock<R>,
    asking: (Here<ListLoader>, Option<u64>),
) -> io::Result<()> {
    let Gear {
        mut poll,
        doorway,
        crew,
    } = gear;
    let (alloc, namespace) = (crew.alloc, crew.namespace);
    let (asker, limit) = asking;
    let mut sitting = Sitting::new(rt, alloc, shared, herald, false)?;
    let steward = LineSteward::new(alloc, namespace, &mut sitting, seat, clock, asker, limit);
    let Ok(mut steward) = steward else {
        return Err(io::Error::from(ErrorKind::OutOfMemory));
    };
    let served = serve_by(rt, &mut steward, &mut poll, doorway, &crew);
    let _asker = steward.end();
    served
}

/// Serves a namespace by loops, one of them on this thread, until all have ended, and returns its service. Returns `SeatMissing` if a loop
/// could not be started, which is reported, or its seat could not be kept.
///
/// When the service is returned, there are journals that obey and lead to where it stands.
pub fn serve_namespace<L, C, R>(
    rt: R,
    alloc: Global,
    shared: SharedService<L, C>,
    loops: Vec<LineLoop<L, C, R>>,
    report: Report,
) -> Result<Handed<C>, SeatMissing>
where
    L: Seating + Send + Sync + 'static,
    C: Shareable + Send + 'static,
    R: Machine,
    requires ledger { L.all ≡ L.parts }
    ensures stands { IfOk result (λ handed. (events : ℕ)
        × StandsAfter C.KEEPS L.configs C.spaces C.journals events handed.service) }
{
    let mut loops = loops;
    let own = loops.pop();
    let starter = Starter {
        rt,
        shared: &shared,
        report: &report,
    };
    let threads = starter.start_all(alloc, loops);
    let mut left = Vec::new(alloc);
    if let Some(own) = own {
        let (kit, gear) = own.take_apart();
        let _ = left.push(serve_loop(&rt, &shared, kit, gear, &report));
    }
    for thread in threads {
        let _ = left.push(thread.join(&rt));
    }
    hand_back(alloc, shared, left)
}

/// What the loops of a namespace are started with.
#[derive(Drop)]
struct Starter<'a, L: Seating, C: Shareable, R: Machine> {
    rt: R,
    shared: &'a SharedService<L, C>,
    report: &'a Report,
}

impl<L, C, R> Starter<'_, L, C, R>
where
    L: Seating + Send + Sync + 'static,
    C: Shareable + Send + 'static,
    R: Machine,
{
    /// Starts the threads of loops. One that cannot be started is reported.
    fn start_all(
        &self,
        alloc: Global,
        loops: Vec<LineLoop<L, C, R>>,
    ) -> Vec<JoinHandle<Left<L, C>>> {
        let mut threads = Vec::new(alloc);
        for line_loop in loops {
            let started = match threads.reserve(1) {
                Ok(()) => self.start(line_loop),
                Err(error) => Err(error),
            };
            match started {
                Ok(thread) => {
                    let _ = threads.push(thread);
                }
                Err(_) => {
                    let _ = self.report.ending.send(&self.rt, Told::Starved);
                }
            }
        }
        threads
    }

    /// Starts the thread of a loop.
    fn start(&self, line_loop: LineLoop<L, C, R>) -> Result<JoinHandle<Left<L, C>>, AllocError> {
        let rt = self.rt;
        let shared = SharedService::clone(self.shared)?;
        let report = self.report.share()?;
        let (kit, gear) = line_loop.take_apart();
        let looping = move || serve_loop(&rt, &shared, kit, gear, &report);
        Ok(thread::spawn(&rt, looping)?)
    }
}

/// Finishes a service with the seats that its loops have left.
fn hand_back<L: Seating, C: Shareable>(
    alloc: Global,
    shared: SharedService<L, C>,
    left: Vec<Left<L, C>>,
) -> Result<Handed<C>, SeatMissing>
    requires ledger { L.all ≡ L.parts }
    ensures stands { IfOk result (λ handed. (events : ℕ)
        × StandsAfter C.KEEPS L.configs C.spaces C.journals events handed.service) }
{
    let mut failed = 0usize;
    let mut seats = Vec::new(alloc);
    for one in left {
        if one.is_failed {
            failed = failed.saturating_add(1);
        }
        let _ = seats.push(one.seat);
    }
    match shared.finish(seats) {
        Ok(Finished { service, .. }) => Ok(Handed { service, failed }),
        Err(_) => Err(SeatMissing),
    }
}

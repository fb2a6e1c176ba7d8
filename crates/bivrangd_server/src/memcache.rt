//! Namespaces whose connections speak the memcache protocol.
ghost use Rattle.std.specs.Prelude.{◌≡◌, ◌≢◌, ◌<◌, ◌^◌, ℕ, true, None, IfSome};
ghost use Rattle.cache_link.specs.Reports.{report_with};
ghost use Rattle.memcache_cache.specs.Served.{OthersTurns, TakesItsTurn, TookTurn, WasJustOpened};
ghost use Rattle.memcache_service.specs.Talks.{connection_of};

use crate::starting::{Gear, Told, told_by};
use audit_model::EvictionPolicy as Policy;
use bivrangd_metrics::unix_time;
use cache_front::KeyedHasher;
use cache_link::{Next, Patient, Room};
use cache_loop::{Counts, Found, Steward, serve_by};
use cache_run::RunError;
use cached_config::ItemLimits;
use cached_server::{Ending, Fault, Machine};
use crossbeam_channel::Sender;
use memcache_cache::{LentShelf, MemcacheLink};
use memcache_service::{Service, Setup, Shelf};
use moka::EvictionPolicy;
use std::alloc::Global;
use std::io::{Read, Write};
use std::thread::JoinHandle;
use std::time::{Clock, Duration};
use std::{io, thread};

/// Moments are below this many milliseconds.
const MOMENTS: u64 = 1 << 43;

/// Items in a cache of one part, under a hasher that no stranger can foresee.
pub type ItemShelf = LentShelf<KeyedHasher>;

/// The milliseconds of Unix time.
fn moment<R: Clock>(rt: &R) -> u64
    ensures { result < 2 ^ 43 }
{
    let millis = match unix_time(rt) {
        Some(since) => u64::try_from(since.as_millis()).unwrap_or(u64::MAX),
        None => 0,
    };
    millis.min(MOMENTS - 1)
}

/// Makes the service of a namespace, without items.
pub fn make_items<R: Machine>(
    rt: &R,
    alloc: Global,
    limits: ItemLimits,
) -> Result<Service<ItemShelf>, Ending> {
    let mut secret = [0; 32];
    if let Err(error) = rt.fill_bytes(&mut secret) {
        return Err(Ending::machine("the random source", error));
    }
    let policy = match limits.policy {
        Policy::TinyLfu => EvictionPolicy::TinyLfu,
        Policy::Lru => EvictionPolicy::Lru,
    };
    let hasher = KeyedHasher::new(&secret);
    let now = moment(rt);
    let shelf = LentShelf::new(alloc, limits.capacity, policy, hasher, now)?;
    let setup = Setup {
        capacity: limits.capacity,
        item_size: limits.item_size,
    };
    Ok(Service::new(alloc, shelf, setup, now)?)
}

/// Serves the connections of a loop by the memcache protocol.
#[derive(Drop)]
pub struct MemcacheSteward<T: Shelf, R: Clock> {
    /// The handle of the machine.
    pub rt: R,
    /// The allocator.
    pub alloc: Global,
    /// The service of the namespace.
    pub service: Service<T>,
    /// Room for what is read and for replies.
    pub room: Room,
}

impl<T: Shelf, R: Clock + Drop> Steward for MemcacheSteward<T, R> {
    type Link = MemcacheLink;

    ghost rests_on = { Unit {0} };

    ghost is_settled = { λ steward. Unit {0} };

    ghost opens = { λ opened p q. IfSome opened (λ link. WasJustOpened link p.service q.service) };

    ghost wakes = { λ is_readable is_ending s t. t ≡ record s {
      report = report_with s.report is_readable is_ending;
    } };

    ghost stops = { λ s t. t ≡ record s { is_stopped = true } };

    ghost turns = { λ result s t p q b c.
        TakesItsTurn T.Shelf result s t p.service q.service b c
        × ((moment : ℕ) × (moment < 2 ^ 43) × TookTurn s.conn moment p.service q.service) };

    ghost closes = { λ link outcome p q. (connection_of link.conn q.service ≡ None)
        × ((other : ℕ) → other ≢ link.conn → OthersTurns other p.service q.service) };

    ghost settles = { λ p q. q ≡ p };

    ghost gives_up = { λ p q. q ≡ p };

    fn refusal(&self) -> &'static [u8] {
        b"ERROR Too many open connections\r\n"
    }

    fn open(&mut self) -> Option<MemcacheLink> {
        MemcacheLink::open(&mut self.service, self.alloc).ok()
    }

    fn wake(&self, link: &mut MemcacheLink, is_readable: bool, is_ending: bool) {
        link.wake(is_readable, is_ending);
    }

    fn stop(&self, link: &mut MemcacheLink) {
        link.stop();
    }

    fn turn<I: Read + Drop, O: Write + Drop>(
        &mut self,
        link: &mut MemcacheLink,
        reader: I,
        writer: O,
    ) -> Result<Next, RunError> {
        let now = moment(&self.rt);
        let mut reader = Patient::new(reader);
        let mut writer = Patient::new(writer);
        link.turn(
            &mut self.service,
            &mut reader,
            &mut writer,
            &mut self.room,
            now,
        )
    }

    fn close(&mut self, link: MemcacheLink, outcome: Result<(), RunError>) {
        let _outcome = outcome;
        link.close(&mut self.service);
    }

    fn ask_loads(&mut self) -> u64 {
        0
    }

    fn take_answers(&mut self) -> u64 {
        0
    }

    fn give_up_loads(&mut self) -> u64 {
        0
    }

    fn patience(&mut self) -> Option<Duration> {
        None
    }

    fn tally(&self, counts: &mut Counts) {
        let counters = self.service.counters();
        counts.found = Found {
            hits: counters.get_hits,
            misses: counters.get_misses,
            replies: 0,
            errors: 0,
        };
        counts.departures.expired = counters.expired;
        counts.departures.size = counters.evictions;
    }
}

/// Starts the thread of a loop that owns its service, of the namespace with this number. It returns whether the loop ended as it was told.
pub fn spawn_items<T: Shelf + Send + 'static, R: Machine>(
    steward: MemcacheSteward<T, R>,
    gear: Gear,
    ending: Sender<Told, Global>,
    number: usize,
) -> Result<JoinHandle<bool>, Ending> {
    let rt = steward.rt;
    let looping = move || {
        let served = serve_items(steward, gear);
        let _ = ending.send(&rt, told_by(&served, number));
        served.is_ok()
    };
    match thread::spawn(&rt, looping) {
        Ok(thread) => Ok(thread),
        Err(_) => Err(Ending::from(Fault::OutOfMemory)),
    }
}

/// Serves connections, until the loop ends.
fn serve_items<T: Shelf, R: Machine>(steward: MemcacheSteward<T, R>, gear: Gear) -> io::Result<()> {
    let Gear {
        mut poll,
        doorway,
        crew,
    } = gear;
    let mut steward = steward;
    let rt = steward.rt;
    serve_by(&rt, &mut steward, &mut poll, doorway, &crew)
}

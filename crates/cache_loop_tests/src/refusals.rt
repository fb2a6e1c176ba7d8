//! A load whose outcome is refused.
ghost use Rattle.std.specs.Prelude.{◌≡◌};
ghost use Rattle.cache_shared.specs.Events.{StandsAfter};

use crate::loads::make_service;
use audit_model::{Bytes, LoadId, Outcome};
use cache_loop::{Asked, Asker, LineSteward, Steward};
use cache_run::Clock;
use cache_service::{Sitting, Untold};
use cache_shared::{Books, Seating, Shareable, SharedService};
use cache_spaces::Service;
use std::alloc::Global;
use std::marker::Brand;
use std::sync::atomic::{AtomicU64, Ordering};
use std::sync::{Arc, Wait};

/// The first moment that is refused.
const TOO_LATE: u64 = 1 << 63;

/// A clock that tells this moment once, and otherwise its beginning.
#[derive(Drop)]
struct Slipping {
    next: Arc<AtomicU64>,
}

impl Clock for Slipping {
    ghost reads = { λ c t d. Unit {0} };

    fn now(&mut self) -> u64 {
        self.next.swap(0, Ordering::SeqCst)
    }
}

/// An asker whose values are their keys. When it tells its first one, the clock slips.
#[derive(Drop)]
struct Slow {
    answer: Option<(LoadId, Bytes)>,
    answers: u64,
    clock: Arc<AtomicU64>,
}

impl Asker for Slow {
    ghost asks = { λ p load key asked q. Unit {0} };

    fn ask(&mut self, load: LoadId, key: Bytes) -> Asked {
        self.answer = Some((load, key));
        Asked::Later
    }

    fn next(&mut self) -> Option<(LoadId, Option<Outcome>)> {
        let (load, key) = self.answer.take()?;
        if self.answers == 0 {
            self.clock.store(TOO_LATE, Ordering::SeqCst);
        }
        self.answers = self.answers.saturating_add(1);
        Some((load, Some(Outcome::Value(key, None))))
    }

    fn cancel(&mut self, number: u64) {
        let _number = number;
    }
}

/// Gives a client of a shared service turns, and settles its loads between them. Returns what it was told, and how often a loader was asked.
fn serve<L: Seating, C: Shareable, R: Wait>(
    rt: &R,
    alloc: Global,
    shared: &SharedService<L, C>,
) -> Option<(Vec<u8>, u64)> {
    let next = Arc::new(alloc, AtomicU64::new(0)).ok()?;
    let asker = Slow {
        answer: None,
        answers: 0,
        clock: Arc::try_clone(&next).ok()?,
    };
    let clock = Slipping { next };
    let mut untold = Untold;
    let mut seat = shared.seat(rt).ok()?;
    let mut sitting = Sitting::new(rt, alloc, shared, &mut untold, false).ok()?;
    let steward = LineSteward::new(alloc, 0, &mut sitting, &mut seat, clock, asker, None);
    let mut steward = steward.ok()?;
    let mut link = steward.open()?;
    steward.wake(&mut link, true, false);
    let mut told = Vec::new(alloc);
    for _turn in 0..8 {
        let input: &[u8] = b"LOAD k\nGET k\n";
        steward.turn(&mut link, input, &mut told).ok()?;
        let _ = steward.ask_loads();
        let _ = steward.take_answers();
    }
    steward.close(link, Ok(()));
    Some((told, steward.end().answers))
}

/// Whether a client gets the value, and a loader is asked for it once more, since the load was given up.
fn is_given_up<L: Seating, C: Shareable, R: Wait>(
    rt: &R,
    alloc: Global,
    core: C,
    books: Books<C>,
    parts: u64,
) -> Option<bool>
where
    requires empty { StandsAfter C.KEEPS L.configs C.spaces C.journals 0 core }
    requires name { books.blank.name ≡ L.name }
    requires parts { (books.blank.parts ≡ L.parts) × (L.all ≡ L.parts) × (parts ≡ L.parts) }
    requires history { (books.opened.0 ≡ L.history) × (books.opened.1 ≡ core) }
{
    let shared = SharedService::<L, C>::new(alloc, core, books, parts).ok()?;
    let (told, answers) = serve(rt, alloc, &shared)?;
    Some(told.as_slice() == b"VAL k\nVAL k\n".as_slice() && answers == 2)
}

/// The same, over a new service.
fn comes_out<R: Wait>(rt: &R, alloc: Global) -> bool {
    let Some(core) = make_service(alloc) else {
        return false;
    };
    match Books::new(alloc, &core, 1) {
        Ok(books) => is_given_up::<Brand, Service, R>(rt, alloc, core, books, 1) == Some(true),
        Err(_) => false,
    }
}

#[test]
fn refused_load_is_given_up(rt: HostRuntime) {
    let alloc = rt.alloc();
    // (at the second try if memory was refused at the first)
    assert!(rt; comes_out(&rt, alloc) || comes_out(&rt, alloc));
}

//! Notes of all namespaces, told as lines by a thread of their own.
ghost use Rattle.std.specs.Prelude.{◌≡◌, ◌≤◌, [], vec_capacity};

use crate::devices::{ListLoader, StartClock};
use crate::lines::Lines;
use crate::outbox::{Outbox, ROOM};
use audit_model::Note;
use cache_service::{Devices, Teller};
use cached_config::HostedNamespace;
use std::alloc::{AllocError, Global};
use std::io::Write;
use std::sync::{Arc, Condvar, Mutex, Wait};
use std::thread::Parker;
use std::time;
use std::time::{Duration, Instant};

/// How many seconds a note waits for room if lines are read.
const PATIENCE: u64 = 1;

/// What threads that have notes share with the one that writes them.
///
/// Lines wait in an `Outbox`. If it is full, a caller with a note waits for room, for a second at most; then notes are counted as lost, and
/// nobody waits again until lines are read. So a reader that stops reading stops no namespace.
#[derive(Drop)]
pub struct Outlet {
    outbox: Mutex<Outbox>,
    // lines wait, or no more will come
    filled: Condvar,
    // lines were taken
    emptied: Condvar,
}

impl Outlet {
    /// Creates an outlet in which nothing waits. Returns an error if there is no memory for the lines that may wait.
    pub fn new(alloc: Global) -> Result<Arc<Outlet>, AllocError> {
        let outlet = Outlet {
            outbox: Mutex::new(Outbox::new(alloc)?),
            filled: Condvar::new(),
            emptied: Condvar::new(),
        };
        Ok(Arc::new(alloc, outlet)?)
    }

    /// Puts the line of a note once there is room, or a second has passed.
    fn put<R: Wait + time::Clock>(&self, rt: &R, name: &[u8], note: &Note) {
        let mut outbox = self.outbox.lock(rt);
        if outbox.waits_for_room(name, note) {
            self.filled.notify_one();
            let waits = |outbox: &mut Outbox| outbox.waits_for_room(name, note);
            let patience = Duration::from_secs(PATIENCE);
            let (later, waited) = self.emptied.wait_timeout_while(rt, outbox, patience, waits);
            outbox = later;
            if waited.timed_out() {
                outbox.stall();
            }
        }
        outbox.put(name, note);
    }

    /// Takes notes of a namespace, which are then written as lines.
    pub fn tell<R: Wait + time::Clock>(&self, rt: &R, name: &[u8], notes: &[Note]) {
        for note in notes {
            self.put(rt, name, note);
        }
        self.filled.notify_one();
    }

    /// Notes that no more notes will come.
    pub fn end(&self, rt: &impl Wait) {
        self.outbox.lock(rt).end();
        self.filled.notify_one();
    }

    /// Says that nobody reads what is written.
    fn close(&self, rt: &impl Wait) {
        self.outbox.lock(rt).close();
        self.emptied.notify_all();
    }

    /// Takes the lines that wait, as soon as there are some or no more will come. Returns how many notes were lost, and whether no more
    /// will come.
    fn take(&self, rt: &impl Wait, lines: &mut Vec<u8>) -> (u64, bool)
        requires empty { lines.old.items ≡ [] }
        requires room { 1048576 ≤ vec_capacity lines.old }
        ensures room { 1048576 ≤ vec_capacity lines.new }
    {
        let mut outbox = self
            .filled
            .wait_while(rt, self.outbox.lock(rt), |outbox| outbox.is_idle());
        let lost = outbox.take(lines);
        let is_over = outbox.is_over();
        drop(outbox);
        self.emptied.notify_all();
        (lost, is_over)
    }
}

/// What the connections of one namespace are served with. A site takes the notes of that namespace.
#[derive(Drop)]
pub struct Site<R: time::Clock + Wait + Copy> {
    /// The handle by which threads may wait, and read the clock.
    pub rt: R,
    /// The moment from which the clock counts.
    pub start: Instant,
    /// The namespace, with what its loads find.
    pub space: Arc<HostedNamespace>,
    /// Where the notes go.
    pub outlet: Arc<Outlet>,
}

impl<R: time::Clock + Wait + Copy> Teller for Site<R> {
    ghost tells = { λ before notes after. Unit {0} };

    fn is_told(&self) -> bool {
        true
    }

    fn tell<Q: Wait>(&mut self, rt: &Q, notes: &[Note]) {
        self.outlet
            .tell(&self.rt, self.space.name.as_slice(), notes);
    }
}

impl<R: time::Clock + Wait + Copy + Send + 'static> Devices for Site<R> {
    type Clock = StartClock<R>;

    type Loader = ListLoader;

    type Teller = Site<R>;

    fn make(&self, alloc: Global) -> Option<(StartClock<R>, ListLoader, Site<R>)> {
        let clock = StartClock {
            rt: self.rt,
            start: self.start,
            latest: 0,
        };
        let space = Arc::try_clone(&self.space).ok()?;
        let teller = Site {
            rt: self.rt,
            start: self.start,
            space: Arc::try_clone(&self.space).ok()?,
            outlet: Arc::try_clone(&self.outlet).ok()?,
        };
        Some((clock, ListLoader { alloc, space }, teller))
    }
}

/// The writer of the lines that namespaces report (`lines`), and of how many were lost (`alarms`), which begins with the name of the program.
#[derive(Drop)]
pub struct Scribe<W: Write + Drop, E: Write + Drop> {
    program: &'static [u8],
    lines: Lines<W>,
    alarms: Lines<E>,
    taken: Vec<u8>,
    ghost empty: { taken.items ≡ [] },
    ghost room: { 1048576 ≤ vec_capacity taken },
}

impl<W: Write + Drop, E: Write + Drop> Scribe<W, E> {
    /// Creates a writer of reported lines to `lines`, and of how many a program with this name lost to `alarms`. Returns an error if there
    /// is no memory for a mebibyte of lines.
    pub fn new(
        alloc: Global,
        program: &'static [u8],
        lines: Lines<W>,
        alarms: E,
    ) -> Result<Scribe<W, E>, AllocError> {
        Ok(Scribe {
            program,
            lines,
            alarms: Lines::new(alloc, alarms)?,
            taken: Vec::with_capacity(alloc, ROOM)?,
        })
    }

    /// Writes what an outlet takes in, until no more will come or the lines cannot be written.
    pub fn write_all(self, rt: &impl Wait, outlet: &Outlet) {
        let Scribe {
            program,
            mut lines,
            mut alarms,
            mut taken,
        } = self;
        for _ in rt.forever() {
            let (lost, is_over) = outlet.take(rt, &mut taken);
            if lines.send(&taken).is_err() {
                outlet.close(rt);
                let _ = alarms.show_unwritten(program);
                return;
            }
            taken.clear();
            if lost > 0 {
                let _ = alarms.show_lost(program, lost);
            }
            if is_over {
                return;
            }
            // What comes within a millisecond is written at once, so that a busy server wakes this thread a thousand times a second at most.
            Parker::new().park_timeout(rt, Duration::from_millis(1));
        }
    }
}

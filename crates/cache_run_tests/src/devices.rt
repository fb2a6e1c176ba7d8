//! Devices of memory, and one run over them.
ghost use Rattle.std.specs.Prelude.{length, ◌<◌};

use audit_model::{
    Bytes, Closing, Config, Conn, EvictionPolicy, Instant, Outcome, Seq, ServiceError, Weight,
};
use cache_run::{Clock, Loader, RunError, Watched, run};
use cache_spaces::Service;
use rand_core::SeedableRng;
use rand_xoshiro::Xoshiro256PlusPlus;
use std::alloc::Global;
use std::io;
use std::io::{ErrorKind, Read, Write};

/// Without capacity, times and own deadlines.
pub const PLAIN: Config = Config {
    capacity: None,
    policy: EvictionPolicy::Lru,
    parts: 1,
    weight: Weight::One,
    live_ms: None,
    idle_ms: None,
    own_deadlines: false,
};

/// A clock that counts its readings, and is late from a chosen one on, counted from 1.
#[derive(Clone, Copy, Drop)]
pub struct Ticks {
    pub count: u64,
    pub late_at: u64,
}

impl Clock for Ticks {
    ghost reads = { λ c t d. Unit {0} };

    fn now(&mut self) -> u64 {
        self.count = self.count.saturating_add(1);
        if self.count == self.late_at {
            1 << 63
        } else {
            self.count
        }
    }
}

/// What a loader says.
#[derive(Clone, Copy, Drop)]
pub enum Saying {
    Value(&'static [u8], Option<u64>),
    Nothing,
    Fault(&'static [u8]),
    /// No answer.
    Refusal,
}

/// A loader that says one thing after another, the last again and again, and notes the keys that it is asked.
#[derive(Drop)]
pub struct Script {
    alloc: Global,
    sayings: &'static [Saying],
    pub asked: u64,
    pub keys: Vec<u8>,
}

pub fn make_script(alloc: Global, sayings: &'static [Saying]) -> Script {
    Script {
        alloc,
        sayings,
        asked: 0,
        keys: Vec::new(alloc),
    }
}

fn bytes(alloc: Global, text: &[u8]) -> Option<Bytes> {
    match Vec::from_slice(alloc, text) {
        Ok(text) => Some(Seq::from_vec(text)),
        Err(_) => None,
    }
}

fn outcome_of(alloc: Global, saying: Saying) -> Option<Outcome> {
    match saying {
        Saying::Value(text, ms) => Some(Outcome::Value(bytes(alloc, text)?, ms)),
        Saying::Nothing => Some(Outcome::None),
        Saying::Fault(text) => Some(Outcome::Fault(bytes(alloc, text)?)),
        Saying::Refusal => None,
    }
}

impl Loader for Script {
    ghost loads = { λ c key answer d. Unit {0} };

    fn load(&mut self, key: &[u8]) -> Option<Outcome> {
        let _ = self.keys.extend_from_slice(key);
        let last = self.sayings.len().saturating_sub(1);
        let place = (self.asked as usize).min(last);
        self.asked = self.asked.saturating_add(1);
        match self.sayings.get(place) {
            Some(saying) => outcome_of(self.alloc, *saying),
            None => None,
        }
    }
}

/// A reader that gives so many bytes a call, and fails at a chosen call.
#[derive(Drop)]
pub struct Cuts<'a> {
    rest: &'a [u8],
    size: usize,
    calls: u64,
    fails_at: u64,
}

pub fn make_cuts(text: &[u8], size: usize, fails_at: u64) -> Cuts<'_> {
    Cuts {
        rest: text,
        size,
        calls: 0,
        fails_at,
    }
}

impl<'a> Read for Cuts<'a> {
    fn read(&mut self, buf: &mut [u8]) -> io::Result<usize> {
        self.calls = self.calls.saturating_add(1);
        if self.calls == self.fails_at {
            return Err(io::Error::from(ErrorKind::Other));
        }
        let count = self.rest.len().min(self.size).min(buf.len());
        buf[..count].copy_from_slice(&self.rest[..count]);
        self.rest = &self.rest[count..];
        Ok(count)
    }
}

/// A writer that fails at a chosen call of `write` or `flush`, and takes at most so many bytes a call.
#[derive(Drop)]
pub struct Faulty {
    pub held: Vec<u8>,
    size: usize,
    calls: u64,
    fails_at: u64,
}

pub fn make_faulty(alloc: Global, size: usize, fails_at: u64) -> Faulty {
    Faulty {
        held: Vec::new(alloc),
        size,
        calls: 0,
        fails_at,
    }
}

impl Write for Faulty {
    fn write(&mut self, buf: &[u8]) -> io::Result<usize> {
        self.calls = self.calls.saturating_add(1);
        if self.calls == self.fails_at {
            return Err(io::Error::from(ErrorKind::BrokenPipe));
        }
        let count = buf.len().min(self.size);
        match self.held.extend_from_slice(&buf[..count]) {
            Ok(()) => Ok(count),
            Err(_) => Err(io::Error::from(ErrorKind::OutOfMemory)),
        }
    }

    fn flush(&mut self) -> io::Result<()> {
        self.calls = self.calls.saturating_add(1);
        if self.calls == self.fails_at {
            return Err(io::Error::from(ErrorKind::Other));
        }
        Ok(())
    }
}

/// How devices are set: how many bytes are read and written a call, at which call each fails, and at which reading the clock is late.
/// 0 is never.
#[derive(Clone, Copy, Drop)]
pub struct Setting {
    pub size: usize,
    /// How many bytes a write takes, where that is less.
    pub takes: usize,
    pub read_fails: u64,
    pub write_fails: u64,
    pub late: u64,
}

/// Nothing fails.
pub const SOUND: Setting = Setting {
    size: 8192,
    takes: 8192,
    read_fails: 0,
    write_fails: 0,
    late: 0,
};

/// What a run left in its service.
#[derive(Clone, Copy, Drop)]
pub struct Left {
    pub closed: Option<Closing>,
    pub loads_open: u64,
    pub loads_left: usize,
}

/// What came of a run: how it ended, what it left, its writer and its loader.
#[derive(Drop)]
pub struct Ran {
    pub result: Result<(), RunError>,
    pub left: Left,
    writer: Watched<Faulty>,
    pub loader: Script,
}

impl Ran {
    /// What was written.
    pub fn replies(&self) -> &[u8] {
        self.writer.inner().held.as_slice()
    }
}

/// What a run left of its connection.
fn left_of(service: &mut Service) -> Result<Left, ServiceError> {
    let conn = Conn {
        namespace: 0,
        number: 1,
    };
    let loads_left = service.take_loads(0)?.len();
    let closed = service.closed(conn)?;
    let loads_open = service.loads_open(0)?;
    Ok(Left {
        closed,
        loads_open,
        loads_left,
    })
}

/// The devices of a run.
#[derive(Drop)]
struct Devices<'a> {
    reader: Watched<Cuts<'a>>,
    writer: Watched<Faulty>,
    clock: Ticks,
    loader: Script,
}

fn make_devices<'a>(
    alloc: Global,
    input: &'a [u8],
    sayings: &'static [Saying],
    setting: Setting,
) -> Devices<'a> {
    Devices {
        reader: Watched::new(make_cuts(input, setting.size, setting.read_fails)),
        writer: Watched::new(make_faulty(
            alloc,
            setting.size.min(setting.takes),
            setting.write_fails,
        )),
        clock: Ticks {
            count: 0,
            late_at: setting.late,
        },
        loader: make_script(alloc, sayings),
    }
}

/// How a run over these devices ends.
fn run_on(alloc: Global, service: &mut Service, devices: &mut Devices<'_>) -> Result<(), RunError>
    requires { 0 < length service.old }
{
    run(
        service,
        alloc,
        0,
        &mut devices.reader,
        &mut devices.writer,
        &mut devices.clock,
        &mut devices.loader,
    )
}

/// What came of a run that ended so; none where nothing is known of what it left.
fn ran_of(
    ended: Result<(), RunError>,
    left: Result<Left, ServiceError>,
    devices: Devices<'_>,
) -> Option<Ran> {
    match left {
        Ok(left) => Some(Ran {
            result: ended,
            left,
            writer: devices.writer,
            loader: devices.loader,
        }),
        Err(_) => None,
    }
}

/// One run over these devices.
fn run_in(alloc: Global, service: &mut Service, devices: Devices<'_>) -> Option<Ran>
    requires { 0 < length service.old }
{
    let mut devices = devices;
    let ended = run_on(alloc, service, &mut devices);
    ran_of(ended, left_of(service), devices)
}

/// One run in a new service; none where that has no memory.
pub fn run_over(
    alloc: Global,
    config: Config,
    input: &[u8],
    sayings: &'static [Saying],
    setting: Setting,
) -> Option<Ran> {
    let generator = Xoshiro256PlusPlus::seed_from_u64(1);
    let devices = make_devices(alloc, input, sayings, setting);
    match Service::new(alloc, &[config], generator, Instant { nanos: 0 }) {
        Ok(mut service) => run_in(alloc, &mut service, devices),
        Err(_) => None,
    }
}

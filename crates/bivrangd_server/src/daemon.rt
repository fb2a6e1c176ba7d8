//! The program over its words and streams.

use crate::alarms::Alarms;
use crate::fates::{Counted, Fates, Lamented};
use crate::house::House;
use crate::listening::{Opened, announce_all, open_all, say_all};
use crate::paths::Paths;
use crate::starting::Told;
use crate::stopping::read_orders;
use crate::words::{Asked, take_words};
use crate::writing::Writing;
use cache_run::{Watched, send};
use cached_config::{ConfigFault, ConfigReport, check_hosted};
use cached_server::{Ending, Fault, Machine, Scribe, Shown, Threaded};
use crossbeam_channel::{Receiver, Sender, bounded};
use std::alloc::{AllocError, Global};
use std::convert::AsStr;
use std::io::{ErrorKind, Read, Write};
use std::net::{Net, TcpListener, TcpStream};
use std::rt::Files;
use std::sync::Arc;
use std::{fs, thread};

const USAGE: &[u8] = b"usage: bivrangd --config FILE | --check FILE | --version | --help\n";

/// The program and its version.
const VERSION: &str = "bivrangd 0.2.0\n";

/// The version of the program.
pub fn release() -> &'static str {
    VERSION.trim_end().split(" ").nth(1).unwrap_or("")
}

/// The command that lists all that is wrong with a configuration file.
const CHECK: &str = "bivrangd --check";

/// The status of a server that was told to stop, and lost notices then.
const LOSS: u8 = 3;

/// So many reports may wait for the program. One that comes then waits for room, and no report needs memory.
const REPORTS: usize = 64;

/// The two ends of the channel by which threads report to the program.
pub type Orders = (Sender<Told, Global>, Receiver<Told, Global>);

/// What became of a server that was told to stop.
#[derive(Clone, Copy, Debug, PartialEq, Eq, Drop)]
pub struct Stopped {
    /// Whether all loops ended as they were told, and each namespace has handed its service back.
    pub is_whole: bool,
    /// How many notices were not written, as nobody read them in time.
    pub lost: u64,
}

/// The text of a fault.
fn text_of(fault: Fault) -> &'static str {
    match fault {
        Fault::Read => "read failed",
        Fault::Write => "write failed",
        Fault::OutOfMemory => "out of memory",
        Fault::UsedUp => "used up",
        Fault::BadConfiguration => "bad configuration",
        Fault::CannotListen => "cannot listen",
    }
}

/// Runs the program with its arguments and streams. Returns its status: 0 after it was told to stop, 1 after an error, 2 if the
/// arguments are wrong, 3 if it was told to stop and notices were lost then.
pub fn bivrangd<S: AsStr, I, O: Write, E: Write + Drop, W: Shown, V: Shown, R>(
    rt: R,
    alloc: Global,
    words: &[S],
    input: I,
    writer: &mut Watched<O>,
    errors: E,
    shown: (W, V),
) -> u8
where
    I: Read + Drop + Send + 'static,
    R: Threaded + Net<Listener = TcpListener, Stream = TcpStream> + Files + AllocGlobal,
{
    let mut alarms = Alarms::new(rt, alloc, errors);
    match take_words(alloc, words) {
        Ok(asked) => {
            let done = obey(rt, alloc, asked, input, writer, &mut alarms, shown);
            status_of(alloc, asked.path(), done, &mut alarms)
        }
        Err(ErrorKind::OutOfMemory) => {
            alarms.say(text_of(Fault::OutOfMemory));
            1
        }
        Err(_) => {
            alarms.show(USAGE);
            2
        }
    }
}

/// Says what went wrong with the file at a path, and returns the status.
fn status_of<E: Write + Drop, R: Machine>(
    alloc: Global,
    path: &str,
    done: Result<u8, Ending>,
    alarms: &mut Alarms<R, E>,
) -> u8 {
    match done {
        Ok(status) => status,
        Err(ending) => {
            alarms.say(text_of(ending.fault));
            if let Ok(line) = ending.cause.line(alloc, path, CHECK) {
                say_cause(line.as_str().trim_end(), alarms);
            }
            1
        }
    }
}

/// Says what caused a fault, if there is something to say.
fn say_cause<E: Write + Drop, R: Machine>(cause: &str, alarms: &mut Alarms<R, E>) {
    if !cause.is_empty() {
        alarms.say(cause);
    }
}

/// Does what the words ask for, and returns the status.
fn obey<I, O: Write, E: Write + Drop, W: Shown, V: Shown, R>(
    rt: R,
    alloc: Global,
    asked: Asked<'_>,
    input: I,
    writer: &mut Watched<O>,
    alarms: &mut Alarms<R, E>,
    shown: (W, V),
) -> Result<u8, Ending>
where
    I: Read + Drop + Send + 'static,
    R: Machine + Files + AllocGlobal,
{
    match asked {
        Asked::Config(path) => serve_file(rt, alloc, path, input, shown, alarms),
        Asked::Check(path) => done(check_file(&rt, alloc, path, writer)),
        Asked::Version => done(show(VERSION.as_bytes(), writer)),
        Asked::Help => done(show(USAGE, writer)),
    }
}

/// The status of what has no other.
fn done(outcome: Result<(), Ending>) -> Result<u8, Ending> {
    match outcome {
        Ok(()) => Ok(0),
        Err(ending) => Err(ending),
    }
}

/// Writes a text.
fn show<O: Write>(text: &[u8], writer: &mut Watched<O>) -> Result<(), Ending> {
    match send(text, writer) {
        Ok(()) => Ok(()),
        Err(_) => Err(Ending::from(Fault::Write)),
    }
}

/// Writes the faults of the configuration file at a path, a line each, and its warnings; then, that it is accepted. It is an error if there
/// are faults.
fn check_file<O: Write, R: Machine + Files + AllocGlobal>(
    rt: &R,
    alloc: Global,
    path: &str,
    writer: &mut Watched<O>,
) -> Result<(), Ending> {
    let text = fs::read_to_string(rt, path).map_err(Ending::file)?;
    let ConfigReport { faults, warnings } = check_hosted(alloc, text.as_str())?;
    show_each(alloc, path, "", &faults, writer)?;
    show_each(alloc, path, "warning: ", &warnings, writer)?;
    if !faults.is_empty() {
        return Err(Ending::from(Fault::BadConfiguration));
    }
    let accepted = format!(in alloc; "{path}: ok\n")?;
    show(accepted.as_bytes(), writer)
}

/// Writes faults of this kind of the file at a path, a line each.
fn show_each<O: Write>(
    alloc: Global,
    path: &str,
    kind: &str,
    faults: &[ConfigFault],
    writer: &mut Watched<O>,
) -> Result<(), Ending> {
    for fault in faults {
        let line = format!(in alloc; "{path}:{}: {kind}{}\n", fault.line, fault.what)?;
        show(line.as_bytes(), writer)?;
    }
    Ok(())
}

/// Serves what the configuration file at a path says, until a line of the input says `stop`, and returns the status.
fn serve_file<I, E: Write + Drop, W: Shown, V: Shown, R>(
    rt: R,
    alloc: Global,
    path: &str,
    input: I,
    shown: (W, V),
    alarms: &mut Alarms<R, E>,
) -> Result<u8, Ending>
where
    I: Read + Drop + Send + 'static,
    R: Machine + Files + AllocGlobal,
{
    let text = fs::read_to_string(&rt, path).map_err(Ending::file)?;
    let orders = bounded(alloc, REPORTS)?;
    start_reading(rt, input, &orders.0)?;
    match serve_text(rt, alloc, text.as_str(), shown, alarms, orders) {
        Ok(stopped) => Ok(status_after(stopped, alarms)),
        Err(ending) => Err(ending),
    }
}

/// The status of a server that was told to stop.
fn status_after<E: Write + Drop, R: Machine>(stopped: Stopped, alarms: &mut Alarms<R, E>) -> u8 {
    if !stopped.is_whole {
        alarms.say("a service was not handed back");
    }
    if stopped.lost > 0 { LOSS } else { 0 }
}

/// Starts to read orders from the input. Nobody waits for the thread that does: it may wait for a line when the program ends.
fn start_reading<I, R>(rt: R, input: I, orders: &Sender<Told, Global>) -> Result<(), AllocError>
where
    I: Read + Drop + Send + 'static,
    R: Machine,
{
    let orders = Sender::clone(orders)?;
    let mut input = input;
    let _reader = thread::spawn(&rt, move || read_orders(&rt, &mut input, &orders))?;
    Ok(())
}

/// Serves what the text of a configuration file says, until it is told to stop. Returns what became of it, or, as an error, why the server
/// ends, if the file is not accepted or something fails. The paths that it listened at are removed, unless another server listens there.
pub fn serve_text<E: Write + Drop, W: Shown, V: Shown, R: Machine + Files>(
    rt: R,
    alloc: Global,
    text: &str,
    shown: (W, V),
    alarms: &mut Alarms<R, E>,
    orders: Orders,
) -> Result<Stopped, Ending> {
    let mut paths = Paths::new(alloc);
    let served = serve_at(rt, alloc, text, shown, alarms, orders, &mut paths);
    paths.clear(&rt);
    served
}

/// Serves what the text of a configuration file says, until it is told to stop. The paths that it listens at are added to others.
fn serve_at<E: Write + Drop, W: Shown, V: Shown, R: Machine + Files>(
    rt: R,
    alloc: Global,
    text: &str,
    shown: (W, V),
    alarms: &mut Alarms<R, E>,
    orders: Orders,
    paths: &mut Paths,
) -> Result<Stopped, Ending> {
    let opened = open_all(&rt, alloc, text, paths)?;
    say_all(alloc, &opened, alarms)?;
    let fates = Fates::new(alloc)?;
    let scribe = scribe_for(alloc, &opened, shown, &fates)?;
    serve_opened(rt, alloc, opened, (scribe, fates), orders, alarms)
}

/// A scribe that counts what becomes of notices.
type CountingScribe<W, V> = Scribe<Counted<W>, Lamented<V>>;

/// Announces where namespaces are served, and returns the writer of their notices.
fn scribe_for<W: Shown, V: Shown>(
    alloc: Global,
    opened: &Opened,
    shown: (W, V),
    fates: &Arc<Fates>,
) -> Result<CountingScribe<W, V>, Ending> {
    let (shown, troubles) = shown;
    let counted = Counted {
        inner: shown,
        fates: Arc::try_clone(fates)?,
    };
    let lamented = Lamented {
        inner: troubles,
        fates: Arc::try_clone(fates)?,
    };
    let lines = announce_all(alloc, opened, counted)?;
    Ok(Scribe::new(alloc, b"bivrangd", lines, lamented)?)
}

/// Serves namespaces at their listeners, until it is told to stop.
fn serve_opened<E: Write + Drop, W: Shown, V: Shown, R: Machine + Files>(
    rt: R,
    alloc: Global,
    opened: Opened,
    writer: (CountingScribe<W, V>, Arc<Fates>),
    orders: Orders,
    alarms: &mut Alarms<R, E>,
) -> Result<Stopped, Ending> {
    let Opened {
        spaces,
        hostings,
        listeners,
        metrics,
    } = opened;
    let (sender, told) = orders;
    let (scribe, fates) = writer;
    fates.begin();
    let house = House::new(rt, alloc, sender, fates)?;
    let writing = Writing::start(rt, alloc, scribe, &house.outlet)?;
    let served = house.serve(spaces, &hostings, listeners, metrics, &told, alarms);
    let lost = writing.end(&rt, &house.outlet, &house.fates, &told);
    say_lost(lost, alarms);
    match served {
        Ok(is_whole) => Ok(Stopped { is_whole, lost }),
        Err(ending) => Err(ending),
    }
}

/// Says how many notices were lost, if some were.
fn say_lost<E: Write + Drop, R: Machine>(lost: u64, alarms: &mut Alarms<R, E>) {
    if lost > 0 {
        alarms.say(format_args!("{lost} notices lost: nobody read them in time"));
    }
}

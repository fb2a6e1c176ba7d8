//! The program over its words and streams.
ghost use Rattle.std.specs.Prelude.{◌≡◌, ◌≢◌, ◌≤◌, ◌⊎◌, ◌++◌, ℕ, List, None, map, IsErr, IfErr};
ghost use Rattle.toml.specs.Parse.{parse_document};
ghost use Rattle.cache_run.specs.Devices.Watched.{device, failures};
ghost use Rattle.cached_server.specs.Script.Called.{call_of};
ghost use Rattle.cached_server.specs.Script.Faults.{EndsCallBy, MayEnd, WritesPrefix, fault_message, usage_text};
ghost use Rattle.cached_server.specs.Script.Scripts.{ServesStreams};

use crate::announcing::{Outlet, Scribe};
use crate::endings::Ending;
use crate::hosts::{Hall, serve_spaces};
use crate::lines::Lines;
use crate::machine::{Machine, Shown, Threaded};
use crate::script::{Chosen, Fault, fail, run_script, take_words, without_words};
use cache_run::Watched;
use cached_config::{HostedNamespace, read_config};
use std::alloc::Global;
use std::convert::AsStr;
use std::fs;
use std::io::{Read, Write};
use std::net::{Ipv4Addr, Net, SocketAddr, TcpListener, TcpStream};
use std::rt::Files;
use std::time::Instant;

/// Runs the program with its arguments and streams. Returns its status: 0 at the end of a script, 1 after an error, 2 if the arguments
/// are wrong.
///
/// `--script`: at 0 the replies to the script's lines are on `writer`, and its notes on `errors`. The text of an error follows the notes;
/// what cannot be written to `errors` is lost.
///
/// `--config FILE`: serves what the file says, until that is no longer possible. `shown` is standard output and standard error as well, as
/// values that threads share: on the first it writes where each namespace is served, and then notices, in a thread of its own; on the
/// second, how many notices were lost because the first was not read for more than a second while a mebibyte of them waited.
pub fn cached<S: AsStr, I: Read, O: Write, E: Write, W: Shown, V: Shown, R>(
    rt: R,
    alloc: Global,
    words: &[S],
    reader: &mut Watched<I>,
    writer: &mut Watched<O>,
    errors: &mut Watched<E>,
    shown: (W, V),
) -> u8
where
    R: Threaded + Net<Listener = TcpListener, Stream = TcpStream> + Files + AllocGlobal,
    ensures status { result ≤ 2 }
    ensures served { result ≡ 0 → ServesStreams I.remaining O.contents E.contents reader.old
        reader.new writer.old writer.new errors.old errors.new }
    ensures usage { result ≡ 2 → WritesPrefix usage_text (E.contents (device errors.old))
        (E.contents (device errors.new)) (failures errors.old) (failures errors.new) }
    ensures unread { result ≡ 2 → reader.new ≡ reader.old }
    ensures unwritten { result ≡ 2 → writer.new ≡ writer.old }
    // 2 only of bad words, 0 only of a script
    ensures words { MayEnd (call_of (map S.text words.now)) result }
    ensures stopped { result ≡ 1 → EndsCallBy (call_of (map S.text words.now)) E.contents
        reader.old reader.new writer.old writer.new errors.old errors.new }
{
    match take_words(alloc, words) {
        Ok(Chosen::Script) => run_script(alloc, reader, writer, errors),
        Ok(Chosen::Config(path)) => serve_config(rt, alloc, path, shown, errors),
        Err(cause) => without_words(cause, errors),
    }
}

/// Serves what the configuration file at a path says, until that is no longer possible. Then it writes what was wrong and, on a second
/// line, what caused it, as far as that is known; the status is 1.
pub fn serve_config<E: Write, W: Shown, V: Shown, R: Machine + Files + AllocGlobal>(
    rt: R,
    alloc: Global,
    path: &str,
    shown: (W, V),
    errors: &mut Watched<E>,
) -> u8
    ensures status { result ≡ 1 }
    // the text of a fault other than of input, and what caused it
    ensures told { (fault : Fault) × (cause : List ℕ) × (fault ≢ Fault.Read)
        × WritesPrefix (fault_message fault ++ cause) (E.contents (device errors.old))
        (E.contents (device errors.new)) (failures errors.old) (failures errors.new) }
{
    match serve_file(rt, alloc, path, shown) {
        Ok(()) => fail(errors, Fault::UsedUp),
        Err(ending) => ending.tell(alloc, path, errors),
    }
}

/// Serves what the configuration file at a path says.
fn serve_file<W: Shown, V: Shown, R: Machine + Files + AllocGlobal>(
    rt: R,
    alloc: Global,
    path: &str,
    shown: (W, V),
) -> Result<(), Ending>
    ensures { IfErr result (λ e. (e.fault ≢ Fault.Read) × (e.fault ≢ Fault.UsedUp)) }
{
    let begun = Instant::now(&rt).map_err(|error| Ending::machine("the clock", error))?;
    let text = fs::read_to_string(&rt, path).map_err(Ending::file)?;
    serve_text(rt, alloc, text.as_str(), begun, shown, None)
}

/// Serves what the text of a configuration file says: without end, or until each namespace has served as many connections as the limit
/// says. On the first of `shown` the call writes where each namespace is served, and then notices; on the second, how many were lost. The
/// clock of each connection counts from `begun` on.
pub fn serve_text<W: Shown, V: Shown, R: Machine>(
    rt: R,
    alloc: Global,
    text: &str,
    begun: Instant,
    shown: (W, V),
    limit: Option<u64>,
) -> Result<(), Ending>
    ensures text { parse_document text.now ≡ None → IsErr result }
    ensures causes { parse_document text.now ≡ None → IfErr result
        (λ e. (e.fault ≡ Fault.BadConfiguration) ⊎ (e.fault ≡ Fault.OutOfMemory)) }
    ensures faults { IfErr result (λ e. (e.fault ≢ Fault.Read) × (e.fault ≢ Fault.UsedUp)) }
{
    let spaces = read_config(alloc, text)?;
    let listeners = listen(&rt, alloc, &spaces)?;
    let (shown, alarms) = shown;
    let mut lines = Lines::new(alloc, shown)?;
    for space in &spaces {
        let shown = lines.show(space.name.as_slice(), space.port);
        shown.map_err(|_| Ending::from(Fault::Write))?;
    }
    let scribe = Scribe::new(alloc, b"cached", lines, alarms)?;
    let hall = Hall {
        rt,
        alloc,
        begun,
        limit,
        outlet: Outlet::new(alloc)?,
    };
    serve_spaces(hall, spaces, listeners, scribe)
}

/// A listener on 127.0.0.1 for each namespace, in their order.
fn listen<R: Machine>(
    rt: &R,
    alloc: Global,
    spaces: &[HostedNamespace],
) -> Result<Vec<TcpListener>, Ending>
    ensures { IfErr result
        (λ e. (e.fault ≡ Fault.CannotListen) ⊎ (e.fault ≡ Fault.OutOfMemory)) }
{
    let mut listeners = Vec::with_capacity(alloc, spaces.len())?;
    for space in spaces {
        let address = SocketAddr::from((Ipv4Addr::LOCALHOST, space.port));
        let bound = TcpListener::bind(rt, address);
        let listener = bound.map_err(|error| Ending::port(space.port, error))?;
        listeners.push(listener)?;
    }
    Ok(listeners)
}

//! Servers, each with its clients, to its end.
use crate::clients::{connect, send_only, talks, talks_in_turn, use_up};
use crate::meetings::Meeting;
use crate::sinks::{Sink, Written, is_written, make_sink, make_written};
use cache_run::Watched;
use cached_server::{Ending, Fault, Machine, serve_text};
use std::alloc::{AllocError, Global};
use std::sync::Wait;
use std::thread;
use std::time::Instant;

/// Room for all that a server writes.
const AMPLE: usize = 1_000_000;

/// Which clients there are.
#[derive(Clone, Copy, Drop)]
pub enum Cast {
    /// A client on the first port.
    One,
    /// A client on the first port that sends each line once it has read the reply to the one before.
    InTurn,
    /// A client on the first port that sends its first text, and its second one 1.2 seconds later.
    Pausing,
    /// A client on each port, one after the other.
    Each,
    /// Bad clients on the first port, then a good one.
    Bad,
    /// No client.
    Nobody,
    /// No client, and the second port is taken.
    Shut,
}

/// Namespaces, which clients there are and what they send, what they read, what the server writes, and how it ends.
#[derive(Clone, Copy)]
pub struct Row<'a> {
    /// A text for each namespace, in which `#` is its port.
    pub config: &'a [&'a str],
    pub cast: Cast,
    pub texts: (&'a [u8], &'a [u8]),
    pub replies: (&'a [u8], &'a [u8]),
    /// A text for each namespace, in which `#` is its port, and others behind them.
    pub shown: &'a [&'a str],
    /// What the server writes behind those lines.
    pub told: &'a str,
    /// What the server says of notices that were lost.
    pub alarm: &'a str,
    /// Whether the server's writer has room for just these lines.
    pub is_cut: bool,
    pub ended: Result<(), Fault>,
}

/// A server on two ports: the text that configures it, and what it writes.
#[derive(Clone, Copy)]
pub struct Stage<'a> {
    pub ports: (u16, u16),
    pub config: &'a str,
    pub shown: &'a str,
}

/// One client on each port, one after the other.
fn each_talks<R: Machine>(rt: &R, alloc: Global, ports: (u16, u16), row: &Row<'_>) -> bool {
    talks(rt, alloc, ports.0, row.texts.0, b"", row.replies.0)
        && talks(rt, alloc, ports.1, row.texts.1, b"", row.replies.1)
}

/// A client whose line never ends, and which gets no reply.
fn endless_talks<R: Machine>(rt: &R, alloc: Global, port: u16) -> bool {
    match vec![in alloc; b'x'; 8193] {
        Ok(line) => talks(rt, alloc, port, &line, b"", b""),
        Err(_) => false,
    }
}

/// A client that sends garbage, and then one whose line never ends.
fn bad_ones_talk<R: Machine>(rt: &R, alloc: Global, port: u16, wanted: &[u8]) -> bool {
    talks(rt, alloc, port, b"\x00\xff\xfe\nGET\nQUIT\n", b"", wanted)
        && endless_talks(rt, alloc, port)
}

/// A client that sends nothing, one that closes half-way, one that sends garbage, one whose line never ends, one that does not read its
/// replies, and then a good one, while the first and the fifth are still there. The first replies are what the third reads.
fn all_talk<R: Machine>(rt: &R, alloc: Global, port: u16, row: &Row<'_>) -> bool {
    let _silent = connect(rt, port);
    drop(send_only(rt, port, b"SET half - 1"));
    let is_refused = bad_ones_talk(rt, alloc, port, row.replies.0);
    let _deaf = send_only(rt, port, row.texts.0);
    talks(rt, alloc, port, row.texts.1, b"", row.replies.1) && is_refused
}

/// The clients' part. Answers whether they read what their row says.
fn clients_talk<R: Machine>(rt: &R, alloc: Global, ports: (u16, u16), row: &Row<'_>) -> bool {
    match row.cast {
        Cast::One => talks(rt, alloc, ports.0, row.texts.0, b"", row.replies.0),
        Cast::InTurn => talks_in_turn(rt, alloc, ports.0, row.texts.0, row.replies.0),
        Cast::Pausing => talks(rt, alloc, ports.0, row.texts.0, row.texts.1, row.replies.0),
        Cast::Each => each_talks(rt, alloc, ports, row),
        Cast::Bad => all_talk(rt, alloc, ports.0, row),
        Cast::Nobody | Cast::Shut => true,
    }
}

/// How many connections there are to each port.
fn counts_of(cast: Cast) -> (u32, u32) {
    match cast {
        Cast::One | Cast::InTurn | Cast::Pausing => (1, 0),
        Cast::Each => (1, 1),
        Cast::Bad => (6, 0),
        Cast::Nobody | Cast::Shut => (0, 0),
    }
}

/// The clients' part. Then as many connections are used up as a failed test would leave, so that its server ends.
fn clients_talk_and_end<R: Machine>(
    rt: &R,
    alloc: Global,
    ports: (u16, u16),
    row: &Row<'_>,
) -> bool {
    let is_read = clients_talk(rt, alloc, ports, row);
    let counts = counts_of(row.cast);
    use_up(rt, ports.0, counts.0);
    use_up(rt, ports.1, counts.1);
    is_read
}

/// The clients' part, unless the server has given them up.
fn clients_come<R: Machine>(
    rt: &R,
    alloc: Global,
    ports: (u16, u16),
    row: &Row<'_>,
    meeting: &Meeting,
) -> bool {
    meeting.come() && clients_talk_and_end(rt, alloc, ports, row)
}

/// Serves what a text configures, each namespace as often as the clients need.
fn serve_cast<R: Machine>(
    rt: R,
    alloc: Global,
    config: &str,
    cast: Cast,
    sinks: (Sink<R>, Sink<R>),
) -> Result<(), Ending> {
    let limit = u64::from(counts_of(cast).0.max(1));
    match Instant::now(&rt) {
        Ok(begun) => serve_text(rt, alloc, config, begun, sinks, Some(limit)),
        Err(_) => Err(Ending::from(Fault::Read)),
    }
}

/// The same, once the clients are there; `None` if they do not come. Without them the server would wait for them for ever.
fn serve_them<R: Machine>(
    rt: R,
    alloc: Global,
    config: &str,
    cast: Cast,
    sinks: (Sink<R>, Sink<R>),
    meeting: &Meeting,
) -> Option<Result<(), Ending>> {
    if meeting.meets(&rt) {
        Some(serve_cast(rt, alloc, config, cast, sinks))
    } else {
        None
    }
}

/// What is told of a fault; of a port that is taken, as far as the system's words.
fn told_of(alloc: Global, fault: Fault, stage: Stage<'_>) -> Result<String, AllocError> {
    let port = stage.ports.1;
    match fault {
        Fault::CannotListen => Ok(format!(in alloc; "cached: cannot listen\nport {port}: ")?),
        _ => String::from_str(alloc, "cached: write failed\n"),
    }
}

/// Whether an ending tells so of its fault.
fn tells_so(alloc: Global, ending: &Ending, stage: Stage<'_>) -> bool {
    let mut told = Watched::new(Vec::new(alloc));
    let status = ending.tell(alloc, "f", &mut told);
    match told_of(alloc, ending.fault, stage) {
        Ok(wanted) => status == 1 && told.inner().as_slice().starts_with(wanted.as_bytes()),
        Err(_) => false,
    }
}

/// Whether a server ends so, and tells its fault.
fn ends_so(
    alloc: Global,
    ended: Result<(), Ending>,
    wanted: Result<(), Fault>,
    stage: Stage<'_>,
) -> bool {
    match (ended, wanted) {
        (Ok(()), Ok(())) => true,
        (Err(ending), Err(fault)) => ending.fault == fault && tells_so(alloc, &ending, stage),
        _ => false,
    }
}

/// Whether a server that writes to these ends as its row says, and its clients read what it says.
fn is_served<R: Machine>(
    rt: R,
    alloc: Global,
    row: &Row<'_>,
    stage: Stage<'_>,
    sinks: (Sink<R>, Sink<R>),
) -> bool {
    let lent = &rt;
    let meeting = &Meeting::new();
    let (is_read, ended) = thread::join(
        lent,
        move || clients_come(lent, alloc, stage.ports, row, meeting),
        move || serve_them(rt, alloc, stage.config, row.cast, sinks, meeting),
    );
    is_read && ended.is_some_and(|ended| ends_so(alloc, ended, row.ended, stage))
}

/// The server's two writers. The first one takes just what it shows where the row says so.
fn make_sinks<R: Wait + Copy>(
    rt: R,
    row: &Row<'_>,
    stage: Stage<'_>,
    written: &(Written, Written),
) -> Result<(Sink<R>, Sink<R>), AllocError> {
    let room = if row.is_cut { stage.shown.len() } else { AMPLE };
    let shown = make_sink(rt, &written.0, room)?;
    let alarm = make_sink(rt, &written.1, AMPLE)?;
    Ok((shown, alarm))
}

/// The same of a server that writes there, and whether it wrote what it should.
fn is_shown<R: Machine>(
    rt: R,
    alloc: Global,
    row: &Row<'_>,
    stage: Stage<'_>,
    written: &(Written, Written),
) -> bool {
    match make_sinks(rt, row, stage, written) {
        Ok(sinks) => {
            is_served(rt, alloc, row, stage, sinks)
                && is_written(&rt, &written.0, stage.shown.as_bytes())
                && is_written(&rt, &written.1, row.alarm.as_bytes())
        }
        Err(_) => false,
    }
}

/// Whether a server, and its clients, come to what the row says.
pub fn is_staged_so<R: Machine>(rt: R, alloc: Global, row: &Row<'_>, stage: Stage<'_>) -> bool {
    match (make_written(alloc), make_written(alloc)) {
        (Some(shown), Some(alarm)) => is_shown(rt, alloc, row, stage, &(shown, alarm)),
        _ => false,
    }
}

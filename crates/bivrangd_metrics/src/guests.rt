//! A server of the metrics: a thread that waits for all its clients at once.

use crate::http::{HEAD_BYTES, Request, Response};
use crate::metrics::Facts;
use cached_server::{Ending, Fault, Machine};
use mio::net::{TcpListener, TcpStream};
use mio::{Events, Interest, Poll, Registry, Token, Waker};
use std::alloc::{AllocError, Global};
use std::io::{ErrorKind, Read, Write};
use std::net::{Ipv4Addr, Shutdown, SocketAddr};
use std::sync::Arc;
use std::sync::atomic::{AtomicBool, Ordering};
use std::thread::JoinHandle;
use std::time::{Clock, Duration, Instant};
use std::{io, thread};

/// So many clients are served at once. One more waits until another one has gone.
const GUESTS: usize = 32;

/// The token of the listener. No client has it.
const LISTENER: Token = Token(GUESTS);

/// The token of the waker by which the thread is ended. No client has it.
const END: Token = Token(GUESTS + 1);

/// A client has so many seconds.
const PATIENCE: u64 = 2;

/// While there are clients, the thread looks at them each so many milliseconds.
const TICK: u64 = 100;

/// The thread that serves the metrics at a port.
#[derive(Drop)]
pub struct Metrics {
    thread: JoinHandle<()>,
    waker: Waker,
    is_over: Arc<AtomicBool>,
}

/// Listens for the metrics at a port of 127.0.0.1. Returns the system's error.
pub fn listen_for_metrics<R: Machine>(rt: &R, port: u16) -> io::Result<TcpListener> {
    TcpListener::bind(rt, SocketAddr::from((Ipv4Addr::LOCALHOST, port)))
}

impl Metrics {
    /// Starts to serve the metrics. Returns an error if the thread, or what it waits with, cannot be had.
    pub fn start<R: Machine>(
        rt: R,
        alloc: Global,
        listener: TcpListener,
        facts: Facts,
    ) -> Result<Metrics, Ending> {
        let (is_over, ends) = flags(alloc)?;
        match Reception::open(&rt, alloc, listener) {
            Ok((reception, waker)) => match spawn(rt, alloc, reception, facts, ends) {
                Ok(thread) => Ok(Metrics {
                    thread,
                    waker,
                    is_over,
                }),
                Err(_) => Err(Ending::from(Fault::OutOfMemory)),
            },
            Err(error) => Err(Ending::machine("a queue of events", error)),
        }
    }

    /// Ends the thread.
    pub fn end<R: Machine>(self, rt: &R) {
        self.is_over.store(true, Ordering::SeqCst);
        if self.waker.wake().is_ok() {
            self.thread.join(rt);
        }
    }
}

/// Two owners of a flag that is down.
fn flags(alloc: Global) -> Result<(Arc<AtomicBool>, Arc<AtomicBool>), AllocError> {
    let flag = Arc::new(alloc, AtomicBool::new(false))?;
    let other = Arc::try_clone(&flag)?;
    Ok((flag, other))
}

/// Starts the thread that serves the clients of a reception.
fn spawn<R: Machine>(
    rt: R,
    alloc: Global,
    reception: Reception,
    facts: Facts,
    is_over: Arc<AtomicBool>,
) -> Result<JoinHandle<()>, AllocError> {
    let serving = move || {
        let mut reception = reception;
        reception.serve(&rt, alloc, &facts, &is_over);
    };
    Ok(thread::spawn(&rt, serving)?)
}

/// What becomes of a client.
#[derive(Clone, Copy, PartialEq, Eq, Drop)]
enum Course {
    /// It stays.
    Stays,
    /// It is done, or gone.
    Over,
}

/// A client: what was read of its request, and what it is answered.
#[derive(Drop)]
struct Guest {
    stream: TcpStream,
    since: Instant,
    head: Vec<u8>,
    response: Option<Response>,
    // how much of the response is written
    sent: usize,
    // whether all of it is, and the writing was ended
    is_answered: bool,
}

impl Guest {
    /// Reads, answers and writes as much as goes now. After the response, what comes in is read and dropped.
    fn attend<R: Machine>(&mut self, rt: &R, alloc: Global, facts: &Facts) -> Course {
        if self.response.is_none() {
            match self.hear() {
                Heard::Request(request) => {
                    self.response = Some(Response::to(rt, alloc, request, facts));
                }
                Heard::Poor => self.response = Some(Response::poor(false)),
                Heard::Part => return Course::Stays,
                Heard::End => return Course::Over,
            }
        }
        if !self.is_answered && self.answer() == Course::Over {
            return Course::Over;
        }
        if self.is_answered {
            drop_input(&mut self.stream)
        } else {
            Course::Stays
        }
    }

    /// Reads what has come of the request.
    fn hear(&mut self) -> Heard {
        let mut buffer = [0u8; 1024];
        for _read in 0..HEAD_BYTES {
            match self.stream.read(&mut buffer) {
                Ok(0) => return Heard::End,
                Ok(count) => {
                    let heard = self.take(buffer.get(..count).unwrap_or(&[]));
                    if heard != Heard::Part {
                        return heard;
                    }
                }
                Err(error) if error.kind() == ErrorKind::WouldBlock => return Heard::Part,
                Err(error) if error.kind() == ErrorKind::Interrupted => {}
                Err(_) => return Heard::End,
            }
        }
        Heard::End
    }

    /// Takes the next bytes of the request.
    fn take(&mut self, bytes: &[u8]) -> Heard {
        if self.head.len() >= HEAD_BYTES {
            return Heard::Request(Request::BAD);
        }
        if self.head.extend_from_slice(bytes).is_err() {
            return Heard::Poor;
        }
        match Request::of(&self.head) {
            Some(request) => Heard::Request(request),
            None => Heard::Part,
        }
    }

    /// Writes as much of the response as goes now, and ends the writing after all of it.
    fn answer(&mut self) -> Course {
        let Some((sent, is_all)) = self.write_on() else {
            return Course::Over;
        };
        self.sent = sent;
        if is_all {
            self.is_answered = true;
            let _ = self.stream.shutdown(Shutdown::Write);
        }
        Course::Stays
    }

    /// Writes as much of the response as goes now. Returns how much of it is written, and whether that is all; `None` if the client is gone.
    fn write_on(&self) -> Option<(usize, bool)> {
        let text = match &self.response {
            Some(response) => response.text(),
            None => return None,
        };
        let rest = text.get(self.sent..).unwrap_or(&[]);
        let sent = self.sent.saturating_add(write_some(&self.stream, rest)?);
        Some((sent, sent >= text.len()))
    }

    /// Whether its time is over.
    fn is_late<R: Clock>(&self, rt: &R) -> bool {
        match self.since.elapsed(rt) {
            Ok(passed) => passed.as_secs() >= PATIENCE,
            Err(_) => true,
        }
    }
}

/// What was heard of a request.
#[derive(Clone, Copy, PartialEq, Eq, Drop)]
enum Heard {
    /// A part of it.
    Part,
    /// All of it.
    Request(Request),
    /// More than there is memory for.
    Poor,
    /// The end of the connection.
    End,
}

/// Writes as much of a text as goes now. Returns how much that is; `None` if the client is gone.
fn write_some(stream: &TcpStream, text: &[u8]) -> Option<usize> {
    let mut stream = stream;
    let mut count = 0usize;
    for _write in 0..text.len() {
        match stream.write(text.get(count..).unwrap_or(&[])) {
            Ok(0) => return None,
            Ok(more) => count = count.saturating_add(more),
            Err(error) if error.kind() == ErrorKind::WouldBlock => return Some(count),
            Err(error) if error.kind() == ErrorKind::Interrupted => {}
            Err(_) => return None,
        }
        if count >= text.len() {
            return Some(count);
        }
    }
    Some(count)
}

/// Reads and drops what has come in, unless it is much.
fn drop_input<I: Read>(reader: &mut I) -> Course {
    let mut buffer = [0u8; 1024];
    for _read in 0..GUESTS {
        match reader.read(&mut buffer) {
            Ok(0) => return Course::Over,
            Ok(_) => {}
            Err(error) if error.kind() == ErrorKind::WouldBlock => return Course::Stays,
            Err(error) if error.kind() == ErrorKind::Interrupted => {}
            Err(_) => return Course::Over,
        }
    }
    Course::Stays
}

/// Where the clients of the metrics come in.
#[derive(Drop)]
struct Reception {
    poll: Poll,
    events: Events,
    listener: TcpListener,
    guests: Vec<Option<Guest>>,
    // whether somebody may wait who was not accepted
    is_asked: bool,
}

impl Reception {
    /// Opens a reception without clients, with the waker by which its thread is ended.
    fn open<R: Machine>(
        rt: &R,
        alloc: Global,
        listener: TcpListener,
    ) -> io::Result<(Reception, Waker)> {
        let mut listener = listener;
        let poll = Poll::new(rt)?;
        let waker = Waker::new(poll.registry(), END)?;
        poll.registry()
            .register(&mut listener, LISTENER, Interest::READABLE)?;
        let events = Events::with_capacity(alloc, GUESTS)?;
        let guests = places(alloc)?;
        let reception = Reception {
            poll,
            events,
            listener,
            guests,
            is_asked: false,
        };
        Ok((reception, waker))
    }

    /// Serves clients until it is over, or waiting fails.
    fn serve<R: Machine>(&mut self, rt: &R, alloc: Global, facts: &Facts, is_over: &AtomicBool) {
        for _wake in rt.forever() {
            let patience = self.patience();
            let waited = self.poll.poll(&mut self.events, patience);
            if waited.is_err() || is_over.load(Ordering::SeqCst) {
                return;
            }
            self.accept_all(rt, alloc);
            self.attend_all(rt, alloc, facts);
        }
    }

    /// How long it waits for events, or `None`, without end, if there is nothing else to do.
    fn patience(&self) -> Option<Duration> {
        let is_busy = self.is_asked || self.guests.iter().any(|guest| guest.is_some());
        if is_busy {
            Some(Duration::from_millis(TICK))
        } else {
            None
        }
    }

    /// Accepts clients, while there is a place and somebody waits.
    fn accept_all<R: Clock>(&mut self, rt: &R, alloc: Global) {
        self.is_asked = true;
        for key in 0..GUESTS {
            if self.is_free(key) {
                match self.listener.accept() {
                    Ok((stream, _)) => {
                        let guest = guest_of(rt, alloc, self.poll.registry(), key, stream);
                        self.seat(key, guest);
                    }
                    Err(error) => {
                        self.is_asked = error.kind() != ErrorKind::WouldBlock;
                        return;
                    }
                }
            }
        }
    }

    /// Whether a place is free.
    fn is_free(&self, key: usize) -> bool {
        match self.guests.get(key) {
            Some(place) => place.is_none(),
            None => false,
        }
    }

    /// Gives a place to a client.
    fn seat(&mut self, key: usize, guest: Option<Guest>) {
        if let Some(place) = self.guests.get_mut(key) {
            *place = guest;
        }
    }

    /// Attends to each client.
    fn attend_all<R: Machine>(&mut self, rt: &R, alloc: Global, facts: &Facts) {
        for place in self.guests.iter_mut() {
            attend(rt, alloc, facts, place);
        }
    }
}

/// Free places.
fn places(alloc: Global) -> io::Result<Vec<Option<Guest>>> {
    let mut places = Vec::with_capacity(alloc, GUESTS)?;
    for _place in 0..GUESTS {
        places.push(None)?;
    }
    Ok(places)
}

/// A client that has come; `None` if it cannot be waited for.
fn guest_of<R: Clock>(
    rt: &R,
    alloc: Global,
    registry: &Registry,
    key: usize,
    stream: TcpStream,
) -> Option<Guest> {
    let mut stream = stream;
    let since = Instant::now(rt).ok()?;
    let interest = Interest::READABLE | Interest::WRITABLE;
    registry.register(&mut stream, Token(key), interest).ok()?;
    Some(Guest {
        stream,
        since,
        head: Vec::new(alloc),
        response: None,
        sent: 0,
        is_answered: false,
    })
}

/// Attends to the client of a place, if there is one. The place is free after it is over, or its time is.
fn attend<R: Machine>(rt: &R, alloc: Global, facts: &Facts, place: &mut Option<Guest>) {
    let is_over = match place {
        Some(guest) => guest.attend(rt, alloc, facts) == Course::Over || guest.is_late(rt),
        None => false,
    };
    if is_over {
        *place = None;
    }
}

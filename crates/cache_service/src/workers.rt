//! The threads that serve connections, and the seats that they return.

use crate::pausing::pause;
use cache_shared::{Seat, Seating, Shareable, SharedService};
use slab::Slab;
use std::alloc::{AllocError, Global};
use std::io;
use std::io::ErrorKind;
use std::net::{TcpListener, TcpStream};
use std::sync::{Arc, Condvar, Mutex, Wait};
use std::thread::{JoinHandle, Threads};

/// The indices of threads that are done and were not joined.
#[derive(Drop)]
pub struct Done {
    places: Mutex<Vec<usize>>,
    told: Condvar,
}

impl Done {
    /// No thread is done.
    fn new(alloc: Global) -> Done {
        Done {
            places: Mutex::new(Vec::new(alloc)),
            told: Condvar::new(),
        }
    }

    /// Notes that the thread of an index is about to end. There must be room for the note.
    pub fn tell(&self, rt: &impl Wait, place: usize) {
        let _ = self.places.lock(rt).push(place);
        self.told.notify_one();
    }

    /// Waits until a place is noted.
    fn wait(&self, rt: &impl Wait) {
        let places = self.places.lock(rt);
        let _ = self.told.wait_while(rt, places, |places| places.is_empty());
    }
}

/// Whether an accept failed because its client has gone or cannot be reached any more.
fn is_of_client(kind: ErrorKind) -> bool {
    matches!(
        kind,
        ErrorKind::ConnectionAborted
            | ErrorKind::ConnectionReset
            | ErrorKind::HostUnreachable
            | ErrorKind::NetworkDown
            | ErrorKind::NetworkUnreachable
    )
}

/// Whether an accept failed for lack of memory (12, 105) or of descriptors, of the process or of the machine (24, 23), by the numbers of
/// Linux.
fn is_of_want(error: &io::Error) -> bool {
    matches!(error.raw_os_error(), Some(12 | 23 | 24 | 105))
}

/// Threads that serve a connection each, by their indices, and the seats that no thread has.
#[derive(Drop)]
pub struct Workers<L: Seating, C> {
    running: Slab<JoinHandle<Seat<L, C>>>,
    seats: Vec<Seat<L, C>>,
    done: Arc<Done>,
}

impl<L: Seating + Send + Sync + 'static, C: Shareable + Send + 'static> Workers<L, C> {
    /// Creates an empty list of threads. Returns an error if there is not enough memory.
    pub fn new(alloc: Global) -> Result<Workers<L, C>, AllocError> {
        Ok(Workers {
            running: Slab::new(alloc),
            seats: Vec::new(alloc),
            done: Arc::new(alloc, Done::new(alloc))?,
        })
    }

    /// Makes room for one more thread, its seat and its end. Returns the thread's index, and where the thread notes its end. Returns an
    /// error if there is not enough memory.
    pub fn reserve(&mut self, rt: &impl Wait) -> Result<(usize, Arc<Done>), AllocError> {
        self.running.reserve(1)?;
        let threads = self.running.len().saturating_add(1);
        self.seats.reserve(threads)?;
        self.done.places.lock(rt).reserve(threads)?;
        let done = Arc::try_clone(&self.done)?;
        Ok((self.running.vacant_key(), done))
    }

    /// Returns a free seat, or else a new one, or `None` if the service has no more.
    pub fn take_seat(
        &mut self,
        rt: &impl Wait,
        shared: &SharedService<L, C>,
    ) -> Option<Seat<L, C>> {
        self.seats.pop().or_else(|| shared.seat(rt).ok())
    }

    /// Adds a thread, at the index that `reserve` returned last.
    pub fn add(&mut self, thread: JoinHandle<Seat<L, C>>) {
        let _ = self.running.insert(thread);
    }

    /// Takes back a seat whose work was done here, although the end of a thread was noted. A seat for which there is not enough memory is
    /// lost, and `SharedService::finish` then returns everything.
    pub fn give_back(&mut self, rt: &impl Wait, place: usize, seat: Seat<L, C>) {
        self.done.places.lock(rt).retain(|told| *told != place);
        let _ = self.seats.push(seat);
    }

    /// Returns the next connection; in the meantime threads that are done are joined. If descriptors or memory are lacking, waits until a
    /// connection ends, or, while nobody is connected, a millisecond: others have them then. Returns `None` if accepting fails otherwise
    /// while nobody is connected.
    pub fn accept<R: Threads + Wait>(
        &mut self,
        rt: &R,
        listener: &TcpListener,
    ) -> Option<TcpStream> {
        for _try in rt.forever() {
            self.join_done(rt);
            match listener.accept() {
                Ok((stream, _)) => return Some(stream),
                Err(error) if is_of_client(error.kind()) => {}
                Err(_) if !self.running.is_empty() => self.done.wait(rt),
                Err(error) if is_of_want(&error) => pause(rt),
                Err(_) => return None,
            }
        }
        unreachable!()
    }

    /// Joins the threads that are done, without waiting for those that run.
    fn join_done<R: Threads + Wait>(&mut self, rt: &R) {
        for _joined in 0..self.running.len() {
            let Some(place) = self.done.places.lock(rt).pop() else {
                return;
            };
            if let Some(thread) = self.running.try_remove(place) {
                let _ = self.seats.push(thread.join(rt));
            }
        }
    }

    /// Joins all threads, and returns the seats, in no order.
    pub fn finish(mut self, rt: &impl Threads) -> Vec<Seat<L, C>> {
        for thread in self.running.drain() {
            let _ = self.seats.push(thread.join(rt));
        }
        self.seats
    }
}

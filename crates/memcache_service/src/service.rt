//! A service: a stock of items, and the connections that use it.
ghost use Rattle.slab.specs.Slab.{Updates, get};
ghost use Rattle.std.specs.Prelude.{◌≡◌, ◌≢◌, ◌↔◌, ◌≤◌, ◌<◌, ◌^◌, ℕ, [], None, Ok, IfOk, IsTrue, MatchOption, MatchResult, OnErr, false, length};
ghost use Rattle.memcache_model.specs.Counts.{no_counts, opens, reads, writes};
ghost use Rattle.memcache_service.specs.Serving.{FailsToFeed, HasFed, IsDoneFor};
ghost use Rattle.memcache_service.specs.Talking.{HasOpened, HasTaken, later_of};
ghost use Rattle.memcache_service.specs.Shelves.{IsWithinCapacity, MayComeAt};

use crate::connection::Connection;
use crate::shelf::Shelf;
use crate::stock::{Setup, Stock};
use memcache_model::{Counters, add, up};
use slab::Slab;
use std::alloc::{AllocError, Global};

/// Moments are below this many milliseconds of Unix time, which are 278 years.
const MOMENTS: u64 = 1 << 43;

/// The number of a connection.
pub type Conn = usize;

/// A stock of items, and the connections that use it. Moments are in milliseconds of Unix time; one that is before that of the last call,
/// or 2^43 or later, counts as that of the last call.
#[derive(Drop)]
pub struct Service<T: Shelf> {
    stock: Stock<T>,
    connections: Slab<Connection>,
    moment: u64,
    ghost in_time: { MayComeAt (T.view stock.shelf) moment },
}

impl<T: Shelf> Service<T> {
    /// Creates a service over a shelf, without connections. Returns an error if there is not enough memory.
    pub fn new(alloc: Global, shelf: T, setup: Setup, moment: u64) -> Result<Service<T>, AllocError>
        requires { MayComeAt (T.view shelf) moment }
        ensures shelf { IfOk result (λ made. made.stock.shelf ≡ shelf) }
        ensures fresh { IfOk result (λ made. (made.stock.uniques ≡ 0) × (made.stock.flush ≡ None)
            × (made.moment ≡ moment) × (made.stock.counters ≡ no_counts)) }
        ensures most { IfOk result (λ made. made.stock.most ≡ setup.item_size) }
        ensures none { IfOk result (λ made. (conn : ℕ) → get made.connections conn ≡ None) }
    {
        let stock = Stock::new(alloc, shelf, setup, moment)?;
        Ok(Service {
            stock,
            connections: Slab::new(alloc),
            moment,
        })
    }

    /// Opens a connection, and returns its number, which no other open connection has. Returns an error if there is not enough memory.
    pub fn open(&mut self) -> Result<Conn, AllocError>
        ensures opens { IfOk result (λ conn.
            HasOpened conn self.old.connections self.new.connections) }
        ensures moment { self.new.moment ≡ self.old.moment }
        ensures same { self.new.stock ≡ record self.old.stock {
          connections = self.new.stock.connections;
          counters = self.new.stock.counters;
        } }
        ensures counts { MatchResult result
            (λ conn. self.new.stock.counters ≡ opens self.old.stock.counters)
            (λ e. self.new.stock.counters ≡ self.old.stock.counters) }
    {
        let alloc = self.stock.alloc;
        let conn = self.connections.insert(Connection::new(alloc))?;
        self.stock.connections = self.connections.len() as u64;
        up(&mut self.stock.counters.total_connections);
        Ok(conn)
    }

    /// Closes a connection, if it is open. A later one may have its number.
    pub fn close(&mut self, conn: Conn)
        ensures closed { Updates self.old.connections self.new.connections conn None }
        ensures same { (self.new.moment ≡ self.old.moment) × (self.new.stock
            ≡ record self.old.stock { connections = self.new.stock.connections }) }
    {
        let _ = self.connections.try_remove(conn);
        self.stock.connections = self.connections.len() as u64;
    }

    /// Feeds a connection a piece of bytes at a moment, and runs the requests that it completes. Returns false if the connection has ended,
    /// behind a `quit` or a line that is too long, and an error if it has ended since there was not enough memory. Then its replies are to
    /// be taken, and it is to be closed.
    pub fn feed(&mut self, conn: Conn, piece: &[u8], moment: u64) -> Result<bool, AllocError>
        ensures feeds { get self.old.connections conn ≢ None → IfOk result (λ goes_on.
            IsDoneFor conn (reads (length piece.now)) (HasFed T.Shelf self.new.moment piece.now goes_on)
            self.old.connections self.new.connections self.old.stock self.new.stock) }
        ensures lacks { OnErr result
            (IsDoneFor conn (reads (length piece.now)) (FailsToFeed T.Shelf self.new.moment piece.now)
            self.old.connections self.new.connections self.old.stock self.new.stock) }
        ensures absent { get self.old.connections conn ≡ None
            → (result ≡ Ok false) × (self.new.connections ≡ self.old.connections)
            × (self.new.stock ≡ self.old.stock) }
        ensures later { self.old.moment ≤ self.new.moment }
        ensures moment { self.new.moment ≡ later_of self.old.moment moment }
        ensures capacity { (T.view self.new.stock.shelf).capacity
            ≡ (T.view self.old.stock.shelf).capacity }
    {
        let now = later(self.moment, moment);
        match self.connections.get_mut(conn) {
            Some(connection) => {
                add(&mut self.stock.counters.bytes_read, piece.len() as u64);
                let fed = connection.feed(&mut self.stock, piece, now);
                self.moment = now;
                match fed {
                    Ok(()) => Ok(!connection.is_closed()),
                    Err(AllocError) => Err(AllocError),
                }
            }
            None => {
                self.moment = now;
                Ok(false)
            }
        }
    }

    /// Returns whether requests of a connection are held back until its replies are taken. Then the connection is to be fed, if only an
    /// empty piece.
    pub fn is_full(&self, conn: Conn) -> bool
        ensures { MatchOption (get self.now.connections conn) (result ≡ false) (λ connection.
            IsTrue result ↔ 1048576 ≤ length connection.output.items) }
    {
        match self.connections.get(conn) {
            Some(connection) => connection.is_full(),
            None => false,
        }
    }

    /// Does nothing. Its contract bounds what the items weigh together: beside at most 63 keys, which were written since the last maintenance,
    /// at most the shelf's capacity.
    pub fn bounded(&self)
        ensures { ∥ IsWithinCapacity T.weigh (T.view self.now.stock.shelf) ∥₁ }
    {
        self.stock.shelf.bounded();
    }

    /// Returns what was counted.
    pub fn counters(&self) -> &Counters
        ensures { result.now ≡ self.now.stock.counters }
    {
        &self.stock.counters
    }

    /// Moves the replies of a connection out, in exchange for what `into` has as memory.
    pub fn take_output(&mut self, conn: Conn, into: &mut Vec<u8>)
        ensures takes { get self.old.connections conn ≢ None
            → IsDoneFor conn (writes (length into.new.items)) (HasTaken into.new.items) self.old.connections self.new.connections
            self.old.stock self.new.stock }
        ensures absent { get self.old.connections conn ≡ None
            → (into.new.items ≡ []) × (self.new.connections ≡ self.old.connections)
            × (self.new.stock ≡ self.old.stock) }
        ensures same { self.new.moment ≡ self.old.moment }
    {
        into.clear();
        if let Some(connection) = self.connections.get_mut(conn) {
            connection.take_output(into);
            add(&mut self.stock.counters.bytes_written, into.len() as u64);
        }
    }
}

/// The later of two moments, or the first if the second is too late.
fn later(last: u64, moment: u64) -> u64
    requires { last < 2 ^ 43 }
    ensures moment { result ≡ later_of last moment }
    ensures later { last ≤ result }
    ensures early { result < 2 ^ 43 }
{
    if last < moment && moment < MOMENTS {
        moment
    } else {
        last
    }
}

//! A connection: the bytes that no request has used, and the replies that were not taken.
ghost use Rattle.std.specs.Prelude.{◌≡◌, ◌↔◌, ◌≤◌, ◌-◌, ◌++◌, ℕ, List, IfOk, IsOk, OnOk, OnErr, IsTrue, true, false, drop, length, vec_len};
ghost use Rattle.memcache_lines.specs.Said.{asks};
ghost use Rattle.memcache_service.specs.Serving.{FailsToFeed, Feeds, HasLacked, HasRun, IsRequestServed, ends_behind};
ghost use Rattle.memcache_service.specs.Shelves.{MayComeAt};
ghost use Rattle.memcache_service.specs.Stocks.{Spares};
ghost use Rattle.memcache_service.specs.Talking.{RepliesAreTaken, IsUnused};

use crate::shelf::Shelf;
use crate::stock::Stock;
use memcache_lines::{Arrived, Command, Request, read_request};
use memcache_model::ProtocolError;
use std::alloc::{AllocError, Global};
use std::mem;

/// While this many bytes of replies were not taken, no further request runs.
const MAX_OUTPUT: usize = 1 << 20;

/// Memory beyond this many bytes is given back once a connection has used it.
const KEPT: usize = 1 << 16;

/// The bytes of a connection that no request has used, and the replies that were not taken.
#[derive(Drop)]
pub struct Connection {
    alloc: Global,
    input: Vec<u8>,
    // how many bytes to come belong to a data block that is passed over
    skip: usize,
    output: Vec<u8>,
    is_closed: bool,
}

impl Connection {
    /// Creates a connection to which no byte has come. The call allocates nothing.
    pub fn new(alloc: Global) -> Connection
        ensures { IsUnused result }
    {
        Connection {
            alloc,
            input: Vec::new(alloc),
            skip: 0,
            output: Vec::new(alloc),
            is_closed: false,
        }
    }

    /// Returns whether no further request runs: the client has quit, a line was too long, the client speaks another protocol,
    /// or there was not enough memory.
    pub fn is_closed(&self) -> bool
        ensures { result ≡ self.now.is_closed }
    {
        self.is_closed
    }

    /// Returns whether replies have to be taken before further requests run.
    pub fn is_full(&self) -> bool
        ensures { IsTrue result ↔ 1048576 ≤ length self.now.output.items }
    {
        self.output.len() >= MAX_OUTPUT
    }

    /// Returns the replies that were not taken.
    pub fn output(&self) -> &[u8]
        ensures { result.now ≡ self.now.output.items }
    {
        self.output.as_slice()
    }

    /// Moves the replies out, in exchange for an empty buffer.
    pub fn take_output(&mut self, into: &mut Vec<u8>)
        ensures taken { into.new.items ≡ self.old.output.items }
        ensures left { RepliesAreTaken self.old self.new }
    {
        into.clear();
        mem::swap(&mut self.output, into);
    }

    /// Takes a piece of bytes, and runs the requests that it completes. A request runs only while less than 1 MiB of replies wait; what is
    /// held back runs with a later piece, which may be empty.
    ///
    /// Returns an error if there was no memory: what ran before that has run, and the connection has ended.
    pub fn feed<T: Shelf>(
        &mut self,
        stock: &mut Stock<T>,
        piece: &[u8],
        moment: u64,
    ) -> Result<(), AllocError>
        requires { MayComeAt (T.view stock.old.shelf) moment }
        ensures feeds { self.old.is_closed ≡ false → OnOk result
            (Feeds T.Shelf moment piece.now self.old self.new stock.old stock.new) }
        ensures lacks { OnErr result
            (FailsToFeed T.Shelf moment piece.now self.old self.new stock.old stock.new) }
        ensures closed { self.old.is_closed ≡ true
            → IsOk result × (self.new ≡ self.old) × (stock.new ≡ stock.old) }
        ensures may_follow { MayComeAt (T.view stock.new.shelf) moment }
    {
        if self.is_closed {
            return Ok(());
        }
        match self.take_in(stock, piece, moment) {
            Ok(()) => Ok(()),
            Err(AllocError) => {
                self.close();
                Err(AllocError)
            }
        }
    }

    /// Takes a piece of bytes, and runs the requests that it completes, unless there is no memory for it.
    fn take_in<T: Shelf>(
        &mut self,
        stock: &mut Stock<T>,
        piece: &[u8],
        moment: u64,
    ) -> Result<(), AllocError>
        requires in_time { MayComeAt (T.view stock.old.shelf) moment }
        requires going { self.old.is_closed ≡ false }
        ensures feeds { OnOk result
            (Feeds T.Shelf moment piece.now self.old self.new stock.old stock.new) }
        ensures lacks { OnErr result (HasLacked T.Shelf moment stock.old.most stock.old
            (self.old.input.items ++ drop self.old.skip piece.now)
            (self.old.skip - length piece.now) self.old.output.items stock.new
            self.new.output.items) }
        ensures may_follow { MayComeAt (T.view stock.new.shelf) moment }
    {
        let piece = self.pass_over(piece);
        if self.input.is_empty() {
            let used = self.run(stock, piece, moment)?;
            self.keep(&piece[used..])
        } else {
            self.input.extend_from_slice(piece)?;
            self.run_kept(stock, moment)
        }
    }

    /// What is left of a piece behind a data block that is passed over.
    fn pass_over<'a>(&mut self, piece: &'a [u8]) -> &'a [u8]
        ensures left { result.now ≡ drop self.old.skip piece.now }
        ensures skip { self.new ≡ record self.old { skip = self.old.skip - length piece.now } }
    {
        let count = self.skip.min(piece.len());
        self.skip -= count;
        &piece[count..]
    }

    /// Keeps bytes for later, unless the connection has ended.
    fn keep(&mut self, bytes: &[u8]) -> Result<(), AllocError>
        ensures kept { OnOk result (self.old.is_closed ≡ false
            → self.new.input.items ≡ self.old.input.items ++ bytes.now) }
        ensures going { OnErr result (self.old.is_closed ≡ false) }
        ensures rest { self.new ≡ record self.old { input = self.new.input } }
    {
        if self.is_closed {
            return Ok(());
        }
        self.input.extend_from_slice(bytes)
    }

    /// Runs no further request.
    fn close(&mut self)
        ensures { self.new ≡ record self.old { is_closed = true; input = self.new.input } }
    {
        self.is_closed = true;
        self.input = Vec::new(self.alloc);
    }

    /// Runs the requests in the bytes that were kept.
    fn run_kept<T: Shelf>(&mut self, stock: &mut Stock<T>, moment: u64) -> Result<(), AllocError>
        requires in_time { MayComeAt (T.view stock.old.shelf) moment }
        requires going { self.old.is_closed ≡ false }
        ensures ran { OnOk result ((left : List ℕ) × HasRun T.Shelf moment stock.old.most stock.old
            self.old.input.items self.old.skip self.old.output.items stock.new left self.new
            × (self.new.is_closed ≡ false → self.new.input.items ≡ left)) }
        ensures lacks { OnErr result (HasLacked T.Shelf moment stock.old.most stock.old
            self.old.input.items self.old.skip self.old.output.items stock.new
            self.new.output.items) }
        ensures may_follow { MayComeAt (T.view stock.new.shelf) moment }
    {
        let mut input = Vec::new(self.alloc);
        mem::swap(&mut self.input, &mut input);
        let used = self.run(stock, input.as_slice(), moment)?;
        if !self.is_closed {
            drop_front(&mut input, used);
            self.put_back(input);
        }
        Ok(())
    }

    /// Keeps bytes whose requests ran, and gives back memory that is not needed.
    fn put_back(&mut self, input: Vec<u8>)
        ensures kept { self.new.input.items ≡ input.items }
        ensures rest { self.new ≡ record self.old { input = self.new.input } }
    {
        if input.is_empty() && input.capacity() > KEPT {
            self.input = Vec::new(self.alloc);
        } else {
            self.input = input;
        }
    }

    /// Runs the requests in the bytes, and returns how many bytes they took.
    fn run<T: Shelf>(
        &mut self,
        stock: &mut Stock<T>,
        bytes: &[u8],
        moment: u64,
    ) -> Result<usize, AllocError>
        requires in_time { MayComeAt (T.view stock.old.shelf) moment }
        requires going { self.old.is_closed ≡ false }
        ensures used { IfOk result (λ used. used ≤ length bytes.now) }
        ensures ran { IfOk result (λ used. HasRun T.Shelf moment stock.old.most stock.old bytes.now
            self.old.skip self.old.output.items stock.new (drop used bytes.now) self.new) }
        ensures lacks { OnErr result (HasLacked T.Shelf moment stock.old.most stock.old bytes.now
            self.old.skip self.old.output.items stock.new self.new.output.items) }
        ensures kept { self.new.input ≡ self.old.input }
        ensures may_follow { MayComeAt (T.view stock.new.shelf) moment }
    {
        let mut start = 0;
        while self.may_run() {
            match read_request(stock.most, &bytes[start..]) {
                Arrived::Part => return Ok(start),
                Arrived::Request { request, used } => {
                    self.serve(stock, &request, moment)?;
                    let there = used.min(bytes.len() - start);
                    self.skip = used - there;
                    start += there;
                }
            }
        }
        Ok(start)
    }

    /// Whether a further request runs, if one has arrived.
    fn may_run(&self) -> bool
        ensures going { result ≡ true → self.now.is_closed ≡ false }
        ensures full { result ≡ false → self.now.is_closed ≡ false
            → 1048576 ≤ length self.now.output.items }
    {
        !self.is_closed && !self.is_full()
    }

    /// Runs a request.
    fn serve<T: Shelf>(
        &mut self,
        stock: &mut Stock<T>,
        request: &Request<'_>,
        moment: u64,
    ) -> Result<(), AllocError>
        requires { MayComeAt (T.view stock.old.shelf) moment }
        ensures served { OnOk result (IsRequestServed T.Shelf moment (record {
          command = asks request.now.command;
          quiet = request.now.quiet;
        }) stock.old stock.new self.old.output.items self.new.output.items) }
        ensures ended { OnOk result
            (self.new.is_closed ≡ ends_behind (asks request.now.command)) }
        ensures refused { OnErr result (Spares stock.old stock.new
            × (self.new.output.items ≡ self.old.output.items)) }
        ensures kept { self.new.input ≡ self.old.input }
        ensures may_follow { MayComeAt (T.view stock.new.shelf) moment }
        ensures most { stock.new.most ≡ stock.old.most }
    {
        stock.serve(request, moment, &mut self.output)?;
        self.is_closed = ends(&request.command);
        Ok(())
    }
}

/// Whether a connection ends behind a command.
fn ends(command: &Command<'_>) -> bool
    ensures { result ≡ ends_behind (asks command.now) }
{
    match *command {
        Command::Quit
        | Command::Malformed(ProtocolError::TooLong)
        | Command::Malformed(ProtocolError::Foreign) => true,
        _ => false,
    }
}

/// Drops the first `count` bytes.
fn drop_front(bytes: &mut Vec<u8>, count: usize)
    requires { count ≤ vec_len bytes.old }
    ensures { bytes.new.items ≡ drop count bytes.old.items }
{
    if count == 0 {
        return;
    }
    let len = bytes.len();
    bytes.as_mut_slice().copy_within(count..len, 0);
    bytes.truncate(len - count);
}

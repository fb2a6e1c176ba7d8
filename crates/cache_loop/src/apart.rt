//! A host whose connections leave their loads to others.
ghost use Rattle.std.specs.Prelude.{◌≡◌, ◌++◌, [], false, None, IfOk, OnErr};
ghost use Rattle.cache_run.specs.Driver.Exchanges.{Outs};
ghost use Rattle.cache_loop.specs.Apart.{ComesApart, IsGivenApart};
ghost use Rattle.cache_loop.specs.Loads.{GivesUpOne, GivesUpEach, KeepsOf, SettlesOne, numbers_out, outs_in};

use audit_model::{Bytes, Conn, LoadId, Outcome};
use cache_run::{Given, Host, Loader, Owed, RunError};
use std::alloc::Global;
use std::mem;

/// A host whose connections leave the loads that go out of their namespace to others.
#[derive(Drop)]
pub struct Apart<'a, H: Host> {
    alloc: Global,
    inner: &'a mut H,
    // loads that went out
    loads: Vec<(LoadId, Bytes)>,
}

impl<'a, H: Host> Apart<'a, H> {
    /// Creates a host that leaves the loads of another host's connections to others.
    pub fn new(alloc: Global, inner: &'a mut H) -> Apart<'a, H> {
        Apart {
            alloc,
            inner,
            loads: Vec::new(alloc),
        }
    }

    /// Takes the loads that went out since the last call, with their keys.
    pub fn take_loads(&mut self) -> Vec<(LoadId, Bytes)>
        ensures all { result.items ≡ self.old.loads.items }
        ensures none { self.new.loads.items ≡ [] }
    {
        mem::replace(&mut self.loads, Vec::new(self.alloc))
    }

    /// Keeps loads that went out. Those for which there is no memory are returned.
    fn keep(&mut self, loads: Vec<(LoadId, Bytes)>) -> Option<Vec<(LoadId, Bytes)>>
        ensures { KeepsOf loads.items (outs_in result) self.old.loads.items self.new.loads.items }
    {
        if self.loads.is_empty() {
            self.loads = loads;
            return None;
        }
        let mut loads = loads;
        if self.loads.append(&mut loads).is_err() {
            return Some(loads);
        }
        None
    }

    /// Settles a load of the host by a connection, like `Host::settle`. Keeps the loads that go out then, and returns those for which there
    /// is no memory. Returns the host's error.
    pub fn settle_load(
        &mut self,
        place: &mut H::Place,
        conn: Conn,
        load: u64,
        said: Option<Outcome>,
        moment: u64,
    ) -> Result<Option<Vec<(LoadId, Bytes)>>, RunError>
        requires known { H.knows conn place.old }
        ensures settled { IfOk result (λ left. (kept : Outs)
            × SettlesOne H.came conn load moment said place.old (kept ++ outs_in left) place.new
            × (self.new.loads.items ≡ self.old.loads.items ++ kept)) }
        ensures refused { OnErr result (H.rests place.old place.new
            × (self.new.loads.items ≡ self.old.loads.items)) }
    {
        let Given { owed, .. } = self.inner.settle(place, conn, load, said, moment, true)?;
        let Owed { loads, .. } = owed;
        match loads {
            Some(loads) => Ok(self.keep(loads)),
            None => Ok(None),
        }
    }

    /// Gives up a load at the latest moment, by a connection. No loads are requested then.
    pub fn give_up(&mut self, place: &mut H::Place, conn: Conn, load: u64)
        requires known { H.knows conn place.old }
        ensures told { GivesUpOne H.came H.rests conn load place.old place.new }
        ensures loads { self.new.loads.items ≡ self.old.loads.items }
    {
        let _ = self.inner.settle(place, conn, load, None, 0, false);
    }

    /// Gives up loads that went out and for which there is no memory.
    pub fn give_up_all(&mut self, place: &mut H::Place, conn: Conn, loads: Vec<(LoadId, Bytes)>)
        requires known { (place : H.Place) → H.knows conn place }
        ensures each { GivesUpEach H.came H.rests conn place.old (numbers_out loads.items)
            place.new }
        ensures loads { self.new.loads.items ≡ self.old.loads.items }
    {
        for (load, _) in loads {
            self.give_up(place, conn, load.number);
        }
    }

    /// Gives a connection what it is given, but for the loads, unless there is no memory to keep them.
    fn set_apart(&mut self, given: Given) -> Given
        ensures given { IsGivenApart given result }
        ensures kept { KeepsOf (outs_in given.owed.loads) (outs_in result.owed.loads)
            self.old.loads.items self.new.loads.items }
    {
        let Given { held, owed } = given;
        let Owed {
            replies,
            loads,
            closing,
            waits,
        } = owed;
        let loads = match loads {
            Some(loads) => self.keep(loads),
            None => None,
        };
        let owed = Owed {
            replies,
            loads,
            closing,
            waits,
        };
        Given { held, owed }
    }
}

impl<H: Host> Host for Apart<'_, H> {
    type Place = H::Place;

    ghost LENT = { false };

    ghost opens = { H.opens };

    ghost knows = { H.knows };

    ghost fits = { H.fits };

    ghost came = { ComesApart H.came };

    ghost rests = { H.rests };

    ghost counted = { H.counted };

    ghost exhausts = { H.exhausts };

    ghost closes = { H.closes };

    ghost drops = { H.drops };

    fn open(&mut self, place: &mut H::Place, namespace: u64) -> Result<Conn, RunError> {
        self.inner.open(place, namespace)
    }

    fn cut(&mut self, bytes: &[u8]) -> usize {
        self.inner.cut(bytes)
    }

    fn feed(
        &mut self,
        place: &mut H::Place,
        conn: Conn,
        piece: &[u8],
        moment: u64,
    ) -> Result<Option<Given>, RunError> {
        match self.inner.feed(place, conn, piece, moment) {
            Ok(Some(given)) => Ok(Some(self.set_apart(given))),
            Ok(None) => Ok(None),
            Err(error) => Err(error),
        }
    }

    fn settle(
        &mut self,
        place: &mut H::Place,
        conn: Conn,
        load: u64,
        said: Option<Outcome>,
        moment: u64,
        wants_loads: bool,
    ) -> Result<Given, RunError> {
        match self
            .inner
            .settle(place, conn, load, said, moment, wants_loads)
        {
            Ok(given) => Ok(self.set_apart(given)),
            Err(error) => Err(error),
        }
    }

    fn await_owed(&mut self, place: &mut H::Place, conn: Conn) -> Given {
        let given = self.inner.await_owed(place, conn);
        self.set_apart(given)
    }

    fn close(&mut self, place: &mut H::Place, conn: Conn) {
        self.inner.close(place, conn);
    }

    fn drop_loads<D: Loader>(
        &mut self,
        place: &mut H::Place,
        conn: Conn,
        hand: &[(LoadId, Bytes)],
        loader: &mut D,
    ) {
        self.inner.drop_loads(place, conn, hand, loader);
    }

    ghost fits_none = { H.fits_none };

    ghost exhausts_within = { H.exhausts_within };

    ghost closes_behind = { H.closes_behind };
}

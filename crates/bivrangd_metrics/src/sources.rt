//! What is counted of a namespace.

use crate::holdings::{Holding, Place};
use cache_loop::{Counts, Departures};
use cached_config::{HostedNamespace, Hosting, Protocol};
use cached_server::Machine;
use std::alloc::{AllocError, Global};
use std::sync::atomic::{AtomicU64, Ordering};
use std::sync::{Arc, Mutex, Wait};

/// Where the numbers of a namespace are.
#[derive(Drop)]
pub struct Source {
    /// The name of the namespace.
    pub name: String,
    /// The port of the namespace.
    pub port: u16,
    place: Place,
    /// By which protocol the namespace is served.
    pub protocol: Protocol,
    /// How much the namespace may hold, or `None` without a limit.
    pub capacity: Option<u64>,
    /// How many connections may be open at once.
    pub connections: u64,
    /// How many connections are open.
    pub open: Arc<AtomicU64>,
    /// How many values have left, by cause, as far as the heralds of the namespace count that.
    pub departures: Arc<Mutex<Departures>>,
    /// What each loop of the namespace has counted.
    pub counts: Vec<Arc<Mutex<Counts>>>,
}

/// The numbers of a namespace, at some moment each.
#[derive(Clone, Copy, Drop)]
pub struct Reading {
    /// How many connections were open.
    pub open: u64,
    /// How many values had left, by cause.
    pub departures: Departures,
    /// What the loops had counted together.
    pub counts: Counts,
    /// What was held, or `None` if the namespace did not answer.
    pub holding: Option<Holding>,
}

impl Source {
    /// Creates the source of a namespace without loops. Returns an error if there is not enough memory.
    pub fn new(
        alloc: Global,
        space: &HostedNamespace,
        hosting: &Hosting,
    ) -> Result<Source, AllocError> {
        Ok(Source {
            name: String::from_utf8_lossy(alloc, space.name.as_slice())?,
            port: space.port,
            place: Place::of(alloc, space, hosting)?,
            protocol: hosting.protocol,
            capacity: capacity_of(space, hosting),
            connections: hosting.connections,
            open: Arc::new(alloc, AtomicU64::new(0))?,
            departures: Arc::new(alloc, Mutex::new(Departures::new()))?,
            counts: Vec::new(alloc),
        })
    }

    /// Adds the counts of one more loop, and returns them. Returns an error if there is not enough memory.
    pub fn add_loop(&mut self, alloc: Global) -> Result<Arc<Mutex<Counts>>, AllocError> {
        let counts = Arc::new(alloc, Mutex::new(Counts::new()))?;
        let own = Arc::try_clone(&counts)?;
        self.counts.push(own)?;
        Ok(counts)
    }

    /// Returns what the loops of the namespace have counted together.
    pub fn counts<R: Wait>(&self, rt: &R) -> Counts {
        let mut counts = Counts::new();
        for counted in &self.counts {
            let counted = *counted.lock(rt);
            counts.add(&counted);
        }
        counts
    }

    /// Asks as a client what is held; not while no more clients may be connected.
    fn ask<R: Machine>(&self, rt: &R) -> Option<Holding> {
        if self.open.load(Ordering::SeqCst) >= self.connections {
            return None;
        }
        self.place.ask(rt, self.protocol)
    }

    /// Reads the numbers of the namespace.
    pub fn read<R: Machine>(&self, rt: &R) -> Reading {
        let holding = self.ask(rt);
        let counts = self.counts(rt);
        let mut departures = *self.departures.lock(rt);
        departures.add(&counts.departures);
        Reading {
            open: self.open.load(Ordering::SeqCst),
            departures,
            counts,
            holding,
        }
    }
}

/// How much a namespace may hold.
fn capacity_of(space: &HostedNamespace, hosting: &Hosting) -> Option<u64> {
    match hosting.protocol {
        Protocol::Lines => space.config.capacity,
        Protocol::Memcache(limits) => Some(limits.capacity),
    }
}

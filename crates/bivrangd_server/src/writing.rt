//! The thread that writes notices.

use crate::fates::Fates;
use crate::starting::Told;
use cached_server::{Machine, Outlet, Scribe, Shown};
use crossbeam_channel::{Receiver, bounded};
use std::alloc::{AllocError, Global};
use std::sync::Arc;
use std::thread;
use std::thread::JoinHandle;
use std::time::Duration;

/// Notices wait for so many tenths of a second for whoever reads them, when the program ends.
const PATIENCE: u32 = 100;

/// The thread that writes notices.
#[derive(Drop)]
pub struct Writing {
    thread: JoinHandle<()>,
    ended: Receiver<(), Global>,
}

impl Writing {
    /// Starts to write what an outlet takes in. Returns an error if the thread cannot be started.
    pub fn start<W: Shown, V: Shown, R: Machine>(
        rt: R,
        alloc: Global,
        scribe: Scribe<W, V>,
        outlet: &Arc<Outlet>,
    ) -> Result<Writing, AllocError> {
        let outlet = Arc::try_clone(outlet)?;
        let (ending, ended) = bounded(alloc, 1)?;
        let writing = move || {
            scribe.write_all(&rt, &outlet);
            let _ = ending.send(&rt, ());
        };
        let thread = thread::spawn(&rt, writing)?;
        Ok(Writing { thread, ended })
    }

    /// Waits until all that the outlet took in is written, but ten seconds at most, and no longer when the program is told to stop once
    /// more. Returns of how many notices it is not known what became of them; 0 if it was known before that they cannot be written.
    pub fn end<R: Machine>(
        self,
        rt: &R,
        outlet: &Outlet,
        fates: &Fates,
        told: &Receiver<Told, Global>,
    ) -> u64 {
        let is_closed = fates.is_closed();
        outlet.end(rt);
        let has_ended = waits_until(rt, &self.ended, told);
        if has_ended {
            self.thread.join(rt);
        }
        if is_closed { 0 } else { fates.unknown() }
    }
}

/// Waits for the end of a thread, for some time. Returns whether it came.
fn waits_until<R: Machine>(
    rt: &R,
    ended: &Receiver<(), Global>,
    told: &Receiver<Told, Global>,
) -> bool {
    for _tenth in 0..PATIENCE {
        if ended.recv_timeout(rt, Duration::from_millis(100)).is_ok() {
            return true;
        }
        if matches!(told.try_recv(rt), Ok(Told::Stop)) {
            return false;
        }
    }
    false
}

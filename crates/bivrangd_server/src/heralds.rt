//! What leaves a namespace.

use crate::fates::Fates;
use audit_model::{Note, Seq};
use cache_loop::Departures;
use cache_service::Teller;
use cached_config::Notices;
use cached_server::Site;
use std::alloc::{AllocError, Global};
use std::sync::{Arc, Mutex, Wait};
use std::time::Clock;

/// A teller, which counts what leaves a namespace, and reports as much of it as the configuration says.
#[derive(Drop)]
pub struct Herald<R: Clock + Wait + Copy> {
    /// Where notes go, and the namespace.
    pub site: Site<R>,
    /// The allocator.
    pub alloc: Global,
    /// How much of each note is reported.
    pub notices: Notices,
    /// What was counted.
    pub departures: Arc<Mutex<Departures>>,
    /// What becomes of notices.
    pub fates: Arc<Fates>,
}

impl<R: Clock + Wait + Copy> Herald<R> {
    /// Tells the notes without their values. Those for which there is no memory are not told.
    fn tell_keys<Q: Wait>(&mut self, rt: &Q, notes: &[Note]) {
        for note in notes {
            if let Ok(bare) = without_value(self.alloc, note) {
                self.fates.tell(1);
                self.site.tell(rt, &[bare]);
            }
        }
    }
}

/// Counts what some notes tell.
fn count_all(departures: &mut Departures, notes: &[Note]) {
    for note in notes {
        departures.count(note.cause);
    }
}

/// A note with its key and no value.
fn without_value(alloc: Global, note: &Note) -> Result<Note, AllocError> {
    Ok(Note {
        cause: note.cause,
        key: note.key.clone()?,
        value: Seq::from_vec(Vec::new(alloc)),
    })
}

impl<R: Clock + Wait + Copy> Teller for Herald<R> {
    ghost tells = { λ before notes after. Unit {0} };

    fn is_told(&self) -> bool {
        true
    }

    fn tell<Q: Wait>(&mut self, rt: &Q, notes: &[Note]) {
        count_all(&mut self.departures.lock(rt), notes);
        match self.notices {
            Notices::Values => {
                self.fates.tell(notes.len());
                self.site.tell(rt, notes);
            }
            Notices::Keys => self.tell_keys(rt, notes),
            Notices::Off => {}
        }
    }
}

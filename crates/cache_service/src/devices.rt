//! What connections are served with.
ghost use Rattle.std.specs.Prelude.{List};
ghost use Rattle.audit_model.specs.declared.transcript.Note.{Note as Told};

use audit_model::Note;
use cache_run::{Clock, Loader};
use std::alloc::Global;
use std::sync::Wait;

/// A receiver of the notes of a connection's namespace, from the thread that serves the connection.
pub trait Teller: Drop {
    /// In one state some notes can be received, which leads to another state.
    ghost tells: { Self → List Told → Self → Type 0 };

    /// Returns whether the teller receives notes. If not, the notes are left to be taken (`SharedService::next_notice`).
    fn is_told(&self) -> bool;

    /// Receives some notes of one namespace, in their order, which nobody else receives. The teller handles its own errors.
    fn tell<R: Wait>(&mut self, rt: &R, notes: &[Note])
        ensures { tells self.old notes.now self.new };
}

/// A teller that receives nothing: the notes are left to be taken (`SharedService::next_notice`).
#[derive(Clone, Copy, Drop)]
pub struct Untold;

impl Teller for Untold {
    ghost use Rattle.std.specs.Prelude.{◌≡◌};

    ghost tells = { λ before notes after. after ≡ before };

    fn is_told(&self) -> bool {
        false
    }

    fn tell<R: Wait>(&mut self, rt: &R, notes: &[Note]) {}
}

/// Whoever creates what each connection that `host` serves needs.
pub trait Devices {
    /// The clock of a connection.
    type Clock: Clock + Drop + Send + 'static;

    /// The loader of a connection.
    type Loader: Loader + Drop + Send + 'static;

    /// The teller of a connection.
    type Teller: Teller + Send + 'static;

    /// Returns a clock, a loader and a teller for one connection, or `None` to close that connection, and only that.
    fn make(&self, alloc: Global) -> Option<(Self::Clock, Self::Loader, Self::Teller)>;
}

//! How one turn stands.
ghost use Rattle.std.specs.Prelude.{◌≡◌, true};
ghost use Rattle.sync_desk.specs.Slots.Endings.{fits};

use front_reference::{Made, TurnKind};
use std::fmt::{self, Debug, Formatter, Write};

/// What became of a turn.
#[derive(Drop)]
pub enum Ending<V, F> {
    /// The turn is under way.
    Underway,
    /// The turn ended with this, which all callers that wait for it are told.
    Done(Made<V, F>),
    /// The turn was given up, and the callers that wait for it begin again.
    GivenUp,
}

impl<V, F> Debug for Ending<V, F> {
    fn fmt<W: Write>(&self, f: &mut Formatter<W>) -> fmt::Result {
        f.write_str(match self {
            Ending::Underway => "Computing",
            Ending::Done(Made::Nothing) => "ReadyNone",
            Ending::Done(_) => "Ready",
            Ending::GivenUp => "InitFuturePanicked",
        })
    }
}

/// One turn that is led, or that some still wait for.
#[derive(Drop)]
pub(crate) struct TurnSlot<V, F> {
    pub(crate) kind: TurnKind,
    pub(crate) hash: u64,
    pub(crate) waiting: u64,
    pub(crate) ending: Ending<V, F>,
    ghost fitting: { fits kind ending ≡ true },
}

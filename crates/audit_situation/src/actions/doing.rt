//! What a step does.
use audit_lines::Request;
use audit_model::Outcome;

/// What a step does: what its line says, and what else there is.
#[derive(Clone, Copy)]
pub enum Doing<'a> {
    /// The step runs its line's command, or answers its fault.
    Line(Request<'a>),
    /// The step is held back.
    Hold,
    /// The step hands a waiting `LOAD` its outcome.
    Deliver(&'a Outcome),
    /// The step gives a `LOAD` up for good.
    Abandon,
    /// The step stores an outcome under the key of its load.
    Store(Option<&'a [u8]>, &'a Outcome),
}

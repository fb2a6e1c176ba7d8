//! The outputs of inputs.
ghost use Rattle.std.specs.Prelude.{◌≡◌};
ghost use Rattle.audit_laws.specs.Receipts.Answers.{last_is_held, output_of};

use audit_model::{Conn, Event, Record, Step};

/// The output of an input that was accepted.
#[derive(Clone, Copy, Debug, PartialEq, Eq, Drop)]
pub enum Output {
    /// An opening: the connection that was opened.
    Opened { conn: Conn },
    /// A piece: its lines that could run have run, and none is held back.
    All,
    /// A piece: there was not enough memory for a command, which stays its connection's first; the next piece runs it again.
    Held,
    /// Everything else: a connection was closed, or a load answered or given up.
    Done,
}

/// Returns the output of the event of a record, as a service returns it: for an opening, its connection in that namespace. The call
/// allocates nothing.
pub fn output_of(namespace: u64, entry: &Record) -> Output
    ensures { result ≡ output_of namespace entry.now }
{
    match entry.event {
        Event::Open { conn } => Output::Opened {
            conn: Conn {
                namespace,
                number: conn,
            },
        },
        Event::Feed { .. } => {
            if last_is_held(entry.steps.as_slice()) {
                Output::Held
            } else {
                Output::All
            }
        }
        Event::Close { .. } | Event::Answer { .. } | Event::GiveUp { .. } => Output::Done,
    }
}

/// Whether the last step holds a command back.
fn last_is_held(steps: &[Step]) -> bool
    ensures { result ≡ last_is_held steps.now }
{
    match steps.last() {
        Some(step) => step.held,
        None => false,
    }
}

//! Which answers and give-ups are refused.
ghost use Rattle.std.specs.Prelude.{◌≡◌};
ghost use Rattle.audit_model.specs.Belongs.{refusal_of, refusal_of_bytes, refusal_of_ms, refusal_of_outcome};
ghost use Rattle.audit_model.specs.Grammar.{is_value};
ghost use Rattle.cache_core.specs.Settling.{answering, giving_up, known_of_loads};
ghost use Rattle.cache_commands.specs.Loads.Pending.{loads_pending};

use crate::interior::Interior;
use audit_model::{Config, Outcome, ServiceError};
use cache_commands::Store;
use cache_lines::Tape;

/// The latest moment that may be handed in, in nanoseconds.
pub const MAX_MOMENT: u64 = (1 << 63) - 1;

/// An outcome has at most this many bytes.
const MAX_BYTES: usize = 8192;

/// A value lives at most this many milliseconds.
const MAX_MILLISECONDS: u64 = 999_999_999_999;

/// Whether the bytes may stand as a value: none of them ends a line.
fn are_value(bytes: &[u8]) -> bool
    ensures { result ≡ is_value bytes.now }
{
    bytes.iter().all(|b| *b != 10 && *b != 13)
}

/// Why an outcome may not have those bytes.
fn refuse_bytes(bytes: &[u8]) -> Option<ServiceError>
    ensures { result ≡ refusal_of_bytes bytes.now }
{
    if !are_value(bytes) {
        return Some(ServiceError::LineEnd);
    }
    if bytes.len() > MAX_BYTES {
        return Some(ServiceError::TooLong);
    }
    None
}

/// Why a value may not live so long.
fn refuse_milliseconds(config: &Config, milliseconds: Option<u64>) -> Option<ServiceError>
    ensures { result ≡ refusal_of_ms config.now milliseconds }
{
    let milliseconds = milliseconds?;
    if !config.own_deadlines || milliseconds > MAX_MILLISECONDS {
        return Some(ServiceError::Deadline);
    }
    None
}

/// Why an outcome is refused.
fn refuse_outcome(config: &Config, outcome: &Outcome) -> Option<ServiceError>
    ensures { result ≡ refusal_of_outcome config.now outcome.now }
{
    match outcome {
        Outcome::Value(bytes, milliseconds) => match refuse_bytes(bytes.as_slice()) {
            Some(error) => Some(error),
            None => refuse_milliseconds(config, *milliseconds),
        },
        Outcome::None => None,
        Outcome::Fault(text) => refuse_bytes(text.as_slice()),
    }
}

impl<S: Store, T: Tape> Interior<S, T> {
    /// Returns why a load cannot be settled, or `None` if it can: it is not under way (`NoLoad`), or the moment is above `MAX_MOMENT`
    /// nanoseconds (`Moment`).
    pub fn refuse_load(&self, load: u64, moment: u64) -> Option<ServiceError>
        ensures { result ≡ refusal_of (S.view self.now.base.store).frame.config
            (known_of_loads (loads_pending self.now.base.loads)) (giving_up load moment) }
    {
        if self.base.loads.get(load).is_none() {
            return Some(ServiceError::NoLoad);
        }
        if moment > MAX_MOMENT {
            return Some(ServiceError::Moment);
        }
        None
    }

    /// Returns why a load cannot be answered with this outcome, apart from a lack of memory, or `None` if it can.
    pub fn refuse_answer(&self, load: u64, outcome: &Outcome, moment: u64) -> Option<ServiceError>
        ensures { result ≡ refusal_of (S.view self.now.base.store).frame.config
            (known_of_loads (loads_pending self.now.base.loads))
            (answering load outcome.now moment) }
    {
        match self.refuse_load(load, moment) {
            Some(error) => Some(error),
            None => refuse_outcome(self.base.store.store().config(), outcome),
        }
    }
}

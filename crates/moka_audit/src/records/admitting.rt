//! Which events are refused.
ghost use Rattle.std.specs.Prelude.{◌≡◌, ◌==◌, ◌&&◌, ◌||◌, is_none, is_some, suc, true};
ghost use Rattle.audit_model.specs.Bytewise.{is_empty};
ghost use Rattle.audit_model.specs.Belongs.{refusal_of, refusal_of_conn, refusal_of_load, refusal_of_moment, refusal_of_bytes, refusal_of_ms, refusal_of_outcome};
ghost use Rattle.audit_model.specs.Follows.{known_in};
ghost use Rattle.audit_model.specs.Grammar.{is_value};
ghost use Rattle.audit_model.specs.Obeys.{is_numbered, has_right_own_value};
ghost use Rattle.audit_situation.specs.States.{shown_situation};
ghost use Rattle.moka_audit.specs.Records.Auditing.{is_taken};

use audit_model::{Config, Event, Instant, Outcome, Record};
use audit_situation::{State, find_link, find_pending};

/// The latest moment that is accepted, in nanoseconds.
const MAX_MOMENT: u64 = (1 << 63) - 1;

/// An outcome has at most this many bytes.
const MAX_BYTES: usize = 8192;

/// A value lives at most this many milliseconds.
const MAX_MS: u64 = 999_999_999_999;

/// Whether a connection was opened and is open.
fn admits_conn(s: &State, conn: u64) -> bool
    ensures { result ≡ is_none (refusal_of_conn (known_in (shown_situation s.now)) conn) }
{
    was_opened(s, conn) && find_link(&s.connections, conn).is_some()
}

/// Whether a connection was opened.
fn was_opened(s: &State, conn: u64) -> bool
    ensures { result ≡ (known_in (shown_situation s.now)).was_opened conn }
{
    0 < conn && conn <= s.opened
}

/// Whether a load is under way.
fn admits_load(s: &State, load: u64) -> bool
    ensures { result ≡ is_none (refusal_of_load (known_in (shown_situation s.now)) load) }
{
    find_pending(&s.pending, load).is_some()
}

/// Whether a moment is accepted.
fn admits_moment(moment: Instant) -> bool
    ensures { result ≡ is_none (refusal_of_moment moment) }
{
    moment.nanos <= MAX_MOMENT
}

/// Whether the bytes are allowed in a value.
fn are_value(bytes: &[u8]) -> bool
    ensures { result ≡ is_value bytes.now }
{
    bytes.iter().all(|b| *b != 10 && *b != 13)
}

/// Whether an outcome may have these bytes.
fn admits_bytes(bytes: &[u8]) -> bool
    ensures { result ≡ is_none (refusal_of_bytes bytes.now) }
{
    are_value(bytes) && bytes.len() <= MAX_BYTES
}

/// Whether an outcome may have these milliseconds.
fn admits_ms(config: &Config, ms: Option<u64>) -> bool
    ensures { result ≡ is_none (refusal_of_ms config.now ms) }
{
    match ms {
        Some(ms) => config.own_deadlines && ms <= MAX_MS,
        None => true,
    }
}

/// Whether an outcome is accepted.
fn admits_outcome(config: &Config, outcome: &Outcome) -> bool
    ensures { result ≡ is_none (refusal_of_outcome config.now outcome.now) }
{
    match outcome {
        Outcome::Value(bytes, ms) => admits_bytes(bytes.as_slice()) && admits_ms(config, *ms),
        Outcome::None => true,
        Outcome::Fault(text) => admits_bytes(text.as_slice()),
    }
}

/// Whether an event is not refused.
fn admits(config: &Config, s: &State, event: &Event) -> bool
    ensures { result
        ≡ is_none (refusal_of config.now (known_in (shown_situation s.now)) event.now) }
{
    match event {
        Event::Open { .. } => true,
        Event::Close { conn } => admits_conn(s, *conn),
        Event::Feed { conn, moment, .. } => admits_conn(s, *conn) && admits_moment(*moment),
        Event::Answer {
            load,
            outcome,
            moment,
        } => admits_load(s, *load) && admits_moment(*moment) && admits_outcome(config, outcome),
        Event::GiveUp { load, moment } => admits_load(s, *load) && admits_moment(*moment),
    }
}

/// Whether a number is the next one.
fn is_next(opened: u64, conn: u64) -> bool
    ensures { result ≡ (conn == suc opened) }
{
    conn > 0 && conn - 1 == opened
}

/// Whether an opened connection has the next number.
fn is_numbered(opened: u64, event: &Event) -> bool
    ensures { result ≡ is_numbered opened event.now }
{
    match event {
        Event::Open { conn } => is_next(opened, *conn),
        Event::Close { .. } => true,
        Event::Feed { .. } => true,
        Event::Answer { .. } => true,
        Event::GiveUp { .. } => true,
    }
}

/// Whether a record without an answer has neither a value nor notes of its own.
fn has_none(entry: &Record) -> bool
    ensures { result ≡ (is_none entry.now.own && is_empty entry.now.notices) }
{
    entry.own.is_none() && entry.notices.as_slice().is_empty()
}

/// Whether an answer has notes of its own only together with a value of its own.
fn has_few(entry: &Record) -> bool
    ensures { result ≡ (is_some entry.now.own || is_empty entry.now.notices) }
{
    entry.own.is_some() || entry.notices.as_slice().is_empty()
}

/// Whether only an answer has a value of its own, and notes of its own only together with that value.
fn owns_rightly(entry: &Record) -> bool
    ensures { result ≡ has_right_own_value entry.now }
{
    match &entry.event {
        Event::Open { .. } => has_none(entry),
        Event::Close { .. } => has_none(entry),
        Event::Feed { .. } => has_none(entry),
        Event::Answer { .. } => has_few(entry),
        Event::GiveUp { .. } => has_none(entry),
    }
}

/// Returns whether a record's event is accepted: it is not refused, has the next number, and only an answer has a value of its own.
pub fn is_taken(config: &Config, s: &State, entry: &Record) -> bool
    ensures taken { result ≡ is_taken config.now (shown_situation s.now) entry.now }
    ensures numbered { result ≡ true → is_numbered s.now.opened entry.now.event ≡ true }
{
    let admitted = admits(config, s, &entry.event);
    let numbered = is_numbered(s.opened, &entry.event);
    let owned = owns_rightly(entry);
    admitted && numbered && owned
}

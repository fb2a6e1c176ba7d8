//! Namespaces over a store of a chosen generator and hasher, and what such a store does.
ghost use Rattle.std.specs.Prelude.{◌≡◌, ◌≤◌, ℕ, [], true, Some};
ghost use Rattle.cache_front.specs.Parts.{IsBrief};

mod generators;
mod keeping;
mod lacking;
mod lengths;
mod parts;
mod turning;

use crate::playing::{Played, play_on};
use crate::rows::{Case, Row};
use audit_model::{
    Bytes, Closing, Config, Conn, Input, Instant, LoadId, Note, Outcome, ServiceError,
};
use cache_commands::Store;
use cache_core::Namespace;
use cache_front::FrontStore;
use cache_lines::Bare;
use cache_spaces::{Output, Refusal};
use rand_core::Rng;
use std::alloc::Global;
use std::hash::BuildHasher;

/// A namespace over a store.
#[derive(Drop)]
struct Over<S: Store> {
    inner: Namespace<S, Bare>,
}

fn open<S: Store>(inner: &mut Namespace<S, Bare>, namespace: u64) -> Result<Output, Refusal> {
    match inner.open() {
        Ok(number) => Ok(Output::Opened {
            conn: Conn { namespace, number },
        }),
        Err(_) => Err(Refusal {
            error: ServiceError::OutOfMemory,
            input: Input::Open { namespace },
        }),
    }
}

fn feed<S: Store>(
    inner: &mut Namespace<S, Bare>,
    conn: Conn,
    piece: Bytes,
    moment: Instant,
) -> Result<Output, Refusal> {
    match inner.feed(conn.number, piece.as_slice(), moment) {
        Ok(true) => Ok(Output::Held),
        Ok(false) => Ok(Output::All),
        Err(error) => Err(Refusal {
            error,
            input: Input::Feed {
                conn,
                piece,
                moment,
            },
        }),
    }
}

fn answer<S: Store>(
    inner: &mut Namespace<S, Bare>,
    load: LoadId,
    outcome: Outcome,
    moment: Instant,
) -> Result<Output, Refusal> {
    match inner.answer(load.number, outcome, moment) {
        Ok(()) => Ok(Output::Done),
        Err((error, outcome)) => Err(Refusal {
            error,
            input: Input::Answer {
                load,
                outcome,
                moment,
            },
        }),
    }
}

impl<S: Store> Played for Over<S> {
    fn keeps(&self) -> bool {
        false
    }

    /// Openings, pieces and answers; no row asks more.
    fn step(&mut self, input: Input) -> Result<Output, Refusal> {
        match input {
            Input::Open { namespace } => open(&mut self.inner, namespace),
            Input::Feed {
                conn,
                piece,
                moment,
            } => feed(&mut self.inner, conn, piece, moment),
            Input::Answer {
                load,
                outcome,
                moment,
            } => answer(&mut self.inner, load, outcome, moment),
            input => Err(Refusal {
                error: ServiceError::NoLoad,
                input,
            }),
        }
    }

    fn take_output(&mut self, conn: Conn) -> Result<Vec<u8>, ServiceError> {
        self.inner.take_output(conn.number)
    }

    fn take_loads(&mut self, _namespace: u64) -> Result<Vec<(LoadId, Bytes)>, ServiceError> {
        Ok(self.inner.take_loads())
    }

    fn next_notice(&mut self, _namespace: u64) -> Result<Option<Note>, ServiceError> {
        Ok(self.inner.next_notice())
    }

    fn closed(&self, conn: Conn) -> Result<Option<Closing>, ServiceError> {
        self.inner.closed(conn.number)
    }

    fn waiting(&self, conn: Conn) -> Result<bool, ServiceError> {
        self.inner.waiting(conn.number)
    }

    fn loads_open(&self, _namespace: u64) -> Result<u64, ServiceError> {
        Ok(self.inner.loads_open())
    }
}

/// Whether a time has at most twelve digits.
fn is_short(milliseconds: Option<u64>) -> bool
    ensures { result ≡ true → (ms : ℕ) → milliseconds ≡ Some ms → ms ≤ 999999999999 }
{
    match milliseconds {
        Some(milliseconds) => milliseconds <= 999_999_999_999,
        None => true,
    }
}

/// Whether the times of a configuration are in range.
fn is_brief(config: &Config) -> bool
    ensures { result ≡ true → IsBrief config.now }
{
    is_short(config.live_ms) && is_short(config.idle_ms)
}

/// The place of the first row that does not come out so of a new namespace over a store; the first where it cannot be made.
fn wrong_over<S: Store>(alloc: Global, store: S, case: Case<'_>) -> Option<usize>
    requires latest { (S.view store).frame.latest ≡ 0 }
    requires untaken { (S.view store).untaken ≡ [] }
{
    match Namespace::new(alloc, 0, store, Bare::new(alloc), 0) {
        Ok(inner) => play_on(alloc, Over { inner }, case).err(),
        Err(_) => Some(0),
    }
}

/// The same over a new store.
fn wrong_row<R: Rng + Drop, H: BuildHasher + Drop>(
    alloc: Global,
    config: Config,
    generator: R,
    hasher: H,
    rows: &[Row<'_>],
) -> Option<usize> {
    if !is_brief(&config) {
        return Some(0);
    }
    let configs = [config];
    let case = Case {
        configs: &configs,
        made: 0,
        rows,
    };
    match FrontStore::new(alloc, config, 0, generator, hasher) {
        Ok(store) => wrong_over(alloc, store, case),
        Err(_) => Some(0),
    }
}

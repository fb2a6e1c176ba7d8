//! Services, and inputs of them.
ghost use Rattle.std.specs.Prelude.{◌∷◌, [], true, false, IfSome};
ghost use Rattle.cache_shared.specs.Recordings.{bare_spaces, no_journals, journals_in, spaces_in};
ghost use Rattle.cache_shared.specs.Events.{StandsAfter};

use audit_model::{
    Bytes, Config, Conn, EvictionPolicy, Input, Instant, LoadId, Outcome, Seq, Weight,
};
use cache_spaces::{RecordedService, Service};
use rand_core::SeedableRng;
use rand_xoshiro::Xoshiro256PlusPlus;
use std::alloc::Global;

/// A plain namespace.
pub const PLAIN: Config = Config {
    capacity: None,
    policy: EvictionPolicy::Lru,
    parts: 1,
    weight: Weight::One,
    live_ms: None,
    idle_ms: None,
    own_deadlines: false,
};

/// When all happens.
pub const START: Instant = Instant { nanos: 0 };

/// A new service of one plain namespace that keeps no journal.
pub fn make_live(alloc: Global) -> Option<Service>
    ensures { IfSome result (StandsAfter false (PLAIN ∷ []) bare_spaces no_journals 0) }
{
    match Service::new(alloc, &[PLAIN], Xoshiro256PlusPlus::seed_from_u64(1), START) {
        Ok(core) => Some(core),
        Err(_) => None,
    }
}

/// One that keeps its journal.
pub fn make_recorded(alloc: Global) -> Option<RecordedService>
    ensures { IfSome result (StandsAfter true (PLAIN ∷ []) spaces_in journals_in 0) }
{
    match RecordedService::new(alloc, &[PLAIN], Xoshiro256PlusPlus::seed_from_u64(1), START) {
        Ok(core) => Some(core),
        Err(_) => None,
    }
}

/// A copy of a text, on the second attempt if memory is refused.
fn copy(alloc: Global, text: &[u8]) -> Option<Vec<u8>> {
    match Vec::from_slice(alloc, text) {
        Ok(copy) => Some(copy),
        Err(_) => Vec::from_slice(alloc, text).ok(),
    }
}

/// The same as what inputs have.
pub fn bytes(alloc: Global, text: &[u8]) -> Option<Bytes> {
    match copy(alloc, text) {
        Some(copy) => Some(Seq::from_vec(copy)),
        None => None,
    }
}

/// A feed of this text.
pub fn feed(alloc: Global, conn: Conn, text: &[u8]) -> Option<Input> {
    match bytes(alloc, text) {
        Some(piece) => Some(Input::Feed {
            conn,
            piece,
            moment: START,
        }),
        None => None,
    }
}

/// A text in which each `#` stands for a key.
fn copy_by_key(alloc: Global, text: &[u8], key: u8) -> Option<Bytes> {
    match copy(alloc, text) {
        Some(mut copy) => {
            for byte in copy.as_mut_slice() {
                if *byte == b'#' {
                    *byte = key;
                }
            }
            Some(Seq::from_vec(copy))
        }
        None => None,
    }
}

/// A feed of a text in which each `#` stands for a key.
pub fn feed_by_key(alloc: Global, conn: Conn, text: &[u8], key: u8) -> Option<Input> {
    match copy_by_key(alloc, text, key) {
        Some(piece) => Some(Input::Feed {
            conn,
            piece,
            moment: START,
        }),
        None => None,
    }
}

/// An answer to a load of the first namespace: the value `v`.
pub fn answer(alloc: Global, number: u64) -> Option<Input> {
    match bytes(alloc, b"v") {
        Some(value) => Some(Input::Answer {
            load: LoadId {
                namespace: 0,
                number,
            },
            outcome: Outcome::Value(value, None),
            moment: START,
        }),
        None => None,
    }
}

/// A connection of the first namespace.
pub fn conn(number: u64) -> Conn {
    Conn {
        namespace: 0,
        number,
    }
}

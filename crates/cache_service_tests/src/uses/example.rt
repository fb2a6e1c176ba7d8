//! The example of the repository's README.
use anyhow::Result;
use cache_service::Service;
use cache_service::model::{Config, EvictionPolicy, Instant, Outcome, Weight};
use rand_core::SeedableRng;
use rand_xoshiro::Xoshiro256PlusPlus;
use std::alloc::Global;

/// At most a thousand values, from which the least recently used leave.
const SESSIONS: Config = Config {
    capacity: Some(1000),
    policy: EvictionPolicy::Lru,
    parts: 1,
    weight: Weight::One,
    live_ms: None,
    idle_ms: None,
    own_deadlines: false,
};

/// The replies to one connection, whose `LOAD` finds nothing.
pub fn replies(alloc: Global) -> Result<Vec<u8>> {
    let generator = Xoshiro256PlusPlus::seed_from_u64(0);
    let now = Instant { nanos: 0 };
    let mut service = Service::new(alloc, &[SESSIONS], generator, now)?;
    let conn = service.open(0)?;
    service.feed(conn, b"SET a - 1\nGET a\nLOAD k\nHAS a\n", now)?;
    let loads = service.take_loads(0)?;
    for (load, _key) in loads.as_slice() {
        service.answer(*load, Outcome::None, now)?;
    }
    Ok(service.take_output(conn)?)
}

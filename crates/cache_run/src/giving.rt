//! Feeding pieces, and what a connection is given.
ghost use Rattle.std.specs.Prelude.{◌≡◌, ◌≤◌, ◌^◌, true, IfErr, IfOk, OnErr};
ghost use Rattle.cache_run.specs.Driver.Exchanges as did;
ghost use Rattle.cache_run.specs.Driver.Hosting.{Stops, SuitsRequest};
ghost use Rattle.cache_spaces.specs.Calls.{At};
ghost use Rattle.cache_run.specs.Lent.{WasDone, WereGiven, IsConnection};
ghost use Rattle.cache_run.specs.Loading.{GivesLoads};

use crate::devices::RunError;
use crate::driver::Given;
use audit_model::{Bytes, Conn, Instant, LoadId, ServiceError};
use cache_spaces::{Fed, Service};

/// Feeds a piece, and returns whether a command is held back for lack of memory. Returns `Moment` if the moment is above 2^63 - 1
/// nanoseconds, or `OutOfMemory`; then nothing has changed.
pub fn feed_piece(
    service: &mut Service,
    conn: Conn,
    piece: &[u8],
    moment: u64,
) -> Result<bool, RunError>
    requires known { IsConnection conn service.old }
    ensures fed { IfOk result (λ held. At service.old service.new conn.namespace
        (WasDone conn.number (did.Fed piece.now moment held))) }
    ensures known { IsConnection conn service.new }
    ensures unchanged { OnErr result (service.new ≡ service.old) }
    ensures why { IfErr result (Stops ⊥ (2 ^ 63 ≤ moment)) }
{
    service.sound(conn.namespace);
    match service.feed(conn, piece, Instant { nanos: moment }) {
        Ok(Fed::All) => Ok(false),
        Ok(Fed::Held) => Ok(true),
        Err(ServiceError::Moment) => Err(RunError::Moment),
        Err(_) => Err(RunError::OutOfMemory),
    }
}

/// Takes the loads of the connection's namespace that have gone out.
pub fn take_sent(service: &mut Service, conn: Conn) -> Vec<(LoadId, Bytes)>
    requires known { IsConnection conn service.old }
    ensures taken { At service.old service.new conn.namespace (GivesLoads result.items) }
    ensures known { IsConnection conn service.new }
{
    service.sound(conn.namespace);
    match service.take_loads(conn.namespace) {
        Ok(loads) => loads,
        Err(_) => unreachable!(),
    }
}

/// Takes what a connection is owed. No `LOAD` waits for another connection's loader.
pub fn give(service: &mut Service, conn: Conn, held: bool, wants_loads: bool) -> Given
    requires known { IsConnection conn service.old }
    ensures gives { At service.old service.new conn.namespace (WereGiven conn.number result) }
    ensures suits { SuitsRequest true wants_loads result × (result.held ≡ held) }
    ensures known { IsConnection conn service.new }
{
    service.sound(conn.namespace);
    match service.owed(conn, wants_loads) {
        Ok(mut owed) => {
            owed.waits = false;
            Given { held, owed }
        }
        Err(_) => unreachable!(),
    }
}

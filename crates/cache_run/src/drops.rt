//! A connection's closing, and the loads that are dropped after it.
ghost use Rattle.std.specs.Prelude.{◌==◌};
ghost use Rattle.cache_spaces.specs.Calls.{At};
ghost use Rattle.cache_run.specs.Loading.{is_left};
ghost use Rattle.cache_run.specs.Lent.{ClosesAt, Drops, DropsBoth, IsConnection};

use crate::giving::take_sent;
use audit_model::{Bytes, Conn, Instant, LoadId};
use cache_spaces::Service;

/// Closes a connection, unless it has closed.
pub fn close_if_open(service: &mut Service, conn: Conn)
    requires known { IsConnection conn service.old }
    ensures closes { ClosesAt conn service.old service.new }
    ensures known { IsConnection conn service.new }
{
    service.sound(conn.namespace);
    let done = service.close(conn);
    service.sound(conn.namespace);
    match done {
        Ok(()) => (),
        // It has closed.
        Err(_) => (),
    }
}

/// Gives up a load at moment 0, which counts as the latest. One that is not under way stays settled.
fn drop_load(service: &mut Service, conn: Conn, load: u64)
    requires known { IsConnection conn service.old }
    ensures dropped { At service.old service.new conn.namespace
        (Drops conn.number (λ n. n == load)) }
    ensures known { IsConnection conn service.new }
{
    service.sound(conn.namespace);
    let id = LoadId {
        namespace: conn.namespace,
        number: load,
    };
    match service.give_up(id, Instant { nanos: 0 }) {
        Ok(()) => (),
        // It is not under way.
        Err(_) => (),
    }
}

/// Gives up these loads.
fn drop_all(service: &mut Service, conn: Conn, loads: &[(LoadId, Bytes)])
    requires known { IsConnection conn service.old }
    ensures dropped { At service.old service.new conn.namespace
        (Drops conn.number (λ n. is_left n loads.now)) }
    ensures known { IsConnection conn service.new }
{
    for (load, _key) in loads {
        drop_load(service, conn, load.number);
    }
}

/// Gives up the loads of a connection that has closed: those in hand, and then those that have gone out.
pub fn drop_loads(service: &mut Service, conn: Conn, hand: &[(LoadId, Bytes)])
    requires known { IsConnection conn service.old }
    ensures { At service.old service.new conn.namespace (DropsBoth conn.number hand.now) }
{
    drop_all(service, conn, hand);
    let loads = take_sent(service, conn);
    drop_all(service, conn, loads.as_slice());
}

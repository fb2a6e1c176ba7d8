//! Settling loads by what a loader returns.
ghost use Rattle.std.specs.Prelude.{◌≡◌, ◌≤◌, ◌^◌, true, false, IfOk, IfErr, OnOk, OnErr};
ghost use Rattle.cache_run.specs.Driver.Hosting.{Stops};
ghost use Rattle.cache_spaces.specs.Calls.{At};
ghost use Rattle.cache_run.specs.Lent.{AnswersOr, GivesUpOr, IsConnection, RefusesOutcome, SettlesAt};

use crate::devices::RunError;
use audit_model::{Conn, Instant, LoadId, Outcome, ServiceError};
use cache_spaces::Service;

/// Gives up a load. One that is not under way stays settled.
fn give_up(service: &mut Service, conn: Conn, load: u64, moment: u64) -> Result<(), RunError>
    requires known { IsConnection conn service.old }
    ensures ok { OnOk result (At service.old service.new conn.namespace (GivesUpOr load moment)) }
    ensures known { IsConnection conn service.new }
    ensures unchanged { OnErr result (service.new ≡ service.old) }
    ensures why { IfErr result (Stops ⊥ (2 ^ 63 ≤ moment)) }
{
    service.sound(conn.namespace);
    let id = LoadId {
        namespace: conn.namespace,
        number: load,
    };
    let error = match service.give_up(id, Instant { nanos: moment }) {
        Ok(()) => return Ok(()),
        Err(error) => error,
    };
    match error {
        ServiceError::Moment => Err(RunError::Moment),
        // It is not under way.
        _ => Ok(()),
    }
}

/// Answers a load with an outcome. Returns whether it is settled, which it is not if the outcome is refused for its bytes or its time. One
/// that is not under way stays settled.
fn answer(
    service: &mut Service,
    conn: Conn,
    load: u64,
    outcome: Outcome,
    moment: u64,
) -> Result<bool, RunError>
    requires known { IsConnection conn service.old }
    ensures settled { IfOk result (λ settled. settled ≡ true
        → At service.old service.new conn.namespace (AnswersOr load outcome moment)) }
    ensures refused { IfOk result
        (λ settled. settled ≡ false → RefusesOutcome conn outcome service.old service.new) }
    ensures known { IsConnection conn service.new }
    ensures unchanged { OnErr result (service.new ≡ service.old) }
    ensures why { IfErr result (Stops ⊥ (2 ^ 63 ≤ moment)) }
{
    service.sound(conn.namespace);
    let id = LoadId {
        namespace: conn.namespace,
        number: load,
    };
    let error = match service.answer(id, outcome, Instant { nanos: moment }) {
        Ok(()) => return Ok(true),
        Err(refused) => refused.error,
    };
    match error {
        ServiceError::Moment => Err(RunError::Moment),
        ServiceError::OutOfMemory => Err(RunError::OutOfMemory),
        // It is not under way.
        ServiceError::NoLoad => Ok(true),
        _ => Ok(false),
    }
}

/// Settles a load by what the loader returned: with its outcome, or by a give-up if there is none, or one that is refused for its bytes or
/// its time. Returns `Moment` if the moment is above 2^63 - 1 nanoseconds, or `OutOfMemory`; then nothing has changed.
pub fn settle(
    service: &mut Service,
    conn: Conn,
    load: u64,
    said: Option<Outcome>,
    moment: u64,
) -> Result<(), RunError>
    requires known { IsConnection conn service.old }
    ensures ok { OnOk result (SettlesAt conn load said moment service.old service.new) }
    ensures known { IsConnection conn service.new }
    ensures unchanged { OnErr result (service.new ≡ service.old) }
    ensures why { IfErr result (Stops ⊥ (2 ^ 63 ≤ moment)) }
{
    let outcome = match said {
        Some(outcome) => outcome,
        None => return give_up(service, conn, load, moment),
    };
    match answer(service, conn, load, outcome, moment) {
        Ok(true) => Ok(()),
        Ok(false) => give_up(service, conn, load, moment),
        Err(error) => Err(error),
    }
}

//! What is done for a connection at once.
ghost use Rattle.std.specs.Prelude.{◌≡◌, [], IfOk, IfErr};
ghost use Rattle.cache_run.specs.Devices.Sources.{HasToldLate};
ghost use Rattle.cache_run.specs.Driver.Causes.{Because};
ghost use Rattle.cache_run.specs.Driver.Driven.{HoldsSession, TurnsUnread, spot};
ghost use Rattle.cache_run.specs.Driver.Interludes.{InterludeBut, together};

use cache_run::{
    Clock, Footing, Host, Loader, Progress, RunError, Session, Watched, feed_piece, settle_next,
};
use std::io::Write;

/// Looks for what the connection waits for, or else feeds a piece of what was read.
fn take_step<H: Host, O: Write, K: Clock, D: Loader>(
    host: &mut H,
    place: &mut H::Place,
    session: &mut Session,
    writer: &mut Watched<O>,
    clock: &mut K,
    loader: &mut D,
) -> Result<Progress, RunError>
    requires known { HoldsSession H.LENT H.knows session.old place.old }
    ensures known { HoldsSession H.LENT H.knows session.new place.new
        × (session.new.conn ≡ session.old.conn) }
    ensures goes { TurnsUnread H.Host K.reads D.loads result session.old session.new
        (spot O.contents place.old writer.old clock.old loader.old)
        (spot O.contents place.new writer.new clock.new loader.new) }
    ensures among { InterludeBut H.Host K.reads D.loads session.old.conn
        (together place.old clock.old loader.old) (together place.new clock.new loader.new) }
    ensures why { IfErr result (Because ⊥ (Unit {0}) (Unit {0}) (HasToldLate K.reads clock.new)) }
{
    if !session.has_no_load() || session.footing == Footing::Waiting {
        return settle_next(host, place, session, writer, clock, loader);
    }
    let count = host.cut(session.inbox.as_slice());
    feed_piece(host, place, session, count, writer, clock)
}

/// Settles the loads in hand, and those that go out meanwhile.
fn settle_all<H: Host, O: Write, K: Clock, D: Loader>(
    host: &mut H,
    place: &mut H::Place,
    session: &mut Session,
    writer: &mut Watched<O>,
    clock: &mut K,
    loader: &mut D,
) -> Result<Progress, RunError>
    requires known { HoldsSession H.LENT H.knows session.old place.old }
    ensures known { HoldsSession H.LENT H.knows session.new place.new
        × (session.new.conn ≡ session.old.conn) }
    ensures goes { TurnsUnread H.Host K.reads D.loads result session.old session.new
        (spot O.contents place.old writer.old clock.old loader.old)
        (spot O.contents place.new writer.new clock.new loader.new) }
    ensures among { InterludeBut H.Host K.reads D.loads session.old.conn
        (together place.old clock.old loader.old) (together place.new clock.new loader.new) }
    ensures why { IfErr result (Because ⊥ (Unit {0}) (Unit {0}) (HasToldLate K.reads clock.new)) }
    ensures settled { IfOk result
        (λ progress. progress ≡ Progress.More → session.new.taken.items ≡ []) }
{
    for _load in 0..u64::MAX {
        if session.has_no_load() {
            return Ok(Progress::More);
        }
        match settle_next(host, place, session, writer, clock, loader) {
            Ok(Progress::More) => {}
            Ok(Progress::Over) => return Ok(Progress::Over),
            Err(error) => return Err(error),
        }
    }
    Err(RunError::UsedUp)
}

/// Looks for what the connection waits for, or else feeds a piece of what was read; then settles the loads that have gone out, until none
/// is left. Returns `Over` if others had closed the connection. What the connection is owed is written to a writer that does not wait.
pub fn attend<H: Host, O: Write, K: Clock, D: Loader>(
    host: &mut H,
    place: &mut H::Place,
    session: &mut Session,
    writer: &mut Watched<O>,
    clock: &mut K,
    loader: &mut D,
) -> Result<Progress, RunError>
    requires known { HoldsSession H.LENT H.knows session.old place.old }
    ensures known { HoldsSession H.LENT H.knows session.new place.new
        × (session.new.conn ≡ session.old.conn) }
    ensures goes { TurnsUnread H.Host K.reads D.loads result session.old session.new
        (spot O.contents place.old writer.old clock.old loader.old)
        (spot O.contents place.new writer.new clock.new loader.new) }
    ensures among { InterludeBut H.Host K.reads D.loads session.old.conn
        (together place.old clock.old loader.old) (together place.new clock.new loader.new) }
    ensures why { IfErr result (Because ⊥ (Unit {0}) (Unit {0}) (HasToldLate K.reads clock.new)) }
    ensures settled { IfOk result
        (λ progress. progress ≡ Progress.More → session.new.taken.items ≡ []) }
{
    match take_step(host, place, session, writer, clock, loader) {
        Ok(Progress::More) => settle_all(host, place, session, writer, clock, loader),
        Ok(Progress::Over) => Ok(Progress::Over),
        Err(error) => Err(error),
    }
}

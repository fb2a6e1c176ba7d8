//! The loads of a connection's namespace, requested from its loader.
ghost use Rattle.std.specs.Prelude.{◌≡◌, ◌≤◌, [], true, IfErr};
ghost use Rattle.cache_run.specs.Devices.Sources.{HasToldLate};
ghost use Rattle.cache_run.specs.Devices.Watched.{failures};
ghost use Rattle.cache_run.specs.Driver.Causes.{Because, Fails, HasAsked};
ghost use Rattle.cache_run.specs.Driver.Driven.{HoldsSession, Settles, TurnsUnread, spot};
ghost use Rattle.cache_run.specs.Driver.Interludes.{InterludeBut, together};

use crate::devices::{Clock, Loader, RunError, Watched};
use crate::driver::driving::Progress;
use crate::driver::feeding::feed_piece;
use crate::driver::handing::hand_out;
use crate::driver::host::Host;
use crate::driver::session::{Footing, Session};
use std::io::Write;

/// Asks the loader for the last load in hand by its key, settles it by what the loader returns, removes it from the hand, and hands out the
/// results. If it cannot be settled, it stays in hand. If there is none, waits while a `LOAD` of the connection waits, for which another
/// connection's loader is asked, and hands out what it is owed then.
fn settle_one<H: Host, O: Write, K: Clock, D: Loader>(
    host: &mut H,
    place: &mut H::Place,
    session: &mut Session,
    writer: &mut Watched<O>,
    clock: &mut K,
    loader: &mut D,
) -> Result<(), RunError>
    requires known { HoldsSession H.LENT H.knows session.old place.old
        × (session.old.taken.items ≡ [] → session.old.footing ≡ Footing.Waiting) }
    ensures same { (session.new.conn ≡ session.old.conn) × (session.new.inbox ≡ session.old.inbox) }
    ensures known { HoldsSession H.LENT H.knows session.new place.new }
    ensures goes { Settles H.came H.closes K.reads D.loads H.LENT result session.old
        session.new (spot O.contents place.old writer.old clock.old loader.old)
        (spot O.contents place.new writer.new clock.new loader.new) }
    ensures among { InterludeBut H.Host K.reads D.loads session.old.conn
        (together place.old clock.old loader.old) (together place.new clock.new loader.new) }
    ensures why { IfErr result (Because ⊥ (Fails writer.old writer.new)
        (H.exhausts (H.counted place.old) (H.counted place.new)) (HasToldLate K.reads clock.new)) }
    ensures forward { (failures writer.old ≤ failures writer.new)
        × (H.counted place.old ≤ H.counted place.new) }
    ensures asked { H.LENT ≡ true → HasAsked D.loads loader.old 1 loader.new }
{
    let Some((load, key)) = session.taken.last() else {
        let given = host.await_owed(place, session.conn);
        return hand_out(session, given, writer);
    };
    let number = load.number;
    let said = loader.load(key.as_slice());
    let moment = clock.now();
    let wants_loads = session.taken.len() <= 1;
    let given = host.settle(place, session.conn, number, said, moment, wants_loads)?;
    let _ = session.taken.pop();
    hand_out(session, given, writer)
}

/// Settles the last load in hand, or else waits for others'; if none is left after that, runs what may be held back. Returns `Over` if
/// others had closed the connection, and the errors of `feed_piece`.
pub fn settle_next<H: Host, O: Write, K: Clock, D: Loader>(
    host: &mut H,
    place: &mut H::Place,
    session: &mut Session,
    writer: &mut Watched<O>,
    clock: &mut K,
    loader: &mut D,
) -> Result<Progress, RunError>
    requires known { HoldsSession H.LENT H.knows session.old place.old
        × (session.old.taken.items ≡ [] → session.old.footing ≡ Footing.Waiting) }
    ensures same { (session.new.conn ≡ session.old.conn) × (session.new.inbox ≡ session.old.inbox) }
    ensures known { HoldsSession H.LENT H.knows session.new place.new }
    ensures goes { TurnsUnread H.Host K.reads D.loads result session.old session.new
        (spot O.contents place.old writer.old clock.old loader.old)
        (spot O.contents place.new writer.new clock.new loader.new) }
    ensures among { InterludeBut H.Host K.reads D.loads session.old.conn
        (together place.old clock.old loader.old) (together place.new clock.new loader.new) }
    ensures why { IfErr result (Because ⊥ (Fails writer.old writer.new)
        (H.exhausts (H.counted place.old) (H.counted place.new)) (HasToldLate K.reads clock.new)) }
    ensures forward { (failures writer.old ≤ failures writer.new)
        × (H.counted place.old ≤ H.counted place.new) }
    ensures asked { H.LENT ≡ true → HasAsked D.loads loader.old 1 loader.new }
{
    settle_one(host, place, session, writer, clock, loader)?;
    if session.has_no_load() && session.footing == Footing::Ready {
        return feed_piece(host, place, session, 0, writer, clock);
    }
    Ok(Progress::More)
}

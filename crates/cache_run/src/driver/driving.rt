//! One connection, from its opening to its closing.
ghost use Rattle.std.specs.Prelude.{◌≡◌, ◌≤◌, ◌⊎◌, [], true, IfErr, IfOk, OnErr};
ghost use Rattle.cache_run.specs.Devices.Sources.{HasToldLate};
ghost use Rattle.cache_run.specs.Devices.Watched.{failures};
ghost use Rattle.cache_run.specs.Driver.Causes.{Because, Fails, RunsFor, RunsOut, outcome_by};
ghost use Rattle.cache_run.specs.Driver.Driven.{ClosesAfter, Converses, HoldsSession, HasReadNothing};

use crate::devices::{Clock, Loader, RunError, Watched};
use crate::driver::feeding::feed_piece;
use crate::driver::host::Host;
use crate::driver::inbox::Inbox;
use crate::driver::session::{Footing, Session};
use crate::driver::settling::settle_next;
use std::alloc::Global;
use std::io::{Read, Write};

/// Whether a driver continues.
#[derive(Clone, Copy, Debug, PartialEq, Eq, Drop)]
pub enum Progress {
    /// The connection continues. If `converse` returns this, its turns are used up.
    More,
    /// The connection is over.
    Over,
}

/// Returns how a connection ended that is not continued: `UsedUp` if its turns were used up, and otherwise its error, if it had one.
pub fn outcome_of(ended: Result<Progress, RunError>) -> Result<(), RunError>
    ensures { result ≡ outcome_by ended }
{
    match ended {
        Ok(Progress::Over) => Ok(()),
        Ok(Progress::More) => Err(RunError::UsedUp),
        Err(error) => Err(error),
    }
}

/// Opens a connection of a namespace. Returns `OutOfMemory` or the host's error; then no connection is open.
pub fn open<H: Host>(
    host: &mut H,
    place: &mut H::Place,
    alloc: Global,
    namespace: u64,
) -> Result<Session, RunError>
    ensures opens { IfOk result
        (λ session. H.opens namespace session.conn place.old place.new × HasReadNothing session) }
    ensures known { IfOk result (λ session. HoldsSession H.LENT H.knows session place.new) }
    ensures rests { OnErr result ((place.new ≡ place.old) ⊎ H.rests place.old place.new) }
    ensures why { IfErr result
        (Because ⊥ ⊥ (H.exhausts (H.counted place.old) (H.counted place.new)) ⊥) }
    ensures counts { H.counted place.old ≤ H.counted place.new }
{
    let inbox = match Inbox::new(alloc) {
        Ok(inbox) => inbox,
        Err(_) => return Err(RunError::OutOfMemory),
    };
    let conn = host.open(place, namespace)?;
    Ok(Session {
        conn,
        taken: Vec::new(alloc),
        inbox,
        footing: Footing::Ready,
    })
}

/// Settles a load that went out, or waits for others'; if there is none, reads if everything was fed, and feeds a prefix of what was read.
/// `Over` at the end of the input, or if the connection has closed.
fn take_turn<H: Host, I: Read, O: Write, K: Clock, D: Loader>(
    host: &mut H,
    place: &mut H::Place,
    session: &mut Session,
    reader: &mut Watched<I>,
    writer: &mut Watched<O>,
    clock: &mut K,
    loader: &mut D,
) -> Result<Progress, RunError>
    requires known { HoldsSession H.LENT H.knows session.old place.old }
    ensures known { HoldsSession H.LENT H.knows session.new place.new
        × (session.new.conn ≡ session.old.conn) }
    ensures goes { Converses H.Host K.reads D.loads I.remaining O.contents result session.old
        session.new place.old place.new reader.old reader.new writer.old writer.new clock.old
        clock.new loader.old loader.new }
    ensures why { IfErr result (Because (Fails reader.old reader.new) (Fails writer.old writer.new)
        (H.exhausts (H.counted place.old) (H.counted place.new)) (HasToldLate K.reads clock.new)) }
    ensures more { IfOk result (λ progress. progress ≡ Progress.More
        → H.LENT ≡ true → session.old.inbox ≡ [] → (session.new.inbox ≡ [])
        × RunsFor 1 I.remaining D.loads reader.old reader.new loader.old loader.new) }
    ensures forward { (failures reader.old ≤ failures reader.new)
        × (failures writer.old ≤ failures writer.new)
        × (H.counted place.old ≤ H.counted place.new) }
{
    if !session.has_no_load() || session.footing == Footing::Waiting {
        return settle_next(host, place, session, writer, clock, loader);
    }
    if session.footing == Footing::Closed {
        return Ok(Progress::Over);
    }
    match session.inbox.refill(reader) {
        Ok(true) => {}
        Ok(false) => return Ok(Progress::Over),
        Err(error) => return Err(error),
    }
    if session.inbox.is_empty() {
        return Ok(Progress::More);
    }
    let count = host.cut(session.inbox.as_slice());
    feed_piece(host, place, session, count, writer, clock)
}

/// Answers what is read, and settles the loads that go out, to the end of the input or until the connection has closed. Returns `More` if
/// the turns are used up before; then the call can be made again. Returns `Read` or `Write` if the device failed, `Moment` if the clock
/// gave more than 2^63 - 1 nanoseconds, `UsedUp`, or `OutOfMemory`.
pub fn converse<H: Host, I: Read, O: Write, K: Clock, D: Loader>(
    host: &mut H,
    place: &mut H::Place,
    session: &mut Session,
    reader: &mut Watched<I>,
    writer: &mut Watched<O>,
    clock: &mut K,
    loader: &mut D,
) -> Result<Progress, RunError>
    requires known { HoldsSession H.LENT H.knows session.old place.old }
    ensures known { HoldsSession H.LENT H.knows session.new place.new
        × (session.new.conn ≡ session.old.conn) }
    ensures goes { Converses H.Host K.reads D.loads I.remaining O.contents result session.old
        session.new place.old place.new reader.old reader.new writer.old writer.new clock.old
        clock.new loader.old loader.new }
    ensures why { IfErr result (Because (Fails reader.old reader.new) (Fails writer.old writer.new)
        (H.exhausts (H.counted place.old) (H.counted place.new)) (HasToldLate K.reads clock.new)) }
    ensures more { IfOk result
        (λ progress. progress ≡ Progress.More → H.LENT ≡ true → session.old.inbox ≡ []
        → RunsOut I.remaining D.loads reader.old reader.new loader.old loader.new) }
    ensures forward { (failures reader.old ≤ failures reader.new)
        × (failures writer.old ≤ failures writer.new)
        × (H.counted place.old ≤ H.counted place.new) }
{
    for _turn in 0..u128::MAX {
        match take_turn(host, place, session, reader, writer, clock, loader) {
            Ok(Progress::More) => {}
            Ok(Progress::Over) => return Ok(Progress::Over),
            Err(error) => return Err(error),
        }
    }
    Ok(Progress::More)
}

/// Closes a connection, unless it has closed. After an error the loads in hand are dropped, and those that have gone out. Returns
/// `outcome`.
pub fn close<H: Host, D: Loader>(
    host: &mut H,
    place: &mut H::Place,
    session: &Session,
    outcome: Result<(), RunError>,
    loader: &mut D,
) -> Result<(), RunError>
    requires known { HoldsSession H.LENT H.knows session.now place.old }
    ensures same { result ≡ outcome }
    ensures closes { ClosesAfter H.closes H.drops D.loads outcome session.now place.old place.new
        loader.old loader.new }
    ensures counts { H.counted place.old ≤ H.counted place.new }
{
    host.close(place, session.conn);
    match outcome {
        Ok(()) => Ok(()),
        Err(error) => {
            host.drop_loads(place, session.conn, session.taken.as_slice(), loader);
            Err(error)
        }
    }
}

//! Feeding what was read.
ghost use Rattle.std.specs.Prelude.{◌≡◌, ◌≤◌, [], length, take, drop, IfErr};
ghost use Rattle.cache_run.specs.Devices.Sources.{HasToldLate};
ghost use Rattle.cache_run.specs.Devices.Watched.{failures};
ghost use Rattle.cache_run.specs.Driver.Causes.{Because, Fails};
ghost use Rattle.cache_run.specs.Driver.Driven.{GoesForward, HoldsSession, asks_nobody, spot};
ghost use Rattle.cache_run.specs.Driver.Interludes.{InterludeBut, together};

use crate::devices::{Clock, RunError, Watched};
use crate::driver::driving::Progress;
use crate::driver::handing::hand_out;
use crate::driver::host::Host;
use crate::driver::session::Session;
use std::io::Write;

/// Feeds this many bytes of the inbox with the clock's reading, and hands out the results. Returns `Over` if others had closed the
/// connection. Returns `OutOfMemory` if a command is held back for lack of memory, `Write` if the writer failed, `Moment` if the clock gave
/// more than 2^63 - 1 nanoseconds, and the host's errors.
pub fn feed_piece<H: Host, O: Write, K: Clock>(
    host: &mut H,
    place: &mut H::Place,
    session: &mut Session,
    count: usize,
    writer: &mut Watched<O>,
    clock: &mut K,
) -> Result<Progress, RunError>
    requires known { HoldsSession H.LENT H.knows session.old place.old
        × (session.old.taken.items ≡ []) }
    requires fits { (count ≤ length session.old.inbox) × H.fits (take count session.old.inbox) }
    ensures same { (session.new.conn ≡ session.old.conn)
        × (session.new.inbox ≡ drop count session.old.inbox) }
    ensures known { HoldsSession H.LENT H.knows session.new place.new }
    ensures goes { GoesForward H.came H.closes K.reads asks_nobody H.LENT result
        session.old session.new (spot O.contents place.old writer.old clock.old tt)
        (spot O.contents place.new writer.new clock.new tt) }
    ensures among { InterludeBut H.Host K.reads asks_nobody session.old.conn
        (together place.old clock.old tt) (together place.new clock.new tt) }
    ensures why { IfErr result (Because ⊥ (Fails writer.old writer.new)
        (H.exhausts (H.counted place.old) (H.counted place.new)) (HasToldLate K.reads clock.new)) }
    ensures forward { (failures writer.old ≤ failures writer.new)
        × (H.counted place.old ≤ H.counted place.new) }
{
    let moment = clock.now();
    let piece = &session.inbox.as_slice()[..count];
    let fed = host.feed(place, session.conn, piece, moment);
    session.inbox.skip(count);
    let Some(given) = fed? else {
        return Ok(Progress::Over);
    };
    let held = given.held;
    hand_out(session, given, writer)?;
    if held {
        return Err(RunError::OutOfMemory);
    }
    Ok(Progress::More)
}

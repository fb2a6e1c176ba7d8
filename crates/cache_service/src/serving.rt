//! One connection of a shared service, from its opening to its closing.
ghost use Rattle.std.specs.Prelude.{◌≡◌, ◌<◌, ◌≤◌, ◌↔◌, ◌-◌, ◌^◌, Ok, length, IsErrOf, IsTrue};
ghost use Rattle.cache_run.specs.Devices.Failures.{HasFailed};
ghost use Rattle.cache_run.specs.Devices.Watched.{failures};
ghost use Rattle.cache_run.specs.Devices.Sources.{HasToldLate};
ghost use Rattle.cache_service.specs.Asked.{HasAskedSome};
ghost use Rattle.cache_service.specs.Served.{AsksAll, ServesTurns, WritesAll};

use crate::devices::{Teller, Untold};
use crate::sitting::Sitting;
use cache_run::{Clock, Loader, Progress, RunError, Watched, close, converse, open, outcome_of};
use cache_shared::{Seat, Seating, Shareable, SharedService};
use std::alloc::Global;
use std::io::{Read, Write};
use std::sync::Wait;

/// Whether a driver's turns were used up, so that it is called again.
fn is_more(ended: &Result<Progress, RunError>) -> bool
    ensures { IsTrue result ↔ (ended.now ≡ Ok Progress.More) }
{
    matches!(ended, Ok(Progress::More))
}

/// Serves one connection of an existing namespace, from its opening to the end of its input, when it is closed, or until it has closed.
/// Each of its events is one hold of the lock, in which everything that the connection is owed afterwards is taken, and is counted by the
/// seat. What was read at once is passed on in pieces of at most 64 lines, each of which ends after the first line that may take long
/// (`KEYS`, `SYNC`, `CLEAR`, `DROPIF`), or of one line if more than 64 KiB of replies came before, so that others get the lock in between.
/// While replies wait to be written, or a `LOAD` of the connection waits, nothing is passed on or read.
///
/// With its events it takes the loads of the namespace that have gone out, its own or those of other connections, and asks the loader for
/// each by its key, without the lock. A load is answered with what the loader returns, and given up if the loader returns nothing or if the
/// outcome is refused for its bytes or its time; one that is not under way any more is left. It ends only when everything that it took is
/// settled. After an error the connection is closed first; then what is left is passed to the loader and settled at moment 0, which counts
/// as the latest, and an answer that is refused for another cause is followed by a give-up. A closing or a give-up that is refused for
/// memory is tried again.
///
/// If the service keeps journals, so that the seat has a receipt of each event, these are an opening, the pieces read with the clock's
/// readings, between them answers and give-ups of loads with the clock's readings, a closing, and after an error further answers and
/// give-ups, in this order. A piece that was refused has no receipt, nor has what was read after it or after the closing, nor a
/// closing that was refused. The notes are left to be taken.
///
/// Returns `Read` or `Write` if that device failed, `Moment` if the clock gave more than 2^63 - 1 nanoseconds, `UsedUp`
/// if the seat's count is at 2^64 - 1, and otherwise `OutOfMemory`.
/// ```
/// serve(&rt, alloc, &shared, &mut seat, 0, &mut reader, &mut writer, &mut clock, &mut loader)?;
/// ```
pub fn serve<L: Seating, C: Shareable, I: Read, O: Write, K: Clock, D: Loader, R: Wait>(
    rt: &R,
    alloc: Global,
    shared: &SharedService<L, C>,
    seat: &mut Seat<L, C>,
    namespace: u64,
    reader: &mut Watched<I>,
    writer: &mut Watched<O>,
    clock: &mut K,
    loader: &mut D,
) -> Result<(), RunError>
    requires known { namespace < length L.configs }
    ensures wrote { WritesAll C.KEEPS L.configs C.spaces C.untaken O.contents D.loads namespace
        result seat.old seat.new writer.old writer.new loader.old loader.new }
    ensures asked { AsksAll C.KEEPS L.configs C.spaces I.remaining K.reads D.loads namespace result
        seat.old seat.new reader.old reader.new clock.old clock.new loader.old loader.new }
    // the seat's count never falls, and is used up where that is the cause
    ensures count { (seat.old.count ≤ seat.new.count)
        × (IsErrOf result RunError.UsedUp → 2 ^ 64 - 1 ≤ seat.new.count) }
    ensures devices { (IsErrOf result RunError.Read
        → HasFailed (failures reader.old) (failures reader.new))
        × (IsErrOf result RunError.Write
        → HasFailed (failures writer.old) (failures writer.new)) }
    ensures moment { IsErrOf result RunError.Moment → HasToldLate K.reads clock.new }
    ensures loader { HasAskedSome D.loads loader.old loader.new }
    ensures served { ServesTurns L.configs C.spaces C.untaken C.untold I.remaining O.contents
        K.reads namespace seat.old.claims result reader.old reader.new writer.old writer.new
        clock.old clock.new }
{
    serve_and_tell(
        rt,
        alloc,
        shared,
        seat,
        namespace,
        reader,
        writer,
        clock,
        loader,
        &mut Untold,
    )
}

/// Does what `serve` does, and returns its errors. In addition, after each piece that it passes on and each load that it settles, and
/// before the replies of that are written, it takes the notes of the namespace, including those of other connections' events, and passes
/// them to the teller.
pub fn serve_and_tell<
    L: Seating,
    C: Shareable,
    I: Read,
    O: Write,
    K: Clock,
    D: Loader,
    T: Teller,
    R: Wait,
>(
    rt: &R,
    alloc: Global,
    shared: &SharedService<L, C>,
    seat: &mut Seat<L, C>,
    namespace: u64,
    reader: &mut Watched<I>,
    writer: &mut Watched<O>,
    clock: &mut K,
    loader: &mut D,
    teller: &mut T,
) -> Result<(), RunError>
    requires known { namespace < length L.configs }
    ensures wrote { WritesAll C.KEEPS L.configs C.spaces C.untaken O.contents D.loads namespace
        result seat.old seat.new writer.old writer.new loader.old loader.new }
    ensures asked { AsksAll C.KEEPS L.configs C.spaces I.remaining K.reads D.loads namespace result
        seat.old seat.new reader.old reader.new clock.old clock.new loader.old loader.new }
    // the seat's count never falls, and is used up where that is the cause
    ensures count { (seat.old.count ≤ seat.new.count)
        × (IsErrOf result RunError.UsedUp → 2 ^ 64 - 1 ≤ seat.new.count) }
    ensures devices { (IsErrOf result RunError.Read
        → HasFailed (failures reader.old) (failures reader.new))
        × (IsErrOf result RunError.Write
        → HasFailed (failures writer.old) (failures writer.new)) }
    ensures moment { IsErrOf result RunError.Moment → HasToldLate K.reads clock.new }
    ensures loader { HasAskedSome D.loads loader.old loader.new }
    ensures served { ServesTurns L.configs C.spaces C.untaken C.untold I.remaining O.contents
        K.reads namespace seat.old.claims result reader.old reader.new writer.old writer.new
        clock.old clock.new }
{
    let Ok(mut sitting) = Sitting::new(rt, alloc, shared, teller, true) else {
        return Err(RunError::OutOfMemory);
    };
    let mut session = open(&mut sitting, seat, alloc, namespace)?;
    for _turn in rt.forever() {
        let ended = converse(
            &mut sitting,
            seat,
            &mut session,
            reader,
            writer,
            clock,
            loader,
        );
        if is_more(&ended) {
            continue;
        }
        return close(&mut sitting, seat, &session, outcome_of(ended), loader);
    }
    unreachable!()
}

//! One connection, from its opening to its closing.
ghost use Rattle.std.specs.Prelude.{◌≡◌, ◌<◌, [], length, IfErr, OnOk, IsErrOf};
ghost use Rattle.cache_run.specs.Devices.Sources.{HasToldLate};
ghost use Rattle.cache_run.specs.Driver.Causes.{Fails, RunsOut};
ghost use Rattle.cache_spaces.specs.Calls.{At};
ghost use Rattle.cache_run.specs.Loading.{loads_under_way_in};
ghost use Rattle.cache_run.specs.Runs.{RunsPartly, RunsWhole};

use crate::devices::{Clock, Loader, RunError, Watched};
use crate::driver::{close, converse, open, outcome_of};
use crate::lent::Lent;
use cache_spaces::Service;
use std::alloc::Global;
use std::io::{Read, Write};

/// Serves one connection of an existing namespace, from its opening to the end of its input, when it is closed, or until it has closed
/// because of what was read. The call reads up to 8192 bytes at a time, feeds them at the clock's reading, and writes the replies before it
/// reads on. Notes are left to be taken.
///
/// Each load that goes out is requested from the loader by its key, and answered with what the loader returns; it is given up if the loader
/// returns no outcome or one that is refused for its bytes or its time. After an error the connection is closed, and then loads that are
/// left are given up at moment 0, which counts as the latest. Each load that is under way afterwards was under way before; after an error
/// this holds if no other connection waits for a load. However it ends, no load is under way afterwards if none was before.
///
/// Returns `Read`, `Write`, `Moment` if the clock gave more than 2^63 - 1 nanoseconds, `UsedUp`, or `OutOfMemory`, which is also the
/// error if no connection could be opened: then nothing was read or written.
/// ```
/// run(&mut service, alloc, 0, &mut reader, &mut writer, &mut clock, &mut loader)?;
/// ```
pub fn run<R: Read, W: Write, C: Clock, L: Loader>(
    service: &mut Service,
    alloc: Global,
    namespace: u64,
    reader: &mut Watched<R>,
    writer: &mut Watched<W>,
    clock: &mut C,
    loader: &mut L,
) -> Result<(), RunError>
    requires known { namespace < length service.old }

    // The bytes written are the replies of one connection whose pieces joined are the bytes read.
    ensures ok { OnOk result
        (RunsWhole R.remaining W.contents C.reads L.loads namespace service.old service.new
        reader.old reader.new writer.old writer.new clock.old clock.new loader.old loader.new) }

    // After an error they are a prefix of them, unless no connection was opened.
    ensures err { IfErr result
        (RunsPartly R.remaining W.contents C.reads L.loads namespace service.old service.new
        reader.old reader.new writer.old writer.new clock.old clock.new loader.old loader.new) }

    // However it ends, no load is under way afterwards if none was before.
    ensures none { At service.old service.new namespace
        (λ was is. loads_under_way_in was ≡ [] → loads_under_way_in is ≡ []) }
    ensures read { IsErrOf result RunError.Read → Fails reader.old reader.new }
    ensures write { IsErrOf result RunError.Write → Fails writer.old writer.new }
    ensures moment { IsErrOf result RunError.Moment → HasToldLate C.reads clock.new }

    // Turns are used up only if the bytes read, the loads requested and the reader's failures together reach 2^64 - 1.
    ensures used_up { IsErrOf result RunError.UsedUp
        → RunsOut R.remaining L.loads reader.old reader.new loader.old loader.new }
{
    let mut host = Lent;
    let mut session = open(&mut host, service, alloc, namespace)?;
    let outcome = outcome_of(converse(
        &mut host,
        service,
        &mut session,
        reader,
        writer,
        clock,
        loader,
    ));
    close(&mut host, service, &session, outcome, loader)
}

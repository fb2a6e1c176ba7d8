//! A script over standard streams.
ghost use Rattle.std.specs.Prelude.{◌≡◌, ◌≤◌};
ghost use Rattle.cached_server.specs.Script.Faults.{EndsScriptBy};
ghost use Rattle.cached_server.specs.Script.Scripts.{ServesStreams};

use crate::script::faults::{Fault, fail, fault_of};
use crate::script::notes::tell_notes;
use crate::script::sources::{NoLoader, StillClock};
use audit_model::{Config, EvictionPolicy, Instant, Weight};
use cache_run::{Watched, run};
use cache_spaces::Service;
use rand_core::SeedableRng;
use rand_xoshiro::Xoshiro256PlusPlus;
use std::alloc::Global;
use std::io::{Read, Write};
use std::mem;

/// The namespace that a script is run in.
const NAMESPACE: u64 = 0;

/// A namespace without limits.
const PLAIN: Config = Config {
    capacity: None,
    policy: EvictionPolicy::Lru,
    parts: 1,
    weight: Weight::One,
    live_ms: None,
    idle_ms: None,
    own_deadlines: false,
};

/// This many bytes of notes are gathered before they are written.
const NOTES_BYTES: usize = 65536;

/// Serves the script that `reader` gives, in a namespace without limits. Returns the program's status: 0 at the end of the script, 1 after
/// an error.
///
/// At 0 the input came to its end, or a line closed the connection; the replies to the script's lines are on `writer`, and its notes on
/// `errors`. The text of an error follows the notes; what cannot be written to `errors` is lost.
pub fn run_script<R: Read, W: Write, E: Write>(
    alloc: Global,
    reader: &mut Watched<R>,
    writer: &mut Watched<W>,
    errors: &mut Watched<E>,
) -> u8
    ensures status { result ≤ 1 }
    ensures served { result ≡ 0 → ServesStreams R.remaining W.contents E.contents reader.old
        reader.new writer.old writer.new errors.old errors.new }
    ensures stopped { result ≡ 1 → EndsScriptBy E.contents reader.old reader.new writer.old
        writer.new errors.old errors.new }
{
    let Ok(mut gathered) = Vec::with_capacity(alloc, NOTES_BYTES) else {
        return fail(errors, Fault::OutOfMemory);
    };
    let made = Instant { nanos: 0 };
    let generator = Xoshiro256PlusPlus::seed_from_u64(0);
    let Ok(mut service) = Service::new(alloc, &[PLAIN], generator, made) else {
        return fail(errors, Fault::OutOfMemory);
    };
    let ran = run(
        &mut service,
        alloc,
        NAMESPACE,
        reader,
        writer,
        &mut StillClock,
        &mut NoLoader,
    );
    service.sound(NAMESPACE);
    let told = tell_notes(&mut service, NAMESPACE, &mut gathered, errors);
    // The program ends here: the system takes the memory back at once, while freeing the values one by one takes a sixth of a script's
    // time.
    mem::forget(service);
    match ran.and(told) {
        Ok(()) => 0,
        Err(error) => fail(errors, fault_of(error)),
    }
}

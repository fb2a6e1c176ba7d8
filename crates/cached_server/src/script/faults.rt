//! Why the program ends before its time, and what it then writes.
ghost use Rattle.std.specs.Prelude.{◌≡◌, ◌≢◌, ◌≤◌, ◌++◌, codes};
ghost use Rattle.cache_run.specs.Devices.Watched.{device, failures};
ghost use Rattle.cached_server.specs.declared.script.faults.Fault.TheVariants as fault;
ghost use Rattle.cached_server.specs.Script.Faults.{EndsTelling, WritesPrefix, fault_after, fault_message, usage_text};

use cache_run::{RunError, Watched, send};
use std::alloc::AllocError;
use std::io::{ErrorKind, Write};

/// Why the program ends with status 1.
#[derive(Clone, Copy, Debug, PartialEq, Eq, Drop)]
pub enum Fault {
    /// Standard input could not be read.
    Read,
    /// Standard output could not be written.
    Write,
    /// There was not enough memory.
    OutOfMemory,
    /// A 64-bit count was used up.
    UsedUp,
    /// The file is not a configuration that is accepted.
    BadConfiguration,
    /// The program cannot listen, or a listener failed.
    CannotListen,
}

impl From<AllocError> for Fault {
    ghost from_gives = { λ _ e. e ≡ fault.OutOfMemory };

    fn from(_e: AllocError) -> Fault {
        Fault::OutOfMemory
    }
}

const USAGE: &[u8] = b"usage: cached --script | --config FILE\n";

/// Returns the text of a fault, with its line end.
pub fn text_of(fault: Fault) -> &'static [u8]
    ensures { result.now ≡ fault_message fault }
{
    match fault {
        Fault::Read => b"cached: read failed\n",
        Fault::Write => b"cached: write failed\n",
        Fault::OutOfMemory => b"cached: out of memory\n",
        Fault::UsedUp => b"cached: used up\n",
        Fault::BadConfiguration => b"cached: bad configuration\n",
        Fault::CannotListen => b"cached: cannot listen\n",
    }
}

/// Writes a text. What cannot be written is lost.
fn tell<E: Write>(text: &[u8], errors: &mut Watched<E>)
    ensures told { WritesPrefix text.now (E.contents (device errors.old))
        (E.contents (device errors.new)) (failures errors.old) (failures errors.new) }
    ensures later { failures errors.old ≤ failures errors.new }
{
    let _ = send(text, errors);
}

/// Writes two texts, the second only if the first was written whole. What cannot be written is lost.
pub fn tell_both<E: Write>(first: &[u8], second: &[u8], errors: &mut Watched<E>)
    ensures { WritesPrefix (first.now ++ second.now) (E.contents (device errors.old))
        (E.contents (device errors.new)) (failures errors.old) (failures errors.new) }
{
    match send(first, errors) {
        Ok(()) => tell(second, errors),
        Err(_) => (),
    }
}

/// Writes the text of a fault, and returns the status of the program. What cannot be written is lost.
pub fn fail<E: Write>(errors: &mut Watched<E>, fault: Fault) -> u8
    ensures status { result ≡ 1 }
    ensures told { WritesPrefix (fault_message fault) (E.contents (device errors.old))
        (E.contents (device errors.new)) (failures errors.old) (failures errors.new) }
    ensures later { failures errors.old ≤ failures errors.new }
{
    tell(text_of(fault), errors);
    1
}

/// Ends the program if its arguments cannot be read, or are wrong: writes the text, and returns the status, 2, or 1 if there was not enough
/// memory.
pub fn without_words<E: Write>(cause: ErrorKind, errors: &mut Watched<E>) -> u8
    ensures memory { cause ≡ ErrorKind.OutOfMemory
        → EndsTelling E.contents result 1 (fault_message Fault.OutOfMemory) errors.old errors.new }
    ensures other { cause ≢ ErrorKind.OutOfMemory
        → EndsTelling E.contents result 2 usage_text errors.old errors.new }
{
    if cause == ErrorKind::OutOfMemory {
        return fail(errors, Fault::OutOfMemory);
    }
    tell(USAGE, errors);
    2
}

/// Returns why the program ends after a connection ended with an error.
pub fn fault_of(error: RunError) -> Fault
    ensures { result ≡ fault_after error }
{
    match error {
        RunError::Read => Fault::Read,
        RunError::Write => Fault::Write,
        RunError::OutOfMemory => Fault::OutOfMemory,
        RunError::UsedUp | RunError::Moment => Fault::UsedUp,
    }
}

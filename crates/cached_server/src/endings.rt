//! Why a server ends, and what it then writes.
ghost use Rattle.std.specs.Prelude.{◌≡◌, ◌⊎◌, ◌++◌, ℕ, List};
ghost use Rattle.cache_run.specs.Devices.Watched.{device, failures};
ghost use Rattle.cached_server.specs.declared.script.faults.Fault.TheVariants as fault;
ghost use Rattle.cached_server.specs.Script.Faults.{WritesPrefix, fault_for, fault_message};

use crate::script::{Fault, tell_both, text_of};
use cache_run::Watched;
use cached_config::{ConfigError, ConfigFault, Unread};
use std::alloc::{AllocError, AllocFailed, Global};
use std::io;
use std::io::Write;

/// The command that lists all that is wrong with a configuration file.
const CHECK: &str = "bivrangd --check";

/// What there is to say of a fault in addition to its text.
#[derive(Debug, Drop)]
pub enum Cause {
    /// There is nothing to say.
    Unsaid,
    /// The configuration file cannot be read.
    File(Unread),
    /// The first fault of the file.
    Line(ConfigFault),
    /// The port at which the program cannot listen, and what the system says.
    Port(u16, io::Error),
    /// What cannot be had of the machine, such as its clock, and what the system says.
    Machine(&'static str, io::Error),
    /// The cause is this line, with its line end.
    Said(String),
}

impl Cause {
    /// Returns the line that says the cause, with its line end, for the configuration file at `path`; empty if there is nothing to say.
    /// `check` is the command that lists all faults of the file whose path follows it. Returns an error if there is no memory for the line.
    pub fn line(&self, alloc: Global, path: &str, check: &str) -> Result<String, AllocError> {
        match self {
            Cause::Unsaid => Ok(String::new(alloc)),
            Cause::File(unread) => Ok(format!(in alloc; "{path}: {unread}\n")?),
            Cause::Line(fault) => line_of(alloc, path, fault, check),
            Cause::Port(port, error) => Ok(format!(in alloc; "port {port}: {error}\n")?),
            Cause::Machine(what, error) => Ok(format!(in alloc; "{what}: {error}\n")?),
            Cause::Said(line) => line.clone(),
        }
    }
}

/// The line that says the first fault of the file at a path.
fn line_of(
    alloc: Global,
    path: &str,
    fault: &ConfigFault,
    check: &str,
) -> Result<String, AllocError> {
    let (line, what) = (fault.line, fault.what.as_str());
    Ok(format!(in alloc; "{path}:{line}: {what} (`{check} {path}` lists all)\n")?)
}

/// Why a server ends.
#[derive(Debug, Drop)]
pub struct Ending {
    /// Why the server ends.
    pub fault: Fault,
    /// What there is to say of the fault.
    pub cause: Cause,
}

impl Ending {
    /// Creates the ending of a server that cannot listen at a port.
    pub fn port(port: u16, error: io::Error) -> Ending
        ensures { result.fault ≡ Fault.CannotListen }
    {
        Ending {
            fault: Fault::CannotListen,
            cause: Cause::Port(port, error),
        }
    }

    /// Creates the ending of a server to which the machine does not give what it needs, such as its clock.
    pub fn machine(what: &'static str, error: io::Error) -> Ending
        ensures { result.fault ≡ Fault.CannotListen }
    {
        Ending {
            fault: Fault::CannotListen,
            cause: Cause::Machine(what, error),
        }
    }

    /// Creates the ending of a server whose file cannot be read. If there was no memory for the file, the fault is `OutOfMemory`.
    pub fn file(error: io::Error) -> Ending
        ensures { (result.fault ≡ Fault.BadConfiguration) ⊎ (result.fault ≡ Fault.OutOfMemory) }
    {
        if error.kind() == io::ErrorKind::OutOfMemory {
            return Ending::from(Fault::OutOfMemory);
        }
        Ending {
            fault: Fault::BadConfiguration,
            cause: Cause::File(Unread(error)),
        }
    }

    /// Writes the text of the fault, and, on a line of its own, what caused it, for the file at a path. Returns the status of the program.
    /// What cannot be written is lost; without memory the second line is not written.
    pub fn tell<E: Write>(&self, alloc: Global, path: &str, errors: &mut Watched<E>) -> u8
        ensures status { result ≡ 1 }
        ensures told { (cause : List ℕ) × WritesPrefix (fault_message self.now.fault ++ cause)
            (E.contents (device errors.old)) (E.contents (device errors.new)) (failures errors.old)
            (failures errors.new) }
    {
        match self.cause.line(alloc, path, CHECK) {
            Ok(line) => tell_both(text_of(self.fault), line.as_bytes(), errors),
            Err(_) => tell_both(text_of(self.fault), b"", errors),
        }
        1
    }
}

impl From<Fault> for Ending {
    ghost from_gives = { λ fault ending. ending.fault ≡ fault };

    fn from(fault: Fault) -> Ending {
        Ending {
            fault,
            cause: Cause::Unsaid,
        }
    }
}

impl From<AllocError> for Ending {
    ghost from_gives = { λ _ ending. ending.fault ≡ fault.OutOfMemory };

    fn from(_e: AllocError) -> Ending {
        Ending::from(Fault::OutOfMemory)
    }
}

impl<T: Drop> From<AllocFailed<T>> for Ending {
    ghost from_gives = { λ _ ending. ending.fault ≡ fault.OutOfMemory };

    fn from(_refused: AllocFailed<T>) -> Ending {
        Ending::from(Fault::OutOfMemory)
    }
}

impl From<ConfigError> for Ending {
    ghost from_gives = { λ e ending. ending.fault ≡ fault_for e };

    fn from(e: ConfigError) -> Ending {
        match e {
            ConfigError::Bad(fault) => Ending {
                fault: Fault::BadConfiguration,
                cause: Cause::Line(fault),
            },
            ConfigError::OutOfMemory => Ending::from(Fault::OutOfMemory),
        }
    }
}

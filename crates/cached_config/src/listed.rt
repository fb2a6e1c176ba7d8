//! What a configuration file says.
ghost use Rattle.std.specs.Prelude.{◌≡◌};
ghost use Rattle.cached_config.specs.declared.listed.ConfigError.TheVariants as errors;

use audit_model::{Bytes, Config, EvictionPolicy};
use std::alloc::AllocError;

/// A key that loads find, with its value.
#[derive(Drop)]
pub struct Listed {
    /// The key.
    pub key: Bytes,
    /// The value that a load of the key finds.
    pub value: Bytes,
}

/// A namespace that is served.
#[derive(Drop)]
pub struct HostedNamespace {
    /// The namespace's name: 1 to 32 of `a` to `z`, `0` to `9`, `-` and `_`.
    pub name: Bytes,
    /// The namespace's port on 127.0.0.1, 1 to 65535.
    pub port: u16,
    /// The configuration of the namespace.
    pub config: Config,
    /// What loads in the namespace find; a key that is not listed is not found.
    pub loads: Vec<Listed>,
}

/// How `bivrangd` serves a namespace.
#[derive(Drop)]
pub struct Hosting {
    /// The IP address on which the namespace listens, or the path of a Unix socket, which begins with `/`.
    pub bind: String,
    /// The permissions of the socket at the path, as a number.
    pub mode: u32,
    /// How many loops serve the namespace, or `None` if the file does not say.
    pub loops: Option<u64>,
    /// How many connections may be open at once.
    pub connections: u64,
    /// After how many seconds without a byte a connection is closed, or `None` without a limit.
    pub idle: Option<u64>,
    /// What a notice of the namespace has.
    pub notices: Notices,
    /// After how many milliseconds a load is given up, or `None` without a limit.
    pub load_ms: Option<u64>,
    pub protocol: Protocol,
}

/// What the connections of a namespace of `bivrangd` speak.
#[derive(Clone, Copy, PartialEq, Eq, Drop)]
pub enum Protocol {
    /// The line protocol.
    Lines,
    /// The memcache text protocol.
    Memcache(ItemLimits),
}

/// How much a namespace that speaks the memcache protocol holds, and what leaves first.
#[derive(Clone, Copy, PartialEq, Eq, Drop)]
pub struct ItemLimits {
    /// How many bytes all items may have, with what they cost.
    pub capacity: u64,
    /// LRU if the file says nothing of it.
    pub policy: EvictionPolicy,
    /// How many bytes a data block may have.
    pub item_size: u32,
}

/// What a notice of `bivrangd` has.
#[derive(Clone, Copy, Debug, PartialEq, Eq, Drop)]
pub enum Notices {
    /// The key and the value.
    Values,
    /// The key.
    Keys,
    /// Nothing: no notice is given.
    Off,
}

/// A fault of a configuration file, or a warning.
#[derive(Debug, Drop)]
pub struct ConfigFault {
    /// The number of the line at fault, counted from 1.
    pub line: usize,
    /// What is wrong there, in words.
    pub what: String,
}

/// What there is to say about a configuration file, in the order of its lines.
#[derive(Debug, Drop)]
pub struct ConfigReport {
    /// Why the file is not accepted, or nothing if it is.
    pub faults: Vec<ConfigFault>,
    /// What the file may say, and probably should not.
    pub warnings: Vec<ConfigFault>,
}

/// Why a configuration file is not accepted.
#[derive(Debug, Drop)]
pub enum ConfigError {
    /// The file has faults: the first of them, by line.
    Bad(ConfigFault),
    /// There was not enough memory to read the file.
    OutOfMemory,
}

impl From<AllocError> for ConfigError {
    ghost from_gives = { λ _ e. e ≡ errors.OutOfMemory };

    fn from(_e: AllocError) -> ConfigError {
        ConfigError::OutOfMemory
    }
}

//! What the keys say that only `bivrangd` knows. An error is what is wrong with a value, in words that follow its key.

use crate::listed::Notices;
use crate::values::{at_key, capacity_in, number_at, policy_in};
use audit_model::EvictionPolicy;
use std::net::IpAddr;
use toml::Table;

/// The longest path of a Unix socket has so many bytes.
const PATH_BYTES: usize = 107;

const BIND: &str = "is an IP address, or a path that begins with / and has at most 107 bytes";

const FOLDER: &str = "is a folder, as it ends with /";

const NUL: &str = "is no path, as it has a NUL";

const MODE: &str = "is a text of three digits from 0 to 7";

const LOOPS: &str = "is a number from 1 to 64";

const NOTICES: &str = "is \"values\", \"keys\" or \"off\"";

const PROTOCOL: &str = "is \"lines\" or \"memcache\"";

const MEMCACHED: &str = "is \"lines\" or \"memcache\": did you mean `memcache`?";

const ITEM_SIZE: &str = "is a number of bytes from 1 to 134217728";

const METRICS: &str = "is a table with a port, a number from 1 to 65535, and nothing else";

/// What is wrong with a text that is to be an address or a path.
fn fault_of_bind(text: &str) -> Option<&'static str> {
    if text.starts_with("/") {
        return fault_of_path(text);
    }
    let address: Result<IpAddr, _> = text.parse();
    match address {
        Ok(_) => None,
        Err(_) => Some(BIND),
    }
}

/// What is wrong with a text that begins with / and is to be the path of a Unix socket.
fn fault_of_path(text: &str) -> Option<&'static str> {
    if text.len() > PATH_BYTES {
        return Some(BIND);
    }
    if text.ends_with("/") {
        return Some(FOLDER);
    }
    if text.as_bytes().contains(&0) {
        return Some(NUL);
    }
    None
}

/// Returns where a table says that the namespace listens, or 127.0.0.1 without the key. Returns what is wrong if the value is not allowed.
pub fn bind_in(table: &Table) -> Result<&str, &'static str> {
    match at_key(table, "bind") {
        None => Ok("127.0.0.1"),
        Some(value) => match value.as_str() {
            Some(text) => match fault_of_bind(text) {
                None => Ok(text),
                Some(what) => Err(what),
            },
            None => Err(BIND),
        },
    }
}

/// Returns whether a table says that the namespace listens at a path.
pub fn is_at_path(table: &Table) -> bool {
    bind_in(table).is_ok_and(|bind| bind.starts_with("/"))
}

/// Returns the permissions that a table says, as a number, or those of 660 without the key. Returns what is wrong if the value is not
/// allowed.
pub fn mode_in(table: &Table) -> Result<u32, &'static str> {
    let Some(value) = at_key(table, "mode") else {
        return Ok(0o660);
    };
    match value.as_str().map(|text| text.as_bytes()) {
        Some([a @ b'0'..=b'7', b @ b'0'..=b'7', c @ b'0'..=b'7']) => {
            let (a, b, c) = (
                u32::from(*a - b'0'),
                u32::from(*b - b'0'),
                u32::from(*c - b'0'),
            );
            Ok(a * 64 + b * 8 + c)
        }
        _ => Err(MODE),
    }
}

/// Returns how many loops a table says, or `None` without the key. Returns what is wrong if the value is not allowed.
pub fn loops_in(table: &Table) -> Result<Option<u64>, &'static str> {
    number_at(table, "loops", 1, 64, LOOPS)
}

/// Returns what a table says that notices have: values, without the key. Returns what is wrong if the value is not allowed.
pub fn notices_in(table: &Table) -> Result<Notices, &'static str> {
    match at_key(table, "notices") {
        None => Ok(Notices::Values),
        Some(value) => match value.as_str() {
            Some("values") => Ok(Notices::Values),
            Some("keys") => Ok(Notices::Keys),
            Some("off") => Ok(Notices::Off),
            _ => Err(NOTICES),
        },
    }
}

/// Returns the port at which a document says that metrics are served, or `None` without the key. Returns what is wrong if the value is not
/// allowed.
pub fn metrics_in(document: &Table) -> Result<Option<u16>, &'static str> {
    match at_key(document, "metrics") {
        None => Ok(None),
        Some(value) => match value.as_table() {
            Some(table) if table.len() == 1 => port_of_metrics(table),
            _ => Err(METRICS),
        },
    }
}

/// Returns the key at which the table of metrics is not as it has to be, if it is not: one that it may not have, or else its port.
pub fn key_of_metrics(document: &Table) -> &str {
    match at_key(document, "metrics") {
        None => "port",
        Some(value) => match value.as_table() {
            Some(table) => table
                .keys()
                .map(|key| key.as_str())
                .find(|key| *key != "port")
                .unwrap_or("port"),
            None => "port",
        },
    }
}

/// The port that the table of metrics says.
fn port_of_metrics(table: &Table) -> Result<Option<u16>, &'static str> {
    match number_at(table, "port", 1, 65_535, METRICS)? {
        None => Err(METRICS),
        Some(port) => match u16::try_from(port) {
            Ok(port) => Ok(Some(port)),
            Err(_) => Err(METRICS),
        },
    }
}

/// Returns how many connections a table allows, or 10,000 without the key. Returns what is wrong if the value is not allowed.
pub fn connections_in(table: &Table) -> Result<u64, &'static str> {
    let what = "is a number from 1 to 1000000";
    let said = number_at(table, "max_connections", 1, 1_000_000, what)?;
    Ok(said.unwrap_or(10_000))
}

/// Returns after how many seconds a table says that an idle connection is closed, or `None` without the key. Returns what is wrong if the
/// value is not allowed.
pub fn idle_in(table: &Table) -> Result<Option<u64>, &'static str> {
    number_at(
        table,
        "idle_s",
        1,
        86_400_000,
        "is a number of seconds from 1 to 86400000",
    )
}

/// Returns after how many milliseconds a table says that a load is given up, or `None` without the key. Returns what is wrong if the value is
/// not allowed.
pub fn load_limit_in(table: &Table) -> Result<Option<u64>, &'static str> {
    number_at(
        table,
        "load_ms",
        1,
        86_400_000,
        "is a number of milliseconds from 1 to 86400000",
    )
}

/// The keys that do not go with the memcache protocol.
pub const OF_LINES: [&str; 9] = [
    "parts",
    "weight",
    "live_ms",
    "idle_ms",
    "deadlines",
    "loads",
    "loops",
    "notices",
    "load_ms",
];

/// The key that goes with the memcache protocol alone.
pub const OF_MEMCACHE: &str = "item_size";

/// Whether a table says that the namespace speaks the memcache protocol; not if it says nothing of it.
pub fn memcache_in(table: &Table) -> Result<bool, &'static str> {
    match at_key(table, "protocol") {
        None => Ok(false),
        Some(value) => match value.as_str() {
            Some("lines") => Ok(false),
            Some("memcache") => Ok(true),
            Some("memcached") => Err(MEMCACHED),
            _ => Err(PROTOCOL),
        },
    }
}

/// How many bytes a table says that all items may have. A number that is not valid is told by `capacity_in`.
pub fn item_capacity_in(table: &Table) -> Result<u64, &'static str> {
    match capacity_in(table) {
        Ok(Some(capacity)) => Ok(capacity),
        Ok(None) => Err("is missing: with the memcache protocol it is a number of bytes"),
        Err(_) => Ok(0),
    }
}

/// The policy that a table says for items; LRU if it says none. One that is not valid is told by `policy_in`.
pub fn item_policy_in(table: &Table) -> EvictionPolicy {
    if at_key(table, "policy").is_none() {
        return EvictionPolicy::Lru;
    }
    policy_in(table).unwrap_or(EvictionPolicy::Lru)
}

/// How many bytes a table allows in a data block; 1 MiB if it says nothing of it.
pub fn item_size_in(table: &Table) -> Result<u32, &'static str> {
    match number_at(table, OF_MEMCACHE, 1, 1 << 27, ITEM_SIZE)? {
        None => Ok(1 << 20),
        Some(size) => u32::try_from(size).map_err(|_| ITEM_SIZE),
    }
}

//! What `bivrangd` reads of a configuration, and what is wrong with one.
use audit_model::EvictionPolicy;
use cached_config::{
    ConfigFault, Hosted, Hosting, ItemLimits, Notices, Protocol, check_hosted, read_hosted,
};
use std::alloc::{AllocError, Global};

/// A file that says all that there is to say.
const FULL: &str =
    "[metrics]\nport = 9411\n[[namespace]]\nname = \"a\"\nport = 1\nbind = \"::1\"\nmode = \"604\"\nloops = 3\nmax_connections = 5\nidle_s = 6\nnotices = \"off\"\nload_ms = 7\n";

/// One that says as little as it can.
const BARE: &str = "[[namespace]]\nname = \"a\"\nport = 1\n";

/// One whose namespace speaks the memcache protocol, with all that goes with it.
const ITEMS: &str =
    "[[namespace]]\nname = \"a\"\nport = 1\ncapacity = 4096\npolicy = \"tinylfu\"\nprotocol = \"memcache\"\nitem_size = 1024\n";

/// One that says as little of that as it can.
const BARE_ITEMS: &str =
    "[[namespace]]\nname = \"a\"\nport = 1\ncapacity = 4096\nprotocol = \"memcache\"\n";

/// Whether a file is read with this hosting, and this port of the metrics.
fn is_read(alloc: Global, text: &str, wanted: &Hosting, metrics: Option<u16>) -> bool {
    match read_hosted(alloc, text) {
        Ok(hosted) => hosted.metrics == metrics && has_one(&hosted, wanted),
        Err(_) => false,
    }
}

/// Whether there is one namespace, with this hosting.
fn has_one(hosted: &Hosted, wanted: &Hosting) -> bool {
    match hosted.hostings.as_slice() {
        [found] => {
            found.bind.as_str() == wanted.bind.as_str()
                && (found.mode, found.loops) == (wanted.mode, wanted.loops)
                && (found.connections, found.idle) == (wanted.connections, wanted.idle)
                && (found.notices, found.load_ms) == (wanted.notices, wanted.load_ms)
                && found.protocol == wanted.protocol
        }
        _ => false,
    }
}

/// What a file says as little of as it can, with a protocol.
fn bare_hosting(alloc: Global, protocol: Protocol) -> Result<Hosting, AllocError> {
    Ok(Hosting {
        bind: String::from_str(alloc, "127.0.0.1")?,
        mode: 0o660,
        loops: None,
        connections: 10_000,
        idle: None,
        notices: Notices::Values,
        load_ms: None,
        protocol,
    })
}

/// Whether both files are read that speak the memcache protocol.
fn are_items_read(alloc: Global) -> Result<bool, AllocError> {
    let limits = ItemLimits {
        capacity: 4096,
        policy: EvictionPolicy::TinyLfu,
        item_size: 1024,
    };
    let bare = ItemLimits {
        policy: EvictionPolicy::Lru,
        item_size: 1 << 20,
        ..limits
    };
    let items = bare_hosting(alloc, Protocol::Memcache(limits))?;
    let bare = bare_hosting(alloc, Protocol::Memcache(bare))?;
    Ok(is_read(alloc, ITEMS, &items, None) && is_read(alloc, BARE_ITEMS, &bare, None))
}

/// Whether both files are read.
fn are_read(alloc: Global) -> Result<bool, AllocError> {
    let full = Hosting {
        bind: String::from_str(alloc, "::1")?,
        mode: 0o604,
        loops: Some(3),
        connections: 5,
        idle: Some(6),
        notices: Notices::Off,
        load_ms: Some(7),
        protocol: Protocol::Lines,
    };
    let bare = bare_hosting(alloc, Protocol::Lines)?;
    Ok(is_read(alloc, FULL, &full, Some(9411)) && is_read(alloc, BARE, &bare, None))
}

#[test]
fn files_are_read(rt: HostRuntime) {
    assert!(rt; are_read(rt.alloc()) == Ok(true) || are_read(rt.alloc()) == Ok(true));
}

#[test]
fn files_of_items_are_read(rt: HostRuntime) {
    assert!(rt; are_items_read(rt.alloc()) == Ok(true) || are_items_read(rt.alloc()) == Ok(true));
}

/// Files with a fault in each line, and what is said of each.
const FAULTY: &[(&str, &str)] = &[
    (
        "[metrics]\nport = 0\n[[namespace]]\nname = \"a\"\nport = 1\nbind = \"b\"\nmode = \"8\"\nloops = 65\nmax_connections = 0\nidle_s = 0\nnotices = true\nnotice = 1\nload_ms = 86400001\n",
        "2: metrics is a table with a port, a number from 1 to 65535, and nothing else\n6: bind is an IP address, or a path that begins with / and has at most 107 bytes\n7: mode is a text of three digits from 0 to 7\n8: loops is a number from 1 to 64\n9: max_connections is a number from 1 to 1000000\n10: idle_s is a number of seconds from 1 to 86400000\n11: notices is \"values\", \"keys\" or \"off\"\n12: unknown key notice: did you mean `notices`?\n13: load_ms is a number of milliseconds from 1 to 86400000\n",
    ),
    // A protocol that is not known, and a key of another one.
    (
        "[[namespace]]\nname = \"a\"\nport = 1\nprotocol = \"redis\"\nitem_size = 1024\n",
        "4: protocol is \"lines\" or \"memcache\"\n5: item_size goes with the memcache protocol only\n",
    ),
    // Keys that do not go with the memcache protocol.
    (
        "[[namespace]]\nname = \"a\"\nport = 1\nprotocol = \"memcache\"\ncapacity = 1\nparts = 2\nweight = \"bytes\"\nlive_ms = 1\nidle_ms = 1\ndeadlines = false\nloops = 1\nnotices = \"off\"\nitem_size = 0\nload_ms = 1\n[namespace.loads]\n",
        "6: parts does not go with the memcache protocol\n7: weight does not go with the memcache protocol\n8: live_ms does not go with the memcache protocol\n9: idle_ms does not go with the memcache protocol\n10: deadlines does not go with the memcache protocol\n11: loops does not go with the memcache protocol\n12: notices does not go with the memcache protocol\n13: item_size is a number of bytes from 1 to 134217728\n14: load_ms does not go with the memcache protocol\n15: loads does not go with the memcache protocol\n",
    ),
    // Words of other servers.
    (
        "[[namespace]]\nname = \"a\"\nport = 1\nmaxmemory = 1\nidle_timeout = 60\nprotocol = \"memcached\"\n",
        "4: unknown key maxmemory: did you mean `capacity`?\n5: unknown key idle_timeout: did you mean `idle_s`?\n6: protocol is \"lines\" or \"memcache\": did you mean `memcache`?\n",
    ),
    // The port of the metrics twice, and a key that they do not have.
    (
        "[[namespace]]\nname = \"a\"\nport = 9\n\n[metrics]\nport = 9\n",
        "3: port is that of the metrics\n",
    ),
    (
        "[[namespace]]\nname = \"a\"\nport = 9\n\n[metrics]\nport = 8\nbind = \"::1\"\n",
        "7: metrics is a table with a port, a number from 1 to 65535, and nothing else\n",
    ),
    (
        "metrics.port = 0\n[[namespace]]\nname = \"a\"\nport = 9\n",
        "1: metrics is a table with a port, a number from 1 to 65535, and nothing else\n",
    ),
    (
        "metrics = 9\n[[namespace]]\nname = \"a\"\nport = 9\n",
        "1: metrics is a table with a port, a number from 1 to 65535, and nothing else\n",
    ),
    // Paths: one twice, a folder, one with a NUL; an address may be had twice.
    (
        "[[namespace]]\nname = \"a\"\nport = 1\nbind = \"/run/a\"\n[[namespace]]\nname = \"b\"\nport = 2\nbind = \"/run/a\"\n",
        "8: bind is that of another namespace\n",
    ),
    (
        "[[namespace]]\nname = \"a\"\nport = 1\nbind = \"/run/\"\n[[namespace]]\nname = \"b\"\nport = 2\nbind = \"/run/\\u0000a\"\n",
        "4: bind is a folder, as it ends with /\n8: bind is no path, as it has a NUL\n",
    ),
    (
        "[[namespace]]\nname = \"a\"\nport = 1\nbind = \"::1\"\n[[namespace]]\nname = \"b\"\nport = 2\nbind = \"::1\"\n",
        "",
    ),
    // No capacity.
    (
        "[[namespace]]\nname = \"a\"\nport = 1\nprotocol = \"memcache\"\n",
        "1: capacity is missing: with the memcache protocol it is a number of bytes\n",
    ),
];

/// The lines of faults.
fn lines_of(alloc: Global, faults: &[ConfigFault]) -> Result<String, AllocError> {
    let mut text = String::new(alloc);
    for fault in faults {
        let line = format!(in alloc; "{}: {}\n", fault.line, fault.what)?;
        text.push_str(line.as_str())?;
    }
    Ok(text)
}

/// Whether the faults of a file are found.
fn are_found(alloc: Global, text: &str, wanted: &str) -> Result<bool, AllocError> {
    let report = check_hosted(alloc, text)?;
    let lines = lines_of(alloc, &report.faults)?;
    Ok(lines.as_str() == wanted)
}

/// Whether the faults of all faulty files are found.
fn are_all_found(alloc: Global) -> Result<bool, AllocError> {
    for (text, wanted) in FAULTY {
        if !are_found(alloc, *text, *wanted)? {
            return Ok(false);
        }
    }
    Ok(true)
}

#[test]
fn faults_are_found(rt: HostRuntime) {
    assert!(rt; are_all_found(rt.alloc()) == Ok(true) || are_all_found(rt.alloc()) == Ok(true));
}

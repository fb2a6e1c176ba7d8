//! What is read from a configuration, and what is wrong with one.
use crate::texts::{Lines, text_of};
use audit_model::{Config, EvictionPolicy, Weight};
use cached_config::{
    ConfigError, ConfigFault, ConfigReport, HostedNamespace, Listed, check_config, read_config,
};
use std::alloc::{AllocError, Global};
use std::fmt::Write;

/// A namespace that is read: its name, its port, its configuration, and the key and the value of its one load, if it has one.
type Space<'a> = (&'a [u8], u16, Config, Option<(&'a [u8], &'a [u8])>);

/// The text of a file, and its faults, a line each; a file without faults is read.
type Row<'a> = (&'a str, &'a str);

/// What no field says.
const DEFAULT: Config = Config {
    capacity: None,
    policy: EvictionPolicy::TinyLfu,
    parts: 1,
    weight: Weight::One,
    live_ms: None,
    idle_ms: None,
    own_deadlines: false,
};

/// Files, and the namespaces that are read.
const READ: &[(&str, &[Space<'static>])] = &[
    (
        "[[namespace]]\nname = \"main\"\nport = 7411\ncapacity = 1000\n[namespace.loads]\nk = \"v\"\n",
        &[(
            b"main",
            7411,
            Config {
                capacity: Some(1000),
                ..DEFAULT
            },
            Some((b"k", b"v")),
        )],
    ),
    (
        "[[namespace]]\nname = \"a-b_9\"\nport = 65535\npolicy = \"lru\"\nparts = 256\nweight = \"bytes\"\nlive_ms = 1\nidle_ms = 999999999999\n[[namespace]]\nname = \"b\"\nport = 1\ndeadlines = true\nidle_ms = 5\n",
        &[
            (
                b"a-b_9",
                65535,
                Config {
                    capacity: None,
                    policy: EvictionPolicy::Lru,
                    parts: 256,
                    weight: Weight::Bytes,
                    live_ms: Some(1),
                    idle_ms: Some(999_999_999_999),
                    own_deadlines: false,
                },
                None,
            ),
            (
                b"b",
                1,
                Config {
                    idle_ms: Some(5),
                    own_deadlines: true,
                    ..DEFAULT
                },
                None,
            ),
        ],
    ),
];

const FILES: &[Row<'static>] = &[
    ("", "1: there is no [[namespace]]\n"),
    (
        "other = 1\n",
        "1: unknown key other\n1: there is no [[namespace]]\n",
    ),
    (
        "[[namespaces]]\nname = \"a\"\nport = 1\n",
        "1: unknown key namespaces: did you mean `namespace`?\n1: there is no [[namespace]]\n",
    ),
    (
        "namespace = 3\n",
        "1: a namespace begins with [[namespace]]\n",
    ),
    ("namespace = [1]\n", "1: a namespace is a table\n"),
    ("\nnamespace = [{ name = \"a\" }]\n", "2: port is missing\n"),
    ("[[namespace]]\nport = 1\n", "1: name is missing\n"),
    ("[[namespace]]\nname = \"a\"\n", "1: port is missing\n"),
    (
        "[[namespace]]\nname = \"\"\nport = 1\n",
        "2: name is a text of 1 to 32 of a to z, 0 to 9, - and _\n",
    ),
    (
        "[[namespace]]\nname = \"A\"\nport = 1\n",
        "2: name is a text of 1 to 32 of a to z, 0 to 9, - and _\n",
    ),
    (
        "[[namespace]]\nname = \"abcdefghijabcdefghijabcdefghij123\"\nport = 1\n",
        "2: name is a text of 1 to 32 of a to z, 0 to 9, - and _\n",
    ),
    (
        "[[namespace]]\nname = \"a\"\nport = 0\n",
        "3: port is a number from 1 to 65535\n",
    ),
    (
        "[[namespace]]\nname = \"a\"\nport = 65536\n",
        "3: port is a number from 1 to 65535\n",
    ),
    (
        "[[namespace]]\nname = \"a\"\nport = \"1\"\n",
        "3: port is a number from 1 to 65535\n",
    ),
    (
        "other = 1\n[[namespace]]\nname = \"a\"\nport = 1\n",
        "1: unknown key other\n",
    ),
    (
        "[[namespace]]\nname = \"main\"\ncapacty = 1000\nport = 7411\n",
        "3: unknown key capacty: did you mean `capacity`?\n",
    ),
    (
        "[[namespace]]\nname = \"A\"\nport = 0\nparts = 257\n",
        "2: name is a text of 1 to 32 of a to z, 0 to 9, - and _\n3: port is a number from 1 to 65535\n4: parts is a number from 1 to 256\n",
    ),
];

/// The name and the port of a namespace.
const BEGUN: Lines<'static> = ("[[namespace]]\nname = \"a\"\nport = 1\n", 1, 1);

/// What stands behind them.
const REST: &[Row<'static>] = &[
    ("", ""),
    ("colour = 1\n", "4: unknown key colour\n"),
    // a letter more, less or other; two neighbours that changed places
    (
        "partss = 1\n",
        "4: unknown key partss: did you mean `parts`?\n",
    ),
    (
        "olicy = 1\n",
        "4: unknown key olicy: did you mean `policy`?\n",
    ),
    (
        "laods = 1\n",
        "4: unknown key laods: did you mean `loads`?\n",
    ),
    (
        "live-ms = 1\n",
        "4: unknown key live-ms: did you mean `live_ms`?\n",
    ),
    ("prts = 1\n", "4: unknown key prts: did you mean `parts`?\n"),
    ("Capacity_ = 1\n", "4: unknown key Capacity_\n"),
    ("capacity = -1\n", "4: capacity is a number from 0 on\n"),
    ("capacity = 0\n", ""),
    ("capacity = 1.5\n", "4: capacity is a number from 0 on\n"),
    (
        "policy = \"fifo\"\n",
        "4: policy is \"tinylfu\" or \"lru\"\n",
    ),
    ("parts = 0\n", "4: parts is a number from 1 to 256\n"),
    ("parts = 257\n", "4: parts is a number from 1 to 256\n"),
    ("weight = \"two\"\n", "4: weight is \"one\" or \"bytes\"\n"),
    (
        "live_ms = 0\n",
        "4: live_ms is a number of milliseconds from 1 to 999999999999\n",
    ),
    (
        "idle_ms = 1000000000000\n",
        "4: idle_ms is a number of milliseconds from 1 to 999999999999\n",
    ),
    ("deadlines = 1\n", "4: deadlines is true or false\n"),
    (
        "deadlines = true\nlive_ms = 5\n",
        "4: deadlines does not go with live_ms\n",
    ),
    ("deadlines = false\nlive_ms = 5\n", ""),
    ("loads = 1\n", "4: loads is a table of texts\n"),
    ("loads = { k = 1 }\n", "4: k is a text\n"),
    ("loads = { k = \"a\\nb\" }\n", "4: k has a line end\n"),
    ("loads = { k = \"a\\rb\" }\n", "4: k has a line end\n"),
    ("loads = { k = \"\" }\n", ""),
    ("loads.k = 1\n", "4: k is a text\n"),
    (
        "loads.k = \"v\"\nlive_ms.a = 1\n",
        "5: live_ms is a number of milliseconds from 1 to 999999999999\n",
    ),
    // a table within the namespace's, which is not known
    (
        "[namespace.load]\nport = 2\n",
        "4: unknown key load: did you mean `loads`?\n",
    ),
    // a line of the first namespace, and of the second
    (
        "[namespace.loads]\nport = 1\nk = \"v\"\n[[namespace]]\nname = \"b\"\nport = 2\n[namespace.loads]\nk = 1\n",
        "5: port is a text\n11: k is a text\n",
    ),
    // words of other servers
    (
        "maxmemory = 1\n",
        "4: unknown key maxmemory: did you mean `capacity`?\n",
    ),
    ("idle_timeout = 1\n", "4: unknown key idle_timeout\n"),
    // a table outside all namespaces
    (
        "[other]\nport = 1\n[[namespace]]\nname = \"b\"\nport = 0\n",
        "4: unknown key other\n8: port is a number from 1 to 65535\n",
    ),
    (
        "[[namespace]]\nname = \"b\"\nport = 1\n",
        "6: port is that of another namespace\n",
    ),
    (
        "[[namespace]]\nname = \"a\"\nport = 2\n",
        "5: name is that of another namespace\n",
    ),
    (
        "\n[[namespace]]\nname = \"a\"\nport = 1\n",
        "6: name is that of another namespace\n7: port is that of another namespace\n",
    ),
    (
        "policy = \"fifo\"\nlive_ms = 5\ndeadlines = true\n",
        "4: policy is \"tinylfu\" or \"lru\"\n6: deadlines does not go with live_ms\n",
    ),
    (
        "idle_ms = 0\ncapacity = -1\n[namespace.loads]\nk = 1\nl = \"a\\nb\"\n",
        "4: idle_ms is a number of milliseconds from 1 to 999999999999\n5: capacity is a number from 0 on\n7: k is a text\n8: l has a line end\n",
    ),
];

/// Files without faults, and their warnings.
const WARNED: &[Row<'static>] = &[
    (
        "[[namespace]]\nname = \"a\"\nport = 1\n",
        "1: no capacity, so nothing leaves for want of room, and the memory has no bound\n",
    ),
    ("[[namespace]]\nname = \"a\"\nport = 1\ncapacity = 0\n", ""),
    (
        "[[namespace]]\nname = \"a\"\nport = 1\ncapacity = 9\n\n[[namespace]]\nname = \"b\"\nport = 2\n",
        "6: no capacity, so nothing leaves for want of room, and the memory has no bound\n",
    ),
];

/// Long files, and their faults.
const LONG: &[(&[Lines<'static>], &str)] = &[
    (&[("[[namespace]]\nname = \"n#\"\nport = #\n", 1, 16)], ""),
    (
        &[("[[namespace]]\nname = \"n#\"\nport = #\n", 1, 17)],
        "49: there are more than 16 namespaces\n",
    ),
    (
        &[
            BEGUN,
            ("loads = { k = \"", 1, 1),
            ("x", 1, 8192),
            ("\" }\n", 1, 1),
        ],
        "",
    ),
    (
        &[
            BEGUN,
            ("loads = { k = \"", 1, 1),
            ("x", 1, 8193),
            ("\" }\n", 1, 1),
        ],
        "4: k has more than 8192 bytes\n",
    ),
];

/// Texts that are no TOML, and the line of their first fault.
const BROKEN: &[(&str, usize)] = &[("[[namespace\n", 1), ("[[namespace]]\nname = \"a\n", 2)];

/// Whether the loads are the one that is wanted, or none.
fn are_loads(loads: &[Listed], wanted: Option<(&[u8], &[u8])>) -> bool {
    match (loads, wanted) {
        ([], None) => true,
        ([load], Some((key, value))) => load.key.as_slice() == key
            && load.value.as_slice() == value,
        _ => false,
    }
}

/// Whether a namespace is the one that is wanted.
fn is_space(space: &HostedNamespace, wanted: &Space<'_>) -> bool {
    space.name.as_slice() == wanted.0
        && space.port == wanted.1
        && space.config == wanted.2
        && are_loads(space.loads.as_slice(), wanted.3)
}

/// Whether the namespaces are those that are wanted.
fn are_spaces(spaces: &[HostedNamespace], wanted: &[Space<'_>]) -> bool {
    for (space, wanted) in spaces.iter().zip(wanted.iter()) {
        if !is_space(space, wanted) {
            return false;
        }
    }
    spaces.len() == wanted.len()
}

/// Whether these namespaces are read from a file.
fn is_read(alloc: Global, text: &str, wanted: &[Space<'_>]) -> bool {
    match read_config(alloc, text) {
        Ok(spaces) => are_spaces(spaces.as_slice(), wanted),
        Err(_) => false,
    }
}

/// How many namespaces a text begins.
fn headers_in(text: &str) -> usize {
    text.lines().filter(|line| *line == "[[namespace]]").count()
}

/// Whether a fault is told first in this text.
fn is_first(alloc: Global, fault: ConfigFault, faults: &str) -> bool {
    let mut told = String::new(alloc);
    add_faults(&mut told, &[fault]).is_ok() && faults.starts_with(told.as_str())
}

/// Whether a file is read, with each namespace that it begins, or is none for the first of these faults.
fn is_judged(alloc: Global, text: &str, faults: &str) -> bool {
    match read_config(alloc, text) {
        Ok(spaces) => faults.is_empty() && spaces.len() == headers_in(text),
        Err(ConfigError::Bad(fault)) => is_first(alloc, fault, faults),
        Err(ConfigError::OutOfMemory) => false,
    }
}

/// Adds a line for each fault.
fn add_faults(told: &mut String, faults: &[ConfigFault]) -> Result<(), AllocError> {
    for fault in faults {
        write!(told, "{}: {}\n", fault.line, fault.what)?;
    }
    Ok(())
}

/// Whether faults are told so, a line each.
fn are_told(alloc: Global, faults: &[ConfigFault], wanted: &str) -> bool {
    let mut told = String::new(alloc);
    add_faults(&mut told, faults).is_ok() && told.as_str() == wanted
}

/// Whether a file has these faults.
fn has_faults(alloc: Global, text: &str, wanted: &str) -> bool {
    match check_config(alloc, text) {
        Ok(report) => are_told(alloc, report.faults.as_slice(), wanted),
        Err(_) => false,
    }
}

/// Whether a file has no faults, and these warnings.
fn has_warnings(alloc: Global, text: &str, wanted: &str) -> bool {
    match check_config(alloc, text) {
        Ok(ConfigReport { faults, warnings }) => {
            faults.is_empty() && are_told(alloc, warnings.as_slice(), wanted)
        }
        Err(_) => false,
    }
}

/// Whether each file has its warnings.
fn all_are_warned(alloc: Global) -> bool {
    for (text, warnings) in WARNED {
        if !(has_warnings(alloc, text, warnings) || has_warnings(alloc, text, warnings)) {
            return false;
        }
    }
    true
}

/// Whether a file has these faults, and is read just where it has none.
fn comes_so(alloc: Global, lines: &[Lines<'_>], faults: &str) -> bool {
    match text_of(alloc, lines) {
        Some(text) => has_faults(alloc, text.as_str(), faults)
            && is_judged(alloc, text.as_str(), faults),
        None => false,
    }
}

/// The same, at the second try where memory is refused.
fn comes_so_at_last(alloc: Global, lines: &[Lines<'_>], faults: &str) -> bool {
    comes_so(alloc, lines, faults) || comes_so(alloc, lines, faults)
}

/// Whether the namespaces of each file are read.
fn all_are_read(alloc: Global) -> bool {
    for (text, wanted) in READ {
        if !(is_read(alloc, text, wanted) || is_read(alloc, text, wanted)) {
            return false;
        }
    }
    true
}

/// Whether each text behind another comes to what its row says.
fn all_come_so(alloc: Global, first: Lines<'_>, rows: &[Row<'_>]) -> bool {
    for (text, faults) in rows {
        if !comes_so_at_last(alloc, &[first, (text, 1, 1)], faults) {
            return false;
        }
    }
    true
}

/// Whether each long file does.
fn all_long_come_so(alloc: Global) -> bool {
    for (lines, faults) in LONG {
        if !comes_so_at_last(alloc, lines, faults) {
            return false;
        }
    }
    true
}

/// Whether the first fault of a text that is no configuration is in this line.
fn is_broken(alloc: Global, text: &str, line: usize) -> bool {
    match (check_config(alloc, text), read_config(alloc, text)) {
        (Ok(report), Err(ConfigError::Bad(fault))) => {
            fault.line == line
                && matches!(report.faults.as_slice(), [first, ..] if first.line == line)
        }
        _ => false,
    }
}

/// Whether each text that is no TOML has its first fault in its line.
fn all_are_broken(alloc: Global) -> bool {
    for (text, line) in BROKEN {
        if !(is_broken(alloc, text, *line) || is_broken(alloc, text, *line)) {
            return false;
        }
    }
    true
}

#[test]
fn namespaces_are_read(rt: HostRuntime) {
    assert!(rt; all_are_read(rt.alloc()));
}

#[test]
fn faults_are_told_by_lines(rt: HostRuntime) {
    assert!(rt; all_come_so(rt.alloc(), ("", 1, 1), FILES) && all_come_so(rt.alloc(), BEGUN, REST));
}

#[test]
fn warnings_are_told_by_lines(rt: HostRuntime) {
    assert!(rt; all_are_warned(rt.alloc()));
}

#[test]
fn long_files(rt: HostRuntime) {
    assert!(rt; all_long_come_so(rt.alloc()) && all_are_broken(rt.alloc()));
}

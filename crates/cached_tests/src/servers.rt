//! Servers of configurations, with clients.
use crate::clients::{free_port, port_of, take_port};
use crate::stages::{Cast, Row, Stage, is_staged_so};
use crate::texts::{Lines, Talk, Texts, text_by, text_of, texts_of};
use cached_server::{Fault, Machine};
use std::alloc::Global;
use std::net::{Net, TcpListener, TcpStream};
use std::random::RandomSource;
use std::sync::Wait;
use std::thread::Threads;
use std::time::Clock;

/// One namespace without rules.
pub const M: &[&str] = &["[[namespace]]\nname = \"m\"\nport = #\n"];

/// Nobody comes to no namespace.
pub const NOBODY: Row<'static> = Row {
    config: &[],
    cast: Cast::Nobody,
    texts: (b"", b""),
    replies: (b"", b""),
    shown: &[],
    told: "",
    alarm: "",
    is_cut: false,
    ended: Ok(()),
};

/// Whether a server on two ports comes to what its row says.
fn comes_so<R: Machine>(rt: R, alloc: Global, row: &Row<'_>, ports: (u16, u16)) -> bool {
    let numbers = (u32::from(ports.0), u32::from(ports.1));
    match (
        text_by(alloc, row.config, numbers, ""),
        text_by(alloc, row.shown, numbers, row.told),
    ) {
        (Some(config), Some(shown)) => {
            let stage = Stage {
                ports,
                config: config.as_str(),
                shown: shown.as_str(),
            };
            is_staged_so(rt, alloc, row, stage)
        }
        _ => false,
    }
}

/// The listener, where its port stays taken.
fn keep(listener: TcpListener, is_kept: bool) -> Option<TcpListener> {
    if is_kept { Some(listener) } else { None }
}

/// Whether a server on these ports comes to what its row says, the second of which is that of the listener.
fn comes_so_beside<R: Machine>(
    rt: R,
    alloc: Global,
    row: &Row<'_>,
    ports: (u16, u16),
    second: TcpListener,
) -> bool {
    let _taken = keep(second, matches!(row.cast, Cast::Shut));
    comes_so(rt, alloc, row, ports)
}

/// Whether a server on free ports comes to what its row says.
fn comes_so_once<R: Machine>(rt: R, alloc: Global, row: &Row<'_>) -> bool {
    match take_port(&rt) {
        Ok(second) => match (free_port(&rt), port_of(&second)) {
            (Some(one), Some(two)) => comes_so_beside(rt, alloc, row, (one, two), second),
            _ => false,
        },
        Err(_) => false,
    }
}

/// The same, at the second try where memory is refused.
fn serves<R: Machine>(rt: R, alloc: Global, row: &Row<'_>) -> bool {
    comes_so_once(rt, alloc, row) || comes_so_once(rt, alloc, row)
}

/// Whether a server of each row comes to what it says.
pub fn all_serve<R>(rt: R, alloc: Global, rows: &[Row<'_>]) -> bool
where
    R: Net<Listener = TcpListener, Stream = TcpStream>
        + Clock
        + RandomSource
        + Threads
        + Wait
        + Copy
        + Send
        + Sync
        + 'static,
{
    for row in rows {
        if !serves(rt, alloc, row) {
            return false;
        }
    }
    true
}

const ROWS: &[Row<'static>] = &[
    // A file of one namespace.
    Row {
        config: &[
            "[[namespace]]\nname = \"main\"\nport = #\ncapacity = 1000\n[namespace.loads]\nk = \"v\"\n",
        ],
        cast: Cast::One,
        texts: (b"SET a - 1\nGET a\nSET a - 2\nDEL a\nGET a\nQUIT\n", b""),
        replies: (b"OK\nVAL 1\nOK\nOK\nNONE\nOK\n", b""),
        shown: &[
            "listening main 127.0.0.1:#\n",
            "main NOTE Replaced a 1\nmain NOTE Explicit a 2\n",
        ],
        ..NOBODY
    },
    // Its loads, line by line.
    Row {
        config: &[
            "[[namespace]]\nname = \"main\"\nport = #\ncapacity = 1000\n[namespace.loads]\nk = \"v\"\n",
        ],
        cast: Cast::InTurn,
        texts: (b"SET a - 1\nGET a\nLOAD k\nLOAD z\nQUIT\n", b""),
        replies: (b"OK\nVAL 1\nVAL v\nNONE\nOK\n", b""),
        shown: &["listening main 127.0.0.1:#\n"],
        ..NOBODY
    },
    // Two namespaces.
    Row {
        config: &[
            "[[namespace]]\nname = \"b\"\nport = #\n",
            "[[namespace]]\nname = \"a-1\"\nport = #\ncapacity = 0\n",
        ],
        cast: Cast::Each,
        texts: (
            b"SET a - 1\nDEL a\nSET a - 2\nQUIT\n",
            b"GET a\nSET a - 1\nQUIT\n",
        ),
        replies: (b"OK\nOK\nOK\nOK\n", b"NONE\nOFF\nOK\n"),
        shown: &[
            "listening b 127.0.0.1:#\n",
            "listening a-1 127.0.0.1:#\n",
            "b NOTE Explicit a 1\n",
        ],
        ..NOBODY
    },
    // The second port is taken.
    Row {
        config: &[
            "[[namespace]]\nname = \"b\"\nport = #\n",
            "[[namespace]]\nname = \"a\"\nport = #\n",
        ],
        cast: Cast::Shut,
        ended: Err(Fault::CannotListen),
        ..NOBODY
    },
    // The server's writer fails at once.
    Row {
        config: M,
        shown: &["lis"],
        is_cut: true,
        ended: Err(Fault::Write),
        ..NOBODY
    },
    // It fails within the first note, and the server goes on.
    Row {
        config: M,
        cast: Cast::One,
        texts: (b"SET a - 1\nDEL a\nSET a - 2\nDEL a\nGET a\nQUIT\n", b""),
        replies: (b"OK\nOK\nOK\nOK\nNONE\nOK\n", b""),
        shown: &["listening m 127.0.0.1:#\n", "m NOT"],
        alarm: "cached: notices cannot be written\n",
        is_cut: true,
        ..NOBODY
    },
];

#[test]
fn rows_of_servers(rt: HostRuntime) {
    assert!(rt; all_serve(rt, rt.alloc(), ROWS));
}

/// Whether a server of these namespaces serves a client whose talk has these texts.
fn serves_texts<'a, R: Machine>(
    rt: R,
    alloc: Global,
    config: &'a [&'a str],
    texts: &'a Texts,
) -> bool {
    let row = Row {
        config,
        cast: Cast::One,
        texts: (texts.sent.as_bytes(), b""),
        replies: (texts.read.as_bytes(), b""),
        shown: &["listening m 127.0.0.1:#\n"],
        told: texts.told.as_str(),
        ..NOBODY
    };
    serves(rt, alloc, &row)
}

/// Whether a server of these namespaces serves a long talk.
pub fn serves_long<R>(rt: R, alloc: Global, config: &'static [&'static str], talk: Talk<'_>) -> bool
where
    R: Net<Listener = TcpListener, Stream = TcpStream>
        + Clock
        + RandomSource
        + Threads
        + Wait
        + Copy
        + Send
        + Sync
        + 'static,
{
    match texts_of(alloc, talk) {
        Some(texts) => serves_texts(rt, alloc, config, &texts),
        None => false,
    }
}

/// A client that asks for a long value again and again.
const DEAF: &[Lines<'static>] = &[
    ("SET long - ", 1, 1),
    ("v", 1, 8000),
    ("\nGET long", 1, 4000),
    ("\n", 1, 1),
];

/// Whether bad clients harm nobody, the first of which sends this.
fn is_harmless<R: Machine>(rt: R, alloc: Global, deaf: &str) -> bool {
    let row = Row {
        config: M,
        cast: Cast::Bad,
        texts: (deaf.as_bytes(), b"GET half\nSET a - 1\nGET a\nQUIT\n"),
        replies: (b"ERR command\nERR syntax\nOK\n", b"NONE\nOK\nVAL 1\nOK\n"),
        shown: &["listening m 127.0.0.1:#\n"],
        ..NOBODY
    };
    serves(rt, alloc, &row)
}

/// Whether bad clients harm nobody.
fn are_harmless<R>(rt: R, alloc: Global) -> bool
where
    R: Net<Listener = TcpListener, Stream = TcpStream>
        + Clock
        + RandomSource
        + Threads
        + Wait
        + Copy
        + Send
        + Sync
        + 'static,
{
    match text_of(alloc, DEAF) {
        Some(deaf) => is_harmless(rt, alloc, deaf.as_str()),
        None => false,
    }
}

#[test]
fn bad_clients_harm_nobody(rt: HostRuntime) {
    assert!(rt; are_harmless(rt, rt.alloc()) || are_harmless(rt, rt.alloc()));
}

//! What the cache below a server admits, evicts and tells.
//!
//! Where it counts how often a key was asked for, a text begins with a `SYNC`: what is sent at once is fed at one moment, so that no run
//! comes between its lines for the time that passed before.
use crate::servers::{NOBODY, all_serve, serves_long};
use crate::stages::{Cast, Row};
use crate::texts::Talk;

const ROWS: &[Row<'static>] = &[
    // A newcomer comes in place of the one used longest ago only once it was asked for more often.
    Row {
        config: &["[[namespace]]\nname = \"m\"\nport = #\ncapacity = 2\n"],
        cast: Cast::One,
        texts: (
            b"SYNC\nSET a - 1\nSYNC\nSET b - 2\nSYNC\nSET c - 3\nSYNC\nGET c\nSET c - 3\nSYNC\nGET a\nGET c\nQUIT\n",
            b"",
        ),
        replies: (
            b"SYNC 0 0\nOK\nSYNC 1 1\nOK\nSYNC 2 2\nOK\nSYNC 2 2\nNONE\nOK\nSYNC 2 2\nNONE\nVAL 3\nOK\n",
            b"",
        ),
        shown: &[
            "listening m 127.0.0.1:#\n",
            "m NOTE Size c 3\nm NOTE Size a 1\n",
        ],
        ..NOBODY
    },
    // Keys that were asked for once; the fourth comes in at its third try, for the one used longest ago.
    Row {
        config: &["[[namespace]]\nname = \"m\"\nport = #\ncapacity = 3\n"],
        cast: Cast::One,
        texts: (
            b"SYNC\nSET 0 - a\nSET 1 - b\nGET 0\nGET 1\nSYNC\nSET 2 - c\nGET 2\nSYNC\nGET 0\nGET 1\nSYNC\nSET 3 - d\nSYNC\nGET 3\nSET 3 - d\nSYNC\nGET 3\nSET 3 - d\nSYNC\nGET 3\nQUIT\n",
            b"",
        ),
        replies: (
            b"SYNC 0 0\nOK\nOK\nVAL a\nVAL b\nSYNC 2 2\nOK\nVAL c\nSYNC 3 3\nVAL a\nVAL b\nSYNC 3 3\nOK\nSYNC 3 3\nNONE\nOK\nSYNC 3 3\nNONE\nOK\nSYNC 3 3\nVAL d\nOK\n",
            b"",
        ),
        shown: &[
            "listening m 127.0.0.1:#\n",
            "m NOTE Size 3 d\nm NOTE Size 3 d\nm NOTE Size 2 c\n",
        ],
        ..NOBODY
    },
    // By weight: a newcomer of 15 has to be asked for more often than the two that would go for it are in all.
    Row {
        config: &["[[namespace]]\nname = \"m\"\nport = #\ncapacity = 31\nweight = \"bytes\"\n"],
        cast: Cast::One,
        texts: (
            b"SYNC\nSET 0 - aaaaaaaaaa\nSET 1 - bbbbbbbbbbbbbbb\nGET 0\nGET 1\nSYNC\nSET 2 - ccccc\nGET 2\nSYNC\nGET 0\nGET 1\nSYNC\nSET 3 - ddddddddddddddd\nSYNC\nGET 3\nSET 3 - ddddddddddddddd\nSYNC\nGET 3\nSET 3 - ddddddddddddddd\nSYNC\nGET 3\nSET 3 - ddddddddddddddd\nSYNC\nSET 1 - eeeeeeeeeeeeeeeeeeee\nSYNC\nQUIT\n",
            b"",
        ),
        replies: (
            b"SYNC 0 0\nOK\nOK\nVAL aaaaaaaaaa\nVAL bbbbbbbbbbbbbbb\nSYNC 2 25\nOK\nVAL ccccc\nSYNC 3 30\nVAL aaaaaaaaaa\nVAL bbbbbbbbbbbbbbb\nSYNC 3 30\nOK\nSYNC 3 30\nNONE\nOK\nSYNC 3 30\nNONE\nOK\nSYNC 3 30\nNONE\nOK\nSYNC 2 30\nOK\nSYNC 1 20\nOK\n",
            b"",
        ),
        shown: &[
            "listening m 127.0.0.1:#\n",
            "m NOTE Size 3 ddddddddddddddd\nm NOTE Size 3 ddddddddddddddd\nm NOTE Size 3 ddddddddddddddd\nm NOTE Size 2 ccccc\nm NOTE Size 0 aaaaaaaaaa\nm NOTE Replaced 1 bbbbbbbbbbbbbbb\nm NOTE Size 3 ddddddddddddddd\n",
        ],
        ..NOBODY
    },
    // A write that was replaced before a run came is not judged.
    Row {
        config: &["[[namespace]]\nname = \"m\"\nport = #\ncapacity = 12\nweight = \"bytes\"\n"],
        cast: Cast::One,
        texts: (
            b"SYNC\nSET a - aaaaaaaaaa\nSYNC\nSET b - bbbbb\nSET b - c\nSYNC\nQUIT\n",
            b"",
        ),
        replies: (b"SYNC 0 0\nOK\nSYNC 1 10\nOK\nOK\nSYNC 2 11\nOK\n", b""),
        shown: &["listening m 127.0.0.1:#\n", "m NOTE Replaced b bbbbb\n"],
        ..NOBODY
    },
    // Writes are judged in order: b before a shrinks.
    Row {
        config: &["[[namespace]]\nname = \"m\"\nport = #\ncapacity = 12\nweight = \"bytes\"\n"],
        cast: Cast::One,
        texts: (
            b"SYNC\nSET a - aaaaaaaaaa\nSYNC\nSET b - bbbbb\nSET a - c\nSYNC\nQUIT\n",
            b"",
        ),
        replies: (b"SYNC 0 0\nOK\nSYNC 1 10\nOK\nOK\nSYNC 1 1\nOK\n", b""),
        shown: &[
            "listening m 127.0.0.1:#\n",
            "m NOTE Replaced a aaaaaaaaaa\nm NOTE Size b bbbbb\n",
        ],
        ..NOBODY
    },
    // A clear keeps how often keys were asked for: the fourth, refused twice, comes in behind it. (The order in which the three that were
    // cleared are told is open; here it is that of their writes.)
    Row {
        config: &["[[namespace]]\nname = \"m\"\nport = #\ncapacity = 3\n"],
        cast: Cast::One,
        texts: (
            b"SYNC\nSET 0 - a\nSET 1 - b\nGET 0\nGET 1\nSYNC\nSET 2 - c\nGET 2\nSYNC\nGET 0\nGET 1\nSYNC\nSET 3 - d\nSYNC\nGET 3\nSET 3 - d\nSYNC\nGET 3\nCLEAR\nSYNC\nSET 0 - a\nSET 1 - b\nSET 2 - c\nSYNC\nSET 3 - d\nSYNC\nGET 0\nGET 3\nQUIT\n",
            b"",
        ),
        replies: (
            b"SYNC 0 0\nOK\nOK\nVAL a\nVAL b\nSYNC 2 2\nOK\nVAL c\nSYNC 3 3\nVAL a\nVAL b\nSYNC 3 3\nOK\nSYNC 3 3\nNONE\nOK\nSYNC 3 3\nNONE\nOK\nSYNC 0 0\nOK\nOK\nOK\nSYNC 3 3\nOK\nSYNC 3 3\nNONE\nVAL d\nOK\n",
            b"",
        ),
        shown: &[
            "listening m 127.0.0.1:#\n",
            "m NOTE Size 3 d\nm NOTE Size 3 d\nm NOTE Explicit 0 a\nm NOTE Explicit 1 b\nm NOTE Explicit 2 c\nm NOTE Size 0 a\n",
        ],
        ..NOBODY
    },
    // A live time ends a value, and a run tells it.
    Row {
        config: &["[[namespace]]\nname = \"m\"\nport = #\nlive_ms = 1\n"],
        cast: Cast::Pausing,
        texts: (b"SET a - 1\n", b"GET a\nSYNC\nQUIT\n"),
        replies: (b"OK\nNONE\nSYNC 0 0\nOK\n", b""),
        shown: &["listening m 127.0.0.1:#\n", "m NOTE Expired a 1\n"],
        ..NOBODY
    },
    // An idle time does.
    Row {
        config: &["[[namespace]]\nname = \"m\"\nport = #\nidle_ms = 1\n"],
        cast: Cast::Pausing,
        texts: (b"SET a - 1\n", b"GET a\nSYNC\nQUIT\n"),
        replies: (b"OK\nNONE\nSYNC 0 0\nOK\n", b""),
        shown: &["listening m 127.0.0.1:#\n", "m NOTE Expired a 1\n"],
        ..NOBODY
    },
    // An own deadline does, a tick of 1.07 seconds later.
    Row {
        config: &["[[namespace]]\nname = \"m\"\nport = #\ndeadlines = true\n"],
        cast: Cast::Pausing,
        texts: (b"SET a 1 x\nSET b - y\n", b"GET a\nGET b\nSYNC\nQUIT\n"),
        replies: (b"OK\nOK\nNONE\nVAL y\nSYNC 1 1\nOK\n", b""),
        shown: &["listening m 127.0.0.1:#\n", "m NOTE Expired a x\n"],
        ..NOBODY
    },
    // Namespaces share no values.
    Row {
        config: &[
            "[[namespace]]\nname = \"m\"\nport = #\n",
            "[[namespace]]\nname = \"n\"\nport = #\n",
        ],
        cast: Cast::Each,
        texts: (
            b"SET a - 1\nGET a\nQUIT\n",
            b"GET a\nSET a - 2\nGET a\nSYNC\nQUIT\n",
        ),
        replies: (b"OK\nVAL 1\nOK\n", b"NONE\nOK\nVAL 2\nSYNC 1 1\nOK\n"),
        shown: &["listening m 127.0.0.1:#\n", "listening n 127.0.0.1:#\n"],
        ..NOBODY
    },
];

#[test]
fn rows_of_caches(rt: HostRuntime) {
    assert!(rt; all_serve(rt, rt.alloc(), ROWS));
}

/// Of 600 keys under TinyLFU, each behind a run, 500 are held, and each is told: the 100 for which there is no room, and then the 500.
const SIX_HUNDRED: Talk<'static> = (
    &[
        ("SET k# - v\nSYNC\n", 1, 600),
        ("DEL k#\n", 1, 600),
        ("QUIT\n", 1, 1),
    ],
    &[
        ("OK\nSYNC # #\n", 1, 500),
        ("OK\nSYNC 500 500\n", 501, 600),
        ("OK\n", 1, 601),
    ],
    &[
        ("m NOTE Size k# v\n", 501, 600),
        ("m NOTE Explicit k# v\n", 1, 500),
    ],
);

/// A namespace of five hundred places.
const FIVE_HUNDRED: &[&str] = &["[[namespace]]\nname = \"m\"\nport = #\ncapacity = 500\n"];

#[test]
fn six_hundred_keys_into_five_hundred_places(rt: HostRuntime) {
    assert!(rt;
        serves_long(rt, rt.alloc(), FIVE_HUNDRED, SIX_HUNDRED)
            || serves_long(rt, rt.alloc(), FIVE_HUNDRED, SIX_HUNDRED)
    );
}

/// A client that goes on sending behind its end gets the replies before it.
const GOES_ON: Talk<'static> = (
    &[("SET a - 1\nGET a\nQUIT\n", 1, 1), ("GET a\n", 1, 20_000)],
    &[("OK\nVAL 1\nOK\n", 1, 1)],
    &[],
);

#[test]
fn who_goes_on_behind_the_end_gets_the_replies(rt: HostRuntime) {
    assert!(rt;
        serves_long(rt, rt.alloc(), FIVE_HUNDRED, GOES_ON)
            || serves_long(rt, rt.alloc(), FIVE_HUNDRED, GOES_ON)
    );
}

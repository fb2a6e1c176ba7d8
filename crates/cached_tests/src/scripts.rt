//! What a script writes, also over readers and writers that fail.
use crate::devices::{AMPLE, Limits, Page, make_page, make_pieces};
use crate::texts::{Talk, text_of, texts_of};
use cache_run::Watched;
use cached_server::{run_script, without_words};
use std::alloc::Global;
use std::io::ErrorKind;

/// A script, how far its devices go, and what comes of it.
#[derive(Clone, Copy)]
struct Script<'a> {
    pieces: &'a [&'a [u8]],
    /// The read that fails, or 0.
    fails_at: u64,
    output: Limits,
    errors: Limits,
    status: u8,
    written: &'a [u8],
    told: &'a [u8],
}

/// An empty one, over devices that do not fail.
const EMPTY: Script<'static> = Script {
    pieces: &[],
    fails_at: 0,
    output: AMPLE,
    errors: AMPLE,
    status: 0,
    written: b"",
    told: b"",
};

/// Three pieces, over a device that is to fail.
const FAILING: Script<'static> = Script {
    pieces: &[b"SET a - 1\n", b"SET a - 2\nGE", b"T a\n"],
    status: 1,
    ..EMPTY
};

const SCRIPTS: &[Script<'static>] = &[
    EMPTY,
    // A first run.
    Script {
        pieces: &[b"SET a - 1\nGET a\nDEL a\nGET a\nSYNC\n"],
        written: b"OK\nVAL 1\nOK\nNONE\nSYNC 0 0\n",
        told: b"NOTE Explicit a 1\n",
        ..EMPTY
    },
    // A value is replaced.
    Script {
        pieces: &[b"SET a - 1\nSET a - 2\nSYNC\n"],
        written: b"OK\nOK\nSYNC 1 1\n",
        told: b"NOTE Replaced a 1\n",
        ..EMPTY
    },
    // A deletion of nothing.
    Script {
        pieces: &[b"DEL a\n"],
        written: b"OK\n",
        ..EMPTY
    },
    // A load finds nothing.
    Script {
        pieces: &[b"LOAD k\nSET a - 1\nLOAD a\nLOAD k\nKEYS\nSYNC\n"],
        written: b"NONE\nOK\nVAL 1\nNONE\nKEYS 1\na\nSYNC 1 1\n",
        ..EMPTY
    },
    // No own deadlines.
    Script {
        pieces: &[b"SET a 5 x\n"],
        written: b"ERR deadline\n",
        ..EMPTY
    },
    // Lines are cut into pieces.
    Script {
        pieces: &[b"SET a - 1\nGE", b"T a\nGET", b" b\n"],
        written: b"OK\nVAL 1\nNONE\n",
        ..EMPTY
    },
    // A write fails within a piece.
    Script {
        pieces: &[b"SET a - 1\nGET a\n"],
        output: Limits {
            room: 4,
            most: 4,
            ..AMPLE
        },
        status: 1,
        written: b"OK\nV",
        told: b"cached: write failed\n",
        ..EMPTY
    },
    // A note cannot be told.
    Script {
        pieces: &[b"SET a - 1\nDEL a\n"],
        errors: Limits {
            fails_at: 1,
            ..AMPLE
        },
        status: 1,
        written: b"OK\nOK\n",
        told: b"cached: write failed\n",
        ..EMPTY
    },
    // A read fails, or a write or a flush, at each call.
    Script {
        fails_at: 1,
        written: b"",
        told: b"cached: read failed\n",
        ..FAILING
    },
    Script {
        fails_at: 2,
        written: b"OK\n",
        told: b"cached: read failed\n",
        ..FAILING
    },
    Script {
        fails_at: 3,
        written: b"OK\nOK\n",
        told: b"NOTE Replaced a 1\ncached: read failed\n",
        ..FAILING
    },
    Script {
        fails_at: 4,
        written: b"OK\nOK\nVAL 2\n",
        told: b"NOTE Replaced a 1\ncached: read failed\n",
        ..FAILING
    },
    Script {
        output: Limits {
            fails_at: 1,
            ..AMPLE
        },
        written: b"",
        told: b"cached: write failed\n",
        ..FAILING
    },
    Script {
        output: Limits {
            fails_at: 2,
            ..AMPLE
        },
        written: b"OK\n",
        told: b"cached: write failed\n",
        ..FAILING
    },
    Script {
        output: Limits {
            fails_at: 3,
            ..AMPLE
        },
        written: b"OK\n",
        told: b"NOTE Replaced a 1\ncached: write failed\n",
        ..FAILING
    },
    Script {
        output: Limits {
            fails_at: 4,
            ..AMPLE
        },
        written: b"OK\nOK\n",
        told: b"NOTE Replaced a 1\ncached: write failed\n",
        ..FAILING
    },
    Script {
        output: Limits {
            fails_at: 5,
            ..AMPLE
        },
        written: b"OK\nOK\n",
        told: b"NOTE Replaced a 1\ncached: write failed\n",
        ..FAILING
    },
    Script {
        output: Limits {
            fails_at: 6,
            ..AMPLE
        },
        written: b"OK\nOK\nVAL 2\n",
        told: b"NOTE Replaced a 1\ncached: write failed\n",
        ..FAILING
    },
];

/// Runs a script over these writers. Answers whether it ends with its status.
fn ends_so(
    alloc: Global,
    script: &Script<'_>,
    output: &mut Watched<Page>,
    errors: &mut Watched<Page>,
) -> bool {
    let mut reader = Watched::new(make_pieces(script.pieces, script.fails_at));
    run_script(alloc, &mut reader, output, errors) == script.status
}

/// Whether a script comes out so.
fn comes_so(alloc: Global, script: &Script<'_>) -> bool {
    let mut output = Watched::new(make_page(alloc, script.output));
    let mut errors = Watched::new(make_page(alloc, script.errors));
    ends_so(alloc, script, &mut output, &mut errors)
        && output.inner().text.as_slice() == script.written
        && errors.inner().text.as_slice() == script.told
}

/// Whether each script does, at the second try where memory is refused.
fn all_come_so(alloc: Global) -> bool {
    for script in SCRIPTS {
        if !(comes_so(alloc, script) || comes_so(alloc, script)) {
            return false;
        }
    }
    true
}

#[test]
fn scripts_are_served(rt: HostRuntime) {
    assert!(rt; all_come_so(rt.alloc()));
}

/// Whether a long script comes out so.
fn is_long_so(alloc: Global, talk: Talk<'_>) -> bool {
    match texts_of(alloc, talk) {
        Some(texts) => {
            let script = Script {
                pieces: &[texts.sent.as_bytes()],
                written: texts.read.as_bytes(),
                told: texts.told.as_bytes(),
                ..EMPTY
            };
            comes_so(alloc, &script)
        }
        None => false,
    }
}

/// Whether 20 notes of a value are told, more than are gathered: what is sent for each, and its line.
fn are_notes_told(alloc: Global, sent: &str, told: &str) -> bool {
    is_long_so(
        alloc,
        (&[(sent, 1, 20)], &[("OK\n", 1, 40)], &[(told, 1, 20)]),
    )
}

/// The same with a long value.
fn are_long_notes_told(alloc: Global) -> bool {
    match (
        text_of(
            alloc,
            &[("SET a - ", 1, 1), ("v", 1, 8000), ("\nDEL a\n", 1, 1)],
        ),
        text_of(
            alloc,
            &[("NOTE Explicit a ", 1, 1), ("v", 1, 8000), ("\n", 1, 1)],
        ),
    ) {
        (Some(sent), Some(told)) => are_notes_told(alloc, sent.as_str(), told.as_str()),
        _ => false,
    }
}

/// The longest line, and a longer one.
const LINES: [Talk<'static>; 2] = [
    (
        &[("x", 1, 8192), ("\n", 1, 1)],
        &[("ERR command\n", 1, 1)],
        &[],
    ),
    (&[("x", 1, 8193)], &[], &[]),
];

/// Whether all long scripts come out so.
fn are_long_so(alloc: Global) -> bool {
    is_long_so(alloc, LINES[0]) && is_long_so(alloc, LINES[1]) && are_long_notes_told(alloc)
}

#[test]
fn long_scripts_are_served(rt: HostRuntime) {
    assert!(rt; are_long_so(rt.alloc()) || are_long_so(rt.alloc()));
}

const WORDLESS: &[u8] = b"cached: out of memory\nusage: cached --script | --config FILE\n";

/// Whether both causes have their status, and their texts are told.
fn is_told_without_words(alloc: Global) -> bool {
    let mut told = Watched::new(make_page(alloc, AMPLE));
    without_words(ErrorKind::OutOfMemory, &mut told) == 1
        && without_words(ErrorKind::InvalidData, &mut told) == 2
        && told.inner().text.as_slice() == WORDLESS
}

#[test]
fn words_cannot_be_had(rt: HostRuntime) {
    assert!(rt; is_told_without_words(rt.alloc()) || is_told_without_words(rt.alloc()));
}

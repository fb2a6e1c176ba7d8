//! The program over its words.
use crate::sinks::{Sink, Written, is_written, make_sink, make_written};
use cache_run::Watched;
use cached_server::{Machine, cached};
use std::alloc::{AllocError, Global};
use std::env::Env;
use std::net::{Net, TcpListener, TcpStream};
use std::path::Path;
use std::random::RandomSource;
use std::rt::Files;
use std::sync::Wait;
use std::thread::Threads;
use std::time::Clock;
use std::{env, fs, io, process};

const USAGE: &[u8] = b"usage: cached --script | --config FILE\n";

/// Words, and the status, the output and the errors of the program over them.
type Row<'a> = (&'a [&'a str], u8, &'a [u8], &'a [u8]);

/// Runs the program over words and these writers, and answers its status.
fn run<R: Machine + Files + AllocGlobal>(
    rt: R,
    alloc: Global,
    words: &[&str],
    writer: &mut Watched<Vec<u8>>,
    told: &mut Watched<Vec<u8>>,
    shown: (Sink<R>, Sink<R>),
) -> u8 {
    let mut reader = Watched::new(b"SET a - 1\nDEL a\n".as_slice());
    cached(rt, alloc, words, &mut reader, writer, told, shown)
}

/// Whether the program over words comes to what the row says, with these writers for what it shows.
fn runs_so<R: Machine + Files + AllocGlobal>(
    rt: R,
    alloc: Global,
    (words, status, output, errors): Row<'_>,
    shown: (Sink<R>, Sink<R>),
) -> bool {
    let mut writer = Watched::new(Vec::new(alloc));
    let mut told = Watched::new(Vec::new(alloc));
    run(rt, alloc, words, &mut writer, &mut told, shown) == status
        && writer.inner().as_slice() == output
        && told.inner().as_slice() == errors
}

/// Two writers of so much room that write to the same place.
fn make_sinks<R: Wait + Copy>(rt: R, written: &Written) -> Result<(Sink<R>, Sink<R>), AllocError> {
    let one = make_sink(rt, written, 1000)?;
    let two = make_sink(rt, written, 1000)?;
    Ok((one, two))
}

/// Whether the program over words comes to what the row says, and shows nothing there.
fn shows_nothing<R: Machine + Files + AllocGlobal>(
    rt: R,
    alloc: Global,
    row: Row<'_>,
    written: &Written,
) -> bool {
    match make_sinks(rt, written) {
        Ok(shown) => runs_so(rt, alloc, row, shown) && is_written(&rt, written, b""),
        Err(_) => false,
    }
}

/// Whether the program over words comes to what the row says, and shows nothing.
fn comes_so<R: Machine + Files + AllocGlobal>(rt: R, alloc: Global, row: Row<'_>) -> bool {
    match make_written(alloc) {
        Some(written) => shows_nothing(rt, alloc, row, &written),
        None => false,
    }
}

const ROWS: &[Row<'static>] = &[
    (
        &["cached", "--script"],
        0,
        b"OK\nOK\n",
        b"NOTE Explicit a 1\n",
    ),
    (&["cached"], 2, b"", USAGE),
    (&["cached", "--script", "--config", "f"], 2, b"", USAGE),
    (&["cached", "--config"], 2, b"", USAGE),
    (&["cached", "--config", "f", "g"], 2, b"", USAGE),
    (&["cached", "--config", "f", "--config", "g"], 2, b"", USAGE),
    (&["cached", "--help"], 2, b"", USAGE),
    (&["cached", "--script", "x"], 2, b"", USAGE),
    (&["cached", "--script", "--script"], 2, b"", USAGE),
    (
        &["cached", "--config", "no/such/file"],
        1,
        b"",
        b"cached: bad configuration\nno/such/file: there is no such file\n",
    ),
];

/// Files that are no configurations, and the first fault of each, with its line.
const FILES: &[(&str, &str)] = &[
    ("", "1: there is no [[namespace]]"),
    (
        "[[namespace]]\nname = \"a\"\nport = 1\n[[namespace]]\nname = \"b\"\nport = 1\n",
        "6: port is that of another namespace",
    ),
    (
        "[[namespace]]\nname = \"a\"\nport = 1\n[[namespace]]\nname = \"a\"\nport = 2\n",
        "5: name is that of another namespace",
    ),
    (
        "[[namespace]]\nname = \"a\"\nport = 1\ndeadlines = true\nlive_ms = 5\n",
        "4: deadlines does not go with live_ms",
    ),
    (
        "[[namespace]]\nname = \"a\"\nport = 1\nspeed = 3\ncapacty = 3\n",
        "4: unknown key speed",
    ),
    (
        "[[namespace]]\nname = \"a\"\nport = 65536\nparts = 0\n",
        "3: port is a number from 1 to 65535",
    ),
];

/// Whether the program over its words comes to what each row says.
fn all_come_so<R>(rt: R, alloc: Global) -> bool
where
    R: Net<Listener = TcpListener, Stream = TcpStream>
        + Files
        + AllocGlobal
        + Clock
        + RandomSource
        + Threads
        + Wait
        + Copy
        + Send
        + Sync
        + 'static,
{
    for row in ROWS {
        if !comes_so(rt, alloc, *row) {
            return false;
        }
    }
    true
}

/// What the program says of a bad file at a path, whose first fault this is.
fn told_of(alloc: Global, path: &str, fault: &str) -> Result<String, AllocError> {
    let told = "cached: bad configuration\n";
    Ok(format!(in alloc; "{told}{path}:{fault} (`bivrangd --check {path}` lists all)\n")?)
}

/// What the program says of a file at a path that is not UTF-8.
fn told_of_bytes(alloc: Global, path: &str) -> Result<String, AllocError> {
    Ok(format!(in alloc; "cached: bad configuration\n{path}: it is not UTF-8\n")?)
}

/// Whether the program says so of the file at a path.
fn is_told<R: Machine + Files + AllocGlobal>(
    rt: R,
    alloc: Global,
    path: &str,
    told: Result<String, AllocError>,
) -> bool {
    match told {
        Ok(told) => comes_so(
            rt,
            alloc,
            (&["cached", "--config", path], 1, b"", told.as_bytes()),
        ),
        Err(_) => false,
    }
}

/// Whether the program says so of a file of these bytes, written to that path and removed behind it.
fn is_bad<R: Machine + Files + AllocGlobal>(
    rt: R,
    alloc: Global,
    path: &str,
    bytes: &[u8],
    told: Result<String, AllocError>,
) -> bool {
    let is_written = fs::write(&rt, path, bytes).is_ok();
    let came = is_told(rt, alloc, path, told);
    fs::remove_file(&rt, path).is_ok() && is_written && came
}

/// Whether each file is, and one that is not UTF-8.
fn are_bad<R: Machine + Files + AllocGlobal>(rt: R, alloc: Global, path: &str) -> bool {
    for (text, fault) in FILES {
        if !is_bad(
            rt,
            alloc,
            path,
            text.as_bytes(),
            told_of(alloc, path, fault),
        ) {
            return false;
        }
    }
    is_bad(rt, alloc, path, b"\xff\n", told_of_bytes(alloc, path))
}

/// A path in this directory for the process of this number.
fn path_in<R: AllocGlobal>(rt: &R, directory: Path<'_>, process: u32) -> io::Result<String> {
    let folder = directory.to_str().unwrap_or(".");
    Ok(format!(in rt.alloc(); "{folder}/cached-{process}.toml")?)
}

/// A path for the process of this number.
fn path_of<R: Env + AllocGlobal>(rt: &R, process: u32) -> io::Result<String> {
    match env::temp_dir(rt) {
        Ok(directory) => path_in(rt, directory.as_path(), process),
        Err(error) => Err(error),
    }
}

/// Whether the program says of each file that it is bad, for the process of this number.
fn all_are_bad<R>(rt: R, alloc: Global, process: u32) -> bool
where
    R: Net<Listener = TcpListener, Stream = TcpStream>
        + Files
        + Env
        + AllocGlobal
        + Clock
        + RandomSource
        + Threads
        + Wait
        + Copy
        + Send
        + Sync
        + 'static,
{
    match path_of(&rt, process) {
        Ok(path) => are_bad(rt, alloc, path.as_str()),
        Err(_) => false,
    }
}

#[test]
fn words_are_judged_first(rt: HostRuntime) {
    assert!(rt; all_come_so(rt, rt.alloc()) || all_come_so(rt, rt.alloc()));
}

#[test]
fn bad_configurations(rt: HostRuntime) {
    let process = process::id(rt.process());
    assert!(rt; all_are_bad(rt, rt.alloc(), process) || all_are_bad(rt, rt.alloc(), process));
}

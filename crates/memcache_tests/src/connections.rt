//! How connections go on and end.
ghost use Rattle.std.specs.Prelude.{◌<◌};

use crate::playing::{LARGE, START, service};
use memcache_service::{Conn, Service, Shelf};
use std::alloc::{AllocError, Global};

/// A new connection sends this, is told that, and goes on or has ended.
type Row = (&'static [u8], &'static [u8], bool);

/// A connection ends behind `quit`, and at HTTP or a request of the binary protocol, and behind nothing else of these.
const ENDS: &[Row] = &[
    (b"set a 5 0 1\r\nx\r\n", b"STORED\r\n", true),
    (b"quit\r\n", b"", false),
    (b"quit\nset a 1 0 1\r\ny\r\n", b"", false),
    (
        b"get a\r\nquit\r\nget a\r\n",
        b"VALUE a 5 1\r\nx\r\nEND\r\n",
        false,
    ),
    (
        b"delete a\r\nset a 6 0 1\r\nz\r\nquit\r\n",
        b"DELETED\r\nSTORED\r\n",
        false,
    ),
    (b"quit", b"", true),
    (b"quit x\r\nget a\r\n", b"", false),
    (
        b"nonsense\r\nget a\r\n",
        b"ERROR\r\nVALUE a 6 1\r\nz\r\nEND\r\n",
        true,
    ),
    (b"get a\r\nget ", b"VALUE a 6 1\r\nz\r\nEND\r\n", true),
    (
        b"get HTTP/1.1\r\nfoo HTTP/1.1 x\r\nfoo xHTTP/\r\n",
        b"END\r\nERROR\r\nERROR\r\n",
        true,
    ),
    (
        b"POST / HTTP/1.1\r\nHost: x\r\n\r\nset a 0 0 1\r\nx\r\n",
        b"",
        false,
    ),
    (b"HTTP/\r\n", b"", false),
    (
        b"\x80\x0b\0\0\0\0\0\0\0\0\0\0\0\0\0\0\0\0\0\0\0\0\0\0",
        b"",
        false,
    ),
    (b"get a\r\n", b"VALUE a 6 1\r\nz\r\nEND\r\n", true),
];

/// Feeds a connection bytes in pieces of at most this many, while it goes on, and moves what it is told behind what is there.
fn feed<T: Shelf>(
    service: &mut Service<T>,
    conn: Conn,
    sent: &[u8],
    cut: usize,
    told: &mut Vec<u8>,
) -> Result<bool, AllocError>
    requires { 0 < cut }
{
    let mut output = Vec::new(*told.allocator());
    for piece in sent.chunks(cut) {
        let goes_on = service.feed(conn, piece, START)?;
        service.take_output(conn, &mut output);
        told.extend_from_slice(output.as_slice())?;
        if !goes_on {
            return Ok(false);
        }
    }
    Ok(true)
}

/// Whether a new connection is told what a row says, and goes on or ends as it says.
fn comes_out<T: Shelf>(
    alloc: Global,
    service: &mut Service<T>,
    row: &Row,
    cut: usize,
) -> Result<bool, AllocError>
    requires { 0 < cut }
{
    let (sent, wanted, is_on) = *row;
    let conn = service.open()?;
    let mut told = Vec::new(alloc);
    let goes_on = feed(service, conn, sent, cut, &mut told)?;
    service.close(conn);
    Ok(goes_on == is_on && told.as_slice() == wanted)
}

/// Whether each row comes out as it says, one after the other.
fn play_rows<T: Shelf>(
    alloc: Global,
    service: &mut Service<T>,
    rows: &[Row],
    cut: usize,
) -> Result<bool, AllocError>
    requires { 0 < cut }
{
    for row in rows {
        if !comes_out(alloc, service, row, cut)? {
            return Ok(false);
        }
    }
    Ok(true)
}

/// The same, by a new service.
fn play(alloc: Global, rows: &[Row], cut: usize) -> Result<bool, AllocError>
    requires { 0 < cut }
{
    let mut service = service(alloc, LARGE)?;
    play_rows(alloc, &mut service, rows, cut)
}

/// The same, whole and byte by byte.
fn plays(alloc: Global) -> bool {
    matches!(play(alloc, ENDS, 1 << 20), Ok(true)) && matches!(play(alloc, ENDS, 1), Ok(true))
}

/// Whether a line of more than 65,536 bytes ends its connection, which is told so, and is not served any more.
fn send_long_line<T: Shelf>(alloc: Global, service: &mut Service<T>) -> Result<bool, AllocError> {
    let conn = service.open()?;
    let line = vec![in alloc; b'x'; 65537]?;
    let mut told = Vec::new(alloc);
    let goes_on = service.feed(conn, line.as_slice(), START)?;
    service.take_output(conn, &mut told);
    let is_told = told.as_slice() == b"CLIENT_ERROR line too long\r\n".as_slice();
    let goes_on_later = service.feed(conn, b"\r\nversion\r\n", START)?;
    service.take_output(conn, &mut told);
    Ok(is_told && !goes_on && !goes_on_later && told.is_empty())
}

/// The same, by a new service.
fn ends_long_line(alloc: Global) -> Result<bool, AllocError> {
    let mut service = service(alloc, LARGE)?;
    send_long_line(alloc, &mut service)
}

/// A `get` of so many keys.
fn get_of(alloc: Global, keys: usize) -> Result<Vec<u8>, AllocError> {
    let mut line = Vec::new(alloc);
    line.extend_from_slice(b"get")?;
    for _ in 0..keys {
        line.extend_from_slice(b" zz")?;
    }
    line.extend_from_slice(b"\r\n")?;
    Ok(line)
}

/// Whether a `get` of 30,000 keys, a line of 90,004 bytes, is served, and one of more than 2,097,152 bytes ends its connection.
fn send_long_get<T: Shelf>(alloc: Global, service: &mut Service<T>) -> Result<bool, AllocError> {
    let conn = service.open()?;
    let mut told = Vec::new(alloc);
    service.feed(conn, get_of(alloc, 30_000)?.as_slice(), START)?;
    service.take_output(conn, &mut told);
    let is_served = told.as_slice() == b"END\r\n".as_slice();
    let goes_on = service.feed(conn, get_of(alloc, 700_000)?.as_slice(), START)?;
    service.take_output(conn, &mut told);
    let is_told = told.as_slice() == b"CLIENT_ERROR line too long\r\n".as_slice();
    Ok(is_served && !goes_on && is_told)
}

/// The same, by a new service.
fn takes_long_get(alloc: Global) -> Result<bool, AllocError> {
    let mut service = service(alloc, LARGE)?;
    send_long_get(alloc, &mut service)
}

/// Stores an item of 600,000 bytes.
fn store_long<T: Shelf>(service: &mut Service<T>, alloc: Global) -> Result<bool, AllocError> {
    let conn = service.open()?;
    let block = vec![in alloc; b'y'; 600_000]?;
    let mut told = Vec::new(alloc);
    service.feed(conn, b"set long 0 0 600000\r\n", START)?;
    service.feed(conn, block.as_slice(), START)?;
    service.feed(conn, b"\r\n", START)?;
    service.take_output(conn, &mut told);
    service.close(conn);
    Ok(told.as_slice() == b"STORED\r\n".as_slice())
}

/// How long a reply of that item is.
const LONG: usize = 600_000 + 28;

/// Whether requests for that item are held back while 1 MiB of replies wait, and no longer.
fn ask_for_long<T: Shelf>(alloc: Global, service: &mut Service<T>) -> Result<bool, AllocError> {
    if !store_long(service, alloc)? {
        return Ok(false);
    }
    let conn = service.open()?;
    let mut told = Vec::new(alloc);
    service.feed(conn, b"get long\r\nget long\r\nget long\r\n", START)?;
    let is_held = service.is_full(conn);
    service.take_output(conn, &mut told);
    let are_two = told.len() == 2 * LONG;
    service.feed(conn, b"", START)?;
    let is_free = !service.is_full(conn);
    service.take_output(conn, &mut told);
    Ok(is_held && are_two && is_free && told.len() == LONG)
}

/// The same, by a new service.
fn holds_back(alloc: Global) -> Result<bool, AllocError> {
    let mut service = service(alloc, LARGE)?;
    ask_for_long(alloc, &mut service)
}

#[test]
fn ended(rt: HostRuntime) {
    assert!(rt; plays(rt.alloc()) || plays(rt.alloc()));
}

#[test]
fn ended_by_a_long_line(rt: HostRuntime) {
    let alloc = rt.alloc();
    assert!(rt;
        matches!(ends_long_line(alloc), Ok(true)) || matches!(ends_long_line(alloc), Ok(true))
    );
}

#[test]
fn long_gets(rt: HostRuntime) {
    let alloc = rt.alloc();
    assert!(rt;
        matches!(takes_long_get(alloc), Ok(true)) || matches!(takes_long_get(alloc), Ok(true))
    );
}

#[test]
fn held_back(rt: HostRuntime) {
    let alloc = rt.alloc();
    assert!(rt; matches!(holds_back(alloc), Ok(true)) || matches!(holds_back(alloc), Ok(true)));
}

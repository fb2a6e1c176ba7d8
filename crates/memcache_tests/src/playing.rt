//! Plays requests to a service, cut in pieces.
ghost use Rattle.std.specs.Prelude.{◌<◌};

use memcache_cache::LentShelf;
use memcache_service::{Conn, Service, Setup, Shelf};
use moka::{EvictionPolicy, StdHasher};
use std::alloc::{AllocError, Global};

/// At so many milliseconds, a connection sends this and is told that.
pub type Row = (u64, &'static [u8], &'static [u8]);

/// A service over a lent cache.
pub type Served = Service<LentShelf<StdHasher>>;

/// The moment of the first row: Unix time in milliseconds.
pub const START: u64 = 1_700_000_000_000;

/// 64 MiB, and data blocks of at most 1 MiB.
pub const LARGE: Setup = Setup {
    capacity: 1 << 26,
    item_size: 1 << 20,
};

/// A service at the moment of the first row.
pub fn service(alloc: Global, setup: Setup) -> Result<Served, AllocError> {
    let shelf = LentShelf::new(
        alloc,
        setup.capacity,
        EvictionPolicy::Lru,
        StdHasher::new(),
        START,
    )?;
    Service::new(alloc, shelf, setup, START)
}

/// Feeds a connection bytes in pieces of at most this many, and moves what it is told behind what is there.
fn feed<T: Shelf>(
    service: &mut Service<T>,
    conn: Conn,
    bytes: &[u8],
    cut: usize,
    moment: u64,
    told: &mut Vec<u8>,
) -> Result<(), AllocError>
    requires { 0 < cut }
{
    let mut output = Vec::new(*told.allocator());
    for piece in bytes.chunks(cut) {
        service.feed(conn, piece, moment)?;
        service.take_output(conn, &mut output);
        told.extend_from_slice(output.as_slice())?;
    }
    Ok(())
}

/// Whether each row is told what it says by a service, in pieces of at most this many bytes.
fn play_rows<T: Shelf>(
    alloc: Global,
    service: &mut Service<T>,
    rows: &[Row],
    cut: usize,
) -> Result<bool, AllocError>
    requires { 0 < cut }
{
    let conn = service.open()?;
    for (after, sent, wanted) in rows {
        let mut told = Vec::new(alloc);
        let moment = START.saturating_add(*after);
        feed(service, conn, *sent, cut, moment, &mut told)?;
        if told.as_slice() != *wanted {
            return Ok(false);
        }
    }
    Ok(true)
}

/// The same, by a new service.
fn play(alloc: Global, setup: Setup, rows: &[Row], cut: usize) -> Result<bool, AllocError>
    requires { 0 < cut }
{
    let mut service = service(alloc, setup)?;
    play_rows(alloc, &mut service, rows, cut)
}

/// Whether each row is told what it says, however its bytes are cut.
fn play_cut(alloc: Global, setup: Setup, rows: &[Row]) -> bool {
    matches!(play(alloc, setup, rows, 1 << 20), Ok(true))
        && matches!(play(alloc, setup, rows, 1), Ok(true))
        && matches!(play(alloc, setup, rows, 7), Ok(true))
}

/// The same. If a request was refused for memory, all is played once more.
pub fn all_right(alloc: Global, setup: Setup, rows: &[Row]) -> bool {
    play_cut(alloc, setup, rows) || play_cut(alloc, setup, rows)
}

/// What a new connection is told.
fn ask<T: Shelf>(
    service: &mut Service<T>,
    sent: &[u8],
    told: &mut Vec<u8>,
) -> Result<(), AllocError> {
    let conn = service.open()?;
    // One that ends for want of memory is told nothing.
    let _ = service.feed(conn, sent, START);
    service.take_output(conn, told);
    service.close(conn);
    Ok(())
}

/// What an item of one byte weighs under a key of one byte: both, and `ITEM_COST`.
const WEIGHT: u64 = 232;

/// What is held, once each byte from `!` to `~` was set as a key at one moment: how many of the keys have an item, and how many bytes the
/// statistics tell.
#[derive(Clone, Copy, Drop)]
struct Held {
    items: u64,
    bytes: u64,
}

impl Held {
    /// Whether there is something, and neither the items nor what is told weigh more than this.
    fn is_within(&self, most: u64) -> bool {
        0 < self.items && self.items.saturating_mul(WEIGHT) <= most && self.bytes <= most
    }
}

/// The figure of this name that statistics tell.
fn figure(told: &[u8], name: &str) -> Option<u64> {
    let text = str::from_utf8(told).ok()?;
    for line in text.lines() {
        let mut words = line.split(" ");
        if words.next() == Some("STAT") && words.next() == Some(name) {
            return words.next()?.parse().ok();
        }
    }
    None
}

/// Sets each byte from `!` to `~` as a key at one moment.
fn set_keys<T: Shelf>(service: &mut Service<T>, told: &mut Vec<u8>) -> Result<(), AllocError> {
    let mut set = *b"set k 0 0 1\r\nx\r\n";
    for key in b'!'..=b'~' {
        set[4] = key;
        ask(service, &set, told)?;
    }
    Ok(())
}

/// How many of these keys have an item.
fn count_items<T: Shelf>(service: &mut Service<T>, told: &mut Vec<u8>) -> Result<u64, AllocError> {
    let mut get = *b"get k\r\n";
    let mut items: u64 = 0;
    for key in b'!'..=b'~' {
        get[4] = key;
        ask(service, &get, told)?;
        if told.starts_with(b"VALUE") {
            items = items.saturating_add(1);
        }
    }
    Ok(items)
}

/// Sets these keys, and asks what is held.
fn hold_keys<T: Shelf>(service: &mut Service<T>, told: &mut Vec<u8>) -> Result<Held, AllocError> {
    set_keys(service, told)?;
    ask(service, b"stats\r\n", told)?;
    let bytes = figure(told.as_slice(), "bytes").ok_or(AllocError)?;
    let items = count_items(service, told)?;
    Ok(Held { items, bytes })
}

/// What a new service holds of them.
fn count_held(alloc: Global, setup: Setup) -> Result<Held, AllocError> {
    let mut service = service(alloc, setup)?;
    hold_keys(&mut service, &mut Vec::new(alloc))
}

/// Whether of 94 items that were set at one moment at least one is held, and those that are held weigh at most the capacity and what 63
/// items weigh, which may wait for maintenance; as do the bytes that statistics tell. If the test itself had no memory, all is done once
/// more.
pub fn is_bounded(alloc: Global, setup: Setup) -> bool {
    let most = setup.capacity.saturating_add(63 * WEIGHT);
    match count_held(alloc, setup) {
        Ok(held) => held.is_within(most),
        Err(AllocError) => matches!(count_held(alloc, setup), Ok(held) if held.is_within(most)),
    }
}

/// Whether a connection was told that there is no memory, or ended without a reply.
fn is_refused(told: &[u8]) -> bool {
    told.is_empty() || told.starts_with(b"SERVER_ERROR out of memory")
}

/// Tells values, flags and uniques of the keys of the rows.
const PROBE: &[u8] = b"gets a b c n\r\n";

/// Asks a row's request, and once more if it is refused for memory, which has to have changed nothing.
fn ask_again<T: Shelf>(
    alloc: Global,
    service: &mut Service<T>,
    sent: &[u8],
    wanted: &[u8],
) -> Result<bool, AllocError> {
    let mut before = Vec::new(alloc);
    let mut told = Vec::new(alloc);
    let mut after = Vec::new(alloc);
    ask(service, PROBE, &mut before)?;
    ask(service, sent, &mut told)?;
    if told.as_slice() == wanted {
        return Ok(true);
    }
    ask(service, PROBE, &mut after)?;
    let is_as_before = is_refused(told.as_slice()) && before.as_slice() == after.as_slice();
    ask(service, sent, &mut told)?;
    Ok(is_as_before && told.as_slice() == wanted)
}

/// Whether each row, of one request, is told what it says, if not the first time, then the second.
fn ask_all_again<T: Shelf>(
    alloc: Global,
    service: &mut Service<T>,
    rows: &[Row],
) -> Result<bool, AllocError> {
    for (_, sent, wanted) in rows {
        if !ask_again(alloc, service, *sent, *wanted)? {
            return Ok(false);
        }
    }
    Ok(true)
}

/// The same, by a new service.
fn play_again(alloc: Global, rows: &[Row]) -> Result<bool, AllocError> {
    let mut service = service(alloc, LARGE)?;
    ask_all_again(alloc, &mut service, rows)
}

/// The same. If the test itself had no memory, all is played once more.
pub fn all_right_again(alloc: Global, rows: &[Row]) -> bool {
    match play_again(alloc, rows) {
        Ok(is_right) => is_right,
        Err(AllocError) => matches!(play_again(alloc, rows), Ok(true)),
    }
}

/// Asks a service to store an item of 5,000 bytes, and to delete it twice, and then, when maintenance has run, for it. Returns whether it is
/// told so, and counts none as expired.
fn deletes_large<T: Shelf>(alloc: Global, service: &mut Service<T>) -> Result<bool, AllocError> {
    let conn = service.open()?;
    let mut sent = Vec::from_slice(alloc, b"set a 0 0 5000\r\n")?;
    sent.resize(5016, b'x')?;
    sent.extend_from_slice(b"\r\ndelete a\r\ndelete a\r\n")?;
    let mut told = Vec::new(alloc);
    feed(service, conn, sent.as_slice(), 1000, START, &mut told)?;
    feed(service, conn, b"get a\r\n", 1000, START + 1000, &mut told)?;
    feed(service, conn, b"get a\r\n", 1000, START + 2000, &mut told)?;
    let expired = service.counters().expired;
    Ok(
        expired == 0
            && told.as_slice() == b"STORED\r\nDELETED\r\nNOT_FOUND\r\nEND\r\nEND\r\n".as_slice(),
    )
}

/// The same, by a new service.
fn deletes_one(alloc: Global) -> Result<bool, AllocError> {
    let mut service = service(alloc, LARGE)?;
    deletes_large(alloc, &mut service)
}

/// The same. If it was refused for memory, all is done once more.
pub fn is_large_deleted(alloc: Global) -> bool {
    matches!(deletes_one(alloc), Ok(true)) || matches!(deletes_one(alloc), Ok(true))
}

/// A request, and what is counted of it, by names of statistics; nothing else of `TALLIES` is.
pub type Tallied = (&'static [u8], &'static [(&'static str, u64)]);

/// Names of statistics that are counted of requests.
const TALLIES: &[&str] = &[
    "cmd_get",
    "cmd_set",
    "cmd_flush",
    "cmd_touch",
    "get_hits",
    "get_misses",
    "delete_hits",
    "delete_misses",
    "incr_hits",
    "incr_misses",
    "decr_hits",
    "decr_misses",
    "cas_hits",
    "cas_misses",
    "cas_badval",
    "touch_hits",
    "touch_misses",
];

/// The number under a name, or 0.
fn number_under(rows: &[(&str, u64)], name: &str) -> u64 {
    for (other, number) in rows {
        if *other == name {
            return *number;
        }
    }
    0
}

/// Whether statistics tell these figures, and of all others of `TALLIES` 0.
fn tells_only(told: &[u8], wanted: &[(&str, u64)]) -> bool {
    for name in TALLIES {
        if figure(told, *name) != Some(number_under(wanted, *name)) {
            return false;
        }
    }
    true
}

/// Whether a service counts this of each request, in their order.
fn tally_all<T: Shelf>(
    service: &mut Service<T>,
    rows: &[Tallied],
    told: &mut Vec<u8>,
) -> Result<bool, AllocError> {
    for (sent, wanted) in rows {
        ask(service, b"stats reset\r\n", told)?;
        ask(service, *sent, told)?;
        ask(service, b"stats\r\n", told)?;
        if !tells_only(told.as_slice(), *wanted) {
            return Ok(false);
        }
    }
    Ok(true)
}

/// The same, by a new service.
fn tally(alloc: Global, rows: &[Tallied]) -> Result<bool, AllocError> {
    let mut service = service(alloc, LARGE)?;
    tally_all(&mut service, rows, &mut Vec::new(alloc))
}

/// The same. If a request was refused for memory, all is done once more.
pub fn is_tallied(alloc: Global, rows: &[Tallied]) -> bool {
    matches!(tally(alloc, rows), Ok(true)) || matches!(tally(alloc, rows), Ok(true))
}

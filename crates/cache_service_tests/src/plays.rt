//! What is played over a shared service.
ghost use Rattle.std.specs.Prelude.{◌≡◌, ◌<◌, IfSome, length, true, false};
ghost use Rattle.cache_shared.specs.Recordings.{bare_spaces, no_journals, journals_in, spaces_in};
ghost use Rattle.cache_shared.specs.Events.{StandsAfter};
ghost use Rattle.cache_shared.specs.Histories.{Starts};

use crate::crews::{Crew, Script, all_work, finish_at_last, follows};
use crate::hosting::{Visit, is_visit_so};
use crate::inputs::{make_live, make_recorded};
use crate::judging::is_crew_right;
use crate::lending::{Piece, lends_so, records_of};
use crate::serving::{Row, is_journal_so, is_live_so, serves_so};
use crate::steps::make_seats;
use crate::waiting::is_answered;
use crate::without_memory::first_sits;
use audit_laws::Receipt;
use cache_shared::{Books, Finished, Seat, Seating, Shareable, SharedService};
use cache_spaces::{RecordedService, Service};
use std::alloc::Global;
use std::marker::Brand;
use std::net::{Net, TcpListener, TcpStream};
use std::sync::Wait;
use std::thread::Threads;
use std::time::Clock;

/// What is played over a service that keeps no journal.
#[derive(Clone, Copy)]
pub enum Live<'a> {
    /// Two connections over memory.
    Serve(&'a Row<'a>),
    /// Two connections over sockets.
    Host(&'a Visit<'a>),
    /// A connection that awaits what another thread answers.
    Await,
    /// Two connections, one of which is lent its pieces.
    Lend(&'a [Piece<'a>]),
    /// A connection that is fed where it has room.
    Feed,
}

/// What is played with seats of a shared form.
#[derive(Clone, Copy)]
pub enum Seated<'a> {
    /// Two connections over memory.
    Serve(&'a Row<'a>),
    /// Four threads, and how many records they leave.
    Crew(&'a Crew<'a>, usize),
    /// One seat, where memory may be refused.
    One(&'a Script<'a>),
    /// Two connections, one of which is lent its pieces.
    Lend(&'a [Piece<'a>]),
}

/// The books of a service, on the second attempt if memory is refused.
fn make_books<C: Shareable>(alloc: Global, core: &C, parts: u64) -> Option<Books<C>>
    requires starts { Starts C.spaces core.now }
    ensures parts { IfSome result (λ books. books.blank.parts ≡ parts) }
    ensures begins { IfSome result (λ books. books.opened.1 ≡ core.now) }
{
    match Books::new(alloc, core, parts) {
        Ok(books) => Some(books),
        Err(_) => Books::new(alloc, core, parts).ok(),
    }
}

/// A shared form, on the second attempt if memory is refused.
fn share<L: Seating, C: Shareable>(
    alloc: Global,
    core: C,
    books: Books<C>,
    parts: u64,
) -> Option<SharedService<L, C>>
    requires empty { StandsAfter C.KEEPS L.configs C.spaces C.journals 0 core }
    requires name { books.blank.name ≡ L.name }
    requires parts { (books.blank.parts ≡ L.parts) × (L.all ≡ L.parts) × (parts ≡ L.parts) }
    requires history { (books.opened.0 ≡ L.history) × (books.opened.1 ≡ core) }
{
    match SharedService::new(alloc, core, books, parts) {
        Ok(shared) => Some(shared),
        Err((core, books)) => SharedService::new(alloc, core, books, parts).ok(),
    }
}

/// Whether what one awaits is answered by another.
fn is_awaited<L, C, R>(rt: &R, alloc: Global, shared: &SharedService<L, C>) -> bool
where
    L: Seating + Send + Sync + 'static,
    C: Shareable + Send + 'static,
    R: Threads + Wait + Clock + Sync,
{
    match make_seats(rt, alloc, shared, 2) {
        Some(mut seats) => is_answered(rt, alloc, shared, seats.as_mut_slice()),
        None => false,
    }
}

/// Whether a connection is fed where it has room.
fn is_fed<L: Seating, C: Shareable, R: Wait>(
    rt: &R,
    alloc: Global,
    shared: &SharedService<L, C>,
) -> bool {
    match make_seats(rt, alloc, shared, 1) {
        Some(mut seats) => first_sits(rt, alloc, shared, seats.as_mut_slice()),
        None => false,
    }
}

/// How many seats a play wants.
fn seats_of(play: Seated<'_>) -> usize {
    match play {
        Seated::Serve(_) | Seated::Lend(_) => 2,
        Seated::Crew(_, _) => 4,
        Seated::One(_) => 1,
    }
}

/// Whether the first of these seats follows a script.
fn first_follows<L: Seating, C: Shareable, R: Wait>(
    rt: &R,
    alloc: Global,
    shared: &SharedService<L, C>,
    seats: &mut [Seat<L, C>],
    script: &Script<'_>,
) -> bool {
    match seats {
        [seat, ..] => follows(rt, alloc, shared, seat, script),
        [] => false,
    }
}

/// Whether a play comes out so with these seats.
fn do_so<L, C, R>(
    rt: &R,
    alloc: Global,
    shared: &SharedService<L, C>,
    seats: &mut [Seat<L, C>],
    play: Seated<'_>,
) -> bool
where
    L: Seating + Send + Sync + 'static,
    C: Shareable + Send + 'static,
    R: Threads + Wait + Clock + Sync,
    requires known { 0 < length L.configs }
{
    match play {
        Seated::Serve(row) => serves_so(rt, alloc, shared, seats, row),
        Seated::Crew(crew, _) => all_work(rt, alloc, shared, seats, crew),
        Seated::One(script) => first_follows(rt, alloc, shared, seats, script),
        Seated::Lend(pieces) => lends_so(rt, alloc, shared, seats, pieces),
    }
}

/// What these seats leave, where a play comes out so.
fn leave<L, C, R>(
    rt: &R,
    alloc: Global,
    shared: SharedService<L, C>,
    mut seats: Vec<Seat<L, C>>,
    play: Seated<'_>,
) -> Option<Finished<C>>
where
    L: Seating + Send + Sync + 'static,
    C: Shareable + Send + 'static,
    R: Threads + Wait + Clock + Sync,
    requires known { 0 < length L.configs }
    requires ledger { L.all ≡ L.parts }
{
    if do_so(rt, alloc, &shared, seats.as_mut_slice(), play) {
        finish_at_last(shared, seats)
    } else {
        None
    }
}

/// What is left of a play over a shared form that comes out so.
fn leaves<L, C, R>(
    rt: &R,
    alloc: Global,
    shared: SharedService<L, C>,
    play: Seated<'_>,
) -> Option<Finished<C>>
where
    L: Seating + Send + Sync + 'static,
    C: Shareable + Send + 'static,
    R: Threads + Wait + Clock + Sync,
    requires known { 0 < length L.configs }
    requires ledger { L.all ≡ L.parts }
{
    match make_seats(rt, alloc, &shared, seats_of(play)) {
        Some(seats) => leave(rt, alloc, shared, seats, play),
        None => None,
    }
}

/// Whether what is left of two connections is that of their row.
fn is_served<L, R>(rt: &R, alloc: Global, shared: SharedService<L, Service>, row: &Row<'_>) -> bool
where
    L: Seating + Send + Sync + 'static,
    R: Threads + Wait + Clock + Sync,
    requires known { 0 < length L.configs }
    requires ledger { L.all ≡ L.parts }
{
    match leaves(rt, alloc, shared, Seated::Serve(row)) {
        Some(finished) => is_live_so(&finished.service, row),
        None => false,
    }
}

/// Whether a play comes out so over a shared form.
fn is_live_played<L, R>(
    rt: R,
    alloc: Global,
    shared: SharedService<L, Service>,
    play: Live<'_>,
) -> bool
where
    L: Seating + Send + Sync + 'static,
    R: Net<Listener = TcpListener, Stream = TcpStream>
        + Threads
        + Wait
        + Clock
        + Copy
        + Send
        + Sync
        + 'static,
    requires known { 0 < length L.configs }
    requires ledger { L.all ≡ L.parts }
{
    match play {
        Live::Serve(row) => is_served(&rt, alloc, shared, row),
        Live::Host(visit) => is_visit_so(rt, alloc, shared, visit),
        Live::Await => is_awaited(&rt, alloc, &shared),
        Live::Lend(pieces) => leaves(&rt, alloc, shared, Seated::Lend(pieces)).is_some(),
        Live::Feed => is_fed(&rt, alloc, &shared),
    }
}

/// The same over a service.
fn play_live<L, R>(
    rt: R,
    alloc: Global,
    core: Service,
    books: Books<Service>,
    parts: u64,
    play: Live<'_>,
) -> bool
where
    L: Seating + Send + Sync + 'static,
    R: Net<Listener = TcpListener, Stream = TcpStream>
        + Threads
        + Wait
        + Clock
        + Copy
        + Send
        + Sync
        + 'static,
    requires empty { StandsAfter false L.configs bare_spaces no_journals 0 core }
    requires known { 0 < length L.configs }
    requires name { books.blank.name ≡ L.name }
    requires parts { (books.blank.parts ≡ L.parts) × (L.all ≡ L.parts) × (parts ≡ L.parts) }
    requires history { (books.opened.0 ≡ L.history) × (books.opened.1 ≡ core) }
{
    let shared: Option<SharedService<L, Service>> = share(alloc, core, books, parts);
    match shared {
        Some(shared) => is_live_played(rt, alloc, shared, play),
        None => false,
    }
}

/// Whether a play comes out so over a service that keeps no journal, with so many parts of a ledger.
pub fn over_live<R>(rt: R, alloc: Global, parts: u64, play: Live<'_>) -> bool
where
    R: Net<Listener = TcpListener, Stream = TcpStream>
        + Threads
        + Wait
        + Clock
        + Copy
        + Send
        + Sync
        + 'static,
{
    let Some(core) = make_live(alloc) else {
        return false;
    };
    match make_books(alloc, &core, parts) {
        Some(books) => play_live::<Brand, R>(rt, alloc, core, books, parts, play),
        None => false,
    }
}

/// How many receipts the one seat has.
fn count_of(seats: &[Vec<Vec<Receipt>>]) -> usize {
    match seats {
        [lists] => match lists.as_slice() {
            [receipts] => receipts.len(),
            _ => 0,
        },
        _ => 0,
    }
}

/// Whether the journal has a record for each receipt of the one seat.
fn are_recorded<C: Shareable>(finished: Finished<C>) -> bool {
    match finished.service.journal(0) {
        Ok(journal) => journal.records.len() == count_of(finished.receipts.as_slice()),
        Err(_) => false,
    }
}

/// Whether the journal of what is left is that of its play.
fn is_left_so<C: Shareable>(alloc: Global, finished: Finished<C>, play: Seated<'_>) -> bool {
    match play {
        Seated::Serve(_) => is_journal_so(alloc, finished, 5),
        Seated::Crew(crew, records) => is_crew_right(alloc, finished, crew, records),
        Seated::One(_) => are_recorded(finished),
        Seated::Lend(pieces) => is_journal_so(alloc, finished, records_of(pieces)),
    }
}

/// Whether a play comes out so over a shared form.
fn is_recorded_played<L, C, R>(
    rt: &R,
    alloc: Global,
    shared: SharedService<L, C>,
    play: Seated<'_>,
) -> bool
where
    L: Seating + Send + Sync + 'static,
    C: Shareable + Send + 'static,
    R: Threads + Wait + Clock + Sync,
    requires known { 0 < length L.configs }
    requires ledger { L.all ≡ L.parts }
{
    match leaves(rt, alloc, shared, play) {
        Some(finished) => is_left_so(alloc, finished, play),
        None => false,
    }
}

/// The same over a service. `None` where memory for the shared form is wanting.
fn play_recorded<L, R>(
    rt: &R,
    alloc: Global,
    core: RecordedService,
    books: Books<RecordedService>,
    parts: u64,
    play: Seated<'_>,
) -> Option<bool>
where
    L: Seating + Send + Sync + 'static,
    R: Threads + Wait + Clock + Sync,
    requires empty { StandsAfter true L.configs spaces_in journals_in 0 core }
    requires known { 0 < length L.configs }
    requires name { books.blank.name ≡ L.name }
    requires parts { (books.blank.parts ≡ L.parts) × (L.all ≡ L.parts) × (parts ≡ L.parts) }
    requires history { (books.opened.0 ≡ L.history) × (books.opened.1 ≡ core) }
{
    let shared: Option<SharedService<L>> = share(alloc, core, books, parts);
    match shared {
        Some(shared) => Some(is_recorded_played(rt, alloc, shared, play)),
        None => None,
    }
}

/// Whether a play comes out so over a service that keeps its journal, with so many parts of a ledger. `None` where memory for the service
/// is wanting.
pub fn over_recorded<R>(rt: &R, alloc: Global, parts: u64, play: Seated<'_>) -> Option<bool>
where
    R: Threads + Wait + Clock + Sync,
{
    let core = make_recorded(alloc)?;
    let books = make_books(alloc, &core, parts)?;
    play_recorded::<Brand, R>(rt, alloc, core, books, parts, play)
}

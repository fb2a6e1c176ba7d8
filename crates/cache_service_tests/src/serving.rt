//! Two connections over memory, each on a thread of its own, which load.
ghost use Rattle.std.specs.Prelude.{◌≡◌, ◌<◌, length};

use crate::devices::StillClock;
use crate::inputs::{PLAIN, conn};
use crate::loaders::{Held, Hold, News, Page};
use crate::steps::has_one_journal;
use audit_model::{Closing, Transcript};
use cache_run::{RunError, Watched};
use cache_service::serve;
use cache_shared::{Finished, Seat, Seating, Shareable, SharedService};
use cache_spaces::Service;
use moka_audit::{Verdict, audit};
use std::alloc::Global;
use std::sync::Wait;
use std::sync::atomic::{AtomicU64, Ordering};
use std::thread;
use std::thread::Threads;
use std::time::Clock;

/// What two connections send, and what has to come of it.
#[derive(Clone, Copy)]
pub struct Row<'a> {
    pub texts: (&'a [u8], &'a [u8]),
    pub hold: Hold,
    /// How much room the first one's writer has.
    pub room: usize,
    pub replies: (&'a [u8], &'a [u8]),
    /// How the first one ends. The second one ends well.
    pub ended: Result<(), RunError>,
    /// How often a loader is asked.
    pub asked: u64,
    /// Why both are closed, where that is looked at.
    pub closing: Option<Closing>,
    /// How many inputs each seat counts, where that is looked at.
    pub counts: Option<(u64, u64)>,
}

/// What one of the two sends, how much room its writer has, and what has to come of it.
#[derive(Clone, Copy)]
struct Part<'a> {
    text: &'a [u8],
    hold: Hold,
    room: usize,
    replies: &'a [u8],
    ended: Result<(), RunError>,
}

fn first_part<'a>(row: &Row<'a>) -> Part<'a> {
    Part {
        text: row.texts.0,
        hold: row.hold,
        room: row.room,
        replies: row.replies.0,
        ended: row.ended,
    }
}

fn second_part<'a>(row: &Row<'a>) -> Part<'a> {
    Part {
        text: row.texts.1,
        hold: row.hold,
        room: 1000,
        replies: row.replies.1,
        ended: Ok(()),
    }
}

/// Serves a connection over memory, with a loader that is held, and answers how it ended.
fn attend_over<L: Seating, C: Shareable, R: Wait + Clock>(
    rt: &R,
    alloc: Global,
    shared: &SharedService<L, C>,
    seat: &mut Seat<L, C>,
    page: &mut Page<'_>,
    part: Part<'_>,
) -> Result<(), RunError>
    requires known { 0 < length L.configs }
{
    let mut loader = Held {
        rt,
        alloc,
        shared,
        news: page.news,
        hold: part.hold,
    };
    serve(
        rt,
        alloc,
        shared,
        seat,
        0,
        &mut Watched::new(part.text),
        &mut Watched::new(page),
        &mut StillClock,
        &mut loader,
    )
}

/// Whether the replies were written.
fn is_page(page: &Page<'_>, part: Part<'_>) -> bool {
    page.text.as_slice() == part.replies
}

/// Whether a connection is written what its part says, and ends so.
fn attend<L: Seating, C: Shareable, R: Wait + Clock>(
    rt: &R,
    alloc: Global,
    shared: &SharedService<L, C>,
    seat: &mut Seat<L, C>,
    news: &News,
    part: Part<'_>,
) -> bool
    requires known { 0 < length L.configs }
{
    let mut page = Page {
        text: Vec::new(alloc),
        room: part.room,
        news,
    };
    attend_over(rt, alloc, shared, seat, &mut page, part) == part.ended && is_page(&page, part)
}

/// Serves both, each on a thread of its own. Answers whether all came out so, and loads were asked for as often as the row says.
fn attend_both<L: Seating + Send + Sync, C: Shareable + Send, R: Threads + Wait + Clock + Sync>(
    rt: &R,
    alloc: Global,
    shared: &SharedService<L, C>,
    one: &mut Seat<L, C>,
    two: &mut Seat<L, C>,
    news: &News,
    row: &Row<'_>,
) -> bool
    requires known { 0 < length L.configs }
{
    let (first, second) = thread::join(
        rt,
        ||
            requires { 0 < length L.configs }
        { attend(rt, alloc, shared, one, news, first_part(row)) },
        ||
            requires { 0 < length L.configs }
        { attend(rt, alloc, shared, two, news, second_part(row)) },
    );
    first && second && news.asked.load(Ordering::SeqCst) == row.asked
}

/// The same, while nothing has come about yet.
fn attend_anew<L: Seating + Send + Sync, C: Shareable + Send, R: Threads + Wait + Clock + Sync>(
    rt: &R,
    alloc: Global,
    shared: &SharedService<L, C>,
    one: &mut Seat<L, C>,
    two: &mut Seat<L, C>,
    row: &Row<'_>,
) -> bool
    requires known { 0 < length L.configs }
{
    let news = News {
        asked: AtomicU64::new(0),
        answered: AtomicU64::new(0),
    };
    attend_both(rt, alloc, shared, one, two, &news, row)
}

/// The same, and the seats count as many inputs as the row says.
fn attend_row<L: Seating + Send + Sync, C: Shareable + Send, R: Threads + Wait + Clock + Sync>(
    rt: &R,
    alloc: Global,
    shared: &SharedService<L, C>,
    one: &mut Seat<L, C>,
    two: &mut Seat<L, C>,
    row: &Row<'_>,
) -> bool
    requires known { 0 < length L.configs }
{
    attend_anew(rt, alloc, shared, one, two, row)
        && (row.counts.is_none() || row.counts == Some((one.count(), two.count())))
}

/// The same with these seats, if they are two.
pub fn serves_so<L: Seating + Send + Sync, C: Shareable + Send, R: Threads + Wait + Clock + Sync>(
    rt: &R,
    alloc: Global,
    shared: &SharedService<L, C>,
    seats: &mut [Seat<L, C>],
    row: &Row<'_>,
) -> bool
    requires known { 0 < length L.configs }
{
    match seats {
        [one, two] => attend_row(rt, alloc, shared, one, two, row),
        _ => false,
    }
}

/// Whether both connections are closed for that, where that is looked at.
fn are_closed(service: &Service, closing: Option<Closing>) -> bool {
    closing.is_none()
        || service.closed(conn(1)) == Ok(closing) && service.closed(conn(2)) == Ok(closing)
}

/// Whether no load is under way in what a row leaves, and both connections are closed as it says.
pub fn is_live_so(service: &Service, row: &Row<'_>) -> bool {
    service.loads_open(0) == Ok(0) && are_closed(service, row.closing)
}

/// Whether a journal has so many records and is judged to obey.
fn obeys(alloc: Global, journal: &Transcript, records: usize) -> bool {
    journal.records.len() == records && audit(alloc, &PLAIN, journal) == Verdict::Yes
}

/// Whether the journal of what is left does, and there is no other one.
pub fn is_journal_so<C: Shareable>(alloc: Global, finished: Finished<C>, records: usize) -> bool {
    match finished.service.journal(0) {
        Ok(journal) => obeys(alloc, journal, records) && has_one_journal(&finished.service),
        Err(_) => false,
    }
}

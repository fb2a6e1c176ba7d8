//! How `cache_service` is used: callers as a user would write them.

mod example;
mod tests;

ghost use Rattle.std.specs.Prelude.{IfOk, IfSome, ◌∷◌, ◌<◌, ◌≤◌, [], length};
ghost use Rattle.std.specs.List.{slice_get};
ghost use Rattle.cache_service.specs.Words.{ArePlayed, KeepsList};

use cache_service::model::{
    Config, EvictionPolicy, Input, Instant, Outcome, Seq, Transcript, Weight,
};
use cache_service::{
    Clock, Conn, LoadId, Loader, Notice, RunError, Seat, Seating, Service, ServiceError,
    SharedService, Watched, play, serve,
};
use rand_core::SeedableRng;
use rand_xoshiro::Xoshiro256PlusPlus;
use std::alloc::{AllocError, Global};
use std::sync::Wait;

/// A namespace without limits.
pub const PLAIN: Config = Config {
    capacity: None,
    policy: EvictionPolicy::TinyLfu,
    parts: 1,
    weight: Weight::One,
    live_ms: None,
    idle_ms: None,
    own_deadlines: false,
};

/// A namespace of two places, from which the least recently used leaves.
pub const PAIR: Config = Config {
    capacity: Some(2),
    policy: EvictionPolicy::Lru,
    parts: 1,
    weight: Weight::One,
    live_ms: None,
    idle_ms: None,
    own_deadlines: false,
};

/// The replies to some lines, on a connection of their own.
pub fn ask_once(
    service: &mut Service,
    lines: &[u8],
    moment: Instant,
) -> Result<Vec<u8>, ServiceError> {
    let conn = match service.open(0) {
        Ok(conn) => conn,
        Err(error) => return Err(error),
    };
    let replies = ask(service, conn, lines, moment);
    match service.close(conn) {
        // A line that was too long has closed it.
        Ok(()) | Err(_) => replies,
    }
}

/// The replies to some lines.
fn ask(
    service: &mut Service,
    conn: Conn,
    lines: &[u8],
    moment: Instant,
) -> Result<Vec<u8>, ServiceError> {
    match service.feed(conn, lines, moment) {
        Ok(_) => service.take_output(conn),
        Err(error) => Err(error),
    }
}

/// Settles the loads of the first namespace that have gone out by a table of rows: each is answered with the row of its key, or with
/// nothing. Where memory is wanted it is given up, and goes out again while a connection waits for it.
pub fn load_rows(
    alloc: Global,
    service: &mut Service,
    rows: &[(&[u8], &[u8])],
    moment: Instant,
) -> Result<(), ServiceError> {
    let loads = match service.take_loads(0) {
        Ok(loads) => loads,
        Err(error) => return Err(error),
    };
    for (load, key) in loads.as_slice() {
        settle(
            service,
            *load,
            row_of(alloc, rows, key.as_slice()).ok(),
            moment,
        );
    }
    Ok(())
}

/// What a table has for a key.
fn row_of(alloc: Global, rows: &[(&[u8], &[u8])], key: &[u8]) -> Result<Outcome, AllocError> {
    for (name, row) in rows {
        if *name == key {
            let copy = Vec::from_slice(alloc, row)?;
            return Ok(Outcome::Value(Seq::from_vec(copy), None));
        }
    }
    Ok(Outcome::None)
}

/// Answers a load, or gives it up where there is no outcome or the answer is refused.
fn settle(service: &mut Service, load: LoadId, outcome: Option<Outcome>, moment: Instant) {
    let answered = match outcome {
        Some(outcome) => service.answer(load, outcome, moment).is_ok(),
        None => false,
    };
    if !answered {
        match service.give_up(load, moment) {
            // It is refused where the load is not under way any more.
            Ok(()) | Err(_) => {}
        }
    }
}

/// Writes the line of the value of the first namespace that left first and was not told yet, if there is one.
pub fn write_notice(service: &mut Service, lines: &mut Vec<u8>) -> Result<(), ServiceError> {
    match service.next_notice(0) {
        Ok(Some(notice)) => write_line(&notice, lines),
        Ok(None) => Ok(()),
        Err(error) => Err(error),
    }
}

/// Writes the line of a notice.
fn write_line(notice: &Notice, lines: &mut Vec<u8>) -> Result<(), ServiceError> {
    match notice.write_to(lines) {
        Ok(()) => Ok(()),
        Err(_) => Err(ServiceError::OutOfMemory),
    }
}

/// What a namespace without limits does with these inputs: a transcript that belongs to them and obeys.
pub fn play_plainly(
    alloc: Global,
    made: Instant,
    inputs: &[Input],
) -> Result<Vec<Transcript>, ServiceError>
    ensures { IfOk result
        (λ transcripts. ArePlayed (PLAIN ∷ []) made inputs.now transcripts.items) }
{
    let generator = Xoshiro256PlusPlus::seed_from_u64(0);
    match play(alloc, &[PLAIN], generator, made, inputs) {
        Ok(transcripts) => Ok(transcripts),
        Err(error) => Err(error),
    }
}

/// What a namespace of two places does with these inputs. Where each command is followed at once by a `SYNC`, it holds the keys of
/// the recency list, cut at two, and no other.
pub fn play_pair(
    alloc: Global,
    made: Instant,
    inputs: &[Input],
) -> Result<Vec<Transcript>, ServiceError>
    ensures { IfOk result (λ transcripts. IfSome (slice_get transcripts.items 0)
        (λ played. KeepsList PAIR 1 played)) }
{
    let generator = Xoshiro256PlusPlus::seed_from_u64(0);
    match play(alloc, &[PAIR], generator, made, inputs) {
        Ok(transcripts) => Ok(transcripts),
        Err(error) => Err(error),
    }
}

/// What a connection of a shared service is written where these bytes come from its client. The seat counts what was taken of it.
pub fn answer_shared<L: Seating, K: Clock, D: Loader>(
    rt: &impl Wait,
    alloc: Global,
    shared: &SharedService<L, Service>,
    seat: &mut Seat<L, Service>,
    text: &[u8],
    clock: &mut K,
    loader: &mut D,
) -> Result<Vec<u8>, RunError>
    requires known { 0 < length L.configs }
    ensures { seat.old.count ≤ seat.new.count }
{
    let mut replies = Vec::new(alloc);
    let mut reader = Watched::new(text);
    let mut writer = Watched::new(&mut replies);
    match serve(
        rt,
        alloc,
        shared,
        seat,
        0,
        &mut reader,
        &mut writer,
        clock,
        loader,
    ) {
        Ok(()) => Ok(replies),
        Err(error) => Err(error),
    }
}

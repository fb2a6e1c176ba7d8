//! What plays rows on a service. What is refused for memory is asked once more, and a line that was held back runs at a piece of nothing;
//! so the rows come out so with any one allocation refused.
use crate::inputs::{feed, input_of, is_back, moment_from};
use crate::rows::{Asked, Case, FIRST, Row, SECOND, Sent, Told, Way};
use audit_model::{Bytes, Closing, Config, Conn, Input, Instant, LoadId, Note, Seq, ServiceError};
use cache_spaces::{Core, LentReplies, Output, RecordedService, Refusal, Service, copy_note};
use rand_core::SeedableRng;
use rand_xoshiro::Xoshiro256PlusPlus;
use std::alloc::Global;

/// What rows are played on.
pub trait Played: Drop {
    /// Whether it keeps journals; then closings and give-ups want memory too.
    fn keeps(&self) -> bool;

    fn step(&mut self, input: Input) -> Result<Output, Refusal>;

    fn take_output(&mut self, conn: Conn) -> Result<Vec<u8>, ServiceError>;

    fn take_loads(&mut self, namespace: u64) -> Result<Vec<(LoadId, Bytes)>, ServiceError>;

    fn next_notice(&mut self, namespace: u64) -> Result<Option<Note>, ServiceError>;

    fn closed(&self, conn: Conn) -> Result<Option<Closing>, ServiceError>;

    fn waiting(&self, conn: Conn) -> Result<bool, ServiceError>;

    fn loads_open(&self, namespace: u64) -> Result<u64, ServiceError>;
}

impl Played for Service {
    fn keeps(&self) -> bool {
        false
    }

    fn step(&mut self, input: Input) -> Result<Output, Refusal> {
        Core::step(self, input)
    }

    fn take_output(&mut self, conn: Conn) -> Result<Vec<u8>, ServiceError> {
        Core::take_output(self, conn)
    }

    fn take_loads(&mut self, namespace: u64) -> Result<Vec<(LoadId, Bytes)>, ServiceError> {
        Core::take_loads(self, namespace)
    }

    fn next_notice(&mut self, namespace: u64) -> Result<Option<Note>, ServiceError> {
        Core::next_notice(self, namespace)
    }

    fn closed(&self, conn: Conn) -> Result<Option<Closing>, ServiceError> {
        Core::closed(self, conn)
    }

    fn waiting(&self, conn: Conn) -> Result<bool, ServiceError> {
        Core::waiting(self, conn)
    }

    fn loads_open(&self, namespace: u64) -> Result<u64, ServiceError> {
        Core::loads_open(self, namespace)
    }
}

impl Played for RecordedService {
    fn keeps(&self) -> bool {
        true
    }

    fn step(&mut self, input: Input) -> Result<Output, Refusal> {
        RecordedService::step(self, input)
    }

    /// What was taken is copied, at the second try where memory is refused.
    fn take_output(&mut self, conn: Conn) -> Result<Vec<u8>, ServiceError> {
        let alloc = *self.allocator();
        match RecordedService::take_output(self, conn) {
            Ok(replies) => copied(alloc, replies),
            Err(error) => Err(error),
        }
    }

    fn take_loads(&mut self, namespace: u64) -> Result<Vec<(LoadId, Bytes)>, ServiceError> {
        RecordedService::take_loads(self, namespace)
    }

    /// What was taken is copied, at the second try where memory is refused.
    fn next_notice(&mut self, namespace: u64) -> Result<Option<Note>, ServiceError> {
        let alloc = *self.allocator();
        match RecordedService::next_notice(self, namespace) {
            Ok(Some(note)) => Ok(Some(copied_note(alloc, note)?)),
            Ok(None) => Ok(None),
            Err(error) => Err(error),
        }
    }

    fn closed(&self, conn: Conn) -> Result<Option<Closing>, ServiceError> {
        self.service().closed(conn)
    }

    fn waiting(&self, conn: Conn) -> Result<bool, ServiceError> {
        self.service().waiting(conn)
    }

    fn loads_open(&self, namespace: u64) -> Result<u64, ServiceError> {
        self.service().loads_open(namespace)
    }
}

/// A copy of replies, at the second try where memory is refused.
fn copied(alloc: Global, replies: LentReplies<'_>) -> Result<Vec<u8>, ServiceError> {
    match replies.to_vec(alloc) {
        Ok(text) => Ok(text),
        Err(_) => match replies.to_vec(alloc) {
            Ok(text) => Ok(text),
            Err(_) => Err(ServiceError::OutOfMemory),
        },
    }
}

/// A copy of a note, at the second try where memory is refused.
fn copied_note(alloc: Global, note: &Note) -> Result<Note, ServiceError> {
    match copy_note(alloc, note) {
        Ok(copy) => Ok(copy),
        Err(_) => match copy_note(alloc, note) {
            Ok(copy) => Ok(copy),
            Err(_) => Err(ServiceError::OutOfMemory),
        },
    }
}

/// What rows are played on, and the moment that it is.
#[derive(Drop)]
struct Stage<S: Played> {
    alloc: Global,
    service: S,
    now: Instant,
}

fn is_output<S: Played>(stage: &mut Stage<S>, conn: Conn, wanted: &[u8]) -> bool {
    match stage.service.take_output(conn) {
        Ok(output) => output.as_slice() == wanted,
        Err(_) => false,
    }
}

/// Whether each byte is an `x`.
fn are_xs(bytes: &[u8]) -> bool {
    for byte in bytes {
        if *byte != b'x' {
            return false;
        }
    }
    true
}

/// Whether a reply is a value of so many bytes.
fn is_long_value(reply: &[u8], length: usize) -> bool {
    match reply {
        [b'V', b'A', b'L', b' ', value @ .., b'\n'] => value.len() == length && are_xs(value),
        _ => false,
    }
}

fn is_long_output<S: Played>(stage: &mut Stage<S>, conn: Conn, length: usize) -> bool {
    match stage.service.take_output(conn) {
        Ok(output) => is_long_value(output.as_slice(), length),
        Err(_) => false,
    }
}

/// Whether neither of the first two connections was replied.
fn is_unreplied<S: Played>(stage: &mut Stage<S>) -> bool {
    is_output(stage, FIRST, b"") && is_output(stage, SECOND, b"")
}

/// Whether so many loads are under way, and neither of the first two connections was replied.
fn is_untold<S: Played>(stage: &mut Stage<S>, open: Result<u64, ServiceError>) -> bool {
    stage.service.loads_open(0) == open && is_unreplied(stage)
}

/// Whether what was refused for memory has changed nothing: where a load was to be settled, so many are under way, and nobody was replied.
/// Closings and give-ups are refused for memory only where journals are kept.
fn is_as_before<S: Played>(
    stage: &mut Stage<S>,
    input: &Input,
    open: Result<u64, ServiceError>,
) -> bool {
    match input {
        Input::Answer { .. } => is_untold(stage, open),
        Input::GiveUp { .. } => stage.service.keeps() && is_untold(stage, open),
        Input::Close { .. } => stage.service.keeps(),
        _ => true,
    }
}

/// Takes an input that was handed back for want of memory.
fn take_again<S: Played>(
    stage: &mut Stage<S>,
    input: Input,
    open: Result<u64, ServiceError>,
) -> Result<Output, Refusal> {
    if is_as_before(stage, &input, open) {
        stage.service.step(input)
    } else {
        Err(Refusal {
            error: ServiceError::OutOfMemory,
            input,
        })
    }
}

/// Takes what was refused again, if that was for want of memory, also for a line that is held back.
fn take_refused<S: Played>(
    stage: &mut Stage<S>,
    refusal: Refusal,
    open: Result<u64, ServiceError>,
) -> Result<Output, Refusal> {
    match refusal.error {
        ServiceError::OutOfMemory | ServiceError::HeldAgain => {
            take_again(stage, refusal.input, open)
        }
        _ => Err(refusal),
    }
}

/// Takes an input, again where memory is refused.
fn take<S: Played>(stage: &mut Stage<S>, input: Input) -> Result<Output, Refusal> {
    let open = stage.service.loads_open(0);
    match stage.service.step(input) {
        Ok(output) => Ok(output),
        Err(refusal) => take_refused(stage, refusal, open),
    }
}

/// Whether that came of it.
fn came(taken: Result<Output, Refusal>, wanted: Output) -> bool {
    match taken {
        Ok(output) => output == wanted,
        Err(_) => false,
    }
}

fn opens<S: Played>(stage: &mut Stage<S>, conn: Conn) -> bool {
    let input = Input::Open {
        namespace: conn.namespace,
    };
    came(take(stage, input), Output::Opened { conn })
}

/// Whether the lines of a piece of nothing run, so one that is held back.
fn runs_held<S: Played>(stage: &mut Stage<S>, conn: Conn) -> bool {
    let nothing = feed(conn, Seq::from_vec(Vec::new(stage.alloc)), stage.now);
    came(stage.service.step(nothing), Output::All)
}

/// Whether all lines of a piece run, one that is held back at a piece of nothing.
fn runs<S: Played>(stage: &mut Stage<S>, conn: Conn, input: Input) -> bool {
    match take(stage, input) {
        Ok(Output::Held) => runs_held(stage, conn),
        Ok(output) => output == Output::All,
        Err(_) => false,
    }
}

/// Whether an input is taken whole.
fn takes<S: Played>(stage: &mut Stage<S>, asked: Asked<'_>, input: Input) -> bool {
    match asked {
        Asked::Feeds(conn, _) => runs(stage, conn, input),
        Asked::Fills(conn, _) => runs(stage, conn, input),
        _ => came(take(stage, input), Output::Done),
    }
}

fn does<S: Played>(stage: &mut Stage<S>, asked: Asked<'_>) -> bool {
    match input_of(stage.alloc, asked, stage.now) {
        Ok(input) => takes(stage, asked, input),
        Err(_) => false,
    }
}

/// Feeds a piece, and answers whether the connection is replied so.
fn says<S: Played>(stage: &mut Stage<S>, conn: Conn, piece: &[u8], replies: &[u8]) -> bool {
    does(stage, Asked::Feeds(conn, piece)) && is_output(stage, conn, replies)
}

/// Whether a line of a piece is held back.
fn holds<S: Played>(stage: &mut Stage<S>, conn: Conn, piece: &[u8]) -> bool {
    match input_of(stage.alloc, Asked::Feeds(conn, piece), stage.now) {
        Ok(input) => came(take(stage, input), Output::Held),
        Err(_) => false,
    }
}

/// Whether an input was refused for that cause, and handed back.
fn is_refused(taken: &Result<Output, Refusal>, asked: Asked<'_>, wanted: ServiceError) -> bool {
    match taken {
        Ok(_) => false,
        Err(refusal) => refusal.error == wanted && is_back(&refusal.input, asked),
    }
}

fn refuses<S: Played>(stage: &mut Stage<S>, asked: Asked<'_>, wanted: ServiceError) -> bool {
    match input_of(stage.alloc, asked, stage.now) {
        Ok(input) => is_refused(&take(stage, input), asked, wanted),
        Err(_) => false,
    }
}

fn is_note(note: &Note, told: Told<'_>) -> bool {
    note.cause == told.0 && note.key.as_slice() == told.1 && note.value.as_slice() == told.2
}

fn is_notice(note: &Option<Note>, wanted: Option<Told<'_>>) -> bool {
    match (note, wanted) {
        (Some(note), Some(told)) => is_note(note, told),
        (None, None) => true,
        _ => false,
    }
}

/// Whether that is the next notice of the first namespace.
fn tells<S: Played>(stage: &mut Stage<S>, wanted: Option<Told<'_>>) -> bool {
    match stage.service.next_notice(0) {
        Ok(note) => is_notice(&note, wanted),
        Err(_) => false,
    }
}

fn is_sent(sent: &(LoadId, Bytes), wanted: Option<&Sent<'_>>) -> bool {
    match wanted {
        Some((load, key)) => sent.0 == *load && sent.1.as_slice() == *key,
        None => false,
    }
}

fn are_sent(loads: &[(LoadId, Bytes)], wanted: &[Sent<'_>]) -> bool {
    for (place, sent) in loads.iter().enumerate() {
        if !is_sent(sent, wanted.get(place)) {
            return false;
        }
    }
    loads.len() == wanted.len()
}

fn sends<S: Played>(stage: &mut Stage<S>, namespace: u64, wanted: &[Sent<'_>]) -> bool {
    match stage.service.take_loads(namespace) {
        Ok(loads) => are_sent(loads.as_slice(), wanted),
        Err(_) => false,
    }
}

/// Whether a load of `k` is the only one that goes out, is given up, and nobody is replied.
fn gives_up_one<S: Played>(stage: &mut Stage<S>, number: u64) -> bool {
    let load = LoadId {
        namespace: 0,
        number,
    };
    sends(stage, 0, &[(load, b"k".as_slice())])
        && does(stage, Asked::GivesUp(load))
        && is_unreplied(stage)
}

fn gives_up_each<S: Played>(stage: &mut Stage<S>, first: u64, end: u64) -> bool {
    for number in first..end {
        if !gives_up_one(stage, number) {
            return false;
        }
    }
    true
}

/// Why a taking was refused, if it was.
fn error_of<T: Drop>(taken: Result<T, ServiceError>) -> Option<ServiceError> {
    match taken {
        Ok(_) => None,
        Err(error) => Some(error),
    }
}

/// Whether nothing is known of a connection.
fn is_unknown<S: Played>(stage: &mut Stage<S>, conn: Conn, wanted: ServiceError) -> bool {
    stage.service.closed(conn) == Err(wanted)
        && stage.service.waiting(conn) == Err(wanted)
        && error_of(stage.service.take_output(conn)) == Some(wanted)
}

/// Whether nothing is taken of a namespace that is none.
fn is_no_namespace<S: Played>(stage: &mut Stage<S>, namespace: u64) -> bool {
    stage.service.loads_open(namespace) == Err(ServiceError::NoNamespace)
        && error_of(stage.service.take_loads(namespace)) == Some(ServiceError::NoNamespace)
        && error_of(stage.service.next_notice(namespace)) == Some(ServiceError::NoNamespace)
}

fn has_open<S: Played>(stage: &Stage<S>, namespace: u64, count: u64) -> bool {
    stage.service.loads_open(namespace) == Ok(count)
}

fn waits<S: Played>(stage: &Stage<S>, conn: Conn, wanted: bool) -> bool {
    stage.service.waiting(conn) == Ok(wanted)
}

fn is_closed<S: Played>(stage: &Stage<S>, conn: Conn, wanted: Option<Closing>) -> bool {
    stage.service.closed(conn) == Ok(wanted)
}

/// Looks at a namespace, or takes what came of it, and answers whether it is so.
fn is_so_of_all<S: Played>(stage: &mut Stage<S>, row: Row<'_>) -> bool {
    match row {
        Row::Tells(cause, key, value) => tells(stage, Some((cause, key, value))),
        Row::TellsNone => tells(stage, None),
        Row::Sends(namespace, wanted) => sends(stage, namespace, wanted),
        Row::LoadsOpen(namespace, count) => has_open(stage, namespace, count),
        Row::NoNamespace(namespace) => is_no_namespace(stage, namespace),
        _ => false,
    }
}

/// Looks at a connection, or takes what came of it, and answers whether it is so.
fn is_so<S: Played>(stage: &mut Stage<S>, row: Row<'_>) -> bool {
    match row {
        Row::Output(conn, wanted) => is_output(stage, conn, wanted),
        Row::OutputLong(conn, length) => is_long_output(stage, conn, length),
        Row::Waits(conn, wanted) => waits(stage, conn, wanted),
        Row::Closed(conn, wanted) => is_closed(stage, conn, wanted),
        Row::Unknown(conn, wanted) => is_unknown(stage, conn, wanted),
        row => is_so_of_all(stage, row),
    }
}

/// Asks, and answers whether it came out so.
fn comes_so<S: Played>(stage: &mut Stage<S>, row: Row<'_>) -> bool {
    match row {
        Row::At(nanos) => stage.now.nanos == nanos,
        Row::Opens(conn) => opens(stage, conn),
        Row::Says(conn, piece, replies) => says(stage, conn, piece, replies),
        Row::Holds(conn, piece) => holds(stage, conn, piece),
        Row::Does(asked) => does(stage, asked),
        Row::Refuses(asked, wanted) => refuses(stage, asked, wanted),
        Row::GivesUpEach(first, end) => gives_up_each(stage, first, end),
        row => is_so(stage, row),
    }
}

/// A connection of the first namespace.
fn conn_of(number: u64) -> Conn {
    Conn {
        namespace: 0,
        number,
    }
}

/// The row of one of many connections.
fn row_of<'a>(conn: Conn, way: Way<'a>) -> Row<'a> {
    match way {
        Way::Says(piece, replies) => Row::Says(conn, piece, replies),
        Way::Fills(length) => Row::Does(Asked::Fills(conn, length)),
        Way::Closes => Row::Does(Asked::Closes(conn)),
        Way::Closed(wanted) => Row::Closed(conn, wanted),
    }
}

fn opens_all<S: Played>(stage: &mut Stage<S>, count: u64) -> bool {
    for number in 1..=count {
        if !opens(stage, conn_of(number)) {
            return false;
        }
    }
    true
}

/// Whether it comes out so for each connection up to a number whose own number leaves this rest by five.
fn each_comes_so<S: Played>(stage: &mut Stage<S>, rest: u64, count: u64, way: Way<'_>) -> bool {
    for number in 1..=count {
        if number % 5 == rest && !comes_so(stage, row_of(conn_of(number), way)) {
            return false;
        }
    }
    true
}

/// Asks one connection, or many, and answers whether it came out so.
fn all_come_so<S: Played>(stage: &mut Stage<S>, row: Row<'_>) -> bool {
    match row {
        Row::OpensAll(count) => opens_all(stage, count),
        Row::EachFifth(rest, count, way) => each_comes_so(stage, rest, count, way),
        row => comes_so(stage, row),
    }
}

/// Asks one row after another, and answers the place of the first that did not come out so.
fn first_wrong_of<S: Played>(stage: &mut Stage<S>, rows: &[Row<'_>]) -> Option<usize> {
    for (place, row) in rows.iter().enumerate() {
        stage.now = moment_from(*row, stage.now);
        if !all_come_so(stage, *row) {
            return Some(place);
        }
    }
    None
}

/// Plays the rows of a case on a service that was made for it, and hands it back; or the place of the first that did not come out so.
pub fn play_on<S: Played>(alloc: Global, service: S, case: Case<'_>) -> Result<S, usize> {
    let now = Instant { nanos: case.made };
    let mut stage = Stage {
        alloc,
        service,
        now,
    };
    match first_wrong_of(&mut stage, case.rows) {
        Some(place) => Err(place),
        None => {
            let Stage { service, .. } = stage;
            Ok(service)
        }
    }
}

/// A generator.
pub fn generator() -> Xoshiro256PlusPlus {
    Xoshiro256PlusPlus::seed_from_u64(1)
}

/// A service, at the second try where memory is refused.
pub fn new_service(alloc: Global, configs: &[Config], made: u64) -> Result<Service, ServiceError> {
    let moment = Instant { nanos: made };
    match Service::new(alloc, configs, generator(), moment) {
        Err(ServiceError::OutOfMemory) => Service::new(alloc, configs, generator(), moment),
        made => made,
    }
}

/// One that keeps journals, at the second try where memory is refused.
pub fn new_recorded(
    alloc: Global,
    configs: &[Config],
    made: u64,
) -> Result<RecordedService, ServiceError> {
    let moment = Instant { nanos: made };
    match RecordedService::new(alloc, configs, generator(), moment) {
        Err(ServiceError::OutOfMemory) => {
            RecordedService::new(alloc, configs, generator(), moment)
        }
        made => made,
    }
}

/// The place of the first row that does not come out so on a service; the first where none can be made.
fn wrong_of_service(alloc: Global, case: Case<'_>) -> Option<usize> {
    match new_service(alloc, case.configs, case.made) {
        Ok(service) => play_on(alloc, service, case).err(),
        Err(_) => Some(0),
    }
}

/// The same of one that keeps journals.
fn wrong_of_recorded(alloc: Global, case: Case<'_>) -> Option<usize> {
    match new_recorded(alloc, case.configs, case.made) {
        Ok(recorded) => play_on(alloc, recorded, case).err(),
        Err(_) => Some(0),
    }
}

/// The place of the first row that does not come out so on both.
pub fn wrong_row(alloc: Global, case: Case<'_>) -> Option<usize> {
    match wrong_of_service(alloc, case) {
        None => wrong_of_recorded(alloc, case),
        wrong => wrong,
    }
}

/// The same of a service of one namespace that was made at 0.
fn wrong_row_of_one(alloc: Global, config: Config, rows: &[Row<'_>]) -> Option<usize> {
    let configs = [config];
    wrong_row(
        alloc,
        Case {
            configs: &configs,
            made: 0,
            rows,
        },
    )
}

/// Of these configurations and what is asked of a service of each, the place of the first and of its first row that does not come out so.
pub fn first_wrong(alloc: Global, tables: &[(Config, &[Row<'_>])]) -> Option<(usize, usize)> {
    for (place, (config, rows)) in tables.iter().enumerate() {
        if let Some(row) = wrong_row_of_one(alloc, *config, rows) {
            return Some((place, row));
        }
    }
    None
}

/// The same at a second try, for rows that come out otherwise where a line is held back for want of memory.
pub fn first_wrong_at_last(
    alloc: Global,
    tables: &[(Config, &[Row<'_>])],
) -> Option<(usize, usize)> {
    match first_wrong(alloc, tables) {
        Some(_) => first_wrong(alloc, tables),
        None => None,
    }
}

//! What a service refuses, in which order, and what stands after it.
use crate::playing::{first_wrong, generator, new_recorded, new_service};
use crate::rows::{
    Asked, ELSEWHERE, FIRST, FIRST_LOAD, Given, LATE, PLAIN, Row, SECOND, no_row_wrong, none_wrong,
};
use audit_model::{Closing, Config, Instant, LoadId, ServiceError};
use cache_spaces::play;
use std::alloc::Global;

/// The last moment that is taken, in nanoseconds.
const LAST: u64 = (1 << 63) - 1;

/// Why a service is refused, if it is.
fn refused_service(alloc: Global, configs: &[Config], made: u64) -> Option<ServiceError> {
    match new_service(alloc, configs, made) {
        Ok(_) => None,
        Err(error) => Some(error),
    }
}

/// The same of one that keeps journals.
fn refused_recorded(alloc: Global, configs: &[Config], made: u64) -> Option<ServiceError> {
    match new_recorded(alloc, configs, made) {
        Ok(_) => None,
        Err(error) => Some(error),
    }
}

/// How many transcripts there are where nothing is played, or why the service is refused.
fn count_played(alloc: Global, configs: &[Config], made: u64) -> Result<usize, ServiceError> {
    match play(alloc, configs, generator(), Instant { nanos: made }, &[]) {
        Ok(transcripts) => Ok(transcripts.len()),
        Err(error) => Err(error),
    }
}

/// The same, at the second try where memory is refused.
fn count_at_last(alloc: Global, configs: &[Config], made: u64) -> Result<usize, ServiceError> {
    match count_played(alloc, configs, made) {
        Err(ServiceError::OutOfMemory) => count_played(alloc, configs, made),
        counted => counted,
    }
}

/// The same of one that is played; one that is made has a transcript for each namespace.
fn refused_play(alloc: Global, configs: &[Config], made: u64) -> Option<ServiceError> {
    match count_at_last(alloc, configs, made) {
        Ok(count) if count == configs.len() => None,
        Ok(_) => Some(ServiceError::OutOfMemory),
        Err(error) => Some(error),
    }
}

/// Whether each of the three is refused so, or made.
fn is_refused(alloc: Global, configs: &[Config], made: u64, wanted: Option<ServiceError>) -> bool {
    refused_service(alloc, configs, made) == wanted
        && refused_recorded(alloc, configs, made) == wanted
        && refused_play(alloc, configs, made) == wanted
}

const OUT_OF_RANGE: &[Config] = &[
    Config { parts: 0, ..PLAIN },
    Config {
        parts: 257,
        ..PLAIN
    },
    Config {
        live_ms: Some(0),
        ..PLAIN
    },
    Config {
        idle_ms: Some(1_000_000_000_000),
        ..PLAIN
    },
    Config {
        own_deadlines: true,
        live_ms: Some(1),
        ..PLAIN
    },
];

/// Whether a configuration is refused, beside another one too, and at a moment that is none.
fn is_out_of_range(alloc: Global, config: Config) -> bool {
    is_refused(alloc, &[config], 0, Some(ServiceError::Config))
        && is_refused(alloc, &[PLAIN, config], 0, Some(ServiceError::Config))
        && is_refused(alloc, &[config], LATE, Some(ServiceError::Moment))
}

/// The place of the first that is taken somewhere.
fn first_taken(alloc: Global, configs: &[Config]) -> Option<usize> {
    for (place, config) in configs.iter().enumerate() {
        if !is_out_of_range(alloc, *config) {
            return Some(place);
        }
    }
    None
}

#[test]
fn configurations_out_of_range(rt: HostRuntime) {
    no_row_wrong(&rt, first_taken(rt.alloc(), OUT_OF_RANGE));
}

const LONGEST: Config = Config {
    own_deadlines: true,
    idle_ms: Some(999_999_999_999),
    ..PLAIN
};

/// Configurations, a moment, and why a service of them is refused, if it is: 1 to 16 namespaces are taken, and the last of their ranges.
const MAKINGS: &[(&[Config], u64, Option<ServiceError>)] = &[
    (&[], 0, Some(ServiceError::Config)),
    (&[], LATE, Some(ServiceError::Moment)),
    (&[PLAIN], 7, None),
    (&[PLAIN; 16], 0, None),
    (&[PLAIN; 17], 0, Some(ServiceError::Config)),
    (&[LONGEST], LAST, None),
];

/// The place of the first that does not come out so.
fn first_wrong_making(alloc: Global) -> Option<usize> {
    for (place, (configs, made, wanted)) in MAKINGS.iter().enumerate() {
        if !is_refused(alloc, configs, *made, *wanted) {
            return Some(place);
        }
    }
    None
}

#[test]
fn numbers_of_namespaces(rt: HostRuntime) {
    no_row_wrong(&rt, first_wrong_making(rt.alloc()));
}

const SYNC: Asked<'static> = Asked::Feeds(FIRST, b"SYNC\n");

const CONNECTIONS: &[Row<'static>] = &[
    Row::Opens(FIRST),
    Row::Refuses(Asked::Opens(1), ServiceError::NoNamespace),
    Row::At(LATE),
    Row::Refuses(
        Asked::Feeds(ELSEWHERE, b"SYNC\n"),
        ServiceError::NoNamespace,
    ),
    Row::Refuses(Asked::Feeds(SECOND, b"SYNC\n"), ServiceError::NoConnection),
    Row::Refuses(SYNC, ServiceError::Moment),
    Row::At(LAST),
    Row::Does(SYNC),
    Row::Refuses(Asked::Closes(SECOND), ServiceError::NoConnection),
    Row::Refuses(Asked::Closes(ELSEWHERE), ServiceError::NoNamespace),
    Row::Does(Asked::Closes(FIRST)),
    Row::Refuses(Asked::Closes(FIRST), ServiceError::Closed),
    Row::At(LATE),
    Row::Refuses(SYNC, ServiceError::Closed),
    Row::Closed(FIRST, Some(Closing::Asked)),
    Row::Unknown(SECOND, ServiceError::NoConnection),
    Row::Unknown(ELSEWHERE, ServiceError::NoNamespace),
    Row::Output(FIRST, b"SYNC 0 0\n"),
    Row::Output(FIRST, b""),
    Row::NoNamespace(1),
];

const AN_EARLIER_MOMENT_IS_THE_LATEST: &[Row<'static>] = &[
    Row::Opens(FIRST),
    Row::At(LAST),
    Row::Does(SYNC),
    Row::At(0),
    Row::Does(SYNC),
];

const LOAD_ELSEWHERE: LoadId = LoadId {
    namespace: 1,
    number: 1,
};

const LOADS_THAT_ARE_NOT_UNDER_WAY: &[Row<'static>] = &[
    Row::LoadsOpen(0, 0),
    Row::Sends(0, &[]),
    Row::Refuses(Asked::GivesUp(FIRST_LOAD), ServiceError::NoLoad),
    Row::Refuses(Asked::GivesUp(LOAD_ELSEWHERE), ServiceError::NoNamespace),
    Row::Refuses(
        Asked::Answers(FIRST_LOAD, Given::Nothing),
        ServiceError::NoLoad,
    ),
];

const TABLES: &[(Config, &[Row<'static>])] = &[
    (PLAIN, CONNECTIONS),
    (PLAIN, AN_EARLIER_MOMENT_IS_THE_LATEST),
    (PLAIN, LOADS_THAT_ARE_NOT_UNDER_WAY),
];

#[test]
fn refused_inputs(rt: HostRuntime) {
    none_wrong(&rt, first_wrong(rt.alloc(), TABLES));
}

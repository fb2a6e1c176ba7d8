//! What stands in journals: of a service that keeps them, and of what is played.
use crate::inputs::inputs_of;
use crate::playing::{generator, new_recorded, play_on};
use crate::rows::{
    Asked, Case, ELSEWHERE, FIRST, FIRST_LOAD, Given, LATE, PLAIN, Row, SECOND, no_row_wrong,
};
use audit_model::{Bytes, Event, Input, Instant, Record, ServiceError, Step, Transcript};
use cache_spaces::{RecordedService, play};
use std::alloc::Global;

/// A step: its connection's number, its line, its reply, empty where it has none yet, and how many notices it has.
type Done<'a> = (u64, &'a [u8], &'a [u8], usize);

/// The steps of each record of a journal.
type Records<'a> = &'a [&'a [Done<'a>]];

/// The moment up to which a journal comes, and its records.
type Wanted<'a> = (u64, Records<'a>);

/// What is asked, and the journal of each namespace.
struct Kept<'a> {
    case: Case<'a>,
    journals: &'a [Wanted<'a>],
}

/// Whether these are the bytes.
fn is_text(bytes: &Option<Bytes>, text: &[u8]) -> bool {
    match bytes {
        Some(bytes) => bytes.as_slice() == text,
        None => text.is_empty(),
    }
}

/// Whether a step came to this.
fn is_done(step: &Step, done: Option<&Done<'_>>) -> bool {
    match done {
        Some((conn, line, reply, notices)) => {
            step.conn == *conn
                && step.line.as_slice() == *line
                && is_text(&step.reply, reply)
                && step.notices.len() == *notices
        }
        None => false,
    }
}

/// Whether a record's steps came to these.
fn are_done(steps: &[Step], done: &[Done<'_>]) -> bool {
    for (place, step) in steps.iter().enumerate() {
        if !is_done(step, done.get(place)) {
            return false;
        }
    }
    steps.len() == done.len()
}

/// Whether a record's steps came to these, if there are any to come to.
fn is_record(record: &Record, done: Option<&&[Done<'_>]>) -> bool {
    match done {
        Some(done) => are_done(record.steps.as_slice(), done),
        None => false,
    }
}

/// Whether the steps of a journal's records came to these.
fn are_records(records: &[Record], done: Records<'_>) -> bool {
    for (place, record) in records.iter().enumerate() {
        if !is_record(record, done.get(place)) {
            return false;
        }
    }
    records.len() == done.len()
}

/// A record's moment, which is 0 where its event has none.
fn moment_of(record: &Record) -> u64 {
    match &record.event {
        Event::Feed { moment, .. } | Event::Answer { moment, .. } | Event::GiveUp { moment, .. } =>
            moment.nanos,
        _ => 0,
    }
}

/// The greatest of the moment at which a journal begins and those of its records.
fn latest_of(journal: &Transcript) -> u64 {
    let mut latest = journal.made.nanos;
    for record in journal.records.as_slice() {
        latest = latest.max(moment_of(record));
    }
    latest
}

/// Whether a journal begins at one moment and comes up to the other, and its records' steps came to these.
fn is_journal(journal: &Transcript, made: u64, wanted: Wanted<'_>) -> bool {
    journal.made.nanos == made
        && latest_of(journal) == wanted.0
        && are_records(journal.records.as_slice(), wanted.1)
}

/// Whether that is the journal of a namespace.
fn is_kept(journal: &Transcript, namespace: usize, kept: &Kept<'_>) -> bool {
    match kept.journals.get(namespace) {
        Some(wanted) => is_journal(journal, kept.case.made, *wanted),
        None => false,
    }
}

fn are_journals(journals: &[Transcript], kept: &Kept<'_>) -> bool {
    for (namespace, journal) in journals.iter().enumerate() {
        if !is_kept(journal, namespace, kept) {
            return false;
        }
    }
    journals.len() == kept.journals.len()
}

/// Whether a namespace has its journal.
fn has_journal(recorded: &RecordedService, namespace: usize, kept: &Kept<'_>) -> bool {
    match recorded.journal(namespace as u64) {
        Ok(journal) => is_kept(journal, namespace, kept),
        Err(_) => false,
    }
}

/// Whether each namespace has its journal.
fn has_journals(recorded: &RecordedService, kept: &Kept<'_>) -> bool {
    for namespace in 0..kept.journals.len() {
        if !has_journal(recorded, namespace, kept) {
            return false;
        }
    }
    true
}

/// Whether a namespace that is none has no journal.
fn ends_at(recorded: &RecordedService, namespaces: usize) -> bool {
    match recorded.journal(namespaces as u64) {
        Ok(_) => false,
        Err(error) => error == ServiceError::NoNamespace,
    }
}

/// Whether each namespace has its journal, and a namespace that is none has none.
fn has_all(recorded: &RecordedService, kept: &Kept<'_>) -> bool {
    has_journals(recorded, kept) && ends_at(recorded, kept.journals.len())
}

/// Whether the journals are kept, and are the same when they are moved out.
fn has_kept(recorded: RecordedService, kept: &Kept<'_>) -> bool {
    let lends = has_all(&recorded, kept);
    are_journals(recorded.into_journals().as_slice(), kept) && lends
}

/// Whether the rows come out so on a service that keeps journals, and these are kept.
fn keeps_on(alloc: Global, recorded: RecordedService, kept: &Kept<'_>) -> bool {
    match play_on(alloc, recorded, kept.case) {
        Ok(recorded) => has_kept(recorded, kept),
        Err(_) => false,
    }
}

/// The same of a new one.
fn keeps(alloc: Global, kept: &Kept<'_>) -> bool {
    match new_recorded(alloc, kept.case.configs, kept.case.made) {
        Ok(recorded) => keeps_on(alloc, recorded, kept),
        Err(_) => false,
    }
}

/// Whether these inputs, of which refused ones are left out, come to the journals.
fn comes_to(alloc: Global, inputs: &[Input], kept: &Kept<'_>) -> bool {
    let moment = Instant {
        nanos: kept.case.made,
    };
    match play(alloc, kept.case.configs, generator(), moment, inputs) {
        Ok(transcripts) => are_journals(transcripts.as_slice(), kept),
        Err(_) => false,
    }
}

/// Whether what is asked is played so.
fn plays(alloc: Global, kept: &Kept<'_>) -> bool {
    let moment = Instant {
        nanos: kept.case.made,
    };
    match inputs_of(alloc, moment, kept.case.rows) {
        Ok(inputs) => comes_to(alloc, inputs.as_slice(), kept),
        Err(_) => false,
    }
}

/// Whether it is kept and played so.
fn is_right(alloc: Global, kept: &Kept<'_>) -> bool {
    keeps(alloc, kept) && plays(alloc, kept)
}

/// The place of the first that is not kept or not played so, at the second try where memory is refused.
fn first_wrong(alloc: Global, all: &[Kept<'_>]) -> Option<usize> {
    for (place, kept) in all.iter().enumerate() {
        if !is_right(alloc, kept) && !is_right(alloc, kept) {
            return Some(place);
        }
    }
    None
}

const KEPT: &[Kept<'static>] = &[
    // Two namespaces at different moments.
    Kept {
        case: Case {
            configs: &[PLAIN, PLAIN],
            made: 0,
            rows: &[
                Row::Opens(FIRST),
                Row::Opens(ELSEWHERE),
                Row::At(5),
                Row::Says(FIRST, b"SET a - 1\n", b"OK\n"),
                Row::At(3),
                Row::Says(ELSEWHERE, b"GET a\n", b"NONE\n"),
                Row::At(5),
                Row::Says(FIRST, b"GET a\n", b"VAL 1\n"),
                Row::Does(Asked::Closes(ELSEWHERE)),
                Row::NoNamespace(2),
            ],
        },
        journals: &[
            (
                5,
                &[
                    &[],
                    &[(1, b"SET a - 1", b"OK\n", 0)],
                    &[(1, b"GET a", b"VAL 1\n", 0)],
                ],
            ),
            (3, &[&[], &[(1, b"GET a", b"NONE\n", 0)], &[]]),
        ],
    },
    // Inputs for what is not open, of a namespace that is none, at a moment that is none, and of loads that are not under way are left out.
    Kept {
        case: Case {
            configs: &[PLAIN],
            made: 7,
            rows: &[
                Row::Refuses(Asked::Feeds(FIRST, b"GET a\n"), ServiceError::NoConnection),
                Row::Opens(FIRST),
                Row::Refuses(Asked::Opens(1), ServiceError::NoNamespace),
                Row::Says(FIRST, b"SET a - 1\nGE", b"OK\n"),
                Row::At(LATE),
                Row::Refuses(Asked::Feeds(FIRST, b"T a\n"), ServiceError::Moment),
                Row::At(7),
                Row::Says(FIRST, b"T a\nSET a - 2\n", b"VAL 1\nOK\n"),
                Row::Refuses(
                    Asked::Answers(FIRST_LOAD, Given::Nothing),
                    ServiceError::NoLoad,
                ),
                Row::Refuses(Asked::GivesUp(FIRST_LOAD), ServiceError::NoLoad),
                Row::Does(Asked::Closes(FIRST)),
                Row::Refuses(Asked::Closes(FIRST), ServiceError::Closed),
                Row::Refuses(Asked::Feeds(FIRST, b"GET a\n"), ServiceError::Closed),
            ],
        },
        journals: &[(
            7,
            &[
                &[],
                &[(1, b"SET a - 1", b"OK\n", 0)],
                &[(1, b"GET a", b"VAL 1\n", 0), (1, b"SET a - 2", b"OK\n", 1)],
                &[],
            ],
        )],
    },
    // Who waits for a load is answered in order.
    Kept {
        case: Case {
            configs: &[PLAIN],
            made: 0,
            rows: &[
                Row::Opens(FIRST),
                Row::Opens(SECOND),
                Row::Says(FIRST, b"LOAD k\n", b""),
                Row::Says(SECOND, b"LOAD k\n", b""),
                Row::Does(Asked::Answers(FIRST_LOAD, Given::Value(b"v", None))),
            ],
        },
        journals: &[(
            0,
            &[
                &[],
                &[],
                &[(1, b"LOAD k", b"", 0)],
                &[(2, b"LOAD k", b"", 0)],
                &[(1, b"LOAD k", b"VAL v\n", 0), (2, b"LOAD k", b"VAL v\n", 0)],
            ],
        )],
    },
    // A refused input leaves no record.
    Kept {
        case: Case {
            configs: &[PLAIN],
            made: 0,
            rows: &[
                Row::Refuses(Asked::GivesUp(FIRST_LOAD), ServiceError::NoLoad),
                Row::LoadsOpen(0, 0),
            ],
        },
        journals: &[(0, &[])],
    },
];

#[test]
fn journals(rt: HostRuntime) {
    no_row_wrong(&rt, first_wrong(rt.alloc(), KEPT));
}

/// How many records stand in the one transcript.
fn count_in(transcripts: &[Transcript]) -> Option<usize> {
    match transcripts {
        [transcript] => Some(transcript.records.len()),
        _ => None,
    }
}

/// The same of these inputs; none where there is no memory for the service.
fn count_recorded(alloc: Global, inputs: &[Input]) -> Option<usize> {
    match play(alloc, &[PLAIN], generator(), Instant { nanos: 7 }, inputs) {
        Ok(transcripts) => count_in(transcripts.as_slice()),
        Err(_) => None,
    }
}

/// The same of two openings.
fn count_openings(alloc: Global) -> Option<usize> {
    let openings = [Input::Open { namespace: 0 }, Input::Open { namespace: 0 }];
    count_recorded(alloc, &openings)
}

/// Whether both openings are recorded, at the second try where one was left out for want of memory.
fn records_both(alloc: Global) -> bool {
    match count_openings(alloc) {
        Some(2) => true,
        Some(0 | 1) | None => count_openings(alloc) == Some(2),
        Some(_) => false,
    }
}

#[test]
fn an_input_without_memory_is_left_out(rt: HostRuntime) {
    assert!(rt; records_both(rt.alloc()));
}

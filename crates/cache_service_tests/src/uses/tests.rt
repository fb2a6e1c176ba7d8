//! What the uses come to.
use crate::uses::{PLAIN, ask_once, example, load_rows, play_pair, play_plainly, write_notice};
use cache_service::model::{Bytes, Input, Instant, Record, Seq, Transcript};
use cache_service::{Conn, Service, ServiceError};
use rand_core::SeedableRng;
use rand_xoshiro::Xoshiro256PlusPlus;
use std::alloc::{AllocError, Global};

const START: Instant = Instant { nanos: 0 };

const CONN: Conn = Conn {
    namespace: 0,
    number: 1,
};

fn new_service(alloc: Global) -> Result<Service, ServiceError> {
    Service::new(alloc, &[PLAIN], Xoshiro256PlusPlus::seed_from_u64(1), START)
}

/// Whether those are the bytes.
fn is_text(text: Result<Vec<u8>, ServiceError>, wanted: &[u8]) -> bool {
    match text {
        Ok(text) => text.as_slice() == wanted,
        Err(_) => false,
    }
}

fn replies(service: &mut Service, lines: &[u8], wanted: &[u8]) -> bool {
    is_text(ask_once(service, lines, START), wanted)
}

/// Whether one connection finds what another stored.
fn finds(service: &mut Service) -> bool {
    let lines = b"GET session:7\nGET session:8\n";
    replies(service, b"SET session:7 - ada\n", b"OK\n")
        && replies(service, lines, b"VAL ada\nNONE\n")
}

/// The same in a new service.
fn finds_what_is_stored(alloc: Global) -> bool {
    match new_service(alloc) {
        Ok(mut service) => finds(&mut service),
        Err(_) => false,
    }
}

#[test]
fn replies_of_connections(rt: HostRuntime) {
    assert!(rt; finds_what_is_stored(rt.alloc()) || finds_what_is_stored(rt.alloc()));
}

/// Whether the one value that a write replaced is told, and told once.
fn tells(service: &mut Service, lines: &mut Vec<u8>) -> bool {
    replies(service, b"SET a - 1\nSET a - 2\n", b"OK\nOK\n")
        && write_notice(service, lines).is_ok()
        && write_notice(service, lines).is_ok()
        && lines.as_slice() == b"NOTE Replaced a 1\n".as_slice()
}

/// The same in a new service.
fn tells_what_is_replaced(alloc: Global) -> bool {
    let mut lines = Vec::new(alloc);
    match new_service(alloc) {
        Ok(mut service) => tells(&mut service, &mut lines),
        Err(_) => false,
    }
}

#[test]
fn a_value_that_is_replaced_is_told(rt: HostRuntime) {
    assert!(rt; tells_what_is_replaced(rt.alloc()) || tells_what_is_replaced(rt.alloc()));
}

const ROWS: &[(&[u8], &[u8])] = &[(b"session:7", b"ada")];

/// Whether the loads that have gone out are settled by the rows, and the connection is then replied so.
fn loads(alloc: Global, service: &mut Service, wanted: &[u8]) -> bool {
    load_rows(alloc, service, ROWS, START).is_ok() && is_text(service.take_output(CONN), wanted)
}

fn loads_each(alloc: Global, service: &mut Service) -> bool {
    let lines = b"LOAD session:7\nGET session:7\nLOAD session:8\n";
    service.open(0) == Ok(CONN)
        && service.feed(CONN, lines, START).is_ok()
        && loads(alloc, service, b"VAL ada\nVAL ada\n")
        && loads(alloc, service, b"NONE\n")
}

/// Whether a connection is replied what the rows have, and nothing where they have none.
fn loads_what_rows_have(alloc: Global) -> bool {
    match new_service(alloc) {
        Ok(mut service) => loads_each(alloc, &mut service),
        Err(_) => false,
    }
}

#[test]
fn rows_that_are_loaded(rt: HostRuntime) {
    assert!(rt; loads_what_rows_have(rt.alloc()) || loads_what_rows_have(rt.alloc()));
}

/// Whether one record stands in the one transcript.
fn is_one_record(transcripts: &[Transcript]) -> bool {
    match transcripts {
        [transcript] => transcript.records.len() == 1,
        _ => false,
    }
}

/// Whether these inputs come to that.
fn come_to_one_record(alloc: Global, inputs: &[Input]) -> bool {
    match play_plainly(alloc, START, inputs) {
        Ok(transcripts) => is_one_record(transcripts.as_slice()),
        Err(_) => false,
    }
}

/// Whether a connection's opening stands in the one transcript.
fn records_an_opening(alloc: Global) -> bool {
    let inputs = [Input::Open { namespace: 0 }];
    come_to_one_record(alloc, &inputs)
}

#[test]
fn a_transcript(rt: HostRuntime) {
    assert!(rt; records_an_opening(rt.alloc()) || records_an_opening(rt.alloc()));
}

/// Whether that is a line's reply.
fn is_reply(reply: &Option<Bytes>, wanted: &[u8]) -> bool {
    match reply {
        Some(reply) => reply.as_slice() == wanted,
        None => false,
    }
}

/// Whether the last line of a record is replied so.
fn ends_with(record: &Record, wanted: &[u8]) -> bool {
    match record.steps.as_slice() {
        [.., step] => is_reply(&step.reply, wanted),
        [] => false,
    }
}

/// Whether the last line of the last record of the one transcript is replied so.
fn end_with(transcripts: &[Transcript], wanted: &[u8]) -> bool {
    match transcripts {
        [transcript] => match transcript.records.as_slice() {
            [.., record] => ends_with(record, wanted),
            [] => false,
        },
        _ => false,
    }
}

fn copied(alloc: Global, text: &[u8]) -> Result<Bytes, AllocError> {
    match Vec::from_slice(alloc, text) {
        Ok(copy) => Ok(Seq::from_vec(copy)),
        Err(error) => Err(error),
    }
}

/// Whether the last of these inputs' lines is replied so in a namespace of two places.
fn pair_ends_with(alloc: Global, inputs: &[Input], wanted: &[u8]) -> bool {
    match play_pair(alloc, START, inputs) {
        Ok(transcripts) => end_with(transcripts.as_slice(), wanted),
        Err(_) => false,
    }
}

/// Whether the last line of a connection's piece is replied so there.
fn piece_ends_with(alloc: Global, piece: Bytes, wanted: &[u8]) -> bool {
    let inputs = [
        Input::Open { namespace: 0 },
        Input::Feed {
            conn: CONN,
            piece,
            moment: START,
        },
    ];
    pair_ends_with(alloc, &inputs, wanted)
}

/// Whether of three keys, of which the first was used again, the second is the one that a namespace of two places does not hold.
fn keeps_the_last_two(alloc: Global) -> bool {
    let lines = b"SET a - 1\nSYNC\nSET b - 2\nSYNC\nGET a\nSYNC\nSET c - 3\nSYNC\nKEYS\n";
    match copied(alloc, lines) {
        Ok(piece) => piece_ends_with(alloc, piece, b"KEYS 2\na\nc\n"),
        Err(_) => false,
    }
}

#[test]
fn the_least_recently_used_leaves(rt: HostRuntime) {
    assert!(rt; keeps_the_last_two(rt.alloc()) || keeps_the_last_two(rt.alloc()));
}

/// Whether the example of the README is replied as the protocol says.
fn answers_example(alloc: Global) -> bool {
    match example::replies(alloc) {
        Ok(text) => text.as_slice() == b"OK\nVAL 1\nNONE\nYES\n".as_slice(),
        Err(_) => false,
    }
}

#[test]
fn example_of_the_readme(rt: HostRuntime) {
    assert!(rt; answers_example(rt.alloc()) || answers_example(rt.alloc()));
}

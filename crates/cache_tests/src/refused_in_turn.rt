//! Calls whose requests for memory are refused one after the other: what stands after each refusal, and that the same call gives
//! its answer once there is memory.
//!
//! A test asks for a block of `ARMS` and so many bytes, and in the end for one of `ARMS` alone, which nothing else asks for.
//! `tools/refuse_allocations.py --between` refuses these, and of the requests behind the first the one of that number alone.
//! Otherwise these are requests like any other, and the call is tried once.
use crate::inputs::input_of;
use crate::playing::{Played, new_service, play_on};
use crate::rows::{
    Asked, Case, FIRST, FIRST_LOAD, Given, PLAIN, Row, SECOND, SECOND_LOAD, no_row_wrong,
    none_wrong,
};
use audit_model::{Config, Conn, Instant, ServiceError};
use cache_spaces::{Output, Refusal};
use std::alloc::Global;

const ARMS: usize = 21_000;

/// No call that is tried makes so many requests.
const MOST: usize = 200;

/// Has the request of that number refused, or none from here on if it is 0. Returns whether requests are refused at all.
fn arm(alloc: Global, number: usize) -> bool {
    Vec::<u8>::with_capacity(alloc, ARMS.saturating_add(number)).is_err()
}

/// A call, and what stands before and after it.
#[derive(Clone, Copy)]
struct Call<'a> {
    config: Config,
    before: &'a [Row<'a>],
    asked: Asked<'a>,
    /// Once it was refused.
    refused: &'a [Row<'a>],
    /// Once a line was held back.
    held: &'a [Row<'a>],
    /// Once it ran.
    ran: &'a [Row<'a>],
}

/// What became of a call.
#[derive(Clone, Copy, PartialEq)]
enum Came {
    Refused,
    Held,
    Ran,
    Else,
}

fn came_of(taken: Result<Output, Refusal>) -> Came {
    match taken {
        Ok(Output::Held) => Came::Held,
        Ok(_) => Came::Ran,
        Err(refusal) => came_of_error(refusal.error),
    }
}

fn came_of_error(error: ServiceError) -> Came {
    match error {
        ServiceError::OutOfMemory => Came::Refused,
        ServiceError::HeldAgain => Came::Held,
        _ => Came::Else,
    }
}

/// Makes the call with its request of that number refused.
fn take_armed<S: Played>(alloc: Global, service: &mut S, asked: Asked<'_>, number: usize) -> Came {
    match input_of(alloc, asked, Instant { nanos: 0 }) {
        Ok(input) => {
            arm(alloc, number);
            let came = came_of(service.step(input));
            arm(alloc, 0);
            came
        }
        Err(_) => Came::Else,
    }
}

/// The rows that have to come out so after it.
fn rows_after<'a>(call: &Call<'a>, came: Came) -> &'a [Row<'a>] {
    match came {
        Came::Refused => call.refused,
        Came::Held => call.held,
        _ => call.ran,
    }
}

/// Rows on a service of one namespace that was made at 0.
fn case_of<'a>(configs: &'a [Config], rows: &'a [Row<'a>]) -> Case<'a> {
    Case {
        configs,
        made: 0,
        rows,
    }
}

/// Plays the rows after a call; returns what became of the call if they came out so.
fn play_after<S: Played>(alloc: Global, service: S, call: &Call<'_>, came: Came) -> Came {
    match play_on(
        alloc,
        service,
        case_of(&[call.config], rows_after(call, came)),
    ) {
        Ok(_) => came,
        Err(_) => Came::Else,
    }
}

/// Plays the rows before a call, the call with its request of that number refused, and the rows after it.
fn play_call<S: Played>(alloc: Global, service: S, call: &Call<'_>, number: usize) -> Came {
    match play_on(alloc, service, case_of(&[call.config], call.before)) {
        Ok(mut service) => {
            let came = take_armed(alloc, &mut service, call.asked, number);
            play_after(alloc, service, call, came)
        }
        Err(_) => Came::Else,
    }
}

fn play_anew(alloc: Global, call: &Call<'_>, number: usize) -> Came {
    match new_service(alloc, &[call.config], 0) {
        Ok(service) => play_call(alloc, service, call, number),
        Err(_) => Came::Else,
    }
}

/// Refuses the requests of a call in turn, until one is refused that it does not make. Returns the number at which something came out
/// otherwise; the first must be refused where requests are.
fn first_wrong_of(alloc: Global, call: &Call<'_>) -> Option<usize> {
    let is_refusing = arm(alloc, 0);
    for number in 1..MOST {
        match play_anew(alloc, call, number) {
            Came::Else => return Some(number),
            Came::Ran if number == 1 && is_refusing => return Some(0),
            Came::Ran => return None,
            _ => {}
        }
    }
    Some(MOST)
}

const A_SET: Call<'static> = Call {
    config: PLAIN,
    before: &[Row::Opens(FIRST), Row::Opens(SECOND)],
    asked: Asked::Feeds(FIRST, b"SET a - 1\n"),
    refused: &[
        Row::Output(FIRST, b""),
        Row::Says(SECOND, b"GET a\n", b"NONE\n"),
        Row::Says(FIRST, b"SET a - 1\n", b"OK\n"),
        Row::Says(SECOND, b"GET a\n", b"VAL 1\n"),
    ],
    held: &[
        Row::Output(FIRST, b""),
        Row::Says(SECOND, b"GET a\n", b"NONE\n"),
        Row::Says(FIRST, b"", b"OK\n"),
        Row::Says(SECOND, b"GET a\n", b"VAL 1\n"),
    ],
    ran: &[
        Row::Output(FIRST, b"OK\n"),
        Row::Says(SECOND, b"GET a\n", b"VAL 1\n"),
    ],
};

/// With four parts.
const FOUR: Config = Config { parts: 4, ..PLAIN };

const A_DROPIF: Call<'static> = Call {
    config: FOUR,
    before: &[
        Row::Opens(FIRST),
        Row::Opens(SECOND),
        Row::Says(FIRST, b"SET ab - 1\nSET b - 2\n", b"OK\nOK\n"),
    ],
    asked: Asked::Feeds(FIRST, b"DROPIF a\n"),
    refused: &[
        Row::Output(FIRST, b""),
        Row::Says(SECOND, b"GET ab\n", b"VAL 1\n"),
        Row::Says(FIRST, b"DROPIF a\n", b"OK\n"),
        Row::Says(SECOND, b"GET ab\nGET b\n", b"NONE\nVAL 2\n"),
    ],
    held: &[
        Row::Output(FIRST, b""),
        Row::Says(SECOND, b"GET ab\n", b"VAL 1\n"),
        Row::Says(FIRST, b"", b"OK\n"),
        Row::Says(SECOND, b"GET ab\nGET b\n", b"NONE\nVAL 2\n"),
    ],
    ran: &[
        Row::Output(FIRST, b"OK\n"),
        Row::Says(SECOND, b"GET ab\nGET b\n", b"NONE\nVAL 2\n"),
    ],
};

/// Two connections wait for a value.
const AN_ANSWER: Call<'static> = Call {
    config: PLAIN,
    before: &[
        Row::Opens(FIRST),
        Row::Opens(SECOND),
        Row::Says(FIRST, b"LOAD k\n", b""),
        Row::Says(SECOND, b"LOAD k\n", b""),
    ],
    asked: Asked::Answers(FIRST_LOAD, Given::Value(b"v", None)),
    refused: &[
        Row::Output(FIRST, b""),
        Row::Output(SECOND, b""),
        Row::LoadsOpen(0, 1),
        Row::Does(Asked::Answers(FIRST_LOAD, Given::Value(b"v", None))),
        Row::Output(FIRST, b"VAL v\n"),
        Row::Output(SECOND, b"VAL v\n"),
    ],
    held: &[Row::NoNamespace(0)],
    ran: &[
        Row::Output(FIRST, b"VAL v\n"),
        Row::Output(SECOND, b"VAL v\n"),
    ],
};

const SIXTEENTH: Conn = Conn {
    namespace: 0,
    number: 16,
};

/// Fifteen are open, so the node of the map that has their words is full.
const AN_OPEN: Call<'static> = Call {
    config: PLAIN,
    before: &[Row::OpensAll(15)],
    asked: Asked::Opens(0),
    refused: &[
        Row::Unknown(SIXTEENTH, ServiceError::NoConnection),
        Row::Says(FIRST, b"GET a\n", b"NONE\n"),
        Row::Opens(SIXTEENTH),
        Row::Says(SIXTEENTH, b"GET a\n", b"NONE\n"),
    ],
    held: &[Row::NoNamespace(0)],
    ran: &[
        Row::Says(FIRST, b"GET a\n", b"NONE\n"),
        Row::Says(SIXTEENTH, b"GET a\n", b"NONE\n"),
    ],
};

const CALLS: &[Call<'static>] = &[A_SET, A_DROPIF, AN_ANSWER, AN_OPEN];

/// The place of the first call at which something comes out otherwise, and the number of the request that was refused.
fn first_wrong(alloc: Global) -> Option<(usize, usize)> {
    for (place, call) in CALLS.iter().enumerate() {
        if let Some(number) = first_wrong_of(alloc, call) {
            return Some((place, number));
        }
    }
    None
}

#[test]
fn each_request_of_a_call(rt: HostRuntime) {
    none_wrong(&rt, first_wrong(rt.alloc()));
}

/// A `SET` is held back before anything of it happened.
const HELD: &[Row<'static>] = &[
    Row::Output(FIRST, b""),
    Row::Says(SECOND, b"GET a\n", b"NONE\n"),
    Row::Says(FIRST, b"", b"OK\n"),
    Row::Says(SECOND, b"GET a\n", b"VAL 1\n"),
];

/// Whether the line that a connection holds back is refused again, and a piece with it is not taken.
fn is_held_again<S: Played>(alloc: Global, service: &mut S) -> bool {
    let Ok(nothing) = input_of(alloc, Asked::Feeds(FIRST, b""), Instant { nanos: 0 }) else {
        return false;
    };
    arm(alloc, 1);
    let again = service.step(nothing);
    arm(alloc, 0);
    is_refused(again, ServiceError::HeldAgain)
        && take_armed(alloc, service, Asked::Feeds(FIRST, b"DEL a\n"), 1) != Came::Ran
}

fn is_refused(taken: Result<Output, Refusal>, wanted: ServiceError) -> bool {
    match taken {
        Ok(_) => false,
        Err(refusal) => refusal.error == wanted,
    }
}

/// Whether a line that was held back is refused again, and runs once there is memory.
fn runs_at_last<S: Played>(alloc: Global, mut service: S) -> bool {
    is_held_again(alloc, &mut service) && play_on(alloc, service, case_of(&[PLAIN], HELD)).is_ok()
}

/// Refuses the request of that number of a `SET`; where its line is held back, it has to be refused again, and to run at last.
fn play_held<S: Played>(alloc: Global, service: S, number: usize) -> Came {
    match play_on(alloc, service, case_of(&[PLAIN], A_SET.before)) {
        Ok(mut service) => match take_armed(alloc, &mut service, A_SET.asked, number) {
            Came::Held if !runs_at_last(alloc, service) => Came::Else,
            came => came,
        },
        Err(_) => Came::Else,
    }
}

fn play_held_anew(alloc: Global, number: usize) -> Came {
    match new_service(alloc, &[PLAIN], 0) {
        Ok(service) => play_held(alloc, service, number),
        Err(_) => Came::Else,
    }
}

/// The number of the first request at whose refusal something comes out otherwise.
fn first_wrong_held(alloc: Global) -> Option<usize> {
    for number in 1..MOST {
        match play_held_anew(alloc, number) {
            Came::Else => return Some(number),
            Came::Ran => return None,
            _ => {}
        }
    }
    Some(MOST)
}

#[test]
fn held_again(rt: HostRuntime) {
    no_row_wrong(&rt, first_wrong_held(rt.alloc()));
}

/// A load is out.
const OUT: &[Row<'static>] = &[
    Row::Opens(FIRST),
    Row::Says(FIRST, b"LOAD k\n", b""),
    Row::Sends(0, &[(FIRST_LOAD, b"k")]),
];

/// A `LOAD` that is held back sends a load once there is memory.
const HELD_LOAD: &[Row<'static>] = &[
    Row::LoadsOpen(0, 0),
    Row::Says(FIRST, b"", b""),
    Row::Sends(0, &[(SECOND_LOAD, b"k")]),
];

/// A `LOAD` that was not held back has sent one.
const SENT_LOAD: &[Row<'static>] = &[Row::Sends(0, &[(SECOND_LOAD, b"k")])];

/// Whether a load goes out for the `LOAD` of one that was given up, whatever was refused.
fn is_sent_again<S: Played>(alloc: Global, service: S) -> bool {
    let rows = match service.loads_open(0) {
        Ok(0) => HELD_LOAD,
        _ => SENT_LOAD,
    };
    play_on(alloc, service, case_of(&[PLAIN], rows)).is_ok()
}

/// Whether a give-up with its request of that number refused is done, and its `LOAD` sends another load.
fn gives_up<S: Played>(alloc: Global, service: S, number: usize) -> bool {
    match play_on(alloc, service, case_of(&[PLAIN], OUT)) {
        Ok(mut service) => {
            take_armed(alloc, &mut service, Asked::GivesUp(FIRST_LOAD), number) == Came::Ran
                && is_sent_again(alloc, service)
        }
        Err(_) => false,
    }
}

fn gives_up_anew(alloc: Global, number: usize) -> bool {
    match new_service(alloc, &[PLAIN], 0) {
        Ok(service) => gives_up(alloc, service, number),
        Err(_) => false,
    }
}

/// The number of the first request at whose refusal a give-up does not come out so.
fn first_wrong_give_up(alloc: Global) -> Option<usize> {
    for number in 1..10 {
        if !gives_up_anew(alloc, number) {
            return Some(number);
        }
    }
    None
}

#[test]
fn give_ups(rt: HostRuntime) {
    no_row_wrong(&rt, first_wrong_give_up(rt.alloc()));
}

//! Rows on predicates.
use crate::rows::{CASE, Case, Look, Row, SETTINGS, none_wrong};
use engine_reference::{RemovalCause, Settings};
use moka_engine::Refusal;

/// The random UUID whose free bits are all 0: what is left is the version, 4, and the variant,
/// binary 10.
const OF_ZEROS: u128 = 0x00000000_0000_4000_8000_000000000000;

/// The one whose free bits are all 1.
const OF_ONES: u128 = 0xffffffff_ffff_4fff_bfff_ffffffffffff;

const ZEROS: u32 = 0;

const ONES: u32 = u32::MAX;

const CASES: &[Case<'static>] = &[
    // A generator of zeros gives one identifier. While that is registered a predicate is refused,
    // and covers nothing; a run that it covers nothing after takes it away.
    Case {
        rows: &[
            Row::Puts(1, 10, 1),
            Row::Invalidates(7, 2, ZEROS, Ok(OF_ZEROS)),
            Row::Invalidates(10, 3, ZEROS, Err(Refusal::IdsInUse)),
            Row::InvalidatesInHalves(10, 4, ZEROS, Err(Refusal::IdsInUse)),
            Row::Shows(Look::Peek, 1, Some(10)),
            // another identifier is free
            Row::InvalidatesInHalves(8, 5, ONES, Ok(OF_ONES)),
            Row::Runs,
            Row::TellsNone,
            Row::InvalidatesInHalves(10, 6, ZEROS, Ok(OF_ZEROS)),
            Row::Shows(Look::Peek, 1, None),
            Row::Runs,
            Row::Tells(RemovalCause::Explicit, 1, 10),
            Row::TellsNone,
            Row::InvalidatesApart(9, 7, ZEROS, Ok(OF_ZEROS)),
            Row::InvalidatesApart(10, 8, ZEROS, Err(Refusal::IdsInUse)),
        ],
        ..CASE
    },
    // A predicate covers what was written at earlier steps, also where only its first half was
    // there before.
    Case {
        rows: &[
            Row::Puts(1, 10, 1),
            Row::Puts(2, 20, 2),
            // an identifier that is given up is not registered
            Row::GivesUp(ZEROS, Ok(OF_ZEROS)),
            Row::InvalidatesInHalves(10, 3, ZEROS, Ok(OF_ZEROS)),
            Row::Puts(3, 10, 4),
            Row::Contains(1, false),
            Row::Contains(2, true),
            Row::Contains(3, true),
            // a write over what is covered reports it so, and is visible
            Row::Puts(1, 10, 5),
            Row::Tells(RemovalCause::Explicit, 1, 10),
            Row::Contains(1, true),
            Row::Runs,
            Row::TellsNone,
            Row::Number(3),
        ],
        ..CASE
    },
    // A cache that was made without predicates refuses them.
    Case {
        settings: Settings {
            takes_predicates: false,
            ..SETTINGS
        },
        rows: &[
            Row::Puts(1, 10, 1),
            Row::Invalidates(10, 2, ZEROS, Err(Refusal::InvalidationClosuresDisabled)),
            Row::GivesUp(ZEROS, Err(Refusal::InvalidationClosuresDisabled)),
            Row::InvalidatesApart(10, 3, ZEROS, Err(Refusal::InvalidationClosuresDisabled)),
            Row::Contains(1, true),
        ],
        ..CASE
    },
];

#[test]
fn predicates_of_the_engine(rt: HostRuntime) {
    none_wrong(&rt, rt.alloc(), CASES);
}

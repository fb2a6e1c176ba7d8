//! A housekeeper of an engine.
use crate::rows::{CASE, Case, Numbers, Row, none_wrong};
use engine_reference::Housekeeper;
use policy_base::{HousekeeperConfig, Instant};

const MADE: u64 = 7;

const LATER: u64 = 300_000_007;

/// Whether runs are due when this many reads, then this many writes wait.
fn dues(housekeeper: &Housekeeper, waiting: usize, nanos: u64) -> (bool, bool) {
    let now = Instant::from_nanos(nanos.min(1_000_000_000_000));
    (
        housekeeper.should_apply_reads(waiting, now),
        housekeeper.should_apply_writes(waiting, now),
    )
}

fn at(nanos: u64) -> Instant {
    Instant::from_nanos(nanos.min(1_000_000_000_000))
}

/// Whether runs are due before a run, and after one that comes later.
fn runs(cache: &mut Numbers, housekeeper: &mut Housekeeper) -> bool {
    housekeeper.run_pending_tasks(cache, at(LATER));
    let ran = dues(housekeeper, 0, LATER) == (false, false);
    housekeeper.try_run_pending_tasks(cache, at(MADE)) && ran
}

/// Runs come by number and time.
pub fn keeps_house(cache: &mut Numbers) -> bool {
    let mut housekeeper = Housekeeper::new(HousekeeperConfig::default(), at(MADE));
    runs(cache, &mut housekeeper)
        && housekeeper.config() == HousekeeperConfig::default()
        && dues(&housekeeper, 63, LATER - 1) == (false, false)
        && dues(&housekeeper, 64, MADE) == (true, true)
        && dues(&housekeeper, 0, LATER) == (true, true)
}

const CASES: &[Case<'static>] = &[Case {
    rows: &[Row::KeepsHouse],
    ..CASE
}];

#[test]
fn runs_are_due_by_number_and_time(rt: HostRuntime) {
    none_wrong(&rt, rt.alloc(), CASES);
}

//! Timers of places.
use engine_pending::Expirations;
use policy_base::Instant;
use std::alloc::Global;

/// Sets a place, on the second attempt if memory is refused.
fn set(expirations: &mut Expirations, place: usize, time: Option<u64>) {
    expirations.set(place, time);
    if !expirations.is_whole() {
        expirations.start_again();
        expirations.set(place, time);
    }
}

/// The place that is due first.
fn first(expirations: &Expirations, now: u32) -> Option<usize> {
    expirations.first_due(Instant::from_nanos(u64::from(now)))
}

/// Which places are due first, before and after some are set anew.
fn found(alloc: Global) -> (Option<usize>, Option<usize>, Option<usize>, Option<usize>) {
    let mut expirations = Expirations::new(alloc);
    set(&mut expirations, 0, Some(10));
    set(&mut expirations, 1, Some(5));
    set(&mut expirations, 2, Some(20));
    let early = first(&expirations, 4);
    let one = first(&expirations, 5);
    set(&mut expirations, 1, Some(30));
    let zero = first(&expirations, 12);
    set(&mut expirations, 0, None);
    (early, one, zero, first(&expirations, 20))
}

#[test]
fn the_place_that_expires_first_is_found(rt: HostRuntime) {
    assert_eq!(rt; found(rt.alloc()), (None, Some(1), Some(0), Some(2)));
}

/// When a place expires in the end, if at all.
fn time_of(place: usize) -> Option<u64> {
    if place % 7 == 0 {
        return None;
    }
    if place % 3 == 0 {
        return Some(place as u64 % 101 * 53 % 101);
    }
    Some(place as u64 % 101 * 37 % 101)
}

/// A hundred places that each have had two times, or one and then none.
fn filled(alloc: Global) -> Expirations {
    let mut expirations = Expirations::new(alloc);
    for place in 0..100 {
        set(&mut expirations, place, Some(place as u64 * 37 % 101));
    }
    for place in 0..100 {
        set(&mut expirations, place, time_of(place));
    }
    expirations
}

/// How many of them come, each once, and no later than those that come after it.
fn come_in_order(alloc: Global) -> usize {
    let mut expirations = filled(alloc);
    let mut last = 0;
    for count in 0..100 {
        let Some(place) = first(&expirations, 100) else {
            return count;
        };
        let time = time_of(place).unwrap_or(0);
        if time < last {
            return count;
        }
        last = time;
        set(&mut expirations, place, None);
    }
    100
}

#[test]
fn places_come_in_the_order_of_their_times(rt: HostRuntime) {
    // (of a hundred numbers 15 are multiples of 7)
    assert_eq!(rt; come_in_order(rt.alloc()), 85);
}

/// Whether there was memory for a timer, on the second attempt if it is refused.
fn is_set(alloc: Global) -> bool {
    let mut expirations = Expirations::new(alloc);
    set(&mut expirations, 3, Some(7));
    expirations.is_whole()
}

#[test]
fn a_place_is_set(rt: HostRuntime) {
    assert_eq!(rt; is_set(rt.alloc()), true);
}

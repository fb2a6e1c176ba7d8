//! Places by hash.
ghost use Rattle.std.specs.Prelude.{◌≡◌, ◌≤◌, ◌<◌, ◌-◌, ◌^◌, ℕ, true};
ghost use Rattle.engine_cells.specs.Keys.Spots.{IsUnder, OnlyGainsSpace};

use engine_cells::{Keys, MOST_PLACES};
use std::alloc::Global;

/// Makes room, on the second attempt if memory is refused.
fn makes_room(keys: &mut Keys, room: usize) -> bool
    ensures stays { OnlyGainsSpace keys.old keys.new }
    ensures room { result ≡ true → room ≤ keys.new.space }
{
    if keys.reserve(room).is_ok() {
        return true;
    }
    keys.reserve(room).is_ok()
}

/// What is found of one place of a hash: by its number, by another hash and by another test.
fn found(alloc: Global) -> Option<(Option<usize>, Option<usize>, Option<usize>)> {
    let mut keys = Keys::new(alloc);
    if !makes_room(&mut keys, 1) {
        return None;
    }
    keys.put(7, 10);
    Some((
        keys.get(7, |place| place == 10),
        keys.get(8, |place| place == 10),
        keys.get(7, |place| place == 11),
    ))
}

#[test]
fn a_place_is_found_by_its_hash_and_a_test(rt: HostRuntime) {
    assert!(rt; found(rt.alloc()) == Some((Some(10), None, None)));
}

/// The hash of a place: one of a number of hashes, at these bits.
fn hash_of(place: usize, hashes: u64, shift: u32) -> u64
    requires hashes { 0 < hashes }
    requires shift { shift < 64 }
{
    (place as u64 % hashes) << shift
}

/// How many of the places below `many` are found.
fn count_found(keys: &Keys, many: usize, hashes: u64, shift: u32) -> usize
    requires hashes { 0 < hashes }
    requires shift { shift < 64 }
{
    let mut count = 0;
    for place in 0..many {
        if keys.get(hash_of(place, hashes, shift), |at| at == place) == Some(place) {
            count += 1;
        }
    }
    count
}

/// Puts each place below `many`, and returns whether there was memory for it.
fn put_many(keys: &mut Keys, many: usize, hashes: u64, shift: u32) -> bool
    requires hashes { 0 < hashes }
    requires shift { shift < 64 }
    requires few { many < 2 ^ 32 }
    requires none { (hash place : ℕ) → IsUnder keys.old hash place → ⊥ }
{
    for place in 0..many {
        if !makes_room(keys, 1) {
            return false;
        }
        keys.put(hash_of(place, hashes, shift), place);
    }
    true
}

/// Removes a place that is there, and adds one that is not. Returns whether it is there then, or
/// nothing if memory is refused.
fn turn(keys: &mut Keys, hash: u64, place: usize) -> Option<bool>
    requires { place < 2 ^ 32 - 1 }
{
    if let Some(at) = keys.get(hash, |at| at == place) {
        keys.take(hash, at);
        return Some(false);
    }
    if !makes_room(keys, 1) {
        return None;
    }
    keys.put(hash, place);
    Some(true)
}

/// How many of the places below `many` are found, and how many once each second one is taken.
fn found_of_many(alloc: Global, many: usize, hashes: u64, shift: u32) -> Option<(usize, usize)>
    requires few { many < 2 ^ 32 }
    requires hashes { 0 < hashes }
    requires shift { shift < 64 }
{
    let mut keys = Keys::new(alloc);
    if !put_many(&mut keys, many, hashes, shift) {
        return None;
    }
    let before = count_found(&keys, many, hashes, shift);
    for half in 0..many / 2 {
        turn(&mut keys, hash_of(2 * half, hashes, shift), 2 * half)?;
    }
    Some((before, count_found(&keys, many, hashes, shift)))
}

#[test]
fn each_of_many_places_of_one_hash_is_found(rt: HostRuntime) {
    assert_eq!(rt;
        found_of_many(rt.alloc(), 2_000, 1, 0),
        Some((2_000, 1_000))
    );
}

#[test]
fn places_are_found_by_hashes_that_differ_in_few_bits(rt: HostRuntime) {
    assert!(rt;
        found_of_many(rt.alloc(), 10_000, 10_000, 0) == Some((10_000, 5_000))
            && found_of_many(rt.alloc(), 3_000, 1_000, 52) == Some((3_000, 1_500))
            && found_of_many(rt.alloc(), 3_000, 2_999, 30) == Some((3_000, 1_500))
    );
}

/// How often a place is said to stand or not to stand otherwise than it does, where places come and
/// go at random.
fn wrong_at_random(alloc: Global, hashes: u64, turns: usize) -> Option<usize>
    requires { 0 < hashes }
{
    let mut keys = Keys::new(alloc);
    let mut stand = [false; 256];
    let mut state = 1u64;
    let mut wrong = 0usize;
    for _ in 0..turns {
        state = state
            .wrapping_mul(6364136223846793005)
            .wrapping_add(1442695040888963407);
        let place = (state >> 40) as usize % 256;
        let stands = turn(&mut keys, hash_of(place, hashes, 0), place)?;
        if stands == stand[place] {
            wrong = wrong.saturating_add(1);
        }
        stand[place] = stands;
    }
    Some(wrong)
}

#[test]
fn places_that_come_and_go_at_random_stand_where_they_do(rt: HostRuntime) {
    assert!(rt;
        wrong_at_random(rt.alloc(), 1, 5_000) == Some(0)
            && wrong_at_random(rt.alloc(), 7, 20_000) == Some(0)
            && wrong_at_random(rt.alloc(), 256, 20_000) == Some(0)
    );
}

/// How many places come under one hash without memory, once there is room for them, and whether
/// more than can be are refused.
fn found_in_room(alloc: Global, many: usize) -> Option<(usize, bool)>
    requires { many < 2 ^ 32 }
{
    let mut keys = Keys::new(alloc);
    if !makes_room(&mut keys, many) {
        return None;
    }
    for place in 0..many {
        keys.put(0, place);
    }
    let found = count_found(&keys, many, 1, 0);
    Some((found, keys.reserve(MOST_PLACES).is_err()))
}

#[test]
fn places_come_into_room_without_memory(rt: HostRuntime) {
    assert_eq!(rt; found_in_room(rt.alloc(), 1_000), Some((1_000, true)));
}

//! Places get expiries and lose them.
ghost use Rattle.std.specs.Prelude.{◌≡◌, ◌≢◌, ℕ, ◌*◌, ◌/◌, ◌<◌, ◌≤◌, true, Some, length};
ghost use Rattle.engine_pending.specs.Timers.Awaited.{never, expiry_at, IsTimed, KeepsOthers};
ghost use Rattle.engine_pending.specs.Timers.Firsts.{first_at, AreFirsts};

use crate::timers::firsts::{FAN, NEVER, expiry_at, first_at, settle_up};
use policy_base::MAX_NANOS;

/// Lets one more place keep the first expiry of those below it, if the next place to come would lie below one that does not. Returns
/// whether there was memory for it.
fn cover_next(expiries: &[u64], firsts: &mut Vec<u64>) -> bool
    requires { length expiries.now ≤ 8 * length firsts.old.items }
    ensures same { (place : ℕ) → first_at expiries.now firsts.new.items place
        ≡ first_at expiries.now firsts.old.items place }
    ensures enough { result ≡ true → length expiries.now < 8 * length firsts.new.items }
    ensures still { length expiries.now ≤ 8 * length firsts.new.items }
{
    if expiries.len() / FAN < firsts.len() {
        return true;
    }
    firsts.push(expiry_at(expiries, firsts.len())).is_ok()
}

/// Adds a place that does not expire. Returns whether there was memory for it.
fn add(expiries: &mut Vec<u64>, firsts: &mut Vec<u64>) -> bool
    requires { AreFirsts expiries.old.items firsts.old.items }
    ensures whole { AreFirsts expiries.new.items firsts.new.items }
    ensures same { (place : ℕ) → expiry_at expiries.new.items place
        ≡ expiry_at expiries.old.items place }
    ensures longer { result ≡ true → length expiries.old.items < length expiries.new.items }
{
    cover_next(expiries.as_slice(), firsts) && expiries.push(NEVER).is_ok()
}

/// Adds places up to this one. Returns whether there was memory for it.
fn lengthen(expiries: &mut Vec<u64>, firsts: &mut Vec<u64>, place: usize) -> bool
    requires { AreFirsts expiries.old.items firsts.old.items }
    ensures whole { AreFirsts expiries.new.items firsts.new.items }
    ensures same { (k : ℕ) → expiry_at expiries.new.items k ≡ expiry_at expiries.old.items k }
    ensures reach { result ≡ true → place < length expiries.new.items }
{
    while expiries.len() <= place {
        if !add(expiries, firsts) {
            return false;
        }
    }
    true
}

/// The place whose first expiry is another, when this one's own is.
fn shown_by(place: usize, firsts: usize) -> usize
    ensures within { place < firsts → result ≡ place }
    ensures past { firsts ≤ place → result ≡ place / 8 }
{
    if place < firsts { place } else { place / FAN }
}

/// Whether a place shows an expiry that is another place's than this one's, and no later than this one's is to be.
fn is_shown_first(expiries: &[u64], firsts: &[u64], place: usize, shown: usize, expiry: u64) -> bool
    ensures other { result ≡ true
        → expiry_at expiries.now place ≢ first_at expiries.now firsts.now shown }
    ensures first { result ≡ true → first_at expiries.now firsts.now shown ≤ expiry }
{
    let first = first_at(expiries, firsts, shown);
    expiry_at(expiries, place) != first && first <= expiry
}

/// Sets when a place expires.
fn put(expiries: &mut [u64], firsts: &mut [u64], place: usize, expiry: u64)
    requires whole { AreFirsts expiries.old firsts.old }
    requires within { place < length expiries.old }
    ensures whole { AreFirsts expiries.new firsts.new }
    ensures own { expiry_at expiries.new place ≡ expiry }
    ensures others { (k : ℕ) → k ≢ place → expiry_at expiries.new k ≡ expiry_at expiries.old k }
{
    let shown = shown_by(place, firsts.len());
    let stays = is_shown_first(expiries, firsts, place, shown, expiry);
    expiries[place] = expiry;
    if stays {
        return;
    }
    settle_up(expiries, firsts, shown);
}

/// Sets the moment in nanoseconds at which a place expires. Returns whether there was memory for it.
#[tactic(auto, unfolding(crate::specs::Timers::Awaited::IsTimed))]
fn start(expiries: &mut Vec<u64>, firsts: &mut Vec<u64>, place: usize, time: u64) -> bool
    requires { AreFirsts expiries.old.items firsts.old.items }
    ensures whole { AreFirsts expiries.new.items firsts.new.items }
    ensures others { KeepsOthers place expiries.old.items expiries.new.items }
    ensures timed { result ≡ true → IsTimed expiries.new.items place time }
{
    if !lengthen(expiries, firsts, place) {
        return false;
    }
    put(expiries, firsts, place, time.min(MAX_NANOS));
    true
}

/// Lets a place not expire.
#[tactic(auto, unfolding(crate::specs::Timers::Awaited::IsTimed))]
fn stop(expiries: &mut [u64], firsts: &mut [u64], place: usize)
    requires { AreFirsts expiries.old firsts.old }
    ensures whole { AreFirsts expiries.new firsts.new }
    ensures others { KeepsOthers place expiries.old expiries.new }
{
    if place < expiries.len() {
        put(expiries, firsts, place, NEVER);
    }
}

/// Sets the moment in nanoseconds at which a place expires, or that it does not. Returns whether there was memory for it.
pub(crate) fn set(
    expiries: &mut Vec<u64>,
    firsts: &mut Vec<u64>,
    place: usize,
    time: Option<u64>,
) -> bool
    requires { AreFirsts expiries.old.items firsts.old.items }
    ensures whole { AreFirsts expiries.new.items firsts.new.items }
    ensures others { KeepsOthers place expiries.old.items expiries.new.items }
    ensures timed { (t : ℕ) → time ≡ Some t → result ≡ true
        → IsTimed expiries.new.items place t }
{
    match time {
        Some(time) => start(expiries, firsts, place, time),
        None => {
            stop(expiries, firsts, place);
            true
        }
    }
}

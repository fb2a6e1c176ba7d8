//! A tree of places: right below each lie eight others, and the first expiry of a place and all below it is kept.
ghost use Rattle.std.specs.Prelude.{◌≡◌, ◌≢◌, ℕ, ◌+◌, ◌-◌, ◌*◌, ◌^◌, ◌<◌, ◌≤◌, false, length, min, max};
ghost use Rattle.engine_pending.specs.Timers.Awaited.{never, expiry_at};
ghost use Rattle.engine_pending.specs.Timers.Firsts.{LiesBelow, first_at, IsFirstBelow, IsFirstExpiry, ShowsFirst, ShowFirstsBut, IsCovering, AreFirsts};

/// The expiry of a place that does not expire.
pub(crate) const NEVER: u64 = u64::MAX;

/// How many places lie right below one.
pub(crate) const FAN: usize = 8;

/// When a place expires.
pub(crate) fn expiry_at(expiries: &[u64], place: usize) -> u64
    ensures { result ≡ expiry_at expiries.now place }
{
    match expiries.get(place) {
        Some(expiry) => *expiry,
        None => NEVER,
    }
}

/// When the first expires of a place and all below it.
pub(crate) fn first_at(expiries: &[u64], firsts: &[u64], place: usize) -> u64
    ensures { result ≡ first_at expiries.now firsts.now place }
{
    match firsts.get(place) {
        Some(first) => *first,
        None => expiry_at(expiries, place),
    }
}

/// The number from which the places right below this one are counted.
fn below(place: usize) -> usize
    ensures { result ≡ max 1 (min (8 * place) (2 ^ 64 - 1)) }
{
    place.saturating_mul(FAN).max(1)
}

/// The number after the last place right below this one.
fn end_below(place: usize) -> usize
    ensures { result ≡ min (8 * place + 8) (2 ^ 64 - 1) }
{
    place.saturating_mul(FAN).saturating_add(FAN)
}

/// The first expiry of a place and all below it, by what those right below show.
fn first_of(expiries: &[u64], firsts: &[u64], place: usize) -> u64
    ensures { IsFirstExpiry expiries.now firsts.now place result }
{
    let mut first = expiry_at(expiries, place);
    for k in below(place)..end_below(place) {
        first = first.min(first_at(expiries, firsts, k));
    }
    first
}

/// Lets a place show its first expiry. Returns whether that has changed.
fn settle(expiries: &[u64], firsts: &mut [u64], place: usize) -> bool
    requires within { place < length firsts.old }
    requires others { ShowFirstsBut expiries.now firsts.old place }
    ensures own { ShowsFirst expiries.now firsts.new place }
    ensures others { (k : ℕ) → k ≢ place → (LiesBelow place k → result ≡ false)
        → ShowsFirst expiries.now firsts.new k }
{
    let first = first_of(expiries, firsts, place);
    let has_changed = firsts[place] != first;
    firsts[place] = first;
    has_changed
}

/// Lets all places show their first expiries, of which all but this one do.
pub(crate) fn settle_up(expiries: &[u64], firsts: &mut [u64], place: usize)
    requires within { place < length firsts.old }
    requires others { ShowFirstsBut expiries.now firsts.old place }
    ensures { (k : ℕ) → ShowsFirst expiries.now firsts.new k }
{
    let mut at = place;
    'up: loop {
        if !settle(expiries, firsts, at) || at == 0 {
            return;
        }
        at /= FAN;
    }
}

/// The place right below this one that shows the moment.
fn below_with(expiries: &[u64], firsts: &[u64], place: usize, moment: u64) -> usize
    requires some { IsFirstBelow expiries.now firsts.now place moment }
    requires comes { moment < never }
    ensures lies { LiesBelow result place }
    ensures shows { first_at expiries.now firsts.now result ≡ moment }
{
    let mut k = below(place);
    while first_at(expiries, firsts, k) != moment {
        k += 1;
    }
    k
}

/// The place that expires at the moment, the first of all.
pub(crate) fn place_with(expiries: &[u64], firsts: &[u64], moment: u64) -> usize
    requires whole { AreFirsts expiries.now firsts.now }
    requires first { first_at expiries.now firsts.now 0 ≡ moment }
    requires comes { moment < never }
    ensures { expiry_at expiries.now result ≡ moment }
{
    let mut at = 0;
    while expiry_at(expiries, at) != moment {
        at = below_with(expiries, firsts, at, moment);
    }
    at
}

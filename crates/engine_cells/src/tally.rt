//! Running totals of records.
ghost use Rattle.std.specs.Prelude.{◌≡◌, ◌+◌, ◌-◌, ◌<◌, ◌≤◌, ◌^◌, unwrap_or, is_some, if◌then◌else◌};
ghost use Rattle.engine_reference.specs.Records.{weight_at};
ghost use Rattle.engine_cells.specs.Tallying.{held_part, admitted_part};

use crate::cell::Cell;

/// What all that is held weighs, what the admitted records weigh, and how many of these there are.
#[derive(Clone, Copy)]
pub struct Tally {
    /// What all held records weigh.
    pub held: u64,
    /// What all admitted records weigh.
    pub weight: u64,
    /// How many records are admitted.
    pub number: u64,
}

impl Tally {
    /// Returns what all held records weigh once an entry of weight `after` has taken the place of one of weight `before`.
    pub fn held_with(self, before: u32, after: u32) -> u64
        requires within { before ≤ self.held }
        requires room { self.held + 2 ^ 32 ≤ 2 ^ 64 }
        ensures is { result ≡ self.held - before + after }
        ensures light { after < 2 ^ 32 }
    {
        self.held - u64::from(before) + u64::from(after)
    }

    /// Returns the totals once a record counts with `weight`, that counted with `before` or, with `None`, did not count.
    pub fn counted(self, before: Option<u32>, weight: u32) -> Tally
        requires within { unwrap_or before 0 ≤ self.weight }
        requires room { self.weight + 2 ^ 32 ≤ 2 ^ 64 }
        requires number { self.number + 2 ^ 32 ≤ 2 ^ 64 }
        ensures is { result ≡ record self {
          weight = self.weight - unwrap_or before 0 + weight;
          number = self.number + (if is_some before then 0 else 1);
        } }
        ensures light { weight < 2 ^ 32 }
    {
        let (counted, more) = match before {
            Some(before) => (before, 0),
            None => (0, 1),
        };
        Tally {
            held: self.held,
            weight: self.weight - u64::from(counted) + u64::from(weight),
            number: self.number + more,
        }
    }

    /// Returns the totals once one of the records is no longer held.
    pub fn unheld<K, V>(self, found: &Cell<K, V>) -> Tally
        requires { held_part found.now ≤ self.held }
        ensures { result ≡ record self { held = self.held - held_part found.now } }
    {
        Tally {
            held: self.held - u64::from(weight_if_held(found)),
            ..self
        }
    }

    /// Returns the totals without one of the records.
    pub fn without<K, V>(self, went: &Cell<K, V>) -> Tally
        requires held { held_part went.now ≤ self.held }
        requires weight { weight_at went.now ≤ self.weight }
        requires number { admitted_part went.now ≤ self.number }
        ensures { result ≡ record {
          held = self.held - held_part went.now;
          weight = self.weight - weight_at went.now;
          number = self.number - admitted_part went.now;
        } }
    {
        Tally {
            held: self.held - u64::from(weight_if_held(went)),
            weight: self.weight - u64::from(went.counts().unwrap_or(0)),
            number: self.number - u64::from(went.counts().is_some()),
        }
    }
}

/// The weight of a held record, and 0 for another.
fn weight_if_held<K, V>(found: &Cell<K, V>) -> u32
    ensures { result ≡ held_part found.now }
{
    if found.is_held() { found.weight() } else { 0 }
}

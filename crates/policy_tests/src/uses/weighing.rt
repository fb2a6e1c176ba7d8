//! Frequencies.
ghost use Rattle.std.specs.Prelude.{◌≡◌, nat_lt};
ghost use Rattle.policy_base.specs.Counts.{frequency_of};

use moka_policy::FrequencySketch;
use std::alloc::Global;

/// Whether a newcomer was counted more often than the entry that would have to leave.
fn is_worth_more(sketch: &FrequencySketch, newcomer: u64, victim: u64) -> bool
    ensures { result ≡ nat_lt (frequency_of sketch.now victim) (frequency_of sketch.now newcomer) }
{
    sketch.frequency(victim) < sketch.frequency(newcomer)
}

/// Whether 5, which was counted, is worth more than 6, and 6 than 5.
fn compared(alloc: Global) -> Option<(bool, bool)> {
    let mut sketch = FrequencySketch::default(alloc);
    sketch.ensure_capacity(128).ok()?;
    sketch.increment(5);
    Some((is_worth_more(&sketch, 5, 6), is_worth_more(&sketch, 6, 5)))
}

#[test]
fn compares_frequencies(rt: HostRuntime) {
    let wanted = Some((true, false));
    assert!(rt; compared(rt.alloc()) == wanted || compared(rt.alloc()) == wanted);
}

//! What each part weighs, and at which number its weight was last a point.
ghost use Rattle.std.specs.Prelude.{◌≡◌, ◌+◌, ◌-◌, ◌<◌, ◌≤◌, get_or, set, length, if◌then◌else◌, IfOk};

use std::alloc::AllocError;

/// Returns what a part weighs.
pub fn weight_at(weights: &[u128], part: usize) -> u128
    ensures { result ≡ get_or weights.now part 0 }
{
    match weights.get(part) {
        Some(weight) => *weight,
        None => 0,
    }
}

/// Returns a sum of weights with one more weight. Returns an error if the sum does not fit.
pub fn sum_with(sum: u128, weight: u64) -> Result<u128, AllocError>
    ensures { IfOk result (λ more. more ≡ sum + weight) }
{
    match sum.checked_add(u128::from(weight)) {
        Some(more) => Ok(more),
        None => Err(AllocError),
    }
}

/// Returns the number after this one. Returns an error if there is none.
pub fn next_number(number: u64) -> Result<u64, AllocError>
    ensures { IfOk result (λ next. next ≡ number + 1) }
{
    match number.checked_add(1) {
        Some(next) => Ok(next),
        None => Err(AllocError),
    }
}

/// Sets what a part weighs.
pub fn put_weight(weights: &mut Vec<u128>, part: usize, weight: u128)
    requires { part < length weights.old.items }
    ensures { weights.new.items ≡ set weights.old.items part weight }
{
    weights[part] = weight;
}

/// Returns the number at which a part's weight was last a point that counts.
pub fn mark_at(marks: &[u64], part: usize) -> u64
    ensures { result ≡ get_or marks.now part 0 }
{
    match marks.get(part) {
        Some(mark) => *mark,
        None => 0,
    }
}

/// Sets the number at which a part's weight was last a point that counts.
pub fn put_mark(marks: &mut Vec<u64>, part: usize, mark: u64)
    requires { part < length marks.old.items }
    ensures { marks.new.items ≡ set marks.old.items part mark }
{
    marks[part] = mark;
}

/// Returns the number at which a part's weight was last a point that counts: `next` if it is one now, 0 if earlier points no longer count,
/// and otherwise `mark`, as before.
pub fn mark_after(mark: u64, next: u64, over: bool, anew: bool) -> u64
    ensures { result ≡ (if over then next else (if anew then 0 else mark)) }
{
    if over {
        next
    } else if anew {
        0
    } else {
        mark
    }
}

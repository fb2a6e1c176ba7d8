//! Selectors of an attached handle.
use crate::caches::Moments;
use crate::entries::{
    Choice, Chooser, Shown, count_slowly, count_up, is_three, removal, rest, seven, show,
    shown_done,
};
use crate::forms::TestRules;
use moka_sync::{Attached, StdHasher};
use std::sync::Wait;

/// A handle of a cache of numbers.
pub type Handle<H, C> = Attached<u64, u64, StdHasher, TestRules, Moments, H, C>;

fn choose_lent<H: Wait, C: Drop>(attached: &mut Handle<H, C>, key: u64, value: u64) -> Shown {
    match attached.entry_by_ref(&key) {
        Ok(selector) => show(selector.or_insert(value)),
        Err(_) => Shown::Other,
    }
}

/// What a call that computes returns.
fn compute<H: Wait, C: Drop>(attached: &mut Handle<H, C>, choice: Choice) -> Shown {
    match choice {
        Choice::CountUp(key) => show(attached.entry(key).and_upsert_with(count_up)),
        Choice::Remove(key) => shown_done(attached.entry(key).and_compute_with(removal)),
        Choice::Leave(key) => shown_done(attached.entry(key).and_compute_with(rest)),
        Choice::CountSlowly(key) => shown_done(attached.entry(key).and_compute_with(count_slowly)),
        _ => Shown::Other,
    }
}

impl<H: Wait, C: Drop> Chooser for Handle<H, C> {
    fn choose(&mut self, choice: Choice) -> Shown {
        match choice {
            Choice::Insert(key, value) => show(self.entry(key).or_insert(value)),
            Choice::Lent(key, value) => choose_lent(self, key, value),
            Choice::SevenForThree(key) => show(self.entry(key).or_insert_with_if(seven, is_three)),
            choice => compute(self, choice),
        }
    }
}

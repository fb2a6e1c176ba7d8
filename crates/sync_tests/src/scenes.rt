//! What is played on a new cache of each form.
use crate::caches::{Moments, Stage, make_dialed, stage_of};
use crate::crowds::{Work, all_work};
use crate::entries::Choosing;
use crate::forms::{Covers, Form, Settings, Staged, Tested, builder_of};
use crate::rows::{Row, are_so, runs};
use crate::telling::are_told_once;
use crate::turns::{Turn, is_right};
use moka_sync::{Build, BuildError, Dial};
use std::alloc::Global;
use std::sync::{Arc, Wait};
use std::thread::Threads;

/// What is played on a cache of these settings.
#[derive(Clone, Copy)]
pub struct Scene {
    pub settings: Settings,
    pub steps: &'static [Step],
}

/// What is done, and what is to come of it.
#[derive(Clone, Copy)]
pub enum Step {
    /// Rows of one thread.
    Rows(&'static [Row]),
    /// A predicate covers the entries of odd values.
    Cover,
    /// 64 keys come, and a predicate covers their odd ones, or none if it is refused. A value that is refused is no fault of the cache.
    CoverOrNot,
    /// So many of the keys below 1600 are visible, and as many are counted after a run.
    Visible(u64),
    /// It shows so many parts, or one.
    Parts(usize),
    /// It makes a value by the two names that only segments have.
    OtherNames,
    /// Selectors choose so, by a handle that others share.
    Choose(&'static [Choosing]),
    /// The same by an attached one.
    ChooseAttached(&'static [Choosing]),
    /// An attached handle is printed so.
    Printed(&'static str),
    /// So many threads work.
    All(usize, Work),
    /// Two callers share a turn.
    Share(Turn),
    /// Each of 1600 values that four threads remove is told once, to a fifth one that counts.
    TellOnce,
}

/// How many of the keys below a bound are visible.
fn count_visible<H: Wait, T: Staged>(rt: &H, cache: &T, bound: u64) -> u64 {
    let mut count = 0u64;
    for key in 0..bound {
        if cache.has(rt, key) {
            count = count.saturating_add(1);
        }
    }
    count
}

/// Whether so many keys are visible, and as many are counted after a run.
fn has_visible<H: Wait, T: Staged>(rt: &H, cache: &T, count: u64) -> bool {
    runs(rt, cache)
        && count_visible(rt, cache, 1600) == count
        && cache.count(rt) == count
        && cache.weight(rt) == count
}

/// Whether a predicate covers the odd ones of 64 keys, or none if it is refused. A value that is refused is no fault of the cache.
fn covers_or_not<H: Wait, T: Staged>(rt: &H, cache: &T) -> bool {
    for key in 0..64u64 {
        if cache.put(rt, key, key).is_err() {
            return true;
        }
    }
    let is_covered = cache.cover_odd(rt).is_ok();
    let wanted = if is_covered { 32 } else { 64 };
    count_visible(rt, cache, 64) == wanted
}

/// Whether what one thread does comes out so.
fn goes_alone<H: Wait + Copy, T: Staged>(rt: &H, stage: &Stage<T>, step: Step) -> bool {
    let cache = &stage.cache;
    match step {
        Step::Rows(rows) => are_so(rt, stage, rows),
        Step::Cover => cache.cover_odd(rt) == Ok(()),
        Step::CoverOrNot => covers_or_not(rt, cache),
        Step::Visible(count) => has_visible(rt, cache, count),
        Step::Parts(parts) => cache.parts() == 1 || cache.parts() == parts,
        Step::OtherNames => cache.has_other_names(rt),
        Step::Choose(rows) => cache.chooses(rt, rows),
        Step::ChooseAttached(rows) => cache.chooses_attached(rt, rows),
        Step::Printed(text) => cache.is_printed(rt, stage.alloc, text),
        _ => false,
    }
}

/// Whether a step comes out so.
fn goes<R: Threads + Wait + Sync + Copy, T: Staged + Sync>(
    rt: &R,
    stage: &Stage<T>,
    step: Step,
) -> bool {
    match step {
        Step::All(threads, work) => all_work(rt, stage, threads, work),
        Step::Share(turn) => is_right(rt, stage, turn),
        Step::TellOnce => are_told_once(rt, stage),
        step => goes_alone(rt, stage, step),
    }
}

/// Whether all steps come out so.
fn plays<R: Threads + Wait + Sync + Copy, T: Staged + Sync>(
    rt: &R,
    stage: &Stage<T>,
    steps: &[Step],
) -> bool {
    for step in steps {
        if !goes(rt, stage, *step) {
            return false;
        }
    }
    true
}

/// Whether a scene comes out so on a cache; nothing if none was made.
fn plays_on<R: Threads + Wait + Sync + Copy, T: Staged + Sync>(
    rt: &R,
    alloc: Global,
    scene: &Scene,
    dial: Arc<Dial>,
    cache: Result<T, BuildError>,
) -> Option<bool> {
    match cache {
        Ok(cache) => Some(plays(rt, &stage_of(alloc, cache, dial), scene.steps)),
        Err(_) => None,
    }
}

/// The same on one by the tests' rules. (That it is staged is proved here, once for all forms.)
fn plays_in<R: Threads + Wait + Sync + Copy, C: Covers + Send + Sync>(
    rt: &R,
    alloc: Global,
    scene: &Scene,
    dial: Arc<Dial>,
    cache: Result<Tested<C>, BuildError>,
) -> Option<bool> {
    plays_on(rt, alloc, scene, dial, cache)
}

/// The same on a new cache of a form, with the moments of a dial.
fn plays_by<R: Threads + Wait + Sync + Copy>(
    rt: &R,
    alloc: Global,
    scene: &Scene,
    form: Form,
    dial: Arc<Dial>,
    moments: Moments,
) -> Option<bool> {
    let parts = scene.settings.parts;
    let builder = builder_of(scene.settings);
    match form {
        Form::One => plays_in(rt, alloc, scene, dial, builder.build(alloc, moments)),
        Form::Segments => {
            let builder = builder.segments(parts);
            plays_in(rt, alloc, scene, dial, builder.build(alloc, moments))
        }
        Form::Shards => {
            let builder = builder.shards(parts);
            plays_in(rt, alloc, scene, dial, builder.build(alloc, moments))
        }
    }
}

/// The same, with a dial of its own.
fn plays_once<R: Threads + Wait + Sync + Copy>(
    rt: &R,
    alloc: Global,
    form: Form,
    scene: &Scene,
) -> Option<bool> {
    match make_dialed(alloc) {
        Some((dial, moments)) => plays_by(rt, alloc, scene, form, dial, moments),
        None => None,
    }
}

/// The same, on the second attempt if memory is refused: it has another new cache.
pub fn holds_in<R: Threads + Wait + Sync + Copy>(
    rt: &R,
    alloc: Global,
    form: Form,
    scene: &Scene,
) -> bool {
    plays_once(rt, alloc, form, scene) == Some(true)
        || plays_once(rt, alloc, form, scene) == Some(true)
}

/// Whether a scene comes out so in each form at the first attempt, unless no cache can be made.
pub fn never_fails<R: Threads + Wait + Sync + Copy>(rt: &R, alloc: Global, scene: &Scene) -> bool {
    plays_once(rt, alloc, Form::One, scene) != Some(false)
        && plays_once(rt, alloc, Form::Segments, scene) != Some(false)
        && plays_once(rt, alloc, Form::Shards, scene) != Some(false)
}

/// Whether a scene comes out so in each form.
pub fn holds<R: Threads + Wait + Sync + Copy>(rt: &R, alloc: Global, scene: &Scene) -> bool {
    holds_in(rt, alloc, Form::One, scene)
        && holds_in(rt, alloc, Form::Segments, scene)
        && holds_in(rt, alloc, Form::Shards, scene)
}

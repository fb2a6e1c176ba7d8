//! Which values a step may tell, and with which causes.
ghost use Rattle.std.specs.Prelude.{◌≡◌, ◌&&◌, ◌<◌, ◌++◌, List, map, not, Some, None, [], option_map, IfSome, true, false};
ghost use Rattle.std.specs.List.{list_all, find};
ghost use Rattle.audit_model.specs.Bytewise.{same};
ghost use Rattle.audit_model.specs.Commands.{is_this};
ghost use Rattle.audit_model.specs.Notes.{same_cause, overfills, is_rewritten, is_succeeded, is_true_cause, first_cause, is_true_note, first_with_key, are_true_notes};
ghost use Rattle.audit_model.specs.Situation.{candidate_at};
ghost use Rattle.audit_model.specs.Values.{untold, without_key};
ghost use Rattle.audit_model.specs.View.{Candidate as Eligible};
ghost use Rattle.audit_situation.specs.Notes.Scenes.{candidate_in, newcomer_in, deed_in, newcomer_left, candidates_in, new_candidates_in, IsBefore, IsTrueNoteOf, TakesFirstValue};

use crate::held::{Held, Holding, Seen};
use crate::notes::deed::{Deed, is_this};
use crate::notes::times::is_dead;
use audit_model::{Config, Note, RemovalCause};

/// What a step's notes are judged by.
#[derive(Clone, Copy)]
pub struct Scene<'a> {
    /// The configuration of the namespace.
    pub config: &'a Config,
    /// The step's moment, in nanoseconds.
    pub moment: u64,
    /// The value that the step accepts.
    pub newcomer: Option<&'a Held>,
    /// What the step does to the other values.
    pub deed: Deed<'a>,
    /// Whether each part, counted from 0, is over its share just after the step's acceptance. A part behind the last one is not.
    pub overfilled: &'a [bool],
}

/// A value that a step may report: one that is held, or the one that the step accepts.
#[derive(Clone, Copy)]
pub struct Candidate<'a> {
    /// The value, lent.
    pub seen: Seen<'a>,
    /// Whether the step accepts the value.
    pub new: bool,
}

/// Whether a part is over its share just after the step's acceptance.
fn overfills(scene: &Scene<'_>, part: u64) -> bool
    requires { part < 256 }
    ensures { (before : List Eligible) → IsBefore scene.now before
        → result ≡ overfills scene.now.config.now before (deed_in scene.now) part }
{
    match scene.overfilled.get(part as usize) {
        Some(over) => *over,
        None => false,
    }
}

/// Whether the step writes this older value's key.
fn is_rewritten(scene: &Scene<'_>, c: Candidate<'_>) -> bool
    ensures { result ≡ is_rewritten (deed_in scene.now) (candidate_in scene.now c.entry) }
{
    match scene.newcomer {
        Some(newcomer) => !c.new && c.seen.key == newcomer.key(),
        None => false,
    }
}

/// Whether the step writes or deletes this older value's key.
fn is_succeeded(scene: &Scene<'_>, c: Candidate<'_>) -> bool
    ensures { result ≡ is_succeeded (deed_in scene.now) (candidate_in scene.now c.entry) }
{
    is_rewritten(scene, c) || is_this(c.seen.key, scene.deed.deletes)
}

/// Whether the cause is true of the value.
fn is_true_cause(scene: &Scene<'_>, c: Candidate<'_>, cause: RemovalCause) -> bool
    requires { c.seen.part < 256 }
    ensures { (before : List Eligible) → IsBefore scene.now before → result ≡ is_true_cause
        scene.now.config.now before (deed_in scene.now) (candidate_in scene.now c.entry) cause }
{
    let dead = is_dead(scene.config, scene.moment, &c.seen);
    match cause {
        RemovalCause::Expired => dead,
        RemovalCause::Explicit => {
            c.seen.covered || (is_this(c.seen.key, scene.deed.deletes) && !dead)
        }
        RemovalCause::Replaced => is_rewritten(scene, c) && !dead && !c.seen.covered,
        RemovalCause::Size => c.seen.evictable || overfills(scene, c.seen.part),
    }
}

/// The first cause that is true of an older value which the step writes over or deletes.
fn first_cause(scene: &Scene<'_>, c: Candidate<'_>) -> RemovalCause
    requires { c.seen.part < 256 }
    ensures { (before : List Eligible) → IsBefore scene.now before → result ≡ first_cause
        scene.now.config.now before (deed_in scene.now) (candidate_in scene.now c.entry) }
{
    if is_true_cause(scene, c, RemovalCause::Expired) {
        RemovalCause::Expired
    } else if is_true_cause(scene, c, RemovalCause::Explicit) {
        RemovalCause::Explicit
    } else {
        RemovalCause::Replaced
    }
}

/// Returns whether the two are the same cause.
pub fn same_cause(a: RemovalCause, b: RemovalCause) -> bool
    ensures { result ≡ same_cause a b }
{
    match (a, b) {
        (RemovalCause::Expired, RemovalCause::Expired) => true,
        (RemovalCause::Explicit, RemovalCause::Explicit) => true,
        (RemovalCause::Replaced, RemovalCause::Replaced) => true,
        (RemovalCause::Size, RemovalCause::Size) => true,
        _ => false,
    }
}

/// Whether the note has the value's bytes, and a cause that it may have.
fn is_true_note(scene: &Scene<'_>, note: &Note, c: Candidate<'_>) -> bool
    requires { c.seen.part < 256 }
    ensures { (before : List Eligible) → IsBefore scene.now before
        → result ≡ is_true_note scene.now.config.now before (deed_in scene.now) note.now
        (Some (candidate_in scene.now c.entry)) }
{
    if note.value.as_slice() != c.seen.bytes {
        return false;
    }
    if is_succeeded(scene, c) && scene.deed.uses.is_none() {
        same_cause(note.cause, first_cause(scene, c))
    } else {
        is_true_cause(scene, c, note.cause)
    }
}

/// Whether a note of a key that has no older value left tells the newcomer, with a true cause; the newcomer is left no more then.
fn is_true_of_new(scene: &Scene<'_>, left: &mut bool, note: &Note) -> bool
    requires { IfSome (newcomer_in scene.now) (λ h. h.value.part < 256) }
    ensures right { IsTrueNoteOf scene.now note.now
        (find (λ c. same note.now.key c.value.key) (new_candidates_in scene.now left.old)) result }
    ensures taken { result ≡ true → without_key (λ h. h.value.key) note.now.key
        (newcomer_left left.old (newcomer_in scene.now)) ≡ [] }
    ensures left { result ≡ true → left.new ≡ false }
{
    match scene.newcomer {
        Some(newcomer) => {
            if !*left || note.key.as_slice() != newcomer.key() {
                return false;
            }
            *left = false;
            let c = Candidate {
                seen: newcomer.see(),
                new: true,
            };
            is_true_note(scene, note, c)
        }
        None => false,
    }
}

/// Takes the key's first value that is not reported yet, and returns whether the note reports it with a true cause.
fn is_true_of_first(scene: &Scene<'_>, held: &mut Holding, left: &mut bool, note: &Note) -> bool
    requires { IfSome (newcomer_in scene.now) (λ h. h.value.part < 256) }
    ensures right { IsTrueNoteOf scene.now note.now
        (first_with_key note.now.key (candidates_in scene.now held.old left.old)) result }
    ensures taken { result ≡ true
        → TakesFirstValue scene.now note.now.key held.old left.old held.new left.new }
{
    match held.take(note.key.as_slice()) {
        Some(told) => {
            let c = Candidate {
                seen: told.see(),
                new: false,
            };
            is_true_note(scene, note, c)
        }
        None => is_true_of_new(scene, left, note),
    }
}

/// Whether there is no such key, or it has no value.
fn is_absent(held: &Holding, key: Option<&[u8]>) -> bool
    ensures { result ≡ list_all (λ h. not (is_this h.value.key (option_map (λ k. k.now) key.entry)))
        held.now }
{
    match key {
        Some(key) => held.get(key).is_none(),
        None => true,
    }
}

/// Whether the newcomer is not left, or the step does not delete its key.
fn spares_new(scene: &Scene<'_>, left: bool) -> bool
    ensures { result
        ≡ list_all (λ h. not (is_this h.value.key (option_map (λ k. k.now) scene.now.deed.deletes)))
        (newcomer_left left (newcomer_in scene.now)) }
{
    match scene.newcomer {
        Some(newcomer) => !left || !is_this(newcomer.key(), scene.deed.deletes),
        None => true,
    }
}

/// The key of the newcomer.
fn new_key<'a>(scene: &Scene<'a>) -> Option<&'a [u8]>
    ensures { option_map (λ k. k.now) result
        ≡ option_map (λ h. h.value.key) (newcomer_in scene.now) }
{
    match scene.newcomer {
        Some(newcomer) => Some(newcomer.key()),
        None => None,
    }
}

/// Whether the step writes or deletes the key of none that is left.
fn are_none_succeeded(scene: &Scene<'_>, held: &Holding, left: bool) -> bool
    ensures none { result ≡ list_all (λ c. not (is_succeeded (deed_in scene.now) c))
        (candidates_in scene.now held.now left) }
    ensures absent { result ≡ true → IfSome (newcomer_in scene.now)
        (λ n. find (λ h. same n.value.key h.value.key) held.now ≡ None) }
{
    let written = is_absent(held, new_key(scene));
    let deleted = is_absent(held, scene.deed.deletes);
    let own = spares_new(scene, left);
    are_all(written, deleted, own)
}

/// Whether all are true.
fn are_all(a: bool, b: bool, c: bool) -> bool
    ensures { result ≡ ((a && b) && c) }
{
    a && b && c
}

/// Returns whether each note reports the first value of its key that is not reported yet, with a true cause, and no older value of a
/// written or deleted key is left. The values that are reported are removed; if the result is `false`, what is left means nothing.
pub fn are_true_notes(
    scene: &Scene<'_>,
    held: &mut Holding,
    left: &mut bool,
    notes: &[Note],
) -> bool
    requires small { IfSome (newcomer_in scene.now) (λ h. h.value.part < 256) }
    requires before { IsBefore scene.now
        (map (candidate_at scene.now.config.now scene.now.moment) held.old) }
    ensures right { result ≡ are_true_notes scene.now.config.now
        (map (candidate_at scene.now.config.now scene.now.moment) held.old) (deed_in scene.now)
        (candidates_in scene.now held.old left.old) notes.now }
    ensures all { result ≡ true → held.new ++ newcomer_left left.new (newcomer_in scene.now)
        ≡ untold (λ h. h.value.key) notes.now
        (held.old ++ newcomer_left left.old (newcomer_in scene.now)) }
    ensures absent { result ≡ true → IfSome (newcomer_in scene.now)
        (λ n. find (λ h. same n.value.key h.value.key) held.new ≡ None) }
{
    for note in notes {
        if !is_true_of_first(scene, held, left, note) {
            return false;
        }
    }
    are_none_succeeded(scene, held, *left)
}

//! What a step leaves held.
ghost use Rattle.std.specs.Prelude.{◌≡◌, ◌||◌, ◌<◌, ◌++◌, ℕ, Option, Some, None, true, map, option_map, IfOk, OnOk, IfSome};
ghost use Rattle.std.specs.Option.{option_to_list};
ghost use Rattle.std.specs.List.{find};
ghost use Rattle.audit_model.specs.Bytewise.{same};
ghost use Rattle.audit_model.specs.Changes.{all_held_after, newly_held};
ghost use Rattle.audit_model.specs.History.{Value};
ghost use Rattle.audit_model.specs.Notes.{tells_size, are_true_notes};
ghost use Rattle.audit_situation.specs.Held.Seeing.{held_of};
ghost use Rattle.audit_situation.specs.Held.Weights.{values_of};
ghost use Rattle.audit_situation.specs.Notes.After.{has_true_notes, sized_part, values_to_tell, is_among, used_in, covered_in, marked_by, passed_on_by, AreSized, IsJustAccepted};
ghost use Rattle.audit_situation.specs.Notes.Deeds.{covering_by, deed_with};
ghost use Rattle.audit_situation.specs.Notes.Scenes.{newcomer_left, are_told_rightly, LeavesUntold};

use crate::held::{Held, Holding, Seen};
use crate::notes::deed::{Covering, Deed};
use crate::notes::notes::{Scene, are_true_notes, same_cause};
use crate::notes::times::live;
use crate::notes::weights::{PARTS, is_over, limit_of, overfilled};
use audit_model::{Config, Note, RemovalCause};
use std::alloc::{AllocError, Global};

/// The parts of which the notes tell a value `Size`.
fn sized_parts(
    alloc: Global,
    held: &Holding,
    newcomer: Option<&Held>,
    notes: &[Note],
) -> Result<Vec<u64>, AllocError>
    ensures { IfOk result (λ parts. (part : ℕ) → is_among parts.items part ≡ tells_size part
        (values_to_tell held.now (option_map (λ h. h.now) newcomer.entry)) notes.now) }
{
    let mut parts = Vec::new(alloc);
    for note in notes {
        if let Some(part) = sized_part(held, newcomer, note) {
            parts.push(part)?;
        }
    }
    Ok(parts)
}

/// The part of which the note tells a value `Size`.
fn sized_part(held: &Holding, newcomer: Option<&Held>, note: &Note) -> Option<u64>
    ensures { result ≡ sized_part (values_to_tell held.now (option_map (λ h. h.now) newcomer.entry))
        note.now }
{
    if !same_cause(note.cause, RemovalCause::Size) {
        return None;
    }
    match held.get(note.key.as_slice()) {
        Some(seen) => Some(part_of(seen)),
        None => new_part(newcomer, note.key.as_slice()),
    }
}

/// The part of a value.
fn part_of(seen: Seen<'_>) -> u64
    ensures { result ≡ (held_of seen.entry).value.part }
{
    seen.part
}

/// The part of the newcomer, if there is one, and it is of that key.
fn new_part(newcomer: Option<&Held>, key: &[u8]) -> Option<u64>
    ensures { result ≡ option_map (λ h. h.value.part) (find (λ h. same key.now h.value.key)
        (option_to_list (option_map (λ h. h.now) newcomer.entry))) }
{
    match newcomer {
        Some(newcomer) => {
            if key == newcomer.key() {
                Some(newcomer.part())
            } else {
                None
            }
        }
        None => None,
    }
}

/// Judges a step's notes, and removes the values that they report. Also returns whether the newcomer is left.
fn judge_notes(
    alloc: Global,
    config: &Config,
    now: u64,
    held: &mut Holding,
    deed: Deed<'_>,
    newcomer: Option<&Held>,
    notes: &[Note],
) -> Result<(bool, bool), AllocError>
    requires { IfSome (option_map (λ h. h.now) newcomer) (λ h. h.value.part < 256) }
    ensures right { IfOk result (λ r. r.0 ≡ are_told_rightly config.now now held.old deed.entry
        (option_map (λ h. h.now) newcomer.entry) notes.now) }
    ensures all { IfOk result (λ r. r.0 ≡ true
        → LeavesUntold notes.now (option_map (λ h. h.now) newcomer.entry) held.old held.new r.1) }
    ensures absent { IfOk result (λ r. r.0 ≡ true → IfSome (option_map (λ h. h.now) newcomer.entry)
        (λ n. find (λ h. same n.value.key h.value.key) held.new ≡ None)) }
{
    let marks = overfilled(alloc, config, held, newcomer)?;
    let scene = Scene {
        config,
        moment: now,
        newcomer,
        deed,
        overfilled: marks.as_slice(),
    };
    let mut left = true;
    let right = are_true_notes(&scene, held, &mut left, notes);
    Ok((right, left))
}

/// Adds the newcomer, if there is one that is left.
fn add(held: &mut Holding, newcomer: Option<Held>, left: bool) -> Result<(), AllocError>
    requires small { IfSome newcomer (λ h. h.value.part < 256) }
    requires new { IfSome newcomer (λ h. h ≡ newly_held h.value) }
    requires absent { IfSome newcomer
        (λ n. find (λ h. same n.value.key h.value.key) held.old ≡ None) }
    ensures { OnOk result (held.new ≡ held.old ++ newcomer_left left newcomer) }
{
    match newcomer {
        Some(newcomer) => add_left(held, newcomer, left),
        None => Ok(()),
    }
}

/// Adds the newcomer, if it is left.
fn add_left(held: &mut Holding, newcomer: Held, left: bool) -> Result<(), AllocError>
    requires small { newcomer.value.part < 256 }
    requires new { newcomer ≡ newly_held newcomer.value }
    requires absent { find (λ h. same newcomer.value.key h.value.key) held.old ≡ None }
    ensures { OnOk result (held.new ≡ held.old ++ newcomer_left left (Some newcomer)) }
{
    if left { held.add(newcomer) } else { Ok(()) }
}

/// Uses the value that a step looks up, if it is live.
fn use_live(config: &Config, now: u64, uses: Option<&[u8]>, held: &mut Holding)
    ensures { held.new ≡ map (used_in config.now now (option_map (λ k. k.now) uses.entry))
        held.old }
{
    let _number = held.len();
    if let Some(key) = uses {
        if live(config, now, held, key).is_some() {
            held.use_at(key, now);
        }
    }
}

/// Covers the values that a step covers.
fn cover(covers: Covering<'_>, held: &mut Holding) -> Result<(), AllocError>
    ensures { OnOk result (held.new ≡ map (covered_in (covering_by covers.entry)) held.old) }
{
    match covers {
        Covering::Nothing => Ok(()),
        Covering::Everything => held.cover(b""),
        Covering::Prefixed(prefix) => held.cover(prefix),
    }
}

/// Whether earlier points of a part count no more.
fn is_anew(syncs: bool, sized: &[u64], part: u64) -> bool
    ensures { result ≡ (syncs || is_among sized.now part) }
{
    syncs || sized.contains(&part)
}

/// Marks each part by what it weighs.
fn mark_all(config: &Config, syncs: bool, sized: &[u64], held: &mut Holding)
    ensures { held.new ≡ map (marked_by config.now syncs sized.now (values_of held.old)) held.old }
{
    let limit = limit_of(config);
    let _number = held.len();
    for part in 0..PARTS {
        let over = is_over(config, limit, held, part);
        let anew = is_anew(syncs, sized, part as u64);
        held.mark(part, over, anew);
    }
}

/// Does to each value that stays what the step does to it.
fn pass_on(
    config: &Config,
    now: u64,
    deed: &Deed<'_>,
    sized: &[u64],
    held: &mut Holding,
) -> Result<(), AllocError>
    ensures { OnOk result ((value : Option Value) → held.new ≡ map (passed_on_by config.now now
        (deed_with deed.entry.now value) sized.now (values_of held.old)) held.old) }
{
    use_live(config, now, deed.uses, held);
    cover(deed.covers, held)?;
    mark_all(config, deed.syncs, sized, held);
    Ok(())
}

/// Judges a step's notes, and does to the values held what the step does. Returns whether the notes are true; if they are not, the values
/// held mean nothing. Returns an error if there is not enough memory.
pub fn do_deed(
    alloc: Global,
    config: &Config,
    now: u64,
    held: &mut Holding,
    deed: &Deed<'_>,
    newcomer: Option<Held>,
    notes: &[Note],
) -> Result<bool, AllocError>
    requires new { IfSome newcomer (IsJustAccepted now) }
    requires small { IfSome newcomer (λ h. h.value.part < 256) }
    ensures told { IfOk result (λ b. b ≡ has_true_notes config.now now held.old
        (deed_with deed.entry.now (option_map (λ h. h.value) newcomer)) notes.now) }
    ensures left { IfOk result (λ b. b ≡ true → held.new ≡ all_held_after config.now now held.old
        (deed_with deed.entry.now (option_map (λ h. h.value) newcomer)) notes.now) }
{
    let sized = sized_parts(alloc, held, newcomer.as_ref(), notes)?;
    do_sized(alloc, config, now, held, deed, newcomer, notes, &sized)
}

/// The same, with the parts of which the notes tell a value `Size`.
fn do_sized(
    alloc: Global,
    config: &Config,
    now: u64,
    held: &mut Holding,
    deed: &Deed<'_>,
    newcomer: Option<Held>,
    notes: &[Note],
    sized: &[u64],
) -> Result<bool, AllocError>
    requires new { IfSome newcomer (IsJustAccepted now) }
    requires small { IfSome newcomer (λ h. h.value.part < 256) }
    requires sized { AreSized config.now now held.old
        (deed_with deed.now (option_map (λ h. h.value) newcomer)) notes.now sized.now }
    ensures told { IfOk result (λ b. b ≡ has_true_notes config.now now held.old
        (deed_with deed.entry.now (option_map (λ h. h.value) newcomer)) notes.now) }
    ensures left { IfOk result (λ b. b ≡ true → held.new ≡ all_held_after config.now now held.old
        (deed_with deed.entry.now (option_map (λ h. h.value) newcomer)) notes.now) }
{
    let (right, left) = judge_notes(alloc, config, now, held, *deed, newcomer.as_ref(), notes)?;
    if !right {
        return Ok(false);
    }
    add(held, newcomer, left)?;
    pass_on(config, now, deed, sized, held)?;
    Ok(true)
}

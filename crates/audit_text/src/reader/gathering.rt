//! Items, gathered to a transcript.
ghost use Rattle.std.specs.Prelude.{◌≡◌, ◌++◌, ◌∷◌, [], IfOk, IsTrue, OnOk, Some, None, option_map};
ghost use Rattle.std.specs.List.{flat_map};
ghost use Rattle.std.specs.Option.{option_map_or};
ghost use Rattle.audit_text.specs.Reader.Fields.{IsRead};
ghost use Rattle.audit_text.specs.Reader.Gathered.{gathered_text, item_line};
ghost use Rattle.audit_text.specs.Reader.Gathering as said;
ghost use Rattle.audit_text.specs.Reader.Gathering.{IsMade};
ghost use Rattle.audit_text.specs.Text.{record_text, step_text, transcript_text};

use crate::reader::fields::LineFault;
use crate::reader::item::Item;
use audit_model::{Accepted, Config, Event, Instant, Note, Record, Seq, Step, Transcript};
use std::alloc::Global;

/// What was gathered: the records that are whole, and the last record and the last step, which may go on.
#[derive(Drop)]
pub struct Gathered {
    /// The configuration, once it was read.
    pub config: Option<Config>,
    /// The moment of creation, once it was read.
    pub made: Option<Instant>,
    /// The records that are whole.
    pub records: Seq<Record>,
    /// The last record, to which steps may still be added.
    pub last: Option<Record>,
    /// The last step, to which notes may still be added.
    pub step: Option<Step>,
}

/// Creates the state in which nothing was gathered.
pub fn nothing(alloc: Global) -> Gathered
    ensures text { gathered_text result ≡ [] }
    ensures said { result ≡ said.none_gathered }
{
    Gathered {
        config: None,
        made: None,
        records: Seq::new(alloc),
        last: None,
        step: None,
    }
}

/// Appends an item. Returns `Form` if the item may not come there, and `OutOfMemory` if there is not enough memory.
pub fn add_item(alloc: Global, gathered: &mut Gathered, item: Item) -> Result<(), LineFault>
    ensures text { OnOk result
        (gathered_text gathered.new ≡ gathered_text gathered.old ++ item_line item) }
    ensures said { IsMade (said.add_item gathered.old item) result gathered.new }
{
    match item {
        Item::Config(config) => add_config(gathered, config),
        Item::Made(made) => add_made(gathered, made),
        Item::Event(event) => add_event(alloc, gathered, event),
        Item::Own(own) => add_own(gathered, own),
        Item::OwnNote(note) => add_own_note(gathered, note),
        Item::Step(step) => add_step(gathered, step),
        Item::Note(note) => add_note(gathered, note),
    }
}

#[tactic(auto, unfolding(crate::specs::Reader::Gathering::add_config))]
fn add_config(gathered: &mut Gathered, config: Config) -> Result<(), LineFault>
    ensures text { OnOk result (gathered_text gathered.new ≡ gathered_text gathered.old
        ++ item_line (Item.Config config)) }
    ensures said { IsMade (said.add_config gathered.old config) result gathered.new }
{
    if gathered.config.is_some() || !has_no_records(gathered) || gathered.made.is_some() {
        return Err(LineFault::Form);
    }
    gathered.config = Some(config);
    Ok(())
}

#[tactic(auto, unfolding(crate::specs::Reader::Gathering::add_made))]
fn add_made(gathered: &mut Gathered, made: Instant) -> Result<(), LineFault>
    ensures text { OnOk result
        (gathered_text gathered.new ≡ gathered_text gathered.old ++ item_line (Item.Made made)) }
    ensures said { IsMade (said.add_made gathered.old made) result gathered.new }
{
    if gathered.config.is_none() || !has_no_records(gathered) || gathered.made.is_some() {
        return Err(LineFault::Form);
    }
    gathered.made = Some(made);
    Ok(())
}

/// Whether no record has begun.
fn has_no_records(gathered: &Gathered) -> bool
    ensures said { result ≡ said.has_no_records gathered.now }
    ensures none { IsTrue result → ((gathered.now.records ≡ []) × (gathered.now.last ≡ None)
        × (gathered.now.step ≡ None)) }
{
    gathered.records.len() == 0 && gathered.last.is_none() && gathered.step.is_none()
}

#[tactic(auto, unfolding(crate::specs::Reader::Gathering::add_event))]
fn add_event(alloc: Global, gathered: &mut Gathered, event: Event) -> Result<(), LineFault>
    ensures text { OnOk result
        (gathered_text gathered.new ≡ gathered_text gathered.old ++ item_line (Item.Event event)) }
    ensures said { IsMade (said.add_event gathered.old event) result gathered.new }
{
    if gathered.made.is_none() {
        return Err(LineFault::Form);
    }
    close(gathered)?;
    gathered.last = Some(begin_record(alloc, event));
    Ok(())
}

/// A record of an event, with nothing else.
fn begin_record(alloc: Global, event: Event) -> Record
    ensures { result ≡ said.begun event }
{
    Record {
        event,
        own: None,
        notices: Seq::new(alloc),
        steps: Seq::new(alloc),
    }
}

/// Puts the last step to its record.
fn close_step(gathered: &mut Gathered) -> Result<(), LineFault>
    ensures text { OnOk result (gathered_text gathered.new ≡ gathered_text gathered.old) }
    ensures step { OnOk result (gathered.new.step ≡ None) }
    ensures said { IsMade (said.closed_step gathered.old) result gathered.new }
{
    match gathered.step.take() {
        Some(step) => put_last_step(&mut gathered.last, step),
        None => Ok(()),
    }
}

/// Adds the last step to the last record, if there is one.
fn put_last_step(last: &mut Option<Record>, step: Step) -> Result<(), LineFault>
    ensures text { OnOk result (option_map_or record_text last.new []
        ≡ option_map_or record_text last.old [] ++ step_text step) }
    ensures said { IsMade (option_map (λ r. Some (said.with_step r step)) last.old) result
        last.new }
{
    match last {
        Some(record) => put_step(record, step),
        None => Err(LineFault::Form),
    }
}

/// Adds a step to a record.
#[tactic(auto, using(crate::proofs::reader::Growing::flat_map_push))]
fn put_step(last: &mut Record, step: Step) -> Result<(), LineFault>
    ensures text { OnOk result
        (record_text last.new ≡ record_text last.old ++ step_text step) }
    ensures said { IsMade (Some (said.with_step last.old step)) result last.new }
{
    last.steps.push(step)?;
    Ok(())
}

/// Puts the last record to the others.
#[tactic(auto, using(crate::proofs::reader::Growing::flat_map_push))]
fn close_record(gathered: &mut Gathered) -> Result<(), LineFault>
    requires { gathered.old.step ≡ None }
    ensures text { OnOk result (gathered_text gathered.new ≡ gathered_text gathered.old) }
    ensures step { OnOk result (gathered.new.step ≡ None) }
    ensures closed { OnOk result (gathered.new.last ≡ None) }
    ensures said { IsMade (Some (said.closed_record gathered.old)) result gathered.new }
{
    match gathered.last.take() {
        Some(record) => put_record(&mut gathered.records, record),
        None => Ok(()),
    }
}

/// Adds a record to the others.
#[tactic(auto, using(crate::proofs::reader::Growing::flat_map_push))]
fn put_record(records: &mut Seq<Record>, last: Record) -> Result<(), LineFault>
    ensures text { OnOk result (flat_map record_text records.new ≡ flat_map record_text records.old
        ++ record_text last) }
    ensures said { IsMade (Some (records.old ++ last ∷ [])) result records.new }
{
    records.push(last)?;
    Ok(())
}

#[tactic(auto, unfolding(crate::specs::Reader::Gathering::add_own))]
fn add_own(gathered: &mut Gathered, own: Accepted) -> Result<(), LineFault>
    ensures text { OnOk result
        (gathered_text gathered.new ≡ gathered_text gathered.old ++ item_line (Item.Own own)) }
    ensures said { IsMade (said.add_own gathered.old own) result gathered.new }
{
    if gathered.step.is_some() {
        return Err(LineFault::Form);
    }
    match &mut gathered.last {
        Some(record) => put_own(record, own),
        None => Err(LineFault::Form),
    }
}

/// Says in a record which part took the answer's value.
fn put_own(last: &mut Record, own: Accepted) -> Result<(), LineFault>
    ensures text { OnOk result
        (record_text last.new ≡ record_text last.old ++ item_line (Item.Own own)) }
    ensures said { IsMade (said.with_own last.old own) result last.new }
{
    if last.own.is_some() || last.notices.len() != 0 || last.steps.len() != 0 {
        return Err(LineFault::Form);
    }
    last.own = Some(own);
    Ok(())
}

#[tactic(auto, unfolding(crate::specs::Reader::Gathering::add_own_note))]
fn add_own_note(gathered: &mut Gathered, note: Note) -> Result<(), LineFault>
    ensures text { OnOk result
        (gathered_text gathered.new ≡ gathered_text gathered.old ++ item_line (Item.OwnNote note)) }
    ensures said { IsMade (said.add_own_note gathered.old note) result gathered.new }
{
    if gathered.step.is_some() {
        return Err(LineFault::Form);
    }
    match &mut gathered.last {
        Some(record) => put_own_note(record, note),
        None => Err(LineFault::Form),
    }
}

/// Adds a note of its event's own step to a record.
#[tactic(auto, using(crate::proofs::reader::Growing::flat_map_push))]
fn put_own_note(last: &mut Record, note: Note) -> Result<(), LineFault>
    ensures text { OnOk result
        (record_text last.new ≡ record_text last.old ++ item_line (Item.OwnNote note)) }
    ensures said { IsMade (said.with_own_note last.old note) result last.new }
{
    if last.steps.len() != 0 {
        return Err(LineFault::Form);
    }
    last.notices.push(note)?;
    Ok(())
}

#[tactic(auto, unfolding(crate::specs::Reader::Gathering::add_step))]
fn add_step(gathered: &mut Gathered, step: Step) -> Result<(), LineFault>
    ensures text { OnOk result
        (gathered_text gathered.new ≡ gathered_text gathered.old ++ item_line (Item.Step step)) }
    ensures said { IsMade (said.add_step gathered.old step) result gathered.new }
{
    if gathered.last.is_none() {
        return Err(LineFault::Form);
    }
    close_step(gathered)?;
    gathered.step = Some(step);
    Ok(())
}

#[tactic(auto, unfolding(crate::specs::Reader::Gathering::add_note))]
fn add_note(gathered: &mut Gathered, note: Note) -> Result<(), LineFault>
    ensures text { OnOk result
        (gathered_text gathered.new ≡ gathered_text gathered.old ++ item_line (Item.Note note)) }
    ensures said { IsMade (said.add_note gathered.old note) result gathered.new }
{
    match &mut gathered.step {
        Some(step) => put_note(step, note),
        None => Err(LineFault::Form),
    }
}

/// Adds a note to a step.
#[tactic(auto, using(crate::proofs::reader::Growing::flat_map_push))]
fn put_note(step: &mut Step, note: Note) -> Result<(), LineFault>
    ensures text { OnOk result
        (step_text step.new ≡ step_text step.old ++ item_line (Item.Note note)) }
    ensures said { IsMade (Some (said.with_note step.old note)) result step.new }
{
    step.notices.push(note)?;
    Ok(())
}

/// Puts the last step to its record, and that to the others.
fn close(gathered: &mut Gathered) -> Result<(), LineFault>
    ensures text { OnOk result (gathered_text gathered.new ≡ gathered_text gathered.old) }
    ensures step { OnOk result (gathered.new.step ≡ None) }
    ensures closed { OnOk result (gathered.new.last ≡ None) }
    ensures said { IsMade (option_map said.closed_record (said.closed_step gathered.old)) result
        gathered.new }
{
    close_step(gathered)?;
    close_record(gathered)
}

/// Returns the transcript with its configuration. Returns `Form` if not both lines at the front were read, and `OutOfMemory` if there is
/// not enough memory.
#[tactic(auto, unfolding(crate::specs::Reader::Gathering::finished))]
pub fn finish(mut gathered: Gathered) -> Result<(Config, Transcript), LineFault>
    ensures text { IfOk result (λ r. transcript_text r.0 r.1 ≡ gathered_text gathered) }
    ensures said { IsRead (said.finished gathered) result }
{
    close(&mut gathered)?;
    let Gathered {
        config,
        made,
        records,
        last: _,
        step: _,
    } = gathered;
    join(config, made, records)
}

/// The transcript of these records, if both lines at the front were read.
#[tactic(auto, unfolding(crate::specs::Reader::Gathering::finished))]
fn join(
    config: Option<Config>,
    made: Option<Instant>,
    records: Seq<Record>,
) -> Result<(Config, Transcript), LineFault>
    ensures text { IfOk result (λ r. transcript_text r.0 r.1 ≡ gathered_text (record
        { config = config; made = made; records = records; last = None; step = None })) }
    ensures said { IsRead (said.finished
        (record { config = config; made = made; records = records; last = None; step = None }))
        result }
{
    let Some(config) = config else {
        return Err(LineFault::Form);
    };
    let Some(made) = made else {
        return Err(LineFault::Form);
    };
    Ok((config, Transcript { made, records }))
}

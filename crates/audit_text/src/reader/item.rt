//! What one line of a transcript says.
ghost use Rattle.std.specs.Prelude.{◌≡◌, ◌++◌, ◌∷◌, [], IfOk, OnOk, bytes_eq, option_map, Some, None, if◌then◌else◌};
ghost use Rattle.audit_model.specs.Grammar.{number_in};
ghost use Rattle.audit_text.specs.Reader.Fields.{IsRead, IsReadOff, field, part_in_words, words_left};
ghost use Rattle.audit_text.specs.Reader.Gathered.{item_line};
ghost use Rattle.audit_text.specs.Reader.Gathering.{IsMade};
ghost use Rattle.audit_text.specs.Reader.Items.{config_in_words, item_of_kind, feed_in_words, value_in_words, outcome_of, answer_in_words, give_up_in_words, event_of, note_in_words, step_in_words, item_of, words_in, item_in};
ghost use Rattle.audit_text.specs.Reader.Lines.{line_words};

use crate::reader::fields::{LineFault, Words};
use crate::{put_config, put_event, put_made, put_note, put_own, put_whole_step};
use audit_model::{Accepted, Config, Event, Instant, Note, NoteKey, Outcome, Seq, Step};
use std::alloc::{AllocError, Global};

/// What one line of a transcript says.
#[derive(Drop)]
pub enum Item {
    /// The settings.
    Config(Config),
    /// The moment of creation.
    Made(Instant),
    /// An event, which begins a record.
    Event(Event),
    /// The part that took an answer's value.
    Own(Accepted),
    /// A note of an answer's own step.
    OwnNote(Note),
    /// A step, without its notes.
    Step(Step),
    /// A note of the step above.
    Note(Note),
}

/// Returns what a line says. Returns `Form` if the line is malformed, and `OutOfMemory` if there is not enough memory. A line is
/// well-formed only as it would be written: its text is compared.
#[tactic(auto, unfolding(crate::specs::Reader::Items::item_in))]
pub fn read_item(alloc: Global, line: &[u8]) -> Result<Item, LineFault>
    ensures written { IfOk result (λ i. item_line i ≡ line.now ++ 10 ∷ []) }
    ensures said { IsRead (item_in line.now) result }
{
    let item = parse_item(alloc, line)?;
    check_item(alloc, &item, line).and(Ok(item))
}

/// That an item would be written as this line.
fn check_item(alloc: Global, item: &Item, line: &[u8]) -> Result<(), LineFault>
    ensures written { OnOk result (item_line item.now ≡ line.now ++ 10 ∷ []) }
    ensures said { IsMade
        (if bytes_eq (item_line item.now) (line.now ++ 10 ∷ []) then Some item.now else None) result
        item.now }
{
    let mut text = Vec::new(alloc);
    put_item(&mut text, item)?;
    if is_line(text.as_slice(), line) {
        Ok(())
    } else {
        Err(LineFault::Form)
    }
}

/// Returns whether the text is the line with its line feed.
pub fn is_line(text: &[u8], line: &[u8]) -> bool
    ensures { result ≡ bytes_eq text.now (line.now ++ 10 ∷ []) }
{
    match text.strip_suffix(b"\n") {
        Some(front) => front == line,
        None => false,
    }
}

/// Writes an item.
fn put_item(text: &mut Vec<u8>, item: &Item) -> Result<(), AllocError>
    ensures { OnOk result (text.new.items ≡ text.old.items ++ item_line item.now) }
{
    match item {
        Item::Config(config) => put_config(text, config),
        Item::Made(made) => put_made(text, *made),
        Item::Event(event) => put_event(text, event),
        Item::Own(own) => put_own(text, Some(*own)),
        Item::OwnNote(note) => put_note(text, b"ownnote", note),
        Item::Step(step) => put_whole_step(text, step),
        Item::Note(note) => put_note(text, b"note", note),
    }
}

/// Reads a line, not so strictly.
#[tactic(auto, unfolding(crate::specs::Reader::Items::words_in))]
fn parse_item(alloc: Global, line: &[u8]) -> Result<Item, LineFault>
    ensures { IsRead (words_in (line_words line.now)) result }
{
    let mut words = Words::new(line);
    let kind = words.next()?;
    let item = parse_kind(alloc, kind, &mut words)?;
    words.end().and(Ok(item))
}

/// What is said behind the word that names its kind.
#[tactic(auto, unfolding(crate::specs::Reader::Items::item_of))]
fn parse_kind(alloc: Global, kind: &[u8], words: &mut Words<'_>) -> Result<Item, LineFault>
    ensures { IsReadOff (item_of kind.now (words_left words.old)) result (words_left words.new) }
{
    if kind == b"step".as_slice() {
        parse_step(alloc, words)
    } else if kind == b"note".as_slice() {
        parse_note(alloc, words)
    } else if kind == b"own".as_slice() {
        parse_own(words)
    } else if kind == b"ownnote".as_slice() {
        parse_own_note(alloc, words)
    } else {
        parse_head(alloc, kind, words)
    }
}

/// A line of a transcript's head, or an event, as an item.
fn parse_head(alloc: Global, kind: &[u8], words: &mut Words<'_>) -> Result<Item, LineFault>
    ensures { IsReadOff (item_of_kind kind.now (words_left words.old)) result
        (words_left words.new) }
{
    if kind == b"config".as_slice() {
        parse_config(words)
    } else if kind == b"made".as_slice() {
        parse_made(words)
    } else {
        parse_event(alloc, kind, words)
    }
}

/// A step, as an item.
fn parse_step(alloc: Global, words: &mut Words<'_>) -> Result<Item, LineFault>
    ensures { IsReadOff
        (option_map (λ step. (Item.Step step.0, step.1)) (step_in_words (words_left words.old)))
        result (words_left words.new) }
{
    let step = read_step(alloc, words)?;
    Ok(Item::Step(step))
}

/// A note of a step, as an item.
fn parse_note(alloc: Global, words: &mut Words<'_>) -> Result<Item, LineFault>
    ensures { IsReadOff
        (option_map (λ note. (Item.Note note.0, note.1)) (note_in_words (words_left words.old)))
        result (words_left words.new) }
{
    let note = read_note(alloc, words)?;
    Ok(Item::Note(note))
}

/// The part that took an answer's value, as an item.
fn parse_own(words: &mut Words<'_>) -> Result<Item, LineFault>
    ensures { IsReadOff (option_map (λ part. (Item.Own part.0, part.1))
        (field part_in_words (words_left words.old))) result (words_left words.new) }
{
    let own = words.part()?;
    Ok(Item::Own(own))
}

/// A note of an answer's own step, as an item.
fn parse_own_note(alloc: Global, words: &mut Words<'_>) -> Result<Item, LineFault>
    ensures { IsReadOff
        (option_map (λ note. (Item.OwnNote note.0, note.1)) (note_in_words (words_left words.old)))
        result (words_left words.new) }
{
    let note = read_note(alloc, words)?;
    Ok(Item::OwnNote(note))
}

/// The settings, as an item.
fn parse_config(words: &mut Words<'_>) -> Result<Item, LineFault>
    ensures { IsReadOff (option_map (λ config. (Item.Config config.0, config.1))
        (config_in_words (words_left words.old))) result (words_left words.new) }
{
    let config = read_config(words)?;
    Ok(Item::Config(config))
}

/// The moment of the making, as an item.
fn parse_made(words: &mut Words<'_>) -> Result<Item, LineFault>
    ensures { IsReadOff (option_map (λ nanos. (Item.Made (record { nanos = nanos.0 }), nanos.1))
        (field number_in (words_left words.old))) result (words_left words.new) }
{
    let nanos = words.number()?;
    Ok(Item::Made(Instant { nanos }))
}

/// The event that a word begins, as an item.
fn parse_event(alloc: Global, kind: &[u8], words: &mut Words<'_>) -> Result<Item, LineFault>
    ensures { IsReadOff (option_map (λ event. (Item.Event event.0, event.1))
        (event_of kind.now (words_left words.old))) result (words_left words.new) }
{
    let event = read_event(alloc, kind, words)?;
    Ok(Item::Event(event))
}

/// Returns the settings behind the word `config`. Returns `Form` if they are malformed.
#[tactic(auto, unfolding(crate::specs::Reader::Items::config_in_words))]
pub fn read_config(words: &mut Words<'_>) -> Result<Config, LineFault>
    ensures { IsReadOff (config_in_words (words_left words.old)) result (words_left words.new) }
{
    let capacity = words.number_or_none_setting(b"capacity=")?;
    let policy = words.policy_setting(b"policy=")?;
    let parts = words.number_setting(b"parts=")?;
    let weight = words.weight_setting(b"weight=")?;
    let live_ms = words.number_or_none_setting(b"live_ms=")?;
    let idle_ms = words.number_or_none_setting(b"idle_ms=")?;
    let own_deadlines = words.flag_setting(b"deadlines=")?;
    if parts > u64::from(u32::MAX) {
        return Err(LineFault::Form);
    }
    Ok(Config {
        capacity,
        policy,
        parts: parts as u32,
        weight,
        live_ms,
        idle_ms,
        own_deadlines,
    })
}

/// Returns the event that a word begins. Returns `Form` if it is malformed, and `OutOfMemory` if there is not enough memory.
#[tactic(auto, unfolding(crate::specs::Reader::Items::event_of))]
pub fn read_event(alloc: Global, kind: &[u8], words: &mut Words<'_>) -> Result<Event, LineFault>
    ensures { IsReadOff (event_of kind.now (words_left words.old)) result (words_left words.new) }
{
    if kind == b"feed".as_slice() {
        read_feed(alloc, words)
    } else if kind == b"answer".as_slice() {
        read_answer(alloc, words)
    } else if kind == b"giveup".as_slice() {
        read_give_up(words)
    } else if kind == b"open".as_slice() {
        read_open(words)
    } else if kind == b"close".as_slice() {
        read_close(words)
    } else {
        Err(LineFault::Form)
    }
}

/// That a connection opens, behind its word.
fn read_open(words: &mut Words<'_>) -> Result<Event, LineFault>
    ensures { IsReadOff
        (option_map (λ conn. (Event.Open conn.0, conn.1)) (field number_in (words_left words.old)))
        result (words_left words.new) }
{
    let conn = words.number()?;
    Ok(Event::Open { conn })
}

/// That a connection closes, behind its word.
fn read_close(words: &mut Words<'_>) -> Result<Event, LineFault>
    ensures { IsReadOff
        (option_map (λ conn. (Event.Close conn.0, conn.1)) (field number_in (words_left words.old)))
        result (words_left words.new) }
{
    let conn = words.number()?;
    Ok(Event::Close { conn })
}

/// A piece of a connection's bytes, behind its word.
#[tactic(auto, unfolding(crate::specs::Reader::Items::feed_in_words))]
fn read_feed(alloc: Global, words: &mut Words<'_>) -> Result<Event, LineFault>
    ensures { IsReadOff (feed_in_words (words_left words.old)) result (words_left words.new) }
{
    let conn = words.number()?;
    let nanos = words.number()?;
    let piece = words.bytes(alloc)?;
    Ok(Event::Feed {
        conn,
        piece,
        moment: Instant { nanos },
    })
}

/// An answer, behind its word.
#[tactic(auto, unfolding(crate::specs::Reader::Items::answer_in_words))]
fn read_answer(alloc: Global, words: &mut Words<'_>) -> Result<Event, LineFault>
    ensures { IsReadOff (answer_in_words (words_left words.old)) result (words_left words.new) }
{
    let load = words.number()?;
    let nanos = words.number()?;
    let kind = words.next()?;
    let outcome = read_outcome(alloc, kind, words)?;
    Ok(Event::Answer {
        load,
        outcome,
        moment: Instant { nanos },
    })
}

/// That a load was given up, behind its word.
#[tactic(auto, unfolding(crate::specs::Reader::Items::give_up_in_words))]
fn read_give_up(words: &mut Words<'_>) -> Result<Event, LineFault>
    ensures { IsReadOff (give_up_in_words (words_left words.old)) result (words_left words.new) }
{
    let load = words.number()?;
    let nanos = words.number()?;
    Ok(Event::GiveUp {
        load,
        moment: Instant { nanos },
    })
}

/// What a loader answered, behind the word that names its kind.
#[tactic(auto, unfolding(crate::specs::Reader::Items::outcome_of))]
fn read_outcome(alloc: Global, kind: &[u8], words: &mut Words<'_>) -> Result<Outcome, LineFault>
    ensures { IsReadOff (outcome_of kind.now (words_left words.old)) result (words_left words.new) }
{
    if kind == b"value".as_slice() {
        read_value(alloc, words)
    } else if kind == b"none".as_slice() {
        Ok(Outcome::None)
    } else if kind == b"fault".as_slice() {
        let text = words.bytes(alloc)?;
        Ok(Outcome::Fault(text))
    } else {
        Err(LineFault::Form)
    }
}

/// A loader's value, behind its word.
#[tactic(auto, unfolding(crate::specs::Reader::Items::value_in_words))]
fn read_value(alloc: Global, words: &mut Words<'_>) -> Result<Outcome, LineFault>
    ensures { IsReadOff (value_in_words (words_left words.old)) result (words_left words.new) }
{
    let bytes = words.bytes(alloc)?;
    let ms = words.number_or_none()?;
    Ok(Outcome::Value(bytes, ms))
}

/// A note behind its word.
#[tactic(auto, unfolding(crate::specs::Reader::Items::note_in_words))]
fn read_note(alloc: Global, words: &mut Words<'_>) -> Result<Note, LineFault>
    ensures { IsReadOff (note_in_words (words_left words.old)) result (words_left words.new) }
{
    let cause = words.cause()?;
    let key = words.bytes(alloc)?;
    let value = words.bytes(alloc)?;
    Ok(Note {
        cause,
        key: NoteKey::from(key.into_vec()),
        value,
    })
}

/// A step behind its word, without notes.
#[tactic(auto, unfolding(crate::specs::Reader::Items::step_in_words))]
fn read_step(alloc: Global, words: &mut Words<'_>) -> Result<Step, LineFault>
    ensures { IsReadOff (step_in_words (words_left words.old)) result (words_left words.new) }
{
    let conn = words.number()?;
    let held = words.held()?;
    let line = words.bytes(alloc)?;
    let reply = words.bytes_or_none(alloc)?;
    let load = words.number_or_none()?;
    let accepted = words.part_or_none()?;
    Ok(Step {
        conn,
        line,
        held,
        reply,
        load,
        accepted,
        notices: Seq::new(alloc),
    })
}

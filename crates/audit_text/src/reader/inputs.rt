//! Inputs for a replay.
ghost use Rattle.std.specs.Prelude.{◌≡◌, ◌++◌, ◌∷◌, [], IfOk, IsTrue, OnOk, None, Some, bytes_eq, if◌then◌else◌, option_map};
ghost use Rattle.audit_text.specs.Words.{line};
ghost use Rattle.audit_text.specs.Reader.Entries.{IsReplay, add_entry, asked_of, begin_config, begin_input, begin_lines, begin_made, begun_text, entry_in, entry_line, entry_of, entry_words_in, has_only_configs, input_in, input_asking, replay_reading};
ghost use Rattle.audit_model.specs.Grammar.{number_in};
ghost use Rattle.audit_text.specs.Reader.Fields.{IsRead, IsReadOff, field, words_left};
ghost use Rattle.audit_text.specs.Reader.Gathering.{IsMade, IsReadText};
ghost use Rattle.audit_text.specs.Reader.Items.{config_in_words};
ghost use Rattle.audit_text.specs.Reader.Inputs.{FitsReplay, asked_words, input_words, replay_text};
ghost use Rattle.audit_text.specs.Reader.Lines.{kept, telling_line, said_line, line_words};

use crate::reader::fields::{LineFault, TextError, Words};
use crate::reader::item::{is_line, read_config, read_event};
use crate::reader::lines::{cut_line, is_skipped};
use crate::{put, put_answer, put_close, put_config, put_feed, put_give_up, put_made, put_number};
use audit_model::{Config, Conn, Event, Input, Instant, LoadId, Seq};
use std::alloc::{AllocError, Global};

/// What is played: configurations, the moment of creation, and inputs.
#[derive(Drop)]
pub struct Replay {
    /// The configuration of each namespace, in order.
    pub configs: Seq<Config>,
    /// The moment of creation.
    pub made: Instant,
    /// The inputs, in order.
    pub inputs: Seq<Input>,
}

/// What was read so far of a text of inputs.
#[derive(Drop)]
pub struct Begun {
    /// The configurations that were read.
    pub configs: Seq<Config>,
    /// The moment of creation, once it was read.
    pub made: Option<Instant>,
    /// The inputs that were read.
    pub inputs: Seq<Input>,
}

/// What one line of inputs says.
#[derive(Drop)]
pub enum InputLine {
    /// The settings of a namespace.
    Config(Config),
    /// The moment of creation.
    Made(Instant),
    /// An input.
    Input(Input),
}

/// Returns the inputs that a text writes: one or more lines `config`, a line `made`, and lines `input`.
///
/// What is read has this text, except for empty lines and comments. Otherwise the call returns `Line` with the number of the malformed
/// line, or `OutOfMemory` if there is not enough memory.
pub fn read_inputs(alloc: Global, text: &[u8]) -> Result<Replay, TextError>
    ensures written { IfOk result (λ replay. replay_text replay ≡ kept text.now) }
    ensures exact { (replay : Replay) → FitsReplay replay → replay_text replay ≡ kept text.now
        → IsReplay result replay }
{
    read_entries(alloc, text)
}

/// The inputs that the lines of a text write.
#[tactic(auto, using(crate::proofs::reader::Gatherings::begin_lines_append), unfolding(crate::specs::Reader::Entries::replay_reading))]
fn read_entries(alloc: Global, text: &[u8]) -> Result<Replay, TextError>
    ensures text { IfOk result (λ replay. replay_text replay ≡ kept text.now) }
    ensures said { IsReadText (replay_reading text.now) result }
{
    let mut begun = Begun {
        configs: Seq::new(alloc),
        made: None,
        inputs: Seq::new(alloc),
    };
    let mut rest = text;
    let mut number: u64 = 0;
    while !rest.is_empty() {
        let (line, behind) = cut_line(rest);
        rest = behind;
        number += 1;
        match take_input_line(alloc, &mut begun, line) {
            Ok(()) => {}
            Err(fault) => return Err(fault.at(number)),
        }
    }
    let Begun {
        configs,
        made,
        inputs,
    } = begun;
    match made {
        Some(made) => Ok(Replay {
            configs,
            made,
            inputs,
        }),
        None => Err(TextError::Line(number + 1)),
    }
}

/// Takes what a line says, if it says something.
fn take_input_line(alloc: Global, begun: &mut Begun, line: &[u8]) -> Result<(), LineFault>
    ensures text { OnOk result
        (begun_text begun.new ≡ begun_text begun.old ++ telling_line line.now) }
    ensures said { IsMade (begin_lines begun.old (said_line line.now)) result begun.new }
{
    if is_skipped(line) {
        return Ok(());
    }
    let entry = read_entry(alloc, line)?;
    add_entry(begun, entry)
}

/// Appends an entry, if it may come there.
fn add_entry(begun: &mut Begun, entry: InputLine) -> Result<(), LineFault>
    ensures text { OnOk result (begun_text begun.new ≡ begun_text begun.old ++ entry_line entry) }
    ensures said { IsMade (add_entry begun.old entry) result begun.new }
{
    match entry {
        InputLine::Config(config) => begin_config(begun, config),
        InputLine::Made(made) => begin_made(begun, made),
        InputLine::Input(input) => begin_input(begun, input),
    }
}

#[tactic(auto, using(crate::proofs::reader::Growing::flat_map_push), unfolding(crate::specs::Reader::Entries::begin_config))]
fn begin_config(begun: &mut Begun, config: Config) -> Result<(), LineFault>
    ensures text { OnOk result
        (begun_text begun.new ≡ begun_text begun.old ++ entry_line (InputLine.Config config)) }
    ensures said { IsMade (begin_config begun.old config) result begun.new }
{
    if !has_only_configs(begun) {
        return Err(LineFault::Form);
    }
    begun.configs.push(config)?;
    Ok(())
}

/// Whether nothing but configurations was read.
fn has_only_configs(begun: &Begun) -> bool
    ensures said { result ≡ has_only_configs begun.now }
    ensures none { IsTrue result → ((begun.now.made ≡ None) × (begun.now.inputs ≡ [])) }
{
    begun.made.is_none() && begun.inputs.len() == 0
}

#[tactic(auto, unfolding(crate::specs::Reader::Entries::begin_made))]
fn begin_made(begun: &mut Begun, made: Instant) -> Result<(), LineFault>
    ensures text { OnOk result
        (begun_text begun.new ≡ begun_text begun.old ++ entry_line (InputLine.Made made)) }
    ensures said { IsMade (begin_made begun.old made) result begun.new }
{
    if !has_only_configs(begun) || begun.configs.len() == 0 {
        return Err(LineFault::Form);
    }
    begun.made = Some(made);
    Ok(())
}

#[tactic(auto, using(crate::proofs::reader::Growing::flat_map_push), unfolding(crate::specs::Reader::Entries::begin_input))]
fn begin_input(begun: &mut Begun, input: Input) -> Result<(), LineFault>
    ensures text { OnOk result
        (begun_text begun.new ≡ begun_text begun.old ++ entry_line (InputLine.Input input)) }
    ensures said { IsMade (begin_input begun.old input) result begun.new }
{
    if begun.made.is_none() {
        return Err(LineFault::Form);
    }
    begun.inputs.push(input)?;
    Ok(())
}

/// What a line says. A line is of the form only as it would be written: its text is compared.
#[tactic(auto, unfolding(crate::specs::Reader::Entries::entry_in))]
fn read_entry(alloc: Global, line: &[u8]) -> Result<InputLine, LineFault>
    ensures written { IfOk result (λ e. entry_line e ≡ line.now ++ 10 ∷ []) }
    ensures said { IsRead (entry_in line.now) result }
{
    let entry = parse_entry(alloc, line)?;
    check_entry(alloc, &entry, line).and(Ok(entry))
}

/// That an entry would be written as this line.
fn check_entry(alloc: Global, entry: &InputLine, line: &[u8]) -> Result<(), LineFault>
    ensures written { OnOk result (entry_line entry.now ≡ line.now ++ 10 ∷ []) }
    ensures said { IsMade
        (if bytes_eq (entry_line entry.now) (line.now ++ 10 ∷ []) then Some entry.now else None)
        result entry.now }
{
    let mut text = Vec::new(alloc);
    put_entry(&mut text, entry)?;
    if is_line(text.as_slice(), line) {
        Ok(())
    } else {
        Err(LineFault::Form)
    }
}

/// Writes an entry.
fn put_entry(text: &mut Vec<u8>, entry: &InputLine) -> Result<(), AllocError>
    ensures { OnOk result (text.new.items ≡ text.old.items ++ entry_line entry.now) }
{
    match entry {
        InputLine::Config(config) => put_config(text, config),
        InputLine::Made(made) => put_made(text, *made),
        InputLine::Input(input) => put_input(text, input),
    }
}

/// Writes an input.
fn put_input(text: &mut Vec<u8>, input: &Input) -> Result<(), AllocError>
    ensures { OnOk result (text.new.items ≡ text.old.items ++ line (input_words input.now)) }
{
    put(text, b"input", b' ')?;
    put_asked(text, input)
}

/// Writes what is asked, behind the word `input`.
fn put_asked(text: &mut Vec<u8>, input: &Input) -> Result<(), AllocError>
    ensures { OnOk result (text.new.items ≡ text.old.items ++ line (asked_words input.now)) }
{
    match input {
        Input::Open { namespace } => {
            put_number(text, *namespace, b' ')?;
            put(text, b"open", b'\n')
        }
        Input::Close { conn } => {
            put_number(text, conn.namespace, b' ')?;
            put_close(text, conn.number)
        }
        Input::Feed {
            conn,
            piece,
            moment,
        } => {
            put_number(text, conn.namespace, b' ')?;
            put_feed(text, conn.number, piece, *moment)
        }
        Input::Answer {
            load,
            outcome,
            moment,
        } => {
            put_number(text, load.namespace, b' ')?;
            put_answer(text, load.number, outcome, *moment)
        }
        Input::GiveUp { load, moment } => {
            put_number(text, load.namespace, b' ')?;
            put_give_up(text, load.number, *moment)
        }
    }
}

/// Reads a line, not so strictly.
#[tactic(auto, unfolding(crate::specs::Reader::Entries::entry_words_in))]
fn parse_entry(alloc: Global, line: &[u8]) -> Result<InputLine, LineFault>
    ensures { IsRead (entry_words_in (line_words line.now)) result }
{
    let mut words = Words::new(line);
    let kind = words.next()?;
    let entry = parse_entry_kind(alloc, kind, &mut words)?;
    words.end().and(Ok(entry))
}

/// What is said behind the word that names its kind.
#[tactic(auto, unfolding(crate::specs::Reader::Entries::entry_of))]
fn parse_entry_kind(
    alloc: Global,
    kind: &[u8],
    words: &mut Words<'_>,
) -> Result<InputLine, LineFault>
    ensures { IsReadOff (entry_of kind.now (words_left words.old)) result (words_left words.new) }
{
    if kind == b"input".as_slice() {
        parse_input(alloc, words)
    } else if kind == b"config".as_slice() {
        parse_config(words)
    } else if kind == b"made".as_slice() {
        parse_made(words)
    } else {
        Err(LineFault::Form)
    }
}

/// An input, as an entry.
fn parse_input(alloc: Global, words: &mut Words<'_>) -> Result<InputLine, LineFault>
    ensures { IsReadOff
        (option_map (λ input. (InputLine.Input input.0, input.1)) (input_in (words_left words.old)))
        result (words_left words.new) }
{
    let input = read_input(alloc, words)?;
    Ok(InputLine::Input(input))
}

/// The settings of a namespace, as an entry.
fn parse_config(words: &mut Words<'_>) -> Result<InputLine, LineFault>
    ensures { IsReadOff (option_map (λ config. (InputLine.Config config.0, config.1))
        (config_in_words (words_left words.old))) result (words_left words.new) }
{
    let config = read_config(words)?;
    Ok(InputLine::Config(config))
}

/// The moment of the making, as an entry.
fn parse_made(words: &mut Words<'_>) -> Result<InputLine, LineFault>
    ensures { IsReadOff
        (option_map (λ nanos. (InputLine.Made (record { nanos = nanos.0 }), nanos.1))
        (field number_in (words_left words.old))) result (words_left words.new) }
{
    let nanos = words.number()?;
    Ok(InputLine::Made(Instant { nanos }))
}

/// An input behind its word: a namespace, and an event; an opening has no number.
#[tactic(auto, unfolding(crate::specs::Reader::Entries::input_in))]
fn read_input(alloc: Global, words: &mut Words<'_>) -> Result<Input, LineFault>
    ensures { IsReadOff (input_in (words_left words.old)) result (words_left words.new) }
{
    let namespace = words.number()?;
    let kind = words.next()?;
    read_asked(alloc, namespace, kind, words)
}

/// What is asked of a namespace, behind the word that names its kind.
#[tactic(auto, unfolding(crate::specs::Reader::Entries::asked_of))]
fn read_asked(
    alloc: Global,
    namespace: u64,
    kind: &[u8],
    words: &mut Words<'_>,
) -> Result<Input, LineFault>
    ensures { IsReadOff (asked_of namespace kind.now (words_left words.old)) result
        (words_left words.new) }
{
    if kind == b"open".as_slice() {
        return Ok(Input::Open { namespace });
    }
    let event = read_event(alloc, kind, words)?;
    Ok(input_of(namespace, event))
}

/// The event, asked of a namespace.
fn input_of(namespace: u64, event: Event) -> Input
    ensures { result ≡ input_asking namespace event }
{
    match event {
        Event::Open { conn: _ } => Input::Open { namespace },
        Event::Close { conn } => Input::Close {
            conn: Conn {
                namespace,
                number: conn,
            },
        },
        Event::Feed {
            conn,
            piece,
            moment,
        } => Input::Feed {
            conn: Conn {
                namespace,
                number: conn,
            },
            piece,
            moment,
        },
        Event::Answer {
            load,
            outcome,
            moment,
        } => Input::Answer {
            load: LoadId {
                namespace,
                number: load,
            },
            outcome,
            moment,
        },
        Event::GiveUp { load, moment } => Input::GiveUp {
            load: LoadId {
                namespace,
                number: load,
            },
            moment,
        },
    }
}

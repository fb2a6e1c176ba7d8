//! Lines, written behind a text.
ghost use Rattle.std.specs.Prelude.{◌≡◌, ◌++◌, ◌∷◌, [], OnOk, codes, decimal};
ghost use Rattle.audit_text.specs.Text.{config_words, deadline_words, made_words, event_words, outcome_words, own_text, part_word, note_line, step_words};
ghost use Rattle.audit_text.specs.Words.{bytes_word, option_word, line};

use crate::words::{
    flag_word, held_word, policy_word, put, put_bytes, put_number, put_number_or_none, weight_word,
};
use audit_model::{Accepted, Bytes, Config, Event, Instant, Note, Outcome, Step};
use std::alloc::AllocError;

/// Appends the line `config` with the settings of a namespace. Returns an error if there is not enough memory.
pub fn put_config(text: &mut Vec<u8>, config: &Config) -> Result<(), AllocError>
    ensures { OnOk result (text.new.items ≡ text.old.items ++ line (config_words config.now)) }
{
    put(text, b"config", b' ')?;
    put_number_setting(text, b"capacity=", config.capacity, b' ')?;
    put_setting(text, b"policy=", policy_word(config.policy), b' ')?;
    put_number_setting(text, b"parts=", Some(u64::from(config.parts)), b' ')?;
    put_setting(text, b"weight=", weight_word(config.weight), b' ')?;
    put_deadlines(text, config)?;
    Ok(())
}

/// Writes the settings of deadlines.
fn put_deadlines(text: &mut Vec<u8>, config: &Config) -> Result<(), AllocError>
    ensures { OnOk result (text.new.items ≡ text.old.items ++ line (deadline_words config.now)) }
{
    put_number_setting(text, b"live_ms=", config.live_ms, b' ')?;
    put_number_setting(text, b"idle_ms=", config.idle_ms, b' ')?;
    put_setting(text, b"deadlines=", flag_word(config.own_deadlines), b'\n')?;
    Ok(())
}

/// Writes a setting: its name, which ends in `=`, and its word.
fn put_setting(text: &mut Vec<u8>, name: &[u8], word: &[u8], end: u8) -> Result<(), AllocError>
    ensures { OnOk result
        (text.new.items ≡ text.old.items ++ ((name.now ++ word.now) ++ end ∷ [])) }
{
    text.extend_from_slice(name)?;
    put(text, word, end)?;
    Ok(())
}

/// Writes a setting that is a number, or `-` for none.
fn put_number_setting(
    text: &mut Vec<u8>,
    name: &[u8],
    number: Option<u64>,
    end: u8,
) -> Result<(), AllocError>
    ensures { OnOk result (text.new.items ≡ text.old.items
        ++ ((name.now ++ option_word decimal number) ++ end ∷ [])) }
{
    text.extend_from_slice(name)?;
    put_number_or_none(text, number, end)?;
    Ok(())
}

/// Appends the line `made` with the moment of creation, in nanoseconds. Returns an error if there is not enough memory.
pub fn put_made(text: &mut Vec<u8>, made: Instant) -> Result<(), AllocError>
    ensures { OnOk result (text.new.items ≡ text.old.items ++ line (made_words made.nanos)) }
{
    put(text, b"made", b' ')?;
    put_number(text, made.nanos, b'\n')?;
    Ok(())
}

/// Appends the line of an event. Returns an error if there is not enough memory.
pub fn put_event(text: &mut Vec<u8>, event: &Event) -> Result<(), AllocError>
    ensures { OnOk result (text.new.items ≡ text.old.items ++ line (event_words event.now)) }
{
    match event {
        Event::Open { conn } => put_open(text, *conn),
        Event::Close { conn } => put_close(text, *conn),
        Event::Feed {
            conn,
            piece,
            moment,
        } => put_feed(text, *conn, piece, *moment),
        Event::Answer {
            load,
            outcome,
            moment,
        } => put_answer(text, *load, outcome, *moment),
        Event::GiveUp { load, moment } => put_give_up(text, *load, *moment),
    }
}

fn put_open(text: &mut Vec<u8>, conn: u64) -> Result<(), AllocError>
    ensures { OnOk result
        (text.new.items ≡ text.old.items ++ line (codes "open" ∷ decimal conn ∷ [])) }
{
    put(text, b"open", b' ')?;
    put_number(text, conn, b'\n')?;
    Ok(())
}

/// Appends the line `close` of a connection. Returns an error if there is not enough memory.
pub fn put_close(text: &mut Vec<u8>, conn: u64) -> Result<(), AllocError>
    ensures { OnOk result
        (text.new.items ≡ text.old.items ++ line (codes "close" ∷ decimal conn ∷ [])) }
{
    put(text, b"close", b' ')?;
    put_number(text, conn, b'\n')?;
    Ok(())
}

/// Appends the line `feed` of a connection: the moment, in nanoseconds, and the bytes. Returns an error if there is not enough memory.
pub fn put_feed(
    text: &mut Vec<u8>,
    conn: u64,
    piece: &Bytes,
    moment: Instant,
) -> Result<(), AllocError>
    ensures { OnOk result (text.new.items ≡ text.old.items
        ++ line (codes "feed" ∷ decimal conn ∷ decimal moment.nanos ∷ bytes_word piece.now ∷ [])) }
{
    put(text, b"feed", b' ')?;
    put_number(text, conn, b' ')?;
    put_number(text, moment.nanos, b' ')?;
    put_bytes(text, piece.as_slice(), b'\n')?;
    Ok(())
}

/// Appends the line `answer` of a load: the moment, in nanoseconds, and the outcome. Returns an error if there is not enough memory.
pub fn put_answer(
    text: &mut Vec<u8>,
    load: u64,
    outcome: &Outcome,
    moment: Instant,
) -> Result<(), AllocError>
    ensures { OnOk result (text.new.items ≡ text.old.items ++ (codes "answer" ++ 32
        ∷ (decimal load ++ 32 ∷ (decimal moment.nanos ++ 32 ∷ line (outcome_words outcome.now))))) }
{
    put(text, b"answer", b' ')?;
    put_number(text, load, b' ')?;
    put_number(text, moment.nanos, b' ')?;
    put_outcome(text, outcome)?;
    Ok(())
}

fn put_outcome(text: &mut Vec<u8>, outcome: &Outcome) -> Result<(), AllocError>
    ensures { OnOk result (text.new.items ≡ text.old.items ++ line (outcome_words outcome.now)) }
{
    match outcome {
        Outcome::Value(bytes, ms) => put_value(text, bytes, *ms),
        Outcome::None => put(text, b"none", b'\n'),
        Outcome::Fault(fault) => put_fault(text, fault),
    }
}

fn put_value(text: &mut Vec<u8>, bytes: &Bytes, ms: Option<u64>) -> Result<(), AllocError>
    ensures { OnOk result (text.new.items ≡ text.old.items
        ++ line (codes "value" ∷ bytes_word bytes.now ∷ option_word decimal ms ∷ [])) }
{
    put(text, b"value", b' ')?;
    put_bytes(text, bytes.as_slice(), b' ')?;
    put_number_or_none(text, ms, b'\n')?;
    Ok(())
}

fn put_fault(text: &mut Vec<u8>, fault: &Bytes) -> Result<(), AllocError>
    ensures { OnOk result
        (text.new.items ≡ text.old.items ++ line (codes "fault" ∷ bytes_word fault.now ∷ [])) }
{
    put(text, b"fault", b' ')?;
    put_bytes(text, fault.as_slice(), b'\n')?;
    Ok(())
}

/// Appends the line `giveup` of a load, with the moment, in nanoseconds. Returns an error if there is not enough memory.
pub fn put_give_up(text: &mut Vec<u8>, load: u64, moment: Instant) -> Result<(), AllocError>
    ensures { OnOk result (text.new.items ≡ text.old.items
        ++ line (codes "giveup" ∷ decimal load ∷ decimal moment.nanos ∷ [])) }
{
    put(text, b"giveup", b' ')?;
    put_number(text, load, b' ')?;
    put_number(text, moment.nanos, b'\n')?;
    Ok(())
}

/// Appends the line `own` with the part that took an answer's value, if one did. Returns an error if there is not enough memory.
pub fn put_own(text: &mut Vec<u8>, own: Option<Accepted>) -> Result<(), AllocError>
    ensures { OnOk result (text.new.items ≡ text.old.items ++ own_text own) }
{
    match own {
        Some(accepted) => put_own_part(text, accepted.part),
        None => Ok(()),
    }
}

fn put_own_part(text: &mut Vec<u8>, part: u64) -> Result<(), AllocError>
    ensures { OnOk result
        (text.new.items ≡ text.old.items ++ line (codes "own" ∷ decimal part ∷ [])) }
{
    put(text, b"own", b' ')?;
    put_number(text, part, b'\n')?;
    Ok(())
}

/// Appends the line of a note: `note` or `ownnote`, cause, key and value. Returns an error if there is not enough memory.
pub fn put_note(text: &mut Vec<u8>, word: &[u8], note: &Note) -> Result<(), AllocError>
    ensures { OnOk result (text.new.items ≡ text.old.items ++ note_line word.now note.now) }
{
    put(text, word, b' ')?;
    put(text, note.cause.word(), b' ')?;
    put_bytes(text, note.key.as_slice(), b' ')?;
    put_bytes(text, note.value.as_slice(), b'\n')?;
    Ok(())
}

/// Appends the line `step` of a step, without its notes. Returns an error if there is not enough memory.
pub fn put_step(text: &mut Vec<u8>, step: &Step) -> Result<(), AllocError>
    ensures { OnOk result (text.new.items ≡ text.old.items ++ line (step_words step.now)) }
{
    put(text, b"step", b' ')?;
    put_number(text, step.conn, b' ')?;
    put(text, held_word(step.held), b' ')?;
    put_bytes(text, step.line.as_slice(), b' ')?;
    put_reply(text, &step.reply)?;
    put_number_or_none(text, step.load, b' ')?;
    put_part(text, step.accepted)?;
    Ok(())
}

fn put_reply(text: &mut Vec<u8>, reply: &Option<Bytes>) -> Result<(), AllocError>
    ensures { OnOk result
        (text.new.items ≡ text.old.items ++ (option_word bytes_word reply.now ++ 32 ∷ [])) }
{
    match reply {
        Some(bytes) => put_bytes(text, bytes.as_slice(), b' '),
        None => put(text, b"-", b' '),
    }
}

fn put_part(text: &mut Vec<u8>, accepted: Option<Accepted>) -> Result<(), AllocError>
    ensures { OnOk result
        (text.new.items ≡ text.old.items ++ (option_word part_word accepted ++ 10 ∷ [])) }
{
    match accepted {
        Some(accepted) => put_number(text, accepted.part, b'\n'),
        None => put(text, b"-", b'\n'),
    }
}

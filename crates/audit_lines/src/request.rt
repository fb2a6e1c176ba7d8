//! What a line says, with its words as they are in it.
ghost use Rattle.std.specs.Prelude.{◌≡◌, ◌≤◌, ℕ, List, [], ◌∷◌, Some, IsTrue, IfSome, MatchOption, option_map};
ghost use Rattle.std.specs.List.{list_all};
ghost use Rattle.audit_model.specs.Bytewise.{cut_at, words, words_up_to};
ghost use Rattle.audit_model.specs.Grammar.{is_key, is_key_byte, is_value, deadline_in, read_words, words_behind, set, add, verb_in, reading};
ghost use Rattle.audit_model.specs.declared.config.Config.{Config};
ghost use Rattle.memchr.specs.Find.{IsFirstByte, is_byte};
ghost use Rattle.audit_lines.specs.Request.{said, verb_of, IsFit, IsOwn, IsUnkeyed};

use crate::numbers::{milliseconds, number};
use audit_model::{Config, LineError};
use memchr::{memchr, memchr2};

/// A key has at most this many bytes.
const MAX_KEY: usize = 250;

/// A line that was read, with its words as they are in the line, or its first fault. Deadlines are in milliseconds.
#[derive(Clone, Copy)]
pub enum Request<'a> {
    /// `SET`, with `None` for a deadline of `-`.
    Set {
        key: &'a [u8],
        deadline: Option<u64>,
        value: &'a [u8],
    },
    /// `GET`.
    Get {
        key: &'a [u8],
    },
    /// `HAS`.
    Has {
        key: &'a [u8],
    },
    /// `LOAD`.
    Load {
        key: &'a [u8],
    },
    /// `DEL`.
    Del {
        key: &'a [u8],
    },
    /// `ADD`, with `None` for a deadline of `-`.
    Add {
        key: &'a [u8],
        deadline: Option<u64>,
        number: u64,
    },
    /// `CLEAR`.
    Clear,
    /// `DROPIF`.
    DropIf {
        prefix: &'a [u8],
    },
    /// `KEYS`.
    Keys,
    /// `SYNC`.
    Sync,
    /// `QUIT`.
    Quit,
    /// A line that cannot be parsed, by its first fault.
    Fault(LineError),
}

/// The word of a command, with which its line begins.
#[derive(Clone, Copy)]
pub enum Word {
    /// `SET`.
    Set,
    /// `GET`.
    Get,
    /// `HAS`.
    Has,
    /// `LOAD`.
    Load,
    /// `DEL`.
    Del,
    /// `ADD`.
    Add,
    /// `CLEAR`.
    Clear,
    /// `DROPIF`.
    DropIf,
    /// `KEYS`.
    Keys,
    /// `SYNC`.
    Sync,
    /// `QUIT`.
    Quit,
}

/// Returns what a line says, which has neither its line feed nor a carriage return before it.
pub fn read_line<'a>(config: &Config, line: &'a [u8]) -> Request<'a>
    ensures said { said result ≡ reading config.now line.now }
    ensures fit { IsFit config.now line.now result }
{
    let (word, rest) = cut(line, near_space(line));
    match word_of(word) {
        Some(word) => match rest {
            Some(rest) => read_behind(config, word, rest),
            None => read_alone(word),
        },
        None => Request::Fault(LineError::Command),
    }
}

/// The command's word that the bytes are.
fn word_of(bytes: &[u8]) -> Option<Word>
    ensures { option_map verb_of result ≡ verb_in bytes.now }
{
    if bytes == b"SET".as_slice() {
        Some(Word::Set)
    } else if bytes == b"GET".as_slice() {
        Some(Word::Get)
    } else if bytes == b"HAS".as_slice() {
        Some(Word::Has)
    } else if bytes == b"LOAD".as_slice() {
        Some(Word::Load)
    } else if bytes == b"DEL".as_slice() {
        Some(Word::Del)
    } else if bytes == b"ADD".as_slice() {
        Some(Word::Add)
    } else if bytes == b"CLEAR".as_slice() {
        Some(Word::Clear)
    } else if bytes == b"DROPIF".as_slice() {
        Some(Word::DropIf)
    } else if bytes == b"KEYS".as_slice() {
        Some(Word::Keys)
    } else if bytes == b"SYNC".as_slice() {
        Some(Word::Sync)
    } else if bytes == b"QUIT".as_slice() {
        Some(Word::Quit)
    } else {
        None
    }
}

/// Reads a line that is a command's word alone.
fn read_alone<'a>(word: Word) -> Request<'a>
    ensures said { (config : Config) → said result ≡ read_words config (verb_of word) [] }
    ensures fit { (config : Config) (line : List ℕ) → IsFit config line result }
{
    match word {
        Word::Clear => Request::Clear,
        Word::Keys => Request::Keys,
        Word::Sync => Request::Sync,
        Word::Quit => Request::Quit,
        Word::Set | Word::Get | Word::Has | Word::Load => Request::Fault(LineError::Syntax),
        Word::Del | Word::Add | Word::DropIf => Request::Fault(LineError::Syntax),
    }
}

/// Reads what stands behind a command's word and a space.
fn read_behind<'a>(config: &Config, word: Word, rest: &'a [u8]) -> Request<'a>
    ensures said { said result
        ≡ read_words config.now (verb_of word) (words_behind (verb_of word) (Some rest.now)) }
    ensures fit { IsFit config.now rest.now result }
{
    match word {
        Word::Set => read_set(config, rest),
        Word::Add => read_add(config, rest),
        _ => {
            if key_fits(rest) {
                with_key(word, rest)
            } else {
                Request::Fault(LineError::Syntax)
            }
        }
    }
}

/// Reads a line that is a command's word and a key.
fn with_key<'a>(word: Word, key: &'a [u8]) -> Request<'a>
    requires { IsTrue (is_key key.now) }
    ensures said { (config : Config)
        → said result ≡ read_words config (verb_of word) (key.now ∷ []) }
    ensures fit { (config : Config) (line : List ℕ) → IsFit config line result }
{
    match word {
        Word::Get => Request::Get { key },
        Word::Has => Request::Has { key },
        Word::Load => Request::Load { key },
        Word::Del => Request::Del { key },
        Word::DropIf => Request::DropIf { prefix: key },
        _ => Request::Fault(LineError::Syntax),
    }
}

/// Reads what stands behind the word `SET`.
fn read_set<'a>(config: &Config, rest: &'a [u8]) -> Request<'a>
    ensures said { said result ≡ read_words config.now set (words_up_to 2 rest.now) }
    ensures fit { IsFit config.now rest.now result }
{
    let Some((key, rest)) = cut_key(rest) else {
        return Request::Fault(LineError::Syntax);
    };
    let (deadline, value) = cut(rest, near_space(rest));
    let Some(value) = value else {
        return Request::Fault(LineError::Syntax);
    };
    if !value_fits(value) {
        return Request::Fault(LineError::Syntax);
    }
    match read_deadline(config, deadline) {
        Some(deadline) => Request::Set {
            key,
            deadline,
            value,
        },
        None => Request::Fault(LineError::Deadline),
    }
}

/// Reads what stands behind the word `ADD`.
fn read_add<'a>(config: &Config, rest: &'a [u8]) -> Request<'a>
    ensures said { said result ≡ read_words config.now add (words rest.now) }
    ensures fit { (line : List ℕ) → IsFit config.now line result }
{
    let Some((key, rest)) = cut_key(rest) else {
        return Request::Fault(LineError::Syntax);
    };
    let (deadline, rest) = cut(rest, near_space(rest));
    let Some(rest) = rest else {
        return Request::Fault(LineError::Syntax);
    };
    let (digits, more) = cut(rest, near_space(rest));
    if more.is_some() {
        return Request::Fault(LineError::Syntax);
    }
    let Some(deadline) = read_deadline(config, deadline) else {
        return Request::Fault(LineError::Deadline);
    };
    match number(digits) {
        Some(number) => Request::Add {
            key,
            deadline,
            number,
        },
        None => Request::Fault(LineError::Number),
    }
}

/// Where the first space is, byte after byte: it is likely to be near.
fn near_space(line: &[u8]) -> Option<usize>
    ensures { IsFirstByte (is_byte 32) line.now result }
{
    line.iter().position(|b| *b == b' ')
}

/// What stands before the first space and behind it, if there is one.
fn cut(line: &[u8], space: Option<usize>) -> (&[u8], Option<&[u8]>)
    requires { IsFirstByte (is_byte 32) line.now space }
    ensures { (result.0.now, option_map (λ r. r.now) result.1) ≡ cut_at 32 line.now }
{
    match space {
        Some(at) => (&line[..at], Some(&line[at + 1..])),
        None => (line, None),
    }
}

/// The key before the first space, and what comes after that space; none if there is no such key.
fn cut_key(rest: &[u8]) -> Option<(&[u8], &[u8])>
    ensures { MatchOption result (IsUnkeyed (cut_at 32 rest.now))
        (λ r. (cut_at 32 rest.now ≡ (r.0.now, Some r.1.now)) × IsTrue (is_key r.0.now)) }
{
    let (key, behind) = cut(rest, memchr(b' ', rest));
    match behind {
        Some(behind) if key_fits(key) => Some((key, behind)),
        _ => None,
    }
}

/// Whether the bytes may stand as a key.
fn key_fits(word: &[u8]) -> bool
    ensures { result ≡ is_key word.now }
{
    1 <= word.len() && word.len() <= MAX_KEY && are_key_bytes(word)
}

/// Whether each byte may stand in a key. It has no early exit, so that many bytes are looked at in one step.
fn are_key_bytes(word: &[u8]) -> bool
    ensures { result ≡ list_all is_key_byte word.now }
{
    let mut all = true;
    for byte in word {
        all = all & byte.is_ascii_graphic();
    }
    all
}

/// Whether the bytes may stand as a value.
fn value_fits(bytes: &[u8]) -> bool
    ensures { result ≡ is_value bytes.now }
{
    memchr2(b'\n', b'\r', bytes).is_none()
}

/// The milliseconds of a deadline, or that it has none; nothing if it is not a deadline.
fn read_deadline(config: &Config, word: &[u8]) -> Option<Option<u64>>
    ensures said { result ≡ deadline_in config.now word.now }
    ensures own { IfSome result (IsOwn config.now) }
{
    if word == b"-".as_slice() {
        return Some(None);
    }
    if !config.own_deadlines {
        return None;
    }
    match milliseconds(word) {
        Some(ms) => Some(Some(ms)),
        None => None,
    }
}

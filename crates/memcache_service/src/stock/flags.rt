//! The flags of a meta command: letters, and what stands behind them in their words.
ghost use Rattle.std.specs.Prelude.{◌≡◌, ◌∷◌, [], codes, drop, is_some, nat_le, unwrap_or, ◌==◌, Some, if◌then◌else◌, option_map};
ghost use Rattle.memcache_model.specs.Bytes.{number_below, tokens};
ghost use Rattle.memcache_model.specs.Meta.{behind_letter, count_fault, direction_of, exptime_of, fault_unless, flags_fault, is_one_of, letter_of, limit_of, mode_of, number_of_letter, set_fault, word_fault};

use memcache_lines::{exptime, next_token, number, short_number};
use memcache_model::{Direction, Exptime, ProtocolError};

/// An opaque has at most this many bytes, with its letter.
const MAX_OPAQUE: usize = 32;

/// Returns the letter of a word, or 0 if the word is empty.
pub fn letter_of(word: &[u8]) -> u8
    ensures { result ≡ letter_of word.now }
{
    match word.first() {
        Some(letter) => *letter,
        None => 0,
    }
}

/// What stands behind the letter of a word.
fn behind(word: &[u8]) -> &[u8]
    ensures { result.now ≡ drop 1 word.now }
{
    match word.split_first() {
        Some((_, argument)) => argument,
        None => word,
    }
}

/// Returns what stands behind a letter, in the first word that begins with it, or `None` if there is no such word.
pub fn behind_letter(letter: u8, words: &[u8]) -> Option<&[u8]>
    ensures { option_map (λ argument. argument.now) result
        ≡ behind_letter letter (tokens words.now) }
{
    let mut rest = words;
    while let Some((word, more)) = next_token(rest) {
        if letter_of(word) == letter {
            return Some(behind(word));
        }
        rest = more;
    }
    None
}

/// Returns whether there is a flag of this letter.
pub fn has_flag(letter: u8, words: &[u8]) -> bool
    ensures { result ≡ is_some (behind_letter letter (tokens words.now)) }
{
    behind_letter(letter, words).is_some()
}

/// The number behind a letter: flags have 32 bits.
fn number_behind(letter: u8, argument: &[u8]) -> Option<u64>
    ensures { result ≡ number_below (limit_of letter) argument.now }
{
    if letter == b'F' {
        match short_number(argument) {
            Some(value) => Some(u64::from(value)),
            None => None,
        }
    } else {
        number(argument)
    }
}

/// Returns the number behind a letter, in the first word that begins with it, or `None` if there is none.
pub fn number_of(letter: u8, words: &[u8]) -> Option<u64>
    ensures { result ≡ number_of_letter (letter ∷ []) (tokens words.now) }
{
    match behind_letter(letter, words) {
        Some(argument) => number_behind(letter, argument),
        None => None,
    }
}

/// Returns the client's flags behind `F`, or 0 without one.
pub fn flags_of(words: &[u8]) -> u32
    ensures { result ≡ unwrap_or (number_of_letter (codes "F") (tokens words.now)) 0 }
{
    match behind_letter(b'F', words) {
        Some(argument) => short_number(argument).unwrap_or(0),
        None => 0,
    }
}

/// Returns the expiry behind a letter, or `None` if there is none.
pub fn exptime_of(letter: u8, words: &[u8]) -> Option<Exptime>
    ensures { result ≡ exptime_of (letter ∷ []) (tokens words.now) }
{
    match behind_letter(letter, words) {
        Some(argument) => exptime(argument),
        None => None,
    }
}

/// Returns what is wrong with the flags of a meta command, or `None` if nothing is. What a command does not use is passed over.
pub fn flags_fault(words: &[u8]) -> Option<ProtocolError>
    ensures { result ≡ flags_fault (tokens words.now) }
{
    let mut rest = words;
    while let Some((word, more)) = next_token(rest) {
        if let Some(error) = word_fault(word) {
            return Some(error);
        }
        rest = more;
    }
    None
}

/// What is wrong with a word, if anything is: no meta command has its letter, or what stands behind the letter is malformed.
fn word_fault(word: &[u8]) -> Option<ProtocolError>
    ensures { result ≡ word_fault word.now }
{
    let letter = letter_of(word);
    if is_one_of(b"vkqstcfILP", letter) {
        None
    } else if is_one_of(b"CDFJ", letter) {
        let number = number_behind(letter, behind(word));
        fault_unless(number.is_some(), ProtocolError::Token)
    } else if is_one_of(b"NRT", letter) {
        let exptime = exptime(behind(word));
        fault_unless(exptime.is_some(), ProtocolError::Token)
    } else {
        long_word_fault(letter, word.len())
    }
}

/// The same of a word whose letter says how long the word may be.
fn long_word_fault(letter: u8, len: usize) -> Option<ProtocolError>
    ensures { result ≡ (if is_one_of (codes "O") letter
        then fault_unless (nat_le len 32) ProtocolError.Opaque
        else (if is_one_of (codes "M") letter
        then fault_unless (len == 2) ProtocolError.ModeLength else Some ProtocolError.Flag)) }
{
    match letter {
        b'O' => fault_unless(len <= MAX_OPAQUE, ProtocolError::Opaque),
        b'M' => fault_unless(len == 2, ProtocolError::ModeLength),
        _ => Some(ProtocolError::Flag),
    }
}

/// Returns whether a letter is one of these.
pub fn is_one_of(letters: &[u8], letter: u8) -> bool
    ensures { result ≡ is_one_of letters.now letter }
{
    letters.iter().any(|l| *l == letter)
}

/// This fault, unless all is right.
fn fault_unless(is_right: bool, error: ProtocolError) -> Option<ProtocolError>
    ensures { result ≡ fault_unless is_right error }
{
    if is_right { None } else { Some(error) }
}

/// Returns the mode that `M` names, by its letter, or else the usual one.
pub fn mode_of(usual: u8, words: &[u8]) -> u8
    ensures { result ≡ mode_of (usual ∷ []) (tokens words.now) }
{
    match behind_letter(b'M', words) {
        Some(mode) => letter_of(mode),
        None => usual,
    }
}

/// Returns what is wrong with the flags of a `ms`, or `None` if nothing is.
pub fn set_fault(words: &[u8]) -> Option<ProtocolError>
    ensures { result ≡ set_fault (tokens words.now) }
{
    match flags_fault(words) {
        Some(error) => Some(error),
        None => {
            let has_mode = is_one_of(b"EAPRS", mode_of(b'S', words));
            fault_unless(has_mode, ProtocolError::SetMode)
        }
    }
}

/// Returns what is wrong with the flags of a `ma`, or `None` if nothing is.
pub fn count_fault(words: &[u8]) -> Option<ProtocolError>
    ensures { result ≡ count_fault (tokens words.now) }
{
    match flags_fault(words) {
        Some(error) => Some(error),
        None => {
            let has_mode = is_one_of(b"I+D-", mode_of(b'I', words));
            fault_unless(has_mode, ProtocolError::CountMode)
        }
    }
}

/// Returns which way a `ma` counts.
pub fn direction_of(words: &[u8]) -> Direction
    ensures { result ≡ direction_of (tokens words.now) }
{
    if is_one_of(b"D-", mode_of(b'I', words)) {
        Direction::Down
    } else {
        Direction::Up
    }
}

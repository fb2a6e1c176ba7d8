//! The words of a line, read one by one.
ghost use Rattle.std.specs.Prelude.{◌≡◌, ◌∷◌, [], ◌<◌, IfSome};
ghost use Rattle.audit_model.specs.Grammar.{number_in};
ghost use Rattle.audit_text.specs.Reader.Fields.{at_line, IsRead, IsReadOff, IsNextWord, IsEnd, IsBehind, IsSetting, IsReadItems, byte_in, words_of_rest, words_left, field, option_in, part_in_words, flag_in, held_in, policy_in, weight_in_words, cause_in, behind_prefix, setting_in, digit_in, digits_in, bytes_in};
ghost use Rattle.audit_text.specs.Reader.Lines.{line_words};
ghost use Rattle.audit_text.specs.declared.reader.fields.LineFault.TheVariants as fault;

use audit_lines::number;
use audit_model::{Accepted, Bytes, EvictionPolicy, RemovalCause, Seq, Weight};
use memchr::memchr;
use std::alloc::{AllocError, AllocFailed, Global};

/// Why a text cannot be read.
#[derive(Clone, Copy, Debug, PartialEq, Eq, Drop)]
pub enum TextError {
    /// The line with this number, counted from 1, is malformed; the number after the last one if a line is missing.
    Line(u64),
    /// There was not enough memory.
    OutOfMemory,
}

/// Why a line cannot be read.
#[derive(Clone, Copy, Drop)]
pub enum LineFault {
    /// The line is malformed.
    Form,
    /// There was not enough memory.
    OutOfMemory,
}

impl From<AllocError> for LineFault {
    ghost from_gives = { λ _ e. e ≡ fault.OutOfMemory };

    fn from(_e: AllocError) -> LineFault {
        LineFault::OutOfMemory
    }
}

impl<T: Drop> From<AllocFailed<T>> for LineFault {
    ghost from_gives = { λ _ e. e ≡ fault.OutOfMemory };

    fn from(_e: AllocFailed<T>) -> LineFault {
        LineFault::OutOfMemory
    }
}

impl LineFault {
    /// Returns the fault as one of the line of this number.
    pub fn at(self, number: u64) -> TextError
        ensures { result ≡ at_line self number }
    {
        match self {
            LineFault::Form => TextError::Line(number),
            LineFault::OutOfMemory => TextError::OutOfMemory,
        }
    }
}

/// The words of a line that are still to be read.
#[derive(Drop)]
pub struct Words<'a> {
    rest: Option<&'a [u8]>,
}

impl<'a> Words<'a> {
    /// Creates the words of a line, all of them still to be read.
    pub fn new(line: &'a [u8]) -> Words<'a>
        ensures { words_left result ≡ line_words line.now }
    {
        Words { rest: Some(line) }
    }

    /// Returns the next word. Returns `Form` if there is none.
    pub fn next(&mut self) -> Result<&'a [u8], LineFault>
        ensures { IsNextWord (words_left self.old) result (words_left self.new) }
    {
        let Some(rest) = self.rest else {
            return Err(LineFault::Form);
        };
        let (word, behind) = cut(rest);
        self.rest = behind;
        Ok(word)
    }

    /// Checks that no word is left. Returns `Form` if one is.
    pub fn end(&self) -> Result<(), LineFault>
        ensures { IsEnd (words_left self.now) result }
    {
        if self.rest.is_none() {
            Ok(())
        } else {
            Err(LineFault::Form)
        }
    }

    /// Returns the number that the next word writes. Returns `Form` if it writes none.
    pub fn number(&mut self) -> Result<u64, LineFault>
        ensures { IsReadOff (field number_in (words_left self.old)) result (words_left self.new) }
    {
        let word = self.next()?;
        read_number(word)
    }

    /// Returns the number that the next word writes, or `None` for `-`. Returns `Form` if it writes neither.
    pub fn number_or_none(&mut self) -> Result<Option<u64>, LineFault>
        ensures { IsReadOff (field (option_in number_in) (words_left self.old)) result
            (words_left self.new) }
    {
        let word = self.next()?;
        read_number_or_none(word)
    }

    /// Returns the part that the next word writes. Returns `Form` if it writes none.
    pub fn part(&mut self) -> Result<Accepted, LineFault>
        ensures { IsReadOff (field part_in_words (words_left self.old)) result
            (words_left self.new) }
    {
        let part = self.number()?;
        Ok(Accepted { part })
    }

    /// Returns the part that the next word writes, or `None` for `-`. Returns `Form` if it writes neither.
    pub fn part_or_none(&mut self) -> Result<Option<Accepted>, LineFault>
        ensures { IsReadOff (field (option_in part_in_words) (words_left self.old)) result
            (words_left self.new) }
    {
        let word = self.next()?;
        read_part_or_none(word)
    }

    /// Returns the bytes that the next word writes. Returns `Form` if it writes none, and `OutOfMemory` if there is not enough memory.
    pub fn bytes(&mut self, alloc: Global) -> Result<Bytes, LineFault>
        ensures { IsReadOff (field bytes_in (words_left self.old)) result (words_left self.new) }
    {
        let word = self.next()?;
        read_bytes(alloc, word)
    }

    /// Returns the bytes that the next word writes, or `None` for `-`. Returns `Form` if it writes neither, and `OutOfMemory` if there is
    /// not enough memory.
    pub fn bytes_or_none(&mut self, alloc: Global) -> Result<Option<Bytes>, LineFault>
        ensures { IsReadOff (field (option_in bytes_in) (words_left self.old)) result
            (words_left self.new) }
    {
        let word = self.next()?;
        read_bytes_or_none(alloc, word)
    }

    /// Returns whether a step was held back, as the next word says. Returns `Form` if it says neither.
    pub fn held(&mut self) -> Result<bool, LineFault>
        ensures { IsReadOff (field held_in (words_left self.old)) result (words_left self.new) }
    {
        let word = self.next()?;
        read_held(word)
    }

    /// Returns the cause that the next word names. Returns `Form` if it names none.
    pub fn cause(&mut self) -> Result<RemovalCause, LineFault>
        ensures { IsReadOff (field cause_in (words_left self.old)) result (words_left self.new) }
    {
        let word = self.next()?;
        read_cause(word)
    }

    /// What stands behind this name in the next word.
    fn setting(&mut self, name: &[u8]) -> Result<&'a [u8], LineFault>
        ensures { IsSetting name.now (words_left self.old) result (words_left self.new) }
    {
        let word = self.next()?;
        read_setting(word, name)
    }

    /// Returns the number that the setting of this name has. Returns `Form` if the next word is not this setting.
    #[tactic(auto, using(crate::proofs::reader::Wording::setting_field))]
    pub fn number_setting(&mut self, name: &[u8]) -> Result<u64, LineFault>
        ensures { IsReadOff (field (setting_in name.now number_in) (words_left self.old)) result
            (words_left self.new) }
    {
        let word = self.setting(name)?;
        read_number(word)
    }

    /// Returns the number that the setting of this name has, or `None` if it has none. Returns `Form` if the next word is not this setting.
    #[tactic(auto, using(crate::proofs::reader::Wording::setting_field))]
    pub fn number_or_none_setting(&mut self, name: &[u8]) -> Result<Option<u64>, LineFault>
        ensures { IsReadOff
            (field (setting_in name.now (option_in number_in)) (words_left self.old)) result
            (words_left self.new) }
    {
        let word = self.setting(name)?;
        read_number_or_none(word)
    }

    /// Returns the policy that the setting of this name has. Returns `Form` if the next word is not this setting.
    #[tactic(auto, using(crate::proofs::reader::Wording::setting_field))]
    pub fn policy_setting(&mut self, name: &[u8]) -> Result<EvictionPolicy, LineFault>
        ensures { IsReadOff (field (setting_in name.now policy_in) (words_left self.old)) result
            (words_left self.new) }
    {
        let word = self.setting(name)?;
        read_policy(word)
    }

    /// Returns the weight that the setting of this name has. Returns `Form` if the next word is not this setting.
    #[tactic(auto, using(crate::proofs::reader::Wording::setting_field))]
    pub fn weight_setting(&mut self, name: &[u8]) -> Result<Weight, LineFault>
        ensures { IsReadOff (field (setting_in name.now weight_in_words) (words_left self.old))
            result (words_left self.new) }
    {
        let word = self.setting(name)?;
        read_weight(word)
    }

    /// Returns whether the setting of this name says yes. Returns `Form` if the next word is not this setting, with yes or no.
    #[tactic(auto, using(crate::proofs::reader::Wording::setting_field))]
    pub fn flag_setting(&mut self, name: &[u8]) -> Result<bool, LineFault>
        ensures { IsReadOff (field (setting_in name.now flag_in) (words_left self.old)) result
            (words_left self.new) }
    {
        let word = self.setting(name)?;
        read_flag(word)
    }
}

/// What stands before the first space and behind it, if there is one.
fn cut(line: &[u8]) -> (&[u8], Option<&[u8]>)
    ensures { line_words line.now ≡ result.0.now ∷ words_of_rest result.1 }
{
    match memchr(b' ', line) {
        Some(at) => (&line[..at], Some(&line[at + 1..])),
        None => (line, None),
    }
}

/// The number that a word writes.
fn read_number(word: &[u8]) -> Result<u64, LineFault>
    ensures { IsRead (number_in word.now) result }
{
    number(word).ok_or(LineFault::Form)
}

/// The number that a word writes, or that there is none.
fn read_number_or_none(word: &[u8]) -> Result<Option<u64>, LineFault>
    ensures { IsRead (option_in number_in word.now) result }
{
    if word == b"-".as_slice() {
        return Ok(None);
    }
    Ok(Some(read_number(word)?))
}

/// The part that a word writes, or that there is none.
fn read_part_or_none(word: &[u8]) -> Result<Option<Accepted>, LineFault>
    ensures { IsRead (option_in part_in_words word.now) result }
{
    if word == b"-".as_slice() {
        return Ok(None);
    }
    let part = read_number(word)?;
    Ok(Some(Accepted { part }))
}

/// The setting of this name, which ends in `=`.
fn read_setting<'a>(word: &'a [u8], name: &[u8]) -> Result<&'a [u8], LineFault>
    ensures { IsBehind (behind_prefix name.now word.now) result }
{
    match word.strip_prefix(name) {
        Some(rest) => Ok(rest),
        None => Err(LineFault::Form),
    }
}

/// Yes or no.
fn read_flag(word: &[u8]) -> Result<bool, LineFault>
    ensures { IsRead (flag_in word.now) result }
{
    if word == b"1".as_slice() {
        Ok(true)
    } else if word == b"0".as_slice() {
        Ok(false)
    } else {
        Err(LineFault::Form)
    }
}

/// Whether a step was held back.
fn read_held(word: &[u8]) -> Result<bool, LineFault>
    ensures { IsRead (held_in word.now) result }
{
    if word == b"held".as_slice() {
        Ok(true)
    } else if word == b"run".as_slice() {
        Ok(false)
    } else {
        Err(LineFault::Form)
    }
}

/// The policy that a word names.
fn read_policy(word: &[u8]) -> Result<EvictionPolicy, LineFault>
    ensures { IsRead (policy_in word.now) result }
{
    if word == b"lru".as_slice() {
        Ok(EvictionPolicy::Lru)
    } else if word == b"tinylfu".as_slice() {
        Ok(EvictionPolicy::TinyLfu)
    } else {
        Err(LineFault::Form)
    }
}

/// The weight that a word names.
fn read_weight(word: &[u8]) -> Result<Weight, LineFault>
    ensures { IsRead (weight_in_words word.now) result }
{
    if word == b"one".as_slice() {
        Ok(Weight::One)
    } else if word == b"bytes".as_slice() {
        Ok(Weight::Bytes)
    } else {
        Err(LineFault::Form)
    }
}

/// The cause that a word names.
fn read_cause(word: &[u8]) -> Result<RemovalCause, LineFault>
    ensures { IsRead (cause_in word.now) result }
{
    if word == b"Expired".as_slice() {
        Ok(RemovalCause::Expired)
    } else if word == b"Explicit".as_slice() {
        Ok(RemovalCause::Explicit)
    } else if word == b"Replaced".as_slice() {
        Ok(RemovalCause::Replaced)
    } else if word == b"Size".as_slice() {
        Ok(RemovalCause::Size)
    } else {
        Err(LineFault::Form)
    }
}

/// The value of a lower-case hex digit.
fn read_digit(digit: u8) -> Option<u8>
    ensures value { result ≡ digit_in digit }
    ensures small { IfSome result (λ value. value < 16) }
{
    match digit {
        b'0'..=b'9' => Some(digit - b'0'),
        b'a'..=b'f' => Some(digit - b'a' + 10),
        _ => None,
    }
}

/// The byte that two digits write.
fn read_byte(high: u8, low: u8) -> Option<u8>
    ensures { result ≡ byte_in high low }
{
    let high = read_digit(high)?;
    let low = read_digit(low)?;
    Some(high * 16 + low)
}

/// The bytes that a word writes.
fn read_bytes(alloc: Global, word: &[u8]) -> Result<Bytes, LineFault>
    ensures { IsRead (bytes_in word.now) result }
{
    let digits = read_setting(word, b"x")?;
    let bytes = read_digits(alloc, digits)?;
    Ok(Seq::from_vec(bytes))
}

/// The bytes that digits write, two a byte.
fn read_digits(alloc: Global, digits: &[u8]) -> Result<Vec<u8>, LineFault>
    ensures { IsReadItems (digits_in [] digits.now) result }
{
    let mut bytes = Vec::with_capacity(alloc, digits.len() / 2)?;
    let mut rest = digits;
    while let [high, low, behind @ ..] = rest {
        match read_byte(*high, *low) {
            Some(byte) => bytes.push(byte)?,
            None => return Err(LineFault::Form),
        }
        rest = behind;
    }
    if rest.is_empty() {
        Ok(bytes)
    } else {
        Err(LineFault::Form)
    }
}

/// The bytes that a word writes, or that there are none.
fn read_bytes_or_none(alloc: Global, word: &[u8]) -> Result<Option<Bytes>, LineFault>
    ensures { IsRead (option_in bytes_in word.now) result }
{
    if word == b"-".as_slice() {
        return Ok(None);
    }
    Ok(Some(read_bytes(alloc, word)?))
}

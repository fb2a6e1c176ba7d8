//! Numbers of a few digits, and expiries.
ghost use Rattle.std.specs.Prelude.{◌≡◌, ◌≤◌, ◌+◌, ◌-◌, ◌*◌, ◌<◌, ◌^◌, ◌∷◌, SomeIff, IfSome, Some, None, nat_lt, if◌then◌else◌};
ghost use Rattle.std.specs.List.{list_all};
ghost use Rattle.memcache_model.specs.Bytes.{digits_below, is_decimal_digit, number_below, without_plus};
ghost use Rattle.memcache_model.specs.Grammar.{exptime_in, exptime_by, negative, seconds, signed, size_in};

use memcache_model::Exptime;

/// A number has at most this many digits.
const MAX_DIGITS: usize = 20;

/// The size of a data block is at most this many bytes.
const MAX_SIZE: u64 = 2_147_483_645;

/// Returns the number that at most twenty digits write, behind a plus or alone, or `None` if the word is not of this form or the number is
/// 2^64 or above.
pub fn number(word: &[u8]) -> Option<u64>
    ensures { result ≡ number_below (2 ^ 64) word.now }
{
    digits(without_plus(word))
}

/// The word without a plus before it.
fn without_plus(word: &[u8]) -> &[u8]
    ensures { result.now ≡ without_plus word.now }
{
    match word.split_first() {
        Some((first, rest)) => { if *first == b'+' { rest } else { word } }
        None => word,
    }
}

/// The number that at most twenty digits write, if it is below 2^64.
fn digits(word: &[u8]) -> Option<u64>
    ensures { result ≡ digits_below (2 ^ 64) word.now }
{
    if word.is_empty() || word.len() > MAX_DIGITS {
        return None;
    }
    if !are_digits(word) {
        return None;
    }
    let mut value: u64 = 0;
    for digit in word {
        match with_digit(value, *digit) {
            Some(more) => value = more,
            None => return None,
        }
    }
    Some(value)
}

/// Whether each byte is a digit.
fn are_digits(word: &[u8]) -> bool
    ensures { result ≡ list_all is_decimal_digit word.now }
{
    word.iter().all(|b| b.is_ascii_digit())
}

/// The number with one more digit, if it is below 2^64.
fn with_digit(value: u64, digit: u8) -> Option<u64>
    requires { 48 ≤ digit }
    ensures { SomeIff result (value * 10 + (digit - 48) < 2 ^ 64) (value * 10 + (digit - 48)) }
{
    let tens = value.checked_mul(10)?;
    tens.checked_add(u64::from(digit - b'0'))
}

/// The number that at most twenty digits write, behind a plus or alone, if it is at most `most`.
fn number_up_to(most: u64, word: &[u8]) -> Option<u64>
    ensures number { result ≡ number_below (most + 1) word.now }
    ensures small { IfSome result (λ value. value ≤ most) }
{
    digits_up_to(most, without_plus(word))
}

/// The number that at most twenty digits write, if it is at most `most`.
fn digits_up_to(most: u64, word: &[u8]) -> Option<u64>
    ensures number { result ≡ digits_below (most + 1) word.now }
    ensures small { IfSome result (λ value. value ≤ most) }
{
    match digits(word) {
        Some(value) => at_most(most, value),
        None => None,
    }
}

/// The number, if it is at most `most`.
fn at_most(most: u64, value: u64) -> Option<u64>
    ensures value { result ≡ (if nat_lt value (most + 1) then Some value else None) }
    ensures small { IfSome result (λ value. value ≤ most) }
{
    if value <= most { Some(value) } else { None }
}

/// Returns the number that at most twenty digits write, behind a plus or alone, or `None` if the word is not of this form or the number is
/// 2^32 or above.
pub fn short_number(word: &[u8]) -> Option<u32>
    ensures { result ≡ number_below (2 ^ 32) word.now }
{
    match number_up_to(0xffff_ffff, word) {
        Some(value) => Some(value as u32),
        None => None,
    }
}

/// Returns the size in bytes of a data block, or `None` if the word is no number or the number is above 2^31 - 3.
pub fn block_size(word: &[u8]) -> Option<u32>
    ensures { result ≡ size_in word.now }
{
    match number_up_to(MAX_SIZE, word) {
        Some(value) => Some(value as u32),
        None => None,
    }
}

/// Returns the expiry that a word says, or `None` if it says none.
pub fn exptime(word: &[u8]) -> Option<Exptime>
    ensures { result ≡ exptime_in word.now }
{
    match word.split_first() {
        Some((first, digits)) => exptime_at(*first, digits, word),
        None => None,
    }
}

/// The same, by the first byte and those behind it.
fn exptime_at(first: u8, digits: &[u8], word: &[u8]) -> Option<Exptime>
    requires { word.now ≡ first ∷ digits.now }
    ensures { result ≡ exptime_in word.now }
{
    if first == b'-' {
        exptime_below(digits)
    } else {
        exptime_from(word)
    }
}

/// The expiry that digits behind a minus say.
fn exptime_below(digits: &[u8]) -> Option<Exptime>
    ensures { result ≡ exptime_by negative (digits_below (2 ^ 63 + 1) digits.now) }
{
    match digits_up_to(1 << 63, digits) {
        Some(value) => Some(seconds((1 << 32) - value % (1 << 32))),
        None => None,
    }
}

/// The expiry that a number says.
fn exptime_from(word: &[u8]) -> Option<Exptime>
    ensures { result ≡ exptime_by seconds (number_below (2 ^ 63) word.now) }
{
    match number_up_to((1 << 63) - 1, word) {
        Some(value) => Some(seconds(value)),
        None => None,
    }
}

/// The expiry of a number of seconds, of which the last 32 bits count.
fn seconds(number: u64) -> Exptime
    ensures { result ≡ seconds number }
{
    signed((number % (1 << 32)) as u32)
}

/// The expiry of a number of seconds whose first bit is its sign.
fn signed(seconds: u32) -> Exptime
    ensures { result ≡ signed seconds }
{
    if seconds == 0 {
        Exptime::Never
    } else if seconds < 1 << 31 {
        Exptime::Seconds(seconds)
    } else {
        Exptime::AtOnce
    }
}

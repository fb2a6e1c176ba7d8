//! Numbers of a few digits.
ghost use Rattle.std.specs.Prelude.{◌≡◌, ◌≤◌, ◌+◌, ◌-◌, ◌*◌, ◌<◌, ◌^◌, IfSome, Some, None, if◌then◌else◌, SomeIff};
ghost use Rattle.std.specs.List.{list_all};
ghost use Rattle.std.specs.Str.Parse.{digits_value};
ghost use Rattle.audit_model.specs.Grammar.{is_digit, is_numeral, number_in};

/// A deadline has at most this many digits.
const MAX_DEADLINE: usize = 12;

/// A number has at most this many digits.
const MAX_NUMBER: usize = 20;

/// Returns the number that at most twelve digits write, or `None` if the word is not of this form.
pub fn milliseconds(word: &[u8]) -> Option<u64>
    ensures said { result
        ≡ (if is_numeral 12 word.now then Some (digits_value 10 word.now) else None) }
    ensures small { IfSome result (λ ms. ms ≤ 999999999999) }
{
    if word.is_empty() || word.len() > MAX_DEADLINE {
        return None;
    }
    let mut value: u64 = 0;
    for digit in word {
        if !digit.is_ascii_digit() {
            return None;
        }
        value = value * 10 + u64::from(*digit - b'0');
    }
    Some(value)
}

/// Returns the number that at most twenty digits write, or `None` if the word is not of this form or the number is above 2^64 - 1.
pub fn number(word: &[u8]) -> Option<u64>
    ensures { result ≡ number_in word.now }
{
    if word.is_empty() || word.len() > MAX_NUMBER {
        return None;
    }
    if !are_digits(word) {
        return None;
    }
    let mut value: u64 = 0;
    for digit in word {
        match with_digit(value, *digit) {
            Some(more) => value = more,
            None => return None,
        }
    }
    Some(value)
}

/// Whether each byte is a digit.
fn are_digits(word: &[u8]) -> bool
    ensures { result ≡ list_all is_digit word.now }
{
    word.iter().all(|b| b.is_ascii_digit())
}

/// The number with one more digit, if it is at most 2^64 - 1.
fn with_digit(value: u64, digit: u8) -> Option<u64>
    requires { 48 ≤ digit }
    ensures { SomeIff result (value * 10 + (digit - 48) < 2 ^ 64) (value * 10 + (digit - 48)) }
{
    let tens = value.checked_mul(10)?;
    tens.checked_add(u64::from(digit - b'0'))
}

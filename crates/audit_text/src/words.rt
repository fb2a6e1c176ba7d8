//! Words, written behind a text, each with the byte that ends it.
ghost use Rattle.std.specs.Prelude.{◌≡◌, ◌<◌, ◌++◌, ◌∷◌, [], OnOk, decimal};
ghost use Rattle.audit_text.specs.Words.{hex_digit, byte_digits, bytes_word, option_word, flag_word, held_word, policy_word, weight_word};

use audit_model::{EvictionPolicy, Weight};
use itoa::Buffer;
use std::alloc::AllocError;

/// The digit of a number below 16, in lower case.
fn hex_digit(n: u8) -> u8
    requires { n < 16 }
    ensures { result ≡ hex_digit n }
{
    if n < 10 { b'0' + n } else { b'a' - 10 + n }
}

/// Returns the word of a policy.
pub fn policy_word(policy: EvictionPolicy) -> &'static [u8]
    ensures { result.now ≡ policy_word policy }
{
    match policy {
        EvictionPolicy::Lru => b"lru",
        EvictionPolicy::TinyLfu => b"tinylfu",
    }
}

/// Returns the word of a weight.
pub fn weight_word(weight: Weight) -> &'static [u8]
    ensures { result.now ≡ weight_word weight }
{
    match weight {
        Weight::One => b"one",
        Weight::Bytes => b"bytes",
    }
}

/// Returns the word of whether a step was held back.
pub fn held_word(held: bool) -> &'static [u8]
    ensures { result.now ≡ held_word held }
{
    if held { b"held" } else { b"run" }
}

/// Returns the word of yes or no.
pub fn flag_word(flag: bool) -> &'static [u8]
    ensures { result.now ≡ flag_word flag }
{
    if flag { b"1" } else { b"0" }
}

/// Appends a word. Returns an error if there is not enough memory.
pub fn put(text: &mut Vec<u8>, word: &[u8], end: u8) -> Result<(), AllocError>
    ensures { OnOk result (text.new.items ≡ text.old.items ++ (word.now ++ end ∷ [])) }
{
    text.extend_from_slice(word)?;
    text.push(end)?;
    Ok(())
}

/// Appends a number in decimal. Returns an error if there is not enough memory.
pub fn put_number(text: &mut Vec<u8>, number: u64, end: u8) -> Result<(), AllocError>
    ensures { OnOk result (text.new.items ≡ text.old.items ++ (decimal number ++ end ∷ [])) }
{
    let mut digits = Buffer::new();
    put(text, digits.format(number).as_bytes(), end)
}

/// Appends a number in decimal, or `-` for none. Returns an error if there is not enough memory.
pub fn put_number_or_none(
    text: &mut Vec<u8>,
    number: Option<u64>,
    end: u8,
) -> Result<(), AllocError>
    ensures { OnOk result
        (text.new.items ≡ text.old.items ++ (option_word decimal number ++ end ∷ [])) }
{
    match number {
        Some(number) => put_number(text, number, end),
        None => put(text, b"-", end),
    }
}

/// Appends bytes as digits. Returns an error if there is not enough memory.
pub fn put_bytes(text: &mut Vec<u8>, bytes: &[u8], end: u8) -> Result<(), AllocError>
    ensures { OnOk result (text.new.items ≡ text.old.items ++ (bytes_word bytes.now ++ end ∷ [])) }
{
    text.push(b'x')?;
    for byte in bytes {
        text.push(hex_digit(*byte / 16))?;
        text.push(hex_digit(*byte % 16))?;
    }
    text.push(end)?;
    Ok(())
}

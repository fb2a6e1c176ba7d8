//! The live keys in byte order.
ghost use Rattle.std.specs.Prelude.{◌≡◌, ◌<◌, ◌++◌, ℕ, List, None, IfOk, OnOk, map, reverse, length, get_or};
ghost use Rattle.std.specs.List.{concat, find};
ghost use Rattle.audit_situation.specs.Held.Seeing.{held_of};
ghost use Rattle.audit_model.specs.Bytewise.{same, text_line};
ghost use Rattle.audit_model.specs.Replies.{keys_listed};
ghost use Rattle.audit_model.specs.Situation.{live_keys_at};
ghost use Rattle.audit_model.specs.Values.{without_key};

use audit_model::Config;
use audit_situation::{Holding, Seen, is_live};
use itoa::Buffer;
use std::alloc::{AllocError, Global};
use std::collections::BTreeMap;

/// The keys of the live values, in byte order. The newest value comes first, and no key has two.
fn live_keys<'a>(
    alloc: Global,
    config: &Config,
    now: u64,
    held: &[Seen<'a>],
) -> Result<BTreeMap<&'a [u8], ()>, AllocError>
    requires { (key : List ℕ) → find (λ h. same key h.value.key)
        (without_key (λ h. h.value.key) key (reverse (map held_of held.now))) ≡ None }
    ensures { IfOk result (λ keys. map (λ e. e.0.now) keys.entries
        ≡ live_keys_at config.now now (reverse (map held_of held.entry.now))) }
{
    let mut keys = BTreeMap::new(alloc);
    for at in 0..held.len() {
        let h = seen_at(held, at);
        if is_live(config, now, &h) {
            keys.insert(h.key, ())?;
        }
    }
    Ok(keys)
}

/// The value at a place.
fn seen_at<'a>(held: &[Seen<'a>], at: usize) -> Seen<'a>
    requires { at < length held.now }
    ensures { get_or held.entry.now at result ≡ result }
{
    held[at]
}

/// Writes each key on a line of its own.
fn write_keys(output: &mut Vec<u8>, keys: &BTreeMap<&[u8], ()>) -> Result<(), AllocError>
    ensures { OnOk result (output.new.items ≡ output.old.items
        ++ concat (map text_line (map (λ e. e.0.now) keys.entry.now.entries))) }
{
    for (key, _unit) in keys {
        write_key(output, key)?;
    }
    Ok(())
}

/// Writes a key on a line of its own.
fn write_key(output: &mut Vec<u8>, key: &[u8]) -> Result<(), AllocError>
    ensures { OnOk result (output.new.items ≡ output.old.items ++ text_line key.now) }
{
    output.extend_from_slice(key)?;
    output.push(b'\n')?;
    Ok(())
}

/// Returns the text of a reply to `KEYS`: the number of live keys, and then each key on a line of its own, in byte order. Returns an error
/// if there is not enough memory.
pub fn keys_listed(
    alloc: Global,
    config: &Config,
    now: u64,
    held: &Holding,
) -> Result<Vec<u8>, AllocError>
    ensures { IfOk result
        (λ text. text.items ≡ keys_listed (live_keys_at config.now now held.now)) }
{
    let _number = held.len();
    let all = held.lent()?;
    let keys = live_keys(alloc, config, now, &all)?;
    text_of(alloc, &keys)
}

/// The number of these, and then each on a line of its own.
fn text_of(alloc: Global, keys: &BTreeMap<&[u8], ()>) -> Result<Vec<u8>, AllocError>
    ensures { IfOk result
        (λ text. text.items ≡ keys_listed (map (λ e. e.0.now) keys.entry.now.entries)) }
{
    let mut number = Buffer::new();
    let mut text = Vec::from_slice(alloc, b"KEYS ")?;
    text.extend_from_slice(number.format(keys.len()).as_bytes())?;
    text.push(b'\n')?;
    write_keys(&mut text, keys)?;
    Ok(text)
}

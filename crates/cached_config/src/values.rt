//! What the keys of a namespace's table say. An error is what is wrong with a value, in words that follow its key.
ghost use Rattle.std.specs.Prelude.{codes, ◌≡◌, false, None, Some, option_map, IfOk, IfSome, IfNone};
ghost use Rattle.audit_model.specs.declared.config.EvictionPolicy.TheVariants as policy;
ghost use Rattle.audit_model.specs.declared.config.Weight.TheVariants as weight;
ghost use Rattle.cached_config.specs.Said.{said_or, whole_number, policy_text, weight_text};
ghost use Rattle.toml.specs.Data.{string, boolean, get_member};
ghost use Rattle.toml.specs.View.{view, table_view};

use crate::good::{MOST_BYTES, is_name, is_value};
use audit_model::{EvictionPolicy, Weight};
use toml::{Table, Value};

const LETTERS: &str = "is a text of 1 to 32 of a to z, 0 to 9, - and _";

const PORT: &str = "is a number from 1 to 65535";

const PARTS: &str = "is a number from 1 to 256";

/// Returns the value at a key of a table, or `None` if the table does not have the key.
pub fn at_key<'a>(table: &'a Table, key: &str) -> Option<&'a Value>
    ensures some { IfSome result
        (λ value. get_member key.now (table_view table.now) ≡ Some (view value.now)) }
    ensures none { IfNone result (get_member key.now (table_view table.now) ≡ None) }
{
    table.get(key)
}

/// Returns the name that a table says. Returns what is wrong if the value is not allowed.
pub fn name_in(table: &Table) -> Result<&str, &'static str>
    ensures { IfOk result (λ name.
        get_member (codes "name") (table_view table.now) ≡ Some (string name.now)) }
{
    match at_key(table, "name") {
        None => Err("is missing"),
        Some(value) => match value.as_str() {
            Some(name) if is_name(name.as_bytes()) => Ok(name),
            _ => Err(LETTERS),
        },
    }
}

/// Returns the port that a table says. Returns what is wrong if the value is not allowed.
pub fn port_in(table: &Table) -> Result<u16, &'static str>
    ensures { IfOk result
        (λ port. get_member (codes "port") (table_view table.now) ≡ Some (whole_number port)) }
{
    match number_at(table, "port", 1, 65_535, PORT)? {
        None => Err("is missing"),
        Some(port) => u16::try_from(port).map_err(|_| PORT),
    }
}

/// Returns the capacity that a table says, or `None` without the key. Returns what is wrong if the value is not allowed.
pub fn capacity_in(table: &Table) -> Result<Option<u64>, &'static str>
    ensures { IfOk result (λ capacity.
        get_member (codes "capacity") (table_view table.now) ≡ option_map whole_number capacity) }
{
    number_at(table, "capacity", 0, u64::MAX, "is a number from 0 on")
}

/// Returns the number of parts that a table says, or 1 without the key. Returns what is wrong if the value is not allowed.
pub fn parts_in(table: &Table) -> Result<u32, &'static str>
    ensures { IfOk result (λ parts.
        said_or (codes "parts") (whole_number 1) (table_view table.now) ≡ whole_number parts) }
{
    match number_at(table, "parts", 1, 256, PARTS)? {
        None => Ok(1),
        Some(parts) => u32::try_from(parts).map_err(|_| PARTS),
    }
}

/// Returns the milliseconds that a table says at a key, or `None` without the key. Returns what is wrong if the value is not allowed.
pub fn time_in(table: &Table, key: &str) -> Result<Option<u64>, &'static str>
    ensures { IfOk result
        (λ time. get_member key.now (table_view table.now) ≡ option_map whole_number time) }
{
    let what = "is a number of milliseconds from 1 to 999999999999";
    number_at(table, key, 1, 999_999_999_999, what)
}

/// Returns the number that a table says at a key, or `None` without the key. Returns `what` as the error if the value is no number within
/// the bounds.
pub fn number_at(
    table: &Table,
    key: &str,
    least: u64,
    most: u64,
    what: &'static str,
) -> Result<Option<u64>, &'static str>
    ensures { IfOk result
        (λ said. get_member key.now (table_view table.now) ≡ option_map whole_number said) }
{
    match at_key(table, key) {
        None => Ok(None),
        Some(value) => match number_in(value) {
            Some(said) if least <= said && said <= most => Ok(Some(said)),
            _ => Err(what),
        },
    }
}

/// The number that a value is, if it is one from 0 on.
fn number_in(value: &Value) -> Option<u64>
    ensures { IfSome result (λ said. view value.now ≡ whole_number said) }
{
    match value.as_integer() {
        Some(said) if said >= 0 => Some(said as u64),
        _ => None,
    }
}

/// Returns the policy that a table says: TinyLFU, without the key. Returns what is wrong if the value is not allowed.
pub fn policy_in(table: &Table) -> Result<EvictionPolicy, &'static str>
    ensures { IfOk result (λ said. said_or (codes "policy") (policy_text policy.TinyLfu)
        (table_view table.now) ≡ policy_text said) }
{
    match at_key(table, "policy") {
        None => Ok(EvictionPolicy::TinyLfu),
        Some(value) => match value.as_str() {
            Some("tinylfu") => Ok(EvictionPolicy::TinyLfu),
            Some("lru") => Ok(EvictionPolicy::Lru),
            _ => Err("is \"tinylfu\" or \"lru\""),
        },
    }
}

/// Returns what a table says that values weigh: one, without the key. Returns what is wrong if the value is not allowed.
pub fn weight_in(table: &Table) -> Result<Weight, &'static str>
    ensures { IfOk result (λ said. said_or (codes "weight") (weight_text weight.One)
        (table_view table.now) ≡ weight_text said) }
{
    match at_key(table, "weight") {
        None => Ok(Weight::One),
        Some(value) => match value.as_str() {
            Some("one") => Ok(Weight::One),
            Some("bytes") => Ok(Weight::Bytes),
            _ => Err("is \"one\" or \"bytes\""),
        },
    }
}

/// Returns whether a table says that values have deadlines of their own: no, without the key. Returns what is wrong if the value is not
/// allowed.
pub fn deadlines_in(table: &Table) -> Result<bool, &'static str>
    ensures { IfOk result (λ said.
        said_or (codes "deadlines") (boolean false) (table_view table.now) ≡ boolean said) }
{
    match at_key(table, "deadlines") {
        None => Ok(false),
        Some(value) => match value.as_bool() {
            Some(said) => Ok(said),
            None => Err("is true or false"),
        },
    }
}

/// Returns the text that a load finds. Returns what is wrong if the value is not allowed.
pub fn load_in(value: &Value) -> Result<&str, &'static str>
    ensures { IfOk result (λ text. view value.now ≡ string text.now) }
{
    match value.as_str() {
        None => Err("is a text"),
        Some(text) if text.len() > MOST_BYTES => Err("has more than 8192 bytes"),
        Some(text) if !is_value(text.as_bytes()) => Err("has a line end"),
        Some(text) => Ok(text),
    }
}

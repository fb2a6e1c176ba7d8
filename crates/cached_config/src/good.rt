//! What a file may say.
ghost use Rattle.std.specs.Prelude.{◌≡◌};
ghost use Rattle.std.specs.List.{list_all};
ghost use Rattle.audit_model.specs.Grammar.{is_value};
ghost use Rattle.cached_config.specs.Good.{are_all_apart, are_good, is_apart, is_good_namespace, is_loadable, is_name, is_name_byte};

use crate::listed::{HostedNamespace, Listed};

/// The maximum number of namespaces.
pub const MOST: usize = 16;

/// The maximum number of bytes of a value that loads find.
pub const MOST_BYTES: usize = 8192;

/// Returns whether a file may have these namespaces: 1 to 16, each valid, all names and all ports different.
pub fn are_good(spaces: &[HostedNamespace]) -> bool
    ensures { result ≡ are_good spaces.now }
{
    !spaces.is_empty() && spaces.len() <= MOST && are_all_good(spaces) && are_distinct(spaces)
}

/// Whether each is valid.
fn are_all_good(spaces: &[HostedNamespace]) -> bool
    ensures { result ≡ list_all is_good_namespace spaces.now }
{
    spaces.iter().all(|space| is_good(space))
}

/// Whether no two have the same name or the same port.
fn are_distinct(spaces: &[HostedNamespace]) -> bool
    ensures { result ≡ are_all_apart spaces.now }
{
    let mut rest = spaces;
    while let [space, others @ ..] = rest {
        if !is_apart_from(space, others) {
            return false;
        }
        rest = others;
    }
    true
}

/// Whether none of the others has its name or its port.
fn is_apart_from(space: &HostedNamespace, others: &[HostedNamespace]) -> bool
    ensures { result ≡ list_all (is_apart space.now) others.now }
{
    others.iter().all(|other| is_apart(space, other))
}

/// Whether neither its name nor its port is the other's.
fn is_apart(space: &HostedNamespace, other: &HostedNamespace) -> bool
    ensures { result ≡ is_apart space.now other.now }
{
    other.name.as_slice() != space.name.as_slice() && other.port != space.port
}

/// Whether a namespace is valid.
fn is_good(space: &HostedNamespace) -> bool
    ensures { result ≡ is_good_namespace space.now }
{
    is_name(space.name.as_slice())
        && space.port >= 1
        && space.config.is_valid()
        && are_loadable(&space.loads)
}

/// Returns whether a name has 1 to 32 bytes, each of which a name may have: `a` to `z`, `0` to `9`, `-` and `_`.
pub fn is_name(name: &[u8]) -> bool
    ensures { result ≡ is_name name.now }
{
    !name.is_empty() && name.len() <= 32 && are_name_bytes(name)
}

/// Whether a name may have each of these bytes.
fn are_name_bytes(name: &[u8]) -> bool
    ensures { result ≡ list_all is_name_byte name.now }
{
    name.iter().all(|byte| is_name_byte(*byte))
}

/// Whether a byte is one of `a` to `z`, `0` to `9`, `-` and `_`.
fn is_name_byte(byte: u8) -> bool
    ensures { result ≡ is_name_byte byte }
{
    byte.is_ascii_lowercase() || byte.is_ascii_digit() || byte == b'-' || byte == b'_'
}

/// Whether each value may be loaded.
fn are_loadable(loads: &[Listed]) -> bool
    ensures { result ≡ list_all is_loadable loads.now }
{
    loads.iter().all(|listed| is_loadable(listed))
}

/// Whether a value has no line end, and at most 8192 bytes.
fn is_loadable(listed: &Listed) -> bool
    ensures { result ≡ is_loadable listed.now }
{
    listed.value.len() <= MOST_BYTES && is_value(listed.value.as_slice())
}

/// Returns whether the bytes have no line end.
pub fn is_value(bytes: &[u8]) -> bool
    ensures { result ≡ is_value bytes.now }
{
    bytes.iter().all(|byte| *byte != b'\n' && *byte != b'\r')
}

//! What stands before a data block.
ghost use Rattle.std.specs.Prelude.{◌≡◌, ◌∷◌, ◌<◌, Some, length, MatchOption};
ghost use Rattle.memcache_model.specs.Bytes.{tokens, number_below};
ghost use Rattle.memcache_model.specs.Grammar.{block_head, meta_head_of, read_cas, read_meta_set, read_store};
ghost use Rattle.memcache_lines.specs.Said.{said_by};
ghost use Rattle.memcache_lines.specs.Words.{head_in};

use crate::line::{Line, fault, read_quiet};
use crate::numbers::{block_size, exptime, number, short_number};
use crate::tokens::{key_fits, next_token};
use memcache_model::{Exptime, ProtocolError, Storage};

/// What stands before the data block of a storage command.
#[derive(Clone, Copy)]
pub struct Head<'a> {
    /// What the command does with the item that its key has.
    pub storage: Storage,
    /// The key.
    pub key: &'a [u8],
    /// The client's flags.
    pub flags: u32,
    /// When the item is to expire.
    pub exptime: Exptime,
    /// The size of the data block, in bytes.
    pub size: u32,
    /// Whether the reply is left out.
    pub quiet: bool,
}

/// What stands before the data block of a `ms`.
#[derive(Clone, Copy)]
pub struct MetaHead<'a> {
    /// The key.
    pub key: &'a [u8],
    /// The flags of the command, as words with spaces between them.
    pub flags: &'a [u8],
    /// The size of the data block, in bytes.
    pub size: u32,
}

/// The four words behind a storage command's word, and what stands behind them.
#[derive(Clone, Copy)]
struct Words<'a> {
    key: &'a [u8],
    flags: &'a [u8],
    exptime: &'a [u8],
    size: &'a [u8],
    more: &'a [u8],
}

/// Reads what stands behind the word of a storage command but `cas`.
pub fn read_store<'a>(storage: Storage, rest: &'a [u8]) -> Line<'a>
    ensures { said_by result ≡ read_store storage (tokens rest.now) }
{
    let Some(words) = next_words(rest) else {
        return fault(ProtocolError::Unknown);
    };
    let Some(quiet) = read_quiet(words.more) else {
        return fault(ProtocolError::Unknown);
    };
    with_head(storage, words, quiet)
}

/// Reads what stands behind `cas`.
pub fn read_cas<'a>(rest: &'a [u8]) -> Line<'a>
    ensures { said_by result ≡ read_cas (tokens rest.now) }
{
    let Some(words) = next_words(rest) else {
        return fault(ProtocolError::Unknown);
    };
    let Some((word, more)) = next_token(words.more) else {
        return fault(ProtocolError::Unknown);
    };
    let Some(quiet) = read_quiet(more) else {
        return fault(ProtocolError::Unknown);
    };
    match number(word) {
        Some(unique) => with_head(Storage::Cas(unique), words, quiet),
        None => fault(ProtocolError::Format),
    }
}

/// The four words, if there are as many.
fn next_words<'a>(rest: &'a [u8]) -> Option<Words<'a>>
    ensures { MatchOption result (length (tokens rest.now) < 4)
        (λ w. tokens rest.now ≡ w.key.now ∷ w.flags.now ∷ w.exptime.now ∷ w.size.now
        ∷ tokens w.more.now) }
{
    let (key, rest) = next_token(rest)?;
    let (flags, rest) = next_token(rest)?;
    let (exptime, rest) = next_token(rest)?;
    let (size, more) = next_token(rest)?;
    Some(Words {
        key,
        flags,
        exptime,
        size,
        more,
    })
}

/// The words by what they say, or that one of them is malformed.
fn with_head<'a>(storage: Storage, words: Words<'a>, quiet: bool) -> Line<'a>
    ensures { said_by result ≡ head_in (Some storage) words.entry (Some quiet) }
{
    let Some(flags) = short_number(words.flags) else {
        return fault(ProtocolError::Format);
    };
    let Some(exptime) = exptime(words.exptime) else {
        return fault(ProtocolError::Format);
    };
    let Some(size) = block_size(words.size) else {
        return fault(ProtocolError::Format);
    };
    if !key_fits(words.key) {
        return fault(ProtocolError::Format);
    }
    let key = words.key;
    Line::Head(Head {
        storage,
        key,
        flags,
        exptime,
        size,
        quiet,
    })
}

/// Reads what stands behind `ms`.
pub fn read_meta_set<'a>(rest: &'a [u8]) -> Line<'a>
    ensures { said_by result ≡ read_meta_set (tokens rest.now) }
{
    let Some((key, rest)) = next_token(rest) else {
        return fault(ProtocolError::Unknown);
    };
    let Some((word, flags)) = next_token(rest) else {
        return fault(ProtocolError::Unknown);
    };
    match block_size(word) {
        Some(size) => meta_head(key, flags, size),
        None => fault(ProtocolError::Format),
    }
}

/// The same, if its key is one.
fn meta_head<'a>(key: &'a [u8], flags: &'a [u8], size: u32) -> Line<'a>
    ensures { said_by result ≡ meta_head_of key.now (tokens flags.now) (Some size) }
{
    if key_fits(key) {
        Line::MetaHead(MetaHead { key, flags, size })
    } else {
        fault(ProtocolError::Format)
    }
}

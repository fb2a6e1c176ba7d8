//! What a line says, with its words as they are in it.
ghost use Rattle.std.specs.Prelude.{◌≡◌, ◌∷◌, codes, bytes_eq};
ghost use Rattle.memcache_model.specs.Bytes.{tokens};
ghost use Rattle.memcache_model.specs.Grammar.{request_line, whole, faulty, keys_fault, read_get, read_gat, read_delete, delete_word, delete_words, on_key, read_arithmetic, read_touch, read_flush, timed, read_verbosity, verbosity_by, read_meta, read_arguments, stranger, verb_named, rare_verb_in, server_verb_in, meta_verb_in, quiet_in, exptime_in};
ghost use Rattle.memcache_model.specs.Commands.{delete, flush_all};
ghost use Rattle.memcache_lines.specs.Said.{said_by, asks};

use crate::numbers::{exptime, number};
use crate::storing::{Head, MetaHead, read_cas, read_meta_set, read_store};
use crate::tokens::{are_keys, has_token, key_fits, last_word, next_token};
use memcache_model::{Direction, Exptime, Meta, ProtocolError, Storage, Verb};

/// What a request asks for, with its words as they are in the bytes that came. `keys`, `words` and `flags` are words with spaces between
/// them.
#[derive(Clone, Copy)]
pub enum Command<'a> {
    /// `get`, and `gets` if uniques are told.
    Get {
        uniques: bool,
        keys: &'a [u8],
    },
    /// The same of one key.
    GetOne {
        uniques: bool,
        key: &'a [u8],
    },
    /// `gat`, and `gats` if uniques are told.
    Gat {
        uniques: bool,
        exptime: Exptime,
        keys: &'a [u8],
    },
    /// `set`, `add`, `replace`, `append`, `prepend` or `cas`, with its data block.
    Store {
        storage: Storage,
        key: &'a [u8],
        flags: u32,
        exptime: Exptime,
        block: &'a [u8],
    },
    /// A storage command whose data block is too large.
    Oversize {
        storage: Storage,
        key: &'a [u8],
    },
    /// `delete`.
    Delete {
        key: &'a [u8],
    },
    /// `incr` or `decr`.
    Arithmetic {
        direction: Direction,
        key: &'a [u8],
        delta: u64,
    },
    /// `touch`.
    Touch {
        key: &'a [u8],
        exptime: Exptime,
    },
    /// `flush_all`.
    FlushAll {
        exptime: Exptime,
    },
    /// `stats`.
    Stats {
        words: &'a [u8],
    },
    /// `version`.
    Version,
    /// `verbosity`.
    Verbosity,
    /// `quit`.
    Quit,
    /// `mg`, `md` or `ma`.
    Meta {
        kind: Meta,
        key: &'a [u8],
        flags: &'a [u8],
    },
    /// `ms`, with its data block.
    MetaSet {
        key: &'a [u8],
        flags: &'a [u8],
        block: &'a [u8],
    },
    /// `ms`, with a data block that is too large.
    MetaOversize {
        key: &'a [u8],
        flags: &'a [u8],
    },
    /// `mn`.
    MetaNoOp,
    /// A request that cannot be read, by its fault.
    Malformed(ProtocolError),
}

/// What a line says: all of a request, or what stands before a data block.
#[derive(Clone, Copy)]
pub enum Line<'a> {
    /// A whole request, and whether it is to have no reply.
    Whole { command: Command<'a>, quiet: bool },
    /// What stands before the data block of a storage command.
    Head(Head<'a>),
    /// What stands before the data block of a `ms`.
    MetaHead(MetaHead<'a>),
}

/// Returns what a line says.
pub fn read_line<'a>(line: &'a [u8]) -> Line<'a>
    ensures { said_by result ≡ request_line line.now }
{
    match next_token(line) {
        Some((word, rest)) => match verb_of(word) {
            Some(verb) => read_behind(verb, rest),
            None => fault(stranger(word, rest)),
        },
        None => fault(ProtocolError::Unknown),
    }
}

/// What is wrong with a line that begins with no command's word.
fn stranger(word: &[u8], rest: &[u8]) -> ProtocolError
    ensures { result ≡ stranger word.now (tokens rest.now) }
{
    if last_word(word, rest).starts_with(b"HTTP/") {
        ProtocolError::Foreign
    } else {
        ProtocolError::Unknown
    }
}

/// Returns the request of a line that cannot be read.
pub fn fault<'a>(error: ProtocolError) -> Line<'a>
    ensures { said_by result ≡ faulty error }
{
    all_of(Command::Malformed(error), false)
}

/// All of a request.
fn all_of<'a>(command: Command<'a>, quiet: bool) -> Line<'a>
    ensures { said_by result ≡ whole (asks command.entry) quiet }
{
    Line::Whole { command, quiet }
}

/// The command that a word names.
fn verb_of(word: &[u8]) -> Option<Verb>
    ensures { result ≡ verb_named word.now }
{
    if word == b"get".as_slice() {
        Some(Verb::Get { uniques: false })
    } else if word == b"set".as_slice() {
        Some(Verb::Store(Storage::Set))
    } else if word == b"gets".as_slice() {
        Some(Verb::Get { uniques: true })
    } else if word == b"delete".as_slice() {
        Some(Verb::Delete)
    } else if word == b"add".as_slice() {
        Some(Verb::Store(Storage::Add))
    } else if word == b"cas".as_slice() {
        Some(Verb::Cas)
    } else if word == b"incr".as_slice() {
        Some(Verb::Arithmetic(Direction::Up))
    } else if word == b"decr".as_slice() {
        Some(Verb::Arithmetic(Direction::Down))
    } else if word == b"touch".as_slice() {
        Some(Verb::Touch)
    } else {
        rare_verb_of(word)
    }
}

/// The command that a word names, but for those that most clients send.
fn rare_verb_of(word: &[u8]) -> Option<Verb>
    ensures { result ≡ rare_verb_in word.now }
{
    if word == b"gat".as_slice() {
        Some(Verb::Gat { uniques: false })
    } else if word == b"gats".as_slice() {
        Some(Verb::Gat { uniques: true })
    } else if word == b"replace".as_slice() {
        Some(Verb::Store(Storage::Replace))
    } else if word == b"append".as_slice() {
        Some(Verb::Store(Storage::Append))
    } else if word == b"prepend".as_slice() {
        Some(Verb::Store(Storage::Prepend))
    } else {
        server_verb_of(word)
    }
}

/// The command for the server that a word names, or a meta command.
fn server_verb_of(word: &[u8]) -> Option<Verb>
    ensures { result ≡ server_verb_in word.now }
{
    if word == b"flush_all".as_slice() {
        Some(Verb::FlushAll)
    } else if word == b"stats".as_slice() {
        Some(Verb::Stats)
    } else if word == b"version".as_slice() {
        Some(Verb::Version)
    } else if word == b"verbosity".as_slice() {
        Some(Verb::Verbosity)
    } else if word == b"quit".as_slice() {
        Some(Verb::Quit)
    } else {
        meta_verb_of(word)
    }
}

/// The meta command that a word names.
fn meta_verb_of(word: &[u8]) -> Option<Verb>
    ensures { result ≡ meta_verb_in word.now }
{
    if word == b"mg".as_slice() {
        Some(Verb::Meta(Meta::Get))
    } else if word == b"ms".as_slice() {
        Some(Verb::MetaSet)
    } else if word == b"md".as_slice() {
        Some(Verb::Meta(Meta::Delete))
    } else if word == b"ma".as_slice() {
        Some(Verb::Meta(Meta::Arithmetic))
    } else if word == b"mn".as_slice() {
        Some(Verb::MetaNoOp)
    } else {
        None
    }
}

/// Reads what stands behind a command's word.
fn read_behind<'a>(verb: Verb, rest: &'a [u8]) -> Line<'a>
    ensures { said_by result ≡ read_arguments verb (tokens rest.now) }
{
    match verb {
        Verb::Get { uniques } => read_get(uniques, rest),
        Verb::Gat { uniques } => read_gat(uniques, rest),
        Verb::Store(storage) => read_store(storage, rest),
        Verb::Cas => read_cas(rest),
        Verb::Delete => read_delete(rest),
        Verb::Arithmetic(direction) => read_arithmetic(direction, rest),
        Verb::Touch => read_touch(rest),
        Verb::FlushAll => read_flush(rest),
        Verb::Stats => all_of(Command::Stats { words: rest }, false),
        Verb::Version => all_of(Command::Version, false),
        Verb::Verbosity => read_verbosity(rest),
        Verb::Quit => all_of(Command::Quit, false),
        Verb::Meta(kind) => read_meta(kind, rest),
        Verb::MetaSet => read_meta_set(rest),
        Verb::MetaNoOp => all_of(Command::MetaNoOp, false),
    }
}

/// Reads the keys of a `get` or `gets`.
fn read_get<'a>(uniques: bool, keys: &'a [u8]) -> Line<'a>
    ensures { said_by result ≡ read_get uniques (tokens keys.now) }
{
    let Some((key, more)) = next_token(keys) else {
        return fault(ProtocolError::Unknown);
    };
    if !has_token(more) {
        return on_key(key, Command::GetOne { uniques, key }, false);
    }
    match check_behind(key, more) {
        None => all_of(Command::Get { uniques, keys }, false),
        Some(error) => fault(error),
    }
}

/// What is wrong with the keys, if anything is: there are none, or one is too long.
fn check_keys(keys: &[u8]) -> Option<ProtocolError>
    ensures { result ≡ keys_fault (tokens keys.now) }
{
    match next_token(keys) {
        Some((key, more)) => check_behind(key, more),
        None => Some(ProtocolError::Unknown),
    }
}

/// The same of a key and those behind it.
fn check_behind(key: &[u8], more: &[u8]) -> Option<ProtocolError>
    ensures { result ≡ keys_fault (key.now ∷ tokens more.now) }
{
    if key_fits(key) && are_keys(more) {
        None
    } else {
        Some(ProtocolError::Format)
    }
}

/// Reads what stands behind `gat` or `gats`.
fn read_gat<'a>(uniques: bool, rest: &'a [u8]) -> Line<'a>
    ensures { said_by result ≡ read_gat uniques (tokens rest.now) }
{
    let Some((word, keys)) = next_token(rest) else {
        return fault(ProtocolError::Unknown);
    };
    let Some(exptime) = exptime(word) else {
        return fault(ProtocolError::Exptime);
    };
    match check_keys(keys) {
        None => all_of(
            Command::Gat {
                uniques,
                exptime,
                keys,
            },
            false,
        ),
        Some(error) => fault(error),
    }
}

/// Returns whether the reply is left out, by what stands behind all other words, or `None` if there are too many words.
pub fn read_quiet(rest: &[u8]) -> Option<bool>
    ensures { result ≡ quiet_in (tokens rest.now) }
{
    let Some((word, more)) = next_token(rest) else {
        return Some(false);
    };
    if has_token(more) {
        None
    } else {
        Some(is_noreply(word))
    }
}

/// Whether a word leaves out the reply.
fn is_noreply(word: &[u8]) -> bool
    ensures { result ≡ bytes_eq word.now (codes "noreply") }
{
    word == b"noreply".as_slice()
}

/// Reads what stands behind `delete`.
fn read_delete<'a>(rest: &'a [u8]) -> Line<'a>
    ensures { said_by result ≡ read_delete (tokens rest.now) }
{
    let Some((key, more)) = next_token(rest) else {
        return fault(ProtocolError::Unknown);
    };
    match next_token(more) {
        Some((word, behind)) => read_delete_words(key, word, behind),
        None => delete(key, false),
    }
}

/// The same, by its key, the first word behind that and what stands behind that word.
fn read_delete_words<'a>(key: &'a [u8], first: &[u8], rest: &[u8]) -> Line<'a>
    ensures { said_by result ≡ delete_words key.now first.now (tokens rest.now) }
{
    let Some((second, more)) = next_token(rest) else {
        return read_delete_word(key, first);
    };
    if has_token(more) {
        return fault(ProtocolError::Unknown);
    }
    let quiet = is_noreply(second);
    if is_zero(first) && quiet {
        delete(key, true)
    } else {
        all_of(Command::Malformed(ProtocolError::Delete), quiet)
    }
}

/// The same, by the only word behind the key.
fn read_delete_word<'a>(key: &'a [u8], word: &[u8]) -> Line<'a>
    ensures { said_by result ≡ delete_word key.now word.now }
{
    if is_zero(word) {
        delete(key, false)
    } else if is_noreply(word) {
        delete(key, true)
    } else {
        fault(ProtocolError::Delete)
    }
}

/// A `delete`.
fn delete<'a>(key: &'a [u8], quiet: bool) -> Line<'a>
    ensures { said_by result ≡ on_key key.now (delete key.now) quiet }
{
    on_key(key, Command::Delete { key }, quiet)
}

/// Whether a word is a time of 0.
fn is_zero(word: &[u8]) -> bool
    ensures { result ≡ bytes_eq word.now (codes "0") }
{
    word == b"0".as_slice()
}

/// A command on a key, if that is one.
fn on_key<'a>(key: &[u8], command: Command<'a>, quiet: bool) -> Line<'a>
    ensures { said_by result ≡ on_key key.now (asks command.entry) quiet }
{
    if key_fits(key) {
        all_of(command, quiet)
    } else {
        fault(ProtocolError::Format)
    }
}

/// Reads what stands behind `incr` or `decr`.
fn read_arithmetic<'a>(direction: Direction, rest: &'a [u8]) -> Line<'a>
    ensures { said_by result ≡ read_arithmetic direction (tokens rest.now) }
{
    let Some((key, rest)) = next_token(rest) else {
        return fault(ProtocolError::Unknown);
    };
    let Some((word, rest)) = next_token(rest) else {
        return fault(ProtocolError::Unknown);
    };
    let Some(quiet) = read_quiet(rest) else {
        return fault(ProtocolError::Unknown);
    };
    match number(word) {
        Some(delta) => on_key(
            key,
            Command::Arithmetic {
                direction,
                key,
                delta,
            },
            quiet,
        ),
        None => fault(ProtocolError::Delta),
    }
}

/// Reads what stands behind `touch`.
fn read_touch<'a>(rest: &'a [u8]) -> Line<'a>
    ensures { said_by result ≡ read_touch (tokens rest.now) }
{
    let Some((key, rest)) = next_token(rest) else {
        return fault(ProtocolError::Unknown);
    };
    let Some((word, rest)) = next_token(rest) else {
        return fault(ProtocolError::Unknown);
    };
    if !key_fits(key) {
        return fault(ProtocolError::Format);
    }
    let Some(quiet) = read_quiet(rest) else {
        return fault(ProtocolError::Unknown);
    };
    match exptime(word) {
        Some(exptime) => all_of(Command::Touch { key, exptime }, quiet),
        None => fault(ProtocolError::Exptime),
    }
}

/// Reads what stands behind `flush_all`.
fn read_flush<'a>(rest: &'a [u8]) -> Line<'a>
    ensures { said_by result ≡ read_flush (tokens rest.now) }
{
    let Some((word, rest)) = next_token(rest) else {
        return flush(Exptime::Never, false);
    };
    if !has_token(rest) && is_noreply(word) {
        return flush(Exptime::Never, true);
    }
    read_flush_at(word, rest)
}

/// Reads the delay of a `flush_all` and what stands behind it.
fn read_flush_at<'a>(word: &[u8], rest: &[u8]) -> Line<'a>
    ensures { said_by result ≡ timed flush_all (exptime_in word.now) (quiet_in (tokens rest.now)) }
{
    let Some(quiet) = read_quiet(rest) else {
        return fault(ProtocolError::Unknown);
    };
    match exptime(word) {
        Some(exptime) => flush(exptime, quiet),
        None => fault(ProtocolError::Exptime),
    }
}

/// A `flush_all`.
fn flush<'a>(exptime: Exptime, quiet: bool) -> Line<'a>
    ensures { said_by result ≡ whole (flush_all exptime) quiet }
{
    all_of(Command::FlushAll { exptime }, quiet)
}

/// Reads what stands behind `verbosity`.
fn read_verbosity<'a>(rest: &'a [u8]) -> Line<'a>
    ensures { said_by result ≡ read_verbosity (tokens rest.now) }
{
    let Some((level, more)) = next_token(rest) else {
        return fault(ProtocolError::Unknown);
    };
    let quiet = if has_token(more) {
        read_quiet(more)
    } else {
        Some(is_noreply(level))
    };
    verbosity(number(level), quiet)
}

/// A `verbosity` of this level, and whether its reply is left out, if it has as many words.
fn verbosity<'a>(level: Option<u64>, quiet: Option<bool>) -> Line<'a>
    ensures { said_by result ≡ verbosity_by level quiet }
{
    let Some(quiet) = quiet else {
        return fault(ProtocolError::Unknown);
    };
    match level {
        Some(_) => all_of(Command::Verbosity, quiet),
        None => all_of(Command::Malformed(ProtocolError::Format), quiet),
    }
}

/// Reads what stands behind `mg`, `md` or `ma`.
fn read_meta<'a>(kind: Meta, rest: &'a [u8]) -> Line<'a>
    ensures { said_by result ≡ read_meta kind (tokens rest.now) }
{
    match next_token(rest) {
        Some((key, flags)) => on_key(key, Command::Meta { kind, key, flags }, false),
        None => fault(ProtocolError::Unknown),
    }
}

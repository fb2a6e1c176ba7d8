//! The words of a line.
ghost use Rattle.std.specs.Prelude.{◌≡◌, ◌∷◌, ◌<◌, [], length, slice_index, false, not, IfSome, MatchOption};
ghost use Rattle.std.specs.List.{list_all, position};
ghost use Rattle.memcache_model.specs.Bytes.{is_filled, is_item_key, is_space, tokens};
ghost use Rattle.memcache_model.specs.Grammar.{last_word};

use memcache_model::MAX_KEY;

/// Returns the first word of a line and what stands behind it, or `None` if there is no word.
pub fn next_token(line: &[u8]) -> Option<(&[u8], &[u8])>
    ensures word { MatchOption result (tokens line.now ≡ [])
        (λ r. tokens line.now ≡ r.0.now ∷ tokens r.1.now) }
    ensures shorter { IfSome result (λ r. length r.1.now < length line.now) }
{
    match first_other(line) {
        Some(at) => Some(cut_token(&line[at..])),
        None => None,
    }
}

/// The word that a line begins with, and what stands behind it.
fn cut_token(line: &[u8]) -> (&[u8], &[u8])
    requires some { 0 < length line.now }
    requires begins { is_space (slice_index line.now 0) ≡ false }
    ensures word { tokens line.now ≡ result.0.now ∷ tokens result.1.now }
    ensures shorter { length result.1.now < length line.now }
{
    match first_space(line) {
        Some(at) => (&line[..at], &line[at + 1..]),
        None => (line, &line[line.len()..]),
    }
}

/// Where the first byte is that is no space.
fn first_other(line: &[u8]) -> Option<usize>
    ensures { result ≡ position (λ b. not (is_space b)) line.now }
{
    line.iter().position(|b| *b != b' ')
}

/// Where the first space is.
fn first_space(line: &[u8]) -> Option<usize>
    ensures { result ≡ position is_space line.now }
{
    line.iter().position(|b| *b == b' ')
}

/// Returns whether a line has a word.
pub fn has_token(line: &[u8]) -> bool
    ensures { result ≡ is_filled (tokens line.now) }
{
    match next_token(line) {
        Some(_) => true,
        None => false,
    }
}

/// Returns the last word of a line that begins with a word and goes on so.
pub fn last_word<'a>(word: &'a [u8], rest: &'a [u8]) -> &'a [u8]
    ensures { result.now ≡ last_word word.now (tokens rest.now) }
{
    let mut last = word;
    let mut rest = rest;
    while let Some((next, behind)) = next_token(rest) {
        last = next;
        rest = behind;
    }
    last
}

/// Returns whether a word may stand as a key.
pub fn key_fits(word: &[u8]) -> bool
    ensures { result ≡ is_item_key word.now }
{
    1 <= word.len() && word.len() <= MAX_KEY
}

/// Returns whether each word of a line may stand as a key.
pub fn are_keys(line: &[u8]) -> bool
    ensures { result ≡ list_all is_item_key (tokens line.now) }
{
    let mut rest = line;
    while let Some((word, behind)) = next_token(rest) {
        if !key_fits(word) {
            return false;
        }
        rest = behind;
    }
    true
}

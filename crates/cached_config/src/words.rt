//! Which word was probably meant.

/// Words of other servers' configurations, each with the one that says about the same here.
const ELSEWHERE: [(&str, &str); 5] = [
    ("maxmemory", "capacity"),
    ("maxmemory-policy", "policy"),
    ("idle_timeout", "idle_s"),
    ("timeout", "idle_s"),
    ("maxclients", "max_connections"),
];

/// Returns the word of a list that was probably meant by another one: the word that differs from it by a letter, or by two neighbours that
/// changed places, or the one that says what other servers say by it. Returns `None` if there is none.
pub fn meant<'a>(word: &str, known: &[&'a str]) -> Option<&'a str> {
    match nearest(word, known) {
        Some(near) => Some(near),
        None => from_elsewhere(word, known),
    }
}

/// The word of a list that says what other servers say by another one.
fn from_elsewhere<'a>(word: &str, known: &[&'a str]) -> Option<&'a str> {
    let (_, here) = ELSEWHERE.iter().find(|(there, _)| *there == word)?;
    known.iter().find(|other| **other == *here).copied()
}

/// The word of a list that differs from this one by a letter, or by two neighbours that changed places.
fn nearest<'a>(word: &str, known: &[&'a str]) -> Option<&'a str> {
    for other in known {
        if are_near(word.as_bytes(), other.as_bytes()) {
            return Some(*other);
        }
    }
    None
}

/// Whether two words differ so.
fn are_near(word: &[u8], other: &[u8]) -> bool {
    let (word, other) = behind_same(word, other);
    match before_same(word, other) {
        ([], [_]) | ([_], []) | ([_], [_]) => true,
        ([a, b], [c, d]) => a == d && b == c,
        _ => false,
    }
}

/// What is left of two words behind the letters with which both begin.
fn behind_same<'a, 'b>(word: &'a [u8], other: &'b [u8]) -> (&'a [u8], &'b [u8]) {
    let mut rest = word;
    let mut others = other;
    while let ([a, left @ ..], [b, right @ ..]) = (rest, others) {
        if a != b {
            break;
        }
        rest = left;
        others = right;
    }
    (rest, others)
}

/// What is left of two words before the letters with which both end.
fn before_same<'a, 'b>(word: &'a [u8], other: &'b [u8]) -> (&'a [u8], &'b [u8]) {
    let mut rest = word;
    let mut others = other;
    while let ([left @ .., a], [right @ .., b]) = (rest, others) {
        if a != b {
            break;
        }
        rest = left;
        others = right;
    }
    (rest, others)
}

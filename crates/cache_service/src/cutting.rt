//! How much of a piece is passed on at once.
ghost use Rattle.std.specs.Prelude.{◌≡◌, ◌≤◌, ◌<◌, ◌-◌, ◌==◌, count_by, length, slice_index, take};
ghost use Rattle.cache_service.specs.Cutting.{may_take_long, IsQuickToItsEnd};

use memchr::memchr;

/// The maximum number of lines that are passed on at once.
const MOST_LINES: usize = 64;

/// After more reply bytes than this, only one line is passed on.
const MANY_BYTES: usize = 65536;

/// Returns how many lines are passed on next at most, after this many reply bytes.
pub fn lines_after(replied: usize) -> usize
    ensures some { 0 < result }
    ensures few { result ≤ 64 }
{
    if replied > MANY_BYTES { 1 } else { MOST_LINES }
}

/// Whether a line may go over all values: a `KEYS`, `SYNC`, `CLEAR` or `DROPIF`.
fn may_take_long(line: &[u8]) -> bool
    ensures { result ≡ may_take_long line.now }
{
    match line.first() {
        Some(b'K') => line.starts_with(b"KEYS"),
        Some(b'S') => line.starts_with(b"SYNC"),
        Some(b'C') => line.starts_with(b"CLEAR"),
        Some(b'D') => line.starts_with(b"DROPIF"),
        _ => false,
    }
}

/// Returns the length of a prefix of the bytes with at most this many lines. The prefix ends after the last of these line ends, or earlier
/// after a line that may take long, or with the bytes if they have fewer.
pub fn length_of_cut(bytes: &[u8], lines: usize) -> usize
    requires { 0 < lines }
    ensures within { result ≤ length bytes.now }
    ensures some { 0 < length bytes.now → 0 < result }
    ensures few { count_by (λ byte. byte == 10) (take result bytes.now) ≤ lines }
    ensures quick { IsQuickToItsEnd (take result bytes.now) }
    ensures whole { result < length bytes.now → slice_index bytes.now (result - 1) ≡ 10 }
{
    let mut left = lines;
    let mut start = 0;
    while start < bytes.len() {
        let Some(at) = memchr(b'\n', &bytes[start..]) else {
            return bytes.len();
        };
        let end = start + at;
        left -= 1;
        if left == 0 || may_take_long(&bytes[start..end]) {
            return end + 1;
        }
        start = end + 1;
    }
    bytes.len()
}

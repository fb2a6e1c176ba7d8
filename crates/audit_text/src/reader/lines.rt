//! The lines of a text that say something.
ghost use Rattle.std.specs.Prelude.{◌≡◌, ◌≢◌, ◌<◌, ◌++◌, [], length};
ghost use Rattle.audit_text.specs.Reader.Lines.{is_skipped, kept, telling_line, said_line, said_lines};

use memchr::memchr;

/// Returns the first line, without its line feed, and what stands behind it.
pub fn cut_line(text: &[u8]) -> (&[u8], &[u8])
    requires { text.now ≢ [] }
    ensures kept { kept text.now ≡ telling_line result.0.now ++ kept result.1.now }
    ensures said { said_lines text.now ≡ said_line result.0.now ++ said_lines result.1.now }
    ensures shorter { length result.1.now < length text.now }
{
    match memchr(b'\n', text) {
        Some(at) => (&text[..at], &text[at + 1..]),
        None => (text, &[]),
    }
}

/// Returns whether a line says nothing: it is empty or a comment.
pub fn is_skipped(line: &[u8]) -> bool
    ensures { result ≡ is_skipped line.now }
{
    match line {
        [] => true,
        [first, ..] => *first == b'#',
    }
}

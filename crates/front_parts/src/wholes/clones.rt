//! A predicate for each part, and the text of an identifier.
ghost use Rattle.std.specs.Prelude.{◌≡◌, ◌≤◌, [], IfOk, length};
ghost use Rattle.std.specs.String.{string_bytes, string_capacity, string_len};
ghost use Rattle.front_parts.specs.Wholes.Covering.{AreOnly, id_text};

use std::alloc::{AllocError, Global};
use uuid::Uuid;

/// Returns `count` clones of a predicate. Returns an error if there is not enough memory.
pub fn clone_each<P: Clone + Drop>(
    alloc: Global,
    count: usize,
    predicate: &P,
) -> Result<Vec<P>, AllocError>
    requires { (x y : P) → P.is_clone x y → y ≡ x }
    ensures count { IfOk result (λ clones. length clones.items ≡ count) }
    ensures alike { IfOk result (λ clones. AreOnly predicate.now clones.items) }
{
    let mut clones = Vec::with_capacity(alloc, count)?;
    for _ in 0..count {
        let own = predicate.clone()?;
        clones.push(own)?;
    }
    Ok(clones)
}

/// Writes the text of an identifier, for which the text has room: 36 bytes, hyphenated and in lower case.
pub fn write_id(text: &mut String, id: u128)
    requires empty { string_bytes text.old ≡ [] }
    requires none { string_len text.old ≡ 0 }
    requires room { 36 ≤ string_capacity text.old }
    ensures { string_bytes text.new ≡ id_text id }
{
    let mut buffer = Uuid::encode_buffer();
    let drawn = Uuid::from_u128(id);
    let hyphenated = drawn.hyphenated();
    let shown = hyphenated.encode_lower(&mut buffer);
    match text.push_str(shown) {
        Ok(()) => {}
        Err(_) => unreachable!(),
    }
}

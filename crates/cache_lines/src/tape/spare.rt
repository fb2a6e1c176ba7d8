//! Room for lines.
ghost use Rattle.std.specs.Prelude.{◌≡◌, ◌≤◌, IfOk, vec_len, vec_capacity};

use audit_lines::MAX_LINE;
use std::alloc::{AllocError, Global};

/// Room for one line, of at most 8192 bytes.
#[derive(Drop)]
pub struct Spare {
    /// The memory for the line.
    pub bytes: Vec<u8>,
    ghost empty: { vec_len bytes ≡ 0 },
    ghost room: { 8192 ≤ vec_capacity bytes },
}

/// Room for one line.
fn new_spare(alloc: Global) -> Result<Spare, AllocError> {
    let bytes = Vec::with_capacity(alloc, MAX_LINE)?;
    Ok(Spare { bytes })
}

/// Creates room for this many lines. Returns an error if there is not enough memory.
pub fn new_spares(alloc: Global, count: usize) -> Result<Vec<Spare>, AllocError>
    ensures { IfOk result (λ spares. vec_len spares ≡ count) }
{
    let mut spares = Vec::with_capacity(alloc, count)?;
    for _ in 0..count {
        spares.push(new_spare(alloc)?)?;
    }
    Ok(spares)
}

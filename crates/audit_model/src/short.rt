//! Bytes that stand in the value itself.
ghost use Rattle.std.specs.Prelude.{◌≡◌, ◌≤◌, length};

use std::marker::Model;

/// How many bytes stand in the value itself: what is left of the 32 bytes that a vector of bytes with a tag takes.
pub const MOST_SHORT: usize = 30;

/// At most 30 bytes, without a block of their own. Contracts see these bytes.
#[derive(Drop)]
pub struct ShortBytes {
    count: u8,
    places: [u8; MOST_SHORT],
}

impl Model for ShortBytes {
    ghost use Rattle.std.specs.Prelude.{List, ℕ, ◌≤◌, take};

    ghost Value = { List ℕ };

    ghost view = { λ b. take b.count b.places };

    ghost invariant = { λ b. b.count ≤ 30 };
}

impl ShortBytes {
    /// Creates a copy of at most 30 bytes.
    pub fn new(bytes: &[u8]) -> ShortBytes
        requires { length bytes.now ≤ 30 }
        ensures { result ≡ bytes.now }
    {
        let mut places = [0; MOST_SHORT];
        places[..bytes.len()].copy_from_slice(bytes);
        ShortBytes {
            count: bytes.len() as u8,
            places,
        }
    }

    /// Returns the bytes.
    pub fn as_slice(&self) -> &[u8]
        ensures { result.now ≡ self.now }
    {
        &self.places[..self.count as usize]
    }
}

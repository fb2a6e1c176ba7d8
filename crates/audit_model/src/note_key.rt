//! The key of a note.
ghost use Rattle.std.specs.Prelude.{◌≡◌};
ghost use Rattle.std.specs.Arc.{arc_value};

use crate::key::Key;
use std::alloc::AllocError;
use std::marker::Model;
use std::sync::Arc;

/// Owned bytes, or a shared key.
#[derive(Drop)]
enum KeyBytes {
    Own(Vec<u8>),
    Shared(Arc<Key>),
}

/// The key of a note. Contracts see its bytes.
///
/// A note's key owns its bytes, or shares the key with the store that reported the note, so that a store reports a note, and returns it,
/// without allocating.
#[derive(Drop)]
pub struct NoteKey {
    bytes: KeyBytes,
}

impl Model for NoteKey {
    ghost use Rattle.std.specs.Prelude.{List, ℕ};
    ghost use Rattle.std.specs.Arc.{arc_value};
    ghost use Rattle.audit_model.specs.declared.note_key.KeyBytes.TheVariants.{Own, Shared};

    ghost Value = { List ℕ };

    ghost view = { λ k. elim k.bytes [ Own bytes ↦ bytes.items | Shared key ↦ arc_value key ] };
}

impl NoteKey {
    /// Returns the bytes, in order.
    pub fn as_slice(&self) -> &[u8]
        ensures { result.now ≡ self.now }
    {
        match &self.bytes {
            KeyBytes::Own(bytes) => bytes.as_slice(),
            KeyBytes::Shared(key) => key.as_bytes(),
        }
    }
}

impl From<Vec<u8>> for NoteKey {
    ghost from_gives = { λ bytes made. made ≡ bytes.items };

    fn from(bytes: Vec<u8>) -> NoteKey {
        NoteKey {
            bytes: KeyBytes::Own(bytes),
        }
    }
}

impl From<Arc<Key>> for NoteKey {
    ghost from_gives = { λ key made. made ≡ arc_value key };

    fn from(key: Arc<Key>) -> NoteKey {
        NoteKey {
            bytes: KeyBytes::Shared(key),
        }
    }
}

impl Clone for NoteKey {
    ghost is_clone = { λ old made. made ≡ old };

    fn clone(&self) -> Result<NoteKey, AllocError> {
        match &self.bytes {
            KeyBytes::Own(bytes) => Ok(NoteKey::from(bytes.clone()?)),
            KeyBytes::Shared(key) => Ok(NoteKey::from(Arc::try_clone(key)?)),
        }
    }
}

//! Keys.
ghost use Rattle.std.specs.Prelude.{◌≡◌, ◌≤◌, ◌∷◌, [], length, IfOk, OnOk, IsOk, vec_capacity};
ghost use Rattle.audit_model.specs.Bytewise.{same};
ghost use Rattle.std.specs.Cmp.{partial_equiv_from_equiv};
ghost use Rattle.std.specs.Cmp.Lexicographic.{nat_list_eq_equiv};
ghost use Rattle.audit_model.specs.Keys.{same_feeds};

use crate::short::{MOST_SHORT, ShortBytes};
use std::alloc::{AllocError, Global};
use std::hash::{Hash, Hasher};
use std::marker::Model;

/// Bytes that stand in the value itself if they are few, and else in a block of their own.
#[derive(Drop)]
enum Form {
    Short(ShortBytes),
    Long(Vec<u8>),
}

/// A key. Contracts see its bytes, of which up to 30 stand in the key itself.
///
/// A namespace keeps one that each line fills in turn, so that look-ups allocate nothing; a store clones it to keep it.
#[derive(Drop)]
pub struct Key {
    alloc: Global,
    form: Form,
}

impl Model for Key {
    ghost use Rattle.std.specs.Prelude.{List, ℕ};
    ghost use Rattle.audit_model.specs.declared.key.Form.TheVariants.{Short, Long};

    ghost Value = { List ℕ };

    ghost view = { λ k. elim k.form [ Short bytes ↦ bytes | Long bytes ↦ bytes.items ] };
}

impl Key {
    /// Creates a key without bytes, with room for this many. Returns an error if there is not enough memory.
    pub fn with_capacity(alloc: Global, room: usize) -> Result<Key, AllocError>
        ensures { IfOk result (λ made. made ≡ []) }
    {
        let form = if room <= MOST_SHORT {
            Form::Short(ShortBytes::new(&[]))
        } else {
            Form::Long(Vec::with_capacity(alloc, room)?)
        };
        Ok(Key { alloc, form })
    }

    /// A key of these bytes, which takes no memory if they are few.
    fn of(alloc: Global, bytes: &[u8]) -> Result<Key, AllocError>
        ensures same { IfOk result (λ made. made ≡ bytes.now) }
        ensures few { length bytes.now ≤ 30 → IsOk result }
    {
        let form = if bytes.len() <= MOST_SHORT {
            Form::Short(ShortBytes::new(bytes))
        } else {
            Form::Long(Vec::from_slice(alloc, bytes)?)
        };
        Ok(Key { alloc, form })
    }

    /// Returns the bytes of the key.
    pub fn as_bytes(&self) -> &[u8]
        ensures { result.now ≡ self.now }
    {
        match &self.form {
            Form::Short(bytes) => bytes.as_slice(),
            Form::Long(bytes) => bytes.as_slice(),
        }
    }

    /// Replaces the bytes of the key. Returns an error if there is not enough memory, which is not needed if there is room for the bytes.
    #[inline(always)]
    pub fn fill(&mut self, bytes: &[u8]) -> Result<(), AllocError>
        ensures { OnOk result (self.new ≡ bytes.now) }
    {
        match &mut self.form {
            Form::Short(_) => self.renew(bytes),
            Form::Long(buffer) => refill(buffer, bytes),
        }
    }

    // (what is filled often has room for long keys)
    #[cold]
    fn renew(&mut self, bytes: &[u8]) -> Result<(), AllocError>
        ensures { OnOk result (self.new ≡ bytes.now) }
    {
        *self = Key::of(self.alloc, bytes)?;
        Ok(())
    }
}

/// Replaces the content of a buffer; never refused if there is room.
fn refill(buffer: &mut Vec<u8>, bytes: &[u8]) -> Result<(), AllocError>
    ensures filled { OnOk result (buffer.new.items ≡ bytes.now) }
    ensures room { length bytes.now ≤ vec_capacity buffer.old → IsOk result }
{
    buffer.clear();
    buffer.extend_from_slice(bytes)
}

impl Clone for Key {
    ghost is_clone = { λ old made. made ≡ old };

    fn clone(&self) -> Result<Key, AllocError> {
        Key::of(self.alloc, self.as_bytes())
    }
}

impl PartialEq for Key {
    ghost eq = { same };

    ghost laws = { partial_equiv_from_equiv nat_list_eq_equiv };

    fn eq(&self, other: &Key) -> bool {
        self.as_bytes() == other.as_bytes()
    }
}

impl Eq for Key {
    ghost laws = { nat_list_eq_equiv };
}

impl Hash for Key {
    ghost hash_input = { λ key. key ∷ [] };

    ghost respects_eq = { same_feeds };

    // (in a function of its own, so that what hashes a key has one path and is inlined)
    #[inline(never)]
    fn hash<H: Hasher>(&self, state: &mut H) {
        state.write(self.as_bytes());
    }
}

//! Look-ups that are uses, and their second half.
ghost use Rattle.std.specs.Prelude.{◌≡◌, ◌<◌, Option, false, IfOk, OnOk, OnErr};
ghost use Rattle.engine_reference.specs.Calls.{LooksUp};
ghost use Rattle.engine_reference.specs.Scanning.{NotesLookUp};
ghost use Rattle.engine_reference.specs.Visible.{visible_value};
ghost use Rattle.moka_engine.specs.Showing.{IsShown};

use crate::cache::BaseCache;
use crate::noting::note_read;
use crate::showing::{show, value_in};
use engine_calls::{clone_found, find, find_unless};
use engine_reference::{Hashes, Names, Rules};
use policy_base::Instant;
use std::alloc::AllocError;
use std::hash::{BuildHasher, Hash};

impl<K: Eq + Hash, V, S: BuildHasher, R: Rules<K, V>> BaseCache<K, V, S, R> {
    /// Runs maintenance if it is due, and then notes the read of what was visible: the second half of a look-up, which is never refused. A
    /// value that was passed over is not used, and counts as not found.
    pub fn note_look_up<Q: Names<K>>(&mut self, key: &Q, hash: u64, now: Instant, ignored: bool)
    where
        K: Drop,
        V: Drop,
        requires hashed { hash ≡ ⟦<S as Hashes<K>>⟧.hash self.old.hasher (Q.named_key key.now) }
        ensures { NotesLookUp R.answers K.eq
            (Q.named_key key.now) hash now ignored self.old self.new }
    {
        let found = find_unless(&self.tables, key, hash, now.as_nanos(), ignored);
        note_read(&mut self.tables, found, hash, now);
    }

    /// Returns a clone of the visible value of a key, or `None`, which counts as a use of it. Maintenance runs if it is due, after the
    /// value is looked up. Returns an error if there is no memory for the clone; then nothing has changed.
    pub fn get_with_hash<Q: Names<K>>(
        &mut self,
        key: &Q,
        hash: u64,
        now: Instant,
    ) -> Result<Option<V>, AllocError>
    where
        K: Drop,
        V: Clone + Drop,
        requires hashed { hash ≡ ⟦<S as Hashes<K>>⟧.hash self.old.hasher (Q.named_key key.now) }
        requires exact { (x y : V) → V.is_clone x y → y ≡ x }
        ensures found { IfOk result
            (λ found. found ≡ visible_value R.answers K.eq self.old now (Q.named_key key.now)) }
        ensures used { OnOk result
            (LooksUp R.answers K.eq (Q.named_key key.now) hash now self.old self.new) }
        ensures err { OnErr result (self.new ≡ self.old) }
    {
        let found = find(&self.tables, key, hash, now.as_nanos());
        let value = clone_found(&self.tables, found)?;
        note_read(&mut self.tables, found, hash, now);
        Ok(value)
    }

    /// Looks a key up without a clone: `see` is passed the visible value, if there is one, and what is behind `output`. If `see` returns
    /// `Ok`, the call is a use of the value, before which maintenance runs if it is due. If `see` returns `Err`, nothing has changed.
    #[tactic(auto, using(crate::proofs::Keeping::found_so))]
    pub fn look_up_with_hash<
        Q: Names<K>,
        O,
        T,
        E,
        F: FnOnce(Option<&V>, &mut O) -> Result<T, E> + Drop,
    >(&mut self, key: &Q, hash: u64, now: Instant, output: &mut O, see: F) -> Result<T, E>
    where
        K: Drop,
        V: Drop,
        requires hashed { hash ≡ ⟦<S as Hashes<K>>⟧.hash self.old.hasher (Q.named_key key.now) }
        requires callable { F.IsAlwaysCallable see }
        ensures shown { IsShown F.FnOnce see (visible_value R.answers K.eq self.old now
            (Q.named_key key.now)) output.old result output.new }
        ensures used { OnOk result
            (NotesLookUp R.answers K.eq (Q.named_key key.now) hash now false self.old self.new) }
        ensures err { OnErr result (self.new ≡ self.old) }
    {
        let found = find(&self.tables, key, hash, now.as_nanos());
        match show(value_in(&self.tables, found), output, see) {
            Ok(answer) => {
                note_read(&mut self.tables, found, hash, now);
                Ok(answer)
            }
            Err(error) => Err(error),
        }
    }
}

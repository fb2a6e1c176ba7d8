//! A store with a place for a key.
ghost use Rattle.std.specs.Prelude.{◌≡◌, true, IfOk, OnOk, OnErr};
ghost use Rattle.std.specs.Result.{IsErrOf};
ghost use Rattle.audit_lines.specs.Request.{said};
ghost use Rattle.audit_model.specs.Belongs.{refusal_of_outcome};
ghost use Rattle.cache_commands.specs.Answered.{IsStored};
ghost use Rattle.cache_commands.specs.Ran.{FitsStore, RunsRequest, rests};
ghost use Rattle.cache_commands.specs.Handing.{TakesFirstNote};
ghost use Rattle.cache_commands.specs.Values.{GivesNote, IsMoment, IsSoundStore, IsSpent};

use crate::store::Store;
use audit_model::{Key, Note};
use std::alloc::{AllocError, Global};
use std::marker::Model;

/// The longest key, in bytes.
const MAX_KEY: usize = 250;

/// A store with a place for the key of the line that runs, so that look-ups allocate nothing. Contracts see the store alone.
#[derive(Drop)]
pub struct Keyed<S: Store> {
    pub(crate) store: S,
    pub(crate) key: Key,
}

impl<S: Store> Model for Keyed<S> {
    ghost Value = { S };

    ghost view = { λ k. k.store };
}

impl<S: Store> Keyed<S> {
    /// Creates a store over which lines run. Returns an error if there is not enough memory.
    pub fn new(alloc: Global, store: S) -> Result<Keyed<S>, AllocError>
        ensures { IfOk result (λ made. made ≡ store) }
    {
        let key = Key::with_capacity(alloc, MAX_KEY)?;
        Ok(Keyed { store, key })
    }

    /// Returns the store.
    pub fn store(&self) -> &S
        ensures { result.now ≡ self.now }
    {
        &self.store
    }

    /// Does nothing. Its contract says what is true of every store.
    pub fn sound(&self)
        ensures { IsSoundStore (S.view self.now) }
    {
        self.store.sound();
    }

    /// Takes the note that was reported first, or returns `None` if there is none.
    pub fn next_notice(&mut self) -> Option<Note>
        ensures taken { TakesFirstNote (S.view self.old).untaken (S.view self.new).untaken result }
        ensures gives { GivesNote (S.view self.old) (S.view self.new) }
    {
        self.store.next_notice()
    }
}

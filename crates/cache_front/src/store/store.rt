//! The store over a front.
ghost use Rattle.std.specs.Prelude.{◌≡◌, ◌<◌, ◌^◌, IfOk};
ghost use Rattle.cache_front.specs.Parts.{IsBrief};
ghost use Rattle.cache_front.specs.Data.{shown_by, word_of};
ghost use Rattle.cache_front.specs.Making.{IsJustMade};

use crate::data::{
    LentState, Notes, Segmented, at_last_step, bits_of, bytes_found, clear, cover, drain, drain_at,
    insert, invalidate, prepare, read_bytes, settings_of, write_keys,
};
use crate::entries::{StoredValue, WordBuilder};
use audit_model::{Config, Key, Note, Weight};
use cache_commands::{Counts, Store, StoreError};
use engine_pending::fifo::take_first;
use policy_base::Instant;
use rand_core::Rng;
use std::alloc::{AllocError, Global};
use std::hash::BuildHasher;
use std::marker::Model;

/// The values of a namespace, in the parts of a front.
///
/// Calls come at the step of the last one, except for those that cover, which come at the next. What the front reports is taken after each
/// call that reports, and waits in one queue as notes. Room in the queue is kept for each value, so only an acceptance allocates for it.
#[derive(Drop)]
pub struct FrontStore<R: Rng + Drop, S: BuildHasher + Drop> {
    alloc: Global,
    config: Config,
    made: u64,
    // whether a `DROPIF` was accepted
    dropped: bool,
    front: LentState<Key, StoredValue, WordBuilder<S>, Weight, Segmented>,
    notes: Notes,
    // how many values are held
    count: usize,
    generator: R,
}

impl<R: Rng + Drop, S: BuildHasher + Drop> Model for FrontStore<R, S> {
    ghost use Rattle.std.specs.Prelude.{◌≡◌};
    ghost use Rattle.std.specs.VecDeque.{deque_capacity};
    ghost use Rattle.cache_front.specs.declared.entries.hasher.WordBuilder.{WordBuilder};
    ghost use Rattle.cache_front.specs.Data.{StoreData, word_of};
    ghost use Rattle.cache_front.specs.State.{IsFitStore, store_of};

    ghost Value = { StoreData R (WordBuilder S) };

    ghost view = { λ s. record {
      config = s.config;
      made = s.made;
      dropped = s.dropped;
      queue = s.notes.items;
      generator = s.generator;
      front = s.front;
    } };

    ghost invariant = { λ s. IsFitStore (store_of (word_of S.BuildHasher S.Hasher.Hasher)
        s.config s.made s.dropped s.notes.items (R.stream s.generator) s.front) s.count
        (deque_capacity s.notes) };
}

impl<R: Rng + Drop, S: BuildHasher + Drop> FrontStore<R, S> {
    /// Creates a store that holds nothing and has reported nothing. The hasher determines the part of a key; if untrusted clients choose
    /// the keys, it should be one that they cannot predict. Returns an error if there is not enough memory.
    pub fn new(
        alloc: Global,
        config: Config,
        made: u64,
        generator: R,
        hasher: S,
    ) -> Result<FrontStore<R, S>, AllocError>
        requires brief { IsBrief config }
        requires moment { made < 2 ^ 63 }
        ensures made { IfOk result (λ s.
            IsJustMade config (word_of S.BuildHasher S.Hasher.Hasher (record { inner = hasher }))
            made (R.stream generator) (shown_by S.BuildHasher S.Hasher.Hasher R.stream s)) }
        ensures generator { IfOk result (λ s. s.generator ≡ generator) }
    {
        let bits = bits_of(&config);
        let settings = settings_of(&config, made);
        let hasher = WordBuilder::new(hasher);
        let front = LentState::with_parts(alloc, None, bits, 0, settings, hasher, config.weight)?;
        Ok(FrontStore {
            alloc,
            config,
            made,
            dropped: false,
            front,
            notes: Notes::new(alloc),
            count: 0,
            generator,
        })
    }
}

impl<R: Rng + Drop, S: BuildHasher + Drop> Store for FrontStore<R, S> {
    ghost use Rattle.cache_front.specs.Data.{shown_by};

    ghost view = { λ s. shown_by S.BuildHasher S.Hasher.Hasher R.stream s };

    fn config(&self) -> &Config {
        &self.config
    }

    fn sound(&self) {
        let _count = self.count;
    }

    fn len(&self) -> usize {
        self.count
    }

    fn peek(&self, key: &Key, now: u64) -> Option<&[u8]> {
        bytes_found(self.front.peek(key, Instant::from_nanos(now)))
    }

    fn count_live(&self, now: u64) -> usize {
        self.front.count_visible(Instant::from_nanos(now))
    }

    fn write_live_keys(&self, now: u64, output: &mut Vec<u8>) -> Result<(), AllocError> {
        write_keys(self.alloc, &self.front, now, output)
    }

    fn look_up<T, E, F: FnOnce(Option<&[u8]>, &mut Vec<u8>) -> Result<T, E> + Drop>(
        &mut self,
        key: &Key,
        now: u64,
        output: &mut Vec<u8>,
        read: F,
    ) -> Result<T, E> {
        let hash = self.front.hash(key);
        let part = self.front.part_with_hash(hash);
        let now = Instant::from_nanos(now);
        match self
            .front
            .look_up_with_hash(key, hash, now, output, |found, output| {
                read_bytes(found, output, read)
            }) {
            Ok(answer) => {
                drain_at(&mut self.front, part, &mut self.notes, &mut self.count);
                Ok(answer)
            }
            Err(error) => Err(error),
        }
    }

    fn accept(
        &mut self,
        key: &Key,
        bytes: &[u8],
        milliseconds: Option<u64>,
        now: u64,
    ) -> Result<u64, StoreError> {
        let value = prepare(self.alloc, &mut self.notes, self.count, bytes, milliseconds)?;
        let part = insert(self.alloc, &mut self.front, key, value, now)?;
        self.count += 1;
        drain_at(&mut self.front, part, &mut self.notes, &mut self.count);
        Ok(part as u64)
    }

    fn remove(&mut self, key: &Key, now: u64) -> Result<(), StoreError> {
        let part = invalidate(&mut self.front, key, now)?;
        drain_at(&mut self.front, part, &mut self.notes, &mut self.count);
        Ok(())
    }

    fn clear(&mut self, now: u64) -> Result<(), StoreError> {
        clear(&mut self.front, now)
    }

    fn drop_prefix(&mut self, prefix: &[u8], now: u64) -> Result<bool, StoreError> {
        let covers = cover(
            self.alloc,
            &mut self.front,
            &mut self.generator,
            prefix,
            now,
        )?;
        self.dropped |= covers;
        Ok(covers)
    }

    fn run_all(&mut self, now: u64) -> Counts {
        let at = at_last_step(&self.front, now);
        self.front.run_pending_tasks(at);
        let counts = Counts {
            number: self.front.entry_count(),
            weight: self.front.weighted_size(),
        };
        drain(&mut self.front, &mut self.notes, &mut self.count);
        counts
    }

    fn next_notice(&mut self) -> Option<Note> {
        Some(take_first(&mut self.notes)?.into_note())
    }
}

//! A weigher, an expiry and a predicate of one's own, to copy.
ghost use Rattle.std.specs.Prelude.{◌==◌};

use crate::caches::{Moments, Play, Stage, passes};
use moka_sync::{
    Build, BuildError, Bundle, Cache, CacheBuilder, Env, Expiry, Instant, Predicate, StdHasher,
    Weigher,
};
use std::alloc::Global;
use std::sync::Wait;
use std::time::Duration;

// example: template
/// A document: its author, its size in bytes, and how long it is fresh.
#[derive(Clone, Copy, Debug, PartialEq, Eq, Drop)]
struct Document {
    author: u64,
    bytes: u32,
    fresh: Duration,
}

/// The weight of a document is its size.
#[derive(Drop)]
struct BySize;

impl Weigher<u64, Document> for BySize {
    // A ghost member is for contracts alone, and does not run: it says what the function below it returns.
    // Its arguments: weigher, key, value.
    ghost weight_of = { λ _ _ document. document.bytes };

    fn weigh(&self, _number: &u64, document: &Document) -> u32 {
        document.bytes
    }
}

/// A document lives as long as it is fresh, counted from its creation or last update. A read changes nothing.
#[derive(Drop)]
struct Freshness;

impl Expiry<u64, Document> for Freshness {
    // An `impl` of a trait of another crate imports the names that its ghost members use.
    ghost use Rattle.std.specs.Prelude.{Some};
    ghost use Rattle.std.specs.Duration.{as_nanos};

    // Times are in nanoseconds. The arguments: expiry, key, value, moment.
    ghost created = { λ _ _ document _. Some (as_nanos document.fresh) };

    // Expiry, key, value, moment, remaining time, moment of the write.
    ghost read = { λ _ _ _ _ left _. left };

    // Expiry, key, value, moment, remaining time.
    ghost updated = { λ _ _ document _ _. Some (as_nanos document.fresh) };

    fn expire_after_create(
        &self,
        _number: &u64,
        document: &Document,
        _created_at: Instant,
    ) -> Option<Duration> {
        Some(document.fresh)
    }

    fn expire_after_read(
        &self,
        _number: &u64,
        _document: &Document,
        _read_at: Instant,
        remaining: Option<Duration>,
        _last_modified_at: Instant,
    ) -> Option<Duration> {
        remaining
    }

    fn expire_after_update(
        &self,
        _number: &u64,
        document: &Document,
        _updated_at: Instant,
        _remaining: Option<Duration>,
    ) -> Option<Duration> {
        Some(document.fresh)
    }
}

/// Covers the documents of an author.
#[derive(Drop)]
struct WrittenBy(u64);

impl Predicate<u64, Document> for WrittenBy {
    // Predicate, key, value. `==` is a test, as in Rust.
    ghost covers = { λ predicate _ document. document.author == predicate.0 };

    fn is_match(&self, _number: &u64, document: &Document) -> bool {
        document.author == self.0
    }
}

/// The rules of a cache of documents: expiry, weigher, predicates, and faults.
type DocumentRules = Bundle<Freshness, BySize, WrittenBy, ()>;

/// Documents by their number.
type Documents<E> = Cache<u64, Document, StdHasher, DocumentRules, E>;

/// An empty cache of documents.
fn make_documents<E: Env + Drop>(alloc: Global, env: E) -> Result<Documents<E>, BuildError> {
    CacheBuilder::new(1 << 20)
        .expire_by(Freshness)
        .weigh_by(BySize)
        .invalidate_by::<u64, Document, WrittenBy>()
        .build(alloc, env)
}
// end

/// A document of an author.
fn document_of(author: u64, seconds: u64) -> Document {
    Document {
        author,
        bytes: 100,
        fresh: Duration::from_secs(seconds),
    }
}

/// Number, author and lifetime of three documents.
const THREE: [(u64, u64, u64); 3] = [(1, 5, 10), (2, 5, 20), (3, 6, 20)];

/// Whether they are inserted.
fn keeps_three<H: Wait>(rt: &H, documents: &Documents<Moments>) -> bool {
    for (number, author, seconds) in THREE {
        if documents
            .insert(rt, number, document_of(author, seconds))
            .is_err()
        {
            return false;
        }
    }
    true
}

/// Whether they weigh three times a hundred.
fn weighs<H: Wait>(rt: &H, documents: &Documents<Moments>) -> bool {
    keeps_three(rt, documents)
        && documents.run_pending_tasks(rt).is_ok()
        && documents.weighted_size(rt) == 300
}

/// Whether of them the first has expired, and the second, which is there, is covered by a predicate.
fn ends<H: Wait>(rt: &H, documents: &Documents<Moments>) -> bool {
    !documents.contains_key(rt, &1)
        && documents.contains_key(rt, &2)
        && documents.invalidate_entries_if(rt, WrittenBy(5)).is_ok()
        && !documents.contains_key(rt, &2)
        && documents.get(rt, &3) == Ok(Some(document_of(6, 20)))
}

struct Following;

impl<H: Wait> Play<H> for Following {
    type Cache = Documents<Moments>;

    fn make(
        &self,
        _rt: &H,
        alloc: Global,
        moments: Moments,
    ) -> Result<Documents<Moments>, BuildError> {
        make_documents(alloc, moments)
    }

    fn plays(&self, rt: &H, stage: &Stage<Documents<Moments>>) -> bool {
        let weighs = weighs(rt, &stage.cache);
        stage.dial.set(15_000_000_000);
        weighs && ends(rt, &stage.cache)
    }
}

#[test]
fn documents_follow_their_rules(rt: HostRuntime) {
    assert!(rt; passes(&rt, rt.alloc(), &Following));
}

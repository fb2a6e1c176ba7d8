//! What a cache asks of its keys and values.
ghost use Rattle.std.specs.Prelude.{◌≡◌, ℕ, Bool, false, option_map};
ghost use Rattle.std.specs.Duration.{as_nanos};
ghost use Rattle.engine_reference.specs.Rules.Changes.{change_of, change_from};
ghost use Rattle.engine_reference.specs.State.{Answers};

use crate::rules::expiry::{Expiration, Expiry};
use policy_base::Instant;
use std::marker::PhantomData;
use std::time::Duration;

/// What a cache asks of its keys and values: how much a value weighs, when it expires by itself, and whether a predicate covers it. Times
/// are in nanoseconds.
pub trait Rules<K, V> {
    /// A predicate that selects the values to invalidate.
    type Predicate: Drop;

    /// The error with which making a value may fail.
    type Fault: Drop;

    /// The results: each is a function of the arguments.
    ghost answers: { Answers K V Self.Predicate Self };

    /// Returns the weight of a value.
    fn weight(&self, key: &K, value: &V) -> u32
        ensures { result ≡ answers.weight_of self.now key.now value.now };

    /// Returns how long after `created_at` a value expires that was written under a new key then, or `None` if it does not expire by
    /// itself.
    fn created_expiration(&self, key: &K, value: &V, created_at: Instant) -> Option<Duration>
        ensures { option_map as_nanos result
            ≡ answers.created self.now key.now value.now created_at };

    /// Returns how the expiration of a value that was read changes.
    fn read_expiration(
        &self,
        key: &K,
        value: &V,
        read_at: Instant,
        remaining: Option<Duration>,
        last_modified_at: Instant,
    ) -> Expiration
        ensures { change_of result ≡ answers.found self.now key.now value.now read_at
            (option_map as_nanos remaining) last_modified_at };

    /// Returns how the expiration of a value that replaced another changes.
    fn updated_expiration(
        &self,
        key: &K,
        value: &V,
        updated_at: Instant,
        remaining: Option<Duration>,
    ) -> Expiration
        ensures { change_of result ≡ answers.updated self.now key.now value.now updated_at
            (option_map as_nanos remaining) };

    /// Returns whether a predicate covers a value.
    fn is_covered(&self, predicate: &Self::Predicate, key: &K, value: &V) -> bool
        ensures { result ≡ answers.covers self.now predicate.now key.now value.now };
}

/// How much values weigh.
pub trait Weigher<K, V> {
    ghost weight_of: { Self → K → V → ℕ };

    /// Returns the weight of a value.
    fn weigh(&self, key: &K, value: &V) -> u32
        ensures { result ≡ weight_of self.now key.now value.now };
}

/// A predicate that selects the values to invalidate.
pub trait Predicate<K, V>: Drop {
    ghost covers: { Self → K → V → Bool };

    /// Returns whether to invalidate the value.
    fn is_match(&self, key: &K, value: &V) -> bool
        ensures { result ≡ covers self.now key.now value.now };
}

/// A `Weigher` under which each value weighs one.
#[derive(Clone, Copy, Debug, PartialEq, Eq)]
pub struct WeighOne;

impl<K, V> Weigher<K, V> for WeighOne {
    ghost weight_of = { λ _ _ _. 1 };

    fn weigh(&self, _key: &K, _value: &V) -> u32 {
        1
    }
}

/// A predicate that covers nothing.
#[derive(Clone, Copy, Debug, PartialEq, Eq)]
pub struct NoPredicate;

impl<K, V> Predicate<K, V> for NoPredicate {
    ghost covers = { λ _ _ _. false };

    fn is_match(&self, _key: &K, _value: &V) -> bool {
        false
    }
}

/// Rules that consist of an `Expiry`, a `Weigher`, a type of predicates and a type of faults.
#[derive(Drop)]
pub struct Bundle<X, W, P, F> {
    /// When values expire by themselves.
    pub expiry: X,
    /// How much values weigh.
    pub weigher: W,
    /// The types of the predicates and of the faults.
    pub parts: PhantomData<(P, F)>,
}

impl<X, W, P, F> Bundle<X, W, P, F> {
    /// Creates rules from these parts.
    pub fn new(expiry: X, weigher: W) -> Self
        ensures expiry { result.expiry ≡ expiry }
        ensures weigher { result.weigher ≡ weigher }
    {
        Bundle {
            expiry,
            weigher,
            parts: PhantomData,
        }
    }
}

impl<K, V, X: Expiry<K, V>, W: Weigher<K, V>, P: Predicate<K, V>, F: Drop> Rules<K, V>
    for Bundle<X, W, P, F> {
    type Predicate = P;

    type Fault = F;

    ghost answers = { record {
      weight_of = λ b. W.weight_of b.weigher;
      created = λ b. X.created b.expiry;
      found = λ b key value at left written.
          change_from left (X.read b.expiry key value at left written);
      updated = λ b key value at left. change_from left (X.updated b.expiry key value at left);
      covers = λ _ predicate. P.covers predicate;
    } };

    fn weight(&self, key: &K, value: &V) -> u32 {
        self.weigher.weigh(key, value)
    }

    fn created_expiration(&self, key: &K, value: &V, created_at: Instant) -> Option<Duration> {
        self.expiry.expire_after_create(key, value, created_at)
    }

    fn read_expiration(
        &self,
        key: &K,
        value: &V,
        read_at: Instant,
        remaining: Option<Duration>,
        last_modified_at: Instant,
    ) -> Expiration {
        let answer = self
            .expiry
            .expire_after_read(key, value, read_at, remaining, last_modified_at);
        Expiration::from_answer(answer, remaining)
    }

    fn updated_expiration(
        &self,
        key: &K,
        value: &V,
        updated_at: Instant,
        remaining: Option<Duration>,
    ) -> Expiration {
        let answer = self
            .expiry
            .expire_after_update(key, value, updated_at, remaining);
        Expiration::from_answer(answer, remaining)
    }

    fn is_covered(&self, predicate: &P, key: &K, value: &V) -> bool {
        predicate.is_match(key, value)
    }
}

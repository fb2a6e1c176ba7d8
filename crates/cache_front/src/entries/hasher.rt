//! Hashers of keys.
ghost use Rattle.std.specs.Prelude.{◌≡◌, ◌%◌, ◌^◌};

use std::hash::{BuildHasher, DefaultHasher, Hasher};

/// A hasher whose answer is a number of 64 bits by its definition, so that each key is known to have a part before it is hashed.
#[derive(Clone, Copy, Drop)]
pub struct WordHasher<H: Hasher> {
    inner: H,
}

impl<H: Hasher> Hasher for WordHasher<H> {
    ghost use Rattle.std.specs.Prelude.{◌%◌, ◌^◌};

    ghost write = { λ s bytes. record { inner = H.write s.inner bytes } };

    ghost finish = { λ s. H.finish s.inner % 2 ^ 64 };

    fn finish(&self) -> u64 {
        self.inner.finish()
    }

    fn write(&mut self, bytes: &[u8]) {
        self.inner.write(bytes);
    }
}

/// Builds the hashers of another builder, as `WordHasher`s.
#[derive(Drop)]
pub struct WordBuilder<S> {
    inner: S,
}

impl<S> WordBuilder<S> {
    /// Creates a builder over this one.
    pub fn new(inner: S) -> WordBuilder<S>
        ensures { result ≡ record { inner = inner } }
    {
        WordBuilder { inner }
    }
}

impl<S: BuildHasher> BuildHasher for WordBuilder<S> {
    type Hasher = WordHasher<S::Hasher>;

    ghost build_hasher = { λ builder. record { inner = S.build_hasher builder.inner } };

    fn build_hasher(&self) -> WordHasher<S::Hasher> {
        WordHasher {
            inner: self.inner.build_hasher(),
        }
    }
}

/// SipHash-1-3 behind a secret key: whoever does not know the key cannot choose keys that collide.
///
/// The secret is hashed once, and each hash goes on from there.
#[derive(Clone, Copy, Drop)]
pub struct KeyedHasher {
    start: DefaultHasher,
}

impl KeyedHasher {
    /// Creates the hasher of a secret, of 16 random bytes or more. No clause says which hashes it gives: a cache is right by any.
    pub fn new(secret: &[u8]) -> KeyedHasher {
        let mut start = DefaultHasher::new();
        start.write(secret);
        KeyedHasher { start }
    }
}

impl BuildHasher for KeyedHasher {
    type Hasher = DefaultHasher;

    ghost build_hasher = { λ hasher. hasher.start };

    fn build_hasher(&self) -> DefaultHasher {
        self.start
    }
}

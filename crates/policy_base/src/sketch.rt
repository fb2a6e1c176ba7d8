//! Counts of how often hashes were requested recently, in words of sixteen counts.
ghost use Rattle.std.specs.Prelude.{◌≡◌, ℕ, ◌+◌, ◌-◌, ◌*◌, ◌/◌, ◌%◌, ◌^◌, ◌<◌, ◌≤◌, List, [], map, length, slice_index, slice_set, nat_lt, vec_len, replicate, min, max, true, false, IsOk, OnOk, OnErr};
ghost use Rattle.std.specs.Int.{IsPowerOfTwo, IsNextPowerOfTwo};
ghost use Rattle.policy_base.specs.Counts.{nibbles, counts_of, half, multiplier, spread, place, bump, frequency_of, least_in, incremented, bumped_in, can_grow_in, sketch_of, fresh, grown, own_count, after};

use std::alloc::{AllocError, Global};
use std::marker::Model;

/// The `i`-th count of a row, which is a quarter of a word.
fn count_at(word: u64, row: u32, i: u32) -> u8
    requires row { row < 4 }
    requires index { i < 4 }
    ensures count { result ≡ slice_index (nibbles 16 word) (4 * row + i) }
    ensures top { result ≤ 15 }
{
    ((word >> (16 * row) >> (4 * i)) % 16) as u8
}

/// The word with the `i`-th count of a row, which is below 15, increased by one.
fn with_one_more(word: u64, row: u32, i: u32) -> u64
    requires row { row < 4 }
    requires index { i < 4 }
    requires below { slice_index (nibbles 16 word) (4 * row + i) < 15 }
    ensures { nibbles 16 result ≡ slice_set (nibbles 16 word) (4 * row + i)
        (slice_index (nibbles 16 word) (4 * row + i) + 1) }
{
    word + (1u64 << (4 * i) << (16 * row))
}

/// The lower three bits of each count.
const LOWER_BITS: u64 = 0x7777_7777_7777_7777;

/// The word with each of its counts halved: a bit that moves down into the count below is dropped.
fn halved(word: u64) -> u64
    ensures { nibbles 16 result ≡ map half (nibbles 16 word) }
{
    (word >> 1) & LOWER_BITS
}

/// The multiplier of the `i`-th count of a hash.
fn multiplier_of(i: u64) -> u64
    ensures { result ≡ multiplier i }
{
    match i {
        0 => 0xc3a5c85c97cb3127,
        1 => 0xb492b66fbe98f273,
        2 => 0x9ae16a3b2f90404f,
        _ => 0xcbf29ce484222325,
    }
}

/// The spread hash of the `i`-th count.
fn spread_of(hash: u64, i: u64) -> u64
    ensures { result ≡ spread hash i }
{
    let m = multiplier_of(i);
    let x = hash.wrapping_add(m).wrapping_mul(m);
    x.wrapping_add(x >> 32)
}

/// The maximum number of words of a table.
const MAX_WORDS: u32 = 1 << 24;

/// Approximate counts of how often hashes were requested: each is at most 15, and all are halved regularly.
#[derive(Drop)]
pub struct FrequencySketch {
    table: Vec<u64>,
    size: u64,
    sample: u64,
}

impl Model for FrequencySketch {
    ghost use Rattle.std.specs.Prelude.{◌≤◌, ◌<◌, ◌^◌, vec_len};
    ghost use Rattle.std.specs.Int.{IsPowerOfTwo};
    ghost use Rattle.policy_base.specs.Counts.{Sketch, counts_of};

    ghost Value = { Sketch };

    ghost view = { λ s. record {
      words = vec_len s.table;
      counts = counts_of s.table.items;
      size = s.size;
      sample = s.sample;
    } };

    ghost invariant = { λ s. (s.size < s.sample) × (s.sample < 2 ^ 32)
        × (0 < vec_len s.table → IsPowerOfTwo (vec_len s.table)) };
}

/// The word of the `i`-th count of a hash, in a table with this number of words.
fn word_of(words: usize, hash: u64, i: u64) -> usize
    requires { IsPowerOfTwo words }
    ensures word { result ≡ spread hash i % words }
    ensures within { result < words }
{
    (spread_of(hash, i) & (words as u64 - 1)) as usize
}

/// Halves every count.
fn halve_all(table: &mut [u64])
    ensures { counts_of table.new ≡ map half (counts_of table.old) }
{
    for word in table.iter_mut() {
        *word = halved(*word);
    }
}

/// The count at a place.
fn count_of(table: &[u64], hash: u64, i: u64) -> u8
    requires index { i < 4 }
    requires power { IsPowerOfTwo (length table.now) }
    ensures count { result ≡ slice_index (counts_of table.now) (place (length table.now) hash i) }
    ensures top { result ≤ 15 }
{
    let at = word_of(table.len(), hash, i);
    count_at(table[at], (hash % 4) as u32, i as u32)
}

/// The minimum of a hash's four counts.
fn least_count(table: &[u64], hash: u64) -> u8
    requires { IsPowerOfTwo (length table.now) }
    ensures least { result ≡ least_in (length table.now) (counts_of table.now) hash }
    ensures top { result ≤ 15 }
{
    let low = count_of(table, hash, 0).min(count_of(table, hash, 1));
    let high = count_of(table, hash, 2).min(count_of(table, hash, 3));
    low.min(high)
}

/// Adds one at a place, up to 15, and returns whether the count grew.
fn bump_at(table: &mut [u64], hash: u64, i: u64) -> bool
    requires index { i < 4 }
    requires power { IsPowerOfTwo (length table.old) }
    ensures counts { counts_of table.new
        ≡ bump (counts_of table.old) (place (length table.old) hash i) }
    ensures grew { result
        ≡ nat_lt (slice_index (counts_of table.old) (place (length table.old) hash i)) 15 }
{
    let at = word_of(table.len(), hash, i);
    let row = (hash % 4) as u32;
    let word = table[at];
    let grows = count_at(word, row, i as u32) < 15;
    if grows {
        table[at] = with_one_more(word, row, i as u32);
    }
    grows
}

/// Adds one to each of the four counts of a hash, and returns whether one grew.
fn bump_all(table: &mut [u64], hash: u64) -> bool
    requires { IsPowerOfTwo (length table.old) }
    ensures counts { counts_of table.new ≡ bumped_in (length table.old) (counts_of table.old) hash }
    ensures grew { result ≡ can_grow_in (length table.old) (counts_of table.old) hash }
    ensures len { length table.new ≡ length table.old }
{
    let first = bump_at(table, hash, 0);
    let second = bump_at(table, hash, 1);
    let third = bump_at(table, hash, 2);
    let fourth = bump_at(table, hash, 3);
    first | second | third | fourth
}

/// Counts a hash once more, and returns the new size.
fn counted(table: &mut [u64], size: u64, sample: u64, hash: u64) -> u64
    requires power { IsPowerOfTwo (length table.old) }
    requires size { size < sample }
    requires sample { sample < 2 ^ 32 }
    ensures sketch { sketch_of (length table.new) table.new result sample
        ≡ incremented (sketch_of (length table.old) table.old size sample) hash }
    ensures fits { result < sample }
{
    let grew = bump_all(table, hash);
    let more = if grew { size + 1 } else { size };
    if more < sample {
        return more;
    }
    halve_all(table);
    more / 2
}

/// Makes a table of this many words, each of them zero.
fn make_table(table: &mut Vec<u64>, words: usize) -> Result<(), AllocError>
    requires { vec_len table.old ≤ words }
    ensures len { OnOk result (vec_len table.new ≡ words) }
    ensures zeros { OnOk result (table.new.items ≡ replicate words 0) }
    ensures err { OnErr result
        ((table.new.items ≡ table.old.items) × (vec_len table.new ≡ vec_len table.old)) }
{
    table.resize(words, 0)?;
    table.as_mut_slice().fill(0);
    Ok(())
}

/// The number of words of a table for this many hashes.
fn wanted_words(capacity: u32) -> usize
    ensures { IsNextPowerOfTwo (min capacity (2 ^ 24)) result }
{
    (capacity.min(MAX_WORDS) as usize).next_power_of_two()
}

impl FrequencySketch {
    /// Creates a sketch without a table. The call allocates nothing.
    pub fn default(alloc: Global) -> Self
        ensures words { result.words ≡ 0 }
        ensures counts { result.counts ≡ [] }
        ensures size { result.size ≡ 0 }
    {
        FrequencySketch {
            table: Vec::new(alloc),
            size: 0,
            sample: 10,
        }
    }

    /// Creates a table for this many hashes, unless there is one as large. The table has as many words as the next power of two, at most
    /// 2^24, and each count in it is 0. Returns an error if there is no memory for it; then nothing has changed.
    pub fn ensure_capacity(&mut self, capacity: u32) -> Result<(), AllocError>
        ensures grown { OnOk result ((words : ℕ) × IsNextPowerOfTwo (min capacity (2 ^ 24)) words
            × (self.new ≡ grown self.old words capacity)) }
        ensures err { OnErr result (self.new ≡ self.old) }
        ensures err_where_larger { OnErr result ((words : ℕ)
            × IsNextPowerOfTwo (min capacity (2 ^ 24)) words × (self.old.words < words)) }
    {
        let words = wanted_words(capacity);
        if words <= self.table.len() {
            return Ok(());
        }
        make_table(&mut self.table, words)?;
        self.size = 0;
        self.sample = (10 * capacity.min(MAX_WORDS) as u64).max(10);
        Ok(())
    }

    /// Returns whether there is a table.
    pub fn has_table(&self) -> bool
        ensures { result ≡ nat_lt 0 self.now.words }
    {
        self.table.len() > 0
    }

    /// Returns the minimum of the hash's four counts, from 0 to 15, or 0 without a table.
    pub fn frequency(&self, hash: u64) -> u8
        ensures least { result ≡ frequency_of self.now hash }
        ensures top { result ≤ 15 }
    {
        let table = self.table.as_slice();
        if table.is_empty() {
            return 0;
        }
        least_count(table, hash)
    }

    /// Counts the hash once more, up to 15, and halves all counts when enough were counted. Without a table nothing changes.
    pub fn increment(&mut self, hash: u64)
        ensures { self.new ≡ incremented self.old hash }
    {
        if self.table.len() == 0 {
            return;
        }
        self.size = counted(self.table.as_mut_slice(), self.size, self.sample, hash);
    }
}

/// A hash's frequency is at least its own count, whatever hashes are counted: one more each time it is counted, at most 15, and halved at
/// each aging.
pub fn own_counts_stand(sketch: &FrequencySketch)
    ensures { (hash own : ℕ) (hashes : List ℕ) → 0 < sketch.now.words
        → own ≤ frequency_of sketch.now hash → own_count sketch.now hash own hashes
        ≤ frequency_of (after sketch.now hashes) hash }
{
    let _ = &sketch.table;
}

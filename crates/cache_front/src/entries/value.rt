//! Values.
ghost use Rattle.std.specs.Prelude.{◌≡◌, ◌-◌, ◌≤◌, ◌∷◌, ◌++◌, [], length, option_map, IfOk};
ghost use Rattle.std.specs.Duration.{as_nanos};
ghost use Rattle.std.specs.Int.{to_le_bytes, w64};
ghost use Rattle.audit_model.specs.History.{weight_of};
ghost use Rattle.cache_front.specs.Parts.{nanos};
ghost use Rattle.cache_front.specs.View.{kept_value};
ghost use Rattle.cache_front.specs.Blocks.{stored_in, tail_of, time_in_block};

use audit_model::Weight;
use std::alloc::{AllocError, Global};
use std::marker::Model;
use std::time::Duration;

/// The last byte of a block: how many bytes stand behind the value's own.
const WITHOUT_TIME: u8 = 1;

const WITH_TIME: u8 = 9;

/// The bytes of a value, at most 8192, and for how many milliseconds it is to live by itself.
///
/// Both stand in one block, which ends in a byte that says whether there is a time.
#[derive(Drop)]
pub struct StoredValue {
    block: Vec<u8>,
}

impl Model for StoredValue {
    ghost use Rattle.cache_front.specs.Parts.{Stored};
    ghost use Rattle.cache_front.specs.Blocks.{stored_in, tail_of};
    ghost use Rattle.std.specs.Prelude.{◌-◌, ◌≤◌, length};

    ghost Value = { Stored };

    ghost view = { λ v. stored_in v.block.items };

    ghost invariant = { λ v. (1 ≤ tail_of v.block.items)
        × (tail_of v.block.items ≤ length v.block.items)
        × (length v.block.items - tail_of v.block.items ≤ 8192) };
}

impl StoredValue {
    /// Creates a value of these bytes, which are copied. Returns an error if there is not enough memory.
    pub fn new(
        alloc: Global,
        bytes: &[u8],
        milliseconds: Option<u64>,
    ) -> Result<StoredValue, AllocError>
        requires { length bytes.now ≤ 8192 }
        ensures { IfOk result (λ made. made ≡ kept_value bytes.now milliseconds) }
    {
        let block = block_of(alloc, bytes, milliseconds)?;
        Ok(StoredValue { block })
    }

    /// Returns the value's bytes.
    pub fn as_bytes(&self) -> &[u8]
        ensures { result.now ≡ self.now.bytes }
    {
        &self.block[..own_count(self.block.as_slice())]
    }

    /// Returns what the value weighs.
    #[tactic(auto, using(crate::proofs::Blocks::own_length))]
    pub fn weigh(&self, weight: Weight) -> u32
        ensures { result ≡ weight_of weight self.now.bytes }
    {
        match weight {
            Weight::One => 1,
            Weight::Bytes => own_count(self.block.as_slice()) as u32,
        }
    }

    /// Returns how long the value is to live by itself, or `None` without a limit.
    pub fn lifetime(&self) -> Option<Duration>
        ensures { option_map as_nanos result ≡ option_map nanos self.now.milliseconds }
    {
        match time_in_block(self.block.as_slice()) {
            Some(milliseconds) => Some(Duration::from_millis(milliseconds)),
            None => None,
        }
    }

    /// Returns the value's bytes, moved out.
    pub fn into_vec(self) -> Vec<u8>
        ensures { result.items ≡ self.bytes }
    {
        let StoredValue { mut block } = self;
        block.truncate(own_count(block.as_slice()));
        block
    }
}

impl Clone for StoredValue {
    ghost is_clone = { λ old made. made ≡ old };

    fn clone(&self) -> Result<StoredValue, AllocError> {
        let block = self.block.clone()?;
        Ok(StoredValue { block })
    }
}

/// The block of a value.
#[tactic(auto, using(crate::proofs::Blocks::plain_ends, crate::proofs::Blocks::plain_fits, crate::proofs::Blocks::plain_short, crate::proofs::Blocks::plain_shown, crate::proofs::Blocks::timed_ends, crate::proofs::Blocks::timed_fits, crate::proofs::Blocks::timed_short, crate::proofs::Blocks::timed_shown))]
fn block_of(alloc: Global, bytes: &[u8], milliseconds: Option<u64>) -> Result<Vec<u8>, AllocError>
    requires { length bytes.now ≤ 8192 }
    ensures ends { IfOk result (λ block. 1 ≤ tail_of block.items) }
    ensures fits { IfOk result (λ block. tail_of block.items ≤ length block.items) }
    ensures short { IfOk result (λ block. length block.items - tail_of block.items ≤ 8192) }
    ensures shown { IfOk result
        (λ block. stored_in block.items ≡ kept_value bytes.now milliseconds) }
{
    match milliseconds {
        Some(milliseconds) => {
            let block = timed_block(alloc, bytes, milliseconds)?;
            Ok(block)
        }
        None => {
            let block = plain_block(alloc, bytes)?;
            Ok(block)
        }
    }
}

/// The block of a value without a time.
fn plain_block(alloc: Global, bytes: &[u8]) -> Result<Vec<u8>, AllocError>
    requires { length bytes.now ≤ 8192 }
    ensures { IfOk result (λ block. block.items ≡ bytes.now ++ 1 ∷ []) }
{
    let mut block = Vec::with_capacity(alloc, bytes.len() + 1)?;
    block.extend_from_slice(bytes)?;
    block.push(WITHOUT_TIME)?;
    Ok(block)
}

/// The block of a value with a time.
fn timed_block(alloc: Global, bytes: &[u8], milliseconds: u64) -> Result<Vec<u8>, AllocError>
    requires { length bytes.now ≤ 8192 }
    ensures { IfOk result (λ block. block.items
        ≡ (bytes.now ++ to_le_bytes w64 milliseconds) ++ 9 ∷ []) }
{
    let mut block = Vec::with_capacity(alloc, bytes.len() + 9)?;
    block.extend_from_slice(bytes)?;
    block.extend_from_slice(&milliseconds.to_le_bytes())?;
    block.push(WITH_TIME)?;
    Ok(block)
}

/// The last byte of a block.
fn tail_of(block: &[u8]) -> u8
    requires { 1 ≤ length block.now }
    ensures { result ≡ tail_of block.now }
{
    block[block.len() - 1]
}

/// How many bytes of a block are the value's own.
fn own_count(block: &[u8]) -> usize
    requires ends { 1 ≤ tail_of block.now }
    requires fits { tail_of block.now ≤ length block.now }
    ensures { result ≡ length block.now - tail_of block.now }
{
    block.len() - tail_of(block) as usize
}

/// The time in a block, in milliseconds, if there is one.
fn time_in_block(block: &[u8]) -> Option<u64>
    requires ends { 1 ≤ tail_of block.now }
    requires fits { tail_of block.now ≤ length block.now }
    ensures { result ≡ time_in_block block.now }
{
    if tail_of(block) != WITH_TIME {
        return None;
    }
    let (_, tail) = block.split_at(block.len() - WITH_TIME as usize);
    let mut number = [0; 8];
    number.copy_from_slice(&tail[..8]);
    Some(u64::from_le_bytes(number))
}

//! How many shards a cache has.
ghost use Rattle.moka_sync.specs.Sizing.{IsShardCount};

/// Returns the number of shards that suits so many cores and this capacity, a power of two: four for each core, at least 16 and at most
/// 65,536, but at most so many that each has a share of 100 entries.
/// ```
/// let builder = CacheBuilder::new(1_000_000).shards(shards_for(8, 1_000_000));
/// ```
pub fn shards_for(cores: usize, max_capacity: u64) -> usize
    ensures { IsShardCount cores max_capacity result }
{
    let wanted = cores.saturating_mul(4).max(16);
    let most = max_capacity / 200;
    let mut bits = 0u32;
    while bits < 16 && 2_usize.pow(bits) < wanted && 2_u64.pow(bits) <= most {
        bits += 1;
    }
    2_usize.pow(bits)
}

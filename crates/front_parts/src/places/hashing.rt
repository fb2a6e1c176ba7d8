//! The part that the hash of a key says.
ghost use Rattle.std.specs.Prelude.{◌≡◌, ◌-◌, ◌/◌, ◌<◌, ◌≤◌, ◌^◌};
ghost use Rattle.front_reference.specs.Fronts.{part_of};

/// Returns the part that a hash belongs to among 2^bits parts: the number that its upper bits are.
pub fn place_of(bits: u32, hash: u64) -> usize
    requires { bits ≤ 16 }
    ensures part { result ≡ part_of bits hash }
    ensures within { result < 2 ^ bits }
{
    if bits == 0 {
        0
    } else {
        (hash >> (64 - bits)) as usize
    }
}

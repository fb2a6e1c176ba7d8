//! The part that a key belongs to, which the upper bits of its hash select.
ghost use Rattle.std.specs.Prelude.{◌≡◌, Some, slice_get};
ghost use Rattle.std.specs.Borrow.{sem};
ghost use Rattle.front_reference.specs.Fronts.{part_of};
ghost use Rattle.front_state.specs.Lending.{AreParts, lends_part};

use front_parts::place_of;

/// Lends the part of a hash. The others stay as they are.
pub(crate) fn part_mut<P>(parts: &mut Vec<P>, bits: u32, hash: u64) -> &mut P
    requires { AreParts bits parts.old.items }
    ensures* lends { sem 𝓛 (lends_part P.row parts.entry (part_of bits hash) result) }
    ensures there { slice_get parts.old.items (part_of bits hash) ≡ Some result.now }
{
    &mut parts[place_of(bits, hash)]
}

/// Returns the part of a hash.
pub(crate) fn part_ref<P>(parts: &Vec<P>, bits: u32, hash: u64) -> &P
    requires { AreParts bits parts.now.items }
    ensures { slice_get parts.now.items (part_of bits hash) ≡ Some result.now }
{
    &parts[place_of(bits, hash)]
}

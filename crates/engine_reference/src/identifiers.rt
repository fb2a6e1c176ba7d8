//! Identifiers of predicates, drawn from a generator.
ghost use Rattle.std.specs.Prelude.{◌≡◌, IfSome, None};
ghost use Rattle.rand_core.specs.Stream.{fill_bytes};
ghost use Rattle.uuid.specs.Parts.{v4_of_fill};
ghost use Rattle.engine_reference.specs.Identifiers.Drawing.{AreSixteenBytes, Draws, AreInUse, is_registered};

use crate::Registered;
use rand_core::Rng;
use uuid::Uuid;

/// Returns whether a predicate is registered under an identifier.
pub fn is_registered<P>(registered: &[Registered<P>], id: u128) -> bool
    ensures { result ≡ is_registered registered.now id }
{
    for p in registered {
        if p.id == id {
            return true;
        }
    }
    false
}

/// These bytes, of which there are 16.
fn whole(bytes: [u8; 16]) -> [u8; 16]
    ensures same { result ≡ bytes }
    ensures whole { AreSixteenBytes result }
{
    bytes
}

/// Draws an identifier, a UUID of version 4.
fn draw_one<G: Rng>(generator: &mut G) -> Uuid
    ensures drawn { (result, G.stream generator.new)
        ≡ v4_of_fill (fill_bytes 16 (G.stream generator.old)) }
    ensures bytes { AreSixteenBytes result }
{
    let drawn = Uuid::new_v4(generator);
    let _bytes = whole(drawn.into_bytes());
    drawn
}

/// Draws identifiers, UUIDs of version 4, until one is not registered. Returns `None` if each of a thousand that were drawn is registered.
pub fn draw<G: Rng, P>(generator: &mut G, registered: &[Registered<P>]) -> Option<u128>
    ensures some { IfSome result (λ id. Draws (G.stream generator.old) (G.stream generator.new)
        (is_registered registered.now) id) }
    ensures none { result ≡ None → AreInUse (G.stream generator.old) (G.stream generator.new)
        (is_registered registered.now) }
{
    for _try in 0..1000u64 {
        let drawn = draw_one(generator);
        let id = drawn.as_u128();
        if !is_registered(registered, id) {
            return Some(id);
        }
    }
    None
}

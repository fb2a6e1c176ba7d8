//! The service of a namespace.
ghost use Rattle.std.specs.Prelude.{◌≡◌, ◌∷◌, ◌⊎◌, [], false, IfOk, IfErr};
ghost use Rattle.cache_shared.specs.Recordings.{bare_spaces, no_journals};
ghost use Rattle.cache_shared.specs.Events.{StandsAfter};

use crate::endings::Ending;
use crate::machine::Machine;
use crate::script::Fault;
use audit_model::{Config, Instant};
use cache_spaces::Service;
use rand_core::SeedableRng;
use rand_xoshiro::Xoshiro256PlusPlus;
use std::alloc::Global;

/// Makes the service of one namespace, at moment 0. Its generator is one that no stranger can foresee: its seed comes from the machine's
/// random source. Returns an error if that cannot be read (`CannotListen`), or there is not enough memory (`OutOfMemory`).
pub fn make_service<R: Machine>(rt: &R, alloc: Global, config: Config) -> Result<Service, Ending>
    ensures empty { IfOk result
        (StandsAfter false (config ∷ []) bare_spaces no_journals 0) }
    ensures err { IfErr result
        (λ e. (e.fault ≡ Fault.CannotListen) ⊎ (e.fault ≡ Fault.OutOfMemory)) }
{
    let mut seed = [0; 32];
    rt.fill_bytes(&mut seed)
        .map_err(|error| Ending::machine("the random source", error))?;
    let generator = Xoshiro256PlusPlus::from_seed(seed);
    match Service::new(alloc, &[config], generator, Instant { nanos: 0 }) {
        Ok(service) => Ok(service),
        Err(_) => Err(Ending::from(Fault::OutOfMemory)),
    }
}

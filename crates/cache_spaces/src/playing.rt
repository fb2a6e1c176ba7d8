//! Playing inputs on a new service.
ghost use Rattle.std.specs.Prelude.{◌≡◌, ◌≤◌, ◌<◌, ◌^◌, ◌↔◌, ◌⊎◌, false, IfOk, IfErr, IsErrOf, OnErr};
ghost use Rattle.cache_spaces.specs.Calls.{At, Performs, namespace_of};
ghost use Rattle.cache_spaces.specs.Journals.{kept_by};
ghost use Rattle.cache_spaces.specs.Played.{ArePlayed};
ghost use Rattle.cache_spaces.specs.Services.{are_taken};

use crate::journals::RecordedService;
use audit_laws::{Output, copy_input};
use audit_model::{Config, Input, Instant, ServiceError, Transcript};
use rand_xoshiro::Xoshiro256PlusPlus;
use std::alloc::Global;

/// Returns the transcripts of the inputs, passed in order to a new service: one for each configuration, in their order, each of which
/// obeys, belongs to the inputs and begins at this moment.
///
/// An input that a service would refuse, including for lack of memory, appears in none of them, and play continues. Returns `Moment` above
/// 2^63 - 1 nanoseconds, then `Config` if the number of configurations is not 1 to 16 or one is out of range, otherwise `OutOfMemory`.
/// ```
/// let transcripts = play(alloc, &[config], generator, moment, &inputs)?;
/// ```
pub fn play(
    alloc: Global,
    configs: &[Config],
    generator: Xoshiro256PlusPlus,
    moment: Instant,
    inputs: &[Input],
) -> Result<Vec<Transcript>, ServiceError>
    ensures played { IfOk result
        (λ transcripts. ArePlayed configs.now moment inputs.now transcripts.items) }
    ensures moment { IsErrOf result ServiceError.Moment ↔ (2 ^ 63 ≤ moment.nanos) }
    ensures config { IsErrOf result ServiceError.Config
        ↔ ((moment.nanos < 2 ^ 63) × (are_taken configs.now ≡ false)) }
    ensures memory { IfErr result (λ e. (e ≡ ServiceError.Moment) ⊎ (e ≡ ServiceError.Config)
        ⊎ (e ≡ ServiceError.OutOfMemory)) }
{
    let mut recorded = RecordedService::new(alloc, configs, generator, moment)?;
    for input in inputs {
        let _ = hand_in(alloc, &mut recorded, input);
    }
    Ok(recorded.into_journals())
}

/// Passes a copy of an input. An `Err`, including one for lack of memory for the copy, changes nothing.
fn hand_in(
    alloc: Global,
    recorded: &mut RecordedService,
    input: &Input,
) -> Result<Output, ServiceError>
    ensures performed { IfOk result (λ output. At recorded.old.spaces recorded.new.spaces
        (namespace_of input.now) (Performs kept_by input.now output)) }
    ensures unchanged { OnErr result (recorded.new ≡ recorded.old) }
{
    let Ok(copy) = copy_input(alloc, input) else {
        return Err(ServiceError::OutOfMemory);
    };
    Ok(recorded.step(copy)?)
}

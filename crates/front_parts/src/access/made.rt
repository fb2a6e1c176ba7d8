//! The results of calls that make a value, by what was made.
ghost use Rattle.std.specs.Prelude.{◌≡◌, Some, None};
ghost use Rattle.std.specs.Arc.{arc_value};
ghost use Rattle.front_reference.specs.declared.data.Made.TheVariants as outcome;
ghost use Rattle.front_reference.specs.declared.data.TurnKind.TheVariants as turns;
ghost use Rattle.front_parts.specs.Access.Answering.{Suits, made_option, made_result};
ghost use Rattle.front_parts.specs.Access.Selecting.{with_fault};

use front_reference::{Made, Shared};
use std::sync::Arc;

/// Returns the value that was made. One must have been made.
pub fn value_made<V, F: Drop>(made: Made<V, F>) -> V
    requires { Suits None made }
    ensures { outcome.Value result ≡ made }
{
    match made {
        Made::Value(value) => value,
        _ => unreachable!(),
    }
}

/// Returns the value that was made, or `None` if none was.
pub fn option_made<V, F: Drop>(made: Made<V, F>) -> Option<V>
    requires { Suits (Some turns.Optionally) made }
    ensures { made_option result ≡ made }
{
    match made {
        Made::Value(value) => Some(value),
        Made::Nothing => None,
        Made::Fault(_) => unreachable!(),
    }
}

/// Returns the value that was made, or as an error the fault for which none was. One of both must have been made.
pub fn result_made<V, F: Drop>(made: Made<V, Shared<F>>) -> Result<V, Arc<F>>
    requires { Suits (Some turns.Try) made }
    ensures { made_result (with_fault arc_value result) ≡ made }
{
    match made {
        Made::Value(value) => Ok(value),
        Made::Fault(fault) => Err(fault.into_arc()),
        Made::Nothing => unreachable!(),
    }
}

//! The tapes of new namespaces.
ghost use Rattle.std.specs.Prelude.{◌≡◌, Option};
ghost use Rattle.audit_model.specs.declared.event.Instant.{Instant as Moment};
ghost use Rattle.cache_lines.specs.Tape.Taped.{IsAtRest, Taped};

use audit_model::Instant;
use cache_lines::{Bare, Kept, Tape};
use std::alloc::Global;

/// A tape that a new namespace can begin with.
pub trait NewTape: Tape {
    // what it keeps of a namespace that is created at this moment, if it keeps anything
    ghost blank: { Moment → Option Taped };

    /// Creates a tape of a namespace that is created at this moment. The call allocates nothing.
    fn make(alloc: Global, made: Instant) -> Self
        ensures blank { Self.Tape.view result ≡ blank made }
        ensures rests { IsAtRest (Self.Tape.view result) };
}

impl NewTape for Bare {
    ghost use Rattle.std.specs.Prelude.{None};

    ghost blank = { λ made. None };

    fn make(alloc: Global, made: Instant) -> Bare {
        Bare::new(alloc)
    }
}

impl NewTape for Kept {
    ghost use Rattle.std.specs.Prelude.{Some};
    ghost use Rattle.cache_spaces.specs.Services.{blank_tape};

    ghost blank = { λ made. Some (blank_tape made) };

    fn make(alloc: Global, made: Instant) -> Kept {
        Kept::new(alloc, made)
    }
}

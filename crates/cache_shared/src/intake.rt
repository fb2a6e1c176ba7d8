//! What a shared service takes in.
ghost use Rattle.std.specs.Prelude.{◌≡◌, true, IfErr, IfOk, OnErr, OnOk};
ghost use Rattle.cache_shared.specs.Events.{CountsRecord};
ghost use Rattle.cache_shared.specs.Intakes.{input_in};
ghost use Rattle.cache_shared.specs.Taken.{TakesInput};
ghost use Rattle.cache_spaces.specs.Calls.{RefusedInput, Refuses, namespace_of};

use crate::shareable::Shareable;
use audit_laws::copy_input;
use audit_model::{Conn, Input, Instant, Seq, ServiceError};
use cache_spaces::{Output, Refusal};
use std::alloc::{AllocError, Global};
use thiserror::Error;

/// What a shared service takes in: an input, or a piece of a connection's bytes that is only lent.
#[derive(Debug, Drop)]
pub enum Intake<'a> {
    /// Brings a piece of a connection's bytes, like `Input::Feed`. Only a service that keeps journals copies it.
    Piece {
        conn: Conn,
        piece: &'a [u8],
        moment: Instant,
    },
    /// An input, moved in.
    Input(Input),
}

/// An intake that was refused, returned with the reason. The error converts to its `ServiceError` by `?`.
#[derive(Debug, Drop, Error)]
#[error("{error}")]
pub struct IntakeError<'a> {
    /// Why the intake was refused.
    pub error: ServiceError,
    /// The intake, unchanged.
    pub intake: Intake<'a>,
}

impl<'a> IntakeError<'a> {
    /// Creates the error of an intake that is refused for this reason.
    pub(crate) fn new(error: ServiceError, intake: Intake<'a>) -> IntakeError<'a>
        ensures { result ≡ record { error = error; intake = intake.entry } }
    {
        IntakeError { error, intake }
    }
}

impl From<IntakeError<'_>> for ServiceError {
    ghost from_gives = { λ refused error. error ≡ refused.error };

    /// Why it was refused; what was returned is dropped.
    fn from(refused: IntakeError<'_>) -> ServiceError {
        refused.error
    }
}

impl<'a> Intake<'a> {
    /// The namespace that it names.
    pub(crate) fn namespace(&self) -> u64
        ensures { result ≡ namespace_of (input_in self.now) }
    {
        match self {
            Intake::Piece { conn, .. } => conn.namespace,
            Intake::Input(input) => namespace_of(input),
        }
    }

    /// Its input in memory of its own, or an error if there is not enough memory.
    pub(crate) fn copy(&self, alloc: Global) -> Result<Input, AllocError>
        ensures { IfOk result (λ copy. copy ≡ input_in self.now) }
    {
        match self {
            Intake::Piece {
                conn,
                piece,
                moment,
            } => Ok(Input::Feed {
                conn: *conn,
                piece: Seq::from_vec(Vec::from_slice(alloc, *piece)?),
                moment: *moment,
            }),
            Intake::Input(input) => copy_input(alloc, input),
        }
    }

    /// Passes it to a service.
    pub(crate) fn pass<C: Shareable>(self, core: &mut C) -> Result<Output, IntakeError<'a>>
        ensures taken { IfOk result (λ output. TakesInput C.spaces C.untaken C.untold
            (input_in self.entry) output core.old core.new) }
        ensures one { C.KEEPS ≡ true
            → OnOk result (CountsRecord (C.journals core.old) (C.journals core.new)) }
        ensures refused { IfErr result
            (λ refused. Refuses (C.spaces core.old) (namespace_of (input_in self.entry))
            refused.error (RefusedInput (input_in self.entry) refused.error)) }
        ensures unchanged { OnErr result (core.new ≡ core.old) }
        ensures back { IfErr result (λ refused. refused.intake ≡ self.entry) }
    {
        match self {
            Intake::Piece {
                conn,
                piece,
                moment,
            } => match core.step_feed(conn, piece, moment) {
                Ok(output) => Ok(output),
                Err(error) => {
                    let intake = Intake::Piece {
                        conn,
                        piece,
                        moment,
                    };
                    Err(IntakeError { error, intake })
                }
            },
            Intake::Input(input) => match core.step(input) {
                Ok(output) => Ok(output),
                Err(Refusal { error, input }) => {
                    let intake = Intake::Input(input);
                    Err(IntakeError { error, intake })
                }
            },
        }
    }
}

/// The namespace that an input names.
fn namespace_of(input: &Input) -> u64
    ensures { result ≡ namespace_of input.now }
{
    match input {
        Input::Open { namespace } => *namespace,
        Input::Close { conn } | Input::Feed { conn, .. } => conn.namespace,
        Input::Answer { load, .. } | Input::GiveUp { load, .. } => load.namespace,
    }
}

//! Taking inputs one by one.
ghost use Rattle.std.specs.Prelude.{◌≡◌, IfOk, IfErr, OnErr, OnOk};
ghost use Rattle.audit_model.specs.declared.input.Input.TheVariants as input;
ghost use Rattle.cache_spaces.specs.Calls.{At, Refuses, IsNoAnswer, Performs, RefusedInput, namespace_of};
ghost use Rattle.cache_spaces.specs.Journals.{IsOneFurther};

use crate::service::{AnswerError, Core, Fed};
use audit_laws::Output;
use audit_model::{Conn, Input, Instant, LoadId, Outcome, ServiceError};
use cache_lines::Tape;
use thiserror::Error;

/// An input that was refused, returned with the reason. The refusal converts to its `ServiceError` by `?`.
#[derive(Debug, Drop, Error)]
#[error("{error}")]
pub struct Refusal {
    /// Why the input was refused.
    pub error: ServiceError,
    /// The input, unchanged.
    pub input: Input,
}

impl Refusal {
    /// Creates the refusal of an input, for this reason.
    pub fn new(error: ServiceError, input: Input) -> Refusal
        ensures { result ≡ record { error = error; input = input } }
    {
        Refusal { error, input }
    }
}

impl From<Refusal> for ServiceError {
    ghost from_gives = { λ refused error. error ≡ refused.error };

    /// Why it was refused; what was returned is dropped.
    fn from(refused: Refusal) -> ServiceError {
        refused.error
    }
}

impl<T: Tape> Core<T> {
    /// Takes an input, and returns the output of its event.
    ///
    /// A refused input is returned, with the error that the call of its kind returns; then nothing has changed.
    pub fn step(&mut self, input: Input) -> Result<Output, Refusal>
        ensures performed { IfOk result
            (λ output. At self.old self.new (namespace_of input) (Performs T.view input output)) }
        ensures refused { IfErr result (λ refusal. Refuses self.old (namespace_of input)
            refusal.error (RefusedInput input refusal.error)) }
        ensures back { IfErr result (λ refusal. refusal.input ≡ input) }
        ensures unchanged { OnErr result (self.new ≡ self.old) }
        // journals with one more record lead here, whether they are kept or not
        ensures reached { OnOk result (IsOneFurther self.old self.new) }
    {
        match input {
            Input::Answer {
                load,
                outcome,
                moment,
            } => self.step_answer(load, outcome, moment),
            other => match self.perform(&other) {
                Ok(output) => Ok(output),
                Err(error) => Err(Refusal::new(error, other)),
            },
        }
    }

    /// Takes a piece of a connection's bytes at a moment, and returns the output of its event, like `step` with an `Input::Feed`. The piece
    /// is only lent: it is copied into its record, if one is kept, and what is left of it behind its last line into the connection's
    /// unread bytes.
    ///
    /// Returns the errors of `feed`; then nothing has changed.
    /// ```
    /// let output = service.step_feed(conn, &buffer[..count], moment)?;
    /// ```
    pub fn step_feed(
        &mut self,
        conn: Conn,
        piece: &[u8],
        moment: Instant,
    ) -> Result<Output, ServiceError>
        ensures performed { IfOk result (λ output. At self.old self.new conn.namespace
            (Performs T.view (input.Feed conn piece.now moment) output)) }
        ensures refused { IfErr result (λ e. Refuses self.old conn.namespace e
            (RefusedInput (input.Feed conn piece.now moment) e)) }
        ensures unchanged { OnErr result (self.new ≡ self.old) }
        // journals with one more record lead here, whether they are kept or not
        ensures reached { OnOk result (IsOneFurther self.old self.new) }
    {
        match self.feed(conn, piece, moment) {
            Ok(Fed::All) => Ok(Output::All),
            Ok(Fed::Held) => Ok(Output::Held),
            Err(error) => Err(error),
        }
    }

    /// Takes an input other than an answer, whose outcome has to be moved.
    fn perform(&mut self, input: &Input) -> Result<Output, ServiceError>
        requires { IsNoAnswer input.now }
        ensures performed { IfOk result (λ output.
            At self.old self.new (namespace_of input.now) (Performs T.view input.now output)) }
        ensures refused { IfErr result
            (λ e. Refuses self.old (namespace_of input.now) e (RefusedInput input.now e)) }
        ensures unchanged { OnErr result (self.new ≡ self.old) }
    {
        match input {
            Input::Open { namespace } => {
                let conn = self.open(*namespace)?;
                Ok(Output::Opened { conn })
            }
            Input::Close { conn } => {
                self.close(*conn)?;
                Ok(Output::Done)
            }
            Input::Feed {
                conn,
                piece,
                moment,
            } => self.step_feed(*conn, piece.as_slice(), *moment),
            Input::GiveUp { load, moment } => {
                self.give_up(*load, *moment)?;
                Ok(Output::Done)
            }
            Input::Answer { .. } => unreachable!(),
        }
    }

    /// Answers a load.
    fn step_answer(
        &mut self,
        load: LoadId,
        outcome: Outcome,
        moment: Instant,
    ) -> Result<Output, Refusal>
        ensures performed { IfOk result (λ output. At self.old self.new load.namespace
            (Performs T.view (input.Answer load outcome moment) output)) }
        ensures refused { IfErr result (λ refusal. Refuses self.old load.namespace refusal.error
            (RefusedInput (input.Answer load outcome moment) refusal.error)) }
        ensures back { IfErr result (λ refusal. refusal.input ≡ input.Answer load outcome moment) }
        ensures unchanged { OnErr result (self.new ≡ self.old) }
    {
        match self.answer(load, outcome, moment) {
            Ok(()) => Ok(Output::Done),
            Err(AnswerError { error, outcome }) => {
                let input = Input::Answer {
                    load,
                    outcome,
                    moment,
                };
                Err(Refusal { error, input })
            }
        }
    }
}

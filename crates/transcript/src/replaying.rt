//! Inputs, played and printed.
ghost use Rattle.std.specs.Prelude.{◌≡◌, ◌++◌, IfOk, OnOk};
ghost use Rattle.transcript.specs.Printed.{IsPrintedOf, namespace_text, namespaces_text};

use audit_model::{Config, ServiceError, Transcript};
use audit_text::{TextError, read_inputs, write_transcript};
use cache_spaces::play;
use itoa::Buffer;
use rand_core::SeedableRng;
use rand_xoshiro::Xoshiro256PlusPlus;
use std::alloc::{AllocError, Global};

/// A replay's generator is seeded by this number, so that it prints the same each time.
const SEED: u64 = 0;

/// Why nothing is printed.
#[derive(Clone, Copy, Debug, PartialEq, Eq, Drop)]
pub enum ReplayError {
    /// The line of this number is not of the form.
    Line(u64),
    /// A configuration or the moment of creation is refused.
    Config,
    /// There was no memory.
    OutOfMemory,
}

impl From<AllocError> for ReplayError {
    fn from(_e: AllocError) -> ReplayError {
        ReplayError::OutOfMemory
    }
}

impl From<TextError> for ReplayError {
    fn from(e: TextError) -> ReplayError {
        match e {
            TextError::Line(number) => ReplayError::Line(number),
            TextError::OutOfMemory => ReplayError::OutOfMemory,
        }
    }
}

impl From<ServiceError> for ReplayError {
    fn from(e: ServiceError) -> ReplayError {
        if e == ServiceError::OutOfMemory {
            ReplayError::OutOfMemory
        } else {
            ReplayError::Config
        }
    }
}

/// Plays the inputs of a text, and returns the transcript of each namespace as text.
pub fn replay(alloc: Global, text: &[u8]) -> Result<Vec<u8>, ReplayError>
    ensures printed { IfOk result (λ printed. IsPrintedOf text.now printed.items) }
{
    let replay = read_inputs(alloc, text)?;
    let generator = Xoshiro256PlusPlus::seed_from_u64(SEED);
    let transcripts = play(
        alloc,
        replay.configs.as_slice(),
        generator,
        replay.made,
        replay.inputs.as_slice(),
    )?;
    let printed = print_transcripts(alloc, replay.configs.as_slice(), transcripts.as_slice())?;
    Ok(printed)
}

/// The namespaces, each with its number and transcript.
#[tactic(auto, using(crate::proofs::Printing::namespaces_more, crate::proofs::Printing::namespaces_past, crate::proofs::Printing::namespaces_none))]
fn print_transcripts(
    alloc: Global,
    configs: &[Config],
    transcripts: &[Transcript],
) -> Result<Vec<u8>, AllocError>
    ensures { IfOk result
        (λ printed. printed.items ≡ namespaces_text 0 configs.now transcripts.now) }
{
    let mut printed = Vec::new(alloc);
    let mut left = transcripts;
    let mut number: u64 = 0;
    for config in configs {
        let [transcript, behind @ ..] = left else {
            return Ok(printed);
        };
        left = behind;
        print_namespace(alloc, &mut printed, number, config, transcript)?;
        number += 1;
    }
    Ok(printed)
}

/// A namespace, with its number and transcript.
fn print_namespace(
    alloc: Global,
    printed: &mut Vec<u8>,
    number: u64,
    config: &Config,
    transcript: &Transcript,
) -> Result<(), AllocError>
    ensures { OnOk result
        (printed.new.items ≡ printed.old.items ++ namespace_text number config.now transcript.now) }
{
    let mut digits = Buffer::new();
    let text = write_transcript(alloc, config, transcript)?;
    printed.extend_from_slice(b"namespace ")?;
    printed.extend_from_slice(digits.format(number).as_bytes())?;
    printed.push(b'\n')?;
    printed.extend_from_slice(text.as_slice())?;
    Ok(())
}

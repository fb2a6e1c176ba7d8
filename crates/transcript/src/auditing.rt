//! A transcript, read and judged.
ghost use Rattle.std.specs.Prelude.{IfOk};
ghost use Rattle.transcript.specs.Judged.{IsJustOf};

use audit_text::{TextError, read_transcript};
use moka_audit::{Verdict, audit};
use std::alloc::Global;

/// The verdict on the transcript of a text.
pub fn judge(alloc: Global, text: &[u8]) -> Result<Verdict, TextError>
    ensures just { IfOk result (λ verdict. IsJustOf text.now verdict) }
{
    match read_transcript(alloc, text) {
        Ok((config, transcript)) => Ok(audit(alloc, &config, &transcript)),
        Err(error) => Err(error),
    }
}

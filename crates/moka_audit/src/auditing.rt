//! The verdict on a transcript.
ghost use Rattle.moka_audit.specs.Records.Verdicts.{IsJustVerdict};

use crate::records::{Verdict, find_break};
use audit_laws::first_break_is_first;
use audit_model::{Config, Transcript};
use std::alloc::Global;

/// Returns the verdict on a transcript of a namespace with this configuration, whoever made it: `Yes` exactly if it obeys and none of its
/// events is refused; otherwise `Breaks` with the first record, counted from 1, that ends a prefix of which this is not so; or
/// `OutOfMemory`.
///
/// Nothing is required of the configuration or the transcript. Memory grows with what is open, under way or held, and with the number of
/// keys of which a value was ever accepted.
/// ```
/// match audit(alloc, &config, &transcript) {
///     Verdict::Yes => accept(),
///     Verdict::Breaks(number) => report(number),
///     Verdict::OutOfMemory => retry(),
/// }
/// ```
pub fn audit(alloc: Global, config: &Config, transcript: &Transcript) -> Verdict
    ensures { IsJustVerdict config.now transcript.now result }
{
    first_break_is_first();
    match find_break(alloc, config, transcript) {
        Ok(found) => match found {
            None => Verdict::Yes,
            Some(n) => Verdict::Breaks(n),
        },
        Err(_) => Verdict::OutOfMemory,
    }
}

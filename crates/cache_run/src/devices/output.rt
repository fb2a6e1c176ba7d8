//! Bytes sent to a writer.
ghost use Rattle.std.specs.Prelude.{◌≡◌, ◌≤◌, ℕ, List, IfErr, OnOk, OnErr};
ghost use Rattle.std.specs.Io.KnownBytes.{Appends};
ghost use Rattle.cache_run.specs.Devices.Watched.{device, failures};
ghost use Rattle.cache_run.specs.Devices.Failures.{HasFailed};
ghost use Rattle.cache_run.specs.Devices.Sent.{SentBut};

use crate::devices::errors::RunError;
use crate::devices::watched::Watched;
use std::io::{ErrorKind, Write};

/// Sends all of the output. An interrupted write is repeated. The only error is `Write`, and only if the writer failed.
pub fn send<W: Write>(output: &[u8], writer: &mut Watched<W>) -> Result<(), RunError>
    ensures ok { OnOk result
        (Appends (W.contents (device writer.old)) (W.contents (device writer.new)) output.now) }

    // After an error a prefix of the output was sent.
    ensures err { OnErr result ((rest : List ℕ) × SentBut rest output.now
        (W.contents (device writer.old)) (W.contents (device writer.new))) }
    ensures cause { IfErr result
        (λ e. (e ≡ RunError.Write) × HasFailed (failures writer.old) (failures writer.new)) }
    ensures count { failures writer.old ≤ failures writer.new }
{
    let mut rest = output;
    for _turn in 0..u64::MAX {
        if rest.is_empty() {
            return Ok(());
        }
        match writer.write(rest) {
            Ok(0) => return Err(RunError::Write),
            Ok(count) => rest = &rest[count..],
            Err(error) => {
                if error.kind() != ErrorKind::Interrupted {
                    return Err(RunError::Write);
                }
            }
        }
    }
    // Each turn that did not fail sent a byte, so the writer was interrupted again and again.
    if rest.is_empty() {
        Ok(())
    } else {
        Err(RunError::Write)
    }
}

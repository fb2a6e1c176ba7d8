//! Text that is gathered, and written at once.
ghost use Rattle.std.specs.Prelude.{◌≡◌, ◌≤◌, [], IfErr, OnOk};
ghost use Rattle.cache_run.specs.Devices.Failures.{HasFailed};
ghost use Rattle.cache_run.specs.Devices.Watched.{device, failures};
ghost use Rattle.cached_server.specs.Script.Gathering.{Gathers};

use cache_run::{RunError, Watched, send};
use std::io::Write;

/// Appends a text to what was gathered. If there is no room for the text, both are written. The call allocates nothing. Returns `Write` if
/// the writer fails.
pub fn put<W: Write>(
    gathered: &mut Vec<u8>,
    text: &[u8],
    writer: &mut Watched<W>,
) -> Result<(), RunError>
    ensures ok { OnOk result (Gathers (W.contents (device writer.old)) gathered.old.items text.now
        (W.contents (device writer.new)) gathered.new.items) }
    ensures cause { IfErr result
        (λ e. (e ≡ RunError.Write) × HasFailed (failures writer.old) (failures writer.new)) }
    ensures count { failures writer.old ≤ failures writer.new }
{
    if text.len() <= gathered.capacity() - gathered.len() {
        gathered.extend_from_slice(text).unwrap();
        return Ok(());
    }
    write_out(gathered, writer)?;
    send(text, writer)
}

/// Writes what was gathered, and leaves nothing gathered. Returns `Write` if the writer fails.
pub fn write_out<W: Write>(gathered: &mut Vec<u8>, writer: &mut Watched<W>) -> Result<(), RunError>
    ensures ok { OnOk result (Gathers (W.contents (device writer.old)) gathered.old.items []
        (W.contents (device writer.new)) gathered.new.items) }
    ensures none { OnOk result (gathered.new.items ≡ []) }
    ensures cause { IfErr result
        (λ e. (e ≡ RunError.Write) × HasFailed (failures writer.old) (failures writer.new)) }
    ensures count { failures writer.old ≤ failures writer.new }
{
    send(gathered, writer)?;
    gathered.clear();
    Ok(())
}

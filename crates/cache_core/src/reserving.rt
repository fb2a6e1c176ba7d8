//! Room for the replies to the connections that wait for a load.
ghost use Rattle.std.specs.Prelude.{◌≡◌, ◌≢◌, ◌≤◌, ◌+◌, ◌-◌, ℕ, true, OnOk, vec_len, vec_capacity};
ghost use Rattle.std.specs.List.{slice_get};
ghost use Rattle.cache_core.specs.Connection.Fed.{LooksAsBefore};
ghost use Rattle.cache_core.specs.Fed.{ReplacedAt};
ghost use Rattle.cache_core.specs.Connections.Presence.{is_here};
ghost use Rattle.cache_core.specs.Settling.{AllLookAsBefore, HasReplyRoomAt, HaveReplyRoom};

use crate::connection::Connection;
use crate::connections::Connections;
use std::alloc::AllocError;

/// Makes room for this many more bytes of replies. An `Err` changes nothing that can be seen.
fn reserve(connection: &mut Connection, size: usize) -> Result<(), AllocError>
    ensures same { LooksAsBefore connection.old connection.new }
    ensures room { OnOk result
        (vec_len connection.new.output.text + size ≤ vec_capacity connection.new.output.text) }
{
    connection.output.text.try_reserve(size)
}

/// Makes room for this many more bytes of replies of the connection at a place. An `Err` changes nothing that can be seen.
fn reserve_there(connections: &mut Connections, index: usize, size: usize) -> Result<(), AllocError>
    requires { is_here (slice_get connections.old index) ≡ true }
    ensures same { (p : ReplacedAt connections.old connections.new index)
        × LooksAsBefore p.was p.is }
    ensures room { OnOk result (HasReplyRoomAt connections.new size index) }
{
    let mut connection = connections.take(index);
    let reserved = reserve(&mut connection, size);
    connections.put(index, connection);
    reserved
}

/// Makes room for this many more bytes of replies of a connection, if it is there. An `Err` changes nothing that can be seen.
fn reserve_at(connections: &mut Connections, number: u64, size: usize) -> Result<(), AllocError>
    ensures same { AllLookAsBefore connections.old connections.new }
    ensures others { (place : ℕ) → place ≢ number - 1 → slice_get connections.new place
        ≡ slice_get connections.old place }
    ensures room { OnOk result (HasReplyRoomAt connections.new size (number - 1)) }
{
    let index = number.saturating_sub(1) as usize;
    if index >= connections.len() || connections.get(index).is_none() {
        return Ok(());
    }
    reserve_there(connections, index, size)
}

/// Makes room for this many more bytes of replies of each of these connections. Returns an error if there is not enough memory; then
/// nothing that can be seen has changed.
pub fn reserve_all(
    connections: &mut Connections,
    waiting: &[u64],
    size: usize,
) -> Result<(), AllocError>
    ensures same { AllLookAsBefore connections.old connections.new }
    ensures room { OnOk result (HaveReplyRoom connections.new size waiting.now) }
{
    for number in waiting {
        reserve_at(connections, *number, size)?;
    }
    Ok(())
}

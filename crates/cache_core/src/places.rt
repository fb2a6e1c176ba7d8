//! The connections of a namespace, each at the place below its number.
ghost use Rattle.std.specs.Prelude.{◌≡◌, ◌+◌, ◌<◌, ◌&&◌, ◌↔◌, None, Some, false, IfOk, IfErr, IsErr, is_none, length, nat_le, nat_lt};
ghost use Rattle.cache_core.specs.Connections.Presence.{closing_at};
ghost use Rattle.cache_core.specs.Fed.{ReplacedAt};
ghost use Rattle.cache_core.specs.Places.{IsTakenAt, refusal_at, waits_at};
ghost use Rattle.cache_core.specs.Taking.{IsOwedAt};
ghost use Rattle.cache_lines.specs.Waiting.{under_way, when_left};
ghost use Rattle.cache_commands.specs.Loads.Pending.{SameTaken};

use crate::connection::Taken;
use crate::connections::Connections;
use audit_model::{Closing, ServiceError};
use cache_commands::{Loads, is_waiting};
use std::alloc::Global;

/// Returns the number of the connection at an index.
pub fn number_at(connections: &Connections, index: usize) -> u64
    requires { index < length connections.now }
    ensures { result ≡ index + 1 }
{
    let count = connections.len();
    prove!(index < count);
    index as u64 + 1
}

/// Returns the index of an open connection. Returns `NoConnection` if the connection was never opened, and `Closed` if it is closed.
pub fn find_open(connections: &Connections, number: u64) -> Result<usize, ServiceError>
    ensures place { IfOk result (λ index. (number ≡ index + 1) × (index < length connections.now)) }
    ensures open { IfOk result (λ index. closing_at connections.now index ≡ None) }
    ensures refused { IfErr result (λ e. refusal_at connections.now number ≡ Some e) }
{
    let index = find_opened(connections, number)?;
    if connections.closing(index).is_none() {
        Ok(index)
    } else {
        Err(ServiceError::Closed)
    }
}

/// Removes the connection at an index from those that wait, if it is closed.
pub fn leave_closed(loads: &mut Loads, number: u64, connections: &Connections, index: usize)
    requires { index < length connections.now }
    ensures left { under_way loads.new
        ≡ when_left (is_none (closing_at connections.now index)) number (under_way loads.old) }
    ensures goes { SameTaken loads.old loads.new }
{
    if connections.closing(index).is_some() {
        loads.leave(number);
    }
}

/// Closes the open connection at an index.
pub fn close_at(connections: &mut Connections, index: usize)
    requires inside { index < length connections.old }
    requires open { closing_at connections.old index ≡ None }
    ensures { (p : ReplacedAt connections.old connections.new index)
        × (p.is.closing ≡ Some Closing.Asked) × (p.is.output.text.items ≡ p.was.output.text.items) }
{
    let mut connection = connections.take(index);
    connection.closing = Some(Closing::Asked);
    connection.drop_closed();
    connections.put(index, connection);
}

/// Returns the index of a connection that was opened. Returns `NoConnection` if the connection was never opened.
pub fn find_opened(connections: &Connections, number: u64) -> Result<usize, ServiceError>
    ensures place { IfOk result (λ index. (number ≡ index + 1) × (index < length connections.now)) }
    ensures refused { IsErr result
        ↔ ((nat_lt 0 number && nat_le number (length connections.now)) ≡ false) }
    ensures error { IfErr result (λ e. e ≡ ServiceError.NoConnection) }
{
    if number == 0 || number > connections.len() as u64 {
        return Err(ServiceError::NoConnection);
    }
    Ok((number - 1) as usize)
}

/// Returns whether a `LOAD` of the connection at an index waits.
pub fn waits_at_place(connections: &Connections, index: usize) -> bool
    requires { index < length connections.now }
    ensures { result ≡ waits_at connections.now index }
{
    match connections.get(index) {
        Some(connection) => connection.closing.is_none() && is_waiting(connection.standing),
        None => false,
    }
}

/// Moves out what the connection at an index is owed. Of one that has closed little is kept.
pub fn take_at(alloc: Global, connections: &mut Connections, index: usize) -> Taken
    requires { index < length connections.old }
    ensures rest { IsTakenAt connections.old connections.new index }
    ensures owed { IsOwedAt connections.old index result }
{
    let taken = connections.take_owed(alloc, index);
    match taken.closing {
        Some(_) => connections.retire(index),
        None => {}
    }
    taken
}

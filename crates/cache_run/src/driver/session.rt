//! A connection, and what its driver has in hand.
ghost use Rattle.std.specs.Prelude.{◌≡◌, ◌≢◌, [], true, false};
ghost use Rattle.cache_run.specs.Driver.Hosting.{footing_by};

use crate::driver::inbox::Inbox;
use audit_model::{Bytes, Closing, Conn, LoadId};

/// The state of a connection after the last exchange.
#[derive(Clone, Copy, Debug, PartialEq, Eq, Drop)]
pub enum Footing {
    /// The connection takes commands.
    Ready,
    /// A `LOAD` of the connection waits for a load that is requested from another connection's loader.
    Waiting,
    /// The connection has closed.
    Closed,
}

/// One connection, and what its driver has in hand between exchanges.
#[derive(Drop)]
pub struct Session {
    /// The connection.
    pub conn: Conn,
    /// Loads of the connection's namespace that have gone out, and that are to be requested from its loader.
    pub taken: Vec<(LoadId, Bytes)>,
    /// What was read and not fed.
    pub inbox: Inbox,
    /// The connection's state.
    pub footing: Footing,
}

impl Session {
    /// Returns whether no load is in hand.
    pub fn has_no_load(&self) -> bool
        ensures none { result ≡ true → self.now.taken.items ≡ [] }
        ensures some { result ≡ false → self.now.taken.items ≢ [] }
    {
        self.taken.is_empty()
    }
}

/// Returns the state of a connection.
pub fn footing_of(closing: Option<Closing>, waits: bool) -> Footing
    ensures { result ≡ footing_by closing waits }
{
    match closing {
        Some(_) => Footing::Closed,
        None if waits => Footing::Waiting,
        None => Footing::Ready,
    }
}

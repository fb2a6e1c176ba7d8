//! Laws of the definitions. Each function does nothing: its contract is the law.
ghost use Rattle.memcache_model.specs.Leases.{OneWins};
ghost use Rattle.memcache_model.specs.Streams.{IsCutFree, TakesBytes};

/// A request that has arrived is the same with more bytes behind it: however a stream is cut, its requests are the same.
pub fn cuts_change_nothing()
    ensures { IsCutFree }
{}

/// Each request takes at least one byte.
pub fn requests_take_bytes()
    ensures { TakesBytes }
{}

/// Of the clients that ask for the lease of a key, one wins, and its `mg` says so. Nobody else wins until a command may end the lease: one
/// that sets the key's value, deletes it or makes it stale. In the end it expires with its item.
pub fn one_client_wins()
    ensures { OneWins }
{}

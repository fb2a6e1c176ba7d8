//! One load.
ghost use Rattle.std.specs.Prelude.{◌≡◌, ◌++◌, ◌∷◌, [], IfOk, OnOk, OnErr};
ghost use Rattle.audit_model.specs.Situation.{without_waiting};
ghost use Rattle.cache_commands.specs.Loads.Keys.{pending_load};

use audit_model::{Bytes, Seq};
use std::alloc::{AllocError, Global};

/// A load that went out: its number in the namespace, from 1; its key; and the connections that wait for its outcome, in the order
/// in which they joined.
#[derive(Drop)]
pub struct Load {
    /// The number of the load in its namespace, counted from 1.
    pub number: u64,
    /// The key that is loaded.
    pub key: Bytes,
    /// The numbers of the connections that wait, in the order in which they joined.
    pub waiting: Vec<u64>,
}

/// Creates a load for which one connection waits. Returns an error if there is not enough memory.
pub fn new_load(alloc: Global, number: u64, key: &[u8], conn: u64) -> Result<Load, AllocError>
    ensures { IfOk result (λ load. pending_load load
        ≡ record { number = number; key = key.now; waiting = conn ∷ [] }) }
{
    let mut waiting = Vec::with_capacity(alloc, 1)?;
    waiting.push(conn)?;
    Ok(Load {
        number,
        key: Seq::from_vec(Vec::from_slice(alloc, key)?),
        waiting,
    })
}

/// Adds a connection that waits. Returns an error if there is not enough memory; then nothing has changed.
pub fn join(load: &mut Load, conn: u64) -> Result<(), AllocError>
    ensures joined { OnOk result (pending_load load.new
        ≡ record (pending_load load.old) { waiting = load.old.waiting.items ++ conn ∷ [] }) }
    ensures same { OnErr result (pending_load load.new ≡ pending_load load.old) }
{
    load.waiting.push(conn)?;
    Ok(())
}

/// Removes a connection from those that wait.
pub fn leave(load: &mut Load, conn: u64)
    ensures left { pending_load load.new ≡ without_waiting conn (pending_load load.old) }
{
    load.waiting.retain(|waits| *waits != conn);
}

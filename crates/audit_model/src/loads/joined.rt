//! Numbers of loads by the connections that wait for them.
ghost use Rattle.std.specs.Prelude.{◌≡◌, ◌==◌, ℕ, OnOk, OnErr, Some, None, cond};
ghost use Rattle.audit_model.specs.Underway.{load_of};

use std::alloc::AllocError;
use std::collections::BTreeMap;

/// Returns the number of the load that a connection waits for, or `None` if it waits for none.
pub fn load_of(joined: &BTreeMap<u64, u64>, conn: u64) -> Option<u64>
    ensures { result ≡ load_of conn joined.now }
{
    joined.get(&conn).copied()
}

/// Makes a connection wait for a load. Returns an error if there is not enough memory; then nothing has changed.
pub fn put_waiting(
    joined: &mut BTreeMap<u64, u64>,
    conn: u64,
    number: u64,
) -> Result<(), AllocError>
    ensures put { OnOk result
        ((q : ℕ) → load_of q joined.new ≡ cond (conn == q) (Some number) (load_of q joined.old)) }
    ensures unchanged { OnErr result ((q : ℕ) → load_of q joined.new ≡ load_of q joined.old) }
{
    joined.insert(conn, number)?;
    Ok(())
}

/// Makes a connection wait no more, and returns the number of the load that it waited for, or `None`.
pub fn take_waiting(joined: &mut BTreeMap<u64, u64>, conn: u64) -> Option<u64>
    ensures found { result ≡ load_of conn joined.old }
    ensures rest { (q : ℕ) → load_of q joined.new ≡ cond (conn == q) None (load_of q joined.old) }
{
    joined.remove(&conn)
}

//! Connections that wait for a load no more.
ghost use Rattle.std.specs.Prelude.{◌≡◌, ◌==◌, ℕ, None, cond};
ghost use Rattle.std.specs.List.{list_any};
ghost use Rattle.audit_model.specs.Underway.{load_of};

use crate::waiters::Waiters;
use audit_model::loads::take_waiting;
use std::collections::BTreeMap;

/// Makes each of these connections wait no more.
pub fn remove_all(joined: &mut BTreeMap<u64, u64>, conns: &Waiters)
    ensures { (q : ℕ) → load_of q joined.new
        ≡ cond (list_any (λ n. n == q) conns.now) None (load_of q joined.old) }
{
    for conn in conns.iter() {
        take_waiting(joined, *conn);
    }
}

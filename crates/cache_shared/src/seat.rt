//! What each thread holds.
ghost use Rattle.std.specs.Prelude.{◌≡◌, ℕ, ◌<◌, List, [], vec_len, OnOk};
ghost use Rattle.audit_model.specs.declared.config.Config.{Config};
ghost use Rattle.cache_shared.specs.Seats.{SameReceipts, receipts_at};

use audit_laws::Receipt;
use cache_history::{Claims, Naming};
use std::alloc::{AllocError, Global};
use std::marker::Brand;
use std::sync::ledger::{Ledger, Share};

/// The ledger of a shared service's seats, in which each seat has one share, so that `SharedService::finish` can require
/// all of them, and the name of its history.
pub trait Seating: Ledger + Naming {
    /// All its parts.
    ghost all: { ℕ };

    /// The configurations of the service's namespaces, in their order.
    ghost configs: { List Config };
}

impl Seating for Brand {
    ghost all = { 0 };

    ghost configs = { [] };
}

/// What a thread, or a connection, uses to pass its inputs: a count of those that were accepted, and, if the service keeps journals, a
/// receipt of each. Contracts see which holds of the lock it claims, as well. `SharedService::seat` creates one, and
/// `SharedService::finish` requires all of them.
#[derive(Drop)]
pub struct Seat<L: Seating, C> {
    pub(crate) share: Share<L>,
    pub(crate) count: u64,
    pub(crate) receipts: Vec<Vec<Receipt>>,
    pub(crate) claims: Claims<C, L>,
    ghost one_part: { share.parts ≡ 1 },
    ghost counted: { share.amount ≡ count },
}

impl<L: Seating, C> Seat<L, C> {
    /// Returns how many of the seat's inputs were accepted, at most 2^64 - 1.
    pub fn count(&self) -> u64
        ensures { result ≡ self.now.count }
    {
        self.count
    }

    /// Returns the seat's receipts of a namespace, counted from 0, in the order in which the inputs were accepted; none if the service
    /// keeps no journals, or if there is no such namespace.
    pub fn receipts(&self, namespace: u64) -> &[Receipt]
        ensures { result.now ≡ receipts_at self.now.receipts.items namespace }
    {
        let list = self.receipts.get(namespace as usize);
        list.map_or(&[], |list| list.as_slice())
    }
}

/// Appends empty lists, up to that of this namespace. Returns an error if there is not enough memory; then the receipts are the same.
pub fn make_lists(
    alloc: Global,
    lists: &mut Vec<Vec<Receipt>>,
    namespace: usize,
) -> Result<(), AllocError>
    ensures same { SameReceipts lists.old.items lists.new.items }
    ensures made { OnOk result (namespace < vec_len lists.new) }
{
    while lists.len() <= namespace {
        lists.push(Vec::new(alloc))?;
    }
    Ok(())
}

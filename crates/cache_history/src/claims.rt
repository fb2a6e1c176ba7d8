//! A token that claims holds.
use crate::known::{Known, Naming};
use atomic_table::Badge;
use std::marker::{Model, PhantomData};

/// The holds of a history that somebody claims. It has no bytes.
#[derive(Drop)]
pub struct Claims<C, J: Naming> {
    pub(crate) badge: Badge<Known<C>>,
    pub(crate) naming: PhantomData<J>,
}

impl<C, J: Naming> Model for Claims<C, J> {
    ghost use Rattle.std.specs.Prelude.{◌≡◌};
    ghost use Rattle.cache_history.specs.Histories.{IsClaimer, own_of};
    ghost use Rattle.cache_history.specs.declared.known.Own.{Own};

    ghost Value = { Own C };

    ghost view = { λ c. own_of c.badge.views };

    ghost invariant = { λ c. (c.badge.table_id ≡ J.history) × IsClaimer c.badge.views };
}

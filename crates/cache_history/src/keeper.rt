//! The keeper of a history, which stands under the lock.
ghost use Rattle.std.specs.Prelude.{◌≡◌, ◌∷◌, ◌<◌, [], length, IfOk};
ghost use Rattle.cache_history.specs.Histories.{AreAmong, ClaimsOne, IsHistory, IsLatest, IsNext, no_claims};

use crate::claims::Claims;
use crate::known::{Claimed, Hands, Kept, Known, Law, Looks, Naming, Unclaimed};
use atomic_table::{Badge, Seat, Table};
use std::alloc::{AllocError, Global};
use std::marker::{Model, PhantomData};
use std::mem;

/// A history that has first_view, and has no name yet. Contracts see the name that it will have, and the value that it begins with.
#[derive(Drop)]
pub struct Opened<C: Drop, R: Law<C>> {
    table: Table<C, Known<C>, C, Kept<R>, Global>,
    seat: Seat<C, Known<C>>,
}

impl<C: Drop, R: Law<C>> Model for Opened<C, R> {
    ghost use Rattle.atomic_table.specs.Seated.{TableId};
    ghost use Rattle.cache_history.specs.Histories.{IsOpening};

    ghost Value = { TableId × C };

    ghost view = { λ o. (o.table.shared.table_id, o.table.shared.key) };

    ghost invariant = { λ o. IsOpening R.starts o.table.shared.key o.table.shared.table_id
        o.seat.table_id o.seat.me };
}

impl<C: Drop, R: Law<C>> Opened<C, R> {
    /// IsOpening a history with a value. Returns an error if there is not enough memory.
    pub fn new(alloc: Global, start: &C) -> Result<Opened<C, R>, AllocError>
        requires { R.starts start.now }
        ensures { IfOk result (λ opened. opened.1 ≡ start.now) }
    {
        let (table, seat) = Table::of_words(alloc, &[0], start)?;
        Ok(Opened { table, seat })
    }

    /// Its keeper, by its name.
    pub fn named<J: Naming>(self) -> Keeper<C, R, J>
        requires { self.0 ≡ J.history }
        ensures { result ≡ self.1 ∷ [] }
    {
        let Opened { table, seat } = self;
        Keeper {
            table,
            seat,
            naming: PhantomData,
        }
    }
}

/// What knows all of a history: each value that there was, the latest first.
#[derive(Drop)]
pub struct Keeper<C: Drop, R: Law<C>, J: Naming> {
    table: Table<C, Known<C>, C, Kept<R>, Global>,
    seat: Seat<C, Known<C>>,
    naming: PhantomData<J>,
}

impl<C: Drop, R: Law<C>, J: Naming> Model for Keeper<C, R, J> {
    ghost use Rattle.std.specs.Prelude.{List};
    ghost use Rattle.cache_history.specs.Histories.{Keeps};

    ghost Value = { List C };

    ghost view = { λ k. k.seat.me.0.values };

    ghost invariant = { λ k. Keeps R.starts R.holds J.history k.table.shared.table_id
        k.seat.table_id k.seat.me };
}

impl<C: Drop, R: Law<C>, J: Naming> Keeper<C, R, J> {
    /// The values are those of a history.
    pub fn stands(&self)
        ensures { IsHistory R.starts R.holds self.now }
    {
        let _table = &self.table;
    }

    /// Returns a token that claims nothing.
    pub fn token(&mut self) -> Claims<C, J>
        ensures token { result ≡ no_claims }
        ensures same { self.new ≡ self.old }
    {
        let Keeper { table, seat, .. } = self;
        let seat = table.shared.split_seat::<Hands>(seat);
        Claims {
            badge: seat.into_badge(),
            naming: PhantomData,
        }
    }

    /// Notes what a hold of the lock made of the value, and lets a token claim that hold.
    pub fn claim(&mut self, claims: &mut Claims<C, J>, new: &C)
        requires next { IsNext R.starts R.holds self.old new.now }
        ensures values { self.new ≡ new.now ∷ self.old }
        ensures claimed { (old : C) → IsLatest old self.old
            → ClaimsOne R.starts R.holds claims.old claims.new old new.now }
    {
        let Keeper { table, seat, .. } = self;
        let shared = &table.shared;
        let token = mem::replace(&mut claims.badge, Badge::blank());
        shared.join_seat::<Hands>(seat, token.into_seat());
        shared.compare_exchange_with::<Claimed<R>>(seat, 0, 0, 0, new);
        let token = shared.split_seat::<Hands>(seat);
        claims.badge = token.into_badge();
    }

    /// Notes what a hold of the lock made of the value, which nobody claims.
    pub fn pass(&mut self, new: &C)
        requires next { IsNext R.starts R.holds self.old new.now }
        ensures values { self.new ≡ new.now ∷ self.old }
    {
        let Keeper { table, seat, .. } = self;
        let shared = &table.shared;
        shared.compare_exchange_with::<Unclaimed<R>>(seat, 0, 0, 0, new);
    }

    /// The holds that a token claims are of this history.
    pub fn look(&mut self, claims: &mut Claims<C, J>)
        ensures same { (self.new ≡ self.old) × (claims.new ≡ claims.old) }
        ensures are { AreAmong self.old claims.new.holds }
        ensures history { IsHistory R.starts R.holds self.old }
    {
        let Keeper { table, seat, .. } = self;
        let shared = &table.shared;
        let token = mem::replace(&mut claims.badge, Badge::blank());
        shared.join_seat::<Hands>(seat, token.into_seat());
        shared.load::<Looks<R>>(seat, 0);
        let token = shared.split_seat::<Hands>(seat);
        claims.badge = token.into_badge();
    }
}

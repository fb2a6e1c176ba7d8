//! What tokens know, and the rule that ties them together.
ghost use Rattle.std.specs.Prelude.{[]};
ghost use Rattle.atomic_table.specs.Seated.{TableId};

use atomic_table::{Join, Play, Split, TableRule};
use std::collections::LinkedList;
use std::marker::{Brand, PhantomData};

/// The holds that a token claims. No value of it is made.
pub struct Own<C> {
    /// How many holds there were when it claimed one last.
    pub seen: u64,
    /// Each hold, the latest first: how many came before it, and the value before and after it.
    pub holds: LinkedList<(u64, (C, C))>,
}

/// What a token knows. No value of it is made.
pub struct Known<C> {
    /// Whether it is the keeper's, which knows all values.
    pub keeps: bool,
    /// The keeper's: the values that there were, the latest first.
    pub values: LinkedList<C>,
    /// What it claims.
    pub own: Own<C>,
}

/// Which history it is. Each call of a program picks it.
pub trait Naming {
    ghost history: { TableId };
}

impl Naming for Brand {
    ghost use Rattle.cache_history.specs.Histories.{no_history};

    ghost history = { no_history };
}

/// What values a history may begin with, and what a hold of the lock may make of one.
pub trait Law<C> {
    ghost starts: { C → Type 0 };

    ghost holds: { C → C → Type 0 };
}

/// The rule of a history by this law.
pub struct Kept<R> {
    law: PhantomData<R>,
}

impl<C, R: Law<C>> TableRule<C, Known<C>, C> for Kept<R> {
    ghost use Rattle.cache_history.specs.Histories.{IsKept, first_view};

    ghost holds = { λ start state. IsKept R.starts R.holds state };

    ghost first = { first_view };
}

/// A hold that a token claims.
pub(crate) struct Claimed<R> {
    law: PhantomData<R>,
}

impl<C, R: Law<C>> Play<C, Known<C>> for Claimed<R> {
    ghost use Rattle.cache_history.specs.Histories.{Claiming};

    ghost then = { Claiming R.starts R.holds };
}

/// A hold that nobody claims.
pub(crate) struct Unclaimed<R> {
    law: PhantomData<R>,
}

impl<C, R: Law<C>> Play<C, Known<C>> for Unclaimed<R> {
    ghost use Rattle.cache_history.specs.Histories.{Passing};

    ghost then = { Passing };
}

/// A look at the history.
pub(crate) struct Looks<R> {
    law: PhantomData<R>,
}

impl<C, R: Law<C>> Play<C, Known<C>> for Looks<R> {
    ghost use Rattle.cache_history.specs.Histories.{Looking};

    ghost then = { Looking R.starts R.holds };
}

/// The keeper gives claims away, and takes them in.
pub(crate) struct Hands;

impl<C> Split<Known<C>> for Hands {
    ghost use Rattle.cache_history.specs.Histories.{bare, claimer};

    ghost left = { bare };

    ghost right = { claimer };
}

impl<C> Join<Known<C>> for Hands {
    ghost use Rattle.cache_history.specs.Histories.{laden, nobody};

    ghost both = { laden };

    ghost spent = { nobody };
}

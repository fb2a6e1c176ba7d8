//! The turns that are under way.
ghost use Rattle.std.specs.Prelude.{◌≡◌, ◌+◌, ◌<◌, ◌^◌, ◌++◌, ◌∷◌, [], true, false, is_some, All, IfOk, IfErr, OnOk, OnErr, option_map};
ghost use Rattle.front_reference.specs.Fronts.{turn_at, turn_of, without_turn};
ghost use Rattle.front_reference.specs.declared.data.OpenTurn.{OpenTurn};
ghost use Rattle.front_parts.specs.Places.Indexing.{is_of};
ghost use Rattle.front_parts.specs.Places.Turning.{IsTurnCause};

use engine_reference::Names;
use front_reference::{CacheError, IntoKey, OpenTurn, TurnKind};
use std::alloc::{AllocError, Global};
use std::collections::{BTreeMap, BTreeSet};
use std::marker::Model;

/// Turns by number, and their numbers by the hashes of their keys. Contracts see the list of the turns, the oldest first.
#[derive(Drop)]
pub struct Turns<K> {
    turns: BTreeMap<u64, OpenTurn<K>>,
    // The hash of each with its number.
    hashes: BTreeSet<(u64, u64)>,
}

impl<K> Model for Turns<K> {
    ghost use Rattle.std.specs.Prelude.{List};
    ghost use Rattle.front_reference.specs.declared.data.OpenTurn.{OpenTurn};
    ghost use Rattle.front_parts.specs.Places.Indexing.{AreIndexed, turns_of};

    ghost Value = { List (OpenTurn K) };

    ghost view = { λ t. turns_of t.turns.entries };

    ghost invariant = { λ t. AreIndexed t.turns.entries t.hashes };
}

impl<K> Turns<K> {
    /// Creates an empty table of turns. The call allocates nothing.
    pub fn new(alloc: Global) -> Turns<K>
        ensures { result ≡ [] }
    {
        Turns {
            turns: BTreeMap::new(alloc),
            hashes: BTreeSet::new(alloc),
        }
    }

    /// Returns the turn of a number, or `None` if it is not under way.
    pub fn get(&self, number: u64) -> Option<&OpenTurn<K>>
        ensures { option_map (λ turn. turn.now) result ≡ turn_at self.now number }
    {
        self.turns.get(&number)
    }

    /// Whether a number is that of a turn of a kind and a key.
    fn is_of<Q: Names<K>>(&self, number: u64, kind: TurnKind, key: &Q) -> bool
    where
        K: PartialEq,
        ensures { result ≡ is_of K.eq kind (Q.named_key key.now) (turn_at self.now number) }
    {
        match self.get(number) {
            Some(turn) => turn.kind.is_same(kind) && key.is_name_of(&turn.key),
            None => false,
        }
    }

    /// Returns the number of the turn of a kind and a key, whose hash this is, or `None` if none is under way.
    pub fn find<Q: Names<K>>(&self, kind: TurnKind, key: &Q, hash: u64) -> Option<u64>
    where
        K: PartialEq,
        requires { All (λ t. K.eq (Q.named_key key.now) t.key ≡ true → t.hash ≡ hash) self.now }
        ensures { result
            ≡ option_map (λ t. t.number) (turn_of K.eq self.now kind (Q.named_key key.now)) }
    {
        for pair in self.hashes.range((hash, 0)..) {
            let (other, number) = *pair;
            if other != hash {
                return None;
            }
            if self.is_of(number, kind, key) {
                return Some(number);
            }
        }
        None
    }

    /// Adds a turn whose number is above the others'. Returns an error if there is not enough memory; then nothing has changed.
    pub fn add(&mut self, turn: OpenTurn<K>) -> Result<(), AllocError>
    where
        K: Drop,
        requires { All (λ t. t.number < turn.number) self.old }
        ensures added { OnOk result (self.new ≡ self.old ++ turn ∷ []) }
        ensures same { OnErr result (self.new ≡ self.old) }
    {
        let number = turn.number;
        let hash = turn.hash;
        self.turns.insert(number, turn)?;
        match self.hashes.insert((hash, number)) {
            Ok(_added) => Ok(()),
            Err(_refused) => {
                let _back = self.turns.remove(&number);
                Err(AllocError)
            }
        }
    }

    /// Ends the turn of a number, if it is under way, and returns whether it was.
    pub fn end(&mut self, number: u64) -> bool
    where
        K: Drop,
        ensures was { result ≡ is_some (turn_at self.old number) }
        ensures ended { self.new ≡ without_turn number self.old }
        ensures same { result ≡ false → self.new ≡ self.old }
    {
        match self.turns.remove(&number) {
            Some(turn) => {
                self.hashes.remove(&(turn.hash, number));
                true
            }
            None => false,
        }
    }
}

/// Makes a new turn, and its key. Returns `OutOfMemory` if there is no memory for the key, and `UsedUp` if the 64-bit numbers of turns are
/// used up.
pub fn make_turn<K: PartialEq, Q: IntoKey<K>>(
    next_turn: u64,
    kind: TurnKind,
    name: Q,
    hash: u64,
) -> Result<OpenTurn<K>, CacheError>
    requires { Q.can_become name }
    ensures made { IfOk result
        (λ t. t ≡ record { number = next_turn; kind = kind; key = Q.named_key name; hash = hash }) }
    ensures fits { OnOk result (next_turn + 1 < 2 ^ 64) }
    ensures cause { IfErr result (IsTurnCause next_turn) }
{
    if next_turn == u64::MAX {
        return Err(CacheError::UsedUp);
    }
    let key = name.into_key()?;
    Ok(OpenTurn {
        number: next_turn,
        kind,
        key,
        hash,
    })
}

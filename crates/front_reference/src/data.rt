//! The parts of the front's state, and the arguments and results of its calls.
ghost use Rattle.std.specs.Prelude.{◌≡◌, true};
ghost use Rattle.front_reference.specs.Fronts.{same_kind};

use policy_base::Instant;

/// The moment and the step of a call. Neither falls from call to call. A call that covers what was written at earlier steps needs a later
/// step than those before it.
#[derive(Clone, Copy, PartialEq, Eq)]
pub struct At {
    /// The moment of the call.
    pub now: Instant,
    /// The step of the call.
    pub step: u64,
}

/// The kind of call that a turn stands for.
#[derive(Clone, Copy, Debug, PartialEq, Eq)]
pub enum TurnKind {
    /// A call that makes a value.
    With,
    /// A call that may make a value, or none.
    Optionally,
    /// A call that makes a value, and may fail.
    Try,
    /// A call that decides, by the entry, what is to be done.
    Compute,
}

impl TurnKind {
    /// Returns whether the two are the same kind.
    pub fn is_same(self, other: TurnKind) -> bool
        ensures same { result ≡ true → self ≡ other }
        ensures value { result ≡ same_kind self other }
    {
        match self {
            TurnKind::With => matches!(other, TurnKind::With),
            TurnKind::Optionally => matches!(other, TurnKind::Optionally),
            TurnKind::Try => matches!(other, TurnKind::Try),
            TurnKind::Compute => matches!(other, TurnKind::Compute),
        }
    }
}

/// A turn that is under way: at most one per kind and key. No other turn of the cache ever has the same number.
#[derive(Drop)]
pub struct OpenTurn<K> {
    /// The number of the turn.
    pub number: u64,
    /// The kind of call that the turn stands for.
    pub kind: TurnKind,
    /// The key of the turn.
    pub key: K,
    /// The hash of the key.
    pub hash: u64,
}

/// How a coalesced call begins.
#[derive(Clone, Debug, PartialEq, Eq, Drop)]
pub enum TurnStart<V> {
    /// The visible value.
    Found(V),
    /// The turn of this number is under way, and the caller has to wait for it.
    Wait(u64),
    /// The turn of this number began, and the caller leads it.
    Lead(u64),
}

/// What was made for a key.
#[derive(Clone, Debug, PartialEq, Eq, Drop)]
pub enum Made<V, F> {
    /// A value, which is to be written.
    Value(V),
    /// No value: none was made.
    Nothing,
    /// Why there is no value.
    Fault(F),
}

/// What a compute call should do.
#[derive(Clone, Debug, PartialEq, Eq, Drop)]
pub enum Op<V> {
    /// Leave the key as it is.
    Nop,
    /// Write this value.
    Put(V),
    /// Remove the key.
    Remove,
}

/// What a compute call did.
#[derive(Clone, Debug, PartialEq, Eq, Drop)]
pub enum Computed<V> {
    /// A value was put, and none was visible before.
    Inserted(V),
    /// A value was put, and replaced a visible one.
    ReplacedWith(V),
    /// The value was removed.
    Removed(V),
    /// There was no value, and there still is none.
    StillNone,
    /// The visible value was left as it is.
    Unchanged(V),
}

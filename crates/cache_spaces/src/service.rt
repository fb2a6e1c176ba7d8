//! A service: namespaces, each with its connections.
ghost use Rattle.std.specs.Prelude.{◌≡◌, ◌≤◌, ◌<◌, ◌^◌, ◌⊎◌, ◌↔◌, None, Some, false, length, IfOk, IfErr, OnOk, OnErr, IsErrOf};
ghost use Rattle.audit_model.specs.Belongs.{refusal_of};
ghost use Rattle.audit_model.specs.declared.event.Event.TheVariants as event;
ghost use Rattle.cache_core.specs.Settling.{answering, giving_up};
ghost use Rattle.cache_core.specs.Turned.{feeding};
ghost use Rattle.cache_spaces.specs.Calls.{At, GivesConnectionOwed, InSpace, IsUnknown, OpensNext, RefusedFor, Refuses, ServesEvent, Settled, TakesLoads, TakesNotice, TakesOutput, IsOpened, is_held_in};
ghost use Rattle.cache_spaces.specs.Journals.{IsReached, IsWhereItWas};
ghost use Rattle.cache_spaces.specs.Services.{AreNewSpaces, are_taken, feed_is_held, IsSoundSpace};
ghost use Rattle.cache_spaces.specs.Spaces.{Space, closing_of, config_of, is_waiting_for, known_of};
ghost use Rattle.std.specs.List.{slice_get};

use crate::making::{are_taken, new_spaces};
use crate::tapes::NewTape;
use audit_model::{Bytes, Closing, Config, Conn, Instant, LoadId, Note, Outcome, ServiceError};
use cache_core::{Namespace, Owed};
use cache_front::{FrontStore, KeyedHasher};
use cache_lines::{Bare, Tape};
use rand_xoshiro::Xoshiro256PlusPlus;
use std::alloc::Global;
use std::marker::Model;
use thiserror::Error;

/// The latest moment that is accepted.
const MAX_MOMENT: u64 = (1 << 63) - 1;

/// The values of a namespace.
pub type SpaceStore = FrontStore<Xoshiro256PlusPlus, KeyedHasher>;

/// The namespaces of a service, each with its connections and values, and with a tape, into which its records go.
///
/// There are 1 to 16 namespaces, counted from 0, each with a generator and a latest moment of its own. Connections and loads are numbered
/// from 1 within each. Contracts see it as the list of its namespaces.
#[derive(Drop)]
pub struct Core<T: Tape> {
    pub(crate) spaces: Vec<Namespace<SpaceStore, T>>,
}

impl<T: Tape> Model for Core<T> {
    ghost use Rattle.std.specs.Prelude.{List};
    ghost use Rattle.cache_spaces.specs.Spaces.{Space};

    ghost Value = { List (Space T) };

    ghost view = { λ c. c.spaces.items };
}

/// A service that keeps no journal (`RecordedService` keeps one). Replies, notes and loads are kept until they are taken.
/// ```
/// let mut service = Service::new(alloc, &[config], generator, moment)?;
/// let conn = service.open(0)?;
/// service.feed(conn, b"SET a - 1\nGET a\n", moment)?;
/// let replies = service.take_output(conn)?; // OK, VAL 1
/// ```
pub type Service = Core<Bare>;

/// What a feed did.
#[derive(Clone, Copy, Debug, PartialEq, Eq, Drop)]
pub enum Fed {
    /// The lines that could run have run, and none is held back.
    All,
    /// There was not enough memory for a command, and it stays the connection's first line; the next feed, even of no bytes, runs it again.
    Held,
}

/// An outcome that `Core::answer` did not accept, returned with the reason. The error converts to its `ServiceError` by `?`.
#[derive(Debug, Drop, Error)]
#[error("{error}")]
pub struct AnswerError {
    /// Why the outcome was refused.
    pub error: ServiceError,
    /// The outcome, unchanged.
    pub outcome: Outcome,
}

impl From<AnswerError> for ServiceError {
    ghost from_gives = { λ refused error. error ≡ refused.error };

    /// Why it was refused; what was returned is dropped.
    fn from(refused: AnswerError) -> ServiceError {
        refused.error
    }
}

impl<T: NewTape> Core<T> {
    /// Creates a service with one namespace for each configuration, in their order, at this moment, without connections and values. Each
    /// namespace has a generator of its own, a fork of the one given, from which the identifiers of its `DROPIF`s are drawn, and, long
    /// after them, the secret with which its keys are hashed. If untrusted clients choose the keys, pass a generator that they cannot
    /// predict.
    ///
    /// Returns `Moment` above 2^63 - 1 nanoseconds, then `Config` if the number of configurations is not 1 to 16 or one is out of
    /// range, then `OutOfMemory`.
    pub fn new(
        alloc: Global,
        configs: &[Config],
        generator: Xoshiro256PlusPlus,
        moment: Instant,
    ) -> Result<Core<T>, ServiceError>
        ensures made { IfOk result (λ core. AreNewSpaces T.Tape.view (T.blank moment) core
            configs.now generator moment.nanos) }
        // no input has come: journals without records lead here
        ensures reached { IfOk result (λ core. ∥ IsReached core 0 ∥₁) }
        ensures moment { IsErrOf result ServiceError.Moment ↔ (2 ^ 63 ≤ moment.nanos) }
        ensures config { IsErrOf result ServiceError.Config
            ↔ ((moment.nanos < 2 ^ 63) × (are_taken configs.now ≡ false)) }
        ensures memory { IfErr result (λ e. (e ≡ ServiceError.Moment) ⊎ (e ≡ ServiceError.Config)
            ⊎ (e ≡ ServiceError.OutOfMemory)) }
    {
        if moment.nanos > MAX_MOMENT {
            return Err(ServiceError::Moment);
        }
        if !are_taken(configs) {
            return Err(ServiceError::Config);
        }
        match new_spaces(alloc, configs, generator, moment) {
            Ok(spaces) => Ok(Core { spaces }),
            Err(_) => Err(ServiceError::OutOfMemory),
        }
    }
}

impl<T: Tape> Core<T> {
    /// Opens a connection in a namespace, and returns it: its number is the next one there, from 1 on.
    ///
    /// Returns `NoNamespace` if there is no such namespace, and `OutOfMemory` if there is not enough memory; then nothing has changed.
    pub fn open(&mut self, namespace: u64) -> Result<Conn, ServiceError>
        ensures taken { IfOk result (λ conn. (conn.namespace ≡ namespace)
            × At self.old self.new namespace (λ was is. OpensNext T.view was is conn.number)) }
        ensures refused { IfErr result
            (λ e. Refuses self.old namespace e (λ was. e ≡ ServiceError.OutOfMemory)) }
        ensures unchanged { OnErr result (self.new ≡ self.old) }
    {
        let Some(space) = self.spaces.get_mut(namespace as usize) else {
            return Err(ServiceError::NoNamespace);
        };
        match space.open() {
            Ok(number) => Ok(Conn { namespace, number }),
            Err(_) => Err(ServiceError::OutOfMemory),
        }
    }

    /// Closes a connection: its unread bytes and its held command are dropped, its replies can still be taken, and a load for which it
    /// waits stays under way.
    ///
    /// Returns `NoNamespace`, `NoConnection` or `Closed`, in this order, and otherwise `OutOfMemory` if there is no memory for its record:
    /// without a journal there is no record, and so no such error. After a refusal nothing has changed.
    pub fn close(&mut self, conn: Conn) -> Result<(), ServiceError>
        ensures taken { OnOk result (At self.old self.new conn.namespace
            (λ was is. ServesEvent T.view was is (event.Close conn.number) false)) }
        ensures refused { IfErr result (λ e. Refuses self.old conn.namespace e
            (λ was. RefusedFor was (event.Close conn.number) false e)) }
        ensures spare { IfErr result
            (λ e. Refuses self.old conn.namespace e (λ was. T.view was.tape ≡ None
            → refusal_of (config_of was) (known_of was) (event.Close conn.number) ≡ Some e)) }
        ensures unchanged { OnErr result (self.new ≡ self.old) }
    {
        let Some(space) = self.spaces.get_mut(conn.namespace as usize) else {
            return Err(ServiceError::NoNamespace);
        };
        space.close(conn.number)
    }

    /// Takes a piece of a connection's bytes at a moment, and runs its complete lines: a command that is held back runs first. An earlier
    /// moment counts as the namespace's latest. The piece may end anywhere in a line, and may be empty. `take_output` returns the replies.
    /// The call closes the connection if a `QUIT` runs, a line is longer than 8192 bytes, or more than that many come after a `LOAD` that
    /// waits.
    ///
    /// Returns `NoNamespace`, `NoConnection`, `Closed` or `Moment` (above 2^63 - 1 nanoseconds), in this order; otherwise `OutOfMemory`,
    /// or `HeldAgain` if there is still not enough memory for the held command. Then nothing has changed.
    pub fn feed(&mut self, conn: Conn, piece: &[u8], moment: Instant) -> Result<Fed, ServiceError>
        ensures taken { IfOk result
            (λ done. At self.old self.new conn.namespace (λ was is. ServesEvent T.view was is
            (feeding conn.number piece.now moment.nanos) (feed_is_held done))) }
        ensures refused { IfErr result (λ e. Refuses self.old conn.namespace e (λ was. RefusedFor
            was (feeding conn.number piece.now moment.nanos) (is_held_in was conn.number) e)) }
        ensures unchanged { OnErr result (self.new ≡ self.old) }
    {
        let Some(space) = self.spaces.get_mut(conn.namespace as usize) else {
            return Err(ServiceError::NoNamespace);
        };
        match space.feed(conn.number, piece, moment) {
            Ok(true) => Ok(Fed::Held),
            Ok(false) => Ok(Fed::All),
            Err(error) => Err(error),
        }
    }

    /// Answers a load under way at a moment: its value is stored, those that wait receive the outcome in order, and then their lines run
    /// in the same order. An earlier moment counts as the namespace's latest.
    ///
    /// Returns `NoNamespace`, `NoLoad`, `Moment` (above 2^63 - 1 nanoseconds), `LineEnd`, `TooLong` (above 8192 bytes) or `Deadline`, in
    /// this order, otherwise `OutOfMemory`. Then nothing has changed: the load is still under way, and the error contains the outcome.
    pub fn answer(
        &mut self,
        load: LoadId,
        outcome: Outcome,
        moment: Instant,
    ) -> Result<(), AnswerError>
        ensures taken { OnOk result (At self.old self.new load.namespace
            (λ was is. Settled T.view was is (answering load.number outcome moment.nanos))) }
        ensures refused { IfErr result (λ e. Refuses self.old load.namespace e.error
            (λ was. RefusedFor was (answering load.number outcome moment.nanos) false e.error)) }
        ensures back { IfErr result (λ e. e.outcome ≡ outcome) }
        ensures unchanged { OnErr result (self.new ≡ self.old) }
    {
        let Some(space) = self.spaces.get_mut(load.namespace as usize) else {
            return Err(AnswerError {
                error: ServiceError::NoNamespace,
                outcome,
            });
        };
        match space.answer(load.number, outcome, moment) {
            Ok(()) => Ok(()),
            Err((error, outcome)) => Err(AnswerError { error, outcome }),
        }
    }

    /// Gives up a load under way at a moment: each `LOAD` that waits for it runs again, in order, as a whole command, followed by its
    /// connection's lines. A `LOAD` waits again, for a new load, if its key has no live value; at its 200th give-up it is answered with
    /// `ERR abandoned`. An earlier moment counts as the namespace's latest.
    ///
    /// Returns `NoNamespace`, `NoLoad` or `Moment` (above 2^63 - 1 nanoseconds), in this order, and otherwise `OutOfMemory` if there is no
    /// memory for its record. Without a journal there is no such error, since a lack of memory holds lines back. After a refusal nothing
    /// has changed.
    pub fn give_up(&mut self, load: LoadId, moment: Instant) -> Result<(), ServiceError>
        ensures taken { OnOk result (At self.old self.new load.namespace
            (λ was is. Settled T.view was is (giving_up load.number moment.nanos))) }
        ensures refused { IfErr result (λ e. Refuses self.old load.namespace e
            (λ was. RefusedFor was (giving_up load.number moment.nanos) false e)) }
        ensures spare { IfErr result
            (λ e. Refuses self.old load.namespace e (λ was. T.view was.tape ≡ None → refusal_of
            (config_of was) (known_of was) (giving_up load.number moment.nanos) ≡ Some e)) }
        ensures unchanged { OnErr result (self.new ≡ self.old) }
    {
        let Some(space) = self.spaces.get_mut(load.namespace as usize) else {
            return Err(ServiceError::NoNamespace);
        };
        space.give_up(load.number, moment)
    }

    /// Returns what a connection is owed, moved out: its replies since they were last taken, even after it closed; the loads of its namespace
    /// that went out and were not taken, if they are requested; why it is closed; and whether its first line is a `LOAD` that waits. The
    /// call allocates nothing, and its replies are always `Some`. Returns `NoNamespace` if there is no such namespace, and `NoConnection` if
    /// the connection was never opened.
    /// ```
    /// service.feed(conn, piece, moment)?;
    /// let owed = service.owed(conn, true)?;
    /// ```
    pub fn owed(&mut self, conn: Conn, wants_loads: bool) -> Result<Owed, ServiceError>
        ensures given { IfOk result (λ owed. At self.old self.new conn.namespace
            (λ was is. GivesConnectionOwed was is conn.number wants_loads owed)) }
        ensures refused { IfErr result
            (λ e. Refuses self.old conn.namespace e (λ was. IsUnknown was conn.number e)) }
        ensures unchanged { OnErr result (self.new ≡ self.old) }
        // not an event: as many records lead here as before
        ensures reached { IsWhereItWas self.old self.new }
    {
        let Some(space) = self.spaces.get_mut(conn.namespace as usize) else {
            return Err(ServiceError::NoNamespace);
        };
        space.owed(conn.number, wants_loads)
    }

    /// Returns the reply bytes of a connection since they were last taken, with their line ends, moved out, even after it closed. The call
    /// allocates nothing. Returns `NoNamespace` if there is no such namespace, and `NoConnection` if the connection was never opened.
    pub fn take_output(&mut self, conn: Conn) -> Result<Vec<u8>, ServiceError>
        ensures taken { IfOk result (λ text. At self.old self.new conn.namespace
            (λ was is. TakesOutput was is conn.number text.items)) }
        ensures refused { IfErr result
            (λ e. Refuses self.old conn.namespace e (λ was. IsUnknown was conn.number e)) }
        ensures unchanged { OnErr result (self.new ≡ self.old) }
        // not an event: as many records lead here as before
        ensures reached { IsWhereItWas self.old self.new }
    {
        let Some(space) = self.spaces.get_mut(conn.namespace as usize) else {
            return Err(ServiceError::NoNamespace);
        };
        space.take_output(conn.number)
    }

    /// Returns the oldest note of a namespace that was reported and not taken, of a value that left; `None` if there is none. Each note
    /// comes once. The call allocates nothing. Returns `NoNamespace` if there is no such namespace.
    /// ```
    /// while let Some(note) = service.next_notice(0)? {
    ///     log(note.cause, &note.key);
    /// }
    /// ```
    pub fn next_notice(&mut self, namespace: u64) -> Result<Option<Note>, ServiceError>
        ensures taken { IfOk result
            (λ note. At self.old self.new namespace (λ was is. TakesNotice was is note)) }
        ensures refused { IfErr result
            (λ e. (e ≡ ServiceError.NoNamespace) × (length self.old ≤ namespace)) }
        ensures unchanged { OnErr result (self.new ≡ self.old) }
        // not an event: as many records lead here as before
        ensures reached { IsWhereItWas self.old self.new }
    {
        let Some(space) = self.spaces.get_mut(namespace as usize) else {
            return Err(ServiceError::NoNamespace);
        };
        Ok(space.next_notice())
    }

    /// Returns the loads of a namespace that went out and were not taken, with their keys, in the order in which they were sent, moved out,
    /// so that each comes once. Whoever takes one owes an `answer` or a `give_up`. The call allocates nothing. Returns `NoNamespace` if
    /// there is no such namespace.
    /// ```
    /// for (load, key) in service.take_loads(0)? {
    ///     service.answer(load, look_up(&key), moment)?;
    /// }
    /// ```
    pub fn take_loads(&mut self, namespace: u64) -> Result<Vec<(LoadId, Bytes)>, ServiceError>
        ensures taken { IfOk result
            (λ loads. At self.old self.new namespace (λ was is. TakesLoads was is loads.items)) }
        ensures refused { IfErr result
            (λ e. (e ≡ ServiceError.NoNamespace) × (length self.old ≤ namespace)) }
        ensures unchanged { OnErr result (self.new ≡ self.old) }
        // not an event: as many records lead here as before
        ensures reached { IsWhereItWas self.old self.new }
    {
        let Some(space) = self.spaces.get_mut(namespace as usize) else {
            return Err(ServiceError::NoNamespace);
        };
        Ok(space.take_loads())
    }

    /// Returns why a connection is closed; `None` while it is open. The call allocates nothing. Returns `NoNamespace` if there is no such
    /// namespace, and `NoConnection` if the connection was never opened.
    pub fn closed(&self, conn: Conn) -> Result<Option<Closing>, ServiceError>
        ensures closing { IfOk result (λ closing. InSpace self.now conn.namespace
            (λ space. IsOpened space conn.number × (closing ≡ closing_of space conn.number))) }
        ensures refused { IfErr result
            (λ e. Refuses self.now conn.namespace e (λ space. IsUnknown space conn.number e)) }
    {
        self.space(conn.namespace)?.closed(conn.number)
    }

    /// Returns whether a connection is open and its first line is a `LOAD` that waits for its load, so that no later line runs. The call
    /// allocates nothing. Returns `NoNamespace` if there is no such namespace, and `NoConnection` if the connection was never opened.
    pub fn waiting(&self, conn: Conn) -> Result<bool, ServiceError>
        ensures waits { IfOk result (λ waits. InSpace self.now conn.namespace
            (λ space. IsOpened space conn.number × (waits ≡ is_waiting_for space conn.number))) }
        ensures refused { IfErr result
            (λ e. Refuses self.now conn.namespace e (λ space. IsUnknown space conn.number e)) }
    {
        self.space(conn.namespace)?.waiting(conn.number)
    }

    /// Returns how many loads of a namespace are under way: sent, and neither answered nor given up, whether they were taken or not. The
    /// call allocates nothing. Returns `NoNamespace` if there is no such namespace.
    pub fn loads_open(&self, namespace: u64) -> Result<u64, ServiceError>
        ensures count { IfOk result
            (λ count. InSpace self.now namespace (λ space. count ≡ length space.pending)) }
        ensures refused { IfErr result
            (λ e. (e ≡ ServiceError.NoNamespace) × (length self.now ≤ namespace)) }
    {
        Ok(self.space(namespace)?.loads_open())
    }

    /// Does nothing. Its contract says what is true of a namespace that exists: there is a situation (of the definitions) that it agrees
    /// with, its connections and loads are in order, and its store, connections and loads agree with each other.
    pub fn sound(&self, namespace: u64)
        ensures { (space : Space T) → slice_get self.now namespace ≡ Some space
            → IsSoundSpace T.view space }
    {
        match self.space(namespace) {
            Ok(space) => space.sound(),
            Err(_) => {}
        }
    }

    /// The namespace with this number, or `NoNamespace`.
    pub(crate) fn space(&self, namespace: u64) -> Result<&Namespace<SpaceStore, T>, ServiceError>
        ensures space { IfOk result (λ space. slice_get self.now namespace ≡ Some space.now) }
        ensures refused { IfErr result
            (λ e. (e ≡ ServiceError.NoNamespace) × (length self.now ≤ namespace)) }
    {
        match self.spaces.get(namespace as usize) {
            Some(space) => Ok(space),
            None => Err(ServiceError::NoNamespace),
        }
    }
}

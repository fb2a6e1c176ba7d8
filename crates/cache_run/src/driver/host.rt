//! What a driver uses to serve its connection.
ghost use Rattle.std.specs.Prelude.{◌≡◌, ◌≤◌, ◌<◌, ◌^◌, ℕ, Bool, true, false, [], List, length, take, IfOk, IfErr, IfSome, OnErr, IsNone};
ghost use Rattle.cache_run.specs.Devices.Sources.{Asking, Askings};
ghost use Rattle.cache_run.specs.Driver.Exchanges.{Doing, Exchange, Fed, Looked, Outs};
ghost use Rattle.cache_run.specs.Driver.Hosting.{SettlesBy, Stops, SuitsRequest, exchange_of};
ghost use Rattle.audit_model.specs.declared.input.Conn.{Conn};

use crate::devices::{Loader, RunError};
use audit_model::{Bytes, Conn, LoadId, Outcome};
use cache_spaces::Owed;

/// What a connection is given after an exchange.
#[derive(Drop)]
pub struct Given {
    /// Whether a command is held back for lack of memory.
    pub held: bool,
    /// What the connection was owed; it waits only for a load that is requested from another connection's loader.
    pub owed: Owed,
}

/// Whoever serves connections: a lent service, or a seat of one that threads share.
pub trait Host {
    /// What changes while a connection is served.
    type Place;

    /// Whether nobody else has the service.
    ghost LENT: { Bool };

    /// A connection of a namespace was opened.
    ghost opens: { ℕ → Conn → Self.Place → Self.Place → Type 0 };

    /// It is known.
    ghost knows: { Conn → Self.Place → Type 0 };

    /// A piece may be fed as a whole.
    ghost fits: { List ℕ → Type 0 };

    /// An exchange came.
    ghost came: { Conn → Self.Place → Exchange → Self.Place → Type 0 };

    /// Nothing came.
    ghost rests: { Self.Place → Self.Place → Type 0 };

    /// How many inputs were counted.
    ghost counted: { Self.Place → ℕ };

    /// The inputs that are counted were used up, between one count and another.
    ghost exhausts: { ℕ → ℕ → Type 0 };

    /// A connection was closed, if it was open.
    ghost closes: { Conn → Self.Place → Self.Place → Type 0 };

    /// Loads in hand were dropped, and then those that had gone out, for which a loader was asked in this way.
    ghost drops: { Conn → Outs → Self.Place → List Asking → Self.Place → Type 0 };

    /// Opens a connection. Returns `OutOfMemory`, or `UsedUp` if a 64-bit count is used up; then no connection was opened.
    fn open(&mut self, place: &mut Self::Place, namespace: u64) -> Result<Conn, RunError>
        ensures opens { IfOk result
            (λ conn. opens namespace conn place.old place.new × knows conn place.new) }
        ensures rests { OnErr result (rests place.old place.new) }
        ensures count { counted place.old ≤ counted place.new }
        ensures why { IfErr result (Stops (exhausts (counted place.old) (counted place.new)) ⊥) };

    /// Returns how much of what was read is fed at once.
    fn cut(&mut self, bytes: &[u8]) -> usize
        ensures within { result ≤ length bytes.now }
        ensures some { 0 < length bytes.now → 0 < result }
        ensures whole { LENT ≡ true → result ≡ length bytes.now }
        ensures fits { fits (take result bytes.now) };

    /// Feeds a piece, and takes the loads that have gone out. Returns `None` if the connection had closed. Returns `Moment` if the moment
    /// is above 2^63 - 1 nanoseconds, `OutOfMemory`, or `UsedUp` if a 64-bit count is used up.
    fn feed(
        &mut self,
        place: &mut Self::Place,
        conn: Conn,
        piece: &[u8],
        moment: u64,
    ) -> Result<Option<Given>, RunError>
        requires known { knows conn place.old }
        requires fits { fits piece.now }
        ensures came { IfOk result (λ given. IfSome given (λ one. came conn place.old (exchange_of
            (Fed piece.now moment one.held) one) place.new × SuitsRequest LENT true one)) }
        ensures closed { IfOk result
            (λ given. IsNone given → (LENT ≡ false) × rests place.old place.new) }
        ensures rests { OnErr result (rests place.old place.new) }
        ensures known { knows conn place.new }
        ensures count { counted place.old ≤ counted place.new }
        ensures why { IfErr result
            (Stops (exhausts (counted place.old) (counted place.new)) (2 ^ 63 ≤ moment)) };

    /// Settles a load by what the loader returned: it is answered, or given up if there is no outcome or one that is refused for its bytes
    /// or its time. Returns `Moment` if the moment is above 2^63 - 1 nanoseconds, `OutOfMemory`, or `UsedUp` if a 64-bit count is used up.
    fn settle(
        &mut self,
        place: &mut Self::Place,
        conn: Conn,
        load: u64,
        said: Option<Outcome>,
        moment: u64,
        wants_loads: bool,
    ) -> Result<Given, RunError>
        requires known { knows conn place.old }
        ensures came { IfOk result (λ given. (key : List ℕ)
            → (doing : Doing) × SettlesBy load moment (record { key = key; answer = said }) doing
            × came conn place.old (exchange_of doing given) place.new) }
        ensures suits { IfOk result (SuitsRequest LENT wants_loads) }
        ensures rests { OnErr result (rests place.old place.new) }
        ensures known { knows conn place.new }
        ensures count { counted place.old ≤ counted place.new }
        ensures why { IfErr result
            (Stops (exhausts (counted place.old) (counted place.new)) (2 ^ 63 ≤ moment)) };

    /// Waits while a `LOAD` of the connection waits, and returns what the connection is owed then.
    fn await_owed(&mut self, place: &mut Self::Place, conn: Conn) -> Given
        requires known { knows conn place.old }
        ensures came { came conn place.old (exchange_of Looked result) place.new }
        ensures suits { SuitsRequest LENT true result }
        ensures count { counted place.old ≤ counted place.new }
        ensures known { knows conn place.new };

    /// Closes a connection, unless it has closed.
    fn close(&mut self, place: &mut Self::Place, conn: Conn)
        requires known { knows conn place.old }
        ensures closes { closes conn place.old place.new }
        ensures count { counted place.old ≤ counted place.new }
        ensures known { knows conn place.new };

    /// Drops the loads in hand of a connection that has closed, and those that have gone out.
    fn drop_loads<L: Loader>(
        &mut self,
        place: &mut Self::Place,
        conn: Conn,
        hand: &[(LoadId, Bytes)],
        loader: &mut L,
    )
        requires known { knows conn place.old }
        ensures dropped { (askings : List Asking) × drops conn hand.now place.old askings place.new
            × Askings L.loads loader.old askings loader.new }
        ensures count { counted place.old ≤ counted place.new };

    /// An empty piece fits.
    ghost fits_none: { fits [] };

    /// If inputs were used up between two counts, they were between earlier and later ones.
    ghost exhausts_within: { (i j k l : ℕ) → i ≤ j → k ≤ l → exhausts j k → exhausts i l };

    /// A closing after a rest.
    ghost closes_behind: { (conn : Conn) (p q r : Self.Place) → rests p q → closes conn q r
        → closes conn p r };
}

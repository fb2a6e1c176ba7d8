//! The situation between two steps, and what changes it.
ghost use Rattle.std.specs.Prelude.{◌≡◌, ◌&&◌, ◌++◌, ◌∷◌, [], OnOk, IfOk, IsTrue, suc, max, Some, None, map, not, ◌==◌, option_map};
ghost use Rattle.std.specs.List.{find};
ghost use Rattle.std.specs.Option.{option_map_or};
ghost use Rattle.audit_model.specs.Bytewise.{same};
ghost use Rattle.audit_model.specs.Changes.{join_by};
ghost use Rattle.audit_model.specs.Follows.{without_load};
ghost use Rattle.audit_model.specs.Situation.{Ready, empty_situation, connection_in, may_run_in, is_holding_in, without_connection, with_connection};
ghost use Rattle.audit_situation.specs.States.{shown_situation, have_numbers_apart, fed_to, moved_by};
ghost use Rattle.audit_situation.specs.Standings.{moved_as};

use crate::held::Holding;
use crate::link::{Link, Moving, first_line};
use crate::links::Links;
use crate::loads::LoadTable;
use crate::pending::Pending;
use std::alloc::{AllocError, Global};

/// What later steps depend on: the latest moment in nanoseconds, how many connections were opened and loads sent, the open connections, the
/// loads under way, the values held, oldest first, and whether a `DROPIF` was accepted.
#[derive(Drop)]
pub struct State {
    /// The latest moment, in nanoseconds.
    pub latest: u64,
    /// How many connections were opened.
    pub opened: u64,
    /// How many loads were sent.
    pub sent: u64,
    /// The open connections.
    pub connections: Links,
    /// The loads under way.
    pub pending: LoadTable,
    /// The values held.
    pub held: Holding,
    /// Whether a `DROPIF` was accepted.
    pub dropped: bool,
}

/// Creates the situation of a namespace that was made at that moment, in nanoseconds. Returns an error if there is not enough memory.
pub fn begin(alloc: Global, made: u64) -> Result<State, AllocError>
    ensures { IfOk result (λ s. shown_situation s ≡ empty_situation made) }
{
    Ok(State {
        latest: made,
        opened: 0,
        sent: 0,
        connections: Links::new(alloc),
        pending: LoadTable::new(alloc),
        held: Holding::new(alloc)?,
        dropped: false,
    })
}

/// Returns the open connection of that number, or `None` if it is not open.
pub fn find_link(links: &Links, conn: u64) -> Option<&Link>
    ensures { option_map (λ l. l.now) result ≡ find (λ c. c.number == conn) links.now }
{
    links.get(conn)
}

/// Returns whether a connection's next line may run.
pub fn may_run(s: &State, conn: u64) -> bool
    ensures { result ≡ may_run_in (shown_situation s.now) conn }
{
    match find_link(&s.connections, conn) {
        Some(link) => link.is_ready() && first_line(link.unread()).is_some(),
        None => false,
    }
}

/// Returns whether a connection holds a line back.
pub fn is_holding(s: &State, conn: u64) -> bool
    ensures { result ≡ is_holding_in (shown_situation s.now) conn }
{
    match find_link(&s.connections, conn) {
        Some(link) => link.is_holding(),
        None => false,
    }
}

/// Returns how often a connection's `LOAD` that has no reply yet began to wait.
pub fn waited(s: &State, conn: u64) -> u64
    ensures { result ≡ option_map_or (λ c. c.waited) (connection_in conn (shown_situation s.now))
        0 }
{
    match find_link(&s.connections, conn) {
        Some(link) => link.waited(),
        None => 0,
    }
}

/// Returns the load under way of a key, or `None` if there is none.
pub fn find_load<'a>(pending: &'a LoadTable, key: &[u8]) -> Option<&'a Pending>
    ensures { option_map (λ p. p.now) result ≡ find (λ p. same p.key key.now) pending.now }
{
    pending.of_key(key)
}

/// Returns the load under way of that number, or `None` if there is none.
pub fn find_pending(pending: &LoadTable, number: u64) -> Option<&Pending>
    ensures { option_map (λ p. p.now) result ≡ find (λ p. p.number == number) pending.now }
{
    pending.get(number)
}

/// Opens a connection, with the next number. Returns an error if there is not enough memory.
pub fn open(alloc: Global, s: &mut State, conn: u64) -> Result<(), AllocError>
    ensures { OnOk result (shown_situation s.new ≡ record (shown_situation s.old) {
      opened = conn;
      connections = s.old.connections ++ record { number = conn; unread = []; standing = Ready; waited = 0 } ∷ [];
    }) }
{
    s.connections.add(Link::new(alloc, conn))?;
    s.opened = conn;
    Ok(())
}

/// Closes a connection. The load that it waits for stays under way.
pub fn close(s: &mut State, conn: u64)
    ensures { shown_situation s.new ≡ without_connection conn (shown_situation s.old) }
{
    s.connections.remove(conn);
    s.pending.leave(conn);
}

/// Appends a piece to the bytes of a connection. Returns an error if there is not enough memory.
pub fn feed(s: &mut State, conn: u64, piece: &[u8]) -> Result<(), AllocError>
    requires { IsTrue (have_numbers_apart s.old.connections) }
    ensures { OnOk result (shown_situation s.new ≡ fed_to conn piece.now (shown_situation s.old)) }
{
    let closes = s.connections.feed(conn, piece)?;
    if closes {
        close(s, conn);
    }
    Ok(())
}

/// Sends a load of a key, for which a connection waits.
fn send(s: &mut State, conn: u64, key: &[u8], number: u64) -> Result<(), AllocError>
    ensures { OnOk result (shown_situation s.new ≡ record (shown_situation s.old) {
      sent = suc s.old.sent;
      pending = record { number = number; key = key.now; waiting = conn ∷ [] } ∷ s.old.pending;
    }) }
{
    let Some(sent) = s.sent.checked_add(1) else {
        return Err(AllocError);
    };
    s.pending.send(number, key, conn)?;
    s.sent = sent;
    Ok(())
}

/// Does to the loads what a step does: a `LOAD` that waits joins its key's load, or the load that it sent. Returns an error if there is not
/// enough memory.
pub fn join(
    s: &mut State,
    conn: u64,
    waits: bool,
    key: Option<&[u8]>,
    load: Option<u64>,
) -> Result<(), AllocError>
    ensures { OnOk result (shown_situation s.new
        ≡ join_by conn waits (option_map (λ k. k.now) key.entry) load (shown_situation s.old)) }
{
    match key {
        None => Ok(()),
        Some(key) => match load {
            Some(number) => send(s, conn, key, number),
            None if waits => s.pending.join(conn, key),
            None => Ok(()),
        },
    }
}

/// What a step of a connection does to the connection and the loads.
#[derive(Clone, Copy)]
pub struct Moved<'a> {
    /// The number of the connection.
    pub conn: u64,
    /// What the step does to the connection.
    pub moving: Moving<'a>,
    /// Whether the step is a `QUIT`.
    pub quits: bool,
    /// The key of the step's `LOAD`.
    pub key: Option<&'a [u8]>,
    /// The number of the load that the step sent.
    pub load: Option<u64>,
}

/// Whether a step waits.
fn waits(moving: Moving<'_>) -> bool
    ensures { result ≡ (not moving.entry.replies && not moving.entry.holds) }
{
    !moving.replies && !moving.holds
}

/// Does to the connection of a step, and to the loads, what the step does. Returns an error if there is not enough memory.
pub fn pass(alloc: Global, s: &mut State, moved: Moved<'_>) -> Result<(), AllocError>
    requires { IsTrue (have_numbers_apart s.old.connections) }
    ensures { OnOk result (shown_situation s.new ≡ moved_by moved.entry (shown_situation s.old)) }
{
    if find_link(&s.connections, moved.conn).is_some() {
        let waits = waits(moved.moving);
        join(s, moved.conn, waits, moved.key, moved.load)?;
        move_in(alloc, s, moved.conn, moved.moving, moved.quits)?;
    }
    Ok(())
}

/// Does to a connection what a step does.
fn move_in(
    alloc: Global,
    s: &mut State,
    conn: u64,
    moving: Moving<'_>,
    quits: bool,
) -> Result<(), AllocError>
    requires { IsTrue (have_numbers_apart s.old.connections) }
    ensures { OnOk result (shown_situation s.new ≡ option_map_or
        (λ c. with_connection quits (moved_as moving.entry c) (shown_situation s.old))
        (connection_in conn (shown_situation s.old)) (shown_situation s.old)) }
{
    let closes = s.connections.move_on(alloc, conn, moving, quits)?;
    if closes {
        close(s, conn);
    }
    Ok(())
}

/// Settles a load at a moment, in nanoseconds.
pub fn settle(s: &mut State, number: u64, moment: u64)
    ensures { shown_situation s.new ≡ without_load number moment (shown_situation s.old) }
{
    s.latest = moment.max(s.latest);
    s.pending.remove(number);
}

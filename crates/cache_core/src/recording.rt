//! A piece of a connection's bytes, and its record.
ghost use Rattle.std.specs.Prelude.{◌≡◌, ◌<◌, ◌≤◌, None, Some, true, is_some, length, IfOk, IfErr, OnOk, OnErr};
ghost use Rattle.std.specs.List.{slice_get};
ghost use Rattle.std.specs.Option.{option_map};
ghost use Rattle.cache_core.specs.Connection.Fed.{LooksAsBefore, seen_by};
ghost use Rattle.cache_core.specs.Fed.{BaseStays, CanTurn, FedTurn, FeedsAt, ReplacedAt, WantsMemory, seen_at};
ghost use Rattle.cache_core.specs.Connections.Presence.{Here, closing_at};
ghost use Rattle.cache_core.specs.declared.connection.connection.Connection.{Connection as Open};
ghost use Rattle.cache_commands.specs.Loads.Pending.{SameTaken};
ghost use Rattle.cache_commands.specs.Loads.Standings.{holds_line};
ghost use Rattle.cache_lines.specs.Tape.Taped.{IsAtRest, started};

use crate::connection::{Connection, feed_connection};
use crate::interior::Interior;
use crate::places::number_at;
use audit_model::{Bytes, Event, Instant, Seq, ServiceError};
use cache_commands::Store;
use cache_lines::{Base, Tape};
use std::alloc::{AllocError, Global};

/// A copy of a piece, if records are kept.
fn copy_where(alloc: Global, keeps: bool, piece: &[u8]) -> Result<Bytes, AllocError>
    ensures { keeps ≡ true → IfOk result (λ copy. copy ≡ piece.now) }
{
    if !keeps {
        return Ok(Seq::new(alloc));
    }
    Ok(Seq::from_vec(Vec::from_slice(alloc, piece)?))
}

/// Begins the record of a feed: makes room for the piece, and for a line that is held back, and returns the event. If the call is refused,
/// nothing has changed.
fn begin_feed<S: Store, T: Tape>(
    base: &mut Base<S, T>,
    number: u64,
    connection: &mut Connection,
    piece: &[u8],
    moment: Instant,
) -> Result<Event, AllocError>
    requires rests { IsAtRest (T.view base.old.tape) }
    ensures event { IfOk result (λ event. is_some (T.view base.old.tape) ≡ true
        → event ≡ Event.Feed number piece.now moment) }
    ensures room { OnOk result (length piece.now ≤ connection.new.unread.room) }
    ensures tape { OnOk result
        (T.view base.new.tape ≡ option_map (started 1) (T.view base.old.tape)) }
    ensures rest { base.new ≡ record base.old { tape = base.new.tape } }
    ensures connection { LooksAsBefore connection.old connection.new }
    ensures unchanged { OnErr result (base.new.tape ≡ base.old.tape) }
{
    let alloc = *connection.output.text.allocator();
    connection.unread.reserve(piece.len())?;
    let copy = copy_where(alloc, base.tape.keeps(), piece)?;
    base.tape.start(1)?;
    Ok(Event::Feed {
        conn: number,
        piece: copy,
        moment,
    })
}

/// Takes a piece of an open connection's bytes, and returns whether a line is held back then. Returns `OutOfMemory`, or `HeldAgain` if
/// there is still not enough memory for the line that is held back; then nothing has changed.
pub fn feed_recorded<S: Store, T: Tape>(
    base: &mut Base<S, T>,
    now: u64,
    number: u64,
    connection: &mut Connection,
    piece: &[u8],
    moment: Instant,
) -> Result<bool, ServiceError>
    requires can_turn { CanTurn now (seen_by S.view T.view base.old connection.old) }
    requires open { connection.old.closing ≡ None }
    ensures turned { IfOk result (λ is_held. FedTurn now number moment.nanos connection.old
        piece.now connection.new is_held (seen_by S.view T.view base.old connection.old)
        (seen_by S.view T.view base.new connection.new)) }
    ensures refused { IfErr result (WantsMemory (holds_line connection.old.standing)) }
    ensures unchanged { OnErr result
        (BaseStays base.old base.new × LooksAsBefore connection.old connection.new) }
    ensures goes { SameTaken base.old.loads base.new.loads }
{
    let Ok(event) = begin_feed(base, number, connection, piece, moment) else {
        return Err(ServiceError::OutOfMemory);
    };
    base.store.sound();
    let alloc = *connection.output.text.allocator();
    match feed_connection(base, now, number, connection, piece) {
        Ok(is_held) => {
            base.tape.finish(event, None, Seq::new(alloc));
            Ok(is_held)
        }
        Err(_) => {
            base.tape.abandon();
            Err(ServiceError::HeldAgain)
        }
    }
}

impl<S: Store, T: Tape> Interior<S, T> {
    /// Takes a piece of the bytes of the open connection at an index, and returns whether a line is held back then. Returns `OutOfMemory`,
    /// or `HeldAgain` if there is still not enough memory for the line that is held back; then nothing has changed.
    pub fn feed_at(
        &mut self,
        now: u64,
        index: usize,
        piece: &[u8],
        moment: Instant,
    ) -> Result<bool, ServiceError>
        requires can_turn { CanTurn now (seen_at S.view T.view self.old.base self.old.connections
            index) }
        requires inside { index < length self.old.connections }
        requires open { closing_at self.old.connections index ≡ None }
        ensures turned { IfOk result (λ is_held. FeedsAt S.view T.view now moment.nanos index
            piece.now is_held self.old.base self.new.base self.old.connections
            self.new.connections) }
        ensures refused { IfErr result (λ e. (c : Open) → slice_get self.old.connections index
            ≡ Some (Here c) → WantsMemory (holds_line c.standing) e) }
        ensures unchanged { OnErr result (BaseStays self.old.base self.new.base × (p : ReplacedAt
            self.old.connections self.new.connections index) × LooksAsBefore p.was p.is) }
        ensures goes { SameTaken self.old.base.loads self.new.base.loads }
    {
        let number = number_at(&self.connections, index);
        let mut connection = self.connections.take(index);
        let fed = feed_recorded(&mut self.base, now, number, &mut connection, piece, moment);
        self.connections.put(index, connection);
        fed
    }
}

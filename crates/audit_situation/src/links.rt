//! The open connections, by number.
ghost use Rattle.std.specs.Prelude.{◌≡◌, ◌++◌, ◌∷◌, [], map, true, false, ◌==◌, ◌||◌, nat_le, IfOk, OnOk, option_map};
ghost use Rattle.std.specs.List.{find, list_all};
ghost use Rattle.std.specs.Option.{option_map_or};
ghost use Rattle.audit_model.specs.Situation.{Connection, is_overlong, without_number};
ghost use Rattle.audit_model.specs.Numbered.{changed_numbered};
ghost use Rattle.audit_situation.specs.Listings.{is_listing};
ghost use Rattle.audit_situation.specs.Standings.{moved_as, fed_with};

use crate::link::{Link, Moving, feed_link, move_link};
use indexmap::IndexMap;
use std::alloc::{AllocError, Global};
use std::marker::Model;

/// Open connections by number, seen as the list of them in the order in which they were opened. Each has a higher number than those
/// before it.
#[derive(Drop)]
pub struct Links {
    table: IndexMap<u64, Link>,
    last: u64,
    ghost listing: { is_listing (λ (c : Connection). c.number) table.entries ≡ true },
    ghost past: { list_all (λ e. nat_le e.0 last) table.entries ≡ true },
}

impl Model for Links {
    ghost use Rattle.std.specs.Prelude.{List, nat_lt};
    ghost use Rattle.std.specs.Map.{values_of};
    ghost use Rattle.audit_model.specs.Situation.{Connection};
    ghost use Rattle.audit_situation.specs.Listings.{ranked};

    ghost Value = { List Connection };

    ghost view = { λ l. ranked nat_lt (λ c. c.number) (values_of l.table.entries) };
}

impl Links {
    /// Creates an empty table of connections.
    pub fn new(alloc: Global) -> Links
        ensures { result ≡ [] }
    {
        Links {
            table: IndexMap::new(alloc),
            last: 0,
        }
    }

    /// Returns the connection of that number, or `None` if it is not open.
    pub fn get(&self, conn: u64) -> Option<&Link>
        ensures { option_map (λ l. l.now) result ≡ find (λ c. c.number == conn) self.now }
    {
        self.table.get(&conn)
    }

    /// Adds a connection, as the last one. Returns an error if there is not enough memory, or if the connection's number is not above the
    /// earlier ones.
    pub fn add(&mut self, link: Link) -> Result<(), AllocError>
        ensures { OnOk result (self.new ≡ self.old ++ link ∷ []) }
    {
        let number = link.number();
        if number <= self.last {
            return Err(AllocError);
        }
        self.table.insert(number, link)?;
        self.last = number;
        Ok(())
    }

    /// Removes a connection.
    pub fn remove(&mut self, conn: u64)
        ensures { self.new ≡ without_number conn self.old }
    {
        self.table.swap_remove(&conn);
    }

    /// Feeds a connection, and returns whether it has to close. Returns an error if there is not enough memory.
    pub fn feed(&mut self, conn: u64, piece: &[u8]) -> Result<bool, AllocError>
        ensures closes { IfOk result
            (λ b. b ≡ option_map_or (λ c. is_overlong (fed_with piece.now c))
            (find (λ c. c.number == conn) self.old) false) }
        ensures fed { OnOk result
            (self.new ≡ map (changed_numbered (λ c. c.number) conn (fed_with piece.now)) self.old) }
    {
        match self.table.get_mut(&conn) {
            Some(link) => feed_link(link, piece),
            None => Ok(false),
        }
    }

    /// Does to a connection what its own step does, and returns whether the connection closes. Returns an error if there is not enough
    /// memory.
    pub fn move_on(
        &mut self,
        alloc: Global,
        conn: u64,
        moving: Moving<'_>,
        quits: bool,
    ) -> Result<bool, AllocError>
        ensures closes { IfOk result
            (λ b. b ≡ option_map_or (λ c. quits || is_overlong (moved_as moving.entry c))
            (find (λ c. c.number == conn) self.old) false) }
        ensures moved { OnOk result
            (self.new ≡ map (changed_numbered (λ c. c.number) conn (moved_as moving.entry))
            self.old) }
    {
        match self.table.get_mut(&conn) {
            Some(link) => move_link(alloc, link, moving, quits),
            None => Ok(false),
        }
    }
}

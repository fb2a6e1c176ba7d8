//! The host of a connection of a lent service.
ghost use Rattle.std.specs.Prelude.{◌≡◌, true};
ghost use Rattle.std.proofs.Common.{subst};
ghost use Rattle.cache_run.specs.Lent.{ClosesAt, ComesAt, DropsAt, IsConnection, OpensAt};

use crate::devices::{Loader, RunError};
use crate::driver::{Given, Host};
use crate::drops::{close_if_open, drop_loads};
use crate::giving::{feed_piece, give};
use crate::loads::settle;
use audit_model::{Bytes, Conn, LoadId, Outcome};
use cache_spaces::Service;

/// The host of a connection of a service that nobody else has.
#[derive(Clone, Copy, Drop)]
pub struct Lent;

impl Host for Lent {
    type Place = Service;

    ghost LENT = { true };

    ghost opens = { OpensAt };

    ghost knows = { IsConnection };

    ghost fits = { λ piece. Unit {0} };

    ghost came = { ComesAt };

    ghost rests = { λ old new. new ≡ old };

    ghost counted = { λ service. 0 };

    ghost exhausts = { λ before after. ⊥ };

    ghost closes = { ClosesAt };

    ghost drops = { DropsAt };

    fn open(&mut self, place: &mut Service, namespace: u64) -> Result<Conn, RunError> {
        place.sound(namespace);
        match place.open(namespace) {
            Ok(conn) => Ok(conn),
            Err(_) => Err(RunError::OutOfMemory),
        }
    }

    fn cut(&mut self, bytes: &[u8]) -> usize {
        bytes.len()
    }

    fn feed(
        &mut self,
        place: &mut Service,
        conn: Conn,
        piece: &[u8],
        moment: u64,
    ) -> Result<Option<Given>, RunError> {
        let held = feed_piece(place, conn, piece, moment)?;
        Ok(Some(give(place, conn, held, true)))
    }

    fn settle(
        &mut self,
        place: &mut Service,
        conn: Conn,
        load: u64,
        said: Option<Outcome>,
        moment: u64,
        wants_loads: bool,
    ) -> Result<Given, RunError> {
        settle(place, conn, load, said, moment)?;
        Ok(give(place, conn, false, wants_loads))
    }

    fn await_owed(&mut self, place: &mut Service, conn: Conn) -> Given {
        // No `LOAD` waits for others.
        give(place, conn, false, true)
    }

    fn close(&mut self, place: &mut Service, conn: Conn) {
        close_if_open(place, conn)
    }

    fn drop_loads<L: Loader>(
        &mut self,
        place: &mut Service,
        conn: Conn,
        hand: &[(LoadId, Bytes)],
        loader: &mut L,
    ) {
        drop_loads(place, conn, hand)
    }

    ghost fits_none = { tt };

    ghost exhausts_within = { λ i j k l below above never. never };

    ghost closes_behind = { λ conn p q r same closes. subst (λ x. ClosesAt conn x r) same closes };
}

//! The service that keeps no journal.
use crate::shareable::Shareable;
use audit_model::{Bytes, Closing, Conn, Input, Instant, LoadId, Note, ServiceError, Transcript};
use cache_spaces::{Output, Owed, Refusal, Service};

impl Shareable for Service {
    ghost use Rattle.std.specs.Prelude.{false};
    ghost use Rattle.cache_shared.specs.Recordings.{bare_spaces, no_journals, untaken_of, untold_of};

    ghost spaces = { bare_spaces };

    ghost journals = { no_journals };

    ghost untaken = { untaken_of };

    ghost untold = { untold_of };

    ghost KEEPS = { false };

    const KEEPS: bool = false;

    fn step(&mut self, input: Input) -> Result<Output, Refusal> {
        Service::step(self, input)
    }

    fn step_feed(
        &mut self,
        conn: Conn,
        piece: &[u8],
        moment: Instant,
    ) -> Result<Output, ServiceError> {
        Service::step_feed(self, conn, piece, moment)
    }

    fn journal(&self, namespace: u64) -> Result<&Transcript, ServiceError> {
        Err(ServiceError::NoNamespace)
    }

    fn take_output(&mut self, conn: Conn) -> Result<Vec<u8>, ServiceError> {
        Service::take_output(self, conn)
    }

    fn next_notice(&mut self, namespace: u64) -> Result<Option<Note>, ServiceError> {
        Service::next_notice(self, namespace)
    }

    fn take_loads(&mut self, namespace: u64) -> Result<Vec<(LoadId, Bytes)>, ServiceError> {
        Service::take_loads(self, namespace)
    }

    fn owed(&mut self, conn: Conn, wants_loads: bool) -> Result<Owed, ServiceError> {
        Service::owed(self, conn, wants_loads)
    }

    fn closed(&self, conn: Conn) -> Result<Option<Closing>, ServiceError> {
        Service::closed(self, conn)
    }

    fn waiting(&self, conn: Conn) -> Result<bool, ServiceError> {
        Service::waiting(self, conn)
    }
}

//! Lines.
ghost use Rattle.std.specs.Prelude.{◌≡◌, ◌≤◌, OnErr, IfOk, length, true};
ghost use Rattle.std.specs.Option.{option_map_or};
ghost use Rattle.std.specs.Result.{IsErrOf};
ghost use Rattle.audit_lines.specs.Request.{said};
ghost use Rattle.cache_commands.specs.Ran.{RunsRequest, FitsStore, rests};
ghost use Rattle.cache_commands.specs.Values.{IsMoment, IsSpent};

use crate::asking::{has, keys, quit};
use crate::commands::{del, fault, get, set, sync};
use crate::covering::{clear, drop_prefix};
use crate::error::StoreError;
use crate::keyed::Keyed;
use crate::loading::load;
use crate::store::Store;
use crate::sums::add;
use audit_lines::Request;
use audit_model::Accepted;

/// What a line did besides its reply.
#[derive(Clone, Copy, Drop)]
pub enum Ran {
    /// The line was answered, and that part, if any, took its value.
    Answered(Option<Accepted>),
    /// The line is a `LOAD` of a key that has no live value, and did nothing.
    Misses,
}

impl<S: Store> Keyed<S> {
    /// Runs a request, and appends its reply to `reply`. Returns `OutOfMemory` if there is not enough memory, and `UsedUp` if a 64-bit
    /// number is used up; then nothing has changed.
    pub fn run(
        &mut self,
        request: Request,
        now: u64,
        reply: &mut Vec<u8>,
    ) -> Result<Ran, StoreError>
        requires in_time { IsMoment (S.view self.old) now }
        requires fit { FitsStore (S.view self.old).frame.config request }
        ensures runs { IfOk result (λ ran. RunsRequest now (said request.entry) ran
            (S.view self.old) (S.view self.new) reply.old.items reply.new.items) }
        ensures rests { IfOk result (λ ran. rests ran ≡ true → self.new ≡ self.old) }
        ensures used_up { IsErrOf result StoreError.UsedUp → IsSpent (S.view self.old) }
        ensures unchanged { OnErr result (self.new ≡ self.old) }
        ensures unwritten { OnErr result (reply.new.items ≡ reply.old.items) }
    {
        match request {
            Request::Set {
                key,
                deadline,
                value,
            } => {
                self.key.fill(key)?;
                let accepted = set(&mut self.store, &self.key, deadline, value, now, reply)?;
                return Ok(Ran::Answered(accepted));
            }
            Request::Add {
                key,
                deadline,
                number,
            } => {
                self.key.fill(key)?;
                let accepted = add(&mut self.store, &self.key, deadline, number, now, reply)?;
                return Ok(Ran::Answered(accepted));
            }
            Request::Load { key } => {
                self.key.fill(key)?;
                if !load(&mut self.store, &self.key, now, reply)? {
                    return Ok(Ran::Misses);
                }
            }
            Request::Get { key } => {
                self.key.fill(key)?;
                get(&mut self.store, &self.key, now, reply)?;
            }
            Request::Has { key } => {
                self.key.fill(key)?;
                has(&self.store, &self.key, now, reply)?;
            }
            Request::Del { key } => {
                self.key.fill(key)?;
                del(&mut self.store, &self.key, now, reply)?;
            }
            Request::Clear => clear(&mut self.store, now, reply)?,
            Request::DropIf { prefix } => drop_prefix(&mut self.store, prefix, now, reply)?,
            Request::Keys => keys(&self.store, now, reply)?,
            Request::Sync => sync(&mut self.store, now, reply)?,
            Request::Quit => quit(&self.store, reply)?,
            Request::Fault(error) => fault(&self.store, error, reply)?,
        }
        Ok(Ran::Answered(None))
    }
}

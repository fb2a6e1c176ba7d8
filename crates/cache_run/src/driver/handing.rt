//! Handing out what a connection is given: loads are kept and replies are sent.
ghost use Rattle.std.specs.Prelude.{◌≡◌, ◌≢◌, ◌≤◌, ℕ, [], List, None, IfErr, OnOk, OnErr};
ghost use Rattle.std.specs.Option.{option_map};
ghost use Rattle.cache_run.specs.Devices.Sent.{SentBut};
ghost use Rattle.cache_run.specs.Devices.Watched.{device, failures};
ghost use Rattle.cache_run.specs.Driver.Exchanges.{ComeIntoHand};
ghost use Rattle.cache_run.specs.Driver.Causes.{Because, Fails};
ghost use Rattle.cache_run.specs.Driver.Hosting.{WereSent, footing_by, text_of};

use crate::devices::{RunError, Watched, send};
use crate::driver::host::Given;
use crate::driver::session::{Session, footing_of};
use cache_spaces::Owed;
use std::io::Write;

/// Sends all of a text, and flushes the writer.
fn send_whole<W: Write>(text: &[u8], writer: &mut Watched<W>) -> Result<(), RunError>
    ensures ok { OnOk result
        (SentBut [] text.now (W.contents (device writer.old)) (W.contents (device writer.new))) }
    ensures err { OnErr result ((rest : List ℕ)
        × SentBut rest text.now (W.contents (device writer.old)) (W.contents (device writer.new))) }
    ensures why { IfErr result (Because ⊥ (Fails writer.old writer.new) ⊥ ⊥) }
    ensures count { failures writer.old ≤ failures writer.new }
{
    if text.is_empty() {
        return Ok(());
    }
    send(text, writer)?;
    match writer.flush() {
        Ok(()) => Ok(()),
        Err(_) => Err(RunError::Write),
    }
}

/// Keeps the loads, and sends the replies. Returns `Write` if the writer failed, and `OutOfMemory` if there was not enough memory for the
/// replies, which are then left to be taken.
pub fn hand_out<W: Write>(
    session: &mut Session,
    given: Given,
    writer: &mut Watched<W>,
) -> Result<(), RunError>
    requires empty { given.owed.loads ≢ None → session.old.taken.items ≡ [] }
    ensures keeps { ComeIntoHand (option_map (λ loads. loads.items) given.owed.loads)
        session.old.taken.items session.new.taken.items }
    ensures same { (session.new.conn ≡ session.old.conn) × (session.new.inbox ≡ session.old.inbox) }
    ensures footing { session.new.footing ≡ footing_by given.owed.closing given.owed.waits }
    ensures sent { WereSent result (text_of given) (W.contents (device writer.old))
        (W.contents (device writer.new)) }
    ensures why { IfErr result (Because ⊥ (Fails writer.old writer.new) ⊥ ⊥) }
    ensures count { failures writer.old ≤ failures writer.new }
{
    let Owed {
        replies,
        loads,
        closing,
        waits,
    } = given.owed;
    session.footing = footing_of(closing, waits);
    match loads {
        Some(loads) => session.taken = loads,
        None => {}
    }
    match replies {
        Some(replies) => send_whole(replies.as_slice(), writer),
        None => Err(RunError::OutOfMemory),
    }
}

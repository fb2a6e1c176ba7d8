//! The replies that records hold.
ghost use Rattle.std.specs.Prelude.{◌≡◌, ◌++◌, drop, IfOk, OnErr, OnOk};
ghost use Rattle.std.specs.List.{flat_map};
ghost use Rattle.cache_spaces.specs.Cursors.{lent_replies, Lengthens, replies_for, reply_for};

use audit_model::{Record, Step};
use std::alloc::{AllocError, Global};

/// The replies of a connection in records of its namespace's journal, lent from there.
#[derive(Clone, Copy, Drop)]
pub struct LentReplies<'a> {
    pub(crate) records: &'a [Record],
    pub(crate) number: u64,
}

impl LentReplies<'_> {
    /// Appends a copy of the replies, with their line ends. The call allocates only if there is no room for them. Returns an error if there
    /// is not enough memory; then nothing has changed.
    pub fn copy_to(&self, text: &mut Vec<u8>) -> Result<(), AllocError>
        ensures copied { OnOk result (text.new.items ≡ text.old.items ++ lent_replies self.now) }
        ensures unchanged { OnErr result (text.new.items ≡ text.old.items) }
    {
        let len = text.len();
        let done = add_all(self.records, self.number, text);
        if done.is_err() {
            text.truncate(len);
        }
        done
    }

    /// Returns a copy of the replies, with their line ends. Returns an error if there is no memory for the copy.
    pub fn to_vec(&self, alloc: Global) -> Result<Vec<u8>, AllocError>
        ensures { IfOk result (λ text. text.items ≡ lent_replies self.now) }
    {
        let mut text = Vec::new(alloc);
        self.copy_to(&mut text)?;
        Ok(text)
    }
}

/// Returns the records from this one on, counted from 0.
pub fn records_from(records: &[Record], place: u64) -> &[Record]
    ensures { result.now ≡ drop place records.now }
{
    if place as usize <= records.len() {
        &records[place as usize..]
    } else {
        &[]
    }
}

/// Adds the replies of a connection in these records.
fn add_all(records: &[Record], number: u64, text: &mut Vec<u8>) -> Result<(), AllocError>
    ensures added { OnOk result
        (text.new.items ≡ text.old.items ++ replies_for number records.now) }
    ensures lengthens { Lengthens text.old.items text.new.items }
{
    for entry in records {
        add_replies(entry.steps.as_slice(), number, text)?;
    }
    Ok(())
}

/// Adds the replies of a connection in these steps.
fn add_replies(steps: &[Step], number: u64, text: &mut Vec<u8>) -> Result<(), AllocError>
    ensures added { OnOk result
        (text.new.items ≡ text.old.items ++ flat_map (reply_for number) steps.now) }
    ensures lengthens { Lengthens text.old.items text.new.items }
{
    for step in steps {
        add_reply(step, number, text)?;
    }
    Ok(())
}

/// Adds the reply of a step, if it is that connection's.
fn add_reply(step: &Step, number: u64, text: &mut Vec<u8>) -> Result<(), AllocError>
    ensures added { OnOk result (text.new.items ≡ text.old.items ++ reply_for number step.now) }
    ensures unchanged { OnErr result (text.new.items ≡ text.old.items) }
{
    match &step.reply {
        Some(reply) if step.conn == number => text.extend_from_slice(reply.as_slice()),
        _ => Ok(()),
    }
}

//! A tape that keeps records.
ghost use Rattle.std.specs.Prelude.{◌≡◌, ◌+◌, ◌<◌, ◌≤◌, ◌++◌, ◌∷◌, [], IfOk, OnErr, None, Some, false, length, vec_len, vec_capacity};
ghost use Rattle.std.specs.Option.{option_map};
ghost use Rattle.cache_commands.specs.Loading.{step_silent};
ghost use Rattle.cache_commands.specs.Right.{step_saying};
ghost use Rattle.cache_lines.specs.Tape.Taped.{step_held};

use crate::tape::spare::{Spare, new_spares};
use crate::tape::tape::Tape;
use audit_lines::MAX_LINE;
use audit_model::{Accepted, Event, Instant, Note, Record, Seq, Step, Transcript};
use cache_commands::push_within;
use std::alloc::{AllocError, Global};
use std::marker::Model;
use std::mem;

/// A journal, and the record under way. Contracts see it as `Taped`, without what room there is.
#[derive(Drop)]
pub struct Kept {
    alloc: Global,
    journal: Transcript,
    /// While a record is under way, the records of the journal, with room for one more.
    apart: Option<Vec<Record>>,
    steps: Vec<Step>,
    spares: Vec<Spare>,
    draft: Option<Vec<u8>>,
}

impl Model for Kept {
    ghost use Rattle.std.specs.Prelude.{is_some, vec_len, vec_capacity};
    ghost use Rattle.std.specs.Option.{option_map};
    ghost use Rattle.cache_lines.specs.Tape.Rooms.{HasRecordRoom, journal_in};
    ghost use Rattle.cache_lines.specs.Tape.Taped.{Taped};

    ghost Value = { Taped };

    ghost view = { λ k. record {
      journal = journal_in k.journal k.apart;
      begun = is_some k.apart;
      steps = k.steps.items;
      spare = vec_len k.spares;
      drafted = option_map (λ line. line.items) k.draft;
    } };

    ghost invariant = { λ k. HasRecordRoom k.apart (is_some k.draft) (vec_len k.steps)
        (vec_len k.spares) (vec_capacity k.steps) };
}

impl Kept {
    /// Creates a tape without records, whose journal begins at this moment. The call allocates nothing.
    pub fn new(alloc: Global, made: Instant) -> Kept
        ensures { result ≡ record {
          journal = record { made = made; records = [] };
          begun = false;
          steps = [];
          spare = 0;
          drafted = None;
        } }
    {
        Kept {
            alloc,
            journal: Transcript {
                made,
                records: Seq::new(alloc),
            },
            apart: None,
            steps: Vec::new(alloc),
            spares: Vec::new(alloc),
            draft: None,
        }
    }

    /// Returns the journal, if no record is under way.
    pub fn journal(&self) -> &Transcript
        requires rests { self.now.begun ≡ false }
        ensures { result.now ≡ self.now.journal }
    {
        &self.journal
    }

    /// Returns the journal, if no record is under way, moved out. The call allocates nothing.
    pub fn into_journal(self) -> Transcript
        requires rests { self.begun ≡ false }
        ensures { result ≡ self.journal }
    {
        self.journal
    }
}

impl Tape for Kept {
    ghost view = { λ t. Some t };

    fn keeps(&self) -> bool {
        true
    }

    fn start(&mut self, spare: usize) -> Result<(), AllocError> {
        let spares = new_spares(self.alloc, spare)?;
        self.steps.try_reserve(spare)?;
        let records = take_records(self.alloc, &mut self.journal)?;
        self.apart = Some(records);
        self.spares = spares;
        Ok(())
    }

    fn begin(&mut self, line: &[u8], most: usize) -> Result<Vec<Note>, AllocError> {
        let room = self.spares.len() + 1;
        self.steps.try_reserve(room)?;
        let line = Vec::from_slice(self.alloc, line)?;
        let notes = Vec::with_capacity(self.alloc, most)?;
        self.draft = Some(line);
        Ok(notes)
    }

    fn end(&mut self, conn: u64, accepted: Option<Accepted>, text: &mut Vec<u8>, notes: Vec<Note>) {
        let line = self.draft.take().unwrap();
        let reply = mem::replace(text, Vec::new(self.alloc));
        let step = Step {
            reply: Some(Seq::from_vec(reply)),
            accepted,
            notices: Seq::from_vec(notes),
            ..silent(self.alloc, conn, line)
        };
        push_within(&mut self.steps, step);
    }

    fn wait(&mut self, conn: u64, load: Option<u64>) {
        let line = self.draft.take().unwrap();
        let step = Step {
            load,
            ..silent(self.alloc, conn, line)
        };
        push_within(&mut self.steps, step);
    }

    fn hold(&mut self, conn: u64, line: &[u8]) {
        self.draft = None;
        let line = copy_within(&mut self.spares, line);
        let step = Step {
            held: true,
            ..silent(self.alloc, conn, line)
        };
        push_within(&mut self.steps, step);
    }

    fn say(&mut self, conn: u64, line: &[u8], text: &mut Vec<u8>) {
        self.draft = None;
        let line = copy_within(&mut self.spares, line);
        let reply = mem::replace(text, Vec::new(self.alloc));
        let step = Step {
            reply: Some(Seq::from_vec(reply)),
            ..silent(self.alloc, conn, line)
        };
        push_within(&mut self.steps, step);
    }

    fn abandon(&mut self) {
        if let Some(records) = self.apart.take() {
            self.journal.records = Seq::from_vec(records);
        }
        self.draft = None;
        self.steps = Vec::new(self.alloc);
        self.spares = Vec::new(self.alloc);
    }

    fn finish(&mut self, event: Event, own: Option<Accepted>, notices: Seq<Note>) {
        let steps = mem::replace(&mut self.steps, Vec::new(self.alloc));
        self.draft = None;
        self.spares = Vec::new(self.alloc);
        let mut records = self.apart.take().unwrap();
        let record = Record {
            event,
            own,
            notices,
            steps: Seq::from_vec(steps),
        };
        push_within(&mut records, record);
        self.journal.records = Seq::from_vec(records);
    }
}

/// The records of a journal, moved out, with room for one more. An `Err` leaves it as it was.
fn take_records(alloc: Global, journal: &mut Transcript) -> Result<Vec<Record>, AllocError>
    ensures records { IfOk result (λ records. records.items ≡ journal.old.records) }
    ensures room { IfOk result (λ records. vec_len records < vec_capacity records) }
    ensures made { journal.new.made ≡ journal.old.made }
    ensures unchanged { OnErr result (journal.new ≡ journal.old) }
{
    let mut records = mem::replace(&mut journal.records, Seq::new(alloc)).into_vec();
    match records.try_reserve(1) {
        Ok(()) => Ok(records),
        Err(error) => {
            journal.records = Seq::from_vec(records);
            Err(error)
        }
    }
}

/// A step without a reply.
fn silent(alloc: Global, conn: u64, line: Vec<u8>) -> Step
    ensures { result ≡ step_silent conn line.items None None [] }
{
    Step {
        conn,
        line: Seq::from_vec(line),
        held: false,
        reply: None,
        load: None,
        accepted: None,
        notices: Seq::new(alloc),
    }
}

/// A copy of a line, in room that was made for one.
fn copy_within(spares: &mut Vec<Spare>, line: &[u8]) -> Vec<u8>
    requires some { 0 < vec_len spares.old }
    requires short { length line.now ≤ MAX_LINE }
    ensures copy { result.items ≡ line.now }
    ensures len { vec_len spares.new + 1 ≡ vec_len spares.old }
{
    let Spare { mut bytes, .. } = spares.pop().unwrap();
    bytes.extend_from_slice(line).unwrap();
    bytes
}

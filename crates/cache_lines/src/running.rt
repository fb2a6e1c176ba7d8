//! One line.
ghost use Rattle.std.specs.Prelude.{◌≡◌, ◌≤◌, Ok, length, true, IfOk, OnErr};
ghost use Rattle.audit_lines.specs.Request.{said};
ghost use Rattle.audit_model.specs.declared.command.Command.TheVariants as says;
ghost use Rattle.cache_commands.specs.Loads.Pending.{SameTaken};
ghost use Rattle.cache_commands.specs.Values.{IsMoment};
ghost use Rattle.cache_lines.specs.Bases.{IsClear, LooksSame, seen_on};
ghost use Rattle.cache_lines.specs.Gathered.{spare_in};
ghost use Rattle.cache_lines.specs.Lines.{says_quit};
ghost use Rattle.cache_lines.specs.Outputs.{IsRoomy};
ghost use Rattle.cache_lines.specs.Ran.{RunsAs, begins_to_wait};
ghost use Rattle.cache_lines.specs.Waiting.{is_load};

use crate::base::Base;
use crate::draining::{end_step, most_notes};
use crate::joining::join_load;
use crate::output::ReplyBuffer;
use crate::tape::Tape;
use audit_lines::{Request, read_line};
use cache_commands::{Ran, Store};
use std::alloc::AllocError;

/// What a line did.
#[derive(Clone, Copy, PartialEq, Eq, Drop)]
pub enum LineOutcome {
    /// The line was answered.
    Stays,
    /// The line was answered, and closes its connection.
    Quits,
    /// The line is a `LOAD` of a key that has no live value, and waits.
    Waits,
}

/// Whether a request closes its connection.
fn is_quit(request: &Request) -> bool
    ensures { result ≡ says_quit (said request.now) }
{
    matches!(request, Request::Quit)
}

/// The key of a `LOAD`.
fn key_of<'a>(request: &Request<'a>) -> &'a [u8]
    requires { is_load (said request.now) ≡ true }
    ensures { said request.now ≡ Ok (says.Load result.now) }
{
    let Request::Load { key } = *request else {
        unreachable!();
    };
    key
}

/// Runs a line, at a moment below 2^63 nanoseconds: its reply is appended to the others, or put into its step if a record is made, and so
/// are its notes. A `LOAD` of a key that has no live value begins to wait. Returns an error if there is not enough memory, or a 64-bit
/// number is used up; then nothing that can be seen has changed.
pub fn run_line<S: Store, T: Tape>(
    base: &mut Base<S, T>,
    now: u64,
    number: u64,
    line: &[u8],
    output: &mut ReplyBuffer,
) -> Result<LineOutcome, AllocError>
    requires in_time { IsMoment (S.view base.old.store) now }
    requires short { length line.now ≤ 8192 }
    requires fresh { IsClear (seen_on S.view T.view base.old output.old) }
    ensures runs { IfOk result (λ done. RunsAs now number line.now done
        (seen_on S.view T.view base.old output.old) (seen_on S.view T.view base.new output.new)) }
    ensures waits { IfOk result (λ done. begins_to_wait done ≡ true →
        (base.new.store ≡ base.old.store) × IsRoomy output.new) }
    ensures refused { OnErr result
        (LooksSame S.view T.view base.old base.new output.old output.new) }
    ensures spare { spare_in (T.view base.new.tape) ≡ spare_in (T.view base.old.tape) }
    ensures goes { SameTaken base.old.loads base.new.loads }
{
    let request = read_line(base.store.store().config(), line);
    let quits = is_quit(&request);
    let notes = base.tape.begin(line, most_notes(&base.store))?;
    match base.store.run(request, now, &mut output.text) {
        Ok(Ran::Answered(accepted)) => {
            end_step(
                &mut base.store,
                &mut base.tape,
                number,
                accepted,
                &mut output.text,
                notes,
            );
            base.store.sound();
            if quits {
                Ok(LineOutcome::Quits)
            } else {
                Ok(LineOutcome::Stays)
            }
        }
        Ok(Ran::Misses) => {
            join_load(
                &mut base.loads,
                &mut base.tape,
                number,
                key_of(&request),
                output,
            )?;
            Ok(LineOutcome::Waits)
        }
        Err(_) => Err(AllocError),
    }
}

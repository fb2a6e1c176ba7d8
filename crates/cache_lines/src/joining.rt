//! A `LOAD` that begins to wait.
ghost use Rattle.std.specs.Prelude.{◌≡◌, [], None, IsTrue, OnOk, OnErr, vec_len, vec_capacity};
ghost use Rattle.std.specs.Option.{option_map};
ghost use Rattle.cache_commands.specs.Loading.{step_silent};
ghost use Rattle.cache_commands.specs.Loads.Pending.{SameLoads, SameTaken};
ghost use Rattle.cache_lines.specs.Tape.Taped.{IsDrafted, ends};
ghost use Rattle.cache_lines.specs.Outputs.{IsRoomy};
ghost use Rattle.cache_lines.specs.Waiting.{load_sent_for, under_way, when_waiting};
ghost use Rattle.cache_lines.specs.Whole.{has_room};

use crate::output::ReplyBuffer;
use crate::tape::Tape;
use cache_commands::Loads;
use std::alloc::AllocError;

/// How many bytes `ERR abandoned` and a line feed are.
const ABANDONED: usize = 14;

/// Makes room for the reply to a `LOAD` that is given up for good, also for when the output is taken before.
fn reserve_room(text: &mut Vec<u8>, spare: &mut Vec<u8>) -> Result<(), AllocError>
    ensures room { OnOk result (IsTrue (has_room (vec_len text.new) (vec_capacity text.new)
        (vec_len spare.new) (vec_capacity spare.new))) }
    ensures text { text.new.items ≡ text.old.items }
{
    text.try_reserve(ABANDONED)?;
    if text.is_empty() {
        return Ok(());
    }
    spare.clear();
    spare.try_reserve(ABANDONED)?;
    Ok(())
}

/// Makes a connection wait for the load of a key. The line's step has its room. There is room then for the reply to a load that is given up
/// for good, now and when the output is taken. Returns an error if there is not enough memory; then nothing has changed.
pub fn join_load<T: Tape>(
    loads: &mut Loads,
    tape: &mut T,
    number: u64,
    key: &[u8],
    output: &mut ReplyBuffer,
) -> Result<(), AllocError>
    requires { IsDrafted (T.view tape.old) }
    ensures joined { OnOk result
        (under_way loads.new ≡ when_waiting number key.now (under_way loads.old)) }
    ensures step { OnOk result (T.view tape.new ≡ option_map (ends (λ line. step_silent number line
        (load_sent_for key.now (under_way loads.old)) None [])) (T.view tape.old)) }
    ensures room { OnOk result (IsRoomy output.new) }
    ensures text { output.new.text.items ≡ output.old.text.items }
    ensures same { OnErr result (SameLoads loads.old loads.new × (tape.new ≡ tape.old)) }
    ensures goes { SameTaken loads.old loads.new }
{
    reserve_room(&mut output.text, &mut output.spare)?;
    let alloc = *output.text.allocator();
    let load = loads.wait(alloc, key, number)?;
    tape.wait(number, load);
    Ok(())
}

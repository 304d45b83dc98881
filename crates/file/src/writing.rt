// Writing an output file: a table, and the block of each state of another.
ghost use Rattle.std.specs.Prelude.{◌≡◌, ◌<◌};
ghost use Rattle.columns.specs.Answers.{checked, said_number};
ghost use Rattle.file.specs.Output.{write_refusal, write_file};
ghost use Rattle.table.specs.Lts.{lts_of};

use crate::cores::{output_size, write};
use columns::answers::{Answer, Refusal};
use columns::checks::{check_states, refuse_unless};
use table::Lts;

// What a call with the table, k source states, and a block column and bytes of these lengths refuses.
fn check_write(system: &Lts<'_>, k: usize, blocks: usize, room: usize) -> Result<(), Refusal>
    requires { k < 65536 }
    ensures { checked result ≡ write_refusal (lts_of system.now) k blocks room }
{
    check_states(k)?;
    system.check(k <= blocks)?;
    let needed = output_size(system.table.m as usize, k) as u64;
    refuse_unless(needed <= room as u64, Refusal::NoRoom { needed })
}

// Writes the table, and the blocks of the source states, over the first bytes. Answers how many bytes those are.
pub fn write_file(system: &Lts<'_>, states: u16, blocks: &[u16], bytes: &mut [u8]) -> Answer<u64>
    ensures { (said_number result, bytes.new) ≡ write_file (lts_of system.now) states blocks.now bytes.old }
{
    let k = states as usize;
    if let Err(refusal) = check_write(system, k, blocks.len(), bytes.len()) {
        return Answer::refused(refusal);
    }
    write(system, &blocks[..k], bytes);
    Answer::done(output_size(system.table.m as usize, k) as u64)
}

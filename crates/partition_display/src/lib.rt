// The text of a partition, as `{{2, 3, 0*}, {1}}`: the blocks in order, in each its elements in order, and a star after a
// marked one.
#![tactic(auto)]

pub mod writers;

ghost use Rattle.std.specs.Prelude.{◌≡◌};
ghost use Rattle.columns.specs.Answers.{checked, said_number};
ghost use Rattle.partition_display.specs.Display.{display_refusal, displayed};
ghost use Rattle.partition.specs.Partition.{parts_of};

use crate::writers::write_blocks;
use columns::answers::{Answer, Refusal};
use columns::checks::refuse_unless;
use partition::PartitionColumns;
use partition_calls::BlockPartition;

// 1, 7, 14, or 16 where the text is longer than `room`: the first that is due.
fn check_display(
    n: usize,
    count: usize,
    columns: &PartitionColumns<'_>,
    room: usize,
) -> Result<(), Refusal>
    ensures { checked result ≡ display_refusal (parts_of columns.now n count) room }
{
    columns.check(n, count, true)?;
    // Written where there is no room, the text is only measured.
    let length = write_blocks(count, columns, &mut []);
    let needed = length as u64;
    refuse_unless(length <= room, Refusal::NoRoom { needed })
}

// Writes the text over the first bytes of `text` and answers how many they are.
pub fn display(
    partition: BlockPartition,
    columns: &PartitionColumns<'_>,
    text: &mut [u8],
) -> Answer<u64>
    ensures { (said_number result, text.new) ≡ displayed (parts_of columns.now partition.n partition.count) text.old }
{
    let n = partition.n as usize;
    let count = partition.count as usize;
    if let Err(refusal) = check_display(n, count, columns, text.len()) {
        return Answer::refused(refusal);
    }
    Answer::done(write_blocks(count, columns, text) as u64)
}

// `split_marked` (block_partition.rs): the chosen ones among the marked states of a block become a block of their own.
#![tactic(auto)]

ghost use Rattle.std.specs.Prelude.{◌≡◌};
ghost use Rattle.columns.specs.Answers.{said_number};
ghost use Rattle.partition_split.specs.Split.{split_marked};
ghost use Rattle.partition_calls.specs.Saying.{count_said};
ghost use Rattle.partition.specs.Partition.{parts};

pub mod cores;

use columns::answers::Answer;
use partition::PartitionColumns;
use partition_calls::BlockPartition;

// Splits a block by the choice, a byte for each state: 0 no, others yes. The chosen ones among its marked states become a new last
// block, and both are unmarked; if nothing is chosen, or the whole block is, only the swaps made stay. Answers the block count.
pub fn split_marked(
    partition: BlockPartition,
    elements: &mut [u16],
    element_offset: &mut [u16],
    element_to_block: &mut [u16],
    begin: &mut [u16],
    marked_split: &mut [u16],
    end: &mut [u16],
    block_index: u16,
    choice: &[u8],
) -> Answer<u64>
    ensures { let given = parts elements.old element_offset.old element_to_block.old begin.old marked_split.old end.old partition.n
        partition.count in
        let left = parts elements.new element_offset.new element_to_block.new begin.new marked_split.new end.new partition.n
        (count_said (said_number result) partition.count) in
        (said_number result, left) ≡ split_marked given block_index choice.now }
{
    let n = partition.n as usize;
    let count = partition.count as usize;
    let b = block_index as usize;
    let columns = PartitionColumns {
        elements: &*elements,
        element_offset: &*element_offset,
        element_to_block: &*element_to_block,
        begin: &*begin,
        marked_split: &*marked_split,
        end: &*end,
    };
    if let Err(refusal) = columns.check_argument(n, count, b, count, n <= choice.len()) {
        return Answer::refused(refusal);
    }
    let after = cores::split_marked(
        n,
        count,
        elements,
        element_offset,
        element_to_block,
        begin,
        marked_split,
        end,
        b,
        choice,
    );
    Answer::done(after as u64)
}

// `partition_marked_with` (block_partition.rs): the marked states of a block, divided by number.
#![tactic(auto)]

ghost use Rattle.std.specs.Prelude.{◌≡◌};
ghost use Rattle.partition_division.specs.Division.{said_division, work, partition_marked_with};
ghost use Rattle.partition_calls.specs.Saying.{count_said};
ghost use Rattle.partition.specs.Partition.{parts};

pub mod checks;
pub mod cores;

use crate::checks::check_division;
use columns::answers::Answer;
use columns::cells::clear;
use partition::PartitionColumns;
use partition_calls::BlockPartition;

// What a division says: the old index, and the run of new blocks from `first` to before `count`, the block count now.
#[derive(Clone, Copy, PartialEq, Eq, Debug)]
pub struct Division {
    pub index: u64,
    pub first: u64,
    pub count: u64,
}

// Partitions the marked states of a block by their numbers: each number gets a block, and the largest result the old index.
pub fn partition_marked_with(
    partition: BlockPartition,
    elements: &mut [u16],
    element_offset: &mut [u16],
    element_to_block: &mut [u16],
    begin: &mut [u16],
    marked_split: &mut [u16],
    end: &mut [u16],
    block_index: u16,
    numbers: &[u16],
    old_elements: &mut [u16],
    block_sizes: &mut [u16],
    spare: &mut [u16],
) -> Answer<Division>
    ensures { let given = parts elements.old element_offset.old element_to_block.old begin.old marked_split.old end.old partition.n
        partition.count in
        let left = parts elements.new element_offset.new element_to_block.new begin.new marked_split.new end.new partition.n
        (count_said (said_division result) partition.count) in
        (said_division result, (left, work old_elements.new block_sizes.new spare.new))
        ≡ partition_marked_with given block_index numbers.now (work old_elements.old block_sizes.old spare.old) }
{
    let n = partition.n as usize;
    let count = partition.count as usize;
    let b = block_index as usize;
    let columns = PartitionColumns {
        elements: &*elements,
        element_offset: &*element_offset,
        element_to_block: &*element_to_block,
        begin: &*begin,
        marked_split: &*marked_split,
        end: &*end,
    };
    if let Err(refusal) = check_division(
        n,
        count,
        &columns,
        b,
        numbers,
        old_elements.len(),
        block_sizes.len(),
        spare.len(),
    ) {
        return Answer::refused(refusal);
    }
    clear(old_elements);
    clear(block_sizes);
    clear(spare);
    let c = cores::partition_marked_with(
        n,
        count,
        elements,
        element_offset,
        element_to_block,
        begin,
        marked_split,
        end,
        b,
        numbers,
        old_elements,
        block_sizes,
        spare,
    );
    Answer::done(Division {
        index: b as u64,
        first: count as u64,
        count: c as u64,
    })
}

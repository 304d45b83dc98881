// `swap_blocks` (block_partition.rs) on a partition whose block table is a lent list of block records.
ghost use Rattle.std.specs.Prelude.{◌≡◌, ◌≤◌, take};
ghost use Rattle.columns.specs.Answers.{said};
ghost use Rattle.partition_records.specs.Records.{swap_records};
ghost use Rattle.partition_records.specs.Tables.{swap_numbers, swap_first};
ghost use Rattle.columns.specs.Limits.{max_states};

use crate::records::{apart, at_most, empty_table};
use columns::answers::Answer;
use columns::limits::MAX_STATES;
use partition::block::Block;
use partition_calls::BlockPartition;

// The column form on the fields of a table's first len records.
pub fn swap_table(
    partition: BlockPartition,
    elements: &[u16],
    element_offset: &[u16],
    element_to_block: &mut [u16],
    table: [Block; MAX_STATES],
    len: usize,
    left_index: u16,
    right_index: u16,
) -> Answer<()>
    requires { len ≤ max_states }
    ensures { (said result, element_to_block.new)
        ≡ swap_numbers elements.now element_offset.now element_to_block.old (take len table)
        partition.n partition.count left_index right_index }
{
    let mut begin = [0; MAX_STATES];
    let mut marked_split = [0; MAX_STATES];
    let mut end = [0; MAX_STATES];
    apart(table, &mut begin, &mut marked_split, &mut end);
    partition.swap_blocks(
        elements,
        element_offset,
        element_to_block,
        &mut begin[..len],
        &mut marked_split[..len],
        &mut end[..len],
        left_index,
        right_index,
    )
}

// Exchanges two blocks: their records in the lent list, and the numbers of their states.
pub fn swap_blocks(
    partition: BlockPartition,
    elements: &[u16],
    element_offset: &[u16],
    element_to_block: &mut [u16],
    blocks: &mut [Block],
    left_index: u16,
    right_index: u16,
) -> Answer<()>
    ensures { (said result, (element_to_block.new, blocks.new))
        ≡ swap_records elements.now element_offset.now element_to_block.old blocks.old partition.n partition.count
        left_index right_index }
{
    let m = at_most(blocks.len());
    let mut table = empty_table();
    table[..m].copy_from_slice(&blocks[..m]);
    let answer = swap_table(
        partition,
        elements,
        element_offset,
        element_to_block,
        table,
        m,
        left_index,
        right_index,
    );
    if answer.outcome.is_ok() {
        blocks.swap(left_index as usize, right_index as usize);
    }
    answer
}

// What `swap_blocks` answers, and the table that it leaves.
#[derive(Clone, Copy, PartialEq, Eq, Debug)]
pub struct SwappedTable {
    pub answer: Answer<()>,
    pub table: [Block; MAX_STATES],
}

// `swap_blocks` for callers that hold the records by value: on the first len of a table.
pub fn swap_here(
    partition: BlockPartition,
    elements: &[u16],
    element_offset: &[u16],
    element_to_block: &mut [u16],
    mut table: [Block; MAX_STATES],
    len: usize,
    left_index: u16,
    right_index: u16,
) -> SwappedTable
    requires { len ≤ max_states }
    ensures { (said result.answer, (element_to_block.new, result.table))
        ≡ swap_first elements.now element_offset.now element_to_block.old table len
        partition.n partition.count left_index right_index }
{
    let answer = swap_blocks(
        partition,
        elements,
        element_offset,
        element_to_block,
        &mut table[..len],
        left_index,
        right_index,
    );
    SwappedTable { answer, table }
}

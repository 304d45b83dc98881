// `mark_backward_closure` (block_partition.rs): the marks of a block closed under incoming hidden steps within the block. The one
// operation of a partition that reads a table.
#![tactic(auto)]

ghost use Rattle.std.specs.Prelude.{◌≡◌};
ghost use Rattle.columns.specs.Answers.{said};
ghost use Rattle.table_closure.specs.Closure.{mark_backward_closure};
ghost use Rattle.partition.specs.Partition.{parts};
ghost use Rattle.table.specs.Lts.{lts_of};

pub mod cores;
pub mod inner;

use columns::answers::Answer;
use columns::cells::clear;
use partition::PartitionColumns;
use table::Lts;
use table_partition::check_argument;

// From end - 1 down, incoming hidden sources in the same block are marked, until nothing is unmarked or the marked stretch is read.
pub fn mark_backward_closure(
    system: &Lts<'_>,
    count: u16,
    elements: &mut [u16],
    element_offset: &mut [u16],
    element_to_block: &[u16],
    begin: &[u16],
    marked_split: &mut [u16],
    end: &[u16],
    block_index: u16,
    order: &mut [u16],
    spare: &mut [u16],
) -> Answer<()>
    ensures { let t = lts_of system.now in
        let given = parts elements.old element_offset.old element_to_block.now begin.now marked_split.old end.now t.n count in
        let left = parts elements.new element_offset.new element_to_block.now begin.now marked_split.new end.now t.n count in
        (said result, (left, (order.new, spare.new))) ≡ mark_backward_closure t given block_index order.old spare.old }
{
    let k = count as usize;
    let b = block_index as usize;
    let room = system.table.works_long(&[order.len(), spare.len()]);
    let columns = PartitionColumns {
        elements: &*elements,
        element_offset: &*element_offset,
        element_to_block,
        begin,
        marked_split: &*marked_split,
        end,
    };
    if let Err(refusal) = check_argument(system, k, &columns, b, k, room) {
        return Answer::refused(refusal);
    }
    clear(order);
    clear(spare);
    cores::mark_backward_closure(
        system,
        k,
        elements,
        element_offset,
        element_to_block,
        begin,
        marked_split,
        end,
        b,
        order,
        spare,
    );
    Answer::done(())
}

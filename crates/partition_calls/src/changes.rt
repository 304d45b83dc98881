// The calls that change a partition.
ghost use Rattle.std.specs.Prelude.{◌≡◌};
ghost use Rattle.columns.specs.Answers.{said};
ghost use Rattle.partition_calls.specs.Saying.{said_partition};
ghost use Rattle.partition.specs.Fresh.{new_partition};
ghost use Rattle.partition.specs.Mark.{mark_element};
ghost use Rattle.partition.specs.SwapBlocks.{swap_blocks};
ghost use Rattle.partition.specs.Partition.{parts};

use crate::BlockPartition;
use columns::answers::Answer;
use partition::{PartitionColumns, cores};

impl BlockPartition {
    // One block 0 of all n states, in order, all marked.
    pub fn new(
        n: u16,
        elements: &mut [u16],
        element_offset: &mut [u16],
        element_to_block: &mut [u16],
        begin: &mut [u16],
        marked_split: &mut [u16],
        end: &mut [u16],
    ) -> Answer<BlockPartition>
        ensures { let given = parts elements.old element_offset.old element_to_block.old begin.old marked_split.old end.old n 1 in
            let left = parts elements.new element_offset.new element_to_block.new begin.new marked_split.new end.new n 1 in
            (said_partition result, left) ≡ new_partition given }
    {
        let columns = PartitionColumns {
            elements: &*elements,
            element_offset: &*element_offset,
            element_to_block: &*element_to_block,
            begin: &*begin,
            marked_split: &*marked_split,
            end: &*end,
        };
        if let Err(refusal) = columns.check_size(n as usize, true) {
            return Answer::refused(refusal);
        }
        cores::new(
            n as usize,
            elements,
            element_offset,
            element_to_block,
            begin,
            marked_split,
            end,
        );
        Answer::done(BlockPartition { n, count: 1 })
    }

    // Marks a state: it swaps places with the last unmarked one of its block. A marked one: no change.
    pub fn mark_element(
        self,
        elements: &mut [u16],
        element_offset: &mut [u16],
        element_to_block: &[u16],
        begin: &[u16],
        marked_split: &mut [u16],
        end: &[u16],
        element: u16,
    ) -> Answer<()>
        ensures { let given = parts elements.old element_offset.old element_to_block.now begin.now marked_split.old end.now self.n
            self.count in
            let left = parts elements.new element_offset.new element_to_block.now begin.now marked_split.new end.now self.n self.count in
            (said result, left) ≡ mark_element given element }
    {
        let n = self.n as usize;
        let s = element as usize;
        let columns = PartitionColumns {
            elements: &*elements,
            element_offset: &*element_offset,
            element_to_block,
            begin,
            marked_split: &*marked_split,
            end,
        };
        if let Err(refusal) = columns.check_argument(n, self.count as usize, s, n, true) {
            return Answer::refused(refusal);
        }
        cores::mark_element(elements, element_offset, element_to_block, marked_split, s);
        Answer::done(())
    }

    // Exchanges two blocks: their table entries, and the numbers of their states.
    pub fn swap_blocks(
        self,
        elements: &[u16],
        element_offset: &[u16],
        element_to_block: &mut [u16],
        begin: &mut [u16],
        marked_split: &mut [u16],
        end: &mut [u16],
        left_index: u16,
        right_index: u16,
    ) -> Answer<()>
        ensures { let given = parts elements.now element_offset.now element_to_block.old begin.old marked_split.old end.old self.n
            self.count in
            let left = parts elements.now element_offset.now element_to_block.new begin.new marked_split.new end.new self.n self.count in
            (said result, left) ≡ swap_blocks given left_index right_index }
    {
        let l = left_index as usize;
        let r = right_index as usize;
        let columns = PartitionColumns {
            elements,
            element_offset,
            element_to_block: &*element_to_block,
            begin: &*begin,
            marked_split: &*marked_split,
            end: &*end,
        };
        if let Err(refusal) = columns.check_blocks(self.n as usize, self.count as usize, l, r) {
            return Answer::refused(refusal);
        }
        cores::swap_blocks(elements, element_to_block, begin, marked_split, end, l, r);
        Answer::done(())
    }
}

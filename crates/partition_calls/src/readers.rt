// The calls that read a partition and change nothing.
ghost use Rattle.std.specs.Prelude.{◌≡◌};
ghost use Rattle.columns.specs.Answers.{checked, said, said_number, said_flag};
ghost use Rattle.partition.specs.Block.{said_block};
ghost use Rattle.partition.specs.Checks.{block_refusal};
ghost use Rattle.partition.specs.Readers.{num_of_blocks, len_of, block_number, is_element_marked, read_block, iter_block, iter_begin, iter_block_refusal};
ghost use Rattle.partition.specs.Lent.{BeginsAt};
ghost use Rattle.partition.specs.Partition.{parts, parts_of};

use crate::BlockPartition;
use columns::answers::{Answer, Refusal};
use columns::cells::at;
use partition::block::Block;
use partition::{PartitionColumns, cores};

impl BlockPartition {
    // The number of blocks.
    pub fn num_of_blocks(self, columns: &PartitionColumns<'_>) -> Answer<u64>
        ensures { said_number result ≡ num_of_blocks (parts_of columns.now self.n self.count) }
    {
        if let Err(refusal) = columns.check(self.n as usize, self.count as usize, true) {
            return Answer::refused(refusal);
        }
        Answer::done(self.count as u64)
    }

    // The number of states.
    pub fn len(self, columns: &PartitionColumns<'_>) -> Answer<u64>
        ensures { said_number result ≡ len_of (parts_of columns.now self.n self.count) }
    {
        if let Err(refusal) = columns.check(self.n as usize, self.count as usize, true) {
            return Answer::refused(refusal);
        }
        Answer::done(self.n as u64)
    }

    // The block of a state.
    pub fn block_number(self, columns: &PartitionColumns<'_>, element: u16) -> Answer<u64>
        ensures { said_number result ≡ block_number (parts_of columns.now self.n self.count) element }
    {
        let n = self.n as usize;
        let s = element as usize;
        if let Err(refusal) = columns.check_argument(n, self.count as usize, s, n, true) {
            return Answer::refused(refusal);
        }
        Answer::done(columns.element_to_block[s] as u64)
    }

    // Whether a state is marked.
    pub fn is_element_marked(self, columns: &PartitionColumns<'_>, element: u16) -> Answer<bool>
        ensures { said_flag result ≡ is_element_marked (parts_of columns.now self.n self.count) element }
    {
        let n = self.n as usize;
        let s = element as usize;
        if let Err(refusal) = columns.check_argument(n, self.count as usize, s, n, true) {
            return Answer::refused(refusal);
        }
        let b = at(columns.element_to_block, s);
        Answer::done(at(columns.marked_split, b) <= at(columns.element_offset, s))
    }

    // What a call with a block refuses.
    fn check_block(self, columns: &PartitionColumns<'_>, b: usize) -> Result<(), Refusal>
        ensures { checked result ≡ block_refusal (parts_of columns.now self.n self.count) b }
    {
        let count = self.count as usize;
        columns.check_argument(self.n as usize, count, b, count, true)
    }

    // One block of the table.
    pub fn read_block(self, columns: &PartitionColumns<'_>, block_index: u16) -> Answer<Block>
        ensures { said_block result ≡ read_block (parts_of columns.now self.n self.count) block_index }
    {
        let b = block_index as usize;
        if let Err(refusal) = self.check_block(columns, b) {
            return Answer::refused(refusal);
        }
        Answer::done(cores::read_block(columns.begin, columns.marked_split, columns.end, b))
    }

    // The block's stretch of the lent elements, and the empty part at their beginning where the call is refused.
    pub fn iter_block<'a>(
        self,
        elements: &'a [u16],
        element_offset: &[u16],
        element_to_block: &[u16],
        begin: &[u16],
        marked_split: &[u16],
        end: &[u16],
        block_index: u16,
    ) -> &'a [u16]
        ensures result_value { let given = parts elements.now element_offset.now element_to_block.now begin.now marked_split.now end.now
            self.n self.count in
            result.now ≡ iter_block given block_index }
        ensures fact { let given = parts elements.now element_offset.now element_to_block.now begin.now marked_split.now end.now self.n
            self.count in
            BeginsAt result elements.entry (iter_begin given block_index) }
    {
        let b = block_index as usize;
        let columns = PartitionColumns {
            elements,
            element_offset,
            element_to_block,
            begin,
            marked_split,
            end,
        };
        if self.check_block(&columns, b).is_err() {
            return &elements[0..0];
        }
        &elements[at(begin, b)..at(end, b)]
    }

    // What `iter_block` on the same arguments refuses, if it does.
    pub fn iter_block_refusal(self, columns: &PartitionColumns<'_>, block_index: u16) -> Answer<()>
        ensures { said result ≡ iter_block_refusal (parts_of columns.now self.n self.count) block_index }
    {
        Answer {
            outcome: self.check_block(columns, block_index as usize),
        }
    }
}

// `unmark_all` (block_partition.rs): one block record, lent by `&mut`, that changes where it lies.
ghost use Rattle.std.specs.Prelude.{◌≡◌};
ghost use Rattle.columns.specs.Answers.{said};
ghost use Rattle.partition_records.specs.Unmark.{unmark_all};

use columns::answers::{Answer, Refusal};
use columns::limits::MAX_STATES;
use partition::block::Block;
use partition::checks::within;

// The block changes where it lies: marked_split becomes end, and the other fields are kept. A broken block is 14.
#[tactic(auto, unfolding(crate::specs::Unmark::unmark_all))]
pub fn unmark_all(block: &mut Block) -> Answer<()>
    ensures { (said result, block.new) ≡ unmark_all block.old }
{
    if !within(
        block.begin as usize,
        block.marked_split as usize,
        block.end as usize,
        MAX_STATES,
    ) {
        return Answer::refused(Refusal::Inconsistent);
    }
    block.marked_split = block.end;
    Answer::done(())
}

// A block by value after the call, with what the call answers.
#[derive(Clone, Copy, PartialEq, Eq, Debug)]
pub struct Unmarked {
    pub block: Block,
    pub answer: Answer<()>,
}

// `unmark_all` for callers that hold the block by value.
pub fn unmark_here(mut block: Block) -> Unmarked
    ensures { (said result.answer, result.block) ≡ unmark_all block }
{
    let answer = unmark_all(&mut block);
    Unmarked { block, answer }
}

// Answers as numbers.
ghost use Rattle.std.specs.Prelude.{◌≡◌, [], ◌∷◌, take};
ghost use Rattle.columns.specs.Answers.{done as done_with, said_coded};
ghost use Rattle.columns.specs.Counting.{bit};
ghost use Rattle.replay_lines.specs.Told.{told, told_by};
ghost use Rattle.partition.specs.Block.{block_values};
ghost use Rattle.partition_calls.specs.Saying.{partition_values};

use columns::answers::{Answer, Coded, Refusal};
use partition::block::Block;
use partition_calls::BlockPartition;

// What is done, as the first `count` of these numbers.
#[derive(Clone, Copy)]
pub struct Numbers {
    pub count: usize,
    pub numbers: [u64; 8],
}

// What an answer says: the numbers of what is done, or what is refused.
pub type Said<R = Refusal> = Result<Numbers, R>;

// What is done, with the first `count` of these numbers; what is refused would be an `R`.
pub fn done_or<R: Coded>(count: usize, numbers: [u64; 8]) -> Said<R>
    ensures { told_by R.code result ≡ done_with (take count numbers) }
{
    Ok(Numbers { count, numbers })
}

// The same, with the first `count` of three numbers.
fn three_or<R: Coded>(count: usize, a: u64, b: u64, c: u64) -> Said<R>
    ensures { told_by R.code result ≡ done_with (take count (a ∷ b ∷ c ∷ 0 ∷ 0 ∷ 0 ∷ 0 ∷ 0 ∷ [])) }
{
    done_or(count, [a, b, c, 0, 0, 0, 0, 0])
}

// What is done, with the first `count` of these numbers.
pub fn done_with(count: usize, numbers: [u64; 8]) -> Said
    ensures { told result ≡ done_with (take count numbers) }
{
    done_or(count, numbers)
}

// What is done, with the first `count` of three numbers.
pub fn done(count: usize, a: u64, b: u64, c: u64) -> Said
    ensures { told result ≡ done_with (take count (a ∷ b ∷ c ∷ 0 ∷ 0 ∷ 0 ∷ 0 ∷ 0 ∷ [])) }
{
    done_with(count, [a, b, c, 0, 0, 0, 0, 0])
}

pub fn plain<R: Coded>(answer: Answer<(), R>) -> Said<R>
    ensures { told_by R.code result ≡ said_coded R.code (λ _. []) answer.outcome }
{
    answer.outcome?;
    three_or(0, 0, 0, 0)
}

pub fn number<R: Coded>(answer: Answer<u64, R>) -> Said<R>
    ensures { told_by R.code result ≡ said_coded R.code (λ value. value ∷ []) answer.outcome }
{
    let value = answer.outcome?;
    three_or(1, value, 0, 0)
}

pub fn flag<R: Coded>(answer: Answer<bool, R>) -> Said<R>
    ensures { told_by R.code result ≡ said_coded R.code (λ value. bit value ∷ []) answer.outcome }
{
    let value = answer.outcome?;
    three_or(1, value as u64, 0, 0)
}

pub fn block<R: Coded>(answer: Answer<Block, R>) -> Said<R>
    ensures { told_by R.code result ≡ said_coded R.code block_values answer.outcome }
{
    let block = answer.outcome?;
    three_or(
        3,
        block.begin as u64,
        block.marked_split as u64,
        block.end as u64,
    )
}

pub fn partition<R: Coded>(answer: Answer<BlockPartition, R>) -> Said<R>
    ensures { told_by R.code result ≡ said_coded R.code partition_values answer.outcome }
{
    let partition = answer.outcome?;
    three_or(2, partition.n as u64, partition.count as u64, 0)
}

// The answer of `reduce_file` as numbers.
ghost use Rattle.std.specs.Prelude.{◌≡◌};
ghost use Rattle.file_reduction.specs.Answers.{file_values};
ghost use Rattle.columns.specs.Answers.{said_coded};
ghost use Rattle.replay_lines.specs.Told.{told_by};

use columns::answers::{Answer, Coded};
use file_reduction::answers::Written;
use replay_lines::answers::{Said, done_or};

// The bytes written; states, labels and rows of the source; blocks and rows of the result; the rounds that split something.
pub fn reduced<R: Coded>(answer: Answer<Written, R>) -> Said<R>
    ensures { told_by R.code result ≡ said_coded R.code file_values answer.outcome }
{
    let done = answer.outcome?;
    done_or(
        7,
        [
            done.bytes,
            done.states,
            done.labels,
            done.rows,
            done.blocks,
            done.reduced_rows,
            done.rounds,
            0,
        ],
    )
}

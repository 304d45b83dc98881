// Whether one signature is in another, and 15 for lists of pairs.
#![tactic(auto)]

pub mod checks;
pub mod cores;
pub mod lists;
pub mod pairs;

ghost use Rattle.std.specs.Prelude.{◌≡◌};
ghost use Rattle.columns.specs.Answers.{said_flag};
ghost use Rattle.pairs.specs.Subset.{is_subset_of};

use crate::checks::check_subset;
use crate::cores::subset;
use columns::answers::Answer;

// Whether every pair of other, apart from (label, block), is in self. Each list lies in two columns and ends with the
// shorter of them.
pub fn is_subset_of(
    self_labels: &[u16],
    self_blocks: &[u16],
    other_labels: &[u16],
    other_blocks: &[u16],
    label: u16,
    block: u16,
) -> Answer<bool>
    ensures { said_flag result ≡ is_subset_of self_labels.now self_blocks.now other_labels.now other_blocks.now (label, block) }
{
    if let Err(refusal) = check_subset(self_labels, self_blocks, other_labels, other_blocks) {
        return Answer::refused(refusal);
    }
    let found = subset(
        self_labels,
        self_blocks,
        other_labels,
        other_blocks,
        label,
        block,
    );
    Answer::done(found)
}

// 15 for the lists of pairs that a call is lent.
ghost use Rattle.std.specs.Prelude.{◌≡◌, [], ◌∷◌};
ghost use Rattle.columns.specs.Answers.{checked};
ghost use Rattle.columns.specs.Due.{due};
ghost use Rattle.pairs.specs.Pairs.{list_test};
ghost use Rattle.pairs.specs.Subset.{subset_refusal};

use crate::pairs::{first_bad, shorter};
use columns::answers::Refusal;
use columns::checks::refuse_unless;

// 15 at the first pair that is not above the one before.
fn check_list(labels: &[u16], blocks: &[u16]) -> Result<(), Refusal>
    ensures { checked result ≡ due (list_test labels.now blocks.now ∷ []) }
{
    let end = shorter(labels.len(), blocks.len());
    let bad = first_bad(labels, blocks, 0, end);
    let index = bad as u64;
    refuse_unless(end <= bad, Refusal::WrongList { index })
}

// 15, for self first.
pub fn check_subset(
    self_labels: &[u16],
    self_blocks: &[u16],
    other_labels: &[u16],
    other_blocks: &[u16],
) -> Result<(), Refusal>
    ensures { checked result ≡ subset_refusal self_labels.now self_blocks.now other_labels.now other_blocks.now }
{
    check_list(self_labels, self_blocks)?;
    check_list(other_labels, other_blocks)
}

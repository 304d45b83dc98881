// The tests that calls share: each answers nothing, or the refusal that is due. No entry points: what the checks of every layer are
// made of.
ghost use Rattle.std.specs.Prelude.{◌≡◌, [], ◌∷◌};
ghost use Rattle.columns.specs.Answers.{checked, checked_by};
ghost use Rattle.columns.specs.Due.{due, all_long, states_test, labels_test, index_test};

use crate::answers::{Coded, Refusal};
use crate::limits::{MAX_LABELS, MAX_STATES};

// Whether slices of these lengths have this many cells each.
pub fn long(cells: usize, lengths: &[usize]) -> bool
    ensures { result ≡ all_long cells lengths.now }
{
    lengths.iter().all(|&length| cells <= length)
}

// This refusal, unless a test holds.
pub fn refuse_unless<R: Coded>(holds: bool, refusal: R) -> Result<(), R>
    ensures { checked_by R.code result ≡ due ((holds, R.code refusal) ∷ []) }
{
    if holds { Ok(()) } else { Err(refusal) }
}

// 1 for a number of states outside its range.
pub fn check_states(n: usize) -> Result<(), Refusal>
    ensures { checked result ≡ due (states_test n ∷ []) }
{
    refuse_unless(1 <= n && n <= MAX_STATES, Refusal::WrongStates)
}

// 2 for a number of labels outside its range.
pub fn check_labels(labels: usize) -> Result<(), Refusal>
    ensures { checked result ≡ due (labels_test labels ∷ []) }
{
    refuse_unless(1 <= labels && labels <= MAX_LABELS, Refusal::WrongLabels)
}

// 8 for an index that is not below its bound.
pub fn check_index(i: usize, bound: usize) -> Result<(), Refusal>
    ensures { checked result ≡ due (index_test i bound ∷ []) }
{
    let argument = i as u64;
    refuse_unless(i < bound, Refusal::OutOfRange { argument })
}

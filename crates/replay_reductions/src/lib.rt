#![tactic(auto)]

// A call for each operation that makes a table, or components, of a table, and changes eight slices or more: so many that a call holds
// them in arrays of its own. It fills these with what the case has, lends them, and writes the answer and each slice at return.
pub mod answers;
pub mod components;
pub mod cycles;
pub mod quotients;
pub mod redundant;
pub mod strong;

use crate::components::components;
use crate::cycles::cycles;
use crate::quotients::{block, naive};
use crate::redundant::redundant;
use crate::strong::strong;
use replay_calls::operations::{Numbered, Operation};
use replay_lines::output::Sink;
use replay_slots::case::Case;

// The answer to a case, and what may have changed, at return.
pub fn reducing(
    operation: impl Numbered,
    case: Case,
    cells: &[u16],
    out: &mut Sink,
    used: usize,
) -> usize {
    match operation.which() {
        Operation::QuotientLtsNaive => naive(case, cells, out, used),
        Operation::QuotientLtsBlock => block(case, cells, out, used),
        Operation::RemoveRedundantTransitions => redundant(case, cells, out, used),
        Operation::TauSccDecomposition => components(case, cells, out, used),
        Operation::TauCycleEliminationAndReorder => cycles(case, cells, out, used),
        _ => strong(case, cells, out, used),
    }
}

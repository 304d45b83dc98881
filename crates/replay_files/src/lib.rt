#![tactic(auto)]

// A call for each operation on files. It holds what it changes in arrays of its own: it fills these with what the case has, lends them,
// and writes the answer and each slice at return.
pub mod answers;
pub mod reading;
pub mod reducing;
pub mod writing;

use crate::reading::read;
use crate::reducing::reduce;
use crate::writing::write;
use replay_calls::operations::{Numbered, Operation};
use replay_lines::output::Sink;
use replay_slots::case::Case;

// The answer to a case, and what may have changed, at return.
pub fn filing(
    operation: impl Numbered,
    case: Case,
    cells: &[u16],
    bytes: &[u8],
    out: &mut Sink,
    used: usize,
) -> usize {
    match operation.which() {
        Operation::ReadFile => read(case, cells, bytes, out, used),
        Operation::WriteFile => write(case, cells, bytes, out, used),
        _ => reduce(case, bytes, out, used),
    }
}

// The operations on numbers alone: a block given by value, and tau_hat.
use crate::headers::block as given;
use crate::operations::{Numbered, Operation};
use partition::block::Block;
use replay_lines::answers::{Said, block, flag, number};
use replay_slots::case::Case;
use signatures::tau_hat::{is_tau_hat, tau_hat};

pub fn of_numbers(operation: impl Numbered, case: Case) -> Said {
    match operation.which() {
        Operation::BlockNew => block(Block::new(case.number(0), case.number(1))),
        Operation::BlockNewUnmarked => block(Block::new_unmarked(case.number(0), case.number(1))),
        Operation::BlockLen => number(given(case).len()),
        Operation::BlockLenMarked => number(given(case).len_marked()),
        Operation::BlockHasMarked => flag(given(case).has_marked()),
        Operation::BlockHasUnmarked => flag(given(case).has_unmarked()),
        Operation::TauHat => number(tau_hat(case.number(0))),
        _ => flag(is_tau_hat(case.number(1), case.number(0))),
    }
}

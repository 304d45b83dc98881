// The operations that read a partition.
ghost use Rattle.spelling.specs.Counts.{IsPrefixLen};

use crate::headers::{partition, six_columns};
use crate::operations::{Numbered, Operation};
use partition_display::display;
use replay_lines::answers::{Said, block, flag, number, plain};
use replay_slots::case::Case;

pub fn of_partition(operation: impl Numbered, case: Case, cells: &[u16]) -> Said {
    let p = partition(case);
    let columns = six_columns(case, cells, 0);
    let x = case.number(2);
    match operation.which() {
        Operation::BlockNumber => number(p.block_number(&columns, x)),
        Operation::IsElementMarked => flag(p.is_element_marked(&columns, x)),
        Operation::ReadBlock => block(p.read_block(&columns, x)),
        Operation::NumOfBlocks => number(p.num_of_blocks(&columns)),
        Operation::Len => number(p.len(&columns)),
        _ => plain(p.iter_block_refusal(&columns, x)),
    }
}

// The part that `iter_block` answers.
pub fn part_of(case: Case, cells: &[u16]) -> &[u16] {
    let columns = six_columns(case, cells, 0);
    partition(case).iter_block(
        columns.elements,
        columns.element_offset,
        columns.element_to_block,
        columns.begin,
        columns.marked_split,
        columns.end,
        case.number(2),
    )
}

fn displayed(case: Case, cells: &[u16], text: &mut [u8]) -> Said {
    number(display(partition(case), &six_columns(case, cells, 0), text))
}

// What `display` answers, with as much of the text as is filled.
pub fn text_of(case: Case, cells: &[u16], letters: usize, text: &mut [u8]) -> Said
    requires { IsPrefixLen letters text.old }
{
    displayed(case, cells, &mut text[..letters])
}

// The operations that change two or three slices of u16.
ghost use Rattle.spelling.specs.Counts.{IsPrefixLen};

use crate::headers::{partition, system};
use crate::operations::{Numbered, Operation};
use replay_lines::answers::{Said, number, plain};
use replay_slots::case::{Case, column};
use replay_slots::slots::Filled;
use table_order::sort_topological;

fn called(
    operation: Operation,
    case: Case,
    cells: &[u16],
    a: &mut [u16],
    b: &mut [u16],
    c: &mut [u16],
) -> Said {
    let system = system(case, cells);
    let hidden = case.flag(4);
    match operation {
        Operation::MarkElement => {
            let element_to_block = column(cells, case, 0);
            let begin = column(cells, case, 1);
            let end = column(cells, case, 2);
            let elements = a;
            let element_offset = b;
            let marked_split = c;
            plain(partition(case).mark_element(
                elements,
                element_offset,
                element_to_block,
                begin,
                marked_split,
                end,
                case.number(2),
            ))
        }
        Operation::Incoming => {
            let rows = a;
            let spare = b;
            number(system.incoming(rows, spare))
        }
        Operation::Reachable => {
            let start = case.number(5);
            let reached = a;
            let queue = b;
            number(system.reachable(hidden, start, reached, queue))
        }
        _ => {
            let reversed = case.flag(5);
            let places = a;
            let marks = b;
            let stack = c;
            plain(sort_topological(&system, hidden, reversed, places, marks, stack))
        }
    }
}

// The call, with as much of each slot as is filled.
pub fn few(
    operation: impl Numbered,
    case: Case,
    cells: &[u16],
    to: Filled,
    a: &mut [u16],
    b: &mut [u16],
    c: &mut [u16],
) -> Said
    requires { IsPrefixLen to.a a.old × IsPrefixLen to.b b.old × IsPrefixLen to.c c.old }
{
    called(
        operation.which(),
        case,
        cells,
        &mut a[..to.a],
        &mut b[..to.b],
        &mut c[..to.c],
    )
}

// The operations that change four to six slices of u16 and write no signature.
ghost use Rattle.spelling.specs.Counts.{IsPrefixLen};

use crate::headers::{partition, system};
use crate::operations::{Numbered, Operation};
use partition_calls::BlockPartition;
use partition_split::split_marked;
use replay_lines::answers::{Said, number, partition as made, plain};
use replay_slots::case::{Case, column};
use replay_slots::slots::Filled;
use table_closure::mark_backward_closure;

fn called(
    operation: Operation,
    case: Case,
    cells: &[u16],
    bytes: &[u8],
    a: &mut [u16],
    b: &mut [u16],
    c: &mut [u16],
    d: &mut [u16],
    e: &mut [u16],
    f: &mut [u16],
) -> Said {
    let p = partition(case);
    match operation {
        Operation::BlockPartitionNew => {
            let elements = a;
            let element_offset = b;
            let element_to_block = c;
            let begin = d;
            let marked_split = e;
            let end = f;
            made(BlockPartition::new(
                p.n,
                elements,
                element_offset,
                element_to_block,
                begin,
                marked_split,
                end,
            ))
        }
        Operation::SwapBlocks => {
            let elements = column(cells, case, 0);
            let element_offset = column(cells, case, 1);
            let element_to_block = a;
            let begin = b;
            let marked_split = c;
            let end = d;
            plain(p.swap_blocks(
                elements,
                element_offset,
                element_to_block,
                begin,
                marked_split,
                end,
                case.number(2),
                case.number(3),
            ))
        }
        Operation::MarkBackwardClosure => {
            let element_to_block = column(cells, case, 3);
            let begin = column(cells, case, 4);
            let end = column(cells, case, 5);
            let count = case.number(4);
            let elements = a;
            let element_offset = b;
            let marked_split = c;
            let order = d;
            let spare = e;
            plain(mark_backward_closure(
                &system(case, cells),
                count,
                elements,
                element_offset,
                element_to_block,
                begin,
                marked_split,
                end,
                case.number(5),
                order,
                spare,
            ))
        }
        _ => {
            let choice = column(bytes, case, 0);
            let elements = a;
            let element_offset = b;
            let element_to_block = c;
            let begin = d;
            let marked_split = e;
            let end = f;
            number(split_marked(
                p,
                elements,
                element_offset,
                element_to_block,
                begin,
                marked_split,
                end,
                case.number(2),
                choice,
            ))
        }
    }
}

// The call, with as much of each slot as is filled.
pub fn six(
    operation: impl Numbered,
    case: Case,
    cells: &[u16],
    bytes: &[u8],
    to: Filled,
    a: &mut [u16],
    b: &mut [u16],
    c: &mut [u16],
    d: &mut [u16],
    e: &mut [u16],
    f: &mut [u16],
) -> Said
    requires prefix_len { IsPrefixLen to.a a.old × IsPrefixLen to.b b.old × IsPrefixLen to.c c.old }
    requires prefix_len_2 { IsPrefixLen to.d d.old × IsPrefixLen to.e e.old × IsPrefixLen to.f f.old }
{
    called(
        operation.which(),
        case,
        cells,
        bytes,
        &mut a[..to.a],
        &mut b[..to.b],
        &mut c[..to.c],
        &mut d[..to.d],
        &mut e[..to.e],
        &mut f[..to.f],
    )
}

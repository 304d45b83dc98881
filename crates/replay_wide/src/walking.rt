// The branching signature, and the one that takes given lists.
ghost use Rattle.spelling.specs.Counts.{IsPrefixLen};

use replay_calls::headers::{six_columns, system};
use replay_calls::operations::{Numbered, Operation};
use replay_lines::answers::{Said, number};
use replay_slots::case::{Case, column};
use replay_slots::slots::Filled;
use signatures_branching::branching_bisim_signature;
use signatures_sorted::branching_bisim_signature_sorted;

fn called(
    operation: Operation,
    case: Case,
    cells: &[u16],
    lists: &[u32],
    a: &mut [u16],
    b: &mut [u16],
    c: &mut [u16],
    d: &mut [u16],
    e: &mut [u16],
    f: &mut [u16],
    g: &mut [u16],
    h: &mut [u16],
    i: &mut [u16],
) -> Said {
    let system = system(case, cells);
    let columns = six_columns(case, cells, 3);
    let count = case.number(4);
    let state = case.number(5);
    match operation {
        Operation::BranchingBisimSignature => {
            let labels = a;
            let blocks = b;
            let pushed_labels = c;
            let pushed_blocks = d;
            let order = e;
            let spare = f;
            let marks = g;
            let queue = h;
            number(branching_bisim_signature(
                &system,
                count,
                &columns,
                state,
                labels,
                blocks,
                pushed_labels,
                pushed_blocks,
                order,
                spare,
                marks,
                queue,
            ))
        }
        _ => {
            let starts = column(lists, case, 9);
            let given_labels = column(cells, case, 10);
            let given_blocks = column(cells, case, 11);
            let labels = a;
            let blocks = b;
            let own_labels = c;
            let own_blocks = d;
            let high = e;
            let low = f;
            let end_high = g;
            let end_low = h;
            let tree = i;
            number(branching_bisim_signature_sorted(
                &system,
                count,
                &columns,
                state,
                starts,
                given_labels,
                given_blocks,
                labels,
                blocks,
                own_labels,
                own_blocks,
                high,
                low,
                end_high,
                end_low,
                tree,
            ))
        }
    }
}

// The call, with as much of each slot as is filled.
pub fn walking(
    operation: impl Numbered,
    case: Case,
    cells: &[u16],
    lists: &[u32],
    to: Filled,
    a: &mut [u16],
    b: &mut [u16],
    c: &mut [u16],
    d: &mut [u16],
    e: &mut [u16],
    f: &mut [u16],
    g: &mut [u16],
    h: &mut [u16],
    i: &mut [u16],
) -> Said
    requires prefix_len { IsPrefixLen to.a a.old × IsPrefixLen to.b b.old × IsPrefixLen to.c c.old }
    requires prefix_len_2 { IsPrefixLen to.d d.old × IsPrefixLen to.e e.old × IsPrefixLen to.f f.old }
    requires prefix_len_3 { IsPrefixLen to.g g.old × IsPrefixLen to.h h.old × IsPrefixLen to.i i.old }
{
    called(
        operation.which(),
        case,
        cells,
        lists,
        &mut a[..to.a],
        &mut b[..to.b],
        &mut c[..to.c],
        &mut d[..to.d],
        &mut e[..to.e],
        &mut f[..to.f],
        &mut g[..to.g],
        &mut h[..to.h],
        &mut i[..to.i],
    )
}

// The signatures of a state's own steps, strong and inductive.
ghost use Rattle.spelling.specs.Counts.{IsPrefixLen};

use replay_calls::headers::{six_columns, system};
use replay_calls::operations::{Numbered, Operation};
use replay_lines::answers::{Said, number};
use replay_slots::case::{Case, column};
use replay_slots::slots::Filled;
use signatures::inductive::branching_bisim_signature_inductive;
use signatures::strong::strong_bisim_signature;

fn called(
    operation: Operation,
    case: Case,
    cells: &[u16],
    labels: &mut [u16],
    blocks: &mut [u16],
    pushed_labels: &mut [u16],
    pushed_blocks: &mut [u16],
    order: &mut [u16],
    spare: &mut [u16],
) -> Said {
    let system = system(case, cells);
    let columns = six_columns(case, cells, 3);
    let count = case.number(4);
    let state = case.number(5);
    match operation {
        Operation::StrongBisimSignature => number(strong_bisim_signature(
            &system,
            count,
            &columns,
            state,
            labels,
            blocks,
            pushed_labels,
            pushed_blocks,
            order,
            spare,
        )),
        _ => {
            let state_to_key = column(cells, case, 9);
            number(branching_bisim_signature_inductive(
                &system,
                count,
                &columns,
                state,
                state_to_key,
                labels,
                blocks,
                pushed_labels,
                pushed_blocks,
                order,
                spare,
            ))
        }
    }
}

// The call, with as much of each slot as is filled.
pub fn signing(
    operation: impl Numbered,
    case: Case,
    cells: &[u16],
    to: Filled,
    a: &mut [u16],
    b: &mut [u16],
    c: &mut [u16],
    d: &mut [u16],
    e: &mut [u16],
    f: &mut [u16],
) -> Said
    requires prefix_len { IsPrefixLen to.a a.old × IsPrefixLen to.b b.old × IsPrefixLen to.c c.old }
    requires prefix_len_2 { IsPrefixLen to.d d.old × IsPrefixLen to.e e.old × IsPrefixLen to.f f.old }
{
    called(
        operation.which(),
        case,
        cells,
        &mut a[..to.a],
        &mut b[..to.b],
        &mut c[..to.c],
        &mut d[..to.d],
        &mut e[..to.e],
        &mut f[..to.f],
    )
}

// The branching signature (signatures.rs): over states reached by hidden steps that stay in the state's block, all visible steps, and
// hidden steps into other blocks.
#![tactic(auto)]

ghost use Rattle.std.specs.Prelude.{◌≡◌, [], ◌∷◌};
ghost use Rattle.signatures_branching.specs.Branching.{branching_bisim_signature};
ghost use Rattle.columns.specs.Answers.{said_number};
ghost use Rattle.partition.specs.Partition.{parts_of};
ghost use Rattle.table.specs.Lts.{lts_of};

pub mod cores;

use columns::answers::Answer;
use columns::cells::clear;
use partition::PartitionColumns;
use signatures::flat::sign;
use table::Lts;
use table_partition::check_argument;

// Over states reached by hidden steps that stay in the state's block, (a, block of t) for each visible step and each hidden step into
// another block. Work: the pairs pushed, two columns for the sort, and a mark for each state and a queue for the search.
pub fn branching_bisim_signature(
    system: &Lts<'_>,
    count: u16,
    columns: &PartitionColumns<'_>,
    state: u16,
    labels: &mut [u16],
    blocks: &mut [u16],
    pushed_labels: &mut [u16],
    pushed_blocks: &mut [u16],
    order: &mut [u16],
    spare: &mut [u16],
    marks: &mut [u16],
    queue: &mut [u16],
) -> Answer<u64>
    ensures { let given = parts_of columns.now system.now.table.n count in
        let work = pushed_labels.old ∷ pushed_blocks.old ∷ order.old ∷ spare.old ∷ marks.old ∷ queue.old ∷ [] in
        let work_left = pushed_labels.new ∷ pushed_blocks.new ∷ order.new ∷ spare.new ∷ marks.new ∷ queue.new ∷ [] in
        (said_number result, ((labels.new, blocks.new), work_left))
        ≡ branching_bisim_signature (lts_of system.now) given state (labels.old, blocks.old) work }
{
    let n = system.table.n as usize;
    let s = state as usize;
    let room = system.table.works_long(&[
        pushed_labels.len(),
        pushed_blocks.len(),
        order.len(),
        spare.len(),
        marks.len(),
        queue.len(),
    ]);
    if let Err(refusal) = check_argument(system, count as usize, columns, s, n, room) {
        return Answer::refused(refusal);
    }
    clear(&mut *marks);
    clear(&mut *queue);
    let d = cores::push_branching(
        system,
        columns.element_to_block,
        s,
        &mut *pushed_labels,
        &mut *pushed_blocks,
        &mut marks[..n],
        &mut *queue,
    );
    sign(
        labels,
        blocks,
        pushed_labels,
        pushed_blocks,
        d,
        order,
        spare,
    )
}

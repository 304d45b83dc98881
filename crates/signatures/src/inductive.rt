// The inductive branching signature.
ghost use Rattle.std.specs.Prelude.{◌≡◌, [], ◌∷◌};
ghost use Rattle.columns.specs.Answers.{said_number};
ghost use Rattle.signatures.specs.Inductive.{branching_bisim_signature_inductive};
ghost use Rattle.partition.specs.Partition.{parts_of};
ghost use Rattle.table.specs.Lts.{lts_of};

use crate::cores::push_inductive;
use crate::flat::sign;
use columns::answers::Answer;
use partition::PartitionColumns;
use table::Lts;
use table_partition::check_argument;

// (tau_hat, key of t) for each hidden step of a state to a marked state of its block, and (a, block of t) for each other step; tau_hat is
// the number of labels. Work: the pairs pushed, and two columns for the sort.
pub fn branching_bisim_signature_inductive(
    system: &Lts<'_>,
    count: u16,
    columns: &PartitionColumns<'_>,
    state: u16,
    state_to_key: &[u16],
    labels: &mut [u16],
    blocks: &mut [u16],
    pushed_labels: &mut [u16],
    pushed_blocks: &mut [u16],
    order: &mut [u16],
    spare: &mut [u16],
) -> Answer<u64>
    ensures { let given = parts_of columns.now system.now.table.n count in
        let work = pushed_labels.old ∷ pushed_blocks.old ∷ order.old ∷ spare.old ∷ [] in
        let work_left = pushed_labels.new ∷ pushed_blocks.new ∷ order.new ∷ spare.new ∷ [] in
        (said_number result, ((labels.new, blocks.new), work_left))
        ≡ branching_bisim_signature_inductive (lts_of system.now) given state state_to_key.now (labels.old, blocks.old) work }
{
    let n = system.table.n as usize;
    let s = state as usize;
    let room = system.table.works_long(&[
        pushed_labels.len(),
        pushed_blocks.len(),
        order.len(),
        spare.len(),
    ]);
    let keys = n <= state_to_key.len();
    if let Err(refusal) = check_argument(system, count as usize, columns, s, n, keys & room) {
        return Answer::refused(refusal);
    }
    let d = push_inductive(
        system,
        columns,
        s,
        state_to_key,
        &mut *pushed_labels,
        &mut *pushed_blocks,
    );
    sign(
        labels,
        blocks,
        pushed_labels,
        pushed_blocks,
        d,
        order,
        spare,
    )
}

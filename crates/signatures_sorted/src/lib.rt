// The sorted branching signature (signatures.rs): the state's own steps; for a hidden step within the block, the target's given list is
// taken.
#![tactic(auto)]

ghost use Rattle.std.specs.Prelude.{◌≡◌, [], ◌∷◌};
ghost use Rattle.columns.specs.Answers.{said_number};
ghost use Rattle.signatures_sorted.specs.Sorted.{flat, branching_bisim_signature_sorted};
ghost use Rattle.partition.specs.Partition.{parts_of};
ghost use Rattle.table.specs.Lts.{lts_of};

pub mod checks;
pub mod cores;
pub mod opening;

use crate::checks::check_sorted;
use columns::answers::Answer;
use columns::cells::clear;
use partition::PartitionColumns;
use table::Lts;

// (a, block of t) for each step of a state that is visible or leads to another block, and for each hidden step within the block the
// given list of its target. List u of the given ones is the pairs from start u to before start u + 1. Work: the own pairs, the place
// and the end of each list that is taken, and the tournament by which they are merged.
pub fn branching_bisim_signature_sorted(
    system: &Lts<'_>,
    count: u16,
    columns: &PartitionColumns<'_>,
    state: u16,
    starts: &[u32],
    given_labels: &[u16],
    given_blocks: &[u16],
    labels: &mut [u16],
    blocks: &mut [u16],
    own_labels: &mut [u16],
    own_blocks: &mut [u16],
    high: &mut [u16],
    low: &mut [u16],
    end_high: &mut [u16],
    end_low: &mut [u16],
    tree: &mut [u16],
) -> Answer<u64>
    ensures { let given = parts_of columns.now system.now.table.n count in
        let work = own_labels.old ∷ own_blocks.old ∷ high.old ∷ low.old ∷ end_high.old ∷ end_low.old ∷ tree.old ∷ [] in
        let work_left = own_labels.new ∷ own_blocks.new ∷ high.new ∷ low.new ∷ end_high.new ∷ end_low.new ∷ tree.new ∷ [] in
        (said_number result, ((labels.new, blocks.new), work_left))
        ≡ branching_bisim_signature_sorted (lts_of system.now) given state (flat starts.now given_labels.now given_blocks.now)
        (labels.old, blocks.old) work }
{
    let n = system.table.n as usize;
    let s = state as usize;
    let room = system.table.works_long(&[
        own_labels.len(),
        own_blocks.len(),
        high.len(),
        low.len(),
        end_high.len(),
        end_low.len(),
        tree.len(),
    ]);
    let lists = n + 1 <= starts.len();
    if let Err(refusal) = check_sorted(
        system,
        count as usize,
        columns,
        s,
        starts,
        given_labels,
        given_blocks,
        lists & room,
    ) {
        return Answer::refused(refusal);
    }
    clear(&mut *own_labels);
    clear(&mut *own_blocks);
    clear(&mut *high);
    clear(&mut *low);
    clear(&mut *end_high);
    clear(&mut *end_low);
    clear(&mut *tree);
    cores::branching_bisim_signature_sorted(
        system,
        columns.element_to_block,
        s,
        starts,
        given_labels,
        given_blocks,
        labels,
        blocks,
        own_labels,
        own_blocks,
        high,
        low,
        end_high,
        end_low,
        tree,
    )
}

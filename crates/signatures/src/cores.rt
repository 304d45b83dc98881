// What the strong and the inductive signature push, on columns that are checked already. No entry points: each says what it requires. The
// pairs pushed go over the first cells of two columns, the cells behind stay as they are, and the number of pairs is returned.
ghost use Rattle.std.specs.Prelude.{◌≡◌, ℕ, ◌<◌, ◌≤◌, length, if◌then◌else◌, slice_index, slice_index_or};
ghost use Rattle.columns.specs.Rows.{pairs_of};
ghost use Rattle.signatures.specs.Inductive.{marked_by, inductive_pushed};
ghost use Rattle.signatures.specs.Strong.{strong_pushed};
ghost use Rattle.table.specs.Lts.{Valid, lts_of};

use columns::cells::at;
use partition::PartitionColumns;
use table::Lts;
use table::cores::{hidden_in, rows_of};

// (label, block of target) for each row of a state.
pub fn push_strong(
    system: &Lts<'_>,
    element_to_block: &[u16],
    state: usize,
    pushed_labels: &mut [u16],
    pushed_blocks: &mut [u16],
) -> usize
    requires valid { Valid (lts_of system.now) × (state < system.now.table.n) × (system.now.table.n ≤ length element_to_block.now) }
    requires m_in_bounds { (system.now.table.m ≤ length pushed_labels.old) × (system.now.table.m ≤ length pushed_blocks.old) }
    ensures { (pairs_of result pushed_labels.new pushed_blocks.new ≡ strong_pushed (lts_of system.now) element_to_block.now state)
        × (result ≤ system.now.table.m)
        × ((k : ℕ) → result ≤ k → (slice_index pushed_labels.new k ≡ slice_index pushed_labels.old k)
        × (slice_index pushed_blocks.new k ≡ slice_index pushed_blocks.old k)) }
{
    let rows = rows_of(system.source, system.table.m as usize, state);
    let mut d = 0;
    for i in rows.first..rows.end {
        let u = at(system.target, i);
        pushed_labels[d] = system.label[i];
        pushed_blocks[d] = element_to_block[u];
        d += 1;
    }
    d
}

// Whether state u is marked.
fn marked(columns: &PartitionColumns<'_>, u: usize) -> bool
    requires { (u < length columns.now.element_offset.now) × (u < length columns.now.element_to_block.now)
        × (slice_index_or columns.now.element_to_block.now u 0 < length columns.now.marked_split.now) }
    ensures { result ≡ marked_by columns.now.element_offset.now columns.now.element_to_block.now columns.now.marked_split.now u }
{
    let split = at(columns.marked_split, at(columns.element_to_block, u));
    split <= at(columns.element_offset, u)
}

// x if `first`, else y.
fn either(first: bool, x: u16, y: u16) -> u16
    ensures { result ≡ (if first then x else y) }
{
    if first { x } else { y }
}

// (tau_hat, key of target) for each hidden row of a state to a marked state of its block, and (label, block of target) for each other
// row.
pub fn push_inductive(
    system: &Lts<'_>,
    columns: &PartitionColumns<'_>,
    state: usize,
    state_to_key: &[u16],
    pushed_labels: &mut [u16],
    pushed_blocks: &mut [u16],
) -> usize
    requires valid { Valid (lts_of system.now) × (state < system.now.table.n) × (system.now.table.n ≤ length state_to_key.now) }
    requires n_in_bounds { (system.now.table.n ≤ length columns.now.element_offset.now)
        × (system.now.table.n ≤ length columns.now.element_to_block.now) }
    requires by_index { (u : ℕ) → u < system.now.table.n
        → slice_index_or columns.now.element_to_block.now u 0 < length columns.now.marked_split.now }
    requires m_in_bounds { (system.now.table.m ≤ length pushed_labels.old) × (system.now.table.m ≤ length pushed_blocks.old) }
    ensures { let marked = marked_by columns.now.element_offset.now columns.now.element_to_block.now columns.now.marked_split.now in
        (pairs_of result pushed_labels.new pushed_blocks.new
        ≡ inductive_pushed (lts_of system.now) columns.now.element_to_block.now marked state_to_key.now state)
        × (result ≤ system.now.table.m)
        × ((k : ℕ) → result ≤ k → (slice_index pushed_labels.new k ≡ slice_index pushed_labels.old k)
        × (slice_index pushed_blocks.new k ≡ slice_index pushed_blocks.old k)) }
{
    let tau_hat = system.table.labels;
    let b = at(columns.element_to_block, state);
    let rows = rows_of(system.source, system.table.m as usize, state);
    let mut d = 0;
    for i in rows.first..rows.end {
        let u = at(system.target, i);
        let stays = hidden_in(system.label, system.target, columns.element_to_block, b, i);
        let key = stays & marked(columns, u);
        pushed_labels[d] = either(key, tau_hat, system.label[i]);
        pushed_blocks[d] = either(key, state_to_key[u], columns.element_to_block[u]);
        d += 1;
    }
    d
}

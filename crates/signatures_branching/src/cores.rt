// What the branching signature pushes, on columns that are checked already. No entry points: each says what it requires.
ghost use Rattle.std.specs.Prelude.{◌≡◌, ℕ, ◌+◌, ◌<◌, ◌≤◌, ◌⊎◌, ◌++◌, length, slice_index};
ghost use Rattle.signatures_branching.specs.Branching.{outer_pairs, branching_pushed, branching_signature};
ghost use Rattle.signatures_branching.specs.Visiting.{Visits};
ghost use Rattle.columns.specs.Rows.{pairs_of};
ghost use Rattle.signatures.specs.Pairs.{signature};
ghost use Rattle.table.specs.Lts.{Valid, lts_of};
ghost use Rattle.columns.specs.Lent.{Clear, Cleared};

use columns::cells::{at, clear};
use table::Lts;
use table::cores::{append, hidden_in, rows_of};

// The pairs of the rows of x that are visible or lead to another block than b, behind the first d pairs. Returns the number of pairs
// then.
pub fn push_outer(
    system: &Lts<'_>,
    element_to_block: &[u16],
    b: usize,
    x: usize,
    pushed_labels: &mut [u16],
    pushed_blocks: &mut [u16],
    d: usize,
) -> usize
    requires valid { Valid (lts_of system.now) × (x < system.now.table.n) × (system.now.table.n ≤ length element_to_block.now) }
    requires fact { let pairs = outer_pairs (lts_of system.now) element_to_block.now b x in
        (d + length pairs ≤ length pushed_labels.old) × (d + length pairs ≤ length pushed_blocks.old) × (d + length pairs ≤ 65536) }
    ensures pushed_blocks_value { pairs_of result pushed_labels.new pushed_blocks.new ≡ pairs_of d pushed_labels.old pushed_blocks.old
        ++ outer_pairs (lts_of system.now) element_to_block.now b x }
    ensures by_index { (k : ℕ) → result ≤ k → (slice_index pushed_labels.new k ≡ slice_index pushed_labels.old k)
        × (slice_index pushed_blocks.new k ≡ slice_index pushed_blocks.old k) }
{
    let rows = rows_of(system.source, system.table.m as usize, x);
    let mut k = d;
    for i in rows.first..rows.end {
        if !hidden_in(system.label, system.target, element_to_block, b, i) {
            let u = at(system.target, i);
            pushed_labels[k] = system.label[i];
            pushed_blocks[k] = element_to_block[u];
            k += 1;
        }
    }
    k
}

// How far a search has come: how many states stand in the queue, and how many pairs are pushed.
#[derive(Clone, Copy)]
struct Reached {
    tail: usize,
    pairs: usize,
}

// The rows of the state at `head` of the queue: the target of a hidden row into block b is marked and appended, if it is new; the pair
// of any other row is pushed behind the first d pairs.
fn visit(
    system: &Lts<'_>,
    element_to_block: &[u16],
    b: usize,
    pushed_labels: &mut [u16],
    pushed_blocks: &mut [u16],
    d: usize,
    marks: &mut [u16],
    queue: &mut [u16],
    head: usize,
    tail: usize,
) -> Reached
    requires valid { Valid (lts_of system.now) × (system.now.table.n ≤ length element_to_block.now) × (head < tail) }
    requires m_in_bounds { (system.now.table.m ≤ length pushed_labels.old) × (system.now.table.m ≤ length pushed_blocks.old) }
    requires fact { Visits (lts_of system.now) element_to_block.now b (slice_index queue.old 0) marks.old queue.old head tail
        pushed_labels.old pushed_blocks.old d }
    ensures { Visits (lts_of system.now) element_to_block.now b (slice_index queue.old 0) marks.new queue.new (head + 1) result.tail
        pushed_labels.new pushed_blocks.new result.pairs }
{
    let x = at(&*queue, head);
    let rows = rows_of(system.source, system.table.m as usize, x);
    let mut high = tail;
    let mut k = d;
    for i in rows.first..rows.end {
        let u = at(system.target, i);
        let stays = hidden_in(system.label, system.target, element_to_block, b, i);
        if stays {
            high = append(u, &mut *marks, &mut *queue, high);
        } else {
            pushed_labels[k] = system.label[i];
            pushed_blocks[k] = element_to_block[u];
            k += 1;
        }
    }
    Reached {
        tail: high,
        pairs: k,
    }
}

// Marks the states that a state reaches by hidden rows that stay in its block, lists them in the queue, and pushes the pairs of their
// other rows, state by state.
fn reach(
    system: &Lts<'_>,
    element_to_block: &[u16],
    state: usize,
    pushed_labels: &mut [u16],
    pushed_blocks: &mut [u16],
    marks: &mut [u16],
    queue: &mut [u16],
) -> Reached
    requires valid { Valid (lts_of system.now) × (state < system.now.table.n) × (system.now.table.n ≤ length element_to_block.now) }
    requires m_in_bounds { (system.now.table.m ≤ length pushed_labels.old) × (system.now.table.m ≤ length pushed_blocks.old) }
    requires marks_len { (length marks.old ≡ system.now.table.n) × (system.now.table.n ≤ length queue.old) × Clear marks.old × Clear queue.old }
    ensures { Visits (lts_of system.now) element_to_block.now (slice_index element_to_block.now state) state marks.new queue.new result.tail
        result.tail pushed_labels.new pushed_blocks.new result.pairs }
{
    let b = at(element_to_block, state);
    marks[state] = 1;
    queue[0] = state as u16;
    let mut head = 0;
    let mut tail = 1;
    let mut d = 0;
    while head < tail {
        let reached = visit(
            system,
            element_to_block,
            b,
            &mut *pushed_labels,
            &mut *pushed_blocks,
            d,
            &mut *marks,
            &mut *queue,
            head,
            tail,
        );
        tail = reached.tail;
        d = reached.pairs;
        head += 1;
    }
    Reached { tail, pairs: d }
}

// The marks of the first states of the queue, which are all there are, become zero.
fn unmark(marks: &mut [u16], queue: &[u16], tail: usize)
    requires tail_in_bounds { (tail ≤ length queue.now) × ((j : ℕ) → j < tail → slice_index queue.now j < length marks.old) }
    requires by_index { (u : ℕ) → (slice_index marks.old u ≡ 0) ⊎ ((j : ℕ) × (j < tail) × (slice_index queue.now j ≡ u)) }
    ensures { Cleared marks.old marks.new }
{
    for &u in &queue[..tail] {
        marks[u as usize] = 0;
    }
}

// What the branching signature of a state pushes, in the order of the search: as many pairs as the definition's, and the same ones.
// `marks` has a cell for each state; every cell of `marks` and `queue` is zero, and zero then.
pub fn push_branching(
    system: &Lts<'_>,
    element_to_block: &[u16],
    state: usize,
    pushed_labels: &mut [u16],
    pushed_blocks: &mut [u16],
    marks: &mut [u16],
    queue: &mut [u16],
) -> usize
    requires valid { Valid (lts_of system.now) × (state < system.now.table.n) × (system.now.table.n ≤ length element_to_block.now) }
    requires m_in_bounds { (system.now.table.m ≤ length pushed_labels.old) × (system.now.table.m ≤ length pushed_blocks.old) }
    requires marks_len { (length marks.old ≡ system.now.table.n) × (system.now.table.n ≤ length queue.old) × Clear marks.old × Clear queue.old }
    ensures fact { (result ≡ length (branching_pushed (lts_of system.now) element_to_block.now state))
        × (signature (pairs_of result pushed_labels.new pushed_blocks.new) ≡ branching_signature (lts_of system.now) element_to_block.now state)
        × (result ≤ system.now.table.m) }
    ensures cleared { Cleared marks.old marks.new × Cleared queue.old queue.new }
{
    let reached = reach(
        system,
        element_to_block,
        state,
        pushed_labels,
        pushed_blocks,
        &mut *marks,
        &mut *queue,
    );
    let tail = reached.tail;
    unmark(&mut *marks, &*queue, tail);
    clear(&mut queue[..tail]);
    reached.pairs
}

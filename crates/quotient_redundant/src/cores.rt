// What is done once a table is checked. No entry points: each says what it requires.
ghost use Rattle.std.specs.Prelude.{◌≡◌, ◌+◌, ◌-◌, ◌*◌, ◌<◌, ◌≤◌, true, length, take, slice_index};
ghost use Rattle.columns.specs.Counting.{many, members};
ghost use Rattle.columns.specs.Lent.{Cleared};
ghost use Rattle.quotient_redundant.specs.Redundant.{rival, witness, redundant, remains, remaining_rows};
ghost use Rattle.table.specs.Lts.{Valid, lts_of};
ghost use Rattle.table.specs.Marks.{marks_from, marks_into};
ghost use Rattle.table.specs.Stretch.{StartsOf};
ghost use Rattle.table.specs.Tables.{Three, rows_over};
ghost use Rattle.table.specs.Turned.{TurnedWithStarts};

use columns::cells::{at, clear};
use columns::sorting::Keys;
use table::Lts;

// Whether row j is another row than i, has its label, and is no hidden self-loop.
fn rivals(system: &Lts<'_>, i: usize, j: usize) -> bool
    requires { (j < length system.now.source.now) × (i < length system.now.label.now) × (j < length system.now.label.now)
        × (j < length system.now.target.now) }
    ensures { result ≡ rival system.now.source.now system.now.label.now system.now.target.now i j }
{
    let a = at(system.label, j);
    let alike = a == at(system.label, i);
    let still = (a == 0) & (at(system.source, j) == at(system.target, j));
    (j != i) & (alike & !still)
}

// Whether row j is a witness that row i can go. `forward` marks what the source of row i reaches by hidden steps, `backward` what
// reaches its target.
fn is_witness(system: &Lts<'_>, forward: &[u16], backward: &[u16], i: usize, j: usize) -> bool
    requires valid { Valid (lts_of system.now) × (i < system.now.table.m) × (j < system.now.table.m) }
    requires forward_value { forward.now ≡ marks_from (lts_of system.now) (slice_index system.now.source.now i) }
    requires backward_value { backward.now ≡ marks_into (lts_of system.now) (slice_index system.now.target.now i) }
    ensures { result ≡ witness (lts_of system.now) i j }
{
    let s = at(system.source, j);
    let u = at(system.target, j);
    rivals(system, i, j) && at(forward, s) != 0 && at(backward, u) != 0
}

// Whether row i can go, by the same marks.
fn is_redundant_transition(system: &Lts<'_>, forward: &[u16], backward: &[u16], i: usize) -> bool
    requires valid { Valid (lts_of system.now) × (i < system.now.table.m) }
    requires forward_value { forward.now ≡ marks_from (lts_of system.now) (slice_index system.now.source.now i) }
    requires backward_value { backward.now ≡ marks_into (lts_of system.now) (slice_index system.now.target.now i) }
    ensures { result ≡ redundant (lts_of system.now) i }
{
    let m = system.table.m as usize;
    (0..m).any(|j| is_witness(system, forward, backward, i, j))
}

// Whether row i has the source of the row before.
fn same_source(source: &[u16], i: usize) -> bool
    requires { i < length source.now }
    ensures { result ≡ true → (0 < i) × (slice_index source.now (i - 1) ≡ slice_index source.now i) }
{
    i != 0 && at(source, i - 1) == at(source, i)
}

// Marks what the source of row i reaches by hidden steps. The marks stay as they are where the row before has the same source.
fn mark_from(system: &Lts<'_>, starts: &[u16], i: usize, forward: &mut [u16], queue: &mut [u16])
    requires valid { Valid (lts_of system.now) × (i < system.now.table.m) × StartsOf system.now.source.now system.now.table.m starts.now }
    requires forward_len { (length forward.old ≡ system.now.table.n) × (system.now.table.n ≤ length queue.old) }
    requires forward_value { 0 < i → forward.old ≡ marks_from (lts_of system.now) (slice_index system.now.source.now (i - 1)) }
    ensures { forward.new ≡ marks_from (lts_of system.now) (slice_index system.now.source.now i) }
{
    if !same_source(system.source, i) {
        let s = at(system.source, i);
        system.reach(starts, true, s, forward, queue);
    }
}

// Whether row i can go, by the rows and the rows turned round, with where the rows of each state begin. `forward` marks what the source of
// the row before reaches by hidden steps, and what that of row i reaches then.
fn row_goes(
    system: &Lts<'_>,
    back: &Lts<'_>,
    i: usize,
    forward: &mut [u16],
    backward: &mut [u16],
    queue: &mut [u16],
) -> bool
    requires i_lt_m { i < system.now.table.m }
    requires turned_with_starts { TurnedWithStarts (lts_of system.now) (lts_of back.now) }
    requires forward_len { (length forward.old ≡ system.now.table.n) × (length backward.old ≡ system.now.table.n)
        × (system.now.table.n ≤ length queue.old) }
    requires forward_value { 0 < i → forward.old ≡ marks_from (lts_of system.now) (slice_index system.now.source.now (i - 1)) }
    ensures value { result ≡ redundant (lts_of system.now) i }
    ensures forward_value_2 { forward.new ≡ marks_from (lts_of system.now) (slice_index system.now.source.now i) }
{
    let m = system.table.m as usize;
    mark_from(system, &back.target[m..], i, &mut *forward, &mut *queue);
    let u = at(system.target, i);
    back.reach_back(&back.label[m..], true, u, &mut *backward, queue);
    is_redundant_transition(system, &*forward, &*backward, i)
}

// The numbers of the rows that stay, ascending, over the first cells of `order`. Returns how many.
fn list_remaining(
    system: &Lts<'_>,
    back: &Lts<'_>,
    order: &mut [u16],
    forward: &mut [u16],
    backward: &mut [u16],
    queue: &mut [u16],
) -> usize
    requires turned_with_starts { TurnedWithStarts (lts_of system.now) (lts_of back.now) }
    requires m_in_bounds { (system.now.table.m ≤ length order.old) × (length forward.old ≡ system.now.table.n) }
    requires backward_len { (length backward.old ≡ system.now.table.n) × (system.now.table.n ≤ length queue.old) }
    ensures order_value { take result order.new ≡ members system.now.table.m (remains (lts_of system.now)) }
    ensures value { result ≡ many system.now.table.m (remains (lts_of system.now)) }
{
    let m = system.table.m as usize;
    let mut k = 0;
    for i in 0..m {
        if !row_goes(system, back, i, forward, backward, queue) {
            order[k] = i as u16;
            k += 1;
        }
    }
    k
}

// The same, by the rows alone: the three columns named `back` take the rows turned round.
fn find_remaining(
    system: &Lts<'_>,
    order: &mut [u16],
    back_source: &mut [u16],
    back_label: &mut [u16],
    back_target: &mut [u16],
    forward: &mut [u16],
    backward: &mut [u16],
    queue: &mut [u16],
) -> usize
    requires valid { Valid (lts_of system.now) × (system.now.table.m ≤ length order.old) }
    requires m_in_bounds { (system.now.table.m ≤ length back_source.old) × (system.now.table.m ≤ length back_label.old) }
    requires m_in_bounds_2 { (system.now.table.m ≤ length back_target.old) × (system.now.table.n ≤ length forward.old)
        × (system.now.table.n ≤ length backward.old) }
    requires n_in_bounds { (system.now.table.n ≤ length queue.old) × (system.now.table.m ≤ 2 * length queue.old + 1) }
    ensures order_value { take result order.new ≡ members system.now.table.m (remains (lts_of system.now)) }
    ensures value { result ≡ many system.now.table.m (remains (lts_of system.now)) }
{
    let n = system.table.n as usize;
    let table = system.turn_rows(
        &mut *back_source,
        &mut *back_label,
        &mut *back_target,
        &mut *order,
        &mut *queue,
    );
    let back = Lts {
        table,
        source: &*back_source,
        label: &*back_label,
        target: &*back_target,
    };
    list_remaining(
        system,
        &back,
        order,
        &mut forward[..n],
        &mut backward[..n],
        queue,
    )
}

// The rows that stay, in their order, over the first cells of the result columns. Returns how many. The seven work slices may hold
// anything, and are zero then.
pub fn remove_redundant_transitions(
    system: &Lts<'_>,
    result_source: &mut [u16],
    result_label: &mut [u16],
    result_target: &mut [u16],
    order: &mut [u16],
    back_source: &mut [u16],
    back_label: &mut [u16],
    back_target: &mut [u16],
    forward: &mut [u16],
    backward: &mut [u16],
    queue: &mut [u16],
) -> usize
    requires valid { Valid (lts_of system.now) }
    requires m_in_bounds { (system.now.table.m ≤ length result_source.old) × (system.now.table.m ≤ length result_label.old)
        × (system.now.table.m ≤ length result_target.old) }
    requires m_in_bounds_2 { (system.now.table.m ≤ length order.old) × (system.now.table.m ≤ length back_source.old) }
    requires m_in_bounds_3 { (system.now.table.m ≤ length back_label.old) × (system.now.table.m ≤ length back_target.old) }
    requires n_in_bounds { (system.now.table.n ≤ length forward.old) × (system.now.table.n ≤ length backward.old) }
    requires n_in_bounds_2 { (system.now.table.n ≤ length queue.old) × (system.now.table.m ≤ 2 * length queue.old + 1) }
    ensures value { result ≡ length (remaining_rows (lts_of system.now)) }
    ensures out_left_value { let out : Three = (result_source.old, (result_label.old, result_target.old)) in
        let out_left : Three = (result_source.new, (result_label.new, result_target.new)) in
        out_left ≡ rows_over (remaining_rows (lts_of system.now)) out }
    ensures cleared { Cleared order.old order.new × Cleared back_source.old back_source.new × Cleared back_label.old back_label.new ×
        Cleared back_target.old back_target.new }
    ensures cleared_2 { Cleared forward.old forward.new × Cleared backward.old backward.new × Cleared queue.old queue.new }
{
    let r = find_remaining(
        system,
        &mut *order,
        &mut *back_source,
        &mut *back_label,
        &mut *back_target,
        &mut *forward,
        &mut *backward,
        &mut *queue,
    );
    let rows = Keys {
        first: system.source,
        second: system.label,
        third: system.target,
    };
    rows.write_rows(&order[..r], result_source, result_label, result_target);
    clear(order);
    clear(back_source);
    clear(back_label);
    clear(back_target);
    clear(forward);
    clear(backward);
    clear(queue);
    r
}

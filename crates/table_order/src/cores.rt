// What other crates call once a table is checked. No entry points: each says what it requires.
ghost use Rattle.std.specs.Prelude.{◌≡◌, ℕ, ◌+◌, ◌<◌, ◌≤◌, not, List, length, slice_index};
ghost use Rattle.columns.specs.Columns.{written};
ghost use Rattle.table.specs.Lts.{Valid, lts_of};
ghost use Rattle.table_order.specs.Order.{next, has_cycle};
ghost use Rattle.table_order.specs.Call.{sorted};
ghost use Rattle.table_order.specs.Machine.{stack_of, Machine, Idle};
ghost use Rattle.table_order.specs.Turn.{seen_of, Pushed, Standing, Turned, Searched, Swept, mark_place};
ghost use Rattle.columns.specs.Lent.{Cleared};
ghost use Rattle.columns.specs.Limits.{max_states};

use columns::cells::{at, clear};
use table::Lts;
use table::cores::{rows_of, taken};

// The mark of the target of row i, a row of s; 2 if the row is not accepted, and for a self-loop.
fn seen(label: &[u16], target: &[u16], hidden: bool, s: usize, i: usize, marks: &[u16]) -> usize
    requires { (i < length label.now) × (i < length target.now) × (slice_index target.now i < length marks.now) }
    ensures { result ≡ seen_of hidden s marks.now (slice_index label.now i) (slice_index target.now i) }
{
    if !taken(label, hidden, i) {
        return 2;
    }
    let u = at(target, i);
    let mark = at(marks, u);
    if u == s { 2 } else { mark }
}

// Pushes the successors of s that are not yet visited, in listed order. Returns the new top; none if a successor is on the way.
fn push_successors(
    system: &Lts<'_>,
    hidden: bool,
    s: usize,
    marks: &[u16],
    stack: &mut [u16],
    top: usize,
) -> Option<usize>
    requires valid { Valid (lts_of system.now) }
    requires fact { let t = lts_of system.now in
        (s < t.n) × (t.n ≤ length marks.now) × (top + length (next t hidden s) ≤ length stack.old) }
    ensures { Pushed (next (lts_of system.now) hidden s) marks.now stack.old stack.new top result }
{
    let rows = rows_of(system.source, system.table.m as usize, s);
    let mut high = top;
    for i in rows.first..rows.end {
        let k = seen(system.label, system.target, hidden, s, i, marks);
        if k == 1 {
            return None;
        }
        if k == 0 {
            stack[high] = system.target[i];
            high += 1;
        }
    }
    Some(high)
}

// Where a search stands: the top of the stack, and the number of finished states.
#[derive(Clone, Copy)]
struct Next {
    top: usize,
    count: usize,
}

// Takes the top entry off: a new state is visited and pushed again under its new successors, one on the way is finished, a
// finished one dropped. None if a cycle was met.
fn turn(
    system: &Lts<'_>,
    hidden: bool,
    marks: &mut [u16],
    stack: &mut [u16],
    from: Next,
) -> Option<Next>
    requires valid { Valid (lts_of system.now) }
    requires n_in_bounds { let t = lts_of system.now in
        (t.n ≤ length marks.old) × (t.m + 1 ≤ length stack.old) × (0 < from.top) }
    requires fact { let t = lts_of system.now in
        Standing (next t hidden) t.n t.m marks.old (stack_of from.top stack.old) from.count }
    ensures { let t = lts_of system.now in
        ((bound : ℕ) → (goal : List ℕ) → Machine (next t hidden) t.n t.m bound goal marks.old (stack_of from.top stack.old) from.count
        → Turned (next t hidden) t.n t.m bound goal marks.old (stack_of from.top stack.old) marks.new stack.new result) }
{
    let last = from.top - 1;
    let s = at(&*stack, last);
    let k = at(&*marks, s);
    if k == 1 {
        marks[s] = (from.count + 2) as u16;
        return Some(Next {
            top: last,
            count: from.count + 1,
        });
    }
    if k != 0 {
        return Some(Next { top: last, ..from });
    }
    marks[s] = 1;
    let top = push_successors(system, hidden, s, &*marks, stack, from.top)?;
    Some(Next { top, ..from })
}

// All that root leads to is finished. Returns how many states are finished in all; none if a cycle was met.
fn search_from(
    system: &Lts<'_>,
    hidden: bool,
    root: usize,
    marks: &mut [u16],
    stack: &mut [u16],
    count: usize,
) -> Option<usize>
    requires valid { Valid (lts_of system.now) }
    requires n_in_bounds { let t = lts_of system.now in
        (t.n ≤ length marks.old) × (t.m + 1 ≤ length stack.old) × (root < t.n) }
    requires idle { let t = lts_of system.now in Idle (next t hidden) t.n t.m root marks.old count }
    ensures { let t = lts_of system.now in Searched (next t hidden) t.n t.m (root + 1) marks.new result }
{
    if at(&*marks, root) != 0 {
        return Some(count);
    }
    stack[0] = root as u16;
    let mut next = Next { top: 1, count };
    while 0 < next.top {
        next = turn(system, hidden, marks, stack, next)?;
    }
    Some(next.count)
}

// The searches from 0 upward. Returns whether there is no cycle.
fn sweep_all(system: &Lts<'_>, hidden: bool, marks: &mut [u16], stack: &mut [u16]) -> bool
    requires valid { Valid (lts_of system.now) }
    requires n_in_bounds { let t = lts_of system.now in (t.n ≤ length marks.old) × (t.m + 1 ≤ length stack.old) }
    requires idle { let t = lts_of system.now in Idle (next t hidden) t.n t.m 0 marks.old 0 }
    ensures { let t = lts_of system.now in Swept (next t hidden) t.n t.m marks.new result }
{
    let mut count = 0;
    for root in 0..system.table.n as usize {
        let Some(finished) = search_from(system, hidden, root, marks, stack, count) else {
            return false;
        };
        count = finished;
    }
    true
}

// The place that a mark says.
fn mark_place(n: usize, reversed: bool, k: usize) -> usize
    requires { (2 ≤ k) × (k ≤ n + 1) × (n ≤ max_states) }
    ensures { (result ≡ mark_place n reversed k) × (result < 65536) }
{
    if reversed { k - 2 } else { n + 1 - k }
}

// The places that the marks say, over the first n cells.
fn write_places(n: usize, marks: &[u16], reversed: bool, places: &mut [u16])
    requires n_in_bounds { (n ≤ length marks.now) × (n ≤ length places.old) × (n ≤ max_states) }
    requires by_index { (s : ℕ) → s < n → (2 ≤ slice_index marks.now s) × (slice_index marks.now s ≤ n + 1) }
    ensures { places.new ≡ written n (λ s. mark_place n reversed (slice_index marks.now s)) places.old }
{
    for (s, place) in places[..n].iter_mut().enumerate() {
        *place = mark_place(n, reversed, at(marks, s)) as u16;
    }
}

// Each state's place, over the first n cells of `places`, in the order of finishing if reversed and in its opposite otherwise.
// Returns whether there is no cycle longer than a self-loop; a cycle leaves `places` as it was. The work slices, of n and of
// m + 1 cells, may hold anything, and are zero then.
pub fn sort_topological(
    system: &Lts<'_>,
    hidden: bool,
    reversed: bool,
    places: &mut [u16],
    marks: &mut [u16],
    stack: &mut [u16],
) -> bool
    requires valid { Valid (lts_of system.now) }
    requires n_in_bounds { let t = lts_of system.now in
        (t.n ≤ length places.old) × (t.n ≤ length marks.old) × (t.m + 1 ≤ length stack.old) }
    ensures value { result ≡ not (has_cycle (lts_of system.now) hidden) }
    ensures places_value { places.new ≡ sorted (lts_of system.now) hidden reversed places.old }
    ensures cleared { Cleared marks.old marks.new × Cleared stack.old stack.new }
{
    clear(marks);
    let free = sweep_all(system, hidden, marks, stack);
    if free {
        write_places(system.table.n as usize, marks, reversed, places);
    }
    clear(marks);
    clear(stack);
    free
}

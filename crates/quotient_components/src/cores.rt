// What is done once a table is checked. No entry points: each says what it requires.
ghost use Rattle.std.specs.Prelude.{◌≡◌, ◌+◌, ◌*◌, ◌<◌, ◌≤◌, length, slice_index};
ghost use Rattle.columns.specs.Columns.{listed, written};
ghost use Rattle.columns.specs.Counting.{many};
ghost use Rattle.columns.specs.Lent.{Cleared};
ghost use Rattle.columns.specs.Number.{leads};
ghost use Rattle.quotient_components.specs.Components.{linked, components, component};
ghost use Rattle.quotient_components.specs.Numbering.{numbered_below, if_both};
ghost use Rattle.table.specs.Lts.{Valid, lts_of};
ghost use Rattle.table.specs.Turned.{TurnedWithStarts};

use columns::cells::{at, clear};
use table::Lts;

// The number of a state with these marks.
#[tactic(auto, unfolding(crate::specs::Numbering::if_both))]
fn if_both(f: u16, b: u16, x: u16, y: u16) -> u16
    ensures { result ≡ if_both f b x y }
{
    if f != 0 && b != 0 { x } else { y }
}

// The states with both marks get the number x. Each cell is stored, so that the loop has no branch: it runs once for each component.
fn give(forward: &[u16], backward: &[u16], x: u16, numbers: &mut [u16])
    requires { (length numbers.old ≤ length forward.now) × (length numbers.old ≤ length backward.now) }
    ensures { let old = numbers.old in
        numbers.new ≡ listed (length old) (λ u. if_both (slice_index forward.now u) (slice_index backward.now u) x (slice_index old u)) }
{
    for (i, number) in numbers.iter_mut().enumerate() {
        *number = if_both(forward[i], backward[i], x, *number);
    }
}

// Numbers the component of its least member s, by the rows and the rows turned round, with where the rows of each state begin.
fn number_one(
    system: &Lts<'_>,
    back: &Lts<'_>,
    s: usize,
    x: u16,
    numbers: &mut [u16],
    forward: &mut [u16],
    backward: &mut [u16],
    queue: &mut [u16],
)
    requires fact { TurnedWithStarts (lts_of system.now) (lts_of back.now) × (s < system.now.table.n) }
    requires forward_len { (length forward.old ≡ system.now.table.n) × (length backward.old ≡ system.now.table.n)
        × (system.now.table.n ≤ length queue.old) }
    requires numbers_value { (numbers.old ≡ numbered_below (lts_of system.now) s) × (slice_index numbers.old s ≡ system.now.table.n) }
    requires x_value { x ≡ many s (leads (linked (lts_of system.now))) }
    ensures { numbers.new ≡ numbered_below (lts_of system.now) (s + 1) }
{
    let m = system.table.m as usize;
    system.reach(&back.target[m..], true, s, &mut *forward, &mut *queue);
    back.reach_back(&back.label[m..], true, s, &mut *backward, queue);
    give(&*forward, &*backward, x, numbers);
}

// Numbers every state. Returns how many components there are.
fn number_all(
    system: &Lts<'_>,
    back: &Lts<'_>,
    numbers: &mut [u16],
    forward: &mut [u16],
    backward: &mut [u16],
    queue: &mut [u16],
) -> usize
    requires turned_with_starts { TurnedWithStarts (lts_of system.now) (lts_of back.now) }
    requires numbers_len { (length numbers.old ≡ system.now.table.n) × (length forward.old ≡ system.now.table.n) }
    requires backward_len { (length backward.old ≡ system.now.table.n) × (system.now.table.n ≤ length queue.old) }
    ensures value { result ≡ components (lts_of system.now) }
    ensures numbers_value { numbers.new ≡ listed system.now.table.n (component (lts_of system.now)) }
{
    let n = system.table.n as usize;
    numbers.fill(system.table.n);
    let mut count = 0;
    for s in 0..n {
        if at(numbers, s) == n {
            number_one(
                system,
                back,
                s,
                count as u16,
                numbers,
                forward,
                backward,
                queue,
            );
            count += 1;
        }
    }
    count
}

// The number of each state's component, over the first n cells of `numbers`. Returns how many components there are. The seven work slices
// may hold anything, and are zero then.
pub fn tau_scc_decomposition(
    system: &Lts<'_>,
    numbers: &mut [u16],
    order: &mut [u16],
    back_source: &mut [u16],
    back_label: &mut [u16],
    back_target: &mut [u16],
    forward: &mut [u16],
    backward: &mut [u16],
    queue: &mut [u16],
) -> usize
    requires valid { Valid (lts_of system.now) × (system.now.table.n ≤ length numbers.old) × (system.now.table.m ≤ length order.old) }
    requires m_in_bounds { (system.now.table.m ≤ length back_source.old) × (system.now.table.m ≤ length back_label.old) }
    requires m_in_bounds_2 { (system.now.table.m ≤ length back_target.old) × (system.now.table.n ≤ length forward.old)
        × (system.now.table.n ≤ length backward.old) }
    requires n_in_bounds { (system.now.table.n ≤ length queue.old) × (system.now.table.m ≤ 2 * length queue.old + 1) }
    ensures value { result ≡ components (lts_of system.now) }
    ensures numbers_value { numbers.new ≡ written system.now.table.n (component (lts_of system.now)) numbers.old }
    ensures cleared { Cleared order.old order.new × Cleared back_source.old back_source.new × Cleared back_label.old back_label.new ×
        Cleared back_target.old back_target.new }
    ensures cleared_2 { Cleared forward.old forward.new × Cleared backward.old backward.new × Cleared queue.old queue.new }
{
    let n = system.table.n as usize;
    let table = system.turn_rows(
        &mut *back_source,
        &mut *back_label,
        &mut *back_target,
        &mut *order,
        &mut *queue,
    );
    let back = Lts {
        table,
        source: &*back_source,
        label: &*back_label,
        target: &*back_target,
    };
    let count = number_all(
        system,
        &back,
        &mut numbers[..n],
        &mut forward[..n],
        &mut backward[..n],
        &mut *queue,
    );
    clear(order);
    clear(back_source);
    clear(back_label);
    clear(back_target);
    clear(forward);
    clear(backward);
    clear(queue);
    count
}

// What is done once a table is checked. No entry points: each says what it requires.
ghost use Rattle.std.specs.Prelude.{◌≡◌, ℕ, ◌+◌, ◌<◌, ◌≤◌, length, slice_index};
ghost use Rattle.columns.specs.Columns.{written};
ghost use Rattle.columns.specs.Lent.{Cleared};
ghost use Rattle.quotient_components.specs.Components.{components, component};
ghost use Rattle.quotient_cycles.specs.Reordered.{new_number, new_rows};
ghost use Rattle.table.specs.Lts.{Valid, lts_of};
ghost use Rattle.table.specs.Tables.{Three, rows_over};

use crate::Reordered;
use columns::cells::clear;
use quotient::cores::quotient_rows;
use quotient_components::cores::tau_scc_decomposition;
use table::{Lts, Table};
use table_order::cores::sort_topological;

// Each of the first n numbers becomes the place of that number.
fn renumber(n: usize, places: &[u16], numbers: &mut [u16])
    requires n_in_bounds { (n ≤ length numbers.old) × (n ≤ 65536) }
    requires by_index { (s : ℕ) → s < n → slice_index numbers.old s < length places.now }
    ensures { numbers.new ≡ written n (λ s. slice_index places.now (slice_index numbers.old s)) numbers.old }
{
    for number in &mut numbers[..n] {
        *number = places[*number as usize];
    }
}

// The numbers of components become their places in the reversed hidden order: the quotient by components is laid into the columns named
// `mid`, and sorted. It has no hidden cycle longer than a self-loop, so that each component gets a place. The slices behind `numbers` are
// used.
fn order_components(
    system: &Lts<'_>,
    count: usize,
    eliminate_tau_selfloops: bool,
    numbers: &mut [u16],
    mid_source: &mut [u16],
    mid_label: &mut [u16],
    mid_target: &mut [u16],
    a: &mut [u16],
    b: &mut [u16],
    c: &mut [u16],
    order: &mut [u16],
    spare: &mut [u16],
)
    requires valid { Valid (lts_of system.now) × (count ≡ components (lts_of system.now)) }
    requires by_index { (s : ℕ) → s < system.now.table.n → slice_index numbers.old s ≡ component (lts_of system.now) s }
    requires n_in_bounds { let t = lts_of system.now in
        (t.n ≤ length numbers.old) × (t.m ≤ length mid_source.old) × (t.m ≤ length mid_label.old) }
    requires m_in_bounds { let t = lts_of system.now in (t.m ≤ length mid_target.old) × (t.n + t.m + 1 ≤ length a.old) }
    requires m_in_bounds_2 { let t = lts_of system.now in (t.n + t.m + 1 ≤ length b.old) × (t.n + t.m + 1 ≤ length c.old) }
    requires m_in_bounds_3 { let t = lts_of system.now in (t.m ≤ length order.old) × (t.m ≤ length spare.old) }
    ensures { let number = new_number (lts_of system.now) eliminate_tau_selfloops in
        numbers.new ≡ written system.now.table.n number numbers.old }
{
    let m = quotient_rows(
        system,
        &*numbers,
        eliminate_tau_selfloops,
        eliminate_tau_selfloops,
        &mut *mid_source,
        &mut *mid_label,
        &mut *mid_target,
        &mut *a,
        &mut *b,
        &mut *c,
        order,
        spare,
    );
    let middle = Lts {
        table: Table {
            n: count as u16,
            labels: system.table.labels,
            m: m as u16,
            initial: numbers[system.table.initial as usize],
        },
        source: &*mid_source,
        label: &*mid_label,
        target: &*mid_target,
    };
    sort_topological(&middle, true, true, &mut *a, b, c);
    renumber(system.table.n as usize, &*a, numbers);
}

// The new number of each state, over the first n cells of `numbers`. Returns how many new states there are. The slices behind are used.
fn find_numbers(
    system: &Lts<'_>,
    eliminate_tau_selfloops: bool,
    numbers: &mut [u16],
    mid_source: &mut [u16],
    mid_label: &mut [u16],
    mid_target: &mut [u16],
    a: &mut [u16],
    b: &mut [u16],
    c: &mut [u16],
    order: &mut [u16],
    spare: &mut [u16],
) -> usize
    requires valid { Valid (lts_of system.now) × (system.now.table.n ≤ length numbers.old) }
    requires m_in_bounds { let t = lts_of system.now in (t.m ≤ length mid_source.old) × (t.m ≤ length mid_label.old) }
    requires m_in_bounds_2 { let t = lts_of system.now in (t.m ≤ length mid_target.old) × (t.n + t.m + 1 ≤ length a.old) }
    requires m_in_bounds_3 { let t = lts_of system.now in (t.n + t.m + 1 ≤ length b.old) × (t.n + t.m + 1 ≤ length c.old) }
    requires m_in_bounds_4 { let t = lts_of system.now in (t.m ≤ length order.old) × (t.m ≤ length spare.old) }
    ensures value { result ≡ components (lts_of system.now) }
    ensures numbers_value { let number = new_number (lts_of system.now) eliminate_tau_selfloops in
        numbers.new ≡ written system.now.table.n number numbers.old }
{
    let count = tau_scc_decomposition(
        system,
        &mut *numbers,
        &mut *order,
        &mut *mid_source,
        &mut *mid_label,
        &mut *mid_target,
        &mut *a,
        &mut *b,
        &mut *c,
    );
    order_components(
        system,
        count,
        eliminate_tau_selfloops,
        numbers,
        mid_source,
        mid_label,
        mid_target,
        a,
        b,
        c,
        order,
        spare,
    );
    count
}

// The naive quotient by components, renumbered in the reversed hidden order, over the first cells of the result columns. The nine work
// slices may hold anything, and are zero then.
pub fn tau_cycle_elimination_and_reorder(
    system: &Lts<'_>,
    state: usize,
    eliminate_tau_selfloops: bool,
    result_source: &mut [u16],
    result_label: &mut [u16],
    result_target: &mut [u16],
    numbers: &mut [u16],
    mid_source: &mut [u16],
    mid_label: &mut [u16],
    mid_target: &mut [u16],
    a: &mut [u16],
    b: &mut [u16],
    c: &mut [u16],
    order: &mut [u16],
    spare: &mut [u16],
) -> Reordered
    requires valid { Valid (lts_of system.now) × (state < system.now.table.n) × (system.now.table.n ≤ length numbers.old) }
    requires m_in_bounds { let t = lts_of system.now in
        (t.m ≤ length result_source.old) × (t.m ≤ length result_label.old) × (t.m ≤ length result_target.old) }
    requires m_in_bounds_2 { let t = lts_of system.now in (t.m ≤ length mid_source.old) × (t.m ≤ length mid_label.old) }
    requires m_in_bounds_3 { let t = lts_of system.now in (t.m ≤ length mid_target.old) × (t.n + t.m + 1 ≤ length a.old) }
    requires m_in_bounds_4 { let t = lts_of system.now in (t.n + t.m + 1 ≤ length b.old) × (t.n + t.m + 1 ≤ length c.old) }
    requires m_in_bounds_5 { let t = lts_of system.now in (t.m ≤ length order.old) × (t.m ≤ length spare.old) }
    ensures fact { let t = lts_of system.now in
        (result.table.n ≡ components t) × (result.table.labels ≡ t.labels)
        × (result.table.m ≡ length (new_rows t eliminate_tau_selfloops)) }
    ensures fact_2 { let number = new_number (lts_of system.now) eliminate_tau_selfloops in
        (result.table.initial ≡ number system.now.table.initial) × (result.state ≡ number state) }
    ensures out_left_value { let kept = new_rows (lts_of system.now) eliminate_tau_selfloops in
        let out : Three = (result_source.old, (result_label.old, result_target.old)) in
        let out_left : Three = (result_source.new, (result_label.new, result_target.new)) in
        out_left ≡ rows_over kept out }
    ensures cleared { Cleared numbers.old numbers.new × Cleared mid_source.old mid_source.new × Cleared mid_label.old mid_label.new ×
        Cleared mid_target.old mid_target.new }
    ensures cleared_2 { Cleared a.old a.new × Cleared b.old b.new × Cleared c.old c.new × Cleared order.old order.new × Cleared spare.old
        spare.new }
{
    let n = find_numbers(
        system,
        eliminate_tau_selfloops,
        &mut *numbers,
        &mut *mid_source,
        &mut *mid_label,
        &mut *mid_target,
        &mut *a,
        &mut *b,
        &mut *c,
        &mut *order,
        &mut *spare,
    );
    let m = quotient_rows(
        system,
        &*numbers,
        eliminate_tau_selfloops,
        eliminate_tau_selfloops,
        result_source,
        result_label,
        result_target,
        a,
        b,
        c,
        order,
        spare,
    );
    let reordered = Reordered {
        table: Table {
            n: n as u16,
            labels: system.table.labels,
            m: m as u16,
            initial: numbers[system.table.initial as usize],
        },
        state: numbers[state],
    };
    clear(numbers);
    clear(mid_source);
    clear(mid_label);
    clear(mid_target);
    reordered
}

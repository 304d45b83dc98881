// The rows of a block that are hidden and stay in it, listed by target, and among equals as the rows come. No entry points: each says what
// it requires.
ghost use Rattle.std.specs.Prelude.{◌≡◌, ℕ, ◌+◌, ◌-◌, ◌<◌, ◌≤◌, ◌++◌, length, take, if◌then◌else◌, nat_eq, slice_index};
ghost use Rattle.table_closure.specs.Inner.{innerb, inner_rows, Stands, InnerList};
ghost use Rattle.columns.specs.Columns.{laid};
ghost use Rattle.table.specs.Lts.{Valid, lts_of};
ghost use Rattle.columns.specs.Lent.{Clear, Cleared};

use columns::cells::at;
use columns::sorting::Keys;
use table::Lts;
use table::cores::{hidden_in, rows_of};

// Whether row i is hidden, comes from a state of block b and leads to one.
fn is_inner(system: &Lts<'_>, element_to_block: &[u16], b: usize, i: usize) -> bool
    requires i_in_bounds { let t = lts_of system.now in (i < length t.source) × (i < length t.label) × (i < length t.target) }
    requires i_in_bounds_2 { let t = lts_of system.now in
        (slice_index t.source i < length element_to_block.now) × (slice_index t.target i < length element_to_block.now) }
    ensures { result ≡ innerb (lts_of system.now) element_to_block.now b i }
{
    hidden_in(system.label, system.source, element_to_block, b, i)
        && at(element_to_block, at(system.target, i)) == b
}

// The row after row i; `end` where row i is visible, since the hidden rows of a state come first.
fn row_after(label: &[u16], i: usize, end: usize) -> usize
    requires { (i < length label.now) × (i < 65536) }
    ensures { result ≡ (if nat_eq (slice_index label.now i) 0 then i + 1 else end) }
{
    if at(label, i) == 0 { i + 1 } else { end }
}

// Puts the rows of state s that are hidden and stay in block b behind the first h rows. Returns how many rows there are then.
fn list_state(
    system: &Lts<'_>,
    element_to_block: &[u16],
    b: usize,
    s: usize,
    order: &mut [u16],
    h: usize,
) -> usize
    requires valid { let t = lts_of system.now in Valid t × (s < t.n) × (t.n ≤ length element_to_block.now) }
    requires fact { let t = lts_of system.now in
        (h + length (inner_rows t element_to_block.now b s) ≤ length order.old) × (h ≤ 65535) }
    ensures fact_2 { let t = lts_of system.now in
        (take result order.new ≡ take h order.old ++ inner_rows t element_to_block.now b s)
        × (result ≡ h + length (inner_rows t element_to_block.now b s)) }
    ensures by_index { (k : ℕ) → result ≤ k → slice_index order.new k ≡ slice_index order.old k }
{
    let rows = rows_of(system.source, system.table.m as usize, s);
    let mut i = rows.first;
    let mut k = h;
    while i < rows.end {
        if is_inner(system, element_to_block, b, i) {
            order[k] = i as u16;
            k += 1;
            i += 1;
        } else {
            i = row_after(system.label, i, rows.end);
        }
    }
    k
}

// The same for the states at the positions from x to before z, one after the other, over the first cells. Returns how many rows.
fn list_states(
    system: &Lts<'_>,
    elements: &[u16],
    element_to_block: &[u16],
    b: usize,
    x: usize,
    z: usize,
    order: &mut [u16],
) -> usize
    requires fact { let t = lts_of system.now in
        Valid t × (t.n ≤ length element_to_block.now) × Stands t.n elements.now element_to_block.now b x z }
    requires m_in_bounds { (lts_of system.now).m ≤ length order.old }
    ensures fact_2 { let t = lts_of system.now in
        (take result order.new ≡ laid (λ k. inner_rows t element_to_block.now b (slice_index elements.now (x + k))) (z - x))
        × (result ≤ t.m) }
    ensures by_index { (k : ℕ) → result ≤ k → slice_index order.new k ≡ slice_index order.old k }
{
    let mut h = 0;
    for &s in &elements[x..z] {
        h = list_state(system, element_to_block, b, s as usize, order, h);
    }
    h
}

// Lists the hidden rows that stay in block b, whose states stand at the positions from x to before z. Returns how many. Every cell of
// `order` and `spare` is zero before; behind the rows it is zero then, and all of `spare`.
pub fn list_inner(
    system: &Lts<'_>,
    elements: &[u16],
    element_to_block: &[u16],
    b: usize,
    x: usize,
    z: usize,
    order: &mut [u16],
    spare: &mut [u16],
) -> usize
    requires fact { let t = lts_of system.now in
        Valid t × (t.n ≤ length element_to_block.now) × Stands t.n elements.now element_to_block.now b x z }
    requires m_in_bounds { let t = lts_of system.now in (t.m ≤ length order.old) × (t.m ≤ length spare.old) }
    requires clear { Clear order.old × Clear spare.old }
    ensures fact_2 { let t = lts_of system.now in
        InnerList t element_to_block.now b order.new result × ((k : ℕ) → result ≤ k → slice_index order.new k ≡ 0) }
    ensures cleared { Cleared spare.old spare.new }
{
    let h = list_states(system, elements, element_to_block, b, x, z, order);
    let keys = Keys {
        first: system.target,
        second: system.source,
        third: system.label,
    };
    keys.sort(&mut order[..h], spare);
    h
}

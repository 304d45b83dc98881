// The rows of a quotient, on columns that are checked already. No entry points: each says what it requires. `home` has the block of each
// state.
ghost use Rattle.std.specs.Prelude.{◌≡◌, ◌<◌, ◌≤◌, length, set, slice_index, slice_set};
ghost use Rattle.columns.specs.Blocks.{block_of};
ghost use Rattle.columns.specs.Lent.{Cleared};
ghost use Rattle.columns.specs.Rows.{row_set, row_in};
ghost use Rattle.quotient.specs.Naive.{stays, naive_rows};
ghost use Rattle.table.specs.Lts.{rows, Valid, lts_of};
ghost use Rattle.table.specs.Tables.{Three, rows_over};

use columns::cells::{at, clear};
use columns::sorting::Keys;
use table::Lts;

// Whether neither switch drops row i.
pub fn row_stays(system: &Lts<'_>, home: &[u16], inerts: bool, loops: bool, i: usize) -> bool
    requires i_in_bounds { (i < length system.now.source.now) × (i < length system.now.label.now) × (i < length system.now.target.now) }
    requires i_in_bounds_2 { (slice_index system.now.source.now i < length home.now)
        × (slice_index system.now.target.now i < length home.now) }
    ensures { result ≡ stays inerts loops (block_of home.now) (row_in system.now.source.now system.now.label.now system.now.target.now i) }
{
    let s = at(system.source, i);
    let u = at(system.target, i);
    let hidden = at(system.label, i) == 0;
    let tau_loop = hidden & (s == u);
    let inert_step = hidden & ((at(home, s) == at(home, u)) & (s != u));
    !(inerts & inert_step) & !(loops & tau_loop)
}

// Row i, between blocks, goes into the cells d of a, b and c.
pub fn push_row(
    system: &Lts<'_>,
    home: &[u16],
    i: usize,
    a: &mut [u16],
    b: &mut [u16],
    c: &mut [u16],
    d: usize,
)
    requires i_in_bounds { (i < length system.now.source.now) × (i < length system.now.label.now) × (i < length system.now.target.now) }
    requires i_in_bounds_2 { (slice_index system.now.source.now i < length home.now)
        × (slice_index system.now.target.now i < length home.now) }
    requires d_in_bounds { (d < length a.old) × (d < length b.old) × (d < length c.old) }
    ensures a_value { a.new ≡ slice_set a.old d (block_of home.now (slice_index system.now.source.now i)) }
    ensures b_value { b.new ≡ slice_set b.old d (slice_index system.now.label.now i) }
    ensures c_value { c.new ≡ slice_set c.old d (block_of home.now (slice_index system.now.target.now i)) }
{
    a[d] = home[at(system.source, i)];
    b[d] = system.label[i];
    c[d] = home[at(system.target, i)];
}

// The rows that stay, between blocks, over the first cells of a, b and c. Returns how many.
fn select_rows(
    system: &Lts<'_>,
    home: &[u16],
    inerts: bool,
    loops: bool,
    a: &mut [u16],
    b: &mut [u16],
    c: &mut [u16],
) -> usize
    requires valid { Valid (lts_of system.now) × (system.now.table.n ≤ length home.now) }
    requires m_in_bounds { (system.now.table.m ≤ length a.old) × (system.now.table.m ≤ length b.old) × (system.now.table.m ≤ length c.old) }
    ensures { (row_set result a.new b.new c.new ≡ naive_rows inerts loops (block_of home.now) (rows (lts_of system.now)))
        × (result ≤ system.now.table.m) }
{
    let mut d = 0;
    for i in 0..system.table.m as usize {
        if row_stays(system, home, inerts, loops, i) {
            push_row(system, home, i, a, b, c, d);
            d += 1;
        }
    }
    d
}

// The first d rows of a, b and c as a set, ascending, over the first cells of the result columns. Returns how many. The slices a, b, c,
// `order` and `spare` are zero then.
pub fn lay_rows(
    a: &mut [u16],
    b: &mut [u16],
    c: &mut [u16],
    d: usize,
    result_source: &mut [u16],
    result_label: &mut [u16],
    result_target: &mut [u16],
    order: &mut [u16],
    spare: &mut [u16],
) -> usize
    requires d_in_bounds { (d ≤ length a.old) × (d ≤ length b.old) × (d ≤ length c.old) × (d ≤ 65536) }
    requires d_in_bounds_2 { (d ≤ length result_source.old) × (d ≤ length result_label.old) × (d ≤ length result_target.old) }
    requires d_in_bounds_3 { (d ≤ length order.old) × (d ≤ length spare.old) }
    ensures fact { let kept = row_set d a.old b.old c.old in
        let out : Three = (result_source.old, (result_label.old, result_target.old)) in
        let out_left : Three = (result_source.new, (result_label.new, result_target.new)) in
        (result ≡ length kept) × (out_left ≡ rows_over kept out) }
    ensures cleared { Cleared a.old a.new × Cleared b.old b.new × Cleared c.old c.new × Cleared order.old order.new × Cleared spare.old
        spare.new }
{
    let rows = Keys {
        first: &*a,
        second: &*b,
        third: &*c,
    };
    let r = rows.row_set(
        d,
        result_source,
        result_label,
        result_target,
        &mut *order,
        &mut *spare,
    );
    clear(a);
    clear(b);
    clear(c);
    clear(order);
    clear(spare);
    r
}

// The naive quotient: the rows between blocks, as a set, ascending, over the first cells of the result columns. Returns how many. The work
// slices a, b and c (the rows that stay), `order` and `spare` are zero then.
pub fn quotient_rows(
    system: &Lts<'_>,
    home: &[u16],
    inerts: bool,
    loops: bool,
    result_source: &mut [u16],
    result_label: &mut [u16],
    result_target: &mut [u16],
    a: &mut [u16],
    b: &mut [u16],
    c: &mut [u16],
    order: &mut [u16],
    spare: &mut [u16],
) -> usize
    requires valid { Valid (lts_of system.now) × (system.now.table.n ≤ length home.now) }
    requires m_in_bounds { (system.now.table.m ≤ length result_source.old) × (system.now.table.m ≤ length result_label.old)
        × (system.now.table.m ≤ length result_target.old) }
    requires m_in_bounds_2 { (system.now.table.m ≤ length a.old) × (system.now.table.m ≤ length b.old)
        × (system.now.table.m ≤ length c.old) }
    requires m_in_bounds_3 { (system.now.table.m ≤ length order.old) × (system.now.table.m ≤ length spare.old) }
    ensures fact { let kept = naive_rows inerts loops (block_of home.now) (rows (lts_of system.now)) in
        let out : Three = (result_source.old, (result_label.old, result_target.old)) in
        let out_left : Three = (result_source.new, (result_label.new, result_target.new)) in
        (result ≡ length kept) × (out_left ≡ rows_over kept out) }
    ensures cleared { Cleared a.old a.new × Cleared b.old b.new × Cleared c.old c.new × Cleared order.old order.new × Cleared spare.old
        spare.new }
{
    let d = select_rows(system, home, inerts, loops, &mut *a, &mut *b, &mut *c);
    lay_rows(
        a,
        b,
        c,
        d,
        result_source,
        result_label,
        result_target,
        order,
        spare,
    )
}

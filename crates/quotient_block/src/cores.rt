// The state chosen for each block and the rows of these, on columns that are checked already. No entry points: each says what it requires.
// `home` has the block of each state.
ghost use Rattle.std.specs.Prelude.{◌≡◌, ℕ, ◌<◌, ◌≤◌, IfSome, length, if◌then◌else◌, nat_lt, slice_index};
ghost use Rattle.std.specs.Option.{unwrap_or};
ghost use Rattle.columns.specs.Answers.{checked, none, refusal};
ghost use Rattle.columns.specs.Blocks.{block_of};
ghost use Rattle.columns.specs.Columns.{written};
ghost use Rattle.columns.specs.Lent.{Cleared};
ghost use Rattle.columns.specs.Limits.{no_bottom};
ghost use Rattle.columns.specs.Rows.{row_set, row_in};
ghost use Rattle.quotient.specs.Naive.{inert_step};
ghost use Rattle.quotient_block.specs.Bottom.{way_on, bottom_from};
ghost use Rattle.quotient_block.specs.Chosen.{choice, lacking, of_chosen, chosen_rows, block_quotient, Choosable};
ghost use Rattle.table.specs.Lts.{rows, Valid, lts_of};
ghost use Rattle.table.specs.Tables.{Three, rows_over, said_table};

use columns::answers::{Answer, Refusal};
use columns::cells::{at, clear};
use quotient::cores::{lay_rows, push_row, row_stays};
use table::cores::rows_of;
use table::{Lts, Table};

// Whether row i, of state s in block b, is hidden and leads to another state of the block.
fn inner_row(system: &Lts<'_>, home: &[u16], s: usize, b: usize, i: usize) -> bool
    requires { (i < length system.now.label.now) × (i < length system.now.target.now)
        × (slice_index system.now.target.now i < length home.now) × (b ≡ block_of home.now s) }
    ensures { result ≡ inert_step (block_of home.now) (s, (slice_index system.now.label.now i, slice_index system.now.target.now i)) }
{
    let u = at(system.target, i);
    (at(system.label, i) == 0) & ((b == at(home, u)) & (s != u))
}

// The first hidden row of s to another state of its block, if there is one.
fn way_on(system: &Lts<'_>, home: &[u16], s: usize) -> Option<usize>
    requires { Valid (lts_of system.now) × (system.now.table.n ≤ length home.now) × (s < system.now.table.n) }
    ensures value { unwrap_or result system.now.table.m ≡ way_on (lts_of system.now) home.now s }
    ensures row { IfSome result (λ i. i < system.now.table.m) }
{
    let b = at(home, s);
    let own = rows_of(system.source, system.table.m as usize, s);
    (own.first..own.end).find(|&i| inner_row(system, home, s, b, i))
}

// The bottom state that the walk from s ends in, if it ends in one.
fn find_bottom(system: &Lts<'_>, home: &[u16], s: usize) -> Option<usize>
    requires { Valid (lts_of system.now) × (system.now.table.n ≤ length home.now) × (s < system.now.table.n) }
    ensures value { unwrap_or result system.now.table.n ≡ bottom_from (lts_of system.now) home.now s }
    ensures state { IfSome result (λ u. u < system.now.table.n) }
{
    let mut u = s;
    for _ in 0..=system.table.n {
        let Some(i) = way_on(system, home, u) else {
            return Some(u);
        };
        u = at(system.target, i);
    }
    None
}

// The state chosen for a block whose first state is s, if there is one.
fn choose(system: &Lts<'_>, home: &[u16], s: usize, branching: bool) -> Option<usize>
    requires { Valid (lts_of system.now) × (system.now.table.n ≤ length home.now) × (s < system.now.table.n) }
    ensures value { unwrap_or result system.now.table.n ≡ (if branching then bottom_from (lts_of system.now) home.now s else s) }
    ensures state { IfSome result (λ u. u < system.now.table.n) }
{
    if branching {
        find_bottom(system, home, s)
    } else {
        Some(s)
    }
}

// The state chosen for each block, over the first cells of `chosen`, up to the lowest block that has none: 12 at that block.
fn choose_all(
    system: &Lts<'_>,
    count: usize,
    elements: &[u16],
    home: &[u16],
    begin: &[u16],
    branching: bool,
    chosen: &mut [u16],
) -> Result<(), Refusal>
    requires valid { Valid (lts_of system.now) }
    requires choosable { Choosable system.now.table.n count elements.now home.now begin.now × (count ≤ length chosen.old) }
    ensures value { let b = lacking branching (lts_of system.now) home.now elements.now begin.now count in
        checked result ≡ (if nat_lt b count then refusal no_bottom b else none) }
    ensures chosen_value { let choose = choice branching (lts_of system.now) home.now elements.now begin.now in
        chosen.new ≡ written (lacking branching (lts_of system.now) home.now elements.now begin.now count) choose chosen.old }
{
    for b in 0..count {
        let s = at(elements, at(begin, b));
        let Some(u) = choose(system, home, s, branching) else {
            let block = b as u64;
            return Err(Refusal::NoBottom { block });
        };
        chosen[b] = u as u16;
    }
    Ok(())
}

// Whether row i is one of the state chosen for its block, and `loops` doesn't drop it.
fn row_chosen(system: &Lts<'_>, home: &[u16], chosen: &[u16], loops: bool, i: usize) -> bool
    requires i_in_bounds { (i < length system.now.source.now) × (i < length system.now.label.now) × (i < length system.now.target.now) }
    requires i_in_bounds_2 { (slice_index system.now.source.now i < length home.now)
        × (slice_index system.now.target.now i < length home.now) }
    requires i_in_bounds_3 { block_of home.now (slice_index system.now.source.now i) < length chosen.now }
    ensures { let row = row_in system.now.source.now system.now.label.now system.now.target.now i in
        result ≡ of_chosen loops (λ b. slice_index chosen.now b) (block_of home.now) row }
{
    let s = at(system.source, i);
    at(chosen, at(home, s)) == s && row_stays(system, home, false, loops, i)
}

// The rows of the states chosen, between blocks, over the first cells of a, b and c. Returns how many.
fn select_chosen(
    system: &Lts<'_>,
    home: &[u16],
    chosen: &[u16],
    loops: bool,
    a: &mut [u16],
    b: &mut [u16],
    c: &mut [u16],
) -> usize
    requires valid { Valid (lts_of system.now) × (system.now.table.n ≤ length home.now) }
    requires by_index { (s : ℕ) → s < system.now.table.n → block_of home.now s < length chosen.now }
    requires m_in_bounds { (system.now.table.m ≤ length a.old) × (system.now.table.m ≤ length b.old) × (system.now.table.m ≤ length c.old) }
    ensures { let kept = chosen_rows loops (λ b. slice_index chosen.now b) (block_of home.now) (rows (lts_of system.now)) in
        (row_set result a.new b.new c.new ≡ kept) × (result ≤ system.now.table.m) }
{
    let mut d = 0;
    for i in 0..system.table.m as usize {
        if row_chosen(system, home, chosen, loops, i) {
            push_row(system, home, i, a, b, c, d);
            d += 1;
        }
    }
    d
}

// The rows of the states chosen, between blocks, as a set, ascending, over the first cells of the result columns. Returns how many. The
// work slices a, b and c (the rows before they are a set), `order` and `spare` are zero then.
fn chosen_rows(
    system: &Lts<'_>,
    home: &[u16],
    chosen: &[u16],
    loops: bool,
    result_source: &mut [u16],
    result_label: &mut [u16],
    result_target: &mut [u16],
    a: &mut [u16],
    b: &mut [u16],
    c: &mut [u16],
    order: &mut [u16],
    spare: &mut [u16],
) -> usize
    requires valid { Valid (lts_of system.now) × (system.now.table.n ≤ length home.now) }
    requires by_index { (s : ℕ) → s < system.now.table.n → block_of home.now s < length chosen.now }
    requires m_in_bounds { (system.now.table.m ≤ length result_source.old) × (system.now.table.m ≤ length result_label.old)
        × (system.now.table.m ≤ length result_target.old) }
    requires m_in_bounds_2 { (system.now.table.m ≤ length a.old) × (system.now.table.m ≤ length b.old)
        × (system.now.table.m ≤ length c.old) }
    requires m_in_bounds_3 { (system.now.table.m ≤ length order.old) × (system.now.table.m ≤ length spare.old) }
    ensures fact { let kept = chosen_rows loops (λ b. slice_index chosen.now b) (block_of home.now) (rows (lts_of system.now)) in
        let out : Three = (result_source.old, (result_label.old, result_target.old)) in
        let out_left : Three = (result_source.new, (result_label.new, result_target.new)) in
        (result ≡ length kept) × (out_left ≡ rows_over kept out) }
    ensures cleared { Cleared a.old a.new × Cleared b.old b.new × Cleared c.old c.new × Cleared order.old order.new × Cleared spare.old
        spare.new }
{
    let d = select_chosen(system, home, chosen, loops, &mut *a, &mut *b, &mut *c);
    lay_rows(
        a,
        b,
        c,
        d,
        result_source,
        result_label,
        result_target,
        order,
        spare,
    )
}

// The quotient by chosen states: their rows, between blocks, as a set, ascending, over the first cells of the result columns, with the
// header; or 12 at the lowest block whose walk comes back to a state, and nothing written: all states are chosen first. The work slices
// a, b and c (the rows before they are a set), `order`, `spare` and `chosen` are zero then.
pub fn quotient_block(
    system: &Lts<'_>,
    count: usize,
    elements: &[u16],
    home: &[u16],
    begin: &[u16],
    branching: bool,
    loops: bool,
    result_source: &mut [u16],
    result_label: &mut [u16],
    result_target: &mut [u16],
    a: &mut [u16],
    b: &mut [u16],
    c: &mut [u16],
    order: &mut [u16],
    spare: &mut [u16],
    chosen: &mut [u16],
) -> Answer<Table>
    requires valid { Valid (lts_of system.now) }
    requires choosable { Choosable system.now.table.n count elements.now home.now begin.now × (count ≤ length chosen.old) }
    requires m_in_bounds { (system.now.table.m ≤ length result_source.old) × (system.now.table.m ≤ length result_label.old)
        × (system.now.table.m ≤ length result_target.old) }
    requires m_in_bounds_2 { (system.now.table.m ≤ length a.old) × (system.now.table.m ≤ length b.old)
        × (system.now.table.m ≤ length c.old) }
    requires m_in_bounds_3 { (system.now.table.m ≤ length order.old) × (system.now.table.m ≤ length spare.old) }
    ensures out_left_value { let out : Three = (result_source.old, (result_label.old, result_target.old)) in
        let out_left : Three = (result_source.new, (result_label.new, result_target.new)) in
        (said_table result, out_left) ≡ block_quotient branching loops (lts_of system.now) home.now elements.now begin.now count out }
    ensures cleared { Cleared a.old a.new × Cleared b.old b.new × Cleared c.old c.new × Cleared order.old order.new × Cleared spare.old
        spare.new × Cleared chosen.old chosen.new }
{
    if let Err(refusal) = choose_all(
        system,
        count,
        elements,
        home,
        begin,
        branching,
        &mut *chosen,
    ) {
        clear(a);
        clear(b);
        clear(c);
        clear(order);
        clear(spare);
        clear(chosen);
        return Answer::refused(refusal);
    }
    let m = chosen_rows(
        system,
        home,
        &*chosen,
        loops,
        result_source,
        result_label,
        result_target,
        a,
        b,
        c,
        order,
        spare,
    );
    clear(chosen);
    Answer::done(Table {
        n: count as u16,
        labels: system.table.labels,
        m: m as u16,
        initial: home[system.table.initial as usize],
    })
}

// The given lists that a state takes, as heads of a merge. No entry points.
ghost use Rattle.std.specs.Prelude.{◌≡◌, ℕ, ◌+◌, ◌<◌, ◌≤◌, [], ◌∷◌, length, ◌≢◌};
ghost use Rattle.pairs_merge.specs.Merged.{wide};
ghost use Rattle.signatures_sorted.specs.Joining.{Opened};
ghost use Rattle.signatures_sorted.specs.Taking.{inner_targets};
ghost use Rattle.signatures.specs.Strong.{own_rows};
ghost use Rattle.pairs.specs.Lists.{start_at};
ghost use Rattle.table.specs.Lts.{Valid, lts_of};
ghost use Rattle.columns.specs.Limits.{max_states};
ghost use Rattle.columns.specs.Columns.{EachLong};

use columns::cells::at;
use pairs::lists::start;
use table::Lts;
use table::cores::{hidden_in, rows_of};

// A place in the flat pairs, over cells j.
fn set_place(place: usize, high: &mut [u16], low: &mut [u16], j: usize)
    requires { (j < length high.old) × (j < length low.old) × (place < 4294967296) }
    ensures { (wide high.new low.new j ≡ place) × ((i : ℕ) → (i ≢ j) → wide high.new low.new i ≡ wide high.old low.old i) }
{
    high[j] = (place / 65536) as u16;
    low[j] = (place % 65536) as u16;
}

// Head j becomes the given list of u.
fn open(
    starts: &[u32],
    u: usize,
    high: &mut [u16],
    low: &mut [u16],
    end_high: &mut [u16],
    end_low: &mut [u16],
    j: usize,
)
    requires u_in_bounds { (u + 1 < length starts.now) × (u < max_states) }
    requires j_in_bounds { (j < length high.old) × (j < length low.old) × (j < length end_high.old) × (j < length end_low.old) }
    ensures j_value { (wide high.new low.new j ≡ start_at starts.now u) × (wide end_high.new end_low.new j ≡ start_at starts.now (u + 1)) }
    ensures by_index { (i : ℕ) → (i ≢ j) → (wide high.new low.new i ≡ wide high.old low.old i)
        × (wide end_high.new end_low.new i ≡ wide end_high.old end_low.old i) }
{
    set_place(start(starts, u), high, low, j);
    set_place(start(starts, u + 1), end_high, end_low, j);
}

// For each hidden row of a state that stays in its block, the given list of the target becomes a head; the heads behind stay. Returns
// how many.
pub fn open_lists(
    system: &Lts<'_>,
    element_to_block: &[u16],
    state: usize,
    starts: &[u32],
    high: &mut [u16],
    low: &mut [u16],
    end_high: &mut [u16],
    end_low: &mut [u16],
) -> usize
    requires fact { Valid (lts_of system.now) × (state < system.now.table.n) × (system.now.table.n ≤ length element_to_block.now)
        × (system.now.table.n + 1 ≤ length starts.now) }
    requires fact_2 { let rows = own_rows (lts_of system.now) state in
        EachLong (length rows) (high.old ∷ low.old ∷ end_high.old ∷ end_low.old ∷ []) }
    ensures fact_3 { let states = inner_targets (lts_of system.now) element_to_block.now state in
        Opened starts.now states result high.new low.new end_high.new end_low.new }
    ensures by_index { (j : ℕ) → result ≤ j → (wide high.new low.new j ≡ wide high.old low.old j)
        × (wide end_high.new end_low.new j ≡ wide end_high.old end_low.old j) }
{
    let b = at(element_to_block, state);
    let rows = rows_of(system.source, system.table.m as usize, state);
    let mut k = 0;
    for i in rows.first..rows.end {
        if hidden_in(system.label, system.target, element_to_block, b, i) {
            let u = at(system.target, i);
            open(starts, u, high, low, end_high, end_low, k);
            k += 1;
        }
    }
    k
}

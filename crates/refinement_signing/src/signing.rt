// All states' strong signatures under a block column. No entry points: each says what it requires.
ghost use Rattle.std.specs.Prelude.{◌≡◌, ◌++◌, ℕ, ◌+◌, ◌-◌, ◌*◌, ◌≤◌, ◌<◌, length, get_or};
ghost use Rattle.columns.specs.Lent.{Clear, Cleared};
ghost use Rattle.columns.specs.Rows.{pairs_of};
ghost use Rattle.refinement_signing.specs.Stored.{row_pairs, AllSigned, store};
ghost use Rattle.signatures.specs.Pairs.{signature};
ghost use Rattle.signatures.specs.Strong.{strong_signature};
ghost use Rattle.table.specs.Lts.{Valid, lts_of};
ghost use Rattle.columns.specs.Columns.{NeverFalls, laid};
ghost use Rattle.table.specs.Stretch.{first_row};

use columns::cells::at;
use signatures::flat::flatten;
use table::Lts;

// Where the rows of s end, which begin at `first`.
fn row_end(source: &[u16], m: usize, s: usize, first: usize) -> usize
    requires { (m ≤ length source.now) × NeverFalls source.now m × (first ≡ first_row source.now m s) }
    ensures { result ≡ first_row source.now m (s + 1) }
{
    (first..m).find(|&i| at(source, i) != s).unwrap_or(m)
}

// The pairs of the rows from `first` to before `end`, over the first cells of two columns.
fn push_rows(
    label: &[u16],
    target: &[u16],
    home: &[u16],
    first: usize,
    end: usize,
    pushed_labels: &mut [u16],
    pushed_blocks: &mut [u16],
)
    requires first_le_end { (first ≤ end) × (end ≤ length label.now) × (end ≤ length target.now) }
    requires by_index { (i : ℕ) → i < end → get_or target.now i 0 < length home.now }
    requires first_in_bounds { (end - first ≤ length pushed_labels.old) × (end - first ≤ length pushed_blocks.old) }
    ensures { pairs_of (end - first) pushed_labels.new pushed_blocks.new ≡ row_pairs label.now target.now home.now first end }
{
    for d in 0..end - first {
        let i = first + d;
        pushed_labels[d] = label[i];
        pushed_blocks[d] = home[at(target, i)];
    }
}

// The signature of the rows from `first` to before `end`, behind the first d pairs. Returns the number of pairs then. Work: the pairs
// pushed, and two columns for the sort, of which `spare` is zero before and after.
fn sign_rows(
    label: &[u16],
    target: &[u16],
    home: &[u16],
    first: usize,
    end: usize,
    labels: &mut [u16],
    blocks: &mut [u16],
    d: usize,
    pushed_labels: &mut [u16],
    pushed_blocks: &mut [u16],
    order: &mut [u16],
    spare: &mut [u16],
) -> usize
    requires first_le_end { (first ≤ end) × (end ≤ length label.now) × (end ≤ length target.now) × (end ≤ 65536) }
    requires by_index { (i : ℕ) → i < end → get_or target.now i 0 < length home.now }
    requires end_in_bounds { (end ≤ length pushed_labels.old) × (end ≤ length pushed_blocks.old) × (end ≤ length order.old)
        × (end ≤ 2 * length spare.old + 1) }
    requires d_le_first { (d ≤ first) × (end ≤ length labels.old) × (end ≤ length blocks.old) × Clear spare.old }
    ensures { let own = signature (row_pairs label.now target.now home.now first end) in
        (result ≤ end) × (pairs_of result labels.new blocks.new ≡ pairs_of d labels.old blocks.old ++ own) × Cleared spare.old spare.new }
{
    push_rows(
        label,
        target,
        home,
        first,
        end,
        &mut *pushed_labels,
        &mut *pushed_blocks,
    );
    let k = end - first;
    let r = flatten(
        &*pushed_labels,
        &*pushed_blocks,
        k,
        &mut labels[d..],
        &mut blocks[d..],
        &mut *order,
        &mut *spare,
    );
    d + r
}

// The strong signatures of all states under the block column `home`, one behind the other in `labels` and `blocks`; `begins` gets where
// each begins. Returns how many pairs they have together. Work: the pairs pushed for one state, and two columns for the sort, of which
// `spare` is zero before and after.
pub fn sign_all(
    system: &Lts<'_>,
    home: &[u16],
    labels: &mut [u16],
    blocks: &mut [u16],
    begins: &mut [u16],
    pushed_labels: &mut [u16],
    pushed_blocks: &mut [u16],
    order: &mut [u16],
    spare: &mut [u16],
) -> usize
    requires valid { Valid (lts_of system.now) × (system.now.table.n ≤ length home.now) × (system.now.table.n ≤ length begins.old) }
    requires m_in_bounds { (system.now.table.m ≤ length labels.old) × (system.now.table.m ≤ length blocks.old)
        × (system.now.table.m ≤ length pushed_labels.old) × (system.now.table.m ≤ length pushed_blocks.old) }
    requires m_in_bounds_2 { (system.now.table.m ≤ length order.old) × (system.now.table.m ≤ 2 * length spare.old + 1) × Clear spare.old }
    ensures { let n = system.now.table.n in
        let sig = strong_signature (lts_of system.now) home.now in
        AllSigned (store n labels.new blocks.new result begins.new) sig × (result ≤ system.now.table.m) × Cleared spare.old spare.new
        × (pairs_of result labels.new blocks.new ≡ laid sig n) × ((s : ℕ) → s < n → get_or begins.new s 0 ≡ length (laid sig s)) }
{
    let n = system.table.n as usize;
    let m = system.table.m as usize;
    let mut i = 0;
    let mut d = 0;
    for s in 0..n {
        let end = row_end(system.source, m, s, i);
        begins[s] = d as u16;
        d = sign_rows(
            system.label,
            system.target,
            home,
            i,
            end,
            labels,
            blocks,
            d,
            pushed_labels,
            pushed_blocks,
            order,
            spare,
        );
        i = end;
    }
    d
}

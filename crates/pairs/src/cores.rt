// What other crates call once two lists of pairs are checked. No entry points: each says what it requires.
ghost use Rattle.std.specs.Prelude.{◌≡◌, ◌≤◌, ◌&&◌, length, nat_lt};
ghost use Rattle.columns.specs.Sets.{pair_lt, pair_eq, Ascending};
ghost use Rattle.pairs.specs.Pairs.{pairs};
ghost use Rattle.pairs.specs.Subset.{not_below, subsetb};
ghost use Rattle.columns.specs.Rows.{pair_at};

use crate::pairs::{below, equal, shorter};

// The first of the pairs from i to before n that is not below (label, block); n if there is none.
pub fn pass_below(
    labels: &[u16],
    blocks: &[u16],
    n: usize,
    i: usize,
    label: u16,
    block: u16,
) -> usize
    requires { (i ≤ n) × (n ≤ length labels.now) × (n ≤ length blocks.now) }
    ensures { result ≡ not_below labels.now blocks.now n i (label, block) }
{
    (i..n)
        .find(|&k| !below(labels[k], blocks[k], label, block))
        .unwrap_or(n)
}

// Whether k is below n and pair k is (label, block).
pub fn stands(labels: &[u16], blocks: &[u16], n: usize, k: usize, label: u16, block: u16) -> bool
    requires { (n ≤ length labels.now) × (n ≤ length blocks.now) }
    ensures { result ≡ (nat_lt k n && pair_eq (pair_at labels.now blocks.now k) (label, block)) }
{
    if n <= k {
        return false;
    }
    equal(labels[k], blocks[k], label, block)
}

// Whether every pair of other, apart from the excluded one, is in self. Both ascend, and are walked once.
pub fn subset(
    self_labels: &[u16],
    self_blocks: &[u16],
    other_labels: &[u16],
    other_blocks: &[u16],
    label: u16,
    block: u16,
) -> bool
    requires { Ascending pair_lt (pairs self_labels.now self_blocks.now)
        × Ascending pair_lt (pairs other_labels.now other_blocks.now) }
    ensures { result ≡ subsetb self_labels.now self_blocks.now other_labels.now other_blocks.now (label, block) }
{
    let n = shorter(self_labels.len(), self_blocks.len());
    let mut i = 0;
    for (&l, &b) in other_labels.iter().zip(other_blocks) {
        if !equal(l, b, label, block) {
            let k = pass_below(self_labels, self_blocks, n, i, l, b);
            if !stands(self_labels, self_blocks, n, k, l, b) {
                return false;
            }
            i = k + 1;
        }
    }
    true
}

// Stored signatures compared. No entry points: each says what it requires.
ghost use Rattle.std.specs.Prelude.{◌≡◌, ◌+◌, ◌≤◌, ◌<◌, length};
ghost use Rattle.columns.specs.Counting.{all};
ghost use Rattle.refinement_signing.specs.Stored.{end_in, Held, alike, pair_same, store};

use columns::cells::at;

// Whether the pairs at i and at j are the same.
#[tactic(auto, unfolding(crate::specs::Stored::pair_same, columns::specs::Sets::pair_eq))]
fn pair_same(labels: &[u16], blocks: &[u16], i: usize, j: usize) -> bool
    requires { (i < length labels.now) × (i < length blocks.now) × (j < length labels.now) × (j < length blocks.now) }
    ensures { result ≡ pair_same labels.now blocks.now i j }
{
    at(labels, i) == at(labels, j) && at(blocks, i) == at(blocks, j)
}

// Whether the k pairs from x on are those from v on.
fn same_pairs(labels: &[u16], blocks: &[u16], x: usize, v: usize, k: usize) -> bool
    requires { (x + k ≤ length labels.now) × (x + k ≤ length blocks.now) × (v + k ≤ length labels.now)
        × (v + k ≤ length blocks.now) }
    ensures { result ≡ all k (λ i. pair_same labels.now blocks.now (x + i) (v + i)) }
{
    (0..k).all(|i| pair_same(labels, blocks, x + i, v + i))
}

// Where the signature of state s ends, of n that have d pairs together.
#[tactic(auto, unfolding(crate::specs::Stored::end_in))]
fn end_of(n: usize, d: usize, begins: &[u16], s: usize) -> usize
    requires { (s < n) × (n ≤ length begins.now) }
    ensures { result ≡ end_in n d begins.now s }
{
    let next = s + 1;
    if next < n { at(begins, next) } else { d }
}

// Whether two states have one signature.
pub fn same_signature(
    n: usize,
    labels: &[u16],
    blocks: &[u16],
    d: usize,
    begins: &[u16],
    s: usize,
    u: usize,
) -> bool
    requires { Held (store n labels.now blocks.now d begins.now) × (s < n) × (u < n) }
    ensures { result ≡ alike (store n labels.now blocks.now d begins.now) s u }
{
    let x = at(begins, s);
    let z = end_of(n, d, begins, s);
    let v = at(begins, u);
    let w = end_of(n, d, begins, u);
    let k = z - x;
    w - v == k && same_pairs(labels, blocks, x, v, k)
}

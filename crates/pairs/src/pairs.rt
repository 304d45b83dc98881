// Pairs (label, block) in two lent columns. No entry points: what the checks and the walk read.
ghost use Rattle.std.specs.Prelude.{◌≡◌, ◌<◌, ◌≤◌, length};
ghost use Rattle.columns.specs.Counting.{first};
ghost use Rattle.columns.specs.Sets.{pair_lt, pair_eq};
ghost use Rattle.pairs.specs.Pairs.{shorter, bad_pair};

// Whether the pair (a, b) is below (c, d).
pub fn below(a: u16, b: u16, c: u16, d: u16) -> bool
    ensures { result ≡ pair_lt (a, b) (c, d) }
{
    (a, b) < (c, d)
}

// Whether the pairs (a, b) and (c, d) are equal.
pub fn equal(a: u16, b: u16, c: u16, d: u16) -> bool
    ensures { result ≡ pair_eq (a, b) (c, d) }
{
    (a, b) == (c, d)
}

// The shorter of two lengths.
pub fn shorter(a: usize, b: usize) -> usize
    ensures { result ≡ shorter a b }
{
    if a < b { a } else { b }
}

// Whether pair j is not the first of the list that begins at `from`, and not above the one before.
fn bad_pair(labels: &[u16], blocks: &[u16], from: usize, j: usize) -> bool
    requires { (j < length labels.now) × (j < length blocks.now) }
    ensures { result ≡ bad_pair labels.now blocks.now from j }
{
    if j <= from {
        return false;
    }
    !below(labels[j - 1], blocks[j - 1], labels[j], blocks[j])
}

// The first bad pair of the list from `from` to before `to`; `to` if there is none.
pub fn first_bad(labels: &[u16], blocks: &[u16], from: usize, to: usize) -> usize
    requires { (from ≤ to) × (to ≤ length labels.now) × (to ≤ length blocks.now) }
    ensures { result ≡ first to (bad_pair labels.now blocks.now from) }
{
    (from..to)
        .find(|&j| bad_pair(labels, blocks, from, j))
        .unwrap_or(to)
}

// The heads of the lists that are merged. No entry points. A place in the flat pairs is two cells, high and low.
ghost use Rattle.std.specs.Prelude.{◌≡◌, ℕ, ◌+◌, ◌<◌, length, ◌≢◌};
ghost use Rattle.pairs_merge.specs.Merged.{wide, heads, not_after, Fit};

use columns::cells::at;
use pairs::pairs::below;

// The number in cells j.
pub fn place(high: &[u16], low: &[u16], j: usize) -> usize
    requires { (j < length high.now) × (j < length low.now) }
    ensures { (result ≡ wide high.now low.now j) × (result < 4294967296) }
{
    let x = at(high, j);
    let y = at(low, j);
    x * 65536 + y
}

// Whether list b is at its end, or list a is not and its head is not above that of b.
pub fn not_after(
    labels: &[u16],
    blocks: &[u16],
    high: &[u16],
    low: &[u16],
    end_high: &[u16],
    end_low: &[u16],
    a: usize,
    b: usize,
) -> bool
    requires fit { Fit (heads labels.now blocks.now high.now low.now end_high.now end_low.now) a }
    requires fit_2 { Fit (heads labels.now blocks.now high.now low.now end_high.now end_low.now) b }
    ensures { result ≡ not_after (heads labels.now blocks.now high.now low.now end_high.now end_low.now) a b }
{
    let y = place(high, low, b);
    if place(end_high, end_low, b) <= y {
        return true;
    }
    let x = place(high, low, a);
    if place(end_high, end_low, a) <= x {
        return false;
    }
    !below(labels[y], blocks[y], labels[x], blocks[x])
}

// List j goes on by one.
pub fn advance(high: &mut [u16], low: &mut [u16], j: usize)
    requires { (j < length high.old) × (j < length low.old) × (wide high.old low.old j + 1 < 4294967296) }
    ensures { (wide high.new low.new j ≡ wide high.old low.old j + 1)
        × ((i : ℕ) → (i ≢ j) → wide high.new low.new i ≡ wide high.old low.old i) }
{
    let y = at(&*low, j);
    if y == 65535 {
        let x = at(&*high, j);
        high[j] = (x + 1) as u16;
        low[j] = 0;
        return;
    }
    low[j] = (y + 1) as u16;
}

// How many pairs are left of the lists. No entry points.
ghost use Rattle.std.specs.Prelude.{◌≡◌, ◌*◌, ◌<◌, ◌≤◌, [], length};
ghost use Rattle.pairs_merge.specs.Merged.{heads};
ghost use Rattle.pairs_merge.specs.Rest.{left_of, left_in};

use crate::heads::place;

// How many pairs are left of list j.
fn left_of(high: &[u16], low: &[u16], end_high: &[u16], end_low: &[u16], j: usize) -> usize
    requires { (j < length high.now) × (j < length low.now) × (j < length end_high.now) × (j < length end_low.now) }
    ensures { (result ≡ left_of (heads [] [] high.now low.now end_high.now end_low.now) j) × (result < 4294967296) }
{
    let x = place(high, low, j);
    let y = place(end_high, end_low, j);
    if y <= x {
        return 0;
    }
    y - x
}

// How many pairs are left of the first k lists.
pub fn left_in(high: &[u16], low: &[u16], end_high: &[u16], end_low: &[u16], k: usize) -> usize
    requires { (k ≤ length high.now) × (k ≤ length low.now) × (k ≤ length end_high.now) × (k ≤ length end_low.now)
        × (k ≤ 16384) }
    ensures { (result ≡ left_in (heads [] [] high.now low.now end_high.now end_low.now) k) × (result ≤ k * 4294967296) }
{
    (0..k)
        .map(|j| left_of(high, low, end_high, end_low, j))
        .sum()
}

// Given lists of pairs: flat in two columns, with n + 1 starts; list u is the pairs from start u to before start u + 1.
// No entry points: what a call that is lent such lists tests.
ghost use Rattle.std.specs.Prelude.{◌≡◌, ◌+◌, ◌<◌, ◌≤◌, length, slice_index};
ghost use Rattle.columns.specs.Answers.{checked};
ghost use Rattle.columns.specs.Counting.{first};
ghost use Rattle.pairs.specs.Pairs.{end_of};
ghost use Rattle.pairs.specs.Lists.{bad_start, bad_in_lists, Starts, lists_refusal};
ghost use Rattle.columns.specs.Limits.{max_states};

use crate::pairs::{first_bad, shorter};
use columns::answers::Refusal;
use columns::checks::refuse_unless;

// Start u, as an index.
pub fn start(starts: &[u32], u: usize) -> usize
    requires { u < length starts.now }
    ensures { result ≡ slice_index starts.now u }
{
    starts[u] as usize
}

// Whether start u lies below the one before, or past the end.
fn bad_start(starts: &[u32], end: usize, u: usize) -> bool
    requires { u < length starts.now }
    ensures { result ≡ bad_start starts.now end u }
{
    let x = start(starts, u);
    if end < x {
        return true;
    }
    if u == 0 {
        return false;
    }
    x < start(starts, u - 1)
}

// The first of the first n starts that is bad; n if there is none.
fn first_bad_start(n: usize, starts: &[u32], end: usize) -> usize
    requires { n ≤ length starts.now }
    ensures { result ≡ first n (bad_start starts.now end) }
{
    (0..n).find(|&u| bad_start(starts, end, u)).unwrap_or(n)
}

// The first pair that is not above the one before it in its list; the end if there is none.
fn first_bad_in(n: usize, starts: &[u32], labels: &[u16], blocks: &[u16], end: usize) -> usize
    requires n_in_bounds { (n + 1 ≤ length starts.now) × (end ≡ end_of labels.now blocks.now) }
    requires starts { Starts starts.now n end }
    ensures { result ≡ first end (bad_in_lists starts.now n labels.now blocks.now) }
{
    for u in 0..n {
        let to = start(starts, u + 1);
        let bad = first_bad(labels, blocks, start(starts, u), to);
        if bad < to {
            return bad;
        }
    }
    end
}

// 15 at the first start that lies below the one before or past the end; else at the first pair that is not above the one
// before it in its list.
pub fn check_lists(n: usize, starts: &[u32], labels: &[u16], blocks: &[u16]) -> Result<(), Refusal>
    requires { (n + 1 ≤ length starts.now) × (n ≤ max_states) }
    ensures { checked result ≡ lists_refusal starts.now n labels.now blocks.now }
{
    let end = shorter(labels.len(), blocks.len());
    let bad = first_bad_start(n + 1, starts, end);
    let index = bad as u64;
    refuse_unless(n < bad, Refusal::WrongList { index })?;
    let bad = first_bad_in(n, starts, labels, blocks, end);
    let index = bad as u64;
    refuse_unless(end <= bad, Refusal::WrongList { index })
}

// What `partition_marked_with` refuses. No work memory is touched: numbers are noted in a local array.
ghost use Rattle.std.specs.Prelude.{◌≡◌, ℕ, ◌<◌, ◌≤◌, true, ltb, [], ◌∷◌, length, if◌then◌else◌, ◌==◌, nat_eq, nat_lt, slice_index, slice_set};
ghost use Rattle.columns.specs.Answers.{checked};
ghost use Rattle.columns.specs.Due.{due};
ghost use Rattle.columns.specs.Counting.{first, all};
ghost use Rattle.partition.specs.Marked.{marked_from};
ghost use Rattle.partition_passes.specs.Invariants.{tallied};
ghost use Rattle.partition_division.specs.Division.{unfit_tests, refusal_for};
ghost use Rattle.partition.specs.Partition.{parts_of};
ghost use Rattle.columns.specs.Limits.{max_states};

use columns::answers::Refusal;
use columns::cells::at;
use columns::checks::{long, refuse_unless};
use columns::limits::MAX_STATES;
use partition::PartitionColumns;

// Whether state s is a marked one of block b, whose marks begin at place m.
fn is_marked(element_offset: &[u16], element_to_block: &[u16], b: usize, m: usize, s: usize) -> bool
    requires { (s < length element_offset.now) × (s < length element_to_block.now) }
    ensures { result ≡ marked_from element_offset.now element_to_block.now b m s }
{
    at(element_to_block, s) == b && m <= at(element_offset, s)
}

// Cell k, if it is below n, becomes 1.
fn note_one(n: usize, k: usize, seen: &mut [u16])
    requires { n ≤ length seen.old }
    ensures { seen.new ≡ (if ltb k n then slice_set seen.old k 1 else seen.old) }
{
    if k < n {
        seen[k] = 1;
    }
}

// Notes which numbers below n the marked states have, in cells that are 0.
fn note(
    n: usize,
    element_offset: &[u16],
    element_to_block: &[u16],
    b: usize,
    m: usize,
    numbers: &[u16],
    seen: &mut [u16],
)
    requires n_in_bounds { (n ≤ length element_offset.now) × (n ≤ length element_to_block.now) × (n ≤ length numbers.now)
        × (n ≤ length seen.old) }
    requires by_index { (k : ℕ) → slice_index seen.old k ≡ 0 }
    ensures { (k : ℕ) → k < n → (slice_index seen.new k == 0)
        ≡ (tallied (marked_from element_offset.now element_to_block.now b m) (λ s. slice_index numbers.now s) n k == 0) }
{
    for s in 0..n {
        if is_marked(element_offset, element_to_block, b, m, s) {
            note_one(n, at(numbers, s), seen);
        }
    }
}

// The first of n cells that is 0, and n if none is.
fn first_zero(n: usize, a: &[u16]) -> usize
    requires { n ≤ length a.now }
    ensures { result ≡ first n (λ k. nat_eq (slice_index a.now k) 0) }
{
    a[..n].iter().position(|&x| x == 0).unwrap_or(n)
}

// The least number that no marked state has. It takes no work memory.
fn least_missing(
    n: usize,
    element_offset: &[u16],
    element_to_block: &[u16],
    b: usize,
    m: usize,
    numbers: &[u16],
) -> usize
    requires { (n ≤ length element_offset.now) × (n ≤ length element_to_block.now) × (n ≤ length numbers.now)
        × (n ≤ max_states) }
    ensures { let marked = marked_from element_offset.now element_to_block.now b m in
        result ≡ first n (λ k. nat_eq (tallied marked (λ s. slice_index numbers.now s) n k) 0) }
{
    let mut seen = [0u16; MAX_STATES];
    note(
        n,
        element_offset,
        element_to_block,
        b,
        m,
        numbers,
        &mut seen,
    );
    first_zero(n, &seen)
}

// Whether state s has a number below k, if it is marked.
fn below_at(
    element_offset: &[u16],
    element_to_block: &[u16],
    b: usize,
    m: usize,
    k: usize,
    s: usize,
    numbers: &[u16],
) -> bool
    requires { (s < length element_offset.now) × (s < length element_to_block.now) × (s < length numbers.now) }
    ensures { result ≡ (if marked_from element_offset.now element_to_block.now b m s then nat_lt (slice_index numbers.now s) k else true) }
{
    !is_marked(element_offset, element_to_block, b, m, s) || at(numbers, s) < k
}

// Whether every marked state has a number below k.
fn all_below(
    n: usize,
    element_offset: &[u16],
    element_to_block: &[u16],
    b: usize,
    m: usize,
    k: usize,
    numbers: &[u16],
) -> bool
    requires { (n ≤ length element_offset.now) × (n ≤ length element_to_block.now) × (n ≤ length numbers.now) }
    ensures { result ≡ all n (λ s. (if marked_from element_offset.now element_to_block.now b m s then nat_lt (slice_index numbers.now s) k
        else true)) }
{
    (0..n).all(|s| below_at(element_offset, element_to_block, b, m, k, s, numbers))
}

// 9 or 10, the first that is due, for block b of columns that are checked, whatever the block count is.
fn check_unfit(
    n: usize,
    columns: &PartitionColumns<'_>,
    b: usize,
    numbers: &[u16],
) -> Result<(), Refusal>
    requires b_in_bounds { (b < length columns.now.begin.now) × (b < length columns.now.marked_split.now) × (b < length columns.now.end.now)
        × (slice_index columns.now.begin.now b ≤ slice_index columns.now.end.now b) }
    requires n_in_bounds { (n ≤ length columns.now.element_offset.now) × (n ≤ length columns.now.element_to_block.now)
        × (n ≤ length numbers.now) × (n ≤ max_states) }
    ensures { (count : ℕ) → checked result ≡ due (unfit_tests (parts_of columns.now n count) b numbers.now) }
{
    let m = at(columns.marked_split, b);
    let z = at(columns.end, b);
    let block = b as u64;
    refuse_unless(m < z, Refusal::NothingMarked { block })?;
    let x = at(columns.begin, b);
    if z - x == 1 {
        return Ok(());
    }
    let j = least_missing(
        n,
        columns.element_offset,
        columns.element_to_block,
        b,
        m,
        numbers,
    );
    let dense = all_below(
        n,
        columns.element_offset,
        columns.element_to_block,
        b,
        m,
        j,
        numbers,
    );
    let missing = j as u64;
    refuse_unless(dense, Refusal::NotDense { missing })
}

// The first refusal that the arguments call for; the work slices go by their lengths.
pub fn check_division(
    n: usize,
    count: usize,
    columns: &PartitionColumns<'_>,
    b: usize,
    numbers: &[u16],
    old_elements: usize,
    block_sizes: usize,
    spare: usize,
) -> Result<(), Refusal>
    requires { n < 65536 }
    ensures { checked result ≡ refusal_for (parts_of columns.now n count) b numbers.now (old_elements ∷ block_sizes ∷ spare ∷ []) }
{
    let works = long(n + 1, &[old_elements, block_sizes, spare]);
    columns.check_argument(n, count, b, count, (n <= numbers.len()) & works)?;
    check_unfit(n, columns, b, numbers)
}

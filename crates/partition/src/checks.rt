// The tests that every call makes of the columns it is lent.
ghost use Rattle.std.specs.Prelude.{◌≡◌, true, ◌≤◌, ◌<◌, length};
ghost use Rattle.columns.specs.Answers.{checked};
ghost use Rattle.columns.specs.Due.{due};
ghost use Rattle.columns.specs.Inverse.{inverseb};
ghost use Rattle.partition.specs.Partition.{withinb, insideb, block_at, boundsb, lie_at, liesb, lengths, consistentb, longb, parts_of};
ghost use Rattle.partition.specs.Checks.{size_tests, partition_tests, argument_refusal, blocks_refusal};
ghost use Rattle.columns.specs.Limits.{max_states};

use crate::PartitionColumns;
use columns::answers::Refusal;
use columns::cells::at;
use columns::checks::{check_index, check_states, long, refuse_unless};

// Whether each of the first n cells of a is below n and has its own place in b.
fn inverse_ok(n: usize, a: &[u16], b: &[u16]) -> bool
    requires { (n ≤ length a.now) × (n ≤ length b.now) }
    ensures { result ≡ inverseb a.now b.now n }
{
    (0..n).all(|k| {
        let x = at(a, k);
        x < n && at(b, x) == k
    })
}

// Whether from x to z is no empty stretch of the first n places, with y inside.
pub fn within(x: usize, y: usize, z: usize, n: usize) -> bool
    ensures { result ≡ withinb x y z n }
{
    (x < z) & ((x <= y) & ((y <= z) & (z <= n)))
}

// Whether o is from x to before z.
fn inside(x: usize, o: usize, z: usize) -> bool
    ensures { result ≡ insideb x o z }
{
    (x <= o) & (o < z)
}

// Whether the bounds of block b hold.
fn block_at(n: usize, begin: &[u16], marked_split: &[u16], end: &[u16], b: usize) -> bool
    requires { (b < length begin.now) × (b < length marked_split.now) × (b < length end.now) }
    ensures { result ≡ block_at begin.now marked_split.now end.now n b }
{
    within(at(begin, b), at(marked_split, b), at(end, b), n)
}

// Whether the bounds of the first count blocks hold.
fn blocks_ok(n: usize, count: usize, begin: &[u16], marked_split: &[u16], end: &[u16]) -> bool
    requires { (count ≤ length begin.now) × (count ≤ length marked_split.now) × (count ≤ length end.now) }
    ensures { result ≡ boundsb begin.now marked_split.now end.now n count }
{
    (0..count).all(|b| block_at(n, begin, marked_split, end, b))
}

// Whether state s's place lies in its block.
fn lie_at(
    count: usize,
    element_offset: &[u16],
    element_to_block: &[u16],
    begin: &[u16],
    end: &[u16],
    s: usize,
) -> bool
    requires s_in_bounds { (s < length element_offset.now) × (s < length element_to_block.now) }
    requires count_in_bounds { (count ≤ length begin.now) × (count ≤ length end.now) }
    ensures { result ≡ lie_at element_offset.now element_to_block.now begin.now end.now count s }
{
    let b = at(element_to_block, s);
    b < count && inside(at(begin, b), at(element_offset, s), at(end, b))
}

// Whether each of the n states' places lies in its block.
fn lies_ok(
    n: usize,
    count: usize,
    element_offset: &[u16],
    element_to_block: &[u16],
    begin: &[u16],
    end: &[u16],
) -> bool
    requires n_in_bounds { (n ≤ length element_offset.now) × (n ≤ length element_to_block.now) }
    requires count_in_bounds { (count ≤ length begin.now) × (count ≤ length end.now) }
    ensures { result ≡ liesb element_offset.now element_to_block.now begin.now end.now n count }
{
    (0..n).all(|s| lie_at(count, element_offset, element_to_block, begin, end, s))
}

// The lengths of the first count blocks, added up; a block whose end is before its begin counts 0.
fn length_sum(count: usize, begin: &[u16], end: &[u16]) -> usize
    requires { (count ≤ length begin.now) × (count ≤ length end.now) × (count ≤ 65535) }
    ensures { result ≡ lengths begin.now end.now count }
{
    let mut sum = 0;
    for b in 0..count {
        let x = at(begin, b);
        let z = at(end, b);
        if x <= z {
            sum += z - x;
        }
    }
    sum
}

impl PartitionColumns<'_> {
    // Whether the columns hold a partition of n states into count blocks.
    pub fn consistent(&self, n: usize, count: usize) -> bool
        requires n_in_bounds { (n ≤ length self.now.elements.now) × (n ≤ length self.now.element_offset.now) × (n ≤ length self.now.element_to_block.now) }
        requires n_in_bounds_2 { (n ≤ length self.now.begin.now) × (n ≤ length self.now.marked_split.now) × (n ≤ length self.now.end.now) × (n ≤ max_states) }
        ensures { result ≡ consistentb (parts_of self.now n count) }
    {
        1 <= count
            && count <= n
            && inverse_ok(n, self.elements, self.element_offset)
            && blocks_ok(n, count, self.begin, self.marked_split, self.end)
            && lies_ok(
                n,
                count,
                self.element_offset,
                self.element_to_block,
                self.begin,
                self.end,
            )
            && length_sum(count, self.begin, self.end) == n
    }

    // Whether each column has n cells.
    pub fn all_long(&self, n: usize) -> bool
        ensures { result ≡ longb (parts_of self.now n 0) }
    {
        long(
            n,
            &[
                self.elements.len(),
                self.element_offset.len(),
                self.element_to_block.len(),
                self.begin.len(),
                self.marked_split.len(),
                self.end.len(),
            ],
        )
    }

    // 1 or 7, the first that is due; `room` says whether the call's other slices are long enough.
    pub fn check_size(&self, n: usize, room: bool) -> Result<(), Refusal>
        ensures { checked result ≡ due (size_tests (parts_of self.now n 0) room) }
    {
        check_states(n)?;
        refuse_unless(self.all_long(n) & room, Refusal::TooShort)
    }

    // 1, 7 or 14, the first that is due; `room` says whether the call's other slices are long enough.
    pub fn check(&self, n: usize, count: usize, room: bool) -> Result<(), Refusal>
        ensures { checked result ≡ due (partition_tests (parts_of self.now n count) room) }
    {
        self.check_size(n, room)?;
        refuse_unless(self.consistent(n, count), Refusal::Inconsistent)
    }

    // What a call with the partition refuses that has an argument, a state or a block, which is below `bound`.
    pub fn check_argument(
        &self,
        n: usize,
        count: usize,
        i: usize,
        bound: usize,
        room: bool,
    ) -> Result<(), Refusal>
        ensures { checked result ≡ argument_refusal (parts_of self.now n count) i bound room }
    {
        self.check(n, count, room).and(check_index(i, bound))
    }

    // What a call with the partition and two blocks refuses.
    pub fn check_blocks(&self, n: usize, count: usize, l: usize, r: usize) -> Result<(), Refusal>
        ensures { checked result ≡ blocks_refusal (parts_of self.now n count) l r }
    {
        self.check(n, count, true)
            .and(check_index(l, count))
            .and(check_index(r, count))
    }
}

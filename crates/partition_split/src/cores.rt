// The work of `split_marked`, on columns that are checked already. This is no entry point: it asks that the columns are sound.
ghost use Rattle.std.specs.Prelude.{◌≡◌, ℕ, ◌-◌, ◌<◌, ◌≤◌, cond, length, slice_index, slice_set};
ghost use Rattle.partition.specs.Partition.{Sound, parts};
ghost use Rattle.partition_split.specs.Split.{sifting, sifted, split};

use columns::cells::at;
use partition::cores::{renumber, swap_elements};

// Swaps the chosen states of the positions from `from` to before `to` to the last places, and answers the first of these.
fn sift(
    elements: &mut [u16],
    element_offset: &mut [u16],
    choice: &[u8],
    from: usize,
    to: usize,
) -> usize
    requires from_le_to { (from ≤ to) × (to ≤ length elements.old) × (to ≤ 65536) }
    requires by_index { (k : ℕ) → k < to → (slice_index elements.old k < length choice.now)
        × (slice_index elements.old k < length element_offset.old) }
    ensures { sifting elements.new element_offset.new result ≡ sifted (to - from) choice.now elements.old element_offset.old from }
{
    let mut i = from;
    let mut e = to;
    while i < e {
        let s = at(&*elements, i);
        if choice[s] != 0 {
            e -= 1;
            swap_elements(&mut *elements, &mut *element_offset, i, e);
        } else {
            i += 1;
        }
    }
    e
}

// Where the marks of a block begin then: where they began, at m, if all of it is chosen, and otherwise at its new end e.
fn marks_then(all: bool, m: usize, e: usize) -> usize
    requires { (m < 65536) × (e < 65536) }
    ensures { (result ≡ cond all m e) × (result < 65536) }
{
    if all { m } else { e }
}

// Block b ends at e, where it ended at z; block `count` is from e to z, and unmarked.
fn cut(
    count: usize,
    begin: &mut [u16],
    marked_split: &mut [u16],
    end: &mut [u16],
    b: usize,
    e: usize,
    z: usize,
)
    requires b_in_bounds { (b < length end.old) × (e < 65536) × (z < 65536) }
    requires count_in_bounds { (count < length begin.old) × (count < length marked_split.old) × (count < length end.old) }
    ensures { (begin.new ≡ slice_set begin.old count e) × (marked_split.new ≡ slice_set marked_split.old count z)
        × (end.new ≡ slice_set (slice_set end.old b e) count z) }
{
    end[b] = e as u16;
    begin[count] = e as u16;
    marked_split[count] = z as u16;
    end[count] = z as u16;
}

// Splits block b by the choice, and answers the block count then.
pub fn split_marked(
    n: usize,
    count: usize,
    elements: &mut [u16],
    element_offset: &mut [u16],
    element_to_block: &mut [u16],
    begin: &mut [u16],
    marked_split: &mut [u16],
    end: &mut [u16],
    b: usize,
    choice: &[u8],
) -> usize
    requires sound { Sound (parts elements.old element_offset.old element_to_block.old begin.old marked_split.old end.old n count) }
    requires b_lt_count { (b < count) × (n ≤ length choice.now) }
    ensures { let given = parts elements.old element_offset.old element_to_block.old begin.old marked_split.old end.old n count in
        let left = parts elements.new element_offset.new element_to_block.new begin.new marked_split.new end.new n result in
        left ≡ split given b choice.now }
{
    let x = at(&*begin, b);
    let m = at(&*marked_split, b);
    let z = at(&*end, b);
    let e = sift(&mut *elements, &mut *element_offset, choice, m, z);
    // Nothing is chosen.
    if e == z {
        return count;
    }
    // The whole block is: its marks stay.
    let all = e == x;
    marked_split[b] = marks_then(all, m, e) as u16;
    if all {
        return count;
    }
    cut(count, &mut *begin, &mut *marked_split, &mut *end, b, e, z);
    renumber(&*elements, &mut *element_to_block, e, z, count);
    count + 1
}

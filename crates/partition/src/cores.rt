// The work of the calls, on columns that are checked already. These are no entry points: each says what it requires.
ghost use Rattle.std.specs.Prelude.{◌≡◌, ℕ, ◌≤◌, ◌<◌, length, get_or};
ghost use Rattle.columns.specs.Columns.{swapped};
ghost use Rattle.columns.specs.Inverse.{swapped_inverse};
ghost use Rattle.partition.specs.Block.{entry};
ghost use Rattle.partition.specs.Fresh.{fresh};
ghost use Rattle.partition.specs.Mark.{marks, mark_in};
ghost use Rattle.partition.specs.Partition.{Long, parts};
ghost use Rattle.partition.specs.SwapBlocks.{renumbered};
ghost use Rattle.partition.specs.Cores.{Markable, blocks, Swappable, swap_in};
ghost use Rattle.columns.specs.Limits.{max_states};

use crate::block::Block;
use columns::cells::{at, clear, count_up, swap_cells};

// One block of all n states, in order, all marked.
pub fn new(
    n: usize,
    elements: &mut [u16],
    element_offset: &mut [u16],
    element_to_block: &mut [u16],
    begin: &mut [u16],
    marked_split: &mut [u16],
    end: &mut [u16],
)
    requires long { Long (parts elements.old element_offset.old element_to_block.old begin.old marked_split.old end.old n 1) }
    requires le_n { (1 ≤ n) × (n ≤ max_states) }
    ensures { let given = parts elements.old element_offset.old element_to_block.old begin.old marked_split.old end.old n 1 in
        let left = parts elements.new element_offset.new element_to_block.new begin.new marked_split.new end.new n 1 in
        left ≡ fresh given }
{
    count_up(&mut elements[..n]);
    count_up(&mut element_offset[..n]);
    clear(&mut element_to_block[..n]);
    begin[0] = 0;
    marked_split[0] = 0;
    end[0] = n as u16;
}

// Entry b of the block table.
pub fn read_block(begin: &[u16], marked_split: &[u16], end: &[u16], b: usize) -> Block
    requires { (b < length begin.now) × (b < length marked_split.now) × (b < length end.now) }
    ensures { result ≡ entry begin.now marked_split.now end.now b }
{
    Block {
        begin: begin[b],
        marked_split: marked_split[b],
        end: end[b],
    }
}

// Exchanges the states at the positions i and j.
pub fn swap_elements(elements: &mut [u16], element_offset: &mut [u16], i: usize, j: usize)
    requires i_in_bounds { (i < length elements.old) × (j < length elements.old) × (i < 65536) × (j < 65536) }
    requires i_in_bounds_2 { (get_or elements.old i 0 < length element_offset.old) × (get_or elements.old j 0 < length element_offset.old) }
    ensures { (elements.new ≡ swapped i j elements.old) × (element_offset.new ≡ swapped_inverse i j elements.old element_offset.old) }
{
    let x = elements[i];
    let y = elements[j];
    elements[i] = y;
    elements[j] = x;
    element_offset[y as usize] = i as u16;
    element_offset[x as usize] = j as u16;
}

// Marks state s.
pub fn mark_element(
    elements: &mut [u16],
    element_offset: &mut [u16],
    element_to_block: &[u16],
    marked_split: &mut [u16],
    s: usize,
)
    requires { Markable element_to_block.now (marks elements.old element_offset.old marked_split.old) s }
    ensures { let given = marks elements.old element_offset.old marked_split.old in
        let left = marks elements.new element_offset.new marked_split.new in
        left ≡ mark_in element_to_block.now given s }
{
    let b = at(element_to_block, s);
    let o = at(&*element_offset, s);
    let m = at(&*marked_split, b);
    if o < m {
        swap_elements(&mut *elements, &mut *element_offset, o, m - 1);
        marked_split[b] = (m - 1) as u16;
    }
}

// The states at the positions from x to before z get the block number v.
pub fn renumber(elements: &[u16], element_to_block: &mut [u16], x: usize, z: usize, v: usize)
    requires x_le_z { (x ≤ z) × (z ≤ length elements.now) × (v < 65536) }
    requires by_index { (k : ℕ) → k < z → get_or elements.now k 0 < length element_to_block.old }
    ensures { element_to_block.new ≡ renumbered elements.now x z v element_to_block.old }
{
    for &s in &elements[x..z] {
        element_to_block[s as usize] = v as u16;
    }
}

// Exchanges the blocks l and r.
pub fn swap_blocks(
    elements: &[u16],
    element_to_block: &mut [u16],
    begin: &mut [u16],
    marked_split: &mut [u16],
    end: &mut [u16],
    l: usize,
    r: usize,
)
    requires { let given = blocks element_to_block.old begin.old marked_split.old end.old in
        Swappable elements.now given l × Swappable elements.now given r }
    ensures { let given = blocks element_to_block.old begin.old marked_split.old end.old in
        let left = blocks element_to_block.new begin.new marked_split.new end.new in
        left ≡ swap_in elements.now given l r }
{
    let xl = at(&*begin, l);
    let zl = at(&*end, l);
    let xr = at(&*begin, r);
    let zr = at(&*end, r);
    swap_cells(&mut *begin, l, r);
    swap_cells(&mut *marked_split, l, r);
    swap_cells(&mut *end, l, r);
    renumber(elements, &mut *element_to_block, xr, zr, l);
    renumber(elements, &mut *element_to_block, xl, zl, r);
}

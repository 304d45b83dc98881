// The work of `mark_backward_closure`, on columns that are checked already. No entry points: each says what it requires.
ghost use Rattle.std.specs.Prelude.{◌≡◌, ◌<◌, ◌≤◌, length, slice_index};
ghost use Rattle.table_closure.specs.Closure.{going_on, close};
ghost use Rattle.table_closure.specs.Listed.{row_list, mark_listed, read_listed, Listed, Fits};
ghost use Rattle.partition.specs.Mark.{marks};
ghost use Rattle.partition.specs.Partition.{Sound, parts};
ghost use Rattle.table.specs.Lts.{Valid, lts_of};
ghost use Rattle.columns.specs.Lent.{Clear, Cleared};

use crate::inner::list_inner;
use columns::cells::{at, clear};
use partition::cores::mark_element;
use table::Lts;
use table::cores::incoming_rows_of;

// Marks the sources of the h listed rows that lead to u, one after the other.
fn mark_into(
    system: &Lts<'_>,
    elements: &mut [u16],
    element_offset: &mut [u16],
    element_to_block: &[u16],
    marked_split: &mut [u16],
    u: usize,
    order: &[u16],
    h: usize,
)
    requires listed { let t = lts_of system.now in Listed t.n (row_list t.source t.target order.now) h }
    requires fits { let t = lts_of system.now in Fits t.n element_to_block.now (marks elements.old element_offset.old marked_split.old) }
    ensures { let t = lts_of system.now in
        let given = marks elements.old element_offset.old marked_split.old in
        let left = marks elements.new element_offset.new marked_split.new in
        left ≡ mark_listed (row_list t.source t.target order.now) element_to_block.now u h given }
{
    let rows = incoming_rows_of(system.target, order, h, u);
    for j in rows.first..rows.end {
        let s = at(system.source, at(order, j));
        mark_element(elements, element_offset, element_to_block, marked_split, s);
    }
}

// Whether the position before `it` is marked, and something between begin and marked_split is not.
fn going_on(begin: usize, marked_split: usize, it: usize) -> bool
    ensures { result ≡ going_on begin marked_split it }
{
    marked_split < it && begin < marked_split
}

// Closes the marks of block b under the h listed rows.
fn close_marks(
    system: &Lts<'_>,
    elements: &mut [u16],
    element_offset: &mut [u16],
    element_to_block: &[u16],
    begin: &[u16],
    marked_split: &mut [u16],
    end: &[u16],
    b: usize,
    order: &[u16],
    h: usize,
)
    requires listed { let t = lts_of system.now in Listed t.n (row_list t.source t.target order.now) h }
    requires fits { let t = lts_of system.now in Fits t.n element_to_block.now (marks elements.old element_offset.old marked_split.old) }
    requires b_in_bounds { (b < length begin.now) × (b < length marked_split.old) × (b < length end.now)
        × (slice_index end.now b ≤ (lts_of system.now).n) }
    ensures { let t = lts_of system.now in
        let given = marks elements.old element_offset.old marked_split.old in
        let left = marks elements.new element_offset.new marked_split.new in
        let rows = row_list t.source t.target order.now in
        left ≡ read_listed rows h element_to_block.now b (slice_index begin.now b) (slice_index end.now b) given }
{
    let x = at(begin, b);
    let mut it = at(end, b);
    while going_on(x, at(&*marked_split, b), it) {
        it -= 1;
        let u = at(&*elements, it);
        mark_into(
            system,
            elements,
            element_offset,
            element_to_block,
            marked_split,
            u,
            order,
            h,
        );
    }
}

// Closes the marks of block b under incoming hidden steps within the block. Every cell of `order` and `spare` is zero, and zero then. A
// block with nothing marked, or with nothing unmarked, needs no list.
pub fn mark_backward_closure(
    system: &Lts<'_>,
    count: usize,
    elements: &mut [u16],
    element_offset: &mut [u16],
    element_to_block: &[u16],
    begin: &[u16],
    marked_split: &mut [u16],
    end: &[u16],
    b: usize,
    order: &mut [u16],
    spare: &mut [u16],
)
    requires valid { let t = lts_of system.now in Valid t × (t.m ≤ length order.old) × (t.m ≤ length spare.old) }
    requires clear { Clear order.old × Clear spare.old }
    requires sound { let t = lts_of system.now in
        Sound (parts elements.old element_offset.old element_to_block.now begin.now marked_split.old end.now t.n count) × (b < count) }
    ensures left_value { let t = lts_of system.now in
        let given = parts elements.old element_offset.old element_to_block.now begin.now marked_split.old end.now t.n count in
        let left = parts elements.new element_offset.new element_to_block.now begin.now marked_split.new end.now t.n count in
        left ≡ close t given b }
    ensures cleared { Cleared order.old order.new × Cleared spare.old spare.new }
{
    let x = at(begin, b);
    let z = at(end, b);
    if going_on(x, at(&*marked_split, b), z) {
        let h = list_inner(system, &*elements, element_to_block, b, x, z, order, spare);
        close_marks(
            system,
            elements,
            element_offset,
            element_to_block,
            begin,
            marked_split,
            end,
            b,
            &*order,
            h,
        );
        clear(&mut order[..h]);
    }
}

// The blocks of a partition divided by the signatures that are stored. No entry points: each says what it requires.
ghost use Rattle.std.specs.Prelude.{◌≡◌, ◌<◌, ◌≤◌, length, slice_index, slice_set};
ghost use Rattle.columns.specs.Lent.{Clear};
ghost use Rattle.partition.specs.Partition.{Sound, parts};
ghost use Rattle.refinement_rounds.specs.Rooms.{ClearFront, store_behind};
ghost use Rattle.refinement_rounds.specs.Splitting.{stored_signature, Split, Rounded};
ghost use Rattle.refinement_signing.specs.Stored.{Held};

use columns::cells::at;
use partition_division::cores::partition_marked_with;
use refinement_signing::numbering::number_block;

// Block b is wholly marked.
fn mark_all(begin: &[u16], marked_split: &mut [u16], b: usize)
    requires { (b < length begin.now) × (b < length marked_split.old) }
    ensures { marked_split.new ≡ slice_set marked_split.old b (slice_index begin.now b) }
{
    marked_split[b] = begin[b];
}

// Divides block b by the signatures of its states, d pairs in all, which stand behind the first n + 1 cells of `labels` and `blocks`.
// Returns the number of blocks then; those from count on are new. Work: a number for each state, and for the division the first n + 1
// cells of `labels` and `blocks`, and `spare`, zero before and after.
fn split_block(
    n: usize,
    count: usize,
    elements: &mut [u16],
    element_offset: &mut [u16],
    element_to_block: &mut [u16],
    begin: &mut [u16],
    marked_split: &mut [u16],
    end: &mut [u16],
    b: usize,
    begins: &[u16],
    numbers: &mut [u16],
    labels: &mut [u16],
    blocks: &mut [u16],
    d: usize,
    spare: &mut [u16],
) -> usize
    requires sound { Sound (parts elements.old element_offset.old element_to_block.old begin.old marked_split.old end.old n count) × (b <
        count) }
    requires held { Held (store_behind n labels.old blocks.old d begins.now) × (n ≤ length numbers.old) }
    requires clear_front { ClearFront n labels.old × ClearFront n blocks.old × (n < length spare.old) × Clear spare.old }
    ensures fact { let given = parts elements.old element_offset.old element_to_block.old begin.old marked_split.old end.old n count in
        let left = parts elements.new element_offset.new element_to_block.new begin.new marked_split.new end.new n result in
        Split (stored_signature (store_behind n labels.old blocks.old d begins.now)) given b left }
    ensures labels_value { (labels.new ≡ labels.old) × (blocks.new ≡ blocks.old) × (spare.new ≡ spare.old) }
{
    let h = n + 1;
    let x = at(&*begin, b);
    let z = at(&*end, b);
    number_block(
        n,
        &*elements,
        &labels[h..],
        &blocks[h..],
        d,
        begins,
        x,
        z,
        &mut *numbers,
    );
    mark_all(&*begin, &mut *marked_split, b);
    partition_marked_with(
        n,
        count,
        &mut *elements,
        &mut *element_offset,
        &mut *element_to_block,
        &mut *begin,
        &mut *marked_split,
        &mut *end,
        b,
        &*numbers,
        &mut labels[..h],
        &mut blocks[..h],
        &mut *spare,
    )
}

// Divides every block by the signatures of its states. Returns the number of blocks then. Work: as for one block.
pub fn split_all(
    n: usize,
    count: usize,
    elements: &mut [u16],
    element_offset: &mut [u16],
    element_to_block: &mut [u16],
    begin: &mut [u16],
    marked_split: &mut [u16],
    end: &mut [u16],
    begins: &[u16],
    numbers: &mut [u16],
    labels: &mut [u16],
    blocks: &mut [u16],
    d: usize,
    spare: &mut [u16],
) -> usize
    requires sound { Sound (parts elements.old element_offset.old element_to_block.old begin.old marked_split.old end.old n count) }
    requires held { Held (store_behind n labels.old blocks.old d begins.now) × (n ≤ length numbers.old) }
    requires clear_front { ClearFront n labels.old × ClearFront n blocks.old × (n < length spare.old) × Clear spare.old }
    ensures fact { let given = parts elements.old element_offset.old element_to_block.old begin.old marked_split.old end.old n count in
        let left = parts elements.new element_offset.new element_to_block.new begin.new marked_split.new end.new n result in
        Rounded (stored_signature (store_behind n labels.old blocks.old d begins.now)) given left }
    ensures labels_value { (labels.new ≡ labels.old) × (blocks.new ≡ blocks.old) × (spare.new ≡ spare.old) }
{
    let mut c = count;
    for b in 0..count {
        c = split_block(
            n,
            c,
            elements,
            element_offset,
            element_to_block,
            begin,
            marked_split,
            end,
            b,
            begins,
            numbers,
            labels,
            blocks,
            d,
            spare,
        );
    }
    c
}

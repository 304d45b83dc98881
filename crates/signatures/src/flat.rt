// What was pushed, as a signature: sorted, and without duplicates. No entry points: each says what it requires.
ghost use Rattle.std.specs.Prelude.{◌≡◌, ◌+◌, ◌*◌, ◌/◌, ◌≤◌, [], ◌∷◌, map, length};
ghost use Rattle.columns.specs.Answers.{said_number};
ghost use Rattle.columns.specs.Columns.{over, wiped, cell};
ghost use Rattle.columns.specs.Rows.{pairs_of};
ghost use Rattle.signatures.specs.Pairs.{signature, pairs_over, room_for};
ghost use Rattle.signatures.specs.Signing.{finishing};

use columns::answers::{Answer, Refusal};
use columns::cells::clear;
use columns::rows::gather;
use columns::sorting::Keys;

// Whether two columns have room for d pairs.
#[tactic(auto, unfolding(crate::specs::Pairs::room_for))]
pub fn has_room(d: usize, labels: usize, blocks: usize) -> bool
    ensures { result ≡ room_for d labels blocks }
{
    d <= labels && d <= blocks
}

// The pairs that the numbers of `order` name, over the first cells of x and y.
fn write_pairs(a: &[u16], b: &[u16], order: &[u16], x: &mut [u16], y: &mut [u16])
    requires { (length order.now ≤ length x.old) × (length order.now ≤ length y.old) }
    ensures { (x.new ≡ over (map (cell a.now) order.now) x.old) × (y.new ≡ over (map (cell b.now) order.now) y.old) }
{
    gather(a, order, x);
    gather(b, order, y);
}

// The first d pairs pushed, as a signature over the first cells of `labels` and `blocks`. Returns the number of its pairs.
// The first d cells of `order` and half as many of `spare` are used, and zero then.
pub fn flatten(
    pushed_labels: &[u16],
    pushed_blocks: &[u16],
    d: usize,
    labels: &mut [u16],
    blocks: &mut [u16],
    order: &mut [u16],
    spare: &mut [u16],
) -> usize
    requires d_in_bounds { (d ≤ length pushed_labels.now) × (d ≤ length pushed_blocks.now) × (d ≤ length labels.old)
        × (d ≤ length blocks.old) }
    requires d_in_bounds_2 { (d ≤ length order.old) × (d ≤ 2 * length spare.old + 1) × (d ≤ 65536) }
    ensures value { result ≡ length (signature (pairs_of d pushed_labels.now pushed_blocks.now)) }
    ensures blocks_value { (labels.new, blocks.new)
        ≡ pairs_over (signature (pairs_of d pushed_labels.now pushed_blocks.now)) (labels.old, blocks.old) }
    ensures order_value { (order.new ≡ wiped d order.old) × (spare.new ≡ wiped (d / 2) spare.old) }
{
    let keys = Keys {
        first: pushed_labels,
        second: pushed_blocks,
        third: pushed_blocks,
    };
    let r = keys.pick_rows(&mut order[..d], spare);
    write_pairs(pushed_labels, pushed_blocks, &order[..r], labels, blocks);
    clear(&mut order[..d]);
    r
}

// The signature of the first d pairs pushed over the first cells of `labels` and `blocks`, or 16 where they have no room for all d.
// Every cell of the four work slices is zero then.
pub fn sign(
    labels: &mut [u16],
    blocks: &mut [u16],
    pushed_labels: &mut [u16],
    pushed_blocks: &mut [u16],
    d: usize,
    order: &mut [u16],
    spare: &mut [u16],
) -> Answer<u64>
    requires d_in_bounds { (d ≤ length pushed_labels.old) × (d ≤ length pushed_blocks.old) }
    requires d_in_bounds_2 { (d ≤ length order.old) × (d ≤ 2 * length spare.old + 1) × (d ≤ 65536) }
    ensures { let work = pushed_labels.old ∷ pushed_blocks.old ∷ order.old ∷ spare.old ∷ [] in
        let work_left = pushed_labels.new ∷ pushed_blocks.new ∷ order.new ∷ spare.new ∷ [] in
        (said_number result, ((labels.new, blocks.new), work_left))
        ≡ finishing d (signature (pairs_of d pushed_labels.old pushed_blocks.old)) (labels.old, blocks.old) work }
{
    let answer = if has_room(d, labels.len(), blocks.len()) {
        let r = flatten(
            &*pushed_labels,
            &*pushed_blocks,
            d,
            labels,
            blocks,
            &mut *order,
            &mut *spare,
        );
        Answer::done(r as u64)
    } else {
        Answer::refused(Refusal::NoRoom { needed: d as u64 })
    };
    clear(pushed_labels);
    clear(pushed_blocks);
    clear(order);
    clear(spare);
    answer
}

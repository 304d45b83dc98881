// One pair more in two result columns. No entry points.
ghost use Rattle.std.specs.Prelude.{◌≡◌, ◌<◌, ◌≤◌, length};
ghost use Rattle.pairs_merge.specs.Put.{last_is, put_first, put_last, put_count};

use pairs::pairs::equal;

// Whether the pair is the last of the first r.
fn is_last(labels: &[u16], blocks: &[u16], r: usize, label: u16, block: u16) -> bool
    requires { (r ≤ length labels.now) × (r ≤ length blocks.now) }
    ensures { result ≡ last_is labels.now blocks.now r (label, block) }
{
    if r == 0 {
        return false;
    }
    equal(labels[r - 1], blocks[r - 1], label, block)
}

// The pair goes into the cells r, unless it is the last of the first r. Returns how many there are then.
pub fn put(label: u16, block: u16, labels: &mut [u16], blocks: &mut [u16], r: usize) -> usize
    requires { (r < length labels.old) × (r < length blocks.old) }
    ensures { (result ≡ put_count labels.old blocks.old r (label, block)) × (labels.new ≡ put_first labels.old blocks.old r (label, block))
        × (blocks.new ≡ put_last labels.old blocks.old r (label, block)) }
{
    if is_last(&*labels, &*blocks, r, label, block) {
        return r;
    }
    labels[r] = label;
    blocks[r] = block;
    r + 1
}

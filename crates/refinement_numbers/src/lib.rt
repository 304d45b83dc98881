// Blocks numbered by least member. No entry points: each says what it requires.
#![tactic(auto)]

ghost use Rattle.std.specs.Prelude.{◌≡◌, ℕ, ◌≤◌, ◌<◌, length, get_or};
ghost use Rattle.columns.specs.Columns.{over};
ghost use Rattle.columns.specs.Lent.{Clear, Cleared};
ghost use Rattle.columns.specs.Limits.{max_states};
ghost use Rattle.refinement.specs.Blocks.{block_count, by_least};

use columns::cells::{at, clear};

// The number of each state's block, numbered by least member, over the first cells of `block`. Returns how many blocks there are. Work:
// `notes`, zero before and after; each block's number is noted in it, plus 1.
pub fn hand_out(n: usize, element_to_block: &[u16], block: &mut [u16], notes: &mut [u16]) -> usize
    requires n_in_bounds { (n ≤ length element_to_block.now) × (n ≤ length block.old) × (n ≤ max_states) }
    requires by_index { (s : ℕ) → s < n → get_or element_to_block.now s 0 < length notes.old }
    requires clear { Clear notes.old }
    ensures { (result ≡ block_count n element_to_block.now) × (block.new ≡ over (by_least n element_to_block.now) block.old)
        × Cleared notes.old notes.new }
{
    let mut next = 0;
    for s in 0..n {
        let b = at(element_to_block, s);
        let k = at(notes, b);
        if k == 0 {
            notes[b] = (next + 1) as u16;
            block[s] = next as u16;
            next += 1;
        } else {
            block[s] = (k - 1) as u16;
        }
    }
    clear(notes);
    next
}

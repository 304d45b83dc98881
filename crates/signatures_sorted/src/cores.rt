// The sorted branching signature, on columns that are checked already. No entry points: each says what it requires.
ghost use Rattle.std.specs.Prelude.{◌≡◌, ◌+◌, ◌*◌, ◌<◌, ◌≤◌, [], ◌∷◌, length, slice_index};
ghost use Rattle.signatures_branching.specs.Branching.{outer_pairs};
ghost use Rattle.columns.specs.Answers.{said_number};
ghost use Rattle.columns.specs.Rows.{pairs_of};
ghost use Rattle.columns.specs.Sets.{pair_lt, Ascending};
ghost use Rattle.pairs.specs.Lists.{list_at};
ghost use Rattle.pairs_merge.specs.Merged.{heads};
ghost use Rattle.pairs_merge.specs.Rest.{left_in, Mergeable};
ghost use Rattle.signatures.specs.Pairs.{signature, pairs_over};
ghost use Rattle.signatures.specs.Signing.{finishing, writing};
ghost use Rattle.signatures.specs.Strong.{own_rows};
ghost use Rattle.signatures_sorted.specs.Sorted.{sorted_pushed, sorted_signature};
ghost use Rattle.signatures_sorted.specs.Joining.{Opened, joint_set};
ghost use Rattle.signatures_sorted.specs.Taking.{inner_targets, Takes};
ghost use Rattle.table.specs.Lts.{Valid, lts_of};
ghost use Rattle.columns.specs.Lent.{Clear};
ghost use Rattle.columns.specs.Columns.{EachLong, EachZero};

use crate::opening::open_lists;
use columns::answers::{Answer, Refusal};
use columns::cells::{at, clear};
use pairs_merge::left::left_in;
use pairs_merge::merge::merge;
use pairs_merge::union::unite;
use signatures::flat::{flatten, has_room};
use signatures_branching::cores::push_outer;
use table::Lts;
use table::cores::rows_of;

// What a state takes: how many own pairs, none twice, how many given lists, and how many pairs these are, before duplicates go.
#[derive(Clone, Copy)]
struct Taken {
    own: usize,
    lists: usize,
    pushed: usize,
}

// The state's own pairs, as a set, and the heads of the given lists that it takes. Before the heads are there, their cells serve to
// sort the own pairs.
fn take(
    system: &Lts<'_>,
    element_to_block: &[u16],
    state: usize,
    starts: &[u32],
    own_labels: &mut [u16],
    own_blocks: &mut [u16],
    high: &mut [u16],
    low: &mut [u16],
    end_high: &mut [u16],
    end_low: &mut [u16],
) -> Taken
    requires fact { Valid (lts_of system.now) × (state < system.now.table.n) × (system.now.table.n ≤ length element_to_block.now)
        × (system.now.table.n + 1 ≤ length starts.now) }
    requires fact_2 { let rows = own_rows (lts_of system.now) state in
        let works = own_labels.old ∷ own_blocks.old ∷ high.old ∷ low.old ∷ end_high.old ∷ end_low.old ∷ [] in
        EachLong (length rows) works }
    ensures own_blocks_value { let b = slice_index element_to_block.now state in
        let own = outer_pairs (lts_of system.now) element_to_block.now b state in
        pairs_of result.own own_labels.new own_blocks.new ≡ signature own }
    ensures fact_3 { let states = inner_targets (lts_of system.now) element_to_block.now state in
        Opened starts.now states result.lists high.new low.new end_high.new end_low.new }
    ensures pushed_value { let b = slice_index element_to_block.now state in
        let own = outer_pairs (lts_of system.now) element_to_block.now b state in
        let opened = heads [] [] high.new low.new end_high.new end_low.new in
        result.pushed ≡ length own + left_in opened result.lists }
{
    let d = push_outer(
        system,
        element_to_block,
        at(element_to_block, state),
        state,
        &mut *high,
        &mut *low,
        0,
    );
    let own = flatten(
        &*high,
        &*low,
        d,
        own_labels,
        own_blocks,
        &mut *end_high,
        &mut *end_low,
    );
    let lists = open_lists(
        system,
        element_to_block,
        state,
        starts,
        &mut *high,
        &mut *low,
        &mut *end_high,
        &mut *end_low,
    );
    Taken {
        own,
        lists,
        pushed: d + left_in(&*high, &*low, &*end_high, &*end_low, lists),
    }
}

// The own pairs and those of the lists, as a set over the first cells of `labels` and `blocks`. Returns how many there are. The other
// slices are work space then.
fn join(
    given_labels: &[u16],
    given_blocks: &[u16],
    own: usize,
    lists: usize,
    labels: &mut [u16],
    blocks: &mut [u16],
    own_labels: &mut [u16],
    own_blocks: &mut [u16],
    high: &mut [u16],
    low: &mut [u16],
    end_high: &[u16],
    end_low: &[u16],
    tree: &mut [u16],
) -> usize
    requires lists_bound { (lists ≤ 16384) × (2 * lists ≤ length tree.old) × (own ≤ length own_labels.old)
        × (own ≤ length own_blocks.old) }
    requires fact { let opened = heads given_labels.now given_blocks.now high.old low.old end_high.now end_low.now in
        Mergeable opened lists × Ascending pair_lt (pairs_of own own_labels.old own_blocks.old) }
    requires fact_2 { let opened = heads given_labels.now given_blocks.now high.old low.old end_high.now end_low.now in
        (own + left_in opened lists ≤ length labels.old) × (own + left_in opened lists ≤ length blocks.old) }
    ensures { let opened = heads given_labels.now given_blocks.now high.old low.old end_high.now end_low.now in
        (result ≡ length (joint_set own own_labels.old own_blocks.old opened lists))
        × ((labels.new, blocks.new) ≡ pairs_over (joint_set own own_labels.old own_blocks.old opened lists) (labels.old, blocks.old)) }
{
    let r = merge(
        given_labels,
        given_blocks,
        lists,
        &mut *labels,
        &mut *blocks,
        high,
        low,
        end_high,
        end_low,
        tree,
    );
    unite(labels, blocks, r, own_labels, own_blocks, own)
}

// The own pairs and those of the lists, as a set over the first cells of `labels` and `blocks`, or 16 where they have no room for all
// that is pushed. The other slices are work space then.
fn write_set(
    taken: Taken,
    given_labels: &[u16],
    given_blocks: &[u16],
    labels: &mut [u16],
    blocks: &mut [u16],
    own_labels: &mut [u16],
    own_blocks: &mut [u16],
    high: &mut [u16],
    low: &mut [u16],
    end_high: &[u16],
    end_low: &[u16],
    tree: &mut [u16],
) -> Answer<u64>
    requires lists_bound { (taken.lists ≤ 16384) × (2 * taken.lists ≤ length tree.old) × (taken.own ≤ length own_labels.old)
        × (taken.own ≤ length own_blocks.old) }
    requires fact { let opened = heads given_labels.now given_blocks.now high.old low.old end_high.now end_low.now in
        Mergeable opened taken.lists × Ascending pair_lt (pairs_of taken.own own_labels.old own_blocks.old) }
    requires lists_bound_2 { let opened = heads given_labels.now given_blocks.now high.old low.old end_high.now end_low.now in
        taken.own + left_in opened taken.lists ≤ taken.pushed }
    ensures { let opened = heads given_labels.now given_blocks.now high.old low.old end_high.now end_low.now in
        (said_number result, (labels.new, blocks.new))
        ≡ writing taken.pushed (joint_set taken.own own_labels.old own_blocks.old opened taken.lists)
        (labels.old, blocks.old) }
{
    if !has_room(taken.pushed, labels.len(), blocks.len()) {
        let needed = taken.pushed as u64;
        return Answer::refused(Refusal::NoRoom { needed });
    }
    let k = join(
        given_labels,
        given_blocks,
        taken.own,
        taken.lists,
        labels,
        blocks,
        own_labels,
        own_blocks,
        high,
        low,
        end_high,
        end_low,
        tree,
    );
    Answer::done(k as u64)
}

// The same, and every cell of the seven work slices is zero then.
fn finish(
    taken: Taken,
    given_labels: &[u16],
    given_blocks: &[u16],
    labels: &mut [u16],
    blocks: &mut [u16],
    own_labels: &mut [u16],
    own_blocks: &mut [u16],
    high: &mut [u16],
    low: &mut [u16],
    end_high: &mut [u16],
    end_low: &mut [u16],
    tree: &mut [u16],
) -> Answer<u64>
    requires lists_bound { (taken.lists ≤ 16384) × (2 * taken.lists ≤ length tree.old) × (taken.own ≤ length own_labels.old)
        × (taken.own ≤ length own_blocks.old) }
    requires fact { let opened = heads given_labels.now given_blocks.now high.old low.old end_high.old end_low.old in
        Mergeable opened taken.lists × Ascending pair_lt (pairs_of taken.own own_labels.old own_blocks.old) }
    requires lists_bound_2 { let opened = heads given_labels.now given_blocks.now high.old low.old end_high.old end_low.old in
        taken.own + left_in opened taken.lists ≤ taken.pushed }
    ensures { let work = own_labels.old ∷ own_blocks.old ∷ high.old ∷ low.old ∷ end_high.old ∷ end_low.old ∷ tree.old ∷ [] in
        let work_left = own_labels.new ∷ own_blocks.new ∷ high.new ∷ low.new ∷ end_high.new ∷ end_low.new ∷ tree.new ∷ [] in
        let opened = heads given_labels.now given_blocks.now high.old low.old end_high.old end_low.old in
        (said_number result, ((labels.new, blocks.new), work_left))
        ≡ finishing taken.pushed (joint_set taken.own own_labels.old own_blocks.old opened taken.lists)
        (labels.old, blocks.old) work }
{
    let answer = write_set(
        taken,
        given_labels,
        given_blocks,
        labels,
        blocks,
        &mut *own_labels,
        &mut *own_blocks,
        &mut *high,
        &mut *low,
        &*end_high,
        &*end_low,
        &mut *tree,
    );
    clear(own_labels);
    clear(own_blocks);
    clear(high);
    clear(low);
    clear(end_high);
    clear(end_low);
    clear(tree);
    answer
}

// The signature of a state, or 16 where the result columns have no room for all that is pushed. Every work slice but the tree has a
// cell for each row of the state; every cell of the tree is zero. Every cell of the work slices is zero then.
fn sign_rows(
    system: &Lts<'_>,
    element_to_block: &[u16],
    state: usize,
    starts: &[u32],
    given_labels: &[u16],
    given_blocks: &[u16],
    labels: &mut [u16],
    blocks: &mut [u16],
    own_labels: &mut [u16],
    own_blocks: &mut [u16],
    high: &mut [u16],
    low: &mut [u16],
    end_high: &mut [u16],
    end_low: &mut [u16],
    tree: &mut [u16],
) -> Answer<u64>
    requires valid { Valid (lts_of system.now) × (state < system.now.table.n) }
    requires n_in_bounds { (system.now.table.n ≤ length element_to_block.now) × (system.now.table.n + 1 ≤ length starts.now) }
    requires fact { Takes (lts_of system.now) element_to_block.now starts.now given_labels.now given_blocks.now state }
    requires fact_2 { let rows = own_rows (lts_of system.now) state in
        let works = own_labels.old ∷ own_blocks.old ∷ high.old ∷ low.old ∷ end_high.old ∷ end_low.old ∷ [] in
        EachLong (length rows) works × (system.now.table.n + system.now.table.m ≤ length tree.old) × Clear tree.old }
    ensures { let lists = list_at starts.now given_labels.now given_blocks.now in
        let pushed = length (sorted_pushed (lts_of system.now) element_to_block.now lists state) in
        let work = own_labels.old ∷ own_blocks.old ∷ high.old ∷ low.old ∷ end_high.old ∷ end_low.old ∷ tree.old ∷ [] in
        let work_left = own_labels.new ∷ own_blocks.new ∷ high.new ∷ low.new ∷ end_high.new ∷ end_low.new ∷ tree.new ∷ [] in
        (said_number result, ((labels.new, blocks.new), work_left))
        ≡ finishing pushed (sorted_signature (lts_of system.now) element_to_block.now lists state) (labels.old, blocks.old) work }
{
    let taken = take(
        system,
        element_to_block,
        state,
        starts,
        &mut *own_labels,
        &mut *own_blocks,
        &mut *high,
        &mut *low,
        &mut *end_high,
        &mut *end_low,
    );
    let nodes = 2 * taken.lists;
    finish(
        taken,
        given_labels,
        given_blocks,
        labels,
        blocks,
        own_labels,
        own_blocks,
        high,
        low,
        end_high,
        end_low,
        &mut tree[..nodes],
    )
}

// How many rows a state has.
fn row_count(system: &Lts<'_>, state: usize) -> usize
    requires { Valid (lts_of system.now) × (state < system.now.table.n) }
    ensures { (result ≡ length (own_rows (lts_of system.now) state)) × (result ≤ system.now.table.m) }
{
    let rows = rows_of(system.source, system.table.m as usize, state);
    rows.end - rows.first
}

// The sorted branching signature of a state over the first cells of `labels` and `blocks`, or 16 where they have no room for all that is
// pushed. Of the given lists only those that the state takes are read. Every cell of the seven work slices is zero, and zero then: as
// many cells of each are used as the state has rows, and of the tree two for each list that is taken.
pub fn branching_bisim_signature_sorted(
    system: &Lts<'_>,
    element_to_block: &[u16],
    state: usize,
    starts: &[u32],
    given_labels: &[u16],
    given_blocks: &[u16],
    labels: &mut [u16],
    blocks: &mut [u16],
    own_labels: &mut [u16],
    own_blocks: &mut [u16],
    high: &mut [u16],
    low: &mut [u16],
    end_high: &mut [u16],
    end_low: &mut [u16],
    tree: &mut [u16],
) -> Answer<u64>
    requires valid { Valid (lts_of system.now) × (state < system.now.table.n) }
    requires n_in_bounds { (system.now.table.n ≤ length element_to_block.now) × (system.now.table.n + 1 ≤ length starts.now) }
    requires fact { Takes (lts_of system.now) element_to_block.now starts.now given_labels.now given_blocks.now state }
    requires fact_2 { let works = own_labels.old ∷ own_blocks.old ∷ high.old ∷ low.old ∷ end_high.old ∷ end_low.old ∷ [] in
        EachLong system.now.table.m works × (system.now.table.n + system.now.table.m ≤ length tree.old) × EachZero (tree.old ∷ works) }
    ensures { let lists = list_at starts.now given_labels.now given_blocks.now in
        let pushed = length (sorted_pushed (lts_of system.now) element_to_block.now lists state) in
        let work = own_labels.old ∷ own_blocks.old ∷ high.old ∷ low.old ∷ end_high.old ∷ end_low.old ∷ tree.old ∷ [] in
        let work_left = own_labels.new ∷ own_blocks.new ∷ high.new ∷ low.new ∷ end_high.new ∷ end_low.new ∷ tree.new ∷ [] in
        (said_number result, ((labels.new, blocks.new), work_left))
        ≡ finishing pushed (sorted_signature (lts_of system.now) element_to_block.now lists state) (labels.old, blocks.old) work }
{
    let d = row_count(system, state);
    sign_rows(
        system,
        element_to_block,
        state,
        starts,
        given_labels,
        given_blocks,
        labels,
        blocks,
        &mut own_labels[..d],
        &mut own_blocks[..d],
        &mut high[..d],
        &mut low[..d],
        &mut end_high[..d],
        &mut end_low[..d],
        tree,
    )
}

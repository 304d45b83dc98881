// The strong reduction, on columns that are checked already. No entry points: each says what it requires.
ghost use Rattle.std.specs.Prelude.{◌≡◌, ◌+◌, [], ◌∷◌, length};
ghost use Rattle.columns.specs.Lent.{Cleared};
ghost use Rattle.columns.specs.Columns.{EachLong};
ghost use Rattle.partition.specs.Partition.{Long, parts};
ghost use Rattle.refinement_rounds.specs.Rooms.{Room};
ghost use Rattle.refinement_rounds.specs.Splitting.{Ended};
ghost use Rattle.refinement_strong.specs.Reduction.{strong_blocks, strong_rounds, strong_count, strong_rows};
ghost use Rattle.signatures.specs.Strong.{strong_signature};
ghost use Rattle.table.specs.Lts.{Valid, lts_of};
ghost use Rattle.table.specs.Tables.{Three, rows_over};

use columns::cells::clear;
use quotient::cores::quotient_rows;
use refinement_numbers::hand_out;
use refinement_rounds::running::{RunEnd, run};
use table::Lts;

// All states in one block, and then rounds until nothing splits.
fn refine(
    system: &Lts<'_>,
    elements: &mut [u16],
    element_offset: &mut [u16],
    element_to_block: &mut [u16],
    begin: &mut [u16],
    marked_split: &mut [u16],
    end: &mut [u16],
    begins: &mut [u16],
    numbers: &mut [u16],
    labels: &mut [u16],
    blocks: &mut [u16],
    spare: &mut [u16],
) -> RunEnd
    requires valid { Valid (lts_of system.now)
        × Long (parts elements.old element_offset.old element_to_block.old begin.old marked_split.old end.old system.now.table.n 1) }
    requires room_now { Room system.now.table.n system.now.table.m elements.old element_offset.old begins.old numbers.old labels.old blocks.old spare.old }
    ensures fact { let t = lts_of system.now in
        let left = parts elements.new element_offset.new element_to_block.new begin.new marked_split.new end.new system.now.table.n result.count in
        Ended (strong_signature t) result.rounds left }
    ensures room_is { Room system.now.table.n system.now.table.m elements.new element_offset.new begins.new numbers.new labels.new blocks.new spare.new }
{
    let n = system.table.n as usize;
    partition::cores::new(
        n,
        &mut *elements,
        &mut *element_offset,
        &mut *element_to_block,
        &mut *begin,
        &mut *marked_split,
        &mut *end,
    );
    run(
        system,
        &mut *elements,
        &mut *element_offset,
        &mut *element_to_block,
        &mut *begin,
        &mut *marked_split,
        &mut *end,
        &mut *begins,
        &mut *numbers,
        &mut *labels,
        &mut *blocks,
        &mut *spare,
    )
}

// The number of each state's final block, by least member, in `block`, which has n cells. Answers how many rounds split something, and
// how many blocks there are. `element_to_block`, `begin`, `marked_split` and `end` have n cells or more, the other work slices n + m + 1:
// all ten may hold anything, and are left with anything.
pub fn strong_blocks(
    system: &Lts<'_>,
    block: &mut [u16],
    elements: &mut [u16],
    element_offset: &mut [u16],
    element_to_block: &mut [u16],
    begin: &mut [u16],
    marked_split: &mut [u16],
    end: &mut [u16],
    numbers: &mut [u16],
    labels: &mut [u16],
    blocks: &mut [u16],
    spare: &mut [u16],
) -> RunEnd
    requires valid { Valid (lts_of system.now) × (length block.old ≡ system.now.table.n) }
    requires each_long { EachLong system.now.table.n (element_to_block.old ∷ begin.old ∷ marked_split.old ∷ end.old ∷ []) }
    requires fact { let columns = elements.old ∷ element_offset.old ∷ numbers.old ∷ labels.old ∷ blocks.old ∷ spare.old ∷ [] in
        EachLong (system.now.table.n + system.now.table.m + 1) columns }
    ensures { let t = lts_of system.now in
        (result.rounds ≡ strong_rounds t) × (result.count ≡ strong_count t) × (block.new ≡ strong_blocks t) }
{
    let n = system.table.n as usize;
    let h = n + 1;
    clear(&mut *labels);
    clear(&mut *blocks);
    clear(&mut *spare);
    let r = refine(
        system,
        &mut *elements,
        &mut *element_offset,
        &mut *element_to_block,
        &mut *begin,
        &mut *marked_split,
        &mut *end,
        &mut *block,
        &mut *numbers,
        &mut *labels,
        &mut *blocks,
        &mut *spare,
    );
    hand_out(n, &*element_to_block, &mut *block, &mut labels[..h]);
    r
}

// What a reduction comes to: how many blocks, how many rows between them, and how many rounds split something.
#[derive(Clone, Copy)]
pub struct Reduction {
    pub count: usize,
    pub rows: usize,
    pub rounds: usize,
}

// The reduced rows over the first cells of the result columns, and the number of each state's block in `block`, which has n cells. Every
// cell of the ten work slices, of n + m + 1 cells or more, is zero then.
pub fn reduce(
    system: &Lts<'_>,
    result_source: &mut [u16],
    result_label: &mut [u16],
    result_target: &mut [u16],
    block: &mut [u16],
    elements: &mut [u16],
    element_offset: &mut [u16],
    element_to_block: &mut [u16],
    begin: &mut [u16],
    marked_split: &mut [u16],
    end: &mut [u16],
    numbers: &mut [u16],
    labels: &mut [u16],
    blocks: &mut [u16],
    spare: &mut [u16],
) -> Reduction
    requires valid { Valid (lts_of system.now) × (length block.old ≡ system.now.table.n) }
    requires each_long { EachLong system.now.table.m (result_source.old ∷ result_label.old ∷ result_target.old ∷ []) }
    requires fact { let columns = elements.old ∷ element_offset.old ∷ element_to_block.old ∷ begin.old ∷ marked_split.old ∷ end.old ∷ [] in
        EachLong (system.now.table.n + system.now.table.m + 1) columns }
    requires each_long_2 { EachLong (system.now.table.n + system.now.table.m + 1) (numbers.old ∷ labels.old ∷ blocks.old ∷ spare.old ∷ []) }
    ensures fact_2 { let t = lts_of system.now in
        (result.count ≡ strong_count t) × (result.rows ≡ length (strong_rows t)) × (result.rounds ≡ strong_rounds t) }
    ensures fact_3 { let t = lts_of system.now in
        let out : Three = (result_source.old, (result_label.old, result_target.old)) in
        let out_left : Three = (result_source.new, (result_label.new, result_target.new)) in
        (block.new ≡ strong_blocks t) × (out_left ≡ rows_over (strong_rows t) out) }
    ensures cleared { Cleared elements.old elements.new × Cleared element_offset.old element_offset.new × Cleared element_to_block.old
        element_to_block.new × Cleared begin.old begin.new × Cleared marked_split.old marked_split.new }
    ensures cleared_2 { Cleared end.old end.new × Cleared numbers.old numbers.new × Cleared labels.old labels.new × Cleared blocks.old
        blocks.new × Cleared spare.old spare.new }
{
    let r = strong_blocks(
        system,
        &mut *block,
        &mut *elements,
        &mut *element_offset,
        &mut *element_to_block,
        &mut *begin,
        &mut *marked_split,
        &mut *end,
        &mut *numbers,
        &mut *labels,
        &mut *blocks,
        &mut *spare,
    );
    let rows = quotient_rows(
        system,
        &*block,
        false,
        false,
        result_source,
        result_label,
        result_target,
        elements,
        element_offset,
        element_to_block,
        begin,
        marked_split,
    );
    clear(end);
    clear(numbers);
    clear(labels);
    clear(blocks);
    clear(spare);
    Reduction {
        count: r.count,
        rows,
        rounds: r.rounds,
    }
}

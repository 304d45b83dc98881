// A round, and the rounds until nothing splits. No entry points: each says what it requires.
ghost use Rattle.std.specs.Prelude.{◌<◌};
ghost use Rattle.partition.specs.Partition.{Sound, parts};
ghost use Rattle.refinement_rounds.specs.Rooms.{Room};
ghost use Rattle.refinement_rounds.specs.Splitting.{Rounded, Ended};
ghost use Rattle.signatures.specs.Strong.{strong_signature};
ghost use Rattle.table.specs.Lts.{Valid, lts_of};

use crate::splitting::split_all;
use refinement_signing::signing::sign_all;
use table::Lts;

// A round: every block is split by strong signature under the partition as it is given. Returns the number of blocks then.
pub fn round(
    system: &Lts<'_>,
    count: usize,
    elements: &mut [u16],
    element_offset: &mut [u16],
    element_to_block: &mut [u16],
    begin: &mut [u16],
    marked_split: &mut [u16],
    end: &mut [u16],
    begins: &mut [u16],
    numbers: &mut [u16],
    labels: &mut [u16],
    blocks: &mut [u16],
    spare: &mut [u16],
) -> usize
    requires valid { Valid (lts_of system.now)
        × Sound (parts elements.old element_offset.old element_to_block.old begin.old marked_split.old end.old
        system.now.table.n count) }
    requires room_now { Room system.now.table.n system.now.table.m elements.old element_offset.old begins.old numbers.old labels.old
        blocks.old spare.old }
    ensures fact { let n = system.now.table.n in
        let given = parts elements.old element_offset.old element_to_block.old begin.old marked_split.old end.old n count in
        let left = parts elements.new element_offset.new element_to_block.new begin.new marked_split.new end.new n result in
        Rounded (strong_signature (lts_of system.now)) given left }
    ensures room_is { Room system.now.table.n system.now.table.m elements.new element_offset.new begins.new numbers.new labels.new
        blocks.new spare.new }
{
    let n = system.table.n as usize;
    let h = n + 1;
    let d = sign_all(
        system,
        &*element_to_block,
        &mut labels[h..],
        &mut blocks[h..],
        &mut *begins,
        &mut elements[h..],
        &mut element_offset[h..],
        &mut *numbers,
        &mut *spare,
    );
    split_all(
        n,
        count,
        &mut *elements,
        &mut *element_offset,
        &mut *element_to_block,
        &mut *begin,
        &mut *marked_split,
        &mut *end,
        &*begins,
        &mut *numbers,
        &mut *labels,
        &mut *blocks,
        d,
        &mut *spare,
    )
}

// How a run has ended: how many rounds split something, and how many blocks there are.
#[derive(Clone, Copy)]
pub struct RunEnd {
    pub rounds: usize,
    pub count: usize,
}

// Rounds, from one block of all states, until nothing splits.
pub fn run(
    system: &Lts<'_>,
    elements: &mut [u16],
    element_offset: &mut [u16],
    element_to_block: &mut [u16],
    begin: &mut [u16],
    marked_split: &mut [u16],
    end: &mut [u16],
    begins: &mut [u16],
    numbers: &mut [u16],
    labels: &mut [u16],
    blocks: &mut [u16],
    spare: &mut [u16],
) -> RunEnd
    requires valid { Valid (lts_of system.now)
        × Sound (parts elements.old element_offset.old element_to_block.old begin.old marked_split.old end.old
        system.now.table.n 1) }
    requires room_now { Room system.now.table.n system.now.table.m elements.old element_offset.old begins.old numbers.old labels.old
        blocks.old spare.old }
    ensures fact { let n = system.now.table.n in
        let left = parts elements.new element_offset.new element_to_block.new begin.new marked_split.new end.new n result.count in
        Ended (strong_signature (lts_of system.now)) result.rounds left }
    ensures room_is { Room system.now.table.n system.now.table.m elements.new element_offset.new begins.new numbers.new labels.new
        blocks.new spare.new }
{
    let n = system.table.n as usize;
    let mut count = 1;
    for rounds in 0..n {
        let c = round(
            system,
            count,
            elements,
            element_offset,
            element_to_block,
            begin,
            marked_split,
            end,
            begins,
            numbers,
            labels,
            blocks,
            spare,
        );
        if c == count {
            return RunEnd { rounds, count: c };
        }
        count = c;
    }
    RunEnd { rounds: n, count }
}

// `partition_marked_with`.
ghost use Rattle.std.specs.Prelude.{◌≡◌};
ghost use Rattle.spelling.specs.Counts.{IsPrefixLen};
ghost use Rattle.partition_division.specs.Division.{said_division};
ghost use Rattle.replay_lines.specs.Told.{told};

use columns::answers::Answer;
use partition_division::{Division, partition_marked_with};
use replay_calls::headers::partition;
use replay_lines::answers::{Said, done};
use replay_slots::case::{Case, column};
use replay_slots::slots::Filled;

// Its answer as numbers.
fn divided(answer: Answer<Division>) -> Said
    ensures { told result ≡ said_division answer }
{
    let division = answer.outcome?;
    done(3, division.index, division.first, division.count)
}

pub fn dividing(
    case: Case,
    cells: &[u16],
    to: Filled,
    elements: &mut [u16],
    element_offset: &mut [u16],
    element_to_block: &mut [u16],
    begin: &mut [u16],
    marked_split: &mut [u16],
    end: &mut [u16],
    old_elements: &mut [u16],
    block_sizes: &mut [u16],
    spare: &mut [u16],
) -> Said
    requires prefix_len { IsPrefixLen to.a elements.old × IsPrefixLen to.b element_offset.old × IsPrefixLen to.c element_to_block.old }
    requires prefix_len_2 { IsPrefixLen to.d begin.old × IsPrefixLen to.e marked_split.old × IsPrefixLen to.f end.old }
    requires prefix_len_3 { IsPrefixLen to.g old_elements.old × IsPrefixLen to.h block_sizes.old × IsPrefixLen to.i spare.old }
{
    let numbers = column(cells, case, 0);
    divided(partition_marked_with(
        partition(case),
        &mut elements[..to.a],
        &mut element_offset[..to.b],
        &mut element_to_block[..to.c],
        &mut begin[..to.d],
        &mut marked_split[..to.e],
        &mut end[..to.f],
        case.number(2),
        numbers,
        &mut old_elements[..to.g],
        &mut block_sizes[..to.h],
        &mut spare[..to.i],
    ))
}

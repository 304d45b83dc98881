// `strong_reduction`.
use crate::answers::reduced;
use reduction::strong_reduction;
use replay_calls::headers::system;
use replay_lines::output::{Sink, said};
use replay_slots::case::{Case, HELD_ROOM};
use replay_slots::held::{lend, show, show_three};

pub fn strong(case: Case, cells: &[u16], out: &mut Sink, used: usize) -> usize {
    let mut result_source = [0u16; HELD_ROOM];
    let mut result_label = [0u16; HELD_ROOM];
    let mut result_target = [0u16; HELD_ROOM];
    let mut block = [0u16; HELD_ROOM];
    let mut elements = [0u16; HELD_ROOM];
    let mut element_offset = [0u16; HELD_ROOM];
    let mut element_to_block = [0u16; HELD_ROOM];
    let mut begin = [0u16; HELD_ROOM];
    let mut marked_split = [0u16; HELD_ROOM];
    let mut end = [0u16; HELD_ROOM];
    let mut numbers = [0u16; HELD_ROOM];
    let mut labels = [0u16; HELD_ROOM];
    let mut blocks = [0u16; HELD_ROOM];
    let mut spare = [0u16; HELD_ROOM];
    let answer = strong_reduction(
        &system(case, cells),
        lend(case, cells, 0, &mut result_source),
        lend(case, cells, 1, &mut result_label),
        lend(case, cells, 2, &mut result_target),
        lend(case, cells, 3, &mut block),
        lend(case, cells, 4, &mut elements),
        lend(case, cells, 5, &mut element_offset),
        lend(case, cells, 6, &mut element_to_block),
        lend(case, cells, 7, &mut begin),
        lend(case, cells, 8, &mut marked_split),
        lend(case, cells, 9, &mut end),
        lend(case, cells, 10, &mut numbers),
        lend(case, cells, 11, &mut labels),
        lend(case, cells, 12, &mut blocks),
        lend(case, cells, 13, &mut spare),
    );
    let mut at = said(reduced(answer), out, used);
    at = show_three(
        case,
        0,
        &result_source,
        &result_label,
        &result_target,
        out,
        at,
    );
    at = show(case, 3, &block, out, at);
    at = show_three(
        case,
        4,
        &elements,
        &element_offset,
        &element_to_block,
        out,
        at,
    );
    at = show_three(case, 7, &begin, &marked_split, &end, out, at);
    at = show_three(case, 10, &numbers, &labels, &blocks, out, at);
    show(case, 13, &spare, out, at)
}

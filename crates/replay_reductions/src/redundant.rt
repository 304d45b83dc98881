// `remove_redundant_transitions`.
use quotient_redundant::remove_redundant_transitions;
use replay_calls::answers::header;
use replay_calls::headers::system;
use replay_lines::output::{Sink, said};
use replay_slots::case::{Case, HELD_ROOM};
use replay_slots::held::{lend, show, show_three};

pub fn redundant(case: Case, cells: &[u16], out: &mut Sink, used: usize) -> usize {
    let mut result_source = [0u16; HELD_ROOM];
    let mut result_label = [0u16; HELD_ROOM];
    let mut result_target = [0u16; HELD_ROOM];
    let mut order = [0u16; HELD_ROOM];
    let mut back_source = [0u16; HELD_ROOM];
    let mut back_label = [0u16; HELD_ROOM];
    let mut back_target = [0u16; HELD_ROOM];
    let mut forward = [0u16; HELD_ROOM];
    let mut backward = [0u16; HELD_ROOM];
    let mut queue = [0u16; HELD_ROOM];
    let answer = remove_redundant_transitions(
        &system(case, cells),
        lend(case, cells, 0, &mut result_source),
        lend(case, cells, 1, &mut result_label),
        lend(case, cells, 2, &mut result_target),
        lend(case, cells, 3, &mut order),
        lend(case, cells, 4, &mut back_source),
        lend(case, cells, 5, &mut back_label),
        lend(case, cells, 6, &mut back_target),
        lend(case, cells, 7, &mut forward),
        lend(case, cells, 8, &mut backward),
        lend(case, cells, 9, &mut queue),
    );
    let mut at = said(header(answer), out, used);
    at = show_three(
        case,
        0,
        &result_source,
        &result_label,
        &result_target,
        out,
        at,
    );
    at = show(case, 3, &order, out, at);
    at = show_three(case, 4, &back_source, &back_label, &back_target, out, at);
    show_three(case, 7, &forward, &backward, &queue, out, at)
}

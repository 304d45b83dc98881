// `tau_cycle_elimination_and_reorder`.
use crate::answers::reordered;
use quotient_cycles::tau_cycle_elimination_and_reorder;
use replay_calls::headers::system;
use replay_lines::output::{Sink, said};
use replay_slots::case::{Case, HELD_ROOM};
use replay_slots::held::{lend, show, show_three};

pub fn cycles(case: Case, cells: &[u16], out: &mut Sink, used: usize) -> usize {
    let mut result_source = [0u16; HELD_ROOM];
    let mut result_label = [0u16; HELD_ROOM];
    let mut result_target = [0u16; HELD_ROOM];
    let mut numbers = [0u16; HELD_ROOM];
    let mut mid_source = [0u16; HELD_ROOM];
    let mut mid_label = [0u16; HELD_ROOM];
    let mut mid_target = [0u16; HELD_ROOM];
    let mut a = [0u16; HELD_ROOM];
    let mut b = [0u16; HELD_ROOM];
    let mut c = [0u16; HELD_ROOM];
    let mut order = [0u16; HELD_ROOM];
    let mut spare = [0u16; HELD_ROOM];
    let answer = tau_cycle_elimination_and_reorder(
        &system(case, cells),
        case.number(4),
        case.flag(5),
        lend(case, cells, 0, &mut result_source),
        lend(case, cells, 1, &mut result_label),
        lend(case, cells, 2, &mut result_target),
        lend(case, cells, 3, &mut numbers),
        lend(case, cells, 4, &mut mid_source),
        lend(case, cells, 5, &mut mid_label),
        lend(case, cells, 6, &mut mid_target),
        lend(case, cells, 7, &mut a),
        lend(case, cells, 8, &mut b),
        lend(case, cells, 9, &mut c),
        lend(case, cells, 10, &mut order),
        lend(case, cells, 11, &mut spare),
    );
    let mut at = said(reordered(answer), out, used);
    at = show_three(
        case,
        0,
        &result_source,
        &result_label,
        &result_target,
        out,
        at,
    );
    at = show(case, 3, &numbers, out, at);
    at = show_three(case, 4, &mid_source, &mid_label, &mid_target, out, at);
    at = show_three(case, 7, &a, &b, &c, out, at);
    at = show(case, 10, &order, out, at);
    show(case, 11, &spare, out, at)
}

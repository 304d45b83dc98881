// `quotient_lts_naive` and `quotient_lts_block`.
use quotient::quotient_lts_naive;
use quotient_block::quotient_lts_block;
use replay_calls::answers::header;
use replay_calls::headers::{six_columns, system};
use replay_lines::output::{Sink, said};
use replay_slots::case::{Case, HELD_ROOM};
use replay_slots::held::{lend, show, show_three};

pub fn naive(case: Case, cells: &[u16], out: &mut Sink, used: usize) -> usize {
    let mut result_source = [0u16; HELD_ROOM];
    let mut result_label = [0u16; HELD_ROOM];
    let mut result_target = [0u16; HELD_ROOM];
    let mut a = [0u16; HELD_ROOM];
    let mut b = [0u16; HELD_ROOM];
    let mut c = [0u16; HELD_ROOM];
    let mut order = [0u16; HELD_ROOM];
    let mut spare = [0u16; HELD_ROOM];
    let answer = quotient_lts_naive(
        &system(case, cells),
        case.number(4),
        &six_columns(case, cells, 3),
        case.flag(5),
        case.flag(6),
        lend(case, cells, 0, &mut result_source),
        lend(case, cells, 1, &mut result_label),
        lend(case, cells, 2, &mut result_target),
        lend(case, cells, 3, &mut a),
        lend(case, cells, 4, &mut b),
        lend(case, cells, 5, &mut c),
        lend(case, cells, 6, &mut order),
        lend(case, cells, 7, &mut spare),
    );
    let mut at = said(header(answer), out, used);
    at = show_three(
        case,
        0,
        &result_source,
        &result_label,
        &result_target,
        out,
        at,
    );
    at = show_three(case, 3, &a, &b, &c, out, at);
    at = show(case, 6, &order, out, at);
    show(case, 7, &spare, out, at)
}

pub fn block(case: Case, cells: &[u16], out: &mut Sink, used: usize) -> usize {
    let mut result_source = [0u16; HELD_ROOM];
    let mut result_label = [0u16; HELD_ROOM];
    let mut result_target = [0u16; HELD_ROOM];
    let mut a = [0u16; HELD_ROOM];
    let mut b = [0u16; HELD_ROOM];
    let mut c = [0u16; HELD_ROOM];
    let mut order = [0u16; HELD_ROOM];
    let mut spare = [0u16; HELD_ROOM];
    let mut chosen = [0u16; HELD_ROOM];
    let answer = quotient_lts_block(
        &system(case, cells),
        case.number(4),
        &six_columns(case, cells, 3),
        case.flag(5),
        case.flag(6),
        lend(case, cells, 0, &mut result_source),
        lend(case, cells, 1, &mut result_label),
        lend(case, cells, 2, &mut result_target),
        lend(case, cells, 3, &mut a),
        lend(case, cells, 4, &mut b),
        lend(case, cells, 5, &mut c),
        lend(case, cells, 6, &mut order),
        lend(case, cells, 7, &mut spare),
        lend(case, cells, 8, &mut chosen),
    );
    let mut at = said(header(answer), out, used);
    at = show_three(
        case,
        0,
        &result_source,
        &result_label,
        &result_target,
        out,
        at,
    );
    at = show_three(case, 3, &a, &b, &c, out, at);
    show_three(case, 6, &order, &spare, &chosen, out, at)
}

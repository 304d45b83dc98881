// `tau_scc_decomposition`.
use quotient_components::tau_scc_decomposition;
use replay_calls::headers::system;
use replay_lines::answers::number;
use replay_lines::output::{Sink, said};
use replay_slots::case::{Case, HELD_ROOM};
use replay_slots::held::{lend, show, show_three};

pub fn components(case: Case, cells: &[u16], out: &mut Sink, used: usize) -> usize {
    let mut numbers = [0u16; HELD_ROOM];
    let mut order = [0u16; HELD_ROOM];
    let mut back_source = [0u16; HELD_ROOM];
    let mut back_label = [0u16; HELD_ROOM];
    let mut back_target = [0u16; HELD_ROOM];
    let mut forward = [0u16; HELD_ROOM];
    let mut backward = [0u16; HELD_ROOM];
    let mut queue = [0u16; HELD_ROOM];
    let answer = tau_scc_decomposition(
        &system(case, cells),
        lend(case, cells, 0, &mut numbers),
        lend(case, cells, 1, &mut order),
        lend(case, cells, 2, &mut back_source),
        lend(case, cells, 3, &mut back_label),
        lend(case, cells, 4, &mut back_target),
        lend(case, cells, 5, &mut forward),
        lend(case, cells, 6, &mut backward),
        lend(case, cells, 7, &mut queue),
    );
    let mut at = said(number(answer), out, used);
    at = show(case, 0, &numbers, out, at);
    at = show(case, 1, &order, out, at);
    at = show_three(case, 2, &back_source, &back_label, &back_target, out, at);
    show_three(case, 5, &forward, &backward, &queue, out, at)
}

// `read_file`.
use file::reading::read_file;
use replay_calls::answers::header;
use replay_lines::output::{Sink, said};
use replay_slots::case::{Case, HELD_ROOM, column};
use replay_slots::held::{lend, show_three};

pub fn read(case: Case, cells: &[u16], bytes: &[u8], out: &mut Sink, used: usize) -> usize {
    let mut source = [0u16; HELD_ROOM];
    let mut label = [0u16; HELD_ROOM];
    let mut target = [0u16; HELD_ROOM];
    let answer = read_file(
        column(bytes, case, 0),
        lend(case, cells, 0, &mut source),
        lend(case, cells, 1, &mut label),
        lend(case, cells, 2, &mut target),
    );
    let at = said(header(answer), out, used);
    show_three(case, 0, &source, &label, &target, out, at)
}

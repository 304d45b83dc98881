// `write_file`.
use file::writing::write_file;
use replay_calls::headers::system;
use replay_lines::answers::number;
use replay_lines::output::{Sink, said};
use replay_slots::case::{Case, ROOM, column};
use replay_slots::held::lend;
use replay_slots::texts::show;

pub fn write(case: Case, cells: &[u16], bytes: &[u8], out: &mut Sink, used: usize) -> usize {
    let mut written = [0u8; ROOM];
    let answer = write_file(
        &system(case, cells),
        case.number(4),
        column(cells, case, 3),
        lend(case, bytes, 0, &mut written),
    );
    let at = said(number(answer), out, used);
    show(case, &written, out, at)
}

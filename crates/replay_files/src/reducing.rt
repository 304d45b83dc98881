// `reduce_file`.
use crate::answers::reduced;
use file_reduction::reduce_file;
use replay_lines::output::{Sink, said};
use replay_slots::case::{Case, ROOM, column};
use replay_slots::held::lend;
use replay_slots::texts::show;

pub fn reduce(case: Case, bytes: &[u8], out: &mut Sink, used: usize) -> usize {
    let mut output = [0u8; ROOM];
    let answer = reduce_file(column(bytes, case, 0), lend(case, bytes, 0, &mut output));
    let at = said(reduced(answer), out, used);
    show(case, &output, out, at)
}

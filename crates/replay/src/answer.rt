// The answer to a line. The slots of the slices of u16 that an operation may change are called a to i.
use crate::line::Line;
use replay_calls::operations::{Family, Found, Operation};
use replay_calls::readers::part_of;
use replay_calls::records::unmarked;
use replay_families::called;
use replay_files::filing;
use replay_lines::input::Input;
use replay_lines::lines::{bad_case, end_case};
use replay_lines::output::{Sink, said};
use replay_lines::slices::part;
use replay_reductions::reducing;
use replay_slots::case::{Bytes, Case, Narrow, Wide};
use replay_slots::load::load;
use replay_slots::slots::{Slot, Text, show};

// The answer, and what may have changed, at return.
fn done(
    operation: Operation,
    kinds: &[u8],
    case: Case,
    narrow: &Narrow,
    wide: &Wide,
    bytes: &Bytes,
    text: &mut Text,
    a: &mut Slot,
    b: &mut Slot,
    c: &mut Slot,
    d: &mut Slot,
    e: &mut Slot,
    f: &mut Slot,
    g: &mut Slot,
    h: &mut Slot,
    i: &mut Slot,
    out: &mut Sink,
    used: usize,
) -> usize {
    match operation {
        Operation::IterBlock => part(part_of(case, narrow), case.short, out, used),
        Operation::BlockUnmarkAll => unmarked(case, out, used),
        _ => match operation.family() {
            Family::Reducing => reducing(operation, case, narrow, out, used),
            Family::Filing => filing(operation, case, narrow, bytes, out, used),
            _ => {
                let answer = called(
                    operation, case, narrow, wide, bytes, text, a, b, c, d, e, f, g, h, i,
                );
                let at = said(answer, out, used);
                show(kinds, case, a, b, c, d, e, f, g, h, i, text, out, at)
            }
        },
    }
}

// The rest of a line, and its answer.
pub fn answer(
    line: Line,
    input: &mut Input,
    narrow: &mut Narrow,
    wide: &mut Wide,
    bytes: &mut Bytes,
    text: &mut Text,
    a: &mut Slot,
    b: &mut Slot,
    c: &mut Slot,
    d: &mut Slot,
    e: &mut Slot,
    f: &mut Slot,
    g: &mut Slot,
    h: &mut Slot,
    i: &mut Slot,
    out: &mut Sink,
    used: usize,
) -> usize {
    let Some(Found { operation, kinds }) = line.operation else {
        input.skip_line();
        return bad_case(0, out, used);
    };
    let case = match load(input, kinds, narrow, wide, bytes) {
        Ok(case) => case,
        Err(place) => return bad_case(place, out, used),
    };
    let at = done(
        operation, kinds, case, narrow, wide, bytes, text, a, b, c, d, e, f, g, h, i, out, used,
    );
    end_case(out, at)
}

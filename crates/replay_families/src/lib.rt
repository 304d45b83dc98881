#![tactic(auto)]

// The calls that lend the slots: which family an operation belongs to says how many. The slots of the slices of u16 that an operation
// may change are called a to i.
use replay_calls::blocks::of_numbers;
use replay_calls::few::few;
use replay_calls::operations::{Family, Numbered};
use replay_calls::readers::{of_partition, text_of};
use replay_calls::records::records;
use replay_calls::six::six;
use replay_calls::tables::of_table;
use replay_lines::answers::Said;
use replay_slots::case::{Bytes, Case, Narrow, Wide};
use replay_slots::slots::{Slot, Text, fill, fill_all};
use replay_wide::dividing::dividing;
use replay_wide::signing::signing;
use replay_wide::walking::walking;

// What `display` answers.
fn displayed(case: Case, narrow: &Narrow, bytes: &Bytes, text: &mut Text) -> Said {
    let letters = fill(case, bytes, 0, text);
    text_of(case, narrow, letters, text)
}

// What an operation answers.
pub fn called(
    operation: impl Numbered,
    case: Case,
    narrow: &Narrow,
    wide: &Wide,
    bytes: &Bytes,
    text: &mut Text,
    a: &mut Slot,
    b: &mut Slot,
    c: &mut Slot,
    d: &mut Slot,
    e: &mut Slot,
    f: &mut Slot,
    g: &mut Slot,
    h: &mut Slot,
    i: &mut Slot,
) -> Said {
    let to = fill_all(case, narrow, a, b, c, d, e, f, g, h, i);
    match operation.family() {
        Family::Numbers => of_numbers(operation, case),
        Family::Readers => of_partition(operation, case, narrow),
        Family::Tables => of_table(operation, case, narrow),
        Family::Texts => displayed(case, narrow, bytes, text),
        Family::Few => few(operation, case, narrow, to, a, b, c),
        Family::Records => records(case, narrow, to, a, b),
        Family::Six => six(operation, case, narrow, bytes, to, a, b, c, d, e, f),
        Family::Dividing => dividing(case, narrow, to, a, b, c, d, e, f, g, h, i),
        Family::Signing => signing(operation, case, narrow, to, a, b, c, d, e, f),
        _ => walking(operation, case, narrow, wide, to, a, b, c, d, e, f, g, h, i),
    }
}

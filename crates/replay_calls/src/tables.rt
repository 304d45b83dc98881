// The operations that read a table, or lists of pairs.
ghost use Rattle.std.specs.Prelude.{◌≡◌};
ghost use Rattle.replay_lines.specs.Told.{told};
ghost use Rattle.table.specs.Transitions.{said_stretch};

use crate::headers::system;
use crate::operations::{Numbered, Operation};
use columns::answers::Answer;
use pairs::is_subset_of;
use replay_lines::answers::{Said, done, flag, number};
use replay_slots::case::{Case, column};
use table::cores::Stretch;

// The answer of `outgoing_transitions` as numbers.
fn stretch(answer: Answer<Stretch>) -> Said
    ensures { told result ≡ said_stretch answer }
{
    let rows = answer.outcome?;
    done(2, rows.first as u64, rows.end as u64, 0)
}

pub fn of_table(operation: impl Numbered, case: Case, cells: &[u16]) -> Said {
    let system = system(case, cells);
    match operation.which() {
        Operation::OutgoingTransitions => stretch(system.outgoing_transitions(case.number(4))),
        Operation::NextIncoming => number(system.next_incoming(case.number(4), case.number(5))),
        _ => subset(case, cells),
    }
}

fn subset(case: Case, cells: &[u16]) -> Said {
    let self_labels = column(cells, case, 0);
    let self_blocks = column(cells, case, 1);
    let other_labels = column(cells, case, 2);
    let other_blocks = column(cells, case, 3);
    flag(is_subset_of(
        self_labels,
        self_blocks,
        other_labels,
        other_blocks,
        case.number(0),
        case.number(1),
    ))
}

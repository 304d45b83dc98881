// `remove_redundant_transitions` (quotient.rs). A row can go where hidden steps, with another row of its label between them, lead from its
// source to its target.
#![tactic(auto)]

ghost use Rattle.std.specs.Prelude.{◌≡◌, [], ◌∷◌};
ghost use Rattle.quotient_redundant.specs.Call.{remove_redundant_transitions};
ghost use Rattle.table.specs.Tables.{Three, said_table};
ghost use Rattle.table.specs.Lts.{lts_of};

pub mod cores;

use columns::answers::Answer;
use table::{Lts, Table};

// The rows that are not redundant, over the first cells of the result columns. A row (s, a, u) goes if s reaches t by hidden steps, some
// other row (t, a, v) that is no hidden self-loop exists, and v reaches u by hidden steps. Every test is against the whole table. Answers
// the header of what is left.
pub fn remove_redundant_transitions(
    system: &Lts<'_>,
    result_source: &mut [u16],
    result_label: &mut [u16],
    result_target: &mut [u16],
    order: &mut [u16],
    back_source: &mut [u16],
    back_label: &mut [u16],
    back_target: &mut [u16],
    forward: &mut [u16],
    backward: &mut [u16],
    queue: &mut [u16],
) -> Answer<Table>
    ensures { let left = order.new ∷ back_source.new ∷ back_label.new ∷ back_target.new ∷ forward.new ∷ backward.new ∷ queue.new ∷ [] in
        let work = order.old ∷ back_source.old ∷ back_label.old ∷ back_target.old ∷ forward.old ∷ backward.old ∷ queue.old ∷ [] in
        let out : Three = (result_source.old, (result_label.old, result_target.old)) in
        let out_left : Three = (result_source.new, (result_label.new, result_target.new)) in
        (said_table result, (out_left, left)) ≡ remove_redundant_transitions (lts_of system.now) out work }
{
    let table = system.table;
    let room = table.room_for(
        table.m as usize,
        &[result_source.len(), result_label.len(), result_target.len()],
        &[
            order.len(),
            back_source.len(),
            back_label.len(),
            back_target.len(),
            forward.len(),
            backward.len(),
            queue.len(),
        ],
    );
    if let Err(refusal) = system.check(room) {
        return Answer::refused(refusal);
    }
    let m = cores::remove_redundant_transitions(
        system,
        result_source,
        result_label,
        result_target,
        order,
        back_source,
        back_label,
        back_target,
        forward,
        backward,
        queue,
    );
    Answer::done(Table {
        m: m as u16,
        ..table
    })
}

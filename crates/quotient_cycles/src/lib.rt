// `tau_cycle_elimination_and_reorder` (signatures.rs): hidden cycles taken out, and the states renumbered in the reversed hidden order.
#![tactic(auto)]

ghost use Rattle.table.specs.Tables.{Three};
ghost use Rattle.std.specs.Prelude.{◌≡◌, [], ◌∷◌};
ghost use Rattle.quotient_cycles.specs.Call.{said_reordered, tau_cycle_elimination_and_reorder};
ghost use Rattle.table.specs.Lts.{lts_of};

pub mod cores;

use columns::answers::Answer;
use table::{Lts, Table};

// What comes out: the header of the table whose rows stand in the result columns, and the new number of the state that was given.
#[derive(Clone, Copy, PartialEq, Eq, Debug)]
pub struct Reordered {
    pub table: Table,
    pub state: u16,
}

// States that reach each other by hidden steps become one, and the rows between these, as a set, are written over the first cells of the
// result columns: `eliminate_tau_selfloops` drops those hidden rows that would be self-loops. The new states are numbered in the reversed
// hidden order, so that each hidden row to another state leads to a smaller number. Answers the header of what comes out, and the state's
// new number.
pub fn tau_cycle_elimination_and_reorder(
    system: &Lts<'_>,
    state: u16,
    eliminate_tau_selfloops: bool,
    result_source: &mut [u16],
    result_label: &mut [u16],
    result_target: &mut [u16],
    numbers: &mut [u16],
    mid_source: &mut [u16],
    mid_label: &mut [u16],
    mid_target: &mut [u16],
    a: &mut [u16],
    b: &mut [u16],
    c: &mut [u16],
    order: &mut [u16],
    spare: &mut [u16],
) -> Answer<Reordered>
    ensures { let rest_left = a.new ∷ b.new ∷ c.new ∷ order.new ∷ spare.new ∷ [] in
        let left = numbers.new ∷ mid_source.new ∷ mid_label.new ∷ mid_target.new ∷ rest_left in
        let rest = a.old ∷ b.old ∷ c.old ∷ order.old ∷ spare.old ∷ [] in
        let work = numbers.old ∷ mid_source.old ∷ mid_label.old ∷ mid_target.old ∷ rest in
        let out : Three = (result_source.old, (result_label.old, result_target.old)) in
        let out_left : Three = (result_source.new, (result_label.new, result_target.new)) in
        (said_reordered result, (out_left, left))
        ≡ tau_cycle_elimination_and_reorder (lts_of system.now) state eliminate_tau_selfloops out work }
{
    let s = state as usize;
    let table = system.table;
    let room = table.room_for(
        table.m as usize,
        &[result_source.len(), result_label.len(), result_target.len()],
        &[
            numbers.len(),
            mid_source.len(),
            mid_label.len(),
            mid_target.len(),
            a.len(),
            b.len(),
            c.len(),
            order.len(),
            spare.len(),
        ],
    );
    if let Err(refusal) = system.check_argument(s, table.n as usize, room) {
        return Answer::refused(refusal);
    }
    let reordered = cores::tau_cycle_elimination_and_reorder(
        system,
        s,
        eliminate_tau_selfloops,
        result_source,
        result_label,
        result_target,
        numbers,
        mid_source,
        mid_label,
        mid_target,
        a,
        b,
        c,
        order,
        spare,
    );
    Answer::done(reordered)
}

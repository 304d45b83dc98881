// The quotient of a table by one state of each block of a partition (quotient.rs).
#![tactic(auto)]

ghost use Rattle.std.specs.Prelude.{◌≡◌, [], ◌∷◌};
ghost use Rattle.quotient_block.specs.Call.{quotient_lts_block};
ghost use Rattle.table.specs.Tables.{Three, said_table};
ghost use Rattle.partition.specs.Partition.{parts_of};
ghost use Rattle.table.specs.Lts.{lts_of};

pub mod cores;

use columns::answers::Answer;
use partition::PartitionColumns;
use table::{Lts, Table};
use table_partition::check;

// The rows of each block's first state in element order, or with `branching` of the state found by following the first hidden row to
// another state of the block until none is left, 12 where that comes back to a state; between blocks, as a set, ascending, over the first
// cells of the result columns. `eliminate_tau_loops` drops the chosen state's hidden self-loop. Answers the header of the quotient. Work:
// the rows before they are a set, two columns for the sort, and the states chosen.
pub fn quotient_lts_block(
    system: &Lts<'_>,
    count: u16,
    columns: &PartitionColumns<'_>,
    branching: bool,
    eliminate_tau_loops: bool,
    result_source: &mut [u16],
    result_label: &mut [u16],
    result_target: &mut [u16],
    a: &mut [u16],
    b: &mut [u16],
    c: &mut [u16],
    order: &mut [u16],
    spare: &mut [u16],
    chosen: &mut [u16],
) -> Answer<Table>
    ensures { let given = parts_of columns.now system.now.table.n count in
        let work = a.old ∷ b.old ∷ c.old ∷ order.old ∷ spare.old ∷ chosen.old ∷ [] in
        let work_left = a.new ∷ b.new ∷ c.new ∷ order.new ∷ spare.new ∷ chosen.new ∷ [] in
        let out : Three = (result_source.old, (result_label.old, result_target.old)) in
        let out_left : Three = (result_source.new, (result_label.new, result_target.new)) in
        (said_table result, (out_left, work_left))
        ≡ quotient_lts_block branching eliminate_tau_loops (lts_of system.now) given out work }
{
    let table = system.table;
    let room = table.room_for(
        table.m as usize,
        &[result_source.len(), result_label.len(), result_target.len()],
        &[
            a.len(),
            b.len(),
            c.len(),
            order.len(),
            spare.len(),
            chosen.len(),
        ],
    );
    if let Err(refusal) = check(system, count as usize, columns, room) {
        return Answer::refused(refusal);
    }
    cores::quotient_block(
        system,
        count as usize,
        columns.elements,
        columns.element_to_block,
        columns.begin,
        branching,
        eliminate_tau_loops,
        result_source,
        result_label,
        result_target,
        a,
        b,
        c,
        order,
        spare,
        chosen,
    )
}

// The naive quotient of a table by the blocks of a partition (quotient.rs).
#![tactic(auto)]

ghost use Rattle.std.specs.Prelude.{◌≡◌, [], ◌∷◌};
ghost use Rattle.quotient.specs.Call.{quotient_lts_naive};
ghost use Rattle.table.specs.Tables.{Three, said_table};
ghost use Rattle.partition.specs.Partition.{parts_of};
ghost use Rattle.table.specs.Lts.{lts_of};

pub mod cores;

use columns::answers::Answer;
use partition::PartitionColumns;
use table::{Lts, Table};
use table_partition::check;

// The rows between blocks, as a set, ascending, over the first cells of the result columns. `eliminate_inert_taus` drops hidden steps
// inside a block between different states, `eliminate_tau_loops` hidden self-loops of a state. Answers the header of the quotient. Work:
// the rows before they are a set, and two columns for the sort.
pub fn quotient_lts_naive(
    system: &Lts<'_>,
    count: u16,
    columns: &PartitionColumns<'_>,
    eliminate_inert_taus: bool,
    eliminate_tau_loops: bool,
    result_source: &mut [u16],
    result_label: &mut [u16],
    result_target: &mut [u16],
    a: &mut [u16],
    b: &mut [u16],
    c: &mut [u16],
    order: &mut [u16],
    spare: &mut [u16],
) -> Answer<Table>
    ensures { let given = parts_of columns.now system.now.table.n count in
        let work = a.old ∷ b.old ∷ c.old ∷ order.old ∷ spare.old ∷ [] in
        let work_left = a.new ∷ b.new ∷ c.new ∷ order.new ∷ spare.new ∷ [] in
        let out : Three = (result_source.old, (result_label.old, result_target.old)) in
        let out_left : Three = (result_source.new, (result_label.new, result_target.new)) in
        (said_table result, (out_left, work_left))
        ≡ quotient_lts_naive eliminate_inert_taus eliminate_tau_loops (lts_of system.now) given out work }
{
    let table = system.table;
    let room = table.room_for(
        table.m as usize,
        &[result_source.len(), result_label.len(), result_target.len()],
        &[a.len(), b.len(), c.len(), order.len(), spare.len()],
    );
    if let Err(refusal) = check(system, count as usize, columns, room) {
        return Answer::refused(refusal);
    }
    let m = cores::quotient_rows(
        system,
        columns.element_to_block,
        eliminate_inert_taus,
        eliminate_tau_loops,
        result_source,
        result_label,
        result_target,
        a,
        b,
        c,
        order,
        spare,
    );
    Answer::done(Table {
        n: count,
        labels: table.labels,
        m: m as u16,
        initial: columns.element_to_block[table.initial as usize],
    })
}

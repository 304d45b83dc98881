// `sort_topological` (sort_topological.rs): the order of a table's states, along all rows or along hidden rows only.
#![tactic(auto)]

ghost use Rattle.std.specs.Prelude.{◌≡◌};
ghost use Rattle.columns.specs.Answers.{checked, said};
ghost use Rattle.table_order.specs.Call.{sort_refusal, sort_topological};
ghost use Rattle.table.specs.Lts.{lts_of};

pub mod cores;

use columns::answers::{Answer, Refusal};
use table::Lts;

// What a call with the table refuses, a result column of n cells and two work slices, given by their lengths.
fn check_sort(system: &Lts<'_>, places: usize, marks: usize, stack: usize) -> Result<(), Refusal>
    ensures { checked result ≡ sort_refusal (lts_of system.now) places marks stack }
{
    let n = system.table.n as usize;
    system.check((n <= places) & system.table.works_long(&[marks, stack]))
}

// Each state's place, over the first n cells of `places`: depth first from 0 upward, the last listed successor first, self-loops
// ignored. Reversed, it is the order of finishing, otherwise its opposite. With `hidden` only rows with label 0 are taken. 11 for
// a cycle longer than a self-loop.
pub fn sort_topological(
    system: &Lts<'_>,
    hidden: bool,
    reversed: bool,
    places: &mut [u16],
    marks: &mut [u16],
    stack: &mut [u16],
) -> Answer<()>
    ensures { (said result, (places.new, (marks.new, stack.new)))
        ≡ sort_topological (lts_of system.now) hidden reversed places.old marks.old stack.old }
{
    if let Err(refusal) = check_sort(system, places.len(), marks.len(), stack.len()) {
        return Answer::refused(refusal);
    }
    if cores::sort_topological(system, hidden, reversed, places, marks, stack) {
        Answer::done(())
    } else {
        Answer::refused(Refusal::Cyclic)
    }
}

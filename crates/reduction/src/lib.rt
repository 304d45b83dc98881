// The strong reduction: the coarsest bisimulation of a table by rounds of refinement, and the quotient by it.
#![tactic(auto)]

ghost use Rattle.std.specs.Prelude.{◌≡◌, [], ◌∷◌};
ghost use Rattle.columns.specs.Answers.{checked};
ghost use Rattle.reduction.specs.Answers.{said_reduction};
ghost use Rattle.reduction.specs.Reducing.{Slices, reduction_refusal, strong_reduction};
ghost use Rattle.table.specs.Lts.{lts_of};

pub mod answers;
pub mod cores;

use crate::answers::Reduced;
use crate::cores::reduce;
use columns::answers::{Answer, Refusal};
use columns::checks::long;
use table::{Lts, Table};

// What a call with the table refuses, three result columns, a block column and work slices, given by their lengths.
fn check_reduction(
    system: &Lts<'_>,
    results: &[usize],
    block: usize,
    works: &[usize],
) -> Result<(), Refusal>
    ensures { checked result ≡ reduction_refusal (lts_of system.now) results.now block works.now }
{
    let n = system.table.n as usize;
    let m = system.table.m as usize;
    let fits = long(m, results);
    let works_fit = system.table.works_long(works);
    system.check(fits & ((n <= block) & works_fit))
}

// The reduced table's rows over the first cells of the result columns, and the number of each state's block, by least member, over the
// first n cells of `block`. Answers the header of the reduced table and how many rounds split something. Work: ten slices, the six
// columns of the partition and four beside them.
pub fn strong_reduction(
    system: &Lts<'_>,
    result_source: &mut [u16],
    result_label: &mut [u16],
    result_target: &mut [u16],
    block: &mut [u16],
    elements: &mut [u16],
    element_offset: &mut [u16],
    element_to_block: &mut [u16],
    begin: &mut [u16],
    marked_split: &mut [u16],
    end: &mut [u16],
    numbers: &mut [u16],
    labels: &mut [u16],
    blocks: &mut [u16],
    spare: &mut [u16],
) -> Answer<Reduced>
    ensures { let given : Slices = (
      (result_source.old, (result_label.old, result_target.old)),
      (
        block.old,
        elements.old ∷ element_offset.old ∷ element_to_block.old ∷ begin.old ∷ marked_split.old ∷ end.old
            ∷ numbers.old ∷ labels.old ∷ blocks.old ∷ spare.old ∷ [],
      ),
    ) in
        let left : Slices = (
          (result_source.new, (result_label.new, result_target.new)),
          (
            block.new,
            elements.new ∷ element_offset.new ∷ element_to_block.new ∷ begin.new ∷ marked_split.new ∷ end.new
                ∷ numbers.new ∷ labels.new ∷ blocks.new ∷ spare.new ∷ [],
          ),
        ) in
        (said_reduction result, left) ≡ strong_reduction (lts_of system.now) given }
{
    let n = system.table.n as usize;
    let results = [result_source.len(), result_label.len(), result_target.len()];
    let works = [
        elements.len(),
        element_offset.len(),
        element_to_block.len(),
        begin.len(),
        marked_split.len(),
        end.len(),
        numbers.len(),
        labels.len(),
        blocks.len(),
        spare.len(),
    ];
    if let Err(refusal) = check_reduction(system, &results, block.len(), &works) {
        return Answer::refused(refusal);
    }
    let r = reduce(
        system,
        result_source,
        result_label,
        result_target,
        &mut block[..n],
        elements,
        element_offset,
        element_to_block,
        begin,
        marked_split,
        end,
        numbers,
        labels,
        blocks,
        spare,
    );
    let table = Table {
        n: r.count as u16,
        labels: system.table.labels,
        m: r.rows as u16,
        initial: block[system.table.initial as usize],
    };
    Answer::done(Reduced {
        table,
        rounds: r.rounds as u64,
    })
}

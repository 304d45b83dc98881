// `tau_scc_decomposition` (scc_decomposition.rs): the components of a table, states that reach each other by hidden steps.
#![tactic(auto)]

ghost use Rattle.std.specs.Prelude.{◌≡◌, [], ◌∷◌};
ghost use Rattle.columns.specs.Answers.{said_number};
ghost use Rattle.quotient_components.specs.Call.{tau_scc_decomposition};
ghost use Rattle.table.specs.Lts.{lts_of};

pub mod cores;

use columns::answers::Answer;
use table::Lts;

// The number of each state's component, over the first n cells of `numbers`: states that reach each other by hidden steps share a number,
// and numbers follow the least member. Answers how many there are.
pub fn tau_scc_decomposition(
    system: &Lts<'_>,
    numbers: &mut [u16],
    order: &mut [u16],
    back_source: &mut [u16],
    back_label: &mut [u16],
    back_target: &mut [u16],
    forward: &mut [u16],
    backward: &mut [u16],
    queue: &mut [u16],
) -> Answer<u64>
    ensures { let left = order.new ∷ back_source.new ∷ back_label.new ∷ back_target.new ∷ forward.new ∷ backward.new ∷ queue.new ∷ [] in
        let work = order.old ∷ back_source.old ∷ back_label.old ∷ back_target.old ∷ forward.old ∷ backward.old ∷ queue.old ∷ [] in
        (said_number result, (numbers.new, left)) ≡ tau_scc_decomposition (lts_of system.now) numbers.old work }
{
    let table = system.table;
    let room = table.room_for(
        table.n as usize,
        &[numbers.len()],
        &[
            order.len(),
            back_source.len(),
            back_label.len(),
            back_target.len(),
            forward.len(),
            backward.len(),
            queue.len(),
        ],
    );
    if let Err(refusal) = system.check(room) {
        return Answer::refused(refusal);
    }
    let count = cores::tau_scc_decomposition(
        system,
        numbers,
        order,
        back_source,
        back_label,
        back_target,
        forward,
        backward,
        queue,
    );
    Answer::done(count as u64)
}

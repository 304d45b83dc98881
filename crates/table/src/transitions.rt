// The rows of a state: those that leave it, as a run of row numbers, and those that lead to it, one after the other.
ghost use Rattle.std.specs.Prelude.{◌≡◌};
ghost use Rattle.columns.specs.Answers.{checked, said_number};
ghost use Rattle.table.specs.Transitions.{said_stretch, next_refusal, outgoing_transitions, next_incoming_row};
ghost use Rattle.table.specs.Lts.{lts_of};

use crate::Lts;
use crate::cores::{Stretch, rows_of};
use columns::answers::{Answer, Refusal};
use columns::checks::check_index;

impl Lts<'_> {
    // What a call with the table, a state, and the row from which another one is sought refuses.
    fn check_next(&self, state: usize, from: usize) -> Result<(), Refusal>
        ensures { checked result ≡ next_refusal (lts_of self.now) state from }
    {
        self.check_argument(state, self.table.n as usize, true)?;
        check_index(from, self.table.m as usize + 1)
    }

    // The run of the state's rows: their first, and the row after their last.
    pub fn outgoing_transitions(&self, state: u16) -> Answer<Stretch>
        ensures { said_stretch result ≡ outgoing_transitions (lts_of self.now) state }
    {
        let s = state as usize;
        if let Err(refusal) = self.check_argument(s, self.table.n as usize, true) {
            return Answer::refused(refusal);
        }
        Answer::done(rows_of(self.source, self.table.m as usize, s))
    }

    // The least row, at or after `from`, that leads to the state; m if there is none. Asked again from the row after the last
    // answer, it names all rows into the state, by ascending source, then label.
    pub fn next_incoming(&self, state: u16, from: u16) -> Answer<u64>
        ensures { said_number result ≡ next_incoming_row (lts_of self.now) state from }
    {
        let s = state as usize;
        let i = from as usize;
        if let Err(refusal) = self.check_next(s, i) {
            return Answer::refused(refusal);
        }
        let row = crate::cores::next_incoming(self.target, self.table.m as usize, s, i);
        Answer::done(row as u64)
    }
}

// Which states a state reaches, along all rows or along hidden rows only.
ghost use Rattle.std.specs.Prelude.{◌≡◌};
ghost use Rattle.columns.specs.Answers.{checked, said_number};
ghost use Rattle.table.specs.Reach.{reach_refusal, reachable};
ghost use Rattle.table.specs.Lts.{lts_of};

use crate::Lts;
use columns::answers::{Answer, Refusal};
use columns::cells::clear;

impl Lts<'_> {
    // What a call with the table and a state refuses, a result column of n cells and a work slice, given by their lengths.
    fn check_reach(&self, state: usize, res: usize, work: usize) -> Result<(), Refusal>
        ensures { checked result ≡ reach_refusal (lts_of self.now) state res work }
    {
        let n = self.table.n as usize;
        self.check_argument(state, n, (n <= res) & self.table.works_long(&[work]))
    }

    // The states that a state reaches by a walk of rows, perhaps of none: over the first n cells of `reached`, 1 for each and 0
    // for each other. With `hidden` only rows with label 0 are walked. Answers how many are reached.
    pub fn reachable(
        &self,
        hidden: bool,
        state: u16,
        reached: &mut [u16],
        queue: &mut [u16],
    ) -> Answer<u64>
        ensures { (said_number result, (reached.new, queue.new)) ≡ reachable (lts_of self.now) hidden state reached.old queue.old }
    {
        let n = self.table.n as usize;
        let s = state as usize;
        if let Err(refusal) = self.check_reach(s, reached.len(), queue.len()) {
            return Answer::refused(refusal);
        }
        let count = self.reach(&[], hidden, s, &mut reached[..n], &mut *queue);
        clear(&mut *queue);
        Answer::done(count as u64)
    }
}

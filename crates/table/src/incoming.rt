// The incoming list: all row numbers by target, then source, then label.
ghost use Rattle.std.specs.Prelude.{◌≡◌};
ghost use Rattle.columns.specs.Answers.{checked, said_number};
ghost use Rattle.table.specs.Incoming.{incoming_refusal, incoming_rows};
ghost use Rattle.table.specs.Lts.{lts_of};

use crate::Lts;
use crate::cores::sort_incoming;
use columns::answers::{Answer, Refusal};
use columns::cells::clear;

impl Lts<'_> {
    // What a call with the table refuses, a result column of m cells and a work slice, given by their lengths.
    fn check_incoming(&self, res: usize, work: usize) -> Result<(), Refusal>
        ensures { checked result ≡ incoming_refusal (lts_of self.now) res work }
    {
        let m = self.table.m as usize;
        self.check((m <= res) & self.table.works_long(&[work]))
    }

    // All row numbers, by target, then source, then label, over the first m cells of `incoming`. Answers m.
    pub fn incoming(&self, incoming: &mut [u16], spare: &mut [u16]) -> Answer<u64>
        ensures { (said_number result, (incoming.new, spare.new)) ≡ incoming_rows (lts_of self.now) incoming.old spare.old }
    {
        let m = self.table.m;
        if let Err(refusal) = self.check_incoming(incoming.len(), spare.len()) {
            return Answer::refused(refusal);
        }
        clear(&mut *spare);
        sort_incoming(
            self.source,
            self.label,
            self.target,
            &mut incoming[..m as usize],
            &mut *spare,
        );
        Answer::done(m as u64)
    }
}

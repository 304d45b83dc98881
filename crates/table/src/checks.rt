// The tests that every call makes of the table it is lent.
ghost use Rattle.std.specs.Prelude.{◌≡◌, ◌+◌, ◌<◌, ◌≤◌, ◌&&◌, length};
ghost use Rattle.columns.specs.Answers.{checked};
ghost use Rattle.columns.specs.Due.{due, all_long};
ghost use Rattle.table.specs.Checks.{fieldsb, aboveb, header_tests, row_tests, table_tests, table_argument_refusal};
ghost use Rattle.table.specs.Lts.{lts_of};

use crate::{Lts, Table};
use columns::answers::Refusal;
use columns::cells::at;
use columns::checks::{check_index, check_labels, check_states, long, refuse_unless};
use columns::limits::MAX_ROWS;
use columns::sorting::Keys;

impl Lts<'_> {
    // Whether the fields of row i are in range.
    fn fields_ok(&self, i: usize) -> bool
        requires { (i < length self.now.source.now) × (i < length self.now.label.now) × (i < length self.now.target.now) }
        ensures { result ≡ fieldsb (lts_of self.now) i }
    {
        let n = self.table.n as usize;
        at(self.source, i) < n
            && at(self.label, i) < self.table.labels as usize
            && at(self.target, i) < n
    }

    // Whether row i is the first, or above the one before.
    fn above_ok(&self, i: usize) -> bool
        requires { (i < length self.now.source.now) × (i < length self.now.label.now) × (i < length self.now.target.now) × (i < 65536) }
        ensures { result ≡ aboveb self.now.source.now self.now.label.now self.now.target.now i }
    {
        if i == 0 {
            return true;
        }
        let before = (i - 1) as u16;
        let this = i as u16;
        let rows = Keys {
            first: self.source,
            second: self.label,
            third: self.target,
        };
        rows.comes_before(before, this)
    }

    // 5 or 6 for the lowest row that is wrong.
    fn check_rows(&self) -> Result<(), Refusal>
        requires { (self.now.table.m ≤ length self.now.source.now) × (self.now.table.m ≤ length self.now.label.now)
            × (self.now.table.m ≤ length self.now.target.now) }
        ensures { checked result ≡ due (row_tests (lts_of self.now)) }
    {
        for i in 0..self.table.m as usize {
            let row = i as u64;
            if !self.fields_ok(i) {
                return Err(Refusal::WrongField { row });
            }
            if !self.above_ok(i) {
                return Err(Refusal::NotAbove { row });
            }
        }
        Ok(())
    }

    // 1, 2, 3, 4 or 7, the first that is due; `room` says whether the call's other slices are long enough.
    fn check_header(&self, room: bool) -> Result<(), Refusal>
        ensures { checked result ≡ due (header_tests (lts_of self.now) room) }
    {
        let n = self.table.n as usize;
        let m = self.table.m as usize;
        check_states(n)?;
        check_labels(self.table.labels as usize)?;
        refuse_unless(m <= MAX_ROWS, Refusal::WrongRows)?;
        refuse_unless((self.table.initial as usize) < n, Refusal::WrongInitial)?;
        let rows = long(m, &[self.source.len(), self.label.len(), self.target.len()]);
        refuse_unless(rows & room, Refusal::TooShort)
    }

    // 1, 2, 3, 4, 7, 5 or 6, the first that is due; `room` says whether the call's other slices are long enough.
    pub fn check(&self, room: bool) -> Result<(), Refusal>
        ensures { checked result ≡ due (table_tests (lts_of self.now) room) }
    {
        self.check_header(room)?;
        self.check_rows()
    }

    // What a call with the table refuses that has an argument, which is below `bound`.
    pub fn check_argument(&self, i: usize, bound: usize, room: bool) -> Result<(), Refusal>
        ensures { checked result ≡ table_argument_refusal (lts_of self.now) i bound room }
    {
        self.check(room)?;
        check_index(i, bound)
    }
}

impl Table {
    // Whether work slices of these lengths have n + m + 1 cells each.
    pub fn works_long(self, lengths: &[usize]) -> bool
        ensures { result ≡ all_long (self.n + self.m + 1) lengths.now }
    {
        long(self.n as usize + self.m as usize + 1, lengths)
    }

    // Whether result columns have this many cells each, and work slices n + m + 1, given by their lengths.
    pub fn room_for(self, cells: usize, results: &[usize], work: &[usize]) -> bool
        ensures { result ≡ (all_long cells results.now && all_long (self.n + self.m + 1) work.now) }
    {
        long(cells, results) & self.works_long(work)
    }
}

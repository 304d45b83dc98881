// The answers of these operations as numbers.
ghost use Rattle.std.specs.Prelude.{◌≡◌, ℕ, List, [], ◌∷◌, take};
ghost use Rattle.columns.specs.Answers.{said_coded};
ghost use Rattle.quotient_cycles.specs.Call.{reordered_values};
ghost use Rattle.reduction.specs.Answers.{reduction_values};
ghost use Rattle.replay_lines.specs.Told.{told_by};

use columns::answers::{Answer, Coded};
use quotient_cycles::Reordered;
use reduction::answers::Reduced;
use replay_lines::answers::{Said, done_or};
use table::Table;

// What has the four numbers of a header and one more: what an operation answers, or any five.
pub trait Five: Copy {
    ghost values: { Self → List ℕ };

    // Them, and three more.
    fn eight(self) -> [u64; 8]
        ensures { take 5 result ≡ values self };
}

impl Five for Reordered {
    ghost values = { reordered_values };

    fn eight(self) -> [u64; 8] {
        header_and(self.table, self.state as u64)
    }
}

impl Five for Reduced {
    ghost values = { reduction_values };

    fn eight(self) -> [u64; 8] {
        header_and(self.table, self.rounds)
    }
}

impl Five for [u64; 5] {
    ghost values = { λ numbers. numbers };

    fn eight(self) -> [u64; 8] {
        let [n, labels, m, initial, last] = self;
        [n, labels, m, initial, last, 0, 0, 0]
    }
}

// The numbers of a header, and one more.
fn header_and(table: Table, last: u64) -> [u64; 8]
    ensures { result ≡ table.n ∷ table.labels ∷ table.m ∷ table.initial ∷ last ∷ 0 ∷ 0 ∷ 0 ∷ [] }
{
    let (n, labels) = (table.n as u64, table.labels as u64);
    let (m, initial) = (table.m as u64, table.initial as u64);
    [n, labels, m, initial, last, 0, 0, 0]
}

// The header, and the new number of the state that was given.
pub fn reordered<D: Five, R: Coded>(answer: Answer<D, R>) -> Said<R>
    ensures { told_by R.code result ≡ said_coded R.code D.values answer.outcome }
{
    let done = answer.outcome?;
    done_or(5, done.eight())
}

// The header, and how many rounds split something.
pub fn reduced<D: Five, R: Coded>(answer: Answer<D, R>) -> Said<R>
    ensures { told_by R.code result ≡ said_coded R.code D.values answer.outcome }
{
    let done = answer.outcome?;
    done_or(5, done.eight())
}

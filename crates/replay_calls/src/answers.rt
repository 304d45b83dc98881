// The header of a table as numbers.
ghost use Rattle.std.specs.Prelude.{◌≡◌, ℕ, List, take};
ghost use Rattle.columns.specs.Answers.{said_coded};
ghost use Rattle.replay_lines.specs.Told.{told_by};
ghost use Rattle.table.specs.Tables.{header_values};

use columns::answers::{Answer, Coded};
use replay_lines::answers::{Said, done_or};
use table::Table;

// What has the four numbers of a header: a table, or any four.
pub trait Four: Copy {
    ghost values: { Self → List ℕ };

    // Them, and four more.
    fn eight(self) -> [u64; 8]
        ensures { take 4 result ≡ values self };
}

impl Four for Table {
    ghost values = { header_values };

    fn eight(self) -> [u64; 8] {
        let (n, labels) = (self.n as u64, self.labels as u64);
        let (m, initial) = (self.m as u64, self.initial as u64);
        [n, labels, m, initial, 0, 0, 0, 0]
    }
}

impl Four for [u64; 4] {
    ghost values = { λ numbers. numbers };

    fn eight(self) -> [u64; 8] {
        let [n, labels, m, initial] = self;
        [n, labels, m, initial, 0, 0, 0, 0]
    }
}

pub fn header<H: Four, R: Coded>(answer: Answer<H, R>) -> Said<R>
    ensures { told_by R.code result ≡ said_coded R.code H.values answer.outcome }
{
    let header = answer.outcome?;
    done_or(4, header.eight())
}

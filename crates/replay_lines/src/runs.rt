// Cells in runs: equal ones, or each one more than the one before.
ghost use Rattle.std.specs.Prelude.{◌≡◌, ◌+◌, ◌<◌, ◌≤◌, IfSome};
ghost use Rattle.replay_lines.specs.Runs.{none, alone, longer, rest, repeats, ascends, last_cell};

use crate::input::Input;

// The first cell, how many there are, and by how much each is more than the one before: 0 or 1, and 0 for one cell.
#[derive(Clone, Copy)]
pub struct Run {
    pub first: u64,
    pub count: u64,
    pub step: u64,
}

impl Run {
    // No cell.
    pub fn none() -> Run
        ensures { result ≡ none }
    {
        Run {
            first: 0,
            count: 0,
            step: 0,
        }
    }

    // One cell.
    pub fn alone(x: u64) -> Run
        ensures { result ≡ alone x }
    {
        Run {
            first: x,
            count: 1,
            step: 0,
        }
    }

    // The run with a cell more.
    pub fn longer(self, step: u64) -> Run
        requires { self.count < 18446744073709551615 }
        ensures { result ≡ longer self step }
    {
        Run {
            first: self.first,
            count: self.count + 1,
            step,
        }
    }

    // The run without its first cell.
    pub fn rest(self) -> Run
        requires { (1 < self.count) × (last_cell self ≤ 4294967295) }
        ensures { (result ≡ rest self) × (last_cell result ≡ last_cell self) }
    {
        Run {
            first: self.first + self.step,
            count: self.count - 1,
            step: self.step,
        }
    }

    // Whether a cell goes on with the run as an equal one.
    pub fn repeats(self, x: u64) -> bool
        ensures { result ≡ repeats self x }
    {
        self.step == 0 && x == self.first
    }

    // Whether a cell goes on with the run as one more than the one before.
    pub fn ascends(self, x: u64) -> bool
        ensures { result ≡ ascends self x }
    {
        self.first <= x && x - self.first == self.count && (self.count == 1 || self.step == 1)
    }
}

// The cells that a word stands for, and whether it is written as a run.
#[derive(Clone, Copy)]
pub struct Word {
    pub run: Run,
    pub short: bool,
}

// How many cells an ascending run has at most whose first is `first`, where there are `room` and none is above `largest`.
fn ascending(first: u64, largest: u64, room: u64) -> u64
    requires { (first ≤ largest) × (largest ≤ 4294967295) }
    ensures { first + result ≤ largest + 1 }
{
    room.min(largest - first + 1)
}

impl Input {
    // The sign of a run, and how many cells it has, from 1 to `most`, if they are there.
    fn counted(&mut self, first: u64, step: u64, most: u64) -> Option<Word>
        ensures { IfSome result (λ word. (word.run.first ≡ first) × (word.run.count ≤ most) × (word.run.step ≡ step)) }
    {
        self.next();
        let count = self.number_here(most)?;
        if count == 0 {
            return None;
        }
        let run = Run { first, count, step };
        Some(Word { run, short: true })
    }

    // A blank, and a number or a run of at most `room` cells, of which none is above `largest`, if they are there.
    pub fn word(&mut self, largest: u64, room: u64) -> Option<Word>
        requires { largest ≤ 4294967295 }
        ensures { IfSome result (λ word. last_cell word.run ≤ largest) }
    {
        let first = self.number(largest)?;
        match self.byte {
            Some(b'*') => self.counted(first, 0, room),
            Some(b'+') => self.counted(first, 1, ascending(first, largest, room)),
            _ => {
                let run = Run::alone(first);
                Some(Word { run, short: false })
            }
        }
    }
}

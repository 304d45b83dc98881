// A line read by the kinds of its parameters.
ghost use Rattle.std.specs.Prelude.{◌≤◌, IfOk};

use crate::case::{Bytes, CHANGED, Case, Cell, HELD_ROOM, Narrow, RECORDS, ROOM, Wide};
use crate::cells::{Feed, plus, read_cells, whole};
use crate::kinds::Kind;
use replay_lines::input::Input;

// How many cells of this type a line may have.
fn all(cell: Cell) -> usize {
    match cell {
        Cell::Narrow => 1400000,
        Cell::Wide => 70000,
        Cell::Byte => 140000,
    }
}

// How long a slice of at most that many cells may be where so many of all are taken.
fn room(longest: usize, taken: usize, all: usize) -> u64 {
    longest.min(all.saturating_sub(taken)) as u64
}

// What is read of a line: how many words, numbers, slices that are only read, slices that may change, and cells of each type. Where a word
// is wrong, the methods answer how many there are before it.
#[derive(Clone, Copy)]
pub struct Reading {
    pub case: Case,
    pub words: usize,
    pub numbers: usize,
    pub read: usize,
    pub changed: usize,
    pub narrow: usize,
    pub wide: usize,
    pub bytes: usize,
}

impl Reading {
    // Nothing but the name is read.
    pub fn new() -> Reading {
        let case = Case::new();
        Reading {
            case,
            words: 1,
            numbers: 0,
            read: 0,
            changed: 0,
            narrow: 0,
            wide: 0,
            bytes: 0,
        }
    }

    // How many cells of this type are taken.
    fn taken(self, cell: Cell) -> usize {
        match cell {
            Cell::Narrow => self.narrow,
            Cell::Wide => self.wide,
            Cell::Byte => self.bytes,
        }
    }

    // With the cells of this type taken up to a place.
    fn taking(mut self, cell: Cell, end: usize) -> Reading {
        match cell {
            Cell::Narrow => self.narrow = end,
            Cell::Wide => self.wide = end,
            Cell::Byte => self.bytes = end,
        }
        self
    }

    // With a slice more, from a place to another.
    fn placed(mut self, changes: bool, start: usize, end: usize) -> Reading {
        if changes {
            self.case = self.case.placed(plus(CHANGED, self.changed), start, end);
            self.changed = plus(self.changed, 1);
        } else {
            self.case = self.case.placed(self.read, start, end);
            self.read = plus(self.read, 1);
        }
        self
    }

    // A word more: a number of at most `most`.
    fn word(&mut self, most: u64, input: &mut Input) -> Result<u64, usize>
        ensures { IfOk result (λ value. value ≤ most) }
    {
        match input.number(most) {
            Some(value) if whole(input) => {
                self.words = plus(self.words, 1);
                Ok(value)
            }
            _ => Err(self.words),
        }
    }

    // With the words of a slice's cells.
    fn fed(mut self, feed: Feed) -> Reading {
        self.words = plus(self.words, feed.words);
        self.case.short = self.case.short || feed.short;
        self
    }

    // A number.
    fn number(mut self, most: u64, input: &mut Input) -> Result<Reading, usize>
        requires { most ≤ 65535 }
    {
        let value = self.word(most, input)?;
        self.case = self.case.numbered(self.numbers, value as u16);
        self.numbers = plus(self.numbers, 1);
        Ok(self)
    }

    // The cells of a slice, up to a place.
    fn cells(
        self,
        cell: Cell,
        changes: bool,
        end: usize,
        input: &mut Input,
        narrow: &mut Narrow,
        wide: &mut Wide,
        bytes: &mut Bytes,
    ) -> Result<Reading, usize> {
        let start = self.taken(cell);
        match read_cells(input, cell, start, end, narrow, wide, bytes) {
            Ok(feed) => Ok(self.placed(changes, start, end).taking(cell, end).fed(feed)),
            Err(words) => Err(plus(self.words, words)),
        }
    }

    // A slice of at most `longest` cells: its length, and its cells.
    fn slice(
        mut self,
        cell: Cell,
        changes: bool,
        longest: usize,
        input: &mut Input,
        narrow: &mut Narrow,
        wide: &mut Wide,
        bytes: &mut Bytes,
    ) -> Result<Reading, usize> {
        let start = self.taken(cell);
        let most = room(longest, start, all(cell));
        let length = self.word(most, input)?;
        let end = plus(start, length as usize);
        self.cells(cell, changes, end, input, narrow, wide, bytes)
    }

    // A list of records: how many, and the three cells of each.
    fn records(
        mut self,
        input: &mut Input,
        narrow: &mut Narrow,
        wide: &mut Wide,
        bytes: &mut Bytes,
    ) -> Result<Reading, usize> {
        let count = self.word(RECORDS, input)?;
        let end = plus(self.narrow, count as usize * 3);
        self.cells(Cell::Narrow, true, end, input, narrow, wide, bytes)
    }

    // A parameter of this kind.
    fn parameter(
        self,
        kind: Kind,
        input: &mut Input,
        narrow: &mut Narrow,
        wide: &mut Wide,
        bytes: &mut Bytes,
    ) -> Result<Reading, usize> {
        match kind {
            Kind::Number => self.number(65535, input),
            Kind::Flag => self.number(1, input),
            Kind::Read(cell) => self.slice(cell, false, ROOM, input, narrow, wide, bytes),
            Kind::Changed(cell) => self.slice(cell, true, ROOM, input, narrow, wide, bytes),
            Kind::Held => self.slice(Cell::Narrow, true, HELD_ROOM, input, narrow, wide, bytes),
            Kind::Records => self.records(input, narrow, wide, bytes),
        }
    }

    // A parameter of each of these kinds.
    fn parameters(
        mut self,
        kinds: &[u8],
        input: &mut Input,
        narrow: &mut Narrow,
        wide: &mut Wide,
        bytes: &mut Bytes,
    ) -> Result<Reading, usize> {
        for letter in kinds {
            self = self.parameter(Kind::of(*letter), input, narrow, wide, bytes)?;
        }
        Ok(self)
    }
}

// A line after its name, whose parameters are of these kinds, up to its end. Where it is no case, the place of the first word that is
// wrong, missing or too many.
pub fn load(
    input: &mut Input,
    kinds: &[u8],
    narrow: &mut Narrow,
    wide: &mut Wide,
    bytes: &mut Bytes,
) -> Result<Case, usize> {
    let read = Reading::new().parameters(kinds, input, narrow, wide, bytes);
    let ends = input.end_line();
    let reading = read?;
    if ends {
        Ok(reading.case)
    } else {
        Err(reading.words)
    }
}

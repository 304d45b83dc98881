// Where a case's parameters lie.
ghost use Rattle.std.specs.Prelude.{◌≡◌, ◌+◌, IfSome};
ghost use Rattle.replay_slots.specs.Cases.{
  nothing,
  number_of,
  flag_of,
  start_of,
  end_of,
  length_of,
  numbered,
  placed,
};
ghost use Rattle.std.specs.Mem.{type_size};
ghost use Rattle.replay_slots.specs.Parts.{Part};
ghost use Rattle.replay_slots.specs.Sizes.{cell_of, largest_of};

use columns::limits::MAX_STATES;

// The cells of all slices of u16 of a line, up to twenty of the longest; of all of u32; and of all of bytes.
pub type Narrow = [u16; 1400000];

pub type Wide = [u32; 70000];

pub type Bytes = [u8; 140000];

// The type of a slice's cells: u16, u32 or a byte.
#[derive(Clone, Copy, PartialEq, Eq)]
pub enum Cell {
    Narrow,
    Wide,
    Byte,
}

impl Cell {
    // The largest cell of this type.
    pub fn largest(self) -> u64
        ensures { result ≡ largest_of self }
    {
        match self {
            Cell::Narrow => u64::from(u16::MAX),
            Cell::Wide => u64::from(u32::MAX),
            Cell::Byte => u64::from(u8::MAX),
        }
    }

    // The type whose largest cell is this number, if there is one.
    #[tactic(auto, unfolding(crate::specs::Sizes::cell_of))]
    pub fn of(largest: u64) -> Option<Cell>
        ensures same { result ≡ cell_of largest }
        ensures just { IfSome result (λ cell. largest_of cell ≡ largest) }
    {
        match largest {
            65535 => Some(Cell::Narrow),
            4294967295 => Some(Cell::Wide),
            255 => Some(Cell::Byte),
            _ => None,
        }
    }
}

// The longest slice; the longest of an operation that changes many, which lie in arrays of its own; and the longest list of records.
pub const ROOM: usize = 70000;

pub const HELD_ROOM: usize = 16384;

pub const RECORDS: u64 = MAX_STATES as u64;

// The places from 16 on are those of the slices that may change.
pub const CHANGED: usize = 16;

// The numbers, where the slices start and end, and whether a run stands in the line: slices are then shown in runs.
#[derive(Clone, Copy)]
pub struct Case {
    pub short: bool,
    pub numbers: [u16; 16],
    pub starts: [usize; 32],
    pub ends: [usize; 32],
}

impl Case {
    // A case of which nothing is read.
    pub fn new() -> Case
        ensures { result ≡ nothing }
    {
        let numbers = [0u16; 16];
        let starts = [0usize; 32];
        let ends = [0usize; 32];
        Case {
            short: false,
            numbers,
            starts,
            ends,
        }
    }

    // Number k.
    pub fn number(self, k: usize) -> u16
        ensures { result ≡ number_of self k }
    {
        let numbers = self.numbers;
        if k < 16 {
            return numbers[k];
        }
        0
    }

    // Whether number k is not 0.
    pub fn flag(self, k: usize) -> bool
        ensures { result ≡ flag_of self k }
    {
        self.number(k) != 0
    }

    // The case with number k.
    pub fn numbered(self, k: usize, value: u16) -> Case
        ensures { result ≡ numbered self k value }
    {
        let mut case = self;
        if k < 16 {
            case.numbers[k] = value;
        }
        case
    }

    // The case with a slice at place k.
    pub fn placed(self, k: usize, start: usize, end: usize) -> Case
        ensures { result ≡ placed self k start end }
    {
        let mut case = self;
        if k < 32 {
            case.starts[k] = start;
            case.ends[k] = end;
        }
        case
    }

    pub fn start(self, k: usize) -> usize
        ensures { result ≡ start_of self k }
    {
        let starts = self.starts;
        if k < 32 {
            return starts[k];
        }
        0
    }

    pub fn end(self, k: usize) -> usize
        ensures { result ≡ end_of self k }
    {
        let ends = self.ends;
        if k < 32 {
            return ends[k];
        }
        0
    }

    // How many cells slice k of those that may change has.
    pub fn length(self, k: usize) -> usize
        ensures { result ≡ length_of self k }
    {
        if k < 16 {
            let start = self.start(CHANGED + k);
            let end = self.end(CHANGED + k);
            if start <= end {
                return end - start;
            }
        }
        0
    }
}

// The cells from a place to another.
pub fn between<T>(cells: &[T], start: usize, end: usize) -> &[T]
    ensures { Part (type_size T.row) result cells.entry start end }
{
    if start <= end {
        if end <= cells.len() {
            return &cells[start..end];
        }
    }
    &cells[0..0]
}

// The slice at place k.
pub fn column<T>(cells: &[T], case: Case, k: usize) -> &[T]
    ensures { Part (type_size T.row) result cells.entry (start_of case k) (end_of case k) }
{
    between(cells, case.start(k), case.end(k))
}

// Slice k of those that may change, as the case has it.
pub fn changed<T>(cells: &[T], case: Case, k: usize) -> &[T]
    ensures { Part (type_size T.row) result cells.entry (start_of case (16 + k)) (end_of case (16 + k)) }
{
    if k < 16 {
        return column(cells, case, CHANGED + k);
    }
    &cells[0..0]
}

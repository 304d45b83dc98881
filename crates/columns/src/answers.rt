// Answers: what was asked for, or a refusal with its number and place.
ghost use Rattle.std.specs.Prelude.{◌≡◌, Ok, Err};
ghost use Rattle.columns.specs.Answers.{Refusal as Answers·Refusal, answer, refusal, refusal_of};

// Why a call is refused. `refusal_of` (specs/Answers) gives each case its number in document 01 and its place: the value that
// the case holds, and 0 where it holds none.
#[derive(Clone, Copy, PartialEq, Eq, Debug)]
pub enum Refusal {
    // The number of states, of labels, of rows is outside its range; the initial state is no state.
    WrongStates,
    WrongLabels,
    WrongRows,
    WrongInitial,

    // A field of a row is out of range; a row is not above the one before.
    WrongField { row: u64 },
    NotAbove { row: u64 },

    // A lent slice is too short.
    TooShort,

    // A state, block or position argument is out of range.
    OutOfRange { argument: u64 },

    // Nothing of the block is marked; the numbers of the marked states are not dense.
    NothingMarked { block: u64 },
    NotDense { missing: u64 },

    // The accepted transitions hold a cycle longer than a self-loop.
    Cyclic,

    // The search for a bottom state comes back to a state.
    NoBottom { block: u64 },

    // A field of a file's contents, or the length of a body, is not as it must be.
    WrongContents { offset: u64 },

    // The lent partition or block is not consistent.
    Inconsistent,

    // List starts fall or run past the end, or a signature is not strictly ascending.
    WrongList { index: u64 },

    // The result has less room than is needed.
    NoRoom { needed: u64 },
}

impl Refusal {
    // Its number in document 01.
    pub fn number(self) -> u64
        ensures { result ≡ (refusal_of self).number }
    {
        match self {
            Refusal::WrongStates => 1,
            Refusal::WrongLabels => 2,
            Refusal::WrongRows => 3,
            Refusal::WrongInitial => 4,
            Refusal::WrongField { .. } => 5,
            Refusal::NotAbove { .. } => 6,
            Refusal::TooShort => 7,
            Refusal::OutOfRange { .. } => 8,
            Refusal::NothingMarked { .. } => 9,
            Refusal::NotDense { .. } => 10,
            Refusal::Cyclic => 11,
            Refusal::NoBottom { .. } => 12,
            Refusal::WrongContents { .. } => 13,
            Refusal::Inconsistent => 14,
            Refusal::WrongList { .. } => 15,
            Refusal::NoRoom { .. } => 16,
        }
    }

    // Its place.
    pub fn place(self) -> u64
        ensures { result ≡ (refusal_of self).place }
    {
        match self {
            Refusal::WrongField { row } | Refusal::NotAbove { row } => row,
            Refusal::OutOfRange { argument } => argument,
            Refusal::NothingMarked { block } | Refusal::NoBottom { block } => block,
            Refusal::NotDense { missing } => missing,
            Refusal::WrongContents { offset } => offset,
            Refusal::WrongList { index } => index,
            Refusal::NoRoom { needed } => needed,
            _ => 0,
        }
    }
}

// What has a number and a place: a refusal, or any two numbers.
pub trait Coded: Copy {
    ghost code: { Self → Answers·Refusal };

    fn number(self) -> u64
        ensures { result ≡ (code self).number };

    fn place(self) -> u64
        ensures { result ≡ (code self).place };
}

impl Coded for Refusal {
    ghost code = { refusal_of };

    fn number(self) -> u64 {
        Refusal::number(self)
    }

    fn place(self) -> u64 {
        Refusal::place(self)
    }
}

// Any number and any place.
#[derive(Clone, Copy, PartialEq, Eq, Debug)]
pub struct Code {
    pub number: u64,
    pub place: u64,
}

impl Coded for Code {
    ghost code = { λ c. refusal c.number c.place };

    fn number(self) -> u64 {
        self.number
    }

    fn place(self) -> u64 {
        self.place
    }
}

// What a call answers: done with its data, or refused.
#[derive(Clone, Copy, PartialEq, Eq, Debug)]
pub struct Answer<T, R = Refusal> {
    pub outcome: Result<T, R>,
}

impl<T> Answer<T> {
    // A call that was done.
    pub fn done(value: T) -> Self
        ensures { result ≡ answer (Ok value) }
    {
        Answer { outcome: Ok(value) }
    }

    // A call that was refused.
    pub fn refused(refusal: Refusal) -> Self
        ensures { result ≡ answer (Err refusal) }
    {
        Answer {
            outcome: Err(refusal),
        }
    }
}

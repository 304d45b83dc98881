// The kinds of parameters.
ghost use Rattle.std.specs.Prelude.{◌≡◌};
ghost use Rattle.replay_slots.specs.Kinds.{kind_of};

use crate::case::Cell;

// What an operation takes: a number, a flag, a slice that is only read or one that may change, a slice of u16 of an operation that changes
// many, or a list of records of three numbers, which may change.
#[derive(Clone, Copy, PartialEq, Eq)]
pub enum Kind {
    Number,
    Flag,
    Read(Cell),
    Changed(Cell),
    Held,
    Records,
}

impl Kind {
    // The kind that a letter stands for.
    #[tactic(auto, unfolding(crate::specs::Kinds::kind_of))]
    pub fn of(letter: u8) -> Kind
        ensures { result ≡ kind_of letter }
    {
        match letter {
            b'n' => Kind::Number,
            b'f' => Kind::Flag,
            b'w' => Kind::Read(Cell::Wide),
            b'b' => Kind::Read(Cell::Byte),
            b'm' => Kind::Changed(Cell::Narrow),
            b't' => Kind::Changed(Cell::Byte),
            b's' => Kind::Held,
            b'r' => Kind::Records,
            _ => Kind::Read(Cell::Narrow),
        }
    }
}

// What stands at a place of the input.
ghost use Rattle.std.specs.Prelude.{ℕ, Option, ◌≡◌};
ghost use Rattle.replay_lines.specs.Places.{seen_of};

// The number that stands for the end of the input.
const END: u16 = 256;

// What is read at a place: a byte or a number, or nothing at the end of the input.
pub trait Seen: Copy {
    ghost seen: { Self → Option ℕ };

    fn seen(self) -> Option<u16>
        ensures { result ≡ seen self };
}

// A byte, if there is one.
impl Seen for Option<u8> {
    ghost seen = { λ byte. byte };

    fn seen(self) -> Option<u16> {
        match self {
            Some(byte) => Some(u16::from(byte)),
            None => None,
        }
    }
}

// A number, of which 256 stands for the end of the input and any other for itself.
impl Seen for u16 {
    ghost seen = { seen_of };

    #[tactic(auto, unfolding(crate::specs::Places::seen_of))]
    fn seen(self) -> Option<u16> {
        (self != END).then_some(self)
    }
}

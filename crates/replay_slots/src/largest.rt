// How large the cells of a slice may be.
ghost use Rattle.std.specs.Prelude.{ℕ, ◌≡◌, ◌≤◌, min};
ghost use Rattle.replay_slots.specs.Sizes.{largest_of};

use crate::case::Cell;

// How large a cell may be.
pub trait Largest {
    ghost most: { Self → ℕ };

    fn most(self) -> u64
        ensures same { result ≡ most self }
        ensures bounded { result ≤ 4294967295 };
}

// As large as a cell of this type.
impl Largest for Cell {
    ghost most = { largest_of };

    fn most(self) -> u64 {
        self.largest()
    }
}

// As large as this number, and no larger than a cell of u32.
impl Largest for u64 {
    ghost most = { λ n. min n 4294967295 };

    fn most(self) -> u64 {
        self.min(u64::from(u32::MAX))
    }
}

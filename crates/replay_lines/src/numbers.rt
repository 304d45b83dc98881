// The decimal numbers of a line.
ghost use Rattle.std.specs.Prelude.{◌≤◌, ◌≡◌, Some, IfSome};

use crate::input::{Input, TURNS};

// Numbers above this one are not told apart.
const LARGE: u64 = 1000000000000000000;

// The number whose digits are those of `value` and then this one.
fn grown(value: u64, digit: u8) -> u64 {
    if LARGE < value {
        return value;
    }
    value * 10 + u64::from(digit)
}

impl Input {
    // The digit that stands here, if one does.
    fn digit(&self) -> Option<u8> {
        let digit = self.byte?.wrapping_sub(b'0');
        (digit < 10).then_some(digit)
    }

    // The number whose digits start here.
    fn digits(&mut self) -> u64 {
        let mut value = 0;
        for _ in 0..TURNS {
            let Some(digit) = self.digit() else {
                break;
            };
            value = grown(value, digit);
            self.next();
        }
        value
    }

    // A number of at most `most` that starts here, if it is there.
    pub fn number_here(&mut self, most: u64) -> Option<u64>
        ensures { IfSome result (λ value. value ≤ most) }
    {
        self.digit()?;
        let value = self.digits();
        (value <= most).then_some(value)
    }

    // A blank and a number of at most `most`, if they are there.
    pub fn number(&mut self, most: u64) -> Option<u64>
        ensures { IfSome result (λ value. (value ≤ most) × (self.old.byte ≡ Some 32)) }
    {
        if self.byte != Some(b' ') {
            return None;
        }
        self.next();
        self.number_here(most)
    }
}

// Standard input, byte by byte, and where its lines end.
ghost use Rattle.std.specs.Prelude.{not, ◌≡◌};
ghost use Rattle.spelling.specs.Counts.{IsPrefixLen};
ghost use Rattle.replay_lines.specs.Places.{in_line, filled, Next};

use crate::seen::Seen;
use std::io::{Read, Stdin};

// What is read at once, and what is written at once.
pub type Buffer = [u8; 65536];

// More turns than any loop takes. Nothing says that the input ends, so loops over it take at most these.
pub const TURNS: u64 = u64::MAX;

// Standard input at a place: its byte, none once the input has ended, and the bytes after it, which are the cells at..end of those that
// were read last.
#[derive(Clone, Copy)]
pub struct Input {
    pub bytes: Buffer,
    pub at: usize,
    pub end: usize,
    pub byte: Option<u8>,
    stdin: Stdin,
}

impl Input {
    // The first place.
    pub fn new(stdin: Stdin) -> Input
        ensures { (result.at, result.byte) ≡ filled result.bytes result.end }
    {
        let mut input = Input {
            bytes: [0; 65536],
            at: 0,
            end: 0,
            byte: None,
            stdin,
        };
        input.refill();
        input
    }

    // Reads some bytes into the buffer's front, and says how many: none at the end of the input, or where the read fails.
    fn read_some(&mut self) -> usize
        ensures { IsPrefixLen result self.new.bytes }
    {
        self.stdin.read(&mut self.bytes).unwrap_or(0)
    }

    // Goes to the place after the last byte that was read: the buffer is filled anew.
    fn refill(&mut self)
        ensures { (self.new.at, self.new.byte) ≡ filled self.new.bytes self.new.end }
    {
        let end = self.read_some();
        self.end = end;
        if end == 0 {
            self.at = 0;
            self.byte = None;
        } else {
            self.at = 1;
            self.byte = Some(self.bytes[0]);
        }
    }

    // Goes to the place after this one.
    pub fn next(&mut self)
        ensures { Next self.old self.new }
    {
        let at = self.at;
        if at < self.end && at < 65536 {
            self.byte = Some(self.bytes[at]);
            self.at = at + 1;
        } else {
            self.refill();
        }
    }

    // Goes to the first place of the next line.
    pub fn skip_line(&mut self) {
        for _ in 0..TURNS {
            if !in_line(self.byte) {
                break;
            }
            self.next();
        }
        if self.byte == Some(b'\n') {
            self.next();
        }
    }

    // Goes to the first place of the next line, and says whether this one ends here.
    pub fn end_line(&mut self) -> bool
        ensures { result ≡ not (in_line self.old.byte) }
    {
        let ends = !in_line(self.byte);
        self.skip_line();
        ends
    }
}

// Whether what stands at a place is within a line.
pub fn in_line<B: Seen>(byte: B) -> bool
    ensures { result ≡ in_line (B.seen byte) }
{
    byte.seen().is_some_and(|b| b != u16::from(b'\n'))
}

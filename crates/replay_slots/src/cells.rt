// The cells of slices, read word by word up to the first word that is wrong.
ghost use Rattle.std.specs.Prelude.{not, ◌≡◌, ◌≤◌, IfSome};
ghost use Rattle.replay_lines.specs.Places.{in_word};
ghost use Rattle.replay_lines.specs.Runs.{last_cell};
ghost use Rattle.replay_slots.specs.Sizes.{bounded, largest_of};

use crate::case::{Bytes, Cell, Narrow, Wide};
use crate::largest::Largest;
use replay_lines::input::Input;
use replay_lines::lines::in_word;
use replay_lines::runs::Run;

// A sum of sizes, up to a bound that none reaches.
pub fn plus(a: usize, b: usize) -> usize
    ensures { result ≡ bounded 1000000000000 a b }
{
    if a < 1000000000000 && b < 1000000000000 {
        a + b
    } else {
        1000000000000
    }
}

// Whether a word ends at this place, and does not go on there.
pub fn whole(input: &Input) -> bool
    ensures { result ≡ not (in_word input.now.byte) }
{
    !in_word(input.byte)
}

// What is read of a slice: the cells that the last word stands for from the last cell on, how many words, and whether one is written as a
// run.
#[derive(Clone, Copy)]
pub struct Feed {
    pub run: Run,
    pub words: usize,
    pub short: bool,
}

impl Feed {
    // Nothing is read.
    fn new() -> Feed
        ensures { last_cell result.run ≤ 0 }
    {
        let run = Run::none();
        Feed {
            run,
            words: 0,
            short: false,
        }
    }

    // With a word more, if it is there.
    fn word(self, largest: u64, room: u64, input: &mut Input) -> Option<Feed>
        requires { largest ≤ 4294967295 }
        ensures { IfSome result (λ feed. last_cell feed.run ≤ largest) }
    {
        let word = input.word(largest, room)?;
        if !whole(input) {
            return None;
        }
        Some(Feed {
            run: word.run,
            words: plus(self.words, 1),
            short: self.short || word.short,
        })
    }

    // With a cell more, of at most `largest`, where `room` are missing, if it is there.
    fn cell(self, largest: u64, room: u64, input: &mut Input) -> Option<Feed>
        requires { (largest ≤ 4294967295) × (last_cell self.run ≤ largest) }
        ensures { IfSome result (λ feed. last_cell feed.run ≤ largest) }
    {
        let last = self.run;
        if last.count <= 1 {
            return self.word(largest, room, input);
        }
        let run = last.rest();
        Some(Feed { run, ..self })
    }
}

// Places a cell in the array of this type, and nowhere where there is no type.
fn place(
    value: u64,
    cell: Option<Cell>,
    i: usize,
    narrow: &mut Narrow,
    wide: &mut Wide,
    bytes: &mut Bytes,
)
    requires { IfSome cell (λ c. value ≤ largest_of c) }
{
    match cell {
        Some(Cell::Narrow) => {
            if i < 1400000 {
                narrow[i] = value as u16;
            }
        }
        Some(Cell::Wide) => {
            if i < 70000 {
                wide[i] = value as u32;
            }
        }
        Some(Cell::Byte) => {
            if i < 140000 {
                bytes[i] = value as u8;
            }
        }
        None => {}
    }
}

// The cells of a slice from one place to another, none larger than `largest` says, placed in the array of the type that has just these
// cells, if there is one. Where a word is wrong, how many there are before it.
pub fn read_cells(
    input: &mut Input,
    largest: impl Largest,
    from: usize,
    to: usize,
    narrow: &mut Narrow,
    wide: &mut Wide,
    bytes: &mut Bytes,
) -> Result<Feed, usize> {
    let most = largest.most();
    let cell = Cell::of(most);
    let mut feed = Feed::new();
    for i in from..to {
        feed = feed.cell(most, (to - i) as u64, input).ok_or(feed.words)?;
        place(feed.run.first, cell, i, narrow, wide, bytes);
    }
    Ok(feed)
}

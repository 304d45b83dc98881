// A line of which the name is read.
use replay_calls::operations::{Found, find};
use replay_lines::input::Input;
use replay_lines::lines::{read_word, skip_silent};

// The operation that is named, if there is one.
#[derive(Clone, Copy)]
pub struct Line {
    pub operation: Option<Found>,
}

// The next line that has an answer, if the input has not ended.
pub fn next_line(input: &mut Input) -> Option<Line> {
    skip_silent(input);
    input.byte?;
    let mut name = [0u8; 64];
    let operation = find(read_word(input, &mut name));
    Some(Line { operation })
}

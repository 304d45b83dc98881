// The answer of a reduction from file to file.

// How many bytes are written; states, labels and rows of the source; blocks and rows of the result; and how many rounds split something.
#[derive(Clone, Copy, PartialEq, Eq, Debug)]
pub struct Written {
    pub bytes: u64,
    pub states: u64,
    pub labels: u64,
    pub rows: u64,
    pub blocks: u64,
    pub reduced_rows: u64,
    pub rounds: u64,
}

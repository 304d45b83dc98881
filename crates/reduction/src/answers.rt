// The answer of a reduction.
use table::Table;

// The header of the table whose rows stand in the result columns, and how many rounds split something.
#[derive(Clone, Copy, PartialEq, Eq, Debug)]
pub struct Reduced {
    pub table: Table,
    pub rounds: u64,
}

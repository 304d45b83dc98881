// What every layer above uses and what knows no transition system: answers, the tests
// that calls share, columns of u16 numbers, and their one sort.
#![tactic(auto)]

pub mod answers;
pub mod cells;
pub mod checks;
pub mod limits;
pub mod rows;
pub mod sorting;

// The file: a table as bytes. An input file holds a table; an output file holds one, and the block of each state of another.
#![tactic(auto)]

pub mod checks;
pub mod cores;
pub mod layout;
pub mod numbers;
pub mod reading;
pub mod writing;

#![tactic(auto)]

// The operations by name, and a call for each but those of `replay_wide`, `replay_reductions` and `replay_files`: in a function for those
// that take alike. The slices that an operation may change are called a, b, c and so on, in the order of its parameters; those that it
// only reads have their names.
pub mod answers;
pub mod blocks;
pub mod few;
pub mod headers;
pub mod operations;
pub mod readers;
pub mod records;
pub mod six;
pub mod tables;

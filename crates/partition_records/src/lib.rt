// The host forms: one block record that changes where it lies, and a partition whose block table is a lent list of block records.
#![tactic(auto)]

pub mod records;
pub mod swapping;
pub mod unmarking;

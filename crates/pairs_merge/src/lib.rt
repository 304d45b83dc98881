// The merge of ascending lists of pairs, and the union of two sets of them.
#![tactic(auto)]

pub mod heads;
pub mod left;
pub mod merge;
pub mod put;
pub mod tree;
pub mod union;

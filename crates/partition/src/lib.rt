// A block partition in six lent columns (block_partition.rs). `elements` is the order of the states, `element_offset` its
// inverse, `element_to_block` the block of each state; block b covers the positions begin..end of `elements`, of which
// marked_split..end are marked. Here: one block, the columns and their check, and the work of the calls.
#![tactic(auto)]

pub mod block;
pub mod checks;
pub mod cores;

// The six columns, lent to be read.
#[derive(Clone, Copy)]
pub struct PartitionColumns<'a> {
    pub elements: &'a [u16],
    pub element_offset: &'a [u16],
    pub element_to_block: &'a [u16],
    pub begin: &'a [u16],
    pub marked_split: &'a [u16],
    pub end: &'a [u16],
}

// `BlockPartition` (block_partition.rs): the calls on a partition that lies in six lent columns.
#![tactic(auto)]

pub mod changes;
pub mod readers;

// The numbers that travel with the columns: n states in count blocks.
#[derive(Clone, Copy, PartialEq, Eq, Debug)]
pub struct BlockPartition {
    pub n: u16,
    pub count: u16,
}

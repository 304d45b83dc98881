// What travels beside the columns, and the columns that are read together.
ghost use Rattle.std.specs.Prelude.{◌≡◌, ◌+◌, ◌<◌};
ghost use Rattle.replay_slots.specs.Cases.{number_of};
ghost use Rattle.replay_calls.specs.Slices.{SliceOf};

use partition::PartitionColumns;
use partition::block::Block;
use partition_calls::BlockPartition;
use replay_slots::case::{Case, column};
use table::{Lts, Table};

// The block of the first three numbers.
pub fn block(case: Case) -> Block
    ensures { (result.begin ≡ number_of case 0) × (result.marked_split ≡ number_of case 1) × (result.end ≡ number_of case 2) }
{
    Block {
        begin: case.number(0),
        marked_split: case.number(1),
        end: case.number(2),
    }
}

// The partition of the first two numbers.
pub fn partition(case: Case) -> BlockPartition
    ensures { (result.n ≡ number_of case 0) × (result.count ≡ number_of case 1) }
{
    BlockPartition {
        n: case.number(0),
        count: case.number(1),
    }
}

// The table of the first four numbers.
pub fn table(case: Case) -> Table
    ensures n_value { (result.n ≡ number_of case 0) × (result.labels ≡ number_of case 1) }
    ensures m_value { (result.m ≡ number_of case 2) × (result.initial ≡ number_of case 3) }
{
    Table {
        n: case.number(0),
        labels: case.number(1),
        m: case.number(2),
        initial: case.number(3),
    }
}

// That table with its rows: the first three slices that are only read.
pub fn system(case: Case, cells: &[u16]) -> Lts<'_>
    ensures n_value { (result.table.n ≡ number_of case 0) × (result.table.labels ≡ number_of case 1) }
    ensures m_value { (result.table.m ≡ number_of case 2) × (result.table.initial ≡ number_of case 3) }
    ensures rows { SliceOf result.source cells.entry case 0 × SliceOf result.label cells.entry case 1 × SliceOf result.target cells.entry case 2 }
{
    Lts {
        table: table(case),
        source: column(cells, case, 0),
        label: column(cells, case, 1),
        target: column(cells, case, 2),
    }
}

// The six columns of a partition, from slice `first` of those that are only read on.
pub fn six_columns(case: Case, cells: &[u16], first: usize) -> PartitionColumns<'_>
    requires { first < 16 }
    ensures states { SliceOf result.elements cells.entry case first × SliceOf result.element_offset cells.entry case (first + 1) ×
        SliceOf result.element_to_block cells.entry case (first + 2) }
    ensures blocks { SliceOf result.begin cells.entry case (first + 3) × SliceOf result.marked_split cells.entry case (first + 4) ×
        SliceOf result.end cells.entry case (first + 5) }
{
    PartitionColumns {
        elements: column(cells, case, first),
        element_offset: column(cells, case, first + 1),
        element_to_block: column(cells, case, first + 2),
        begin: column(cells, case, first + 3),
        marked_split: column(cells, case, first + 4),
        end: column(cells, case, first + 5),
    }
}

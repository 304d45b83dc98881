// A table and a partition of its states, lent to one call: the check that every such call makes. They share n.
#![tactic(auto)]

ghost use Rattle.std.specs.Prelude.{◌≡◌};
ghost use Rattle.columns.specs.Answers.{checked};
ghost use Rattle.columns.specs.Due.{due};
ghost use Rattle.table_partition.specs.Checks.{both_tests, both_argument_refusal};
ghost use Rattle.partition.specs.Partition.{parts_of};
ghost use Rattle.table.specs.Lts.{lts_of};

use columns::answers::Refusal;
use columns::checks::{check_index, refuse_unless};
use partition::PartitionColumns;
use table::Lts;

// 1, 2, 3, 4, 7, 5 or 6, and 14, the first that is due; `room` says whether the call's other slices are long enough.
pub fn check(
    system: &Lts<'_>,
    count: usize,
    columns: &PartitionColumns<'_>,
    room: bool,
) -> Result<(), Refusal>
    ensures { checked result ≡ due (both_tests (lts_of system.now) (parts_of columns.now system.now.table.n count) room) }
{
    let n = system.table.n as usize;
    system.check(columns.all_long(n) & room)?;
    refuse_unless(columns.consistent(n, count), Refusal::Inconsistent)
}

// What a call with both and an argument refuses, a state or a block, which is below `bound`.
pub fn check_argument(
    system: &Lts<'_>,
    count: usize,
    columns: &PartitionColumns<'_>,
    i: usize,
    bound: usize,
    room: bool,
) -> Result<(), Refusal>
    ensures { checked result ≡ both_argument_refusal (lts_of system.now) (parts_of columns.now system.now.table.n count) i bound room }
{
    check(system, count, columns, room)?;
    check_index(i, bound)
}

// The tests of a call that takes given lists.
ghost use Rattle.std.specs.Prelude.{◌≡◌, ◌+◌, ◌≤◌, true, length};
ghost use Rattle.columns.specs.Answers.{checked};
ghost use Rattle.signatures_sorted.specs.Sorted.{flat, sorted_refusal};
ghost use Rattle.partition.specs.Partition.{parts_of};
ghost use Rattle.table.specs.Lts.{lts_of};

use columns::answers::Refusal;
use pairs::lists::check_lists;
use partition::PartitionColumns;
use table::Lts;
use table_partition::check_argument;

// What a call with the table, the partition, a state and the given lists refuses; `room` says whether its other slices are long enough,
// the starts among them.
pub fn check_sorted(
    system: &Lts<'_>,
    count: usize,
    columns: &PartitionColumns<'_>,
    state: usize,
    starts: &[u32],
    given_labels: &[u16],
    given_blocks: &[u16],
    room: bool,
) -> Result<(), Refusal>
    requires { room ≡ true → system.now.table.n + 1 ≤ length starts.now }
    ensures { let given = parts_of columns.now system.now.table.n count in
        checked result
        ≡ sorted_refusal (lts_of system.now) given state (flat starts.now given_labels.now given_blocks.now) room }
{
    let n = system.table.n as usize;
    check_argument(system, count, columns, state, n, room)?;
    check_lists(n, starts, given_labels, given_blocks)
}

// Block records: a table of them, and its fields as columns.
ghost use Rattle.std.specs.Prelude.{◌≡◌, ◌⊎◌, ◌≤◌, length};
ghost use Rattle.partition_records.specs.Records.{begins, splits, ends};
ghost use Rattle.partition_records.specs.Tables.{blank};
ghost use Rattle.columns.specs.Limits.{max_states};

use columns::limits::MAX_STATES;
use partition::block::Block;

// len, but no more records than a table has room for.
pub fn at_most(len: usize) -> usize
    ensures { (result ≤ len) × (result ≤ max_states) × ((result ≡ len) ⊎ (result ≡ max_states)) }
{
    len.min(MAX_STATES)
}

// A table with nothing in it.
pub fn empty_table() -> [Block; MAX_STATES]
    ensures { result ≡ blank }
{
    [Block {
        begin: 0,
        marked_split: 0,
        end: 0,
    }; MAX_STATES]
}

// The fields of a table's records, each in a column.
pub fn apart(
    table: [Block; MAX_STATES],
    begin: &mut [u16],
    marked_split: &mut [u16],
    end: &mut [u16],
)
    requires { (length begin.old ≡ max_states) × (length marked_split.old ≡ max_states) × (length end.old ≡ max_states) }
    ensures { (begin.new ≡ begins table) × (marked_split.new ≡ splits table) × (end.new ≡ ends table) }
{
    for (i, b) in table.iter().enumerate() {
        begin[i] = b.begin;
        marked_split[i] = b.marked_split;
        end[i] = b.end;
    }
}

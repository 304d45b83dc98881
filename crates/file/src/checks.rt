// The tests of an input file, all of them made before a row is handed over.
ghost use Rattle.std.specs.Prelude.{◌≡◌, ◌+◌, ◌*◌, ◌<◌, ◌≤◌, [], ◌∷◌, length};
ghost use Rattle.columns.specs.Answers.{checked};
ghost use Rattle.columns.specs.Due.{test, due};
ghost use Rattle.columns.specs.Limits.{wrong_contents};
ghost use Rattle.table.specs.Checks.{table_tests};
ghost use Rattle.file.specs.Input.{with_rows, field_test, field_tests, sized_length_tests, sized_tests, count_tests, file_refusal, long_refusal};
ghost use Rattle.file.specs.Layout.{row_size, input_rows, largest_input};

use crate::cores::{header, read_rows};
use crate::layout::{
    ENTRIES_AT, HEADER_KIND, HEADER_KIND_AT, HEADER_LENGTH_AT, HEADER_OFFSET_AT, HEADER_SIZE,
    INPUT_ENTRIES, INPUT_HEADER, INPUT_ROWS, ROW_COUNT_AT, ROW_SIZE, ROWS_KIND, ROWS_KIND_AT,
    ROWS_LENGTH_AT, ROWS_OFFSET_AT,
};
use crate::numbers::number_at;
use columns::answers::Refusal;
use columns::checks::{check_labels, check_states, long, refuse_unless};
use columns::limits::MAX_ROWS;
use table::{Lts, Table};

// 13 at an offset, unless a test holds.
fn check_at(holds: bool, at: usize) -> Result<(), Refusal>
    ensures { checked result ≡ due (test holds wrong_contents at ∷ []) }
{
    let offset = at as u64;
    refuse_unless(holds, Refusal::WrongContents { offset })
}

// 13 at the offset of a field that is cut off or absent, or holds another value than it must.
fn check_field(bytes: &[u8], at: usize, width: usize, value: usize) -> Result<(), Refusal>
    requires { (at < 65536) × (width ≤ 4) }
    ensures { checked result ≡ due (field_test width bytes.now at value ∷ []) }
{
    let whole = at + width <= bytes.len();
    check_at(whole && number_at(bytes, at, width) == value, at)
}

// 13 for the first wrong field of the contents, but for the length of kind 2.
fn check_fields(bytes: &[u8]) -> Result<(), Refusal>
    ensures { checked result ≡ due (field_tests bytes.now) }
{
    check_field(bytes, ENTRIES_AT, 2, INPUT_ENTRIES)?;
    check_field(bytes, HEADER_KIND_AT, 2, HEADER_KIND)?;
    check_field(bytes, HEADER_OFFSET_AT, 4, INPUT_HEADER)?;
    check_field(bytes, HEADER_LENGTH_AT, 4, HEADER_SIZE)?;
    check_field(bytes, ROWS_KIND_AT, 2, ROWS_KIND)?;
    check_field(bytes, ROWS_OFFSET_AT, 4, INPUT_ROWS)
}

// 13 for a file of `size` bytes without room for a header, for rows of another length than the header says, for a file that ends elsewhere.
// The header, if there is one, is here.
fn check_lengths(bytes: &[u8], size: usize) -> Result<(), Refusal>
    requires { input_rows ≤ size → input_rows ≤ length bytes.now }
    ensures { checked result ≡ due (sized_length_tests bytes.now size) }
{
    check_at(INPUT_ROWS <= size, size)?;
    let rows = ROW_SIZE * number_at(bytes, ROW_COUNT_AT, 2);
    let end = INPUT_ROWS + rows;
    check_at(number_at(bytes, ROWS_LENGTH_AT, 4) == rows, ROWS_LENGTH_AT)?;
    check_at(end <= size, size)?;
    check_at(size <= end, end)
}

// 13 for the first wrong field of the contents, or a wrong length, of a file of `size` bytes.
fn check_contents(bytes: &[u8], size: usize) -> Result<(), Refusal>
    requires { input_rows ≤ size → input_rows ≤ length bytes.now }
    ensures { checked result ≡ due (sized_tests bytes.now size) }
{
    check_fields(bytes)?;
    check_lengths(bytes, size)
}

// 1, 2 or 3 for the counts in a header.
fn check_counts(table: Table) -> Result<(), Refusal>
    ensures { checked result ≡ due (count_tests table) }
{
    check_states(table.n as usize)?;
    check_labels(table.labels as usize)?;
    refuse_unless(table.m as usize <= MAX_ROWS, Refusal::WrongRows)
}

// What the table's own check says of a header and the rows in the file, which are read into columns of its own. More rows than a table may
// have are refused before they are looked at.
fn check_table(table: Table, bytes: &[u8], room: bool) -> Result<(), Refusal>
    requires { input_rows + row_size * table.m ≤ length bytes.now }
    ensures { checked result ≡ due (table_tests (with_rows table bytes.now) room) }
{
    let m = table.m as usize;
    if MAX_ROWS < m {
        return check_counts(table);
    }
    let mut source = [0u16; MAX_ROWS];
    let mut label = [0u16; MAX_ROWS];
    let mut target = [0u16; MAX_ROWS];
    read_rows(table, bytes, &mut source, &mut label, &mut target);
    let system = Lts {
        table,
        source: &source[..m],
        label: &label[..m],
        target: &target[..m],
    };
    system.check(room)
}

// What a file is refused for whose rows are to go into columns of these lengths.
pub fn check_file(bytes: &[u8], columns: &[usize]) -> Result<(), Refusal>
    ensures { checked result ≡ file_refusal bytes.now columns.now }
{
    check_contents(bytes, bytes.len())?;
    let table = header(bytes);
    check_table(table, bytes, long(table.m as usize, columns))
}

// What a file of more bytes than the longest input, of which only the front is here, is refused for. If its lengths agree it has too many
// rows, and none is looked at.
pub fn check_long(front: &[u8], size: usize) -> Result<(), Refusal>
    requires { (input_rows ≤ length front.now) × (largest_input < size) }
    ensures { checked result ≡ long_refusal front.now size }
{
    check_contents(front, size)?;
    check_counts(header(front))
}

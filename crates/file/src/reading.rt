// Reading an input file.
ghost use Rattle.std.specs.Prelude.{◌≡◌};
ghost use Rattle.table.specs.Tables.{Three, said_table};
ghost use Rattle.file.specs.Input.{read_file};

use crate::checks::check_file;
use crate::cores::{header, read_rows};
use columns::answers::Answer;
use table::Table;

// Reads an input file: its rows over the first m cells of the columns. Answers its header.
pub fn read_file(
    bytes: &[u8],
    source: &mut [u16],
    label: &mut [u16],
    target: &mut [u16],
) -> Answer<Table>
    ensures { let given : Three = (source.old, (label.old, target.old)) in
        let left : Three = (source.new, (label.new, target.new)) in
        (said_table result, left) ≡ read_file bytes.now given }
{
    if let Err(refusal) = check_file(bytes, &[source.len(), label.len(), target.len()]) {
        return Answer::refused(refusal);
    }
    let table = header(bytes);
    read_rows(table, bytes, source, label, target);
    Answer::done(table)
}

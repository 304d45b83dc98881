// The work of the calls: reading the rows of an input file, writing an output file. No entry points: each says what it requires.
ghost use Rattle.std.specs.Prelude.{◌≡◌, ◌+◌, ◌*◌, ◌<◌, ◌≤◌, length};
ghost use Rattle.std.proofs.lemmas.List.Edits.{sets};
ghost use Rattle.columns.specs.Columns.{over};
ghost use Rattle.table.specs.Lts.{RowsLong, lts_of};
ghost use Rattle.table.specs.Tables.{Three, columns_in, columns_over};
ghost use Rattle.file.specs.Input.{header_in, column, with_rows};
ghost use Rattle.file.specs.Layout.{row_size, input_rows, output_header, output_rows};
ghost use Rattle.file.specs.Output.{entry, rows_bytes, output_blocks, output_contents, output_bytes, output_size};

use crate::layout::{
    BLOCK_SIZE, BLOCKS_ENTRY, BLOCKS_KIND, ENTRIES_AT, FIRST_LABEL, FIRST_SOURCE, FIRST_TARGET,
    HEADER_ENTRY, HEADER_KIND, HEADER_SIZE, INITIAL_AT, LABELS_AT, OUTPUT_ENTRIES, OUTPUT_HEADER,
    OUTPUT_ROWS, ROW_COUNT_AT, ROW_SIZE, ROWS_ENTRY, ROWS_KIND, STATES_AT,
};
use crate::numbers::{number_at, put_number, put_words};
use table::{Lts, Table};

// The header in a file.
pub fn header(bytes: &[u8]) -> Table
    requires { input_rows ≤ length bytes.now }
    ensures { result ≡ header_in bytes.now }
{
    let n = number_at(bytes, STATES_AT, 2) as u16;
    let labels = number_at(bytes, LABELS_AT, 2) as u16;
    let m = number_at(bytes, ROW_COUNT_AT, 2) as u16;
    let initial = number_at(bytes, INITIAL_AT, 2) as u16;
    Table {
        n,
        labels,
        m,
        initial,
    }
}

// A field of each of m rows, where the first row's stands at `from`, over the first cells of `to`.
fn read_column(bytes: &[u8], from: usize, m: usize, to: &mut [u16])
    requires { (m ≤ length to.old) × (m < 65536) × (from + row_size * m ≤ length bytes.now + 4) × (from < 65536) }
    ensures { to.new ≡ over (column bytes.now from m) to.old }
{
    for i in 0..m {
        to[i] = number_at(bytes, from + ROW_SIZE * i, 2) as u16;
    }
}

// The rows in a file, over the first cells of three columns.
pub fn read_rows(
    table: Table,
    bytes: &[u8],
    source: &mut [u16],
    label: &mut [u16],
    target: &mut [u16],
)
    requires { (input_rows + row_size * table.m ≤ length bytes.now)
        × (table.m ≤ length source.old) × (table.m ≤ length label.old) × (table.m ≤ length target.old) }
    ensures { let left : Three = (source.new, (label.new, target.new)) in
        left ≡ columns_over (columns_in (with_rows table bytes.now)) (source.old, (label.old, target.old)) }
{
    let m = table.m as usize;
    read_column(bytes, FIRST_SOURCE, m, source);
    read_column(bytes, FIRST_LABEL, m, label);
    read_column(bytes, FIRST_TARGET, m, target);
}

// An entry of the contents.
fn put_entry(kind: usize, offset: usize, size: usize, bytes: &mut [u8], at: usize)
    requires { at + 10 ≤ length bytes.old }
    ensures { bytes.new ≡ sets bytes.old at (entry kind offset size) }
{
    put_number(kind, 2, &mut *bytes, at);
    put_number(offset, 4, &mut *bytes, at + 2);
    put_number(size, 4, bytes, at + 6);
}

// The contents of an output file with m rows and k source states.
fn put_contents(m: usize, k: usize, bytes: &mut [u8])
    requires { (output_header ≤ length bytes.old) × (m < 65536) × (k < 65536) }
    ensures { bytes.new ≡ sets bytes.old 0 (output_contents m k) }
{
    let rows = ROW_SIZE * m;
    put_number(OUTPUT_ENTRIES, 2, &mut *bytes, ENTRIES_AT);
    put_entry(
        HEADER_KIND,
        OUTPUT_HEADER,
        HEADER_SIZE,
        &mut *bytes,
        HEADER_ENTRY,
    );
    put_entry(ROWS_KIND, OUTPUT_ROWS, rows, &mut *bytes, ROWS_ENTRY);
    put_entry(
        BLOCKS_KIND,
        OUTPUT_ROWS + rows,
        BLOCK_SIZE * k,
        bytes,
        BLOCKS_ENTRY,
    );
}

// The rows, behind the header.
fn put_rows(system: &Lts<'_>, bytes: &mut [u8])
    requires { RowsLong (lts_of system.now) × (output_blocks system.now.table.m ≤ length bytes.old) }
    ensures { bytes.new ≡ sets bytes.old output_rows (rows_bytes (lts_of system.now)) }
{
    for i in 0..system.table.m as usize {
        put_words(
            &[system.source[i], system.label[i], system.target[i]],
            bytes,
            OUTPUT_ROWS + ROW_SIZE * i,
        );
    }
}

// How many bytes an output file of m rows and k blocks has.
pub fn output_size(m: usize, k: usize) -> usize
    requires { (m < 65536) × (k < 65536) }
    ensures { result ≡ output_size m k }
{
    OUTPUT_ROWS + ROW_SIZE * m + BLOCK_SIZE * k
}

// The table, and a block for each state of another, over the first bytes.
pub fn write(system: &Lts<'_>, blocks: &[u16], bytes: &mut [u8])
    requires rows_long { RowsLong (lts_of system.now) × (length blocks.now < 65536) }
    requires blocks_in_bounds { output_size system.now.table.m (length blocks.now) ≤ length bytes.old }
    ensures { bytes.new ≡ over (output_bytes (lts_of system.now) blocks.now) bytes.old }
{
    let table = system.table;
    let m = table.m as usize;
    put_contents(m, blocks.len(), &mut *bytes);
    put_words(
        &[table.n, table.labels, table.m, table.initial],
        &mut *bytes,
        OUTPUT_HEADER,
    );
    put_rows(system, &mut *bytes);
    put_words(blocks, bytes, OUTPUT_ROWS + ROW_SIZE * m);
}

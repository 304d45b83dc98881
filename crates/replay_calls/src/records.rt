// The operations on block records, whose fields begin, marked_split and end lie one after the other in a slot.
ghost use Rattle.std.specs.Prelude.{◌≤◌};
ghost use Rattle.columns.specs.Limits.{max_states};
ghost use Rattle.spelling.specs.Counts.{IsPrefixLen};

use crate::headers::{block, partition};
use columns::limits::MAX_STATES;
use partition::block::Block;
use partition_records::records::empty_table;
use partition_records::swapping::swap_here;
use partition_records::unmarking::unmark_here;
use replay_lines::answers::{Said, plain};
use replay_lines::output::{Sink, said};
use replay_lines::slices::column as column_text;
use replay_slots::case::{Case, column};
use replay_slots::slots::Filled;

// How many records that many cells make up, as many as a table has room for at most.
fn number_of(cells: usize) -> usize
    ensures { result ≤ max_states }
{
    (cells / 3).min(MAX_STATES)
}

// `unmark_all` on the block of the first three numbers: the answer, and the block at return.
pub fn unmarked(case: Case, out: &mut Sink, used: usize) -> usize {
    let done = unmark_here(block(case));
    let at = said(plain(done.answer), out, used);
    let left = done.block;
    column_text(
        &[left.begin, left.marked_split, left.end],
        case.short,
        out,
        at,
    )
}

// The records of a list in a table.
fn table_of(records: &[u16]) -> [Block; MAX_STATES] {
    let mut table = empty_table();
    let (fields, _) = records.as_chunks::<3>();
    for (block, field) in table.iter_mut().zip(fields) {
        *block = Block {
            begin: field[0],
            marked_split: field[1],
            end: field[2],
        };
    }
    table
}

// The records of a list become those of a table.
fn put_back(table: [Block; MAX_STATES], records: &mut [u16]) {
    let (fields, _) = records.as_chunks_mut::<3>();
    for (field, block) in fields.iter_mut().zip(&table) {
        *field = [block.begin, block.marked_split, block.end];
    }
}

// `swap_blocks` on a list of records.
fn swapped(case: Case, cells: &[u16], element_to_block: &mut [u16], records: &mut [u16]) -> Said {
    let elements = column(cells, case, 0);
    let element_offset = column(cells, case, 1);
    let table = table_of(records);
    let done = swap_here(
        partition(case),
        elements,
        element_offset,
        element_to_block,
        table,
        number_of(records.len()),
        case.number(2),
        case.number(3),
    );
    let left = done.table;
    put_back(left, records);
    plain(done.answer)
}

// The call, with as much of each slot as is filled.
pub fn records(case: Case, cells: &[u16], to: Filled, a: &mut [u16], b: &mut [u16]) -> Said
    requires { IsPrefixLen to.a a.old × IsPrefixLen to.b b.old }
{
    swapped(case, cells, &mut a[..to.a], &mut b[..to.b])
}

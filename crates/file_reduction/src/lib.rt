// From file to file: the table of an input file is reduced strongly, and written as an output file. All memory is the call's own: no work
// is lent.
#![tactic(auto)]

ghost use Rattle.std.specs.Prelude.{◌≡◌, ◌<◌, [], ◌∷◌, length};
ghost use Rattle.columns.specs.Columns.{EachLong};
ghost use Rattle.file.specs.Input.{table_in, named_end};
ghost use Rattle.file_reduction.specs.Answers.{said_file};
ghost use Rattle.file_reduction.specs.Reducing.{put_file, reduce_table, reduce_file};
ghost use Rattle.refinement_strong.specs.Reduction.{strong_blocks, strong_rounds, strong_count, strong_rows};
ghost use Rattle.table.specs.Lts.{RowsLong, Valid, lts_of};
ghost use Rattle.table.specs.Tables.{Three, rows_over};

pub mod answers;

use crate::answers::Written;
use columns::answers::{Answer, Refusal};
use columns::limits::{MAX_ROWS, MAX_STATES};
use file::checks::check_file;
use file::cores::{header, output_size, read_rows, write};
use quotient::cores::quotient_rows;
use reduction::cores::strong_blocks;
use refinement_rounds::running::RunEnd;
use table::{Lts, Table};

// How many cells a work slice has for the largest table: n + m + 1.
const WORK: usize = MAX_STATES + MAX_ROWS + 1;

// The number of each state's final block in `block`, which has n cells. Answers how many rounds split something, and how many blocks there
// are. The work slices are the call's own.
fn find_blocks(system: &Lts<'_>, block: &mut [u16]) -> RunEnd
    requires { Valid (lts_of system.now) × (length block.old ≡ system.now.table.n) }
    ensures { let t = lts_of system.now in
        (result.rounds ≡ strong_rounds t) × (result.count ≡ strong_count t) × (block.new ≡ strong_blocks t) }
{
    let mut elements = [0u16; WORK];
    let mut element_offset = [0u16; WORK];
    let mut element_to_block = [0u16; MAX_STATES];
    let mut begin = [0u16; MAX_STATES];
    let mut marked_split = [0u16; MAX_STATES];
    let mut end = [0u16; MAX_STATES];
    let mut numbers = [0u16; WORK];
    let mut labels = [0u16; WORK];
    let mut blocks = [0u16; WORK];
    let mut spare = [0u16; WORK];
    strong_blocks(
        system,
        block,
        &mut elements,
        &mut element_offset,
        &mut element_to_block,
        &mut begin,
        &mut marked_split,
        &mut end,
        &mut numbers,
        &mut labels,
        &mut blocks,
        &mut spare,
    )
}

// The rows between the final blocks over the first cells of the result columns. Answers how many they are. The work slices are the call's
// own.
fn rows_between(
    system: &Lts<'_>,
    block: &[u16],
    result_source: &mut [u16],
    result_label: &mut [u16],
    result_target: &mut [u16],
) -> usize
    requires fact { let t = lts_of system.now in
        Valid t × (block.now ≡ strong_blocks t) }
    requires each_long { EachLong system.now.table.m (result_source.old ∷ result_label.old ∷ result_target.old ∷ []) }
    ensures { let between = strong_rows (lts_of system.now) in
        let out : Three = (result_source.old, (result_label.old, result_target.old)) in
        let out_left : Three = (result_source.new, (result_label.new, result_target.new)) in
        (result ≡ length between) × (out_left ≡ rows_over between out) }
{
    let mut a = [0u16; MAX_ROWS];
    let mut b = [0u16; MAX_ROWS];
    let mut c = [0u16; MAX_ROWS];
    let mut order = [0u16; MAX_ROWS];
    let mut spare = [0u16; MAX_ROWS];
    quotient_rows(
        system,
        block,
        false,
        false,
        result_source,
        result_label,
        result_target,
        &mut a,
        &mut b,
        &mut c,
        &mut order,
        &mut spare,
    )
}

// Writes a reduced table and the blocks of the source's states, if there is room: 16 with the number of bytes needed if not.
fn put_file(
    table: Table,
    rounds: usize,
    reduced: &Lts<'_>,
    blocks: &[u16],
    output: &mut [u8],
) -> Answer<Written>
    requires { RowsLong (lts_of reduced.now) × (length blocks.now < 65536) }
    ensures { (said_file result, output.new) ≡ put_file table rounds (lts_of reduced.now) blocks.now output.old }
{
    let size = output_size(reduced.table.m as usize, blocks.len());
    if output.len() < size {
        let needed = size as u64;
        return Answer::refused(Refusal::NoRoom { needed });
    }
    write(reduced, blocks, output);
    Answer::done(Written {
        bytes: size as u64,
        states: table.n as u64,
        labels: table.labels as u64,
        rows: table.m as u64,
        blocks: reduced.table.n as u64,
        reduced_rows: reduced.table.m as u64,
        rounds: rounds as u64,
    })
}

// Writes the reduced table of one whose blocks are found, in so many rounds and so many blocks.
fn put_reduced(system: &Lts<'_>, block: &[u16], found: RunEnd, output: &mut [u8]) -> Answer<Written>
    requires { let t = lts_of system.now in
        Valid t × (block.now ≡ strong_blocks t) × (found.rounds ≡ strong_rounds t) × (found.count ≡ strong_count t) }
    ensures { (said_file result, output.new) ≡ reduce_table (lts_of system.now) output.old }
{
    let mut source = [0u16; MAX_ROWS];
    let mut label = [0u16; MAX_ROWS];
    let mut target = [0u16; MAX_ROWS];
    let rows = rows_between(system, block, &mut source, &mut label, &mut target);
    let table = Table {
        n: found.count as u16,
        labels: system.table.labels,
        m: rows as u16,
        initial: block[system.table.initial as usize],
    };
    let reduced = Lts {
        table,
        source: &source,
        label: &label,
        target: &target,
    };
    put_file(system.table, found.rounds, &reduced, block, output)
}

// Reduces a table that is checked, and writes the result.
fn reduce_table(system: &Lts<'_>, output: &mut [u8]) -> Answer<Written>
    requires { Valid (lts_of system.now) }
    ensures { (said_file result, output.new) ≡ reduce_table (lts_of system.now) output.old }
{
    let mut block = [0u16; MAX_STATES];
    let n = system.table.n as usize;
    let found = find_blocks(system, &mut block[..n]);
    put_reduced(system, &block[..n], found, output)
}

// Reads the rows of a file that is checked, and reduces its table.
fn reduce_checked(input: &[u8], output: &mut [u8]) -> Answer<Written>
    requires { Valid (table_in input.now) × (length input.now ≡ named_end input.now) }
    ensures { (said_file result, output.new) ≡ reduce_table (table_in input.now) output.old }
{
    let mut source = [0u16; MAX_ROWS];
    let mut label = [0u16; MAX_ROWS];
    let mut target = [0u16; MAX_ROWS];
    let table = header(input);
    let m = table.m as usize;
    read_rows(table, input, &mut source, &mut label, &mut target);
    let system = Lts {
        table,
        source: &source[..m],
        label: &label[..m],
        target: &target[..m],
    };
    reduce_table(&system, output)
}

// The strong reduction of an input file, as an output file over the first bytes. Answers how many bytes are written, and what was reduced
// to what. A refusal writes nothing.
pub fn reduce_file(input: &[u8], output: &mut [u8]) -> Answer<Written>
    ensures { (said_file result, output.new) ≡ reduce_file input.now output.old }
{
    if let Err(refusal) = check_file(input, &[MAX_ROWS, MAX_ROWS, MAX_ROWS]) {
        return Answer::refused(refusal);
    }
    reduce_checked(input, output)
}

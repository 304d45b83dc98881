// Where the parts of a file stand and how long they are, in bytes, for all code; specs/Layout has the same for the definitions.

// The kinds of a body: the header of a table, its rows, the block of each source state.
pub const HEADER_KIND: usize = 1;

pub const ROWS_KIND: usize = 2;

pub const BLOCKS_KIND: usize = 3;

// How many bytes a header, a row and a block have.
pub const HEADER_SIZE: usize = 8;

pub const ROW_SIZE: usize = 6;

pub const BLOCK_SIZE: usize = 2;

// The contents of an input file: how many entries it has, and where that stands; then kind, offset and length of each.
pub const INPUT_ENTRIES: usize = 2;

pub const ENTRIES_AT: usize = 0;

pub const HEADER_KIND_AT: usize = 2;

pub const HEADER_OFFSET_AT: usize = 4;

pub const HEADER_LENGTH_AT: usize = 8;

pub const ROWS_KIND_AT: usize = 12;

pub const ROWS_OFFSET_AT: usize = 14;

pub const ROWS_LENGTH_AT: usize = 18;

// The bodies of an input file: the header with its four numbers, then the rows.
pub const INPUT_HEADER: usize = 22;

pub const STATES_AT: usize = 22;

pub const LABELS_AT: usize = 24;

pub const ROW_COUNT_AT: usize = 26;

pub const INITIAL_AT: usize = 28;

pub const INPUT_ROWS: usize = 30;

// The first row's source, label and target.
pub const FIRST_SOURCE: usize = 30;

pub const FIRST_LABEL: usize = 32;

pub const FIRST_TARGET: usize = 34;

// How long an input file is at most.
pub const LARGEST_INPUT: usize = 49182;

// One byte more than the longest file whose fields agree, one with 65,535 rows (30 + 6 · 65,535 = 393,240): of a longer file no more need
// be counted.
pub const COUNTED: usize = 393241;

// The contents of an output file: how many entries it has, and where each begins. Then its bodies.
pub const OUTPUT_ENTRIES: usize = 3;

pub const HEADER_ENTRY: usize = 2;

pub const ROWS_ENTRY: usize = 12;

pub const BLOCKS_ENTRY: usize = 22;

pub const OUTPUT_HEADER: usize = 32;

pub const OUTPUT_ROWS: usize = 40;

// How long an output file is at most.
pub const LARGEST_OUTPUT: usize = 57384;

// The limits that document 01 sets to a table: how many states, labels and rows it may have.

pub const MAX_STATES: usize = 4096;

pub const MAX_LABELS: usize = 1024;

pub const MAX_ROWS: usize = 8192;

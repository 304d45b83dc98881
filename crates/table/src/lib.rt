// A transition table: a header, and its rows in three lent columns, source, label and target, strictly ascending in this order
// of fields.
#![tactic(auto)]

pub mod checks;
pub mod cores;
pub mod incoming;
pub mod reach;
pub mod transitions;

// The numbers that travel with the columns: n states, labels, m rows and the initial state. Label 0 is hidden.
#[derive(Clone, Copy, PartialEq, Eq, Debug)]
pub struct Table {
    pub n: u16,
    pub labels: u16,
    pub m: u16,
    pub initial: u16,
}

// A table: its header, and its three columns, lent to be read.
#[derive(Clone, Copy)]
pub struct Lts<'a> {
    pub table: Table,
    pub source: &'a [u16],
    pub label: &'a [u16],
    pub target: &'a [u16],
}

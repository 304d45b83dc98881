// The slices that an operation may change, in slots: filled with what the case has, and shown as they are at return.
ghost use Rattle.spelling.specs.Counts.{IsPrefixLen};

use crate::case::{CHANGED, Case, Cell, between, changed};
use crate::kinds::Kind;
use crate::texts::show as show_bytes;
use replay_lines::output::Sink;
use replay_lines::slices::column;

pub type Slot = [u16; 70000];

pub type Text = [u8; 70000];

// Copies cells to a slot, and says how many.
pub fn copy<T: Copy>(from: &[T], into: &mut [T]) -> usize
    ensures { IsPrefixLen result into.new }
{
    let count = from.len().min(into.len());
    into[..count].copy_from_slice(&from[..count]);
    count
}

// Slice k of those that may change, into its slot.
pub fn fill<T: Copy>(case: Case, cells: &[T], k: usize, slot: &mut [T]) -> usize
    ensures { IsPrefixLen result slot.new }
{
    copy(changed(cells, case, k), slot)
}

// How many cells of each slot are filled.
#[derive(Drop)]
pub struct Filled {
    pub a: usize,
    pub b: usize,
    pub c: usize,
    pub d: usize,
    pub e: usize,
    pub f: usize,
    pub g: usize,
    pub h: usize,
    pub i: usize,
}

// All slices of u16 that may change, into the slots.
pub fn fill_all(
    case: Case,
    cells: &[u16],
    a: &mut Slot,
    b: &mut Slot,
    c: &mut Slot,
    d: &mut Slot,
    e: &mut Slot,
    f: &mut Slot,
    g: &mut Slot,
    h: &mut Slot,
    i: &mut Slot,
) -> Filled
    ensures prefix_len { IsPrefixLen result.a a.new × IsPrefixLen result.b b.new × IsPrefixLen result.c c.new }
    ensures prefix_len_2 { IsPrefixLen result.d d.new × IsPrefixLen result.e e.new × IsPrefixLen result.f f.new }
    ensures prefix_len_3 { IsPrefixLen result.g g.new × IsPrefixLen result.h h.new × IsPrefixLen result.i i.new }
{
    Filled {
        a: fill(case, cells, 0, a),
        b: fill(case, cells, 1, b),
        c: fill(case, cells, 2, c),
        d: fill(case, cells, 3, d),
        e: fill(case, cells, 4, e),
        f: fill(case, cells, 5, f),
        g: fill(case, cells, 6, g),
        h: fill(case, cells, 7, h),
        i: fill(case, cells, 8, i),
    }
}

// Slice k at return, in its slot.
fn show_filled(case: Case, k: usize, slot: &Slot, out: &mut Sink, used: usize) -> usize {
    column(between(slot, 0, case.length(k)), case.short, out, used)
}

// Slot k at return.
fn show_slot(
    case: Case,
    k: usize,
    a: &Slot,
    b: &Slot,
    c: &Slot,
    d: &Slot,
    e: &Slot,
    f: &Slot,
    g: &Slot,
    h: &Slot,
    i: &Slot,
    out: &mut Sink,
    used: usize,
) -> usize {
    match k {
        0 => show_filled(case, k, a, out, used),
        1 => show_filled(case, k, b, out, used),
        2 => show_filled(case, k, c, out, used),
        3 => show_filled(case, k, d, out, used),
        4 => show_filled(case, k, e, out, used),
        5 => show_filled(case, k, f, out, used),
        6 => show_filled(case, k, g, out, used),
        7 => show_filled(case, k, h, out, used),
        8 => show_filled(case, k, i, out, used),
        _ => used,
    }
}

// The text at return, where the kinds have it.
fn show_kind(
    kind: Kind,
    case: Case,
    k: usize,
    a: &Slot,
    b: &Slot,
    c: &Slot,
    d: &Slot,
    e: &Slot,
    f: &Slot,
    g: &Slot,
    h: &Slot,
    i: &Slot,
    text: &Text,
    out: &mut Sink,
    used: usize,
) -> usize {
    match kind {
        Kind::Changed(Cell::Byte) => show_bytes(case, text, out, used),
        Kind::Changed(_) | Kind::Records => show_slot(
            case, k, a, b, c, d, e, f, g, h, i, out, used,
        ),
        _ => used,
    }
}

fn changes(kind: Kind) -> bool {
    matches!(kind, Kind::Changed(_) | Kind::Records)
}

fn next_slot(k: usize, kind: Kind) -> usize {
    if changes(kind) && k < 100 { k + 1 } else { k }
}

// What may have changed, at return, in the order of the parameters.
pub fn show(
    kinds: &[u8],
    case: Case,
    a: &Slot,
    b: &Slot,
    c: &Slot,
    d: &Slot,
    e: &Slot,
    f: &Slot,
    g: &Slot,
    h: &Slot,
    i: &Slot,
    text: &Text,
    out: &mut Sink,
    used: usize,
) -> usize {
    let mut at = used;
    let mut k = 0;
    for letter in kinds {
        let kind = Kind::of(*letter);
        at = show_kind(kind, case, k, a, b, c, d, e, f, g, h, i, text, out, at);
        k = next_slot(k, kind);
    }
    at
}

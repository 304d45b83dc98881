#![tactic(auto)]

// Reads cases from standard input, one a line, and writes one answer line for each.
mod answer;
mod line;

use crate::answer::answer;
use crate::line::next_line;
use replay_lines::input::{Input, TURNS};
use replay_lines::output::{Sink, flush};
use replay_slots::case::{Bytes, Narrow, Wide};
use replay_slots::slots::{Slot, Text};
use std::io::Print;

// How many bytes are kept before they are written, at the end of a line.
const MANY: usize = 32768;

// Writes what is not written yet if it is much: how many bytes are not written then, unless the write fails.
fn written(out: &mut Sink, used: usize) -> Option<usize> {
    if used < MANY {
        return Some(used);
    }
    flush(out, used).then_some(0)
}

// All lines, as long as the answers can be written; whether they are.
fn replay_all(
    input: &mut Input,
    out: &mut Sink,
    narrow: &mut Narrow,
    wide: &mut Wide,
    bytes: &mut Bytes,
    text: &mut Text,
    a: &mut Slot,
    b: &mut Slot,
    c: &mut Slot,
    d: &mut Slot,
    e: &mut Slot,
    f: &mut Slot,
    g: &mut Slot,
    h: &mut Slot,
    i: &mut Slot,
) -> bool {
    let mut used = 0;
    for _ in 0..TURNS {
        let Some(line) = next_line(input) else {
            break;
        };
        let answered = answer(
            line, input, narrow, wide, bytes, text, a, b, c, d, e, f, g, h, i, out, used,
        );
        let Some(left) = written(out, answered) else {
            return false;
        };
        used = left;
    }
    flush(out, used)
}

fn main(rt: HostRuntime) {
    let mut input = Input::new(rt.stdin());
    let mut out = Sink::new(rt.stdout());
    let mut narrow = [0u16; 1400000];
    let mut wide = [0u32; 70000];
    let mut bytes = [0u8; 140000];
    let mut text = [0u8; 70000];
    let mut a = [0u16; 70000];
    let mut b = [0u16; 70000];
    let mut c = [0u16; 70000];
    let mut d = [0u16; 70000];
    let mut e = [0u16; 70000];
    let mut f = [0u16; 70000];
    let mut g = [0u16; 70000];
    let mut h = [0u16; 70000];
    let mut i = [0u16; 70000];
    let good = replay_all(
        &mut input,
        &mut out,
        &mut narrow,
        &mut wide,
        &mut bytes,
        &mut text,
        &mut a,
        &mut b,
        &mut c,
        &mut d,
        &mut e,
        &mut f,
        &mut g,
        &mut h,
        &mut i,
    );
    if !good {
        let _ = Print::write_all(&rt.stderr(), b"replay: the answers could not be written\n");
    }
}

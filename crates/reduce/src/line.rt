// The line on standard error.
ghost use Rattle.std.specs.Prelude.{◌≡◌, ◌+◌, ◌≤◌, length, take};
ghost use Rattle.spelling.specs.Counts.{IsPrefixLen};
ghost use Rattle.columns.specs.Answers.{done, said_coded};
ghost use Rattle.file_reduction.specs.Answers.{file_values};
ghost use Rattle.spelling.specs.Texts.{Put};
ghost use Rattle.reduce.specs.Line.{source_text, result_text, place_text, refused_text, line_text, meaning as Line·meaning};

use columns::answers::{Answer, Coded};
use file_reduction::answers::Written;
use spelling::{put, put_count};
use std::io::{Print, Stderr};

// Room for any line.
pub const LINE: usize = 256;

// The numbers of the refusals that a file can get.
const WRONG_STATES: u64 = 1;

const WRONG_LABELS: u64 = 2;

const WRONG_ROWS: u64 = 3;

const WRONG_INITIAL: u64 = 4;

const WRONG_FIELD: u64 = 5;

const NOT_ABOVE: u64 = 6;

const WRONG_CONTENTS: u64 = 13;

// What was reduced: states, rows and labels.
fn source(states: u64, labels: u64, rows: u64, out: &mut [u8]) -> usize
    requires { 100 ≤ length out.old }
    ensures put { Put out.old 0 (source_text states labels rows) out.new result }
    ensures upper_bound { result ≤ 100 }
{
    let a = put(b"reduced: ", out, 0);
    let b = put_count(states, b" states, ", out, a);
    let c = put_count(rows, b" rows, ", out, b);
    put_count(labels, b" labels to ", out, c)
}

// To what: blocks and rows, and the rounds that split something.
fn result(blocks: u64, rows: u64, rounds: u64, out: &mut [u8], at: usize) -> usize
    requires { at + 100 ≤ length out.old }
    ensures { Put out.old at (result_text blocks rows rounds) out.new result }
{
    let a = put_count(blocks, b" blocks, ", out, at);
    let b = put_count(rows, b" rows in ", out, a);
    put_count(rounds, b" rounds\n", out, b)
}

// What a refusal of this number means. 7 and 16 don't come: all memory is the program's own, and its output has room for the longest file.
fn meaning(number: u64, out: &mut [u8], at: usize) -> usize
    requires { at + 80 ≤ length out.old }
    ensures put { Put out.old at (Line·meaning number) out.new result }
    ensures upper_bound { result ≤ at + 80 }
{
    match number {
        WRONG_CONTENTS => put(
            b"the contents of the file, or the length of a body, are not as they must be",
            out,
            at,
        ),
        WRONG_STATES => put(b"the number of states is not from 1 to 4096", out, at),
        WRONG_LABELS => put(b"the number of labels is not from 1 to 1024", out, at),
        WRONG_ROWS => put(b"the number of rows is above 8192", out, at),
        WRONG_INITIAL => put(
            b"the initial state is not below the number of states",
            out,
            at,
        ),
        WRONG_FIELD => put(b"a field of this row is out of range", out, at),
        NOT_ABOVE => put(b"this row is not above the one before", out, at),
        _ => at,
    }
}

// What is refused, and where.
fn refused_at(number: u64, place: u64, out: &mut [u8]) -> usize
    requires { 200 ≤ length out.old }
    ensures put { Put out.old 0 (place_text number place) out.new result }
    ensures upper_bound { result ≤ 100 }
{
    let a = put(b"refused ", out, 0);
    let b = put_count(number, b" at ", out, a);
    put_count(place, b": ", out, b)
}

// Why nothing was reduced.
fn refused<R: Coded>(refusal: R, out: &mut [u8]) -> usize
    requires { 200 ≤ length out.old }
    ensures { let r = R.code refusal in
        Put out.old 0 (refused_text r.number r.place) out.new result }
{
    let at = refused_at(refusal.number(), refusal.place(), out);
    let end = meaning(refusal.number(), out, at);
    put(b"\n", out, end)
}

// What was reduced to what.
fn reduced(written: Written, out: &mut [u8]) -> usize
    requires { 200 ≤ length out.old }
    ensures { Put out.old 0 (line_text (done (file_values written))) out.new result }
{
    let at = source(written.states, written.labels, written.rows, out);
    result(
        written.blocks,
        written.reduced_rows,
        written.rounds,
        out,
        at,
    )
}

// What an answer of the reduction says, as a line over the first bytes of `out`, and how many they are.
pub fn line<R: Coded>(answer: Answer<Written, R>, out: &mut [u8; LINE]) -> usize
    ensures prefix_len { IsPrefixLen result out.new }
    ensures out_value { take result out.new ≡ line_text (said_coded R.code file_values answer.outcome) }
{
    match answer.outcome {
        Ok(written) => reduced(written, out),
        Err(refusal) => refused(refusal, out),
    }
}

// Writes a line to standard error.
pub fn say(stderr: Stderr, line: &[u8]) {
    let _ = Print::write_all(&stderr, line);
}

// What could not be done.
pub fn failed(stderr: Stderr, what: &[u8]) {
    let _ = Print::write_all(&stderr, b"failed: ");
    let _ = Print::write_all(&stderr, what);
    let _ = Print::write_all(&stderr, b"\n");
}

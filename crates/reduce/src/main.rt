#![tactic(auto)]

// The program that people run: an input file on standard input, the output file of its strong reduction on standard output. What was done,
// or why nothing was, is one line on standard error.
ghost use Rattle.std.specs.Prelude.{◌≡◌, List, [], ℕ, ◌≤◌, length};
ghost use Rattle.columns.specs.Answers.{done};
ghost use Rattle.file.specs.Input.{table_in};
ghost use Rattle.file.specs.Layout.{largest_output};
ghost use Rattle.file.specs.Output.{FileOf};
ghost use Rattle.file_reduction.specs.Answers.{said_file};
ghost use Rattle.file_reduction.specs.Reducing.{reduced_bytes, file_numbers, reduce_file};
ghost use Rattle.reduce.specs.Held.{Heard, Enough};

mod input;
mod line;

use crate::input::{Got, read_input};
use crate::line::{LINE, failed, line, say};
use columns::answers::Answer;
use file::checks::check_long;
use file::layout::{LARGEST_INPUT, LARGEST_OUTPUT};
use file_reduction::answers::Written;
use file_reduction::reduce_file;
use std::io::{Print, Stderr, Stdout};

// Writes the line of an answer.
fn say_answer(stderr: Stderr, answer: Answer<Written>) {
    let mut text = [0u8; LINE];
    let size = line(answer, &mut text);
    say(stderr, &text[..size]);
}

// Writes the output file of an input that is held whole to standard output, and says whether all of it is written.
fn write_output(stdout: Stdout, input: &[u8], file: &[u8]) -> bool
    requires { file.now ≡ reduced_bytes (table_in input.now) }
{
    Print::write_all(&stdout, file).is_ok()
}

// Reduces what was read into the room that document 01 names. The answer and the output are those of the whole input, whichever it is that
// was heard of, and a table's file is never refused; what is done is of what is held.
fn reduce_into(held: &[u8], got: Got, output: &mut [u8]) -> Answer<Written>
    requires { Enough held.now got × (largest_output ≤ length output.old) }
    ensures by_index { (whole : List ℕ) → Heard whole held.now got → (said_file result, output.new) ≡ reduce_file whole output.old }
    ensures by_index_2 { (whole : List ℕ) → Heard whole held.now got → FileOf whole [] → said_file result ≡ done (file_numbers (table_in
        whole)) }
    ensures by_index_3 { (values : List ℕ) → said_file result ≡ done values → reduce_file held.now output.old ≡ (done values, output.new) }
{
    if LARGEST_INPUT < got.size {
        if let Err(refusal) = check_long(held, got.size) {
            return Answer::refused(refusal);
        }
    }
    reduce_file(held, output)
}

// Reduces what was read, and writes the result if there is one.
fn reduce_input(rt: &HostRuntime, held: &[u8], got: Got)
    requires { Enough held.now got }
{
    let mut output = [0u8; LARGEST_OUTPUT];
    let answer = reduce_into(held, got, &mut output);
    if let Ok(written) = answer.outcome {
        let size = written.bytes as usize;
        if !write_output(rt.stdout(), held, &output[..size]) {
            return failed(rt.stderr(), b"the output could not be written");
        }
    }
    say_answer(rt.stderr(), answer);
}

fn main(rt: HostRuntime) {
    let mut stdin = rt.stdin();
    let mut bytes = [0u8; LARGEST_INPUT];
    match read_input(&mut stdin, &mut bytes) {
        Ok(got) => reduce_input(&rt, &bytes[..got.used], got),
        Err(_) => failed(rt.stderr(), b"the input could not be read"),
    }
}

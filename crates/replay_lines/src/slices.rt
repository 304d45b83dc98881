// Slices as text: cell by cell, or in runs where they are to be short.
ghost use Rattle.std.specs.Prelude.{◌≡◌, ◌<◌};
ghost use Rattle.replay_lines.specs.Text.{puts};
ghost use Rattle.replay_lines.specs.Runs.{alone};
ghost use Rattle.replay_lines.specs.Slices.{run_text, cells_text, Showing, column_text, part_text};

use crate::output::{Sink, marked, number, word};
use crate::runs::Run;

// What is shown of a slice: its last run, which is not written yet, and how many bytes of the output are not.
#[derive(Drop)]
pub struct Shown {
    pub run: Run,
    pub used: usize,
}

// A run, with a blank before it.
fn show_run(run: Run, out: &mut Sink, used: usize) -> usize
    ensures { (result, out.new.bytes) ≡ puts (run_text run) (used, out.old.bytes) }
{
    if run.count == 0 {
        return used;
    }
    let at = number(run.first, out, used);
    if run.count == 1 {
        return at;
    }
    if run.step == 0 {
        return marked(b'*', run.count, out, at);
    }
    marked(b'+', run.count, out, at)
}

// A cell that starts a run: the one before is written.
fn start_run(shown: Shown, x: u64, out: &mut Sink) -> Shown
    ensures { (result.run ≡ alone x) × ((result.used, out.new.bytes) ≡ puts (run_text shown.run) (shown.used, out.old.bytes)) }
{
    let used = show_run(shown.run, out, shown.used);
    let run = Run::alone(x);
    Shown { run, used }
}

// A cell more: the run goes on with it, or the cell starts the next.
fn show_cell(shown: Shown, short: bool, x: u64, out: &mut Sink) -> Shown
    requires { shown.run.count < 18446744073709551615 }
    ensures { Showing short shown out.old.bytes x result out.new.bytes }
{
    if !short {
        return start_run(shown, x, out);
    }
    let last = shown.run;
    let used = shown.used;
    if last.repeats(x) {
        let run = last.longer(0);
        return Shown { run, used };
    }
    if last.ascends(x) {
        let run = last.longer(1);
        return Shown { run, used };
    }
    start_run(shown, x, out)
}

// The cells of a slice.
fn cells(cells: &[u16], short: bool, out: &mut Sink, used: usize) -> usize
    ensures { (result, out.new.bytes) ≡ puts (cells_text short cells.now) (used, out.old.bytes) }
{
    let run = Run::none();
    let mut shown = Shown { run, used };
    for cell in cells {
        shown = show_cell(shown, short, u64::from(*cell), out);
    }
    show_run(shown.run, out, shown.used)
}

// A slice at return.
pub fn column(column: &[u16], short: bool, out: &mut Sink, used: usize) -> usize
    ensures { (result, out.new.bytes) ≡ puts (column_text short column.now) (used, out.old.bytes) }
{
    let at = word(b" |", out, used);
    cells(column, short, out, at)
}

// A part of a lent slice.
pub fn part(part: &[u16], short: bool, out: &mut Sink, used: usize) -> usize
    ensures { (result, out.new.bytes) ≡ puts (part_text short part.now) (used, out.old.bytes) }
{
    let a = word(b"part", out, used);
    let b = number(part.len() as u64, out, a);
    cells(part, short, out, b)
}

// The cells of a slice of bytes, as numbers.
fn byte_cells(cells: &[u8], short: bool, out: &mut Sink, used: usize) -> usize
    ensures { (result, out.new.bytes) ≡ puts (cells_text short cells.now) (used, out.old.bytes) }
{
    let run = Run::none();
    let mut shown = Shown { run, used };
    for cell in cells {
        shown = show_cell(shown, short, u64::from(*cell), out);
    }
    show_run(shown.run, out, shown.used)
}

// A slice of bytes at return.
pub fn bytes(bytes: &[u8], short: bool, out: &mut Sink, used: usize) -> usize
    ensures { (result, out.new.bytes) ≡ puts (column_text short bytes.now) (used, out.old.bytes) }
{
    let at = word(b" |", out, used);
    byte_cells(bytes, short, out, at)
}

// Standard output, byte by byte through a lent sink, of which the first `used` cells are not written yet.
ghost use Rattle.std.specs.Prelude.{◌≡◌, ◌∷◌};
ghost use Rattle.columns.specs.Answers.{refused as refused_with};
ghost use Rattle.spelling.specs.Digits.{digits};
ghost use Rattle.replay_lines.specs.Text.{put_byte, puts};
ghost use Rattle.replay_lines.specs.Told.{told_by};
ghost use Rattle.replay_lines.specs.Spelling.{spelled, spelled_all, said_text};

use crate::answers::Said;
use crate::input::Buffer;
use columns::answers::Coded;
use spelling::decimal;
use std::io::{Print, Stdout};

// Standard output, with the bytes that are not written yet. Once a write fails it is broken, and nothing more is written behind the gap.
#[derive(Drop)]
pub struct Sink {
    pub bytes: Buffer,
    broken: bool,
    stdout: Stdout,
}

impl Sink {
    // Nothing is to be written.
    pub fn new(stdout: Stdout) -> Sink {
        Sink {
            bytes: [0; 65536],
            broken: false,
            stdout,
        }
    }
}

// Writes the first bytes, and says whether that is done.
fn write_front(out: &Sink, used: usize) -> bool {
    !out.broken && used <= 65536 && Print::write_all(&out.stdout, &out.bytes[..used]).is_ok()
}

// Writes what is not written yet, and says whether that is done. Where it is not, the output is broken.
pub fn flush(out: &mut Sink, used: usize) -> bool
    ensures { out.new.bytes ≡ out.old.bytes }
{
    if write_front(out, used) {
        return true;
    }
    out.broken = true;
    false
}

// One byte more. A full buffer is written first.
pub fn byte(byte: u8, out: &mut Sink, used: usize) -> usize
    ensures { (result, out.new.bytes) ≡ put_byte out.old.bytes used byte }
{
    if used < 65536 {
        out.bytes[used] = byte;
        return used + 1;
    }
    flush(out, used);
    out.bytes[0] = byte;
    1
}

// The bytes of a word.
pub fn word(word: &[u8], out: &mut Sink, used: usize) -> usize
    ensures { (result, out.new.bytes) ≡ puts word.now (used, out.old.bytes) }
{
    let mut at = used;
    for letter in word {
        at = byte(*letter, out, at);
    }
    at
}

// A mark and a number.
pub fn marked(mark: u8, value: u64, out: &mut Sink, used: usize) -> usize
    ensures { (result, out.new.bytes) ≡ puts (mark ∷ digits value) (used, out.old.bytes) }
{
    let mut text = [0u8; 20];
    let at = byte(mark, out, used);
    let count = decimal(value, &mut text);
    word(&text[..count], out, at)
}

// A blank and a number.
pub fn number(value: u64, out: &mut Sink, used: usize) -> usize
    ensures { (result, out.new.bytes) ≡ puts (spelled value) (used, out.old.bytes) }
{
    marked(b' ', value, out, used)
}

// Numbers, with a blank before each.
fn numbers(numbers: &[u64], out: &mut Sink, used: usize) -> usize
    ensures { (result, out.new.bytes) ≡ puts (spelled_all numbers.now) (used, out.old.bytes) }
{
    let mut at = used;
    for value in numbers {
        at = number(*value, out, at);
    }
    at
}

// What is refused: a number and a place.
fn refused<R: Coded>(refusal: R, out: &mut Sink, used: usize) -> usize
    ensures { let r = R.code refusal in
        (result, out.new.bytes) ≡ puts (said_text (refused_with r.number r.place)) (used, out.old.bytes) }
{
    let a = word(b"refused", out, used);
    let b = number(refusal.number(), out, a);
    number(refusal.place(), out, b)
}

// What an answer says.
pub fn said<R: Coded>(said: Said<R>, out: &mut Sink, used: usize) -> usize
    ensures { (result, out.new.bytes) ≡ puts (said_text (told_by R.code said)) (used, out.old.bytes) }
{
    match said {
        Ok(done) => {
            let at = word(b"done", out, used);
            numbers(&done.numbers[..done.count.min(8)], out, at)
        }
        Err(refusal) => refused(refusal, out, used),
    }
}

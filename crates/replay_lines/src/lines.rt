// From one line to the next.
ghost use Rattle.std.specs.Prelude.{◌≡◌, ◌≤◌, length};
ghost use Rattle.replay_lines.specs.Places.{in_word};
ghost use Rattle.replay_lines.specs.Text.{put_byte, puts};
ghost use Rattle.replay_lines.specs.Spelling.{bad_text};

use crate::input::{Input, TURNS, in_line};
use crate::output::{Sink, byte, number, word};
use crate::seen::Seen;

// Whether a line that starts with this byte has no answer.
fn is_silent(byte: Option<u8>) -> bool {
    byte.is_some_and(|b| b == b'\n' || b == b'#')
}

// Goes to the first place of the next line that has an answer, or to the end.
pub fn skip_silent(input: &mut Input) {
    for _ in 0..TURNS {
        if !is_silent(input.byte) {
            break;
        }
        input.skip_line();
    }
}

// Whether what stands at a place belongs to a word.
pub fn in_word<B: Seen>(byte: B) -> bool
    ensures { result ≡ in_word (B.seen byte) }
{
    byte.seen() != Some(u16::from(b' ')) && in_line(byte)
}

// The word that starts here, or as much of it as `into` has room for.
pub fn read_word<'a>(input: &mut Input, into: &'a mut [u8]) -> &'a [u8]
    ensures { length result.now ≤ length into.old }
{
    for i in 0..into.len() {
        match input.byte {
            Some(byte) if in_word(input.byte) => into[i] = byte,
            _ => return &into[..i],
        }
        input.next();
    }
    into
}

// A line whose answer is written up to its end.
pub fn end_case(out: &mut Sink, used: usize) -> usize
    ensures { (result, out.new.bytes) ≡ put_byte out.old.bytes used 10 }
{
    byte(b'\n', out, used)
}

// A line that is no case: the place of the first word that is wrong, missing or too many, the name's being 0.
pub fn bad_case(place: usize, out: &mut Sink, used: usize) -> usize
    ensures { (result, out.new.bytes) ≡ puts (bad_text place) (used, out.old.bytes) }
{
    let said = word(b"bad", out, used);
    let at = number(place as u64, out, said);
    byte(b'\n', out, at)
}

// Standard input: its first bytes are held, the others counted as far as it matters.
ghost use Rattle.std.specs.Prelude.{false, ◌≡◌, ◌≤◌, length, take};
ghost use Rattle.file.specs.Layout.{largest_input, counted};
ghost use Rattle.spelling.specs.Counts.{IsPrefixLen};
ghost use Rattle.reduce.specs.Held.{Enough, got_in};

use file::layout::COUNTED;
use std::io::{Read, Stdin};

// What was read: whether the end was reached, or a read failed; how many bytes are held, and how many there were.
#[derive(Clone, Copy)]
pub struct Got {
    pub ended: bool,
    pub used: usize,
    pub size: usize,
}

// Counts what comes behind the bytes held, until the input ends or as many are counted as matter. Where a read fails, the error is what was
// read before it.
fn count_more(stdin: &mut Stdin, held: usize) -> Result<Got, Got>
    ensures { let got = got_in result in (got.used ≡ held) × (held ≤ got.size) × (got.ended ≡ false → counted ≤ got.size) }
{
    let mut spare = [0u8; 4096];
    let mut size = held;
    while size < COUNTED {
        let counted = Got {
            ended: true,
            used: held,
            size,
        };
        match stdin.read(&mut spare) {
            Ok(0) => return Ok(counted),
            Ok(more) => size += more,
            Err(_) => return Err(counted),
        }
    }
    Ok(Got {
        ended: false,
        used: held,
        size,
    })
}

// Reads the first bytes until the input ends or there is no more room, and counts the others. A read that fails is told, with what was read
// before it, and not taken for the end.
pub fn read_input(stdin: &mut Stdin, bytes: &mut [u8]) -> Result<Got, Got>
    ensures held { IsPrefixLen (got_in result).used bytes.new }
    ensures enough { let got = got_in result in length bytes.old ≡ largest_input → Enough (take got.used bytes.new) got }
{
    let mut used = 0;
    while used < bytes.len() {
        let ended = Got {
            ended: true,
            used,
            size: used,
        };
        match stdin.read(&mut bytes[used..]) {
            Ok(0) => return Ok(ended),
            Ok(more) => used += more,
            Err(_) => return Err(ended),
        }
    }
    count_more(stdin, used)
}

// Writers: each writes its text from byte `at` on, as far as there is room, and returns the place behind it.
ghost use Rattle.std.specs.Prelude.{◌≡◌, ◌+◌, ◌*◌, ◌-◌, ◌^◌, ◌≤◌, ◌<◌, [], ◌∷◌, length};
ghost use Rattle.partition_display.specs.Display.{digit, decimal, separator, element_text, block_text, blocks_text};
ghost use Rattle.partition_display.specs.Writing.{Wrote, Readable};

use columns::cells::at as cell;
use partition::PartitionColumns;

// One byte.
fn write_byte(byte: u8, text: &mut [u8], at: usize) -> usize
    requires { at + 1 < 2 ^ 64 }
    ensures wrote { Wrote text.old at (byte ∷ []) text.new result }
    ensures value { result ≡ at + 1 }
{
    if at < text.len() {
        text[at] = byte;
    }
    at + 1
}

// The digit of x that counts units of this size. A number below the unit has none.
fn write_digit(x: usize, unit: usize, text: &mut [u8], at: usize) -> usize
    requires { (at + 1 < 2 ^ 64) × (0 < unit) }
    ensures wrote { Wrote text.old at (digit unit x) text.new result }
    ensures upper_bound { result ≤ at + 1 }
{
    if x < unit {
        return at;
    }
    write_byte(b'0' + (x / unit % 10) as u8, text, at)
}

// A number below 10,000, without leading zeros.
fn write_number(x: usize, text: &mut [u8], at: usize) -> usize
    requires { at + 4 < 2 ^ 64 }
    ensures wrote { Wrote text.old at (decimal x) text.new result }
    ensures upper_bound { result ≤ at + 4 }
{
    let a = write_digit(x, 1000, text, at);
    let b = write_digit(x, 100, text, a);
    let c = write_digit(x, 10, text, b);
    write_byte(b'0' + (x % 10) as u8, text, c)
}

// The element at place k, with a star from `split` on.
fn write_element(elements: &[u16], split: usize, k: usize, text: &mut [u8], at: usize) -> usize
    requires { (at + 5 < 2 ^ 64) × (k < length elements.now) }
    ensures wrote { Wrote text.old at (element_text elements.now split k) text.new result }
    ensures upper_bound { result ≤ at + 5 }
{
    let x = cell(elements, k);
    let next = write_number(x, text, at);
    if k < split {
        return next;
    }
    write_byte(b'*', text, next)
}

// What stands before text k of a list: a comma and a space, and nothing before the first.
fn write_separator(k: usize, text: &mut [u8], at: usize) -> usize
    requires { at + 2 < 2 ^ 64 }
    ensures wrote { Wrote text.old at (separator k) text.new result }
    ensures upper_bound { result ≤ at + 2 }
{
    if k == 0 {
        return at;
    }
    let next = write_byte(b',', text, at);
    write_byte(b' ', text, next)
}

// The block of the places from `from` to `to`.
fn write_block(
    elements: &[u16],
    from: usize,
    split: usize,
    to: usize,
    text: &mut [u8],
    at: usize,
) -> usize
    requires from_le_to { (from ≤ to) × (to ≤ length elements.now) }
    requires from_bound { at + 7 * (to - from) + 2 < 2 ^ 64 }
    ensures wrote { Wrote text.old at (block_text elements.now from split to) text.new result }
    ensures upper_bound { result ≤ at + 7 * (to - from) + 2 }
{
    let mut next = write_byte(b'{', text, at);
    for i in 0..to - from {
        next = write_separator(i, text, next);
        next = write_element(elements, split, from + i, text, next);
    }
    write_byte(b'}', text, next)
}

// The blocks of the table, in order, from the first byte on.
pub fn write_blocks(count: usize, columns: &PartitionColumns<'_>, text: &mut [u8]) -> usize
    requires { Readable columns.now.elements.now columns.now.begin.now columns.now.marked_split.now columns.now.end.now count }
    ensures { let words = blocks_text columns.now.elements.now columns.now.begin.now columns.now.marked_split.now columns.now.end.now count in
        Wrote text.old 0 words text.new result }
{
    let mut next = write_byte(b'{', text, 0);
    for b in 0..count {
        let from = cell(columns.begin, b);
        let split = cell(columns.marked_split, b);
        let to = cell(columns.end, b);
        next = write_separator(b, text, next);
        next = write_block(columns.elements, from, split, to, text, next);
    }
    write_byte(b'}', text, next)
}

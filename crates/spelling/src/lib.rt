#![tactic(auto)]

// Texts and numbers as bytes: each is put over lent bytes from byte `at` on, and the place behind it is answered.
ghost use Rattle.std.specs.Prelude.{◌≡◌, ◌++◌, ◌+◌, ◌≤◌, length, take};
ghost use Rattle.spelling.specs.Counts.{IsPrefixLen};
ghost use Rattle.spelling.specs.Texts.{Put};
ghost use Rattle.spelling.specs.Digits.{digits, IsDigitCount};

// Bytes.
pub fn put(bytes: &[u8], out: &mut [u8], at: usize) -> usize
    requires { at + length bytes.now ≤ length out.old }
    ensures { Put out.old at bytes.now out.new result }
{
    let end = at + bytes.len();
    out[at..end].copy_from_slice(bytes);
    end
}

// How many decimal digits a number has.
fn digit_count(number: u64) -> usize
    ensures { IsDigitCount number result }
{
    let mut count = 1;
    let mut rest = number / 10;
    while 0 < rest {
        rest /= 10;
        count += 1;
    }
    count
}

// The decimal digits of a number over the first bytes of `text`, and how many they are.
pub fn decimal(number: u64, text: &mut [u8; 20]) -> usize
    ensures prefix_len { IsPrefixLen result text.new }
    ensures upper_bound { result ≤ 20 }
    ensures text_value { take result text.new ≡ digits number }
{
    let count = digit_count(number);
    let mut rest = number;
    for i in (0..count).rev() {
        text[i] = 48 + (rest % 10) as u8;
        rest /= 10;
    }
    count
}

// The decimal digits of a number, of which there are at most 20.
pub fn put_number(number: u64, out: &mut [u8], at: usize) -> usize
    requires { at + 20 ≤ length out.old }
    ensures put { Put out.old at (digits number) out.new result }
    ensures upper_bound { result ≤ at + 20 }
{
    let mut text = [0u8; 20];
    let count = decimal(number, &mut text);
    put(&text[..count], out, at)
}

// A number and the words behind it.
pub fn put_count(number: u64, words: &[u8], out: &mut [u8], at: usize) -> usize
    requires { at + 20 + length words.now ≤ length out.old }
    ensures put { Put out.old at (digits number ++ words.now) out.new result }
    ensures upper_bound { result ≤ at + 20 + length words.now }
{
    let behind = put_number(number, out, at);
    put(words, out, behind)
}

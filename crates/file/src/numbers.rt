// Numbers in bytes, the lowest first. No entry points: each says what it requires.
ghost use Rattle.std.specs.Prelude.{◌≡◌, ◌+◌, ◌*◌, ◌^◌, ◌<◌, ◌≤◌, length};
ghost use Rattle.std.proofs.lemmas.List.Edits.{sets};
ghost use Rattle.file.specs.Bytes.{little, bytes_of, words};

// The number in `width` bytes from `at` on.
pub fn number_at(bytes: &[u8], at: usize, width: usize) -> usize
    requires { (at + width ≤ length bytes.now) × (width ≤ 4) }
    ensures { (result ≡ little width bytes.now at) × (result < 256 ^ width) }
{
    let mut x = 0;
    for i in (at..at + width).rev() {
        x = bytes[i] as usize + 256 * x;
    }
    x
}

// The lowest `width` bytes of x, from `at` on.
pub fn put_number(x: usize, width: usize, bytes: &mut [u8], at: usize)
    requires { at + width ≤ length bytes.old }
    ensures { bytes.new ≡ sets bytes.old at (bytes_of width x) }
{
    let mut rest = x;
    for byte in &mut bytes[at..at + width] {
        *byte = (rest % 256) as u8;
        rest /= 256;
    }
}

// Numbers of two bytes each, from `at` on.
pub fn put_words(cells: &[u16], bytes: &mut [u8], at: usize)
    requires { at + 2 * length cells.now ≤ length bytes.old }
    ensures { bytes.new ≡ sets bytes.old at (words cells.now) }
{
    for (i, &cell) in cells.iter().enumerate() {
        put_number(cell as usize, 2, bytes, at + 2 * i);
    }
}

// One column: a cell, clear, copy, count up, exchange two cells.
ghost use Rattle.std.specs.Prelude.{◌≡◌, ◌≤◌, ◌<◌, length, get_or};
ghost use Rattle.columns.specs.Columns.{listed, over, cell, swapped};
ghost use Rattle.columns.specs.Lent.{Cleared};

// One cell, as an index.
pub fn at(a: &[u16], i: usize) -> usize
    requires { i < length a.now }
    ensures { (result ≡ get_or a.now i 0) × (result < 65536) }
{
    a[i] as usize
}

// Every cell becomes zero.
pub fn clear(a: &mut [u16])
    ensures { Cleared a.old a.new }
{
    a.fill(0);
}

// The cells of `from` over the first ones of `to`.
pub fn copy(from: &[u16], to: &mut [u16])
    requires { length from.now ≤ length to.old }
    ensures { to.new ≡ over from.now to.old }
{
    to[..from.len()].copy_from_slice(from);
}

// 0, 1, 2, and so on.
pub fn count_up(a: &mut [u16])
    requires { length a.old ≤ 65536 }
    ensures { a.new ≡ listed (length a.old) (λ k. k) }
{
    for (i, cell) in a.iter_mut().enumerate() {
        *cell = i as u16;
    }
}

// Exchanges the cells i and j.
pub fn swap_cells(a: &mut [u16], i: usize, j: usize)
    requires { (i < length a.old) × (j < length a.old) }
    ensures { a.new ≡ swapped i j a.old }
{
    a.swap(i, j);
}

// The cell that a number names, or the number itself where the column is too short.
pub fn cell_of(a: &[u16], i: u16) -> u16
    ensures { result ≡ cell a.now i }
{
    let k = i as usize;
    if k < a.len() { a[k] } else { i }
}

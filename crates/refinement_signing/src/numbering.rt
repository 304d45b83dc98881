// The states of a block numbered by their stored signatures. No entry points: each says what it requires.
ghost use Rattle.std.specs.Prelude.{◌≡◌, ℕ, ◌+◌, ◌-◌, ◌≤◌, ◌<◌, length, get_or};
ghost use Rattle.columns.specs.Number.{least};
ghost use Rattle.refinement_signing.specs.Numbered.{alike_at, Numbered};
ghost use Rattle.partition.specs.Stand.{Stand};
ghost use Rattle.refinement_signing.specs.Stored.{Held, store};

use crate::comparing::same_signature;
use columns::cells::at;

// The first of the states from place x on that has the signature of the one at x + j, counted from x: j, if none before has it.
fn first_alike(
    n: usize,
    elements: &[u16],
    labels: &[u16],
    blocks: &[u16],
    d: usize,
    begins: &[u16],
    x: usize,
    j: usize,
) -> usize
    requires { Held (store n labels.now blocks.now d begins.now) × Stand elements.now n x (j + 1) }
    ensures { result ≡ least (alike_at elements.now (store n labels.now blocks.now d begins.now) x) j }
{
    let s = at(elements, x + j);
    (0..j)
        .find(|&i| same_signature(n, labels, blocks, d, begins, at(elements, x + i), s))
        .unwrap_or(j)
}

// The number of the state at x + j, where those before it have theirs, `next` of them. Returns how many there are then.
fn number_next(
    n: usize,
    elements: &[u16],
    labels: &[u16],
    blocks: &[u16],
    d: usize,
    begins: &[u16],
    x: usize,
    j: usize,
    numbers: &mut [u16],
    next: usize,
) -> usize
    requires held { Held (store n labels.now blocks.now d begins.now) × Stand elements.now n x (j + 1) × (n ≤ length numbers.old) × (j <
        65536) }
    requires numbered { Numbered (alike_at elements.now (store n labels.now blocks.now d begins.now) x) elements.now x j numbers.old next }
    ensures numbered_2 { Numbered (alike_at elements.now (store n labels.now blocks.now d begins.now) x) elements.now x (j + 1)
        numbers.new result }
    ensures by_index { (s : ℕ) → (get_or elements.now (x + j) 0 ≡ s → ⊥) → get_or numbers.new s 0 ≡ get_or numbers.old s 0 }
{
    let s = at(elements, x + j);
    let i = first_alike(n, elements, labels, blocks, d, begins, x, j);
    if i < j {
        numbers[s] = numbers[at(elements, x + i)];
        next
    } else {
        numbers[s] = next as u16;
        next + 1
    }
}

// The numbers of the states that stand from x to before z; those of the others stay. Returns how many there are.
pub fn number_block(
    n: usize,
    elements: &[u16],
    labels: &[u16],
    blocks: &[u16],
    d: usize,
    begins: &[u16],
    x: usize,
    z: usize,
    numbers: &mut [u16],
) -> usize
    requires { Held (store n labels.now blocks.now d begins.now) × Stand elements.now n x (z - x) × (n ≤ length numbers.old) × (x ≤ z)
        × (z - x ≤ 65536) }
    ensures numbered { Numbered (alike_at elements.now (store n labels.now blocks.now d begins.now) x) elements.now x (z - x) numbers.new
        result }
    ensures by_index { (s : ℕ) → ((i : ℕ) → i < z - x → get_or elements.now (x + i) 0 ≡ s → ⊥) → get_or numbers.new s 0 ≡ get_or
        numbers.old s 0 }
{
    let mut next = 0;
    for j in 0..z - x {
        next = number_next(n, elements, labels, blocks, d, begins, x, j, numbers, next);
    }
    next
}

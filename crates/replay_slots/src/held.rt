// The slices that a call which changes many holds for itself: each in an array, lent over its first cells, and shown at return.
ghost use Rattle.std.specs.Prelude.{◌++◌, ◌≡◌, ◌+◌, ◌<◌};
ghost use Rattle.replay_lines.specs.Text.{puts};
ghost use Rattle.replay_slots.specs.Shown.{slice_text};

use crate::case::{Case, HELD_ROOM, between};
use crate::slots::fill;
use replay_lines::output::Sink;
use replay_lines::slices::column as show_column;

pub type Held = [u16; HELD_ROOM];

// Slice k of those that may change, filled with what the case has.
pub fn lend<'a, T: Copy>(case: Case, cells: &[T], k: usize, array: &'a mut [T]) -> &'a mut [T] {
    let to = fill(case, cells, k, array);
    &mut array[..to]
}

// Slice k at return.
pub fn show(case: Case, k: usize, array: &Held, out: &mut Sink, used: usize) -> usize
    ensures { (result, out.new.bytes) ≡ puts (slice_text case k array.now) (used, out.old.bytes) }
{
    show_column(between(array, 0, case.length(k)), case.short, out, used)
}

// Slice k and the two after it, at return.
pub fn show_three(
    case: Case,
    k: usize,
    a: &Held,
    b: &Held,
    c: &Held,
    out: &mut Sink,
    used: usize,
) -> usize
    requires { k < 14 }
    ensures { let text = slice_text case k a.now ++ (slice_text case (k + 1) b.now ++ slice_text case (k + 2) c.now) in
        (result, out.new.bytes) ≡ puts text (used, out.old.bytes) }
{
    let after_a = show(case, k, a, out, used);
    let after_b = show(case, k + 1, b, out, after_a);
    show(case, k + 2, c, out, after_b)
}

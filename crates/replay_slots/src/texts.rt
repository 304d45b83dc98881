// The bytes that a call changes and holds for itself, in an array, at return.
ghost use Rattle.std.specs.Prelude.{◌≡◌};
ghost use Rattle.replay_lines.specs.Text.{puts};
ghost use Rattle.replay_slots.specs.Shown.{slice_text};

use crate::case::{Case, between};
use crate::slots::Text;
use replay_lines::output::Sink;
use replay_lines::slices::bytes as show_bytes;

// The bytes at return: slice 0 of those that may change.
pub fn show(case: Case, array: &Text, out: &mut Sink, used: usize) -> usize
    ensures { (result, out.new.bytes) ≡ puts (slice_text case 0 array.now) (used, out.old.bytes) }
{
    show_bytes(between(array, 0, case.length(0)), case.short, out, used)
}

// A row of pointers, one for each processor of a cyclic template: where its words go on in the
// storage. No place is above 2^31, and a row of 32 bits leaves more of the nearest cache to the
// words.
ghost use Rattle.std.specs.Prelude.{◌≤◌, length};
ghost use Rattle.model.specs.Sized.{Sized};
ghost use Rattle.storage.specs.Copying.{StartsIn};

use mapping::dealing::held_below;
use model::{Index, Layout};

// Each pointer at the start of its processor's words.
pub fn set_starts(l: Layout, row: &mut [u32])
    requires sized { Sized l }
    requires processors_in_bounds { l.processors ≤ length row.old }
    ensures { StartsIn l l.processors row.old row.new }
{
    let mut start: usize = 0;
    // Not `iter_mut`: after it a proof knows the row's length and no pointer.
    for q in 0..l.processors {
        row[q as usize] = start as u32;
        start += held_below(l, q, Index(l.size)) as usize;
    }
}

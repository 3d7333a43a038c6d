// How many elements of an accepted section a processor owns: counted in the section as an
// array of its own, from its lowest cell on.
ghost use Rattle.std.specs.Prelude.{◌≡◌, ◌<◌};
ghost use Rattle.numbers.specs.Search.{tally};
ghost use Rattle.section.specs.Strides.{Bounded, owned_at};
ghost use Rattle.section.specs.Elements.{lowest, line_of};

use crate::positions::cell_at;
use crate::questions::Strided;
use crate::strides::spread_of;
use mapping::dealing::held_below;
use model::{Index, Layout, Position};

// The position of the lowest cell.
fn lowest_in(w: Strided) -> Position
    requires { 0 < w.count }
    ensures { result.0 ≡ lowest w }
{
    if w.upward {
        return Position(0);
    }
    Position(w.count - 1)
}

// The section as an array.
fn line_of(w: Strided) -> Layout
    requires { Bounded w × (0 < w.count) }
    ensures { result ≡ line_of w }
{
    Layout {
        stride: spread_of(w),
        offset: cell_at(w, lowest_in(w)).0,
        size: w.count,
        ..w.layout
    }
}

pub fn elements_of(w: Strided, q: u64) -> u64
    requires { Bounded w × (q < w.layout.processors) }
    ensures { result ≡ tally (owned_at w q) w.count }
{
    if w.count == 0 {
        return 0;
    }
    held_below(line_of(w), q, Index(w.count))
}

// Numbers of an accepted section that its steps and its places are worked out from.
ghost use Rattle.std.specs.Prelude.{◌≡◌, ◌*◌};
ghost use Rattle.model.specs.Ownership.{course_cells};
ghost use Rattle.model.specs.Sized.{Sized};
ghost use Rattle.section.specs.Strides.{Bounded};

use crate::questions::Strided;
use model::Layout;

// The cells of a course.
pub fn course_cells(l: Layout) -> u64
    requires { Sized l }
    ensures { result ≡ course_cells l }
{
    l.processors * l.block
}

// How many cells lie from one element to the next.
pub fn spread_of(w: Strided) -> u64
    requires { Bounded w }
    ensures { result ≡ w.layout.stride * w.stride }
{
    w.layout.stride * w.stride
}

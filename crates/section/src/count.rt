// A triplet's count and its elements, on signed numbers in range.
ghost use Rattle.std.specs.Prelude.{◌≡◌, true, ◌≤◌, pos, nat_abs, ◌+ℤ◌, ◌*ℤ◌};
ghost use Rattle.model.specs.Questions.{in_range};
ghost use Rattle.model.specs.Sections.{count_of};
ghost use Rattle.model.specs.Cases.{case_of};

use model::{Case, Declared, Position, Triplet};

// Which case l:h:s is. The distance that is tested is the one that is divided.
fn case_of(x: Triplet) -> Case
    requires { in_range x ≡ true }
    ensures { result ≡ case_of x }
{
    let up = x.upper - x.lower;
    let rises = 0 <= up;
    if 0 < x.stride && rises {
        return Case::Forward {
            distance: up.unsigned_abs(),
            stride: x.stride.unsigned_abs(),
        };
    }
    let down = x.lower - x.upper;
    let falls = 0 <= down;
    if x.stride < 0 && falls {
        return Case::Backward {
            distance: down.unsigned_abs(),
            stride: x.stride.unsigned_abs(),
        };
    }
    Case::Empty
}

// How many elements l:h:s has: l itself, and one for each stride within the distance.
pub fn count_of(x: Triplet) -> u64
    requires { in_range x ≡ true }
    ensures { result ≡ count_of x }
{
    match case_of(x) {
        Case::Forward { distance, stride } | Case::Backward { distance, stride } => {
            distance / stride + 1
        }
        Case::Empty => 0,
    }
}

// The element at position t.
pub fn element_at(l: Declared, s: i64, t: Position) -> Declared
    requires { (nat_abs l.0 ≤ 2147483647) × (nat_abs s ≤ 2147483647) × (t.0 ≤ 4294967295) }
    ensures result_value { result.0 ≡ l.0 +ℤ pos t.0 *ℤ s }
    ensures result_bound { nat_abs result.0 ≤ 9223372034707292160 }
{
    Declared(l.0 + (t.0 as i64) * s)
}

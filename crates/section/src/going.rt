// Going on from a position of an accepted section to the next one that the same processor
// owns, by the steps of the section: the tries of document 01, one after the other.
ghost use Rattle.std.specs.Prelude.{◌≡◌, ◌<◌, ◌≤◌};
ghost use Rattle.model.specs.Steps.{fits, try_both};
ghost use Rattle.section.specs.Strides.{steps_in};
ghost use Rattle.section.specs.Going.{Held, Tried, on_from, next_in};

use crate::positions::cell_at;
use crate::questions::Strided;
use crate::strides::spread_of;
use model::{Position, Step, Steps};

// Does a move of y columns, up or down, stay in a block of k from column q?
fn fits_in(up: bool, k: u64, q: u64, y: u64) -> bool
    requires { (q < k) × (k ≤ 65536) × (y ≤ 65536) }
    ensures { result ≡ fits up k q y }
{
    if up {
        return q + y <= k - 1;
    }
    y <= q
}

// How many cells to go on from column q: by the processor step if it fits, else by the
// return step if it fits, else by their sum.
fn cells_on(up: bool, k: u64, q: u64, r: Step, b: Step) -> u64
    requires { Tried k q r b }
    ensures { result ≡ (try_both up k q r b).cells }
{
    if fits_in(up, k, q, r.column) {
        return r.cells;
    }
    if fits_in(!up, k, q, b.column) {
        return b.cells;
    }
    r.cells + b.cells
}

// The position n cells on, or the count where the section has ended before.
fn moved_on(w: Strided, t: Position, n: u64) -> Position
    requires { Held w t.0 }
    ensures { result.0 ≡ on_from w t.0 n }
{
    let on = n / spread_of(w);
    Position(t.0 + on.min(w.count - t.0))
}

// The next place after position t.
pub fn next_place(w: Strided, steps: Steps, t: Position) -> Position
    requires { Held w t.0 × (steps ≡ steps_in w) }
    ensures { result.0 ≡ next_in w t.0 }
{
    let k = w.layout.block;
    match steps {
        Steps::NoStep => Position(w.count),
        Steps::OneStep(x) => moved_on(w, t, x.cells),
        Steps::TwoSteps(r, b) => {
            moved_on(w, t, cells_on(w.upward, k, cell_at(w, t).0 % k, r, b))
        }
    }
}

// How a fill of an accepted section moves: by constant moves where the same number is added
// to the address along each step, else by moves that are learnt.
ghost use Rattle.std.specs.Prelude.{◌≡◌, ℕ, ◌*◌, ◌<◌};
ghost use Rattle.model.specs.Ownership.{owner_of, held};
ghost use Rattle.section.specs.Strides.{Bounded, steps_in};
ghost use Rattle.fill.specs.SectionMoves.{onward, moves_by, line_moves};
ghost use Rattle.fill.specs.Starting.{Taken, Planned};

use mapping::dealing::held_below;
use model::{Index, Step, Steps};
use section::questions::Strided;
use section::steps::steps_of;
use section::strides::spread_of;
use walk::moves::{self, Moves};

// What is added to an address to go d on.
pub(crate) fn onward_by(up: bool, d: u64) -> u64
    ensures { result ≡ onward up d }
{
    let rest = d % moves::ADDRESSES;
    if up {
        return rest;
    }
    (moves::ADDRESSES - rest) % moves::ADDRESSES
}

// The moves by the steps of a section with blocks of k cells and so many cells between two
// elements, and what is added along each step.
fn moves_by(k: u64, spread: u64, steps: Steps, near: u64, far: u64, both: u64) -> Moves
    requires { 0 < spread }
    ensures { result ≡ moves_by k spread steps near far both }
{
    let none = Moves {
        block: k,
        up: 0,
        down: 0,
        first: 1,
        second: 0,
        near,
        far,
        both,
    };
    match steps {
        Steps::NoStep => none,
        Steps::OneStep(a) => Moves {
            first: a.cells / spread,
            ..none
        },
        Steps::TwoSteps(r, w) => Moves {
            up: r.column,
            down: w.column,
            first: r.cells / spread,
            second: w.cells / spread,
            ..none
        },
    }
}

// How many elements processor q has in n positions of the section, if it has so many.
fn period(w: Strided, q: u64, n: u64) -> u64
    requires { Bounded w × (q < w.layout.processors) }
    ensures { n < w.count → result ≡ held (owner_of w.layout) (n * w.stride) q }
{
    if w.count <= n {
        return 0;
    }
    held_below(w.layout, q, Index(n * w.stride))
}

// With stride 1 an address moves by k for each course, and by the columns.
fn line_moves(w: Strided, r: Step, b: Step) -> Moves
    requires { Taken w × (steps_in w ≡ Steps.TwoSteps r b) }
    ensures { result ≡ line_moves w.upward w.layout.block (w.layout.stride * w.stride) r b }
{
    let k = w.layout.block;
    let up = w.upward;
    let near = r.courses * k + r.column;
    let far = b.courses * k - b.column;
    let steps = Steps::TwoSteps(r, b);
    moves_by(
        k,
        spread_of(w),
        steps,
        onward_by(up, near),
        onward_by(up, far),
        onward_by(up, near + far),
    )
}

// Moves that are constant, or that are learnt. An enum, since a function may hand out no function value.
#[derive(Clone, Copy)]
pub enum Plan {
    Constant(Moves),
    Learnt(Moves),
}

// The same number is added along each step, or it does not matter what is.
fn same_plan(w: Strided, steps: Steps, add: u64) -> Plan
    requires { Taken w × (steps_in w ≡ steps) }
    ensures { result ≡ Plan.Constant (moves_by w.layout.block (w.layout.stride * w.stride) steps add add add) }
{
    let k = w.layout.block;
    Plan::Constant(moves_by(k, spread_of(w), steps, add, add, add))
}

// One step goes on by the processor's elements in a period.
fn one_plan(w: Strided, q: u64, a: Step) -> Plan
    requires { Taken w × (q < w.layout.processors) × (steps_in w ≡ Steps.OneStep a) }
    ensures { Planned w q result }
{
    let add = onward_by(w.upward, period(w, q, a.cells / spread_of(w)));
    same_plan(w, Steps::OneStep(a), add)
}

// Two steps: of an array with stride 1 the moves are constant.
fn two_plan(w: Strided, r: Step, b: Step) -> Plan
    requires { Taken w × (steps_in w ≡ Steps.TwoSteps r b) }
    ensures { (q : ℕ) → Planned w q result }
{
    if w.layout.stride == 1 {
        return Plan::Constant(line_moves(w, r, b));
    }
    let k = w.layout.block;
    let steps = Steps::TwoSteps(r, b);
    Plan::Learnt(moves_by(k, spread_of(w), steps, 0, 0, 0))
}

// The plan for processor q's elements of a section. With section stride 1 the next element
// of the processor has the next address.
pub(crate) fn plan_of(w: Strided, q: u64) -> Plan
    requires { Taken w × (q < w.layout.processors) }
    ensures { Planned w q result }
{
    let steps = steps_of(w);
    if w.stride == 1 {
        return same_plan(w, steps, onward_by(w.upward, 1));
    }
    match steps {
        Steps::NoStep => same_plan(w, Steps::NoStep, 0),
        Steps::OneStep(a) => one_plan(w, q, a),
        Steps::TwoSteps(r, b) => two_plan(w, r, b),
    }
}

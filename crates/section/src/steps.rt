// The steps of an accepted section: the processor step and the return step by a loop over
// multiples of the spread, or the one step where the divisor reaches the block.
ghost use Rattle.std.specs.Prelude.{◌≡◌, ◌+◌, ◌*◌, ◌<◌, ◌≤◌, []};
ghost use Rattle.numbers.specs.Gcd.{gcd};
ghost use Rattle.model.specs.Steps.{processor_step, return_step, one_step, run_steps};
ghost use Rattle.section.specs.Strides.{Bounded, steps_in};
ghost use Rattle.model.specs.Mappings.{dealing_with};
ghost use Rattle.section.specs.Shares.{steps_for};
ghost use Rattle.section.specs.Falls.{MayFall, Fallen, Searched};

use crate::questions::Strided;
use crate::strides::{course_cells, spread_of};
use model::{Dealing, Step, Steps};
use numbers::gcd;

// A multiple of the spread: how often it is taken, its courses, and how many cells it has
// above them, or lacks to them.
#[derive(Clone, Copy)]
pub struct Side {
    pub count: u64,
    pub courses: u64,
    pub left: u64,
}

// How often y is taken from x, until what is left is below k or no more than y.
fn turns(x: u64, y: u64, k: u64) -> u64
    requires { (0 < y) × (y < x) × (k ≤ x) × (x ≤ 67108864) }
    ensures { (0 < result) × (result * y < x) × (k + result * y ≤ x + y) }
{
    if k <= y {
        return (x - (y + 1)) / y + 1;
    }
    (x - k) / y + 1
}

// The multiple x with y added so often.
fn fall(x: Side, y: Side, k: u64) -> Side
    requires { MayFall x y k }
    ensures { Fallen x y k result }
{
    let j = turns(x.left, y.left, k);
    Side {
        count: x.count + j * y.count,
        courses: x.courses + j * y.courses,
        left: x.left - j * y.left,
    }
}

// The processor step and the return step.
#[derive(Clone, Copy)]
pub struct Pair {
    pub processor: Step,
    pub back: Step,
}

// Both steps: a is above its courses, b below, no smaller multiple comes nearer, and each
// turn the one that is further away falls by the other.
// A 'loop' that yields by 'break', and no 'for': how many turns it takes is not known ahead.
fn two_steps(s: u64, m: u64, k: u64) -> Pair
    requires { Searched s m k }
    ensures { (result.processor ≡ processor_step m k s) × (result.back ≡ return_step m k s) }
{
    let mut a = Side {
        count: 1,
        courses: (s - 1) / m,
        left: (s - 1) % m + 1,
    };
    let mut b = Side {
        count: 0,
        courses: 1,
        left: m,
    };
    loop {
        if a.left < k && b.left < k {
            break Pair {
                processor: Step {
                    cells: a.count * s,
                    courses: a.courses,
                    column: a.left,
                },
                back: Step {
                    cells: b.count * s,
                    courses: b.courses,
                    column: b.left,
                },
            };
        }
        if a.left < b.left {
            b = fall(b, a, k);
        } else {
            a = fall(a, b, k);
        }
    }
}

// The one step, where d is the divisor of s and m.
fn one_step(s: u64, m: u64, d: u64) -> Step
    requires { (d ≡ gcd s m) × (0 < d) × (s < 2147483648) × (m ≤ 67108864) }
    ensures { result ≡ one_step m s }
{
    Step {
        cells: m * s / d,
        courses: s / d,
        column: 0,
    }
}

// The steps of a section of a cyclic template: none for no or one element.
pub fn steps_of(w: Strided) -> Steps
    requires { Bounded w }
    ensures { result ≡ steps_in w }
{
    if w.count < 2 {
        return Steps::NoStep;
    }
    let l = w.layout;
    let k = l.block;
    let m = course_cells(l);
    let s = spread_of(w);
    let d = gcd(s, m);
    if k <= d {
        return Steps::OneStep(one_step(s, m, d));
    }
    let pair = two_steps(s, m, k);
    Steps::TwoSteps(pair.processor, pair.back)
}

// And of a GEN_BLOCK template: one section stride, within one course.
fn run_steps(w: Strided) -> Steps
    requires { Bounded w }
    ensures { result ≡ run_steps w.count (w.layout.stride * w.stride) }
{
    if w.count < 2 {
        return Steps::NoStep;
    }
    let s = spread_of(w);
    Steps::OneStep(Step {
        cells: s,
        courses: 0,
        column: s,
    })
}

// The steps of a section, by the dealing.
pub fn steps_by(w: Strided, d: Dealing) -> Steps
    requires { Bounded w }
    ensures { result ≡ steps_for w (dealing_with d []) }
{
    match d {
        Dealing::Cyclic(_) => steps_of(w),
        Dealing::GenBlock => run_steps(w),
    }
}

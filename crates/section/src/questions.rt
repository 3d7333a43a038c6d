// Questions 6 and 7, on whatever numbers a caller passes, after those about the mapping;
// and the section that passes them, on natural numbers.
ghost use Rattle.std.specs.Prelude.{◌≡◌, ◌≤◌, pos, nat_abs, ◌-ℤ◌};
ghost use Rattle.model.specs.Mappings.{section_with};
ghost use Rattle.model.specs.Questions.{is_below, in_range};
ghost use Rattle.model.specs.Refusals.{by_number};
ghost use Rattle.section.specs.Strides.{ends_in};
ghost use Rattle.section.specs.Answers.{asked_of, asked_in, Sound};

use crate::count::{count_of, element_at};
use mapping::questions::{Mapped, ask_mapping, is_below, list_fits, natural, within};
use model::{Declared, Index, Layout, MOST, Position, Refusal, Section, Triplet};

// Question 6.
fn in_range(x: Triplet) -> bool
    ensures { result ≡ in_range x }
{
    within(-MOST, MOST, x.lower)
        && within(-MOST, MOST, x.upper)
        && within(-MOST, MOST, x.stride)
        && x.stride != 0
}

// Is j an index of an array of n elements, of which lower is the first?
fn is_index(n: u64, lower: i64, j: Declared) -> bool
    requires { (nat_abs lower ≤ 2147483647) × (nat_abs j.0 ≤ 9223372034707292160) }
    ensures { result ≡ is_below (pos n) (j.0 -ℤ lower) }
{
    is_below(j.0 - lower, n)
}

// Question 7, of such an array and a section of c elements, from l on. An empty one has no ends.
fn ends_in(n: u64, lower: i64, l: Declared, s: i64, c: u64) -> bool
    requires { (nat_abs lower ≤ 2147483647) × (nat_abs l.0 ≤ 2147483647) × (nat_abs s ≤ 2147483647) × (c ≤ 4294967295) }
    ensures { result ≡ ends_in n lower l.0 s c }
{
    if c == 0 {
        return true;
    }
    if !is_index(n, lower, l) {
        return false;
    }
    is_index(n, lower, element_at(l, s, Position(c - 1)))
}

// A section that passed its questions: its count, the index from 0 of its first element, the
// size of s, and whether the section goes up. No methods: what follows from it are functions of the
// other modules, which crates above name.
// No ghost field says that it is in range (`Bounded`): `strided_of` makes one of any section.
#[derive(Clone, Copy)]
pub struct Strided {
    pub layout: Layout,
    pub count: u64,
    pub first: Index,
    pub stride: u64,
    pub upward: bool,
}

// Questions 6 and 7, of an array whose mapping passed, and the section that passes them.
fn triplet_asked(array: Mapped, x: Triplet) -> Result<Strided, Refusal>
    requires { nat_abs array.lower ≤ 2147483647 }
    ensures { by_number result ≡ asked_in array.layout array.lower x }
{
    if !in_range(x) {
        return Err(Refusal::Triplet);
    }
    let l = array.layout;
    let c = count_of(x);
    if !ends_in(l.size, array.lower, Declared(x.lower), x.stride, c) {
        return Err(Refusal::Ends);
    }
    Ok(Strided {
        layout: l,
        count: c,
        first: Index(natural(x.lower - array.lower)),
        stride: x.stride.unsigned_abs(),
        upward: 0 <= x.stride,
    })
}

// Questions 1 to 7, 15 and 16, and the section that passes them.
pub fn ask_section(x: Section, sizes: &[u8]) -> Result<Strided, Refusal>
    ensures value { by_number result ≡ asked_of (section_with x sizes.now) }
    ensures sound { Sound (by_number result) }
{
    let m = x.mapping;
    let listed = list_fits(m, sizes);
    let array = ask_mapping(m, sizes, listed)?;
    triplet_asked(array, x.triplet)
}

// Question 8.
pub fn is_processor(l: Layout, processor: i64) -> bool
    ensures { result ≡ is_below (pos l.processors) processor }
{
    is_below(processor, l.processors)
}

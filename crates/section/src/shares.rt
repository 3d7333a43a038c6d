// A processor's share of an accepted section, by its part of the template: in blocks its positions
// are found by the steps, in a run they follow one another. First place, next place, owned, address
// and how many go by that here, and nowhere above.
ghost use Rattle.std.specs.Prelude.{◌≡◌, true, ◌-◌, ◌^◌, ◌≤◌, ◌<◌, pos};
ghost use Rattle.model.specs.Mappings.{dealing_with};
ghost use Rattle.model.specs.Ownership.{nat};
ghost use Rattle.model.specs.Questions.{is_below};
ghost use Rattle.mapping.specs.Parts.{part_in, Listed, Low};
ghost use Rattle.section.specs.Strides.{Bounded};
ghost use Rattle.section.specs.Shares.{positions_to, span_in, extent_in, share_in, owned_in, first_in, after_in, off_base, LeadOn, owned_by, address_by, place_by, next_by, held_by};
ghost use Rattle.section.specs.Shares.{Fitted, Shared, Based, BasedBy};

use crate::elements::elements_of;
use crate::going::next_place;
use crate::place::place_of;
use crate::positions::{address_at, cell_at, index_at, owned_at};
use crate::questions::Strided;
use crate::strides::spread_of;
use mapping::parts::{Part, index_from, part_of};
use mapping::questions::natural;
use mapping::runs::Run;
use model::{Address, Cell, Dealing, Index, Position, Steps};
use numbers::multiples_below;

// The positions of a run, those from low to high - 1, and the index of the processor's first element
// of the array.
#[derive(Clone, Copy)]
pub struct Span {
    pub low: Position,
    pub high: Position,
    pub base: Index,
}

impl Span {
    fn has(self, t: Position) -> bool
        ensures { result ≡ owned_in self t.0 }
    {
        self.low.0 <= t.0 && t.0 < self.high.0
    }

    // Its first position in a section of so many, or the count if there is none.
    fn first(self, count: u64) -> Position
        ensures { result.0 ≡ first_in self count }
    {
        if self.low.0 < self.high.0 {
            return self.low;
        }
        Position(count)
    }

    // Its position after t, or the count if t is the last.
    fn after(self, t: Position, count: u64) -> Position
        requires { t.0 < 4294967296 }
        ensures { result.0 ≡ after_in self count t.0 }
    {
        if t.0 + 1 < self.high.0 {
            return Position(t.0 + 1);
        }
        Position(count)
    }
}

// Not an 'Option': blocks are positions as much as a run is, and the names say which.
#[derive(Clone, Copy)]
pub enum Extent {
    Blocks,
    Run(Span),
}

// No ghost field says that it is of a processor of the section (`Fitted`): `share_in` makes one of any number.
#[derive(Clone, Copy)]
pub struct Share {
    pub section: Strided,
    pub processor: u64,
    pub extent: Extent,
}

// How many positions come before cell c: going up those on cells below it, going down those on cells
// not below it.
fn positions_to(w: Strided, c: Cell) -> Position
    requires { Bounded w × (c.0 ≤ 2 ^ 42) }
    ensures { result.0 ≡ positions_to w c.0 }
{
    if w.count == 0 {
        return Position(0);
    }
    let first = cell_at(w, Position(0)).0;
    let distance = if w.upward {
        c.0.saturating_sub(first)
    } else {
        (first + 1).saturating_sub(c.0)
    };
    Position(multiples_below(spread_of(w), w.count, distance))
}

// The positions on the cells of a run.
fn span_of(w: Strided, r: Run) -> Span
    requires { Bounded w × Low (Part.Run r) }
    ensures { result ≡ span_in w r }
{
    let base = index_from(w.layout, r.start);
    let start = positions_to(w, r.start);
    let end = positions_to(w, r.end);
    if w.upward {
        Span {
            low: start,
            high: end,
            base,
        }
    } else {
        Span {
            low: end,
            high: start,
            base,
        }
    }
}

fn extent_of(w: Strided, part: Part) -> Extent
    requires { Bounded w × Low part }
    ensures { result ≡ extent_in w part }
{
    match part {
        Part::Blocks => Extent::Blocks,
        Part::Run(r) => Extent::Run(span_of(w, r)),
    }
}

// The share of a processor that passed question 8.
pub fn share_of(w: Strided, d: Dealing, sizes: &[u8], processor: i64) -> Share
    requires { Bounded w × Listed w.layout (dealing_with d sizes.now) × (is_below (pos w.layout.processors) processor ≡ true) }
    ensures { result ≡ share_in w (nat processor) (part_in (dealing_with d sizes.now) (nat processor)) }
{
    let l = w.layout;
    let q = natural(processor);
    let part = part_of(l, d, sizes, q);
    Share {
        section: w,
        processor: q,
        extent: extent_of(w, part),
    }
}

// Does the processor own the element at position t?
pub fn owns_at(s: Share, t: Position) -> bool
    requires { Shared s t.0 }
    ensures { result ≡ owned_by s t.0 }
{
    let w = s.section;
    match s.extent {
        Extent::Blocks => owned_at(w, s.processor, t),
        Extent::Run(r) => r.has(t),
    }
}

// The first place, or the count if there is none.
pub fn first_of(s: Share) -> Position
    requires { Fitted s }
    ensures { result.0 ≡ place_by s }
{
    let w = s.section;
    match s.extent {
        Extent::Blocks => place_of(w, s.processor),
        Extent::Run(r) => r.first(w.count),
    }
}

// The next place after position t, by the section's steps where there are blocks.
pub fn next_of(s: Share, steps: Steps, t: Position) -> Position
    requires { Shared s t.0 × LeadOn s.section s.extent steps }
    ensures { result.0 ≡ next_by s t.0 }
{
    let w = s.section;
    match s.extent {
        Extent::Blocks => next_place(w, steps, t),
        Extent::Run(r) => r.after(t, w.count),
    }
}

fn address_in(w: Strided, r: Span, t: Position) -> Address
    requires { Based w r t.0 }
    ensures { result.0 ≡ off_base w r t.0 }
{
    Address(index_at(w, t).0 - r.base.0)
}

// The local address of the element at position t, which the processor owns.
pub fn address_of(s: Share, t: Position) -> Address
    requires { Shared s t.0 × BasedBy s t.0 }
    ensures { result.0 ≡ address_by s t.0 }
{
    let w = s.section;
    match s.extent {
        Extent::Blocks => address_at(w, t),
        Extent::Run(r) => address_in(w, r, t),
    }
}

// How many elements of the section the processor has.
pub fn elements_in(s: Share) -> u64
    requires { Fitted s }
    ensures { result ≡ held_by s }
{
    let w = s.section;
    match s.extent {
        Extent::Blocks => elements_of(w, s.processor),
        Extent::Run(r) => r.high.0.saturating_sub(r.low.0),
    }
}

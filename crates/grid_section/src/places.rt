// A grid processor's share of an accepted section: its coordinates' shares of each dimension, its first
// place, and which positions it owns.
ghost use Rattle.std.specs.Prelude.{◌≡◌, ◌<◌, pos};
ghost use Rattle.model.specs.Mappings.{dealing_with};
ghost use Rattle.model.specs.Questions.{is_below};
ghost use Rattle.model.specs.Calls.{ToldApart};
ghost use Rattle.model.specs.Refusals.{refusals};
ghost use Rattle.mapping.specs.Parts.{Listed};
ghost use Rattle.section.specs.Strides.{Bounded};
ghost use Rattle.section.specs.Answers.{placed_as};
ghost use Rattle.grid_section.specs.Lines.{processors_on, Limited, AllListed};
ghost use Rattle.grid_section.specs.Shares.{share_on, shares_on, positions_in, first_by, owned_on, is_place_by, AllFitted};
ghost use Rattle.grid_section.specs.Answers.{first_place_on};

use crate::lines::{Line, Lines, product_of};
use mapping::questions::{is_below, natural};
use model::{Position, Refusal, Three};
use section::shares::{Share, first_of, owns_at, share_of};

// The shares of a grid processor's coordinates.
pub type Shares = Three<Share>;

fn line_share(x: Line, sizes: &[u8], processor: u64) -> Share
    requires { Bounded x.section × Listed x.section.layout (dealing_with x.dealing sizes.now) × (processor < x.section.layout.processors) }
    ensures { result ≡ share_on x sizes.now processor }
{
    share_of(x.section, x.dealing, sizes, processor as i64)
}

// The shares of a processor that passed question 8. The first dimension's coordinate runs fastest.
pub fn shares_of(x: Lines, sizes: Three<&[u8]>, processor: u64) -> Shares
    requires { Limited x × AllListed x sizes.first.now sizes.second.now sizes.third.now × (processor < processors_on x) }
    ensures { result ≡ shares_on x sizes.entry.first.now sizes.entry.second.now sizes.entry.third.now processor }
{
    let p = x.first.section.layout.processors;
    let q = x.second.section.layout.processors;
    Three {
        first: line_share(x.first, sizes.first, processor % p),
        second: line_share(x.second, sizes.second, processor / p % q),
        third: line_share(x.third, sizes.third, processor / p / q),
    }
}

// Question 8: is it the number of a grid processor?
pub fn is_processor(x: Lines, processor: i64) -> bool
    requires { Limited x }
    ensures { result ≡ is_below (pos (processors_on x)) processor }
{
    let p = x.first.section.layout.processors;
    let q = x.second.section.layout.processors;
    let r = x.third.section.layout.processors;
    is_below(processor, product_of(p, q, r))
}

// The first place, or the count: a dimension of which it owns nothing leaves it no element.
pub fn first_on(s: Shares) -> Position
    requires { AllFitted s }
    ensures { result.0 ≡ first_by s }
{
    let m = s.first.section.count;
    let n = s.second.section.count;
    let o = s.third.section.count;
    let t = first_of(s.first);
    let u = first_of(s.second);
    let v = first_of(s.third);
    if t.0 < m && u.0 < n && v.0 < o {
        return Position(t.0 + m * (u.0 + n * v.0));
    }
    Position(product_of(m, n, o))
}

// Does the processor own the element at position t? Its coordinates own its position in each dimension.
fn owns_on(s: Shares, t: Position) -> bool
    requires { AllFitted s × (t.0 < positions_in s) }
    ensures { result ≡ owned_on s t.0 }
{
    let m = s.first.section.count;
    let n = s.second.section.count;
    let row = t.0 / m;
    owns_at(s.first, Position(t.0 % m))
        && owns_at(s.second, Position(row % n))
        && owns_at(s.third, Position(row / n))
}

// Question 10: is the place the count, or a position whose element the processor owns?
pub fn is_place(s: Shares, place: i64) -> bool
    requires { AllFitted s }
    ensures { result ≡ is_place_by s place }
{
    if place < 0 {
        return false;
    }
    let t = natural(place);
    let m = s.first.section.count;
    let n = s.second.section.count;
    let o = s.third.section.count;
    let count = product_of(m, n, o);
    t == count || t < count && owns_on(s, Position(t))
}

// Question 8, and the first place of a processor that passes it.
pub fn placed_on(x: Lines, sizes: Three<&[u8]>, processor: i64) -> Result<Position, Refusal>
    requires { Limited x × AllListed x sizes.first.now sizes.second.now sizes.third.now }
    ensures result_value { placed_as result ≡ first_place_on x sizes.entry.first.now sizes.entry.second.now sizes.entry.third.now processor }
    ensures told_apart { ToldApart (refusals result) }
{
    if !is_processor(x, processor) {
        return Err(Refusal::Processor);
    }
    let s = shares_of(x, sizes, natural(processor));
    Ok(first_on(s))
}

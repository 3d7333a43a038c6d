// A processor's first place in an accepted section: in blocks the first multiple of the spread
// that leads from the column of the section's first cell into the processor's block.
ghost use Rattle.std.specs.Prelude.{◌≡◌, ◌+◌, ◌-◌, ◌<◌};
ghost use Rattle.section.specs.Strides.{Bounded, place_in};
ghost use Rattle.section.specs.Places.{first_from, found_below, Block};
ghost use Rattle.model.specs.Mappings.{dealing_with};
ghost use Rattle.mapping.specs.Parts.{Listed};
ghost use Rattle.model.specs.Calls.{ToldApart};
ghost use Rattle.model.specs.Refusals.{refusals};
ghost use Rattle.section.specs.Answers.{placed_as, first_place_in};

use crate::questions::{Strided, is_processor};
use crate::shares::{first_of, share_of};
use crate::strides::{course_cells, spread_of};
use mapping::dealing::cell_of;
use model::{Dealing, Position, Refusal};
use numbers::first_hit;

// The least t at which c + t * s lies in the block of k columns from low on, in courses of
// m columns. The block is seen from c: ahead in the same course or in the next.
fn first_owned(c: u64, s: u64, m: u64, low: u64, k: u64) -> Option<u64>
    requires { Block c s m low k }
    ensures { result ≡ first_from c s m low (low + (k - 1)) }
{
    let high = low + (k - 1);
    if c < low {
        return first_hit(s, m, low - c, high - c);
    }
    if high < c {
        return first_hit(s, m, low + m - c, high + m - c);
    }
    Some(0)
}

// The position found if it is below the count; else the count.
fn found_below(h: Option<u64>, count: u64) -> Position
    ensures { result.0 ≡ found_below count h }
{
    Position(h.unwrap_or(count).min(count))
}

// The lowest position whose element processor q owns, or the count if there is none.
// Downwards the columns of a course are counted from its end.
pub fn place_of(w: Strided, q: u64) -> Position
    requires { Bounded w × (q < w.layout.processors) }
    ensures { result.0 ≡ place_in w q }
{
    if w.count == 0 {
        return Position(0);
    }
    let l = w.layout;
    let k = l.block;
    let m = course_cells(l);
    let c = cell_of(l, w.first).0 % m;
    let s = spread_of(w) % m;
    let low = q * k;
    if w.upward {
        return found_below(first_owned(c, s, m, low, k), w.count);
    }
    let column = m - 1 - c;
    let block = m - (low + k);
    found_below(first_owned(column, s, m, block, k), w.count)
}

// Question 8, and the first place of a processor that passes it.
pub fn placed_in(w: Strided, d: Dealing, sizes: &[u8], processor: i64) -> Result<Position, Refusal>
    requires { Bounded w × Listed w.layout (dealing_with d sizes.now) }
    ensures result_value { placed_as result ≡ first_place_in w (dealing_with d sizes.now) processor }
    ensures told_apart { ToldApart (refusals result) }
{
    if !is_processor(w.layout, processor) {
        return Err(Refusal::Processor);
    }
    Ok(first_of(share_of(w, d, sizes, processor)))
}

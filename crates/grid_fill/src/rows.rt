// One row of a section of a grid: a fill of the first dimension, each address higher by the row's base;
// and the first place of the row after it.
ghost use Rattle.std.specs.Prelude.{◌≡◌, ◌≤◌, ◌<◌};
ghost use Rattle.fill.specs.Ways.{WayOf};
ghost use Rattle.grid_fill.specs.Steps.{Placed};
ghost use Rattle.grid_fill.specs.Rows.{RowFilled, entering_at};

use crate::entries::put_higher;
use fill::ready::Start;
use fill::ways::{Way, fill_bytes_by};
use grid_section::places::Shares;
use model::{Position, Three};
use section::shares::Share;
use walk::moves::Report;

// The shares of a grid processor's coordinates with the way through each; how many elements of the
// first and of the second dimension it has, which is how far apart its rows and its planes lie; its
// first place in a row, and its first row in a plane.
#[derive(Clone, Copy)]
pub struct RowPlan {
    pub shares: Shares,
    pub ways: Three<Way>,
    pub elements: u64,
    pub rows: u64,
    pub enter: Position,
    pub row: Position,
}

// Where a fill stands: its place in each dimension. With the third's count it is at the end.
pub type Stand = Three<Position>;

// The fill of a row from its place t on, whose addresses lie so much higher than the dimension's.
pub(crate) fn fill_row(
    s: Share,
    way: Way,
    t: Position,
    base: u64,
    quota: u64,
    list: &mut [u8],
) -> Report
    requires placed { Placed s t.0 × WayOf s way }
    requires le_quota { (3 ≤ quota) × (quota ≤ 1000000) × (base < 2147483648) }
    ensures { RowFilled s t.0 base quota list.old list.new result }
{
    let start = Start {
        section: s.section,
        processor: s.processor,
        extent: s.extent,
        place: t,
        quota,
    };
    let r = fill_bytes_by(start, way, list);
    put_higher(list, 0, 0, r.entries, base);
    r
}

// The first place of the row after one: `second` is the row after it in its plane, or the count; then
// it is the first row of plane `next`.
pub(crate) fn entering(p: RowPlan, second: Position, third: Position, next: Position) -> Stand
    ensures { result ≡ entering_at p second.0 third.0 next.0 }
{
    let count = p.shares.second.section.count;
    if second.0 < count {
        return Stand {
            first: p.enter,
            second,
            third,
        };
    }
    Stand {
        first: p.enter,
        second: p.row,
        third: next,
    }
}

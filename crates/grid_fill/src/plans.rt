// The plan of a fill by rows, found once for a call, and where the fill starts.
ghost use Rattle.std.specs.Prelude.{◌≡◌};
ghost use Rattle.model.specs.Grids.{GridSection};
ghost use Rattle.grid_fill.specs.Rows.{PlanOf, Standing, place_of};
ghost use Rattle.grid_fill.specs.Plans.{SourceOf, Sourced, Entered};

use crate::rows::{RowPlan, Stand};
use fill::ways::way_of;
use grid_section::lines::product_of;
use grid_section::places::Shares;
use model::{Position, Three};
use section::shares::first_of;

// The plan for the shares of a grid processor whose first coordinate has so many elements of its
// dimension, and the second so many of the next.
pub(crate) fn plan_of(s: Shares, elements: u64, rows: u64) -> RowPlan
    requires { Sourced s elements rows }
    ensures result_value { result.shares ≡ s }
    ensures plan_of { (x : GridSection) → SourceOf s elements rows x → PlanOf result x }
{
    let enter = first_of(s.first);
    let row = first_of(s.second);
    RowPlan {
        shares: s,
        ways: Three {
            first: way_of(s.first),
            second: way_of(s.second),
            third: way_of(s.third),
        },
        elements,
        rows,
        enter,
        row,
    }
}

// The place in each dimension of a place that passed question 10.
pub(crate) fn stand_at(p: RowPlan, place: Position) -> Stand
    requires { Entered p place.0 }
    ensures { (x : GridSection) → PlanOf p x → Standing x p result × (place_of x result ≡ place.0) }
{
    let m = p.shares.first.section.count;
    let n = p.shares.second.section.count;
    let o = p.shares.third.section.count;
    if place.0 < product_of(m, n, o) {
        let row = place.0 / m;
        let t = place.0 % m;
        let u = row % n;
        let v = row / n;
        return Stand {
            first: Position(t),
            second: Position(u),
            third: Position(v),
        };
    }
    Stand {
        first: p.enter,
        second: p.row,
        third: Position(o),
    }
}

// A move that is learnt from one column serves every column of its class: the same step is
// taken from them, and they have the same rest by the period.
ghost use Rattle.std.specs.Prelude.{◌≤◌, ◌<◌, length};
ghost use Rattle.walk.specs.Moving.{Small};
ghost use Rattle.walk.specs.Learning.{Placed, Entered};
ghost use Rattle.walk.specs.Spreading.{OneStep, EnteredFrom};

use crate::learning::Elements;
use crate::moves::Moves;

// Columns that follow one another: the first, and the end.
#[derive(Clone, Copy)]
pub struct Span {
    pub from: u64,
    pub end: u64,
}

// The columns about column q from which the same step is taken as from q.
fn span_at(m: Moves, q: u64) -> Span
    requires { Small m × (q < m.block) }
    ensures { OneStep m q result }
{
    let last = m.block - m.up;
    if q < last {
        return Span { from: 0, end: last };
    }
    if q < m.down {
        return Span {
            from: last,
            end: m.down,
        };
    }
    if last < m.down {
        return Span {
            from: m.down,
            end: m.block,
        };
    }
    Span {
        from: last,
        end: m.block,
    }
}

// A move entered for each column that lies whole periods after the first, before the end.
fn enter_from(columns: &mut [u32], first: usize, end: usize, period: usize, add: u32)
    requires { (0 < period) × (period ≤ 65536) × (end ≤ 65536) × (end ≤ length columns.old) }
    ensures { EnteredFrom first end period add columns.old columns.new }
{
    let mut at = first;
    // Not a `for` by `step_by`: it tests each step for overflow, and a fill that learns took 1.16 times as long.
    while at < end {
        columns[at] = add;
        at += period;
    }
}

// A move from column q entered for the columns of its class.
pub fn enter(e: Elements, m: Moves, count: u64, columns: &mut [u32], q: u64, add: u64)
    requires { Placed e count × Small m × (q < m.block) × (m.block ≤ length columns.old) × (add < 4294967296) }
    ensures { Entered e m q add columns.old columns.new }
{
    let period = e.period();
    let span = span_at(m, q);
    let first = q - (q - span.from) / period * period;
    enter_from(
        columns,
        first as usize,
        span.end as usize,
        period as usize,
        add as u32,
    )
}

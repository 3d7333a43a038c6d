// The fill of a list by rows.
ghost use Rattle.std.specs.Prelude.{◌≡◌};
ghost use Rattle.grid_fill.specs.Turns.{Started, FillsTurns, FillsRows, Lined, place_in};

use crate::rows::{RowPlan, Stand};
use crate::turns::next_turn;
use grid_section::lines::product_of;
use model::{LEAST_TRIES, Position};
use walk::moves::Report;

// The position where a fill stands.
fn place_of(p: RowPlan, at: Stand) -> Position
    requires { Lined p at }
    ensures { result.0 ≡ place_in p at }
{
    let m = p.shares.first.section.count;
    let n = p.shares.second.section.count;
    let o = p.shares.third.section.count;
    if at.third.0 < o {
        return Position(at.first.0 + m * (at.second.0 + n * at.third.0));
    }
    Position(product_of(m, n, o))
}

// What a fill came to: where it stands, its entries and its tries.
#[derive(Clone, Copy)]
pub struct Ended {
    pub stand: Stand,
    pub entries: usize,
    pub tries: u64,
}

// One turn after another, each from where the one before it came to.
fn fill_turns(p: RowPlan, start: Stand, quota: u64, list: &mut [u8]) -> Ended
    requires { Started p start quota }
    ensures { FillsTurns p start quota list.old list.new result }
{
    let room = list.len() / 4;
    let count = p.shares.third.section.count;
    let mut at = start;
    let mut whole = None;
    let mut paid: u64 = 0;
    let mut n: usize = 0;
    // Not a 'for': a turn says how many entries it wrote.
    while n < room {
        if count <= at.third.0 {
            break;
        }
        if quota - paid < LEAST_TRIES {
            break;
        }
        let t = next_turn(p, at, whole, quota - paid, list, n);
        at = t.stand;
        whole = t.whole;
        paid += t.tries;
        n += t.entries;
    }
    Ended {
        stand: at,
        entries: n,
        tries: paid,
    }
}

// The fill of a list.
pub(crate) fn fill_rows(p: RowPlan, start: Stand, quota: u64, list: &mut [u8]) -> Report
    requires { Started p start quota }
    ensures { FillsRows p start quota list.old list.new result }
{
    let ended = fill_turns(p, start, quota, list);
    let at = ended.stand;
    Report {
        entries: ended.entries,
        tries: ended.tries,
        place: place_of(p, at),
    }
}

// Fills of long lists. A processor's list repeats: so many entries on, the column is the same again,
// and each address has moved by the same number. So the first period is filled as a short list is,
// whole periods are passed at once, what is left of one is stepped through for its place and its tries
// alone, and all entries after the first period are copies.
ghost use Rattle.std.specs.Prelude.{◌≡◌, true, ◌+◌, ◌/◌, ◌≤◌, ◌<◌, length};
ghost use Rattle.section.specs.Strides.{Bounded};
ghost use Rattle.fill.specs.Starting.{Planned, InBlocks, FillsBlocks};
ghost use Rattle.fill.specs.Long.{moves_in, column_in, Begun, Returned, Passable, Ahead, Passed};

use crate::plan::{Plan, plan_of};
use crate::ready::Start;
use crate::start::{column_of, fill_blocks, fill_planned, state_at, task_of};
use model::{Address, LEAST_TRIES, Position};
use numbers::words::word_at;
use section::positions::{address_at, cell_at};
use section::questions::Strided;
use walk::bytes::fill_bytes;
use walk::copies::copy_periods;
use walk::moves::{self, Moves, Report, State};
use walk::periods::{steps_of_period, steps_until};
use walk::tables::fill_long_learning;

// The entries from which a list is long. Shorter ones do not pay for finding how long a period is.
const LONG: usize = 1000;

// A period: its column, entries, positions and tries, and what it adds to an address.
#[derive(Clone, Copy)]
pub struct Period {
    pub column: u64,
    pub entries: usize,
    pub places: u64,
    pub tries: u64,
    pub add: u64,
}

fn moves_of(plan: Plan) -> Moves
    ensures { result ≡ moves_in plan }
{
    match plan {
        Plan::Constant(m) | Plan::Learnt(m) => m,
    }
}

// The column of the element at a position, counted in walking direction.
fn column_at(w: Strided, t: Position) -> u64
    requires { Bounded w × (t.0 < w.count) }
    ensures { result ≡ column_in w t.0 }
{
    column_of(w, cell_at(w, t))
}

// The fill of a part of a list, by the loop for its plan. Not one function with fill_planned: the two learn by
// loops of other names, one of which is for long lists.
fn fill_part(s: Start, plan: Plan, list: &mut [u8]) -> Report
    requires { InBlocks s × Planned s.section s.processor plan }
    ensures { FillsBlocks s list.old list.new result }
{
    let w = s.section;
    let state = state_at(s);
    match plan {
        Plan::Constant(m) => fill_bytes(m, w.count, s.quota, state, list),
        Plan::Learnt(m) => fill_long_learning(task_of(s, m), state, list),
    }
}

// How many periods may be passed: after them the place is before the count, 3 tries are left, and the
// list has as many entries.
fn periods_ahead(s: Start, p: Period, room: usize) -> u64
    requires entries_nonzero { (0 < p.entries) × (0 < p.places) × (0 < p.tries) }
    requires places_bound { (s.place.0 + p.places < s.section.count) × (p.tries + 3 ≤ s.quota) × (p.entries ≤ room) }
    ensures { Ahead s p room result }
{
    let by_places = (s.section.count - 1 - s.place.0) / p.places;
    let by_tries = (s.quota - LEAST_TRIES) / p.tries;
    by_places.min(by_tries).min((room / p.entries) as u64)
}

// The periods passed, and what is left.
fn pass_periods(s: Start, m: Moves, p: Period, list: &mut [u8]) -> Report
    requires { Passable s m p (length list.old) }
    ensures { Passed s m p list.old list.new result }
{
    let w = s.section;
    let room = list.len() / 4;
    let whole = periods_ahead(s, p, room);
    let n = whole as usize * p.entries;
    let from = State {
        column: p.column,
        address: Address(0),
        place: Position(s.place.0 + whole * p.places),
        paid: whole * p.tries,
    };
    let last = steps_until(m, w.count, s.quota, from, room - n);
    let entries = n + last.turns;
    copy_periods(list, p.entries, entries, p.add);
    let place = last.state.place;
    Report {
        entries,
        tries: last.state.paid,
        place: Position(place.0.min(w.count)),
    }
}

// Has a fill of the first entries come to the end of a period?
fn has_returned(s: Start, column: u64, entries: usize, r: Report) -> bool
    requires { Bounded s.section × (r.place.0 < s.section.count) × (3 ≤ s.quota) }
    ensures { result ≡ true → Returned s column entries r }
{
    r.entries == entries
        && s.place.0 < r.place.0
        && 0 < r.tries
        && r.tries <= s.quota - LEAST_TRIES
        && column_at(s.section, r.place) == column
}

// The fill of a list whose first entries, so many, seem to be a period.
fn fill_periods(s: Start, plan: Plan, column: u64, e: usize, list: &mut [u8]) -> Report
    requires { Begun s plan column × (0 < e) × (e ≤ length list.old / 4) }
    ensures { FillsBlocks s list.old list.new result }
{
    let w = s.section;
    let end = 4 * e;
    let first = fill_part(s, plan, &mut list[..end]);
    let u = first.place;
    if w.count <= u.0 {
        return first;
    }
    if has_returned(s, column, e, first) {
        let start = Address(word_at(list, 0) as u64);
        let add = (address_at(w, u).0 + (moves::ADDRESSES - start.0)) % moves::ADDRESSES;
        let period = Period {
            column,
            entries: e,
            places: u.0 - s.place.0,
            tries: first.tries,
            add,
        };
        return pass_periods(s, moves_of(plan), period, list);
    }
    fill_part(s, plan, list)
}

// The fill of a long list. It is filled as a short one is if it has less than four periods, where copies
// hardly pay, or if the tries may not be enough for the first.
fn fill_long(s: Start, plan: Plan, list: &mut [u8]) -> Report
    requires { InBlocks s × Planned s.section s.processor plan × (s.place.0 < s.section.count) }
    ensures { FillsBlocks s list.old list.new result }
{
    let column = column_at(s.section, s.place);
    let e = steps_of_period(moves_of(plan), column);
    if s.quota < LEAST_TRIES * (e + 1) {
        return fill_part(s, plan, list);
    }
    if list.len() as u64 / 16 < e {
        return fill_part(s, plan, list);
    }
    fill_periods(s, plan, column, e as usize, list)
}

// A fill is long if its list and the rest of its section both are. A row of a grid is lent a long list, and
// is short. Which fills are long is left open, since either way gives the same.
fn is_long(s: Start, room: usize) -> bool
    requires { s.place.0 ≤ s.section.count }
    ensures { result ≡ true → s.place.0 < s.section.count }
{
    LONG <= room && LONG as u64 <= s.section.count - s.place.0
}

// The fill of a list of bytes.
pub(crate) fn fill_list(s: Start, list: &mut [u8]) -> Report
    requires { InBlocks s }
    ensures { FillsBlocks s list.old list.new result }
{
    if is_long(s, list.len() / 4) {
        return fill_long(s, plan_of(s.section, s.processor), list);
    }
    fill_blocks(s, list)
}

// The same by a plan that was found before; apart from the other for the reason that fill_planned is.
pub(crate) fn fill_planned_list(s: Start, plan: Plan, list: &mut [u8]) -> Report
    requires { InBlocks s × Planned s.section s.processor plan }
    ensures { FillsBlocks s list.old list.new result }
{
    if is_long(s, list.len() / 4) {
        return fill_long(s, plan, list);
    }
    fill_planned(s, plan, list)
}

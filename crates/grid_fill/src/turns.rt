// Turns of a fill by rows: one row by a fill of the first dimension, or rows that are copies of one that
// stands whole in the list, each as much higher as it lies.
ghost use Rattle.std.specs.Prelude.{◌≡◌, true, ◌+◌, ◌*◌, ◌/◌, ◌≤◌, ◌<◌, length};
ghost use Rattle.model.specs.Grids.{GridSection};
ghost use Rattle.grid_fill.specs.Steps.{Stepped};
ghost use Rattle.grid_fill.specs.Rows.{PlanOf, Standing, Known, Turned};
ghost use Rattle.grid_fill.specs.Turns.{turn_after, Begun, put_rows, base_at, Copies, Copying, Copied, Going};

use crate::entries::put_higher;
use crate::rows::{RowPlan, Stand, entering, fill_row};
use crate::steps::{Step, addresses_from, step_from};
use model::Address;
use numbers::words::word_at;
use walk::moves::{self, Report};

// A row that stands whole in the list, from the processor's first place to its end: from which entry
// on, its entries, its tries, and how high its addresses lie.
#[derive(Clone, Copy)]
pub struct Whole {
    pub from: usize,
    pub entries: usize,
    pub tries: u64,
    pub base: u64,
}

// What a turn gives: where the fill then stands, a row that is known whole, and what it wrote and paid.
#[derive(Clone, Copy)]
pub struct Turn {
    pub stand: Stand,
    pub whole: Option<Whole>,
    pub entries: usize,
    pub tries: u64,
}

// The most rows that are copied in one turn.
const MOST_ROWS: u64 = 64;

// ---- one row

// The turn that a row's fill makes: at a place of the row it stays there; at its end it goes on to the
// next row, and if it began at the first place the row stands whole.
fn turn_after(p: RowPlan, at: Stand, row: Step, plane: Step, r: Report, n: usize, base: u64) -> Turn
    ensures { result ≡ turn_after p at row.next.0 plane.next.0 r n base }
{
    let place = r.place;
    let part = Turn {
        stand: Stand { first: place, ..at },
        whole: None,
        entries: r.entries,
        tries: r.tries,
    };
    if place.0 < p.shares.first.section.count {
        return part;
    }
    let whole = Whole {
        from: n,
        entries: r.entries,
        tries: r.tries,
        base,
    };
    Turn {
        stand: entering(p, row.next, at.third, plane.next),
        whole: (at.first.0 == p.enter.0).then_some(whole),
        ..part
    }
}

fn row_turn(p: RowPlan, at: Stand, plane: Step, quota: u64, list: &mut [u8], n: usize) -> Turn
    requires { Begun p at (length list.old) quota n × Stepped p.shares.third at.third.0 plane }
    ensures { (x : GridSection) → PlanOf p x → Standing x p at → Turned x p at quota n list.old list.new result }
{
    let row = step_from(p.shares.second, p.ways.second, at.second);
    let base = p.elements * (row.address.0 + p.rows * plane.address.0);
    let from = 4 * n;
    let r = fill_row(
        p.shares.first,
        p.ways.first,
        at.first,
        base,
        quota,
        &mut list[from..],
    );
    turn_after(p, at, row, plane, r, n, base)
}

// ---- copies of a row

// How many rows can be copied, each whole: at a row's first place as many as there is room for, and as
// have their tries, whatever the last entry of each leaves.
fn rows_again(enters: bool, w: Whole, quota: u64, room: usize) -> usize
    requires { 3 ≤ quota }
    ensures { (result ≤ 64) × (result * w.entries ≤ room) × (0 < result → (enters ≡ true) × (0 < w.entries) × (result * w.tries + 2 ≤ quota)) }
{
    if !enters || w.entries == 0 || w.tries == 0 {
        return 0;
    }
    let by_room = MOST_ROWS.min((room / w.entries) as u64);
    by_room.min((quota - 2) / w.tries) as usize
}

// Copies of a row, one after another from entry n on, so many as addresses of rows are given.
fn put_rows(
    elements: u64,
    rows: u64,
    plane: Address,
    addresses: &[u8],
    w: Whole,
    count: usize,
    list: &mut [u8],
    n: usize,
)
    requires { Copies elements rows plane.0 addresses.now w count (length list.old) n }
    ensures { list.new ≡ put_rows (base_at elements rows plane.0 addresses.now) w list.old n count }
{
    for j in 0..count {
        let base = elements * (word_at(addresses, j) as u64 + rows * plane.0);
        let add = (base + (moves::ADDRESSES - w.base)) % moves::ADDRESSES;
        put_higher(list, w.from, n + j * w.entries, w.entries, add);
    }
}

// Copies of a whole row, so many as there is room for in the list of their addresses, from the row on
// in which the fill stands.
fn copy_rows(
    p: RowPlan,
    at: Stand,
    w: Whole,
    plane: Step,
    rows: &mut [u8],
    list: &mut [u8],
    n: usize,
) -> Turn
    requires begun { Begun p at (length list.old) 3 n × Stepped p.shares.third at.third.0 plane }
    requires copying { Copying p at w (length rows.old / 4) (length list.old) n }
    ensures { Copied p at w (length rows.old / 4) n list.old list.new result }
{
    let r = addresses_from(p.shares.second, p.ways.second, at.second, rows);
    put_rows(
        p.elements,
        p.rows,
        plane.address,
        rows,
        w,
        r.entries,
        list,
        n,
    );
    Turn {
        stand: entering(p, r.place, at.third, plane.next),
        whole: Some(w),
        entries: r.entries * w.entries,
        tries: r.entries as u64 * w.tries,
    }
}

fn copy_turn(
    p: RowPlan,
    at: Stand,
    w: Whole,
    plane: Step,
    count: usize,
    list: &mut [u8],
    n: usize,
) -> Turn
    requires begun { Begun p at (length list.old) 3 n × Stepped p.shares.third at.third.0 plane }
    requires copying { Copying p at w count (length list.old) n }
    ensures { Copied p at w count n list.old list.new result }
{
    let mut rows = [0u8; 256];
    let end = 4 * count;
    copy_rows(p, at, w, plane, &mut rows[..end], list, n)
}

// ---- the next turn

// Rows that follow one that is known whole are copied; else it is one row.
pub(crate) fn next_turn(
    p: RowPlan,
    at: Stand,
    whole: Option<Whole>,
    quota: u64,
    list: &mut [u8],
    n: usize,
) -> Turn
    requires { Going p at whole quota n list.old }
    ensures { (x : GridSection) → PlanOf p x → Standing x p at → Known x p list.old n whole → Turned x p at quota n list.old list.new result }
{
    let plane = step_from(p.shares.third, p.ways.third, at.third);
    if let Some(w) = whole {
        let room = list.len() / 4 - n;
        let count = rows_again(at.first.0 == p.enter.0, w, quota, room);
        if 0 < count {
            return copy_turn(p, at, w, plane, count, list, n);
        }
    }
    row_turn(p, at, plane, quota, list, n)
}

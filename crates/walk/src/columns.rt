// Fills of a list of bytes by moves that are learnt, with a table by columns, where 0 stands
// for a move that is not known. What is known is walked in bursts.
ghost use Rattle.std.specs.Prelude.{◌≡◌, ℕ, ◌+◌, ◌/◌, ◌≤◌, ◌<◌, length, get_or};
ghost use Rattle.model.specs.ByteFills.{store_entry};
ghost use Rattle.walk.specs.Moving.{Small, Sound, Roomy};
ghost use Rattle.walk.specs.Bursts.{Bursts, Bursted};
ghost use Rattle.walk.specs.Learning.{Placed, found_add, turn_by, Entered, known_in, Known, Goes, Advances, Begins, FillsBytesEven};

use crate::bytes::put_entry;
use crate::learning::Task;
use crate::moves::{Made, Moves, Report, State};
use crate::spread;

// At most so many turns by what is known, from entry `from` on, that end where the count is
// reached or a column is not known. Not one with `bytes::burst`: a closure for the next state, or
// none, would have to carry what both say of their steps.
fn known_turns(
    m: Moves,
    count: u64,
    columns: &[u32],
    start: State,
    list: &mut [u8],
    from: usize,
    turns: usize,
) -> Made
    requires { Bursts m count start turns × Known count columns.now start × (m.block ≤ length columns.now)
        × (from + turns ≤ length list.old / 4) }
    ensures { Bursted store_entry m (known_in columns.now) (Known count columns.now)
        start from turns list.old list.new result }
{
    let mut s = start;
    let mut i: usize = 0;
    // Not a `for`: a loop that returns from inside took 1.5 times as long.
    while i < turns {
        if count <= s.place.0 {
            break;
        }
        let add = columns[s.column as usize] as u64;
        if add == 0 {
            break;
        }
        put_entry(list, from + i, s.address.0 as u32);
        s = m.step(s).moved_on(s.address, add);
        i += 1;
    }
    Made { state: s, turns: i }
}

// A turn from a column that is not known.
fn turn(f: Task, columns: &mut [u32], s: State) -> State
    requires { Placed f.elements f.count × Small f.moves × Sound f.moves s × Roomy s × (f.moves.block ≤ length columns.old) }
    ensures { (result ≡ turn_by f.moves f.count s (found_add f s))
        × Entered f.elements f.moves s.column (found_add f s) columns.old columns.new }
{
    let e = f.elements;
    let m = f.moves;
    let next = m.step(s);
    let place = next.place;
    let a = s.address;
    let add = e.find_move(f.count, place, a);
    spread::enter(e, m, f.count, columns, s.column, add);
    next.moved_on(a, add).stop_at(f.count)
}

// The next turns: as many as are known, or one that learns.
fn next_turns(f: Task, columns: &mut [u32], s: State, list: &mut [u8], n: usize) -> Made
    requires { Goes f s × (f.moves.block ≤ length columns.old) × (n < length list.old / 4) }
    ensures { Advances f columns.old s n list.old columns.new list.new result }
{
    let q = s.column as usize;
    if columns[q] != 0 {
        let m = f.moves;
        let most = s.paid_turns(f.quota, list.len() / 4 - n);
        let made = known_turns(m, f.count, columns, s, list, n, most);
        return Made {
            state: made.state.stop_at(f.count),
            turns: made.turns,
        };
    }
    put_entry(list, n, s.address.0 as u32);
    Made {
        state: turn(f, columns, s),
        turns: 1,
    }
}

// The fill, with a table that knows no move yet. Not one with `bytes::fill_bytes` and
// `classes::fill_by_classes`: a closure for the next turns would have to carry what each of the three
// keeps from turn to turn, which is all that their proofs are about.
pub fn fill_by_columns(f: Task, start: State, columns: &mut [u32], list: &mut [u8]) -> Report
    requires { Begins f start × (f.moves.block ≤ length columns.old) × ((q : ℕ) → get_or columns.old q 0 ≡ 0) }
    ensures { FillsBytesEven f start list.old list.new result }
{
    let room = list.len() / 4;
    let mut s = start;
    let mut n: usize = 0;
    // Not a `for`: n goes on by as many turns as were made.
    while n < room {
        if s.has_ended(f.count, f.quota) {
            break;
        }
        let made = next_turns(f, columns, s, list, n);
        s = made.state;
        n += made.turns;
    }
    s.report(n)
}

// Fills of a list of bytes by moves that are learnt, with a table by classes of columns, where
// 0 stands for a move that is not known: the fills for which a table by columns does not pay.
ghost use Rattle.std.specs.Prelude.{◌≡◌, ℕ, ◌<◌, get_or, set};
ghost use Rattle.walk.specs.Moving.{Small, Sound, Roomy};
ghost use Rattle.walk.specs.Learning.{Placed, class_of, class_move, class_add, turn_by, Begins, FillsBytesEven};

use crate::bytes::put_entry;
use crate::learning::{Elements, Task};
use crate::moves::{Report, State};
use model::{Address, Position};

// What is added to come from address a to that of place t, by the move of class c. One that
// has no entry is found each time.
fn move_by(e: Elements, count: u64, classes: &mut [u32], c: usize, t: Position, a: Address) -> u64
    requires { Placed e count × (a.0 < 4294967296) }
    ensures { (result ≡ class_move e count classes.old c t.0 a.0) × (result < 4294967296)
        × (classes.new ≡ set classes.old c result) }
{
    if classes.len() <= c {
        return e.find_move(count, t, a);
    }
    let known = classes[c];
    if known != 0 {
        return known as u64;
    }
    let found = e.find_move(count, t, a);
    classes[c] = found as u32;
    found
}

// The state after a turn.
fn turn(f: Task, classes: &mut [u32], s: State) -> State
    requires { Placed f.elements f.count × Small f.moves × Sound f.moves s × Roomy s }
    ensures { (result ≡ turn_by f.moves f.count s (class_add f classes.old s))
        × (classes.new ≡ set classes.old (class_of f.elements f.moves s.column) (class_add f classes.old s)) }
{
    let e = f.elements;
    let m = f.moves;
    let next = m.step(s);
    let place = next.place;
    let a = s.address;
    let tries = next.paid - s.paid;
    let c = s.column % e.period() * 4 + tries;
    let add = move_by(e, f.count, classes, c as usize, place, a);
    next.moved_on(a, add).stop_at(f.count)
}

// The fill, with a table that knows no move yet.
pub fn fill_by_classes(f: Task, start: State, classes: &mut [u32], list: &mut [u8]) -> Report
    requires { Begins f start × ((c : ℕ) → get_or classes.old c 0 ≡ 0) }
    ensures { FillsBytesEven f start list.old list.new result }
{
    let room = list.len() / 4;
    let mut s = start;
    for n in 0..room {
        if s.has_ended(f.count, f.quota) {
            return s.report(n);
        }
        put_entry(list, n, s.address.0 as u32);
        s = turn(f, classes, s);
    }
    s.report(room)
}

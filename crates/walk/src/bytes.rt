// Fills of a list of bytes by constant moves, 4 bytes to an address, lowest first. Up to 3
// bytes left over are no entry and stay.
ghost use Rattle.std.specs.Prelude.{◌≡◌, ◌+◌, ◌*◌, ◌/◌, ◌≤◌, ◌<◌, true, length};
ghost use Rattle.model.specs.ByteFills.{store_entry};
ghost use Rattle.walk.specs.Moving.{add_from};
ghost use Rattle.walk.specs.Bursts.{Starts, Bursts, Bursted, Short, Before};
ghost use Rattle.walk.specs.Driving.{FillsBytes};

use crate::moves::{Made, Moves, Report, SHORT, State};

// An address stored as entry n.
pub fn put_entry(list: &mut [u8], n: usize, x: u32)
    requires { n < length list.old / 4 }
    ensures { list.new ≡ store_entry list.old n x }
{
    let at = 4 * n;
    list[at..at + 4].copy_from_slice(&x.to_le_bytes());
}

// So many turns from entry `from` on. Where they are sure to write, there is no test but that of the
// column; else they end where the count is reached: a test at each turn costs less than many bursts
// that are short.
fn burst<const SURE: bool>(
    m: Moves,
    count: u64,
    start: State,
    list: &mut [u8],
    from: usize,
    turns: usize,
) -> Made
    requires { Bursts m count start turns × (SURE ≡ true → Short m count start turns)
        × (from + turns ≤ length list.old / 4) }
    ensures { Bursted store_entry m (add_from m) (Before count) start from turns list.old list.new result }
{
    let mut s = start;
    for i in 0..turns {
        if !SURE && count <= s.place.0 {
            return Made { state: s, turns: i };
        }
        put_entry(list, from + i, s.address.0 as u32);
        s = m.step(s);
    }
    Made { state: s, turns }
}

// The next turns, at most so many.
fn next_turns(m: Moves, count: u64, start: State, list: &mut [u8], from: usize, most: usize) -> Made
    requires { Bursts m count start most × (from + most ≤ length list.old / 4) }
    ensures { Bursted store_entry m (add_from m) (Before count) start from most list.old list.new result }
{
    let turns = m.sure_turns(count, start, most);
    if turns < SHORT {
        return burst::<false>(m, count, start, list, from, most);
    }
    burst::<true>(m, count, start, list, from, turns)
}

// The fill of a list from a state, in bursts: all that is reported and every byte, along any walk
// that the moves drive. Of moves that drive none nothing is said: a caller has the walk that it
// fills along.
pub fn fill_bytes(m: Moves, count: u64, quota: u64, start: State, list: &mut [u8]) -> Report
    requires { Starts m count quota start }
    ensures { FillsBytes m count quota start list.old list.new result }
{
    let room = list.len() / 4;
    let mut s = start;
    let mut n: usize = 0;
    // Not a `for`: n goes on by as many turns as were made.
    while n < room {
        if s.has_ended(count, quota) {
            break;
        }
        let turns = s.paid_turns(quota, room - n);
        let made = next_turns(m, count, s, list, n, turns);
        s = made.state.stop_at(count);
        n += made.turns;
    }
    s.report(n)
}

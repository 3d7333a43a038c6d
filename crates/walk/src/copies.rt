// Entries of a list of bytes that repeat: each is the entry one period before it with a number
// added, modulo 2^32. The compiler makes vectors of the loop over one distance where the
// distance is wide; so a short one is doubled first.
ghost use Rattle.std.specs.Prelude.{◌/◌, ◌≤◌, ◌<◌, length};
ghost use Rattle.walk.specs.Copying.{Extends};

use crate::bytes::put_entry;
use numbers::words::word_at;

// A distance from which a wider one is no faster.
const WIDE: usize = 512;

// The entries from one distance on, each so much after that which lies the distance before it.
fn repeat(list: &mut [u8], distance: usize, to: usize, add: u32)
    requires { (0 < distance) × (distance ≤ to) × (to ≤ length list.old / 4) }
    ensures { Extends distance add to list.old list.new }
{
    for j in distance..to {
        let x = word_at(list, j - distance);
        put_entry(list, j, x.wrapping_add(add));
    }
}

// The entries up to one, where those of the first period stand.
pub fn copy_periods(list: &mut [u8], period: usize, to: usize, add: u64)
    requires { (0 < period) × (period ≤ to) × (to ≤ length list.old / 4) × (add < 4294967296) }
    ensures { Extends period add to list.old list.new }
{
    // Up to there a distance is doubled: a double is at most all entries.
    let limit = WIDE.min(to / 2);
    let mut distance = period;
    let mut step = add as u32;
    // Not a `for`: the distance doubles.
    while distance < limit {
        let end = 2 * distance;
        repeat(list, distance, end, step);
        distance = end;
        step = step.wrapping_add(step);
    }
    repeat(list, distance, to, step)
}

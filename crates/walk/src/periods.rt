// Walks that repeat: from a column that comes back the same steps are taken again.
ghost use Rattle.std.specs.Prelude.{◌≡◌, ◌+◌, ◌≤◌, ◌<◌};
ghost use Rattle.walk.specs.Moving.{Small, Sound};
ghost use Rattle.walk.specs.Repeating.{period_steps, StepsUntil};

use crate::moves::{Made, Moves, State};
use model::LEAST_TRIES;
use numbers::gcd;

// How many steps lead from a column back to it: each column that lies whole divisors of both
// steps from it is met once. No proof counts on it: who copies a period looks whether the column
// came back.
pub fn steps_of_period(m: Moves, column: u64) -> u64
    requires { Small m × (column < m.block) }
    ensures value { result ≡ period_steps m column }
    ensures result_nonzero { (0 < result) × (result ≤ 65536) }
{
    if m.up == 0 {
        return 1;
    }
    let d = gcd(m.up, m.down);
    (m.block - 1 - column % d) / d + 1
}

// Steps from a state, at most so many, while the place is before the count and 3 tries are left.
pub fn steps_until(m: Moves, count: u64, quota: u64, start: State, most: usize) -> Made
    requires { Small m × Sound m start × (start.paid ≤ quota) × (count < 2147483648) × (quota < 2147483648) }
    ensures { StepsUntil m count quota start most result }
{
    let mut s = start;
    for i in 0..most {
        if count <= s.place.0 || quota - s.paid < LEAST_TRIES {
            return Made { state: s, turns: i };
        }
        s = m.step(s);
    }
    Made {
        state: s,
        turns: most,
    }
}

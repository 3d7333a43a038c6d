// Steps by moves that depend on the column alone. One step function serves both list forms
// and both directions: going down, columns count from the end of a block, and an address
// falls by what is added modulo 2^32.
ghost use Rattle.std.specs.Prelude.{◌≡◌, ◌+◌, ◌*◌, ◌<◌, ◌≤◌};
ghost use Rattle.walk.specs.Moving.{stepped, stop_at, has_ended, Small, Sound, Roomy};
ghost use Rattle.walk.specs.Bursts.{Short};

use model::{Address, LEAST_TRIES, Position};

// How a walk goes on from a column: the columns of a block; by how many columns the
// processor step goes up and the return step down; how many positions each goes on; and
// what is added to the address for the one, for the other and for both. A walk of one step
// has up 0, so that its step always fits.
// No ghost field says that they are small (`Small`): fill's `moves_by` makes moves of any steps.
#[derive(Clone, Copy)]
pub struct Moves {
    pub block: u64,
    pub up: u64,
    pub down: u64,
    pub first: u64,
    pub second: u64,
    pub near: u64,
    pub far: u64,
    pub both: u64,
}

// Where a fill stands: column, address and place of the next element, and the tries paid.
#[derive(Clone, Copy)]
pub struct State {
    pub column: u64,
    pub address: Address,
    pub place: Position,
    pub paid: u64,
}

// What a burst made: the state that it came to, and its turns.
#[derive(Clone, Copy)]
pub struct Made {
    pub state: State,
    pub turns: usize,
}

// What a fill returns.
#[derive(Clone, Copy)]
pub struct Report {
    pub entries: usize,
    pub tries: u64,
    pub place: Position,
}

// Addresses are added modulo this.
pub const ADDRESSES: u64 = 4294967296;

// A burst of fewer turns is short.
pub(crate) const SHORT: usize = 16;

impl Moves {
    // The state after the first step that fits: the processor step, the return step, or both.
    // The place may pass the count.
    pub(crate) fn step(self, s: State) -> State
        requires { Small self × Sound self s × Roomy s }
        ensures { result ≡ stepped self s }
    {
        let column = s.column;
        let address = s.address.0;
        let place = s.place.0;
        let paid = s.paid;
        if column + self.up < self.block {
            State {
                column: column + self.up,
                address: Address((address + self.near) % ADDRESSES),
                place: Position(place + self.first),
                paid: paid + 1,
            }
        } else if self.down <= column {
            State {
                column: column - self.down,
                address: Address((address + self.far) % ADDRESSES),
                place: Position(place + self.second),
                paid: paid + 2,
            }
        } else {
            State {
                column: column + self.up - self.down,
                address: Address((address + self.both) % ADDRESSES),
                place: Position(place + (self.first + self.second)),
                paid: paid + 3,
            }
        }
    }

    // How many turns, of at most `most`, are sure to write: none but the last can reach the count.
    pub(crate) fn sure_turns(self, count: u64, s: State, most: usize) -> usize
        requires { Small self × (s.place.0 < count) × (0 < most) }
        ensures { (0 < result) × (result ≤ most) × Short self count s result }
    {
        let places = (count - 1 - s.place.0) / (self.first + self.second) + 1;
        places.min(most as u64) as usize
    }
}

impl State {
    // A place that passed the count is the count.
    pub(crate) fn stop_at(self, count: u64) -> State
        ensures { result ≡ stop_at count self }
    {
        if self.place.0 < count {
            return self;
        }
        State {
            place: Position(count),
            ..self
        }
    }

    // No turn is made where the place is the count or too few tries are left.
    pub(crate) fn has_ended(self, count: u64, quota: u64) -> bool
        requires { self.paid ≤ quota }
        ensures { result ≡ has_ended count quota self }
    {
        self.place.0 == count || quota - self.paid < LEAST_TRIES
    }

    // How many turns, of at most `room`, have their tries, whatever each turn costs.
    pub(crate) fn paid_turns(self, quota: u64, room: usize) -> usize
        requires { (self.paid + 3 ≤ quota) × (0 < room) }
        ensures { (0 < result) × (result ≤ room) × (self.paid + 3 * result ≤ quota) }
    {
        ((quota - self.paid) / LEAST_TRIES).min(room as u64) as usize
    }

    // What a fill that came to this state with so many entries returns.
    pub(crate) fn report(self, entries: usize) -> Report
        ensures { result ≡ record { entries = entries; tries = self.paid; place = self.place } }
    {
        Report {
            entries,
            tries: self.paid,
            place: self.place,
        }
    }
}

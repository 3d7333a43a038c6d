// Moves that are learnt: along a walk whose address moves by what depends on the step and on
// the column's rest by a period, a move is found as the difference of two addresses.
ghost use Rattle.std.specs.Prelude.{◌≡◌, ◌<◌};
ghost use Rattle.walk.specs.Learning.{element_at, address_at, Placed, period_of, move_to, moved};

use crate::moves::{ADDRESSES, Moves, State};
use model::{Address, Index, Layout, Position};

// The elements at the places of a walk: place t has element first + t * stride, or
// first - t * stride.
#[derive(Clone, Copy)]
pub struct Elements {
    pub layout: Layout,
    pub first: Index,
    pub stride: u64,
    pub upward: bool,
}

// A fill by moves that are learnt: along which elements, by which moves, to which count, with
// how many tries.
#[derive(Clone, Copy)]
pub struct Task {
    pub elements: Elements,
    pub moves: Moves,
    pub count: u64,
    pub quota: u64,
}

impl Elements {
    // The element at place t.
    fn element_at(self, count: u64, t: Position) -> Index
        requires { Placed self count × (t.0 < count) }
        ensures { result.0 ≡ element_at self t.0 }
    {
        let far = t.0 * self.stride;
        if self.upward {
            return Index(self.first.0 + far);
        }
        Index(self.first.0 - far)
    }

    // Its local address.
    fn address_at(self, count: u64, t: Position) -> Address
        requires { Placed self count × (t.0 < count) }
        ensures { result.0 ≡ address_at self t.0 }
    {
        mapping::dealing::local_address(self.layout, self.element_at(count, t))
    }

    // The period of the columns that move alike.
    pub(crate) fn period(self) -> u64
        ensures { result ≡ period_of self }
    {
        let l = self.layout;
        l.stride.min(l.block)
    }

    // What is added to come from address a to that of place t. Past the count nothing is.
    pub(crate) fn find_move(self, count: u64, t: Position, a: Address) -> u64
        requires { Placed self count × (a.0 < 4294967296) }
        ensures { (result ≡ move_to self count t.0 a.0) × (result < 4294967296) }
    {
        if count <= t.0 {
            return 0;
        }
        (self.address_at(count, t).0 + (ADDRESSES - a.0)) % ADDRESSES
    }
}

impl State {
    // This state with the address that lies so much after a.
    pub(crate) fn moved_on(self, a: Address, add: u64) -> State
        requires { (a.0 < 4294967296) × (add < 4294967296) }
        ensures { result ≡ moved self a.0 add }
    {
        State {
            address: Address((a.0 + add) % ADDRESSES),
            ..self
        }
    }
}

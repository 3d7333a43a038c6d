// The element at a position of an accepted section: its index, its cell, whether a processor
// owns it, and its local address.
ghost use Rattle.std.specs.Prelude.{◌≡◌};
ghost use Rattle.model.specs.Ownership.{owner_of, rank};
ghost use Rattle.section.specs.Strides.{index_at, cell_at, owned_at};
ghost use Rattle.section.specs.Going.{Held};

use crate::questions::Strided;
use mapping::dealing::{cell_of, local_address, owner_of};
use model::{Address, Cell, Index, Position};

pub fn index_at(w: Strided, t: Position) -> Index
    requires { Held w t.0 }
    ensures { result.0 ≡ index_at w t.0 }
{
    let on = t.0 * w.stride;
    if w.upward {
        return Index(w.first.0 + on);
    }
    Index(w.first.0 - on)
}

pub fn cell_at(w: Strided, t: Position) -> Cell
    requires { Held w t.0 }
    ensures { result.0 ≡ cell_at w t.0 }
{
    let l = w.layout;
    cell_of(l, index_at(w, t))
}

// Does processor q own it?
pub fn owned_at(w: Strided, q: u64, t: Position) -> bool
    requires { Held w t.0 }
    ensures { result ≡ owned_at w q t.0 }
{
    let l = w.layout;
    owner_of(l, cell_at(w, t)) == q
}

// Its local address on its owner.
pub fn address_at(w: Strided, t: Position) -> Address
    requires { Held w t.0 }
    ensures { result.0 ≡ rank (owner_of w.layout) (index_at w t.0) }
{
    let l = w.layout;
    local_address(l, index_at(w, t))
}

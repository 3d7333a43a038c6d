// The elements of one dimension's share, by fills of it: their addresses, and the place after them.
ghost use Rattle.fill.specs.Ready.{FillsBytesFrom};
ghost use Rattle.fill.specs.Ways.{WayOf};
ghost use Rattle.grid_fill.specs.Steps.{from_place, Placed, Stepped};

use fill::ready::Start;
use fill::ways::{Way, fill_bytes_by};
use model::{Address, MOST_TRIES, Position};
use numbers::words::word_at;
use section::shares::Share;
use walk::moves::Report;

// The addresses of the share's elements from place t on, as many as the list has room for: the tries
// are enough for every list here.
pub(crate) fn addresses_from(s: Share, way: Way, t: Position, list: &mut [u8]) -> Report
    requires { Placed s t.0 × WayOf s way }
    ensures { FillsBytesFrom (from_place s t.0 1000000) list.old list.new result }
{
    let start = Start {
        section: s.section,
        processor: s.processor,
        extent: s.extent,
        place: t,
        quota: MOST_TRIES,
    };
    fill_bytes_by(start, way, list)
}

// The address of one element, and the place after it.
#[derive(Clone, Copy)]
pub struct Step {
    pub address: Address,
    pub next: Position,
}

pub(crate) fn step_from(s: Share, way: Way, t: Position) -> Step
    requires { Placed s t.0 × WayOf s way }
    ensures { Stepped s t.0 result }
{
    let mut entry = [0u8; 4];
    let r = addresses_from(s, way, t, &mut entry);
    Step {
        address: Address(word_at(&entry, 0) as u64),
        next: r.place,
    }
}

// Fills along a run of positions: the next address is one addition on, and how many entries are
// written is known before the first.
ghost use Rattle.std.specs.Prelude.{◌≡◌, ◌/◌, ◌≤◌, ◌<◌, length};
ghost use Rattle.model.specs.ByteFills.{store_entries};
ghost use Rattle.fill.specs.Ready.{Accepted, FillsBytesFrom};
ghost use Rattle.fill.specs.RunFills.{addresses_from, entries_in, InRun};

use crate::long::fill_list;
use crate::plan::onward_by;
use crate::ready::Start;
use model::{Address, LEAST_TRIES, Position};
use section::positions::index_at;
use section::shares::{Extent, Span};
use walk::bytes::put_entry;
use walk::moves::{self, Report};

// How many entries a fill writes from place t of a run: one for each try while the least of them is left,
// as far as the run and the list go.
fn entries_in(r: Span, t: Position, quota: u64, room: usize) -> usize
    requires { (t.0 < r.high.0) × (3 ≤ quota) }
    ensures { result ≡ entries_in r.high.0 t.0 quota room }
{
    (r.high.0 - t.0)
        .min(quota - (LEAST_TRIES - 1))
        .min(room as u64) as usize
}

// Addresses stored one after another, each so much on from the one before it.
fn put_run(list: &mut [u8], n: usize, first: Address, add: u64)
    requires { (n ≤ length list.old / 4) × (first.0 < 4294967296) × (add < 4294967296) }
    ensures { list.new ≡ store_entries list.old 0 (addresses_from n first.0 add) }
{
    let mut x = first.0;
    for i in 0..n {
        put_entry(list, i, x as u32);
        x = (x + add) % moves::ADDRESSES;
    }
}

// The fill of a run from a place in it.
fn fill_along(s: Start, r: Span, list: &mut [u8]) -> Report
    requires { InRun s r }
    ensures { FillsBytesFrom s list.old list.new result }
{
    let w = s.section;
    let t = s.place;
    let n = entries_in(r, t, s.quota, list.len() / 4);
    let first = Address(index_at(w, t).0 - r.base.0);
    put_run(list, n, first, onward_by(w.upward, w.stride));
    let on = Position(t.0 + n as u64);
    Report {
        entries: n,
        tries: n as u64,
        place: Position(if on.0 < r.high.0 { on.0 } else { w.count }),
    }
}

// The fill of a run. At the count there is no element.
pub(crate) fn fill_run(s: Start, r: Span, list: &mut [u8]) -> Report
    requires { Accepted s × (s.extent ≡ Extent.Run r) }
    ensures { FillsBytesFrom s list.old list.new result }
{
    if s.section.count <= s.place.0 {
        return Report {
            entries: 0,
            tries: 0,
            place: s.place,
        };
    }
    fill_along(s, r, list)
}

// The fill of a list of bytes.
pub fn fill_bytes_from(s: Start, list: &mut [u8]) -> Report
    requires { Accepted s }
    ensures { FillsBytesFrom s list.old list.new result }
{
    match s.extent {
        Extent::Blocks => fill_list(s, list),
        Extent::Run(r) => fill_run(s, r, list),
    }
}

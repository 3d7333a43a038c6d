// Which table a fill by moves that are learnt has. It stands on the stack, and is no longer
// than pays.
ghost use Rattle.std.specs.Prelude.{◌≤◌};
ghost use Rattle.walk.specs.Moving.{Still};
ghost use Rattle.walk.specs.Learning.{Begins, FillsBytesEven};

use crate::bytes::fill_bytes;
use crate::classes::fill_by_classes;
use crate::columns::fill_by_columns;
use crate::learning::Task;
use crate::moves::{Report, State};

// By columns, of which the table has at least a block's.
fn with_columns<const N: usize>(f: Task, start: State, list: &mut [u8]) -> Report
    requires { Begins f start × (f.moves.block ≤ N) × (N ≤ 16384) }
    ensures { FillsBytesEven f start list.old list.new result }
{
    let mut columns = [0u32; N];
    fill_by_columns(f, start, &mut columns, list)
}

// By classes, of which the table may have fewer than there are.
fn with_classes<const N: usize>(f: Task, start: State, list: &mut [u8]) -> Report
    requires { Begins f start × (N ≤ 16384) }
    ensures { FillsBytesEven f start list.old list.new result }
{
    let mut classes = [0u32; N];
    fill_by_classes(f, start, &mut classes, list)
}

// The fill by moves that are learnt, of which as much is said as of one by constant moves. What
// comes after the last entry is not asked for, so one entry asks for no move at all. A short list
// does not pay for a long table, nor a list much shorter than the block for one by columns.
pub fn fill_bytes_learning(f: Task, start: State, list: &mut [u8]) -> Report
    requires { Begins f start × Still f.moves }
    ensures { FillsBytesEven f start list.old list.new result }
{
    let entries = list.len() / 4;
    let m = f.moves;
    if entries <= 1 {
        return fill_bytes(m, f.count, f.quota, start, list);
    }
    if entries <= 64 {
        return with_classes::<256>(f, start, list);
    }
    if m.block <= 128 {
        return with_columns::<128>(f, start, list);
    }
    if m.block <= 1024 && m.block as usize / 4 <= entries {
        return with_columns::<1024>(f, start, list);
    }
    with_classes::<1024>(f, start, list)
}

// The same of a list that may be long: where there are many classes, a table that has them all pays.
// It stands beside the other, which it would slow down by the room for that table.
pub fn fill_long_learning(f: Task, start: State, list: &mut [u8]) -> Report
    requires { Begins f start × Still f.moves }
    ensures { FillsBytesEven f start list.old list.new result }
{
    let m = f.moves;
    let l = f.elements.layout;
    if 1024 < m.block && 256 < l.stride && 1024 <= list.len() / 4 {
        return with_classes::<16384>(f, start, list);
    }
    fill_bytes_learning(f, start, list)
}

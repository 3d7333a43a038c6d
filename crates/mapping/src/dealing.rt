// The arithmetic of an accepted layout: the cell of an element, its owner, its local address,
// and back. An array with stride 1 is counted directly, any other by two floor sums. Nothing
// here goes through blocks, processors or elements one by one: a floor sum takes a number of
// divisions that is logarithmic in the cells of a course, and the search halves the elements.
ghost use Rattle.std.specs.Prelude.{◌≡◌, ◌≤◌, ◌<◌};
ghost use Rattle.model.specs.Ownership.{cell_of, cell_owner, owner_of, held, rank, back_to};
ghost use Rattle.model.specs.Sized.{Sized};
ghost use Rattle.mapping.specs.Bounds.{Dealt, Below, Stored, Moved};
ghost use Rattle.mapping.specs.Counts.{overlap, course_sum};

use model::{Address, Cell, Index, Layout};

// The cell that element i sits on, or that the next element after the last would.
pub fn cell_of(l: Layout, i: Index) -> Cell
    requires sized { Sized l }
    requires i_le_size { i.0 ≤ l.size }
    ensures { result.0 ≡ cell_of l i.0 }
{
    Cell(l.stride * i.0 + l.offset)
}

// The processor that owns cell c.
pub fn owner_of(l: Layout, c: Cell) -> u64
    requires { Sized l }
    ensures { result ≡ cell_owner l c.0 }
{
    c.0 / l.block % l.processors
}

// How many cells of a block that starts at cell first lie below cell end.
fn share(first: u64, block: u64, end: u64) -> u64
    ensures { result ≡ overlap first block end }
{
    if end <= first {
        return 0;
    }
    if end - first <= block {
        return end - first;
    }
    block
}

// How many cells below c processor q has: a block for each whole course, and its share of
// the course that is cut.
fn cells_below(l: Layout, q: u64, c: Cell) -> u64
    requires { Dealt l q }
    ensures { result ≡ held (cell_owner l) c.0 q }
{
    let course = l.processors * l.block;
    c.0 / course * l.block + share(q * l.block, l.block, c.0 % course)
}

// With stride 1 the elements below i sit on the cells from the offset to the cell of i.
fn held_directly(l: Layout, q: u64, i: Index) -> u64
    requires below { Below l q i.0 }
    requires stride_value { l.stride ≡ 1 }
    ensures { result ≡ held (owner_of l) i.0 q }
{
    let before = cells_below(l, q, Cell(l.offset));
    cells_below(l, q, cell_of(l, i)) - before
}

// The courses of the cells of the elements below i, each moved on by some blocks, summed.
fn course_sum(l: Layout, i: Index, blocks: u64) -> u64
    requires { Moved l i.0 blocks }
    ensures { result ≡ course_sum l i.0 blocks }
{
    let course = l.processors * l.block;
    numbers::floor_sum(i.0, course, l.stride, l.offset + blocks * l.block)
}

// Moved on by p - q blocks, the cells of processor q come to lie in the next course; moved
// on by one block less, they do not. For the cells of the others both moves come to the same.
fn held_by_sums(l: Layout, q: u64, i: Index) -> u64
    requires { Below l q i.0 }
    ensures { result ≡ held (owner_of l) i.0 q }
{
    let blocks = l.processors - q;
    course_sum(l, i, blocks) - course_sum(l, i, blocks - 1)
}

// How many elements below i processor q has.
pub fn held_below(l: Layout, q: u64, i: Index) -> u64
    requires { Below l q i.0 }
    ensures { result ≡ held (owner_of l) i.0 q }
{
    if l.stride == 1 {
        return held_directly(l, q, i);
    }
    held_by_sums(l, q, i)
}

// The local address of element i on its owner.
pub fn local_address(l: Layout, i: Index) -> Address
    requires sized { Sized l }
    requires i_lt_size { i.0 < l.size }
    ensures { result.0 ≡ rank (owner_of l) i.0 }
{
    let q = owner_of(l, cell_of(l, i));
    Address(held_below(l, q, i))
}

// With stride 1 processor q's cells below the offset and the cells of its elements follow
// each other in its blocks without a gap: a quotient and a rest by k are course and column.
fn element_directly(l: Layout, q: u64, x: Address) -> Index
    requires stored { Stored l q x.0 }
    requires stride_value { l.stride ≡ 1 }
    ensures { result.0 ≡ back_to (owner_of l) l.size q x.0 }
{
    let nth = x.0 + cells_below(l, q, Cell(l.offset));
    let course = l.processors * l.block;
    let cell = nth / l.block * course + q * l.block + nth % l.block;
    Index(cell - l.offset)
}

// By halving: processor q has at most x elements below low, and more than x below high.
fn element_by_halving(l: Layout, q: u64, x: Address) -> Index
    requires { Stored l q x.0 }
    ensures { result.0 ≡ back_to (owner_of l) l.size q x.0 }
{
    let mut low = 0;
    let mut high = l.size;
    // Not a `for`: the bounds close in on each other.
    while low + 1 < high {
        let middle = low + (high - low) / 2;
        if held_below(l, q, Index(middle)) <= x.0 {
            low = middle;
        } else {
            high = middle;
        }
    }
    Index(low)
}

// The element that processor q and local address x lead back to.
pub fn element_at(l: Layout, q: u64, x: Address) -> Index
    requires { Stored l q x.0 }
    ensures { result.0 ≡ back_to (owner_of l) l.size q x.0 }
{
    if l.stride == 1 {
        return element_directly(l, q, x);
    }
    element_by_halving(l, q, x)
}

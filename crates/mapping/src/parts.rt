// A processor's part of a template: of a cyclic one its blocks, of a GEN_BLOCK one a run of cells.
// Once it is known, no list goes on. Of an array a run has one run of elements.
ghost use Rattle.std.specs.Prelude.{◌≡◌, ◌≤◌, ◌<◌, ◌^◌};
ghost use Rattle.model.specs.Mappings.{dealing_with};
ghost use Rattle.model.specs.Ownership.{owner_of, rank};
ghost use Rattle.model.specs.Sized.{Sized};
ghost use Rattle.mapping.specs.Bounds.{Dealt};
ghost use Rattle.mapping.specs.Parts.{part_in, index_from, held_in, found_in, owner_for, Listed, Low};

use crate::dealing::{cell_of, element_at, held_below, local_address, owner_of};
use crate::runs::{Run, owner_in, run_of};
use model::{Address, Cell, Dealing, Index, Layout};
use numbers::multiples_below;

#[derive(Clone, Copy)]
pub enum Part {
    Blocks,
    Run(Run),
}

// The part of processor q of a template whose list of sizes passed.
pub fn part_of(l: Layout, d: Dealing, sizes: &[u8], q: u64) -> Part
    requires listed { Listed l (dealing_with d sizes.now) }
    requires dealt { Dealt l q }
    ensures value { result ≡ part_in (dealing_with d sizes.now) q }
    ensures low { Low result }
{
    match d {
        Dealing::Cyclic(_) => Part::Blocks,
        Dealing::GenBlock => Part::Run(run_of(sizes, q as usize)),
    }
}

// The first index whose element sits on cell c or after it; the number of elements if none does.
pub fn index_from(l: Layout, c: Cell) -> Index
    requires { Sized l × (c.0 ≤ 2 ^ 42) }
    ensures { result.0 ≡ index_from l c.0 }
{
    if c.0 <= l.offset {
        return Index(0);
    }
    Index(multiples_below(l.stride, l.size, c.0 - l.offset))
}

// How many elements a run has.
fn elements_along(l: Layout, r: Run) -> u64
    requires { Sized l × (r.start.0 ≤ r.end.0) × (r.end.0 ≤ 2 ^ 42) }
    ensures { result ≡ held_in l 0 (Part.Run r) }
{
    index_from(l, r.end).0 - index_from(l, r.start).0
}

// How many elements processor q has in its part.
pub fn elements_in(l: Layout, q: u64, part: Part) -> u64
    requires { Dealt l q × Low part }
    ensures { result ≡ held_in l q part }
{
    match part {
        Part::Blocks => held_below(l, q, Index(l.size)),
        Part::Run(r) => elements_along(l, r),
    }
}

// The element at address x of a run.
fn element_along(l: Layout, r: Run, x: Address) -> Index
    requires { Sized l × (r.start.0 ≤ r.end.0) × (r.end.0 ≤ 2 ^ 42) × (x.0 < held_in l 0 (Part.Run r)) }
    ensures { result.0 ≡ found_in l 0 (Part.Run r) x.0 }
{
    let i = index_from(l, r.start).0 + x.0;
    Index(i)
}

// The element that local address x of processor q's part leads back to.
pub fn element_in(l: Layout, q: u64, part: Part, x: Address) -> Index
    requires { Dealt l q × Low part × (x.0 < held_in l q part) }
    ensures { result.0 ≡ found_in l q part x.0 }
{
    match part {
        Part::Blocks => element_at(l, q, x),
        Part::Run(r) => element_along(l, r, x),
    }
}

// Where an element is kept.
#[derive(Clone, Copy)]
pub struct Home {
    pub processor: u64,
    pub address: Address,
}

// The home of element i in blocks, and in runs.
fn home_in_blocks(l: Layout, i: Index) -> Home
    requires { Sized l × (i.0 < l.size) }
    ensures { (result.processor ≡ owner_of l i.0) × (result.address.0 ≡ rank (owner_of l) i.0) }
{
    Home {
        processor: owner_of(l, cell_of(l, i)),
        address: local_address(l, i),
    }
}

fn home_in_runs(l: Layout, sizes: &[u8], i: Index) -> Home
    requires { Listed l (dealing_with Dealing.GenBlock sizes.now) × Sized l × (i.0 < l.size) }
    ensures { (result.processor ≡ owner_for l (dealing_with Dealing.GenBlock sizes.now) i.0)
        × (result.address.0 ≡ rank (owner_for l (dealing_with Dealing.GenBlock sizes.now)) i.0) }
{
    let c = cell_of(l, i);
    let owner = owner_in(sizes, c);
    let first = index_from(l, owner.start);
    let x = i.0 - first.0;
    Home {
        processor: owner.processor,
        address: Address(x),
    }
}

pub fn home_of(l: Layout, d: Dealing, sizes: &[u8], i: Index) -> Home
    requires { Listed l (dealing_with d sizes.now) × Sized l × (i.0 < l.size) }
    ensures { (result.processor ≡ owner_for l (dealing_with d sizes.now) i.0)
        × (result.address.0 ≡ rank (owner_for l (dealing_with d sizes.now)) i.0) }
{
    match d {
        Dealing::Cyclic(_) => home_in_blocks(l, i),
        Dealing::GenBlock => home_in_runs(l, sizes, i),
    }
}

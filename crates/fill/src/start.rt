// The fill of an accepted section in blocks: where it stands at its place, and the loop for its plan.
ghost use Rattle.std.specs.Prelude.{◌≡◌};
ghost use Rattle.model.specs.Ownership.{column_of};
ghost use Rattle.section.specs.Strides.{Bounded};
ghost use Rattle.fill.specs.SectionMoves.{on_way};
ghost use Rattle.fill.specs.Starting.{task_in, Planned, InBlocks, StateOf, FillsBlocks};

use crate::plan::{Plan, plan_of};
use crate::ready::Start;
use model::{Address, Cell};
use section::positions::{address_at, cell_at};
use section::questions::Strided;
use walk::bytes::fill_bytes;
use walk::learning::{Elements, Task};
use walk::moves::{Moves, Report, State};
use walk::tables::fill_bytes_learning;

// The fill along the section's elements, by moves that are learnt.
pub(crate) fn task_of(s: Start, m: Moves) -> Task
    ensures { result ≡ task_in s m }
{
    let w = s.section;
    Task {
        elements: Elements {
            layout: w.layout,
            first: w.first,
            stride: w.stride,
            upward: w.upward,
        },
        moves: m,
        count: w.count,
        quota: s.quota,
    }
}

// The column of a cell, counted in walking direction.
pub(crate) fn column_of(w: Strided, c: Cell) -> u64
    requires { Bounded w }
    ensures { result ≡ on_way w.upward w.layout.block (column_of w.layout c.0) }
{
    let k = w.layout.block;
    let q = c.0 % k;
    if w.upward {
        return q;
    }
    k - 1 - q
}

// Where the fill stands before its first turn. At the count there is no element.
pub(crate) fn state_at(s: Start) -> State
    requires { InBlocks s }
    ensures { StateOf s result }
{
    let w = s.section;
    let t = s.place;
    let past = State {
        column: 0,
        address: Address(0),
        place: t,
        paid: 0,
    };
    if w.count <= t.0 {
        return past;
    }
    State {
        column: column_of(w, cell_at(w, t)),
        address: address_at(w, t),
        ..past
    }
}

// The fill of a short list of bytes.
pub fn fill_blocks(s: Start, list: &mut [u8]) -> Report
    requires { InBlocks s }
    ensures { FillsBlocks s list.old list.new result }
{
    let w = s.section;
    let state = state_at(s);
    match plan_of(w, s.processor) {
        Plan::Constant(m) => fill_bytes(m, w.count, s.quota, state, list),
        Plan::Learnt(m) => fill_bytes_learning(task_of(s, m), state, list),
    }
}

// The same by a plan that was found before. A twin that stays: under one function a plan is handed on
// in memory, which costs every fill of a section some 30 ns.
pub(crate) fn fill_planned(s: Start, plan: Plan, list: &mut [u8]) -> Report
    requires { InBlocks s × Planned s.section s.processor plan }
    ensures { FillsBlocks s list.old list.new result }
{
    let w = s.section;
    let state = state_at(s);
    match plan {
        Plan::Constant(m) => fill_bytes(m, w.count, s.quota, state, list),
        Plan::Learnt(m) => fill_bytes_learning(task_of(s, m), state, list),
    }
}

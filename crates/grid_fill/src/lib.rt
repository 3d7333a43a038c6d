// Fills of a lent list with a grid processor's addresses in a section of a grid. ready.rt puts the
// questions; plans.rt finds what every row of the fill goes by, and filling.rt fills row by row.
#![tactic(auto)]

ghost use Rattle.model.specs.Grids.{grid_section_with};
ghost use Rattle.grid_fill.specs.Ready.{Accepted, FillsFrom};
ghost use Rattle.grid_fill.specs.Answers.{GridFilledBytes};

use filling::fill_rows;
use model::{GridSection, Refusal, Three};
use plans::{plan_of, stand_at};
use ready::{Start, ask_fill};
use walk::moves::Report;

mod entries;
mod filling;
mod plans;
mod ready;
mod rows;
mod steps;
mod turns;

// The fill that passed its questions.
fn fill_from(s: Start, list: &mut [u8]) -> Report
    requires { Accepted s }
    ensures { FillsFrom s list.old list.new result }
{
    let plan = plan_of(s.shares, s.elements, s.rows);
    let at = stand_at(plan, s.place);
    fill_rows(plan, at, s.quota, list)
}

// A fill of bytes, 4 to an address, lowest first.
pub fn fill_into_bytes(
    x: GridSection,
    sizes: Three<&[u8]>,
    processor: i64,
    place: i64,
    quota: i64,
    list: &mut [u8],
) -> Result<Report, Refusal>
    ensures { GridFilledBytes (record { section = grid_section_with x sizes.entry.first.now sizes.entry.second.now sizes.entry.third.now; processor = processor; place = place; quota = quota; bytes = list.old }) list.new result }
{
    let s = ask_fill(x, sizes, processor, place, quota)?;
    Ok(fill_from(s, list))
}

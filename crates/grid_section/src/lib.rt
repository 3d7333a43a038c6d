// Sections of arrays of rank 1 to 3 on a grid of processors. The questions are put in lines.rt;
// steps.rt has the count and the steps of each dimension, places.rt a grid processor's share of the
// section and its first place. Here are the calls, which take whatever numbers and lists.
#![tactic(auto)]

ghost use Rattle.std.specs.Prelude.{◌≡◌};
ghost use Rattle.model.specs.Calls.{ToldApart};
ghost use Rattle.model.specs.Grids.{grid_section_with};
ghost use Rattle.model.specs.GridCalls.{grid_steps, grid_first_place};
ghost use Rattle.model.specs.Refusals.{refusals};
ghost use Rattle.section.specs.Answers.{placed_as};
ghost use Rattle.grid_section.specs.Answers.{steps_as};

use lines::ask_lines;
use model::{GridSection, Position, Refusal, Three};
use places::placed_on;
use steps::{GridSteps, steps_on};

pub mod lines;
pub mod places;
pub mod steps;

// The count of a section, and each dimension's count and steps.
pub fn section_steps(x: GridSection, sizes: Three<&[u8]>) -> Result<GridSteps, Refusal>
    ensures result_value { steps_as result ≡ grid_steps (grid_section_with x sizes.entry.first.now sizes.entry.second.now sizes.entry.third.now) }
    ensures told_apart { ToldApart (refusals result) }
{
    let s = ask_lines(x, sizes)?;
    Ok(steps_on(s))
}

// The lowest position whose element the grid processor owns, or the count if there is none.
pub fn first_place(x: GridSection, sizes: Three<&[u8]>, processor: i64) -> Result<Position, Refusal>
    ensures result_value { placed_as result ≡ grid_first_place (grid_section_with x sizes.entry.first.now sizes.entry.second.now sizes.entry.third.now) processor }
    ensures told_apart { ToldApart (refusals result) }
{
    let s = ask_lines(x, sizes)?;
    placed_on(s, sizes, processor)
}

// Sections of an array that is aligned to a template dealt in blocks or in runs: which are
// accepted, their steps, and each processor's first place. The questions are put in questions.rt,
// shares.rt has what goes by the dealing, and the arithmetic of an accepted section stands in the
// other modules.
#![tactic(auto)]

ghost use Rattle.std.specs.Prelude.{◌≡◌};
ghost use Rattle.model.specs.Mappings.{section_with};
ghost use Rattle.model.specs.Calls.{section_steps, first_place_at, ToldApart};
ghost use Rattle.model.specs.Refusals.{refusals};
ghost use Rattle.section.specs.Answers.{steps_as, placed_as};

use model::{Position, Refusal, Section};
use place::placed_in;
use questions::ask_section;
use report::{SectionSteps, report_of};
use steps::steps_by;

mod count;
pub mod elements;
pub mod going;
pub mod place;
pub mod positions;
pub mod questions;
pub mod report;
pub mod shares;
pub mod steps;
pub mod strides;

// The count of a section and its steps.
pub fn section_steps(x: Section, sizes: &[u8]) -> Result<SectionSteps, Refusal>
    ensures result_value { steps_as result ≡ section_steps (section_with x sizes.now) }
    ensures told_apart { ToldApart (refusals result) }
{
    let w = ask_section(x, sizes)?;
    Ok(report_of(w.count, steps_by(w, x.mapping.dealing)))
}

// The lowest position whose element the processor owns, or the count if there is none.
pub fn first_place(x: Section, sizes: &[u8], processor: i64) -> Result<Position, Refusal>
    ensures result_value { placed_as result ≡ first_place_at (section_with x sizes.now) processor }
    ensures told_apart { ToldApart (refusals result) }
{
    let w = ask_section(x, sizes)?;
    placed_in(w, x.mapping.dealing, sizes, processor)
}

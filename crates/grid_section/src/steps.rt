// The count of an accepted section of a grid, and each dimension's steps.
ghost use Rattle.std.specs.Prelude.{◌≡◌};
ghost use Rattle.section.specs.Strides.{Bounded};
ghost use Rattle.section.specs.Answers as section;
ghost use Rattle.grid_section.specs.Lines.{Limited};
ghost use Rattle.grid_section.specs.Answers.{report_as, report_on, steps_on};

use crate::lines::{Line, Lines, product_of};
use model::Three;
use section::report::{SectionSteps, report_of};
use section::steps::steps_by;

// The count of the section, and each dimension's report.
#[derive(Clone, Copy)]
pub struct GridSteps {
    pub count: u64,
    pub dimensions: Three<SectionSteps>,
}

fn report_on(x: Line) -> SectionSteps
    requires { Bounded x.section }
    ensures { section.report_as result ≡ report_on x }
{
    report_of(x.section.count, steps_by(x.section, x.dealing))
}

pub fn steps_on(x: Lines) -> GridSteps
    requires { Limited x }
    ensures { report_as result ≡ steps_on x }
{
    GridSteps {
        count: product_of(
            x.first.section.count,
            x.second.section.count,
            x.third.section.count,
        ),
        dimensions: Three {
            first: report_on(x.first),
            second: report_on(x.second),
            third: report_on(x.third),
        },
    }
}

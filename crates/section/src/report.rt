// The steps of a section as they are reported, with the sign of each column move.
ghost use Rattle.std.specs.Prelude.{◌≡◌, ◌≤◌};
ghost use Rattle.model.specs.Calls.{steps_report};
ghost use Rattle.section.specs.Answers.{step_as, report_as, report_by, Short};

use model::{Step, Steps};

// A step: its cells, its courses, and its column move, negative where it goes back.
#[derive(Clone, Copy)]
pub struct Reported {
    pub cells: u64,
    pub courses: u64,
    pub column: i64,
}

// The count of a section with its steps, the processor step before the return step.
#[derive(Clone, Copy)]
pub enum SectionSteps {
    NoStep(u64),
    OneStep(u64, Reported),
    TwoSteps(u64, Reported, Reported),
}

// A step that goes back moves its columns back.
fn report_step(r: Step, back: bool) -> Reported
    requires { r.column ≤ 2147483647 }
    ensures { step_as result ≡ report_by back r }
{
    let y = r.column as i64;
    Reported {
        cells: r.cells,
        courses: r.courses,
        column: if back { -y } else { y },
    }
}

// The steps of a section of so many elements.
pub fn report_of(count: u64, s: Steps) -> SectionSteps
    requires { Short 2147483647 s }
    ensures { report_as result ≡ steps_report count s }
{
    match s {
        Steps::NoStep => SectionSteps::NoStep(count),
        Steps::OneStep(x) => SectionSteps::OneStep(count, report_step(x, false)),
        Steps::TwoSteps(x, y) => {
            SectionSteps::TwoSteps(count, report_step(x, false), report_step(y, true))
        }
    }
}

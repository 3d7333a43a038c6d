// The C functions of sections and fills. The C interface lists the numbers of a mapping and a section
// in each, and has a form of each for either dealing.
ghost use Rattle.std.specs.Prelude.{◌≡◌};
ghost use Rattle.model.specs.Mappings.{cyclic, section_with};
ghost use Rattle.model.specs.Calls.{no_report, section_steps, first_place_at};
ghost use Rattle.section.specs.Answers.{step_as, report_as, placed_as};
ghost use Rattle.fill.specs.Answers as fill;
ghost use Rattle.hpfaddr.specs.Fields.{steps_fields, placed_fields, section_from, fill_of, filled_fields, FilledFields};
ghost use Rattle.hpfaddr.specs.Sizes.{StepsFit, PlacedFits, FilledFits};

use crate::parameters::{mapping_of, section_of};
use model::{Dealing, Position, Refusal, Section};
use section::report::{Reported, SectionSteps};
use walk::moves::Report;

#[repr(C)]
#[derive(Clone, Copy)]
pub struct HpfSteps {
    pub refusal: u64,
    pub count: u64,
    pub steps: u64,
    pub cells: u64,
    pub courses: u64,
    pub column: i64,
    pub return_cells: u64,
    pub return_courses: u64,
    pub return_column: i64,
}

// A step that there is not: its fields are 0.
const NOT_THERE: Reported = Reported {
    cells: 0,
    courses: 0,
    column: 0,
};

fn step_fields(refusal: u64, count: u64, steps: u64, step: Reported, back: Reported) -> HpfSteps
    ensures { steps_fields result ≡ record { refusal = refusal; count = count; steps = steps; first = step_as step; second = step_as back } }
{
    HpfSteps {
        refusal,
        count,
        steps,
        cells: step.cells,
        courses: step.courses,
        column: step.column,
        return_cells: back.cells,
        return_courses: back.courses,
        return_column: back.column,
    }
}

pub(crate) fn no_step(refusal: u32, count: u64) -> HpfSteps
    ensures { steps_fields result ≡ record { refusal = refusal; count = count; steps = 0; first = no_report; second = no_report } }
{
    step_fields(u64::from(refusal), count, 0, NOT_THERE, NOT_THERE)
}

impl From<SectionSteps> for HpfSteps {
    ghost from_gives = { λ s r. steps_fields r ≡ report_as s };

    fn from(s: SectionSteps) -> HpfSteps {
        match s {
            SectionSteps::NoStep(n) => no_step(0, n),
            SectionSteps::OneStep(n, r) => step_fields(0, n, 1, r, NOT_THERE),
            SectionSteps::TwoSteps(n, r, w) => step_fields(0, n, 2, r, w),
        }
    }
}

// Inlined: a call would copy the section that it is given and the steps that it answers.
#[inline(always)]
pub(crate) fn steps_of(x: Section, sizes: &[u8]) -> HpfSteps
    ensures result_value { steps_fields result ≡ section_steps (section_with x sizes.now) }
    ensures steps_fit { StepsFit (steps_fields result) }
{
    match section::section_steps(x, sizes) {
        Ok(s) => HpfSteps::from(s),
        Err(e) => no_step(e.number(), 0),
    }
}

// The count of a section and its steps: the processor step, or the one step, and the
// return step, whose column move is negative.
#[unsafe(no_mangle)]
pub extern "C" fn hpf_section_steps(
    cells: i64,
    processors: i64,
    block: i64,
    stride: i64,
    offset: i64,
    size: i64,
    array_lower: i64,
    template_lower: i64,
    lower: i64,
    upper: i64,
    step: i64,
) -> HpfSteps
    ensures result_value { steps_fields result ≡ section_steps (section_from cells processors (cyclic block) stride offset size array_lower template_lower lower upper step) }
    ensures steps_fit { StepsFit (steps_fields result) }
{
    let d = Dealing::Cyclic(block);
    let m = mapping_of(
        cells,
        processors,
        d,
        stride,
        offset,
        size,
        array_lower,
        template_lower,
    );
    let none = [0u8; 0];
    let x = section_of(m, lower, upper, step);
    steps_of(x, &none)
}

#[repr(C)]
#[derive(Clone, Copy)]
pub struct HpfPlaced {
    pub refusal: u32,
    pub place: u32,
}

// Not a `From`, which may require nothing: the place has to fit its field.
pub(crate) fn fields_of_place(p: Result<Position, Refusal>) -> HpfPlaced
    requires { PlacedFits (placed_as p) }
    ensures { placed_fields result ≡ placed_as p }
{
    match p {
        Ok(t) => HpfPlaced {
            refusal: 0,
            place: t.0 as u32,
        },
        Err(e) => HpfPlaced {
            refusal: e.number(),
            place: 0,
        },
    }
}

pub(crate) fn placed_of(x: Section, sizes: &[u8], processor: i64) -> HpfPlaced
    ensures result_value { placed_fields result ≡ first_place_at (section_with x sizes.now) processor }
    ensures placed_fits { PlacedFits (placed_fields result) }
{
    fields_of_place(section::first_place(x, sizes, processor))
}

// The lowest position whose element a processor owns, or the count.
#[unsafe(no_mangle)]
pub extern "C" fn hpf_first_place(
    cells: i64,
    processors: i64,
    block: i64,
    stride: i64,
    offset: i64,
    size: i64,
    array_lower: i64,
    template_lower: i64,
    lower: i64,
    upper: i64,
    step: i64,
    processor: i64,
) -> HpfPlaced
    ensures result_value { placed_fields result ≡ first_place_at (section_from cells processors (cyclic block) stride offset size array_lower template_lower lower upper step) processor }
    ensures placed_fits { PlacedFits (placed_fields result) }
{
    let d = Dealing::Cyclic(block);
    let m = mapping_of(
        cells,
        processors,
        d,
        stride,
        offset,
        size,
        array_lower,
        template_lower,
    );
    let none = [0u8; 0];
    let x = section_of(m, lower, upper, step);
    placed_of(x, &none, processor)
}

#[repr(C)]
#[derive(Clone, Copy)]
pub struct HpfFilled {
    pub refusal: u32,
    pub entries: u32,
    pub tries: u32,
    pub place: u32,
}

// Not a `From`, which may require nothing: the numbers have to fit their fields.
pub(crate) fn fields_of(f: Result<Report, Refusal>) -> HpfFilled
    requires { FilledFits (fill.report_as f) }
    ensures { filled_fields result ≡ fill.report_as f }
{
    match f {
        Ok(r) => HpfFilled {
            refusal: 0,
            entries: r.entries as u32,
            tries: r.tries as u32,
            place: r.place.0 as u32,
        },
        Err(e) => HpfFilled {
            refusal: e.number(),
            entries: 0,
            tries: 0,
            place: 0,
        },
    }
}

pub(crate) fn filled_of(
    x: Section,
    sizes: &[u8],
    processor: i64,
    place: i64,
    quota: i64,
    list: &mut [u8],
) -> HpfFilled
    ensures fields { FilledFields (fill_of (section_with x sizes.now) processor place quota list.old) list.new result }
    ensures filled_fits { FilledFits (filled_fields result) }
{
    fields_of(fill::fill_into_bytes(x, sizes, processor, place, quota, list))
}

// A fill of a list of bytes, 4 to an address, lowest first.
#[unsafe(no_mangle)]
pub extern "C" fn hpf_fill(
    cells: i64,
    processors: i64,
    block: i64,
    stride: i64,
    offset: i64,
    size: i64,
    array_lower: i64,
    template_lower: i64,
    lower: i64,
    upper: i64,
    step: i64,
    processor: i64,
    place: i64,
    quota: i64,
    list: &mut [u8],
) -> HpfFilled
    ensures fields { FilledFields (fill_of (section_from cells processors (cyclic block) stride offset size array_lower template_lower lower upper step) processor place quota list.old) list.new result }
    ensures filled_fits { FilledFits (filled_fields result) }
{
    let d = Dealing::Cyclic(block);
    let m = mapping_of(
        cells,
        processors,
        d,
        stride,
        offset,
        size,
        array_lower,
        template_lower,
    );
    let none = [0u8; 0];
    let x = section_of(m, lower, upper, step);
    filled_of(x, &none, processor, place, quota, list)
}

// The C functions of sections and fills of arrays on grids of processors.
ghost use Rattle.std.specs.Prelude.{◌≡◌};
ghost use Rattle.model.specs.GridCalls.{grid_steps, grid_first_place};
ghost use Rattle.grid_section.specs.Answers.{steps_as};
ghost use Rattle.hpfaddr.specs.Fields.{placed_fields, filled_fields};
ghost use Rattle.hpfaddr.specs.GridFields.{dimension_section, grid_section_numbers, grid_section_from, grid_steps_fields, grid_fill_of, GridFilledFields};
ghost use Rattle.hpfaddr.specs.Sizes.{GridStepsFit, PlacedFits, FilledFits};

use crate::grids::{HpfDimension, HpfGrid, dimension_of};
use crate::parameters::section_of;
use crate::sections::{HpfFilled, HpfPlaced, HpfSteps, fields_of, fields_of_place, no_step};
use grid_section::steps::GridSteps;
use model::{GridSection, Refusal, Section, Three};

#[repr(C)]
#[derive(Clone, Copy)]
pub struct HpfTriplet {
    pub lower: i64,
    pub upper: i64,
    pub stride: i64,
}

#[repr(C)]
#[derive(Clone, Copy)]
pub struct HpfGridSection {
    pub grid: HpfGrid,
    pub triplets: [HpfTriplet; 3],
}

fn dimension_section(d: HpfDimension, t: HpfTriplet) -> Section
    ensures { result ≡ dimension_section d t }
{
    section_of(dimension_of(d), t.lower, t.upper, t.stride)
}

fn grid_section_of(x: HpfGridSection) -> GridSection
    ensures { result ≡ grid_section_numbers x }
{
    let g = x.grid;
    let ds = g.dimensions;
    let d = ds[0];
    let e = ds[1];
    let f = ds[2];
    let ts = x.triplets;
    let t = ts[0];
    let u = ts[1];
    let v = ts[2];
    GridSection {
        rank: g.rank,
        dimensions: Three {
            first: dimension_section(d, t),
            second: dimension_section(e, u),
            third: dimension_section(f, v),
        },
    }
}

#[repr(C)]
#[derive(Clone, Copy)]
pub struct HpfGridSteps {
    pub refusal: u64,
    pub count: u64,
    pub dimensions: [HpfSteps; 3],
}

impl From<Result<GridSteps, Refusal>> for HpfGridSteps {
    ghost from_gives = { λ s r. grid_steps_fields r ≡ steps_as s };

    fn from(steps: Result<GridSteps, Refusal>) -> HpfGridSteps {
        match steps {
            Ok(s) => HpfGridSteps {
                refusal: 0,
                count: s.count,
                dimensions: [
                    s.dimensions.first.into(),
                    s.dimensions.second.into(),
                    s.dimensions.third.into(),
                ],
            },
            Err(e) => HpfGridSteps {
                refusal: u64::from(e.number()),
                count: 0,
                dimensions: [no_step(0, 0); 3],
            },
        }
    }
}

// The count of a section, and each dimension's count and steps.
#[unsafe(no_mangle)]
pub extern "C" fn hpf_grid_section_steps(
    x: HpfGridSection,
    first_sizes: &[u8],
    second_sizes: &[u8],
    third_sizes: &[u8],
) -> HpfGridSteps
    ensures result_value { grid_steps_fields result ≡ grid_steps (grid_section_from x first_sizes.now second_sizes.now third_sizes.now) }
    ensures grid_steps_fit { GridStepsFit (grid_steps_fields result) }
{
    let y = grid_section_of(x);
    let sizes = Three {
        first: first_sizes,
        second: second_sizes,
        third: third_sizes,
    };
    HpfGridSteps::from(grid_section::section_steps(y, sizes))
}

// The lowest position whose element a grid processor owns, or the count.
#[unsafe(no_mangle)]
pub extern "C" fn hpf_grid_first_place(
    x: HpfGridSection,
    first_sizes: &[u8],
    second_sizes: &[u8],
    third_sizes: &[u8],
    processor: i64,
) -> HpfPlaced
    ensures result_value { placed_fields result ≡ grid_first_place (grid_section_from x first_sizes.now second_sizes.now third_sizes.now) processor }
    ensures placed_fits { PlacedFits (placed_fields result) }
{
    let y = grid_section_of(x);
    let sizes = Three {
        first: first_sizes,
        second: second_sizes,
        third: third_sizes,
    };
    fields_of_place(grid_section::first_place(y, sizes, processor))
}

// A fill of a list of bytes, 4 to an address, lowest first.
#[unsafe(no_mangle)]
pub extern "C" fn hpf_grid_fill(
    x: HpfGridSection,
    first_sizes: &[u8],
    second_sizes: &[u8],
    third_sizes: &[u8],
    processor: i64,
    place: i64,
    quota: i64,
    list: &mut [u8],
) -> HpfFilled
    ensures grid_filled_fields { GridFilledFields (grid_fill_of (grid_section_from x first_sizes.now second_sizes.now third_sizes.now) processor place quota list.old) list.new result }
    ensures filled_fits { FilledFits (filled_fields result) }
{
    let y = grid_section_of(x);
    let sizes = Three {
        first: first_sizes,
        second: second_sizes,
        third: third_sizes,
    };
    fields_of(grid_fill::fill_into_bytes(y, sizes, processor, place, quota, list))
}

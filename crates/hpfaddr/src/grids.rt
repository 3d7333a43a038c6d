// The C functions of arrays on grids of processors: a struct of numbers for each dimension, and beside
// it a list of sizes, which is looked at where the dimension is dealt by one. The C interface has these
// structs, and names the three lists one by one.
ghost use Rattle.std.specs.Prelude.{◌≡◌};
ghost use Rattle.model.specs.GridCalls.{grid_ownership, grid_going_back};
ghost use Rattle.grid.specs.Answers.{indices_from, found_as};
ghost use Rattle.hpfaddr.specs.Fields.{owned_fields};
ghost use Rattle.hpfaddr.specs.GridFields.{dimension_numbers, grid_numbers, grid_from, grid_found_fields};
ghost use Rattle.hpfaddr.specs.Sizes.{OwnedFits, GridFoundFits};

use crate::parameters::{dealing_of, mapping_of};
use crate::{HpfOwned, fields_of};
use grid::elements::Indices;
use model::{Grid, Mapping, Refusal, Three};

#[repr(C)]
#[derive(Clone, Copy)]
pub struct HpfDimension {
    pub cells: i64,
    pub processors: i64,
    pub dealing: i64,
    pub block: i64,
    pub stride: i64,
    pub offset: i64,
    pub size: i64,
    pub array_lower: i64,
    pub template_lower: i64,
}

#[repr(C)]
#[derive(Clone, Copy)]
pub struct HpfGrid {
    pub rank: i64,
    pub dimensions: [HpfDimension; 3],
}

pub(crate) fn dimension_of(d: HpfDimension) -> Mapping
    ensures { result ≡ dimension_numbers d }
{
    mapping_of(
        d.cells,
        d.processors,
        dealing_of(d.dealing, d.block),
        d.stride,
        d.offset,
        d.size,
        d.array_lower,
        d.template_lower,
    )
}

fn grid_of(g: HpfGrid) -> Grid
    ensures { result ≡ grid_numbers g }
{
    let ds = g.dimensions;
    let first = ds[0];
    let second = ds[1];
    let third = ds[2];
    Grid {
        rank: g.rank,
        dimensions: Three {
            first: dimension_of(first),
            second: dimension_of(second),
            third: dimension_of(third),
        },
    }
}

// Grid processor and local address of the element of declared indices.
#[unsafe(no_mangle)]
pub extern "C" fn hpf_grid_ownership(
    g: HpfGrid,
    first_sizes: &[u8],
    second_sizes: &[u8],
    third_sizes: &[u8],
    first: i64,
    second: i64,
    third: i64,
) -> HpfOwned
    ensures result_value { owned_fields result ≡ grid_ownership (grid_from g first_sizes.now second_sizes.now third_sizes.now) (indices_from first second third) }
    ensures owned_fits { OwnedFits (owned_fields result) }
{
    let x = grid_of(g);
    let sizes = Three {
        first: first_sizes,
        second: second_sizes,
        third: third_sizes,
    };
    let indices = Three {
        first,
        second,
        third,
    };
    fields_of(grid::ownership(x, sizes, indices))
}

#[repr(C)]
#[derive(Clone, Copy)]
pub struct HpfGridFound {
    pub refusal: u32,
    pub first: i32,
    pub second: i32,
    pub third: i32,
}

// Not a `From`, which may require nothing: the indices have to fit their fields.
fn fields_of_found(f: Result<Indices, Refusal>) -> HpfGridFound
    requires { GridFoundFits (found_as f) }
    ensures { grid_found_fields result ≡ found_as f }
{
    match f {
        Ok(x) => HpfGridFound {
            refusal: 0,
            first: x.first.0 as i32,
            second: x.second.0 as i32,
            third: x.third.0 as i32,
        },
        Err(e) => HpfGridFound {
            refusal: e.number(),
            first: 0,
            second: 0,
            third: 0,
        },
    }
}

// The declared indices of the element at an address of a grid processor.
#[unsafe(no_mangle)]
pub extern "C" fn hpf_grid_going_back(
    g: HpfGrid,
    first_sizes: &[u8],
    second_sizes: &[u8],
    third_sizes: &[u8],
    processor: i64,
    address: i64,
) -> HpfGridFound
    ensures result_value { grid_found_fields result ≡ grid_going_back (grid_from g first_sizes.now second_sizes.now third_sizes.now) processor address }
    ensures grid_found_fits { GridFoundFits (grid_found_fields result) }
{
    let x = grid_of(g);
    let sizes = Three {
        first: first_sizes,
        second: second_sizes,
        third: third_sizes,
    };
    fields_of_found(grid::going_back(x, sizes, processor, address))
}

// The C functions of sections and fills for GEN_BLOCK templates, twins of the cyclic ones in
// sections.rt for the C interface.
ghost use Rattle.std.specs.Prelude.{◌≡◌};
ghost use Rattle.model.specs.Calls.{section_steps, first_place_at};
ghost use Rattle.hpfaddr.specs.Fields.{by_sizes, steps_fields, placed_fields, section_from, fill_of, filled_fields, FilledFields};
ghost use Rattle.hpfaddr.specs.Sizes.{StepsFit, PlacedFits, FilledFits};

use crate::parameters::{mapping_of, section_of};
use crate::sections::{HpfFilled, HpfPlaced, HpfSteps, filled_of, placed_of, steps_of};
use model::Dealing;

// The count of a section and its one step.
#[unsafe(no_mangle)]
pub extern "C" fn hpf_gen_block_section_steps(
    cells: i64,
    processors: i64,
    sizes: &[u8],
    stride: i64,
    offset: i64,
    size: i64,
    array_lower: i64,
    template_lower: i64,
    lower: i64,
    upper: i64,
    step: i64,
) -> HpfSteps
    ensures result_value { steps_fields result ≡ section_steps (section_from cells processors (by_sizes sizes.now) stride offset size array_lower template_lower lower upper step) }
    ensures steps_fit { StepsFit (steps_fields result) }
{
    let d = Dealing::GenBlock;
    let m = mapping_of(
        cells,
        processors,
        d,
        stride,
        offset,
        size,
        array_lower,
        template_lower,
    );
    let x = section_of(m, lower, upper, step);
    steps_of(x, sizes)
}

// The lowest position whose element a processor owns, or the count.
#[unsafe(no_mangle)]
pub extern "C" fn hpf_gen_block_first_place(
    cells: i64,
    processors: i64,
    sizes: &[u8],
    stride: i64,
    offset: i64,
    size: i64,
    array_lower: i64,
    template_lower: i64,
    lower: i64,
    upper: i64,
    step: i64,
    processor: i64,
) -> HpfPlaced
    ensures result_value { placed_fields result ≡ first_place_at (section_from cells processors (by_sizes sizes.now) stride offset size array_lower template_lower lower upper step) processor }
    ensures placed_fits { PlacedFits (placed_fields result) }
{
    let d = Dealing::GenBlock;
    let m = mapping_of(
        cells,
        processors,
        d,
        stride,
        offset,
        size,
        array_lower,
        template_lower,
    );
    let x = section_of(m, lower, upper, step);
    placed_of(x, sizes, processor)
}

// A fill of a list of bytes, 4 to an address, lowest first.
#[unsafe(no_mangle)]
pub extern "C" fn hpf_gen_block_fill(
    cells: i64,
    processors: i64,
    sizes: &[u8],
    stride: i64,
    offset: i64,
    size: i64,
    array_lower: i64,
    template_lower: i64,
    lower: i64,
    upper: i64,
    step: i64,
    processor: i64,
    place: i64,
    quota: i64,
    list: &mut [u8],
) -> HpfFilled
    ensures fields { FilledFields (fill_of (section_from cells processors (by_sizes sizes.now) stride offset size array_lower template_lower lower upper step) processor place quota list.old) list.new result }
    ensures filled_fits { FilledFits (filled_fields result) }
{
    let d = Dealing::GenBlock;
    let m = mapping_of(
        cells,
        processors,
        d,
        stride,
        offset,
        size,
        array_lower,
        template_lower,
    );
    let x = section_of(m, lower, upper, step);
    filled_of(x, sizes, processor, place, quota, list)
}

// Questions 8, 10 and 11 of a fill, on whatever numbers a caller passes, after those about the section
// of a grid; and the fill that passes them, on natural numbers.
ghost use Rattle.std.specs.Prelude.{◌≡◌, ◌<◌};
ghost use Rattle.model.specs.Mappings.{dealing_with};
ghost use Rattle.model.specs.Grids.{grid_section_with};
ghost use Rattle.model.specs.Refusals.{by_number};
ghost use Rattle.mapping.specs.Parts.{Listed};
ghost use Rattle.section.specs.Strides.{Bounded};
ghost use Rattle.grid_section.specs.Lines.{Limited, AllListed};
ghost use Rattle.grid_fill.specs.Ready.{held_in, ready_in, ready_of};

use grid_section::lines::{Line, Lines, ask_lines};
use grid_section::places::{Shares, is_place, is_processor, shares_of};
use mapping::parts::{elements_in, part_of};
use mapping::questions::{natural, within};
use model::{GridSection, LEAST_TRIES, MOST_TRIES, Position, Refusal, Three};

// A fill that passed its questions: the grid processor's shares, how many elements its first coordinate
// has and how many its second, the place to start from and the quota. Not one type with fill's Start: the
// two have only the place and the quota in common.
#[derive(Clone, Copy)]
pub struct Start {
    pub shares: Shares,
    pub elements: u64,
    pub rows: u64,
    pub place: Position,
    pub quota: u64,
}

// How many elements of an accepted dimension a coordinate has.
fn held_in(x: Line, sizes: &[u8], processor: u64) -> u64
    requires { Bounded x.section × Listed x.section.layout (dealing_with x.dealing sizes.now) × (processor < x.section.layout.processors) }
    ensures { result ≡ held_in x sizes.now processor }
{
    let l = x.section.layout;
    let part = part_of(l, x.dealing, sizes, processor);
    elements_in(l, processor, part)
}

// Questions 8, 10 and 11, and the fill that passes them.
fn ready_in(
    x: Lines,
    sizes: Three<&[u8]>,
    processor: i64,
    place: i64,
    quota: i64,
) -> Result<Start, Refusal>
    requires { Limited x × AllListed x sizes.first.now sizes.second.now sizes.third.now }
    ensures { by_number result ≡ ready_in x sizes.entry.first.now sizes.entry.second.now sizes.entry.third.now processor place quota }
{
    if !is_processor(x, processor) {
        return Err(Refusal::Processor);
    }
    let shares = shares_of(x, sizes, natural(processor));
    if !is_place(shares, place) {
        return Err(Refusal::Place);
    }
    if !within(LEAST_TRIES as i64, MOST_TRIES as i64, quota) {
        return Err(Refusal::Quota);
    }
    Ok(Start {
        shares,
        elements: held_in(x.first, sizes.first, shares.first.processor),
        rows: held_in(x.second, sizes.second, shares.second.processor),
        place: Position(natural(place)),
        quota: natural(quota),
    })
}

// The questions about the section, and then these.
pub fn ask_fill(
    x: GridSection,
    sizes: Three<&[u8]>,
    processor: i64,
    place: i64,
    quota: i64,
) -> Result<Start, Refusal>
    ensures { by_number result ≡ ready_of (grid_section_with x sizes.entry.first.now sizes.entry.second.now sizes.entry.third.now) processor place quota }
{
    let y = ask_lines(x, sizes)?;
    ready_in(y, sizes, processor, place, quota)
}

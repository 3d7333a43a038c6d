// The questions about a grid on whatever numbers and lists a caller passes, 17 before and after those of
// each dimension; and the dimensions of a grid that passes them.
ghost use Rattle.std.specs.Prelude.{◌≡◌};
ghost use Rattle.model.specs.Refusals.{by_number};
ghost use Rattle.grid.specs.Dimensions.{asked_of, three_of, gridded_of};

use crate::ranks::{products_fit, single};
use mapping::questions::{ask_mapping, list_fits, within};
use model::{Dealing, Grid, Layout, Mapping, Refusal, Three};

// An accepted dimension: its layout, its first index, and how it is dealt.
#[derive(Clone, Copy)]
pub struct Dimension {
    pub layout: Layout,
    pub lower: i64,
    pub dealing: Dealing,
}

// Questions 1 to 5, 15 and 16 of one dimension.
fn ask_dimension(m: Mapping, sizes: &[u8]) -> Result<Dimension, Refusal>
    ensures { by_number result ≡ asked_of m sizes.now }
{
    let accepted = ask_mapping(m, sizes, list_fits(m, sizes))?;
    Ok(Dimension {
        layout: accepted.layout,
        lower: accepted.lower,
        dealing: m.dealing,
    })
}

pub type Dimensions = Three<Dimension>;

// Each dimension's questions, and then 17 of the products.
fn ask_dimensions(m: Three<Mapping>, sizes: Three<&[u8]>) -> Result<Dimensions, Refusal>
    ensures { by_number result ≡ three_of m.first m.second m.third sizes.entry.first.now sizes.entry.second.now sizes.entry.third.now }
{
    let first = ask_dimension(m.first, sizes.first)?;
    let second = ask_dimension(m.second, sizes.second)?;
    let third = ask_dimension(m.third, sizes.third)?;
    if !products_fit(first.layout, second.layout, third.layout) {
        return Err(Refusal::Grid);
    }
    Ok(Three {
        first,
        second,
        third,
    })
}

// 17 of the rank, and then all of these.
pub fn ask_grid(g: Grid, sizes: Three<&[u8]>) -> Result<Dimensions, Refusal>
    ensures { by_number result ≡ gridded_of g sizes.entry.first.now sizes.entry.second.now sizes.entry.third.now }
{
    if !within(1, 3, g.rank) {
        return Err(Refusal::Grid);
    }
    ask_dimensions(g.dimensions.up_to(g.rank, single()), sizes)
}

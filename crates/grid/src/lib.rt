// Arrays of rank 1 to 3 on a grid of processors: a mapping for each dimension, each with its own
// processors. The questions are put in dimensions.rt and, about the rank and the products, in ranks.rt;
// elements.rt has owners and local addresses. Here are the calls, which take whatever numbers and lists.
#![tactic(auto)]

ghost use Rattle.std.specs.Prelude.{◌≡◌};
ghost use Rattle.model.specs.Calls.{ToldApart};
ghost use Rattle.model.specs.Grids.{grid_with};
ghost use Rattle.model.specs.GridCalls.{grid_ownership, grid_going_back};
ghost use Rattle.model.specs.Refusals.{refusals};
ghost use Rattle.mapping.specs.Answers.{owned_as};
ghost use Rattle.grid.specs.Answers.{found_as};

use dimensions::ask_grid;
use elements::{Indices, found_on, owned_on};
use mapping::parts::Home;
use model::{Grid, Refusal, Three};

mod dimensions;
pub mod elements;
pub mod ranks;

// Grid processor and local address of the element of three declared indices.
pub fn ownership(g: Grid, sizes: Three<&[u8]>, indices: Three<i64>) -> Result<Home, Refusal>
    ensures result_value { owned_as result ≡ grid_ownership (grid_with g sizes.entry.first.now sizes.entry.second.now sizes.entry.third.now) indices }
    ensures told_apart { ToldApart (refusals result) }
{
    let x = ask_grid(g, sizes)?;
    owned_on(x, sizes, indices.up_to(g.rank, 0))
}

// The declared indices of the element at an address of a grid processor.
pub fn going_back(
    g: Grid,
    sizes: Three<&[u8]>,
    processor: i64,
    address: i64,
) -> Result<Indices, Refusal>
    ensures result_value { found_as result ≡ grid_going_back (grid_with g sizes.entry.first.now sizes.entry.second.now sizes.entry.third.now) processor address }
    ensures told_apart { ToldApart (refusals result) }
{
    let x = ask_grid(g, sizes)?;
    found_on(x, sizes, processor, address)
}

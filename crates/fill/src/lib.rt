// Fills of a lent list with a processor's addresses in a section. ready.rt puts the questions. In
// blocks plan.rt finds the moves that drive the section's walk, and start.rt hands them to the loops
// of the crate walk, which fill bytes; long.rt fills long lists by their periods, and runs.rt along a
// run. ways.rt has either, found once for many fills. words.rt makes a fill of 32-bit words of fills of bytes.
#![tactic(auto)]

ghost use Rattle.std.specs.Prelude.{◌≡◌};
ghost use Rattle.model.specs.Mappings.{section_with};
ghost use Rattle.model.specs.Calls as calls;
ghost use Rattle.model.specs.Refusals.{refusals};
ghost use Rattle.fill.specs.Answers.{outcome_as, FilledBytes};

use model::{Refusal, Section};
use ready::ask_fill;
use runs::fill_bytes_from;
use walk::moves::Report;
use words::fill_from;

mod long;
pub mod plan;
pub mod ready;
mod runs;
mod start;
pub mod ways;
pub mod words;

// A fill of 32-bit words. Not one generic function with that of bytes: this one is made of fills of bytes.
pub fn fill(
    x: Section,
    sizes: &[u8],
    processor: i64,
    place: i64,
    quota: i64,
    list: &mut [u32],
) -> Result<Report, Refusal>
    ensures list_after { outcome_as result list.new ≡ calls.fill (record { section = section_with x sizes.now; processor = processor; place = place; quota = quota; list = list.old }) }
    ensures told_apart { calls.ToldApart (refusals result) }
{
    let s = ask_fill(x, sizes, processor, place, quota)?;
    Ok(fill_from(s, list))
}

// A fill of bytes, 4 to an address, lowest first.
pub fn fill_into_bytes(
    x: Section,
    sizes: &[u8],
    processor: i64,
    place: i64,
    quota: i64,
    list: &mut [u8],
) -> Result<Report, Refusal>
    ensures { FilledBytes (record { section = section_with x sizes.now; processor = processor; place = place; quota = quota; bytes = list.old }) list.new result }
{
    let s = ask_fill(x, sizes, processor, place, quota)?;
    Ok(fill_bytes_from(s, list))
}

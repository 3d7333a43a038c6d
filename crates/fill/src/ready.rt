// Questions 8, 10 and 11 of a fill, on whatever numbers a caller passes, after those about
// the section; and the fill that passes them, on natural numbers.
ghost use Rattle.std.specs.Prelude.{◌≡◌};
ghost use Rattle.model.specs.Mappings.{dealing_with, section_with};
ghost use Rattle.model.specs.Refusals.{by_number};
ghost use Rattle.mapping.specs.Parts.{Listed};
ghost use Rattle.section.specs.Strides.{Bounded};
ghost use Rattle.section.specs.Shares.{Fitted};
ghost use Rattle.fill.specs.Ready.{is_place_in, ready_in, ready_of, SoundReady};

use mapping::questions::{natural, within};
use model::{Dealing, LEAST_TRIES, MOST_TRIES, Position, Refusal, Section};
use section::questions::{Strided, ask_section, is_processor};
use section::shares::{Extent, Share, owns_at, share_of};

// A fill that passed its questions: its section, the processor and the extent of its share, the
// place to start from and the quota.
// No ghost field says that it passed (`Accepted`): `start_at` makes one of any numbers.
#[derive(Clone, Copy)]
pub struct Start {
    pub section: Strided,
    pub processor: u64,
    pub extent: Extent,
    pub place: Position,
    pub quota: u64,
}

// Question 10: is the place the count, or a position whose element the processor owns? grid_section asks
// the same of its shares: not one function, since a trait of both, with its laws, is longer than the two.
fn is_place(s: Share, place: i64) -> bool
    requires { Fitted s }
    ensures { result ≡ is_place_in s place }
{
    let count = s.section.count;
    let t = natural(place);
    0 <= place && (t == count || t < count && owns_at(s, Position(t)))
}

// Questions 8, 10 and 11, and the fill that passes them.
fn ready_in(
    w: Strided,
    d: Dealing,
    sizes: &[u8],
    processor: i64,
    place: i64,
    quota: i64,
) -> Result<Start, Refusal>
    requires { Bounded w × Listed w.layout (dealing_with d sizes.now) }
    ensures value { by_number result ≡ ready_in w (dealing_with d sizes.now) processor place quota }
    ensures sound_ready { SoundReady (by_number result) }
{
    if !is_processor(w.layout, processor) {
        return Err(Refusal::Processor);
    }
    let share = share_of(w, d, sizes, processor);
    if !is_place(share, place) {
        return Err(Refusal::Place);
    }
    if !within(LEAST_TRIES as i64, MOST_TRIES as i64, quota) {
        return Err(Refusal::Quota);
    }
    Ok(Start {
        section: w,
        processor: share.processor,
        extent: share.extent,
        place: Position(natural(place)),
        quota: natural(quota),
    })
}

// Questions 1 to 8, 10 and 11, and the fill that passes them.
pub fn ask_fill(
    x: Section,
    sizes: &[u8],
    processor: i64,
    place: i64,
    quota: i64,
) -> Result<Start, Refusal>
    ensures value { by_number result ≡ ready_of (section_with x sizes.now) processor place quota }
    ensures sound_ready { SoundReady (by_number result) }
{
    let w = ask_section(x, sizes)?;
    ready_in(w, x.mapping.dealing, sizes, processor, place, quota)
}

// Transfers of an array assignment: the section positions that a sender passes to a receiver, each
// with both addresses. questions.rt puts the questions, walk.rt walks along the sender's or the
// receiver's elements, whichever are fewer, and listing.rt writes what is found.
#![tactic(auto)]

ghost use Rattle.std.specs.Prelude.{◌≡◌};
ghost use Rattle.model.specs.Mappings.{section_with};
ghost use Rattle.model.specs.Calls.{ToldApart};
ghost use Rattle.model.specs.Transfers.{transfers, lists_after};
ghost use Rattle.transfer.specs.Answers.{call_of, transferred_as, transferred_refusals, lists_of};

use listing::list_pair;
use model::{ListError, Section};
use questions::ask_pair;

mod listing;
mod questions;
mod walk;

// How many entries the pair has; they are written in rising section position: positions, sender's
// addresses and receiver's addresses in three lists. Each side's sizes are those of its template,
// if that is a GEN_BLOCK one.
pub fn transfers(
    left: Section,
    left_sizes: &[u8],
    right: Section,
    right_sizes: &[u8],
    sender: i64,
    receiver: i64,
    positions: &mut [u32],
    sent: &mut [u32],
    received: &mut [u32],
) -> Result<usize, ListError>
    ensures result_value { transferred_as result
        ≡ transfers (call_of (section_with left left_sizes.now) (section_with right right_sizes.now) sender receiver
        (lists_of positions.old sent.old received.old)) }
    ensures received_after { lists_of positions.new sent.new received.new
        ≡ lists_after (call_of (section_with left left_sizes.now) (section_with right right_sizes.now) sender receiver
        (lists_of positions.old sent.old received.old)) }
    ensures told_apart { ToldApart (transferred_refusals result) }
{
    let p = ask_pair(left, left_sizes, right, right_sizes, sender, receiver)?;
    list_pair(p, positions, sent, received)
}

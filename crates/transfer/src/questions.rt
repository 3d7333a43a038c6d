// The questions of a pair up to 12, on whatever numbers a caller passes, and the pair that
// passes them.
ghost use Rattle.std.specs.Prelude.{◌≡◌};
ghost use Rattle.model.specs.Mappings.{section_with};
ghost use Rattle.model.specs.Questions.{first_no};
ghost use Rattle.model.specs.Refusals.{by_number, asked_as};
ghost use Rattle.transfer.specs.Pairs.{of_ends, pair_asked};

use model::{Refusal, Section};
use section::questions::{Strided, ask_section, is_processor};
use section::shares::{Share, share_of};

// The sender's share of the right section, and the receiver's of the left.
#[derive(Clone, Copy)]
pub struct Pair {
    pub sender: Share,
    pub receiver: Share,
}

// Question 8 for the sender and for the receiver, and question 12.
fn ask_ends(left: Strided, right: Strided, sender: i64, receiver: i64) -> Result<(), Refusal>
    ensures { asked_as result ≡ first_no (of_ends left right sender receiver) }
{
    if !is_processor(right.layout, sender) || !is_processor(left.layout, receiver) {
        return Err(Refusal::Processor);
    }
    if left.count != right.count {
        return Err(Refusal::Counts);
    }
    Ok(())
}

// The left's questions come first.
pub fn ask_pair(
    left: Section,
    left_sizes: &[u8],
    right: Section,
    right_sizes: &[u8],
    sender: i64,
    receiver: i64,
) -> Result<Pair, Refusal>
    ensures { by_number result ≡ pair_asked (section_with left left_sizes.now) (section_with right right_sizes.now) sender receiver }
{
    let x = ask_section(left, left_sizes)?;
    let y = ask_section(right, right_sizes)?;
    ask_ends(x, y, sender, receiver)?;
    Ok(Pair {
        sender: share_of(y, right.mapping.dealing, right_sizes, sender),
        receiver: share_of(x, left.mapping.dealing, left_sizes, receiver),
    })
}

// The C function of array assignments: the transfers of a sender and a receiver. The C interface lists
// the numbers of both sides.
ghost use Rattle.std.specs.Prelude.{◌≡◌};
ghost use Rattle.model.specs.Mappings.{cyclic, section_with};
ghost use Rattle.transfer.specs.Answers.{call_of, lists_of, transferred_as};
ghost use Rattle.hpfaddr.specs.Fields.{section_from, transferred_fields, TransferredFields};
ghost use Rattle.hpfaddr.specs.Sizes.{TransferredFits};

use crate::parameters::{mapping_of, section_of};
use model::{Dealing, ListError, Section};

#[repr(C)]
#[derive(Clone, Copy)]
pub struct HpfTransferred {
    pub refusal: u32,
    pub entries: u32,
    pub needed: u32,
}

// Not a `From`, which may require nothing: the number has to fit its field.
fn fields_of(t: Result<usize, ListError>) -> HpfTransferred
    requires { TransferredFits (transferred_as t) }
    ensures { transferred_fields result ≡ transferred_as t }
{
    match t {
        Ok(n) => HpfTransferred {
            refusal: 0,
            entries: n as u32,
            needed: 0,
        },
        Err(ListError::Needs(n)) => HpfTransferred {
            refusal: 13,
            entries: 0,
            needed: n as u32,
        },
        Err(ListError::Refused(e)) => HpfTransferred {
            refusal: e.number(),
            entries: 0,
            needed: 0,
        },
    }
}

pub(crate) fn transferred_of(
    left: Section,
    left_sizes: &[u8],
    right: Section,
    right_sizes: &[u8],
    sender: i64,
    receiver: i64,
    positions: &mut [u32],
    sent: &mut [u32],
    received: &mut [u32],
) -> HpfTransferred
    ensures fields { TransferredFields
        (call_of (section_with left left_sizes.now) (section_with right right_sizes.now)
        sender receiver
        (lists_of positions.old sent.old received.old))
        (lists_of positions.new sent.new received.new)
        result }
    ensures transferred_fits { TransferredFits (transferred_fields result) }
{
    fields_of(transfer::transfers(
        left,
        left_sizes,
        right,
        right_sizes,
        sender,
        receiver,
        positions,
        sent,
        received,
    ))
}

// The entries of a sender and a receiver in rising section position: positions, sender's
// addresses and receiver's addresses in three lists. Both templates are cyclic.
#[unsafe(no_mangle)]
pub extern "C" fn hpf_transfers(
    left_cells: i64,
    left_processors: i64,
    left_block: i64,
    left_stride: i64,
    left_offset: i64,
    left_size: i64,
    left_array_lower: i64,
    left_template_lower: i64,
    left_lower: i64,
    left_upper: i64,
    left_step: i64,
    right_cells: i64,
    right_processors: i64,
    right_block: i64,
    right_stride: i64,
    right_offset: i64,
    right_size: i64,
    right_array_lower: i64,
    right_template_lower: i64,
    right_lower: i64,
    right_upper: i64,
    right_step: i64,
    sender: i64,
    receiver: i64,
    positions: &mut [u32],
    sent: &mut [u32],
    received: &mut [u32],
) -> HpfTransferred
    ensures fields { TransferredFields
        (call_of
        (section_from left_cells left_processors (cyclic left_block) left_stride left_offset left_size left_array_lower left_template_lower left_lower left_upper left_step)
        (section_from right_cells right_processors (cyclic right_block) right_stride right_offset right_size right_array_lower right_template_lower right_lower right_upper right_step)
        sender receiver
        (lists_of positions.old sent.old received.old))
        (lists_of positions.new sent.new received.new)
        result }
    ensures transferred_fits { TransferredFits (transferred_fields result) }
{
    let left_dealing = Dealing::Cyclic(left_block);
    let left_mapping = mapping_of(
        left_cells,
        left_processors,
        left_dealing,
        left_stride,
        left_offset,
        left_size,
        left_array_lower,
        left_template_lower,
    );
    let left = section_of(left_mapping, left_lower, left_upper, left_step);
    let right_dealing = Dealing::Cyclic(right_block);
    let right_mapping = mapping_of(
        right_cells,
        right_processors,
        right_dealing,
        right_stride,
        right_offset,
        right_size,
        right_array_lower,
        right_template_lower,
    );
    let right = section_of(right_mapping, right_lower, right_upper, right_step);
    let none = [0u8; 0];
    transferred_of(
        left, &none, right, &none, sender, receiver, positions, sent, received,
    )
}

// The C function of array assignments between templates of either dealing. The C interface lists the
// numbers of both sides.
ghost use Rattle.transfer.specs.Answers.{call_of, lists_of};
ghost use Rattle.hpfaddr.specs.Fields.{by_number, section_from, transferred_fields, TransferredFields};
ghost use Rattle.hpfaddr.specs.Sizes.{TransferredFits};

use crate::assignment::{HpfTransferred, transferred_of};
use crate::parameters::{dealing_of, mapping_of, section_of};

// As hpf_transfers, each side with a dealing of its own: a number that says which, its block and its
// list of sizes, of which the one that concerns it is looked at.
#[unsafe(no_mangle)]
pub extern "C" fn hpf_transfers_between(
    left_cells: i64,
    left_processors: i64,
    left_dealing: i64,
    left_block: i64,
    left_sizes: &[u8],
    left_stride: i64,
    left_offset: i64,
    left_size: i64,
    left_array_lower: i64,
    left_template_lower: i64,
    left_lower: i64,
    left_upper: i64,
    left_step: i64,
    right_cells: i64,
    right_processors: i64,
    right_dealing: i64,
    right_block: i64,
    right_sizes: &[u8],
    right_stride: i64,
    right_offset: i64,
    right_size: i64,
    right_array_lower: i64,
    right_template_lower: i64,
    right_lower: i64,
    right_upper: i64,
    right_step: i64,
    sender: i64,
    receiver: i64,
    positions: &mut [u32],
    sent: &mut [u32],
    received: &mut [u32],
) -> HpfTransferred
    ensures fields { TransferredFields
        (call_of
        (section_from left_cells left_processors (by_number left_dealing left_block left_sizes.now) left_stride left_offset left_size left_array_lower left_template_lower left_lower left_upper left_step)
        (section_from right_cells right_processors (by_number right_dealing right_block right_sizes.now) right_stride right_offset right_size right_array_lower right_template_lower right_lower right_upper right_step)
        sender receiver
        (lists_of positions.old sent.old received.old))
        (lists_of positions.new sent.new received.new)
        result }
    ensures transferred_fits { TransferredFits (transferred_fields result) }
{
    let left_way = dealing_of(left_dealing, left_block);
    let left_mapping = mapping_of(
        left_cells,
        left_processors,
        left_way,
        left_stride,
        left_offset,
        left_size,
        left_array_lower,
        left_template_lower,
    );
    let left = section_of(left_mapping, left_lower, left_upper, left_step);
    let right_way = dealing_of(right_dealing, right_block);
    let right_mapping = mapping_of(
        right_cells,
        right_processors,
        right_way,
        right_stride,
        right_offset,
        right_size,
        right_array_lower,
        right_template_lower,
    );
    let right = section_of(right_mapping, right_lower, right_upper, right_step);
    transferred_of(
        left,
        left_sizes,
        right,
        right_sizes,
        sender,
        receiver,
        positions,
        sent,
        received,
    )
}

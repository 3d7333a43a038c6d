// The C functions of a mapping and of checkpoints for GEN_BLOCK templates: a list of sizes, as bytes,
// stands where the cyclic ones have the block. They are twins of these, for the C interface.
ghost use Rattle.std.specs.Prelude.{◌≡◌};
ghost use Rattle.model.specs.Calls.{ownership, going_back, local_count};
ghost use Rattle.model.specs.Checkpoints.{copy_of};
ghost use Rattle.mapping.specs.Answers.{mapping_of};
ghost use Rattle.hpfaddr.specs.Fields.{by_sizes, owned_fields, found_fields, counted_fields, copied_fields, CheckpointFields, RestoreFields};
ghost use Rattle.hpfaddr.specs.Sizes.{OwnedFits, FoundFits, CountedFits, CopiedFits};

use crate::checkpoints::{HpfCopied, restored_of, saved_of};
use crate::parameters::mapping_of;
use crate::{HpfCounted, HpfFound, HpfOwned, counted_of, found_of, owned_of};
use model::Dealing;

// Processor and local address of the element of a declared index.
#[unsafe(no_mangle)]
pub extern "C" fn hpf_gen_block_ownership(
    cells: i64,
    processors: i64,
    sizes: &[u8],
    stride: i64,
    offset: i64,
    size: i64,
    array_lower: i64,
    template_lower: i64,
    index: i64,
) -> HpfOwned
    ensures result_value { owned_fields result ≡ ownership (mapping_of cells processors (by_sizes sizes.now) stride offset size array_lower template_lower) index }
    ensures owned_fits { OwnedFits (owned_fields result) }
{
    let d = Dealing::GenBlock;
    let m = mapping_of(
        cells,
        processors,
        d,
        stride,
        offset,
        size,
        array_lower,
        template_lower,
    );
    owned_of(m, sizes, index)
}

// The declared index of the element at an address of a processor.
#[unsafe(no_mangle)]
pub extern "C" fn hpf_gen_block_going_back(
    cells: i64,
    processors: i64,
    sizes: &[u8],
    stride: i64,
    offset: i64,
    size: i64,
    array_lower: i64,
    template_lower: i64,
    processor: i64,
    address: i64,
) -> HpfFound
    ensures result_value { found_fields result ≡ going_back (mapping_of cells processors (by_sizes sizes.now) stride offset size array_lower template_lower) processor address }
    ensures found_fits { FoundFits (found_fields result) }
{
    let d = Dealing::GenBlock;
    let m = mapping_of(
        cells,
        processors,
        d,
        stride,
        offset,
        size,
        array_lower,
        template_lower,
    );
    found_of(m, sizes, processor, address)
}

// How many elements a processor holds.
#[unsafe(no_mangle)]
pub extern "C" fn hpf_gen_block_local_count(
    cells: i64,
    processors: i64,
    sizes: &[u8],
    stride: i64,
    offset: i64,
    size: i64,
    array_lower: i64,
    template_lower: i64,
    processor: i64,
) -> HpfCounted
    ensures result_value { counted_fields result ≡ local_count (mapping_of cells processors (by_sizes sizes.now) stride offset size array_lower template_lower) processor }
    ensures counted_fits { CountedFits (counted_fields result) }
{
    let d = Dealing::GenBlock;
    let m = mapping_of(
        cells,
        processors,
        d,
        stride,
        offset,
        size,
        array_lower,
        template_lower,
    );
    counted_of(m, sizes, processor)
}

// The words of the processors' storage, laid end to end, in index order.
#[unsafe(no_mangle)]
pub extern "C" fn hpf_gen_block_checkpoint(
    cells: i64,
    processors: i64,
    sizes: &[u8],
    stride: i64,
    offset: i64,
    size: i64,
    array_lower: i64,
    template_lower: i64,
    storage: &[u64],
    saved: &mut [u64],
) -> HpfCopied
    ensures checkpoint_fields { CheckpointFields
        (copy_of (mapping_of cells processors (by_sizes sizes.now) stride offset size array_lower template_lower)
        storage.now saved.old)
        storage.exit.now saved.new result }
    ensures copied_fits { CopiedFits (copied_fields result) }
{
    let d = Dealing::GenBlock;
    let m = mapping_of(
        cells,
        processors,
        d,
        stride,
        offset,
        size,
        array_lower,
        template_lower,
    );
    saved_of(m, sizes, storage, saved)
}

// Words in index order into the storage.
#[unsafe(no_mangle)]
pub extern "C" fn hpf_gen_block_restore(
    cells: i64,
    processors: i64,
    sizes: &[u8],
    stride: i64,
    offset: i64,
    size: i64,
    array_lower: i64,
    template_lower: i64,
    saved: &[u64],
    storage: &mut [u64],
) -> HpfCopied
    ensures restore_fields { RestoreFields
        (copy_of (mapping_of cells processors (by_sizes sizes.now) stride offset size array_lower template_lower)
        saved.now storage.old)
        saved.exit.now storage.new result }
    ensures copied_fits { CopiedFits (copied_fields result) }
{
    let d = Dealing::GenBlock;
    let m = mapping_of(
        cells,
        processors,
        d,
        stride,
        offset,
        size,
        array_lower,
        template_lower,
    );
    restored_of(m, sizes, saved, storage)
}

// The C functions of checkpoints: an array's words in index order, and back to the storage of a
// mapping, whose numbers the C interface lists in each.
ghost use Rattle.std.specs.Prelude.{◌≡◌};
ghost use Rattle.model.specs.Mappings.{cyclic, mapping_with};
ghost use Rattle.model.specs.Checkpoints.{copy_of};
ghost use Rattle.mapping.specs.Answers.{mapping_of};
ghost use Rattle.storage.specs.Answers.{copied_as};
ghost use Rattle.hpfaddr.specs.Fields.{copied_fields, CheckpointFields, RestoreFields};
ghost use Rattle.hpfaddr.specs.Sizes.{CopiedFits};

use crate::parameters::mapping_of;
use model::{Dealing, ListError, Mapping};

#[repr(C)]
#[derive(Clone, Copy)]
pub struct HpfCopied {
    pub refusal: u32,
    pub needed: u32,
}

// Not a `From`, which may require nothing: the number has to fit its field.
fn fields_of(c: Result<(), ListError>) -> HpfCopied
    requires { CopiedFits (copied_as c) }
    ensures { copied_fields result ≡ copied_as c }
{
    match c {
        Ok(()) => HpfCopied {
            refusal: 0,
            needed: 0,
        },
        Err(ListError::Needs(n)) => HpfCopied {
            refusal: 13,
            needed: n as u32,
        },
        Err(ListError::Refused(e)) => HpfCopied {
            refusal: e.number(),
            needed: 0,
        },
    }
}

pub(crate) fn saved_of(m: Mapping, sizes: &[u8], storage: &[u64], saved: &mut [u64]) -> HpfCopied
    ensures checkpoint_fields { CheckpointFields
        (copy_of (mapping_with m sizes.now) storage.now saved.old)
        storage.exit.now saved.new result }
    ensures copied_fits { CopiedFits (copied_fields result) }
{
    fields_of(storage::save(m, sizes, storage, saved))
}

// The words of the processors' storage, laid end to end, in index order.
#[unsafe(no_mangle)]
pub extern "C" fn hpf_checkpoint(
    cells: i64,
    processors: i64,
    block: i64,
    stride: i64,
    offset: i64,
    size: i64,
    array_lower: i64,
    template_lower: i64,
    storage: &[u64],
    saved: &mut [u64],
) -> HpfCopied
    ensures checkpoint_fields { CheckpointFields
        (copy_of (mapping_of cells processors (cyclic block) stride offset size array_lower template_lower)
        storage.now saved.old)
        storage.exit.now saved.new result }
    ensures copied_fits { CopiedFits (copied_fields result) }
{
    let d = Dealing::Cyclic(block);
    let m = mapping_of(
        cells,
        processors,
        d,
        stride,
        offset,
        size,
        array_lower,
        template_lower,
    );
    let none = [0u8; 0];
    saved_of(m, &none, storage, saved)
}

pub(crate) fn restored_of(m: Mapping, sizes: &[u8], saved: &[u64], storage: &mut [u64]) -> HpfCopied
    ensures restore_fields { RestoreFields
        (copy_of (mapping_with m sizes.now) saved.now storage.old)
        saved.exit.now storage.new result }
    ensures copied_fits { CopiedFits (copied_fields result) }
{
    fields_of(storage::load(m, sizes, saved, storage))
}

// Words in index order into the storage.
#[unsafe(no_mangle)]
pub extern "C" fn hpf_restore(
    cells: i64,
    processors: i64,
    block: i64,
    stride: i64,
    offset: i64,
    size: i64,
    array_lower: i64,
    template_lower: i64,
    saved: &[u64],
    storage: &mut [u64],
) -> HpfCopied
    ensures restore_fields { RestoreFields
        (copy_of (mapping_of cells processors (cyclic block) stride offset size array_lower template_lower)
        saved.now storage.old)
        saved.exit.now storage.new result }
    ensures copied_fits { CopiedFits (copied_fields result) }
{
    let d = Dealing::Cyclic(block);
    let m = mapping_of(
        cells,
        processors,
        d,
        stride,
        offset,
        size,
        array_lower,
        template_lower,
    );
    let none = [0u8; 0];
    restored_of(m, &none, saved, storage)
}

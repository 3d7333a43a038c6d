// The C functions of the library, for a Fortran runtime to link: numbers in, a struct of numbers
// out by value, its first field the refusal. Here stand those of a mapping, in sections.rt those of
// sections and fills, in assignment.rt and between.rt those of transfers, in checkpoints.rt those of
// checkpoints, each for a cyclic template; in gen_block.rt and gen_block_sections.rt the same for
// GEN_BLOCK; in grids.rt and grid_sections.rt those of grids of processors. include/ and fortran/
// declare them. It is the C interface that has a function for either dealing, lists a mapping's
// numbers in each and has each make its mapping of them.
#![tactic(auto)]

ghost use Rattle.std.specs.Prelude.{◌≡◌};
ghost use Rattle.model.specs.Mappings.{cyclic, mapping_with};
ghost use Rattle.model.specs.Calls.{ownership, going_back, local_count};
ghost use Rattle.mapping.specs.Answers.{mapping_of, owned_as};
ghost use Rattle.hpfaddr.specs.Fields.{owned_fields, found_fields, counted_fields};
ghost use Rattle.hpfaddr.specs.Sizes.{OwnedFits, FoundFits, CountedFits};

use mapping::parts::Home;
use model::{Dealing, Mapping, Refusal};
use parameters::mapping_of;

pub mod assignment;
pub mod between;
pub mod checkpoints;
pub mod gen_block;
pub mod gen_block_sections;
pub mod grid_sections;
pub mod grids;
mod parameters;
pub mod sections;

#[repr(C)]
#[derive(Clone, Copy)]
pub struct HpfOwned {
    pub refusal: u32,
    pub processor: u32,
    pub address: u32,
}

// Not a `From`, which may require nothing: the numbers have to fit their fields.
pub(crate) fn fields_of(o: Result<Home, Refusal>) -> HpfOwned
    requires { OwnedFits (owned_as o) }
    ensures { owned_fields result ≡ owned_as o }
{
    match o {
        Ok(home) => HpfOwned {
            refusal: 0,
            processor: home.processor as u32,
            address: home.address.0 as u32,
        },
        Err(e) => HpfOwned {
            refusal: e.number(),
            processor: 0,
            address: 0,
        },
    }
}

pub(crate) fn owned_of(m: Mapping, sizes: &[u8], index: i64) -> HpfOwned
    ensures result_value { owned_fields result ≡ ownership (mapping_with m sizes.now) index }
    ensures owned_fits { OwnedFits (owned_fields result) }
{
    fields_of(mapping::ownership(m, sizes, index))
}

// Processor and local address of the element of a declared index.
#[unsafe(no_mangle)]
pub extern "C" fn hpf_ownership(
    cells: i64,
    processors: i64,
    block: i64,
    stride: i64,
    offset: i64,
    size: i64,
    array_lower: i64,
    template_lower: i64,
    index: i64,
) -> HpfOwned
    ensures result_value { owned_fields result ≡ ownership (mapping_of cells processors (cyclic block) stride offset size array_lower template_lower) index }
    ensures owned_fits { OwnedFits (owned_fields result) }
{
    let d = Dealing::Cyclic(block);
    let m = mapping_of(
        cells,
        processors,
        d,
        stride,
        offset,
        size,
        array_lower,
        template_lower,
    );
    let none = [0u8; 0];
    owned_of(m, &none, index)
}

#[repr(C)]
#[derive(Clone, Copy)]
pub struct HpfFound {
    pub refusal: u32,
    pub index: i32,
}

// Not a `From`, as `fields_of` is none.
pub(crate) fn found_of(m: Mapping, sizes: &[u8], processor: i64, address: i64) -> HpfFound
    ensures result_value { found_fields result ≡ going_back (mapping_with m sizes.now) processor address }
    ensures found_fits { FoundFits (found_fields result) }
{
    match mapping::going_back(m, sizes, processor, address) {
        Ok(j) => HpfFound {
            refusal: 0,
            index: j.0 as i32,
        },
        Err(e) => HpfFound {
            refusal: e.number(),
            index: 0,
        },
    }
}

// The declared index of the element at an address of a processor.
#[unsafe(no_mangle)]
pub extern "C" fn hpf_going_back(
    cells: i64,
    processors: i64,
    block: i64,
    stride: i64,
    offset: i64,
    size: i64,
    array_lower: i64,
    template_lower: i64,
    processor: i64,
    address: i64,
) -> HpfFound
    ensures result_value { found_fields result ≡ going_back (mapping_of cells processors (cyclic block) stride offset size array_lower template_lower) processor address }
    ensures found_fits { FoundFits (found_fields result) }
{
    let d = Dealing::Cyclic(block);
    let m = mapping_of(
        cells,
        processors,
        d,
        stride,
        offset,
        size,
        array_lower,
        template_lower,
    );
    let none = [0u8; 0];
    found_of(m, &none, processor, address)
}

#[repr(C)]
#[derive(Clone, Copy)]
pub struct HpfCounted {
    pub refusal: u32,
    pub elements: u32,
}

// Not a `From`, as `fields_of` is none.
pub(crate) fn counted_of(m: Mapping, sizes: &[u8], processor: i64) -> HpfCounted
    ensures result_value { counted_fields result ≡ local_count (mapping_with m sizes.now) processor }
    ensures counted_fits { CountedFits (counted_fields result) }
{
    match mapping::local_count(m, sizes, processor) {
        Ok(n) => HpfCounted {
            refusal: 0,
            elements: n as u32,
        },
        Err(e) => HpfCounted {
            refusal: e.number(),
            elements: 0,
        },
    }
}

// How many elements a processor holds: what storage to allocate for it.
#[unsafe(no_mangle)]
pub extern "C" fn hpf_local_count(
    cells: i64,
    processors: i64,
    block: i64,
    stride: i64,
    offset: i64,
    size: i64,
    array_lower: i64,
    template_lower: i64,
    processor: i64,
) -> HpfCounted
    ensures result_value { counted_fields result ≡ local_count (mapping_of cells processors (cyclic block) stride offset size array_lower template_lower) processor }
    ensures counted_fits { CountedFits (counted_fields result) }
{
    let d = Dealing::Cyclic(block);
    let m = mapping_of(
        cells,
        processors,
        d,
        stride,
        offset,
        size,
        array_lower,
        template_lower,
    );
    let none = [0u8; 0];
    counted_of(m, &none, processor)
}

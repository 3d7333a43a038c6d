// The mapping and the section that a C function's numbers make. These stand one by one here too, as
// they come from C.
ghost use Rattle.std.specs.Prelude.{◌≡◌};
ghost use Rattle.model.specs.Sections.{triplet_of};
ghost use Rattle.hpfaddr.specs.Fields.{dealing_from, numbers_of};

use model::{Dealing, Mapping, Section, Triplet};

// The dealing that a number says: 0 cyclic, any other GEN_BLOCK. C passes a number and no enum, which
// could have no other value.
pub fn dealing_of(number: i64, block: i64) -> Dealing
    ensures { result ≡ dealing_from number block }
{
    if number == 0 {
        return Dealing::Cyclic(block);
    }
    Dealing::GenBlock
}

pub fn mapping_of(
    cells: i64,
    processors: i64,
    dealing: Dealing,
    stride: i64,
    offset: i64,
    size: i64,
    array_lower: i64,
    template_lower: i64,
) -> Mapping
    ensures { result ≡ numbers_of cells processors dealing stride offset size array_lower template_lower }
{
    Mapping {
        cells,
        processors,
        dealing,
        stride,
        offset,
        size,
        lower: array_lower,
        origin: template_lower,
    }
}

pub fn section_of(mapping: Mapping, lower: i64, upper: i64, step: i64) -> Section
    ensures { result ≡ record { mapping = mapping; triplet = triplet_of lower upper step } }
{
    let triplet = Triplet {
        lower,
        upper,
        stride: step,
    };
    Section { mapping, triplet }
}

// Owners and local addresses of the elements of an accepted grid, dimension by dimension: coordinates
// and addresses are numbered first dimension fastest, addresses over the local counts.
ghost use Rattle.std.specs.Prelude.{◌≡◌, true, ◌&&◌, ◌*◌, ◌≤◌, ◌<◌};
ghost use Rattle.model.specs.Calls.{ToldApart};
ghost use Rattle.model.specs.Refusals.{refusals};
ghost use Rattle.mapping.specs.Answers.{Ranged, owned_as};
ghost use Rattle.mapping.specs.Parts.{Low};
ghost use Rattle.grid.specs.Dimensions.{array_in, Known, AllKnown};
ghost use Rattle.grid.specs.Answers.{numbered, has_index, from_lower_in, kept_in, ownership_on, held_by, HeldKnown, index_in, found_as, found_among, going_back_on};

use crate::dimensions::{Dimension, Dimensions};
use mapping::parts::{Home, Part, element_in, elements_in, home_of, part_of};
use mapping::questions::{is_below, last_of, natural, within};
use model::{Address, Declared, Index, Refusal, Three};

// ---- ownership

// Question 9 of one dimension.
fn has_index(x: Dimension, index: i64) -> bool
    requires { Ranged x.layout x.lower }
    ensures { result ≡ has_index x index }
{
    within(x.lower, last_of(x.lower, x.layout.size as i64), index)
}

// Where an element is kept in one dimension: the coordinate of its owner, its address there, and how
// many elements the owner has.
#[derive(Clone, Copy)]
struct Kept {
    processor: u64,
    address: Address,
    elements: u64,
}

fn kept_at(x: Dimension, sizes: &[u8], index: Declared) -> Kept
    requires known { Known x sizes.now }
    requires index_value { has_index x index.0 ≡ true }
    ensures { result ≡ kept_in (array_in x sizes.now) (from_lower_in x index.0) }
{
    let home = home_of(
        x.layout,
        x.dealing,
        sizes,
        Index(natural(index.0 - x.lower)),
    );
    let part = part_of(x.layout, x.dealing, sizes, home.processor);
    Kept {
        processor: home.processor,
        address: home.address,
        elements: elements_in(x.layout, home.processor, part),
    }
}

// Three numbers as one, first fastest, of n and m.
fn numbered(x: u64, n: u64, y: u64, m: u64, z: u64) -> u64
    requires { (0 < n) × (numbered x n y m z ≤ 2147483647) }
    ensures { result ≡ numbered x n y m z }
{
    x + n * (y + m * z)
}

fn are_indices(x: Dimensions, j: Three<i64>) -> bool
    requires ranged { Ranged x.first.layout x.first.lower }
    requires ranged_2 { Ranged x.second.layout x.second.lower }
    requires ranged_3 { Ranged x.third.layout x.third.lower }
    ensures { result ≡ (has_index x.first j.first && has_index x.second j.second && has_index x.third j.third) }
{
    has_index(x.first, j.first) && has_index(x.second, j.second) && has_index(x.third, j.third)
}

// Question 9 of each dimension, and the answer.
pub fn owned_on(x: Dimensions, sizes: Three<&[u8]>, j: Three<i64>) -> Result<Home, Refusal>
    requires { AllKnown x sizes.first.now sizes.second.now sizes.third.now }
    ensures result_value { owned_as result ≡ ownership_on x sizes.entry.first.now sizes.entry.second.now sizes.entry.third.now j.first j.second j.third }
    ensures told_apart { ToldApart (refusals result) }
{
    if !are_indices(x, j) {
        return Err(Refusal::Element);
    }
    let near = kept_at(x.first, sizes.first, Declared(j.first));
    let row = kept_at(x.second, sizes.second, Declared(j.second));
    let plane = kept_at(x.third, sizes.third, Declared(j.third));
    let p = x.first.layout.processors;
    let q = x.second.layout.processors;
    Ok(Home {
        processor: numbered(near.processor, p, row.processor, q, plane.processor),
        address: Address(numbered(
            near.address.0,
            near.elements,
            row.address.0,
            row.elements,
            plane.address.0,
        )),
    })
}

// ---- going back

// The declared indices of an element.
pub type Indices = Three<Declared>;

// What a coordinate has of its dimension.
#[derive(Clone, Copy)]
struct Held {
    processor: u64,
    part: Part,
    elements: u64,
}

fn held_by(x: Dimension, sizes: &[u8], processor: u64) -> Held
    requires { Known x sizes.now × (processor < x.layout.processors) }
    ensures value { result ≡ held_by x sizes.now processor }
    ensures low { Low result.part }
{
    let part = part_of(x.layout, x.dealing, sizes, processor);
    Held {
        processor,
        part,
        elements: elements_in(x.layout, processor, part),
    }
}

// The declared index at an address of one dimension.
fn index_at(x: Dimension, h: Held, address: Address) -> Declared
    requires { HeldKnown x h × (address.0 < h.elements) }
    ensures { result.0 ≡ index_in x h address.0 }
{
    let i = element_in(x.layout, h.processor, h.part, address);
    Declared(x.lower + (i.0 as i64))
}

// Question 9, and the element at an address over what three coordinates have.
fn found_among(x: Dimensions, h: Three<Held>, address: i64) -> Result<Indices, Refusal>
    requires held_known { HeldKnown x.first h.first }
    requires held_known_2 { HeldKnown x.second h.second }
    requires held_known_3 { HeldKnown x.third h.third }
    requires elements_bound { h.first.elements * (h.second.elements * h.third.elements) ≤ 2147483647 }
    ensures result_value { found_as result ≡ found_among x h.first h.second h.third address }
    ensures told_apart { ToldApart (refusals result) }
{
    if !is_below(
        address,
        h.first.elements * (h.second.elements * h.third.elements),
    ) {
        return Err(Refusal::Element);
    }
    let a = natural(address);
    let rest = a / h.first.elements;
    Ok(Three {
        first: index_at(x.first, h.first, Address(a % h.first.elements)),
        second: index_at(x.second, h.second, Address(rest % h.second.elements)),
        third: index_at(x.third, h.third, Address(rest / h.second.elements)),
    })
}

// Question 8, and the rest.
pub fn found_on(
    x: Dimensions,
    sizes: Three<&[u8]>,
    processor: i64,
    address: i64,
) -> Result<Indices, Refusal>
    requires { AllKnown x sizes.first.now sizes.second.now sizes.third.now }
    ensures result_value { found_as result ≡ going_back_on x sizes.entry.first.now sizes.entry.second.now sizes.entry.third.now processor address }
    ensures told_apart { ToldApart (refusals result) }
{
    let p = x.first.layout.processors;
    let q = x.second.layout.processors;
    if !is_below(processor, p * (q * x.third.layout.processors)) {
        return Err(Refusal::Processor);
    }
    let o = natural(processor);
    let rest = o / p;
    let near = held_by(x.first, sizes.first, o % p);
    let row = held_by(x.second, sizes.second, rest % q);
    let plane = held_by(x.third, sizes.third, rest / q);
    let held = Three {
        first: near,
        second: row,
        third: plane,
    };
    found_among(x, held, address)
}

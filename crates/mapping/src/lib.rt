// Ownership, going back and local counts of an array that is aligned to a template dealt in
// blocks or in runs. The questions about a mapping are put in questions.rt and, about a list of
// sizes, in runs.rt; the arithmetic of an accepted one stands in dealing.rt, and in parts.rt what
// goes by the dealing. Here are the calls, which take whatever numbers and list.
#![tactic(auto)]

pub mod dealing;
pub mod parts;
pub mod questions;
pub mod runs;

ghost use Rattle.std.specs.Prelude.{◌≡◌};
ghost use Rattle.model.specs.Mappings.{dealing_with, mapping_with};
ghost use Rattle.model.specs.Sized.{Sized};
ghost use Rattle.model.specs.Calls.{ownership, going_back, local_count, ToldApart};
ghost use Rattle.model.specs.Refusals.{refusals};
ghost use Rattle.mapping.specs.Answers.{Ranged, owned_as, found_as, counted_as, ownership_in, going_back_in, local_count_in};
ghost use Rattle.mapping.specs.Parts.{owner_for, Listed};

use model::{Address, Dealing, Declared, Index, Layout, Mapping, Refusal};
use parts::Home;

// Question 9, and the answer of an accepted layout whose first index is lower.
fn owned_in(l: Layout, lower: i64, d: Dealing, sizes: &[u8], index: i64) -> Result<Home, Refusal>
    requires ranged { Ranged l lower }
    requires listed { Listed l (dealing_with d sizes.now) }
    ensures result_value { owned_as result ≡ ownership_in (owner_for l (dealing_with d sizes.now)) l lower index }
    ensures told_apart { ToldApart (refusals result) }
{
    let last = questions::last_of(lower, l.size as i64);
    if !questions::within(lower, last, index) {
        return Err(Refusal::Element);
    }
    let i = Index(questions::natural(index - lower));
    Ok(parts::home_of(l, d, sizes, i))
}

// Processor and local address of an element, or the refusal.
pub fn ownership(m: Mapping, sizes: &[u8], index: i64) -> Result<Home, Refusal>
    ensures result_value { owned_as result ≡ ownership (mapping_with m sizes.now) index }
    ensures told_apart { ToldApart (refusals result) }
{
    let listed = questions::list_fits(m, sizes);
    let x = questions::ask_mapping(m, sizes, listed)?;
    owned_in(x.layout, x.lower, m.dealing, sizes, index)
}

// Questions 8 and 9, and the answer of an accepted layout whose first index is lower.
fn found_in(
    l: Layout,
    lower: i64,
    d: Dealing,
    sizes: &[u8],
    processor: i64,
    address: i64,
) -> Result<Declared, Refusal>
    requires ranged { Ranged l lower }
    requires listed { Listed l (dealing_with d sizes.now) }
    ensures result_value { found_as result ≡ going_back_in (owner_for l (dealing_with d sizes.now)) l lower processor address }
    ensures told_apart { ToldApart (refusals result) }
{
    if !questions::is_below(processor, l.processors) {
        return Err(Refusal::Processor);
    }
    let q = questions::natural(processor);
    let part = parts::part_of(l, d, sizes, q);
    let elements = parts::elements_in(l, q, part);
    if !questions::is_below(address, elements) {
        return Err(Refusal::Element);
    }
    let x = Address(questions::natural(address));
    let i = parts::element_in(l, q, part, x);
    let j = lower + (i.0 as i64);
    Ok(Declared(j))
}

// The element at an address of a processor, or the refusal.
pub fn going_back(
    m: Mapping,
    sizes: &[u8],
    processor: i64,
    address: i64,
) -> Result<Declared, Refusal>
    ensures result_value { found_as result ≡ going_back (mapping_with m sizes.now) processor address }
    ensures told_apart { ToldApart (refusals result) }
{
    let listed = questions::list_fits(m, sizes);
    let x = questions::ask_mapping(m, sizes, listed)?;
    found_in(x.layout, x.lower, m.dealing, sizes, processor, address)
}

// Question 8, and the answer of an accepted layout.
fn counted_in(l: Layout, d: Dealing, sizes: &[u8], processor: i64) -> Result<u64, Refusal>
    requires sized { Sized l }
    requires listed { Listed l (dealing_with d sizes.now) }
    ensures result_value { counted_as result ≡ local_count_in (owner_for l (dealing_with d sizes.now)) l processor }
    ensures told_apart { ToldApart (refusals result) }
{
    if !questions::is_below(processor, l.processors) {
        return Err(Refusal::Processor);
    }
    let q = questions::natural(processor);
    let part = parts::part_of(l, d, sizes, q);
    Ok(parts::elements_in(l, q, part))
}

// How many elements a processor holds, or the refusal.
pub fn local_count(m: Mapping, sizes: &[u8], processor: i64) -> Result<u64, Refusal>
    ensures result_value { counted_as result ≡ local_count (mapping_with m sizes.now) processor }
    ensures told_apart { ToldApart (refusals result) }
{
    let listed = questions::list_fits(m, sizes);
    let x = questions::ask_mapping(m, sizes, listed)?;
    counted_in(x.layout, m.dealing, sizes, processor)
}

// Questions 1 to 5, 15 and 16, on whatever numbers and list a caller passes, and the layout of a
// mapping that passes them.
ghost use Rattle.std.specs.Prelude.{◌≡◌, [], ◌≤◌, pos, nat_abs, ◌+ℤ◌, ◌-ℤ◌, ◌*ℤ◌};
ghost use Rattle.model.specs.Mappings.{cyclic, dealing_with, mapping_with};
ghost use Rattle.model.specs.Ownership.{nat, block_in};
ghost use Rattle.model.specs.Questions.{between, is_below, block_fits, bounds_fit, cells_fit, first_no};
ghost use Rattle.model.specs.Refusals.{asked_as, by_number};
ghost use Rattle.mapping.specs.Answers.{mapping_of, list_fits, of_dealing, of_listed, mapped_of, Sound};
ghost use Rattle.mapping.specs.Bounds.{Aligned, Reached};

use crate::runs::sizes_fit;
use model::{Dealing, Layout, MOST, MOST_PROCESSORS, Mapping, Refusal};

// The largest alignment stride.
const MOST_STRIDE: i64 = 4096;

// Is x from low to high?
pub fn within(low: i64, high: i64, x: i64) -> bool
    ensures { result ≡ between low high x }
{
    low <= x && x <= high
}

// x, or 0 where it is negative.
pub fn natural(x: i64) -> u64
    ensures { result ≡ nat x }
{
    if x < 0 {
        return 0;
    }
    x as u64
}

// Is x from 0 to n - 1?
pub fn is_below(x: i64, n: u64) -> bool
    ensures { result ≡ is_below (pos n) x }
{
    0 <= x && (x as u64) < n
}

// Question 3, which does not concern a list.
fn block_fits(d: Dealing) -> bool
    ensures { result ≡ block_fits (dealing_with d []) }
{
    match d {
        Dealing::Cyclic(k) => within(1, 65536, k),
        Dealing::GenBlock => true,
    }
}

// Question 16, of a list of sizes and any p.
fn runs_fit(sizes: &[u8], t: i64, p: i64) -> bool
    ensures { result ≡ list_fits t p (dealing_with Dealing.GenBlock sizes.now) }
{
    if within(1, MOST_PROCESSORS, p) {
        return sizes_fit(sizes, natural(p), natural(t));
    }
    false
}

// Question 16, which does not concern a block. It is put before the others, and its answer handed
// to them: without a list they are short enough for a compiler to put them into each call.
pub fn list_fits(m: Mapping, sizes: &[u8]) -> bool
    ensures { result ≡ list_fits m.cells m.processors (dealing_with m.dealing sizes.now) }
{
    match m.dealing {
        Dealing::Cyclic(_) => true,
        Dealing::GenBlock => runs_fit(sizes, m.cells, m.processors),
    }
}

// Questions 1 to 4 and 16.
fn ask_dealing(m: Mapping, listed: bool) -> Result<(), Refusal>
    ensures { asked_as result ≡ first_no (of_dealing m.cells m.processors (dealing_with m.dealing []) listed m.stride m.offset) }
{
    if !within(1, MOST, m.cells) {
        return Err(Refusal::Cells);
    }
    if !within(1, MOST_PROCESSORS, m.processors) {
        return Err(Refusal::Processors);
    }
    if !block_fits(m.dealing) {
        return Err(Refusal::Block);
    }
    if !listed {
        return Err(Refusal::Sizes);
    }
    if !within(1, MOST_STRIDE, m.stride) {
        return Err(Refusal::Alignment);
    }
    if !within(-MOST, MOST, m.offset) {
        return Err(Refusal::Alignment);
    }
    Ok(())
}

// The last of n numbers from lower on.
pub fn last_of(lower: i64, n: i64) -> i64
    requires { (nat_abs lower ≤ 2147483647) × (nat_abs n ≤ 2147483647) }
    ensures { result ≡ lower +ℤ n -ℤ pos 1 }
{
    lower + n - 1
}

// Question 15. An array of no elements has no last index.
fn bounds_fit(m: Mapping) -> bool
    requires { (nat_abs m.cells ≤ 2147483647) × (nat_abs m.size ≤ 2147483647) }
    ensures { result ≡ bounds_fit (mapping_with m []) }
{
    if !within(-MOST, MOST, m.lower) {
        return false;
    }
    if !within(-MOST, MOST, m.origin) {
        return false;
    }
    if !within(-MOST, MOST, last_of(m.origin, m.cells)) {
        return false;
    }
    if m.size < 1 {
        return true;
    }
    within(-MOST, MOST, last_of(m.lower, m.size))
}

// The cell under declared index j, which may lie outside the template.
fn cell_under(m: Mapping, j: i64) -> i64
    requires { Aligned m.stride m.offset m.origin j }
    ensures { result ≡ m.stride *ℤ j +ℤ m.offset -ℤ m.origin }
{
    m.stride * j + m.offset - m.origin
}

// Question 5, second half: is there no element, or do the first one's cell and the last
// one's lie in the template?
fn cells_fit(m: Mapping) -> bool
    requires { Reached m.stride m.offset m.size m.lower m.origin }
    ensures { result ≡ cells_fit (mapping_with m []) }
{
    if m.size < 1 {
        return true;
    }
    if cell_under(m, m.lower) < 0 {
        return false;
    }
    cell_under(m, last_of(m.lower, m.size)) < m.cells
}

// Questions 1 to 5, 15 and 16; 15 stands between the halves of 5.
fn ask_numbers(m: Mapping, listed: bool) -> Result<(), Refusal>
    ensures { asked_as result ≡ first_no (of_listed listed (mapping_with m [])) }
{
    ask_dealing(m, listed)?;
    if !within(0, MOST, m.size) {
        return Err(Refusal::Array);
    }
    if !bounds_fit(m) {
        return Err(Refusal::Bounds);
    }
    if !cells_fit(m) {
        return Err(Refusal::Array);
    }
    Ok(())
}

// A mapping that passed its questions: its layout, and its array's lower bound.
#[derive(Clone, Copy)]
pub struct Mapped {
    pub layout: Layout,
    pub lower: i64,
}

// Its block; 1 stands for that of a GEN_BLOCK template.
fn block_of(d: Dealing) -> i64
    ensures { result ≡ block_in (dealing_with d []) }
{
    match d {
        Dealing::Cyclic(k) => k,
        Dealing::GenBlock => 1,
    }
}

// The list was looked through before.
pub fn ask_mapping(m: Mapping, sizes: &[u8], listed: bool) -> Result<Mapped, Refusal>
    requires { listed ≡ list_fits m.cells m.processors (dealing_with m.dealing sizes.now) }
    ensures value { by_number result ≡ mapped_of (mapping_with m sizes.now) }
    ensures sound { Sound (by_number result) }
{
    ask_numbers(m, listed)?;
    let lower = m.lower;
    let layout = Layout {
        cells: natural(m.cells),
        processors: natural(m.processors),
        block: natural(block_of(m.dealing)),
        stride: natural(m.stride),
        offset: natural(cell_under(m, lower)),
        size: natural(m.size),
    };
    Ok(Mapped { layout, lower })
}

// The runs of a GEN_BLOCK template, by the list of their sizes as bytes, 4 to a size.
ghost use Rattle.std.specs.Prelude.{◌≡◌, suc, ◌*◌, ◌/◌, ◌%◌, ◌^◌, ◌≤◌, ◌<◌, pos, length};
ghost use Rattle.numbers.specs.Search.{sum};
ghost use Rattle.numbers.specs.Words.{words_of};
ghost use Rattle.model.specs.Mappings.{sizes_of};
ghost use Rattle.model.specs.Ownership.{run_start, run_owner};
ghost use Rattle.model.specs.Questions.{each_natural, sizes_fit};

use model::{Cell, MOST};
use numbers::words::word_at;

// The largest size that is not negative.
const MOST_SIZE: u32 = MOST as u32;

// The cells of a processor's run: those from start to end - 1.
// No ghost field says that it ends no earlier than it starts: `part_in` makes one of any list.
#[derive(Clone, Copy)]
pub struct Run {
    pub start: Cell,
    pub end: Cell,
}

// Is each size 0 or more?
fn each_natural(sizes: &[u8]) -> bool
    requires { length sizes.now ≤ 4096 }
    ensures { result ≡ each_natural (sizes_of sizes.now) }
{
    for q in 0..sizes.len() / 4 {
        if MOST_SIZE < word_at(sizes, q) {
            return false;
        }
    }
    true
}

// The sum of the sizes before q.
fn start_of(sizes: &[u8], q: usize) -> u64
    requires { (q ≤ length sizes.now / 4) × (length sizes.now ≤ 4096) }
    ensures value { result ≡ run_start (words_of 4 sizes.now) q }
    ensures upper_bound { result ≤ 4294967296 * q }
{
    let mut start: u64 = 0;
    for i in 0..q {
        start += u64::from(word_at(sizes, i));
    }
    start
}

// Question 16.
pub(crate) fn sizes_fit(sizes: &[u8], processors: u64, cells: u64) -> bool
    requires { processors ≤ 1024 }
    ensures { result ≡ sizes_fit (pos cells) (pos processors) (sizes_of sizes.now) (length sizes.now % 4) }
{
    let n = processors as usize;
    if sizes.len() != 4 * n {
        return false;
    }
    if !each_natural(sizes) {
        return false;
    }
    cells <= start_of(sizes, n)
}

// The run of processor q.
pub(crate) fn run_of(sizes: &[u8], q: usize) -> Run
    requires { (q < length sizes.now / 4) × (length sizes.now ≤ 4096) }
    ensures value { result ≡ record { start = record { 0 = run_start (words_of 4 sizes.now) q }; end = record { 0 = run_start (words_of 4 sizes.now) (suc q) } } }
    ensures start_le_end { (result.start.0 ≤ result.end.0) × (result.end.0 ≤ 2 ^ 42) }
{
    let start = start_of(sizes, q);
    let end = start + word_at(sizes, q) as u64;
    Run {
        start: Cell(start),
        end: Cell(end),
    }
}

// A processor, and where its run starts.
#[derive(Clone, Copy)]
pub struct Owner {
    pub processor: u64,
    pub start: Cell,
}

// The owner of cell c.
pub(crate) fn owner_in(sizes: &[u8], c: Cell) -> Owner
    requires { (c.0 < sum (words_of 4 sizes.now)) × (length sizes.now ≤ 4096) }
    ensures processor_value { result.processor ≡ run_owner (words_of 4 sizes.now) c.0 }
    ensures start_value { result.start.0 ≡ run_start (words_of 4 sizes.now) result.processor }
{
    let mut start: u64 = 0;
    for q in 0..sizes.len() / 4 {
        let end = start + u64::from(word_at(sizes, q));
        if c.0 < end {
            return Owner {
                processor: q as u64,
                start: Cell(start),
            };
        }
        start = end;
    }
    unreachable!()
}

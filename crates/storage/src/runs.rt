// Runs of a cyclic template's array: elements that follow one another in one block. Their indices are
// consecutive, and so are their local addresses. From one run to the next the column at which a
// block's elements begin moves by one of two numbers, so that nothing is divided on the way.
ghost use Rattle.std.specs.Prelude.{◌≡◌, ◌<◌};
ghost use Rattle.model.specs.Sized.{Sized};
ghost use Rattle.storage.specs.Pacing.{short_pace, long_pace, pace_of, length_at, run_at, first_run, next_run, wrapped_run, Paced, Within};

use mapping::dealing::owner_of;
use model::{Cell, Index, Layout};

// A run that begins before column `limit` has `many` elements; the next begins `rise` columns
// higher, on the processor `many_on` after this one. From `limit` on a run has `few`; the next
// begins `limit` columns lower, `few_on` processors after.
#[derive(Clone, Copy)]
pub struct Pace {
    pub limit: usize,
    pub rise: usize,
    pub many: usize,
    pub few: usize,
    pub many_on: usize,
    pub few_on: usize,
    pub processors: usize,
}

// The run of `length` elements from an index on, the column at which its block's elements begin, and
// its owner; past the last processor the owners begin anew.
#[derive(Clone, Copy)]
pub struct Run {
    pub index: Index,
    pub length: usize,
    pub column: usize,
    pub processor: usize,
}

// A stride below a block: every block has elements, k / a or one more.
fn short_pace(l: Layout) -> Pace
    requires sized { Sized l }
    requires stride_lt_block { l.stride < l.block }
    ensures { result ≡ short_pace l }
{
    let limit = l.block % l.stride;
    let few = l.block / l.stride;
    let on = 1 % l.processors;
    Pace {
        limit: limit as usize,
        rise: (l.stride - limit) as usize,
        many: few as usize + 1,
        few: few as usize,
        many_on: on as usize,
        few_on: on as usize,
        processors: l.processors as usize,
    }
}

// A stride of a block or more: each element is alone in its block, and the next one's is a / k blocks
// on or one more. Not one with short_pace: no field but the last has the same formula.
fn long_pace(l: Layout) -> Pace
    requires { Sized l }
    ensures { result ≡ long_pace l }
{
    let rise = l.stride % l.block;
    let blocks = l.stride / l.block;
    let many_on = blocks % l.processors;
    let few_on = (blocks + 1) % l.processors;
    Pace {
        limit: (l.block - rise) as usize,
        rise: rise as usize,
        many: 1,
        few: 1,
        many_on: many_on as usize,
        few_on: few_on as usize,
        processors: l.processors as usize,
    }
}

pub fn pace_of(l: Layout) -> Pace
    requires { Sized l }
    ensures { result ≡ pace_of l }
{
    if l.stride < l.block {
        return short_pace(l);
    }
    long_pace(l)
}

impl Pace {
    // How many elements a block has, if the first of them sits at this column.
    fn length_at(self, column: usize) -> usize
        ensures { result ≡ length_at self column }
    {
        if column < self.limit {
            return self.many;
        }
        self.few
    }

    // The run from an index on, in a block whose elements begin at this column.
    fn run_at(self, index: Index, column: usize, processor: usize) -> Run
        ensures { result ≡ run_at self index.0 column processor }
    {
        Run {
            index,
            length: self.length_at(column),
            column,
            processor,
        }
    }

    // The array's first run. Its block may have room for elements before the first, which are left
    // out.
    pub fn first_run(self, l: Layout) -> Run
        requires sized { Sized l }
        requires paced { Paced l self }
        ensures { result ≡ first_run l self }
    {
        let column = l.offset % l.block;
        let owner = owner_of(l, Cell(l.offset));
        let r = self.run_at(Index(0), (column % l.stride) as usize, owner as usize);
        Run {
            length: r.length - (column / l.stride) as usize,
            ..r
        }
    }

    // The run after one of which so many elements were taken. Where the stride is a multiple of the
    // block no column changes: asked first, since the compiler then makes a loop of its own of it.
    pub fn next_run(self, r: Run, taken: usize) -> Run
        requires { Within self r taken }
        ensures { result ≡ next_run self r taken }
    {
        let index = Index(r.index.0 + taken as u64);
        if self.rise == 0 {
            return Run {
                index,
                length: self.many,
                processor: r.processor + self.many_on,
                ..r
            };
        }
        if r.column < self.limit {
            return self.run_at(index, r.column + self.rise, r.processor + self.many_on);
        }
        self.run_at(index, r.column - self.limit, r.processor + self.few_on)
    }

    // A run's owner among the processors that there are.
    pub fn wrapped_run(self, r: Run) -> Run
        ensures { result ≡ wrapped_run self r }
    {
        if r.processor < self.processors {
            return r;
        }
        Run {
            processor: r.processor - self.processors,
            ..r
        }
    }
}

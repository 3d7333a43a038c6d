// Laps of a cyclic template: once through the processors, the words of each run are copied between
// the storage and index order, run by run.
ghost use Rattle.std.specs.Prelude.{◌≡◌, ◌<◌};
ghost use Rattle.storage.specs.Copying.{from_place, to_place, copied_on, taken_of, Ready, Takes, Begins};

use crate::runs::{Pace, Run, pace_of};
use crate::words::{copy_few, copy_run};
use model::{Index, Layout};

// So few words are copied one by one.
const FEW: usize = 3;

// Loading goes from index order into the storage, saving the other way. A flag and no closure, which would bring a contract
// into each of a lap's.
#[derive(Clone, Copy)]
struct Way {
    loading: bool,
    layout: Layout,
    pace: Pace,
}

impl Way {
    // Of an element and its place in the storage: the place that is read and the one that is written.
    fn places(self, index: Index, place: usize) -> (usize, usize)
        ensures read { result.0 ≡ from_place self.loading index.0 place }
        ensures written { result.1 ≡ to_place self.loading index.0 place }
    {
        let in_order = index.0 as usize;
        if self.loading {
            return (in_order, place);
        }
        (place, in_order)
    }

    // How many elements of a run are taken: as far as the array goes. LONGEST is 1 where every run has
    // one, FEW where none has more, and any larger number elsewhere.
    fn taken_of<const LONGEST: usize>(self, r: Run) -> usize
        requires { r.index.0 < self.layout.size }
        ensures { result ≡ taken_of LONGEST self.layout r }
    {
        if LONGEST == 1 {
            return 1;
        }
        r.length.min((self.layout.size - r.index.0) as usize)
    }

    // The run that is next.
    fn take_run<const LONGEST: usize>(
        self,
        r: Run,
        row: &mut [u32],
        from: &[u64],
        to: &mut [u64],
    ) -> Run
        requires ready { Ready self.layout self.pace r row.old from.now to.old }
        requires alone { LONGEST ≡ 1 → self.pace.many ≡ 1 }
        ensures { Takes self.loading self.layout self.pace r result from.now row.old to.old row.new to.new }
    {
        let taken = self.taken_of::<LONGEST>(r);
        let at = row[r.processor] as usize;
        let (read, written) = self.places(r.index, at);
        if LONGEST <= FEW {
            copy_few(from, read, to, written, taken);
        } else {
            copy_run(from, read, to, written, taken);
        }
        row[r.processor] = (at + taken) as u32;
        self.pace.next_run(r, taken)
    }

    // A lap, run by run.
    fn lap_of<const LONGEST: usize>(
        self,
        start: Run,
        row: &mut [u32],
        from: &[u64],
        to: &mut [u64],
    ) -> Run
        requires ready { Ready self.layout self.pace start row.old from.now to.old }
        requires alone { LONGEST ≡ 1 → self.pace.many ≡ 1 }
        ensures { Takes self.loading self.layout self.pace start result from.now row.old to.old row.new to.new }
    {
        let mut r = start;
        // Not a `for`: a run may go several processors on.
        while r.processor < self.pace.processors && r.index.0 < self.layout.size {
            r = self.take_run::<LONGEST>(r, row, from, to);
        }
        r
    }

    // How long runs are is asked of a lap, and not of each run, so that the compiler makes a loop of
    // single words, and one without a call: it takes up to twice the time otherwise where all runs
    // are of 1 word, and up to 1.2 times where they are of 2 or 3.
    fn lap(self, start: Run, row: &mut [u32], from: &[u64], to: &mut [u64]) -> Run
        requires { Ready self.layout self.pace start row.old from.now to.old }
        ensures { Takes self.loading self.layout self.pace start result from.now row.old to.old row.new to.new }
    {
        if self.pace.many == 1 {
            return self.lap_of::<1>(start, row, from, to);
        }
        if self.pace.many <= FEW {
            return self.lap_of::<FEW>(start, row, from, to);
        }
        self.lap_of::<{ usize::MAX }>(start, row, from, to)
    }
}

// All words of the array, with a row of pointers at the starts.
pub fn copy_all(loading: bool, layout: Layout, row: &mut [u32], from: &[u64], to: &mut [u64])
    requires { Begins layout row.old from.now to.old }
    ensures { to.new ≡ copied_on loading layout 0 layout.size from.now to.old }
{
    let pace = pace_of(layout);
    let way = Way {
        loading,
        layout,
        pace,
    };
    let mut r = pace.first_run(layout);
    // Not a `for`: a lap takes as many elements as its runs have.
    while r.index.0 < layout.size {
        r = pace.wrapped_run(way.lap(r, row, from, to));
    }
}

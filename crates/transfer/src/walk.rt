// The positions of a pair, found on a walk: along the elements of the processor that has
// fewer of the section, with a test at each whether the other owns it too.
ghost use Rattle.std.specs.Prelude.{◌≡◌};
ghost use Rattle.std.specs.Iterator.{YieldsFirstBy, item_count};
ghost use Rattle.transfer.specs.Pairs.{Meets, Fit, places};
ghost use Rattle.transfer.specs.Walks.{Along, Standing, ahead};

use crate::questions::Pair;
use model::{Position, Steps};
use section::shares::{Share, elements_in, first_of, next_of, owns_at};
use section::steps::steps_of;

// The share that is walked, by its steps from its first place, and the one that is tested.
#[derive(Clone, Copy)]
pub struct Walk {
    pub walked: Share,
    pub tested: Share,
    pub steps: Steps,
    pub first: Position,
}

// Steps are found once. Along a run none are looked at, so that those of blocks do for both.
fn walk_by(walked: Share, tested: Share) -> Walk
    requires { Meets walked tested }
    ensures { Along result × (result.walked ≡ walked) × (result.tested ≡ tested) }
{
    let w = walked.section;
    Walk {
        walked,
        tested,
        steps: steps_of(w),
        first: first_of(walked),
    }
}

// Which share is walked changes the cost only.
pub fn walk_of(p: Pair) -> Walk
    requires { Fit p }
    ensures { Along result × (places result.walked result.tested ≡ places p.sender p.receiver) }
{
    let s = p.sender;
    let r = p.receiver;
    if elements_in(s) <= elements_in(r) {
        return walk_by(s, r);
    }
    walk_by(r, s)
}

// The positions that are still ahead of a walk, in rising order.
#[derive(Clone, Copy)]
pub struct Places {
    pub walk: Walk,
    pub at: Position,
}

// All positions of a walk.
pub fn places_of(w: Walk) -> Places
    requires { Along w }
    ensures { Standing result × (ahead result ≡ places w.walked w.tested) }
{
    Places {
        walk: w,
        at: w.first,
    }
}

impl Iterator for Places {
    type Item = Position;

    ghost can_next = { Standing };

    ghost next_gives = { YieldsFirstBy (λ t. t.0) ahead };

    ghost remaining = { item_count ahead };

    // Called, it would read the walk from memory at each entry.
    #[inline(always)]
    fn next(&mut self) -> Option<Position> {
        let Walk {
            walked,
            tested,
            steps,
            ..
        } = self.walk;
        // Not a `for`: the walk goes on by its own steps.
        while self.at.0 < walked.section.count {
            let here = self.at;
            self.at = next_of(walked, steps, here);
            if owns_at(tested, here) {
                return Some(here);
            }
        }
        None
    }
}

// How a fill goes through a processor's share, found once for many fills of it: by the plan of its
// blocks, or along its run.
ghost use Rattle.section.specs.Shares as section;
ghost use Rattle.fill.specs.Ready.{share_from, Accepted, FillsBytesFrom};
ghost use Rattle.fill.specs.Ways.{WayOf};

use crate::long::fill_planned_list;
use crate::plan::{Plan, plan_of};
use crate::ready::Start;
use crate::runs::fill_run;
use section::shares::{Extent, Share, Span};
use walk::moves::Report;

// An enum for the same reason as `Plan`.
#[derive(Clone, Copy)]
pub enum Way {
    Blocks(Plan),
    Run(Span),
}

// Which of the plans that are right for a share's blocks it is stays open: only a fill by this way looks
// at it, and any of them gives the same list.
pub fn way_of(s: Share) -> Way
    requires { section.Accepted s }
    ensures { WayOf s result }
{
    match s.extent {
        Extent::Blocks => Way::Blocks(plan_of(s.section, s.processor)),
        Extent::Run(r) => Way::Run(r),
    }
}

// The fill of a list of bytes, by the way through its share.
pub fn fill_bytes_by(s: Start, way: Way, list: &mut [u8]) -> Report
    requires { Accepted s × WayOf (share_from s) way }
    ensures { FillsBytesFrom s list.old list.new result }
{
    match way {
        Way::Blocks(plan) => fill_planned_list(s, plan, list),
        Way::Run(r) => fill_run(s, r, list),
    }
}

// A round in four lanes, in either way, by the permutation's own table of groups.
ghost use Rattle.std.specs.Prelude.{[], ◌<◌, slice_index_or};
ghost use Rattle.permutation.specs.Permutation.{groups, step_at};
ghost use Rattle.lanes.specs.Lanes.{AllLanes};

use crate::g::g4;
use permutation::round::GROUPS;
use permutation::way::Way;

// The step over the group that a round of this way takes as its k-th.
#[tactic(auto, unfolding(permutation::specs::Permutation::groups, permutation::specs::Permutation::columns, permutation::specs::Permutation::diagonals))]
fn step4<W: Way>(w: &mut [u64; 64], k: usize)
    requires { k < 8 }
    ensures { AllLanes (step_at W.quad (slice_index_or groups (W.group k) [])) w.old w.new }
{
    g4::<W>(w, GROUPS[W::group(k)]);
}

// A round: at Forward the table read forward, at Back read backward.
// Kept: eight calls, since a loop over the table is not unrolled, and takes a third more time and up.
pub fn round4<W: Way>(w: &mut [u64; 64])
    ensures { AllLanes W.round w.old w.new }
{
    step4::<W>(w, 0);
    step4::<W>(w, 1);
    step4::<W>(w, 2);
    step4::<W>(w, 3);
    step4::<W>(w, 4);
    step4::<W>(w, 5);
    step4::<W>(w, 6);
    step4::<W>(w, 7);
}

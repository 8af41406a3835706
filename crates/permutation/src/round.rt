// A round, in either way.
ghost use Rattle.std.specs.Prelude.{◌≡◌, ◌<◌, [], slice_index_or};
ghost use Rattle.permutation.specs.Permutation.{groups, step_at};

use crate::g::g_at;
use crate::way::Way;

// The eight groups of word numbers, as section 8 prints them: four columns, then four diagonals.
pub const GROUPS: [[usize; 4]; 8] = [
    [0, 4, 8, 12],
    [1, 5, 9, 13],
    [2, 6, 10, 14],
    [3, 7, 11, 15],
    [0, 5, 10, 15],
    [1, 6, 11, 12],
    [2, 7, 8, 13],
    [3, 4, 9, 14],
];

// The step over the group that a round of this way takes as its k-th.
#[tactic(auto, unfolding(crate::specs::Permutation::groups, crate::specs::Permutation::columns, crate::specs::Permutation::diagonals))]
fn step<W: Way>(s: [u64; 16], k: usize) -> [u64; 16]
    requires { k < 8 }
    ensures { result ≡ step_at W.quad (slice_index_or groups (W.group k) []) s }
{
    g_at::<W>(s, GROUPS[W::group(k)])
}

// A round: at Forward the table read forward, the columns and then the diagonals; at Back read backward.
// Kept: eight calls, since a loop over the table is not unrolled, and takes more than ten times as long.
#[tactic(auto, unfolding(crate::specs::Way::stepped))]
pub fn round<W: Way>(s: [u64; 16]) -> [u64; 16]
    ensures { result ≡ W.round s }
{
    let r1 = step::<W>(s, 0);
    let r2 = step::<W>(r1, 1);
    let r3 = step::<W>(r2, 2);
    let r4 = step::<W>(r3, 3);
    let r5 = step::<W>(r4, 4);
    let r6 = step::<W>(r5, 5);
    let r7 = step::<W>(r6, 6);
    step::<W>(r7, 7)
}

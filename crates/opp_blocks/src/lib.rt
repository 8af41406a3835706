// The pass over a message's whole blocks, masks stepping on from block to block: sealing and opening
// differ in the way a block goes, and in which of its two forms is plain.

#![tactic(auto)]

ghost use Rattle.std.specs.Prelude.{◌≤◌, length};
ghost use Rattle.blockplan.specs.Plan.{whole};
ghost use Rattle.blockplan.specs.Pass.{stepping, Passed};

use crate::opening::open_blocks;
use crate::sealing::seal_blocks;
use blockplan::Summed;

pub mod judging;
pub mod one;
pub mod opening;
pub mod resealing;
pub mod sealing;

// The whole blocks, sealed or opened: the sum is the check over them, and the mask is one for the next
// block.
pub fn pass_blocks<const OPENING: bool>(
    first: [u64; 16],
    rounds: u32,
    s: &[u8],
    out: &mut [u8],
) -> Summed
    requires { length s.now ≤ length out.old }
    ensures { Passed OPENING rounds (stepping first) s.now (whole s.now) out.old out.new result.sum result.mask }
{
    if OPENING {
        open_blocks(first, rounds, s, out)
    } else {
        seal_blocks(first, rounds, s, out)
    }
}

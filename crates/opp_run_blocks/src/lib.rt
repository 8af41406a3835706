// The pass over a message's whole blocks, whose masks stand one word apart in a run: four in a turn, then
// up to three one by one. Sealing and opening are two instances, each with loops of its own.

#![tactic(auto)]

ghost use Rattle.std.specs.Prelude.{◌≤◌, ◌+◌, length};
ghost use Rattle.masks.specs.Run.{mask_from};
ghost use Rattle.blockplan.specs.Plan.{whole};
ghost use Rattle.blockplan.specs.Pass.{Passed};

use crate::fours::pass_fours;
use crate::ones::pass_ones;

mod fours;
mod ones;

// The whole blocks, sealed or opened: the sum is the check over them.
pub fn pass_blocks<const OPENING: bool>(
    run: &[u64],
    rounds: u32,
    s: &[u8],
    out: &mut [u8],
) -> [u64; 16]
    requires { (whole s.now + 17 ≤ length run.now) × (length s.now ≤ length out.old) }
    ensures { Passed OPENING rounds (mask_from 0 run.now) s.now (whole s.now) out.old out.new result (mask_from 0 run.now (whole s.now)) }
{
    let sum = pass_fours::<OPENING>(run, rounds, s, out);
    let n = 4 * (s.len() / 512);
    let at = 128 * n;
    pass_ones::<OPENING>(sum, run, n, rounds, &s[at..], &mut out[at..])
}

// The whole blocks opened.
ghost use Rattle.std.specs.Prelude.{true, ◌≤◌, length};
ghost use Rattle.blockplan.specs.Plan.{whole};
ghost use Rattle.blockplan.specs.Pass.{stepping, Passed};

use crate::one::pass_block;
use blockplan::Summed;
use masks::steps::alpha;
use words::block::zero;

// The whole blocks opened, each written at its own offset.
pub fn open_blocks(first: [u64; 16], rounds: u32, s: &[u8], out: &mut [u8]) -> Summed
    requires { length s.now ≤ length out.old }
    ensures { Passed true rounds (stepping first) s.now (whole s.now) out.old out.new result.sum result.mask }
{
    let mut sum = zero();
    let mut mask = first;
    for i in 0..s.len() / 128 {
        let at = 128 * i;
        let more = pass_block::<true>(sum, mask, rounds, &s[at..], &mut out[at..]);
        sum = more;
        let step = alpha(mask);
        mask = step;
    }
    Summed { sum, mask }
}

// One block in a turn, sealed or opened.
ghost use Rattle.std.specs.Prelude.{◌≤◌, ◌+◌, length};
ghost use Rattle.blockplan.specs.Plan.{whole};
ghost use Rattle.quads.specs.Quads.{from_run};
ghost use Rattle.opp_run_blocks.specs.More.{MorePassed};

use opp_blocks::one::pass_block;
use runs::kinds::Kind;
use runs::windows::mask_at;

// The whole blocks of s under the masks from word n on.
pub fn pass_ones<const OPENING: bool>(
    sum: [u64; 16],
    run: &[u64],
    n: usize,
    rounds: u32,
    s: &[u8],
    out: &mut [u8],
) -> [u64; 16]
    requires { (n + whole s.now + 17 ≤ length run.now) × (length s.now ≤ length out.old) }
    ensures { MorePassed OPENING rounds (from_run 0 run.now n) s.now (whole s.now) out.old out.new sum result }
{
    let mut sum = sum;
    let count = s.len() / 128;
    for i in 0..count {
        let at = 128 * i;
        let mask = mask_at(run, n + i, Kind::Alpha);
        let more = pass_block::<OPENING>(sum, mask, rounds, &s[at..], &mut out[at..]);
        sum = more;
    }
    sum
}

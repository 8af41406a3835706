// Four blocks sealed or opened in a turn.
ghost use Rattle.std.specs.Prelude.{true, false, ◌≤◌, ◌+◌, ◌*◌, ◌/◌, length};
ghost use Rattle.masks.specs.Run.{mask_from};
ghost use Rattle.blockplan.specs.Plan.{whole};
ghost use Rattle.blockplan.specs.Pass.{Passed};
ghost use Rattle.quads.specs.Quads.{from_run};
ghost use Rattle.opp_run_blocks.specs.More.{MorePassed};

use lanes::permute::permute4;
use permutation::way::{Back, Forward};
use quads::bytes::{load4, store4, sum4};
use quads::four_masks::FromRun;
use quads::masked::gather;
use quads::spreading::{mask_lanes, spread, spread_summed};
use runs::kinds::Kind;
use words::block::zero;

// Kept: the run and a place in it apart, since `mask_lanes` reads the words beside each other, and FromRun one by one.

// The first four blocks of s under the masks at words n to n + 3, and the blocks themselves into the
// check.
// Kept: beside open_four, since it sums what goes in, in the loop that spreads it, and open_four what comes out.
fn seal_four(
    sum: [u64; 16],
    run: &[u64],
    n: usize,
    rounds: u32,
    s: &[u8],
    out: &mut [u8],
) -> [u64; 16]
    requires { (n + 21 ≤ length run.now) × ((512 ≤ length s.now) × (512 ≤ length out.old)) }
    ensures { MorePassed false rounds (from_run 0 run.now n) s.now 4 out.old out.new sum result }
{
    let given = load4(s);
    let put = spread_summed(sum, given);
    let mut w = put.lanes;
    mask_lanes(&mut w, run, n);
    permute4::<Forward>(&mut w, rounds);
    let masks = FromRun {
        words: run,
        at: n,
        kind: Kind::Alpha,
    };
    store4(gather(w, &masks), out);
    put.sum
}

// The same opened, and what the blocks become into the check.
fn open_four(
    sum: [u64; 16],
    run: &[u64],
    n: usize,
    rounds: u32,
    s: &[u8],
    out: &mut [u8],
) -> [u64; 16]
    requires { (n + 21 ≤ length run.now) × ((512 ≤ length s.now) × (512 ≤ length out.old)) }
    ensures { MorePassed true rounds (from_run 0 run.now n) s.now 4 out.old out.new sum result }
{
    let given = load4(s);
    let mut w = spread(given);
    mask_lanes(&mut w, run, n);
    permute4::<Back>(&mut w, rounds);
    let masks = FromRun {
        words: run,
        at: n,
        kind: Kind::Alpha,
    };
    let made = gather(w, &masks);
    store4(made, out);
    sum4(sum, made)
}

// One way or the other: which is known where this is compiled.
fn pass_four<const OPENING: bool>(
    sum: [u64; 16],
    run: &[u64],
    n: usize,
    rounds: u32,
    s: &[u8],
    out: &mut [u8],
) -> [u64; 16]
    requires { (n + 21 ≤ length run.now) × ((512 ≤ length s.now) × (512 ≤ length out.old)) }
    ensures { MorePassed OPENING rounds (from_run 0 run.now n) s.now 4 out.old out.new sum result }
{
    if OPENING {
        open_four(sum, run, n, rounds, s, out)
    } else {
        seal_four(sum, run, n, rounds, s, out)
    }
}

// The blocks in fours, from the front.
pub fn pass_fours<const OPENING: bool>(
    run: &[u64],
    rounds: u32,
    s: &[u8],
    out: &mut [u8],
) -> [u64; 16]
    requires { (whole s.now + 17 ≤ length run.now) × (length s.now ≤ length out.old) }
    ensures { Passed OPENING rounds (mask_from 0 run.now) s.now (4 * (length s.now / 512)) out.old out.new result (mask_from 0 run.now (4 * (length s.now / 512))) }
{
    let mut sum = zero();
    let count = s.len() / 512;
    for i in 0..count {
        let n = 4 * i;
        let at = 128 * n;
        let more = pass_four::<OPENING>(sum, run, n, rounds, &s[at..], &mut out[at..]);
        sum = more;
    }
    sum
}

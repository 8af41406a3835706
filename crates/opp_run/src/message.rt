// The one pass over the message: whole blocks, the leftover, and the check over the plain bytes.
ghost use Rattle.std.specs.Prelude.{◌≡◌, ◌++◌, ◌+◌, ◌≤◌, length, take, drop};
ghost use Rattle.words.specs.Block.{Block};
ghost use Rattle.blockplan.specs.Plan.{whole};
ghost use Rattle.opp.specs.Opp.{opp_check};
ghost use Rattle.opp.specs.Pass.{written, plain};

use opp::message::pass_leftover_under;
use opp_run_blocks::pass_blocks;
use runs::kinds::Kind;
use runs::run::Run;
use runs::windows::gammas;

// Room for the words of the gamma masks of the longest message: one for each of 512 blocks, sixteen, and
// one that pass_blocks asks for and nothing reads.
const MOST: usize = 529;

// All bytes; what comes back is the check over the plain ones. The words of the gamma masks are made once
// from the run, since each stands in up to sixteen masks.
pub fn pass<const OPENING: bool>(run: &Run, rounds: u32, s: &[u8], out: &mut [u8]) -> [u64; 16]
    requires { (whole s.now + 21 ≤ length run.now) × ((length s.now ≤ 65536) × (length s.now ≤ length out.old)) }
    ensures out_after { out.new ≡ written OPENING rounds (take 16 run.now) s.now ++ drop (length s.now) out.old }
    ensures value { result ≡ opp_check (plain OPENING rounds (take 16 run.now) s.now) }
    ensures start { Block (take 16 run.now) }
{
    let m = s.len() / 128;
    let mut masks: [u64; MOST] = [0; MOST];
    gammas(run.words(), m + 16, &mut masks);
    let sum = pass_blocks::<OPENING>(&masks, rounds, s, out);
    let at = 128 * m;
    if at == s.len() {
        return sum;
    }
    let mask = run.beta_of(m, Kind::Gamma);
    pass_leftover_under::<OPENING>(sum, mask, rounds, &s[at..], &mut out[at..])
}

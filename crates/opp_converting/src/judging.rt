// The check over a parcel's message, without the message.
ghost use Rattle.std.specs.Prelude.{◌≡◌, cond};
ghost use Rattle.mem.specs.Mem.{mask_at};
ghost use Rattle.blockplan.specs.Plan.{whole, has_left};
ghost use Rattle.opp.specs.Opp.{opp_check, opp_plain};

use blockplan::Summed;
use masks::steps::gamma;
use opp::message::pass_leftover;
use opp_blocks::judging::check_blocks;

// What a pass that opens ends with. The leftover's plain bytes are on the stack alone.
pub fn check(start: [u64; 16], rounds: u32, s: &[u8]) -> Summed
    ensures { (result.sum ≡ opp_check (opp_plain rounds start s.now)) × (result.mask ≡ mask_at start (whole s.now) (cond (has_left s.now) 1 0) 1) }
{
    let blocks = check_blocks(gamma(start), rounds, s);
    let n = s.len();
    let at = 128 * (n / 128);
    if at == n {
        return blocks;
    }
    let mut bytes = [0u8; 128];
    pass_leftover::<true>(blocks, rounds, &s[at..], &mut bytes)
}

// The sum over the header, and the block whose first 32 bytes are the tag.
ghost use Rattle.std.specs.Prelude.{◌≡◌, cond, ◌+◌, ◌≤◌, length, take};
ghost use Rattle.words.specs.Block.{xor_block};
ghost use Rattle.mem.specs.Mem.{mask_at, encipher as encipher_of};
ghost use Rattle.blockplan.specs.Plan.{whole, has_left};
ghost use Rattle.opp.specs.Opp.{opp_sum};

use mem::cipher::encipher;
use run_sums::absorb;
use runs::kinds::Kind;
use runs::run::Run;
use words::block::xor;

// Sum: the header's whole blocks, and its leftover, padded with byte 1, under a beta mask.
fn header_sum(run: &Run, rounds: u32, header: &[u8]) -> [u64; 16]
    requires { whole header.now + 21 ≤ length run.now }
    ensures { result ≡ opp_sum rounds (take 16 run.now) header.now }
{
    absorb(run.words(), Kind::Alpha, Kind::Beta, 1, rounds, header)
}

// The mask of the check over a message as long as s.
fn tag_mask(run: &Run, s: &[u8]) -> [u64; 16]
    requires { whole s.now + 21 ≤ length run.now }
    ensures { result ≡ mask_at (take 16 run.now) (whole s.now) (cond (has_left s.now) 3 2) 1 }
{
    let m = s.len() / 128;
    if 128 * m == s.len() {
        return run.beta_twice_of(m, Kind::Gamma);
    }
    run.beta_thrice_of(m, Kind::Gamma)
}

// Sum, xor E of the check. Of s, the message or its ciphertext, only the length counts.
pub fn tag_block(run: &Run, rounds: u32, header: &[u8], s: &[u8], check: [u64; 16]) -> [u64; 16]
    requires { (whole header.now + 21 ≤ length run.now) × (whole s.now + 21 ≤ length run.now) }
    ensures { result ≡ xor_block (opp_sum rounds (take 16 run.now) header.now) (encipher_of rounds (mask_at (take 16 run.now) (whole s.now) (cond (has_left s.now) 3 2) 1) check) }
{
    let sum = header_sum(run, rounds, header);
    let mask = tag_mask(run, s);
    xor(sum, encipher(check, mask, rounds))
}

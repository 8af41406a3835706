// Header and message summed, and the block that begins with their tag.
ghost use Rattle.std.specs.Prelude.{◌≡◌, false, ◌+◌, ◌≤◌, length, take};
ghost use Rattle.words.specs.Block.{xor_block};
ghost use Rattle.masks.specs.Run.{mask_from};
ghost use Rattle.mem.specs.Mem.{E};
ghost use Rattle.blockplan.specs.Plan.{whole, xor_over};
ghost use Rattle.blockplan.specs.Pass.{made_at, under};
ghost use Rattle.runs.specs.Kinds.{neighbours_in};
ghost use Rattle.mro.specs.Mro.{blocks, mro_sum, lengths};

use mro::sums::tag_under;
use run_sums::absorb;
use runs::kinds::Kind;
use runs::run::Run;
use words::block::xor;

// The sum of all blocks of s, one padded with zeros included.
fn absorb_all(run: &[u64], kind: Kind, rounds: u32, s: &[u8]) -> [u64; 16]
    requires { whole s.now + 21 ≤ length run.now }
    ensures { result ≡ xor_over (made_at (under false rounds (mask_from (neighbours_in kind) run.now)) s.now) (blocks s.now) }
{
    absorb(run, kind, kind, 0, rounds, s)
}

// The block whose first 32 bytes are the tag.
pub fn tag_block(run: &Run, rounds: u32, header: &[u8], message: &[u8]) -> [u64; 16]
    requires { (whole header.now + 21 ≤ length run.now) × (whole message.now + 21 ≤ length run.now) }
    ensures { result ≡ E rounds (take 16 run.now) 0 2 0 (xor_block (mro_sum rounds (take 16 run.now) header.now message.now) (lengths header.now message.now)) }
{
    let words = run.words();
    let of_header = absorb_all(words, Kind::Alpha, rounds, header);
    let of_message = absorb_all(words, Kind::Beta, rounds, message);
    let mask = run.beta_twice_of(0, Kind::Alpha);
    tag_under(
        xor(of_header, of_message),
        header.len(),
        message.len(),
        mask,
        rounds,
    )
}

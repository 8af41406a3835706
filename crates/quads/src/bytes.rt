// Four blocks out of bytes, into bytes, and into a sum.
ghost use Rattle.std.specs.Prelude.{◌≡◌, ◌++◌, ◌≤◌, length, drop};
ghost use Rattle.words.specs.Sequence.{cat, fold};
ghost use Rattle.words.specs.Block.{bytes_of, xor_block};
ghost use Rattle.blockplan.specs.Plan.{block_at};
ghost use Rattle.quads.specs.Quads.{nth, FourAre};

use crate::Four;
use words::block::{load, store, xor};

// The first four blocks of s.
pub fn load4(s: &[u8]) -> Four
    requires { 512 ≤ length s.now }
    ensures { FourAre result (block_at s.now) }
{
    Four {
        a: load(s),
        b: load(&s[128..]),
        c: load(&s[256..]),
        d: load(&s[384..]),
    }
}

// Their bytes, to the front of the output.
pub fn store4(f: Four, out: &mut [u8])
    requires { 512 ≤ length out.old }
    ensures { out.new ≡ cat (λ m. bytes_of (nth f m)) 4 ++ drop 512 out.old }
{
    store(f.a, out);
    store(f.b, &mut out[128..]);
    store(f.c, &mut out[256..]);
    store(f.d, &mut out[384..]);
}

// The sum with four blocks more in it.
#[tactic(auto, unfolding(crate::specs::Quads::nth, words::specs::Sequence::fold))]
pub fn sum4(sum: [u64; 16], f: Four) -> [u64; 16]
    ensures { result ≡ fold (λ m t. xor_block t (nth f m)) sum 4 }
{
    xor(xor(xor(xor(sum, f.a), f.b), f.c), f.d)
}

// Four blocks and four others, exclusive or.
pub fn xor4(f: Four, g: Four) -> Four
    ensures { FourAre result (λ m. xor_block (nth f m) (nth g m)) }
{
    Four {
        a: xor(f.a, g.a),
        b: xor(f.b, g.b),
        c: xor(f.c, g.c),
        d: xor(f.d, g.d),
    }
}

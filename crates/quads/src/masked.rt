// Four blocks under four masks, or all under one. The masks' words are xored on the way into the lanes and
// out of them.
ghost use Rattle.words.specs.Block.{xor_block};
ghost use Rattle.mem.specs.Mem.{encipher};
ghost use Rattle.lanes.specs.Lanes.{lane};
ghost use Rattle.quads.specs.Quads.{nth, FourAre, Spread};

use crate::Four;
use crate::four_masks::Masks;
use lanes::permute::permute4;
use permutation::way::Forward;

// The blocks xor their masks, word by word into four lanes.
fn spread_masked<M: Masks>(f: Four, masks: &M) -> [u64; 64]
    ensures { Spread result (λ m. xor_block (nth f m) (M.mask masks.now m)) }
{
    let mut w: [u64; 64] = [0; 64];
    for i in 0..16 {
        w[4 * i + 0] = f.a[i] ^ masks.word(i, 0);
        w[4 * i + 1] = f.b[i] ^ masks.word(i, 1);
        w[4 * i + 2] = f.c[i] ^ masks.word(i, 2);
        w[4 * i + 3] = f.d[i] ^ masks.word(i, 3);
    }
    w
}

// The lanes xor their masks, as four blocks.
pub fn gather<M: Masks>(w: [u64; 64], masks: &M) -> Four
    ensures { FourAre result (λ m. xor_block (lane w m) (M.mask masks.now m)) }
{
    let mut a: [u64; 16] = [0; 16];
    let mut b: [u64; 16] = [0; 16];
    let mut c: [u64; 16] = [0; 16];
    let mut d: [u64; 16] = [0; 16];
    for i in 0..16 {
        a[i] = w[4 * i + 0] ^ masks.word(i, 0);
        b[i] = w[4 * i + 1] ^ masks.word(i, 1);
        c[i] = w[4 * i + 2] ^ masks.word(i, 2);
        d[i] = w[4 * i + 3] ^ masks.word(i, 3);
    }
    Four { a, b, c, d }
}

// E of four blocks, each under its mask.
pub fn encipher4<M: Masks>(f: Four, masks: &M, rounds: u32) -> Four
    ensures { FourAre result (λ m. encipher rounds (M.mask masks.now m) (nth f m)) }
{
    let mut w = spread_masked(f, masks);
    permute4::<Forward>(&mut w, rounds);
    gather(w, masks)
}

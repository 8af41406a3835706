// Four blocks word by word into four lanes, and the lanes under masks whose words stand in a list, each
// mask one word on from that of the lane before.
ghost use Rattle.std.specs.Prelude.{◌≡◌, ◌≤◌, ◌<◌, ◌+◌, ◌*◌, length, get_or, set};
ghost use Rattle.std.specs.Int.Bits.{bit_xor};
ghost use Rattle.words.specs.Sequence.{fold};
ghost use Rattle.words.specs.Block.{xor_block};
ghost use Rattle.masks.specs.Run.{mask_from};
ghost use Rattle.quads.specs.Quads.{nth, Spread, MaskedWords, Masked};

use crate::Four;

// Four lanes, and a sum with the four blocks more in it.
#[derive(Clone, Copy)]
pub struct SummedLanes {
    pub lanes: [u64; 64],
    pub sum: [u64; 16],
}

// The blocks, word by word into four lanes.
// Kept: beside spread_masked, since with masks of zeros its clause would speak of blocks xor zero.
pub fn spread(f: Four) -> [u64; 64]
    ensures { Spread result (nth f) }
{
    let mut w: [u64; 64] = [0; 64];
    for i in 0..16 {
        w[4 * i + 0] = f.a[i];
        w[4 * i + 1] = f.b[i];
        w[4 * i + 2] = f.c[i];
        w[4 * i + 3] = f.d[i];
    }
    w
}

// The same, and the blocks into a sum, as long as their words are at hand.
// Kept: beside spread, since the sum is taken in the same loop, and a switch for it is no plainer.
pub fn spread_summed(sum: [u64; 16], f: Four) -> SummedLanes
    ensures { Spread result.lanes (nth f) × (result.sum ≡ fold (λ m t. xor_block t (nth f m)) sum 4) }
{
    let mut w: [u64; 64] = [0; 64];
    let mut t: [u64; 16] = [0; 16];
    for i in 0..16 {
        w[4 * i + 0] = f.a[i];
        w[4 * i + 1] = f.b[i];
        w[4 * i + 2] = f.c[i];
        w[4 * i + 3] = f.d[i];
        t[i] = sum[i] ^ f.a[i] ^ f.b[i] ^ f.c[i] ^ f.d[i];
    }
    SummedLanes { lanes: w, sum: t }
}

// Word i of lane m, xor that of its mask.
fn mask_lane_word(w: &mut [u64; 64], masks: &[u64], n: usize, i: usize, m: usize)
    requires { (n + 20 ≤ length masks.now) × ((i < 16) × (m < 4)) }
    ensures { w.new ≡ set w.old (4 * i + m) (bit_xor (get_or w.old (4 * i + m) 0) (get_or masks.now (n + m + i) 0)) }
{
    w[4 * i + m] ^= masks[n + m + i];
}

// Word i of each lane.
fn mask_words(w: &mut [u64; 64], masks: &[u64], n: usize, i: usize)
    requires { (n + 20 ≤ length masks.now) × (i < 16) }
    ensures { MaskedWords masks.now n i 1 w.old w.new }
{
    mask_lane_word(w, masks, n, i, 0);
    mask_lane_word(w, masks, n, i, 1);
    mask_lane_word(w, masks, n, i, 2);
    mask_lane_word(w, masks, n, i, 3);
}

// Words i to i + 3 of each lane.
fn mask_four(w: &mut [u64; 64], masks: &[u64], n: usize, i: usize)
    requires { (n + 20 ≤ length masks.now) × (i + 3 < 16) }
    ensures { MaskedWords masks.now n i 4 w.old w.new }
{
    mask_words(w, masks, n, i);
    mask_words(w, masks, n, i + 1);
    mask_words(w, masks, n, i + 2);
    mask_words(w, masks, n, i + 3);
}

// Each lane xor its mask.
// Kept: calls and no loop, which the compiler would vectorise along a lane, and not across the four.
pub fn mask_lanes(w: &mut [u64; 64], masks: &[u64], n: usize)
    requires { n + 20 ≤ length masks.now }
    ensures { Masked (λ m. mask_from 0 masks.now (n + m)) w.old w.new }
{
    mask_four(w, masks, n, 0);
    mask_four(w, masks, n, 4);
    mask_four(w, masks, n, 8);
    mask_four(w, masks, n, 12);
}

// Alpha, beta and gamma. A block goes in by value and comes back by value.
ghost use Rattle.std.specs.Prelude.{◌≡◌};
ghost use Rattle.words.specs.Word.{shl};
ghost use Rattle.masks.specs.Steps.{alpha as alpha_of, beta as beta_of, gamma as gamma_of};

use words::block::xor;
use words::word::{rotate_left, shift_left};

// Word 5's part in the new word: shifted, so that its top 13 bits are lost.
fn shifted(y: u64) -> u64
    ensures { result ≡ shl 13 y }
{
    shift_left(y, 13)
}

// Fifteen words move down by one place, and one is new.
pub fn alpha(s: [u64; 16]) -> [u64; 16]
    ensures { result ≡ alpha_of s }
{
    let w = rotate_left(s[0], 53) ^ shifted(s[5]);
    // Kept: the words one by one, since std's `rotate_left` of the array moves them through memory, at nearly twice the instructions.
    [
        s[1], s[2], s[3], s[4], s[5], s[6], s[7], s[8], s[9], s[10], s[11], s[12], s[13], s[14],
        s[15], w,
    ]
}

// Alpha of the block, xor the block.
#[tactic(auto, unfolding(crate::specs::Steps::beta))]
pub fn beta(s: [u64; 16]) -> [u64; 16]
    ensures { result ≡ beta_of s }
{
    let once = alpha(s);
    xor(once, s)
}

// Alpha taken twice, xor alpha taken once, xor the block.
#[tactic(auto, unfolding(crate::specs::Steps::gamma))]
pub fn gamma(s: [u64; 16]) -> [u64; 16]
    ensures { result ≡ gamma_of s }
{
    let once = alpha(s);
    let twice = alpha(once);
    xor(xor(twice, once), s)
}

// The start of the masks.
ghost use Rattle.std.specs.Prelude.{◌≡◌, length};
ghost use Rattle.mem.specs.Mem.{start_words, start_for};

use permutation::permute::permute;
use permutation::way::Forward;
use words::word::load_word;

// The block that a start is P of, with these words in places 10 and 11.
fn start_words(w10: u64, w11: u64, key: &[u8], nonce: &[u8]) -> [u64; 16]
    requires { (length key.now ≡ 32) × (length nonce.now ≡ 16) }
    ensures { result ≡ start_words w10 w11 key.now nonce.now }
{
    let n0 = load_word(nonce);
    let n1 = load_word(&nonce[8..]);
    let k0 = load_word(key);
    let k1 = load_word(&key[8..]);
    let k2 = load_word(&key[16..]);
    let k3 = load_word(&key[24..]);
    [n0, n1, 0, 0, 0, 0, 0, 0, 0, 0, w10, w11, k0, k1, k2, k3]
}

// The start for a key of 32 bytes and a nonce of 16: section 8's, or where asked the old one, section 4's.
// Kept: a truth value for the old start, as the definition `start_for` and C's argument have it; and key and nonce as
// slices, since their lengths come from C, and arrays would be looked for once more in each call.
#[tactic(auto, unfolding(crate::specs::Mem::start_of, crate::specs::Mem::start_block, crate::specs::Mem::old_start_of, crate::specs::Mem::old_start_block))]
pub fn start(old: bool, key: &[u8], nonce: &[u8], rounds: u32) -> [u64; 16]
    requires { (length key.now ≡ 32) × (length nonce.now ≡ 16) }
    ensures { result ≡ start_for old rounds key.now nonce.now }
{
    if old {
        return permute::<Forward>(start_words(0, 0, key, nonce), rounds);
    }
    permute::<Forward>(start_words(rounds as u64, 256, key, nonce), rounds)
}

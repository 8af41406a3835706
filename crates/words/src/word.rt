// One word. The rotations and the shift are the language's own: here they are said in the definitions' words.
ghost use Rattle.std.specs.Prelude.{◌≡◌, ◌<◌, ◌≤◌, length, drop, ◌++◌};
ghost use Rattle.words.specs.Word.{rot_r, rot_l, shl};
ghost use Rattle.words.specs.Block.{word_at, low_bytes};

// x rotated right by n.
// Kept: beside std's methods, here and below, so that contracts have the definitions' words (docs/PROMISES.md names them).
pub fn rotate_right(x: u64, n: u32) -> u64
    requires { (0 < n) × (n < 64) }
    ensures { result ≡ rot_r n x }
{
    x.rotate_right(n)
}

// x rotated left by n.
pub fn rotate_left(x: u64, n: u32) -> u64
    requires { (0 < n) × (n < 64) }
    ensures { result ≡ rot_l n x }
{
    x.rotate_left(n)
}

// x shifted left by n; the top bits are lost.
#[tactic(auto, unfolding(crate::specs::Word::shl))]
pub fn shift_left(x: u64, n: u32) -> u64
    requires { n < 64 }
    ensures { result ≡ shl n x }
{
    x << n
}

// The first eight bytes as a word.
pub fn load_word(s: &[u8]) -> u64
    requires { 8 ≤ length s.now }
    ensures { result ≡ word_at s.now 0 }
{
    // Kept: the bytes one by one, since std's `copy_from_slice` tests at run time whether the two overlap, where this is one move.
    u64::from_le_bytes([s[0], s[1], s[2], s[3], s[4], s[5], s[6], s[7]])
}

// The word into the first eight bytes.
pub fn store_word(w: u64, s: &mut [u8])
    requires { 8 ≤ length s.old }
    ensures { s.new ≡ low_bytes 8 w ++ drop 8 s.old }
{
    let bytes = w.to_le_bytes();
    // Kept: byte by byte for the same reason; the eight turns are one move.
    for i in 0..8 {
        s[i] = bytes[i];
    }
}

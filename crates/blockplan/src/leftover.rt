// A leftover of fewer than 128 bytes.
ghost use Rattle.std.specs.Prelude.{◌≡◌, ◌++◌, ◌∷◌, [], ◌<◌, ◌≤◌, length, drop};
ghost use Rattle.words.specs.Block.{block_of, bytes_of, xor_bytes};

use words::block::{load, store};

// The leftover as a block, padded with one byte and then zeros.
pub fn padded(s: &[u8], pad: u8) -> [u64; 16]
    requires { length s.now < 128 }
    ensures { result ≡ block_of (s.now ++ (pad ∷ [])) }
{
    let n = s.len();
    let mut bytes = [0u8; 128];
    bytes[..n].copy_from_slice(s);
    bytes[n] = pad;
    load(&bytes)
}

// Kept: that an output has room for the bytes is a clause here and above, since it speaks of two arguments; and a
// parcel's tag is cut off where it is used, since a struct round a parcel would have to be made and taken apart in each call.

// The leftover, xored with the first bytes of the stream's block, to the front of the output.
pub fn xor_leftover(s: &[u8], stream: [u64; 16], out: &mut [u8])
    requires { (length s.now ≤ 128) × (length s.now ≤ length out.old) }
    ensures { out.new ≡ xor_bytes s.now (bytes_of stream) ++ drop (length s.now) out.old }
{
    let mut bytes = [0u8; 128];
    store(stream, &mut bytes);
    for (i, x) in s.iter().enumerate() {
        out[i] = *x ^ bytes[i];
    }
}

// P with a count of rounds, and the back permutation.
ghost use Rattle.std.specs.Prelude.{◌≡◌};

use crate::round::round;
use crate::way::Way;

// For every count of rounds, P of a block at Forward, and P undone at Back.
pub fn permute<W: Way>(s: [u64; 16], rounds: u32) -> [u64; 16]
    ensures { result ≡ W.rounds rounds s }
{
    let mut r = s;
    for _ in 0..rounds {
        let next = round::<W>(r);
        r = next;
    }
    r
}

// P and the back permutation, in four lanes.
ghost use Rattle.lanes.specs.Lanes.{AllLanes};

use crate::round::round4;
use permutation::way::Way;

// For every count of rounds, P of each lane at Forward, and P undone at Back.
pub fn permute4<W: Way>(w: &mut [u64; 64], rounds: u32)
    ensures { AllLanes (W.rounds rounds) w.old w.new }
{
    for _ in 0..rounds {
        round4::<W>(w);
    }
}

// A way's step, in four lanes: G, or G undone.
ghost use Rattle.std.specs.Prelude.{◌<◌};
ghost use Rattle.permutation.specs.Permutation.{step_at};
ghost use Rattle.permutation.specs.Way.{InBlock};
ghost use Rattle.lanes.specs.Lanes.{OneLane, AllLanes};

use permutation::g::Quad;
use permutation::way::Way;

// The step on the words of lane m that a row names.
fn g_lane<W: Way>(w: &mut [u64; 64], row: [usize; 4], m: usize)
    requires row_bound { InBlock row }
    requires m_bound { m < 4 }
    ensures { OneLane m (step_at W.quad row) w.old w.new }
{
    let made = W::g(Quad {
        a: w[4 * row[0] + m],
        b: w[4 * row[1] + m],
        c: w[4 * row[2] + m],
        d: w[4 * row[3] + m],
    });
    w[4 * row[0] + m] = made.a;
    w[4 * row[1] + m] = made.b;
    w[4 * row[2] + m] = made.c;
    w[4 * row[3] + m] = made.d;
}

// The step on the words of each lane that a row names.
pub fn g4<W: Way>(w: &mut [u64; 64], row: [usize; 4])
    requires { InBlock row }
    ensures { AllLanes (step_at W.quad row) w.old w.new }
{
    g_lane::<W>(w, row, 0);
    g_lane::<W>(w, row, 1);
    g_lane::<W>(w, row, 2);
    g_lane::<W>(w, row, 3);
}

// A run grown in a lent buffer.
ghost use Rattle.std.specs.Prelude.{◌≡◌, ◌++◌, ◌≤◌, ◌<◌, ◌+◌, length, drop};
ghost use Rattle.masks.specs.Run.{next_word, grown};

use words::word::{rotate_left, shift_left};

// The start into the first sixteen places.
fn put_first(start: [u64; 16], run: &mut [u64])
    requires { 16 ≤ length run.old }
    ensures { run.new ≡ start ++ drop 16 run.old }
{
    run[..16].copy_from_slice(&start);
}

// Word n + 16, from the words before it.
#[tactic(auto, unfolding(masks::specs::Run::next_word, masks::specs::Steps::alpha_w))]
fn next_word(run: &[u64], n: usize) -> u64
    requires { n + 5 < length run.now }
    ensures { result ≡ next_word run.now n }
{
    rotate_left(run[n], 53) ^ shift_left(run[n + 5], 13)
}

// The run of a start: its sixteen words and more behind them. What stood there does not matter, and
// what lies behind the run is as it was.
pub fn grow(start: [u64; 16], more: usize, run: &mut [u64])
    requires { 16 + more ≤ length run.old }
    ensures { run.new ≡ grown start more ++ drop (16 + more) run.old }
{
    put_first(start, run);
    for n in 0..more {
        let at = n + 16;
        let w = next_word(run, n);
        run[at] = w;
    }
}

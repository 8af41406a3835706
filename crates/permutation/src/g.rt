// Four words, sums and differences that wrap, and a way's step at four words of a block.
ghost use Rattle.std.specs.Prelude.{◌≡◌};
ghost use Rattle.words.specs.Word.{add_w, sub_w};
ghost use Rattle.permutation.specs.Permutation.{step_at};
ghost use Rattle.permutation.specs.Way.{InBlock};

use crate::way::Way;

// Four words.
#[derive(Clone, Copy)]
pub struct Quad {
    pub a: u64,
    pub b: u64,
    pub c: u64,
    pub d: u64,
}

// The sum, which wraps on purpose.
#[tactic(auto, unfolding(words::specs::Word::add_w))]
pub(crate) fn add(x: u64, y: u64) -> u64
    ensures { result ≡ add_w x y }
{
    x.wrapping_add(y)
}

// The difference, which wraps on purpose.
#[tactic(auto, unfolding(words::specs::Word::sub_w))]
pub(crate) fn sub(x: u64, y: u64) -> u64
    ensures { result ≡ sub_w x y }
{
    x.wrapping_sub(y)
}

// The step on the words of a block that a row names: G's at Forward, and G undone at Back.
#[tactic(auto, unfolding(crate::specs::Permutation::step_at, crate::specs::Permutation::pick, crate::specs::Permutation::put))]
pub fn g_at<W: Way>(s: [u64; 16], row: [usize; 4]) -> [u64; 16]
    requires { InBlock row }
    ensures { result ≡ step_at W.quad row s }
{
    let made = W::g(Quad {
        a: s[row[0]],
        b: s[row[1]],
        c: s[row[2]],
        d: s[row[3]],
    });
    let mut r = s;
    r[row[0]] = made.a;
    r[row[1]] = made.b;
    r[row[2]] = made.c;
    r[row[3]] = made.d;
    r
}

// The two ways through a round: forward, which is P's, and back, which undoes it. A way says what its step
// does to four words and in which order its round takes the groups; all else is the same for both.
ghost use Rattle.std.specs.Prelude.{◌≡◌, ◌<◌, ◌-◌, ℕ, List};
ghost use Rattle.permutation.specs.declared.g.Quad.{Quad};
ghost use Rattle.permutation.specs.Permutation.{g_of, back_g_of, round, back_round, perm, back_perm};
ghost use Rattle.permutation.specs.Way.{WayLaws, forward_laws, back_laws};

use crate::g::{Quad, add, sub};
use words::word::{rotate_left, rotate_right};

pub trait Way {
    // Which of the eight groups a round takes as its k-th.
    ghost group: { ℕ → ℕ };

    // What the step does to four words.
    ghost quad: { Quad → Quad };

    // What a round does to a block.
    ghost round: { List ℕ → List ℕ };

    // What so many rounds do to a block.
    ghost rounds: { ℕ → List ℕ → List ℕ };

    fn g(q: Quad) -> Quad
        ensures { result ≡ quad q };

    fn group(k: usize) -> usize
        requires { k < 8 }
        ensures value { result ≡ group k }
        ensures in_table { result < 8 };

    // A round is the step at each group in that order, and rounds are one round after another.
    ghost laws: { WayLaws quad group round rounds };
}

// P's way.
pub struct Forward;

impl Way for Forward {
    ghost group = { λ k. k };

    ghost quad = { g_of };

    ghost round = { round };

    ghost rounds = { perm };

    ghost laws = { forward_laws };

    // G: its eight lines, as section 8 prints them.
    #[tactic(auto, unfolding(crate::specs::Permutation::g_of))]
    fn g(q: Quad) -> Quad {
        let mut a = q.a;
        let mut b = q.b;
        let mut c = q.c;
        let mut d = q.d;
        a = add(a, b);
        d = rotate_right(d ^ a, 32);
        c = add(c, d);
        b = rotate_right(b ^ c, 24);
        a = add(a, b);
        d = rotate_right(d ^ a, 16);
        c = add(c, d);
        b = rotate_right(b ^ c, 63);
        Quad { a, b, c, d }
    }

    fn group(k: usize) -> usize {
        k
    }
}

// The way back.
pub struct Back;

impl Way for Back {
    ghost group = { λ k. 7 - k };

    ghost quad = { back_g_of };

    ghost round = { back_round };

    ghost rounds = { back_perm };

    ghost laws = { back_laws };

    // G undone: the eight lines undone, the last one first.
    #[tactic(auto, unfolding(crate::specs::Permutation::back_g_of))]
    fn g(q: Quad) -> Quad {
        let mut a = q.a;
        let mut b = q.b;
        let mut c = q.c;
        let mut d = q.d;
        b = rotate_left(b, 63) ^ c;
        c = sub(c, d);
        d = rotate_left(d, 16) ^ a;
        a = sub(a, b);
        b = rotate_left(b, 24) ^ c;
        c = sub(c, d);
        d = rotate_left(d, 32) ^ a;
        a = sub(a, b);
        Quad { a, b, c, d }
    }

    fn group(k: usize) -> usize {
        7 - k
    }
}

// A run, and the masks of the plan that beta steps lead to, by their steps.
ghost use Rattle.std.specs.Prelude.{◌≡◌, ◌≤◌, ◌+◌, length, take};
ghost use Rattle.words.specs.Block.{Block};
ghost use Rattle.masks.specs.Run.{IsRun};
ghost use Rattle.mem.specs.Mem.{mask_at};
ghost use Rattle.runs.specs.Kinds.{beta_steps, gamma_steps};

use crate::kinds::Kind;
use crate::windows;
use std::marker::Model;

// Words that grow from the first sixteen of them. Clauses see the words.
// Kept: that a run is long enough is a clause where it is used, since it speaks of a header or a message too.
#[derive(Drop)]
pub struct Run<'a> {
    words: &'a [u64],
}

impl<'a> Model for Run<'a> {
    ghost use Rattle.std.specs.Prelude.{List, ℕ, take};
    ghost use Rattle.words.specs.Block.{Block};
    ghost use Rattle.masks.specs.Run.{IsRun};

    ghost Value = { List ℕ };

    ghost view = { λ r. r.words.now };

    ghost invariant = { λ r. IsRun r.words.now × Block (take 16 r.words.now) };
}

impl<'a> Run<'a> {
    pub fn new(words: &'a [u64]) -> Self
        requires { IsRun words.now }
        ensures { result ≡ words.now }
    {
        Run { words }
    }

    // All words, of which the first sixteen are the start.
    pub fn words(&self) -> &'a [u64]
        ensures same { result.now ≡ self.now }
        ensures is_run { IsRun self.now }
        ensures start { Block (take 16 self.now) }
    {
        self.words
    }

    // The mask a beta step on from the one of a kind that stands at word n.
    pub fn beta_of(&self, n: usize, kind: Kind) -> [u64; 16]
        requires { n + 19 ≤ length self.now }
        ensures { result ≡ mask_at (take 16 self.now) n (beta_steps kind + 1) (gamma_steps kind) }
    {
        windows::beta_of(self.words(), n, kind)
    }

    // The mask two beta steps on.
    pub fn beta_twice_of(&self, n: usize, kind: Kind) -> [u64; 16]
        requires { n + 20 ≤ length self.now }
        ensures { result ≡ mask_at (take 16 self.now) n (beta_steps kind + 2) (gamma_steps kind) }
    {
        windows::beta_twice_of(self.words(), n, kind)
    }

    // The mask three beta steps on.
    pub fn beta_thrice_of(&self, n: usize, kind: Kind) -> [u64; 16]
        requires { n + 21 ≤ length self.now }
        ensures { result ≡ mask_at (take 16 self.now) n (beta_steps kind + 3) (gamma_steps kind) }
    {
        windows::beta_thrice_of(self.words(), n, kind)
    }
}

// Four masks, one for each of four blocks side by side.
ghost use Rattle.std.specs.Prelude.{◌≡◌, ◌<◌, ◌+◌, ◌≤◌, ℕ, List, length, get_or};
ghost use Rattle.masks.specs.Run.{mask_from};
ghost use Rattle.runs.specs.Kinds.{neighbours_in};

use runs::kinds::Kind;
use runs::windows::mask_word;

// Masks that are read word by word, so that none has to be put together first. They are lent: asked by value,
// the one mask was copied for each of its words, which took twice the time.
pub trait Masks {
    // The mask of lane m.
    ghost mask: { Self → ℕ → List ℕ };

    // Word i of the mask of lane m.
    fn word(&self, i: usize, m: usize) -> u64
        requires { (i < 16) × (m < 4) }
        ensures { result ≡ get_or (mask self.now m) i 0 };
}

// One mask for all four.
impl Masks for [u64; 16] {
    ghost mask = { λ s m. s };

    fn word(&self, i: usize, m: usize) -> u64 {
        self[i]
    }
}

// Four masks that stand one word apart in a run, the first at word `at`.
#[derive(Drop)]
pub struct FromRun<'a> {
    pub words: &'a [u64],
    pub at: usize,
    pub kind: Kind,
    pub ghost reaches: { at + 21 ≤ length words.now },
}

impl<'a> Masks for FromRun<'a> {
    ghost mask = { λ s m. mask_from (neighbours_in s.kind) s.words.now (s.at + m) };

    fn word(&self, i: usize, m: usize) -> u64 {
        mask_word(self.words, self.at + i + m, self.kind)
    }
}

// A list of step bytes.
ghost use Rattle.std.specs.Prelude.{◌≡◌, List, ℕ};
ghost use Rattle.words.specs.Sequence.{times};
ghost use Rattle.walking.specs.Walking.{step, walked, first_bad, step_number, StepRead, DoesAs};

use back_steps::back::{back_alpha, back_beta, back_gamma};
use masks::steps::{alpha, beta, gamma};

// A step of a mask, forward or back.
#[derive(Clone, Copy, Debug, PartialEq, Eq)]
pub enum Step {
    Alpha,
    Beta,
    Gamma,
    BackAlpha,
    BackBeta,
    BackGamma,
}

// A byte that stands for no step.
#[derive(Clone, Copy, Debug, PartialEq, Eq)]
pub struct UnknownStep(pub u8);

impl TryFrom<u8> for Step {
    type Error = UnknownStep;

    ghost try_from_gives = { StepRead };

    #[tactic(auto, unfolding(crate::specs::Walking::is_step))]
    fn try_from(byte: u8) -> Result<Self, UnknownStep> {
        match byte {
            1 => Ok(Step::Alpha),
            2 => Ok(Step::Beta),
            3 => Ok(Step::Gamma),
            4 => Ok(Step::BackAlpha),
            5 => Ok(Step::BackBeta),
            6 => Ok(Step::BackGamma),
            _ => Err(UnknownStep(byte)),
        }
    }
}

impl From<Step> for u8 {
    ghost from_gives = { λ s byte. byte ≡ step_number s };

    fn from(step: Step) -> u8 {
        match step {
            Step::Alpha => 1,
            Step::Beta => 2,
            Step::Gamma => 3,
            Step::BackAlpha => 4,
            Step::BackBeta => 5,
            Step::BackGamma => 6,
        }
    }
}

impl Step {
    // The block one step on or back.
    #[tactic(auto, unfolding(crate::specs::Walking::step))]
    pub fn take(self, b: [u64; 16]) -> [u64; 16]
        ensures { result ≡ step (step_number self) b }
    {
        match self {
            Step::Alpha => alpha(b),
            Step::Beta => beta(b),
            Step::Gamma => gamma(b),
            Step::BackAlpha => back_alpha(b),
            Step::BackBeta => back_beta(b),
            Step::BackGamma => back_gamma(b),
        }
    }
}

// The step of a byte; a byte that stands for none leaves the block.
pub fn take_one(b: [u64; 16], kind: u8) -> [u64; 16]
    ensures { result ≡ step kind b }
{
    match Step::try_from(kind) {
        Ok(step) => step.take(b),
        Err(_) => b,
    }
}

// Each step of the list in turn.
#[tactic(auto, unfolding(crate::specs::Walking::walked))]
pub fn take_all(start: [u64; 16], list: &[u8]) -> [u64; 16]
    ensures { result ≡ walked list.now start }
{
    let mut b = start;
    for &kind in list {
        let next = take_one(b, kind);
        b = next;
    }
    b
}

// One step, n times.
#[tactic(auto, unfolding(words::specs::Sequence::times))]
pub fn repeat<F: Fn([u64; 16]) -> [u64; 16]>(start: [u64; 16], step: F, n: u32) -> [u64; 16]
    requires { F.IsAlwaysCallable step }
    ensures { (h : List ℕ → List ℕ) → DoesAs (F.post step) h → result ≡ times h n start }
{
    let mut b = start;
    for _ in 0..n {
        let next = step(b);
        b = next;
    }
    b
}

// The step of that number, n times: for callers who have a step's number, and no function for it.
pub fn take_many(start: [u64; 16], kind: u8, n: u32) -> [u64; 16]
    ensures { result ≡ times (step kind) n start }
{
    let one = |b|
        ensures { result ≡ step kind b }
    { take_one(b, kind) };
    repeat(start, one, n)
}

// The place of the first byte that is no step, or the list's length.
pub fn first_bad(list: &[u8]) -> usize
    ensures { result ≡ first_bad list.now }
{
    // Kept: the place comes out of the loop by `break`, a named form of document 01.
    let mut i: usize = 0;
    loop {
        if i >= list.len() || Step::try_from(list[i]).is_err() {
            break i;
        }
        i += 1;
    }
}

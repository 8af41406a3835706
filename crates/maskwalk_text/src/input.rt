// One byte of the input.
ghost use Rattle.std.specs.Prelude.{◌≡◌, ◌<◌, MatchOption};
ghost use Rattle.walking.specs.Walking.{step_number};
ghost use Rattle.maskwalk_text.specs.Text.{step_of};

use crate::{HELD, OVER, Reader, START, Scan};
use walking::steps::Step;

// The step of a letter.
#[tactic(auto, unfolding(crate::specs::Text::step_of))]
fn step_of(letter: u8) -> Option<Step>
    ensures { MatchOption result (step_of letter ≡ 0) (λ s. step_number s ≡ step_of letter) }
{
    match letter {
        b'a' => Some(Step::Alpha),
        b'b' => Some(Step::Beta),
        b'g' => Some(Step::Gamma),
        b'A' => Some(Step::BackAlpha),
        b'B' => Some(Step::BackBeta),
        b'G' => Some(Step::BackGamma),
        _ => None,
    }
}

impl Reader {
    ghost use Rattle.maskwalk_text.specs.Scan.{kept_at, read_byte, take_byte};

    // A byte to place n.
    #[tactic(auto, unfolding(crate::specs::Scan::kept_at))]
    fn keep(&mut self, n: usize, b: u8)
        requires { n < 4224 }
        ensures { (self.new.scan, self.new.held) ≡ kept_at n b self.old.held }
    {
        self.held[n] = b;
        self.scan = Scan::Reading(n + 1);
    }

    // A byte after n of them: of the start, or a letter.
    #[tactic(auto, unfolding(crate::specs::Scan::read_byte))]
    fn read_byte(&mut self, n: usize, b: u8)
        ensures { (self.new.scan, self.new.held) ≡ read_byte n b self.old.held }
    {
        if n < START {
            self.keep(n, b);
        } else if b == b'\n' {
            self.scan = Scan::Ended(n);
        } else if let Some(step) = step_of(b) {
            if n < HELD {
                self.keep(n, step.into());
            } else {
                self.scan = Scan::Reading(OVER);
            }
        } else {
            self.scan = Scan::Wrong;
        }
    }

    // A byte; after the line feed or a wrong byte nothing changes.
    #[tactic(auto, unfolding(crate::specs::Scan::take_byte))]
    pub fn take_byte(&mut self, b: u8)
        ensures { (self.new.scan, self.new.held) ≡ take_byte self.old.scan b self.old.held }
    {
        if let Scan::Reading(n) = self.scan {
            self.read_byte(n, b);
        }
    }
}

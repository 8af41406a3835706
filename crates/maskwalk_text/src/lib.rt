// What the program maskwalk prints for an input of any size, which comes in parts.

#![tactic(auto)]

mod input;
mod lines;

ghost use Rattle.std.specs.Prelude.{◌≡◌};

use lines::{put, write_lines};
use walking::steps::take_all;
use words::block::load;

// The bytes of the start.
pub const START: usize = 128;
// Room for the start, and for a step byte for each of 4,096 letters.
pub const HELD: usize = 4224;
// What is counted where there are more letters than that.
// Kept: a count for letters too many, as the definitions `read_byte` and `counted` have it.
pub const OVER: usize = 4225;
// The bytes of a printed block: sixteen lines of twenty.
pub const TEXT: usize = 320;

// How far the input has been read.
#[derive(Clone, Copy, Debug, PartialEq, Eq)]
pub enum Scan {
    // So many bytes of the start and the letters; of letters too many one is counted.
    Reading(usize),
    // The same, after the line feed.
    Ended(usize),
    // After a byte that is none of the six letters.
    Wrong,
}

// An input that comes in parts: how far it has been read, and what is kept of it.
// Kept: a buffer beside its count, since there is no heap.
#[derive(Debug, Drop)]
pub struct Reader {
    pub scan: Scan,
    pub held: [u8; HELD],
}

impl Reader {
    ghost use Rattle.maskwalk_text.specs.Text.{written};
    ghost use Rattle.maskwalk_text.specs.Scan.{is_open, fed, counted, report};

    // Nothing has been read.
    pub fn new() -> Reader
        ensures { result.scan ≡ Scan.Reading 0 }
    {
        Reader {
            scan: Scan::Reading(0),
            held: [0; HELD],
        }
    }

    // Whether the bytes to come can still change the text.
    pub fn is_open(&self) -> bool
        ensures { result ≡ is_open self.now.scan }
    {
        matches!(self.scan, Scan::Reading(_))
    }

    // The next part of the input, byte by byte.
    #[tactic(auto, unfolding(crate::specs::Scan::fed))]
    pub fn feed(&mut self, part: &[u8])
        ensures { (self.new.scan, self.new.held) ≡ fed part.now self.old.scan self.old.held }
    {
        for &b in part {
            self.take_byte(b);
        }
    }

    // The text where n bytes are held.
    #[tactic(auto, unfolding(crate::specs::Scan::counted, crate::specs::Text::short, crate::specs::Text::long))]
    fn count_text(&self, n: usize, out: &mut [u8; TEXT]) -> usize
        ensures { (result, out.new) ≡ written (counted n self.now.held) out.old }
    {
        if n < START {
            return put(b"short\n", out);
        }
        if n > HELD {
            return put(b"long\n", out);
        }
        let b = take_all(load(&self.held[..START]), &self.held[START..n]);
        write_lines(b, out);
        TEXT
    }

    // The text at the end of the input, and its length; output beyond it is unchanged.
    // Kept: the length beside the output, since no clause can say `written` of an output lent on.
    #[tactic(auto, unfolding(crate::specs::Scan::report, crate::specs::Text::letter))]
    pub fn finish(&self, out: &mut [u8; TEXT]) -> usize
        ensures { (result, out.new) ≡ written (report self.now.scan self.now.held) out.old }
    {
        match self.scan {
            Scan::Reading(n) | Scan::Ended(n) => self.count_text(n, out),
            Scan::Wrong => put(b"letter\n", out),
        }
    }
}

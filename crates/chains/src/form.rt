// What is broken in a store: its first fault. A sound store is seen without marks (sound.rt). Else the chains
// are walked once more, sales first; each cell reached is marked, and the lowest whose kind does not fit is kept.
ghost use Rattle.std.specs.Prelude.{◌≡◌, true, false, [], ℕ, ◌*◌, ◌-◌, ◌<◌, ◌≤◌, length};
ghost use Rattle.answers.specs.Answers.{clear};
ghost use Rattle.cells.specs.Cells.{cells, length_fits};
ghost use Rattle.cells.specs.Chains.{first_from};
ghost use Rattle.cells.specs.Faults.{kind_fault, form_fault, fault_of, fault_check};
ghost use Rattle.chains.specs.Marks.{Marks, Unreached, unmarked};

use crate::MarkedWalk;
use crate::marks::is_marked;
use crate::sound::is_sound;
use crate::walk::walk;
use answers::Check;
use cells::fields::index_at;
use cells::{Chain, Fault};

// The longest store, its cells, and a word of marks for each 64 of them, rounded up.
const LONGEST: usize = 65536;

const CELLS: usize = LONGEST / 64;

const MARKS: usize = (CELLS + 63) / 64;

// A word in which each cell is marked, and one in which each but cell 0 is.
const ALL: u64 = u64::MAX;

const ALL_BUT_FIRST: u64 = u64::MAX - 1;

// The length is as said.
#[tactic(auto, unfolding(cells::specs::Cells::is_length, cells::specs::Cells::length_fits))]
pub fn length_fits(s: &[u8]) -> bool
    ensures { result ≡ length_fits s.now }
{
    let n = s.len();
    n >= 128 && n <= LONGEST && n % 64 == 0
}

// A cell up to which all from 1 on are marked: 64 at a time, a word of marks each.
fn marked_below(marks: &[u64], end: usize) -> usize
    requires { (end ≤ 64 * length marks.now) × (1 ≤ end) }
    ensures { ((1 ≤ result) × (result ≤ end)) × ((i : ℕ) → 1 ≤ i → i < result → unmarked marks.now i ≡ false) }
{
    if end < 64 || marks[0] != ALL_BUT_FIRST {
        return 1;
    }
    // Kept: by index; over the words with `position` the proof of the place that it finds does not close.
    for i in 1..end / 64 {
        if marks[i] != ALL {
            return 64 * i;
        }
    }
    64 * (end / 64)
}

// The first cell from 1 on, below the end, that is not marked; or the end.
fn first_unmarked(marks: &[u64], end: usize) -> usize
    requires { (end ≤ 64 * length marks.now) × (1 ≤ end) }
    ensures { result ≡ first_from (unmarked marks.now) 1 (end - 1) }
{
    for c in marked_below(marks, end)..end {
        if !is_marked(marks, c) {
            return c;
        }
    }
    end
}

// The first cell from 1 on, below the lowest misfit, that was not reached; or that misfit. Where as many cells were
// reached as there are, the marks need no look.
#[tactic(auto, using(crate::proofs::Faults::none_left))]
fn first_unreached(marks: &[u64], cells: usize, seen: MarkedWalk) -> usize
    requires { ((seen.lowest ≤ cells) × (cells ≤ 64 * length marks.now)) × ((1 ≤ seen.lowest) × Unreached cells marks.now seen.left) }
    ensures { result ≡ first_from (unmarked marks.now) 1 (seen.lowest - 1) }
{
    if seen.left == 0 {
        return seen.lowest;
    }
    first_unmarked(marks, seen.lowest)
}

// A fault of a cell, where there is such a cell.
#[tactic(auto, unfolding(cells::specs::Faults::kind_fault))]
fn kind_fault(cells: usize, c: usize) -> Result<(), Fault>
    ensures { result ≡ kind_fault cells c }
{
    if c < cells {
        Err(Fault::Kind(c))
    } else {
        Ok(())
    }
}

// The first fault of a store of right length, with no cell marked.
#[tactic(auto, unfolding(cells::specs::Cells::cells))]
fn form_fault(s: &[u8], marks: &mut [u64]) -> Result<(), Fault>
    requires { ((1 ≤ cells s.now) × (cells s.now ≤ 64 * length marks.old)) × Marks marks.old [] }
    ensures { result ≡ form_fault s.now }
{
    let cells = s.len() / 64;
    let none = MarkedWalk {
        lowest: cells,
        left: cells - 1,
    };
    let sales = walk(s, marks, index_at(s, 0), Chain::Sales, none)?;
    let free = walk(s, marks, index_at(s, 2), Chain::Free, sales)?;
    kind_fault(cells, first_unreached(marks, cells, free))
}

// The first fault of a store of right length, by marks.
fn marked_fault(s: &[u8]) -> Result<(), Fault>
    requires { length_fits s.now ≡ true }
    ensures { result ≡ form_fault s.now }
{
    let mut marks = [0; MARKS];
    form_fault(s, &mut marks)
}

// The first fault, in the order of the checks.
fn first_fault(s: &[u8]) -> Result<(), Fault>
    ensures { result ≡ fault_of s.now }
{
    if !length_fits(s) {
        return Err(Fault::Length);
    }
    if is_sound(s) {
        return Ok(());
    }
    marked_fault(s)
}

// The check of the store's form: 18, then 19, then 20.
pub fn check_form(s: &[u8]) -> Check
    ensures { result ≡ fault_check (fault_of s.now) clear }
{
    first_fault(s)?;
    Ok(())
}

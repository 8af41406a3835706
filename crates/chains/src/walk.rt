// The walk of a chain.
ghost use Rattle.std.specs.Prelude.{◌≡◌, Bool, cond, List, ℕ, ◌*◌, ◌≤◌, ltb, length, MatchResult};
ghost use Rattle.cells.specs.Chains.{count};
ghost use Rattle.cells.specs.Cells.{cells, kind_of, kind_fits, is_sales};
ghost use Rattle.cells.specs.Faults.{walk_of};
ghost use Rattle.chains.specs.Marks.{Marks, Unreached, FirstMisfit, Walked};

use crate::MarkedWalk;
use crate::marks::{is_marked, mark};
use cells::fields::link_of;
use cells::{Chain, Fault};

// The lower of two cells, where the first one is a misfit; else the second.
fn lesser(misfit: bool, at: usize, lowest: usize) -> usize
    ensures { result ≡ cond misfit (cond (ltb at lowest) at lowest) lowest }
{
    if misfit { at.min(lowest) } else { lowest }
}

// From an index on to the end of the chain: marks each cell reached, counts it, and keeps the lowest one whose kind does not
// fit. A broken index stops it.
#[tactic(auto, unfolding(cells::specs::Cells::cells))]
pub fn walk(
    s: &[u8],
    marks: &mut [u64],
    first: usize,
    chain: Chain,
    seen: MarkedWalk,
) -> Result<MarkedWalk, Fault>
    requires { (cells s.now ≤ 64 * length marks.old) × Unreached (cells s.now) marks.old seen.left }
    ensures { MatchResult result (λ found. Unreached (cells s.now) marks.new found.left) (λ fault. (left : ℕ) × Unreached (cells s.now) marks.new left) × ((fits : ℕ → Bool) (reached : List ℕ) → Marks marks.old reached → FirstMisfit fits reached (cells s.now) seen.lowest → ((c : ℕ) → count c reached ≡ 0 → fits c ≡ kind_fits (is_sales chain) (kind_of s.now c)) → Walked fits (cells s.now) result marks.new (walk_of s.now (cells s.now) reached 0 first)) }
{
    let cells = s.len() / 64;
    let mut lowest = seen.lowest;
    let mut left = seen.left;
    let mut from = 0;
    let mut at = first;
    // Kept: a `while` along the links: which cells they reach depends on the marks that each step makes.
    while at != 0 {
        if at >= cells || is_marked(marks, at) {
            return Err(Fault::Index(from));
        }
        mark(marks, at);
        left -= 1;
        let link = link_of(s, at);
        lowest = lesser(!chain.takes(link.kind), at, lowest);
        from = at;
        at = link.next;
    }
    Ok(MarkedWalk { lowest, left })
}

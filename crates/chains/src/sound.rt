// A sound store is seen without marks. A chain that ends has no cell twice; the kinds of the one fit
// in the other nowhere, so they have no cell in common; and as many cells as the store has beside cell 0 are all of them. Both chains are walked side
// by side, so that a step of the one does not wait for the other.
ghost use Rattle.std.specs.Prelude.{◌≡◌, true, ◌≤◌, IfSome};
ghost use Rattle.cells.specs.Cells.{cells, length_fits, formed, is_sales};
ghost use Rattle.chains.specs.Sound.{BothUpTo, OneUpTo};

use crate::BothWalk;
use cells::Chain;
use cells::fields::{index_at, link_of};

// Both chains, up to the end of the shorter one; nothing where a fault was seen.
#[tactic(auto, unfolding(cells::specs::Cells::cells))]
fn walk_both(s: &[u8]) -> Option<BothWalk>
    requires { 1 ≤ cells s.now }
    ensures { IfSome result (λ both. BothUpTo s.now both.sold both.free both.left) }
{
    let cells = s.len() / 64;
    let mut left = cells - 1;
    let mut sold = index_at(s, 0);
    let mut free = index_at(s, 2);
    // Kept: a `while` along the links of both chains: nothing is known yet of where they lead, as an iterator would need.
    while sold != 0 && free != 0 {
        if left < 2 || sold >= cells || free >= cells {
            return None;
        }
        let sale = link_of(s, sold);
        let spare = link_of(s, free);
        if !Chain::Sales.takes(sale.kind) || !Chain::Free.takes(spare.kind) {
            return None;
        }
        left -= 2;
        sold = sale.next;
        free = spare.next;
    }
    Some(BothWalk { sold, free, left })
}

// One chain, from an index on to its end, and how many of the cells are left; nothing where a fault was seen.
#[tactic(auto, unfolding(cells::specs::Cells::cells))]
fn walk_one(s: &[u8], chain: Chain, first: usize, most: usize) -> Option<usize>
    ensures { IfSome result (λ left. OneUpTo s.now (is_sales chain) first 0 most left) }
{
    let cells = s.len() / 64;
    let mut left = most;
    let mut at = first;
    // Kept: a `while` along the links, for the same reason. The compiler makes one branch of the three tests where they
    // stand in the condition.
    while at != 0 && left != 0 && at < cells {
        let link = link_of(s, at);
        if !chain.takes(link.kind) {
            return None;
        }
        left -= 1;
        at = link.next;
    }
    if at == 0 { Some(left) } else { None }
}

// How many cells stand in neither chain, but for cell 0; nothing where a fault was seen.
fn left_over(s: &[u8]) -> Option<usize>
    requires { 1 ≤ cells s.now }
    ensures { IfSome result (λ left. left ≡ 0 → length_fits s.now ≡ true → formed s.now ≡ true) }
{
    let both = walk_both(s)?;
    let left = walk_one(s, Chain::Sales, both.sold, both.left)?;
    walk_one(s, Chain::Free, both.free, left)
}

// Yes only for a store whose form is as said; where it says no, the marks decide.
pub fn is_sound(s: &[u8]) -> bool
    requires { 1 ≤ cells s.now }
    ensures { result ≡ true → length_fits s.now ≡ true → formed s.now ≡ true }
{
    left_over(s) == Some(0)
}

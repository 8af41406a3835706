// A cell filled with a sale.
ghost use Rattle.std.specs.Prelude.{◌≡◌, ◌<◌};
ghost use Rattle.cells.specs.Cells.{cells, first_free};
ghost use Rattle.cells.specs.Changes.{filled};
ghost use Rattle.sales.specs.Sale.{body_for};

use cells::fields::{index_at, next_of};
use cells::kinds;
use cells::writing::{put_front, put_index};
use sales::{Sale, write_sale};

// The kind of a new sale.
const NEW_KIND: u8 = kinds::PRICED as u8;

// The first free cell c holds the sale, in front of the others.
#[tactic(auto, unfolding(cells::specs::Cells::cells))]
pub fn fill(key: &[u8; 32], s: &mut [u8], c: usize, of: Sale)
    requires { (c ≡ first_free s.old) × (c < cells s.old) }
    ensures { s.new ≡ filled (body_for key.now of) s.old }
{
    let first = index_at(s, 0);
    let rest = next_of(s, c);
    put_front(s, c, first, NEW_KIND);
    let at = 64 * c;
    write_sale(key, of, &mut s[at + 3..at + 64]);
    put_index(s, 0, c);
    put_index(s, 2, rest);
}

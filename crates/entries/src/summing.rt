// The cash of a store.
ghost use Rattle.std.specs.Prelude.{◌≡◌, true, Ok};
ghost use Rattle.answers.specs.Answers.{clear, judged, line_at};
ghost use Rattle.answers.specs.declared.Ground.TheVariants.{TagDiffers};
ghost use Rattle.cells.specs.Chains.{some, first};
ghost use Rattle.cells.specs.Cells.{sales, formed};
ghost use Rattle.entries.specs.Entries.{shut_at, cash, sales_in};

use answers::{Answer, Ground};
use cells::fields::{body_of, index_at, next_of};
use sales::open_sale;

// The cash of the sales, or the cell of the first that won't open. Of what a sale holds, only whether
// it opens is branched on.
pub fn sum_up(key: &[u8; 32], s: &[u8]) -> Answer
    requires { formed s.now ≡ true }
    ensures { result ≡ judged (line_at (some (shut_at key.now s.now) (sales s.now)) TagDiffers (first (shut_at key.now s.now) (sales s.now)) clear) (Ok (cash (sales_in key.now s.now))) }
{
    let mut sum = 0;
    let mut at = index_at(s, 0);
    // Kept: a `while` along the links, as in `find`; the two stop at different cells and tell different things, and an
    // iterator for them would carry the proof that its links end.
    while at != 0 {
        let Some(record) = open_sale(key, body_of(s, at)) else {
            return Err(Ground::TagDiffers.at(at as u64));
        };
        sum += record.cash();
        at = next_of(s, at);
    }
    Ok(sum)
}

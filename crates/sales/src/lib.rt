// A sale as the store holds it: written sealed, opened, and its part in the cash total. Key, amount,
// means, record and tag decide no branch and no index.

#![tactic(auto)]

ghost use Rattle.std.specs.Prelude.{◌≡◌, cond, eqb, length};
ghost use Rattle.sales.specs.Sale.{body_for, opening};

use crate::fields::{put_nonce, put_record};
use cells::fields::number_at;
use mem::start::start;
use mro::{open, seal};

mod fields;

// A new sale: the numbers that name it, the caller's eight bytes of the nonce, and what its record holds.
// Kept: the two numbers apart and no SaleName, since the definitions speak of `x.machine` and `x.sale`.
#[derive(Clone, Copy)]
pub struct Sale {
    pub machine: u32,
    pub sale: u32,
    pub tail: [u8; 8],
    // In cents.
    pub amount: u32,
    pub column: u16,
    // 1 coin, 2 card; others are carried unread.
    pub means: u8,
    // As listed, in cents.
    pub price: u32,
    pub day: u16,
}

// The 61 bytes: the nonce, and behind it the record sealed with an empty header.
pub fn write_sale(key: &[u8; 32], of: Sale, out: &mut [u8])
    requires { length out.old ≡ 61 }
    ensures { out.new ≡ body_for key.now of }
{
    let mut record = [0u8; 13];
    put_record(of, &mut record);
    put_nonce(of, &mut out[0..16]);
    let first = start(false, key, &out[0..16], 6);
    seal(first, 6, &[], &record, &mut out[16..]);
}

// What a sale's record holds that calls tell, in which only a sale of kind 2 has a price.
#[derive(Clone, Copy)]
pub struct Record {
    pub amount: u32,
    pub means: u8,
    pub price: u32,
}

impl Record {
    // The amount where means is coin, and else 0; the amount is secret too.
    pub fn cash(self) -> u64
        ensures { result ≡ cond (eqb self.means 1) self.amount 0 }
    {
        u64::from(self.amount) * coin(self.means)
    }
}

// What 61 bytes hold, where they open. Whether they do is no secret, and the one thing that is branched on.
pub fn open_sale(key: &[u8; 32], body: &[u8]) -> Option<Record>
    requires { length body.now ≡ 61 }
    ensures { result ≡ opening key.now body.now }
{
    let mut record = [0u8; 13];
    let first = start(false, key, &body[0..16], 6);
    if !open(first, 6, &[], &body[16..], &mut record) {
        return None;
    }
    Some(Record {
        amount: number_at(&record, 0),
        means: record[6],
        price: number_at(&record, 7),
    })
}

// 1 where means is 1, coin, and else 0. There is no branch, since means is secret.
fn coin(means: u8) -> u64
    ensures { result ≡ cond (eqb means 1) 1 0 }
{
    // 0 for 1, and else 1 to 255.
    let apart = u64::from(means.wrapping_sub(1));
    1 - (apart + 255) / 256
}

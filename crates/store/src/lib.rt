// The store's calls.

#![tactic(auto)]

ghost use Rattle.std.specs.Prelude.{◌≡◌, MatchResult, Ok, Err};
ghost use Rattle.answers.specs.Answers.{clear, judged};
ghost use Rattle.cells.specs.Cells.{cell_named};
ghost use Rattle.store.specs.Store.{key_checks, read_checks, format_call, take_call, cancel_call, total_call, read_offset, read_part, read_refusal, look_up_call};
ghost use Rattle.store.specs.Named.{named_of};

use answers::{Answer, Ground, Refusal};
use cells::fields::{body_of, index_at, link_of};
use cells::writing::empty;
use cells::{SaleName, kinds};
use chains::Found;
use chains::find::find;
use chains::form::{check_form, length_fits};
use entries::filling::fill;
use entries::summing::sum_up;
use sales::{Record, Sale, open_sale};

// What a look-up tells of a sale.
#[derive(Clone, Copy, Debug, PartialEq, Eq)]
pub struct LookUp {
    pub amount: u32,
    // As listed; none where the sale has no price.
    pub price: Option<u32>,
}

// A sale that was named and opens, for cancel and look-up.
#[derive(Clone, Copy)]
pub struct Named {
    pub place: Found,
    pub held: Record,
}

// The checks of a key and of the store's form.
fn check_key<'a>(key: &'a [u8], store: &[u8]) -> Result<&'a [u8; 32], Refusal>
    ensures { MatchResult result (λ k. (k.now ≡ key.now) × (key_checks key.now store.now clear ≡ clear)) (λ found. key_checks key.now store.now clear ≡ Err found) }
{
    let Ok(key) = <&[u8; 32]>::try_from(key) else {
        return Err(Refusal::from(Ground::KeyLength));
    };
    check_form(store)?;
    Ok(key)
}

// All cells free, chained upward from 1.
pub fn format(store: &mut [u8]) -> Answer
    ensures { (result, store.new) ≡ format_call store.old }
{
    if !length_fits(store) {
        return Err(Refusal::from(Ground::StoreLength));
    }
    cells::writing::format(store);
    Ok(0)
}

// Stores a sale in the first free cell, in front of the others; answers the cell.
pub fn take(key: &[u8], store: &mut [u8], of: Sale) -> Answer
    ensures { (result, store.new) ≡ take_call key.now of store.old }
{
    let key = check_key(key, store)?;
    let name = SaleName {
        machine: of.machine,
        sale: of.sale,
    };
    if find(store, name).is_some() {
        return Err(Refusal::from(Ground::SaleNumbers));
    }
    let c = index_at(store, 2);
    if c == 0 {
        return Err(Refusal::from(Ground::StoreFull));
    }
    fill(key, store, c, of);
    Ok(c as u64)
}

// The sale with these numbers, which must open.
fn open_named(key: &[u8], store: &[u8], name: SaleName) -> Result<Named, Refusal>
    ensures { result ≡ named_of key.now name.machine name.sale store.now }
{
    let key = check_key(key, store)?;
    let place = find(store, name).ok_or(Ground::SaleNumbers)?;
    let Some(held) = open_sale(key, body_of(store, place.cell)) else {
        return Err(Ground::TagDiffers.at(place.cell as u64));
    };
    Ok(Named { place, held })
}

// Takes a sale out of the store; answers the amount that was deducted.
pub fn cancel(key: &[u8], store: &mut [u8], name: SaleName) -> Answer
    ensures { (result, store.new) ≡ cancel_call key.now name.machine name.sale store.old }
{
    let named = open_named(key, store, name)?;
    empty(store, named.place.before, named.place.cell);
    Ok(u64::from(named.held.amount))
}

// The amount and the listed price of a sale; the amount alone where it has no price.
pub fn look_up(key: &[u8], store: &[u8], name: SaleName) -> Result<LookUp, Refusal>
    ensures { result ≡ look_up_call key.now name.machine name.sale store.now }
{
    let named = open_named(key, store, name)?;
    let amount = named.held.amount;
    if link_of(store, named.place.cell).kind != kinds::PRICED {
        return Ok(LookUp {
            amount,
            price: None,
        });
    }
    Ok(LookUp {
        amount,
        price: Some(named.held.price),
    })
}

// The cash of all sales, which must all open.
pub fn total(key: &[u8], store: &[u8]) -> Answer
    ensures { result ≡ total_call key.now store.now }
{
    let key = check_key(key, store)?;
    sum_up(key, store)
}

// The cell of a sale, after the checks of read.
fn locate(store: &[u8], name: SaleName) -> Result<usize, Refusal>
    ensures { result ≡ judged (read_checks name.machine name.sale store.now) (Ok (cell_named name.machine name.sale store.now)) }
{
    check_form(store)?;
    let place = find(store, name).ok_or(Ground::SaleNumbers)?;
    Ok(place.cell)
}

// The 61 bytes of a sale as a part of the store itself, or an empty part where refused.
pub fn read(store: &[u8], name: SaleName) -> &[u8]
    ensures { result.now ≡ read_part name.machine name.sale store.now }
{
    match locate(store, name) {
        Ok(c) => body_of(store, c),
        Err(_) => &store[0..0],
    }
}

// Why read gives an empty part: the ground and its place, or 0 where nothing is refused.
pub fn read_refusal(store: &[u8], name: SaleName) -> Answer
    ensures { result ≡ read_refusal name.machine name.sale store.now }
{
    locate(store, name).and(Ok(0))
}

// Where in the store read's part begins.
pub fn read_offset(store: &[u8], name: SaleName) -> Answer
    ensures { result ≡ read_offset name.machine name.sale store.now }
{
    let c = locate(store, name)?;
    Ok(64 * c as u64 + 3)
}

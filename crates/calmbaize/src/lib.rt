// What C and Rust call. Each call's answer is one number: the refusal's number times 2^32, plus the
// place; on success the call's value: the bytes written, a reason, a cell, an amount, an offset or a kind.

#![tactic(auto)]

ghost use Rattle.std.specs.Prelude.{◌≡◌};
ghost use Rattle.answers.specs.Answers.{code_of, coded, totalled};
ghost use Rattle.sealing.specs.Sealing.{seal_call, open_call, open_old_call};
ghost use Rattle.run_sealing.specs.RunSealing.{seal_run_call, open_run_call};
ghost use Rattle.converting.specs.Converting.{convert_call};
ghost use Rattle.diagnosing.specs.Diagnosing.{diagnose_call, reason_told};
ghost use Rattle.walking.specs.Walking.{walk_call, jump_call};
ghost use Rattle.store.specs.Store.{format_call, take_call, cancel_call, total_call, read_offset, look_up_call, looked_up};
ghost use Rattle.sales.specs.Sale.{sale_of};

use cells::{SaleName, kinds};
use checks::Terms;
use sales::Sale;

// Kept: each call fills its terms itself, since C gives them one by one.

// Seals a message: mode 1 is OPP, 2 is MRO; the output receives the ciphertext and then the tag.
#[unsafe(no_mangle)]
pub extern "C" fn calmbaize_seal(
    mode: u32,
    rounds: u32,
    key: &[u8],
    nonce: &[u8],
    header: &[u8],
    input: &[u8],
    output: &mut [u8],
) -> u64
    ensures { (result, output.new) ≡ coded (seal_call mode rounds key.now nonce.now header.now input.now output.old) }
{
    let of = Terms {
        mode,
        rounds,
        key,
        nonce,
        header,
    };
    answers::code(sealing::seal(&of, input, output))
}

// Opens a parcel; the output receives the message, or zeros in its place where the tag differs.
#[unsafe(no_mangle)]
pub extern "C" fn calmbaize_open(
    mode: u32,
    rounds: u32,
    key: &[u8],
    nonce: &[u8],
    header: &[u8],
    input: &[u8],
    output: &mut [u8],
) -> u64
    ensures { (result, output.new) ≡ coded (open_call mode rounds key.now nonce.now header.now input.now output.old) }
{
    let of = Terms {
        mode,
        rounds,
        key,
        nonce,
        header,
    };
    answers::code(sealing::open(&of, input, output))
}

// Opens a parcel that was sealed under the old start, that of section 4; no call seals under it.
#[unsafe(no_mangle)]
pub extern "C" fn calmbaize_open_old(
    mode: u32,
    rounds: u32,
    key: &[u8],
    nonce: &[u8],
    header: &[u8],
    input: &[u8],
    output: &mut [u8],
) -> u64
    ensures { (result, output.new) ≡ coded (open_old_call mode rounds key.now nonce.now header.now input.now output.old) }
{
    let of = Terms {
        mode,
        rounds,
        key,
        nonce,
        header,
    };
    answers::code(sealing::open_old(&of, input, output))
}

// Brings a parcel of the old start over to the new one; the output receives a parcel of the same
// length, and nothing where it is refused.
#[unsafe(no_mangle)]
pub extern "C" fn calmbaize_convert(
    mode: u32,
    rounds: u32,
    key: &[u8],
    nonce: &[u8],
    header: &[u8],
    input: &[u8],
    output: &mut [u8],
) -> u64
    ensures { (result, output.new) ≡ coded (convert_call mode rounds key.now nonce.now header.now input.now output.old) }
{
    let of = Terms {
        mode,
        rounds,
        key,
        nonce,
        header,
    };
    answers::code(converting::convert(&of, input, output))
}

// Why a parcel won't open under a start, the old one or the new, a mode and a round count: 0 where it does; else
// 1 + n + 32 d where setting n is the first of the sixteen that opens it, d being 1 where the start differs, plus 2
// where the mode does, plus 4 where the rounds do; 255 where none opens it.
#[unsafe(no_mangle)]
pub extern "C" fn calmbaize_diagnose(
    old_start: bool,
    mode: u32,
    rounds: u32,
    key: &[u8],
    nonce: &[u8],
    header: &[u8],
    input: &[u8],
) -> u64
    ensures { result ≡ code_of (reason_told (diagnose_call old_start mode rounds key.now nonce.now header.now input.now)) }
{
    let of = Terms {
        mode,
        rounds,
        key,
        nonce,
        header,
    };
    let found = diagnosing::diagnose(old_start, &of, input);
    answers::code(diagnosing::answer_of(found))
}

// Seals a message from a run of words: with words enough, what calmbaize_seal answers and writes; success
// leaves the run in the words.
#[unsafe(no_mangle)]
pub extern "C" fn calmbaize_seal_run(
    mode: u32,
    rounds: u32,
    key: &[u8],
    nonce: &[u8],
    header: &[u8],
    input: &[u8],
    output: &mut [u8],
    words: &mut [u64],
) -> u64
    ensures { (result, (output.new, words.new)) ≡ coded (seal_run_call mode rounds key.now nonce.now header.now input.now output.old words.old) }
{
    let of = Terms {
        mode,
        rounds,
        key,
        nonce,
        header,
    };
    answers::code(run_sealing::seal(&of, input, output, words))
}

// Opens a parcel from a run of words: with words enough, what calmbaize_open answers and writes; success
// and refusal 9 leave the run in the words.
#[unsafe(no_mangle)]
pub extern "C" fn calmbaize_open_run(
    mode: u32,
    rounds: u32,
    key: &[u8],
    nonce: &[u8],
    header: &[u8],
    input: &[u8],
    output: &mut [u8],
    words: &mut [u64],
) -> u64
    ensures { (result, (output.new, words.new)) ≡ coded (open_run_call mode rounds key.now nonce.now header.now input.now output.old words.old) }
{
    let of = Terms {
        mode,
        rounds,
        key,
        nonce,
        header,
    };
    answers::code(run_sealing::open(&of, input, output, words))
}

// The block reached from the start by taking each step of the list in turn.
#[unsafe(no_mangle)]
pub extern "C" fn calmbaize_walk(start: &[u8], steps: &[u8], output: &mut [u8]) -> u64
    ensures { (result, output.new) ≡ coded (walk_call start.now steps.now output.old) }
{
    answers::code(walking::walk(start, steps, output))
}

// The block after that many alpha, then beta, then gamma steps, back steps where negative.
#[unsafe(no_mangle)]
pub extern "C" fn calmbaize_jump(
    start: &[u8],
    alpha: i32,
    beta: i32,
    gamma: i32,
    output: &mut [u8],
) -> u64
    ensures { (result, output.new) ≡ coded (jump_call start.now alpha beta gamma output.old) }
{
    answers::code(walking::jump(start, alpha, beta, gamma, output))
}

// Makes every cell of a store free.
#[unsafe(no_mangle)]
pub extern "C" fn calmbaize_store_format(store: &mut [u8]) -> u64
    ensures { (result, store.new) ≡ coded (format_call store.old) }
{
    answers::code(store::format(store))
}

// Stores a sale; answers its cell.
#[unsafe(no_mangle)]
pub extern "C" fn calmbaize_store_take(
    key: &[u8],
    store: &mut [u8],
    machine: u32,
    sale: u32,
    nonce_tail: &[u8; 8],
    amount: u32,
    column: u16,
    means: u8,
    price: u32,
    day: u16,
) -> u64
    ensures { (result, store.new) ≡ coded (take_call key.now (sale_of machine sale nonce_tail.now amount column means price day) store.old) }
{
    let of = Sale {
        machine,
        sale,
        tail: *nonce_tail,
        amount,
        column,
        means,
        price,
        day,
    };
    answers::code(store::take(key, store, of))
}

// Takes a sale out of a store; answers the amount that was deducted.
#[unsafe(no_mangle)]
pub extern "C" fn calmbaize_store_cancel(
    key: &[u8],
    store: &mut [u8],
    machine: u32,
    sale: u32,
) -> u64
    ensures { (result, store.new) ≡ coded (cancel_call key.now machine sale store.old) }
{
    answers::code(store::cancel(key, store, SaleName { machine, sale }))
}

// The cash of a store, to the last argument, since it may pass 2^32; answers 0.
#[unsafe(no_mangle)]
pub extern "C" fn calmbaize_store_total(key: &[u8], store: &[u8], total: &mut u64) -> u64
    ensures { (result, total.new) ≡ totalled (total_call key.now store.now) total.old }
{
    match store::total(key, store) {
        Ok(sum) => {
            *total = sum;
            0
        }
        Err(found) => answers::code(Err(found)),
    }
}

// Where in a store the 61 bytes of a sale begin.
#[unsafe(no_mangle)]
pub extern "C" fn calmbaize_store_read(store: &[u8], machine: u32, sale: u32) -> u64
    ensures { result ≡ code_of (read_offset machine sale store.now) }
{
    answers::code(store::read_offset(store, SaleName { machine, sale }))
}

// The amount and the listed price of a sale, to the last two arguments; answers its kind: 2, or 1 where it has
// no price and that argument is unchanged.
#[unsafe(no_mangle)]
pub extern "C" fn calmbaize_store_look_up(
    key: &[u8],
    store: &[u8],
    machine: u32,
    sale: u32,
    amount: &mut u32,
    price: &mut u32,
) -> u64
    ensures { (result, (amount.new, price.new)) ≡ looked_up (look_up_call key.now machine sale store.now) amount.old price.old }
{
    match store::look_up(key, store, SaleName { machine, sale }) {
        Err(found) => answers::code(Err(found)),
        Ok(told) => {
            *amount = told.amount;
            match told.price {
                Some(listed) => {
                    *price = listed;
                    kinds::PRICED as u64
                }
                None => kinds::UNPRICED as u64,
            }
        }
    }
}

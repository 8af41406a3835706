// What a public call answers: a value, or the ground of refusal and its place; and what checks find.

#![tactic(auto)]

ghost use Rattle.std.specs.Prelude.{◌≡◌, ◌<◌, ◌^◌};
ghost use Rattle.answers.specs.Answers.{clear, ground_number, number_of, value_of, code_of, room as room_of};
ghost use Rattle.answers.specs.Refusals.{refusal};

// Why a call is refused.
#[derive(Clone, Copy, Debug, PartialEq, Eq)]
pub enum Ground {
    // The mode is not 1 or 2.
    ModeNumber,
    // The round count is not an allowed one.
    Rounds,
    // The key is not 32 bytes.
    KeyLength,
    // The nonce is not 16 bytes.
    NonceLength,
    // The header is over 4,096 bytes.
    HeaderLength,
    // The message or the parcel is too long.
    InputLength,
    // The output is shorter than success writes, or the words are fewer than the run.
    OutputLength,
    // The parcel is under 32 bytes.
    TagMissing,
    // A tag byte differs.
    TagDiffers,
    // The start is not 128 bytes.
    StartLength,
    // A net count is out of range.
    NetCount,
    // A step byte outside 1 to 6.
    StepByte,
    // The list has over 4,096 steps.
    ListLength,
    // The store has no free cell.
    StoreFull,
    // Machine and sale number are present where they must not be, or absent.
    SaleNumbers,
    // The parcel opens under the new start and not under the old one.
    DoneAlready,
    // The store's length is not as said.
    StoreLength,
    // An index of the store is past the last cell, or of a cell reached before.
    StoreIndex,
    // A cell's kind does not fit its chain, or it is in neither chain.
    StoreKind,
}

// A refusal: its ground, and the place that goes with it, or 0.
#[derive(Clone, Copy, Debug, PartialEq, Eq)]
pub struct Refusal {
    pub why: Ground,
    pub place: u64,
}

// A ground whose place is 0.
impl From<Ground> for Refusal {
    ghost from_gives = { λ why r. r ≡ refusal why 0 };

    fn from(why: Ground) -> Refusal {
        Refusal { why, place: 0 }
    }
}

impl Ground {
    // The refusal on this ground, at a place.
    pub fn at(self, place: u64) -> Refusal
        ensures { result ≡ refusal self place }
    {
        Refusal { why: self, place }
    }
}

// What a call's checks find: nothing, or the first ground that holds and its place.
pub type Check = Result<(), Refusal>;

// Success and its value, or the ground of refusal and its place.
pub type Answer = Result<u64, Refusal>;

// The number of a ground.
impl From<Ground> for u32 {
    ghost from_gives = { λ why n. n ≡ ground_number why };

    fn from(why: Ground) -> u32 {
        match why {
            Ground::ModeNumber => 1,
            Ground::Rounds => 2,
            Ground::KeyLength => 3,
            Ground::NonceLength => 4,
            Ground::HeaderLength => 5,
            Ground::InputLength => 6,
            Ground::OutputLength => 7,
            Ground::TagMissing => 8,
            Ground::TagDiffers => 9,
            Ground::StartLength => 10,
            Ground::NetCount => 11,
            Ground::StepByte => 12,
            Ground::ListLength => 13,
            Ground::StoreFull => 15,
            Ground::SaleNumbers => 16,
            Ground::DoneAlready => 17,
            Ground::StoreLength => 18,
            Ground::StoreIndex => 19,
            Ground::StoreKind => 20,
        }
    }
}

// The number of the ground, or 0 on success.
// Kept: functions, here and below, since an answer is std's Result, which takes no methods of ours.
fn number(a: Answer) -> u32
    ensures { result ≡ number_of a }
{
    match a {
        Ok(_) => 0,
        Err(refusal) => u32::from(refusal.why),
    }
}

// The value on success, else the place.
fn value(a: Answer) -> u64
    ensures { result ≡ value_of a }
{
    match a {
        Ok(value) => value,
        Err(refusal) => refusal.place,
    }
}

// The answer as one number, for callers from C.
pub fn code(a: Answer) -> u64
    requires { value_of a < 2 ^ 32 }
    ensures { result ≡ code_of a }
{
    (number(a) as u64) * 4294967296 + value(a)
}

// The check that an output has room for what success writes.
#[tactic(auto, unfolding(crate::specs::Answers::room, crate::specs::Answers::line, crate::specs::Answers::line_at))]
pub fn room(needed: usize, lent: usize) -> Check
    ensures { result ≡ room_of needed lent clear }
{
    if lent < needed {
        return Err(Refusal::from(Ground::OutputLength));
    }
    Ok(())
}

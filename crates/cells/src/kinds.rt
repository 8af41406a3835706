// The kinds of cells, by their byte. Any other byte is no kind, and fits no chain.
// Kept: numbers and no enum, since a store comes from a card: `link_of` and `Chain::takes` promise `kind_of` and
// `kind_fits` of every number (docs/PROMISES.md names them).

// In no sale's chain.
pub const FREE: usize = 0;

// A sale with a clock and no price.
pub const UNPRICED: usize = 1;

// A sale with listed price and day number.
pub const PRICED: usize = 2;

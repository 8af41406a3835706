// The two chains of a store: their form, and a sale in them by its numbers.

#![tactic(auto)]

pub mod find;
pub mod form;
mod marks;
mod sound;
mod walk;

// What the walks with marks have seen of the cells.
#[derive(Clone, Copy)]
pub struct MarkedWalk {
    // The lowest cell reached so far, in either chain, whose kind does not fit; the number of cells where each does.
    pub lowest: usize,
    // Cells that were not reached in either chain, but for cell 0.
    pub left: usize,
}

// How far the walk of both chains side by side came.
#[derive(Clone, Copy)]
pub struct BothWalk {
    // Where each chain goes on.
    pub sold: usize,
    pub free: usize,
    // Cells that were not counted, but for cell 0.
    pub left: usize,
}

// Where a sale stands.
#[derive(Clone, Copy)]
pub struct Found {
    // The cell before it in the chain, 0 for the first.
    pub before: usize,
    pub cell: usize,
}

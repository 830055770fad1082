// Evaluation of an expression over the image's words, with its trace entries written into the lent bytes.
#![tactic(auto)]

// The most variables of a procedure, and the most cells of a machine.
pub const VARIABLES: usize = 255;

pub const CELLS: usize = 1024;

// What an expression gave, and the place after it.
#[derive(Clone, Copy, PartialEq, Eq)]
pub struct Value {
    pub word: u32,
    pub next: usize,
}

mod operations; // what an operator or a cell does with values
mod expressions; // the walk over an expression's words

pub use expressions::{Memory, evaluate, operand};
pub use operations::index_at;
